//! Hints for an annotated term outside the grammar: what is wrong with the token there.

use crate::hint::tokens::rest_of;
use crate::hint::{Hint, HintKind};

/// The largest integer of an annotated term. The smallest has the next absolute value.
const LARGEST: u64 = 2_147_483_647;

/// Returns a hint for the syntax error at offset `at` of an annotated term, if an integer or a
/// quoted name is there that no text may have. Reads the text once from there on.
pub fn find_term_hint(text: &[u8], at: usize) -> Option<Hint> {
    match rest_of(text, at) {
        [b'"', inside @ ..] => quoted(inside, at),
        [b'.', next, ..] if next.is_ascii_digit() => real(text, at),
        rest => integer(rest, at),
    }
}

/// Returns a hint with these words.
fn words_at(from: usize, to: usize, words: &'static str) -> Hint {
    Hint::new(from, to, HintKind::Words(words))
}

/// Finds a wrong escape in a quoted name, or that the name does not end. `inside` is the text after
/// its first quote, which is at offset `at`.
fn quoted(inside: &[u8], at: usize) -> Option<Hint> {
    let mut end = 0;
    for (i, byte) in inside.iter().enumerate() {
        if i < end {
            continue;
        }
        match (*byte, escape_length(rest_of(inside, i))) {
            (b'"', _) => return None,
            (b'\\', None) => return Some(wrong_escape(at.saturating_add(i).saturating_add(1))),
            (_, length) => end = i.saturating_add(length.unwrap_or(1)),
        }
    }
    let words = "this quoted name does not end";
    Some(words_at(at, at.saturating_add(1), words))
}

/// Returns the hint for a wrong escape at this offset.
fn wrong_escape(from: usize) -> Hint {
    let words =
        "not an escape; write \\n, \\t, \\r, \\\\, \\\" or three octal digits, such as \\101";
    words_at(from, from.saturating_add(2), words)
}

/// Returns the length of the escape at the start of a text, if one is there.
fn escape_length(text: &[u8]) -> Option<usize> {
    match text {
        [b'\\', b'n' | b't' | b'r' | b'\\' | b'"', ..] => Some(2),
        [b'\\', b'0'..=b'3', b'0'..=b'7', b'0'..=b'7', ..] => Some(4),
        _ => None,
    }
}

/// Finds a real number: a point at offset `at`, with a digit before it and after it.
fn real(text: &[u8], at: usize) -> Option<Hint> {
    let before = text.get(at.checked_sub(1)?)?;
    if !before.is_ascii_digit() {
        return None;
    }
    Some(words_at(at, at.saturating_add(1), "terms have no real numbers"))
}

/// Finds an integer that is out of range at the start of a text, which is at offset `at`.
fn integer(rest: &[u8], at: usize) -> Option<Hint> {
    let (digits, sign) = match rest {
        [b'-', digits @ ..] => (digits, 1),
        _ => (rest, 0),
    };
    let count = digits
        .iter()
        .take_while(|byte| byte.is_ascii_digit())
        .count();
    let (number, _) = digits.split_at(count.min(digits.len()));
    if magnitude(number) <= LARGEST.saturating_add(sign) {
        return None;
    }
    let to = at.saturating_add(count).saturating_add(sign as usize);
    Some(words_at(at, to, "integers are from -2147483648 to 2147483647"))
}

/// Returns the number that digits spell, or the largest `u64` if it is larger.
fn magnitude(digits: &[u8]) -> u64 {
    let mut number = 0u64;
    for digit in digits {
        let value = u64::from(digit.saturating_sub(b'0'));
        number = number.saturating_mul(10).saturating_add(value);
    }
    number
}
