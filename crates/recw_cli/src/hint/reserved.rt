//! Hints about reserved words that are misspelt, or called otherwise in other languages.

use crate::hint::change::Change;
use crate::hint::fault::Fault;
use crate::hint::tokens::{RESERVED, rest_of, starts_word};
use crate::hint::{FAR, Hint, HintKind};
use crate::names::is_word_byte;
use crate::near::is_near;

/// Words of other languages, and the reserved words that they stand for. Case is not compared.
static OTHERS: [(&str, &str); 16] = [
    ("END", "END-SPEC"),
    ("CONSTRUCTORS", "CONS"),
    ("CTORS", "CONS"),
    ("FUNCTIONS", "OPNS"),
    ("OPERATIONS", "OPNS"),
    ("OPERATORS", "OPNS"),
    ("VARIABLES", "VARS"),
    ("EQUATIONS", "RULES"),
    ("EQNS", "RULES"),
    ("REWRITES", "RULES"),
    ("TYPES", "SORTS"),
    ("EVALUATE", "EVAL"),
    ("TERMS", "EVAL"),
    ("WHEN", "if"),
    ("WHERE", "if"),
    ("AND", "and-if"),
];

/// The second part of two reserved words.
const SECOND: &str = " SPEC";

/// Returns a hint about the last word at or before a syntax error that may stand for a reserved
/// word, if the text is read further with that.
pub fn find(fault: &Fault<'_>) -> Option<Hint> {
    for change in last_near(fault.text, fault.at()).iter().flatten() {
        if is_mended(fault, *change)? {
            return Some(hint_of(*change));
        }
    }
    None
}

/// Returns the hint that a reserved word is meant.
fn hint_of(change: Change) -> Hint {
    let meant = change.meant;
    let of = match meant {
        "if" | "and-if" => "a reserved word",
        _ => "a section",
    };
    Hint::of_change(change, HintKind::Instead { of, meant })
}

/// Returns whether the text is read further with a reserved word in place of another. Returns
/// `None` if an allocation fails.
fn is_mended(fault: &Fault<'_>, change: Change) -> Option<bool> {
    let word = fault.text.get(change.from..change.to).unwrap_or(&[]);
    let count = if is_likely(word, change.meant) {
        1
    } else {
        FAR
    };
    Some(fault.read(change)?.reads(change.moved(fault.at()), count))
}

/// Returns whether a word is hardly doubtful: one in upper case, or in place of a reserved word
/// that begins or ends the specification.
fn is_likely(word: &[u8], meant: &str) -> bool {
    let is_upper = match word.first() {
        Some(first) => first.is_ascii_uppercase(),
        None => false,
    };
    meant.ends_with("-SPEC") || (is_upper && other_word(word).is_none())
}

/// Returns the reserved word that a word of other languages stands for.
fn other_word(word: &[u8]) -> Option<&'static str> {
    for (written, meant) in &OTHERS {
        if word.eq_ignore_ascii_case(written.as_bytes()) {
            return Some(*meant);
        }
    }
    None
}

/// Returns the last three words that begin at or before an offset, are not reserved, and may stand
/// for a reserved word, in reverse order.
fn last_near(text: &[u8], at: usize) -> [Option<Change>; 3] {
    let mut words = Words::new(text);
    for (i, byte) in text.iter().enumerate() {
        if i > at && words.from.is_none() {
            break;
        }
        words.take(i, *byte, at);
    }
    words.end(text.len(), at);
    words.last
}

/// A walk over the words of a text.
#[derive(Clone, Copy)]
struct Words<'a> {
    /// The text.
    text: &'a [u8],
    /// The offset of the current word.
    from: Option<usize>,
    /// Whether the walk is in a comment.
    is_comment: bool,
    /// The last words that may stand for a reserved word, in reverse order.
    last: [Option<Change>; 3],
}

impl<'a> Words<'a> {
    /// Returns a walk before the first byte.
    fn new(text: &'a [u8]) -> Words<'a> {
        Words {
            text,
            from: None,
            is_comment: false,
            last: [None, None, None],
        }
    }

    /// Processes the byte at offset `i`.
    fn take(&mut self, i: usize, byte: u8, at: usize) {
        if self.is_comment {
            self.is_comment = byte != b'\n';
        } else if self.goes_on(i, byte) {
            self.from = Some(self.from.unwrap_or(i));
        } else {
            self.end(i, at);
            self.is_comment = byte == b'%';
        }
    }

    /// Returns whether the byte at `i` is part of a word. A `-` is part of one only if it joins two
    /// parts, so the first `-` of `A->B` and those of `A-->B` are not.
    fn goes_on(&self, i: usize, byte: u8) -> bool {
        if byte != b'-' {
            return is_word_byte(byte);
        }
        starts_word(self.text.get(i.saturating_add(1)))
    }

    /// Ends the current word at offset `to`.
    fn end(&mut self, to: usize, at: usize) {
        let Some(from) = self.from.take() else {
            return;
        };
        if from <= at
            && let Some(word) = self.text.get(from..to)
            && let Some((meant, more)) = meant_by(word, rest_of(self.text, to))
        {
            let change = Change::new(from, to.saturating_add(more), meant);
            let [last, before, _] = self.last;
            self.last = [Some(change), last, before];
        }
    }
}

/// Returns the reserved word that a word may stand for, and the number of bytes after it that
/// belong to it. Returns `None` for a reserved word.
fn meant_by(word: &[u8], rest: &[u8]) -> Option<(&'static str, usize)> {
    if rest.starts_with(SECOND.as_bytes())
        && let Some(meant) = first_half_of(word)
    {
        return Some((meant, SECOND.len()));
    }
    Some((near_word(word)?, 0))
}

/// Returns the reserved word of which a word is the part before the dash.
fn first_half_of(word: &[u8]) -> Option<&'static str> {
    match word {
        b"END" => Some("END-SPEC"),
        b"REC" => Some("REC-SPEC"),
        _ => None,
    }
}

/// Returns the reserved word that a word is near to, or stands for in other languages, unless it is
/// one itself.
fn near_word(word: &[u8]) -> Option<&'static str> {
    for (reserved, _) in &RESERVED {
        if word == reserved.as_bytes() {
            return None;
        }
    }
    for (reserved, _) in &RESERVED {
        if is_near(word, reserved.as_bytes()) {
            return Some(*reserved);
        }
    }
    other_word(word)
}
