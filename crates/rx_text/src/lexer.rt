//! Splits a text into tokens.

ghost use Rattle.std.specs.Prelude.{◌≡◌, ℕ, ◌+◌, ◌-◌, ◌<◌, ◌≤◌, ◌^◌, ◌∷◌, List, Bool, true, false};
ghost use Rattle.std.specs.Prelude.{cond, length, drop, min, slice_index, pos, neg_ℤ};
ghost use Rattle.std.specs.List.{prefix_len};
ghost use Rattle.std.specs.Str.Parse.{digits_value};
ghost use Rattle.rx_term.specs.Name.{continues_name, is_digit};
ghost use Rattle.rx_text.specs.Token.{token_at, quoted, quoted_token, is_layout, integer_token};
ghost use Rattle.rx_text.specs.Token.{mark};
ghost use Rattle.rx_text.specs.Lexemes.{token_of, tokens_after, behind, Advances, IsToken, IsMark};
ghost use Rattle.rx_text.specs.Lexemes.{IsInner, AreDigits};
ghost use Rattle.rx_text.specs.Verdict.{longest};

use crate::nodes::Word;
use crate::quoted_name::quoted_length;
use rx_term::naming::{begins_plain_name, continues_plain_name};

/// The content of a token.
#[derive(Clone, Copy, Drop)]
pub enum LexemeKind {
    Integer(i32),
    Name(Word),
    Open,
    Close,
    OpenBracket,
    CloseBracket,
    OpenBrace,
    CloseBrace,
    Less,
    Greater,
    Comma,
    Bad,
    End,
}

/// A token with the offsets of its first byte and of the byte after it.
#[derive(Clone, Copy, Drop)]
pub struct Lexeme {
    pub kind: LexemeKind,
    pub at: usize,
    pub to: usize,
}

/// Returns whether a byte is layout.
fn is_blank(byte: u8) -> bool
    ensures { result ≡ is_layout byte }
{
    byte == b' ' || byte == b'\t' || byte == b'\n' || byte == b'\r'
}

/// Returns whether a byte is an ASCII digit.
fn is_decimal(byte: u8) -> bool
    ensures { result ≡ is_digit byte }
{
    byte >= b'0' && byte <= b'9'
}

/// Returns the first offset, at least `from`, at which there is no layout.
#[inline(always)]
fn after_layout(bytes: &[u8], from: usize) -> usize
    requires { from ≤ length bytes.now }
    ensures above { from ≤ result }
    ensures within { result ≤ length bytes.now }
    ensures blank { result < length bytes.now → is_layout (slice_index bytes.now result) ≡ false }
    ensures same { tokens_after bytes.now from ≡ tokens_after bytes.now result }
{
    let mut at = from;
    while at < bytes.len() && is_blank(bytes[at]) {
        at += 1;
    }
    at
}

/// Returns the end of the digits that start at `from`.
fn digits_end(bytes: &[u8], from: usize) -> usize
    requires { from ≤ length bytes.now }
    ensures above { from ≤ result }
    ensures within { result ≤ length bytes.now }
    ensures end { result ≡ from + prefix_len is_digit (drop from bytes.now) }
{
    let mut end = from;
    while end < bytes.len() && is_decimal(bytes[end]) {
        end += 1;
    }
    end
}

/// Returns the end of the bytes that continue a plain name, starting at `from`.
#[inline(always)]
fn name_end(bytes: &[u8], from: usize) -> usize
    requires { from ≤ length bytes.now }
    ensures above { from ≤ result }
    ensures within { result ≤ length bytes.now }
    ensures end { result ≡ from + prefix_len continues_name (drop from bytes.now) }
{
    let mut end = from;
    while end < bytes.len() && continues_plain_name(bytes[end]) {
        end += 1;
    }
    end
}

/// Returns the value of some digits, or the greatest `u32` if the value is greater.
fn magnitude(digits: &[u8]) -> u32
    requires { AreDigits digits.now }
    ensures { result ≡ min (digits_value 10 digits.now) (2 ^ 32 - 1) }
{
    let mut value: u32 = 0;
    for digit in digits {
        value = value
            .saturating_mul(10)
            .saturating_add(u32::from(*digit - b'0'));
    }
    value
}

/// Returns the token of an integer, or a bad token if it does not fit 32 bits with a sign.
fn integer(magnitude: u32, negative: bool) -> LexemeKind
    ensures token { (bytes : List ℕ) → token_of bytes result ≡ integer_token
        (cond negative (neg_ℤ (pos magnitude)) (pos magnitude)) }
    ensures kind { IsMark result }
{
    let value = if negative {
        -i64::from(magnitude)
    } else {
        i64::from(magnitude)
    };
    match i32::try_from(value) {
        Ok(value) => LexemeKind::Integer(value),
        Err(_) => LexemeKind::Bad,
    }
}

/// Returns the token of a quoted name whose first byte after the quote is at `from`, and its end.
/// If the name is not valid, this is a bad token.
fn quoted_word(bytes: &[u8], from: usize) -> (LexemeKind, usize)
    requires from { from ≤ length bytes.now }
    requires short { length bytes.now ≤ longest }
    ensures token { token_of bytes.now
        result.0 ≡ (quoted_token (quoted 0 (drop from bytes.now))).0 }
    ensures end { result.1 ≡ from + (quoted_token (quoted 0 (drop from bytes.now))).1 }
    ensures within { result.1 ≤ length bytes.now }
    ensures inner { IsInner result.0 }
    ensures kind { IsToken bytes.now result.0 }
{
    match quoted_length(&bytes[from..]) {
        Some(used) => {
            let word = Word {
                from: from as u32,
                to: (from + used) as u32,
                quoted: true,
            };
            (LexemeKind::Name(word), from + used)
        }
        None => (LexemeKind::Bad, from),
    }
}

/// Returns the token of a punctuation mark, or a bad token for any other byte.
#[inline(always)]
fn mark_of(byte: u8) -> LexemeKind
    ensures token { (bytes : List ℕ) → token_of bytes result ≡ mark byte }
    ensures kind { IsMark result }
{
    match byte {
        b'(' => LexemeKind::Open,
        b')' => LexemeKind::Close,
        b'[' => LexemeKind::OpenBracket,
        b']' => LexemeKind::CloseBracket,
        b'{' => LexemeKind::OpenBrace,
        b'}' => LexemeKind::CloseBrace,
        b'<' => LexemeKind::Less,
        b'>' => LexemeKind::Greater,
        b',' => LexemeKind::Comma,
        _ => LexemeKind::Bad,
    }
}

/// Returns the token that starts at `at`, and its end.
#[inline(always)]
fn token(bytes: &[u8], at: usize) -> (LexemeKind, usize)
    requires at { at < length bytes.now }
    requires short { length bytes.now ≤ longest }
    ensures token { token_of bytes.now
        result.0 ≡ (token_at (slice_index bytes.now at) (drop (at + 1) bytes.now)).0 }
    ensures end { result.1 ≡ at + 1
        + (token_at (slice_index bytes.now at) (drop (at + 1) bytes.now)).1 }
    ensures within { result.1 ≤ length bytes.now }
    ensures inner { IsInner result.0 }
    ensures kind { IsToken bytes.now result.0 }
{
    let first = bytes[at];
    if is_decimal(first) {
        let end = digits_end(bytes, at + 1);
        (integer(magnitude(&bytes[at..end]), false), end)
    } else if first == b'-' && at + 1 < bytes.len() && is_decimal(bytes[at + 1]) {
        let end = digits_end(bytes, at + 1);
        (integer(magnitude(&bytes[at + 1..end]), true), end)
    } else if begins_plain_name(first) {
        let end = name_end(bytes, at + 1);
        let word = Word {
            from: at as u32,
            to: end as u32,
            quoted: false,
        };
        (LexemeKind::Name(word), end)
    } else if first == b'"' {
        quoted_word(bytes, at + 1)
    } else {
        (mark_of(first), at + 1)
    }
}

/// Returns the first token at or after `from`.
#[inline(always)]
pub fn next(bytes: &[u8], from: usize) -> Lexeme
    requires from { from ≤ length bytes.now }
    requires short { length bytes.now ≤ longest }
    ensures place { result.at ≤ length bytes.now }
    ensures within { result.to ≤ length bytes.now }
    ensures advances { Advances result.kind from result.to }
    ensures kind { IsToken bytes.now result.kind }
    ensures first { tokens_after bytes.now from ≡ (result.at, token_of bytes.now result.kind)
        ∷ behind bytes.now result.kind result.to }
{
    let at = after_layout(bytes, from);
    if at == bytes.len() {
        return Lexeme {
            kind: LexemeKind::End,
            at,
            to: at,
        };
    }
    let (kind, to) = token(bytes, at);
    Lexeme { kind, at, to }
}
