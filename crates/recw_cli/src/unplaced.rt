//! The offsets of errors that are reported without one: `T1`, `P1` and `P2`.

use crate::elements::{Kind, Lexeme, Token, next_lexeme};
use crate::place::show_bytes;
use rx_run::Reason;
use std::io;
use std::io::Write;

/// The inner terms of placeholders.
static KNOWN: [&str; 6] = ["term", "int", "str", "appl", "placeholder", "list"];

/// The part of a text that an error is about.
#[derive(Clone, Copy)]
pub struct Cause<'a> {
    /// The offset of the part.
    pub at: usize,
    /// What it is, or what to do with it.
    note: &'static str,
    /// The placeholder that the note is about, or no bytes.
    placeholder: &'a [u8],
}

impl Cause<'_> {
    /// Writes what the part is, or what to do with it, after the rest of a line.
    pub fn write<W: Write>(&self, out: &mut W) -> io::Result<()> {
        write!(out, "; {}", self.note)?;
        if self.placeholder.is_empty() {
            return Ok(());
        }
        out.write_all(b" `")?;
        show_bytes(self.placeholder, out)?;
        out.write_all(b"`")
    }
}

/// Returns the part of a syntactically correct text that an error is about, for `T1`, `P1` and `P2`.
pub fn cause_of(reason: Reason, text: &[u8]) -> Option<Cause<'_>> {
    match reason {
        Reason::TermsRule { number: 1 } | Reason::Unlisted => unlisted(text),
        Reason::Unknown => placeholder_cause(text, false, "found"),
        Reason::Annotated => placeholder_cause(text, true, "remove the annotations of"),
        _ => None,
    }
}

/// Returns the offset of a token.
fn offset_of(text: &[u8], lexeme: Lexeme<'_>) -> usize {
    text.len().saturating_sub(lexeme.from.len())
}

/// Returns whether a token is this mark.
fn is_mark(lexeme: Lexeme<'_>, mark: u8) -> bool {
    match lexeme.token {
        Token::Mark(own) => own == mark,
        _ => false,
    }
}

/// Finds a term that is no list, or the annotations of a list.
fn unlisted(text: &[u8]) -> Option<Cause<'_>> {
    let first = next_lexeme(text)?;
    if !is_mark(first, b'[') {
        let note = "write brackets around it, as in [a,b]";
        return Some(plain_cause(offset_of(text, first), note));
    }
    let at = annotations_of(text)?;
    Some(plain_cause(at, "remove the annotations of the list"))
}

/// Returns a cause without a placeholder.
fn plain_cause(at: usize, note: &'static str) -> Cause<'static> {
    Cause {
        at,
        note,
        placeholder: &[],
    }
}

/// Returns the offset at which the annotations of a whole text start.
fn annotations_of(text: &[u8]) -> Option<usize> {
    let mut depth = 0usize;
    let mut rest = text;
    for _ in 0..=text.len() {
        let lexeme = next_lexeme(rest)?;
        if depth == 0 && is_mark(lexeme, b'{') {
            return Some(offset_of(text, lexeme));
        }
        depth = depth_after(depth, lexeme);
        rest = lexeme.behind;
    }
    None
}

/// Returns the number of open brackets of all kinds after a token.
fn depth_after(depth: usize, lexeme: Lexeme<'_>) -> usize {
    match lexeme.token {
        Token::Mark(b'(' | b'[' | b'{' | b'<') => depth.saturating_add(1),
        Token::Mark(b')' | b']' | b'}' | b'>') => depth.saturating_sub(1),
        _ => depth,
    }
}

/// Finds the first placeholder that is not known, or the first known one that has annotations.
fn placeholder_cause<'a>(text: &'a [u8], is_known: bool, note: &'static str) -> Option<Cause<'a>> {
    let from = first_placeholder(text, is_known)?;
    let at = text.len().saturating_sub(from.len());
    let (placeholder, _) = from.split_at(placeholder_length(from).min(from.len()));
    Some(Cause {
        at,
        note,
        placeholder,
    })
}

/// Returns the text from the first placeholder on that is not known or, if `is_known`, that is known
/// and has annotations.
fn first_placeholder(text: &[u8], is_known: bool) -> Option<&[u8]> {
    let mut rest = text;
    for _ in 0..=text.len() {
        let lexeme = next_lexeme(rest)?;
        rest = lexeme.behind;
        if is_mark(lexeme, b'<') {
            let Some(behind) = after_known(rest) else {
                return if is_known { None } else { Some(lexeme.from) };
            };
            if is_known && has_annotations(behind) {
                return Some(lexeme.from);
            }
            rest = behind;
        }
    }
    None
}

/// Returns the text after a known placeholder, whose opening mark is before the text.
fn after_known(text: &[u8]) -> Option<&[u8]> {
    let name = next_lexeme(text)?;
    let close = next_lexeme(name.behind)?;
    let is_known = match name.token {
        Token::Name(Kind::Plain, word) => is_known_word(word),
        _ => false,
    };
    if is_known && is_mark(close, b'>') {
        Some(close.behind)
    } else {
        None
    }
}

/// Returns whether a word is the inner term of a placeholder.
fn is_known_word(word: &[u8]) -> bool {
    for known in &KNOWN {
        if word == known.as_bytes() {
            return true;
        }
    }
    false
}

/// Returns whether a text begins with annotations that are not empty.
fn has_annotations(text: &[u8]) -> bool {
    let Some(open) = next_lexeme(text) else {
        return false;
    };
    match next_lexeme(open.behind) {
        Some(first) => is_mark(open, b'{') && !is_mark(first, b'}'),
        None => false,
    }
}

/// Returns the length of the placeholder at the start of a text.
fn placeholder_length(text: &[u8]) -> usize {
    let mut depth = 0usize;
    let mut rest = text;
    for _ in 0..=text.len() {
        let Some(lexeme) = next_lexeme(rest) else {
            break;
        };
        depth = depth_after(depth, lexeme);
        rest = lexeme.behind;
        if depth == 0 {
            break;
        }
    }
    text.len().saturating_sub(rest.len())
}
