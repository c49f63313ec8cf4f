//! Hints about bytes that are no part of a token: other encodings, spellings, and comments.

use crate::hint::change::{Change, Reading};
use crate::hint::fault::Fault;
use crate::hint::tokens::{is_blank, rest_of, token_at};
use crate::hint::{FAR, Hint, HintKind, NEAR};
use rec_syntax::{Part, TokenKind};

/// Other spellings of a token.
#[derive(Clone, Copy)]
struct Spelling {
    /// The kind of the token.
    kind: TokenKind,
    /// Its spelling.
    meant: &'static str,
    /// What it is called.
    of: &'static str,
}

/// Spellings of arrows. One that another begins with is after that.
static ARROWS: [&str; 13] = [
    "==>",
    "-->",
    "::=",
    "\u{2013}>",
    "\u{2014}>",
    ":=",
    "=>",
    "~>",
    "==",
    "- >",
    "\u{2192}",
    "\u{21d2}",
    "=",
];

/// Spellings of the comparison of equal terms.
static EQUALS: [&str; 7] = ["=:=", "-> <-", "-><", "==", "=>", "->", "="];

/// Spellings of the comparison of different terms.
static UNEQUALS: [&str; 5] = ["=/=", "!=", "/=", "<>", "\u{2260}"];

/// Other quotes than that of names.
static QUOTES: [&str; 5] = ["\u{2019}", "\u{2018}", "\u{2032}", "\u{b4}", "`"];

/// Spaces that do not separate words.
static SPACES: [&str; 2] = ["\u{a0}", "\u{202f}"];

/// The marks that start a comment in other languages.
static COMMENTS: [&str; 8] = ["<!--", "(*", "/*", "{-", "//", "--", "#", ";"];

/// Returns a hint about the bytes at a syntax error.
pub fn find(fault: &Fault<'_>) -> Option<Hint> {
    encoding(fault)
        .or_else(|| conflict(fault))
        .or_else(|| other_spelling(fault))
        .or_else(|| quote(fault))
        .or_else(|| space(fault))
        .or_else(|| mark(fault))
        .or_else(|| comment(fault))
        .or_else(|| letter(fault))
}

/// Finds a text in UTF-16.
fn encoding(fault: &Fault<'_>) -> Option<Hint> {
    let is_wide = match fault.text {
        [0xff, 0xfe, ..] | [0xfe, 0xff, ..] => true,
        [0, second, ..] => matches!(*second, 1..=0x7f),
        [first, 0, ..] => *first <= 0x7f,
        _ => false,
    };
    if !is_wide || !fault.expects(TokenKind::RecSpec) {
        return None;
    }
    let words = "the text is in UTF-16; save it in UTF-8";
    Some(Hint::new(0, 2, HintKind::Words(words)))
}

/// Finds a mark that a merge leaves at a conflict.
fn conflict(fault: &Fault<'_>) -> Option<Hint> {
    let at = fault.at();
    let is_first = match at.checked_sub(1) {
        Some(before) => fault.text.get(before) == Some(&b'\n'),
        None => true,
    };
    let rest = fault.rest();
    let is_mark = rest.starts_with(b"<<<<<<< ") || rest.starts_with(b">>>>>>> ");
    if !is_first || !is_mark {
        return None;
    }
    let words = HintKind::Words("a conflict of a merge");
    Some(Hint::new(at, at.saturating_add(7), words))
}

/// Finds another spelling of an arrow or a comparison.
fn other_spelling(fault: &Fault<'_>) -> Option<Hint> {
    let arrow = Spelling {
        kind: TokenKind::Arrow,
        meant: "->",
        of: "an arrow",
    };
    let equal = Spelling {
        kind: TokenKind::Equal,
        meant: "-><-",
        of: "a comparison",
    };
    let unequal = Spelling {
        kind: TokenKind::Unequal,
        meant: "->/<-",
        of: "a comparison",
    };
    spelled(fault, &ARROWS, arrow)
        .or_else(|| spelled(fault, &EQUALS, equal))
        .or_else(|| spelled(fault, &UNEQUALS, unequal))
}

/// Finds another spelling of an expected token.
fn spelled(fault: &Fault<'_>, texts: &[&'static str], spelling: Spelling) -> Option<Hint> {
    let Spelling { kind, meant, of } = spelling;
    if !fault.expects(kind) {
        return None;
    }
    for written in texts {
        if is_whole(fault.rest(), written.as_bytes()) {
            let change = fault.change(written.len(), meant);
            return instead(fault, change, of, NEAR);
        }
    }
    None
}

/// Returns whether a text begins with a mark that does not go on.
fn is_whole(text: &[u8], mark: &[u8]) -> bool {
    text.starts_with(mark)
        && !matches!(
            text.get(mark.len()),
            Some(b'-' | b'=' | b'<' | b'>' | b'~' | b':' | b'!' | b'/')
        )
}

/// Returns the hint that something else is meant, if so many tokens are read with that.
fn instead(fault: &Fault<'_>, change: Change, of: &'static str, count: usize) -> Option<Hint> {
    if !fault.read(change)?.reads(change.from, count) {
        return None;
    }
    let meant = change.meant;
    Some(Hint::of_change(change, HintKind::Instead { of, meant }))
}

/// Finds another quote than that of names.
fn quote(fault: &Fault<'_>) -> Option<Hint> {
    let written = fault.first_of(&QUOTES)?;
    instead(fault, fault.change(written.len(), "'"), "a quote", 1)
}

/// Finds a space that does not separate words.
fn space(fault: &Fault<'_>) -> Option<Hint> {
    let change = fault.change(fault.first_of(&SPACES)?.len(), " ");
    if !fault.read(change)?.reads(change.from, 1) {
        return None;
    }
    let words = HintKind::Words("no-break space; write a space");
    Some(Hint::of_change(change, words))
}

/// Finds a mark at the end of an item of a section.
fn mark(fault: &Fault<'_>) -> Option<Hint> {
    let mark = end_mark(fault.rest())?;
    let items = items_of(fault.before.section?);
    let change = fault.change(1, " ");
    if !fault.is_at_item() || !is_rid(fault, change, mark)? {
        return None;
    }
    Some(Hint::of_change(change, HintKind::Mark(items, mark)))
}

/// Returns the first byte of a text if it is a mark at the end of an item in other languages. A
/// full stop is one before a blank only.
fn end_mark(text: &[u8]) -> Option<u8> {
    match text {
        [b';', ..] => Some(b';'),
        [b'.'] | [b'.', b'%', ..] => Some(b'.'),
        [b'.', next, ..] if is_blank(*next) => Some(b'.'),
        _ => None,
    }
}

/// Returns what the items of a section are called.
fn items_of(part: Part) -> &'static str {
    match part {
        Part::Rules => "rules",
        Part::Eval => "terms",
        _ => "declarations",
    }
}

/// Returns whether the line is right without a mark, and the text is read on up to another of that
/// kind at least. Returns `None` if an allocation fails.
pub fn is_rid(fault: &Fault<'_>, change: Change, mark: u8) -> Option<bool> {
    let left = fault.read(change)?;
    let end = line_end(fault.text, change.from);
    Some(left.is_next_at(end, mark) || is_read_past(&left, end, change.from))
}

/// Returns whether a text is read up to an offset and for some tokens from another on.
fn is_read_past(left: &Reading, end: usize, from: usize) -> bool {
    left.is_past(end) && left.reads(from, FAR)
}

/// Returns the offset of the end of the line of an offset.
fn line_end(text: &[u8], at: usize) -> usize {
    let rest = rest_of(text, at);
    let line = rest.iter().take_while(|byte| **byte != b'\n');
    at.saturating_add(line.count())
}

/// Finds a comment of another language.
fn comment(fault: &Fault<'_>) -> Option<Hint> {
    let from = comment_start(fault)?;
    let rest = rest_of(fault.text, from);
    let mark = first_comment(rest)?;
    let inside = from.saturating_add(mark.len());
    let to = comment_end(fault.text, inside, mark);
    let next = token_at(fault.text, to);
    let is_next = rest_of(fault.text, next.from).starts_with(mark.as_bytes());
    let left = fault.read(Change::blank(from, to))?;
    if !is_next && !left.reads(to, 1) {
        return None;
    }
    let words = HintKind::Words("not a comment; comments start with %");
    Some(Hint::new(from, inside, words))
}

/// Returns the offset at which a comment of another language can start: that of the syntax error,
/// or that of a parenthesis before it.
fn comment_start(fault: &Fault<'_>) -> Option<usize> {
    let at = fault.at();
    match fault.token.kind {
        None if fault.rest().starts_with(b"*") && fault.before.follows(TokenKind::Open) => {
            at.checked_sub(1)
        }
        None | Some(TokenKind::Open) => Some(at),
        _ => None,
    }
}

/// Returns the mark that starts a comment in another language, if a text begins with one that no
/// other mark follows.
fn first_comment(text: &[u8]) -> Option<&'static str> {
    for mark in &COMMENTS {
        if text.starts_with(mark.as_bytes()) {
            let next = text.get(mark.len());
            let is_other = matches!(next, Some(b'=' | b'<' | b'>' | b':' | b'(' | b')' | b','));
            return if is_other { None } else { Some(*mark) };
        }
    }
    None
}

/// Returns the offset after a comment that starts with a mark before offset `from`: after the mark
/// that ends it if there is one, else that of the end of the line.
fn comment_end(text: &[u8], from: usize, mark: &str) -> usize {
    let closer: &[u8] = match mark {
        "<!--" => b"-->",
        "(*" => b"*)",
        "/*" => b"*/",
        "{-" => b"-}",
        _ => return line_end(text, from),
    };
    match find_in(rest_of(text, from), closer) {
        Some(length) => from.saturating_add(length).saturating_add(closer.len()),
        None => line_end(text, from),
    }
}

/// Returns the first offset at which a text has another.
fn find_in(text: &[u8], other: &[u8]) -> Option<usize> {
    for (i, _) in text.iter().enumerate() {
        if rest_of(text, i).starts_with(other) {
            return Some(i);
        }
    }
    None
}

/// Finds a letter outside ASCII.
fn letter(fault: &Fault<'_>) -> Option<Hint> {
    if !fault.is_bad() {
        return None;
    }
    let length = letter_length(fault.rest())?;
    let from = fault.at();
    let words = HintKind::Words("other letters than those of ASCII are in comments only");
    Some(Hint::new(from, from.saturating_add(length), words))
}

/// Returns the length of the letter outside ASCII at the start of a text, in UTF-8 or in Latin-1.
/// Blocks of characters that have mostly letters are taken as a whole.
fn letter_length(text: &[u8]) -> Option<usize> {
    let (first, rest) = text.split_first()?;
    let follows = match rest.first() {
        Some(next) => matches!(*next, 0x80..=0xbf),
        None => false,
    };
    match (*first, rest.first()) {
        (0xc3, Some(0x97 | 0xb7)) | (0xe3, Some(0x80)) => None,
        (0xc3..=0xdf, _) if follows => Some(2),
        (0xe0 | 0xe1 | 0xe3..=0xed, _) if follows => Some(3),
        (0xd7 | 0xf7, _) => None,
        (0xc0..=0xff, _) if !follows => Some(1),
        _ => None,
    }
}
