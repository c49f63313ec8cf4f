//! Hints about terms: their parentheses, commas and conditions.

use crate::hint::bytes::is_rid;
use crate::hint::change::{Change, Reading};
use crate::hint::fault::{Fault, depth_after};
use crate::hint::tokens::{Token, token_at};
use crate::hint::{FAR, Hint, HintKind};
use rec_syntax::{Part, TokenKind};

/// Other words for the reserved word between conditions.
static JOINERS: [&str; 5] = [",", "if", "&&", "/\\", "&"];

/// Returns a hint about a term.
pub fn find(fault: &Fault<'_>) -> Option<Hint> {
    unclosed(fault)
        .or_else(|| missing_comma(fault))
        .or_else(|| unopened(fault))
        .or_else(|| parentheses(fault))
        .or_else(|| joiner(fault))
        .or_else(|| comma(fault))
}

/// Finds a parenthesis that is not closed.
fn unclosed(fault: &Fault<'_>) -> Option<Hint> {
    let open = fault.before.open;
    if open == 0 || fault.is_bad() || !fault.expects(TokenKind::Close) {
        return None;
    }
    let closed = read_closed(fault)?;
    if !closed.reads(fault.at().saturating_add(open), 1) || !is_closed_best(fault, &closed)? {
        return None;
    }
    let at = open_parenthesis(fault, open)?;
    let words = HintKind::Words("this parenthesis is not closed");
    Some(Hint::new(at.from, at.to, words))
}

/// Returns the text with the open parentheses closed before a syntax error, and how far it is read,
/// or `None` if an allocation fails.
fn read_closed(fault: &Fault<'_>) -> Option<Reading> {
    fault.read(Change {
        times: fault.before.open,
        ..fault.change(0, ")")
    })
}

/// Returns whether before a token parentheses are missing, and not a comma. Before other tokens
/// than an identifier no comma is possible. Returns `None` if an allocation fails.
fn is_closed_best(fault: &Fault<'_>, closed: &Reading) -> Option<bool> {
    if !fault.token.is(TokenKind::PlainWord) {
        return Some(true);
    }
    let open = fault.before.open;
    let separated = fault.read(fault.change(0, ","))?;
    let is_read = closed.reads(fault.at().saturating_add(open), FAR);
    Some(is_read && closed.is_further(open, &separated, 1))
}

/// Returns the innermost of so many open parentheses.
fn open_parenthesis(fault: &Fault<'_>, open: usize) -> Option<Token> {
    let mut depth = 0;
    let mut found = None;
    let mut token = token_at(fault.text, 0);
    for _ in 0..fault.at() {
        if token.from >= fault.at() {
            break;
        }
        depth = depth_after(depth, token);
        if depth == open && token.is(TokenKind::Open) {
            found = Some(token);
        }
        token = token_at(fault.text, token.to);
    }
    found
}

/// Finds arguments without a comma between them.
fn missing_comma(fault: &Fault<'_>) -> Option<Hint> {
    let change = fault.change(0, ",");
    let is_there = fault.token.is(TokenKind::PlainWord) && fault.expects(TokenKind::Comma);
    if !is_there || !is_separated_best(fault, change)? {
        return None;
    }
    let words = HintKind::Words("arguments are separated by commas");
    let mut hint = Hint::of_change(change, words);
    hint.to = fault.token.to;
    Some(hint)
}

/// Returns whether before a word a comma is missing, and not parentheses. Returns `None` if an
/// allocation fails.
fn is_separated_best(fault: &Fault<'_>, change: Change) -> Option<bool> {
    let separated = fault.read(change)?;
    let is_read = separated.reads(change.from.saturating_add(1), FAR);
    let closed = read_closed(fault)?;
    Some(is_read && separated.is_further(1, &closed, fault.before.open))
}

/// Finds a closing parenthesis where none is open.
fn unopened(fault: &Fault<'_>) -> Option<Hint> {
    if fault.before.open > 0 || !fault.token.is(TokenKind::Close) {
        return None;
    }
    let words = HintKind::Words("no parenthesis is open here");
    Some(Hint::new(fault.token.from, fault.token.to, words))
}

/// Finds a term in parentheses of its own.
fn parentheses(fault: &Fault<'_>) -> Option<Hint> {
    let is_term = matches!(fault.before.section, Some(Part::Rules | Part::Eval));
    let is_there = fault.token.is(TokenKind::Open) && fault.expects(TokenKind::PlainWord);
    if !is_term || !is_there {
        return None;
    }
    let close = closing(fault)?;
    if !reads_without(fault, close)? {
        return None;
    }
    let words = "a term starts with a symbol or a variable; remove the parentheses around it";
    let token = fault.token;
    Some(Hint::new(token.from, token.to, HintKind::Words(words)))
}

/// Returns whether the text is read on after a closing parenthesis if that and the one at the
/// syntax error are left out. Returns `None` if an allocation fails.
fn reads_without(fault: &Fault<'_>, close: Token) -> Option<bool> {
    let opened = Change::blank(fault.token.from, fault.token.to);
    let left = opened.apply(fault.alloc, fault.text).ok()?;
    let left = Change::blank(close.from, close.to).read(fault.alloc, left.as_slice())?;
    Some(left.reads(close.to, 1))
}

/// Returns the parenthesis that closes the one at a syntax error, if one term is between them.
fn closing(fault: &Fault<'_>) -> Option<Token> {
    let mut depth = 1;
    let mut token = token_at(fault.text, fault.token.to);
    if token.is(TokenKind::Close) {
        return None;
    }
    for _ in 0..fault.text.len() {
        depth = depth_after(depth, token);
        if depth == 0 {
            return Some(token);
        }
        if token.kind.is_none() || (depth == 1 && token.is(TokenKind::Comma)) {
            return None;
        }
        token = token_at(fault.text, token.to);
    }
    None
}

/// Finds conditions that are not joined by the reserved word.
fn joiner(fault: &Fault<'_>) -> Option<Hint> {
    let written = fault.first_of(&JOINERS)?;
    let is_word = written != "if" || fault.token.is(TokenKind::If);
    if !is_word || !fault.expects(TokenKind::AndIf) {
        return None;
    }
    let change = fault.change(written.len(), " and-if ");
    if !fault.read(change)?.reads(change.from, FAR) {
        return None;
    }
    let words = HintKind::Words("conditions are joined by and-if");
    Some(Hint::of_change(change, words))
}

/// Finds a comma between words or terms that are separated by spaces.
fn comma(fault: &Fault<'_>) -> Option<Hint> {
    let items = items_at(fault)?;
    let change = fault.change(1, " ");
    if !fault.token.is(TokenKind::Comma) || !is_separated(fault, change, items)? {
        return None;
    }
    Some(Hint::of_change(change, HintKind::Comma(items)))
}

/// Returns whether the text is right without a comma. Between terms the whole line must be. Returns
/// `None` if an allocation fails.
fn is_separated(fault: &Fault<'_>, change: Change, items: &str) -> Option<bool> {
    if items == "terms" {
        return is_rid(fault, change, b',');
    }
    let left = fault.read(change)?;
    Some(left.is_next_at(change.from, b',') || left.reads(change.from, FAR))
}

/// Returns what is separated by spaces at a syntax error.
fn items_at(fault: &Fault<'_>) -> Option<&'static str> {
    if fault.before.open > 0 || !fault.expects(TokenKind::PlainWord) {
        return None;
    }
    let section = fault.before.section?;
    if fault.expects(TokenKind::Arrow) || section == Part::Sorts {
        Some("sorts")
    } else if fault.expects(TokenKind::Colon) {
        Some("variables")
    } else if section == Part::Eval {
        Some("terms")
    } else {
        None
    }
}
