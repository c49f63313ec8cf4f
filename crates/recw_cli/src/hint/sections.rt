//! Hints about the frame of a specification: its name, its sections, and its end.

use crate::hint::fault::Fault;
use crate::hint::tokens::{Token, rank, token_at};
use crate::hint::{Hint, HintKind};
use crate::place::line_of;
use rec_syntax::{Part, TokenKind};

/// Returns a hint about the frame of a specification.
pub fn find(fault: &Fault<'_>) -> Option<Hint> {
    order(fault)
        .or_else(|| no_name(fault))
        .or_else(|| second(fault))
}

/// Returns a hint about the token at a syntax error.
fn at_token(fault: &Fault<'_>, kind: HintKind) -> Hint {
    Hint::new(fault.token.from, fault.token.to, kind)
}

/// Finds a section that is out of order. A reserved word that is used as a name is none.
fn order(fault: &Fault<'_>) -> Option<Hint> {
    let part = fault.token.part()?;
    let next = token_at(fault.text, fault.token.to);
    let is_name = next.is(TokenKind::Colon) || next.is(TokenKind::Open);
    if is_name || !fault.is_at_item() {
        return None;
    }
    let head = first_from(fault, part)?;
    let kind = kind_of_order(part, head.part()?, line_of(fault.text, head.from));
    Some(at_token(fault, kind))
}

/// Returns what is wrong with a section if the first section that is not before it in the order is
/// on this line.
fn kind_of_order(part: Part, other: Part, line: usize) -> HintKind {
    if part == other {
        HintKind::Twice(part, line)
    } else {
        HintKind::Before(part, other)
    }
}

/// Returns the first section before a syntax error that is not before another in the order.
fn first_from(fault: &Fault<'_>, part: Part) -> Option<Token> {
    let mut token = token_at(fault.text, 0);
    for _ in 0..fault.at() {
        if token.from >= fault.at() {
            break;
        }
        if let Some(other) = token.part()
            && rank(other) >= rank(part)
        {
            return Some(token);
        }
        token = token_at(fault.text, token.to);
    }
    None
}

/// Finds a specification without a name.
fn no_name(fault: &Fault<'_>) -> Option<Hint> {
    let is_other = matches!(
        fault.token.kind,
        Some(TokenKind::Section(_) | TokenKind::EndSpec | TokenKind::End)
    );
    if !is_other || !fault.before.follows(TokenKind::RecSpec) {
        return None;
    }
    let words = "the specification has no name; write REC-SPEC NAME";
    Some(at_token(fault, HintKind::Words(words)))
}

/// Finds a second specification.
fn second(fault: &Fault<'_>) -> Option<Hint> {
    if !fault.token.is(TokenKind::RecSpec) || !fault.expects(TokenKind::End) {
        return None;
    }
    let words = "a second specification; a text has only one";
    Some(at_token(fault, HintKind::Words(words)))
}
