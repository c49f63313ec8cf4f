//! Hints about arrows of declarations, and about parts of rules at another place.

use crate::hint::change::Change;
use crate::hint::fault::Fault;
use crate::hint::tokens::Token;
use crate::hint::{Hint, HintKind, NEAR};
use rec_syntax::{Part, Span, TokenKind};

/// Returns a hint about a declaration, or about a part of a rule at another place.
pub fn find(fault: &Fault<'_>) -> Option<Hint> {
    second_arrow(fault)
        .or_else(|| no_arrow(fault))
        .or_else(|| early_condition(fault))
        .or_else(|| rule_in_eval(fault))
}

/// Returns a hint about the token at a syntax error.
fn at_token(fault: &Fault<'_>, words: &'static str) -> Hint {
    Hint::new(fault.token.from, fault.token.to, HintKind::Words(words))
}

/// Finds an arrow between the sorts of arguments.
fn second_arrow(fault: &Fault<'_>) -> Option<Hint> {
    let is_symbol = matches!(fault.before.section, Some(Part::Cons | Part::Opns));
    let [Some(sort), Some(arrow), _, _] = fault.before.last else {
        return None;
    };
    let is_sort = sort.is(TokenKind::PlainWord) && arrow.is(TokenKind::Arrow);
    if !is_symbol || !is_sort || !fault.token.is(TokenKind::Arrow) {
        return None;
    }
    if !fault
        .read(Change::blank(arrow.from, arrow.to))?
        .reads(fault.at(), 1)
    {
        return None;
    }
    let words = "one arrow in a declaration; separate the sorts of arguments by spaces";
    Some(at_token(fault, words))
}

/// Finds a declaration without an arrow.
fn no_arrow(fault: &Fault<'_>) -> Option<Hint> {
    if !fault.expects(TokenKind::Arrow) || !fault.expects(TokenKind::PlainWord) {
        return None;
    }
    let [sort, colon, name] = last_of_declaration(fault)?;
    let change = Change::new(sort.from, sort.from, "-> ");
    let is_sort = sort.is(TokenKind::PlainWord);
    if !is_sort || !fault.read(change)?.reads(change.moved(fault.at()), NEAR) {
        return None;
    }
    Some(if colon.is(TokenKind::Colon) {
        constant(name, sort, change)
    } else {
        in_declaration(sort, change)
    })
}

/// Returns the last tokens of the declaration before a syntax error, the last one first. The name
/// of another declaration, if the error is at its colon, is left out.
fn last_of_declaration(fault: &Fault<'_>) -> Option<[Token; 3]> {
    match (fault.token.is(TokenKind::Colon), fault.before.last) {
        (true, [_, Some(sort), Some(colon), Some(name)]) => Some([sort, colon, name]),
        (false, [Some(sort), Some(colon), Some(name), _]) => Some([sort, colon, name]),
        _ => None,
    }
}

/// Returns the hint for a constant without an arrow.
fn constant(name: Token, sort: Token, change: Change) -> Hint {
    let kind = HintKind::Constant(span_of(name), span_of(sort));
    let mut hint = Hint::of_change(change, kind);
    hint.from = name.from;
    hint.to = sort.to;
    hint
}

/// Returns the range of a token.
fn span_of(token: Token) -> Span {
    Span {
        from: token.from,
        to: token.to,
    }
}

/// Returns the hint for another declaration without an arrow.
fn in_declaration(sort: Token, change: Change) -> Hint {
    let words = HintKind::Words("a declaration has an arrow before its last sort");
    let mut hint = Hint::of_change(change, words);
    hint.to = sort.to;
    hint
}

/// Finds a condition before the first rule.
fn early_condition(fault: &Fault<'_>) -> Option<Hint> {
    let is_rules = matches!(fault.before.section, Some(Part::Rules));
    let is_joined = fault.expects(TokenKind::AndIf);
    if !is_rules || is_joined || !fault.token.is(TokenKind::If) || !fault.is_at_item() {
        return None;
    }
    Some(at_token(fault, "a condition comes after its rule"))
}

/// Finds a rule among terms to evaluate.
fn rule_in_eval(fault: &Fault<'_>) -> Option<Hint> {
    let is_eval = matches!(fault.before.section, Some(Part::Eval));
    if !is_eval || !fault.token.is(TokenKind::Arrow) || !fault.is_at_item() {
        return None;
    }
    Some(at_token(fault, "EVAL has terms; write rules in RULES"))
}
