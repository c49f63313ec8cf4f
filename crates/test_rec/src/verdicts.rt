//! Tests of the well-formedness rules of specifications.

use crate::texts::{Nest, Q, checked_spec, expect, spec_of};
use rec_sorts::{Checked, Letter, Meaning, SortFault, check};
use std::alloc::Global;
use std::process::Abort;

/// A part of the specification, its new text, and the violated rule with its offset.
type Changed = (&'static str, &'static str, (u8, u32));

const CHANGED: [Changed; 16] = [
    ("SORTS A B", "SORTS A B A", (1, 21)),
    ("f : A -> A", "f : A -> A a : -> A", (2, 60)),
    ("VARS X Y", "VARS X Y X", (3, 69)),
    ("VARS X Y", "VARS X a", (3, 67)),
    ("VARS X Y : A", "VARS X Y : C", (4, 71)),
    ("EVAL f(a)", "EVAL f(c)", (5, 96)),
    ("EVAL f(a)", "EVAL f(a,a)", (6, 94)),
    ("RULES f(X)", "RULES f(X(a))", (6, 81)),
    ("EVAL f(a)", "EVAL f()", (6, 94)),
    ("EVAL f(a)", "EVAL f(b)", (7, 96)),
    ("f(X) -> X", "a -> a", (8, 79)),
    ("f(X) -> X", "f(X) -> b", (9, 79)),
    ("f(X) -> X", "f(X) -> X if a -><- b", (9, 92)),
    ("f(X) -> X", "f(X) -> Y", (10, 87)),
    ("f(X) -> X", "f(X) -> X if a -><- Y", (10, 99)),
    ("EVAL f(a)", "EVAL f(X)", (11, 96)),
];

/// A specification that violates rules at two offsets, and the error that is reported, with its
/// offset.
type Refused = (&'static str, (u8, u32));

const REFUSED: [Refused; 3] = [
    (
        "REC-SPEC W SORTS Nat Nat OPNS f : Nat -> Nat VARS X : Nat RULES f(X) -> g(X) END-SPEC",
        (1, 21),
    ),
    (
        "REC-SPEC V SORTS Nat CONS z : -> Nat OPNS f : Nat -> Nat VARS X Y : Nat \
            RULES f(X) -> Y EVAL k END-SPEC",
        (5, 93),
    ),
    (
        "REC-SPEC P SORTS A CONS a : -> A EVAL b c END-SPEC",
        (5, 38),
    ),
];

/// Returns the rule that a specification violates, and its offset. The number 0 means out of
/// memory.
fn fault(rt: &impl Abort, alloc: Global, text: &[u8]) -> Option<(u8, u32)> {
    match check(alloc, spec_of(rt, alloc, text)) {
        Err(SortFault::Rule { number, at }) => Some((number, at)),
        Err(SortFault::Memory) => Some((0, 0)),
        Ok(_) => None,
    }
}

/// Returns the specification with a part changed.
fn changed_spec(rt: &impl Abort, alloc: Global, part: &str, changed: &str) -> String {
    Q.replace(alloc, part, changed).expect(rt, "a text")
}

#[test]
fn changed_parts(rt: HostRuntime) {
    for (part, changed, wanted) in &CHANGED {
        let text = changed_spec(&rt, rt.alloc(), part, changed);
        let found = fault(&rt, rt.alloc(), text.as_bytes());
        expect(&rt, found == Some(*wanted), changed);
    }
}

#[test]
fn the_fault_that_is_told(rt: HostRuntime) {
    for (text, wanted) in &REFUSED {
        let found = fault(&rt, rt.alloc(), text.as_bytes());
        expect(&rt, found == Some(*wanted), text);
    }
}

#[test]
fn good(rt: HostRuntime) {
    assert!(rt; fault(&rt, rt.alloc(), Q.as_bytes()) == None);
}

/// A specification of more than 100,000 bytes, with one term of 34,000 symbols `s` around `z`.
const DEEP: Nest = Nest {
    before: b"REC-SPEC N SORTS A CONS z : -> A s : A -> A EVAL ",
    open: b"s(",
    inner: b"z",
    close: b')',
    after: b" END-SPEC",
    depth: 34_000,
};

/// A specification with the same term around an undeclared word.
const DEEP_FAULT: Nest = Nest {
    inner: b"y",
    ..DEEP
};

fn expect_deep_letters(rt: &impl Abort, letters: &[Letter]) {
    assert!(rt; letters.len() == 34_001);
    assert!(rt; letters[0].meaning == Meaning::Symbol(0));
    assert!(rt; letters[34_000].meaning == Meaning::Symbol(1));
}

fn expect_one_term(rt: &impl Abort, checked: &Checked) {
    let terms = checked.terms();
    assert!(rt; terms.len() == 1);
    expect_deep_letters(rt, &terms[0]);
}

#[test]
fn a_long_term(rt: HostRuntime) {
    let text = DEEP.text(&rt, rt.alloc());
    assert!(rt; text.len() > 100_000);
    let checked = checked_spec(&rt, rt.alloc(), &text);
    expect_one_term(&rt, &checked);
}

#[test]
fn an_error_at_a_large_offset(rt: HostRuntime) {
    let text = DEEP_FAULT.text(&rt, rt.alloc());
    assert!(rt; fault(&rt, rt.alloc(), &text) == Some((5, 68_049)));
}

fn expect_symbols(rt: &impl Abort, checked: &Checked) {
    assert!(rt; checked.symbols() == 3);
    assert!(rt;
        checked.symbol_name(0) == b"a".as_slice() && checked.symbol_name(2) == b"f".as_slice()
    );
    assert!(rt; checked.arity(1) == 0 && checked.arity(2) == 1);
}

fn expect_counts(rt: &impl Abort, checked: &Checked) {
    assert!(rt; checked.constructors() == 2 && checked.variables() == 2);
}

fn expect_left(rt: &impl Abort, left: &[Letter]) {
    assert!(rt; left.len() == 2);
    assert!(rt; left[0].meaning == Meaning::Variable(0));
    assert!(rt; left[1].meaning == Meaning::Symbol(2) && left[1].count == 1);
}

fn expect_rule(rt: &impl Abort, checked: &Checked) {
    let rules = checked.rules();
    assert!(rt; rules.len() == 1);
    expect_left(rt, &rules[0].left);
}

fn expect_all(rt: &impl Abort, checked: &Checked) {
    expect_symbols(rt, checked);
    expect_counts(rt, checked);
    expect_rule(rt, checked);
}

#[test]
fn letters(rt: HostRuntime) {
    let checked = checked_spec(&rt, rt.alloc(), Q.as_bytes());
    expect_all(&rt, &checked);
}
