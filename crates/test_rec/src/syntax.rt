//! Tests of the parser of specifications.

use crate::texts::{Nest, blanks, expect, spec_of};
use rec_syntax::TokenKind::*;
use rec_syntax::*;
use std::alloc::Global;
use std::process::Abort;

const ADDITION: &[u8; 192] = b"REC-SPEC Add
SORTS Nat
CONS
  z : -> Nat
  s : Nat -> Nat
OPNS
  plus : Nat Nat -> Nat
VARS
  X Y : Nat
RULES
  plus(z,Y) -> Y
  plus(s(X),Y) -> s(plus(X,Y))
EVAL
  plus(s(s(z)),s(z))
END-SPEC";

const SORTS: TokenKind = Section(Part::Sorts);

const CONS: TokenKind = Section(Part::Cons);

const OPNS: TokenKind = Section(Part::Opns);

const VARS: TokenKind = Section(Part::Vars);

const RULES: TokenKind = Section(Part::Rules);

const EVAL: TokenKind = Section(Part::Eval);

/// Prefixes of texts, and the expected tokens after them, in the sections before the rules.
const DECLARED: [(&str, &[TokenKind]); 17] = [
    ("", &[RecSpec]),
    ("REC-SPEC", &[PlainWord]),
    (
        "REC-SPEC E",
        &[SORTS, CONS, OPNS, VARS, RULES, EVAL, EndSpec],
    ),
    (
        "REC-SPEC E SORTS",
        &[PlainWord, CONS, OPNS, VARS, RULES, EVAL, EndSpec],
    ),
    (
        "REC-SPEC E SORTS Nat CONS",
        &[PlainWord, OPNS, VARS, RULES, EVAL, EndSpec],
    ),
    (
        "REC-SPEC E OPNS f : -> Nat",
        &[PlainWord, VARS, RULES, EVAL, EndSpec],
    ),
    (
        "REC-SPEC E VARS X : Nat",
        &[PlainWord, RULES, EVAL, EndSpec],
    ),
    ("REC-SPEC E RULES", &[PlainWord, EVAL, EndSpec]),
    ("REC-SPEC E EVAL", &[PlainWord, EndSpec]),
    ("REC-SPEC E CONS s", &[Colon]),
    ("REC-SPEC E CONS s :", &[PlainWord, Arrow]),
    ("REC-SPEC E OPNS s : Nat", &[PlainWord, Arrow]),
    ("REC-SPEC E CONS s : Nat ->", &[PlainWord]),
    ("REC-SPEC E VARS X", &[PlainWord, Colon]),
    ("REC-SPEC E VARS X Y", &[PlainWord, Colon]),
    ("REC-SPEC E VARS X :", &[PlainWord]),
    ("REC-SPEC E END-SPEC a", &[End]),
];

/// Prefixes of texts, and the expected tokens after them, in the rules and EVAL terms.
const TERMS: [(&str, &[TokenKind]); 18] = [
    ("REC-SPEC E RULES f ->", &[PlainWord]),
    ("REC-SPEC E RULES f -> X if", &[PlainWord]),
    ("REC-SPEC E RULES f -> X if a -><-", &[PlainWord]),
    ("REC-SPEC E RULES f -> X if a ->/<-", &[PlainWord]),
    ("REC-SPEC E RULES f -> X if a -><- a and-if", &[PlainWord]),
    ("REC-SPEC E EVAL f(a,", &[PlainWord]),
    ("REC-SPEC E EVAL f(", &[PlainWord, Close]),
    ("REC-SPEC E RULES f", &[Open, Arrow]),
    ("REC-SPEC E EVAL f", &[PlainWord, EndSpec, Open]),
    ("REC-SPEC E EVAL f(a", &[Open, Close, Comma]),
    ("REC-SPEC E EVAL f(a)", &[PlainWord, EndSpec]),
    ("REC-SPEC E EVAL f(g(a)", &[Close, Comma]),
    ("REC-SPEC E RULES f(X)", &[Arrow]),
    (
        "REC-SPEC E RULES f -> g(X)",
        &[PlainWord, EVAL, EndSpec, If],
    ),
    (
        "REC-SPEC E RULES f -> X",
        &[PlainWord, EVAL, EndSpec, If, Open],
    ),
    ("REC-SPEC E RULES f -> X if g(X)", &[Equal, Unequal]),
    ("REC-SPEC E RULES f -> X if a", &[Open, Equal, Unequal]),
    (
        "REC-SPEC E RULES f -> X if a ->/<- g(X)",
        &[PlainWord, EVAL, EndSpec, AndIf],
    ),
];

/// Texts with a syntax error, and its offset.
const PLACES: [(&str, u32); 6] = [
    ("REC-SPEC E SORTS : END-SPEC", 17),
    ("REC-SPEC E", 10),
    ("REC-SPEC if END-SPEC", 9),
    ("REC-SPEC E OPNS CONS END-SPEC", 16),
    ("REC-SPEC E END-SPEC END-SPEC", 20),
    ("REC-SPEC E EVAL f(a,) END-SPEC", 20),
];

/// The nodes of the sum in postfix form: the offset of each word, and its number of arguments.
const NODES: [(usize, usize); 6] = [(174, 0), (172, 1), (170, 1), (180, 0), (178, 1), (165, 2)];

/// Returns the offset of a syntax error.
fn place(answer: Result<Syntax, SyntaxFault>) -> Option<u32> {
    match answer {
        Err(SyntaxFault::Grammar { at }) => Some(at),
        Ok(_) | Err(SyntaxFault::Long) | Err(SyntaxFault::Memory) => None,
    }
}

/// Returns whether a term has these nodes.
fn has_nodes(term: &Term, wanted: &[(usize, usize)]) -> bool {
    let nodes = term.nodes();
    if nodes.len() != wanted.len() {
        return false;
    }
    for (node, (from, count)) in nodes.iter().zip(wanted) {
        if node.word.from != *from || node.count != *count {
            return false;
        }
    }
    true
}

/// Returns the numbers of sorts, constructors, operators, groups of variables, rules and EVAL
/// terms.
fn lengths(spec: &Syntax) -> [usize; 6] {
    [
        spec.sorts().len(),
        spec.constructors().len(),
        spec.operators().len(),
        spec.groups().len(),
        spec.rules().len(),
        spec.terms().len(),
    ]
}

/// Returns the specification of a text on the heap, so that less is copied.
fn spec_box(rt: &impl Abort, alloc: Global, spec: &[u8]) -> Box<Syntax> {
    Box::new(alloc, spec_of(rt, alloc, spec)).expect(rt, "memory")
}

fn expect_addition(rt: &impl Abort, spec: &Syntax) {
    let name = spec.name();
    assert!(rt; name.from == 9 && name.to == 12 && lengths(spec) == [1, 2, 1, 1, 2, 1]);
    for term in spec.terms() {
        assert!(rt; has_nodes(term, &NODES));
    }
}

#[test]
fn addition(rt: HostRuntime) {
    let spec = spec_box(&rt, rt.alloc(), ADDITION);
    expect_addition(&rt, &spec);
}

#[test]
fn places(rt: HostRuntime) {
    for (text, at) in &PLACES {
        let found = place(read_spec(rt.alloc(), text.as_bytes()));
        expect(&rt, found == Some(*at), text);
    }
    assert!(rt; place(read_spec(rt.alloc(), &ADDITION[..184])) == Some(184));
}

/// Returns the expected tokens at the syntax error of a text.
fn expected_kinds(rt: &impl Abort, alloc: Global, text: &[u8]) -> Vec<TokenKind> {
    expected_at_fault(alloc, text).expect(rt, "kinds of tokens")
}

/// Aborts the test unless the prefixes have these expected tokens.
fn expect_kinds(rt: &impl Abort, alloc: Global, rows: &[(&str, &[TokenKind])]) {
    for (text, wanted) in rows {
        let kinds = expected_kinds(rt, alloc, text.as_bytes());
        expect(rt, kinds.as_slice() == *wanted, text);
    }
}

#[test]
fn expected_tokens(rt: HostRuntime) {
    expect_kinds(&rt, rt.alloc(), &DECLARED);
    expect_kinds(&rt, rt.alloc(), &TERMS);
    assert!(rt; expected_kinds(&rt, rt.alloc(), ADDITION).is_empty());
}

/// Reads the specification of a text. It owns the text.
fn read_text_owned(rt: &impl Abort, alloc: Global, text: &[u8]) -> Result<Syntax, SyntaxFault> {
    read_owned(alloc, Vec::from_slice(alloc, text).expect(rt, "memory"))
}

#[test]
fn a_text_that_is_kept(rt: HostRuntime) {
    assert!(rt;
        matches!(
            place(read_text_owned(&rt, rt.alloc(), &ADDITION[..184])),
            Some(184)
        )
    );
    let spec = read_text_owned(&rt, rt.alloc(), ADDITION).expect(&rt, "a specification");
    expect_kept(&rt, &spec);
}

fn expect_kept(rt: &impl Abort, spec: &Syntax) {
    assert!(rt; spec.source() == ADDITION.as_slice() && spec.rules().len() == 2);
}

#[test]
fn the_least_one(rt: HostRuntime) {
    let spec = spec_box(&rt, rt.alloc(), b"REC-SPEC E END-SPEC");
    assert!(rt; spec.source().len() == 19);
    assert!(rt; spec.sorts().is_empty() && spec.terms().is_empty());
}

/// Returns whether the conditions of a rule have these marks. True stands for equality.
fn has_marks(rule: &Rule, marks: &[bool]) -> bool {
    if rule.conditions.len() != marks.len() {
        return false;
    }
    for (condition, mark) in rule.conditions.iter().zip(marks) {
        if condition.equal != *mark {
            return false;
        }
    }
    true
}

fn expect_marks(rt: &impl Abort, spec: &Syntax) {
    assert!(rt; spec.rules().len() == 1);
    for rule in spec.rules() {
        assert!(rt; has_marks(rule, &[true, false]));
    }
}

#[test]
fn a_condition(rt: HostRuntime) {
    let text = b"REC-SPEC E RULES f(X) -> z if g(X) -><- z and-if X ->/<- z END-SPEC";
    let spec = spec_box(&rt, rt.alloc(), text);
    expect_marks(&rt, &spec);
}

/// An EVAL term with a word inside a million others.
const DEEP: Nest = Nest {
    before: b"REC-SPEC E EVAL ",
    open: b"s(",
    inner: b"z",
    close: b')',
    after: b" END-SPEC",
    depth: 1_000_000,
};

fn expect_deep(rt: &impl Abort, spec: &Syntax) {
    assert!(rt; spec.terms().len() == 1);
    for term in spec.terms() {
        assert!(rt; term.nodes().len() == 1_000_001);
    }
}

#[test]
fn a_million_deep(rt: HostRuntime) {
    let text = DEEP.text(&rt, rt.alloc());
    let spec = spec_box(&rt, rt.alloc(), &text);
    expect_deep(&rt, &spec);
}

/// Returns a specification of this length, most of which is spaces.
fn blank(rt: &impl Abort, alloc: Global, length: usize) -> Vec<u8> {
    let mut text = blanks(rt, alloc, length);
    assert!(rt; text.len() > 19);
    text[..19].copy_from_slice(b"REC-SPEC E END-SPEC");
    text
}

/// Returns the error of a specification of this length.
fn blank_fault(rt: &impl Abort, alloc: Global, length: usize) -> Option<SyntaxFault> {
    read_spec(alloc, &blank(rt, alloc, length)).err()
}

#[test]
fn long_texts(rt: HostRuntime) {
    assert!(rt; blank_fault(&rt, rt.alloc(), 16_777_216).is_none());
    let fault = blank_fault(&rt, rt.alloc(), 16_777_217);
    assert!(rt; matches!(fault, Some(SyntaxFault::Long)));
}
