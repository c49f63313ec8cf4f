//! Texts for several test cases.

use rec_sorts::{Checked, check};
use rec_syntax::{Syntax, read_spec};
use std::alloc::Global;
use std::process::Abort;

/// A specification with all sections and one rule.
pub const Q: &str = "REC-SPEC Q \
    SORTS A B \
    CONS a : -> A b : -> B \
    OPNS f : A -> A \
    VARS X Y : A \
    RULES f(X) -> X \
    EVAL f(a) END-SPEC";

/// Addition, with one sum.
pub const ADD: &str = "REC-SPEC Add \
    SORTS Nat \
    CONS z : -> Nat s : Nat -> Nat \
    OPNS plus : Nat Nat -> Nat \
    VARS X Y : Nat \
    RULES plus(z,Y) -> Y plus(s(X),Y) -> s(plus(X,Y)) \
    EVAL plus(s(s(z)),s(z)) END-SPEC";

/// A text inside other texts, which are repeated.
#[derive(Drop)]
pub struct Nest<'a> {
    pub before: &'a [u8],
    pub open: &'a [u8],
    pub inner: &'a [u8],
    pub close: u8,
    pub after: &'a [u8],
    pub depth: u32,
}

impl Nest<'_> {
    /// Returns the whole text.
    pub fn text(&self, rt: &impl Abort, alloc: Global) -> Vec<u8> {
        let mut text = Vec::from_slice(alloc, self.before).expect(rt, "memory");
        repeat(rt, &mut text, self.open, self.depth);
        push(rt, &mut text, self.inner);
        repeat(rt, &mut text, &[self.close], self.depth);
        push(rt, &mut text, self.after);
        text
    }
}

/// Appends a part `count` times.
fn repeat(rt: &impl Abort, text: &mut Vec<u8>, part: &[u8], count: u32) {
    for _ in 0..count {
        assert!(rt; text.extend_from_slice(part).is_ok());
    }
}

/// Returns `count` spaces.
pub fn blanks(rt: &impl Abort, alloc: Global, count: usize) -> Vec<u8> {
    vec![in alloc; b' '; count].expect(rt, "memory")
}

/// Appends a text.
pub fn push(rt: &impl Abort, text: &mut Vec<u8>, end: &[u8]) {
    assert!(rt; text.extend_from_slice(end).is_ok());
}

/// Aborts the test unless a test case holds.
pub fn expect(rt: &impl Abort, holds: bool, row: &str) {
    assert!(rt; holds, "{row}");
}

/// Reads the specification of a text.
pub fn spec_of(rt: &impl Abort, alloc: Global, spec: &[u8]) -> Syntax {
    read_spec(alloc, spec).expect(rt, "a specification")
}

/// Reads and checks the specification of a text.
pub fn checked_spec(rt: &impl Abort, alloc: Global, spec: &[u8]) -> Checked {
    check(alloc, spec_of(rt, alloc, spec)).expect(rt, "a checked specification")
}

/// Reads and checks the specification of a text, and moves it to the heap, so that less is copied.
pub fn checked_box(rt: &impl Abort, alloc: Global, spec: &[u8]) -> Box<Checked> {
    Box::new(alloc, checked_spec(rt, alloc, spec)).expect(rt, "memory")
}
