//! Texts for several test cases.

use rec_sorts::{Checked, check};
use rec_syntax::read_spec;
use std::alloc::Global;
use std::process::Abort;

/// Addition, with one sum.
pub const ADD: &str = "REC-SPEC Add \
    SORTS Nat \
    CONS z : -> Nat s : Nat -> Nat \
    OPNS plus : Nat Nat -> Nat \
    VARS X Y : Nat \
    RULES plus(z,Y) -> Y plus(s(X),Y) -> s(plus(X,Y)) \
    EVAL plus(s(s(z)),s(z)) END-SPEC";

/// Appends a text.
pub fn push(rt: &impl Abort, text: &mut Vec<u8>, end: &[u8]) {
    assert!(rt; text.extend_from_slice(end).is_ok());
}

/// Aborts the test unless a test case holds.
pub fn expect(rt: &impl Abort, holds: bool, row: &str) {
    assert!(rt; holds, "{row}");
}

/// Reads and checks the specification of a text.
pub fn checked_spec(rt: &impl Abort, alloc: Global, spec: &[u8]) -> Checked {
    let syntax = read_spec(alloc, spec).expect(rt, "a specification");
    check(alloc, syntax).expect(rt, "a checked specification")
}
