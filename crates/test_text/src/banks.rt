//! Stores of both kinds, and the terms in them.

ghost use Rattle.std.specs.Prelude.{IsSome};
ghost use Rattle.rx_term.specs.Store.{tree_at};

use rx_plain::PlainBank;
use rx_shared::SharedBank;
use rx_term::{Term, TermBank};
use rx_text::{read, write};
use std::alloc::Global;
use std::process::Abort;

/// Returns an empty plain store.
pub fn plain_bank(rt: &impl Abort, alloc: Global, cap: u32) -> PlainBank {
    assert!(rt; cap > 0 && cap <= 100_000);
    PlainBank::new(alloc, cap).expect(rt, "a bank")
}

/// Returns an empty shared store.
pub fn shared_bank(rt: &impl Abort, alloc: Global, cap: u32) -> SharedBank {
    assert!(rt; cap > 0 && cap <= 2_000_000);
    SharedBank::new(alloc, cap).expect(rt, "a bank")
}

/// Returns an empty plain store on the heap, so that less is copied.
pub fn plain_box(rt: &impl Abort, alloc: Global, cap: u32) -> Box<PlainBank> {
    Box::new(alloc, plain_bank(rt, alloc, cap)).expect(rt, "memory")
}

/// Returns an empty shared store on the heap, so that less is copied.
pub fn shared_box(rt: &impl Abort, alloc: Global, cap: u32) -> Box<SharedBank> {
    Box::new(alloc, shared_bank(rt, alloc, cap)).expect(rt, "memory")
}

/// Reads the term of a text.
pub fn term_of<B: TermBank>(rt: &impl Abort, alloc: Global, bank: &mut B, text: &[u8]) -> Term {
    read(alloc, text, bank).expect(rt, "a term")
}

/// Returns the text of a term.
pub fn text_of<B: TermBank>(rt: &impl Abort, alloc: Global, bank: &B, t: Term) -> Vec<u8> {
    assert!(rt; bank.holds(t));
    let mut text = Vec::new(alloc);
    assert!(rt; write(alloc, bank, t, &mut text).is_ok());
    text
}

/// Aborts the test unless a term has this text.
pub fn expect_text<B: TermBank>(rt: &impl Abort, alloc: Global, bank: &B, t: Term, wanted: &[u8]) {
    assert!(rt; text_of(rt, alloc, bank, t).as_slice() == wanted);
}
