//! Tests of patterns in a full store, and of deep ones.

use crate::banks::{plain_box, shared_box, term_of};
use crate::pattern::{answer, are_spelt, of_one, only, pattern};
use crate::texts::Nest;
use rx_pattern::{MakeFault, Pattern, PatternFault};
use rx_plain::PlainBank;
use rx_shared::SharedBank;
use rx_term::{Term, TermBank};
use std::alloc::Global;
use std::process::Abort;

/// Reads the pattern of a text, and frees all cells.
fn lone_pattern(rt: &impl Abort, alloc: Global, bank: &mut PlainBank, text: &[u8]) -> Pattern {
    let p = pattern(rt, alloc, bank, text);
    bank.reclaim(&[]);
    p
}

/// Frees everything except a term.
fn keep(rt: &impl Abort, bank: &mut PlainBank, t: Term) {
    assert!(rt; bank.holds(t));
    bank.reclaim(&[t]);
}

#[test]
fn a_full_bank(rt: HostRuntime) {
    fill(&rt, rt.alloc(), &mut *plain_box(&rt, rt.alloc(), 8));
}

/// Tests calls in a store in which a term leaves one cell free.
fn fill(rt: &impl Abort, alloc: Global, bank: &mut PlainBank) {
    let open = lone_pattern(rt, alloc, bank, b"[<list>]{x}");
    let single = lone_pattern(rt, alloc, bank, b"[<int>]");
    let t = term_of(rt, alloc, bank, b"[1,2]{x}");
    keep(rt, bank, t);
    assert!(rt; bank.cells() == 7);
    find_no_room(rt, alloc, bank, (&open, &single), t);
}

/// Tests calls that fail with a full store.
fn find_no_room(
    rt: &impl Abort,
    alloc: Global,
    bank: &mut PlainBank,
    (open, single): (&Pattern, &Pattern),
    t: Term,
) {
    let nine = term_of(rt, alloc, bank, b"9");
    assert!(rt; bank.cells() == 8);
    let mut out = only(rt, alloc, nine);
    expect_full(rt, bank, open, t, &mut out);
    assert!(rt; matches!(of_one(rt, bank, single, nine), Err(MakeFault::Full)));
    find_room(rt, bank, open, t, &mut out);
}

/// Aborts the test unless the store is full when the pattern is used with the term.
fn expect_full(
    rt: &impl Abort,
    bank: &mut PlainBank,
    open: &Pattern,
    t: Term,
    out: &mut Vec<Term>,
) {
    let found = answer(rt, bank, open, t, out);
    assert!(rt; matches!(found, Err(PatternFault::Full)) && out.is_empty());
}

/// Tests the same calls after a collection.
fn find_room(rt: &impl Abort, bank: &mut PlainBank, open: &Pattern, t: Term, out: &mut Vec<Term>) {
    keep(rt, bank, t);
    assert!(rt; matches!(answer(rt, bank, open, t, out), Ok(true)));
    assert!(rt; are_spelt(rt, *out.allocator(), bank, out, &["[1,2]"]));
}

/// A placeholder inside 200,000 nested lists.
const DEEP: Nest = Nest {
    before: b"",
    open: b"[",
    inner: b"<int>",
    close: b']',
    after: b"",
    depth: 200_000,
};

/// A term that it matches, inside 200,000 nested lists.
const DEEP_SUBJECT: Nest = Nest {
    before: b"",
    open: b"[",
    inner: b"1",
    close: b']',
    after: b"",
    depth: 200_000,
};

/// A store with linear searches would take minutes.
#[test]
fn deep_terms(rt: HostRuntime) {
    match_deep(&rt, rt.alloc(), &mut *shared_box(&rt, rt.alloc(), 500_000));
}

/// Checks that the pattern of the text matches the subject, and not its own text.
fn match_deep(rt: &impl Abort, alloc: Global, bank: &mut SharedBank) {
    let text = DEEP.text(rt, alloc);
    let p = pattern(rt, alloc, bank, &text);
    match_both(rt, alloc, bank, &p, &text);
}

/// Checks that the pattern matches the subject, and not this text.
fn match_both(rt: &impl Abort, alloc: Global, bank: &mut SharedBank, p: &Pattern, text: &[u8]) {
    let mut out = Vec::new(alloc);
    match_subject(rt, alloc, bank, p, &mut out);
    let other = term_of(rt, alloc, bank, text);
    assert!(rt; matches!(answer(rt, bank, p, other, &mut out), Ok(false)) && out.is_empty());
}

/// Reads the subject.
fn subject(rt: &impl Abort, alloc: Global, bank: &mut SharedBank) -> Term {
    term_of(rt, alloc, bank, &DEEP_SUBJECT.text(rt, alloc))
}

/// Checks that the pattern matches the subject, and makes it from the 1 that it binds.
fn match_subject(
    rt: &impl Abort,
    alloc: Global,
    bank: &mut SharedBank,
    p: &Pattern,
    out: &mut Vec<Term>,
) {
    let t = subject(rt, alloc, bank);
    assert!(rt; matches!(answer(rt, bank, p, t, out), Ok(true)));
    let one = term_of(rt, alloc, bank, b"1");
    assert!(rt; out.len() == 1 && out[0] == one);
    expect_made(rt, bank, p, one, t);
}

/// Checks that the pattern makes the subject from the 1.
fn expect_made(rt: &impl Abort, bank: &mut SharedBank, p: &Pattern, one: Term, t: Term) {
    let made = of_one(rt, bank, p, one).expect(rt, "a term");
    assert!(rt; made == t);
}
