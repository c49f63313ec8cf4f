//! Tests of symbol maps.

ghost use Rattle.std.specs.Prelude.{◌≡◌, length};
ghost use Rattle.rec_sorts.specs.Lookup.{symbols};

use crate::banks::plain_box;
use crate::texts::{ADD, checked_box};
use rec_sorts::{Checked, Links};
use rx_plain::PlainBank;
use rx_term::{Symbol, TermBank};
use std::alloc::Global;
use std::process::Abort;

const PRIMED: &str = "REC-SPEC P SORTS A CONS x' : -> A EVAL x' END-SPEC";

/// Returns the symbol map of a specification for a store.
fn link(rt: &impl Abort, alloc: Global, checked: &Checked, bank: &mut PlainBank) -> Links
    ensures { length result ≡ length (symbols checked.now.spec) }
{
    Links::make(alloc, checked, bank).expect(rt, "links")
}

/// Aborts the test unless the symbol map relates this number and this symbol.
fn expect_number(rt: &impl Abort, checked: &Checked, links: &Links, number: u32, symbol: Symbol)
    requires { length links.now ≡ length (symbols checked.now.spec) }
{
    assert!(rt; number < checked.symbols());
    assert!(rt; links.symbol_of(number).0 == symbol.0);
    assert!(rt; links.op_of(symbol) == Some(number));
}

/// Aborts the test unless the symbols of the addition have the expected numbers. They take no
/// cells.
fn expect_addition(rt: &impl Abort, checked: &Checked, links: &Links, bank: &mut PlainBank)
    requires { length links.now ≡ length (symbols checked.now.spec) }
{
    let z = bank.symbol(b"z", false, 0).expect(rt, "a symbol");
    let s = bank.symbol(b"s", false, 1).expect(rt, "a symbol");
    let plus = bank.symbol(b"plus", false, 2).expect(rt, "a symbol");
    expect_number(rt, checked, links, 0, z);
    expect_number(rt, checked, links, 1, s);
    expect_number(rt, checked, links, 2, plus);
    assert!(rt; checked.symbols() == 3 && bank.cells() == 0);
}

fn link_addition(rt: &impl Abort, alloc: Global, checked: &Checked, bank: &mut PlainBank) {
    let links = link(rt, alloc, checked, bank);
    expect_addition(rt, checked, &links, bank);
}

/// Tests the symbol of a name that is quoted since it is not plain.
fn link_primed(rt: &impl Abort, alloc: Global, checked: &Checked, bank: &mut PlainBank) {
    let links = link(rt, alloc, checked, bank);
    let primed = bank.symbol(b"x'", true, 0).expect(rt, "a symbol");
    expect_number(rt, checked, &links, 0, primed);
}

/// Tests symbols that are not in the specification: one with another arity, which is made before
/// those of the addition, and one with a quoted name.
fn link_foreign(rt: &impl Abort, alloc: Global, checked: &Checked, bank: &mut PlainBank) {
    let unary = bank.symbol(b"plus", false, 1).expect(rt, "a symbol");
    let links = link(rt, alloc, checked, bank);
    expect_none(rt, &links, bank, unary);
}

/// Aborts the test if a symbol, or that of a quoted name, is one of the specification.
fn expect_none(rt: &impl Abort, links: &Links, bank: &mut PlainBank, unary: Symbol) {
    let quoted = bank.symbol(b"z", true, 0).expect(rt, "a symbol");
    assert!(rt; links.op_of(unary).is_none() && links.op_of(quoted).is_none());
}

/// The subject of a test of symbol maps.
#[derive(Drop)]
enum Linked {
    Addition,
    Primed,
    Foreign,
}

/// Aborts the test unless the symbols of a specification have the expected numbers.
fn expect_linked(rt: &impl Abort, alloc: Global, checked: &Checked, linked: &Linked) {
    let bank = &mut *plain_box(rt, alloc, 10);
    match linked {
        Linked::Addition => link_addition(rt, alloc, checked, bank),
        Linked::Primed => link_primed(rt, alloc, checked, bank),
        Linked::Foreign => link_foreign(rt, alloc, checked, bank),
    }
}

/// Tests the text of a specification.
fn expect_spec(rt: &impl Abort, alloc: Global, spec: &str, linked: &Linked) {
    let checked = checked_box(rt, alloc, spec.as_bytes());
    expect_linked(rt, alloc, &checked, linked);
}

const LINKED: [(&str, Linked); 3] = [
    (ADD, Linked::Addition),
    (PRIMED, Linked::Primed),
    (ADD, Linked::Foreign),
];

#[test]
fn symbols_have_numbers(rt: HostRuntime) {
    for (spec, linked) in &LINKED {
        expect_spec(&rt, rt.alloc(), spec, linked);
    }
}
