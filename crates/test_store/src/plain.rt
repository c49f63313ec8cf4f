//! Tests of `PlainBank`: the test cases for every store, and one reference for equal terms.
ghost use Rattle.std.specs.Prelude.{◌<◌, ◌≤◌};
ghost use Rattle.rx_term.specs.Bank.{IsEmptyStore};
ghost use Rattle.rx_plain.specs.State.{store_of};

use crate::banks::{expect_rows, expect_shared};
use rx_plain::PlainBank;
use std::alloc::Global;
use std::process::Abort;

/// Returns a store without cells.
fn bank_of(rt: &impl Abort, alloc: Global, cap: u32) -> Box<PlainBank>
    requires { (0 < cap) × (cap ≤ 100) }
    ensures { IsEmptyStore (store_of result.value) cap }
{
    let bank = PlainBank::new(alloc, cap).expect(rt, "a bank");
    Box::new(alloc, bank).expect(rt, "memory")
}

#[test]
fn rows_of_a_bank_hold(rt: HostRuntime) {
    let mut five = bank_of(&rt, rt.alloc(), 5);
    let mut ten = bank_of(&rt, rt.alloc(), 10);
    expect_rows(&rt, &mut *five, &mut *ten);
}

#[test]
fn equal_terms_are_one_reference(rt: HostRuntime) {
    let mut bank = bank_of(&rt, rt.alloc(), 100);
    expect_shared(&rt, rt.alloc(), &mut *bank);
}
