//! Tests of `SharedBank`: the test cases for every store, one reference for equal terms, short
//! chains.
ghost use Rattle.std.specs.Prelude.{◌<◌, ◌≤◌, length};
ghost use Rattle.rx_term.specs.Bank.{IsEmptyStore};
ghost use Rattle.rx_shared.specs.State.{store_of};

use crate::banks::{expect_rows, expect_shared, pair};
use rx_arena::arena::Arena;
use rx_shared::SharedBank;
use rx_term::{BankFault, Term, TermBank};
use std::alloc::Global;
use std::process::Abort;

/// Returns a store without cells.
fn bank_of(rt: &impl Abort, alloc: Global, cap: u32) -> Box<SharedBank>
    requires { (0 < cap) × (cap ≤ 1_000_000) }
    ensures { IsEmptyStore (store_of result.value) cap }
{
    let bank = SharedBank::new(alloc, cap).expect(rt, "a bank");
    Box::new(alloc, bank).expect(rt, "memory")
}

#[test]
fn rows_of_a_bank_hold(rt: HostRuntime) {
    let mut five = bank_of(&rt, rt.alloc(), 5);
    let mut ten = bank_of(&rt, rt.alloc(), 10);
    expect_rows(&rt, &mut *five, &mut *ten);
}

#[test]
fn equal_terms_are_one_reference(rt: HostRuntime) {
    let mut bank = bank_of(&rt, rt.alloc(), 100);
    expect_shared(&rt, rt.alloc(), &mut *bank);
}

/// Returns the number of slots in a chain.
fn chain_length(arena: &Arena, chain: u32) -> u32
    requires { chain < length arena.now.chains }
{
    let mut count = 0u32;
    let mut next = arena.chain_first(chain);
    while let Some(slot) = next {
        count = count.saturating_add(1);
        next = arena.chain_next(slot);
    }
    count
}

/// Returns the number of slots in the longest chain.
fn longest_chain(arena: &Arena) -> u32 {
    let mut most = 0;
    for chain in 0..arena.chains() {
        most = most.max(chain_length(arena, chain));
    }
    most
}

/// Makes the integers below `count`.
fn make_integers(bank: &mut SharedBank, count: i32) -> Result<(), BankFault> {
    for z in 0..count {
        bank.int(z)?;
    }
    Ok(())
}

/// Makes the integers below `count`. Aborts if there is another number of cells then.
fn make_cells(rt: &impl Abort, bank: &mut SharedBank, count: i32, cells: u32) {
    assert!(rt; make_integers(bank, count).is_ok());
    assert!(rt; bank.cells() == cells);
}

/// Aborts if a chain is too long.
fn expect_short_chains(rt: &impl Abort, bank: &SharedBank) {
    assert!(rt; longest_chain(bank.arena()) <= 64);
}

/// Makes 1,100 integers, whose chains have to be short.
fn chain_integers(rt: &impl Abort, bank: &mut SharedBank) {
    make_cells(rt, bank, 1100, 1100);
    expect_short_chains(rt, bank);
}

#[test]
fn chains_of_integers_are_short(rt: HostRuntime) {
    chain_integers(&rt, &mut bank_of(&rt, rt.alloc(), 2000));
}

/// The number of integers that are made, and the number of chains that there are then.
const DOUBLED: [(i32, u32); 4] = [(1024, 1024), (1025, 2048), (2048, 2048), (2049, 4096)];

/// Makes the integers of each test case. Aborts if there is another number of chains then.
fn double_chains(rt: &impl Abort, bank: &mut SharedBank) {
    for (count, chains) in &DOUBLED {
        assert!(rt; make_integers(bank, *count).is_ok());
        assert!(rt; bank.arena().chains() == *chains);
    }
}

#[test]
fn chains_are_doubled_when_cells_pass_their_number(rt: HostRuntime) {
    double_chains(&rt, &mut bank_of(&rt, rt.alloc(), 5000));
}

/// Collects all but a term of five cells. Aborts if another cell stays, or none is spare.
fn keep_five(rt: &impl Abort, bank: &mut SharedBank, t: Term) {
    assert!(rt; bank.holds(t));
    bank.reclaim(&[t]);
    assert!(rt; bank.cells() == 5 && bank.holds(t));
    assert!(rt; bank.spare() >= 3000);
}

/// Makes 3,000 integers and `f(a,a)`, keeps only the latter, and makes the integers again.
fn reclaim_integers(rt: &impl Abort, bank: &mut SharedBank) {
    make_cells(rt, bank, 3000, 3000);
    let (kept, _) = pair(bank).expect(rt, "`f(a,a)`");
    keep_five(rt, bank, kept);
    make_cells(rt, bank, 3000, 3005);
    expect_short_chains(rt, bank);
}

/// After a collection the terms that were kept are still there, and the others can be made again.
#[test]
fn a_reclaim_keeps_what_is_handed_in(rt: HostRuntime) {
    reclaim_integers(&rt, &mut bank_of(&rt, rt.alloc(), 5000));
}

/// Makes the integers below `count`, and protects each. Returns whether this succeeded.
#[tactic(auto, using(rx_term::proofs::StoreLemmas::bank_steps))]
fn protect_integers(bank: &mut SharedBank, count: i32) -> bool {
    for z in 0..count {
        match bank.int(z) {
            Ok(t) => {
                if bank.protect(t).is_err() {
                    return false;
                }
            }
            Err(_) => return false,
        }
    }
    true
}

/// Collects the terms that are not protected. Aborts if another number of cells than 100,000 stays.
fn keep_protected(rt: &impl Abort, bank: &mut SharedBank) {
    bank.reclaim(&[]);
    assert!(rt; bank.cells() == 100_000);
}

/// Makes 150,000 integers, 100,000 of which are protected, and collects twice.
fn reclaim_beside_many(rt: &impl Abort, bank: &mut SharedBank) {
    assert!(rt; protect_integers(bank, 100_000));
    make_cells(rt, bank, 150_000, 150_000);
    keep_protected(rt, bank);
    make_cells(rt, bank, 100_000, 100_000);
    keep_protected(rt, bank);
}

#[test]
fn many_live_cells_stay(rt: HostRuntime) {
    reclaim_beside_many(&rt, &mut bank_of(&rt, rt.alloc(), 200_000));
}
