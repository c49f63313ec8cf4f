//! Tests of term stores: operations that may allocate, and operations that may not.

use crate::CELLS;
use crate::needs::{heap_answer, read_held};
use crate::report::Report;
use rx_plain::PlainBank;
use rx_shared::SharedBank;
use rx_term::build::constant;
use rx_term::{BankFault, Kind, Symbol, Term, TermBank};
use rx_text::write;
use std::alloc::Global;

/// An operation that may allocate.
#[derive(Clone, Copy)]
pub enum Call {
    Int,
    Nil,
    Cons,
    Appl,
    Hole,
    Annotated,
    Symbol,
    Reserve,
}

/// The result of an operation.
#[derive(Clone, Copy)]
enum Made {
    Tree(Term),
    Symbol(Symbol),
    Room,
}

/// The text of a term with 14 cells: itself, `[b]`, `b`, `[]`, `[g(a),[1,<7>]]`, `[[1,<7>]]`,
/// `g(a)`, `[a]`, `a`, `[1,<7>]`, `[<7>]`, `1`, `<7>` and `7`.
pub const KEPT: &[u8] = b"f(g(a),[1,<7>]){b}";

/// The text of a term with two cells, neither of which is a list.
const WITHOUT_LISTS: &[u8] = b"<7>";

/// Makes the term of a text, protects it once, and fills the cells that need no memory.
pub fn set_up<B: TermBank>(alloc: Global, bank: &mut B, text: &[u8]) -> Option<Term> {
    let kept = read_held(alloc, bank, text)?;
    if bank.protect(kept).is_err() || fill(bank).is_err() {
        return None;
    }
    Some(kept)
}

/// Makes integers until the next cell needs memory.
fn fill<B: TermBank>(bank: &mut B) -> Result<(), BankFault> {
    for z in 10_000..20_000 {
        if bank.spare() == 0 {
            return Ok(());
        }
        bank.int(z)?;
    }
    Ok(())
}

/// Appends the text of each cell, by its number.
pub fn add_content<B: TermBank>(alloc: Global, bank: &B, text: &mut Vec<u8>) -> Option<()> {
    let mut found = 0u32;
    for number in 0..CELLS {
        if bank.holds(Term(number)) {
            found = found.wrapping_add(1);
            write(alloc, bank, Term(number), text).ok()?;
        }
        text.push(b'\n').ok()?;
    }
    // Otherwise some cell has a number above the limit.
    if found == bank.cells() {
        Some(())
    } else {
        None
    }
}

/// Runs the operation. Everything that it uses exists before.
fn attempt<B: TermBank>(bank: &mut B, call: Call) -> Result<Made, BankFault> {
    match call {
        Call::Int => bank.int(77).map(Made::Tree),
        Call::Nil => bank.nil().map(Made::Tree),
        Call::Cons => list_of_one(bank).map(Made::Tree),
        Call::Appl => application(bank).map(Made::Tree),
        Call::Hole => held_open(bank).map(Made::Tree),
        Call::Annotated => annotated_integer(bank).map(Made::Tree),
        Call::Symbol => bank.symbol(b"new", false, 3).map(Made::Symbol),
        Call::Reserve => bank.reserve(CELLS / 2).map(|()| Made::Room),
    }
}

/// Makes `[1]`.
fn list_of_one<B: TermBank>(bank: &mut B) -> Result<Term, BankFault> {
    let nil = bank.nil()?;
    let one = bank.int(1)?;
    bank.cons(one, nil)
}

/// Makes `g(b)`.
fn application<B: TermBank>(bank: &mut B) -> Result<Term, BankFault> {
    let b = constant(bank, b"b")?;
    let nil = bank.nil()?;
    let args = bank.cons(b, nil)?;
    let g = bank.symbol(b"g", false, 1)?;
    bank.appl(g, args)
}

/// Makes `<1>`.
fn held_open<B: TermBank>(bank: &mut B) -> Result<Term, BankFault> {
    let one = bank.int(1)?;
    bank.hole(one)
}

/// Makes `1{b}`.
fn annotated_integer<B: TermBank>(bank: &mut B) -> Result<Term, BankFault> {
    let b = constant(bank, b"b")?;
    let nil = bank.nil()?;
    let notes = bank.cons(b, nil)?;
    let one = bank.int(1)?;
    bank.annotated(one, notes)
}

/// Prints the result.
fn show_made<B: TermBank>(bank: &mut B, made: Made, report: &mut Report) {
    match made {
        Made::Tree(t) => report.show(bank, t),
        Made::Symbol(symbol) => {
            let is_same = bank.symbol(b"new", false, 3) == Ok(symbol);
            report.say(is_same, "the same symbol");
        }
        Made::Room => report.say(bank.spare() >= CELLS / 2, "room for them"),
    }
}

/// Returns how often a term can still be protected.
fn protections_left<B: TermBank>(bank: &mut B, t: Term) -> u64 {
    for count in 0..70_000 {
        if !bank.holds(t) || bank.protect(t).is_err() {
            return count;
        }
    }
    70_000
}

/// Frees all cells except the protected ones, and prints their number.
pub fn show_roots<B: TermBank>(bank: &mut B, kept: Term, report: &mut Report) {
    report.count(protections_left(bank, kept), "protections left");
    bank.reclaim(&[]);
    report.show(bank, kept);
    report.count(u64::from(bank.cells()), "cells kept");
}

/// Prints whether the cells are unchanged.
pub fn compare<B: TermBank>(bank: &B, before: &Vec<u8>, report: &mut Report) -> Option<()> {
    let mut now = Vec::new(report.alloc);
    add_content(report.alloc, bank, &mut now)?;
    report.say(now == *before, "the same cells");
    Some(())
}

/// Runs an operation that may fail, prints the state, and runs it again.
pub fn try_call<B: TermBank>(bank: &mut B, call: Call, report: &mut Report) -> Option<()> {
    let text = match call {
        Call::Nil => WITHOUT_LISTS,
        _ => KEPT,
    };
    let kept = set_up(report.alloc, bank, text)?;
    call_once(bank, call, report)?;
    let made = attempt(bank, call).ok()?;
    show_made(bank, made, report);
    show_roots(bank, kept, report);
    Some(())
}

/// Runs the operation while allocations may fail, and prints the state.
fn call_once<B: TermBank>(bank: &mut B, call: Call, report: &mut Report) -> Option<()> {
    let mut before = Vec::new(report.alloc);
    add_content(report.alloc, bank, &mut before)?;
    report.begin();
    if report.tell(attempt(bank, call)) {
        Some(())
    } else {
        compare(bank, &before, report)
    }
}

/// Makes a plain store.
pub fn try_new_plain(report: &mut Report) -> Option<()> {
    report.begin();
    report.tell(PlainBank::new(report.alloc, CELLS));
    let bank = heap_answer(report.alloc, PlainBank::new(report.alloc, CELLS))?;
    report.count(u64::from(bank.cells()), "cells");
    Some(())
}

/// Makes a shared store.
pub fn try_new_shared(report: &mut Report) -> Option<()> {
    report.begin();
    report.tell(SharedBank::new(report.alloc, CELLS));
    let bank = heap_answer(report.alloc, SharedBank::new(report.alloc, CELLS))?;
    report.count(u64::from(bank.cells()), "cells");
    Some(())
}

/// Makes the integers from 0 to 1099.
fn make_integers<B: TermBank>(bank: &mut B) -> Result<(), BankFault> {
    for z in 0..1100 {
        bank.int(z)?;
    }
    Ok(())
}

/// Makes 1,100 integers, more than a shared store has chains at first.
pub fn try_thousand(report: &mut Report) -> Option<()> {
    let mut bank = heap_answer(report.alloc, SharedBank::new(report.alloc, 2000))?;
    make_integers_twice(&mut *bank, report)
}

/// Makes them twice; allocations may fail the first time.
fn make_integers_twice<B: TermBank>(bank: &mut B, report: &mut Report) -> Option<()> {
    report.begin();
    report.tell(make_integers(bank));
    make_integers(bank).ok()?;
    report.count(u64::from(bank.cells()), "cells");
    Some(())
}

/// The capacity of a large store, and the room of half its cells that the test reserves.
const BROAD: u32 = 200_000;

const HALF: u32 = BROAD / 2;

/// Makes 20,000 integers and a symbol with this name, and reserves room for half the cells of a
/// large store.
fn make_broad<B: TermBank>(bank: &mut B, name: &[u8]) -> Result<(), BankFault> {
    for z in 0..20_000 {
        bank.int(z)?;
    }
    bank.symbol(name, true, 0)?;
    bank.reserve(HALF)
}

/// Makes a large store with a name of 100,000 bytes. If there is memory, nothing fails.
fn try_broad<B: TermBank>(bank: &mut B, report: &mut Report) -> Option<()> {
    let name = vec![in report.alloc; b'n'; 100_000].ok()?;
    report.begin();
    report.tell(make_broad(bank, &name));
    report.count(u64::from(bank.cells()), "cells");
    report.say(bank.spare() >= HALF, "room for them");
    Some(())
}

/// Tests a large plain store.
pub fn try_broad_plain(report: &mut Report) -> Option<()> {
    let mut bank = heap_answer(report.alloc, PlainBank::new(report.alloc, BROAD))?;
    try_broad(&mut *bank, report)
}

/// Tests a large shared store.
pub fn try_broad_shared(report: &mut Report) -> Option<()> {
    let mut bank = heap_answer(report.alloc, SharedBank::new(report.alloc, BROAD))?;
    try_broad(&mut *bank, report)
}

/// Walks down a tree by first elements, arguments and contents of placeholders. Returns the number
/// of levels.
fn read_down<B: TermBank>(bank: &B, t: Term) -> u32 {
    let mut at = t;
    for depth in 0..100 {
        if !bank.holds(at) {
            return depth;
        }
        if let Some(notes) = bank.anns(at)
            && !bank.holds(notes)
        {
            return depth;
        }
        at = match bank.kind(at) {
            Kind::Int(_) | Kind::Nil => return depth,
            Kind::Hole => bank.inner(at),
            Kind::Appl(_) => bank.args(at),
            Kind::Cons => bank.head(at),
        };
    }
    100
}

/// Calls the functions that read, which must not allocate.
pub fn try_readers<B: TermBank>(bank: &mut B, report: &mut Report) -> Option<()> {
    let kept = set_up(report.alloc, bank, KEPT)?;
    report.begin();
    let depth = read_down(bank, kept);
    let is_filled = bank.cells() < bank.cap() && bank.spare() == 0;
    report.end();
    report.count(u64::from(depth), "levels");
    report.say(is_filled, "filled");
    show_roots(bank, kept, report);
    Some(())
}

/// Protects and collects, which must not allocate.
pub fn try_reclaim<B: TermBank>(bank: &mut B, report: &mut Report) -> Option<()> {
    let kept = set_up(report.alloc, bank, KEPT)?;
    report.begin();
    let left = protections_left(bank, kept);
    bank.reclaim(&[]);
    report.end();
    report.count(left, "protections left");
    show_roots(bank, kept, report);
    Some(())
}
