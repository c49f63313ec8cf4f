//! Tests of the table of names, the arena and the collector.

ghost use Rattle.std.specs.Prelude.{◌<◌, ℕ, IfOk, OnOk, length};
ghost use Rattle.rx_arena.specs.Arena.{IsTaken};
ghost use Rattle.rx_arena.specs.Put.{times};
ghost use Rattle.rx_sweep.specs.Reach.{CanCollect, names};

use crate::CELLS;
use crate::needs::heap_answer;
use crate::report::Report;
use rx_arena::arena::Arena;
use rx_arena::{ArenaFault, CellBody, Slot};
use rx_names::Names;
use rx_sweep::collect;

/// A name that has a symbol before.
const KNOWN: &[u8] = b"a";

/// A name that gets a symbol.
const NEW: &[u8] = b"b";

/// Adds a symbol.
pub fn try_intern(report: &mut Report) -> Option<()> {
    let mut names = heap_answer(report.alloc, Names::new(report.alloc))?;
    intern_twice(&mut *names, report)
}

/// Adds it twice, next to a known one; allocations may fail the first time.
fn intern_twice(names: &mut Names, report: &mut Report) -> Option<()> {
    let known = names.intern(KNOWN, true, 0).ok()?;
    intern_once(names, report);
    let made = names.intern(NEW, true, 0).ok()?;
    report.say(
        names.find(KNOWN, true, 0) == Some(known),
        "the known symbol",
    );
    report.say(names.find(NEW, true, 0) == Some(made), "the new symbol");
    Some(())
}

/// Adds it while allocations may fail.
fn intern_once(names: &mut Names, report: &mut Report) {
    report.begin();
    if !report.tell(names.intern(NEW, true, 0)) {
        report.say(names.find(NEW, true, 0).is_none(), "without the name");
    }
}

/// Returns the body of a cell without parts.
fn body(number: u32) -> CellBody {
    CellBody {
        kind: 0,
        a: u64::from(number),
        b: 0,
        anns: None,
        hash: u64::from(number),
    }
}

/// Allocates a cell and links it into a chain.
fn link(arena: &mut Arena, number: u32) -> Option<()> {
    let slot = arena.take(body(number)).ok()?;
    let chains = arena.chains();
    if chains > 0 && arena.holds_unmarked(slot) {
        arena.chain_push(number % chains, slot);
    }
    Some(())
}

/// Allocates cells until the next one needs memory.
fn fill(arena: &mut Arena) -> Option<()> {
    for number in 0..CELLS {
        if number > 0 && arena.spare() == 0 {
            break;
        }
        link(arena, number)?;
    }
    Some(())
}

/// Appends the words and the protection counts of all cells.
fn add_content(arena: &Arena, words: &mut Vec<(u64, u16)>) -> Option<()> {
    for number in 0..CELLS {
        let slot = Slot(number);
        if arena.holds_unmarked(slot) {
            words.push((arena.read(slot).a, arena.roots(slot))).ok()?;
        }
    }
    Some(())
}

/// Makes an arena.
pub fn try_new(report: &mut Report) -> Option<()> {
    report.begin();
    report.tell(Arena::new(report.alloc, CELLS, 4));
    let arena = heap_answer(report.alloc, Arena::new(report.alloc, CELLS, 4))?;
    report.count(u64::from(arena.cells()), "cells");
    Some(())
}

/// Tests an arena whose next cell needs memory.
pub fn try_filled(call: &str, report: &mut Report) -> Option<()> {
    let mut arena = heap_answer(report.alloc, Arena::new(report.alloc, CELLS, 4))?;
    let mut before = Vec::new(report.alloc);
    fill_and_try(call, &mut *arena, &mut before, report)
}

/// Fills it, records its contents, and runs the test.
fn fill_and_try(
    call: &str,
    arena: &mut Arena,
    before: &mut Vec<(u64, u16)>,
    report: &mut Report,
) -> Option<()> {
    fill(arena)?;
    add_content(arena, before)?;
    match call {
        "take" => take_twice(arena, before, report),
        "reserve" => reserve_twice(arena, before, report),
        "rehash" => rehash_twice(arena, before, report),
        _ => None,
    }
}

/// Prints whether the cells are unchanged.
fn compare(arena: &Arena, before: &Vec<(u64, u16)>, report: &mut Report) -> Option<()> {
    let mut now = Vec::new(report.alloc);
    add_content(arena, &mut now)?;
    report.say(now == *before, "the same cells");
    Some(())
}

/// Allocates a cell that needs memory, and again if that failed.
fn take_twice(arena: &mut Arena, before: &Vec<(u64, u16)>, report: &mut Report) -> Option<()> {
    report.begin();
    if !report.tell(arena.take(body(CELLS))) {
        compare(arena, before, report)?;
        arena.take(body(CELLS)).ok()?;
    }
    report.say(arena.cells() as usize == before.len() + 1, "one cell more");
    Some(())
}

/// Reserves room for cells twice; allocations may fail the first time.
fn reserve_twice(arena: &mut Arena, before: &Vec<(u64, u16)>, report: &mut Report) -> Option<()> {
    report.begin();
    report.tell(arena.reserve(CELLS / 2));
    compare(arena, before, report)?;
    arena.reserve(CELLS / 2).ok()?;
    report.say(arena.spare() >= CELLS / 2, "room for them");
    Some(())
}

/// Distributes the cells over more chains twice; allocations may fail the first time.
fn rehash_twice(arena: &mut Arena, before: &Vec<(u64, u16)>, report: &mut Report) -> Option<()> {
    report.begin();
    if !report.tell(arena.rehash_into(64)) {
        report.say(arena.chains() == 4, "the same chains");
    }
    compare(arena, before, report)?;
    arena.rehash_into(64).ok()?;
    report.count(u64::from(arena.chains()), "chains");
    Some(())
}

/// Allocates a cell whose parts exist, and links it into the first chain.
fn link_first(arena: &mut Arena, body: CellBody) -> Result<Slot, ArenaFault>
    requires ready { CanCollect arena.old }
    requires chains { 0 < length arena.old.chains }
    requires parts { (s : ℕ) → 0 < times s (names body) → IsTaken arena.old s }
    ensures ready { OnOk result (CanCollect arena.new) }
    ensures chains { OnOk result (0 < length arena.new.chains) }
    ensures taken { IfOk result (λ s. IsTaken arena.new s.0) }
{
    let slot = arena.take(body)?;
    arena.chain_push(0, slot);
    Ok(slot)
}

/// Allocates a cell without parts, in the first chain.
fn leaf(arena: &mut Arena) -> Result<Slot, ArenaFault>
    requires ready { CanCollect arena.old }
    requires chains { 0 < length arena.old.chains }
    ensures ready { OnOk result (CanCollect arena.new) }
    ensures chains { OnOk result (0 < length arena.new.chains) }
    ensures taken { IfOk result (λ s. IsTaken arena.new s.0) }
{
    let body = CellBody {
        kind: 0,
        a: 0,
        b: 0,
        anns: None,
        hash: 0,
    };
    link_first(arena, body)
}

/// Allocates three cells, the last of which is protected.
fn take_leaves(arena: &mut Arena) -> Result<(), ArenaFault>
    requires ready { CanCollect arena.old }
    requires chains { 0 < length arena.old.chains }
    ensures { OnOk result (CanCollect arena.new) }
{
    leaf(arena)?;
    leaf(arena)?;
    let kept = leaf(arena)?;
    arena.set_roots(kept, 1);
    Ok(())
}

/// Runs a collection, which must not allocate.
pub fn try_collect(report: &mut Report) -> Option<()> {
    let mut arena = Arena::new(report.alloc, CELLS, 4).ok()?;
    collect_leaves(&mut arena, report).ok()
}

/// Collects all cells but one.
fn collect_leaves(arena: &mut Arena, report: &mut Report) -> Result<(), ArenaFault>
    requires ready { CanCollect arena.old }
    requires chains { 0 < length arena.old.chains }
{
    take_leaves(arena)?;
    report.begin();
    collect(arena);
    report.end();
    report.count(u64::from(arena.cells()), "cells");
    Ok(())
}
