//! Tests that a collection of a small graph keeps what it should, and that a long one needs no
//! stack.
ghost use Rattle.std.specs.Prelude.{◌<◌, ◌≤◌, ◌^◌, ℕ, length, OnOk, IfSome};
ghost use Rattle.rx_arena.specs.Put.{times};
ghost use Rattle.rx_arena.specs.Arena.{IsTaken};
ghost use Rattle.rx_sweep.specs.Reach.{names, CanCollect};

use rx_arena::arena::Arena;
use rx_arena::{ArenaFault, CellBody, Slot};
use rx_sweep::collect;
use rx_sweep::kinds::{APPLICATION, LIST};
use std::alloc::{AllocError, Global};
use std::process::Abort;

/// The kind of a cell that names no slot.
const LEAF: u8 = 0;

/// Returns an arena without cells.
fn arena_of(rt: &impl Abort, alloc: Global, cap: u32, chains: u32) -> Box<Arena>
    requires cap { (1 ≤ cap) × (cap ≤ 2 ^ 30) }
    requires chains { (1 ≤ chains) × (chains ≤ 2 ^ 30) }
    ensures { CanCollect result.value }
{
    let arena = Arena::new(alloc, cap, chains).expect(rt, "an arena");
    Box::new(alloc, arena).expect(rt, "memory")
}

/// Takes a slot for a cell whose parts exist, and links it into a chain.
fn link(arena: &mut Arena, chain: u32, body: CellBody) -> Result<Slot, ArenaFault>
    requires ready { CanCollect arena.old }
    requires chain { chain < length arena.old.chains }
    requires parts { (s : ℕ) → 0 < times s (names body) → IsTaken arena.old s }
    ensures { OnOk result (CanCollect arena.new) }
{
    let slot = arena.take(body)?;
    arena.chain_push(chain, slot);
    Ok(slot)
}

/// Takes a slot for a cell and links it into a chain. The chain and a free slot exist.
fn link_slot(rt: &impl Abort, arena: &mut Arena, chain: u32, body: CellBody) -> Slot
    requires ready { CanCollect arena.old }
    requires parts { (s : ℕ) → 0 < times s (names body) → IsTaken arena.old s }
    ensures { CanCollect arena.new }
{
    assert!(rt; chain < arena.chains());
    link(arena, chain, body).expect(rt, "a free slot")
}

/// Makes a cell without parts, linked into a chain.
fn leaf(rt: &impl Abort, arena: &mut Arena, chain: u32) -> Slot
    requires { CanCollect arena.old }
    ensures { CanCollect arena.new }
{
    let body = CellBody {
        kind: LEAF,
        a: 0,
        b: 0,
        anns: None,
        hash: u64::from(chain),
    };
    link_slot(rt, arena, chain, body)
}

/// Aborts if a slot is not taken, or is marked.
fn expect_taken(rt: &impl Abort, arena: &Arena, slot: Slot)
    ensures { IsTaken arena.now slot.0 }
{
    assert!(rt; arena.holds_unmarked(slot));
}

/// Aborts if there are annotations whose slot is not taken, or is marked.
fn expect_anns_taken(rt: &impl Abort, arena: &Arena, anns: Option<Slot>)
    ensures { IfSome anns (λ s. IsTaken arena.now s.0) }
{
    if let Some(slot) = anns {
        expect_taken(rt, arena, slot);
    }
}

/// The parts of a cell.
#[derive(Clone, Copy)]
struct Parts {
    /// The kind of the cell.
    kind: u8,
    /// The two cells that it refers to.
    cells: (Slot, Slot),
    /// The cell of its annotations, if it has any.
    anns: Option<Slot>,
}

/// Returns the parts of a cell without annotations.
fn plain(kind: u8, cells: (Slot, Slot)) -> Parts {
    Parts {
        kind,
        cells,
        anns: None,
    }
}

/// Makes a cell with these parts, linked into a chain.
fn node(rt: &impl Abort, arena: &mut Arena, chain: u32, parts: Parts) -> Slot
    requires { CanCollect arena.old }
    ensures { CanCollect arena.new }
{
    let (a, b) = parts.cells;
    expect_taken(rt, arena, a);
    expect_taken(rt, arena, b);
    expect_anns_taken(rt, arena, parts.anns);
    let body = CellBody {
        kind: parts.kind,
        a: u64::from(a.0),
        b: u64::from(b.0),
        anns: parts.anns,
        hash: u64::from(chain),
    };
    link_slot(rt, arena, chain, body)
}

/// Replaces the number of protections of a cell.
fn protect(rt: &impl Abort, arena: &mut Arena, slot: Slot, count: u16)
    requires { CanCollect arena.old }
    ensures { CanCollect arena.new }
{
    expect_taken(rt, arena, slot);
    arena.set_roots(slot, count);
}

/// Puts a cell that is not marked in the gray list.
fn make_gray(rt: &impl Abort, arena: &mut Arena, slot: Slot)
    requires { CanCollect arena.old }
    ensures { CanCollect arena.new }
{
    expect_taken(rt, arena, slot);
    assert!(rt; !arena.marked(slot));
    arena.gray_push(slot);
}

/// Returns the slots of a chain, in order. Each has to be unmarked.
fn unmarked_chain<R: Abort>(
    rt: &R,
    alloc: Global,
    arena: &Arena,
    chain: u32,
) -> Result<Vec<Slot>, AllocError>
    requires { chain < length arena.now.chains }
{
    let mut slots = Vec::new(alloc);
    let mut next = arena.chain_first(chain);
    while let Some(slot) = next {
        assert!(rt; !arena.marked(slot), "slot {} is marked", slot.0);
        slots.push(slot)?;
        next = arena.chain_next(slot);
    }
    Ok(slots)
}

/// Aborts if a chain does not consist of these slots, in order, or one of them is marked.
fn expect_chain(rt: &impl Abort, alloc: Global, arena: &Arena, chain: u32, slots: &[Slot]) {
    assert!(rt; chain < arena.chains());
    let found = unmarked_chain(rt, alloc, arena, chain).expect(rt, "memory");
    assert!(rt; found.as_slice() == slots);
}

/// The cells of a graph that its call reaches.
#[derive(Clone, Copy)]
struct Reached {
    empty: Slot,
    one: Slot,
    ones: Slot,
    notes: Slot,
    call: Slot,
}

/// Makes a graph of eight cells in three chains.
fn graph(rt: &impl Abort, arena: &mut Arena) -> Reached
    requires { CanCollect arena.old }
    ensures { CanCollect arena.new }
{
    let empty = leaf(rt, arena, 0);
    let one = leaf(rt, arena, 1);
    let two = leaf(rt, arena, 2);
    let ones = node(rt, arena, 0, plain(LIST, (one, empty)));
    let _twos = node(rt, arena, 1, plain(LIST, (two, ones)));
    let notes = node(rt, arena, 0, plain(LIST, (empty, empty)));
    let call = Parts {
        kind: APPLICATION,
        cells: (two, ones),
        anns: Some(notes),
    };
    let call = node(rt, arena, 2, call);
    let _other = node(rt, arena, 2, plain(APPLICATION, (one, ones)));
    Reached {
        empty,
        one,
        ones,
        notes,
        call,
    }
}

/// Aborts if there is another number of cells, or one of them is gray.
fn expect_cells(rt: &impl Abort, arena: &mut Arena, count: u32) {
    assert!(rt; arena.cells() == count);
    assert!(rt; arena.gray_pop().is_none());
}

/// Collects a graph in which a call is protected.
fn collect_graph(rt: &impl Abort, alloc: Global, arena: &mut Arena)
    requires { CanCollect arena.old }
{
    let made = graph(rt, arena);
    protect(rt, arena, made.call, 1);
    collect(arena);
    expect_cells(rt, arena, 5);
    expect_chain(rt, alloc, arena, 0, &[made.notes, made.ones, made.empty]);
    expect_chain(rt, alloc, arena, 1, &[made.one]);
    expect_chain(rt, alloc, arena, 2, &[made.call]);
}

#[test]
fn keeps_what_is_reached(rt: HostRuntime) {
    collect_graph(&rt, rt.alloc(), &mut arena_of(&rt, rt.alloc(), 100, 3));
}

/// Collects a graph in which a list is gray.
fn collect_gray(rt: &impl Abort, alloc: Global, arena: &mut Arena)
    requires { CanCollect arena.old }
{
    let empty = leaf(rt, arena, 0);
    let one = leaf(rt, arena, 1);
    let ones = node(rt, arena, 0, plain(LIST, (one, empty)));
    let _lost = node(rt, arena, 1, plain(LIST, (one, ones)));
    make_gray(rt, arena, ones);
    collect(arena);
    expect_cells(rt, arena, 3);
    expect_chain(rt, alloc, arena, 0, &[ones, empty]);
    expect_chain(rt, alloc, arena, 1, &[one]);
}

#[test]
fn a_gray_slot_keeps_its_parts(rt: HostRuntime) {
    collect_gray(&rt, rt.alloc(), &mut arena_of(&rt, rt.alloc(), 100, 2));
}

/// Makes a cell that nothing needs, and collects. Aborts if another number of cells than one stays.
fn lose_one(rt: &impl Abort, arena: &mut Arena, chain: u32)
    requires { CanCollect arena.old }
    ensures { CanCollect arena.new }
{
    leaf(rt, arena, chain);
    collect(arena);
    assert!(rt; arena.cells() == 1);
}

/// Collects three times, with one protected cell.
fn collect_thrice(rt: &impl Abort, alloc: Global, arena: &mut Arena)
    requires { CanCollect arena.old }
{
    let kept = leaf(rt, arena, 0);
    protect(rt, arena, kept, 1);
    lose_one(rt, arena, 1);
    expect_chain(rt, alloc, arena, 0, &[kept]);
    lose_one(rt, arena, 0);
    expect_chain(rt, alloc, arena, 0, &[kept]);
    lose_one(rt, arena, 0);
}

/// Cells that one collection keeps are not marked for the next one.
#[test]
fn collections_follow_one_another(rt: HostRuntime) {
    collect_thrice(&rt, rt.alloc(), &mut arena_of(&rt, rt.alloc(), 100, 2));
}

/// The number of nodes of the long list.
const NODES: u32 = 100_000;

/// The number of chains that they are linked into.
const CHAINS: u32 = 1 << 12;

/// Makes a long list whose items are all one leaf, and returns its first node.
fn long_list(rt: &impl Abort, arena: &mut Arena) -> Slot
    requires { CanCollect arena.old }
    ensures { CanCollect arena.new }
{
    let empty = leaf(rt, arena, 0);
    let mut list = empty;
    for i in 0..NODES {
        list = node(rt, arena, i % CHAINS, plain(LIST, (empty, list)));
    }
    list
}

/// Collects a long list, first while it is protected.
fn collect_long_list(rt: &impl Abort, arena: &mut Arena)
    requires { CanCollect arena.old }
{
    let list = long_list(rt, arena);
    protect(rt, arena, list, 1);
    collect(arena);
    assert!(rt; arena.cells() == NODES + 1);
    protect(rt, arena, list, 0);
    collect(arena);
    assert!(rt; arena.cells() == 0);
}

#[test]
fn a_long_list_is_collected(rt: HostRuntime) {
    collect_long_list(&rt, &mut arena_of(&rt, rt.alloc(), 1 << 17, CHAINS));
}
