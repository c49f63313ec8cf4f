//! Tests of properties of arenas that no clause states: calls succeed if there is memory, and a
//! million cells take seconds.
ghost use Rattle.std.specs.Prelude.{◌≡◌, ◌≤◌, ◌^◌, ◌∷◌, [], IfSome};
ghost use Rattle.rx_arena.specs.Arena.{IsTaken, InChain, empty_arena};
ghost use Rattle.test_store.specs.Samples.{HasNoRoots};

use rx_arena::arena::Arena;
use rx_arena::{ArenaFault, CellBody, Slot};
use std::alloc::Global;
use std::process::Abort;

/// Returns an integer's body, with this hash.
fn body(hash: u64) -> CellBody {
    CellBody {
        kind: 0,
        a: 0,
        b: 0,
        anns: None,
        hash,
    }
}

/// Returns an arena without cells.
fn arena_of(rt: &impl Abort, alloc: Global, cap: u32, chains: u32) -> Box<Arena>
    requires cap { (1 ≤ cap) × (cap ≤ 2 ^ 30) }
    requires chains { (1 ≤ chains) × (chains ≤ 2 ^ 30) }
    ensures empty { result.value ≡ empty_arena cap chains }
    ensures no_roots { HasNoRoots result.value }
{
    let arena = Arena::new(alloc, cap, chains).expect(rt, "an arena");
    Box::new(alloc, arena).expect(rt, "memory")
}

/// Aborts if a slot is not taken, or is marked.
fn expect_taken(rt: &impl Abort, arena: &Arena, slot: Slot)
    ensures { IsTaken arena.now slot.0 }
{
    assert!(rt; arena.holds_unmarked(slot));
}

/// Returns whether no slot can be taken.
fn is_full(arena: &mut Arena) -> bool
    ensures chains { arena.new.chains ≡ arena.old.chains }
    ensures gray { arena.new.gray ≡ arena.old.gray }
{
    matches!(arena.take(body(2)), Err(ArenaFault::Full))
}

/// Frees a slot that is not protected. There is one chain, which is empty, and nothing is gray.
fn give_back(rt: &impl Abort, arena: &mut Arena, slot: Slot)
    requires chains { arena.old.chains ≡ [] ∷ [] }
    requires no_gray { arena.old.gray ≡ [] }
{
    expect_taken(rt, arena, slot);
    assert!(rt; !arena.marked(slot));
    assert!(rt; !arena.is_protected(slot));
    arena.give_back(slot);
}

/// Distributes the slots to this number of chains.
fn rehash(rt: &impl Abort, arena: &mut Arena, chains: u32)
    requires { (1 ≤ chains) × (chains ≤ 2 ^ 30) }
{
    assert!(rt; arena.rehash_into(chains).is_ok());
    assert!(rt; arena.chains() == chains);
}

/// Takes two slots, which are all that there are, frees one and takes it again, and distributes
/// them to two chains.
fn take_all(rt: &impl Abort, arena: &mut Arena)
    requires chains { arena.old.chains ≡ [] ∷ [] }
    requires no_gray { arena.old.gray ≡ [] }
{
    assert!(rt; arena.reserve(1).is_ok());
    let first = arena.take(body(0)).expect(rt, "a first slot");
    let second = arena.take(body(1)).expect(rt, "a second slot");
    assert!(rt; first != second);
    assert!(rt; is_full(arena));
    give_back(rt, arena, first);
    assert!(rt; arena.take(body(2)).is_ok());
    rehash(rt, arena, 2);
}

#[test]
fn takes_up_to_the_limit(rt: HostRuntime) {
    take_all(&rt, &mut arena_of(&rt, rt.alloc(), 2, 1));
}

/// Aborts if a cell has another hash, or another number of protections.
fn expect_cell(rt: &impl Abort, arena: &Arena, slot: Slot, hash: u64, roots: u16) {
    expect_taken(rt, arena, slot);
    assert!(rt; arena.read(slot).hash == hash);
    assert!(rt; arena.roots(slot) == roots);
}

/// Replaces the number of protections of a cell.
fn protect(rt: &impl Abort, arena: &mut Arena, slot: Slot, count: u16) {
    expect_taken(rt, arena, slot);
    arena.set_roots(slot, count);
}

/// Aborts if another number of slots can be taken without new memory.
fn expect_spare(rt: &impl Abort, arena: &Arena, count: u32) {
    assert!(rt; arena.spare() == count);
}

/// Takes one of two spare slots of a new arena, for a cell whose hash is 7.
fn take_spare(rt: &impl Abort, arena: &mut Arena) -> Slot {
    expect_spare(rt, arena, 0);
    assert!(rt; arena.reserve(2).is_ok());
    expect_spare(rt, arena, 2);
    let slot = arena.take(body(7)).expect(rt, "a slot");
    expect_spare(rt, arena, 1);
    slot
}

/// Protects an unprotected cell whose hash is 7 three times.
fn protect_spare(rt: &impl Abort, arena: &mut Arena) {
    let slot = take_spare(rt, arena);
    expect_cell(rt, arena, slot, 7, 0);
    assert!(rt; !arena.is_protected(slot));
    protect(rt, arena, slot, 3);
    expect_cell(rt, arena, slot, 7, 3);
    assert!(rt; arena.is_protected(slot));
}

#[test]
fn counts_what_is_spare_and_protected(rt: HostRuntime) {
    protect_spare(&rt, &mut arena_of(&rt, rt.alloc(), 2, 1));
}

/// Aborts if a hash has another chain.
fn expect_home(rt: &impl Abort, arena: &Arena, hash: u64, home: u32) {
    assert!(rt; arena.chains() > 0);
    assert!(rt; arena.home(hash) == home);
}

#[test]
fn a_hash_names_a_chain(rt: HostRuntime) {
    expect_home(&rt, &arena_of(&rt, rt.alloc(), 1, 8), 21, 5);
    expect_home(&rt, &arena_of(&rt, rt.alloc(), 1, 3), 22, 1);
    expect_home(&rt, &arena_of(&rt, rt.alloc(), 1, 1), 22, 0);
}

/// Takes a slot for a cell of this hash, and puts it at the front of a chain.
fn link(rt: &impl Abort, arena: &mut Arena, chain: u32, hash: u64) -> Slot
    requires { HasNoRoots arena.old }
    ensures { HasNoRoots arena.new }
{
    let slot = arena.take(body(hash)).expect(rt, "a slot");
    assert!(rt; chain < arena.chains());
    arena.chain_push(chain, slot);
    slot
}

/// Returns the first slot of a chain.
fn first_of(rt: &impl Abort, arena: &Arena, chain: u32) -> Option<Slot>
    ensures chained { IfSome result (λ s. InChain arena.now s.0) }
    ensures taken { IfSome result (λ s. IsTaken arena.now s.0) }
{
    assert!(rt; chain < arena.chains());
    arena.chain_first(chain)
}

/// Returns the slot after this one in its chain.
fn after(arena: &Arena, slot: Slot) -> Option<Slot>
    requires { InChain arena.now slot.0 }
    ensures { IfSome result (λ s. InChain arena.now s.0) }
{
    arena.chain_next(slot)
}

/// Aborts if a chain does not consist of these slots, in order.
fn expect_chain(rt: &impl Abort, arena: &Arena, chain: u32, slots: &[Slot]) {
    let mut next = first_of(rt, arena, chain);
    for &slot in slots {
        assert!(rt; next == Some(slot));
        next = after(arena, slot);
    }
    assert!(rt; next.is_none());
}

/// Puts three slots, whose hashes are 0, 1 and 2, at the front of chain 0, one after the other.
fn link_three(rt: &impl Abort, arena: &mut Arena) -> (Slot, Slot, Slot)
    requires { HasNoRoots arena.old }
    ensures { HasNoRoots arena.new }
{
    let s0 = link(rt, arena, 0, 0);
    let s1 = link(rt, arena, 0, 1);
    let s2 = link(rt, arena, 0, 2);
    (s0, s1, s2)
}

/// Aborts if a chain does not consist of these two slots, in either order.
fn expect_pair(rt: &impl Abort, arena: &Arena, chain: u32, one: Slot, other: Slot) {
    let pair = if first_of(rt, arena, chain) == Some(one) {
        [one, other]
    } else {
        [other, one]
    };
    expect_chain(rt, arena, chain, &pair);
}

/// Distributes the three slots of chain 0 to two chains.
fn rehash_three(rt: &impl Abort, arena: &mut Arena)
    requires { HasNoRoots arena.old }
{
    let (s0, s1, s2) = link_three(rt, arena);
    expect_chain(rt, arena, 0, &[s2, s1, s0]);
    rehash(rt, arena, 2);
    expect_chain(rt, arena, 1, &[s1]);
    expect_pair(rt, arena, 0, s0, s2);
}

#[test]
fn rehashes_by_the_stored_hash(rt: HostRuntime) {
    rehash_three(&rt, &mut arena_of(&rt, rt.alloc(), 10, 1));
}

/// Marks a cell, and puts it at the front of the gray list.
fn mark(rt: &impl Abort, arena: &mut Arena, slot: Slot)
    requires { HasNoRoots arena.old }
    ensures { HasNoRoots arena.new }
{
    expect_taken(rt, arena, slot);
    assert!(rt; !arena.marked(slot));
    arena.gray_push(slot);
}

/// Empties the gray list. Its slots stay marked.
fn drain_gray(arena: &mut Arena)
    ensures { arena.new ≡ record arena.old { gray = [] } }
{
    while let Some(_slot) = arena.gray_pop() {}
}

/// Frees the slots of a chain that are not marked.
fn retain_marked(rt: &impl Abort, arena: &mut Arena, chain: u32)
    requires no_gray { arena.old.gray ≡ [] }
    requires no_roots { HasNoRoots arena.old }
    ensures no_gray { arena.new.gray ≡ [] }
    ensures no_roots { HasNoRoots arena.new }
{
    assert!(rt; chain < arena.chains());
    arena.chain_retain_marked(chain);
}

/// Clears the mark of the first slot of a chain, which has one.
fn unmark_first(rt: &impl Abort, arena: &mut Arena, chain: u32)
    requires { arena.old.gray ≡ [] }
{
    let slot = first_of(rt, arena, chain).expect(rt, "a slot");
    assert!(rt; arena.marked(slot));
    arena.clear_mark(slot);
    expect_taken(rt, arena, slot);
    assert!(rt; !arena.marked(slot));
}

/// Frees those of three cells that are not marked; the second is marked.
fn keep_second(rt: &impl Abort, arena: &mut Arena)
    requires { HasNoRoots arena.old }
{
    let (_, s1, _) = link_three(rt, arena);
    mark(rt, arena, s1);
    assert!(rt; arena.gray_pop() == Some(s1));
    drain_gray(arena);
    retain_marked(rt, arena, 0);
    expect_chain(rt, arena, 0, &[s1]);
    assert!(rt; arena.cells() == 1);
    unmark_first(rt, arena, 0);
}

#[test]
fn keeps_the_marked(rt: HostRuntime) {
    keep_second(&rt, &mut arena_of(&rt, rt.alloc(), 10, 1));
}

/// Removes the second slot of a chain.
fn remove_second(rt: &impl Abort, arena: &mut Arena, chain: u32) {
    assert!(rt; chain < arena.chains());
    let first = arena.chain_first(chain).expect(rt, "a slot");
    let second = arena.chain_next(first).expect(rt, "a second slot");
    arena.chain_remove(chain, second);
}

/// Removes the first slot of a chain.
fn remove_first(rt: &impl Abort, arena: &mut Arena, chain: u32) {
    assert!(rt; chain < arena.chains());
    let first = arena.chain_first(chain).expect(rt, "a slot");
    arena.chain_remove(chain, first);
}

/// Removes three slots from their chain: the second, then the first ones.
fn remove_three(rt: &impl Abort, arena: &mut Arena)
    requires { HasNoRoots arena.old }
{
    let (s0, _, s2) = link_three(rt, arena);
    remove_second(rt, arena, 0);
    expect_chain(rt, arena, 0, &[s2, s0]);
    remove_first(rt, arena, 0);
    expect_chain(rt, arena, 0, &[s0]);
    remove_first(rt, arena, 0);
    expect_chain(rt, arena, 0, &[]);
    assert!(rt; arena.cells() == 3);
}

#[test]
fn slots_leave_their_chain(rt: HostRuntime) {
    remove_three(&rt, &mut arena_of(&rt, rt.alloc(), 10, 1));
}

/// The number of cells that the large arena takes.
const CELLS: u32 = 1_000_000;

/// The number of chains that they are linked into.
const CHAINS: u32 = 1 << 16;

/// Takes the cells, with their numbers as hashes, links each into the chain of its hash, and marks
/// every second one.
fn fill(rt: &impl Abort, arena: &mut Arena)
    requires { HasNoRoots arena.old }
    ensures { HasNoRoots arena.new }
{
    for i in 0..CELLS {
        let slot = link(rt, arena, i % CHAINS, u64::from(i));
        if i % 2 == 0 {
            mark(rt, arena, slot);
        }
    }
}

/// Frees the slots of all chains that are not marked.
fn sweep(rt: &impl Abort, arena: &mut Arena)
    requires no_gray { arena.old.gray ≡ [] }
    requires no_roots { HasNoRoots arena.old }
{
    for chain in 0..CHAINS {
        retain_marked(rt, arena, chain);
    }
}

/// Returns the hash of the first cell of a chain.
fn first_hash(rt: &impl Abort, arena: &Arena, chain: u32) -> u64 {
    let slot = first_of(rt, arena, chain).expect(rt, "a slot");
    arena.read(slot).hash
}

/// Aborts if there are other numbers of cells and chains.
fn expect_counts(rt: &impl Abort, arena: &Arena, cells: u32, chains: u32) {
    assert!(rt; arena.cells() == cells && arena.chains() == chains);
}

/// Distributes the remaining cells to twice as many chains.
fn rehash_the_rest(rt: &impl Abort, arena: &mut Arena) {
    expect_counts(rt, arena, CELLS / 2, CHAINS);
    rehash(rt, arena, 2 * CHAINS);
    expect_counts(rt, arena, CELLS / 2, 2 * CHAINS);
    assert!(rt; first_hash(rt, arena, 6) % u64::from(2 * CHAINS) == 6);
    expect_chain(rt, arena, 7, &[]);
}

/// Fills an arena, frees the slots that are not marked, and distributes the rest to more chains.
fn sweep_half(rt: &impl Abort, arena: &mut Arena)
    requires { HasNoRoots arena.old }
{
    fill(rt, arena);
    assert!(rt; arena.cells() == CELLS);
    drain_gray(arena);
    sweep(rt, arena);
    rehash_the_rest(rt, arena);
}

#[test]
fn takes_links_marks_sweeps_and_rehashes_a_million(rt: HostRuntime) {
    sweep_half(&rt, &mut arena_of(&rt, rt.alloc(), 1 << 20, CHAINS));
}
