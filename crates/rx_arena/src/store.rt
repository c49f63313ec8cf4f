//! The blocks, and the cells in them by the numbers of their slots.
ghost use Rattle.std.specs.Prelude.{◌≡◌, ◌≢◌, ℕ, ◌*◌, ◌<◌, List, [], ◌++◌, length, replicate};
ghost use Rattle.std.specs.Prelude.{slice_set};
ghost use Rattle.std.specs.Prelude.{Option, Some, None, IfSome, OnOk, OnErr};
ghost use Rattle.rx_arena.specs.Inner.Node.{Stored, node_at, lone_cell, changed};
ghost use Rattle.rx_arena.specs.Inner.Node.{cell_with_roots, cell_with_chain};
ghost use Rattle.rx_arena.specs.Inner.Held.{IsHeld};
ghost use Rattle.rx_arena.specs.Inner.Ownership as spec;
ghost use Rattle.rx_arena.specs.Inner.Blocks.{bases};

use crate::CellBody;
use crate::cells::{Base, Cells, Place, Target};
use crate::room::{BLOCK, Lease, allocate};
use std::alloc::{AllocError, Allocator, Global};
use std::marker::Model;

/// A block: its start, and the right to free it.
pub struct Block<A: Allocator> {
    pub(crate) base: Base,
    pub(crate) lease: Lease<A>,
}

/// All blocks, over any allocator, seen as one list with the contents of each slot. Users of an
/// arena need it only for tests that count its allocations.
pub struct Store<A: Allocator + Copy = Global> {
    alloc: A,
    blocks: Vec<Block<A>, A>,
    cells: Cells,
}

impl<A: Allocator + Copy> Model for Store<A> {
    ghost use Rattle.std.specs.Prelude.{List, Option};
    ghost use Rattle.rx_arena.specs.Inner.Node.{Stored};
    ghost use Rattle.rx_arena.specs.Inner.Blocks.{Agree};

    ghost Value = { List (Option Stored) };

    ghost view = { λ s. s.cells.slots };

    ghost invariant = { λ s. Agree s.alloc s.blocks.items s.cells };
}

/// Returns the address of a slot: an index into the blocks, without a search.
fn place<A: Allocator>(blocks: &[Block<A>], slot: u32) -> Place
    requires { slot < 1024 * length blocks.now }
    ensures { (result.slot ≡ slot) × (result.at ≡ spec.place (bases blocks.now) slot) }
{
    let index = slot as usize;
    Place {
        slot,
        at: blocks[index / BLOCK].base.cell(index % BLOCK),
    }
}

/// Returns the new link of `slot`.
fn target<A: Allocator>(blocks: &[Block<A>], slot: u32, next: Option<u32>) -> Target
    requires slot { slot < 1024 * length blocks.now }
    requires next { IfSome next (λ t. t < 1024 * length blocks.now) }
    ensures { (result.slot ≡ next) × (result.to ≡ spec.link_to (bases blocks.now) slot next) }
{
    let led_to = match next {
        Some(t) => t,
        None => slot,
    };
    Target {
        slot: next,
        to: place(blocks, led_to).at,
    }
}

/// Returns the slot that the link of `slot` leads to, from the number that was found there.
fn other(slot: u32, found: u32) -> Option<u32>
    ensures end { found ≡ slot → result ≡ None }
    ensures on { found ≢ slot → result ≡ Some found }
{
    if found == slot { None } else { Some(found) }
}

impl<A: Allocator + Copy> Store<A> {
    /// Returns a store without cells.
    pub fn new(alloc: A) -> Store<A>
        ensures { result ≡ [] }
    {
        Store {
            alloc,
            blocks: Vec::new(alloc),
            cells: Cells::new(),
        }
    }

    /// Adds a block of slots without cells.
    pub fn grow(&mut self) -> Result<(), AllocError>
        ensures ok { OnOk result (self.new ≡ self.old ++ replicate 1024 None) }
        ensures err { OnErr result (self.new ≡ self.old) }
    {
        self.blocks.reserve(1)?;
        match allocate(&self.alloc) {
            Some((room, lease)) => {
                let base = self.cells.add(room);
                self.blocks.push_reserved(Block { base, lease });
                Ok(())
            }
            None => Err(AllocError),
        }
    }

    /// Writes a new cell with this body, in no chain, over the contents of the slot.
    #[inline(always)]
    pub(crate) fn fill(&mut self, slot: u32, body: CellBody)
        requires { slot < length self.old }
        ensures { self.new ≡ slice_set self.old slot (Some (lone_cell body)) }
    {
        let at = place(&self.blocks, slot);
        self.cells.fill(at, body)
    }

    /// Returns the body.
    pub(crate) fn body(&self, slot: u32) -> CellBody
        requires { IsHeld self.now slot }
        ensures { IfSome (node_at self.now slot) (λ n. result ≡ n.body) }
    {
        self.cells.get(place(&self.blocks, slot)).body()
    }

    /// Returns the number of protections.
    pub(crate) fn roots(&self, slot: u32) -> u16
        requires { IsHeld self.now slot }
        ensures { IfSome (node_at self.now slot) (λ n. result ≡ n.roots) }
    {
        self.cells.get(place(&self.blocks, slot)).roots
    }

    /// Replaces the number of protections.
    pub(crate) fn set_roots(&mut self, slot: u32, count: u16)
        requires { IsHeld self.old slot }
        ensures { self.new ≡ changed slot (cell_with_roots count) self.old }
    {
        let at = place(&self.blocks, slot);
        self.cells.set_roots(at, count)
    }

    /// Returns the next slot of the chain.
    #[inline(always)]
    pub(crate) fn chain_next(&self, slot: u32) -> Option<u32>
        requires { IsHeld self.now slot
            × IfSome (node_at self.now slot) (λ n. IfSome n.chain (IsHeld self.now)) }
        ensures { IfSome (node_at self.now slot) (λ n. result ≡ n.chain) }
    {
        other(slot, self.cells.chain_number(place(&self.blocks, slot)))
    }

    /// Links the slot to the next one of its chain.
    #[inline(always)]
    pub(crate) fn set_chain_next(&mut self, slot: u32, next: Option<u32>)
        requires held { IsHeld self.old slot × IfSome next (λ t. t < length self.old) }
        requires apart { IfSome next (λ t. ¬ (t ≡ slot)) }
        ensures { self.new ≡ changed slot (cell_with_chain next) self.old }
    {
        let at = place(&self.blocks, slot);
        let target = target(&self.blocks, slot, next);
        self.cells.set_chain(at, target)
    }
}

impl<A: Allocator + Copy> Drop for Store<A> {
    fn drop(self) {
        let Store {
            alloc,
            mut blocks,
            mut cells,
        } = self;
        while let Some(Block { base, lease }) = blocks.pop() {
            cells.remove(base).free(lease, &alloc);
        }
        cells.end();
        blocks.destroy_empty();
    }
}
