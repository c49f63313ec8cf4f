//! Cells in memory. Only this file and `room.rt` have pointers. Each function works on the cell at
//! one place; one that follows its link also reads the number in the cell that it leads to.
ghost use Rattle.std.specs.Prelude.{◌≡◌, ℕ, ◌*◌, ◌<◌, List, [], ◌∷◌, ◌++◌, length, replicate};
ghost use Rattle.std.specs.Prelude.{slice_set};
ghost use Rattle.std.specs.Prelude.{Option, Some, None, IfSome};
ghost use denote.RawPtr.{Ptr, InBlock};
ghost use Rattle.rx_arena.specs.Inner.Real.{InBlock-prop, IsLast};
ghost use Rattle.rx_arena.specs.Inner.Node.{Stored, node_at, lone_cell, led_to, changed, HaveLinks};
ghost use Rattle.rx_arena.specs.Inner.Node.{cell_with_roots, cell_with_chain};

use crate::room::Room;
use crate::{CellBody, Slot};
use std::marker::{Model, PhantomData};
use std::mem::size_of;

/// A cell, with a pointer to the next one of its chain, or to itself at the end. The layout is
/// described in the crate's root.
pub struct Cell {
    chain: *mut Cell,
    number: u32,
    pub(crate) roots: u16,
    kind: u8,
    hash: u64,
    a: u64,
    b: u64,
    anns: Option<Slot>,
}

const _: () = prove!(size_of::<Cell>() == 48);

/// The start of a block. It owns nothing.
#[derive(Clone, Copy)]
pub struct Base {
    at: *mut Cell,
    ghost real: { InBlock at } by { InBlock-prop at },
}

/// A slot and its address. It owns nothing.
#[derive(Clone, Copy)]
pub struct Place {
    pub(crate) slot: u32,
    pub(crate) at: *mut Cell,
}

/// The new link of a cell: the next slot, if there is one, and the pointer for it.
#[derive(Clone, Copy)]
pub struct Target {
    pub(crate) slot: Option<u32>,
    pub(crate) to: *mut Cell,
}

/// A slot, and the target of its cell's link.
#[derive(Clone, Copy)]
pub struct Lead {
    slot: u32,
    to: *mut Cell,
}

/// The owner of the cells' memory. It takes no space.
pub struct Cells {
    mark: PhantomData<*mut Cell>,
    ghost blocks: { List Ptr },
    ghost slots: { List (Option Stored) },
}

impl Model for Cells {
    ghost use Rattle.rx_arena.specs.Inner.Ownership.{slots_own, slots_lent};

    ghost also_owns = { λ c. slots_own c.blocks 0 c.slots };

    ghost also_shares = { λ c _ κ. slots_lent c.blocks 0 c.slots κ };
}

impl Cell {
    ghost use Rattle.rx_arena.specs.Inner.Ownership.{body_of};

    /// Returns the body, whose fields are apart from each other.
    pub(crate) fn body(&self) -> CellBody
        ensures { result ≡ body_of self.now }
    {
        CellBody {
            kind: self.kind,
            a: self.a,
            b: self.b,
            anns: self.anns,
            hash: self.hash,
        }
    }
}

impl Cells {
    ghost use Rattle.rx_arena.specs.Inner.Ownership.{cell_of, link_to};
    ghost use Rattle.rx_arena.specs.Inner.Held.{IsPlace, IsHeld, IsLead};

    /// Returns an owner without cells.
    pub(crate) fn new() -> Cells
        ensures { (result.blocks ≡ []) × (result.slots ≡ []) }
    {
        Cells { mark: PhantomData }
    }

    /// Adds a block of empty slots.
    pub(crate) fn add(&mut self, room: Room) -> Base
        requires { (length self.old.slots ≡ 1024 * length self.old.blocks)
            × HaveLinks (length self.old.slots) 0 self.old.slots }
        ensures blocks { self.new.blocks ≡ self.old.blocks ++ result.at ∷ [] }
        ensures slots { self.new.slots ≡ self.old.slots ++ replicate 1024 None }
        ensures place { result.at ≡ room.at }
    {
        let Room { at } = room;
        Base { at }
    }

    /// Empties all slots, and returns the memory of the last block.
    pub(crate) fn remove(&mut self, base: Base) -> Room
        requires { (length self.old.slots ≡ 1024 * length self.old.blocks)
            × IsLast self.old.blocks base.at }
        ensures blocks { self.old.blocks ≡ self.new.blocks ++ base.at ∷ [] }
        ensures slots { self.new.slots ≡ replicate (1024 * length self.new.blocks) None }
        ensures room { result.at ≡ base.at }
    {
        Room { at: base.at }
    }

    /// Ends an owner that has no blocks any more.
    pub(crate) fn end(self)
        requires { self.blocks ≡ [] }
    {
        let Cells { mark: _ } = self;
    }

    /// Writes a new cell into a slot, over its contents.
    #[inline(always)]
    pub(crate) fn fill(&mut self, at: Place, body: CellBody)
        requires { IsPlace self.old.blocks at × (at.slot < length self.old.slots) }
        ensures blocks { self.new.blocks ≡ self.old.blocks }
        ensures slots { self.new.slots ≡ slice_set self.old.slots at.slot (Some (lone_cell body)) }
    {
        unsafe {
            at.at.write(Cell {
                chain: at.at,
                number: at.slot,
                roots: 0,
                kind: body.kind,
                hash: body.hash,
                a: body.a,
                b: body.b,
                anns: body.anns,
            })
        }
    }

    /// Returns a reference to the cell. Only this file reads its link.
    pub(crate) fn get(&self, at: Place) -> &Cell
        requires { IsPlace self.now.blocks at × IsHeld self.now.slots at.slot }
        ensures { IfSome (node_at self.now.slots at.slot)
            (λ n. result.now ≡ cell_of self.now.blocks at.slot n) }
    {
        unsafe { &*at.at }
    }

    /// Writes the number of protections.
    pub(crate) fn set_roots(&mut self, at: Place, count: u16)
        requires { IsPlace self.old.blocks at × IsHeld self.old.slots at.slot }
        ensures blocks { self.new.blocks ≡ self.old.blocks }
        ensures slots { self.new.slots ≡ changed at.slot (cell_with_roots count) self.old.slots }
    {
        unsafe { (*at.at).roots = count }
    }

    /// Writes the link to the next cell of the chain.
    pub(crate) fn set_chain(&mut self, at: Place, next: Target)
        requires { IsPlace self.old.blocks at
            × IsHeld self.old.slots at.slot
            × (next.to ≡ link_to self.old.blocks at.slot next.slot) }
        ensures blocks { self.new.blocks ≡ self.old.blocks }
        ensures slots { self.new.slots ≡ changed at.slot (cell_with_chain next.slot)
            self.old.slots }
    {
        unsafe { (*at.at).chain = next.to }
    }

    /// Returns the number in the cell that a link leads to.
    fn number(&self, lead: Lead) -> u32
        requires { IsLead self.now.blocks self.now.slots lead }
        ensures { IfSome (node_at self.now.slots lead.slot)
            (λ n. result ≡ led_to lead.slot n.chain) }
    {
        unsafe { (*lead.to).number }
    }

    /// Returns the number of the cell that the link leads to: the cell's own at the end of the
    /// chain.
    #[inline(always)]
    pub(crate) fn chain_number(&self, at: Place) -> u32
        requires { IsPlace self.now.blocks at
            × IsHeld self.now.slots at.slot
            × IfSome (node_at self.now.slots at.slot)
            (λ n. IsHeld self.now.slots (led_to at.slot n.chain)) }
        ensures { IfSome (node_at self.now.slots at.slot)
            (λ n. result ≡ led_to at.slot n.chain) }
    {
        let to = self.get(at).chain;
        self.number(Lead { slot: at.slot, to })
    }
}

impl Base {
    ghost use Rattle.std.specs.Prelude.{◌*◌};
    ghost use denote.RawPtr.{◌+ₚ◌};

    /// Returns the address of the cell with this index in the block.
    pub(crate) fn cell(self, index: usize) -> *mut Cell
        requires { index < 1024 }
        ensures { result ≡ self.at +ₚ (index * 48) }
    {
        unsafe { self.at.add(index) }
    }
}
