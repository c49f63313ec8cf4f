//! The arena: slots that are taken and freed, the chains of a hash table, and the gray list of a
//! collection.

mod dealing;
mod parting;
mod reading;
mod removing;

ghost use Rattle.std.specs.Prelude.{◌≡◌, ◌↔◌, IsTrue, ℕ, ◌+◌, ◌%◌};
ghost use Rattle.std.specs.Prelude.{◌<◌, ◌≤◌, ◌^◌, ◌++◌, ◌∷◌, [], List, true, false, Option};
ghost use Rattle.std.specs.Prelude.{Some, None, Ok, Err, MatchOption, IfSome, IfOk, IfErr, OnOk};
ghost use Rattle.std.specs.Prelude.{OnErr, IfNone, IsSome, length, slice_set, take};
ghost use Rattle.std.specs.Prelude.{map};
ghost use Rattle.std.specs.Option.{option_map};
ghost use Rattle.rx_arena.specs.Faces.{word_of};
ghost use Rattle.rx_arena.specs.Put.{times, total, total-prop, put, altered};
ghost use Rattle.rx_arena.specs.Inner.Links.{Chained, Chained-prop, Listed, Listed-prop, links};
ghost use Rattle.rx_arena.specs.Arena.{taken_at, IsTaken, taken_count, chain_at, InChain, IsLoose};
ghost use Rattle.rx_arena.specs.Arena.{marked_at, IsMarked, roots_at};
ghost use Rattle.rx_arena.specs.Arena.{new_cell, with_count, with_marking};
ghost use Rattle.rx_arena.specs.Arena.{IsFirst, is_unmarked, IsArena, empty_arena};

use crate::faces::word;
use crate::fault::ArenaFault;
use crate::heads::Heads;
use crate::pool::Pool;
use crate::{CellBody, Slot};
use std::alloc::Global;
use std::marker::Model;

/// Cells by their slots, in chains by their hashes.
#[derive(Drop)]
pub struct Arena {
    alloc: Global,
    pool: Pool,
    heads: Heads,
    gray_first: Option<u32>,
    linked: u32,
    ghost chained: { Chained (links (λ n. n.chain) pool.cells)
        heads } by { Chained-prop (links (λ n. n.chain) pool.cells) heads },
    ghost grayed: { Listed (links (λ n. n.next) pool.cells)
        gray_first } by { Listed-prop (links (λ n. n.next) pool.cells) gray_first },
    ghost counted: { linked ≡ total chained.0 } by { total-prop linked chained.0 },
}

impl Model for Arena {
    ghost use Rattle.rx_arena.specs.Arena.{ArenaState, IsArena, state_of};

    ghost Value = { ArenaState };

    ghost view = { λ a. state_of a.pool a.chained.0 a.grayed.0 };

    ghost invariant = { λ a. IsArena (state_of a.pool a.chained.0 a.grayed.0) };
}

/// Returns the chain of a hash. If the number of chains is a power of two, these are its low bits.
#[inline(always)]
fn home(hash: u64, chains: u32) -> u32
    requires { 0 < chains }
    ensures { result ≡ hash % chains }
{
    if chains == 1 << chains.trailing_zeros() {
        (hash & u64::from(chains - 1)) as u32
    } else {
        (hash % u64::from(chains)) as u32
    }
}

/// Returns the slot with this number.
fn slot_of(number: Option<u32>) -> Option<Slot>
    ensures { MatchOption number (result ≡ None)
        (λ n. IfSome result (λ s. s.0 ≡ n) × IsSome result) }
{
    number.map(Slot)
}

impl Arena {
    /// Returns an arena with empty chains, in which at most `cap` slots can be taken. The only
    /// error is `Memory`.
    pub fn new(alloc: Global, cap: u32, chains: u32) -> Result<Arena, ArenaFault>
        requires cap { (1 ≤ cap) × (cap ≤ 2 ^ 30) }
        requires chains { (1 ≤ chains) × (chains ≤ 2 ^ 30) }
        ensures ok { IfOk result (λ a. a ≡ empty_arena cap chains) }
        ensures law { IfOk result IsArena }
        ensures fault { IfErr result (λ e. e ≡ ArenaFault.Memory) }
    {
        let heads = Heads::new(alloc, chains, chains, false)?;
        let pool = Pool::new(alloc, cap);
        Ok(Arena {
            alloc,
            pool,
            heads,
            gray_first: None,
            linked: 0,
        })
    }

    /// Returns the number of slots that are taken.
    pub fn cells(&self) -> u32
        ensures count { result ≡ taken_count self.now }
        ensures law { IsArena self.now }
    {
        self.pool.taken()
    }

    /// Returns the number of slots that can be taken without new memory.
    pub fn spare(&self) -> u32
        ensures value { result ≡ self.now.spare }
        ensures law { IsArena self.now }
    {
        self.pool.spare()
    }

    /// Returns the number of chains.
    pub fn chains(&self) -> u32
        ensures count { result ≡ length self.now.chains }
        ensures law { IsArena self.now }
    {
        self.heads.len()
    }

    /// Returns the chain of a hash.
    #[inline(always)]
    pub fn home(&self, hash: u64) -> u32
        requires some { 0 < length self.now.chains }
        ensures value { result ≡ hash % length self.now.chains }
        ensures law { IsArena self.now }
    {
        home(hash, self.chains())
    }

    /// Takes a slot for this body. It is not marked, not protected, and in no chain. Fails only if
    /// no slot is spare: with `Full` if as many slots are taken as the limit allows, otherwise with
    /// `Memory`. The arena is unchanged after an error. Takes constant time, except when a block is
    /// added.
    pub fn take(&mut self, body: CellBody) -> Result<Slot, ArenaFault>
        ensures free { IfOk result (λ s. taken_at self.old s.0 ≡ None) }
        ensures below { IfOk result (λ s. s.0 < self.old.cap) }
        ensures cells { IfOk result
            (λ s. self.new.cells ≡ put self.old.cells s.0 (Some (new_cell body))) }
        ensures loose { IfOk result (λ s. IsLoose self.new s.0) }
        ensures rest { self.new ≡ record self.old
            { cells = self.new.cells; spare = self.new.spare } }
        ensures spare { self.old.spare ≤ self.new.spare + 1 }
        ensures law { IsArena self.new }
        ensures err { OnErr result (self.new ≡ self.old) }
        ensures none_spare { OnErr result (self.old.spare ≡ 0) }
        ensures full { result ≡ Err ArenaFault.Full → taken_count self.old ≡ self.old.cap }
        ensures memory { result ≡ Err ArenaFault.Memory → taken_count self.old < self.old.cap }
    {
        self.take_with(body, word(body))
    }

    /// Takes a slot like `take`, for a body whose word is known.
    #[inline(always)]
    pub fn take_with(&mut self, body: CellBody, word: u64) -> Result<Slot, ArenaFault>
        requires { word ≡ word_of body }
        ensures free { IfOk result (λ s. taken_at self.old s.0 ≡ None) }
        ensures below { IfOk result (λ s. s.0 < self.old.cap) }
        ensures cells { IfOk result
            (λ s. self.new.cells ≡ put self.old.cells s.0 (Some (new_cell body))) }
        ensures loose { IfOk result (λ s. IsLoose self.new s.0) }
        ensures rest { self.new ≡ record self.old
            { cells = self.new.cells; spare = self.new.spare } }
        ensures spare { self.old.spare ≤ self.new.spare + 1 }
        ensures law { IsArena self.new }
        ensures err { OnErr result (self.new ≡ self.old) }
        ensures none_spare { OnErr result (self.old.spare ≡ 0) }
        ensures full { result ≡ Err ArenaFault.Full → taken_count self.old ≡ self.old.cap }
        ensures memory { result ≡ Err ArenaFault.Memory → taken_count self.old < self.old.cap }
    {
        match self.pool.take(body, word) {
            Ok(slot) => Ok(Slot(slot)),
            Err(fault) => Err(fault),
        }
    }

    /// Frees a slot. It is taken, not marked, not protected, and in no chain and not in the gray
    /// list.
    pub fn give_back(&mut self, slot: Slot)
        requires taken { IsTaken self.old slot.0 }
        requires loose { IsLoose self.old slot.0 }
        requires not_gray { times slot.0 self.old.gray ≡ 0 }
        requires unmarked { marked_at self.old slot.0 ≡ false }
        requires unprotected { roots_at self.old slot.0 ≡ 0 }
        ensures after { self.new ≡ record self.old
            { cells = put self.old.cells slot.0 None; spare = self.old.spare + 1 } }
        ensures law { IsArena self.new }
    {
        self.pool.give_back(slot.0)
    }

    /// Returns whether the slot is taken and not marked.
    pub fn holds_unmarked(&self, slot: Slot) -> bool
        ensures { result ≡ is_unmarked (taken_at self.now slot.0) }
    {
        self.pool.holds_unmarked(slot.0)
    }

    /// Returns the number of protections of a cell.
    pub fn roots(&self, slot: Slot) -> u16
        requires { IsTaken self.now slot.0 }
        ensures { result ≡ roots_at self.now slot.0 }
    {
        self.pool.roots(slot.0)
    }

    /// Returns whether the slot is taken and protected. The cell is not read.
    pub fn is_protected(&self, slot: Slot) -> bool
        ensures { IsTrue result ↔ 0 < roots_at self.now slot.0 }
    {
        self.pool.is_protected(slot.0)
    }

    /// Replaces the number of protections of a cell.
    pub fn set_roots(&mut self, slot: Slot, count: u16)
        requires { IsTaken self.old slot.0 }
        ensures after { self.new ≡ record self.old
            { cells = altered slot.0 (with_count count) self.old.cells } }
        ensures law { IsArena self.new }
    {
        self.pool.set_roots(slot.0, count)
    }

    /// Ensures that `count` more slots can be taken without new memory. Returns `Full` if that
    /// would pass the limit, `Memory` if an allocation failed. Blocks that were added before the
    /// error stay.
    pub fn reserve(&mut self, count: u32) -> Result<(), ArenaFault>
        ensures rest { self.new ≡ record self.old { spare = self.new.spare } }
        ensures grown { self.old.spare ≤ self.new.spare }
        ensures law { IsArena self.new }
        ensures ok { OnOk result (count ≤ self.new.spare) }
        ensures full { result ≡ Err ArenaFault.Full → self.old.cap < taken_count self.old + count }
        ensures memory { result ≡ Err ArenaFault.Memory
            → taken_count self.old + count ≤ self.old.cap }
        ensures too_few { OnErr result (self.old.spare < count) }
    {
        self.pool.reserve(count)
    }

    /// Returns the first slot of a chain, or `None` if it is empty.
    pub fn chain_first(&self, chain: u32) -> Option<Slot>
        requires { chain < length self.now.chains }
        ensures first { IsFirst result (chain_at self.now chain) }
        ensures law { IsArena self.now }
    {
        slot_of(self.heads.get(chain))
    }

    /// Returns the slot after this one in its chain, or `None` at the end.
    pub fn chain_next(&self, slot: Slot) -> Option<Slot>
        requires { InChain self.now slot.0 }
        ensures next { (c : ℕ) (before after : List ℕ)
            → chain_at self.now c ≡ before ++ slot.0 ∷ after → IsFirst result after }
        ensures law { IsArena self.now }
    {
        slot_of(self.pool.chain_next(slot.0))
    }

    /// Puts a slot that is in no chain at the front of a chain.
    #[inline(always)]
    pub fn chain_push(&mut self, chain: u32, slot: Slot)
        requires chain { chain < length self.old.chains }
        requires taken { IsTaken self.old slot.0 }
        requires loose { IsLoose self.old slot.0 }
        ensures after { self.new ≡ record self.old
            { chains = slice_set self.old.chains chain (slot.0 ∷ chain_at self.old chain) } }
        ensures law { IsArena self.new }
    {
        self.pool.set_chain_next(slot.0, self.heads.get(chain));
        self.heads.set(chain, Some(slot.0));
        self.linked += 1;
    }

    /// Removes and returns the first slot of a chain.
    fn chain_pop(&mut self, chain: u32) -> Option<Slot>
        requires { chain < length self.old.chains }
        ensures first { MatchOption result (chain_at self.old chain ≡ [])
            (λ s. chain_at self.old chain ≡ s.0 ∷ chain_at self.new chain) }
        ensures taken { IfSome result (λ s. IsTaken self.new s.0) }
        ensures loose { IfSome result (λ s. IsLoose self.new s.0) }
        ensures none { IfNone result (self.new ≡ self.old) }
        ensures rest { self.new ≡ record self.old
            { chains = slice_set self.old.chains chain (chain_at self.new chain) } }
        ensures law { IsArena self.new }
    {
        match self.heads.get(chain) {
            Some(slot) => {
                let next = self.pool.chain_next(slot);
                self.heads.set(chain, next);
                self.linked -= 1;
                Some(Slot(slot))
            }
            None => None,
        }
    }

    /// Returns whether the cell is marked.
    pub fn marked(&self, slot: Slot) -> bool
        requires { IsTaken self.now slot.0 }
        ensures { result ≡ marked_at self.now slot.0 }
    {
        self.pool.marked(slot.0)
    }

    /// Marks the cell, which was not marked, and puts it at the front of the gray list.
    pub fn gray_push(&mut self, slot: Slot)
        requires taken { IsTaken self.old slot.0 }
        requires unmarked { marked_at self.old slot.0 ≡ false }
        ensures after { self.new ≡ record self.old {
          cells = altered slot.0 (with_marking true)
              self.old.cells;
          gray = slot.0 ∷ self.old.gray;
        } }
        ensures law { IsArena self.new }
    {
        self.pool.set_mark(slot.0, true);
        self.pool.set_next(slot.0, self.gray_first);
        self.gray_first = Some(slot.0);
    }

    /// Puts a marked slot at the front of the gray list.
    fn gray_return(&mut self, slot: Slot)
        requires marked { IsMarked self.old slot.0 }
        requires not_gray { times slot.0 self.old.gray ≡ 0 }
        ensures after { self.new ≡ record self.old { gray = slot.0 ∷ self.old.gray } }
        ensures law { IsArena self.new }
    {
        self.pool.set_next(slot.0, self.gray_first);
        self.gray_first = Some(slot.0);
    }

    /// Removes and returns the first slot of the gray list. It stays marked.
    pub fn gray_pop(&mut self) -> Option<Slot>
        ensures first { MatchOption result (self.old.gray ≡ [])
            (λ s. self.old.gray ≡ s.0 ∷ self.new.gray) }
        ensures marked { IfSome result (λ s. IsMarked self.new s.0) }
        ensures not_gray { IfSome result (λ s. times s.0 self.new.gray ≡ 0) }
        ensures none { IfNone result (self.new ≡ self.old) }
        ensures rest { self.new ≡ record self.old { gray = self.new.gray } }
        ensures law { IsArena self.new }
    {
        match self.gray_first {
            Some(slot) => {
                self.gray_first = self.pool.next(slot);
                Some(Slot(slot))
            }
            None => None,
        }
    }

    /// Marks the cell without putting it in the gray list: a collection continues with one slot
    /// that a cell names (of a list, the tail), so that it leaves the gray list alone along a chain
    /// of cells.
    pub fn mark(&mut self, slot: Slot)
        requires { IsTaken self.old slot.0 }
        ensures after { self.new ≡ record self.old
            { cells = altered slot.0 (with_marking true) self.old.cells } }
        ensures law { IsArena self.new }
    {
        self.pool.set_mark(slot.0, true)
    }

    /// Clears the mark of a cell.
    pub fn clear_mark(&mut self, slot: Slot)
        requires taken { IsTaken self.old slot.0 }
        requires not_gray { times slot.0 self.old.gray ≡ 0 }
        ensures after { self.new ≡ record self.old
            { cells = altered slot.0 (with_marking false) self.old.cells } }
        ensures law { IsArena self.new }
    {
        self.pool.set_mark(slot.0, false)
    }

    /// Clears all marks at once. Each taken slot is marked. The mark that meant "marked" means "not
    /// marked" afterwards, so no cell is touched.
    pub fn turn_marks(&mut self)
        requires marked { (s : ℕ) → IsTaken self.old s → IsMarked self.old s }
        requires no_gray { self.old.gray ≡ [] }
        ensures after { self.new ≡ record self.old
            { cells = map (option_map (with_marking false)) self.old.cells } }
        ensures law { IsArena self.new }
    {
        self.pool.turn()
    }

    /// Returns the number of slots that were ever taken. The number of each taken slot is below it.
    pub fn slots(&self) -> u32
        ensures count { result ≡ length self.now.cells }
        ensures past { (s : ℕ) → result ≤ s → taken_at self.now s ≡ None }
        ensures law { IsArena self.now }
    {
        self.pool.slots()
    }
}
