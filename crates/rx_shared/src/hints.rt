//! Hints: the cell that was made last over each slot, in four bytes per slot. So most bodies are
//! found, or known to be new, without a search.
//!
//! Of a list node the entry of the tail is read first, and that of the head before a chain is
//! searched. An outdated entry leads to a cell that differs, and then the chain is searched.
//! Entries are added in blocks of 1,024; without memory slots have none. If two symbols are used
//! over one list in turn, each replaces the other's entry: two entries per slot would take more
//! instructions.

ghost use Rattle.std.specs.Prelude.{◌≡◌, ◌≢◌, ℕ, ◌<◌, [], IsTrue};
ghost use Rattle.rx_sweep.specs.Reach.{annotations, words};
ghost use Rattle.rx_shared.specs.Inner.Hints.{entry, CoversSlots, Covers, Stays};

use crate::bodies::EMPTY;
use rx_arena::{CellBody, Slot};
use rx_sweep::kinds::{APPLICATION, LIST, PLACEHOLDER};
use std::alloc::Global;

/// The entry that means "unknown".
const UNKNOWN: u32 = u32::MAX;

/// For each slot the number of the cell that was made last over it, plus 1, or 0 if no cell names
/// the slot; and the slot of the empty list.
#[derive(Drop)]
pub(crate) struct Hints {
    last: Vec<u32>,
    empty: u32,
}

impl Hints {
    /// Returns hints without entries.
    pub(crate) fn new(alloc: Global) -> Hints
        ensures { result.last.items ≡ [] }
    {
        Hints {
            last: Vec::new(alloc),
            empty: UNKNOWN,
        }
    }

    /// Returns the entry of a slot.
    #[inline(always)]
    fn get(&self, slot: u64) -> u32
        ensures { result ≡ entry self.now.last.items slot }
    {
        match self.last.get(slot as usize) {
            Some(last) => *last,
            None => UNKNOWN,
        }
    }

    /// Replaces the entry of a slot, if it has one.
    #[inline(always)]
    fn set(&mut self, slot: u64, last: u32)
        requires { 0 < last }
        ensures stays { Stays self.old.last.items self.new.last.items }
        ensures here { 0 < entry self.new.last.items slot }
    {
        if (slot as usize) < self.last.len() {
            self.last[slot as usize] = last;
        }
    }

    /// Adds entries, past that of this slot. If allocation fails, there are no more entries.
    #[inline(never)]
    fn lengthen(&mut self, slot: u32)
        ensures { (s : ℕ) → entry self.new.last.items s ≡ entry self.old.last.items s }
    {
        if slot as usize >= self.last.len() {
            let _ = self.last.resize(slot as usize + 1024, UNKNOWN);
        }
    }

    /// Records that no cell names this slot, if it has an entry.
    #[inline(always)]
    fn clear(&mut self, slot: u32)
        ensures { (s : ℕ) → s ≢ slot → 0 < entry self.old.last.items s
            → 0 < entry self.new.last.items s }
    {
        if (slot as usize) < self.last.len() {
            self.last[slot as usize] = 0;
        } else {
            self.lengthen(slot);
        }
    }

    /// Replaces the entry of a slot that no cell names.
    #[inline(always)]
    fn raise(&mut self, slot: u64, last: u32)
        requires { 0 < last }
        ensures stays { Stays self.old.last.items self.new.last.items }
        ensures here { 0 < entry self.new.last.items slot }
    {
        if self.get(slot) == 0 {
            self.set(slot, last);
        }
    }

    /// Sets the entries of the slots that a cell with annotations names, if no other cell names
    /// them. Other entries lead to cells without annotations, which are looked up by them.
    #[inline(always)]
    fn raise_words(&mut self, kind: u8, a: u64, b: u64, last: u32)
        requires { 0 < last }
        ensures stays { Stays self.old.last.items self.new.last.items }
        ensures covers { CoversSlots self.new.last.items (words kind a b) }
    {
        if kind == LIST {
            self.raise(a, last);
            self.raise(b, last);
        } else if kind == APPLICATION {
            self.raise(b, last);
        } else if kind == PLACEHOLDER {
            self.raise(a, last);
        }
    }

    /// Sets the entries of the slots that a cell names. That of a list's head is kept if the tail's
    /// entry leads to the cell.
    #[inline(always)]
    fn cover_words(&mut self, kind: u8, a: u64, b: u64, last: u32)
        requires { 0 < last }
        ensures stays { Stays self.old.last.items self.new.last.items }
        ensures covers { CoversSlots self.new.last.items (words kind a b) }
    {
        if kind == LIST {
            if b == u64::from(self.empty) || self.get(a) == 0 {
                self.set(a, last);
            }
            self.set(b, last);
        } else if kind == APPLICATION {
            self.set(b, last);
        } else if kind == PLACEHOLDER {
            self.set(a, last);
        }
    }

    /// Sets the entry of a cell's annotations.
    #[inline(always)]
    fn cover_annotations(&mut self, anns: Option<Slot>, last: u32)
        requires { 0 < last }
        ensures stays { Stays self.old.last.items self.new.last.items }
        ensures covers { CoversSlots self.new.last.items (annotations anns) }
    {
        if let Some(slot) = anns {
            self.set(u64::from(slot.0), last);
        }
    }

    /// Sets the entries of all slots that a new cell names.
    #[inline(always)]
    pub(crate) fn cover(&mut self, body: CellBody, slot: u32)
        requires { slot < 4294967295 }
        ensures stays { (s : ℕ) → s ≢ slot → 0 < entry self.old.last.items s
            → 0 < entry self.new.last.items s }
        ensures covers { Covers self.new.last.items body }
    {
        self.clear(slot);
        self.cover_annotations(body.anns, slot + 1);
        if body.anns.is_none() {
            self.cover_words(body.kind, body.a, body.b, slot + 1);
        } else {
            self.raise_words(body.kind, body.a, body.b, slot + 1);
        }
    }

    /// Returns 0 if no taken cell has this body, as no cell was made over a slot that it names.
    /// Otherwise returns the number of a slot that may have it, plus 1.
    #[inline(always)]
    pub(crate) fn look(&self, body: CellBody) -> u32
        ensures { result ≡ 0 → ¬ (Covers self.now.last.items body) }
    {
        if body.kind == LIST {
            if body.b == u64::from(self.empty) {
                self.get(body.a)
            } else {
                self.get(body.b)
            }
        } else if body.kind == APPLICATION {
            self.get(body.b)
        } else if body.kind == PLACEHOLDER {
            self.get(body.a)
        } else if body.kind == EMPTY && self.empty < UNKNOWN {
            self.empty + 1
        } else {
            UNKNOWN
        }
    }

    /// Returns whether there are annotations, and no cell was made over them.
    #[inline(always)]
    fn is_unnamed(&self, anns: Option<Slot>) -> bool
        ensures { IsTrue result → ¬ (CoversSlots self.now.last.items (annotations anns)) }
    {
        match anns {
            Some(slot) => self.get(u64::from(slot.0)) == 0,
            None => false,
        }
    }

    /// Returns true only if no taken cell has this body: no cell was made over its annotations, or,
    /// for a list node, over its head or its tail.
    #[inline(always)]
    pub(crate) fn rules_out(&self, body: CellBody) -> bool
        ensures { IsTrue result → ¬ (Covers self.now.last.items body) }
    {
        self.is_unnamed(body.anns)
            || body.kind == LIST && (self.get(body.a) == 0 || self.get(body.b) == 0)
    }

    /// Returns the slot by whose entry a body is looked up: the tail of a list, or the head if the
    /// tail is empty, or the arguments.
    #[inline(always)]
    fn key(&self, body: CellBody) -> u64 {
        if body.kind == PLACEHOLDER || body.kind == LIST && body.b == u64::from(self.empty) {
            body.a
        } else {
            body.b
        }
    }

    /// Records the slot of a body without annotations; others are not looked up in this way.
    #[inline(always)]
    pub(crate) fn point(&mut self, body: CellBody, slot: u32)
        requires { slot < 4294967295 }
        ensures { Stays self.old.last.items self.new.last.items }
    {
        if body.kind == EMPTY {
            self.empty = slot;
        } else if body.kind >= LIST && body.anns.is_none() {
            self.set(self.key(body), slot + 1);
        }
    }
}
