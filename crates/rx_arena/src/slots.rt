//! The slots with the tables next to their cells: marks, protected slots, words with the contents
//! of cells, and the next slot of each in its list.
//!
//! Each slot has two bytes, a word and a slot number. The first byte is its mark: 0 or 1 while the
//! slot is taken, one of which means "marked", and 2 after it is freed. The second byte says
//! whether it is protected. The word has the contents of the cell except the hash, if they fit,
//! there are no annotations and the cell was not freed. The number is the next slot of the list
//! that the slot is in: the gray list while it is taken, the list of free slots after it is freed.
//! So the state of a slot, the next one of its list, and mostly its contents are read without its
//! cell.
ghost use Rattle.std.specs.Prelude.{◌≡◌, ◌<◌, ◌≤◌, [], ◌++◌, length, map, replicate, slice_set};
ghost use Rattle.std.specs.Prelude.{Some, None, IfSome, OnOk, OnErr};
ghost use Rattle.rx_arena.specs.Inner.Node.{node_at, lone, changed, given_back, is_protected_node};
ghost use Rattle.rx_arena.specs.Inner.Node.{with_roots, with_mark, with_chain, with_next};
ghost use Rattle.rx_arena.specs.Inner.Held.{IsHeld};
ghost use Rattle.rx_arena.specs.Faces.{word_of, word_beside};
ghost use Rattle.rx_arena.specs.Inner.Tables.{nodes_of};

use crate::CellBody;
use crate::faces::ASK;
use crate::room::BLOCK;
use crate::slot_table::SlotTable;
use crate::store::Store;
use std::alloc::{AllocError, Global};
use std::marker::Model;

/// The mark of a freed cell.
pub(crate) const GIVEN_BACK: u8 = 2;

/// The contents of each slot, if it has a cell: the cells, and for each slot its mark, whether it
/// is protected, the word of its body, and the next slot of the list that it is in.
#[derive(Drop)]
pub(crate) struct Slots {
    cells: Store,
    marks: Vec<u8>,
    protected: Vec<bool>,
    words: Vec<u64>,
    nexts: SlotTable,
    ghost told: { protected.items ≡ map is_protected_node (nodes_of marks.items nexts cells) },
    ghost said: { words.items ≡ map word_beside (nodes_of marks.items nexts cells) },
}

impl Model for Slots {
    ghost use Rattle.std.specs.Prelude.{List, Option};
    ghost use Rattle.rx_arena.specs.Inner.Node.{Node};
    ghost use Rattle.rx_arena.specs.Inner.Tables.{HasTables, nodes_of};

    ghost Value = { List (Option Node) };

    ghost view = { λ s. nodes_of s.marks.items s.nexts s.cells };

    ghost invariant = { λ s. HasTables s.marks.items s.nexts s.cells };
}

impl Slots {
    /// Returns no slots.
    pub(crate) fn new(alloc: Global) -> Slots
        ensures { result ≡ [] }
    {
        Slots {
            cells: Store::new(alloc),
            marks: Vec::new(alloc),
            protected: Vec::new(alloc),
            words: Vec::new(alloc),
            nexts: SlotTable::empty(alloc),
        }
    }

    /// Adds a block of slots without cells.
    pub(crate) fn grow(&mut self) -> Result<(), AllocError>
        ensures ok { OnOk result (self.new ≡ self.old ++ replicate 1024 None) }
        ensures err { OnErr result (self.new ≡ self.old) }
    {
        let slots = self.marks.len();
        self.marks.resize(slots + BLOCK, 0)?;
        if let Err(fault) = self.protected.resize(slots + BLOCK, false) {
            self.marks.truncate(slots);
            return Err(fault);
        }
        if let Err(fault) = self.words.resize(slots + BLOCK, ASK) {
            self.marks.truncate(slots);
            self.protected.truncate(slots);
            return Err(fault);
        }
        if let Err(fault) = self.nexts.grow() {
            self.marks.truncate(slots);
            self.protected.truncate(slots);
            self.words.truncate(slots);
            return Err(fault);
        }
        match self.cells.grow() {
            Ok(()) => Ok(()),
            Err(fault) => {
                self.marks.truncate(slots);
                self.protected.truncate(slots);
                self.words.truncate(slots);
                self.nexts.truncate(slots);
                Err(fault)
            }
        }
    }

    /// Writes a new node with this body, whose word is known, and this mark, in no list, over the
    /// contents of the slot.
    #[inline(always)]
    pub(crate) fn fill(&mut self, slot: u32, body: CellBody, word: u64, mark: u8)
        requires slot { slot < length self.old }
        requires word { word ≡ word_of body }
        requires mark { mark ≤ 1 }
        ensures { self.new ≡ slice_set self.old slot (Some (lone mark body)) }
    {
        self.cells.fill(slot, body);
        self.marks[slot as usize] = mark;
        self.protected[slot as usize] = false;
        self.words[slot as usize] = word;
        self.nexts.set(slot, None);
    }

    /// Returns the body.
    pub(crate) fn body(&self, slot: u32) -> CellBody
        requires { IsHeld self.now slot }
        ensures { IfSome (node_at self.now slot) (λ n. result ≡ n.body) }
    {
        self.cells.body(slot)
    }

    /// Returns the word with the contents of a cell that was not freed, if they fit.
    #[inline(always)]
    pub(crate) fn word(&self, slot: u32) -> u64
        requires { slot < length self.now }
        ensures { result ≡ word_beside (node_at self.now slot) }
    {
        self.words[slot as usize]
    }

    /// Returns the number of protections.
    pub(crate) fn roots(&self, slot: u32) -> u16
        requires { IsHeld self.now slot }
        ensures { IfSome (node_at self.now slot) (λ n. result ≡ n.roots) }
    {
        self.cells.roots(slot)
    }

    /// Replaces the number of protections.
    pub(crate) fn set_roots(&mut self, slot: u32, count: u16)
        requires { IsHeld self.old slot }
        ensures { self.new ≡ changed slot (with_roots count) self.old }
    {
        self.cells.set_roots(slot, count);
        self.protected[slot as usize] = count > 0;
    }

    /// Returns whether the slot is protected.
    pub(crate) fn is_protected(&self, slot: u32) -> bool
        requires { IsHeld self.now slot }
        ensures { result ≡ is_protected_node (node_at self.now slot) }
    {
        self.protected[slot as usize]
    }

    /// Returns the mark.
    pub(crate) fn mark(&self, slot: u32) -> u8
        requires { IsHeld self.now slot }
        ensures { IfSome (node_at self.now slot) (λ n. result ≡ n.mark) }
    {
        self.marks[slot as usize]
    }

    /// Replaces the mark of a cell that was not freed.
    pub(crate) fn set_mark(&mut self, slot: u32, mark: u8)
        requires held { IsHeld self.old slot }
        requires taken { IfSome (node_at self.old slot) (λ n. n.mark ≤ 1) }
        requires mark { mark ≤ 1 }
        ensures { self.new ≡ changed slot (with_mark mark) self.old }
    {
        self.marks[slot as usize] = mark;
    }

    /// Marks a cell as freed, in front of the list that begins with `next`.
    pub(crate) fn give_back(&mut self, slot: u32, next: Option<u32>)
        requires held { IsHeld self.old slot }
        requires small { IfSome next (λ t. t < 4294967295) }
        ensures { self.new ≡ changed slot (given_back next) self.old }
    {
        self.marks[slot as usize] = GIVEN_BACK;
        self.words[slot as usize] = ASK;
        self.nexts.set(slot, next);
    }

    /// Returns the next slot of the chain.
    #[inline(always)]
    pub(crate) fn chain_next(&self, slot: u32) -> Option<u32>
        requires { IsHeld self.now slot
            × IfSome (node_at self.now slot) (λ n. IfSome n.chain (IsHeld self.now)) }
        ensures { IfSome (node_at self.now slot) (λ n. result ≡ n.chain) }
    {
        self.cells.chain_next(slot)
    }

    /// Links the slot to the next one of its chain.
    #[inline(always)]
    pub(crate) fn set_chain_next(&mut self, slot: u32, next: Option<u32>)
        requires held { IsHeld self.old slot × IfSome next (λ t. t < length self.old) }
        requires apart { IfSome next (λ t. ¬ (t ≡ slot)) }
        ensures { self.new ≡ changed slot (with_chain next) self.old }
    {
        self.cells.set_chain_next(slot, next)
    }

    /// Returns the next slot of the list that the slot is in. The cell is not read.
    #[inline(always)]
    pub(crate) fn next(&self, slot: u32) -> Option<u32>
        requires { IsHeld self.now slot }
        ensures { IfSome (node_at self.now slot) (λ n. result ≡ n.next) }
    {
        self.nexts.get(slot)
    }

    /// Replaces the next slot of the list that the slot is in. The cell is not written.
    #[inline(always)]
    pub(crate) fn set_next(&mut self, slot: u32, next: Option<u32>)
        requires held { IsHeld self.old slot }
        requires small { IfSome next (λ t. t < 4294967295) }
        ensures { self.new ≡ changed slot (with_next next) self.old }
    {
        self.nexts.set(slot, next)
    }
}
