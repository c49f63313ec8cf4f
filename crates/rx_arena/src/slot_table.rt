//! Tables of slots, four bytes for each entry. One table has the links of both the gray list and
//! the list of free slots: the former has taken slots only, the latter freed ones only, so an entry
//! that is written for one list leaves the other alone.
ghost use Rattle.std.specs.Prelude.{◌≡◌, ◌<◌, ◌++◌, [], None, IfSome, IfOk, IfErr, OnOk, OnErr};
ghost use Rattle.std.specs.Prelude.{get_or, length, slice_set, take, replicate};

use crate::fault::ArenaFault;
use crate::room::BLOCK;
use std::alloc::{AllocError, Global};
use std::marker::Model;

/// The number that means "no slot".
const NO_SLOT: u32 = u32::MAX;

/// A slot or none for each entry: the first slot of each chain, or the next slot of each slot.
#[derive(Drop)]
pub(crate) struct SlotTable {
    numbers: Vec<u32>,
}

impl Model for SlotTable {
    ghost use Rattle.std.specs.Prelude.{ℕ, List, Option, map};
    ghost use Rattle.rx_arena.specs.Inner.Numbers.{slot_numbered};

    ghost Value = { List (Option ℕ) };

    ghost view = { λ t. map slot_numbered t.numbers.items };
}

impl SlotTable {
    /// Returns a table without entries.
    pub(crate) fn empty(alloc: Global) -> SlotTable
        ensures { result ≡ [] }
    {
        SlotTable {
            numbers: Vec::new(alloc),
        }
    }

    /// Returns a table of `count` entries without slots.
    pub(crate) fn new(alloc: Global, count: u32) -> Result<SlotTable, ArenaFault>
        ensures ok { IfOk result (λ t. t ≡ replicate count None) }
        ensures fault { IfErr result (λ e. e ≡ ArenaFault.Memory) }
    {
        let mut numbers = Vec::new(alloc);
        match numbers.resize(count as usize, NO_SLOT) {
            Ok(()) => Ok(SlotTable { numbers }),
            Err(_) => Err(ArenaFault::Memory),
        }
    }

    /// Adds the entries of a block, without slots.
    pub(crate) fn grow(&mut self) -> Result<(), AllocError>
        ensures ok { OnOk result (self.new ≡ self.old ++ replicate 1024 None) }
        ensures err { OnErr result (self.new ≡ self.old) }
    {
        let entries = self.numbers.len();
        self.numbers.resize(entries + BLOCK, NO_SLOT)?;
        Ok(())
    }

    /// Returns the slot of an entry.
    #[inline(always)]
    pub(crate) fn get(&self, entry: u32) -> Option<u32>
        requires { entry < length self.now }
        ensures { result ≡ get_or self.now entry None }
    {
        let number = self.numbers[entry as usize];
        if number == NO_SLOT {
            None
        } else {
            Some(number)
        }
    }

    /// Replaces the slot of an entry.
    #[inline(always)]
    pub(crate) fn set(&mut self, entry: u32, slot: Option<u32>)
        requires entry { entry < length self.old }
        requires small { IfSome slot (λ t. t < 4294967295) }
        ensures { self.new ≡ slice_set self.old entry slot }
    {
        self.numbers[entry as usize] = slot.unwrap_or(NO_SLOT);
    }

    /// Drops all entries except the first `count`.
    pub(crate) fn truncate(&mut self, count: usize)
        ensures { self.new ≡ take count self.old }
    {
        self.numbers.truncate(count);
    }
}
