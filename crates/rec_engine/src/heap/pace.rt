//! The collection schedule, and the caches of a store's terms until the next collection. A
//! collection keeps the terms that are needed whenever it runs, so no clause mentions its schedule.

ghost use Rattle.std.specs.Prelude.{◌≡◌};
ghost use Rattle.rx_term.specs.Steps.{Reclaims};
ghost use Rattle.rx_term.specs.Walks.{AllHeld};
ghost use Rattle.rec_engine.specs.Inner.Pace.{KeepsKnown};

use crate::engine::counting::Ledger;
use crate::heap::constants::Constants;
use rec_memo::Memo;
use rx_term::{Term, TermBank};

/// The collection schedule, the constants since the last collection, the memo table, and the
/// totals.
#[derive(Drop)]
pub(crate) struct Pace {
    pub(crate) due: Due,
    pub(crate) constants: Constants,
    pub(crate) memo: Memo,
    pub(crate) ledger: Ledger,
}

impl Pace {
    /// Uses the result of the call with this key, which saves `steps` steps.
    pub(crate) fn use_result(&mut self, key: Term, steps: u64)
        ensures constants { self.new.constants ≡ self.old.constants }
        ensures memo { self.new.memo ≡ self.old.memo }
    {
        self.memo.touch(key);
        self.due.save(steps);
        self.ledger.recall(steps);
    }

    /// Collects garbage in a store: keeps only the terms that these references need, and forgets
    /// all constants and the results of freed terms.
    #[inline(never)]
    pub(crate) fn reclaim<B: TermBank>(&mut self, bank: &mut B, kept: &[Term])
        requires { AllHeld (B.store bank.old) kept.now }
        ensures reclaims { Reclaims (B.store bank.old) (B.store bank.new) kept.now }
        ensures known { KeepsKnown (B.store bank.old) (B.store bank.new) self.old self.new }
    {
        let before = bank.cells();
        bank.reclaim(kept);
        self.memo.retain_held(bank);
        self.due.restart(bank.cells());
        self.ledger.reclaim(before, bank.cells());
        self.constants.clear();
    }
}

/// The least number of new cells between collections, unless the setting is lower.
const LEAST: u32 = 16_384;

/// A collection is deferred only by more cells than this number, since each check costs time.
const WORTH: u32 = 256;

/// The number of cells at which the next collection runs: when the number of new cells equals that
/// of the cells that the last one left, within bounds, plus one for each step that memoized results
/// have saved since.
#[derive(Clone, Copy)]
pub(crate) struct Due {
    /// The greatest number of new cells between collections.
    every: u32,
    at: u32,
    latest: u32,
    /// Steps that were saved and have not yet deferred the collection.
    saved: u64,
}

impl Due {
    /// Schedules the next collection after one that left `cells` cells.
    pub(crate) fn new(cells: u32, every: u32) -> Due {
        Due {
            every,
            at: cells.saturating_add(every.min(cells.max(LEAST))),
            latest: cells.saturating_add(every),
            saved: 0,
        }
    }

    /// Returns whether a collection is scheduled at this number of cells.
    #[inline(always)]
    pub(crate) fn is_at(&self, cells: u32) -> bool {
        cells >= self.at
    }

    /// Records that a result saved this number of steps.
    #[inline]
    pub(crate) fn save(&mut self, steps: u64) {
        self.saved = self.saved.saturating_add(steps);
    }

    /// Defers the collection by the saved steps. Returns whether it was worth it.
    pub(crate) fn put_off(&mut self) -> bool {
        let most = self.latest.saturating_sub(self.at);
        let more = match u32::try_from(self.saved) {
            Ok(saved) => saved.min(most),
            Err(_) => most,
        };
        self.saved = 0;
        if more <= WORTH {
            return false;
        }
        self.at = self.at.saturating_add(more);
        true
    }

    /// Schedules the next collection after one that left `cells` cells.
    pub(crate) fn restart(&mut self, cells: u32) {
        *self = Due::new(cells, self.every);
    }
}
