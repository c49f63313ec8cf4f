//! Predicts for which calls a lookup in the memo table pays. Any answer is correct, so no clause
//! mentions them.

ghost use Rattle.std.specs.Prelude.{◌≤◌};

use rec_memo::{Seen, Tally, fingerprint};
use rx_term::{Symbol, Term};
use std::alloc::{AllocError, Global};

/// The number of fingerprints of calls. The table fits into the processor's cache.
const PRINTS: u32 = 16_384;

/// The calls that were seen before, and for each symbol the gain of lookups.
#[derive(Drop)]
pub(crate) struct Hints {
    seen: Seen,
    tallies: Vec<Tally>,
}

impl Hints {
    /// Creates hints for these symbols and a memo table of this capacity. With capacity 0 there are
    /// no lookups.
    pub(crate) fn new(alloc: Global, symbols: usize, entries: u32) -> Result<Hints, AllocError>
        requires { entries ≤ 1048576 }
    {
        let seen = Seen::new(alloc, entries.min(PRINTS))?;
        let mut tallies = Vec::new(alloc);
        if entries > 0 {
            for _ in 0..symbols {
                tallies.push(Tally::new())?;
            }
        }
        Ok(Hints { seen, tallies })
    }

    /// Returns whether to look up a call in the memo table.
    #[inline]
    pub(crate) fn ask(&mut self, symbol: u32, args: &[Term]) -> bool {
        let place = symbol as usize;
        if place >= self.tallies.len() {
            return false;
        }
        if !self.tallies[place].asks() {
            return false;
        }
        self.seen
            .again(fingerprint(Symbol(u64::from(symbol)), args))
    }

    /// Records a hit that saved this number of steps.
    pub(crate) fn hit(&mut self, symbol: u32, steps: u64) {
        let place = symbol as usize;
        if place < self.tallies.len() {
            self.tallies[place].hit(steps);
        }
    }

    /// Records a miss.
    pub(crate) fn miss(&mut self, symbol: u32) {
        let place = symbol as usize;
        if place < self.tallies.len() {
            self.tallies[place].miss();
        }
    }
}
