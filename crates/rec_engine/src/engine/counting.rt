//! Counters of evaluations. They cannot change an evaluation, so no clause mentions them.

ghost use Rattle.std.specs.Prelude.{◌≡◌, ◌<◌, false};
ghost use Rattle.rec_engine.specs.Machine.{GoesOn, IsOrTells};

use crate::compile::code::Code;
use crate::vm::Flow;
use std::alloc::{AllocError, Global};

/// The uses of a rule.
#[derive(Clone, Copy, PartialEq, Eq, Debug, Drop)]
pub struct RuleCount {
    /// The number of matches for which a step was left.
    pub matched: u64,
    /// The number of these matches whose conditions all held.
    pub fired: u64,
    /// The number of these matches with a condition that failed.
    pub failed: u64,
}

/// Totals of an engine since it was created.
#[derive(Clone, Copy, PartialEq, Eq, Debug, Drop)]
pub struct Tally {
    /// Steps spent.
    pub steps: u64,
    /// Memoized results found.
    pub remembered: u64,
    /// Steps that these results represent.
    pub saved: u64,
    /// Cells made.
    pub made: u64,
    /// The greatest number of cells in use.
    pub most: u32,
    /// Garbage collections.
    pub reclaims: u64,
}

/// Progress is reported when the steps left pass a multiple of this number, a power of two.
const TELLING: u64 = 65_536;

/// Returns the flow after a memoized result, which lowers the steps left from `before` to `after`:
/// with a report if they pass a multiple of `TELLING`. Otherwise a loop that always passes the
/// multiples by such results would never report.
pub(crate) fn flow_after_hit(flow: Flow, before: u64, after: u64) -> Flow
    ensures { IsOrTells flow result }
{
    match flow {
        Flow::Go if before / TELLING != after / TELLING => Flow::Tell,
        flow => flow,
    }
}

/// The uses of each rule by its number, or nothing if rules are not counted.
#[derive(Drop)]
pub(crate) struct Counts {
    rules: Vec<RuleCount>,
    /// A rule that was found needs no extra work if the number of steps left has one of these bits.
    /// One test thus checks that a step is left, that rules are not counted and that no report is
    /// needed.
    mask: u64,
}

/// A rule without uses.
const UNUSED: RuleCount = RuleCount {
    matched: 0,
    fired: 0,
    failed: 0,
};

impl Counts {
    /// Returns counters that are turned off.
    pub(crate) fn none(alloc: Global) -> Counts {
        Counts {
            rules: Vec::new(alloc),
            mask: TELLING - 1,
        }
    }

    /// Returns counters for this number of rules.
    pub(crate) fn of(alloc: Global, rules: usize) -> Result<Counts, AllocError> {
        let rules = vec![in alloc; UNUSED; rules]?;
        Ok(Counts { rules, mask: 0 })
    }

    /// Returns the uses of each rule.
    pub(crate) fn rules(&self) -> &[RuleCount] {
        &self.rules
    }

    /// Returns whether a rule that was found needs extra work: no step is left, rules are counted,
    /// or a report is needed.
    #[inline(always)]
    pub(crate) fn asks(&self, left: u64) -> bool
        ensures { result ≡ false → 0 < left }
    {
        left & self.mask == 0
    }

    /// Counts a rule that was found and spends a step for it. Without conditions it applies.
    /// Returns the flow.
    pub(crate) fn find(&mut self, left: u64, rule: u32, conditional: bool) -> Flow
        ensures { GoesOn result }
    {
        self.count_begin(rule as usize, conditional);
        if left % TELLING == 0 {
            Flow::Tell
        } else {
            Flow::Go
        }
    }

    /// Counts that the conditions hold of the rule whose code contains this instruction.
    #[inline(always)]
    pub(crate) fn enter(&mut self, code: &Code, place: usize) {
        if !self.rules.is_empty() {
            self.count_enter(code.rule_at(place));
        }
    }

    /// Counts that a condition of a rule failed.
    #[inline(always)]
    pub(crate) fn fail(&mut self, rule: u32) {
        if !self.rules.is_empty() {
            self.count_fail(rule as usize);
        }
    }

    // outlined, to keep the path of each rule short

    fn count_begin(&mut self, rule: usize, conditional: bool) {
        if rule >= self.rules.len() {
            return;
        }
        let count = &mut self.rules[rule];
        count.matched = count.matched.saturating_add(1);
        if !conditional {
            count.fired = count.fired.saturating_add(1);
        }
    }

    #[cold]
    #[inline(never)]
    fn count_enter(&mut self, rule: usize) {
        if rule < self.rules.len() {
            self.rules[rule].fired = self.rules[rule].fired.saturating_add(1);
        }
    }

    #[cold]
    #[inline(never)]
    fn count_fail(&mut self, rule: usize) {
        if rule < self.rules.len() {
            self.rules[rule].failed = self.rules[rule].failed.saturating_add(1);
        }
    }
}

/// The totals so far, without the steps.
#[derive(Clone, Copy)]
pub(crate) struct Ledger {
    remembered: u64,
    saved: u64,
    made: u64,
    most: u32,
    reclaims: u64,
    /// The number of cells in the store when they were last counted.
    cells: u32,
}

impl Ledger {
    /// Returns zero totals over a store with this number of cells.
    pub(crate) fn new(cells: u32) -> Ledger {
        Ledger {
            remembered: 0,
            saved: 0,
            made: 0,
            most: cells,
            reclaims: 0,
            cells,
        }
    }

    /// Counts a memoized result that represents this number of steps.
    pub(crate) fn recall(&mut self, steps: u64) {
        self.remembered = self.remembered.saturating_add(1);
        self.saved = self.saved.saturating_add(steps);
    }

    /// Updates the number of cells. It only grows between two collections.
    pub(crate) fn grow(&mut self, cells: u32) {
        let made = cells.saturating_sub(self.cells);
        self.made = self.made.saturating_add(u64::from(made));
        self.go_on(cells);
    }

    /// Updates the number of cells, which may have changed outside of the engine.
    pub(crate) fn go_on(&mut self, cells: u32) {
        self.cells = cells;
        self.most = self.most.max(cells);
    }

    /// Counts a garbage collection.
    pub(crate) fn reclaim(&mut self, before: u32, after: u32) {
        self.grow(before);
        self.reclaims = self.reclaims.saturating_add(1);
        self.cells = after;
    }

    /// Returns the totals with these steps and cells.
    pub(crate) fn tally(&self, steps: u64, cells: u32) -> Tally {
        let mut now = *self;
        now.grow(cells);
        Tally {
            steps,
            remembered: now.remembered,
            saved: now.saved,
            made: now.made,
            most: now.most,
            reclaims: now.reclaims,
        }
    }
}
