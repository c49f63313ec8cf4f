//! Observers of a run: progress, statistics and reports. A watch and a profiler cannot change the
//! run, so no clause mentions them. The report of a run has a clause of its own (`told`).

ghost use Rattle.std.specs.Prelude.{◌≡◌};
ghost use Rattle.rec_engine.specs.Engine.{SameEngine};

use rec_engine::{Engine, RuleCount, Tally, Unwatched};
use rec_sorts::Checked;
use rx_term::TermBank;
use std::alloc::Global;

/// Receives statistics of a run. An implementation cannot change the run.
pub trait Profiler {
    /// Returns whether the uses of each rule are counted. If there is no memory for the counters,
    /// the run continues without them.
    fn counts_rules(&self) -> bool;

    /// Called once, after the last line or after the error that ended the run. Not called if no
    /// evaluation could start. `counts` has the number of uses of each rule, in the order of the
    /// specification; it is empty if rules were not counted. `tally` has the totals of the run.
    fn conclude(&mut self, checked: &Checked, counts: &[RuleCount], tally: Tally);
}

impl Profiler for Unwatched {
    fn counts_rules(&self) -> bool {
        false
    }

    fn conclude(&mut self, _checked: &Checked, _counts: &[RuleCount], _tally: Tally) {}
}

/// The observers of a run.
#[derive(Drop)]
pub struct Observer<V, P, S> {
    /// A `Watch`, which receives progress during an evaluation.
    pub watch: V,
    /// A `Profiler`, which receives statistics at the end of the run.
    pub profiler: P,
    /// A `Reporter`, which receives each value.
    pub reporter: S,
}

/// Returns an observer that does nothing.
pub fn unobserved() -> Observer<Unwatched, Unwatched, Unwatched> {
    Observer {
        watch: Unwatched,
        profiler: Unwatched,
        reporter: Unwatched,
    }
}

impl<V, P: Profiler, S> Observer<V, P, S> {
    /// Counts the uses of each rule of `engine` from now on, if the profiler needs them. If there
    /// is no memory for the counters, nothing is counted.
    pub fn begin<B: TermBank>(&self, alloc: Global, engine: &mut Engine<B>)
        ensures same { SameEngine engine.old engine.new }
        ensures bank { engine.new.bank ≡ engine.old.bank }
    {
        if self.profiler.counts_rules() {
            let _ = engine.count_rules(alloc);
        }
    }

    /// Passes the statistics of the evaluations of `engine` to the profiler.
    pub fn conclude<B: TermBank>(&mut self, engine: &Engine<B>)
        ensures { self.new.reporter ≡ self.old.reporter }
    {
        let counts = engine.rule_counts();
        self.profiler
            .conclude(engine.checked(), counts, engine.tally());
    }
}
