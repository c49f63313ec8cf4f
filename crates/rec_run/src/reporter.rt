//! Reporters: they receive each value of a run before its line is written.

ghost use Rattle.std.specs.Prelude.{◌≡◌, ℕ, List, IsSome, OnOk};
ghost use Rattle.rx_term.specs.Store.{tree_at};
ghost use Rattle.rx_term.specs.Tree.{Tree};
ghost use Rattle.rx_term.specs.Walks.{held_tree};
ghost use Rattle.rec_syntax.specs.Syntax.{Spec};
ghost use Rattle.rec_run.specs.EvaluatedLines.{HoldsValue};
ghost use Rattle.rec_run.specs.Reports.{IsReadyFor, StaysReady, TellsMore, outcome_report};

use rec_engine::{Engine, Outcome, Unwatched};
use rec_sorts::Checked;
use rx_term::{Term, TermBank};
use std::alloc::{AllocError, Global};

/// Receives the values of a run. A reporter cannot change the run, except by running out of memory.
pub trait Reporter {
    /// The bytes that it has reported.
    ghost told: { Self → List ℕ };

    /// `is_ready self source spec`: it can report values of the specification `spec` with text
    /// `source`.
    ghost is_ready: { Self → List ℕ → Spec → Type 0 };

    /// `says source spec value`: the bytes that it reports for a value.
    ghost says: { List ℕ → Spec → Tree → List ℕ };

    /// Prepares for the values of a specification. Called once, before the first evaluation.
    fn begin(&mut self, alloc: Global, checked: &Checked) -> Result<(), AllocError>
        ensures told { told self.new ≡ told self.old }
        ensures ready { OnOk result (is_ready self.new checked.now.source checked.now.spec) };

    /// Reports `value`. Called before the line of the value is written.
    fn report<B: TermBank>(
        &mut self,
        alloc: Global,
        engine: &Engine<B>,
        value: Term,
    ) -> Result<(), AllocError>
        requires held { IsSome (tree_at (B.store engine.now.bank) value) }
        requires ready { IsReadyFor is_ready engine.now.spec self.old }
        ensures ready { StaysReady is_ready engine.now.spec self.old self.new }
        ensures told { OnOk result (TellsMore is_ready told engine.now.spec self.old self.new
            (λ source. says source engine.now.spec
            (held_tree (B.store engine.now.bank) value))) };
}

impl Reporter for Unwatched {
    ghost use Rattle.std.specs.Prelude.{[]};

    ghost told = { λ _. [] };

    ghost is_ready = { λ _ _ _. Unit {0} };

    ghost says = { λ _ _ _. [] };

    fn begin(&mut self, _alloc: Global, _checked: &Checked) -> Result<(), AllocError> {
        Ok(())
    }

    fn report<B: TermBank>(
        &mut self,
        _alloc: Global,
        _engine: &Engine<B>,
        _value: Term,
    ) -> Result<(), AllocError> {
        Ok(())
    }
}

/// Reports the result of an evaluation, if it is a value.
pub(crate) fn report_outcome<B: TermBank, S: Reporter>(
    alloc: Global,
    engine: &Engine<B>,
    outcome: Outcome,
    reporter: &mut S,
) -> Result<(), AllocError>
    requires held { HoldsValue (B.store engine.now.bank) outcome }
    requires ready { IsReadyFor S.is_ready engine.now.spec reporter.old }
    ensures ready { StaysReady S.is_ready engine.now.spec reporter.old reporter.new }
    ensures told { OnOk result (TellsMore S.is_ready S.told engine.now.spec
        reporter.old reporter.new
        (λ source. outcome_report S.says source engine.now.spec
        (B.store engine.now.bank) outcome)) }
{
    match outcome {
        Outcome::Value { term, steps: _ } => reporter.report(alloc, engine, term),
        Outcome::Limit => Ok(()),
    }
}
