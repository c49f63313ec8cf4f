//! Evaluates a term and writes its line.

ghost use Rattle.std.specs.Prelude.{◌≡◌, ◌++◌, [], IfErr, IfOk, OnOk, Some, codes};
ghost use Rattle.rx_term.specs.Steps.{Keeps};
ghost use Rattle.rx_term.specs.Store.{tree_at};
ghost use Rattle.rx_term.specs.Tree.{Tree};
ghost use Rattle.rx_term.specs.Walks.{AllHeld};
ghost use Rattle.rx_text.specs.Output.{Writes, WritesFront};
ghost use Rattle.rec_engine.specs.Engine.{IsGiven, IsKept, IsOutcome, SameEngine};
ghost use Rattle.rec_engine.specs.Limits.{KeepsLimit, RoomOrDeepOnly};
ghost use Rattle.rec_run.specs.Depth.{RunDeepOnly};
ghost use Rattle.rec_run.specs.EvaluatedLines.{
  HoldsValue,
  IsThereFor,
  ReportsOutput,
  RunLacks,
  StaysFor,
  due_before,
  is_limit_line,
  outcome_line,
};
ghost use Rattle.rec_run.specs.GivenTerms.{given_text, item_at};
ghost use Rattle.rec_run.specs.Output.{given_task, is_limited, shown_of};
ghost use Rattle.rec_run.specs.Run.{HasRoom};
ghost use Rattle.rec_run.specs.Reports.{
  IsReadyFor,
  StaysReady,
  TellsMore,
  outcome_report,
  value_report,
};

use crate::observer::{Observer, Profiler};
use crate::options::Run;
use crate::reporter::{Reporter, report_outcome};
use crate::spec::lines::engine_fault;
use crate::spec::outcome::{Evaluated, write_outcome_line};
use rec_engine::{Engine, EngineFault, Limits, Outcome, Unwatched, Watch};
use rx_run::RunFault;
use rx_term::{Term, TermBank};
use rx_text::Output;
use std::alloc::{AllocError, Global};
use std::io::Write;

/// Evaluates `t` with a limit of `n` steps and, if `depth` is given, a call-depth limit.
///
/// Returns the normal form, or `Limit` if `n` is too low.
///
/// # Errors
///
/// `Memory` if an allocation failed, `Room` if the store is full of live terms, `Deep` if `depth`
/// frames are in use and one more is needed.
pub fn evaluate_within<B: TermBank>(
    engine: &mut Engine<B>,
    t: Term,
    n: u64,
    depth: Option<u32>,
) -> Result<Outcome, EngineFault>
    requires { IsGiven engine.old.spec (B.store engine.old.bank) t }
    ensures same { SameEngine engine.old engine.new }
    ensures keeps { Keeps (B.store engine.old.bank) (B.store engine.new.bank) [] }
    ensures outcome { IfOk result (λ o. (u : Tree)
        → tree_at (B.store engine.old.bank) t ≡ Some u
        → IsOutcome engine.new.spec (B.store engine.new.bank) n u o) }
    ensures kept { IfOk result (IsKept engine.new.work) }
    ensures held { AllHeld (B.store engine.new.bank) engine.new.work }
    ensures fault { RoomOrDeepOnly (B.store engine.new.bank) engine.new.work engine.new.memo
        depth engine.new.waiting result }
    ensures bound { KeepsLimit depth engine.new.bound engine.new.waiting }
{
    engine.normalise_with(t, Limits { steps: n, depth }, &mut Unwatched)
}

/// Evaluates a term, reports its value and writes its line. Returns whether that is a limit line.
pub(crate) fn write_evaluation<B: TermBank, W: Write, V: Watch, P: Profiler, S: Reporter>(
    run: Run,
    engine: &mut Engine<B>,
    t: Term,
    out: &mut Output<'_, W>,
    observer: &mut Observer<V, P, S>,
) -> Result<bool, RunFault>
    requires given { IsGiven engine.old.spec (B.store engine.old.bank) t }
    requires stays { StaysFor run.settings.limits (B.store engine.old.bank) t }
    requires ready { IsReadyFor S.is_ready engine.old.spec observer.old.reporter }
    ensures limit { IfOk result (λ limited. limited ≡ is_limited engine.old.spec
        run.settings.form run.settings.options.steps (given_task (item_at (B.store engine.old.bank) t))) }
    ensures same { SameEngine engine.old engine.new }
    ensures keeps { Keeps (B.store engine.old.bank) (B.store engine.new.bank) [] }
    ensures ok { OnOk result (Writes W.contents out.old out.new
        (given_text engine.old.spec (shown_of run.settings) run.settings.options.steps
        (item_at (B.store engine.old.bank) t) ++ codes "\n")) }
    ensures err { IfErr result (λ fault.
        WritesFront W.contents out.old out.new (due_before fault
        (given_text engine.old.spec (shown_of run.settings) run.settings.options.steps
        (item_at (B.store engine.old.bank) t)))) }
    ensures room { IfErr result
        (RunLacks (B.store engine.new.bank) engine.new.work engine.new.memo) }
    ensures deep { RunDeepOnly engine.new.waiting run.settings.depth result }
    ensures bound { KeepsLimit run.settings.depth engine.new.bound engine.new.waiting }
    ensures reports { ReportsOutput out.old out.new result }
    ensures ready { StaysReady S.is_ready engine.old.spec observer.old.reporter observer.new.reporter }
    ensures told { OnOk result (TellsMore S.is_ready S.told engine.old.spec
        observer.old.reporter observer.new.reporter (λ source. value_report S.says source
        engine.old.spec run.settings.options.steps
        (given_task (item_at (B.store engine.old.bank) t)))) }
{
    let limits = Limits {
        steps: run.settings.options.steps,
        depth: run.settings.depth,
    };
    match engine.normalise_with(t, limits, &mut observer.watch) {
        Ok(outcome) => {
            let reporter = &mut observer.reporter;
            tell_outcome(run, engine, Evaluated { term: t, outcome }, out, reporter)
        }
        Err(fault) => Err(engine_fault(fault, 0)),
    }
}

/// Reports the result of an evaluation and writes its line. Returns whether that is a limit line.
fn tell_outcome<B: TermBank, W: Write, S: Reporter>(
    run: Run,
    engine: &Engine<B>,
    evaluated: Evaluated,
    out: &mut Output<'_, W>,
    reporter: &mut S,
) -> Result<bool, RunFault>
    requires held { HoldsValue (B.store engine.now.bank) evaluated.outcome }
    requires there { IsThereFor run.settings.limits (B.store engine.now.bank) evaluated.term }
    requires ready { IsReadyFor S.is_ready engine.now.spec reporter.old }
    ensures limit { IfOk result (λ limited. limited ≡ is_limit_line run.settings.form
        (B.store engine.now.bank) evaluated.outcome) }
    ensures ok { OnOk result (Writes W.contents out.old out.new
        (outcome_line run.settings (B.store engine.now.bank) evaluated.term evaluated.outcome
        ++ codes "\n")) }
    ensures err { IfErr result (λ fault. WritesFront W.contents out.old out.new
        (due_before fault (outcome_line run.settings (B.store engine.now.bank) evaluated.term
        evaluated.outcome))) }
    ensures room { IfErr result HasRoom }
    ensures reports { ReportsOutput out.old out.new result }
    ensures ready { StaysReady S.is_ready engine.now.spec reporter.old reporter.new }
    ensures told { OnOk result (TellsMore S.is_ready S.told engine.now.spec
        reporter.old reporter.new (λ source. outcome_report S.says source engine.now.spec
        (B.store engine.now.bank) evaluated.outcome)) }
{
    match report_outcome(run.alloc, engine, evaluated.outcome, reporter) {
        Ok(()) => write_outcome_line(run, engine.bank(), evaluated, out),
        Err(AllocError) => Err(RunFault::Memory { lines: 0 }),
    }
}
