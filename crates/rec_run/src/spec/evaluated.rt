//! Evaluates the terms of a run with an engine that is made for them.

ghost use Rattle.std.specs.Prelude.{◌≡◌, ◌<◌, ◌++◌, ℕ, [], IfErr, IfOk, IsSome, OnOk, length};
ghost use Rattle.std.specs.Option.{ForSome};
ghost use Rattle.rx_term.specs.Steps.{Keeps, with_count};
ghost use Rattle.rx_term.specs.Store.{tree_at};
ghost use Rattle.rx_text.specs.Output.{Writes, contents_of};
ghost use Rattle.rec_engine.specs.Engine.{RemembersNothing};
ghost use Rattle.rec_engine.specs.Limits.{KeepsLimit};
ghost use Rattle.rx_run.specs.Run.{Stops};
ghost use Rattle.rec_run.specs.Depth.{IsBounded, RunDeepOnly};
ghost use Rattle.rec_run.specs.EvaluatedLines.{ProtectsTerms, ReportsOutput, RunLacks};
ghost use Rattle.rec_run.specs.EvaluatedLines.{engine_options};
ghost use Rattle.rec_run.specs.GivenTerms.{HoldsTerms, given_by};
ghost use Rattle.rec_run.specs.Output.{chosen, counts_of, lines, shown_of};
ghost use Rattle.rec_run.specs.Reports.{IsReadyFor, StaysReady, TellsMore, report_of};
ghost use Rattle.rec_run.specs.Run.{RoomExhausts};

use crate::observer::{Observer, Profiler};
use crate::options::{Run, RunOptions};
use crate::reporter::Reporter;
use crate::spec::counts::Counts;
use crate::spec::lines::write_lines;
use crate::spec::reading::Job;
use rec_engine::{Engine, Options, Watch};
use rec_sorts::Checked;
use rx_run::RunFault;
use rx_term::{RootsFull, Term, TermBank};
use rx_text::Output;
use std::alloc::{AllocError, Global};
use std::io::Write;

/// The result of the lines of a run.
#[derive(Drop)]
pub(crate) struct Left<B> {
    /// The numbers of lines, or the error that ended the output.
    pub(crate) written: Result<Counts, RunFault>,
    /// The store over which the terms were evaluated.
    pub(crate) bank: B,
    /// The terms that the last evaluation needed in the store.
    pub(crate) needed: Vec<Term>,
}

/// Evaluates the chosen terms of a specification and then those of a list, if given, over the store
/// that has them, and writes a line for each. The list stays protected.
pub(crate) fn write_evaluated<B: TermBank, W: Write, V: Watch, P: Profiler, S: Reporter>(
    run: Run,
    job: Job,
    bank: B,
    out: &mut Output<'_, W>,
    observer: &mut Observer<V, P, S>,
) -> Left<B>
    requires unrooted { (t : ℕ) → (B.store bank).roots t ≡ 0 }
    requires given { ForSome job.list (HoldsTerms job.checked.spec (B.store bank)) }
    ensures counts { IfOk result.written (λ counts. counts ≡ counts_of run.settings.terms
        job.checked.spec (given_by (B.store bank) job.list)
        run.settings.form run.settings.options.steps) }
    ensures ok { OnOk result.written (Writes W.contents out.old out.new
        (lines job.checked.spec (given_by (B.store bank) job.list)
        (shown_of run.settings) run.settings.options.steps)) }
    ensures err { IfErr result.written (λ fault. Stops fault
        (lines job.checked.spec (given_by (B.store bank) job.list)
        (shown_of run.settings) run.settings.options.steps)
        (contents_of W.contents out.old) (contents_of W.contents out.new)) }
    ensures room { IfErr result.written
        (RoomExhausts (B.store result.bank) result.needed.items) }
    ensures cap { (B.store result.bank).cap ≡ (B.store bank).cap }
    ensures reports { ReportsOutput out.old out.new result.written }
    ensures bounded { IfErr result.written (IsBounded run.settings.depth) }
    ensures told { OnOk result.written (S.told observer.new.reporter ≡ S.told observer.old.reporter
        ++ report_of run.settings.terms S.says job.checked.source job.checked.spec
        (given_by (B.store bank) job.list) run.settings.options.steps) }
{
    match observer.reporter.begin(run.alloc, &job.checked) {
        Ok(()) => write_ready(run, job, bank, out, observer),
        Err(AllocError) => Left {
            written: Err(RunFault::Memory { lines: 0 }),
            bank,
            needed: Vec::new(run.alloc),
        },
    }
}

/// Evaluates the chosen terms and writes their lines. The reporter is ready for their values.
fn write_ready<B: TermBank, W: Write, V: Watch, P: Profiler, S: Reporter>(
    run: Run,
    job: Job,
    bank: B,
    out: &mut Output<'_, W>,
    observer: &mut Observer<V, P, S>,
) -> Left<B>
    requires unrooted { (t : ℕ) → (B.store bank).roots t ≡ 0 }
    requires given { ForSome job.list (HoldsTerms job.checked.spec (B.store bank)) }
    requires ready { S.is_ready observer.old.reporter job.checked.source job.checked.spec }
    ensures counts { IfOk result.written (λ counts. counts ≡ counts_of run.settings.terms
        job.checked.spec (given_by (B.store bank) job.list)
        run.settings.form run.settings.options.steps) }
    ensures ok { OnOk result.written (Writes W.contents out.old out.new
        (lines job.checked.spec (given_by (B.store bank) job.list)
        (shown_of run.settings) run.settings.options.steps)) }
    ensures err { IfErr result.written (λ fault. Stops fault
        (lines job.checked.spec (given_by (B.store bank) job.list)
        (shown_of run.settings) run.settings.options.steps)
        (contents_of W.contents out.old) (contents_of W.contents out.new)) }
    ensures room { IfErr result.written
        (RoomExhausts (B.store result.bank) result.needed.items) }
    ensures cap { (B.store result.bank).cap ≡ (B.store bank).cap }
    ensures reports { ReportsOutput out.old out.new result.written }
    ensures bounded { IfErr result.written (IsBounded run.settings.depth) }
    ensures told { OnOk result.written (S.told observer.new.reporter ≡ S.told observer.old.reporter
        ++ report_of run.settings.terms S.says job.checked.source job.checked.spec
        (given_by (B.store bank) job.list) run.settings.options.steps) }
{
    let Job { checked, list } = job;
    match engine_over(run.alloc, checked, bank, list, run.settings.options) {
        Ok(mut engine) => {
            let written = observe_lines(run, &mut engine, list, out, observer);
            let (bank, needed) = engine.into_parts();
            Left {
                written,
                bank,
                needed,
            }
        }
        Err(bank) => Left {
            written: Err(RunFault::Memory { lines: 0 }),
            bank,
            needed: Vec::new(run.alloc),
        },
    }
}

/// Writes a line for each chosen term, and passes the statistics to the profiler. The engine has the
/// options of the run.
fn observe_lines<B: TermBank, W: Write, V: Watch, P: Profiler, S: Reporter>(
    run: Run,
    engine: &mut Engine<B>,
    list: Option<Term>,
    out: &mut Output<'_, W>,
    observer: &mut Observer<V, P, S>,
) -> Result<Counts, RunFault>
    requires options { engine.old.options ≡ engine_options run.settings.options }
    requires memo { RemembersNothing run.settings.options.memo engine.old.memo }
    requires protected { ForSome list (ProtectsTerms engine.old.spec (B.store engine.old.bank)) }
    requires ready { IsReadyFor S.is_ready engine.old.spec observer.old.reporter }
    ensures counts { IfOk result (λ counts. counts ≡ counts_of run.settings.terms engine.old.spec
        (given_by (B.store engine.old.bank) list) run.settings.form run.settings.options.steps) }
    ensures keeps { Keeps (B.store engine.old.bank) (B.store engine.new.bank) [] }
    ensures ok { OnOk result (Writes W.contents out.old out.new
        (lines engine.old.spec (given_by (B.store engine.old.bank) list)
        (shown_of run.settings) run.settings.options.steps)) }
    ensures err { IfErr result (λ fault. Stops fault
        (lines engine.old.spec (given_by (B.store engine.old.bank) list)
        (shown_of run.settings) run.settings.options.steps)
        (contents_of W.contents out.old) (contents_of W.contents out.new)) }
    ensures room { IfErr result
        (RunLacks (B.store engine.new.bank) engine.new.work engine.new.memo) }
    ensures deep { RunDeepOnly engine.new.waiting run.settings.depth result }
    ensures bound { OnOk result (0 < length (chosen run.settings.terms engine.old.spec
        (given_by (B.store engine.old.bank) list))
        → KeepsLimit run.settings.depth engine.new.bound engine.new.waiting) }
    ensures reports { ReportsOutput out.old out.new result }
    ensures ready { StaysReady S.is_ready engine.old.spec observer.old.reporter observer.new.reporter }
    ensures told { OnOk result (TellsMore S.is_ready S.told engine.old.spec
        observer.old.reporter observer.new.reporter (λ source. report_of run.settings.terms S.says
        source engine.old.spec (given_by (B.store engine.old.bank) list)
        run.settings.options.steps)) }
{
    observer.begin(run.alloc, engine);
    let written = write_lines(run, engine, list, out, observer);
    observer.conclude(engine);
    written
}

/// Makes the engine of a run over a store, with the memo table and the collection interval of
/// `options`, and protects the list of input terms, if there is one.
///
/// The only error is out of memory. It returns the store, in which the list is protected.
pub fn engine_over<B: TermBank>(
    alloc: Global,
    checked: Checked,
    mut bank: B,
    list: Option<Term>,
    options: RunOptions,
) -> Result<Engine<B>, B>
    requires unrooted { (t : ℕ) → (B.store bank).roots t ≡ 0 }
    requires given { ForSome list (HoldsTerms checked.spec (B.store bank)) }
    ensures spec { IfOk result (λ e. e.spec ≡ checked.spec) }
    ensures options { IfOk result (λ e. e.options ≡ engine_options options) }
    ensures memo { IfOk result (λ e. RemembersNothing options.memo e.memo) }
    ensures protected { IfOk result
        (λ e. ForSome list (ProtectsTerms checked.spec (B.store e.bank))) }
    ensures terms { IfOk result
        (λ e. given_by (B.store e.bank) list ≡ given_by (B.store bank) list) }
    ensures cap { IfOk result (λ e. (B.store e.bank).cap ≡ (B.store bank).cap) }
    ensures refused { IfErr result (λ b. (B.store b).cap ≡ (B.store bank).cap) }
{
    if let Some(list) = list {
        protect(&mut bank, list);
    }
    let options = Options {
        memo: options.memo,
        reclaim_every: options.reclaim,
    };
    match Engine::over(alloc, checked, bank, options) {
        Ok(engine) => Ok(engine),
        Err(bank) => Err(bank),
    }
}

/// Protects a term that is not protected yet.
fn protect<B: TermBank>(bank: &mut B, t: Term)
    requires held { IsSome (tree_at (B.store bank.old) t) }
    requires unrooted { (B.store bank.old).roots t.0 ≡ 0 }
    ensures { B.store bank.new ≡ with_count (B.store bank.old) t 1 }
{
    match bank.protect(t) {
        Ok(()) => {}
        Err(RootsFull) => unreachable!(),
    }
}
