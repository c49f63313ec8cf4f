//! The specified output for the texts that were read.

ghost use Rattle.std.specs.Prelude.{◌≡◌, ℕ, IfErr, IfOk, List, OnOk};
ghost use Rattle.std.specs.Option.{ForSome};
ghost use Rattle.rx_term.specs.Tree.{Tree};
ghost use Rattle.rx_text.specs.Output.{Writes, contents_of};
ghost use Rattle.rx_run.specs.Refusals.{ending_of};
ghost use Rattle.rx_run.specs.Run.{Stops};
ghost use Rattle.rec_engine.specs.Engine.{RemembersNothing};
ghost use Rattle.rec_run.specs.EvaluatedLines.{ReportsOutput, engine_options};
ghost use Rattle.rec_run.specs.GivenTerms.{HoldsTerms, IsReady, IsRefused, given_by};
ghost use Rattle.rec_run.specs.Depth.{counts_in};
ghost use Rattle.rec_run.specs.Output.{counts_of};
ghost use Rattle.rec_run.specs.Reports.{job_counts};
ghost use Rattle.rec_run.specs.Run.{HasRoom};
ghost use Rattle.rec_run.specs.declared.options.ValueForm.TheVariants.{Plain};
ghost use Rattle.rec_trace_run.specs.Inner.Due.{job_traces, trace_due};
ghost use Rattle.rec_trace_run.specs.Inner.Telling.{AreGivenTerms, IsTelling};
ghost use Rattle.rec_trace_run.specs.Inner.Pages.{FullIfRoom};
ghost use Rattle.rec_trace_run.specs.Traces.{shown_by, traces};

use crate::given::{GivenTerms, given_terms};
use crate::options::Setup;
use crate::page::Page;
use crate::telling::Telling;
use crate::terms::write_traces;
use rec_engine::Engine;
use rec_run::{Counts, Job, RunReport, end_run, engine_over, refuse};
use rec_sorts::Checked;
use rec_trace::rule_spots;
use rx_run::{Reading, RunFault};
use rx_term::{Term, TermBank};
use rx_text::Output;
use std::alloc::AllocError;
use std::io::Write;

/// The result of traces over a store, with the store.
#[derive(Drop)]
pub(crate) struct Left<T, B> {
    /// The result, or the error that stopped them.
    pub(crate) end: Result<T, RunFault>,
    /// The store.
    pub(crate) bank: B,
}

impl<T, B: Drop> Left<T, B> {
    /// Returns the result of the traces, and drops the store.
    pub(crate) fn into_end(self) -> Result<T, RunFault>
        ensures { result ≡ self.end }
    {
        let Left { end, bank } = self;
        drop(bank);
        end
    }
}

/// Writes the specified output for the texts that were read, flushes, and returns the report of the
/// run.
pub(crate) fn answer<B: TermBank + Drop, W: Write>(
    setup: Setup<'_>,
    bank: B,
    reading: Reading<Job>,
    out: &mut Output<'_, W>,
) -> Left<RunReport, B>
    requires unrooted { (t : ℕ) → (B.store bank).roots t ≡ 0 }
    requires ready { IsReady (B.store bank) reading }
    ensures ends { IfOk result.end (λ report. report.ending ≡ ending_of reading) }
    ensures counts { IfOk result.end (λ report. counts_in report ≡ job_counts (B.store bank)
        setup.entry.options.terms Plain setup.entry.options.run.steps reading) }
    ensures ok { OnOk result.end (Writes W.contents out.old out.new
        (trace_due (B.store bank) (shown_by setup.entry.options) setup.entry.options.run.steps
        reading).text) }
    ensures err { IfErr result.end (λ fault. Stops fault
        (trace_due (B.store bank) (shown_by setup.entry.options) setup.entry.options.run.steps
        reading).text
        (contents_of W.contents out.old) (contents_of W.contents out.new)) }
    ensures room { IfErr result.end (FullIfRoom (B.store result.bank)) }
    ensures cells { IsRefused reading → IfErr result.end HasRoom }
    ensures reports { ReportsOutput out.old out.new result.end }
{
    let ending = reading.ending();
    let Left { end: written, bank } = write_due(setup, bank, reading, out);
    Left {
        end: end_run(written, ending, out),
        bank,
    }
}

/// Writes the specified output, and returns the numbers of lines of evaluation.
fn write_due<B: TermBank + Drop, W: Write>(
    setup: Setup<'_>,
    bank: B,
    reading: Reading<Job>,
    out: &mut Output<'_, W>,
) -> Left<Counts, B>
    requires unrooted { (t : ℕ) → (B.store bank).roots t ≡ 0 }
    requires ready { IsReady (B.store bank) reading }
    ensures counts { IfOk result.end (λ counts. counts ≡ job_counts (B.store bank)
        setup.entry.options.terms Plain setup.entry.options.run.steps reading) }
    ensures ok { OnOk result.end (Writes W.contents out.old out.new
        (trace_due (B.store bank) (shown_by setup.entry.options) setup.entry.options.run.steps
        reading).text) }
    ensures err { IfErr result.end (λ fault. Stops fault
        (trace_due (B.store bank) (shown_by setup.entry.options) setup.entry.options.run.steps
        reading).text
        (contents_of W.contents out.old) (contents_of W.contents out.new)) }
    ensures room { IfErr result.end (FullIfRoom (B.store result.bank)) }
    ensures cells { IsRefused reading → IfErr result.end HasRoom }
    ensures reports { ReportsOutput out.old out.new result.end }
{
    match reading {
        Reading::Refused(refusal) => Left {
            end: refuse(refusal, out),
            bank,
        },
        Reading::Good(job) => write_job(setup, job, bank, out),
    }
}

/// Writes the traces of accepted texts over the store that holds their input terms.
fn write_job<B: TermBank + Drop, W: Write>(
    setup: Setup<'_>,
    job: Job,
    bank: B,
    out: &mut Output<'_, W>,
) -> Left<Counts, B>
    requires unrooted { (t : ℕ) → (B.store bank).roots t ≡ 0 }
    requires given { ForSome job.list (HoldsTerms job.checked.spec (B.store bank)) }
    ensures counts { IfOk result.end (λ counts. counts ≡ counts_of setup.entry.options.terms
        job.checked.spec (given_by (B.store bank) job.list) Plain
        setup.entry.options.run.steps) }
    ensures ok { OnOk result.end (Writes W.contents out.old out.new
        (job_traces (B.store bank) (shown_by setup.entry.options) setup.entry.options.run.steps
        job)) }
    ensures err { IfErr result.end (λ fault. Stops fault
        (job_traces (B.store bank) (shown_by setup.entry.options) setup.entry.options.run.steps job)
        (contents_of W.contents out.old) (contents_of W.contents out.new)) }
    ensures room { IfErr result.end (FullIfRoom (B.store result.bank)) }
    ensures reports { ReportsOutput out.old out.new result.end }
{
    let Job { checked, list } = job;
    match prepare(setup, &checked, &bank, list) {
        Ok(prepared) => write_prepared(checked, bank, &prepared, out),
        Err(AllocError) => Left {
            end: Err(RunFault::Memory { lines: 0 }),
            bank,
        },
    }
}

/// The data from which traces are made, without the engine.
#[derive(Drop)]
struct Prepared<'a> {
    telling: Telling<'a>,
    terms: GivenTerms,
}

/// Finds the locations of the rules, and takes the input terms out of their store.
fn prepare<'a, B: TermBank>(
    setup: Setup<'a>,
    checked: &Checked,
    bank: &B,
    list: Option<Term>,
) -> Result<Prepared<'a>, AllocError>
    requires { ForSome list (HoldsTerms checked.now.spec (B.store bank.now)) }
    ensures telling { IfOk result
        (λ p. IsTelling checked.now.source checked.now.spec p.telling) }
    ensures options { IfOk result (λ p. p.telling.options ≡ setup.entry.options) }
    ensures given { IfOk result (λ p. AreGivenTerms checked.now.spec
        (given_by (B.store bank.now) list) p.terms) }
{
    let spots = rule_spots(setup.alloc, checked.syntax())?;
    let terms = given_terms(setup.alloc, checked, bank, list)?;
    let telling = Telling {
        alloc: setup.alloc,
        spots,
        options: setup.options,
    };
    Ok(Prepared { telling, terms })
}

/// Writes the traces over a store whose terms are no longer needed.
fn write_prepared<B: TermBank + Drop, W: Write>(
    checked: Checked,
    bank: B,
    prepared: &Prepared<'_>,
    out: &mut Output<'_, W>,
) -> Left<Counts, B>
    requires unrooted { (t : ℕ) → (B.store bank).roots t ≡ 0 }
    requires telling { IsTelling checked.source checked.spec prepared.now.telling }
    requires given { (us : List Tree) × AreGivenTerms checked.spec us prepared.now.terms }
    ensures counts { IfOk result.end (λ counts. (us : List Tree)
        → AreGivenTerms checked.spec us prepared.now.terms
        → counts ≡ counts_of prepared.now.telling.options.terms checked.spec us Plain
        prepared.now.telling.options.run.steps) }
    ensures ok { OnOk result.end ((us : List Tree)
        → AreGivenTerms checked.spec us prepared.now.terms
        → Writes W.contents out.old out.new
        (traces checked.source checked.spec us (shown_by prepared.now.telling.options)
        prepared.now.telling.options.run.steps)) }
    ensures err { IfErr result.end (λ fault. (us : List Tree)
        → AreGivenTerms checked.spec us prepared.now.terms
        → Stops fault
        (traces checked.source checked.spec us (shown_by prepared.now.telling.options)
        prepared.now.telling.options.run.steps)
        (contents_of W.contents out.old) (contents_of W.contents out.new)) }
    ensures room { IfErr result.end (FullIfRoom (B.store result.bank)) }
    ensures reports { ReportsOutput out.old out.new result.end }
{
    let telling = &prepared.telling;
    match engine_over(telling.alloc, checked, bank, None, telling.options.run) {
        Ok(engine) => write_over(engine, prepared, out),
        Err(bank) => {
            let end = Err(RunFault::Memory { lines: 0 });
            Left { end, bank }
        }
    }
}

/// Writes the traces over an engine with the options of the run, and returns its store.
fn write_over<B: TermBank + Drop, W: Write>(
    mut engine: Engine<B>,
    prepared: &Prepared<'_>,
    out: &mut Output<'_, W>,
) -> Left<Counts, B>
    requires telling { (source : List ℕ) × IsTelling source engine.spec prepared.now.telling }
    requires given { (us : List Tree) × AreGivenTerms engine.spec us prepared.now.terms }
    requires options { engine.options ≡ engine_options prepared.now.telling.options.run }
    requires memo { RemembersNothing prepared.now.telling.options.run.memo engine.memo }
    ensures counts { IfOk result.end (λ counts. (us : List Tree)
        → AreGivenTerms engine.spec us prepared.now.terms
        → counts ≡ counts_of prepared.now.telling.options.terms engine.spec us Plain
        prepared.now.telling.options.run.steps) }
    ensures ok { OnOk result.end ((source : List ℕ) (us : List Tree)
        → IsTelling source engine.spec prepared.now.telling
        → AreGivenTerms engine.spec us prepared.now.terms
        → Writes W.contents out.old out.new
        (traces source engine.spec us (shown_by prepared.now.telling.options)
        prepared.now.telling.options.run.steps)) }
    ensures err { IfErr result.end (λ fault. (source : List ℕ) (us : List Tree)
        → IsTelling source engine.spec prepared.now.telling
        → AreGivenTerms engine.spec us prepared.now.terms
        → Stops fault (traces source engine.spec us (shown_by prepared.now.telling.options)
        prepared.now.telling.options.run.steps)
        (contents_of W.contents out.old) (contents_of W.contents out.new)) }
    ensures room { IfErr result.end (FullIfRoom (B.store result.bank)) }
    ensures reports { ReportsOutput out.old out.new result.end }
{
    let mut page = Page { out, lines: 0 };
    let end = write_traces(&mut engine, &prepared.terms, &prepared.telling, &mut page);
    let (bank, _needed) = engine.into_parts();
    Left { end, bank }
}
