//! Writes the specified output for the texts that were read.

ghost use Rattle.std.specs.Prelude.{◌≡◌, ◌++◌, ℕ, IfErr, IfOk, OnOk};
ghost use Rattle.rx_text.specs.Output.{Writes, contents_of};
ghost use Rattle.rx_run.specs.Refusals.{ending_of, refusal_due};
ghost use Rattle.rx_run.specs.Run.{Stops};
ghost use Rattle.rx_run.specs.Streams.{ReportsWrite};
ghost use Rattle.rec_run.specs.EvaluatedLines.{ReportsOutput};
ghost use Rattle.rec_run.specs.Depth.{EndsBehind, IsBounded, counts_in};
ghost use Rattle.rec_run.specs.GivenTerms.{IsReady, IsRefused, run_due};
ghost use Rattle.rec_run.specs.Output.{shown_of};
ghost use Rattle.rec_run.specs.Reports.{job_counts, job_report, no_lines};
ghost use Rattle.rec_run.specs.Run.{HasRoom, RoomExhausts};

use crate::observer::{Observer, Profiler};
use crate::options::Run;
use crate::reporter::Reporter;
use crate::spec::counts::Counts;
use crate::spec::evaluated::{Left, write_evaluated};
use crate::spec::reading::Job;
use rec_engine::Watch;
use rx_run::{Ending, Reading, Refusal, RunFault, write_refusal_to};
use rx_term::{Term, TermBank};
use rx_text::{Output, RefusedWrite};
use std::io::Write;

/// The result of a completed run.
#[derive(Clone, Copy)]
pub struct RunReport {
    /// Whether the run is done or rejected an input, and with which error.
    pub ending: Ending,
    /// The number of lines of terms that the run wrote.
    pub lines: u64,
    /// The number of limit lines that the run wrote.
    pub limit_lines: u64,
}

/// The result of a run over a store of the caller.
#[derive(Drop)]
pub struct EndedWithin<B> {
    /// The report, or the error that ended the run.
    pub end: Result<RunReport, RunFault>,
    /// The store.
    pub bank: B,
    /// The terms that the last evaluation needed in the store, in addition to the protected ones.
    /// Empty if no evaluation began.
    pub needed: Vec<Term>,
}

impl<B: Drop> EndedWithin<B> {
    /// Returns the end of the run, and drops the rest.
    pub fn into_end(self) -> Result<RunReport, RunFault>
        ensures { result ≡ self.end }
    {
        let EndedWithin { end, bank, needed } = self;
        drop(bank);
        drop(needed);
        end
    }
}

/// Writes the specified output for the texts that were read, and flushes.
pub(crate) fn answer<B: TermBank, W: Write, V: Watch, P: Profiler, S: Reporter>(
    run: Run,
    bank: B,
    reading: Reading<Job>,
    out: &mut Output<'_, W>,
    observer: &mut Observer<V, P, S>,
) -> EndedWithin<B>
    requires unrooted { (t : ℕ) → (B.store bank).roots t ≡ 0 }
    requires ready { IsReady (B.store bank) reading }
    ensures ends { IfOk result.end (λ report. report.ending ≡ ending_of reading) }
    ensures counts { IfOk result.end (λ report. counts_in report ≡ job_counts (B.store bank)
        run.settings.terms run.settings.form run.settings.options.steps reading) }
    ensures ok { OnOk result.end (Writes W.contents out.old out.new
        (run_due (B.store bank) (shown_of run.settings) run.settings.options.steps reading).text) }
    ensures err { IfErr result.end
        (λ fault. Stops fault (run_due (B.store bank)
        (shown_of run.settings) run.settings.options.steps reading).text
        (contents_of W.contents out.old) (contents_of W.contents out.new)) }
    ensures room { IfErr result.end
        (RoomExhausts (B.store result.bank) result.needed.items) }
    ensures cap { (B.store result.bank).cap ≡ (B.store bank).cap }
    ensures unused { IsRefused reading → result.bank ≡ bank }
    ensures cells { IsRefused reading → IfErr result.end HasRoom }
    ensures bounded { IfErr result.end (IsBounded run.settings.depth) }
    ensures reports { ReportsOutput out.old out.new result.end }
    ensures told { OnOk result.end (S.told observer.new.reporter ≡ S.told observer.old.reporter
        ++ job_report run.settings.terms S.says (B.store bank) run.settings.options.steps
        reading) }
{
    let ending = reading.ending();
    let Left {
        written,
        bank,
        needed,
    } = write_due(run, bank, reading, out, observer);
    EndedWithin {
        end: end_run(written, ending, out),
        bank,
        needed,
    }
}

/// Flushes if everything was written, and returns the end of the run. `written` has the numbers of
/// lines. If the flush fails, the error is `Write`.
pub fn end_run<W: Write>(
    written: Result<Counts, RunFault>,
    ending: Ending,
    out: &mut Output<'_, W>,
) -> Result<RunReport, RunFault>
    requires told { ReportsWrite out.old out.old written }
    ensures ends { EndsBehind written ending (contents_of W.contents out.old)
        (contents_of W.contents out.new) result }
    ensures reports { ReportsWrite out.old out.new result }
{
    match written {
        Err(fault) => Err(fault),
        Ok(counts) => match out.flush() {
            Err(_) => Err(RunFault::Write),
            Ok(()) => Ok(RunReport {
                ending,
                lines: counts.lines,
                limit_lines: counts.limit_lines,
            }),
        },
    }
}

/// Writes the specified output for the texts that were read, without a flush.
fn write_due<B: TermBank, W: Write, V: Watch, P: Profiler, S: Reporter>(
    run: Run,
    bank: B,
    reading: Reading<Job>,
    out: &mut Output<'_, W>,
    observer: &mut Observer<V, P, S>,
) -> Left<B>
    requires unrooted { (t : ℕ) → (B.store bank).roots t ≡ 0 }
    requires ready { IsReady (B.store bank) reading }
    ensures counts { IfOk result.written (λ counts. counts ≡ job_counts (B.store bank)
        run.settings.terms run.settings.form run.settings.options.steps reading) }
    ensures ok { OnOk result.written (Writes W.contents out.old out.new
        (run_due (B.store bank) (shown_of run.settings) run.settings.options.steps reading).text) }
    ensures err { IfErr result.written
        (λ fault. Stops fault (run_due (B.store bank)
        (shown_of run.settings) run.settings.options.steps reading).text
        (contents_of W.contents out.old) (contents_of W.contents out.new)) }
    ensures room { IfErr result.written
        (RoomExhausts (B.store result.bank) result.needed.items) }
    ensures cap { (B.store result.bank).cap ≡ (B.store bank).cap }
    ensures unused { IsRefused reading → result.bank ≡ bank }
    ensures cells { IsRefused reading → IfErr result.written HasRoom }
    ensures bounded { IfErr result.written (IsBounded run.settings.depth) }
    ensures reports { ReportsOutput out.old out.new result.written }
    ensures told { OnOk result.written (S.told observer.new.reporter ≡ S.told observer.old.reporter
        ++ job_report run.settings.terms S.says (B.store bank) run.settings.options.steps
        reading) }
{
    match reading {
        Reading::Refused(refusal) => Left {
            written: refuse(refusal, out),
            bank,
            needed: Vec::new(run.alloc),
        },
        Reading::Good(job) => write_evaluated(run, job, bank, out, observer),
    }
}

/// Writes the error line of a rejected text. Returns the numbers of lines of terms, which are 0.
pub fn refuse<W: Write>(refusal: Refusal, out: &mut Output<'_, W>) -> Result<Counts, RunFault>
    ensures counts { IfOk result (λ counts. counts ≡ no_lines) }
    ensures ok { OnOk result
        (Writes W.contents out.old out.new (refusal_due refusal).text) }
    ensures err { IfErr result (λ fault. Stops fault (refusal_due refusal).text
        (contents_of W.contents out.old) (contents_of W.contents out.new)) }
    ensures write { IfErr result (λ fault. fault ≡ RunFault.Write) }
    ensures reports { ReportsOutput out.old out.new result }
{
    match write_refusal_to(refusal, out) {
        Ok(()) => Ok(Counts {
            lines: 0,
            limit_lines: 0,
        }),
        Err(RefusedWrite) => Err(RunFault::Write),
    }
}
