//! Whole runs of traces.

ghost use Rattle.std.specs.Prelude.{◌≡◌, ℕ, IfErr, IfOk, OnOk};
ghost use Rattle.rx_text.specs.Input.{IsSameInput, remaining_in};
ghost use Rattle.rx_text.specs.Output.{contents_of};
ghost use Rattle.rx_run.specs.Run.{BreaksFor, ConcludesFor, IsReadOut};
ghost use Rattle.rx_run.specs.Streams.{ReportsWrite};
ghost use Rattle.rec_run.specs.GivenTerms.{OnGoodSpec, OnRefusedSpec};
ghost use Rattle.rec_run.specs.Reports.{HasLimitLines, HasLines};
ghost use Rattle.rec_run.specs.Run.{HasRoom, ReportsReadsOf, both_texts};
ghost use Rattle.rec_trace_run.specs.Inner.Pages.{FullIfRoom};
ghost use Rattle.rec_trace_run.specs.Traces.{IsTraceDueFor, lines_shown, shown_by};

use crate::due::{Left, answer};
use crate::options::{Setup, TraceOptions};
use rec_run::{InputTerms, RunReport, read_given_from};
use rx_run::{InputForm, RunFault, empty_bank};
use rx_term::TermBank;
use rx_text::{Input, Output};
use std::alloc::Global;
use std::io::{Read, Write};

/// Reads a specification and, if it is accepted and there are input terms, their text. Writes the
/// trace of each term of both that `options.terms` selects, or the line of an error, and flushes.
/// Each rewrite that is shown at the beginning is written as soon as its rule is applied. The last
/// line of a term is the one that evaluation writes.
///
/// The report has the ending of the run and the numbers of lines of evaluation and of limit lines. After an error while a
/// text is read, nothing has been written. The state of the readers after an error is not
/// specified. A rejected specification needs no cells.
pub fn run_trace<R: Read, G: InputTerms, W: Write>(
    alloc: Global,
    spec: &mut R,
    terms: &mut G,
    out: &mut W,
    options: TraceOptions<'_>,
) -> Result<RunReport, RunFault>
    ensures ends { IfOk result (λ report. ConcludesFor
        (IsTraceDueFor (shown_by options.entry) options.entry.run.steps)
        (both_texts (R.remaining spec.old) (G.text terms.old))
        report.ending (W.contents out.old) (W.contents out.new)) }
    ensures lines { IfOk result (λ report. HasLines (lines_shown (shown_by options.entry))
        (both_texts (R.remaining spec.old) (G.text terms.old)) report.lines) }
    ensures limits { IfOk result (λ report. HasLimitLines
        (lines_shown (shown_by options.entry)) options.entry.run.steps
        (both_texts (R.remaining spec.old) (G.text terms.old))
        report.limit_lines) }
    ensures fault { IfErr result (λ fault. BreaksFor
        (IsTraceDueFor (shown_by options.entry) options.entry.run.steps)
        (both_texts (R.remaining spec.old) (G.text terms.old))
        fault (W.contents out.old) (W.contents out.new)) }
    ensures room { OnRefusedSpec (R.remaining spec.old) (IfErr result HasRoom) }
    ensures spec_read { OnOk result (IsReadOut (R.remaining spec.old) (R.remaining spec.new)) }
    ensures terms_read { OnOk result (OnGoodSpec (R.remaining spec.old)
        (G.is_read_out terms.old terms.new)) }
    ensures unread { OnRefusedSpec (R.remaining spec.old) (terms.new ≡ terms.old) }
    ensures same_terms { G.is_same terms.old terms.new }
{
    match empty_bank(alloc, options.run.cells) {
        Ok(bank) => {
            let setup = Setup { alloc, options };
            trace_over(setup, bank, spec, terms, out).into_end()
        }
        Err(fault) => Err(fault),
    }
}

/// Traces a specification over a store, as `run_trace` does, and returns the store.
fn trace_over<B: TermBank + Drop, R: Read, G: InputTerms, W: Write>(
    setup: Setup<'_>,
    bank: B,
    spec: &mut R,
    terms: &mut G,
    out: &mut W,
) -> Left<RunReport, B>
    requires unrooted { (t : ℕ) → (B.store bank).roots t ≡ 0 }
    requires limit { (B.store bank).cap ≡ setup.options.run.cells }
    ensures ends { IfOk result.end (λ report. ConcludesFor
        (IsTraceDueFor (shown_by setup.entry.options) setup.entry.options.run.steps)
        (both_texts (R.remaining spec.old) (G.text terms.old))
        report.ending (W.contents out.old) (W.contents out.new)) }
    ensures lines { IfOk result.end (λ report. HasLines (lines_shown (shown_by setup.entry.options))
        (both_texts (R.remaining spec.old) (G.text terms.old)) report.lines) }
    ensures limits { IfOk result.end (λ report. HasLimitLines
        (lines_shown (shown_by setup.entry.options)) setup.entry.options.run.steps
        (both_texts (R.remaining spec.old) (G.text terms.old))
        report.limit_lines) }
    ensures fault { IfErr result.end (λ fault. BreaksFor
        (IsTraceDueFor (shown_by setup.entry.options) setup.entry.options.run.steps)
        (both_texts (R.remaining spec.old) (G.text terms.old))
        fault (W.contents out.old) (W.contents out.new)) }
    ensures room { IfErr result.end (FullIfRoom (B.store result.bank)) }
    ensures cells { OnRefusedSpec (R.remaining spec.old) (IfErr result.end HasRoom) }
    ensures spec_read { OnOk result.end
        (IsReadOut (R.remaining spec.old) (R.remaining spec.new)) }
    ensures terms_read { OnOk result.end (OnGoodSpec (R.remaining spec.old)
        (G.is_read_out terms.old terms.new)) }
    ensures unread { OnRefusedSpec (R.remaining spec.old) (terms.new ≡ terms.old) }
    ensures same_terms { G.is_same terms.old terms.new }
{
    let mut spec = Input::new(spec);
    let mut output = Output::new(out);
    given_over(setup, bank, &mut spec, terms, &mut output)
}

/// Traces a specification over a store, from an input and to an output, and returns the store. A
/// stream that has failed is not used again.
fn given_over<B: TermBank + Drop, R: Read, G: InputTerms, W: Write>(
    setup: Setup<'_>,
    mut bank: B,
    spec: &mut Input<'_, R>,
    terms: &mut G,
    out: &mut Output<'_, W>,
) -> Left<RunReport, B>
    requires unrooted { (t : ℕ) → (B.store bank).roots t ≡ 0 }
    requires limit { (B.store bank).cap ≡ setup.options.run.cells }
    ensures ends { IfOk result.end (λ report. ConcludesFor
        (IsTraceDueFor (shown_by setup.entry.options) setup.entry.options.run.steps)
        (both_texts (remaining_in R.remaining spec.old) (G.text terms.old))
        report.ending (contents_of W.contents out.old) (contents_of W.contents out.new)) }
    ensures lines { IfOk result.end (λ report. HasLines (lines_shown (shown_by setup.entry.options))
        (both_texts (remaining_in R.remaining spec.old) (G.text terms.old)) report.lines) }
    ensures limits { IfOk result.end (λ report. HasLimitLines
        (lines_shown (shown_by setup.entry.options)) setup.entry.options.run.steps
        (both_texts (remaining_in R.remaining spec.old) (G.text terms.old))
        report.limit_lines) }
    ensures fault { IfErr result.end (λ fault. BreaksFor
        (IsTraceDueFor (shown_by setup.entry.options) setup.entry.options.run.steps)
        (both_texts (remaining_in R.remaining spec.old) (G.text terms.old))
        fault (contents_of W.contents out.old) (contents_of W.contents out.new)) }
    ensures room { IfErr result.end (FullIfRoom (B.store result.bank)) }
    ensures cells { OnRefusedSpec (remaining_in R.remaining spec.old) (IfErr result.end HasRoom) }
    ensures spec_read { OnOk result.end
        (IsReadOut (remaining_in R.remaining spec.old) (remaining_in R.remaining spec.new)) }
    ensures terms_read { OnOk result.end (OnGoodSpec (remaining_in R.remaining spec.old)
        (G.is_read_out terms.old terms.new)) }
    ensures unread { OnRefusedSpec (remaining_in R.remaining spec.old) (terms.new ≡ terms.old) }
    ensures same { IsSameInput spec.old spec.new }
    ensures same_terms { G.is_same terms.old terms.new }
    ensures reads { ReportsReadsOf spec.old spec.new
        (G.refused terms.old) (G.refused terms.new) result.end }
    ensures reports { ReportsWrite out.old out.new result.end }
{
    match read_given_from(setup.alloc, InputForm::Term, spec, terms, &mut bank) {
        Ok(reading) => answer(setup, bank, reading, out),
        Err(fault) => Left {
            end: Err(fault),
            bank,
        },
    }
}
