//! Runs of a specification: over a store of their own, or over a store of the caller.

ghost use Rattle.std.specs.Prelude.{◌≡◌, ℕ, IfErr, IfOk, OnOk};
ghost use Rattle.rx_text.specs.Input.{IsSameInput, remaining_in};
ghost use Rattle.rx_text.specs.Output.{contents_of};
ghost use Rattle.rx_run.specs.Run.{BreaksFor, ConcludesFor, IsReadOut};
ghost use Rattle.rx_run.specs.Streams.{ReportsWrite};
ghost use Rattle.rec_run.specs.Depth.{IsBounded};
ghost use Rattle.rec_run.specs.GivenTerms.{OnGoodSpec, OnRefusedSpec};
ghost use Rattle.rec_run.specs.Output.{shown_of};
ghost use Rattle.rec_run.specs.Reports.{HasLimitLines, HasLines, Tells};
ghost use Rattle.rec_run.specs.Run.{HasRoom, IsDueFor, ReportsReadsOf, RoomIn, both_texts};

use crate::observer::{Observer, Profiler};
use crate::options::{Run, RunSettings};
use crate::reporter::Reporter;
use crate::spec::due::{EndedWithin, RunReport, answer};
use crate::spec::input_terms::InputTerms;
use crate::spec::reading::read_given_from;
use rec_engine::Watch;
use rx_run::{RunFault, empty_bank};
use rx_term::TermBank;
use rx_text::{Input, Output};
use std::alloc::Global;
use std::io::{Read, Write};

/// Evaluates a specification with all settings, and notifies an observer.
///
/// Reads `spec` and, if it is accepted and input terms are given, their text. Writes one line for
/// each term of both that `settings.terms` selects, or the error line of a rejected text, and
/// flushes. The store is made for the run, with the capacity `settings.options.cells`.
///
/// The report has the end of the run and the numbers of lines and of limit lines. The observer's
/// reporter is called with each value before its line is written. A run that fails may have reported
/// a value whose line was not written.
///
/// # Errors
///
/// `Memory` if an allocation failed, `Room` if the store is full of live terms, `Deep` if the
/// call-depth limit is reached, `Read` or `Write` if a stream failed. The output is then a prefix
/// of the specified output. An error while a text is read means that nothing has been written. A
/// rejected specification causes neither `Room` nor `Deep`. After an error the position of the
/// readers is unspecified.
pub fn run_given<R: Read, G: InputTerms, W: Write, V: Watch, P: Profiler, S: Reporter>(
    alloc: Global,
    spec: &mut R,
    terms: &mut G,
    out: &mut W,
    settings: RunSettings,
    observer: &mut Observer<V, P, S>,
) -> Result<RunReport, RunFault>
    ensures ends { IfOk result (λ report. ConcludesFor (IsDueFor
        (shown_of settings) settings.options.steps)
        (both_texts (R.remaining spec.old) (G.text terms.old))
        report.ending (W.contents out.old) (W.contents out.new)) }
    ensures lines { IfOk result (λ report. HasLines (shown_of settings)
        (both_texts (R.remaining spec.old) (G.text terms.old)) report.lines) }
    ensures limits { IfOk result (λ report. HasLimitLines (shown_of settings)
        settings.options.steps (both_texts (R.remaining spec.old) (G.text terms.old))
        report.limit_lines) }
    ensures told { IfOk result (λ report. Tells (shown_of settings) S.says settings.options.steps
        (both_texts (R.remaining spec.old) (G.text terms.old))
        (S.told observer.old.reporter) (S.told observer.new.reporter)) }
    ensures fault { IfErr result (λ fault. BreaksFor (IsDueFor
        (shown_of settings) settings.options.steps)
        (both_texts (R.remaining spec.old) (G.text terms.old))
        fault (W.contents out.old) (W.contents out.new)) }
    ensures cells { OnRefusedSpec (R.remaining spec.old) (IfErr result HasRoom) }
    ensures bounded { IfErr result (IsBounded settings.depth) }
    ensures spec_read { OnOk result (IsReadOut (R.remaining spec.old) (R.remaining spec.new)) }
    ensures terms_read { OnOk result (OnGoodSpec (R.remaining spec.old)
        (G.is_read_out terms.old terms.new)) }
    ensures unread { OnRefusedSpec (R.remaining spec.old) (terms.new ≡ terms.old) }
    ensures same_terms { G.is_same terms.old terms.new }
{
    match empty_bank(alloc, settings.options.cells) {
        Ok(bank) => run_over(alloc, bank, spec, terms, out, settings, observer).into_end(),
        Err(fault) => Err(fault),
    }
}

/// Evaluates a specification like [`run_given`], over a store of the caller, and returns the store.
///
/// No term of the store is protected before, and its capacity is `settings.options.cells`. The list
/// of input terms stays protected in it. A rejected specification leaves the store unchanged.
///
/// `Room` is returned only if the store is full, and either the input terms filled it while they
/// were read, and nothing was freed, or each of its terms is a part of a protected term or of one
/// in `needed`.
pub fn run_over<B: TermBank, R: Read, G: InputTerms, W: Write, V: Watch, P: Profiler, S: Reporter>(
    alloc: Global,
    bank: B,
    spec: &mut R,
    terms: &mut G,
    out: &mut W,
    settings: RunSettings,
    observer: &mut Observer<V, P, S>,
) -> EndedWithin<B>
    requires unrooted { (t : ℕ) → (B.store bank).roots t ≡ 0 }
    requires limit { (B.store bank).cap ≡ settings.options.cells }
    ensures ends { IfOk result.end (λ report. ConcludesFor (IsDueFor
        (shown_of settings) settings.options.steps)
        (both_texts (R.remaining spec.old) (G.text terms.old))
        report.ending (W.contents out.old) (W.contents out.new)) }
    ensures lines { IfOk result.end (λ report. HasLines (shown_of settings)
        (both_texts (R.remaining spec.old) (G.text terms.old)) report.lines) }
    ensures limits { IfOk result.end (λ report. HasLimitLines (shown_of settings)
        settings.options.steps (both_texts (R.remaining spec.old) (G.text terms.old))
        report.limit_lines) }
    ensures told { IfOk result.end (λ report. Tells (shown_of settings) S.says settings.options.steps
        (both_texts (R.remaining spec.old) (G.text terms.old))
        (S.told observer.old.reporter) (S.told observer.new.reporter)) }
    ensures fault { IfErr result.end (λ fault. BreaksFor (IsDueFor
        (shown_of settings) settings.options.steps)
        (both_texts (R.remaining spec.old) (G.text terms.old))
        fault (W.contents out.old) (W.contents out.new)) }
    ensures room { IfErr result.end
        (RoomIn (B.store bank) (B.store result.bank) result.needed.items) }
    ensures cap { (B.store result.bank).cap ≡ (B.store bank).cap }
    ensures unused { OnRefusedSpec (R.remaining spec.old) (result.bank ≡ bank) }
    ensures cells { OnRefusedSpec (R.remaining spec.old)
        (IfErr result.end HasRoom) }
    ensures bounded { IfErr result.end (IsBounded settings.depth) }
    ensures spec_read { OnOk result.end
        (IsReadOut (R.remaining spec.old) (R.remaining spec.new)) }
    ensures terms_read { OnOk result.end (OnGoodSpec (R.remaining spec.old)
        (G.is_read_out terms.old terms.new)) }
    ensures unread { OnRefusedSpec (R.remaining spec.old) (terms.new ≡ terms.old) }
    ensures same_terms { G.is_same terms.old terms.new }
{
    let mut spec = Input::new(spec);
    let mut output = Output::new(out);
    given_over(
        alloc,
        bank,
        &mut spec,
        terms,
        &mut output,
        settings,
        observer,
    )
}

/// Runs a specification over a store, from an input and to an output. A stream that has failed is
/// not used again.
fn given_over<B: TermBank, R: Read, G: InputTerms, W: Write, V: Watch, P: Profiler, S: Reporter>(
    alloc: Global,
    mut bank: B,
    spec: &mut Input<'_, R>,
    terms: &mut G,
    out: &mut Output<'_, W>,
    settings: RunSettings,
    observer: &mut Observer<V, P, S>,
) -> EndedWithin<B>
    requires unrooted { (t : ℕ) → (B.store bank).roots t ≡ 0 }
    requires limit { (B.store bank).cap ≡ settings.options.cells }
    ensures ends { IfOk result.end (λ report. ConcludesFor (IsDueFor
        (shown_of settings) settings.options.steps)
        (both_texts (remaining_in R.remaining spec.old) (G.text terms.old))
        report.ending (contents_of W.contents out.old) (contents_of W.contents out.new)) }
    ensures lines { IfOk result.end (λ report. HasLines (shown_of settings)
        (both_texts (remaining_in R.remaining spec.old) (G.text terms.old)) report.lines) }
    ensures limits { IfOk result.end (λ report. HasLimitLines (shown_of settings)
        settings.options.steps (both_texts (remaining_in R.remaining spec.old) (G.text terms.old))
        report.limit_lines) }
    ensures told { IfOk result.end (λ report. Tells (shown_of settings) S.says settings.options.steps
        (both_texts (remaining_in R.remaining spec.old) (G.text terms.old))
        (S.told observer.old.reporter) (S.told observer.new.reporter)) }
    ensures fault { IfErr result.end (λ fault. BreaksFor (IsDueFor
        (shown_of settings) settings.options.steps)
        (both_texts (remaining_in R.remaining spec.old) (G.text terms.old))
        fault (contents_of W.contents out.old) (contents_of W.contents out.new)) }
    ensures room { IfErr result.end
        (RoomIn (B.store bank) (B.store result.bank) result.needed.items) }
    ensures cap { (B.store result.bank).cap ≡ (B.store bank).cap }
    ensures unused { OnRefusedSpec (remaining_in R.remaining spec.old) (result.bank ≡ bank) }
    ensures cells { OnRefusedSpec (remaining_in R.remaining spec.old)
        (IfErr result.end HasRoom) }
    ensures bounded { IfErr result.end (IsBounded settings.depth) }
    ensures spec_read { OnOk result.end
        (IsReadOut (remaining_in R.remaining spec.old) (remaining_in R.remaining spec.new)) }
    ensures terms_read { OnOk result.end (OnGoodSpec (remaining_in R.remaining spec.old)
        (G.is_read_out terms.old terms.new)) }
    ensures unread { OnRefusedSpec (remaining_in R.remaining spec.old) (terms.new ≡ terms.old) }
    ensures same { IsSameInput spec.old spec.new }
    ensures same_terms { G.is_same terms.old terms.new }
    ensures reads { ReportsReadsOf spec.old spec.new
        (G.refused terms.old) (G.refused terms.new) result.end }
    ensures reports { ReportsWrite out.old out.new result.end }
{
    match read_given_from(alloc, settings.input, spec, terms, &mut bank) {
        Ok(reading) => answer(Run { alloc, settings }, bank, reading, out, observer),
        Err(fault) => EndedWithin {
            end: Err(fault),
            bank,
            needed: Vec::new(alloc),
        },
    }
}
