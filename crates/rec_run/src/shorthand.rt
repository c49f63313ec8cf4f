//! Short forms of `run_given` without settings and observer: limit lines have no annotations, values
//! have any length and no sizes, there is no call-depth limit, and all terms are evaluated.
#![tactic(auto, using(crate::proofs::PlacedLemmas::told_steps))]

ghost use Rattle.std.specs.Prelude.{◌≡◌, None, IfErr, IfOk, OnErr, OnOk, Some, option_map};
ghost use Rattle.std.specs.Option.{option_copied_mut};
ghost use Rattle.rx_run.specs.Run.{BreaksFor, ConcludesFor, EndsFor, IsNotDeep, IsPlacedFor, IsReadOut};
ghost use Rattle.rec_run.specs.Depth.{IsBounded, finish_told, place_told};
ghost use Rattle.rec_run.specs.GivenTerms.{OnGoodSpec, OnRefusedSpec};
ghost use Rattle.rec_run.specs.Output.{bare, shown_of};
ghost use Rattle.rec_run.specs.Run.{HasRoom, IsDueFor, Leads, Stays, both_texts, terms_text};

use crate::observer::unobserved;
use crate::options::{LimitLines, RunOptions, RunSettings, TermChoice, ValueForm};
use crate::spec::due::RunReport;
use crate::spec::given::run_given;
use crate::spec::input_terms::NoTerms;
use rx_run::{Finish, InputForm, Place, RunFault};
use rx_text::Input;
use std::alloc::Global;
use std::io::{Read, Write};

/// Evaluates a specification and writes one line for each term.
///
/// Reads `spec` to its end. If it is accepted, reads `terms`, if given, and evaluates the terms of
/// its `EVAL` section and then the input terms, in order. If it is rejected, `terms` is not read. A
/// text is read to one byte after the largest length at most.
///
/// Returns [`Finish::Done`] after the last line, or [`Finish::Refused`] after an error line such as
/// `!spec G`. To learn the offset of the error, use [`run_at`].
///
/// # Errors
///
/// `Memory` if an allocation failed, `Room` if the store is full of live terms ([`run_over`] states
/// this exactly), `Read` or `Write` if a stream failed; never `Deep`. The output is then a prefix
/// of the specified output. If a text could not be read, nothing has been written. A rejected
/// specification never causes `Room`. After an error the position of the readers is unspecified.
pub fn run<R: Read, T: Read, W: Write>(
    alloc: Global,
    spec: &mut R,
    terms: Option<&mut T>,
    out: &mut W,
    options: RunOptions,
) -> Result<Finish, RunFault>
    ensures output { IfOk result (λ finish. EndsFor (IsDueFor (bare options.count) options.steps)
        (both_texts (R.remaining spec.old) (terms_text T.remaining terms.entry))
        finish (W.contents out.old) (W.contents out.new)) }
    ensures fault { IfErr result (λ fault. BreaksFor (IsDueFor (bare options.count) options.steps)
        (both_texts (R.remaining spec.old) (terms_text T.remaining terms.entry))
        fault (W.contents out.old) (W.contents out.new)) }
    ensures room { OnRefusedSpec (R.remaining spec.old) (IfErr result HasRoom) }
    ensures no_depth { IfErr result IsNotDeep }
    ensures spec_read { OnOk result (IsReadOut (R.remaining spec.old) (R.remaining spec.new)) }
    ensures terms_read { OnOk result (OnGoodSpec (R.remaining spec.old)
        (Leads (λ old new. IsReadOut (T.remaining old) (T.remaining new))
        (λ f. f.0.now) terms.exit (option_copied_mut terms.entry))) }
    ensures unread { OnRefusedSpec (R.remaining spec.old)
        (Stays (λ f. f.0.now) terms.exit (option_copied_mut terms.entry)) }
{
    match terms {
        None => run_at(alloc, spec, terms, out, options, &mut None),
        Some(reader) => run_at(alloc, spec, Some(reader), out, options, &mut None),
    }
}

/// Evaluates a specification like [`run`], and stores the offset of an error in `place`.
///
/// `place` is set to `None` if no input was rejected, if the error has no offset (`L1`, `T1` to
/// `T6`), or if the run failed.
pub fn run_at<R: Read, T: Read, W: Write>(
    alloc: Global,
    spec: &mut R,
    terms: Option<&mut T>,
    out: &mut W,
    options: RunOptions,
    place: &mut Option<Place>,
) -> Result<Finish, RunFault>
    ensures output { IfOk result (λ finish. EndsFor (IsDueFor (bare options.count) options.steps)
        (both_texts (R.remaining spec.old) (terms_text T.remaining terms.entry))
        finish (W.contents out.old) (W.contents out.new)) }
    ensures place { OnOk result (IsPlacedFor (IsDueFor (bare options.count) options.steps)
        (both_texts (R.remaining spec.old) (terms_text T.remaining terms.entry)) place.new) }
    ensures fault { IfErr result (λ fault. BreaksFor (IsDueFor (bare options.count) options.steps)
        (both_texts (R.remaining spec.old) (terms_text T.remaining terms.entry))
        fault (W.contents out.old) (W.contents out.new)) }
    ensures room { OnRefusedSpec (R.remaining spec.old) (IfErr result HasRoom) }
    ensures no_depth { IfErr result IsNotDeep }
    ensures no_place { OnErr result (place.new ≡ None) }
    ensures spec_read { OnOk result (IsReadOut (R.remaining spec.old) (R.remaining spec.new)) }
    ensures terms_read { OnOk result (OnGoodSpec (R.remaining spec.old)
        (Leads (λ old new. IsReadOut (T.remaining old) (T.remaining new))
        (λ f. f.0.now) terms.exit (option_copied_mut terms.entry))) }
    ensures unread { OnRefusedSpec (R.remaining spec.old)
        (Stays (λ f. f.0.now) terms.exit (option_copied_mut terms.entry)) }
{
    let settings = RunSettings {
        options,
        limits: LimitLines::Bare,
        form: ValueForm::Plain,
        sizes: false,
        depth: None,
        terms: TermChoice::All,
        input: InputForm::Term,
    };
    let mut observer = unobserved();
    match terms {
        None => finish_at(
            run_given(alloc, spec, &mut NoTerms, out, settings, &mut observer),
            place,
        ),
        Some(terms) => {
            let end = run_beside(alloc, spec, terms, out, settings);
            finish_at(end, place)
        }
    }
}

/// Runs a specification with input terms, without an observer.
fn run_beside<R: Read, T: Read, W: Write>(
    alloc: Global,
    spec: &mut R,
    terms: &mut T,
    out: &mut W,
    settings: RunSettings,
) -> Result<RunReport, RunFault>
    ensures ends { IfOk result (λ report. ConcludesFor (IsDueFor
        (shown_of settings) settings.options.steps)
        (both_texts (R.remaining spec.old) (option_map (λ b. Some b) (T.remaining terms.old)))
        report.ending (W.contents out.old) (W.contents out.new)) }
    ensures fault { IfErr result (λ fault. BreaksFor (IsDueFor
        (shown_of settings) settings.options.steps)
        (both_texts (R.remaining spec.old) (option_map (λ b. Some b) (T.remaining terms.old)))
        fault (W.contents out.old) (W.contents out.new)) }
    ensures cells { OnRefusedSpec (R.remaining spec.old) (IfErr result HasRoom) }
    ensures bounded { IfErr result (IsBounded settings.depth) }
    ensures spec_read { OnOk result (IsReadOut (R.remaining spec.old) (R.remaining spec.new)) }
    ensures terms_read { OnOk result (OnGoodSpec (R.remaining spec.old)
        (IsReadOut (T.remaining terms.old) (T.remaining terms.new))) }
    ensures unread { OnRefusedSpec (R.remaining spec.old) (terms.new ≡ terms.old) }
{
    let mut terms = Input::new(terms);
    let mut observer = unobserved();
    run_given(alloc, spec, &mut terms, out, settings, &mut observer)
}

/// Returns the end of a run, and stores the offset of the error of a rejected input in `place`.
fn finish_at(
    end: Result<RunReport, RunFault>,
    place: &mut Option<Place>,
) -> Result<Finish, RunFault>
    ensures ends { result ≡ finish_told end }
    ensures place { place.new ≡ place_told end }
{
    match end {
        Ok(RunReport { ending, .. }) => {
            *place = ending.place();
            Ok(ending.finish())
        }
        Err(fault) => {
            *place = None;
            Err(fault)
        }
    }
}
