//! Evaluations.

ghost use Rattle.std.specs.Prelude.{IfErr, IfOk, None, Some, option_map};
ghost use Rattle.rx_run.specs.Run.{BreaksFor, ConcludesFor};
ghost use Rattle.rec_run.specs.Run.{IsDueFor, both_texts};
ghost use Rattle.recw_wasm.specs.Answers.{Answers, IsEvalDue, page_lines};

use crate::handing::hand_ending;
use crate::options::Options;
use crate::told::Told;
use rec_run::{
    InputTerms, LimitLines, NoTerms, Observer, Profiler, RunOptions, RunSettings, TermChoice,
    Unwatched, ValueForm, run_given,
};
use rx_run::{Ending, InputForm, RunFault};
use rx_text::Input;
use std::alloc::Global;
use std::io::Read;

/// The maximum number of bytes of a result.
const MOST_BYTES: u64 = 1_000_000;

/// Evaluates the terms of a specification.
#[unsafe(no_mangle)]
pub extern "C" fn recw_eval(
    alloc: Global,
    spec: &[u8],
    options: &Options,
    out: &mut [u8],
    told: &mut Told,
) -> u32
    ensures { Answers (IsEvalDue options.now spec.now None) result told.new out.old out.new }
{
    let mut lines = Vec::new(alloc);
    let end = evaluate(spec, &mut NoTerms, options.within(), Unwatched, &mut lines);
    hand_ending(end, lines, out, told)
}

/// Evaluates the terms of a specification, and then input terms.
#[unsafe(no_mangle)]
pub extern "C" fn recw_eval_terms(
    alloc: Global,
    spec: &[u8],
    terms: &[u8],
    options: &Options,
    out: &mut [u8],
    told: &mut Told,
) -> u32
    ensures { Answers (IsEvalDue options.now spec.now (Some terms.now)) result told.new
        out.old out.new }
{
    let mut given = terms;
    let mut lines = Vec::new(alloc);
    let end = evaluate_given(spec, &mut given, options.within(), Unwatched, &mut lines);
    hand_ending(end, lines, out, told)
}

/// Evaluates the terms of a specification, and then input terms from a reader, with a profiler.
pub(crate) fn evaluate_given<T: Read, P: Profiler + Drop>(
    spec: &[u8],
    terms: &mut T,
    options: RunOptions,
    profiler: P,
    lines: &mut Vec<u8>,
) -> Result<Ending, RunFault>
    ensures ends { IfOk result (λ ending. ConcludesFor
        (IsDueFor (page_lines options.count) options.steps)
        (both_texts (Some spec.now) (option_map (λ b. Some b) (T.remaining terms.old)))
        ending (Some lines.old.items) (Some lines.new.items)) }
    ensures fault { IfErr result (λ fault. BreaksFor
        (IsDueFor (page_lines options.count) options.steps)
        (both_texts (Some spec.now) (option_map (λ b. Some b) (T.remaining terms.old)))
        fault (Some lines.old.items) (Some lines.new.items)) }
{
    let mut terms = Input::new(terms);
    evaluate(spec, &mut terms, options, profiler, lines)
}

/// Evaluates the terms of a specification, and then input terms, if there are any, with a profiler.
fn evaluate<G: InputTerms, P: Profiler + Drop>(
    spec: &[u8],
    terms: &mut G,
    options: RunOptions,
    profiler: P,
    lines: &mut Vec<u8>,
) -> Result<Ending, RunFault>
    ensures ends { IfOk result (λ ending. ConcludesFor
        (IsDueFor (page_lines options.count) options.steps)
        (both_texts (Some spec.now) (G.text terms.old))
        ending (Some lines.old.items) (Some lines.new.items)) }
    ensures fault { IfErr result (λ fault. BreaksFor
        (IsDueFor (page_lines options.count) options.steps)
        (both_texts (Some spec.now) (G.text terms.old))
        fault (Some lines.old.items) (Some lines.new.items)) }
{
    let alloc = *lines.allocator();
    let settings = RunSettings {
        options,
        limits: LimitLines::Bare,
        form: ValueForm::Within(MOST_BYTES),
        sizes: false,
        depth: None,
        terms: TermChoice::All,
        input: InputForm::Term,
    };
    let mut observer = Observer {
        watch: Unwatched,
        profiler,
        reporter: Unwatched,
    };
    let mut text = spec;
    match run_given(alloc, &mut text, terms, lines, settings, &mut observer) {
        Ok(report) => Ok(report.ending),
        Err(fault) => Err(fault),
    }
}
