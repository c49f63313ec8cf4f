//! Traces.

ghost use Rattle.std.specs.Prelude.{IfErr, IfOk, None, Some, option_map};
ghost use Rattle.rx_run.specs.Run.{BreaksFor, ConcludesFor};
ghost use Rattle.rec_run.specs.Run.{both_texts};
ghost use Rattle.rec_trace_run.specs.Traces.{IsTraceDueFor, shown_by};
ghost use Rattle.recw_wasm.specs.Answers.{Answers, IsTraceAsked};

use crate::handing::hand_ending;
use crate::options::TraceOptions;
use crate::told::Told;
use rec_run::{InputTerms, NoTerms};
use rec_trace_run::run_trace;
use rx_run::{Ending, RunFault};
use rx_text::Input;
use std::alloc::Global;
use std::io::{Read, Write};

/// Traces the evaluation of the terms of a specification.
#[unsafe(no_mangle)]
pub extern "C" fn recw_trace(
    alloc: Global,
    spec: &[u8],
    options: &TraceOptions,
    out: &mut [u8],
    told: &mut Told,
) -> u32
    ensures { Answers (IsTraceAsked options.now spec.now None) result told.new out.old out.new }
{
    let mut text = spec;
    let mut lines = Vec::new(alloc);
    let end = trace_beside(alloc, &mut text, &mut NoTerms, &mut lines, options.within());
    hand_ending(end, lines, out, told)
}

/// Traces the evaluation of the terms of a specification, and then of input terms.
#[unsafe(no_mangle)]
pub extern "C" fn recw_trace_terms(
    alloc: Global,
    spec: &[u8],
    terms: &[u8],
    options: &TraceOptions,
    out: &mut [u8],
    told: &mut Told,
) -> u32
    ensures { Answers (IsTraceAsked options.now spec.now (Some terms.now)) result told.new
        out.old out.new }
{
    let mut text = spec;
    let mut given = terms;
    let mut lines = Vec::new(alloc);
    let end = trace_given(alloc, &mut text, &mut given, &mut lines, options.within());
    hand_ending(end, lines, out, told)
}

/// Writes the trace of a specification's terms, and then of input terms from a reader.
fn trace_given<R: Read, T: Read, W: Write>(
    alloc: Global,
    spec: &mut R,
    terms: &mut T,
    out: &mut W,
    options: rec_trace_run::TraceOptions<'_>,
) -> Result<Ending, RunFault>
    ensures ends { IfOk result (λ ending. ConcludesFor
        (IsTraceDueFor (shown_by options.entry) options.entry.run.steps)
        (both_texts (R.remaining spec.old) (option_map (λ b. Some b) (T.remaining terms.old)))
        ending (W.contents out.old) (W.contents out.new)) }
    ensures fault { IfErr result (λ fault. BreaksFor
        (IsTraceDueFor (shown_by options.entry) options.entry.run.steps)
        (both_texts (R.remaining spec.old) (option_map (λ b. Some b) (T.remaining terms.old)))
        fault (W.contents out.old) (W.contents out.new)) }
{
    let mut terms = Input::new(terms);
    trace_beside(alloc, spec, &mut terms, out, options)
}

/// Writes the trace of a specification's terms, and then of input terms, if there are any.
fn trace_beside<R: Read, G: InputTerms, W: Write>(
    alloc: Global,
    spec: &mut R,
    terms: &mut G,
    out: &mut W,
    options: rec_trace_run::TraceOptions<'_>,
) -> Result<Ending, RunFault>
    ensures ends { IfOk result (λ ending. ConcludesFor
        (IsTraceDueFor (shown_by options.entry) options.entry.run.steps)
        (both_texts (R.remaining spec.old) (G.text terms.old))
        ending (W.contents out.old) (W.contents out.new)) }
    ensures fault { IfErr result (λ fault. BreaksFor
        (IsTraceDueFor (shown_by options.entry) options.entry.run.steps)
        (both_texts (R.remaining spec.old) (G.text terms.old))
        fault (W.contents out.old) (W.contents out.new)) }
{
    match run_trace(alloc, spec, terms, out, options) {
        Ok(report) => Ok(report.ending),
        Err(fault) => Err(fault),
    }
}
