//! From parsed arguments to the exit status.

use crate::calls::{Counted, Parted, numbered_lines};
use crate::check::check;
use crate::drawn::{GraphReport, Graphs};
use crate::evidence::Evidence;
use crate::given::given_by;
use crate::input::{Sources, open_given};
use crate::join::join;
use crate::joined::evaluate_joined;
use crate::profile::{Profile, Starts};
use crate::prompts::Typed;
use crate::recorded::RecordedWriter;
use crate::report::{Outcome, tell_end};
use crate::screen::Screen;
use crate::serve::serve;
use crate::uses::list_uses;
use crate::work::{Calls, Firings, Values, Work};
use rec_run::{NoTerms, Observer, RunReport, Unwatched, Watch};
use rec_stuck::StuckReport;
use recw_cli::status::{eval_status, match_status};
use recw_cli::{Asked, EvalOptions, Invocation, Request, STANDARD_INPUT, read_words};
use rx_render::{Indentation, run_aterm_indented, run_share_dot};
use rx_run::{Ending, RunFault, Source, make_term, match_term, print_term, run_on_term};
use rx_text::{Input, Output};
use std::alloc::{AllocError, Global};
use std::cell::Cell;
use std::io::{Read, Write};
use std::rc::Rc;
use std::rt::Files;

/// Runs the program on its arguments, without the program's name, and returns the exit status.
/// Files are opened by `rt`. Without arguments, it evaluates the specification on `input`.
pub fn program<H: Files, R: Read, W: Write, E: Write + Screen>(
    rt: &H,
    alloc: Global,
    words: &[&str],
    input: &mut R,
    out: &mut W,
    err: &mut E,
) -> u8 {
    match read_words(alloc, words, out, err) {
        Asked::Run(invocation) => answer(rt, &invocation, input, out, err, alloc),
        Asked::End(status) => status,
    }
}

/// Runs the requested command, and returns the exit status.
fn answer<H: Files, R: Read, W: Write, E: Write + Screen>(
    rt: &H,
    invocation: &Invocation<'_>,
    input: &mut R,
    out: &mut W,
    err: &mut E,
    alloc: Global,
) -> u8 {
    let mut evidence = Evidence::new(alloc, &*invocation);
    let mut typed = Typed::new(input, invocation, err.prompts());
    answer_from(rt, &mut typed, out, err, &mut evidence)
}

/// Runs a command on these files and this standard input, and returns the exit status.
fn answer_from<H: Files, R: Read, W: Write, E: Write + Screen>(
    rt: &H,
    input: &mut R,
    out: &mut W,
    err: &mut E,
    evidence: &mut Evidence<'_>,
) -> u8 {
    obey(&mut Sources { rt: &*rt, input }, out, err, evidence)
}

/// Runs a command, records in `evidence` what explanations need, reports how it ended, and returns
/// the exit status.
fn obey<H: Files, R: Read, W: Write, E: Write + Screen>(
    sources: &mut Sources<'_, H, R>,
    out: &mut W,
    err: &mut E,
    evidence: &mut Evidence<'_>,
) -> u8 {
    evidence.is_curious |= err.is_curious();
    evidence.look = err.look();
    let mut out = RecordedWriter::new(out);
    let end = perform(sources, &mut out, err, evidence);
    evidence.note_write(out.finish());
    conclude(end, evidence, err)
}

/// Reports how a run ended, and returns its exit status.
fn conclude<E: Write>(end: Result<Outcome, RunFault>, evidence: &Evidence<'_>, err: &mut E) -> u8 {
    let is_quiet = matches!(end, Err(RunFault::Write)) && evidence.is_quiet();
    // Lines that cannot be written are dropped.
    let _ = err.write_all(evidence.rules.as_slice());
    let status = tell_end(end, is_quiet, err);
    let _ = err.write_all(evidence.wrong.as_slice());
    if evidence.is_curious {
        let _ = evidence.explain(end, err);
    }
    if let Ok(Outcome::Done) = end {
        tell_calls(evidence, err);
    }
    if evidence.invocation.has_outcome {
        outcome_status(status, evidence)
    } else {
        calls_status(status, evidence)
    }
}

/// Writes the stuck calls in results. Lines that cannot be written are dropped.
fn tell_calls<E: Write>(evidence: &Evidence<'_>, err: &mut E) {
    let _ = err.write_all(evidence.calls.as_slice());
}

/// Returns the exit status, which is 5 if a successful run with `--stuck` found stuck calls.
fn calls_status(status: u8, evidence: &Evidence<'_>) -> u8 {
    eval_status(status, !evidence.calls.is_empty())
}

/// Returns the exit status that `--test` or `--limit-status` request.
fn outcome_status(status: u8, evidence: &Evidence<'_>) -> u8 {
    match evidence.invocation.request {
        Request::Match { .. } => match_status(status, evidence.is_match),
        _ => {
            let status = eval_status(status, evidence.limit_lines > 0);
            calls_status(status, evidence)
        }
    }
}

/// Runs a command. `err` receives the messages during the run.
fn perform<H: Files, R: Read, W: Write, E: Write + Screen>(
    sources: &mut Sources<'_, H, R>,
    out: &mut W,
    err: &mut E,
    evidence: &mut Evidence<'_>,
) -> Result<Outcome, RunFault> {
    match evidence.invocation.request {
        Request::Check { options } => check(sources, options, out, evidence),
        Request::Uses { at, .. } => list_uses(sources.rt, at, sources.input, out, evidence),
        Request::Join => join(sources, out, evidence),
        Request::Trace { options, shown, .. } => {
            let firings = Firings::new(evidence.alloc, options, shown);
            trace(sources, firings, out, evidence)
        }
        _ => {
            let ending = run_request(sources, out, err, evidence)?;
            Ok(evidence.outcome_of(ending))
        }
    }
}

/// Traces an evaluation, and records the lines of `--rules` and a usage error.
fn trace<H: Files, R: Read, W: Write>(
    sources: &mut Sources<'_, H, R>,
    mut firings: Firings<'_>,
    out: &mut W,
    evidence: &mut Evidence<'_>,
) -> Result<Outcome, RunFault> {
    let end = evaluate(sources, &mut firings, out, evidence);
    let Firings { wrong, rules, .. } = firings;
    if !wrong.is_empty() {
        evidence.wrong = wrong;
    }
    evidence.rules = rules;
    let ending = end?;
    Ok(evidence.outcome_of(ending))
}

/// Runs any command except `check`, `uses`, `join` and `trace`.
fn run_request<H: Files, R: Read, W: Write, E: Write + Screen>(
    sources: &mut Sources<'_, H, R>,
    out: &mut W,
    err: &mut E,
    evidence: &mut Evidence<'_>,
) -> Result<Ending, RunFault> {
    match evidence.invocation.request {
        Request::Eval { options, .. } => evaluate_observed(sources, options, out, err, evidence),
        Request::Serve { options, .. } => serve(sources, options, out, err, evidence),
        Request::Make { pattern, args } => {
            make_term(evidence.alloc, pattern.as_bytes(), args.as_bytes(), out)
        }
        _ => run_on_file(sources, out, evidence),
    }
}

/// Runs a command on a file or on standard input.
fn run_on_file<H: Files, R: Read, W: Write>(
    sources: &mut Sources<'_, H, R>,
    out: &mut W,
    evidence: &mut Evidence<'_>,
) -> Result<Ending, RunFault> {
    let mut file = evidence.open_first(sources.rt, sources.input, Source::Term)?;
    let mut text = evidence.record(&mut file);
    let end = run_on_text(&mut text, out, evidence);
    evidence.keep_first(text, Source::Term);
    end
}

/// Runs a command on a text.
fn run_on_text<R: Read, W: Write>(
    text: &mut R,
    out: &mut W,
    evidence: &mut Evidence<'_>,
) -> Result<Ending, RunFault> {
    let alloc = evidence.alloc;
    match evidence.invocation.request {
        Request::Share {
            nodes: Some(nodes),
            run,
            ..
        } => run_share_dot(alloc, run.form, text, nodes, out),
        Request::Match { pattern, .. } => {
            let report = match_term(alloc, pattern.as_bytes(), text, out)?;
            evidence.is_match = report.matched;
            Ok(report.ending)
        }
        Request::Aterm {
            indent: Some(indent),
            width,
            ..
        } => run_aterm_indented(alloc, text, Indentation { indent, width }, out),
        Request::Aterm { run, .. } | Request::Share { run, .. } => {
            run_on_term(alloc, &mut Input::new(text), &mut Output::new(out), &run)
        }
        _ => print_term(alloc, text, out),
    }
}

/// Evaluates a specification and input terms with these options, and records the stuck calls with
/// `--stuck`. `err` receives the progress and the profile.
fn evaluate_observed<H: Files, R: Read, W: Write, E: Write + Screen>(
    sources: &mut Sources<'_, H, R>,
    options: EvalOptions,
    out: &mut W,
    err: &mut E,
    evidence: &mut Evidence<'_>,
) -> Result<Ending, RunFault> {
    let watch = err.progress(&evidence.invocation.request);
    let columns = err.columns();
    let profiler = Profile::new(evidence.alloc, options.profile, columns, err);
    let reporter = Unwatched;
    let observer = Observer {
        watch,
        profiler,
        reporter,
    };
    let values = Values { options, observer };
    match options.graph {
        Some(nodes) => evaluate_graph(sources, values, nodes, out, evidence),
        None if options.stuck => evaluate_calls(sources, values, out, evidence),
        None => evaluate_values(sources, values, out, evidence),
    }
}

/// Evaluates a specification and input terms, and records whether an evaluation could start.
fn evaluate_values<H: Files, R: Read, W: Write, V: Watch + Drop, P: Starts + Drop>(
    sources: &mut Sources<'_, H, R>,
    mut values: Values<V, P>,
    out: &mut W,
    evidence: &mut Evidence<'_>,
) -> Result<Ending, RunFault> {
    let end = evaluate(sources, &mut values, out, evidence);
    evidence.has_begun = values.observer.profiler.has_begun();
    end
}

/// Evaluates one term, writes the graph of its result with at most `nodes` nodes, and records
/// whether an evaluation could start.
fn evaluate_graph<H: Files, R: Read, W: Write, V: Watch + Drop, P: Starts + Drop>(
    sources: &mut Sources<'_, H, R>,
    values: Values<V, P>,
    nodes: u32,
    out: &mut W,
    evidence: &mut Evidence<'_>,
) -> Result<Ending, RunFault> {
    let Values { options, observer } = values;
    let Observer {
        watch,
        profiler,
        ..
    } = observer;
    let text = Vec::new(evidence.alloc);
    let reporter = GraphReport { nodes, text };
    let observer = Observer {
        watch,
        profiler,
        reporter,
    };
    let mut graphs = Graphs { options, observer };
    let end = evaluate(sources, &mut graphs, out, evidence);
    evidence.has_begun = graphs.observer.profiler.has_begun();
    end
}

/// Evaluates a specification and input terms, and records the stuck calls in the results, and
/// whether an evaluation could start.
fn evaluate_calls<H: Files, R: Read, W: Write, V: Watch + Drop, P: Starts + Drop>(
    sources: &mut Sources<'_, H, R>,
    values: Values<V, P>,
    out: &mut W,
    evidence: &mut Evidence<'_>,
) -> Result<Ending, RunFault> {
    let Values { options, observer } = values;
    let Observer {
        watch,
        profiler,
        ..
    } = observer;
    let reporter = parted_report(evidence.alloc)?;
    let ended = reporter.ended.clone()?;
    let observer = Observer {
        watch: Counted { watch, ended },
        profiler,
        reporter,
    };
    let mut calls = Calls { options, observer };
    let end = evaluate(sources, &mut calls, out, evidence);
    let Calls { observer, .. } = calls;
    let Observer {
        profiler,
        reporter,
        ..
    } = observer;
    evidence.has_begun = profiler.has_begun();
    let Parted {
        reporter,
        parts,
        ..
    } = reporter;
    let ending = end?;
    let lines = numbered_lines(evidence.alloc, &reporter.lines, &parts, options.terms);
    evidence.calls = lines.map_err(|_| RunFault::Memory { lines: 0 })?;
    Ok(ending)
}

/// Returns a report of stuck calls to which nothing was reported.
fn parted_report(alloc: Global) -> Result<Parted<StuckReport>, AllocError> {
    Ok(Parted {
        reporter: StuckReport::new(alloc),
        ended: Rc::new(alloc, Cell::new(0))?,
        parts: Vec::new(alloc),
    })
}

/// Evaluates a specification and its input terms, and records the number of limit lines.
fn evaluate<H: Files, R: Read, W: Write, K: Work>(
    sources: &mut Sources<'_, H, R>,
    work: &mut K,
    out: &mut W,
    evidence: &mut Evidence<'_>,
) -> Result<Ending, RunFault> {
    let end = if !evidence.invocation.joined.is_empty() {
        evaluate_joined(sources, work, out, evidence)
    } else if evidence.invocation.request.terms_path() == Some(STANDARD_INPUT) {
        evaluate_on_input(sources, work, out, evidence)
    } else {
        evaluate_on_files(sources, work, out, evidence)
    };
    let RunReport {
        ending,
        lines,
        limit_lines,
    } = end?;
    evidence.limit_lines = limit_lines;
    if lines == 0 && matches!(ending, Ending::Done) {
        evidence.note_missing()?;
    }
    Ok(ending)
}

/// Evaluates a specification in a file with input terms on standard input.
fn evaluate_on_input<H: Files, R: Read, W: Write, K: Work>(
    sources: &mut Sources<'_, H, R>,
    work: &mut K,
    out: &mut W,
    evidence: &mut Evidence<'_>,
) -> Result<RunReport, RunFault> {
    let mut file = evidence.open_spec(sources.rt)?;
    let mut spec = evidence.record(&mut file);
    let end = evaluate_beside(work, &mut spec, sources.input, out, evidence);
    evidence.keep_first(spec, Source::Spec);
    end
}

/// Evaluates a specification in a file or on standard input, with input terms from another source.
fn evaluate_on_files<H: Files, R: Read, W: Write, K: Work>(
    sources: &mut Sources<'_, H, R>,
    work: &mut K,
    out: &mut W,
    evidence: &mut Evidence<'_>,
) -> Result<RunReport, RunFault> {
    let mut file = evidence.open_first(sources.rt, sources.input, Source::Spec)?;
    let mut spec = evidence.record(&mut file);
    let end = evaluate_text(sources.rt, work, &mut spec, out, evidence);
    evidence.keep_first(spec, Source::Spec);
    end
}

/// Evaluates the text of a specification and its input terms.
pub fn evaluate_text<H: Files, R: Read, W: Write, K: Work>(
    rt: &H,
    work: &mut K,
    spec: &mut R,
    out: &mut W,
    evidence: &mut Evidence<'_>,
) -> Result<RunReport, RunFault> {
    if evidence.invocation.given.is_empty() {
        evaluate_given_file(rt, work, spec, out, evidence)
    } else {
        evaluate_words(work, spec, out, evidence)
    }
}

/// Evaluates a specification and the input terms of a file, if one is named.
fn evaluate_given_file<H: Files, R: Read, W: Write, K: Work>(
    rt: &H,
    work: &mut K,
    spec: &mut R,
    out: &mut W,
    evidence: &mut Evidence<'_>,
) -> Result<RunReport, RunFault> {
    let path = evidence.invocation.request.terms_path();
    let name = evidence.name_of(Source::Terms);
    match evidence.note_open(open_given(rt, path), name)? {
        Some(mut terms) => evaluate_beside(work, spec, &mut terms, out, evidence),
        None => work.run(evidence.alloc, spec, &mut NoTerms, out),
    }
}

/// Evaluates a specification and the input terms given with `-e`.
fn evaluate_words<R: Read, W: Write, K: Work>(
    work: &mut K,
    spec: &mut R,
    out: &mut W,
    evidence: &mut Evidence<'_>,
) -> Result<RunReport, RunFault> {
    let given = given_by(evidence.alloc, evidence.invocation.given.as_slice())?;
    let report = evaluate_beside(work, spec, &mut given.text(), out, evidence)?;
    let ending = evidence.note_word(report.ending, &given);
    Ok(RunReport { ending, ..report })
}

/// Evaluates a specification and input terms, and records both texts for an explanation.
pub fn evaluate_beside<R: Read, T: Read, W: Write, K: Work>(
    work: &mut K,
    spec: &mut R,
    terms: &mut T,
    out: &mut W,
    evidence: &mut Evidence<'_>,
) -> Result<RunReport, RunFault> {
    let mut terms = evidence.record(terms);
    let end = work.run(evidence.alloc, spec, &mut Input::new(&mut terms), out);
    evidence.keep_second(terms);
    end
}
