//! The traces of EVAL terms and of input terms.

ghost use Rattle.std.specs.Prelude.{◌≡◌, ◌<◌, ◌≤◌, ℕ, [], IfErr, IfOk, List, OnOk, length};
ghost use Rattle.rx_term.specs.Tree.{Tree, annotations};
ghost use Rattle.rec_engine.specs.Engine.{SameEngine, Spells};
ghost use Rattle.rec_run.specs.Output.{notes_text};
ghost use Rattle.rec_trace_run.specs.Inner.Pages.{Breaks, Prints, ReportsTrace};
ghost use Rattle.rec_trace_run.specs.Traces.{shown_by, task_text, traces};
ghost use Rattle.rec_trace_run.specs.Inner.Telling.{AreGivenTerms, IsTelling, given_traces};
ghost use Rattle.rec_run.specs.Choice.{HasCounts, given_chosen};
ghost use Rattle.rec_run.specs.Output.{counts_of, given_task, is_limited};
ghost use Rattle.rec_run.specs.Reading.{own_task};
ghost use Rattle.rec_run.specs.declared.options.ValueForm.TheVariants.{Plain};

use crate::beginning::Beginning;
use crate::ending::write_trace;
use crate::given::GivenTerms;
use crate::page::Page;
use crate::telling::Telling;
use rec_engine::Engine;
use rec_run::{Counts, window_of};
use rx_run::RunFault;
use rx_term::TermBank;
use std::io::Write;

/// Writes the traces of the chosen EVAL terms, and returns the numbers of lines of evaluation.
fn write_own_traces<B: TermBank, W: Write>(
    engine: &mut Engine<B>,
    telling: &Telling<'_>,
    page: &mut Page<'_, '_, W>,
) -> Result<Counts, RunFault>
    requires telling { (source : List ℕ) × IsTelling source engine.old.spec telling.now }
    ensures counts { IfOk result (λ counts. counts ≡ counts_of telling.now.options.terms
        engine.old.spec [] Plain telling.now.options.run.steps) }
    ensures few { IfOk result (λ counts. counts.limit_lines ≤ counts.lines) }
    ensures same { SameEngine engine.old engine.new }
    ensures ok { OnOk result ((source : List ℕ) → IsTelling source engine.old.spec telling.now
        → Prints W.contents page.old page.new
        (traces source engine.old.spec [] (shown_by telling.now.options)
        telling.now.options.run.steps)) }
    ensures err { IfErr result (λ fault. (source : List ℕ)
        → IsTelling source engine.old.spec telling.now
        → Breaks W.contents page.old page.new
        (traces source engine.old.spec [] (shown_by telling.now.options)
        telling.now.options.run.steps) fault) }
    ensures reports { ReportsTrace B.store engine.new page.old page.new result }
{
    let window = window_of(telling.options.terms, engine.eval_terms(), 0);
    let mut limit_lines = 0;
    for i in window.from..window.upto {
        let limited = write_trace(engine, Beginning::Eval(i), telling, b"", page)?;
        limit_lines += u64::from(limited);
    }
    Ok(Counts {
        lines: u64::from(window.upto - window.from),
        limit_lines,
    })
}

/// Writes the traces of the chosen input terms, and returns the numbers of lines of evaluation.
fn write_given_traces<B: TermBank, W: Write>(
    engine: &mut Engine<B>,
    terms: &GivenTerms,
    telling: &Telling<'_>,
    page: &mut Page<'_, '_, W>,
) -> Result<Counts, RunFault>
    requires given { (us : List Tree) × AreGivenTerms engine.old.spec us terms.now }
    requires telling { (source : List ℕ) × IsTelling source engine.old.spec telling.now }
    ensures counts { IfOk result (λ counts. (us : List Tree)
        → AreGivenTerms engine.old.spec us terms.now
        → HasCounts Plain telling.now.options.run.steps engine.old.spec
        (given_chosen telling.now.options.terms (length engine.old.spec.terms) us) counts) }
    ensures few { IfOk result (λ counts. counts.limit_lines ≤ counts.lines) }
    ensures same { SameEngine engine.old engine.new }
    ensures ok { OnOk result ((source : List ℕ) (us : List Tree)
        → IsTelling source engine.old.spec telling.now
        → AreGivenTerms engine.old.spec us terms.now
        → Prints W.contents page.old page.new
        (given_traces source engine.old.spec (shown_by telling.now.options)
        telling.now.options.run.steps
        (given_chosen telling.now.options.terms (length engine.old.spec.terms) us))) }
    ensures err { IfErr result (λ fault. (source : List ℕ) (us : List Tree)
        → IsTelling source engine.old.spec telling.now
        → AreGivenTerms engine.old.spec us terms.now
        → Breaks W.contents page.old page.new
        (given_traces source engine.old.spec (shown_by telling.now.options)
        telling.now.options.run.steps
        (given_chosen telling.now.options.terms (length engine.old.spec.terms) us)) fault) }
    ensures reports { ReportsTrace B.store engine.new page.old page.new result }
{
    let items = terms.letters.len() as u64;
    let window = window_of(telling.options.terms, engine.eval_terms(), items);
    let first = window.skipped as usize;
    let end = (window.skipped + window.most) as usize;
    let mut limit_lines = 0;
    for i in first..end {
        let beginning = Beginning::Given(&terms.letters[i]);
        let notes = &terms.notes[i];
        let limited = write_trace(engine, beginning, telling, notes, page)?;
        limit_lines += u64::from(limited);
    }
    Ok(Counts {
        lines: window.most,
        limit_lines,
    })
}

/// Writes the traces of the chosen EVAL terms and then those of the chosen input terms, and returns
/// the numbers of lines of evaluation. If these overflow, the error is `Memory`.
pub(crate) fn write_traces<B: TermBank, W: Write>(
    engine: &mut Engine<B>,
    terms: &GivenTerms,
    telling: &Telling<'_>,
    page: &mut Page<'_, '_, W>,
) -> Result<Counts, RunFault>
    requires given { (us : List Tree) × AreGivenTerms engine.old.spec us terms.now }
    requires telling { (source : List ℕ) × IsTelling source engine.old.spec telling.now }
    ensures counts { IfOk result (λ counts. (us : List Tree)
        → AreGivenTerms engine.old.spec us terms.now
        → counts ≡ counts_of telling.now.options.terms engine.old.spec us Plain
        telling.now.options.run.steps) }
    ensures ok { OnOk result ((source : List ℕ) (us : List Tree)
        → IsTelling source engine.old.spec telling.now
        → AreGivenTerms engine.old.spec us terms.now
        → Prints W.contents page.old page.new
        (traces source engine.old.spec us (shown_by telling.now.options)
        telling.now.options.run.steps)) }
    ensures err { IfErr result (λ fault. (source : List ℕ) (us : List Tree)
        → IsTelling source engine.old.spec telling.now
        → AreGivenTerms engine.old.spec us terms.now
        → Breaks W.contents page.old page.new
        (traces source engine.old.spec us (shown_by telling.now.options)
        telling.now.options.run.steps) fault) }
    ensures reports { ReportsTrace B.store engine.new page.old page.new result }
{
    let own = write_own_traces(engine, telling, page)?;
    let given = write_given_traces(engine, terms, telling, page)?;
    match own.lines.checked_add(given.lines) {
        Some(lines) => Ok(Counts {
            lines,
            limit_lines: own.limit_lines + given.limit_lines,
        }),
        None => Err(RunFault::Memory { lines: page.lines }),
    }
}
