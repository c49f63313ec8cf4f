//! The lines of all rewrites of a term's evaluation.

ghost use Rattle.std.specs.Prelude.{◌≡◌, ◌++◌, ℕ, IfErr, IfOk, List, OnOk, codes, decimal};
ghost use Rattle.std.specs.Prelude.{length};
ghost use Rattle.rec_syntax.specs.Syntax.{Term};
ghost use Rattle.rec_engine.specs.Engine.{SameEngine};
ghost use Rattle.rec_trace.specs.Lines.{joined};
ghost use Rattle.rec_trace_run.specs.Inner.Pages.{Breaks, Prints, ReportsPage, ReportsTrace};
ghost use Rattle.rec_trace_run.specs.Inner.Pages.{WritesText};
ghost use Rattle.rec_trace_run.specs.Picks.{by_threes, more_line, picks_by, shown_lines};
ghost use Rattle.rec_trace_run.specs.Inner.Telling.{EndsIn, IsTelling, IsTermOf, lines_of};
ghost use Rattle.rec_trace_run.specs.Inner.Telling.{section_lines};

use crate::beginning::Beginning;
use crate::page::Page;
use crate::section::{Section, rest_of};
use crate::steps::write_steps;
use crate::telling::Telling;
use rec_engine::{Engine, Outcome};
use rec_run::engine_fault;
use rx_run::{RunFault, put_numbered};
use rx_term::TermBank;
use std::alloc::{AllocError, Global};
use std::io::Write;

/// Appends digits to a line, with a `,` between groups of three, counted from the end.
fn add_by_threes(digits: &[u8], line: &mut Vec<u8>) -> Result<(), AllocError>
    ensures { OnOk result (line.new.items ≡ line.old.items ++ by_threes digits.now) }
{
    for i in 0..digits.len() {
        line.push(digits[i])?;
        let behind = digits.len() - 1 - i;
        if behind > 0 && behind % 3 == 0 {
            line.push(b',')?;
        }
    }
    Ok(())
}

/// Makes the line that reports how many lines are left out, such as `... 1,234 more`.
fn more_text(alloc: Global, left_out: u64) -> Result<Vec<u8>, RunFault>
    ensures { IfOk result (λ line. line.items
        ≡ codes "... " ++ by_threes (decimal left_out) ++ codes " more\n") }
{
    let mut digits = Vec::new(alloc);
    put_numbered(&mut digits, b"", left_out)?;
    let mut line = Vec::new(alloc);
    line.extend_from_slice(b"... ")?;
    add_by_threes(&digits, &mut line)?;
    line.extend_from_slice(b" more\n")?;
    Ok(line)
}

/// Writes the line that reports how many lines are left out, unless there are none.
fn write_more<W: Write>(
    alloc: Global,
    left_out: u64,
    page: &mut Page<'_, '_, W>,
) -> Result<(), RunFault>
    ensures ok { OnOk result (Prints W.contents page.old page.new
        (joined (more_line left_out))) }
    ensures err { IfErr result (Breaks W.contents page.old page.new
        (joined (more_line left_out))) }
    ensures reports { ReportsPage page.old page.new result }
{
    if left_out == 0 {
        return Ok(());
    }
    match more_text(alloc, left_out) {
        Ok(line) => page.print(&line),
        Err(_) => Err(RunFault::Memory { lines: page.lines }),
    }
}

/// Traces a term from its beginning, writes the lines of the selected rewrites of a section, counts
/// all selected ones, and returns the outcome of the evaluation.
fn write_section<B: TermBank, W: Write>(
    engine: &mut Engine<B>,
    beginning: Beginning<'_>,
    telling: &Telling<'_>,
    section: &mut Section,
    page: &mut Page<'_, '_, W>,
) -> Result<Outcome, RunFault>
    requires beginning { (t : Term) × IsTermOf engine.old.spec beginning t }
    requires telling { (source : List ℕ) × IsTelling source engine.old.spec telling.now }
    requires none { section.old.seen ≡ 0 }
    ensures same { SameEngine engine.old engine.new }
    ensures end { IfOk result (λ outcome. (t : Term) → IsTermOf engine.old.spec beginning.entry t
        → EndsIn engine.old.spec (B.store engine.new.bank) telling.now.options.run.steps t
        outcome) }
    ensures seen { OnOk result ((source : List ℕ) (t : Term)
        → IsTelling source engine.old.spec telling.now
        → IsTermOf engine.old.spec beginning.entry t
        → section.new.seen ≡ length (lines_of source engine.old.spec telling.now.options t)) }
    ensures text { (source : List ℕ) (t : Term) → IsTelling source engine.old.spec telling.now
        → IsTermOf engine.old.spec beginning.entry t → WritesText W.contents page.old page.new
        (joined (section_lines section.old (lines_of source engine.old.spec telling.now.options
        t))) result }
    ensures reports { ReportsTrace B.store engine.new page.old page.new result }
{
    let mut tracer = match beginning.tracer(engine, telling) {
        Ok(tracer) => tracer,
        Err(fault) => return Err(engine_fault(fault, page.lines)),
    };
    let outcome = write_steps(engine, &mut tracer, telling, section, page)?;
    tracer.end(engine);
    Ok(outcome)
}

/// Writes the lines of all rewrites of a term that are shown, and returns the outcome of its
/// evaluation. If some are shown at the end, the term is traced twice: their number is known only
/// after the first time.
pub(crate) fn write_firings<B: TermBank, W: Write>(
    engine: &mut Engine<B>,
    beginning: Beginning<'_>,
    telling: &Telling<'_>,
    page: &mut Page<'_, '_, W>,
) -> Result<Outcome, RunFault>
    requires beginning { (t : Term) × IsTermOf engine.old.spec beginning t }
    requires telling { (source : List ℕ) × IsTelling source engine.old.spec telling.now }
    ensures same { SameEngine engine.old engine.new }
    ensures end { IfOk result (λ outcome. (t : Term) → IsTermOf engine.old.spec beginning.entry t
        → EndsIn engine.old.spec (B.store engine.new.bank) telling.now.options.run.steps t
        outcome) }
    ensures text { (source : List ℕ) (t : Term) → IsTelling source engine.old.spec telling.now
        → IsTermOf engine.old.spec beginning.entry t → WritesText W.contents page.old page.new
        (joined (shown_lines (picks_by telling.now.options.picked)
        (lines_of source engine.old.spec telling.now.options t))) result }
    ensures reports { ReportsTrace B.store engine.new page.old page.new result }
{
    let picked = telling.options.picked;
    let mut front = Section::front(picked);
    let outcome = write_section(engine, beginning, telling, &mut front, page)?;
    let rest = rest_of(picked, front.seen);
    write_more(telling.alloc, rest.left_out, page)?;
    if rest.from == front.seen {
        return Ok(outcome);
    }
    let mut back = Section::back(rest.from);
    write_section(engine, beginning, telling, &mut back, page)
}
