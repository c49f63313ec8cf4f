//! The rewrites of a term, which are shown one after the other.

ghost use Rattle.std.specs.Prelude.{◌≡◌, ℕ, IfErr, IfOk, List, OnOk, length};
ghost use Rattle.std.specs.Option.{option_to_list};
ghost use Rattle.rec_engine.specs.Engine.{SameEngine};
ghost use Rattle.rec_trace.specs.Lines.{joined};
ghost use Rattle.rec_trace.specs.Lists.{IsKept};
ghost use Rattle.rec_trace.specs.Tracing.{Stands, rest_of};
ghost use Rattle.rec_trace_run.specs.Inner.Pages.{Breaks, Prints, ReportsPage, ReportsTrace};
ghost use Rattle.rec_trace_run.specs.Inner.Pages.{WritesText};
ghost use Rattle.rec_trace_run.specs.Traces.{picked_lines, shown_by};
ghost use Rattle.rec_trace_run.specs.Inner.Telling.{IsEnd, IsTelling, IsWithin, section_lines};
ghost use Rattle.rec_trace_run.specs.Inner.Telling.{texts_of};

use crate::next::{TracePart, next_part};
use crate::page::Page;
use crate::section::Section;
use crate::telling::Telling;
use rec_engine::{Engine, Outcome};
use rec_run::engine_fault;
use rec_trace::Tracer;
use rx_run::RunFault;
use rx_term::TermBank;
use std::io::Write;

/// Writes a line if there is one.
fn print_some<W: Write>(line: Option<Vec<u8>>, page: &mut Page<'_, '_, W>) -> Result<(), RunFault>
    ensures ok { OnOk result (Prints W.contents page.old page.new
        (joined (texts_of (option_to_list line)))) }
    ensures err { IfErr result (Breaks W.contents page.old page.new
        (joined (texts_of (option_to_list line)))) }
    ensures reports { ReportsPage page.old page.new result }
{
    match line {
        None => Ok(()),
        Some(line) => page.print(&line),
    }
}

/// Writes the lines of the selected rewrites of a section, counts all selected ones, and returns the
/// outcome of the evaluation.
pub(crate) fn write_steps<B: TermBank, W: Write>(
    engine: &mut Engine<B>,
    tracer: &mut Tracer,
    telling: &Telling<'_>,
    section: &mut Section,
    page: &mut Page<'_, '_, W>,
) -> Result<Outcome, RunFault>
    requires stands { Stands engine.old.spec (B.store engine.old.bank) tracer.old }
    requires within { IsWithin telling.now.options.run.steps
        (rest_of engine.old.spec (B.store engine.old.bank) tracer.old) }
    requires telling { (source : List ℕ) × IsTelling source engine.old.spec telling.now }
    requires none { section.old.seen ≡ 0 }
    ensures same { SameEngine engine.old engine.new }
    ensures list { IfOk result
        (λ outcome. IsKept (B.store engine.new.bank) tracer.new.saved.list) }
    ensures end { IfOk result (IsEnd (B.store engine.new.bank) telling.now.options.run.steps
        (rest_of engine.old.spec (B.store engine.old.bank) tracer.old).outcome) }
    ensures seen { OnOk result ((source : List ℕ) → IsTelling source engine.old.spec telling.now
        → section.new.seen ≡ length (picked_lines source (shown_by telling.now.options)
        telling.now.options.run.steps
        (rest_of engine.old.spec (B.store engine.old.bank) tracer.old).firings)) }
    ensures text { (source : List ℕ) → IsTelling source engine.old.spec telling.now
        → WritesText W.contents page.old page.new
        (joined (section_lines section.old (picked_lines source (shown_by telling.now.options)
        telling.now.options.run.steps
        (rest_of engine.old.spec (B.store engine.old.bank) tracer.old).firings))) result }
    ensures reports { ReportsTrace B.store engine.new page.old page.new result }
{
    'turns: loop {
        match next_part(engine, tracer, telling, section) {
            Ok(TracePart::Rewrite(line)) => print_some(line, page)?,
            Ok(TracePart::End(outcome)) => return Ok(outcome),
            Err(fault) => return Err(engine_fault(fault, page.lines)),
        }
    }
}
