//! The trace of a term: its first line if whole terms are shown, the lines of its rewrites, and the
//! line of its value or of the step limit.

ghost use Rattle.std.specs.Prelude.{◌≡◌, ◌++◌, ℕ, IfErr, IfOk, List, OnOk, codes, false};
ghost use Rattle.rec_syntax.specs.Syntax.{Term};
ghost use Rattle.rec_sorts.specs.Binding.{tree_of};
ghost use Rattle.rec_engine.specs.Engine.{SameEngine};
ghost use Rattle.rec_run.specs.EvaluatedLines.{HoldsValue};
ghost use Rattle.rec_run.specs.Output.{Task, is_limited, notes_text};
ghost use Rattle.rec_run.specs.declared.options.ValueForm.TheVariants.{Plain};
ghost use Rattle.rec_trace.specs.Faults.{RoomOnlyIfFull};
ghost use Rattle.rec_trace.specs.Lines.{whole_text};
ghost use Rattle.rec_trace_run.specs.Inner.Pages.{Breaks, Prints, ReportsPage, ReportsTrace};
ghost use Rattle.rec_trace_run.specs.Inner.Pages.{WritesText};
ghost use Rattle.rec_trace_run.specs.Traces.{shown_by, task_text};
ghost use Rattle.rec_trace_run.specs.Inner.Telling.{IsTelling, IsTermOf, end_text, first_text};

use crate::beginning::Beginning;
use crate::firings::write_firings;
use crate::page::Page;
use crate::telling::Telling;
use rec_engine::{Engine, EngineFault, Outcome};
use rec_run::{RunOptions, engine_fault, is_limit};
use rec_trace::{Look, Margins, Spot, whole_line};
use rx_run::{RunFault, put_numbered};
use rx_term::TermBank;
use rx_text::write;
use std::io::Write;

/// Appends the outcome of a term to a line: its value with the text of its annotations, or
/// `!limit`.
fn add_end<B: TermBank>(
    bank: &B,
    outcome: Outcome,
    notes: &[u8],
    options: RunOptions,
    line: &mut Vec<u8>,
) -> Result<(), RunFault>
    requires { HoldsValue (B.store bank.now) outcome }
    ensures { OnOk result (line.new.items ≡ line.old.items ++ end_text (B.store bank.now)
        options.count options.steps notes.now outcome) }
{
    let alloc = *line.allocator();
    match outcome {
        Outcome::Value { term, steps } => {
            write(alloc, bank, term, line)?;
            line.extend_from_slice(notes)?;
            rx_run::write_steps(options.count, steps, line)?;
            Ok(())
        }
        Outcome::Limit => {
            put_numbered(line, b"!limit ", options.steps)?;
            Ok(())
        }
    }
}

/// Makes the line of the outcome of a term, with the text of its annotations.
fn end_line<B: TermBank>(
    bank: &B,
    outcome: Outcome,
    notes: &[u8],
    telling: &Telling<'_>,
) -> Result<Vec<u8>, RunFault>
    requires { HoldsValue (B.store bank.now) outcome }
    ensures { IfOk result (λ line. line.items ≡ end_text (B.store bank.now)
        telling.now.options.run.count telling.now.options.run.steps notes.now outcome
        ++ codes "\n") }
{
    let mut line = Vec::new(telling.alloc);
    add_end(bank, outcome, notes, telling.options.run, &mut line)?;
    line.extend_from_slice(b"\n")?;
    Ok(line)
}

/// Writes the line of the outcome of a term, with the text of its annotations.
fn write_end<B: TermBank, W: Write>(
    bank: &B,
    outcome: Outcome,
    notes: &[u8],
    telling: &Telling<'_>,
    page: &mut Page<'_, '_, W>,
) -> Result<(), RunFault>
    requires held { HoldsValue (B.store bank.now) outcome }
    ensures ok { OnOk result (Prints W.contents page.old page.new
        (end_text (B.store bank.now) telling.now.options.run.count telling.now.options.run.steps
        notes.now outcome ++ codes "\n")) }
    ensures err { IfErr result (Breaks W.contents page.old page.new
        (end_text (B.store bank.now) telling.now.options.run.count telling.now.options.run.steps
        notes.now outcome ++ codes "\n")) }
    ensures reports { ReportsPage page.old page.new result }
{
    match end_line(bank, outcome, notes, telling) {
        Ok(line) => page.print(&line),
        Err(_) => Err(RunFault::Memory { lines: page.lines }),
    }
}

/// Makes the line of a whole term before its first rewrite.
fn first_line<B: TermBank>(
    engine: &mut Engine<B>,
    beginning: Beginning<'_>,
    telling: &Telling<'_>,
) -> Result<Vec<u8>, EngineFault>
    requires { (t : Term) × IsTermOf engine.old.spec beginning t }
    ensures same { SameEngine engine.old engine.new }
    ensures room { RoomOnlyIfFull (B.store engine.new.bank) engine.new.memo result }
    ensures text { IfOk result (λ line. (t : Term) → IsTermOf engine.old.spec beginning.entry t
        → line.items ≡ whole_text 0 0 false (shown_by telling.now.options).width 0 (tree_of t)) }
{
    let mut tracer = beginning.tracer(engine, telling)?;
    let whole = tracer.whole(telling.alloc, engine)?;
    let look = Look {
        counted: false,
        width: telling.options.look().width,
    };
    let margins = Margins {
        spot: Spot { line: 0, column: 0 },
        spent: 0,
        look,
    };
    match whole_line(telling.alloc, engine.bank(), whole, margins) {
        Ok(line) => {
            tracer.end(engine);
            Ok(line)
        }
        Err(_) => Err(EngineFault::Memory),
    }
}

/// Writes the line of a term before its first rewrite if whole terms are shown.
fn write_first<B: TermBank, W: Write>(
    engine: &mut Engine<B>,
    beginning: Beginning<'_>,
    telling: &Telling<'_>,
    page: &mut Page<'_, '_, W>,
) -> Result<(), RunFault>
    requires { (t : Term) × IsTermOf engine.old.spec beginning t }
    ensures same { SameEngine engine.old engine.new }
    ensures text { (t : Term) → IsTermOf engine.old.spec beginning.entry t
        → WritesText W.contents page.old page.new
        (first_text (shown_by telling.now.options) (tree_of t)) result }
    ensures reports { ReportsTrace B.store engine.new page.old page.new result }
{
    if !telling.options.whole {
        return Ok(());
    }
    match first_line(engine, beginning, telling) {
        Ok(line) => page.print(&line),
        Err(fault) => Err(engine_fault(fault, page.lines)),
    }
}

/// Writes the trace of a term, with the text of its annotations, and returns whether the step limit
/// was too low.
pub(crate) fn write_trace<B: TermBank, W: Write>(
    engine: &mut Engine<B>,
    beginning: Beginning<'_>,
    telling: &Telling<'_>,
    notes: &[u8],
    page: &mut Page<'_, '_, W>,
) -> Result<bool, RunFault>
    requires beginning { (t : Term) × IsTermOf engine.old.spec beginning t }
    requires telling { (source : List ℕ) × IsTelling source engine.old.spec telling.now }
    ensures same { SameEngine engine.old engine.new }
    ensures limit { IfOk result (λ limited. (task : Task)
        → IsTermOf engine.old.spec beginning.entry task.term
        → limited ≡ is_limited engine.old.spec Plain telling.now.options.run.steps task) }
    ensures text { (source : List ℕ) (task : Task) → IsTelling source engine.old.spec telling.now
        → IsTermOf engine.old.spec beginning.entry task.term → notes.now ≡ notes_text task.notes
        → WritesText W.contents page.old page.new (task_text source engine.old.spec
        (shown_by telling.now.options) telling.now.options.run.steps task) result }
    ensures reports { ReportsTrace B.store engine.new page.old page.new result }
{
    write_first(engine, beginning, telling, page)?;
    let outcome = write_firings(engine, beginning, telling, page)?;
    write_end(engine.bank(), outcome, notes, telling, page)?;
    Ok(is_limit(outcome))
}
