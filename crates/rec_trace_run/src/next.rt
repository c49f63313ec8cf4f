//! The next part of a term's trace: a rewrite with the line that it adds, or the outcome.

ghost use Rattle.std.specs.Prelude.{◌≡◌, ◌≤◌, ℕ, IfOk, List, length};
ghost use Rattle.rx_term.specs.Store.{Store};
ghost use Rattle.rec_engine.specs.Engine.{SameEngine};
ghost use Rattle.rec_trace.specs.Faults.{RoomOnlyIfFull};
ghost use Rattle.rec_trace.specs.Lists.{IsKept};
ghost use Rattle.rec_trace.specs.Tracing.{HasFiredAt, Stands, rest_of};
ghost use Rattle.rec_trace.specs.declared.tracer.Tracer.{Tracer};
ghost use Rattle.rec_trace_run.specs.Inner.Telling.{
  HasBounds,
  IsPart,
  IsTelling,
  IsWithin,
  TakesUp,
};

use crate::fired::{Fired, is_picked, step_text};
use crate::section::Section;
use crate::telling::Telling;
use rec_engine::{Engine, EngineFault, Outcome};
use rec_trace::{Event, Tracer};
use rx_term::TermBank;

/// A part of a term's trace.
#[derive(Drop)]
pub(crate) enum TracePart {
    /// A rewrite, with its line if this is written.
    Rewrite(Option<Vec<u8>>),
    /// The end: the outcome of the evaluation.
    End(Outcome),
}

/// Makes the line of a rewrite if it is selected and in the section, from the tracer after the
/// rewrite. Other selected rewrites are only counted.
fn next_line<B: TermBank>(
    engine: &mut Engine<B>,
    tracer: &mut Tracer,
    telling: &Telling<'_>,
    fired: Fired,
    section: &mut Section,
) -> Result<Option<Vec<u8>>, EngineFault>
    requires fired { (w : Store) × (t : Tracer) × HasFiredAt engine.old.spec w
        (B.store engine.old.bank) t tracer.old fired.rule fired.redex }
    requires stands { Stands engine.old.spec (B.store engine.old.bank) tracer.old }
    requires left { tracer.old.left ≤ telling.now.options.run.steps }
    requires telling { (source : List ℕ) × IsTelling source engine.old.spec telling.now }
    ensures same { SameEngine engine.old engine.new }
    ensures room { RoomOnlyIfFull (B.store engine.new.bank) engine.new.memo result }
    ensures stands { IfOk result
        (λ line. Stands engine.old.spec (B.store engine.new.bank) tracer.new) }
    ensures rest { IfOk result (λ line. rest_of engine.old.spec (B.store engine.new.bank) tracer.new
        ≡ rest_of engine.old.spec (B.store engine.old.bank) tracer.old) }
    ensures line { IfOk result (λ line. (source : List ℕ) (w : Store) (t : Tracer)
        (before : List (List ℕ)) → IsTelling source engine.old.spec telling.now
        → section.old.seen ≡ length before
        → (f : HasFiredAt engine.old.spec w (B.store engine.old.bank) t tracer.old fired.rule
        fired.redex)
        → TakesUp source telling.now.options before f.firing section.old section.new line) }
    ensures bounds { HasBounds section.old section.new }
{
    if !is_picked(engine.bank(), telling, fired) {
        return Ok(None);
    }
    let here = section.take()?;
    if !here {
        return Ok(None);
    }
    let line = step_text(engine, tracer, telling, fired)?;
    Ok(Some(line))
}

/// Continues to the next rewrite. If it is selected, it is counted, and its line is returned if it
/// is in the section. If no rewrite is left, returns the outcome of the evaluation.
pub(crate) fn next_part<B: TermBank>(
    engine: &mut Engine<B>,
    tracer: &mut Tracer,
    telling: &Telling<'_>,
    section: &mut Section,
) -> Result<TracePart, EngineFault>
    requires stands { Stands engine.old.spec (B.store engine.old.bank) tracer.old }
    requires within { IsWithin telling.now.options.run.steps
        (rest_of engine.old.spec (B.store engine.old.bank) tracer.old) }
    requires telling { (source : List ℕ) × IsTelling source engine.old.spec telling.now }
    ensures same { SameEngine engine.old engine.new }
    ensures room { RoomOnlyIfFull (B.store engine.new.bank) engine.new.memo result }
    ensures list { IfOk result
        (λ part. IsKept (B.store engine.new.bank) tracer.new.saved.list) }
    ensures part { IfOk result (IsPart engine.old.spec (B.store engine.old.bank)
        (B.store engine.new.bank) tracer.old tracer.new telling.now section.old section.new) }
{
    match tracer.next_event(engine)? {
        Event::Limit => Ok(TracePart::End(Outcome::Limit)),
        Event::Value { term } => {
            let steps = telling.options.run.steps - tracer.left();
            Ok(TracePart::End(Outcome::Value { term, steps }))
        }
        Event::Fired { rule, redex } => {
            let fired = Fired { rule, redex };
            let line = next_line(engine, tracer, telling, fired, section)?;
            Ok(TracePart::Rewrite(line))
        }
    }
}
