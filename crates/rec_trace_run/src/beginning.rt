//! The beginning of a term's trace.

ghost use Rattle.rec_syntax.specs.Syntax.{Term};
ghost use Rattle.rec_engine.specs.Engine.{SameEngine};
ghost use Rattle.rec_trace.specs.Faults.{RoomOnlyIfFull};
ghost use Rattle.rec_trace_run.specs.Inner.Telling.{Begins, IsTermOf};
ghost use Rattle.std.specs.Prelude.{IfOk};

use crate::telling::Telling;
use rec_engine::{Engine, EngineFault};
use rec_sorts::Letter;
use rec_trace::Tracer;
use rx_term::TermBank;

/// A term that is traced. Each of its tracers makes the same trace.
#[derive(Clone, Copy, Drop)]
pub(crate) enum Beginning<'a> {
    /// The EVAL term with this number, from 0.
    Eval(u32),
    /// The input term with these postfix items.
    Given(&'a [Letter]),
}

impl Beginning<'_> {
    /// Returns a tracer at the beginning of the term's trace.
    pub(crate) fn tracer<B: TermBank>(
        self,
        engine: &mut Engine<B>,
        telling: &Telling<'_>,
    ) -> Result<Tracer, EngineFault>
        requires { (t : Term) × IsTermOf engine.old.spec self t }
        ensures same { SameEngine engine.old engine.new }
        ensures begins { IfOk result (λ tracer. (t : Term)
            → IsTermOf engine.old.spec self.entry t → Begins engine.old.spec
            (B.store engine.new.bank) telling.now.options.run.steps tracer t) }
        ensures room { RoomOnlyIfFull (B.store engine.new.bank) engine.new.memo result }
    {
        let steps = telling.options.run.steps;
        match self {
            Beginning::Eval(i) => Tracer::of_eval(telling.alloc, engine, i, steps),
            Beginning::Given(letters) => Tracer::of_given(telling.alloc, engine, letters, steps),
        }
    }
}
