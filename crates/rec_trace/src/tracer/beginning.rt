//! Starts traces.

ghost use Rattle.std.specs.Prelude.{◌≡◌, ◌<◌, IfOk, IfSome, length, slice_get};
ghost use Rattle.rx_term.specs.Tree.{Tree};
ghost use Rattle.rec_sorts.specs.Binding.{tree_of};
ghost use Rattle.rec_sorts.specs.Evaluation.{term_of};
ghost use Rattle.rec_engine.specs.Engine.{SameEngine, Spells};
ghost use Rattle.rec_trace.specs.Tracing.{Stands, rest_of, whole_of};
ghost use Rattle.rec_trace.specs.Trace.{Trace};
ghost use Rattle.rec_trace.specs.Faults.{RoomOnlyIfFull};

use crate::row::{Row, ground_steps};
use crate::saved::Saved;
use crate::tracer::Tracer;
use rec_engine::{Engine, EngineFault};
use rec_sorts::Letter;
use rx_term::TermBank;
use std::alloc::Global;

impl Tracer {
    /// Starts the trace of term number `i`, from 0, of the specification, with a limit of `n`
    /// steps.
    pub fn of_eval<B: TermBank>(
        alloc: Global,
        engine: &mut Engine<B>,
        i: u32,
        n: u64,
    ) -> Result<Tracer, EngineFault>
        requires { i < length engine.old.spec.terms }
        ensures same { SameEngine engine.old engine.new }
        ensures stands { IfOk result (Stands engine.old.spec (B.store engine.new.bank)) }
        ensures begins { IfOk result (λ r. IfSome (slice_get engine.old.spec.terms i)
            (λ t. rest_of engine.old.spec (B.store engine.new.bank) r
            ≡ Trace engine.old.spec n t)) }
        ensures whole { IfOk result (λ r. IfSome (slice_get engine.old.spec.terms i)
            (λ t. whole_of engine.old.spec (B.store engine.new.bank) r ≡ tree_of t)) }
        ensures room { RoomOnlyIfFull (B.store engine.new.bank) engine.new.memo result }
    {
        let letters = &engine.checked().terms()[i as usize];
        let steps = ground_steps(alloc, letters)?;
        let saved = Saved::none(engine)?;
        Ok(Tracer::new(alloc, Row::of_steps(alloc, steps), saved, n))
    }

    /// Starts the trace of an input term in postfix form, with a limit of `n` steps. `term_letters`
    /// returns this form of a term that `check_terms` accepts.
    pub fn of_given<B: TermBank>(
        alloc: Global,
        engine: &mut Engine<B>,
        letters: &[Letter],
        n: u64,
    ) -> Result<Tracer, EngineFault>
        requires { (u : Tree) × Spells engine.old.spec letters.now u }
        ensures same { SameEngine engine.old engine.new }
        ensures stands { IfOk result (Stands engine.old.spec (B.store engine.new.bank)) }
        ensures begins { IfOk result (λ r. (u : Tree) → Spells engine.old.spec letters.now u
            → rest_of engine.old.spec (B.store engine.new.bank) r
            ≡ Trace engine.old.spec n (term_of u)) }
        ensures whole { IfOk result (λ r. (u : Tree) → Spells engine.old.spec letters.now u
            → whole_of engine.old.spec (B.store engine.new.bank) r ≡ tree_of (term_of u)) }
        ensures room { RoomOnlyIfFull (B.store engine.new.bank) engine.new.memo result }
    {
        let _kept = engine.checked().syntax();
        let steps = ground_steps(alloc, letters)?;
        let saved = Saved::none(engine)?;
        Ok(Tracer::new(alloc, Row::of_steps(alloc, steps), saved, n))
    }
}
