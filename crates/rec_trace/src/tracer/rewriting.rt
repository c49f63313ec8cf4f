//! Builds contracta and whole terms, in rows other than the tracer's own.

ghost use Rattle.std.specs.Prelude.{◌≡◌, IfOk, Some};
ghost use Rattle.rx_term.specs.Tree.{Tree};
ghost use Rattle.rx_term.specs.Store.{tree_at};
ghost use Rattle.rec_engine.specs.Engine.{SameEngine};
ghost use Rattle.rec_trace.specs.Inner.Calls.{Builds};
ghost use Rattle.rec_trace.specs.Lists.{Stays};
ghost use Rattle.rec_trace.specs.Tracing.{Rewrites, Stands, rest_of, whole_of};
ghost use Rattle.rec_trace.specs.Faults.{RoomOnlyIfFull};

use crate::row::Row;
use crate::sides::Side;
use crate::tracer::Tracer;
use rec_engine::{Engine, EngineFault};
use rx_term::{Term, TermBank};
use std::alloc::Global;

/// A redex, and the contractum that replaces it.
#[derive(Clone, Copy, Drop)]
pub struct Rewrite {
    /// The subterm to which a rule applies.
    pub redex: Term,
    /// The instance of the rule's right-hand side.
    pub contractum: Term,
}

impl Tracer {
    /// Builds the contractum of a redex by the rule with this number. The engine's next call may
    /// free both terms. Each call builds the contractum anew.
    ///
    /// Errors are those of [`Tracer::next_step`].
    pub fn rewrite<B: TermBank>(
        &mut self,
        alloc: Global,
        engine: &mut Engine<B>,
        rule: u32,
        redex: Term,
    ) -> Result<Rewrite, EngineFault>
        requires stands { Stands engine.old.spec (B.store engine.old.bank) self.old }
        requires redex { (u : Tree) × (v : Tree)
            × (tree_at (B.store engine.old.bank) redex ≡ Some u)
            × Rewrites engine.old.spec rule u v }
        ensures same { SameEngine engine.old engine.new }
        ensures spares { Stays (B.store engine.old.bank) (B.store engine.new.bank)
            self.old.saved.list self.new.saved.list }
        ensures left { self.new.left ≡ self.old.left }
        ensures stands { Stands engine.old.spec (B.store engine.new.bank) self.new }
        ensures rest { rest_of engine.old.spec (B.store engine.new.bank) self.new
            ≡ rest_of engine.old.spec (B.store engine.old.bank) self.old }
        ensures whole { whole_of engine.old.spec (B.store engine.new.bank) self.new
            ≡ whole_of engine.old.spec (B.store engine.old.bank) self.old }
        ensures redex { IfOk result (λ made. tree_at (B.store engine.new.bank) made.redex
            ≡ tree_at (B.store engine.old.bank) redex) }
        ensures contractum { IfOk result (λ made. (u v : Tree)
            → tree_at (B.store engine.old.bank) redex ≡ Some u → Rewrites engine.old.spec rule u v
            → tree_at (B.store engine.new.bank) made.contractum ≡ Some v) }
        ensures room { RoomOnlyIfFull (B.store engine.new.bank) engine.new.memo result }
    {
        // the list keeps the redex, as it keeps all values
        let count = self.row.values.len();
        self.row.give(redex)?;
        self.saved.save_all(engine, &mut self.row, count)?;
        let contractum = self.write_contractum(alloc, engine, rule, redex)?;
        Ok(Rewrite { redex, contractum })
    }

    /// Builds the contractum of a redex by the rule with this number.
    fn write_contractum<B: TermBank>(
        &mut self,
        alloc: Global,
        engine: &mut Engine<B>,
        rule: u32,
        redex: Term,
    ) -> Result<Term, EngineFault>
        requires redex { (u : Tree) × (v : Tree)
            × (tree_at (B.store engine.old.bank) redex ≡ Some u)
            × Rewrites engine.old.spec rule u v }
        ensures builds { Builds B.store engine.old engine.new result }
        ensures row { self.new.row ≡ self.old.row }
        ensures saved { self.new.saved ≡ self.old.saved }
        ensures left { self.new.left ≡ self.old.left }
        ensures contractum { IfOk result (λ t. (u v : Tree)
            → tree_at (B.store engine.old.bank) redex ≡ Some u → Rewrites engine.old.spec rule u v
            → tree_at (B.store engine.new.bank) t ≡ Some v) }
    {
        let mut apart = Row::of_steps(alloc, Vec::new(alloc));
        apart.give(redex)?;
        let found = engine
            .matcher()
            .next_on(engine.bank(), redex, rule, &mut self.work, &mut self.bind);
        match found {
            Ok(_) => {}
            Err(_) => return Err(EngineFault::Memory),
        }
        apart.spread(engine, rule, Side::Contractum, &self.bind)?;
        apart.write(engine)
    }

    /// Builds the whole term. The engine's next call may free it. Each call builds it anew.
    ///
    /// Errors are those of [`Tracer::next_step`].
    pub fn whole<B: TermBank>(
        &mut self,
        alloc: Global,
        engine: &mut Engine<B>,
    ) -> Result<Term, EngineFault>
        requires { Stands engine.old.spec (B.store engine.old.bank) self.old }
        ensures same { SameEngine engine.old engine.new }
        ensures spares { Stays (B.store engine.old.bank) (B.store engine.new.bank)
            self.old.saved.list self.new.saved.list }
        ensures left { self.new.left ≡ self.old.left }
        ensures stands { Stands engine.old.spec (B.store engine.new.bank) self.new }
        ensures rest { rest_of engine.old.spec (B.store engine.new.bank) self.new
            ≡ rest_of engine.old.spec (B.store engine.old.bank) self.old }
        ensures whole { IfOk result (λ t. tree_at (B.store engine.new.bank) t
            ≡ Some (whole_of engine.old.spec (B.store engine.old.bank) self.old)) }
        ensures room { RoomOnlyIfFull (B.store engine.new.bank) engine.new.memo result }
    {
        let count = self.row.values.len();
        self.saved.save_all(engine, &mut self.row, count)?;
        let mut copy = self.row.copy(alloc)?;
        copy.write(engine)
    }
}
