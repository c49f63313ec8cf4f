//! Builds the tree of a row: symbols are applied, and none is called.

ghost use Rattle.std.specs.Prelude.{◌≡◌, ◌+◌, IfOk, OnOk, Some, length, true, vec_len, IfErr};
ghost use Rattle.rx_term.specs.Store.{tree_at};
ghost use Rattle.rec_sorts.specs.Evaluation.{Done};
ghost use Rattle.rec_trace.specs.Inner.Calls.{Builds};
ghost use Rattle.rec_trace.specs.Inner.Turns.{CanTurn, Moves};
ghost use Rattle.rec_trace.specs.Rows.{IsRow, moves_in, stack_in};
ghost use Rattle.rec_trace.specs.States.{Fits, written};
ghost use Rattle.rec_engine.specs.declared.engine.errors.EngineFault.TheVariants.{Memory};

use crate::row::{Row, Step};
use rec_engine::{Engine, EngineFault};
use rx_term::{Term, TermBank};
use std::alloc::Global;

impl Row {
    /// Returns a copy of the row.
    pub(crate) fn copy(&self, alloc: Global) -> Result<Row, EngineFault>
        ensures steps { IfOk result (λ r. r.steps.items ≡ self.now.steps.items) }
        ensures values { IfOk result (λ r. r.values.items ≡ self.now.values.items) }
        ensures memory { IfErr result (λ e. e ≡ Memory) }
    {
        let Ok(steps) = Vec::from_slice(alloc, &self.steps) else {
            return Err(EngineFault::Memory);
        };
        match Vec::from_slice(alloc, &self.values) {
            Ok(values) => Ok(Row {
                steps,
                values,
                low: self.low,
            }),
            Err(_) => Err(EngineFault::Memory),
        }
    }

    /// Executes the next operation, which applies a symbol and does not call it.
    fn write_step<B: TermBank>(&mut self, engine: &mut Engine<B>) -> Result<(), EngineFault>
        requires row { IsRow engine.old.spec (B.store engine.old.bank) self.old }
        requires can { CanTurn (moves_in engine.old.spec (B.store engine.old.bank) self.old)
            (length (stack_in (B.store engine.old.bank) self.old)) }
        ensures builds { Builds B.store engine.old engine.new result }
        ensures steps { vec_len self.new.steps + 1 ≡ vec_len self.old.steps }
        ensures row { OnOk result (IsRow engine.old.spec (B.store engine.new.bank) self.new) }
        ensures moves { OnOk result (Moves (λ n u. Done u n) 0 0
            (moves_in engine.old.spec (B.store engine.old.bank) self.old)
            (stack_in (B.store engine.old.bank) self.old)
            (moves_in engine.old.spec (B.store engine.new.bank) self.new)
            (stack_in (B.store engine.new.bank) self.new) true) }
    {
        let Some(step) = self.steps.pop() else {
            unreachable!()
        };
        match step {
            Step::Give(value) => self.give(value),
            Step::GiveLast { value, at } => self.give_last(value, at),
            Step::Invoke { symbol, count } => self.apply(engine, symbol, count),
        }
    }

    /// Executes all operations without a call, and returns the tree that they build.
    pub(crate) fn write<B: TermBank>(&mut self, engine: &mut Engine<B>) -> Result<Term, EngineFault>
        requires row { IsRow engine.old.spec (B.store engine.old.bank) self.old }
        requires fits { Fits (moves_in engine.old.spec (B.store engine.old.bank) self.old)
            (length (stack_in (B.store engine.old.bank) self.old)) 1 }
        ensures builds { Builds B.store engine.old engine.new result }
        ensures written { IfOk result (λ t. tree_at (B.store engine.new.bank) t
            ≡ Some (written (moves_in engine.old.spec (B.store engine.old.bank) self.old)
            (stack_in (B.store engine.old.bank) self.old))) }
    {
        'steps: while self.steps.len() > 0 {
            self.write_step(engine)?;
        }
        Ok(self.top())
    }
}
