//! Executes operations with calls, to evaluate the sides of conditions.

ghost use Rattle.std.specs.Prelude.{◌≡◌, ◌≤◌, ◌-◌, None, IfOk, OnOk, length};
ghost use Rattle.std.specs.Prelude.{take, true, vec_len};
ghost use Rattle.rx_term.specs.Walks.{held_tree};
ghost use Rattle.rec_syntax.specs.Syntax.{Rule};
ghost use Rattle.rec_sorts.specs.Binding.{Substitution};
ghost use Rattle.rec_sorts.specs.Evaluation.{Call, evaluate};
ghost use Rattle.rec_sorts.specs.Numbering.{name_of};
ghost use Rattle.rec_sorts.specs.declared.letters.Meaning.TheVariants.{Symbol};
ghost use Rattle.rec_trace.specs.Inner.Calls.{Relists};
ghost use Rattle.rec_trace.specs.Inner.Sides.{IsMatch, side_of};
ghost use Rattle.rec_trace.specs.Inner.Turns.{CanCall, CanTake, CanTurn, HasCalled, HasRun, Turns};
ghost use Rattle.rec_trace.specs.States.{Fits};
ghost use Rattle.rec_trace.specs.Tracing.{Gives, IsInOrder, moves_at, stack_at};

use crate::row::Step;
use crate::sides::Side;
use crate::tracer::Tracer;
use rec_engine::{Engine, EngineFault, Limits, Outcome};
use rx_term::{Term, TermBank};

impl Tracer {
    /// Calls a symbol on the values on top, which its value replaces. Returns `false` if more steps
    /// are needed than are left.
    fn evaluate<B: TermBank>(
        &mut self,
        engine: &mut Engine<B>,
        symbol: u32,
        count: u32,
    ) -> Result<bool, EngineFault>
        requires can { CanCall engine.old.spec (B.store engine.old.bank) self.old symbol count }
        ensures relists { Relists B.store engine.old engine.new self.old.saved.list
            self.new.saved.list result }
        ensures steps { OnOk result (self.new.row.steps ≡ self.old.row.steps) }
        ensures comes { IfOk result (λ more. HasCalled engine.old.spec (B.store engine.old.bank)
            (B.store engine.new.bank) self.old self.new
            (name_of engine.old.spec (Symbol symbol)) count more) }
    {
        let at = self.row.values.len() - count as usize;
        self.saved.save(engine, &mut self.row, at)?;
        let values = &self.row.values[at..];
        let limits = Limits {
            steps: self.left,
            depth: None,
        };
        match engine.call(self.saved.list, symbol, values, limits)? {
            Outcome::Limit => Ok(false),
            Outcome::Value { term, steps } => {
                self.row.replace(at, term)?;
                self.left -= steps;
                Ok(true)
            }
        }
    }

    /// Executes the next operation of a row. Returns `false` if more steps are needed than are
    /// left.
    fn turn<B: TermBank>(&mut self, engine: &mut Engine<B>) -> Result<bool, EngineFault>
        requires order { IsInOrder engine.old.spec (B.store engine.old.bank) self.old }
        requires fits { CanTurn (moves_at engine.old.spec (B.store engine.old.bank) self.old)
            (length (stack_at (B.store engine.old.bank) self.old)) }
        ensures relists { Relists B.store engine.old engine.new self.old.saved.list
            self.new.saved.list result }
        ensures steps { OnOk result (self.new.row.steps.items
            ≡ take (length self.old.row.steps.items - 1) self.old.row.steps.items) }
        ensures turns { IfOk result (λ more. Turns (Call engine.old.spec) engine.old.spec
            (B.store engine.old.bank) (B.store engine.new.bank) self.old self.new more) }
    {
        let Some(step) = self.row.steps.pop() else {
            unreachable!()
        };
        match step {
            Step::Give(value) => {
                self.row.give(value)?;
                Ok(true)
            }
            Step::GiveLast { value, at } => {
                self.row.give_last(value, at)?;
                Ok(true)
            }
            Step::Invoke { symbol, count } => self.evaluate(engine, symbol, count),
        }
    }

    /// Executes the operations above the `floor` lowest. Returns `false` if more steps are needed
    /// than are left.
    fn run<B: TermBank>(
        &mut self,
        engine: &mut Engine<B>,
        floor: usize,
    ) -> Result<bool, EngineFault>
        requires order { IsInOrder engine.old.spec (B.store engine.old.bank) self.old }
        requires floor { floor ≤ vec_len self.old.row.steps }
        requires fits { Fits (take (vec_len self.old.row.steps - floor)
            (moves_at engine.old.spec (B.store engine.old.bank) self.old)) 0 1 }
        ensures relists { Relists B.store engine.old engine.new self.old.saved.list
            self.new.saved.list result }
        ensures gives { IfOk result (λ more. HasRun (Call engine.old.spec) engine.old.spec
            (B.store engine.old.bank) (B.store engine.new.bank) self.old self.new
            (vec_len self.old.row.steps - floor) more) }
        ensures steps { IfOk result (λ more. more ≡ true
            → self.new.row.steps.items ≡ take floor self.old.row.steps.items) }
    {
        'steps: while self.row.steps.len() > floor {
            if !self.turn(engine)? {
                return Ok(false);
            }
        }
        Ok(true)
    }

    /// Evaluates a side of a rule that matches a tree, and pushes the value. Returns `false` if
    /// more steps are needed than are left.
    pub(super) fn side<B: TermBank>(
        &mut self,
        engine: &mut Engine<B>,
        rule: u32,
        side: Side,
        redex: Term,
    ) -> Result<bool, EngineFault>
        requires order { IsInOrder engine.old.spec (B.store engine.old.bank) self.old }
        requires can { CanTake engine.old.spec (B.store engine.old.bank) rule side redex }
        ensures relists { Relists B.store engine.old engine.new self.old.saved.list
            self.new.saved.list result }
        ensures gives { IfOk result (λ more. (r : Rule) (s : Substitution)
            → IsMatch engine.old.spec rule (held_tree (B.store engine.old.bank) redex) r s
            → Gives engine.old.spec (B.store engine.old.bank) (B.store engine.new.bank) self.old
            self.new (evaluate (Call engine.old.spec) self.old.left s (side_of r side)) more) }
    {
        let floor = self.row.steps.len();
        self.row.give(redex)?;
        let _same = self.next_rule(engine, rule)?;
        self.row.spread(engine, rule, side, &self.bind)?;
        self.run(engine, floor)
    }
}
