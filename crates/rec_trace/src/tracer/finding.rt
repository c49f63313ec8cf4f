//! Finds the rule that applies: matching rules, and their conditions.

ghost use Rattle.std.specs.Prelude.{◌≡◌, ◌<◌, ◌∷◌, ◌+◌, [], ℕ, true, IfOk, Some, drop, get_or, IfErr};
ghost use Rattle.std.specs.Prelude.{◌-◌, length, reverse, slice_get};
ghost use Rattle.std.specs.Bool.{beq};
ghost use Rattle.rx_term.specs.Tree.{list_of, none, tree_eq};
ghost use Rattle.rec_syntax.specs.Syntax.{Rule};
ghost use Rattle.rec_sorts.specs.Binding.{Substitution, next_match};
ghost use Rattle.rec_sorts.specs.Evaluation.{Eval, Holds, first_rule};
ghost use Rattle.rec_trace.specs.Inner.Calls.{Relists};
ghost use Rattle.rec_trace.specs.Rows.{IsClear, reach_of};
ghost use Rattle.rec_trace.specs.Inner.Sides.{IsMatch, no_condition};
ghost use Rattle.rec_trace.specs.Inner.Turns.{HasCondition, HasTop, IsBound, number_of};
ghost use Rattle.rec_trace.specs.Tracing.{AreAnswered, IsFound, IsInOrder, moves_at, on_top};
ghost use Rattle.rec_trace.specs.Tracing.{stack_at};
ghost use Rattle.rec_trace.specs.declared.tracer.Found.TheVariants as found;
ghost use Rattle.rec_engine.specs.declared.engine.errors.EngineFault.TheVariants.{Memory};

use crate::sides::Side;
use crate::tracer::{Found, Tracer};
use rec_engine::{Engine, EngineFault};
use rx_term::TermBank;

impl Tracer {
    /// Evaluates a condition of a rule that matches the tree on top. Returns whether it holds, or
    /// `None` if more steps are needed than are left.
    fn condition<B: TermBank>(
        &mut self,
        engine: &mut Engine<B>,
        rule: u32,
        i: usize,
    ) -> Result<Option<bool>, EngineFault>
        requires top { HasTop engine.old.spec (B.store engine.old.bank) self.old }
        requires can { HasCondition engine.old.spec (stack_at (B.store engine.old.bank) self.old)
            rule i }
        ensures relists { Relists B.store engine.old engine.new self.old.saved.list
            self.new.saved.list result }
        ensures answers { IfOk result (λ answer. (r : Rule) (s : Substitution)
            → IsMatch engine.old.spec rule
            (on_top (stack_at (B.store engine.old.bank) self.old)) r s
            → AreAnswered engine.old.spec (B.store engine.old.bank) (B.store engine.new.bank)
            self.old self.new (Holds engine.old.spec self.old.left s
            (get_or r.conditions i no_condition ∷ [])) answer) }
    {
        let redex = self.row.top();
        if !self.side(engine, rule, Side::Left(i), redex)? {
            return Ok(None);
        }
        let redex = self.row.values[self.row.values.len() - 2];
        if !self.side(engine, rule, Side::Right(i), redex)? {
            return Ok(None);
        }
        Ok(Some(self.compare(engine, rule, i)))
    }

    /// Removes the two values on top. Returns whether they are equal or different as the condition
    /// demands.
    fn compare<B: TermBank>(&mut self, engine: &Engine<B>, rule: u32, i: usize) -> bool
        requires order { IsInOrder engine.now.spec (B.store engine.now.bank) self.old }
        requires two { 1 < reach_of self.old.row }
        requires clear { IsClear (reverse self.old.row.steps.items)
            (length self.old.row.values.items - 2) }
        requires can { (r : Rule) × (slice_get engine.now.spec.rules rule ≡ Some r)
            × (i < length r.conditions) }
        ensures left { self.new.left ≡ self.old.left }
        ensures saved { self.new.saved ≡ self.old.saved }
        ensures order { IsInOrder engine.now.spec (B.store engine.now.bank) self.new }
        ensures moves { moves_at engine.now.spec (B.store engine.now.bank) self.new
            ≡ moves_at engine.now.spec (B.store engine.now.bank) self.old }
        ensures stack { stack_at (B.store engine.now.bank) self.new
            ≡ drop 2 (stack_at (B.store engine.now.bank) self.old) }
        ensures steps { self.new.row.steps ≡ self.old.row.steps }
        ensures long { length self.new.row.values.items + 2
            ≡ length self.old.row.values.items }
        ensures answer { (r : Rule) → slice_get engine.now.spec.rules rule ≡ Some r
            → result ≡ beq (tree_eq
            (get_or (stack_at (B.store engine.now.bank) self.old) 1 (list_of none))
            (get_or (stack_at (B.store engine.now.bank) self.old) 0 (list_of none)))
            (get_or r.conditions i no_condition).equal }
    {
        let equal = engine.checked().rules()[rule as usize].conditions[i].equal;
        let at = self.row.values.len() - 2;
        let same = self.row.values[at].0 == self.row.values[at + 1].0;
        self.row.cut(at);
        same == equal
    }

    /// Evaluates the conditions of a rule that matches the tree on top. Returns whether they hold,
    /// or `None` if more steps are needed than are left.
    fn conditions<B: TermBank>(
        &mut self,
        engine: &mut Engine<B>,
        rule: u32,
    ) -> Result<Option<bool>, EngineFault>
        requires top { HasTop engine.old.spec (B.store engine.old.bank) self.old }
        requires can { (r : Rule) × (s : Substitution) × IsMatch engine.old.spec rule
            (on_top (stack_at (B.store engine.old.bank) self.old)) r s }
        ensures relists { Relists B.store engine.old engine.new self.old.saved.list
            self.new.saved.list result }
        ensures answers { IfOk result (λ answer. (r : Rule) (s : Substitution)
            → IsMatch engine.old.spec rule
            (on_top (stack_at (B.store engine.old.bank) self.old)) r s
            → AreAnswered engine.old.spec (B.store engine.old.bank) (B.store engine.new.bank)
            self.old self.new (Holds engine.old.spec self.old.left s r.conditions) answer) }
    {
        let count = engine.checked().rules()[rule as usize].conditions.len();
        for i in 0..count {
            match self.condition(engine, rule, i)? {
                Some(true) => {}
                Some(false) => return Ok(Some(false)),
                None => return Ok(None),
            }
        }
        Ok(Some(true))
    }

    /// Evaluates the conditions of a rule that matches the tree on top with the values found last.
    /// Returns whether they hold, or `None` if more steps are needed than are left. If they hold,
    /// these are still the values.
    fn try_rule<B: TermBank>(
        &mut self,
        engine: &mut Engine<B>,
        rule: u32,
    ) -> Result<Option<bool>, EngineFault>
        requires top { HasTop engine.old.spec (B.store engine.old.bank) self.old }
        requires can { (r : Rule) × (s : Substitution) × IsMatch engine.old.spec rule
            (on_top (stack_at (B.store engine.old.bank) self.old)) r s }
        requires bound { IsBound engine.old.spec (B.store engine.old.bank) self.old rule
            self.old.bind.items }
        ensures relists { Relists B.store engine.old engine.new self.old.saved.list
            self.new.saved.list result }
        ensures answers { IfOk result (λ answer. (r : Rule) (s : Substitution)
            → IsMatch engine.old.spec rule
            (on_top (stack_at (B.store engine.old.bank) self.old)) r s
            → AreAnswered engine.old.spec (B.store engine.old.bank) (B.store engine.new.bank)
            self.old self.new (Holds engine.old.spec self.old.left s r.conditions) answer) }
        ensures bound { IfOk result (λ answer. answer ≡ Some true
            → IsBound engine.old.spec (B.store engine.new.bank) self.new rule self.new.bind.items) }
    {
        if engine.checked().rules()[rule as usize].conditions.len() == 0 {
            return Ok(Some(true));
        }
        match self.conditions(engine, rule)? {
            // The evaluation may have freed the values, so they are found once more.
            Some(true) => {
                let _same = self.next_rule(engine, rule)?;
                Ok(Some(true))
            }
            Some(false) => Ok(Some(false)),
            None => Ok(None),
        }
    }

    /// Finds the first rule from number `from` on that matches the tree on top, and its values.
    pub(super) fn next_rule<B: TermBank>(
        &mut self,
        engine: &Engine<B>,
        from: u32,
    ) -> Result<Option<u32>, EngineFault>
        requires top { HasTop engine.now.spec (B.store engine.now.bank) self.old }
        ensures row { self.new.row ≡ self.old.row }
        ensures saved { self.new.saved ≡ self.old.saved }
        ensures left { self.new.left ≡ self.old.left }
        ensures found { IfOk result (λ found. number_of (next_match engine.now.spec from
            (on_top (stack_at (B.store engine.now.bank) self.old))) ≡ found) }
        ensures bound { IfOk result (λ found. (i : ℕ) → found ≡ Some i
            → IsBound engine.now.spec (B.store engine.now.bank) self.new i self.new.bind.items) }
        ensures memory { IfErr result (λ e. e ≡ Memory) }
    {
        let redex = self.row.top();
        let found = engine
            .matcher()
            .next_on(engine.bank(), redex, from, &mut self.work, &mut self.bind);
        match found {
            Ok(rule) => Ok(rule),
            Err(_) => Err(EngineFault::Memory),
        }
    }

    /// Finds the rule that applies to the tree on top, and its values.
    pub(super) fn find<B: TermBank>(&mut self, engine: &mut Engine<B>) -> Result<Found, EngineFault>
        requires top { HasTop engine.old.spec (B.store engine.old.bank) self.old }
        ensures relists { Relists B.store engine.old engine.new self.old.saved.list
            self.new.saved.list result }
        ensures found { IfOk result (IsFound engine.old.spec (B.store engine.old.bank)
            (B.store engine.new.bank) self.old self.new
            (first_rule engine.old.spec (Eval engine.old.spec) engine.old.spec.rules self.old.left
            (on_top (stack_at (B.store engine.old.bank) self.old)))) }
        ensures bound { IfOk result (λ f. (i : ℕ) → f ≡ found.Rule i
            → IsBound engine.old.spec (B.store engine.new.bank) self.new i self.new.bind.items) }
    {
        let mut from = 0;
        'rules: while let Some(rule) = self.next_rule(engine, from)? {
            if self.left == 0 {
                return Ok(Found::Limit);
            }
            self.left -= 1;
            match self.try_rule(engine, rule)? {
                Some(true) => return Ok(Found::Rule(rule)),
                Some(false) => from = self.after(engine, rule),
                None => return Ok(Found::Limit),
            }
        }
        Ok(Found::Nothing)
    }

    /// Returns the number of the rule after a rule.
    fn after<B: TermBank>(&self, engine: &Engine<B>, rule: u32) -> u32
        requires { rule < length engine.now.spec.rules }
        ensures { result ≡ rule + 1 }
    {
        let _later = engine.matcher().sides[rule as usize].next;
        rule + 1
    }
}
