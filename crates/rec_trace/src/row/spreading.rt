//! Converts the sides of rules to operations.

ghost use Rattle.std.specs.Prelude.{◌≡◌, OnOk, IfOk, if◌then◌else◌, length, take, IfErr};
ghost use Rattle.rec_syntax.specs.Syntax.{Rule};
ghost use Rattle.rec_sorts.specs.Binding.{Substitution};
ghost use Rattle.rec_trace.specs.Inner.Sides.{HasSide, HasValues, IsMatch, IsRead, side_of};
ghost use Rattle.rec_trace.specs.Inner.Spreading.{CanPush, CanSpread, HasSpread, PushesLetter};
ghost use Rattle.rec_trace.specs.Inner.Spreading.{top_of};
ghost use Rattle.rec_trace.specs.Rows.{IsRow, Lowers};
ghost use Rattle.rec_trace.specs.States.{moves};
ghost use Rattle.rec_trace.specs.declared.row.Step.TheVariants as step;
ghost use Rattle.rx_term.specs.Walks.{held_tree};
ghost use Rattle.rec_engine.specs.declared.engine.errors.EngineFault.TheVariants.{Memory};

use crate::row::{Row, Step};
use crate::sides::{Side, binding, letters_of};
use rec_engine::{Engine, EngineFault};
use rec_sorts::{Letter, Meaning};
use rx_term::{Term, TermBank};

/// Returns the operation that pushes a part of the tree at index `at`. The last of these operations
/// is added first, and removes the tree.
fn giving(value: Term, at: usize, pushed: bool) -> Step
    ensures { result ≡ (if pushed then step.Give value else step.GiveLast value at) }
{
    if pushed {
        Step::Give(value)
    } else {
        Step::GiveLast { value, at }
    }
}

impl Row {
    /// Adds the operation of a postfix item. `pushed`, and the result, is whether an operation that
    /// pushes a part of the tree on top has been added.
    fn push_letter<B: TermBank>(
        &mut self,
        engine: &Engine<B>,
        rule: u32,
        letter: Letter,
        bind: &[Term],
        pushed: bool,
    ) -> Result<bool, EngineFault>
        requires can { CanPush engine.now.spec (B.store engine.now.bank) self.old rule bind.now
            (λ r. IsRead engine.now.spec r letter) }
        ensures values { self.new.values ≡ self.old.values }
        ensures low { self.new.low ≡ self.old.low }
        ensures pushed { IfOk result (PushesLetter engine.now.spec (B.store engine.now.bank)
            self.old self.new rule letter bind.now pushed) }
        ensures memory { IfErr result (λ e. e ≡ Memory) }
    {
        match letter.meaning {
            Meaning::Variable(variable) => {
                let whole = self.top();
                let value = binding(engine, rule, variable, whole, bind);
                let at = self.values.len() - 1;
                self.push(giving(value, at, pushed))?;
                Ok(true)
            }
            Meaning::Symbol(symbol) => {
                self.push(Step::Invoke {
                    symbol,
                    count: letter.count,
                })?;
                Ok(pushed)
            }
        }
    }

    /// Adds the operations of a side of a rule. The rule matches the tree on top with these values.
    /// This tree does not count as a value any more; it is removed at once if none of its parts is
    /// pushed.
    pub(crate) fn spread<B: TermBank>(
        &mut self,
        engine: &Engine<B>,
        rule: u32,
        side: Side,
        bind: &[Term],
    ) -> Result<(), EngineFault>
        requires row { IsRow engine.now.spec (B.store engine.now.bank) self.old }
        requires can { CanSpread engine.now.spec (B.store engine.now.bank) self.old rule bind.now
            (λ r. HasSide r side) }
        ensures spread { OnOk result ((r : Rule) (s : Substitution)
            → IsMatch engine.now.spec rule (held_tree (B.store engine.now.bank) (top_of self.old))
            r s → HasValues (B.store engine.now.bank) (top_of self.old) bind.now s
            → HasSpread engine.now.spec (B.store engine.now.bank) self.old self.new
            (moves s (side_of r side))) }
        ensures steps { OnOk result (take (length self.old.steps.items) self.new.steps.items
            ≡ self.old.steps.items) }
        ensures low { OnOk result (Lowers self.old self.new) }
        ensures memory { IfErr result (λ e. e ≡ Memory) }
    {
        let letters = letters_of(engine.checked(), rule, side);
        let mut pushed = false;
        let mut at = letters.len();
        'letters: while at > 0 {
            at -= 1;
            pushed = self.push_letter(engine, rule, letters[at], bind, pushed)?;
        }
        if !pushed {
            let rest = self.values.len() - 1;
            self.cut(rest);
        }
        Ok(())
    }
}
