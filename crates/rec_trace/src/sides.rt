//! The sides of rules in postfix form, and the values of their variables.

ghost use Rattle.std.specs.Prelude.{◌≡◌, ◌<◌, None, Some, Contains, length, slice_get, true};
ghost use Rattle.rx_term.specs.Tree.{Tree};
ghost use Rattle.rx_term.specs.Walks.{held_tree};
ghost use Rattle.rec_syntax.specs.Syntax.{Rule, subterms};
ghost use Rattle.rec_sorts.specs.Binding.{Substitution, value_of};
ghost use Rattle.rec_sorts.specs.Lookup.{mentions, variable_words};
ghost use Rattle.rec_sorts.specs.Numbering.{AreLetters, name_of};
ghost use Rattle.rec_sorts.specs.SpecRules.{fault, heads};
ghost use Rattle.rec_sorts.specs.declared.letters.Meaning.TheVariants.{Variable};
ghost use Rattle.rec_trace.specs.Inner.Sides.{HasSide, HasValues, IsMatch, IsRow, side_of};

use rec_engine::Engine;
use rec_sorts::{Checked, Letter};
use rx_term::{Term, TermBank};

/// A side of a rule: its right-hand side, or one of the condition with this number.
#[derive(Clone, Copy, Drop)]
pub(crate) enum Side {
    Contractum,
    Left(usize),
    Right(usize),
}

/// Returns the postfix items of a side of a rule, as the specification stores them.
pub(crate) fn letters_of(checked: &Checked, rule: u32, side: Side) -> &[Letter]
    requires { (r : Rule) × (slice_get checked.now.spec.rules rule ≡ Some r) × HasSide r side }
    ensures letters { (r : Rule) → slice_get checked.now.spec.rules rule ≡ Some r
        → IsRow checked.now.spec r result.now (side_of r side) }
    ensures kept { fault checked.now.spec ≡ None }
{
    let rules = checked.rules();
    let rule = &rules[rule as usize];
    match side {
        Side::Contractum => &rule.right,
        Side::Left(i) => &rule.conditions[i].left,
        Side::Right(i) => &rule.conditions[i].right,
    }
}

/// Returns the value of a variable of a rule that matches. `bind` has the values in the order in
/// which the variables first occur in the left-hand side.
pub(crate) fn binding<B: TermBank>(
    engine: &Engine<B>,
    rule: u32,
    variable: u32,
    whole: Term,
    bind: &[Term],
) -> Term
    requires { (r : Rule) × (s : Substitution) × (u : Tree)
        × IsMatch engine.now.spec rule u r s
        × HasValues (B.store engine.now.bank) whole bind.now s
        × (variable < length (variable_words engine.now.spec.variables))
        × (mentions (heads (subterms r.left)) (name_of engine.now.spec (Variable variable))
        ≡ true) }
    ensures value { (r : Rule) (s : Substitution) (u : Tree)
        → IsMatch engine.now.spec rule u r s
        → HasValues (B.store engine.now.bank) whole bind.now s
        → value_of s (name_of engine.now.spec (Variable variable))
        ≡ Some (held_tree (B.store engine.now.bank) result) }
    ensures among { Contains bind.now result }
{
    let variables = &engine.matcher().sides[rule as usize].variables;
    for (i, v) in variables.iter().enumerate() {
        if *v == variable {
            return bind[i];
        }
    }
    unreachable!()
}
