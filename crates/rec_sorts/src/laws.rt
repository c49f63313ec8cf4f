//! Properties of matching, evaluation, rewriting and the rules of input terms. They follow from the
//! definitions alone; the functions do nothing.

ghost use Rattle.rec_sorts.specs.Laws.{BindingLaw, OneEvaluator, CostLaw, RewritingLaw, BuiltLaw};
ghost use Rattle.rec_sorts.specs.Laws.{ElementLaw};

/// At most one substitution of its variables makes a left-hand side equal to a given tree.
pub fn binding_law()
    ensures { BindingLaw }
{}

/// Evaluation satisfies its equations, and no other function does.
pub fn one_evaluator()
    ensures { OneEvaluator }
{}

/// Each normal form has one cost, which does not depend on the step limit.
pub fn cost_law()
    ensures { CostLaw }
{}

/// The result of an evaluation is reached by innermost rewriting, and is a normal form.
pub fn rewriting_law()
    ensures { RewritingLaw }
{}

/// A constructor term evaluates to itself, in no steps.
pub fn built_law()
    ensures { BuiltLaw }
{}

/// If input terms violate a rule, one of them violates it on its own.
pub fn element_law()
    ensures { ElementLaw }
{}
