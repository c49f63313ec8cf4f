//! The warnings for a well-formed specification.

ghost use Rattle.std.specs.Prelude.{◌≡◌, ◌++◌, [], IfOk, OnOk};
ghost use Rattle.rec_check.specs.Findings.{
  AreInOrder,
  as_diagnostics,
  found_at,
  never_tried,
  unused,
  unused_sorts,
  unused_symbols,
  unused_variables,
  warnings,
  without_rules,
};
ghost use Rattle.rec_check.specs.Inner.Inside.{never_matching_inside};

use crate::finding::{Diagnostic, Kind};
use crate::matching::Values;
use crate::order::{in_order, push_found};
use crate::rewriting::Rewriter;
use crate::unused::{ruleless, unused_sorts, unused_symbols, unused_variables};
use rec_sorts::Checked;
use rec_syntax::Syntax;
use std::alloc::{AllocError, Global};

/// Appends the unreachable rules and the rules that cannot match.
fn push_rewritten(
    alloc: Global,
    checked: &Checked,
    found: &mut Vec<Diagnostic>,
) -> Result<(), AllocError>
    ensures { OnOk result (as_diagnostics found.new.items ≡ as_diagnostics found.old.items
        ++ never_tried checked.now.source checked.now.spec [] checked.now.spec.rules
        ++ never_matching_inside checked.now.source checked.now.spec) }
{
    let rewriter = Rewriter::of(alloc, checked)?;
    let mut values = Values::new(alloc);
    rewriter.push_never_tried(alloc, &mut values, found)?;
    rewriter.push_never_matching(alloc, &mut values, found)
}

/// Appends the unused sorts.
fn push_unused_sorts(
    alloc: Global,
    syntax: &Syntax,
    found: &mut Vec<Diagnostic>,
) -> Result<(), AllocError>
    ensures { OnOk result (as_diagnostics found.new.items ≡ as_diagnostics found.old.items
        ++ found_at Kind.UnusedSort (unused_sorts syntax.now.spec)) }
{
    let sorts = unused_sorts(alloc, syntax)?;
    push_found(Kind::UnusedSort, &sorts, found)
}

/// Appends the unused symbols.
fn push_unused_symbols(
    alloc: Global,
    syntax: &Syntax,
    found: &mut Vec<Diagnostic>,
) -> Result<(), AllocError>
    ensures { OnOk result (as_diagnostics found.new.items ≡ as_diagnostics found.old.items
        ++ found_at Kind.UnusedSymbol (unused_symbols syntax.now.spec)) }
{
    let symbols = unused_symbols(alloc, syntax)?;
    push_found(Kind::UnusedSymbol, &symbols, found)
}

/// Appends the unused variables.
fn push_unused_variables(
    alloc: Global,
    syntax: &Syntax,
    found: &mut Vec<Diagnostic>,
) -> Result<(), AllocError>
    ensures { OnOk result (as_diagnostics found.new.items ≡ as_diagnostics found.old.items
        ++ found_at Kind.UnusedVariable (unused_variables syntax.now.spec)) }
{
    let variables = unused_variables(alloc, syntax)?;
    push_found(Kind::UnusedVariable, &variables, found)
}

/// Appends the unused declarations.
fn push_unused(
    alloc: Global,
    syntax: &Syntax,
    found: &mut Vec<Diagnostic>,
) -> Result<(), AllocError>
    ensures { OnOk result
        (as_diagnostics found.new.items ≡ as_diagnostics found.old.items ++ unused syntax.now.spec) }
{
    push_unused_sorts(alloc, syntax, found)?;
    push_unused_symbols(alloc, syntax, found)?;
    push_unused_variables(alloc, syntax, found)
}

/// Appends the used operators without rules.
fn push_without_rules(
    alloc: Global,
    syntax: &Syntax,
    found: &mut Vec<Diagnostic>,
) -> Result<(), AllocError>
    ensures { OnOk result (as_diagnostics found.new.items
        ≡ as_diagnostics found.old.items ++ without_rules syntax.now.spec) }
{
    let operators = ruleless(alloc, syntax)?;
    push_found(Kind::WithoutRules, &operators, found)
}

/// Appends the unused declarations and the used operators without rules.
fn push_declarations(
    alloc: Global,
    syntax: &Syntax,
    found: &mut Vec<Diagnostic>,
) -> Result<(), AllocError>
    ensures { OnOk result (as_diagnostics found.new.items
        ≡ as_diagnostics found.old.items ++ (unused syntax.now.spec ++ without_rules syntax.now.spec)) }
{
    push_unused(alloc, syntax, found)?;
    push_without_rules(alloc, syntax, found)
}

/// Returns the warnings for a well-formed specification, with these missing cases, in the order of
/// the text.
pub fn warnings(
    alloc: Global,
    checked: &Checked,
    mut missing: Vec<Diagnostic>,
) -> Result<Vec<Diagnostic>, AllocError>
    ensures { IfOk result (λ v. AreInOrder
        (warnings checked.now.source checked.now.spec ++ as_diagnostics missing.items)
        (as_diagnostics v.items)) }
{
    let mut found = Vec::new(alloc);
    push_rewritten(alloc, checked, &mut found)?;
    push_declarations(alloc, checked.syntax(), &mut found)?;
    found.append(&mut missing)?;
    in_order(found)
}
