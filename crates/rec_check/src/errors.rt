//! All errors of a specification that was read.

ghost use Rattle.std.specs.Prelude.{◌++◌, IfOk, OnOk};
ghost use Rattle.rec_check.specs.Errors.{AreErrors, errors, errors_of};
ghost use Rattle.rec_check.specs.Findings.{HasSame, as_diagnostics};

use crate::broken::judged_words;
use crate::finding::{Diagnostic, Kind, Rule};
use crate::order::{Reported, push_found, reported_first};
use rec_syntax::Syntax;
use std::alloc::{AllocError, Global};

/// Returns all errors of a specification: the reported one, then the others in the order of the
/// text.
pub(crate) fn errors(
    alloc: Global,
    syntax: &Syntax,
    reported: Reported,
) -> Result<Vec<Diagnostic>, AllocError>
    ensures { IfOk result (λ v. AreErrors syntax.now.spec
        (record { number = reported.number; at = reported.at }) (as_diagnostics v.items)) }
{
    let found = all_errors(alloc, syntax)?;
    reported_first(found, reported)
}

/// Returns the errors by each rule, in the order of the rules.
fn all_errors(alloc: Global, syntax: &Syntax) -> Result<Vec<Diagnostic>, AllocError>
    ensures { IfOk result (λ v. HasSame (errors syntax.now.spec) (as_diagnostics v.items)) }
{
    let rules = [
        Rule::SortTwice,
        Rule::SymbolTwice,
        Rule::VariableTaken,
        Rule::SortUnknown,
        Rule::WordUnknown,
        Rule::IllFilled,
        Rule::IllSorted,
        Rule::IllHeaded,
        Rule::UnlikeSides,
        Rule::Unbound,
        Rule::OpenTerm,
    ];
    let mut found = Vec::new(alloc);
    for rule in &rules {
        push_errors(alloc, syntax, *rule, &mut found)?;
    }
    Ok(found)
}

/// Appends the errors by one rule.
fn push_errors(
    alloc: Global,
    syntax: &Syntax,
    rule: Rule,
    found: &mut Vec<Diagnostic>,
) -> Result<(), AllocError>
    ensures { OnOk result (HasSame
        (as_diagnostics found.old.items ++ errors_of syntax.now.spec rule)
        (as_diagnostics found.new.items)) }
{
    let words = judged_words(alloc, syntax, rule)?;
    push_found(Kind::Broken(rule), &words, found)
}
