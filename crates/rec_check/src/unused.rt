//! Unused declarations, and used operators without rules.

ghost use Rattle.std.specs.Prelude.{◌≡◌, ◌++◌, IfOk, flat_map, map};
ghost use Rattle.rec_syntax.specs.Syntax.{head};
ghost use Rattle.rec_sorts.specs.Lookup.{names, symbols};
ghost use Rattle.rec_check.specs.Findings.{ruleless, unused_sorts, unused_symbols, unused_variables};
ghost use Rattle.rec_sorts.specs.SpecRules.{all_terms, heads, sorts_of};
ghost use Rattle.rec_check.specs.Lookups.{Knows, present};
ghost use Rattle.rec_check.specs.Named.{as_words};

use crate::broken::left_heads;
use crate::filters::{missing_words, present_words};
use crate::located::Word;
use crate::names::Names;
use crate::words::{all_words, named_sorts, operator_words, sort_words, symbol_words, variables};
use rec_syntax::Syntax;
use std::alloc::{AllocError, Global};

/// Returns the names of the sorts that declarations use.
fn named_sort_names<'a>(alloc: Global, syntax: &'a Syntax) -> Result<Names<'a>, AllocError>
    ensures { IfOk result (λ known. Knows known (flat_map sorts_of (symbols syntax.now.spec)
        ++ map (λ v. v.sort) syntax.now.spec.variables)) }
{
    let words = named_sorts(alloc, syntax)?;
    Names::of(alloc, &words)
}

/// Returns the sorts that neither a symbol nor a variable has.
pub fn unused_sorts<'a>(alloc: Global, syntax: &'a Syntax) -> Result<Vec<Word<'a>>, AllocError>
    ensures { IfOk result (λ v. as_words v.items ≡ unused_sorts syntax.now.spec) }
{
    let used = named_sort_names(alloc, syntax)?;
    let sorts = sort_words(alloc, syntax)?;
    missing_words(alloc, &used, &sorts)
}

/// Returns the names that occur in rules and in EVAL terms.
pub(crate) fn used_names<'a>(alloc: Global, syntax: &'a Syntax) -> Result<Names<'a>, AllocError>
    ensures { IfOk result (λ names. Knows names (heads (all_terms syntax.now.spec))) }
{
    let words = all_words(alloc, syntax)?;
    Names::of(alloc, &words)
}

/// Returns the symbols that occur in no rule and no EVAL term.
pub fn unused_symbols<'a>(alloc: Global, syntax: &'a Syntax) -> Result<Vec<Word<'a>>, AllocError>
    ensures { IfOk result (λ v. as_words v.items ≡ unused_symbols syntax.now.spec) }
{
    let used = used_names(alloc, syntax)?;
    let symbols = symbol_words(alloc, syntax)?;
    missing_words(alloc, &used, &symbols)
}

/// Returns the variables that occur in no rule and no EVAL term.
pub fn unused_variables<'a>(alloc: Global, syntax: &'a Syntax) -> Result<Vec<Word<'a>>, AllocError>
    ensures { IfOk result (λ v. as_words v.items ≡ unused_variables syntax.now.spec) }
{
    let used = used_names(alloc, syntax)?;
    let words = variables(alloc, syntax)?;
    missing_words(alloc, &used, &words)
}

/// Returns the operators that occur in rules or EVAL terms.
fn used_operators<'a>(alloc: Global, syntax: &'a Syntax) -> Result<Vec<Word<'a>>, AllocError>
    ensures { IfOk result (λ v. as_words v.items
        ≡ present (heads (all_terms syntax.now.spec)) (names syntax.now.spec.operators)) }
{
    let used = used_names(alloc, syntax)?;
    let operators = operator_words(alloc, syntax)?;
    present_words(alloc, &used, &operators)
}

/// Returns the names of the left-hand sides' symbols.
fn ruled_names<'a>(alloc: Global, syntax: &'a Syntax) -> Result<Names<'a>, AllocError>
    ensures { IfOk result (λ names. Knows names (map (λ r. head r.left) syntax.now.spec.rules)) }
{
    let heads = left_heads(alloc, syntax)?;
    Names::of(alloc, &heads)
}

/// Returns the operators that occur in rules or EVAL terms and have no rules.
pub fn ruleless<'a>(alloc: Global, syntax: &'a Syntax) -> Result<Vec<Word<'a>>, AllocError>
    ensures { IfOk result (λ v. as_words v.items ≡ ruleless syntax.now.spec) }
{
    let ruled = ruled_names(alloc, syntax)?;
    let used = used_operators(alloc, syntax)?;
    missing_words(alloc, &ruled, &used)
}
