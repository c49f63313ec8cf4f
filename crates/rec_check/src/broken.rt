//! The words at which a specification violates a rule, where the rule can be judged.

ghost use Rattle.std.specs.Prelude.{◌≡◌, ◌++◌, ◌∷◌, All, IfOk, OnOk, flat_map, map};
ghost use Rattle.rec_syntax.specs.Parts.{
  IsCondition,
  IsRule,
  IsTerm,
  condition_of,
  rule_of,
  term_of,
};
ghost use Rattle.rec_syntax.specs.Nodes.{flat};
ghost use Rattle.rec_syntax.specs.Syntax.{head};
ghost use Rattle.rec_sorts.specs.Lookup.{condition_terms, names, symbols, variable_words};
ghost use Rattle.rec_sorts.specs.SpecRules.{
  ill_headed,
  repeated_sorts,
  repeated_symbols,
  taken_variables,
  unknown_sorts,
};
ghost use Rattle.rec_check.specs.Errors.{declared_names, judged_words};
ghost use Rattle.rec_check.specs.Findings.{HasSame};
ghost use Rattle.rec_check.specs.Lookups.{IsScope, Knows, present};
ghost use Rattle.rec_check.specs.Named.{as_word, as_words, node_words};
ghost use Rattle.rec_check.specs.Walks.{
  flat_terms,
  unbound_in,
  unlike_in,
  unlike_in_conditions,
};

use crate::filters::{missing_words, present_words, repeated_words};
use crate::finding::Rule;
use crate::located::Word;
use crate::names::Names;
use crate::scope::Scope;
use crate::words::{
    all_nodes, all_words, declared_words, evaluated_words, named_sorts, operator_words,
    right_words, sort_words, symbol_words, term_words, variables, word_at,
};
use rec_syntax::{self, Condition, Syntax, Term};
use std::alloc::{AllocError, Global};

/// Returns the first word of a term.
pub(crate) fn head_of<'a>(syntax: &'a Syntax, term: &Term) -> Word<'a>
    requires { IsTerm syntax.now.source term.now }
    ensures { as_word result ≡ head (term_of syntax.now.source term.now) }
{
    match term.nodes().last() {
        Some(node) => word_at(syntax, node.word),
        None => unreachable!(),
    }
}

/// Returns the first words of the left-hand sides.
pub(crate) fn left_heads<'a>(alloc: Global, syntax: &'a Syntax) -> Result<Vec<Word<'a>>, AllocError>
    ensures { IfOk result (λ v. as_words v.items
        ≡ map (λ r. head r.left) syntax.now.spec.rules) }
{
    let mut heads = Vec::new(alloc);
    for rule in syntax.rules() {
        heads.push(head_of(syntax, &rule.left))?;
    }
    Ok(heads)
}

/// Returns the names of the declared sorts.
fn sort_names<'a>(alloc: Global, syntax: &'a Syntax) -> Result<Names<'a>, AllocError>
    ensures { IfOk result (λ known. Knows known syntax.now.spec.sorts) }
{
    let words = sort_words(alloc, syntax)?;
    Names::of(alloc, &words)
}

/// Returns the names of the operators.
fn operator_names<'a>(alloc: Global, syntax: &'a Syntax) -> Result<Names<'a>, AllocError>
    ensures { IfOk result (λ known. Knows known (names syntax.now.spec.operators)) }
{
    let words = operator_words(alloc, syntax)?;
    Names::of(alloc, &words)
}

/// Returns the names of the variables.
fn variable_names<'a>(alloc: Global, syntax: &'a Syntax) -> Result<Names<'a>, AllocError>
    ensures { IfOk result (λ known. Knows known (variable_words syntax.now.spec.variables)) }
{
    let words = variables(alloc, syntax)?;
    Names::of(alloc, &words)
}

/// Returns the undeclared sorts.
fn unknown_sorts<'a>(alloc: Global, syntax: &'a Syntax) -> Result<Vec<Word<'a>>, AllocError>
    ensures { IfOk result (λ v. as_words v.items ≡ unknown_sorts syntax.now.spec) }
{
    let known = sort_names(alloc, syntax)?;
    let sorts = named_sorts(alloc, syntax)?;
    missing_words(alloc, &known, &sorts)
}

/// Returns the names of the symbols and variables.
fn declared_names<'a>(alloc: Global, syntax: &'a Syntax) -> Result<Names<'a>, AllocError>
    ensures { IfOk result (λ known. Knows known (declared_names syntax.now.spec)) }
{
    let words = declared_words(alloc, syntax)?;
    Names::of(alloc, &words)
}

/// Returns the words that are neither symbols nor variables.
fn unknown_words<'a>(alloc: Global, syntax: &'a Syntax) -> Result<Vec<Word<'a>>, AllocError>
    ensures { IfOk result
        (λ v. HasSame (judged_words syntax.now.spec Rule.WordUnknown) (as_words v.items)) }
{
    let known = declared_names(alloc, syntax)?;
    let words = all_words(alloc, syntax)?;
    missing_words(alloc, &known, &words)
}

/// Returns the declared names with the wrong number of arguments.
fn ill_filled_words<'a>(alloc: Global, syntax: &'a Syntax) -> Result<Vec<Word<'a>>, AllocError>
    ensures { IfOk result
        (λ v. HasSame (judged_words syntax.now.spec Rule.IllFilled) (as_words v.items)) }
{
    let known = declared_names(alloc, syntax)?;
    let scope = Scope::of(alloc, syntax)?;
    let nodes = all_nodes(alloc, syntax)?;
    let words = scope.ill_filled_words(alloc, &nodes)?;
    present_words(alloc, &known, &words)
}

/// Returns the arguments whose sort clashes with the declared one.
fn ill_sorted_words<'a>(alloc: Global, syntax: &'a Syntax) -> Result<Vec<Word<'a>>, AllocError>
    ensures { IfOk result
        (λ v. HasSame (judged_words syntax.now.spec Rule.IllSorted) (as_words v.items)) }
{
    let scope = Scope::of(alloc, syntax)?;
    let nodes = all_nodes(alloc, syntax)?;
    scope.ill_sorted_words(alloc, &nodes)
}

/// Returns the first words of the left-hand sides that do not start with an operator.
fn ill_headed_words<'a>(alloc: Global, syntax: &'a Syntax) -> Result<Vec<Word<'a>>, AllocError>
    ensures { IfOk result (λ v. as_words v.items ≡ ill_headed syntax.now.spec) }
{
    let known = operator_names(alloc, syntax)?;
    let heads = left_heads(alloc, syntax)?;
    missing_words(alloc, &known, &heads)
}

/// Returns the first words of the left-hand sides that start with a constructor or a variable.
fn constructor_heads<'a>(alloc: Global, syntax: &'a Syntax) -> Result<Vec<Word<'a>>, AllocError>
    ensures { IfOk result
        (λ v. as_words v.items ≡ judged_words syntax.now.spec Rule.IllHeaded) }
{
    let known = declared_names(alloc, syntax)?;
    let words = ill_headed_words(alloc, syntax)?;
    present_words(alloc, &known, &words)
}

/// Appends the first words of the conditions whose sides have sorts that clash.
fn push_unlike_conditions<'a>(
    syntax: &'a Syntax,
    scope: &Scope<'a>,
    conditions: &[Condition],
    found: &mut Vec<Word<'a>>,
) -> Result<(), AllocError>
    requires scope { IsScope scope.now }
    requires same { scope.now.syntax.now ≡ syntax.now }
    requires sound { All (IsCondition syntax.now.source) conditions.now }
    ensures { OnOk result (as_words found.new.items ≡ as_words found.old.items
        ++ unlike_in_conditions syntax.now.spec
        (map (condition_of syntax.now.source) conditions.now)) }
{
    for condition in conditions {
        let left = head_of(syntax, &condition.left);
        let right = head_of(syntax, &condition.right);
        scope.push_unlike(left, right, found)?;
    }
    Ok(())
}

/// Appends the first words of the rule and of its conditions whose sides have sorts that clash.
fn push_unlike_rule<'a>(
    syntax: &'a Syntax,
    scope: &Scope<'a>,
    rule: &rec_syntax::Rule,
    found: &mut Vec<Word<'a>>,
) -> Result<(), AllocError>
    requires scope { IsScope scope.now }
    requires same { scope.now.syntax.now ≡ syntax.now }
    requires sound { IsRule syntax.now.source rule.now }
    ensures { OnOk result (as_words found.new.items ≡ as_words found.old.items
        ++ unlike_in syntax.now.spec (rule_of syntax.now.source rule.now)) }
{
    let left = head_of(syntax, &rule.left);
    let right = head_of(syntax, &rule.right);
    scope.push_unlike(left, right, found)?;
    push_unlike_conditions(syntax, scope, rule.conditions.as_slice(), found)
}

/// Appends the first words of the rules and conditions whose sides have sorts that clash.
fn push_unlike_rules<'a>(
    syntax: &'a Syntax,
    scope: &Scope<'a>,
    rules: &[rec_syntax::Rule],
    found: &mut Vec<Word<'a>>,
) -> Result<(), AllocError>
    requires scope { IsScope scope.now }
    requires same { scope.now.syntax.now ≡ syntax.now }
    requires sound { All (IsRule syntax.now.source) rules.now }
    ensures { OnOk result (as_words found.new.items ≡ as_words found.old.items
        ++ flat_map (unlike_in syntax.now.spec) (map (rule_of syntax.now.source) rules.now)) }
{
    for rule in rules {
        push_unlike_rule(syntax, scope, rule, found)?;
    }
    Ok(())
}

/// Returns the first words of the rules and conditions whose sides have sorts that clash.
fn unlike_sides<'a>(alloc: Global, syntax: &'a Syntax) -> Result<Vec<Word<'a>>, AllocError>
    ensures { IfOk result
        (λ v. as_words v.items ≡ judged_words syntax.now.spec Rule.UnlikeSides) }
{
    let scope = Scope::of(alloc, syntax)?;
    let mut found = Vec::new(alloc);
    push_unlike_rules(syntax, &scope, syntax.rules(), &mut found)?;
    Ok(found)
}

/// Returns the names in a rule's left-hand side.
fn left_names<'a>(
    alloc: Global,
    syntax: &'a Syntax,
    rule: &rec_syntax::Rule,
) -> Result<Names<'a>, AllocError>
    requires { IsRule syntax.now.source rule.now }
    ensures { IfOk result (λ known. Knows known
        (node_words (flat (rule_of syntax.now.source rule.now).left))) }
{
    let words = term_words(alloc, syntax, &rule.left)?;
    Names::of(alloc, &words)
}

/// Returns the variables in a rule's right-hand side and conditions. `known` has the names of
/// variables.
fn used_variables<'a>(
    alloc: Global,
    syntax: &'a Syntax,
    known: &Names<'_>,
    rule: &rec_syntax::Rule,
) -> Result<Vec<Word<'a>>, AllocError>
    requires known { Knows known.now (variable_words syntax.now.spec.variables) }
    requires sound { IsRule syntax.now.source rule.now }
    ensures { IfOk result (λ v. as_words v.items
        ≡ present (variable_words syntax.now.spec.variables)
        (node_words (flat_terms ((rule_of syntax.now.source rule.now).right
        ∷ condition_terms (rule_of syntax.now.source rule.now).conditions)))) }
{
    let words = right_words(alloc, syntax, rule)?;
    present_words(alloc, known, &words)
}

/// Returns the variables of a rule that are not in its left-hand side. `known` has the names of
/// variables.
fn unbound_variables_of<'a>(
    alloc: Global,
    syntax: &'a Syntax,
    known: &Names<'_>,
    rule: &rec_syntax::Rule,
) -> Result<Vec<Word<'a>>, AllocError>
    requires known { Knows known.now (variable_words syntax.now.spec.variables) }
    requires sound { IsRule syntax.now.source rule.now }
    ensures { IfOk result (λ v. as_words v.items
        ≡ unbound_in syntax.now.spec (rule_of syntax.now.source rule.now)) }
{
    let bound = left_names(alloc, syntax, rule)?;
    let used = used_variables(alloc, syntax, known, rule)?;
    missing_words(alloc, &bound, &used)
}

/// Appends the variables of these rules that are not in the left-hand sides.
fn push_unbound<'a>(
    alloc: Global,
    syntax: &'a Syntax,
    known: &Names<'_>,
    rules: &[rec_syntax::Rule],
    found: &mut Vec<Word<'a>>,
) -> Result<(), AllocError>
    requires known { Knows known.now (variable_words syntax.now.spec.variables) }
    requires sound { All (IsRule syntax.now.source) rules.now }
    ensures { OnOk result (as_words found.new.items ≡ as_words found.old.items
        ++ flat_map (unbound_in syntax.now.spec) (map (rule_of syntax.now.source) rules.now)) }
{
    for rule in rules {
        let unbound = unbound_variables_of(alloc, syntax, known, rule)?;
        found.extend_from_slice(&unbound)?;
    }
    Ok(())
}

/// Returns the variables of right-hand sides and conditions that are not in the left-hand sides.
fn unbound_variables<'a>(alloc: Global, syntax: &'a Syntax) -> Result<Vec<Word<'a>>, AllocError>
    ensures { IfOk result
        (λ v. HasSame (judged_words syntax.now.spec Rule.Unbound) (as_words v.items)) }
{
    let known = variable_names(alloc, syntax)?;
    let mut found = Vec::new(alloc);
    push_unbound(alloc, syntax, &known, syntax.rules(), &mut found)?;
    Ok(found)
}

/// Returns the variables of the EVAL terms.
fn open_terms<'a>(alloc: Global, syntax: &'a Syntax) -> Result<Vec<Word<'a>>, AllocError>
    ensures { IfOk result
        (λ v. HasSame (judged_words syntax.now.spec Rule.OpenTerm) (as_words v.items)) }
{
    let known = variable_names(alloc, syntax)?;
    let words = evaluated_words(alloc, syntax)?;
    present_words(alloc, &known, &words)
}

/// Returns the sorts that are declared again.
fn repeated_sorts<'a>(alloc: Global, syntax: &'a Syntax) -> Result<Vec<Word<'a>>, AllocError>
    ensures { IfOk result (λ v. as_words v.items ≡ repeated_sorts syntax.now.spec) }
{
    let sorts = sort_words(alloc, syntax)?;
    repeated_words(alloc, &[], &sorts)
}

/// Returns the symbols that are declared again.
fn repeated_symbols<'a>(alloc: Global, syntax: &'a Syntax) -> Result<Vec<Word<'a>>, AllocError>
    ensures { IfOk result (λ v. as_words v.items ≡ repeated_symbols syntax.now.spec) }
{
    let symbols = symbol_words(alloc, syntax)?;
    repeated_words(alloc, &[], &symbols)
}

/// Returns the variables that are declared again, or that have the name of a symbol.
fn taken_variables<'a>(alloc: Global, syntax: &'a Syntax) -> Result<Vec<Word<'a>>, AllocError>
    ensures { IfOk result (λ v. as_words v.items ≡ taken_variables syntax.now.spec) }
{
    let symbols = symbol_words(alloc, syntax)?;
    let variables = variables(alloc, syntax)?;
    repeated_words(alloc, &symbols, &variables)
}

/// Returns the words at which a specification violates `rule`, in any order: all of them if the
/// rules before it hold, otherwise those that can be judged. The only error is out of memory.
pub fn judged_words<'a>(
    alloc: Global,
    syntax: &'a Syntax,
    rule: Rule,
) -> Result<Vec<Word<'a>>, AllocError>
    ensures { IfOk result (λ v. HasSame (judged_words syntax.now.spec rule) (as_words v.items)) }
{
    match rule {
        Rule::SortTwice => repeated_sorts(alloc, syntax),
        Rule::SymbolTwice => repeated_symbols(alloc, syntax),
        Rule::VariableTaken => taken_variables(alloc, syntax),
        Rule::SortUnknown => unknown_sorts(alloc, syntax),
        Rule::WordUnknown => unknown_words(alloc, syntax),
        Rule::IllFilled => ill_filled_words(alloc, syntax),
        Rule::IllSorted => ill_sorted_words(alloc, syntax),
        Rule::IllHeaded => constructor_heads(alloc, syntax),
        Rule::UnlikeSides => unlike_sides(alloc, syntax),
        Rule::Unbound => unbound_variables(alloc, syntax),
        Rule::OpenTerm => open_terms(alloc, syntax),
    }
}
