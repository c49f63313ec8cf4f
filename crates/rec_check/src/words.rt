//! Words of a specification with their bytes, and the nodes of its terms.

ghost use Rattle.std.specs.Prelude.{◌≡◌, ◌++◌, ◌∷◌, [], All, IfOk, OnOk, flat_map, map};
ghost use Rattle.rec_syntax.specs.Lexemes.{word_of};
ghost use Rattle.rec_syntax.specs.Parts.{IsCondition, IsDeclaration, IsGroup, IsRule, IsTerm};
ghost use Rattle.rec_syntax.specs.Parts.{Within, condition_of, declaration_of, group_of, rule_of};
ghost use Rattle.rec_syntax.specs.Parts.{term_of, words_of};
ghost use Rattle.rec_syntax.specs.Nodes.{flat};
ghost use Rattle.rec_sorts.specs.Lookup.{condition_terms, names, rule_terms, symbols};
ghost use Rattle.rec_sorts.specs.Lookup.{variable_words};
ghost use Rattle.rec_sorts.specs.SpecRules.{sorts_of};
ghost use Rattle.rec_check.specs.Named.{as_nodes, as_word, as_words, node_words};
ghost use Rattle.rec_check.specs.Walks.{flat_terms};

use crate::located::{Counted, Word};
use rec_syntax::{Condition, Declaration, Group, Rule, Span, Syntax, Term};
use std::alloc::{AllocError, Global};

/// Returns the word of a span.
pub(crate) fn word_at<'a>(syntax: &'a Syntax, span: Span) -> Word<'a>
    requires { Within syntax.now.source span }
    ensures { as_word result ≡ word_of syntax.now.source span }
{
    Word {
        at: span.from,
        bytes: syntax.word(span),
    }
}

/// Appends the words of these spans.
pub(crate) fn push_words<'a>(
    syntax: &'a Syntax,
    spans: &[Span],
    words: &mut Vec<Word<'a>>,
) -> Result<(), AllocError>
    requires { All (Within syntax.now.source) spans.now }
    ensures { OnOk result (as_words words.new.items
        ≡ as_words words.old.items ++ words_of syntax.now.source spans.now) }
{
    for span in spans {
        words.push(word_at(syntax, *span))?;
    }
    Ok(())
}

/// Appends the names of symbols.
fn push_names<'a>(
    syntax: &'a Syntax,
    declarations: &[Declaration],
    words: &mut Vec<Word<'a>>,
) -> Result<(), AllocError>
    requires { All (IsDeclaration syntax.now.source) declarations.now }
    ensures { OnOk result (as_words words.new.items ≡ as_words words.old.items
        ++ names (map (declaration_of syntax.now.source) declarations.now)) }
{
    for declaration in declarations {
        words.push(word_at(syntax, declaration.name))?;
    }
    Ok(())
}

/// Appends the sorts in the declaration of a symbol.
fn push_sorts_of<'a>(
    syntax: &'a Syntax,
    declaration: &Declaration,
    words: &mut Vec<Word<'a>>,
) -> Result<(), AllocError>
    requires { IsDeclaration syntax.now.source declaration.now }
    ensures { OnOk result (as_words words.new.items ≡ as_words words.old.items
        ++ sorts_of (declaration_of syntax.now.source declaration.now)) }
{
    push_words(syntax, declaration.arguments.as_slice(), words)?;
    words.push(word_at(syntax, declaration.sort))?;
    Ok(())
}

/// Appends the sorts in the declarations of symbols.
fn push_sorts<'a>(
    syntax: &'a Syntax,
    declarations: &[Declaration],
    words: &mut Vec<Word<'a>>,
) -> Result<(), AllocError>
    requires { All (IsDeclaration syntax.now.source) declarations.now }
    ensures { OnOk result (as_words words.new.items ≡ as_words words.old.items
        ++ flat_map sorts_of (map (declaration_of syntax.now.source) declarations.now)) }
{
    for declaration in declarations {
        push_sorts_of(syntax, declaration, words)?;
    }
    Ok(())
}

/// Appends the sorts of groups of variables.
fn push_group_sorts<'a>(
    syntax: &'a Syntax,
    groups: &[Group],
    words: &mut Vec<Word<'a>>,
) -> Result<(), AllocError>
    requires { All (IsGroup syntax.now.source) groups.now }
    ensures { OnOk result (as_words words.new.items ≡ as_words words.old.items
        ++ map (λ v. v.sort) (map (group_of syntax.now.source) groups.now)) }
{
    for group in groups {
        words.push(word_at(syntax, group.sort))?;
    }
    Ok(())
}

/// Appends the variables of a group.
fn push_variables_of<'a>(
    syntax: &'a Syntax,
    group: &Group,
    words: &mut Vec<Word<'a>>,
) -> Result<(), AllocError>
    requires { IsGroup syntax.now.source group.now }
    ensures { OnOk result (as_words words.new.items ≡ as_words words.old.items
        ++ variable_words (group_of syntax.now.source group.now ∷ [])) }
{
    words.push(word_at(syntax, group.first))?;
    push_words(syntax, group.others.as_slice(), words)
}

/// Appends the variables of groups.
fn push_variables<'a>(
    syntax: &'a Syntax,
    groups: &[Group],
    words: &mut Vec<Word<'a>>,
) -> Result<(), AllocError>
    requires { All (IsGroup syntax.now.source) groups.now }
    ensures { OnOk result (as_words words.new.items ≡ as_words words.old.items
        ++ variable_words (map (group_of syntax.now.source) groups.now)) }
{
    for group in groups {
        push_variables_of(syntax, group, words)?;
    }
    Ok(())
}

/// Returns the declared sorts.
pub fn sort_words<'a>(alloc: Global, syntax: &'a Syntax) -> Result<Vec<Word<'a>>, AllocError>
    ensures { IfOk result (λ v. as_words v.items ≡ syntax.now.spec.sorts) }
{
    let mut words = Vec::new(alloc);
    push_words(syntax, syntax.sorts(), &mut words)?;
    Ok(words)
}

/// Returns the words that declare symbols.
pub fn symbol_words<'a>(alloc: Global, syntax: &'a Syntax) -> Result<Vec<Word<'a>>, AllocError>
    ensures { IfOk result (λ v. as_words v.items ≡ names (symbols syntax.now.spec)) }
{
    let mut words = Vec::new(alloc);
    push_names(syntax, syntax.constructors(), &mut words)?;
    push_names(syntax, syntax.operators(), &mut words)?;
    Ok(words)
}

/// Returns the words that declare constructors.
pub(crate) fn constructor_words<'a>(
    alloc: Global,
    syntax: &'a Syntax,
) -> Result<Vec<Word<'a>>, AllocError>
    ensures { IfOk result (λ v. as_words v.items ≡ names syntax.now.spec.constructors) }
{
    let mut words = Vec::new(alloc);
    push_names(syntax, syntax.constructors(), &mut words)?;
    Ok(words)
}

/// Returns the words that declare operators.
pub fn operator_words<'a>(alloc: Global, syntax: &'a Syntax) -> Result<Vec<Word<'a>>, AllocError>
    ensures { IfOk result (λ v. as_words v.items ≡ names syntax.now.spec.operators) }
{
    let mut words = Vec::new(alloc);
    push_names(syntax, syntax.operators(), &mut words)?;
    Ok(words)
}

/// Returns the words that declare variables.
pub fn variables<'a>(alloc: Global, syntax: &'a Syntax) -> Result<Vec<Word<'a>>, AllocError>
    ensures { IfOk result (λ v. as_words v.items ≡ variable_words syntax.now.spec.variables) }
{
    let mut words = Vec::new(alloc);
    push_variables(syntax, syntax.groups(), &mut words)?;
    Ok(words)
}

/// Returns the words that declare symbols and variables.
pub fn declared_words<'a>(alloc: Global, syntax: &'a Syntax) -> Result<Vec<Word<'a>>, AllocError>
    ensures { IfOk result (λ v. as_words v.items
        ≡ names (symbols syntax.now.spec) ++ variable_words syntax.now.spec.variables) }
{
    let mut words = symbol_words(alloc, syntax)?;
    push_variables(syntax, syntax.groups(), &mut words)?;
    Ok(words)
}

/// Returns the sorts that declarations use.
pub fn named_sorts<'a>(alloc: Global, syntax: &'a Syntax) -> Result<Vec<Word<'a>>, AllocError>
    ensures { IfOk result (λ v. as_words v.items ≡ flat_map sorts_of (symbols syntax.now.spec)
        ++ map (λ v. v.sort) syntax.now.spec.variables) }
{
    let mut words = Vec::new(alloc);
    push_sorts(syntax, syntax.constructors(), &mut words)?;
    push_sorts(syntax, syntax.operators(), &mut words)?;
    push_group_sorts(syntax, syntax.groups(), &mut words)?;
    Ok(words)
}

/// Appends the nodes of a term in postfix form.
pub(crate) fn push_term<'a>(
    syntax: &'a Syntax,
    term: &Term,
    nodes: &mut Vec<Counted<'a>>,
) -> Result<(), AllocError>
    requires { IsTerm syntax.now.source term.now }
    ensures { OnOk result (as_nodes nodes.new.items
        ≡ as_nodes nodes.old.items ++ flat (term_of syntax.now.source term.now)) }
{
    for node in term.nodes() {
        nodes.push(Counted {
            word: word_at(syntax, node.word),
            count: node.count,
        })?;
    }
    Ok(())
}

/// Appends the nodes of terms.
fn push_terms<'a>(
    syntax: &'a Syntax,
    terms: &[Term],
    nodes: &mut Vec<Counted<'a>>,
) -> Result<(), AllocError>
    requires { All (IsTerm syntax.now.source) terms.now }
    ensures { OnOk result (as_nodes nodes.new.items ≡ as_nodes nodes.old.items
        ++ flat_terms (map (term_of syntax.now.source) terms.now)) }
{
    for term in terms {
        push_term(syntax, term, nodes)?;
    }
    Ok(())
}

/// Appends the nodes of conditions.
fn push_conditions<'a>(
    syntax: &'a Syntax,
    conditions: &[Condition],
    nodes: &mut Vec<Counted<'a>>,
) -> Result<(), AllocError>
    requires { All (IsCondition syntax.now.source) conditions.now }
    ensures { OnOk result (as_nodes nodes.new.items ≡ as_nodes nodes.old.items
        ++ flat_terms (condition_terms (map (condition_of syntax.now.source) conditions.now))) }
{
    for condition in conditions {
        push_term(syntax, &condition.left, nodes)?;
        push_term(syntax, &condition.right, nodes)?;
    }
    Ok(())
}

/// Returns the nodes of a rule's right-hand side and conditions.
fn right_nodes<'a>(
    alloc: Global,
    syntax: &'a Syntax,
    rule: &Rule,
) -> Result<Vec<Counted<'a>>, AllocError>
    requires { IsRule syntax.now.source rule.now }
    ensures { IfOk result (λ v. as_nodes v.items
        ≡ flat_terms ((rule_of syntax.now.source rule.now).right
        ∷ condition_terms (rule_of syntax.now.source rule.now).conditions)) }
{
    let mut nodes = Vec::new(alloc);
    push_term(syntax, &rule.right, &mut nodes)?;
    push_conditions(syntax, rule.conditions.as_slice(), &mut nodes)?;
    Ok(nodes)
}

/// Appends the nodes of a rule.
fn push_rule<'a>(
    syntax: &'a Syntax,
    rule: &Rule,
    nodes: &mut Vec<Counted<'a>>,
) -> Result<(), AllocError>
    requires { IsRule syntax.now.source rule.now }
    ensures { OnOk result (as_nodes nodes.new.items ≡ as_nodes nodes.old.items
        ++ flat_terms (rule_terms (rule_of syntax.now.source rule.now ∷ []))) }
{
    push_term(syntax, &rule.left, nodes)?;
    push_term(syntax, &rule.right, nodes)?;
    push_conditions(syntax, rule.conditions.as_slice(), nodes)
}

/// Appends the nodes of rules.
fn push_rules<'a>(
    syntax: &'a Syntax,
    rules: &[Rule],
    nodes: &mut Vec<Counted<'a>>,
) -> Result<(), AllocError>
    requires { All (IsRule syntax.now.source) rules.now }
    ensures { OnOk result (as_nodes nodes.new.items ≡ as_nodes nodes.old.items
        ++ flat_terms (rule_terms (map (rule_of syntax.now.source) rules.now))) }
{
    for rule in rules {
        push_rule(syntax, rule, nodes)?;
    }
    Ok(())
}

/// Returns the nodes of the EVAL terms.
pub fn term_nodes<'a>(alloc: Global, syntax: &'a Syntax) -> Result<Vec<Counted<'a>>, AllocError>
    ensures { IfOk result (λ v. as_nodes v.items ≡ flat_terms syntax.now.spec.terms) }
{
    let mut nodes = Vec::new(alloc);
    push_terms(syntax, syntax.terms(), &mut nodes)?;
    Ok(nodes)
}

/// Returns the nodes of all rules and EVAL terms.
pub fn all_nodes<'a>(alloc: Global, syntax: &'a Syntax) -> Result<Vec<Counted<'a>>, AllocError>
    ensures { IfOk result (λ v. as_nodes v.items
        ≡ flat_terms (rule_terms syntax.now.spec.rules ++ syntax.now.spec.terms)) }
{
    let mut nodes = Vec::new(alloc);
    push_rules(syntax, syntax.rules(), &mut nodes)?;
    push_terms(syntax, syntax.terms(), &mut nodes)?;
    Ok(nodes)
}

/// Returns the words of a term.
pub(crate) fn term_words<'a>(
    alloc: Global,
    syntax: &'a Syntax,
    term: &Term,
) -> Result<Vec<Word<'a>>, AllocError>
    requires { IsTerm syntax.now.source term.now }
    ensures { IfOk result (λ v. as_words v.items
        ≡ node_words (flat (term_of syntax.now.source term.now))) }
{
    let mut nodes = Vec::new(alloc);
    push_term(syntax, term, &mut nodes)?;
    node_words(alloc, &nodes)
}

/// Returns the words of all rules and EVAL terms.
pub(crate) fn all_words<'a>(alloc: Global, syntax: &'a Syntax) -> Result<Vec<Word<'a>>, AllocError>
    ensures { IfOk result (λ v. as_words v.items
        ≡ node_words (flat_terms (rule_terms syntax.now.spec.rules ++ syntax.now.spec.terms))) }
{
    let nodes = all_nodes(alloc, syntax)?;
    node_words(alloc, &nodes)
}

/// Returns the words of the EVAL terms.
pub(crate) fn evaluated_words<'a>(
    alloc: Global,
    syntax: &'a Syntax,
) -> Result<Vec<Word<'a>>, AllocError>
    ensures { IfOk result
        (λ v. as_words v.items ≡ node_words (flat_terms syntax.now.spec.terms)) }
{
    let nodes = term_nodes(alloc, syntax)?;
    node_words(alloc, &nodes)
}

/// Returns the words of a rule's right-hand side and conditions.
pub(crate) fn right_words<'a>(
    alloc: Global,
    syntax: &'a Syntax,
    rule: &Rule,
) -> Result<Vec<Word<'a>>, AllocError>
    requires { IsRule syntax.now.source rule.now }
    ensures { IfOk result (λ v. as_words v.items
        ≡ node_words (flat_terms ((rule_of syntax.now.source rule.now).right
        ∷ condition_terms (rule_of syntax.now.source rule.now).conditions))) }
{
    let nodes = right_nodes(alloc, syntax, rule)?;
    node_words(alloc, &nodes)
}

/// Returns the words of nodes.
pub fn node_words<'a>(alloc: Global, nodes: &[Counted<'a>]) -> Result<Vec<Word<'a>>, AllocError>
    ensures { IfOk result (λ v. as_words v.items ≡ node_words (as_nodes nodes.now)) }
{
    let mut words = Vec::with_capacity(alloc, nodes.len())?;
    for node in nodes {
        words.push(node.word)?;
    }
    Ok(words)
}
