//! Comparison of parts of two specifications, up to the offsets of their names.

ghost use Rattle.std.specs.Prelude.{◌≡◌, All, map, true};
ghost use Rattle.rec_syntax.specs.Lexemes.{word_of};
ghost use Rattle.rec_syntax.specs.Parts.{
  IsCondition,
  IsDeclaration,
  IsGroup,
  IsRule,
  IsTerm,
  Within,
  condition_of,
  declaration_of,
  group_of,
  node_of,
  rule_of,
  term_of,
  words_of,
};
ghost use Rattle.rec_join.specs.Join.{
  unplaced,
  unplaced_condition,
  unplaced_declaration,
  unplaced_rule,
  unplaced_term,
  unplaced_variables,
};
ghost use Rattle.rec_join.specs.Inner.Nodes.{unplaced_node};

use rec_syntax::{Condition, Declaration, Group, Node, Rule, Span, Syntax, Term};

/// Returns whether a word of `a` and a word of `b` have the same bytes.
pub(crate) fn same_word(a: &Syntax, x: Span, b: &Syntax, y: Span) -> bool
    requires x { Within a.now.source x }
    requires y { Within b.now.source y }
    ensures { result ≡ true
        → unplaced (word_of a.now.source x) ≡ unplaced (word_of b.now.source y) }
{
    a.word(x) == b.word(y)
}

/// Returns whether words of `a` and of `b` have the same bytes.
pub(crate) fn same_words(a: &Syntax, xs: &[Span], b: &Syntax, ys: &[Span]) -> bool
    requires xs { All (Within a.now.source) xs.now }
    requires ys { All (Within b.now.source) ys.now }
    ensures { result ≡ true → map unplaced (words_of a.now.source xs.now)
        ≡ map unplaced (words_of b.now.source ys.now) }
{
    if xs.len() != ys.len() {
        return false;
    }
    for index in 0..xs.len() {
        if !same_word(a, xs[index], b, ys[index]) {
            return false;
        }
    }
    true
}

/// Returns whether nodes of `a` and of `b` have the same names and numbers of arguments.
fn same_nodes(a: &Syntax, xs: &[Node], b: &Syntax, ys: &[Node]) -> bool
    requires xs { All (λ n. Within a.now.source n.word) xs.now }
    requires ys { All (λ n. Within b.now.source n.word) ys.now }
    ensures { result ≡ true → map unplaced_node (map (node_of a.now.source) xs.now)
        ≡ map unplaced_node (map (node_of b.now.source) ys.now) }
{
    if xs.len() != ys.len() {
        return false;
    }
    for index in 0..xs.len() {
        let x = xs[index];
        let y = ys[index];
        if x.count != y.count || !same_word(a, x.word, b, y.word) {
            return false;
        }
    }
    true
}

/// Returns whether a term of `a` and a term of `b` are the same.
fn same_term(a: &Syntax, x: &Term, b: &Syntax, y: &Term) -> bool
    requires x { IsTerm a.now.source x.now }
    requires y { IsTerm b.now.source y.now }
    ensures { result ≡ true → unplaced_term (term_of a.now.source x.now)
        ≡ unplaced_term (term_of b.now.source y.now) }
{
    same_nodes(a, x.nodes(), b, y.nodes())
}

/// Returns whether terms of `a` and of `b` are the same.
pub(crate) fn same_terms(a: &Syntax, xs: &[Term], b: &Syntax, ys: &[Term]) -> bool
    requires xs { All (IsTerm a.now.source) xs.now }
    requires ys { All (IsTerm b.now.source) ys.now }
    ensures { result ≡ true → map unplaced_term (map (term_of a.now.source) xs.now)
        ≡ map unplaced_term (map (term_of b.now.source) ys.now) }
{
    if xs.len() != ys.len() {
        return false;
    }
    for index in 0..xs.len() {
        if !same_term(a, &xs[index], b, &ys[index]) {
            return false;
        }
    }
    true
}

/// Returns whether a condition of `a` and a condition of `b` are the same.
fn same_condition(a: &Syntax, x: &Condition, b: &Syntax, y: &Condition) -> bool
    requires x { IsCondition a.now.source x.now }
    requires y { IsCondition b.now.source y.now }
    ensures { result ≡ true → unplaced_condition (condition_of a.now.source x.now)
        ≡ unplaced_condition (condition_of b.now.source y.now) }
{
    x.equal == y.equal && same_term(a, &x.left, b, &y.left) && same_term(a, &x.right, b, &y.right)
}

/// Returns whether conditions of `a` and of `b` are the same.
fn same_conditions(a: &Syntax, xs: &[Condition], b: &Syntax, ys: &[Condition]) -> bool
    requires xs { All (IsCondition a.now.source) xs.now }
    requires ys { All (IsCondition b.now.source) ys.now }
    ensures { result ≡ true → map unplaced_condition (map (condition_of a.now.source) xs.now)
        ≡ map unplaced_condition (map (condition_of b.now.source) ys.now) }
{
    if xs.len() != ys.len() {
        return false;
    }
    for index in 0..xs.len() {
        if !same_condition(a, &xs[index], b, &ys[index]) {
            return false;
        }
    }
    true
}

/// Returns whether a rule of `a` and a rule of `b` are the same.
fn same_rule(a: &Syntax, x: &Rule, b: &Syntax, y: &Rule) -> bool
    requires x { IsRule a.now.source x.now }
    requires y { IsRule b.now.source y.now }
    ensures { result ≡ true → unplaced_rule (rule_of a.now.source x.now)
        ≡ unplaced_rule (rule_of b.now.source y.now) }
{
    same_term(a, &x.left, b, &y.left)
        && same_term(a, &x.right, b, &y.right)
        && same_conditions(a, x.conditions.as_slice(), b, y.conditions.as_slice())
}

/// Returns whether rules of `a` and of `b` are the same.
pub(crate) fn same_rules(a: &Syntax, xs: &[Rule], b: &Syntax, ys: &[Rule]) -> bool
    requires xs { All (IsRule a.now.source) xs.now }
    requires ys { All (IsRule b.now.source) ys.now }
    ensures { result ≡ true → map unplaced_rule (map (rule_of a.now.source) xs.now)
        ≡ map unplaced_rule (map (rule_of b.now.source) ys.now) }
{
    if xs.len() != ys.len() {
        return false;
    }
    for index in 0..xs.len() {
        if !same_rule(a, &xs[index], b, &ys[index]) {
            return false;
        }
    }
    true
}

/// Returns whether a declaration of `a` and a declaration of `b` are the same.
fn same_declaration(a: &Syntax, x: &Declaration, b: &Syntax, y: &Declaration) -> bool
    requires x { IsDeclaration a.now.source x.now }
    requires y { IsDeclaration b.now.source y.now }
    ensures { result ≡ true → unplaced_declaration (declaration_of a.now.source x.now)
        ≡ unplaced_declaration (declaration_of b.now.source y.now) }
{
    same_word(a, x.name, b, y.name)
        && same_words(a, x.arguments.as_slice(), b, y.arguments.as_slice())
        && same_word(a, x.sort, b, y.sort)
}

/// Returns whether declarations of `a` and of `b` are the same.
pub(crate) fn same_declarations(
    a: &Syntax,
    xs: &[Declaration],
    b: &Syntax,
    ys: &[Declaration],
) -> bool
    requires xs { All (IsDeclaration a.now.source) xs.now }
    requires ys { All (IsDeclaration b.now.source) ys.now }
    ensures { result ≡ true → map unplaced_declaration (map (declaration_of a.now.source) xs.now)
        ≡ map unplaced_declaration (map (declaration_of b.now.source) ys.now) }
{
    if xs.len() != ys.len() {
        return false;
    }
    for index in 0..xs.len() {
        if !same_declaration(a, &xs[index], b, &ys[index]) {
            return false;
        }
    }
    true
}

/// Returns whether a group of variables of `a` and one of `b` are the same.
fn same_group(a: &Syntax, x: &Group, b: &Syntax, y: &Group) -> bool
    requires x { IsGroup a.now.source x.now }
    requires y { IsGroup b.now.source y.now }
    ensures { result ≡ true → unplaced_variables (group_of a.now.source x.now)
        ≡ unplaced_variables (group_of b.now.source y.now) }
{
    same_word(a, x.first, b, y.first)
        && same_words(a, x.others.as_slice(), b, y.others.as_slice())
        && same_word(a, x.sort, b, y.sort)
}

/// Returns whether groups of variables of `a` and of `b` are the same.
pub(crate) fn same_groups(a: &Syntax, xs: &[Group], b: &Syntax, ys: &[Group]) -> bool
    requires xs { All (IsGroup a.now.source) xs.now }
    requires ys { All (IsGroup b.now.source) ys.now }
    ensures { result ≡ true → map unplaced_variables (map (group_of a.now.source) xs.now)
        ≡ map unplaced_variables (map (group_of b.now.source) ys.now) }
{
    if xs.len() != ys.len() {
        return false;
    }
    for index in 0..xs.len() {
        if !same_group(a, &xs[index], b, &ys[index]) {
            return false;
        }
    }
    true
}
