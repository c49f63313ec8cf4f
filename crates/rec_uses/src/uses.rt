//! The words of a specification in the order of the text.

ghost use Rattle.std.specs.Prelude.{◌≡◌, ◌++◌, ◌∷◌, [], All, IfOk, OnOk, flat_map, map};
ghost use Rattle.rec_syntax.specs.Lexemes.{word_of};
ghost use Rattle.rec_syntax.specs.Parts.{
  IsCondition,
  IsDeclaration,
  IsGroup,
  IsRule,
  IsTerm,
  Within,
  condition_of,
  declaration_of,
  group_of,
  rule_of,
  term_of,
  words_of,
};
ghost use Rattle.rec_sorts.specs.Lookup.{condition_terms, rule_terms};
ghost use Rattle.rec_uses.specs.Inner.Values.{as_use, as_uses, term_uses, used_as};
ghost use Rattle.rec_uses.specs.Lines.{unknown_kind};
ghost use Rattle.rec_uses.specs.Uses.{
  declaration_uses,
  group_uses,
  names_same,
  uses,
};

use crate::order::Order;
use crate::words::{Word, word_at};
use rec_syntax::{Condition, Declaration, Group, Rule, Span, Syntax, Term};
use std::alloc::{AllocError, Global};

/// The role of a word.
#[derive(Clone, Copy, PartialEq, Eq, Debug, Drop)]
pub enum Role {
    /// A sort.
    Sort,
    /// The name of a symbol or a variable.
    Name,
}

impl Role {
    /// Returns the kind of an undeclared word in this role, with a space after it.
    pub(crate) fn unknown(self) -> &'static [u8]
        ensures { result.now ≡ unknown_kind self }
    {
        match self {
            Role::Sort => b"sort ",
            Role::Name => b"undeclared ",
        }
    }
}

/// A word of a specification, and its role.
#[derive(Clone, Copy, Drop)]
pub struct Use<'a> {
    pub word: Word<'a>,
    pub role: Role,
}

/// Appends words in this role.
fn push_words<'a>(
    syntax: &'a Syntax,
    spans: &[Span],
    role: Role,
    uses: &mut Vec<Use<'a>>,
) -> Result<(), AllocError>
    requires { All (Within syntax.now.source) spans.now }
    ensures { OnOk result (as_uses uses.new.items
        ≡ as_uses uses.old.items ++ map (used_as role) (words_of syntax.now.source spans.now)) }
{
    for span in spans {
        uses.push(Use {
            word: word_at(syntax, *span),
            role,
        })?;
    }
    Ok(())
}

/// Appends a word in this role.
fn push_word<'a>(
    syntax: &'a Syntax,
    span: Span,
    role: Role,
    uses: &mut Vec<Use<'a>>,
) -> Result<(), AllocError>
    requires { Within syntax.now.source span }
    ensures { OnOk result (as_uses uses.new.items
        ≡ as_uses uses.old.items ++ used_as role (word_of syntax.now.source span) ∷ []) }
{
    uses.push(Use {
        word: word_at(syntax, span),
        role,
    })?;
    Ok(())
}

/// Appends the words of the declaration of a symbol.
fn push_declaration<'a>(
    syntax: &'a Syntax,
    declaration: &Declaration,
    uses: &mut Vec<Use<'a>>,
) -> Result<(), AllocError>
    requires { IsDeclaration syntax.now.source declaration.now }
    ensures { OnOk result (as_uses uses.new.items ≡ as_uses uses.old.items
        ++ declaration_uses (declaration_of syntax.now.source declaration.now)) }
{
    push_word(syntax, declaration.name, Role::Name, uses)?;
    push_words(syntax, declaration.arguments.as_slice(), Role::Sort, uses)?;
    push_word(syntax, declaration.sort, Role::Sort, uses)
}

/// Appends the words of declarations of symbols.
fn push_declarations<'a>(
    syntax: &'a Syntax,
    declarations: &[Declaration],
    uses: &mut Vec<Use<'a>>,
) -> Result<(), AllocError>
    requires { All (IsDeclaration syntax.now.source) declarations.now }
    ensures { OnOk result (as_uses uses.new.items ≡ as_uses uses.old.items
        ++ flat_map declaration_uses (map (declaration_of syntax.now.source) declarations.now)) }
{
    for declaration in declarations {
        push_declaration(syntax, declaration, uses)?;
    }
    Ok(())
}

/// Appends the words of a group of variables.
fn push_group<'a>(
    syntax: &'a Syntax,
    group: &Group,
    uses: &mut Vec<Use<'a>>,
) -> Result<(), AllocError>
    requires { IsGroup syntax.now.source group.now }
    ensures { OnOk result (as_uses uses.new.items ≡ as_uses uses.old.items
        ++ group_uses (group_of syntax.now.source group.now)) }
{
    push_word(syntax, group.first, Role::Name, uses)?;
    push_words(syntax, group.others.as_slice(), Role::Name, uses)?;
    push_word(syntax, group.sort, Role::Sort, uses)
}

/// Appends the words of groups of variables.
fn push_groups<'a>(
    syntax: &'a Syntax,
    groups: &[Group],
    uses: &mut Vec<Use<'a>>,
) -> Result<(), AllocError>
    requires { All (IsGroup syntax.now.source) groups.now }
    ensures { OnOk result (as_uses uses.new.items ≡ as_uses uses.old.items
        ++ flat_map group_uses (map (group_of syntax.now.source) groups.now)) }
{
    for group in groups {
        push_group(syntax, group, uses)?;
    }
    Ok(())
}

/// Appends the words of a term.
fn push_term<'a>(
    alloc: Global,
    syntax: &'a Syntax,
    term: &Term,
    uses: &mut Vec<Use<'a>>,
) -> Result<(), AllocError>
    requires { IsTerm syntax.now.source term.now }
    ensures { OnOk result (as_uses uses.new.items ≡ as_uses uses.old.items
        ++ term_uses (term_of syntax.now.source term.now)) }
{
    let mut order = Order::new(alloc);
    order.pass_term(syntax, term)?;
    while let Some(word) = order.take() {
        uses.push(Use {
            word,
            role: Role::Name,
        })?;
    }
    Ok(())
}

/// Appends the words of terms.
fn push_terms<'a>(
    alloc: Global,
    syntax: &'a Syntax,
    terms: &[Term],
    uses: &mut Vec<Use<'a>>,
) -> Result<(), AllocError>
    requires { All (IsTerm syntax.now.source) terms.now }
    ensures { OnOk result (as_uses uses.new.items ≡ as_uses uses.old.items
        ++ flat_map term_uses (map (term_of syntax.now.source) terms.now)) }
{
    for term in terms {
        push_term(alloc, syntax, term, uses)?;
    }
    Ok(())
}

/// Appends the words of conditions.
fn push_conditions<'a>(
    alloc: Global,
    syntax: &'a Syntax,
    conditions: &[Condition],
    uses: &mut Vec<Use<'a>>,
) -> Result<(), AllocError>
    requires { All (IsCondition syntax.now.source) conditions.now }
    ensures { OnOk result (as_uses uses.new.items ≡ as_uses uses.old.items
        ++ flat_map term_uses
        (condition_terms (map (condition_of syntax.now.source) conditions.now))) }
{
    for condition in conditions {
        push_term(alloc, syntax, &condition.left, uses)?;
        push_term(alloc, syntax, &condition.right, uses)?;
    }
    Ok(())
}

/// Appends the words of a rule.
fn push_rule<'a>(
    alloc: Global,
    syntax: &'a Syntax,
    rule: &Rule,
    uses: &mut Vec<Use<'a>>,
) -> Result<(), AllocError>
    requires { IsRule syntax.now.source rule.now }
    ensures { OnOk result (as_uses uses.new.items ≡ as_uses uses.old.items
        ++ flat_map term_uses (rule_terms (rule_of syntax.now.source rule.now ∷ []))) }
{
    push_term(alloc, syntax, &rule.left, uses)?;
    push_term(alloc, syntax, &rule.right, uses)?;
    push_conditions(alloc, syntax, rule.conditions.as_slice(), uses)
}

/// Appends the words of rules.
fn push_rules<'a>(
    alloc: Global,
    syntax: &'a Syntax,
    rules: &[Rule],
    uses: &mut Vec<Use<'a>>,
) -> Result<(), AllocError>
    requires { All (IsRule syntax.now.source) rules.now }
    ensures { OnOk result (as_uses uses.new.items ≡ as_uses uses.old.items
        ++ flat_map term_uses (rule_terms (map (rule_of syntax.now.source) rules.now))) }
{
    for rule in rules {
        push_rule(alloc, syntax, rule, uses)?;
    }
    Ok(())
}

/// Returns the words of a specification but its name, in the order of the text.
pub(crate) fn uses_of<'a>(alloc: Global, syntax: &'a Syntax) -> Result<Vec<Use<'a>>, AllocError>
    ensures { IfOk result (λ v. as_uses v.items ≡ uses syntax.now.spec) }
{
    let mut uses = Vec::new(alloc);
    push_words(syntax, syntax.sorts(), Role::Sort, &mut uses)?;
    push_declarations(syntax, syntax.constructors(), &mut uses)?;
    push_declarations(syntax, syntax.operators(), &mut uses)?;
    push_groups(syntax, syntax.groups(), &mut uses)?;
    push_rules(alloc, syntax, syntax.rules(), &mut uses)?;
    push_terms(alloc, syntax, syntax.terms(), &mut uses)?;
    Ok(uses)
}

/// Returns whether both words have the same bytes, in the same role.
pub(crate) fn names_same(one: &Use<'_>, other: &Use<'_>) -> bool
    ensures { result ≡ names_same (as_use one.now) (as_use other.now) }
{
    one.role == other.role && one.word.bytes == other.word.bytes
}
