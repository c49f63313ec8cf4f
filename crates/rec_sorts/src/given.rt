//! The rules of input terms, and their postfix form.

ghost use Rattle.std.specs.Prelude.{◌≡◌, None, Some, List, IsSome, IfSome, IfOk, IfErr, OnOk};
ghost use Rattle.std.specs.Prelude.{is_some, length, map, reverse};
ghost use Rattle.std.specs.List.{list_any, position, position_from};
ghost use Rattle.rx_term.specs.Tree.{Tree, count_of, to_list, items_of};
ghost use Rattle.rx_term.specs.Store.{tree_at};
ghost use Rattle.rx_term.specs.Walks.{AllHeld, held_tree, held_trees};
ghost use Rattle.rec_sorts.specs.TermRules.{arguments, elements, is_no_application, is_annotated};
ghost use Rattle.rec_sorts.specs.TermRules.{broken_by_terms, broken_element};
ghost use Rattle.rec_sorts.specs.TermsFaults.{IsTermsFault};
ghost use Rattle.rec_sorts.specs.Evaluation.{term_of};
ghost use Rattle.rec_sorts.specs.Numbering.{Pairwise, AreLetters};
ghost use Rattle.rec_sorts.specs.Agreeing.{IsScope};
ghost use Rattle.rec_sorts.specs.Walking.{backwards};

use crate::checked::Checked;
use crate::fault::TermsFault;
use crate::letters::{Letter, Meaning};
use crate::scope::Scope;
use crate::symbols::read_scope;
use crate::walk::{list_items, list_nodes, nodes_among, term_nodes};
use rec_syntax::Syntax;
use rx_term::{Kind, Term, TermBank, plain_name};
use std::alloc::{AllocError, Global};

/// Returns the declarations of a specification.
fn scope_of(alloc: Global, syntax: &Syntax) -> Result<Scope<'_>, AllocError>
    ensures { IfOk result (IsScope syntax.now.spec) }
{
    let declared = read_scope(alloc, syntax)?;
    Ok(declared.scope)
}

/// Returns whether a term is a list without annotations.
fn is_plain_list<B: TermBank>(bank: &B, term: Term) -> bool
    requires { IsSome (tree_at (B.store bank.now) term) }
    ensures { result ≡ is_some (elements (held_tree (B.store bank.now) term)) }
{
    match bank.kind(term) {
        Kind::Nil | Kind::Cons => bank.anns(term).is_none(),
        _ => false,
    }
}

/// Returns whether one of these subterms is not an application.
fn any_no_application<B: TermBank>(bank: &B, nodes: &[Term]) -> bool
    requires { AllHeld (B.store bank.now) nodes.now }
    ensures { result ≡ list_any
        (λ r. is_no_application (held_tree (B.store bank.now) r)) nodes.now }
{
    nodes
        .iter()
        .any(|node| !matches!(bank.kind(*node), Kind::Appl(_)))
}

/// Returns whether one of these subterms has annotations.
fn any_annotated<B: TermBank>(bank: &B, nodes: &[Term]) -> bool
    requires { AllHeld (B.store bank.now) nodes.now }
    ensures { result ≡ list_any (λ r. is_annotated (held_tree (B.store bank.now) r)) nodes.now }
{
    nodes.iter().any(|node| bank.anns(*node).is_some())
}

/// Returns the number of arguments of a term.
fn argument_count<B: TermBank>(bank: &B, node: Term) -> u32
    requires { IsSome (tree_at (B.store bank.now) node) }
    ensures { result ≡ count_of (arguments (held_tree (B.store bank.now) node)) }
{
    match bank.kind(node) {
        Kind::Appl(symbol) => bank.arity_of(symbol),
        _ => 0,
    }
}

impl Scope<'_> {
    ghost use Rattle.rec_sorts.specs.Inner.GivenTerms.{symbol_at, is_nameless};
    ghost use Rattle.rec_sorts.specs.Inner.GivenTerms.{is_misfilled, are_misfits};
    ghost use Rattle.rec_sorts.specs.Inner.GivenTerms.{has_misfit, node_letter, broken_by_nodes};
    ghost use Rattle.rec_sorts.specs.Inner.GivenTerms.{broken_by_all, is_broken_alone};

    /// Returns the symbol of a term: one with its name, quoted only if the name is not plain.
    fn symbol<B: TermBank>(&self, bank: &B, node: Term) -> Option<Meaning>
        requires { IsSome (tree_at (B.store bank.now) node) }
        ensures { result ≡ symbol_at self.now (held_tree (B.store bank.now) node) }
    {
        let Kind::Appl(symbol) = bank.kind(node) else {
            return None;
        };
        let name = bank.name_of(symbol);
        if bank.quoted_of(symbol) == plain_name(name) {
            return None;
        }
        match self.meaning(name) {
            Some(Meaning::Symbol(number)) => Some(Meaning::Symbol(number)),
            _ => None,
        }
    }

    /// Returns whether one of these subterms has no declared symbol.
    fn any_nameless<B: TermBank>(&self, bank: &B, nodes: &[Term]) -> bool
        requires { AllHeld (B.store bank.now) nodes.now }
        ensures { result ≡ list_any
            (λ r. is_nameless self.now (held_tree (B.store bank.now) r)) nodes.now }
    {
        nodes.iter().any(|node| self.symbol(bank, *node).is_none())
    }

    /// Returns whether a term with a declared symbol has the wrong number of arguments.
    fn is_misfilled<B: TermBank>(&self, bank: &B, node: Term) -> bool
        requires { IsSome (tree_at (B.store bank.now) node) }
        ensures { result ≡ is_misfilled self.now (held_tree (B.store bank.now) node) }
    {
        let symbol = self.symbol(bank, node);
        let count = argument_count(bank, node);
        symbol.is_some() && count as usize != self.arguments(symbol).len()
    }

    /// Returns whether one of these subterms has the wrong number of arguments.
    fn any_misfilled<B: TermBank>(&self, bank: &B, nodes: &[Term]) -> bool
        requires { AllHeld (B.store bank.now) nodes.now }
        ensures { result ≡ list_any
            (λ r. is_misfilled self.now (held_tree (B.store bank.now) r)) nodes.now }
    {
        nodes.iter().any(|node| self.is_misfilled(bank, *node))
    }

    /// Returns whether an argument of a term has another sort than declared for its position.
    fn has_misfit<B: TermBank>(&self, bank: &B, node: Term) -> bool
        requires { IsSome (tree_at (B.store bank.now) node) }
        ensures { result ≡ has_misfit self.now (held_tree (B.store bank.now) node) }
    {
        let Kind::Appl(_) = bank.kind(node) else {
            return false;
        };
        let mut rest = bank.args(node);
        for sort in self.arguments(self.symbol(bank, node)) {
            let Kind::Cons = bank.kind(rest) else {
                return false;
            };
            if self.sort(self.symbol(bank, bank.head(rest))) != *sort {
                return true;
            }
            rest = bank.tail(rest);
        }
        false
    }

    /// Returns whether one of these subterms has an argument of another sort than declared.
    fn any_misfit<B: TermBank>(&self, bank: &B, nodes: &[Term]) -> bool
        requires { AllHeld (B.store bank.now) nodes.now }
        ensures { result ≡ list_any
            (λ r. has_misfit self.now (held_tree (B.store bank.now) r)) nodes.now }
    {
        nodes.iter().any(|node| self.has_misfit(bank, *node))
    }

    /// Returns the postfix item of a term whose symbol is declared.
    fn node_letter<B: TermBank>(&self, bank: &B, node: Term) -> Letter
        requires { IsSome (tree_at (B.store bank.now) node) }
        ensures { result ≡ node_letter self.now (held_tree (B.store bank.now) node) }
    {
        Letter {
            meaning: self.symbol(bank, node).unwrap_or(Meaning::Symbol(0)),
            count: argument_count(bank, node),
        }
    }

    /// Returns the postfix form of a term.
    fn letters_of<B: TermBank>(
        &self,
        alloc: Global,
        bank: &B,
        term: Term,
    ) -> Result<Vec<Letter>, AllocError>
        requires { IsSome (tree_at (B.store bank.now) term) }
        ensures { IfOk result (λ v. v.items ≡ reverse
            (map (node_letter self.now) (backwards (held_tree (B.store bank.now) term)))) }
    {
        let found = term_nodes(alloc, bank, term)?;
        let mut letters = Vec::new(alloc);
        for node in &found {
            letters.push(self.node_letter(bank, *node))?;
        }
        letters.reverse();
        Ok(letters)
    }

    /// Returns the lowest-numbered of the rules T2 to T6 that these subterms violate. Only those in
    /// `inner` must not have annotations.
    fn first_broken<B: TermBank>(&self, bank: &B, all: &[Term], inner: &[Term]) -> Option<u8>
        requires all { AllHeld (B.store bank.now) all.now }
        requires inner { AllHeld (B.store bank.now) inner.now }
        ensures { result ≡ broken_by_nodes self.now (held_trees (B.store bank.now) all.now)
            (held_trees (B.store bank.now) inner.now) }
    {
        if any_no_application(bank, all) {
            Some(2)
        } else if any_annotated(bank, inner) {
            Some(3)
        } else if self.any_nameless(bank, all) {
            Some(4)
        } else if self.any_misfilled(bank, all) {
            Some(5)
        } else if self.any_misfit(bank, all) {
            Some(6)
        } else {
            None
        }
    }

    /// Returns the postfix form of each of these terms, in their order.
    fn letters_of_all<B: TermBank>(
        &self,
        alloc: Global,
        bank: &B,
        terms: &[Term],
    ) -> Result<Vec<Vec<Letter>>, AllocError>
        requires { AllHeld (B.store bank.now) terms.now }
        ensures { IfOk result (λ v. map (λ letters. letters.items) v.items ≡ map (λ r. reverse
            (map (node_letter self.now) (backwards (held_tree (B.store bank.now) r)))) terms.now) }
    {
        let mut letters = Vec::new(alloc);
        for term in terms {
            letters.push(self.letters_of(alloc, bank, *term)?)?;
        }
        Ok(letters)
    }

    /// Returns the lowest-numbered of the rules T2 to T6 that the items of a list violate.
    fn broken_by_items<B: TermBank>(
        &self,
        alloc: Global,
        bank: &B,
        list: Term,
    ) -> Result<Option<u8>, AllocError>
        requires { IsSome (tree_at (B.store bank.now) list) }
        ensures { IfOk result (λ r. r ≡ broken_by_all self.now
            (to_list (items_of (held_tree (B.store bank.now) list)))) }
    {
        let found = list_nodes(alloc, bank, list)?;
        Ok(self.first_broken(bank, &found.all, &found.inner))
    }

    /// Returns whether `number` is the lowest-numbered of the rules T2 to T6 that this term
    /// violates on its own.
    fn breaks_alone<B: TermBank>(
        &self,
        alloc: Global,
        bank: &B,
        term: Term,
        number: u8,
    ) -> Result<bool, AllocError>
        requires { IsSome (tree_at (B.store bank.now) term) }
        ensures { IfOk result
            (λ r. r ≡ is_broken_alone self.now number (held_tree (B.store bank.now) term)) }
    {
        let mut terms = Vec::new(alloc);
        terms.push(term)?;
        let found = nodes_among(alloc, bank, terms)?;
        Ok(self.first_broken(bank, &found.all, &found.inner) == Some(number))
    }

    /// Returns the index, from 0, of the first input term that violates this rule on its own.
    fn first_breaking<B: TermBank>(
        &self,
        alloc: Global,
        bank: &B,
        terms: &[Term],
        number: u8,
    ) -> Result<Option<usize>, AllocError>
        requires { AllHeld (B.store bank.now) terms.now }
        ensures { IfOk result (λ r. r ≡ position_from
            (λ t. is_broken_alone self.now number (held_tree (B.store bank.now) t)) 0 terms.now) }
    {
        for (at, term) in terms.iter().enumerate() {
            if self.breaks_alone(alloc, bank, *term, number)? {
                return Ok(Some(at));
            }
        }
        Ok(None)
    }

    /// Returns the index, from 0, of the first item of a list that violates this rule on its own.
    fn first_breaking_item<B: TermBank>(
        &self,
        alloc: Global,
        bank: &B,
        list: Term,
        number: u8,
    ) -> Result<Option<usize>, AllocError>
        requires { IsSome (tree_at (B.store bank.now) list) }
        ensures { IfOk result (λ r. r ≡ position (is_broken_alone self.now number)
            (to_list (items_of (held_tree (B.store bank.now) list)))) }
    {
        let items = list_items(alloc, bank, list)?;
        self.first_breaking(alloc, bank, &items, number)
    }
}

/// Returns the lowest-numbered of the rules T1 to T6 that a list of input terms violates.
fn broken_rule<B: TermBank>(
    alloc: Global,
    checked: &Checked,
    bank: &B,
    list: Term,
) -> Result<Option<u8>, AllocError>
    requires { IsSome (tree_at (B.store bank.now) list) }
    ensures { IfOk result
        (λ r. r ≡ broken_by_terms checked.now.spec (held_tree (B.store bank.now) list)) }
{
    if !is_plain_list(bank, list) {
        return Ok(Some(1));
    }
    let scope = scope_of(alloc, checked.syntax())?;
    scope.broken_by_items(alloc, bank, list)
}

/// Checks a list of input terms against the rules T1 to T6. Returns `Rule` with the number of the
/// lowest-numbered violated rule, or `Memory` if an allocation failed. The store is only read. A
/// shared argument is visited once: takes expected time linear in the length of the list and in the
/// number of different subterms, with their arguments and the lengths of their names, and memory for
/// a set of these subterms.
pub fn check_terms<B: TermBank>(
    alloc: Global,
    checked: &Checked,
    bank: &B,
    list: Term,
) -> Result<(), TermsFault>
    requires { IsSome (tree_at (B.store bank.now) list) }
    ensures kept { OnOk result (IfSome (tree_at (B.store bank.now) list)
        (λ t. broken_by_terms checked.now.spec t ≡ None)) }
    ensures broken { IfErr result (λ fault. IfSome (tree_at (B.store bank.now) list)
        (λ t. IsTermsFault (broken_by_terms checked.now.spec t) fault)) }
{
    match broken_rule(alloc, checked, bank, list) {
        Ok(None) => Ok(()),
        Ok(Some(number)) => Err(TermsFault::Rule { number }),
        Err(_) => Err(TermsFault::Memory),
    }
}

/// Returns the index, from 0, of the first input term that on its own violates the rule that the
/// list violates. Returns `None` if no rule is violated, or if the term is not a list without
/// annotations. Takes the time of `check_terms` for the list, and then for each term on its own, up
/// to the first that violates the rule.
pub fn broken_element<B: TermBank>(
    alloc: Global,
    checked: &Checked,
    bank: &B,
    list: Term,
) -> Result<Option<usize>, AllocError>
    requires { IsSome (tree_at (B.store bank.now) list) }
    ensures { IfOk result (λ r. IfSome (tree_at (B.store bank.now) list)
        (λ t. r ≡ broken_element checked.now.spec t)) }
{
    if !is_plain_list(bank, list) {
        return Ok(None);
    }
    let Some(number) = broken_rule(alloc, checked, bank, list)? else {
        return Ok(None);
    };
    let scope = scope_of(alloc, checked.syntax())?;
    scope.first_breaking_item(alloc, bank, list, number)
}

/// Returns the postfix form of each input term, in their order. The terms violate no rule. Takes
/// time linear in the size of the terms as trees.
pub fn term_letters<B: TermBank>(
    alloc: Global,
    checked: &Checked,
    bank: &B,
    list: Term,
) -> Result<Vec<Vec<Letter>>, AllocError>
    requires held { IsSome (tree_at (B.store bank.now) list) }
    requires kept { IfSome (tree_at (B.store bank.now) list)
        (λ t. broken_by_terms checked.now.spec t ≡ None) }
    ensures letters { IfOk result (λ v. (t : Tree) (ts : List Tree)
        → tree_at (B.store bank.now) list ≡ Some t → elements t ≡ Some ts →
        Pairwise (λ ls u. AreLetters checked.now.spec ls.items (term_of u)) v.items ts) }
{
    let elements = list_items(alloc, bank, list)?;
    let scope = scope_of(alloc, checked.syntax())?;
    scope.letters_of_all(alloc, bank, &elements)
}
