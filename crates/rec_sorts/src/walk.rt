//! Walks over terms of a store, with a stack of term references.

ghost use Rattle.std.specs.Prelude.{◌≡◌, ◌++◌, IsSome, IfOk, OnOk, flat_map};
ghost use Rattle.rx_term.specs.Tree.{to_list, items_of};
ghost use Rattle.rx_term.specs.Store.{tree_at};
ghost use Rattle.rx_term.specs.Walks.{AllHeld, held_tree, held_trees};
ghost use Rattle.rec_sorts.specs.TermRules.{arguments};
ghost use Rattle.rec_sorts.specs.ListNodes.{AreNodes};
ghost use Rattle.rec_sorts.specs.Walking.{AreDifferent, SameTrees, backwards, unstacked};

use rx_term::{Kind, Term, TermBank};
use std::alloc::{AllocError, Global};
use std::collections::HashSet;

/// The subterms of some terms, and the subterms of their arguments.
#[derive(Drop)]
pub struct ListNodes {
    pub all: Vec<Term>,
    pub inner: Vec<Term>,
}

/// Pushes the items of a list, in their order. Pushes nothing if the term is not a list.
pub fn push_items<B: TermBank>(
    bank: &B,
    list: Term,
    stack: &mut Vec<Term>,
) -> Result<(), AllocError>
    requires list { IsSome (tree_at (B.store bank.now) list) }
    requires stack { AllHeld (B.store bank.now) stack.old.items }
    ensures held { OnOk result (AllHeld (B.store bank.now) stack.new.items) }
    ensures trees { OnOk result (held_trees (B.store bank.now) stack.new.items ≡ held_trees (B.store
        bank.now) stack.old.items ++ to_list (items_of (held_tree (B.store bank.now) list))) }
{
    let mut rest = list;
    while let Kind::Cons = bank.kind(rest) {
        stack.push(bank.head(rest))?;
        rest = bank.tail(rest);
    }
    Ok(())
}

/// Returns the items of a list, in their order. Returns none if the term is not a list.
pub fn list_items<B: TermBank>(alloc: Global, bank: &B, list: Term) -> Result<Vec<Term>, AllocError>
    requires { IsSome (tree_at (B.store bank.now) list) }
    ensures held { IfOk result (λ v. AllHeld (B.store bank.now) v.items) }
    ensures trees { IfOk result (λ v. held_trees (B.store bank.now) v.items
        ≡ to_list (items_of (held_tree (B.store bank.now) list))) }
{
    let mut items = Vec::new(alloc);
    push_items(bank, list, &mut items)?;
    Ok(items)
}

/// Pushes the arguments of a term, from left to right. Pushes nothing if it is not an application.
fn push_arguments<B: TermBank>(
    bank: &B,
    term: Term,
    stack: &mut Vec<Term>,
) -> Result<(), AllocError>
    requires term { IsSome (tree_at (B.store bank.now) term) }
    requires stack { AllHeld (B.store bank.now) stack.old.items }
    ensures held { OnOk result (AllHeld (B.store bank.now) stack.new.items) }
    ensures trees { OnOk result (held_trees (B.store bank.now) stack.new.items ≡ held_trees (B.store
        bank.now) stack.old.items ++ to_list (arguments (held_tree (B.store bank.now) term))) }
{
    if let Kind::Appl(_) = bank.kind(term) {
        push_items(bank, bank.args(term), stack)
    } else {
        Ok(())
    }
}

/// Returns the arguments of some terms, from left to right.
fn arguments<B: TermBank>(alloc: Global, bank: &B, terms: &[Term]) -> Result<Vec<Term>, AllocError>
    requires { AllHeld (B.store bank.now) terms.now }
    ensures held { IfOk result (λ v. AllHeld (B.store bank.now) v.items) }
    ensures trees { IfOk result (λ v. held_trees (B.store bank.now) v.items ≡ flat_map
        (λ t. to_list (arguments t)) (held_trees (B.store bank.now) terms.now)) }
{
    let mut found = Vec::new(alloc);
    for term in terms {
        push_arguments(bank, *term, &mut found)?;
    }
    Ok(found)
}

/// Returns the subterms of the terms on a stack, beginning with the last term. A subterm comes
/// before its arguments, and arguments come from right to left.
fn nodes<B: TermBank>(
    alloc: Global,
    bank: &B,
    mut stack: Vec<Term>,
) -> Result<Vec<Term>, AllocError>
    requires { AllHeld (B.store bank.now) stack.items }
    ensures held { IfOk result (λ v. AllHeld (B.store bank.now) v.items) }
    ensures trees { IfOk result (λ v. held_trees (B.store bank.now) v.items ≡ unstacked
        (held_trees (B.store bank.now) stack.items)) }
{
    let mut found = Vec::new(alloc);
    while let Some(node) = stack.pop() {
        found.push(node)?;
        push_arguments(bank, node, &mut stack)?;
    }
    Ok(found)
}

/// Returns the subterms of a term: the root first, arguments from right to left.
pub fn term_nodes<B: TermBank>(alloc: Global, bank: &B, term: Term) -> Result<Vec<Term>, AllocError>
    requires { IsSome (tree_at (B.store bank.now) term) }
    ensures held { IfOk result (λ v. AllHeld (B.store bank.now) v.items) }
    ensures trees { IfOk result (λ v. held_trees (B.store bank.now) v.items ≡ backwards
        (held_tree (B.store bank.now) term)) }
{
    let mut stack = Vec::new(alloc);
    stack.push(term)?;
    nodes(alloc, bank, stack)
}

/// Returns the different subterms of the terms on a stack, each of them once.
fn distinct_nodes<B: TermBank>(
    alloc: Global,
    bank: &B,
    mut stack: Vec<Term>,
) -> Result<Vec<Term>, AllocError>
    requires { AllHeld (B.store bank.now) stack.items }
    ensures held { IfOk result (λ v. AllHeld (B.store bank.now) v.items) }
    ensures same { IfOk result (λ v. SameTrees (held_trees (B.store bank.now) v.items) (unstacked
        (held_trees (B.store bank.now) stack.items))) }
    ensures distinct { IfOk result (λ v. AreDifferent v.items) }
{
    let mut found = Vec::new(alloc);
    let mut visited = HashSet::new(alloc);
    while let Some(term) = stack.pop() {
        let is_new = visited.insert(term.0)?;
        if !is_new {
            continue;
        }
        found.push(term)?;
        push_arguments(bank, term, &mut stack)?;
    }
    Ok(found)
}

/// Returns the subterms of some terms, and the subterms of their arguments. Each different subterm of
/// an argument is visited once.
pub fn nodes_among<B: TermBank>(
    alloc: Global,
    bank: &B,
    terms: Vec<Term>,
) -> Result<ListNodes, AllocError>
    requires { AllHeld (B.store bank.now) terms.items }
    ensures { IfOk result
        (AreNodes (B.store bank.now) (held_trees (B.store bank.now) terms.items)) }
{
    let below = arguments(alloc, bank, &terms)?;
    let inner = distinct_nodes(alloc, bank, below)?;
    let mut all = terms;
    all.extend_from_slice(&inner)?;
    Ok(ListNodes { all, inner })
}

/// Returns the subterms of a list's items, and the subterms of their arguments.
pub fn list_nodes<B: TermBank>(alloc: Global, bank: &B, list: Term) -> Result<ListNodes, AllocError>
    requires { IsSome (tree_at (B.store bank.now) list) }
    ensures { IfOk result
        (AreNodes (B.store bank.now) (to_list (items_of (held_tree (B.store bank.now) list)))) }
{
    let items = list_items(alloc, bank, list)?;
    nodes_among(alloc, bank, items)
}
