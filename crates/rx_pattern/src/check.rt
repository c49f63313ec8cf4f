//! The check whether a term is a pattern.

ghost use Rattle.std.specs.Prelude.{◌≡◌, IsSome, IfSome, OnOk, IfErr, None};
ghost use Rattle.rx_term.specs.Tree.{Tree};
ghost use Rattle.rx_term.specs.Store.{tree_at};
ghost use Rattle.rx_pattern.specs.Pattern.{unfit};
ghost use Rattle.rx_pattern.specs.Checking.{IsWhy, own_known, own_plain, below, PushesTrees};

use crate::faults::PatternFault;
use crate::words::class_of;
use rx_term::{Kind, Term, TermBank};
use std::alloc::{AllocError, Global};

/// Returns false if the tree is a placeholder that is not one of the six.
fn is_known<B: TermBank>(bank: &B, t: Term) -> bool
    requires { IsSome (tree_at (B.store bank.now) t) }
    ensures { (u : Tree) → tree_at (B.store bank.now) t ≡ Some u → result ≡ own_known u }
{
    match bank.kind(t) {
        Kind::Hole => class_of(bank, bank.inner(t)).is_some(),
        _ => true,
    }
}

/// Returns false if the tree is a placeholder with annotations.
fn is_plain<B: TermBank>(bank: &B, t: Term) -> bool
    requires { IsSome (tree_at (B.store bank.now) t) }
    ensures { (u : Tree) → tree_at (B.store bank.now) t ≡ Some u → result ≡ own_plain u }
{
    match bank.kind(t) {
        Kind::Hole => bank.anns(t).is_none(),
        _ => true,
    }
}

/// Pushes the parts of a tree that have to be checked as well.
fn push_below<B: TermBank>(bank: &B, t: Term, stack: &mut Vec<Term>) -> Result<(), AllocError>
    requires { IsSome (tree_at (B.store bank.now) t) }
    ensures { OnOk result ((u : Tree) → tree_at (B.store bank.now) t ≡ Some u
        → PushesTrees (B.store bank.now) (below u) stack.old.items stack.new.items) }
{
    if let Some(anns) = bank.anns(t) {
        stack.push(anns)?;
    }
    match bank.kind(t) {
        Kind::Cons => {
            stack.push(bank.tail(t))?;
            stack.push(bank.head(t))?;
        }
        Kind::Appl(_) => stack.push(bank.args(t))?,
        Kind::Int(_) | Kind::Nil | Kind::Hole => {}
    }
    Ok(())
}

/// Returns an error if the term is not a pattern.
pub fn check<B: TermBank>(alloc: Global, bank: &B, t: Term) -> Result<(), PatternFault>
    requires { IsSome (tree_at (B.store bank.now) t) }
    ensures fit { OnOk result
        ((u : Tree) → tree_at (B.store bank.now) t ≡ Some u → unfit u ≡ None) }
    ensures unfit { IfErr result
        (λ fault. (u : Tree) → tree_at (B.store bank.now) t ≡ Some u → IsWhy fault (unfit u)) }
{
    let mut plain = true;
    let mut stack = Vec::new(alloc);
    stack.push(t)?;
    while let Some(u) = stack.pop() {
        if !is_known(bank, u) {
            return Err(PatternFault::Unknown);
        }
        plain &= is_plain(bank, u);
        push_below(bank, u, &mut stack)?;
    }
    if !plain {
        return Err(PatternFault::Annotated);
    }
    Ok(())
}
