//! Walks over a tree of any depth, with a stack of references.
#![tactic(auto, using(crate::proofs::StoreLemmas::bank_steps))]

ghost use Rattle.std.specs.Prelude.{◌≡◌, IsSome, IfOk, OnOk, Some, length, min};
ghost use Rattle.std.specs.Option.{option_and_then};
ghost use Rattle.rx_term.specs.Parts.{parts};
ghost use Rattle.rx_term.specs.Store.{tree_at};
ghost use Rattle.rx_term.specs.Walks.{PushesInside, PushesAnns};

use crate::{Kind, Term, TermBank};
use std::alloc::{AllocError, Global};

/// Returns the number of parts of a tree, each counted as often as it occurs, or `u64::MAX` if
/// there are more. Takes time linear in that number. Returns an error if an allocation failed.
pub fn count_nodes<B: TermBank>(alloc: Global, bank: &B, t: Term) -> Result<u64, AllocError>
    requires { IsSome (tree_at (B.store bank.now) t) }
    ensures { IfOk result (λ n. Some n ≡
        option_and_then (λ u. Some (min (length (parts u)) u64.MAX))
        (tree_at (B.store bank.now) t)) }
{
    let mut stack = Vec::new(alloc);
    stack.push(t)?;
    let mut count = 0u64;
    while let Some(u) = stack.pop() {
        count = count.saturating_add(1);
        push_inside(bank, u, &mut stack)?;
        push_anns(bank, u, &mut stack)?;
    }
    Ok(count)
}

/// Pushes the parts directly below the root of a tree, except its annotations.
pub fn push_inside<B: TermBank>(bank: &B, u: Term, stack: &mut Vec<Term>) -> Result<(), AllocError>
    requires { IsSome (tree_at (B.store bank.now) u) }
    ensures { OnOk result (PushesInside (B.store bank.now) u stack.old.items stack.new.items) }
{
    match bank.kind(u) {
        Kind::Hole => {
            stack.push(bank.inner(u))?;
            Ok(())
        }
        Kind::Cons => {
            stack.push(bank.head(u))?;
            stack.push(bank.tail(u))?;
            Ok(())
        }
        Kind::Appl(_) => {
            stack.push(bank.args(u))?;
            Ok(())
        }
        Kind::Int(_) => Ok(()),
        Kind::Nil => Ok(()),
    }
}

/// Pushes the annotation list of a tree, if there is one.
pub fn push_anns<B: TermBank>(bank: &B, u: Term, stack: &mut Vec<Term>) -> Result<(), AllocError>
    requires { IsSome (tree_at (B.store bank.now) u) }
    ensures { OnOk result (PushesAnns (B.store bank.now) u stack.old.items stack.new.items) }
{
    match bank.anns(u) {
        Some(anns) => {
            stack.push(anns)?;
            Ok(())
        }
        None => Ok(()),
    }
}
