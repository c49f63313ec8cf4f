//! Copies of terms in other stores.

ghost use Rattle.std.specs.Prelude.{◌≡◌, ℕ, IfErr, IfOk, IfSome, IsSome, Some};
ghost use Rattle.rx_term.specs.Tree.{Tree};
ghost use Rattle.rx_term.specs.Parts.{part_count};
ghost use Rattle.rx_term.specs.Store.{tree_at};
ghost use Rattle.rx_term.specs.Steps.{Grows, IsBankRefusal};
ghost use Rattle.rx_shared.specs.State.{store_of};
ghost use Rattle.rx_table.specs.Inner.Walk.{HasParts};

use crate::made::make_next;
use crate::walk::{Parts, find_parts};
use rx_shared::SharedBank;
use rx_term::{BankFault, Term, TermBank};
use std::alloc::{AllocError, Global};

/// The number of cells of the largest store.
const CELLS: u32 = 1 << 30;

/// Copies the parts of a tree, and returns the copy of the last, which is the tree.
fn copy_parts<B: TermBank, C: TermBank>(
    from: &B,
    parts: &Parts,
    to: &mut C,
) -> Result<Term, BankFault>
    requires { (t : Tree) × HasParts (B.store from.now) t parts.now }
    ensures copied { IfOk result (λ r. (t : Tree) → HasParts (B.store from.now) t parts.now
        → tree_at (C.store to.new) r ≡ Some t) }
    ensures refused { IfErr result (IsBankRefusal (C.store to.new)) }
    ensures grows { Grows (C.store to.old) (C.store to.new) }
{
    let mut made = Vec::new(*parts.inside.allocator());
    while made.len() < parts.terms.len() {
        let copy = make_next(from, parts, &made, to)?;
        if made.push(copy).is_err() {
            return Err(BankFault::Memory);
        }
    }
    Ok(made.pop().unwrap())
}

/// Makes, in the store `to`, the tree of a term of the store `from`. Fails like all functions that
/// make terms, and with `Memory` if an allocation failed. Only adds terms: at most one for each cell
/// of the term, and one for each of its different subterms. Takes expected time in proportion to the
/// cells of the term, where lists that have a tail in common count each by itself, and to 1/1,024 of
/// the greatest reference of a subterm.
pub fn copy_term<B: TermBank, C: TermBank>(
    alloc: Global,
    from: &B,
    t: Term,
    to: &mut C,
) -> Result<Term, BankFault>
    requires { IsSome (tree_at (B.store from.now) t) }
    ensures copied { IfOk result (λ r. tree_at (C.store to.new) r ≡ tree_at (B.store from.now) t) }
    ensures refused { IfErr result (IsBankRefusal (C.store to.new)) }
    ensures grows { Grows (C.store to.old) (C.store to.new) }
{
    let Ok(parts) = find_parts(alloc, from, t) else {
        return Err(BankFault::Memory);
    };
    copy_parts(from, &parts, to)
}

/// Returns an empty store for as many cells as a store can have.
pub(crate) fn own_bank(alloc: Global) -> Result<SharedBank, AllocError>
    ensures { IfOk result (λ own. (r : ℕ) → (store_of own).roots r ≡ 0) }
{
    match SharedBank::new(alloc, CELLS) {
        Ok(own) => Ok(own),
        Err(_) => Err(AllocError),
    }
}

/// Copies a term to the empty store `own`, and returns the number of its cells.
fn count_in<B: TermBank, C: TermBank>(
    alloc: Global,
    bank: &B,
    t: Term,
    own: &mut C,
) -> Result<u32, AllocError>
    requires held { IsSome (tree_at (B.store bank.now) t) }
    requires unrooted { (r : ℕ) → (C.store own.old).roots r ≡ 0 }
    ensures { IfOk result (λ n. IfSome (tree_at (B.store bank.now) t) (λ u. n ≡ part_count u)) }
{
    match copy_term(alloc, bank, t, own) {
        Ok(copy) => {
            own.reclaim(&[copy]);
            Ok(own.cells())
        }
        Err(_) => Err(AllocError),
    }
}

/// Returns the number of cells of a term. The only error is out of memory. The term is copied, which
/// takes the time of [`copy_term`] and memory in proportion to the cells of the term, and to its
/// pages of references (see the crate's root).
pub fn count_cells<B: TermBank>(alloc: Global, bank: &B, t: Term) -> Result<u32, AllocError>
    requires { IsSome (tree_at (B.store bank.now) t) }
    ensures { IfOk result (λ n. IfSome (tree_at (B.store bank.now) t) (λ u. n ≡ part_count u)) }
{
    let mut own = own_bank(alloc)?;
    count_in(alloc, bank, t, &mut own)
}
