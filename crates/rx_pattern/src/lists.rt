//! Lists without annotations of their own. `None` in place of a reference is the empty list.

ghost use Rattle.std.specs.Prelude.{◌≡◌, ◌<◌, ◌^◌, IsSome, IfOk, IfErr, Some, None};
ghost use Rattle.rx_term.specs.Tree.{Tree, Trees, none, annotated, annotations, list_of, is_none};
ghost use Rattle.rx_term.specs.Tree.{count_of};
ghost use Rattle.rx_term.specs.Store.{tree_at};
ghost use Rattle.rx_term.specs.Steps.{Grows, IsBankRefusal};
ghost use Rattle.rx_pattern.specs.Held.{AddsOnlyLists};
ghost use Rattle.rx_pattern.specs.Subjects.{IsListed};

use rx_term::{BankFault, Kind, Term, TermBank};

/// Returns whether a list has no items.
pub fn is_empty<B: TermBank>(bank: &B, list: Option<Term>) -> bool
    requires { (ts : Trees) × IsListed (B.store bank.now) list ts }
    ensures { (ts : Trees) → IsListed (B.store bank.now) list ts → result ≡ is_none ts }
{
    match list {
        None => true,
        Some(t) => matches!(bank.kind(t), Kind::Nil),
    }
}

/// Returns these items as a list without annotations.
pub fn plain_list<B: TermBank>(bank: &mut B, list: Option<Term>) -> Result<Term, BankFault>
    requires { (ts : Trees) × IsListed (B.store bank.old) list ts }
    ensures list { IfOk result (λ r. (ts : Trees) → IsListed (B.store bank.old) list ts
        → tree_at (B.store bank.new) r ≡ Some (list_of ts)) }
    ensures refused { IfErr result (IsBankRefusal (B.store bank.new)) }
    ensures grows { Grows (B.store bank.old) (B.store bank.new) }
    ensures added { AddsOnlyLists (B.store bank.old) (B.store bank.new) }
{
    let Some(t) = list else {
        return bank.nil();
    };
    if bank.anns(t).is_none() {
        return Ok(t);
    }
    let nil = bank.nil()?;
    bank.annotated(t, nil)
}

/// Returns the tree with these items as its annotations.
pub fn annotate<B: TermBank>(bank: &mut B, t: Term, anns: Option<Term>) -> Result<Term, BankFault>
    requires bare { (u : Tree) × (tree_at (B.store bank.old) t ≡ Some u) × (annotations u ≡ none) }
    requires list { (as' : Trees) × IsListed (B.store bank.old) anns as' }
    ensures noted { IfOk result (λ r. (u : Tree) (as' : Trees)
        → tree_at (B.store bank.old) t ≡ Some u → IsListed (B.store bank.old) anns as'
        → tree_at (B.store bank.new) r ≡ Some (annotated u as')) }
    ensures refused { IfErr result (IsBankRefusal (B.store bank.new)) }
    ensures grows { Grows (B.store bank.old) (B.store bank.new) }
{
    if anns.is_none() {
        return Ok(t);
    }
    let list = plain_list(bank, anns)?;
    bank.annotated(t, list)
}

/// Returns the number of items of a list.
pub fn count<B: TermBank>(bank: &B, list: Term) -> u32
    requires { (ts : Trees) × (tree_at (B.store bank.now) list ≡ Some (list_of ts)) }
    ensures { (ts : Trees) → tree_at (B.store bank.now) list ≡ Some (list_of ts)
        → result ≡ count_of ts }
{
    let mut rest = list;
    // each tail of a list has a cell of its own, so the number of cells bounds the loop
    let cells = bank.cells();
    for counted in 0..cells {
        if !matches!(bank.kind(rest), Kind::Cons) {
            return counted;
        }
        rest = bank.tail(rest);
    }
    cells
}
