//! Trees that are made in any store: constants, and lists of references.
#![tactic(auto, using(crate::proofs::StoreLemmas::bank_steps))]

ghost use Rattle.std.specs.Prelude.{◌≡◌, ◌≤◌, false, IsSome, IfOk, Some, Contains};
ghost use Rattle.rx_term.specs.Tree.{Appl, none};
ghost use Rattle.rx_term.specs.Name.{IsAllowed};
ghost use Rattle.rx_term.specs.Store.{tree_at};
ghost use Rattle.rx_term.specs.Steps.{Grows};
ghost use Rattle.rx_term.specs.Walks.{Lists};

use crate::{BankFault, Term, TermBank};

/// Returns the constant with this name: an unquoted symbol without arguments. Uses at most two new
/// cells. Returns `Full` or `Memory` if there is no cell for it.
pub fn constant<B: TermBank>(bank: &mut B, name: &[u8]) -> Result<Term, BankFault>
    requires { IsAllowed name.now false }
    ensures grows { Grows (B.store bank.old) (B.store bank.new) }
    ensures made { IfOk result
        (λ r. tree_at (B.store bank.new) r ≡ Some (Appl name.now false none none)) }
{
    let sym = bank.symbol(name, false, 0)?;
    let nil = bank.nil()?;
    bank.appl(sym, nil)
}

/// Returns the list of these references' trees. Uses at most one new cell for each item and one for
/// the empty list. Returns `Full` or `Memory` if there is no cell for it.
pub fn list<B: TermBank>(bank: &mut B, items: &[Term]) -> Result<Term, BankFault>
    requires { (t : Term) → Contains items.now t → IsSome (tree_at (B.store bank.old) t) }
    ensures grows { Grows (B.store bank.old) (B.store bank.new) }
    ensures made { IfOk result
        (λ r. Lists (B.store bank.old) items.now (tree_at (B.store bank.new) r)) }
{
    let mut list = bank.nil()?;
    let mut left = items.len();
    while left > 0 {
        left -= 1;
        list = bank.cons(items[left], list)?;
    }
    Ok(list)
}
