//! Keeping one term and freeing the rest.

ghost use Rattle.std.specs.Prelude.{◌≡◌, ℕ, IsSome, Some, IfOk, IfErr, [], ◌∷◌};
ghost use Rattle.rx_term.specs.Tree.{Tree};
ghost use Rattle.rx_term.specs.Store.{tree_at, cells};
ghost use Rattle.rx_term.specs.Steps.{IsReached};
ghost use Rattle.rx_term.specs.declared.Term.{Term};

use rx_term::{RootsFull, Term, TermBank};

/// Collects everything that neither `t` nor a protected term needs, and returns the number of cells
/// that stay. Returns an error, and changes nothing, if `t` is protected as often as possible.
pub fn keep<B: TermBank>(bank: &mut B, t: Term) -> Result<u32, RootsFull>
    requires { IsSome (tree_at (B.store bank.old) t) }
    ensures kept { tree_at (B.store bank.new) t ≡ tree_at (B.store bank.old) t }
    ensures only { IfOk result
        (λ _. (s : Term) → (u : Tree) → tree_at (B.store bank.new) s ≡ Some u →
        IsReached (B.store bank.old) (t ∷ []) u) }
    ensures roots { (k : ℕ) → (B.store bank.new).roots k ≡ (B.store bank.old).roots k }
    ensures counted { IfOk result (λ n. n ≡ cells (B.store bank.new)) }
    ensures unchanged { IfErr result (λ _. B.store bank.new ≡ B.store bank.old) }
{
    bank.protect(t)?;
    bank.reclaim(&[]);
    bank.unprotect(t);
    Ok(bank.cells())
}
