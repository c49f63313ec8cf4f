//! The applications in a value.

ghost use Rattle.std.specs.Prelude.{◌≡◌, [], IfOk, IsSome, OnOk};
ghost use Rattle.rx_term.specs.Store.{tree_at};
ghost use Rattle.rx_term.specs.Walks.{held_tree};
ghost use Rattle.rec_stuck.specs.Stuck.{applications, different};
ghost use Rattle.rx_term.specs.Tree.{Tree};
ghost use Rattle.rec_stuck.specs.Inner.Visits.{AreThere, CanVisit, Enters, Walked, trees_of};

use indexmap::IndexSet;
use rx_term::{Kind, Term, TermBank};
use std::alloc::{AllocError, Global};

/// The next visit of a walk over a value.
#[derive(Clone, Copy, Drop)]
pub(crate) enum Visit {
    /// Enters a tree.
    Enter(Term),
    /// Leaves an application, after all applications inside of it.
    Leave(Term),
}

/// Returns the references of the different applications in a value, each after those inside of it,
/// from left to right.
pub(crate) fn applications<B: TermBank>(
    alloc: Global,
    bank: &B,
    value: Term,
) -> Result<IndexSet<u32>, AllocError>
    requires { IsSome (tree_at (B.store bank.now) value) }
    ensures there { IfOk result (λ left. AreThere (B.store bank.now) left.keys) }
    ensures trees { IfOk result (λ left. trees_of (B.store bank.now) left.keys
        ≡ different (applications (held_tree (B.store bank.now) value))) }
{
    let mut visits = Vec::new(alloc);
    visits.push(Visit::Enter(value))?;
    let mut left = IndexSet::new(alloc);
    leave_all(bank, &mut visits, &mut left)?;
    Ok(left)
}

/// Makes the visits and all that follow from them. Afterwards `left` has the applications that they
/// leave.
fn leave_all<B: TermBank>(
    bank: &B,
    visits: &mut Vec<Visit>,
    left: &mut IndexSet<u32>,
) -> Result<(), AllocError>
    requires can { CanVisit (B.store bank.now) visits.old.items }
    requires there { AreThere (B.store bank.now) left.old.keys }
    ensures there { OnOk result (AreThere (B.store bank.now) left.new.keys) }
    ensures walked { OnOk result ((v : Tree)
        → Walked (B.store bank.now) v left.old.keys visits.old.items
        → Walked (B.store bank.now) v left.new.keys []) }
{
    while let Some(visit) = visits.pop() {
        match visit {
            Visit::Leave(t) => {
                left.insert(t.0)?;
            }
            Visit::Enter(t) => enter(bank, t, left, visits)?,
        }
    }
    Ok(())
}

/// Enters a tree: its parts are visited next, from left to right, and then the tree itself if it is
/// an application. An application in `left` is skipped.
fn enter<B: TermBank>(
    bank: &B,
    t: Term,
    left: &IndexSet<u32>,
    visits: &mut Vec<Visit>,
) -> Result<(), AllocError>
    requires { IsSome (tree_at (B.store bank.now) t) }
    ensures { OnOk result
        (Enters (B.store bank.now) t left.now.keys visits.old.items visits.new.items) }
{
    match bank.kind(t) {
        Kind::Appl(_) if left.contains(&t.0) => Ok(()),
        Kind::Appl(_) => {
            visits.push(Visit::Leave(t))?;
            visits.push(Visit::Enter(bank.args(t)))?;
            Ok(())
        }
        Kind::Cons => {
            visits.push(Visit::Enter(bank.tail(t)))?;
            visits.push(Visit::Enter(bank.head(t)))?;
            Ok(())
        }
        Kind::Int(_) | Kind::Nil | Kind::Hole => Ok(()),
    }
}
