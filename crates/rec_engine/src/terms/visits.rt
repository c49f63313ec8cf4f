//! The walk over the different subterms of a term, each of which is entered and left once.

ghost use Rattle.std.specs.Prelude.{◌≡◌, OnOk, Some};
ghost use Rattle.rx_term.specs.Tree.{list_of};
ghost use Rattle.rx_term.specs.Store.{args_of, part_at};
ghost use Rattle.rx_term.specs.Walks.{held_tree};
ghost use Rattle.rec_sorts.specs.TermRules.{arguments};
ghost use Rattle.rec_engine.specs.Inner.Visits.{EntersNode};

use rx_term::{Kind, Term, TermBank};
use std::alloc::AllocError;

/// The next visit of a walk over the different subterms of a term.
#[derive(Clone, Copy, Drop)]
pub(crate) enum Visit {
    /// Enters a term: its arguments are visited next.
    Enter(Term),
    /// Leaves a term, after all its arguments.
    Leave(Term),
}

/// Enters an application: its arguments are visited next, and then it is left.
pub(crate) fn enter_node<N: TermBank>(
    bank: &N,
    node: Term,
    visits: &mut Vec<Visit>,
) -> Result<(), AllocError>
    requires { part_at args_of (N.store bank.now) node
        ≡ Some (list_of (arguments (held_tree (N.store bank.now) node))) }
    ensures { OnOk result
        (EntersNode (N.store bank.now) node visits.old.items visits.new.items) }
{
    visits.push(Visit::Leave(node))?;
    let mut rest = bank.args(node);
    while let Kind::Cons = bank.kind(rest) {
        visits.push(Visit::Enter(bank.head(rest)))?;
        rest = bank.tail(rest);
    }
    Ok(())
}
