//! Cells that a term store makes.

ghost use Rattle.std.specs.Prelude.{IsSome};
ghost use Rattle.rx_term.specs.Steps.{MakesOrRefuses};
ghost use Rattle.rec_engine.specs.Cells.{built};

use rx_term::{BankFault, Symbol, Term, TermBank};

/// A cell to make.
#[derive(Clone, Copy)]
pub(crate) enum Node {
    Nil,
    Cons(Term, Term),
    Appl(Symbol, Term),
    Annotated(Term, Term),
}

/// Makes a cell, with one attempt.
#[inline(always)]
pub(crate) fn make_once<B: TermBank>(bank: &mut B, node: Node) -> Result<Term, BankFault>
    requires { IsSome (built (B.store bank.old) node) }
    ensures { MakesOrRefuses (B.store bank.old) (B.store bank.new)
        (built (B.store bank.old) node) result }
{
    match node {
        Node::Nil => bank.nil(),
        Node::Cons(head, tail) => bank.cons(head, tail),
        Node::Appl(f, args) => bank.appl(f, args),
        Node::Annotated(t, anns) => bank.annotated(t, anns),
    }
}

/// Outlined [`make_once`], for rare cells.
#[inline(never)]
fn make_behind<B: TermBank>(bank: &mut B, node: Node) -> Result<Term, BankFault>
    requires { IsSome (built (B.store bank.old) node) }
    ensures { MakesOrRefuses (B.store bank.old) (B.store bank.new)
        (built (B.store bank.old) node) result }
{
    make_once(bank, node)
}

/// Makes a cell from a copy of its parts. A called function takes them in memory, so that those of
/// the common path need not be there.
#[inline(always)]
pub(crate) fn make_apart<B: TermBank>(bank: &mut B, node: Node) -> Result<Term, BankFault>
    requires { IsSome (built (B.store bank.old) node) }
    ensures { MakesOrRefuses (B.store bank.old) (B.store bank.new)
        (built (B.store bank.old) node) result }
{
    match node {
        Node::Nil => make_behind(bank, Node::Nil),
        Node::Cons(head, tail) => make_behind(bank, Node::Cons(head, tail)),
        Node::Appl(f, args) => make_behind(bank, Node::Appl(f, args)),
        Node::Annotated(t, anns) => make_behind(bank, Node::Annotated(t, anns)),
    }
}
