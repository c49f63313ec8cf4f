//! A store that counts the calls of its readers.

use rx_term::{BankFault, Kind, RootsFull, Symbol, Term, TermBank};
use std::cell::Cell;

/// A store, and the number of nodes that were read.
#[derive(Drop)]
pub struct Counting<B> {
    pub bank: B,
    pub reads: Cell<u32>,
}

impl<B> Counting<B> {
    /// Counts one call.
    fn count(&self) {
        self.reads.set(self.reads.get().saturating_add(1));
    }
}

impl<B: TermBank> TermBank for Counting<B> {
    ghost store = { λ b. B.store b.bank };

    fn symbol(&mut self, name: &[u8], quoted: bool, arity: u32) -> Result<Symbol, BankFault> {
        self.bank.symbol(name, quoted, arity)
    }

    fn int(&mut self, z: i32) -> Result<Term, BankFault> {
        self.bank.int(z)
    }

    fn nil(&mut self) -> Result<Term, BankFault> {
        self.bank.nil()
    }

    fn cons(&mut self, head: Term, tail: Term) -> Result<Term, BankFault> {
        self.bank.cons(head, tail)
    }

    fn appl(&mut self, sym: Symbol, args: Term) -> Result<Term, BankFault> {
        self.bank.appl(sym, args)
    }

    fn hole(&mut self, inner: Term) -> Result<Term, BankFault> {
        self.bank.hole(inner)
    }

    fn annotated(&mut self, t: Term, anns: Term) -> Result<Term, BankFault> {
        self.bank.annotated(t, anns)
    }

    fn kind(&self, t: Term) -> Kind {
        self.count();
        self.bank.kind(t)
    }

    fn head(&self, t: Term) -> Term {
        self.count();
        self.bank.head(t)
    }

    fn tail(&self, t: Term) -> Term {
        self.count();
        self.bank.tail(t)
    }

    fn args(&self, t: Term) -> Term {
        self.count();
        self.bank.args(t)
    }

    fn inner(&self, t: Term) -> Term {
        self.count();
        self.bank.inner(t)
    }

    fn anns(&self, t: Term) -> Option<Term> {
        self.count();
        self.bank.anns(t)
    }

    fn name_of(&self, sym: Symbol) -> &[u8] {
        self.bank.name_of(sym)
    }

    fn quoted_of(&self, sym: Symbol) -> bool {
        self.bank.quoted_of(sym)
    }

    fn arity_of(&self, sym: Symbol) -> u32 {
        self.bank.arity_of(sym)
    }

    fn protect(&mut self, t: Term) -> Result<(), RootsFull> {
        self.bank.protect(t)
    }

    fn unprotect(&mut self, t: Term) {
        self.bank.unprotect(t);
    }

    fn reclaim(&mut self, extra: &[Term]) {
        self.bank.reclaim(extra);
    }

    fn holds(&self, t: Term) -> bool {
        self.bank.holds(t)
    }

    fn cells(&self) -> u32 {
        self.bank.cells()
    }

    fn spare(&self) -> u32 {
        self.bank.spare()
    }

    fn cap(&self) -> u32 {
        self.bank.cap()
    }

    fn reserve(&mut self, k: u32) -> Result<(), BankFault> {
        self.bank.reserve(k)
    }

    ghost sound = { λ b. B.sound b.bank };
}
