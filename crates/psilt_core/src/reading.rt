//! The parts of terms.

ghost use Rattle.std.specs.Prelude.{◌≡◌, IsSome};
ghost use Rattle.rx_term.specs.Store.{tree_at, head_of, tail_of, args_of, inner_of, anns_of};
ghost use Rattle.rx_term.specs.Kinds.{HasKind};
ghost use Rattle.rx_shared.specs.State.{store_of as terms_in};
ghost use Rattle.psilt_core.specs.Banks.{store_of};
ghost use Rattle.psilt_core.specs.Answers.{Looks, ReadsPart, ReadsArg, ReadsSymbol};
ghost use Rattle.psilt_core.specs.Answers.{ReadsOf, quoted_in, arity_in, item_in, IsPlaceIn};

use crate::{Fault, Work};
use rx_shared::SharedBank;
use rx_term::{Kind, Symbol, Term, TermBank};

impl Work {
    /// Checks that the reference is in the store. `Stale` if it is not.
    pub fn holds(&self, t: Term) -> Result<(), Fault>
        ensures { let w = store_of self.now.bank in
            Looks w t (λ (_ : Unit {0}). IsSome (tree_at w t)) result }
    {
        if self.bank.shared_bank().holds(t) {
            Ok(())
        } else {
            Err(Fault::Stale)
        }
    }

    /// Returns the kind of a term.
    pub fn kind(&self, t: Term) -> Result<Kind, Fault>
        ensures { Looks (store_of self.now.bank) t (HasKind (store_of self.now.bank) t) result }
    {
        let bank = self.bank.shared_bank();
        if bank.holds(t) {
            Ok(bank.kind(t))
        } else {
            Err(Fault::Stale)
        }
    }

    /// Returns the first item of a list.
    pub fn head(&self, t: Term) -> Result<Term, Fault>
        ensures { ReadsPart (store_of self.now.bank) t head_of result }
    {
        let bank = self.bank.shared_bank();
        if !bank.holds(t) {
            return Err(Fault::Stale);
        }
        match bank.kind(t) {
            Kind::Int(_) => Err(Fault::Kind),
            Kind::Nil => Err(Fault::Kind),
            Kind::Cons => Ok(bank.head(t)),
            Kind::Appl(_) => Err(Fault::Kind),
            Kind::Hole => Err(Fault::Kind),
        }
    }

    /// Returns a list without its first item and without annotations.
    pub fn tail(&self, t: Term) -> Result<Term, Fault>
        ensures { ReadsPart (store_of self.now.bank) t tail_of result }
    {
        let bank = self.bank.shared_bank();
        if !bank.holds(t) {
            return Err(Fault::Stale);
        }
        match bank.kind(t) {
            Kind::Int(_) => Err(Fault::Kind),
            Kind::Nil => Err(Fault::Kind),
            Kind::Cons => Ok(bank.tail(t)),
            Kind::Appl(_) => Err(Fault::Kind),
            Kind::Hole => Err(Fault::Kind),
        }
    }

    /// Returns the arguments of an application, as a list.
    pub fn args(&self, t: Term) -> Result<Term, Fault>
        ensures { ReadsPart (store_of self.now.bank) t args_of result }
    {
        let bank = self.bank.shared_bank();
        if !bank.holds(t) {
            return Err(Fault::Stale);
        }
        match bank.kind(t) {
            Kind::Int(_) => Err(Fault::Kind),
            Kind::Nil => Err(Fault::Kind),
            Kind::Cons => Err(Fault::Kind),
            Kind::Appl(_) => Ok(bank.args(t)),
            Kind::Hole => Err(Fault::Kind),
        }
    }

    /// Returns the term inside a placeholder.
    pub fn inner(&self, t: Term) -> Result<Term, Fault>
        ensures { ReadsPart (store_of self.now.bank) t inner_of result }
    {
        let bank = self.bank.shared_bank();
        if !bank.holds(t) {
            return Err(Fault::Stale);
        }
        match bank.kind(t) {
            Kind::Int(_) => Err(Fault::Kind),
            Kind::Nil => Err(Fault::Kind),
            Kind::Cons => Err(Fault::Kind),
            Kind::Appl(_) => Err(Fault::Kind),
            Kind::Hole => Ok(bank.inner(t)),
        }
    }

    /// Returns the annotations, as a list. `Kind` if there are none.
    pub fn annotations(&self, t: Term) -> Result<Term, Fault>
        ensures { ReadsPart (store_of self.now.bank) t anns_of result }
    {
        let bank = self.bank.shared_bank();
        if !bank.holds(t) {
            return Err(Fault::Stale);
        }
        match bank.anns(t) {
            Some(anns) => Ok(anns),
            None => Err(Fault::Kind),
        }
    }

    /// Returns the symbol of an application.
    pub(crate) fn symbol_of(&self, t: Term) -> Result<Symbol, Fault>
        ensures { ReadsSymbol (store_of self.now.bank) t result }
    {
        let bank = self.bank.shared_bank();
        if !bank.holds(t) {
            return Err(Fault::Stale);
        }
        match bank.kind(t) {
            Kind::Int(_) => Err(Fault::Kind),
            Kind::Nil => Err(Fault::Kind),
            Kind::Cons => Err(Fault::Kind),
            Kind::Appl(symbol) => Ok(symbol),
            Kind::Hole => Err(Fault::Kind),
        }
    }

    /// Returns the argument of an application with the index `i`, from 0. `Range` if it has no more
    /// than `i` arguments.
    pub fn arg(&self, t: Term, i: u32) -> Result<Term, Fault>
        ensures { ReadsArg (store_of self.now.bank) t i result }
    {
        let symbol = match self.symbol_of(t) {
            Ok(symbol) => symbol,
            Err(fault) => return Err(fault),
        };
        let bank = self.bank.shared_bank();
        if i >= bank.arity_of(symbol) {
            return Err(Fault::Range);
        }
        Ok(item(bank, bank.args(t), i))
    }

    /// Returns whether the name of an application is quoted.
    pub fn is_quoted(&self, t: Term) -> Result<bool, Fault>
        ensures { ReadsOf (store_of self.now.bank) t quoted_in result }
    {
        match self.symbol_of(t) {
            Ok(symbol) => Ok(self.bank.shared_bank().quoted_of(symbol)),
            Err(fault) => Err(fault),
        }
    }

    /// Returns the number of arguments of an application.
    pub fn arity(&self, t: Term) -> Result<u32, Fault>
        ensures { ReadsOf (store_of self.now.bank) t arity_in result }
    {
        match self.symbol_of(t) {
            Ok(symbol) => Ok(self.bank.shared_bank().arity_of(symbol)),
            Err(fault) => Err(fault),
        }
    }
}

/// Returns the item of a list with the index `i`, from 0.
fn item(bank: &SharedBank, list: Term, i: u32) -> Term
    requires { IsPlaceIn i (tree_at (terms_in bank.now) list) }
    ensures { let w = terms_in bank.now in
        tree_at w result ≡ item_in i (tree_at w list) }
{
    let mut list = list;
    let mut left = i;
    while left > 0 {
        list = bank.tail(list);
        left -= 1;
    }
    bank.head(list)
}
