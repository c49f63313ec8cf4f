//! Protection and garbage collection.

ghost use Rattle.std.specs.Prelude.{◌≡◌, [], IfOk, OnErr, OnOk};
ghost use Rattle.psilt_core.specs.Banks.{store_of};
ghost use Rattle.psilt_core.specs.Answers.{Protects, Unprotects, Keeps, terms_of};
ghost use Rattle.psilt_core.specs.Works.{IsSameButBank, IsSameButBound};

use crate::{Fault, Work};
use rx_arena::Slot;
use rx_term::{Term, TermBank};
use std::alloc::{AllocError, Global};

impl Work {
    /// Increases the protection count of a term, which makes it a root. `Roots` if the count is
    /// 65,535.
    pub fn protect(&mut self, t: Term) -> Result<(), Fault>
        ensures answer { Protects (store_of self.old.bank) (store_of self.new.bank) t result }
        ensures beside { IsSameButBank self.old self.new }
    {
        if !self.bank.shared_bank().holds(t) {
            return Err(Fault::Stale);
        }
        match self.bank.protect(t) {
            Ok(()) => Ok(()),
            Err(_) => Err(Fault::Roots),
        }
    }

    /// Decreases the protection count of a term. `Unprotected` if the count is 0.
    pub fn unprotect(&mut self, t: Term) -> Result<(), Fault>
        ensures answer { Unprotects (store_of self.old.bank) (store_of self.new.bank) t result }
        ensures beside { IsSameButBank self.old self.new }
    {
        if !self.bank.shared_bank().arena().is_protected(Slot(t.0)) {
            return Err(Fault::Unprotected);
        }
        self.bank.unprotect(t);
        Ok(())
    }

    /// Frees all terms that neither the roots nor the terms of these numbers reach, and drops the
    /// bindings of the last match. After an error the bindings are unchanged.
    pub fn reclaim(&mut self, alloc: Global, kept: &[u32]) -> Result<(), Fault>
        ensures answer { Keeps (store_of self.old.bank) (store_of self.new.bank) kept.now result }
        ensures forgotten { OnOk result (self.new.bound.items ≡ []) }
        ensures unchanged { OnErr result (self.new.bound ≡ self.old.bound) }
        ensures beside { IsSameButBound self.old self.new }
    {
        if !self.are_held(kept) {
            return Err(Fault::Stale);
        }
        let Ok(terms) = references(alloc, kept) else {
            return Err(Fault::Memory);
        };
        self.bank.reclaim(&terms);
        self.bound.clear();
        Ok(())
    }
}

/// Returns the references that have these numbers.
pub(crate) fn references(alloc: Global, numbers: &[u32]) -> Result<Vec<Term>, AllocError>
    ensures { IfOk result (λ v. v.items ≡ terms_of numbers.now) }
{
    numbers.iter().map(|n| Term(*n)).collect(alloc)
}
