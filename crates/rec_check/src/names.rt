//! Numbers of names.

ghost use Rattle.std.specs.Prelude.{◌≡◌, ◌∷◌, [], ℕ, List, None, IfOk, OnOk, bytes_eq, is_some};
ghost use Rattle.std.specs.Cmp.{on_per, on_equiv, partial_equiv_from_equiv};
ghost use Rattle.std.specs.Cmp.Lexicographic.{bytes_decides, nat_list_eq_equiv};
ghost use Rattle.std.proofs.Common.{ap};
ghost use Rattle.rec_sorts.specs.Names.{first_at, given_first};
ghost use Rattle.rec_check.specs.Lookups.{IsGiven, Knows, number_in};
ghost use Rattle.rec_check.specs.Named.{as_words};

use crate::located::Word;
use indexmap::IndexMap;
use std::alloc::{AllocError, Global};
use std::hash::{Hash, Hasher};

/// A name as a hash key. Its bytes are hashed in one call.
#[derive(Clone, Copy, Drop)]
pub struct Key<'a> {
    bytes: &'a [u8],
}

impl PartialEq for Key<'_> {
    ghost eq = { λ x y. bytes_eq x.bytes.now y.bytes.now };

    ghost laws = { on_per (λ k. k.bytes.now) (partial_equiv_from_equiv nat_list_eq_equiv) };

    fn eq(&self, other: &Self) -> bool {
        self.bytes == other.bytes
    }
}

impl Eq for Key<'_> {
    ghost laws = { on_equiv (λ k. k.bytes.now) nat_list_eq_equiv };
}

impl Hash for Key<'_> {
    ghost hash_input = { λ k. k.bytes.now ∷ [] };

    ghost respects_eq = { λ x y same.
        ap (λ bytes. bytes ∷ []) ((bytes_decides x.bytes.now y.bytes.now).0 same) };

    fn hash<H: Hasher>(&self, state: &mut H) {
        state.write(self.bytes);
    }
}

/// Names, each with the number of the first word that has it.
#[derive(Drop)]
pub struct Names<'a> {
    numbers: IndexMap<Key<'a>, usize>,
}

impl<'a> Names<'a> {
    /// Returns an empty map with room for `count` names.
    pub(crate) fn with_capacity(alloc: Global, count: usize) -> Result<Self, AllocError>
        ensures { IfOk result (λ names. (name : List ℕ) → number_in names name ≡ None) }
    {
        let numbers = IndexMap::with_capacity(alloc, count)?;
        Ok(Names { numbers })
    }

    /// Numbers the names of these words, from 0.
    pub fn of(alloc: Global, words: &[Word<'a>]) -> Result<Self, AllocError>
        ensures numbers { IfOk result (λ names. (name : List ℕ)
            → number_in names name ≡ first_at (as_words words.now) name) }
        ensures known { IfOk result (λ names. Knows names (as_words words.now)) }
    {
        let mut names = Names::with_capacity(alloc, words.len())?;
        for (i, word) in words.iter().enumerate() {
            names.note(word.bytes, i)?;
        }
        Ok(names)
    }

    /// Returns the number of a name.
    pub fn number(&self, name: &[u8]) -> Option<usize>
        ensures { result ≡ number_in self.now name.now }
    {
        self.numbers.get(&Key { bytes: name }).copied()
    }

    /// Returns whether a name has a number.
    pub fn has(&self, name: &[u8]) -> bool
        ensures { result ≡ is_some (number_in self.now name.now) }
    {
        self.number(name).is_some()
    }

    /// Sets the number of a name, unless it has one.
    pub(crate) fn note(&mut self, name: &'a [u8], number: usize) -> Result<(), AllocError>
        ensures { OnOk result ((other : List ℕ) → number_in self.new other
            ≡ given_first (number_in self.old) name.entry.now number other) }
    {
        if self.has(name) {
            Ok(())
        } else {
            self.give(name, number)
        }
    }

    /// Sets the number of a name.
    fn give(&mut self, name: &'a [u8], number: usize) -> Result<(), AllocError>
        ensures { OnOk result (IsGiven self.old self.new name.entry.now number) }
    {
        self.numbers.insert(Key { bytes: name }, number)?;
        Ok(())
    }
}
