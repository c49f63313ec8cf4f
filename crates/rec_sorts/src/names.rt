//! Names with numbers.

ghost use Rattle.std.specs.Prelude.{◌≡◌, ◌∷◌, [], None, IfOk, OnOk, is_none, bytes_eq};
ghost use Rattle.std.specs.Cmp.{on_per, on_equiv, partial_equiv_from_equiv};
ghost use Rattle.std.specs.Cmp.Lexicographic.{bytes_decides, nat_list_eq_equiv};
ghost use Rattle.std.proofs.Common.{ap};

use indexmap::IndexMap;
use std::alloc::{AllocError, Global};
use std::hash::{Hash, Hasher};

/// A name as a hash key. Its bytes are hashed in one call and not one by one.
#[derive(Clone, Copy, Drop)]
pub struct Key<'a> {
    bytes: &'a [u8],
}

impl PartialEq for Key<'_> {
    ghost eq = { λ x y. bytes_eq x.bytes.now y.bytes.now };

    ghost laws = { on_per (λ k. k.bytes.now) (partial_equiv_from_equiv nat_list_eq_equiv) };

    fn eq(&self, other: &Self) -> bool {
        self.bytes == other.bytes
    }
}

impl Eq for Key<'_> {
    ghost laws = { on_equiv (λ k. k.bytes.now) nat_list_eq_equiv };
}

impl Hash for Key<'_> {
    ghost hash_input = { λ k. k.bytes.now ∷ [] };

    ghost respects_eq = { λ x y same.
        ap (λ bytes. bytes ∷ []) ((bytes_decides x.bytes.now y.bytes.now).0 same) };

    fn hash<H: Hasher>(&self, state: &mut H) {
        state.write(self.bytes);
    }
}

/// A map from names to numbers.
#[derive(Drop)]
pub struct Names<'a> {
    numbers: IndexMap<Key<'a>, u32>,
}

impl<'a> Names<'a> {
    ghost use Rattle.rec_sorts.specs.Names.{given_to, given_first};

    /// Returns an empty map with room for `count` names.
    pub fn with_capacity(alloc: Global, count: usize) -> Result<Self, AllocError>
        ensures { IfOk result (λ names. given_to names ≡ (λ _. None)) }
    {
        let numbers = IndexMap::with_capacity(alloc, count)?;
        Ok(Names { numbers })
    }

    /// Returns the number of a name.
    pub fn number(&self, name: &[u8]) -> Option<u32>
        ensures { result ≡ given_to self.now name.now }
    {
        self.numbers.get(&Key { bytes: name }).copied()
    }

    /// Gives a name this number, unless it has one already. Returns whether it had none.
    pub fn give(&mut self, name: &'a [u8], number: u32) -> Result<bool, AllocError>
        ensures fresh { IfOk result (λ fresh. fresh ≡ is_none (given_to self.old name.entry.now)) }
        ensures given { OnOk result
            (given_to self.new ≡ given_first (given_to self.old) name.entry.now number) }
    {
        let key = Key { bytes: name };
        match self.numbers.insert(key, number)? {
            None => Ok(true),
            Some(first) => {
                self.numbers.insert(key, first)?;
                Ok(false)
            }
        }
    }
}
