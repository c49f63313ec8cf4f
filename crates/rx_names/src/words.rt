//! Names without their flags, each stored once, in the order in which they were added.

ghost use Rattle.std.specs.Prelude.{◌≡◌, ◌≢◌, ◌<◌, ℕ, true, IfOk, IsSome, Some, MatchOption, map};
ghost use Rattle.std.specs.Prelude.{nat_lt, slice_get, length};
ghost use Rattle.std.specs.List.{list_all};
ghost use Rattle.rx_names.specs.Places.{AreApart, AllBytes};

use indexmap::IndexSet;
use std::alloc::{AllocError, Global};

/// Byte strings, no two of them equal.
#[derive(Drop)]
pub struct Words {
    alloc: Global,
    stored: IndexSet<Vec<u8>>,
    ghost apart: { AreApart (map (λ v. v.items) stored.keys) },
    ghost bytes: { AllBytes (map (λ v. v.items) stored.keys) },
}

/// Returns a copy of these bytes.
fn copy_of(alloc: Global, bytes: &[u8]) -> Result<Vec<u8>, AllocError>
    ensures same { IfOk result (λ v. v.items ≡ bytes.now) }
    ensures fit { IfOk result (λ v. list_all (λ b. nat_lt b 256) v.items ≡ true) }
{
    let mut copy = Vec::new(alloc);
    for byte in bytes {
        copy.push(*byte)?;
    }
    Ok(copy)
}

impl Words {
    ghost use Rattle.std.specs.Prelude.{[]};
    ghost use Rattle.rx_names.specs.Places.{KeepsPlaces};
    ghost use Rattle.rx_names.specs.Words.{words_of};

    /// Returns an empty list of words.
    pub fn new(alloc: Global) -> Words
        ensures { words_of result ≡ [] }
    {
        Words {
            alloc,
            stored: IndexSet::new(alloc),
        }
    }

    /// Returns the index of a word, or `None` if it is not there.
    pub fn find(&self, word: &[u8]) -> Option<usize>
        ensures { MatchOption result
            ((i : ℕ) → slice_get (words_of self.now) i ≢ Some word.now)
            (λ i. slice_get (words_of self.now) i ≡ Some word.now) }
    {
        self.stored.get_index_of(word)
    }

    /// Returns the word with this index.
    pub fn get(&self, place: usize) -> &[u8]
        requires { IsSome (slice_get (words_of self.now) place) }
        ensures { slice_get (words_of self.now) place ≡ Some result.now }
    {
        self.stored.as_slice()[place].as_slice()
    }

    /// Returns the index of a word, which is appended if it is not there.
    pub fn intern(&mut self, word: &[u8]) -> Result<usize, AllocError>
        ensures stands { IfOk result (λ i. slice_get (words_of self.new) i ≡ Some word.now) }
        ensures kept { KeepsPlaces (words_of self.old) (words_of self.new) }
    {
        if let Some(place) = self.find(word) {
            return Ok(place);
        }
        let copy = copy_of(self.alloc, word)?;
        let (place, _) = self.stored.insert_full(copy)?;
        Ok(place)
    }
}
