//! The symbol table: a symbol for each name, quoted flag and number of arguments.

ghost use Rattle.std.specs.Prelude.{◌≡◌, ◌≢◌, ◌<◌, ℕ, MatchOption, IsSome, IsTrue, IfOk, Some};
ghost use Rattle.std.specs.Prelude.{length, slice_get};
ghost use Rattle.rx_names.specs.Places.{AreApart};
ghost use Rattle.rx_names.specs.Words.{words_of};
ghost use Rattle.rx_names.specs.Entries.{AllAllowed};

use crate::NamesFault;
use crate::words::Words;
use indexmap::IndexSet;
use rx_term::Symbol;
use std::alloc::Global;

/// A symbol: the index of its name among the words, its flag, and its number of arguments.
#[derive(Clone, Copy, PartialEq, Eq, Hash)]
struct Entry {
    word: usize,
    quoted: bool,
    arity: u32,
}

/// The number of recent symbols that are remembered, by the last byte of the name, its length and
/// the number of arguments. Words and entries are searched only if another symbol is remembered
/// there.
const RECENT: usize = 64;

/// Returns the index at which the symbol of a name and a number of arguments is remembered.
fn home(name: &[u8], arity: u32) -> usize
    ensures { result < 64 }
{
    let last = match name.last() {
        Some(byte) => usize::from(*byte),
        None => 0,
    };
    (last ^ name.len().wrapping_mul(8) ^ (arity as usize).wrapping_mul(32)) % RECENT
}

/// Returns the entry with this index.
fn entry_at(entries: &[Entry], place: usize) -> Entry
    requires { place < length entries.now }
    ensures { slice_get entries.now place ≡ Some result }
{
    entries[place]
}

/// A symbol table. Symbols are never removed. It remembers the indices of some recent symbols.
#[derive(Drop)]
pub struct Names {
    words: Words,
    entries: IndexSet<Entry>,
    recent: [usize; RECENT],
    ghost apart: { AreApart entries.keys },
    ghost allowed: { AllAllowed (words_of words) entries.keys },
}

impl Names {
    ghost use Rattle.std.specs.FinMap.{get, empty};
    ghost use Rattle.rx_term.specs.Name.{IsAllowed};
    ghost use Rattle.rx_names.specs.Names.{symbols_of, FindsOrLacks, InternsOrRefuses};

    /// Returns an empty table. The only error is out of memory.
    pub fn new(alloc: Global) -> Result<Names, NamesFault>
        ensures { IfOk result (λ n. symbols_of n ≡ empty) }
    {
        Ok(Names {
            words: Words::new(alloc),
            entries: IndexSet::new(alloc),
            recent: [0; RECENT],
        })
    }

    /// Returns the symbol with these parts, or `None` if there is none. Takes expected time linear
    /// in the length of the name.
    pub fn find(&self, name: &[u8], quoted: bool, arity: u32) -> Option<Symbol>
        ensures { FindsOrLacks (symbols_of self.now)
            (record { name = name.now; quoted = quoted; arity = arity }) result }
    {
        match self.words.find(name) {
            Some(word) => self.find_entry(Entry {
                word,
                quoted,
                arity,
            }),
            None => None,
        }
    }

    /// Returns the symbol of an entry, or `None` if there is none.
    fn find_entry(&self, entry: Entry) -> Option<Symbol>
        ensures { MatchOption result
            ((i : ℕ) → slice_get self.now.entries.keys i ≢ Some entry)
            (λ s. slice_get self.now.entries.keys s.0 ≡ Some entry) }
    {
        match self.entries.get_index_of(&entry) {
            Some(place) => Some(Symbol(place as u64)),
            None => None,
        }
    }

    /// Returns the name, the flag and the number of arguments of a symbol. Takes constant time.
    pub fn get(&self, symbol: Symbol) -> (&[u8], bool, u32)
        requires { IsSome (get (symbols_of self.now) symbol.0) }
        ensures { get (symbols_of self.now) symbol.0 ≡
            Some (record { name = result.0.now; quoted = result.1; arity = result.2 }) }
    {
        let entry = entry_at(self.entries.as_slice(), symbol.0 as usize);
        (self.words.get(entry.word), entry.quoted, entry.arity)
    }

    /// Returns whether the symbol with this number exists and has these parts.
    fn is_symbol(&self, place: usize, name: &[u8], quoted: bool, arity: u32) -> bool
        ensures { IsTrue result → get (symbols_of self.now) place
            ≡ Some (record { name = name.now; quoted = quoted; arity = arity }) }
    {
        let entries = self.entries.as_slice();
        if place >= entries.len() {
            return false;
        }
        let entry = entry_at(entries, place);
        if entry.quoted != quoted {
            return false;
        }
        if entry.arity != arity {
            return false;
        }
        self.words.get(entry.word) == name
    }

    /// Returns the symbol with these parts after a search in the entries; adds it if there is none.
    fn intern_entry(&mut self, name: &[u8], quoted: bool, arity: u32) -> Result<Symbol, NamesFault>
        requires { IsAllowed name.now quoted }
        ensures { InternsOrRefuses (symbols_of self.old) (symbols_of self.new)
            (record { name = name.now; quoted = quoted; arity = arity }) result }
    {
        let word = match self.words.intern(name) {
            Ok(word) => word,
            Err(_) => return Err(NamesFault::Memory),
        };
        let entry = Entry {
            word,
            quoted,
            arity,
        };
        match self.entries.insert_full(entry) {
            Ok((place, _)) => Ok(Symbol(place as u64)),
            Err(_) => Err(NamesFault::Memory),
        }
    }

    /// Returns the symbol with these parts, and adds it if there is none. The name has to be plain,
    /// quoted or empty. The only error is out of memory; nothing changes then. Takes expected time
    /// linear in the length of the name.
    pub fn intern(&mut self, name: &[u8], quoted: bool, arity: u32) -> Result<Symbol, NamesFault>
        requires { IsAllowed name.now quoted }
        ensures { InternsOrRefuses (symbols_of self.old) (symbols_of self.new)
            (record { name = name.now; quoted = quoted; arity = arity }) result }
    {
        let home = home(name, arity);
        let place = self.recent[home];
        if self.is_symbol(place, name, quoted, arity) {
            return Ok(Symbol(place as u64));
        }
        let symbol = self.intern_entry(name, quoted, arity)?;
        self.recent[home] = symbol.0 as usize;
        Ok(symbol)
    }
}
