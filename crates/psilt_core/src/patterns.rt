//! The patterns of a handle.

ghost use Rattle.std.specs.Prelude.{◌≡◌, ◌≤◌, [], length, List, None, Option, IfOk, IsFalse};
ghost use Rattle.std.specs.Prelude.{IsTrue, OnErr, option_map};
ghost use Rattle.core.specs.Option.{option_copied};
ghost use Rattle.rx_term.specs.Tree.{Tree};
ghost use Rattle.rx_pattern.specs.Filling.{blanks};
ghost use Rattle.psilt_core.specs.Patterns.{Gets, Loses, pattern_at, patterns_code};

use rx_pattern::Pattern;
use std::alloc::{AllocError, Global};
use std::marker::Model;

/// Patterns by number. The number of a removed pattern is free again. Contracts see the pattern of
/// each number.
#[derive(Drop)]
pub struct Patterns {
    places: Vec<Option<Pattern>>,
    /// No entry before this index is free.
    first: usize,
}

impl Model for Patterns {
    ghost Value = { List (Option Tree) };

    ghost coded = { patterns_code };

    ghost view = { λ p. p.places.items };
}

impl Patterns {
    /// Returns an empty set of patterns.
    pub(crate) fn new(alloc: Global) -> Patterns
        ensures { result ≡ [] }
    {
        Patterns {
            places: Vec::new(alloc),
            first: 0,
        }
    }

    /// Returns the pattern of a number, if there is one.
    pub(crate) fn get(&self, n: usize) -> Option<&Pattern>
        ensures { option_copied result ≡ pattern_at self.now n }
    {
        if n < self.places.len() {
            self.places[n].as_ref()
        } else {
            None
        }
    }

    /// Returns the number of placeholders of a numbered pattern, if there is one.
    pub(crate) fn placeholders(&self, n: usize) -> Option<usize>
        ensures { result ≡ option_map (λ p. length (blanks p)) (pattern_at self.now n) }
    {
        match self.get(n) {
            Some(pattern) => Some(pattern.placeholders()),
            None => None,
        }
    }

    /// Stores a pattern and returns its number.
    pub(crate) fn add(&mut self, pattern: Pattern) -> Result<usize, AllocError>
        ensures added { IfOk result (λ n. Gets self.old self.new n pattern) }
        ensures refused { OnErr result (self.new ≡ self.old) }
    {
        let n = self.free_place();
        if n < self.places.len() {
            self.places[n] = Some(pattern);
        } else {
            self.places.push(Some(pattern))?;
        }
        self.first = n + 1;
        Ok(n)
    }

    /// Returns the index of the first free entry, or the number of entries if none is free.
    fn free_place(&self) -> usize
        ensures free { pattern_at self.now result ≡ None }
        ensures within { result ≤ length self.now }
    {
        for n in self.first..self.places.len() {
            if self.places[n].is_none() {
                return n;
            }
        }
        self.places.len()
    }

    /// Removes the pattern of a number. Returns `false` if there is none.
    pub(crate) fn remove(&mut self, n: usize) -> bool
        ensures removed { IsTrue result → Loses self.old self.new n }
        ensures refused { IsFalse result → (pattern_at self.old n ≡ None) × (self.new ≡ self.old) }
    {
        if n >= self.places.len() || self.places[n].is_none() {
            return false;
        }
        self.places[n] = None;
        self.first = self.first.min(n);
        true
    }
}
