//! Reads patterns, matches terms against them, and makes terms from them.

ghost use Rattle.std.specs.Prelude.{◌≡◌, Err, length};
ghost use Rattle.rx_term.specs.Steps.{Grows};
ghost use Rattle.rx_term.specs.Walks.{AllHeld};
ghost use Rattle.rx_pattern.specs.Held.{AddsOnlyLists};
ghost use Rattle.psilt_core.specs.Banks.{store_of};
ghost use Rattle.psilt_core.specs.Patterns.{ReadsPattern, FreesPattern, Matches, TellsBound, Fills};
ghost use Rattle.psilt_core.specs.Patterns.{TellsNoPattern, pattern_at, Takes, FillsTerms};
ghost use Rattle.psilt_core.specs.Works.{IsSameButBank, IsSameButBound, IsSameButPatterns};
ghost use Rattle.psilt_core.specs.Works.{KeepsRefusal, KeepsRefusalFor};
ghost use Rattle.psilt_core.specs.declared.fault.Fault.TheVariants.{Rule};

use crate::keeping::references;
use crate::spelling::{NoPattern, read_pattern};
use crate::{Fault, Work};
use rx_pattern::{MakeFault, PatternFault};
use rx_term::{Term, TermBank};
use std::alloc::Global;

impl Work {
    /// Reads a pattern from a text and returns its number. `Range` if the text has more than
    /// 16,777,216 bytes; `Syntax` if it leaves the grammar, and `Rule` if a placeholder violates a
    /// rule, with the offset or the rule stored in the work.
    pub fn pattern(&mut self, alloc: Global, text: &[u8]) -> Result<usize, Fault>
        ensures answer { ReadsPattern self.old.patterns self.new.patterns text.now self.new.place
            self.new.rule result }
        ensures refusal { KeepsRefusal self.old self.new result }
        ensures place { result ≡ Err Rule → self.new.place ≡ self.old.place }
        ensures beside { IsSameButPatterns self.old self.new }
    {
        match read_pattern(alloc, text) {
            Ok(pattern) => match self.patterns.add(pattern) {
                Ok(n) => Ok(n),
                Err(_) => Err(Fault::Memory),
            },
            Err(why) => Err(self.tell_no_pattern(why)),
        }
    }

    /// Stores the offset and the rule of a text that spells no pattern, and returns the error.
    fn tell_no_pattern(&mut self, why: NoPattern) -> Fault
        ensures fault { TellsNoPattern why result self.new.place self.new.rule }
        ensures refusal { KeepsRefusalFor self.old self.new result }
        ensures place { result ≡ Rule → self.new.place ≡ self.old.place }
        ensures beside { self.new
            ≡ record self.old { place = self.new.place; rule = self.new.rule } }
    {
        match why {
            NoPattern::Memory => Fault::Memory,
            NoPattern::Long => Fault::Range,
            NoPattern::Grammar { at } => {
                self.place = at;
                self.rule = 0;
                Fault::Syntax
            }
            NoPattern::Rule { number } => {
                self.rule = number;
                Fault::Rule
            }
        }
    }

    /// Removes the pattern of a number. `Unknown` if no pattern has it.
    pub fn free_pattern(&mut self, n: usize) -> Result<(), Fault>
        ensures answer { FreesPattern self.old.patterns self.new.patterns n result }
        ensures beside { IsSameButPatterns self.old self.new }
    {
        if self.patterns.remove(n) {
            Ok(())
        } else {
            Err(Fault::Unknown)
        }
    }

    /// Matches a term against a pattern, stores the bindings, and returns their number. `Unmatched`
    /// if it does not match. After this and every other error, the earlier bindings are kept.
    pub fn match_term(&mut self, alloc: Global, n: usize, t: Term) -> Result<usize, Fault>
        ensures answer { Matches (pattern_at self.old.patterns n) (store_of self.old.bank)
            (store_of self.new.bank) self.old.bound.items self.new.bound.items t result }
        ensures grows { Grows (store_of self.old.bank) (store_of self.new.bank) }
        ensures added { AddsOnlyLists (store_of self.old.bank) (store_of self.new.bank) }
        ensures beside { IsSameButBound self.old self.new }
    {
        let Some(pattern) = self.patterns.get(n) else {
            return Err(Fault::Unknown);
        };
        if !self.bank.shared_bank().holds(t) {
            return Err(Fault::Stale);
        }
        let mut found = Vec::new(alloc);
        match self.bank.match_term(pattern, t, &mut found) {
            Ok(true) => {
                self.bound = found;
                Ok(self.bound.len())
            }
            Ok(false) => Err(Fault::Unmatched),
            Err(PatternFault::Full) => Err(Fault::Full),
            Err(_) => Err(Fault::Memory),
        }
    }

    /// Returns the binding with the index `i` of the last match. `Range` if there are no more than
    /// `i`.
    pub fn binding(&self, i: usize) -> Result<Term, Fault>
        ensures { TellsBound self.now.bound.items i result }
    {
        if i < self.bound.len() {
            Ok(self.bound[i])
        } else {
            Err(Fault::Range)
        }
    }

    /// Replaces the placeholders of a pattern, in order, by the terms of these numbers. `Range` if
    /// the pattern has another number of placeholders, `Kind` if a placeholder does not take its
    /// term, `Full` if all cells are in use, or if a name is new and the number of names is at its
    /// limit.
    pub fn make(&mut self, alloc: Global, n: usize, args: &[u32]) -> Result<Term, Fault>
        ensures answer { Fills (pattern_at self.old.patterns n) self.old.bank.most_names
            (store_of self.old.bank) (store_of self.new.bank) args.now result }
        ensures grows { Grows (store_of self.old.bank) (store_of self.new.bank) }
        ensures beside { IsSameButBank self.old self.new }
    {
        let Some(count) = self.patterns.placeholders(n) else {
            return Err(Fault::Unknown);
        };
        if count != args.len() {
            return Err(Fault::Range);
        }
        if !self.are_held(args) {
            return Err(Fault::Stale);
        }
        let Ok(terms) = references(alloc, args) else {
            return Err(Fault::Memory);
        };
        self.fill(n, &terms)
    }

    /// Makes the term of a pattern and as many terms as it has placeholders. Returns `Kind` if one
    /// of them does not match its placeholder.
    fn fill(&mut self, n: usize, args: &[Term]) -> Result<Term, Fault>
        requires takes { Takes (pattern_at self.old.patterns n) (length args.now) }
        requires held { AllHeld (store_of self.old.bank) args.now }
        ensures answer { FillsTerms (pattern_at self.old.patterns n) self.old.bank.most_names
            (store_of self.old.bank) (store_of self.new.bank) args.now result }
        ensures grows { Grows (store_of self.old.bank) (store_of self.new.bank) }
        ensures beside { IsSameButBank self.old self.new }
    {
        let before = self.bank.names();
        let Some(pattern) = self.patterns.get(n) else {
            unreachable!()
        };
        let t = match self.bank.fill(pattern, args) {
            Ok(t) => t,
            Err(MakeFault::Count) => unreachable!(),
            Err(MakeFault::Kind { at: _ }) => return Err(Fault::Kind),
            Err(MakeFault::Memory) => {
                if self.bank.lacks_names() {
                    return Err(Fault::Full);
                }
                return Err(Fault::Memory);
            }
            Err(MakeFault::Full) => return Err(Fault::Full),
        };
        if !self.bank.keeps_limit(before) {
            return Err(Fault::Full);
        }
        Ok(t)
    }
}
