//! The matcher: entries of left-hand sides, and search in the matching trees.

ghost use Rattle.std.specs.Prelude.{◌≡◌, ◌-◌, IfOk, length};
ghost use Rattle.rx_term.specs.Walks.{AllHeld};
ghost use Rattle.rec_match.specs.Forests.{Extends};
ghost use Rattle.rec_match.specs.Matching.{CanFind, FindsOn, Glances, LeavesOthers, first_rule};

use crate::forest::{Forest, Glance, Hit};
use rec_sorts::Links;
use rx_term::{Term, TermBank};
use std::alloc::AllocError;

/// The entry of a rule's left-hand side: its symbol with the number of arguments, its variables in
/// the order of their first occurrence, and the next rule of the same symbol.
#[derive(Drop)]
pub struct LeftSide {
    pub symbol: u32,
    pub count: u32,
    pub variables: Vec<u32>,
    pub next: u32,
}

/// Finds matching rules of one specification in one store. It owns a copy of the symbol map, so
/// that [`Matcher::next`] takes only the store and the term.
#[derive(Drop)]
pub struct Matcher {
    pub sides: Vec<LeftSide>,
    pub heads: Vec<u32>,
    pub links: Links,
    pub forest: Forest,
}

impl Matcher {
    /// Finds the first rule of `symbol`, from rule `at` on, that matches its application to the
    /// last `count` references of `work`. The registers stay on top of them, so nothing is copied
    /// before or after the search. The values of the rule's variables, in the order of their first
    /// occurrence, are in the registers or on top of them. If there is no such rule, `work` is
    /// unchanged. The other two stacks are not used. The only error is out of memory.
    #[inline(always)]
    pub fn find<B: TermBank>(
        &self,
        bank: &B,
        symbol: u32,
        count: u32,
        at: u32,
        work: &mut Vec<Term>,
        _pending: &mut Vec<Term>,
        _bind: &mut Vec<Term>,
    ) -> Result<Option<Hit>, AllocError>
        requires held { AllHeld (B.store bank.now) work.old.items }
        requires can { CanFind (B.store bank.now) self.now symbol count at work.old.items }
        ensures finds { IfOk result (FindsOn (B.store bank.now) self.now
            (length work.old.items - count) at work.old.items work.new.items) }
        ensures held { IfOk result (λ found. AllHeld (B.store bank.now) work.new.items) }
        ensures behind { Extends work.old.items work.new.items }
    {
        self.find_rule(bank, symbol, count, at, work)
    }

    /// Finds a rule like `find`, without the stacks that are not used.
    #[inline(always)]
    pub(crate) fn find_rule<B: TermBank>(
        &self,
        bank: &B,
        symbol: u32,
        count: u32,
        at: u32,
        work: &mut Vec<Term>,
    ) -> Result<Option<Hit>, AllocError>
        requires held { AllHeld (B.store bank.now) work.old.items }
        requires can { CanFind (B.store bank.now) self.now symbol count at work.old.items }
        ensures finds { IfOk result (FindsOn (B.store bank.now) self.now
            (length work.old.items - count) at work.old.items work.new.items) }
        ensures held { IfOk result (λ found. AllHeld (B.store bank.now) work.new.items) }
        ensures behind { Extends work.old.items work.new.items }
    {
        let first = work.len() - count as usize;
        self.forest.run(bank, symbol, first, at, work)
    }

    /// Searches the fast path for the first rule of `symbol` that matches its application to the
    /// last `count` references of `work`, whose length is `size`. Returns the rule, with the values
    /// of its variables in registers, or the number of the symbol's first trees that find no rule.
    /// In the second case `work` is unchanged, and [`Matcher::find_others`] has to search the other
    /// trees.
    #[inline(always)]
    pub fn glance<B: TermBank>(
        &self,
        bank: &B,
        symbol: u32,
        count: u32,
        size: usize,
        work: &mut Vec<Term>,
    ) -> Result<Glance, AllocError>
        requires held { AllHeld (B.store bank.now) work.old.items }
        requires can { CanFind (B.store bank.now) self.now symbol count (first_rule self.now symbol)
            work.old.items }
        requires size { size ≡ length work.old.items }
        ensures glances { IfOk result (Glances (B.store bank.now) self.now symbol count
            work.old.items work.new.items) }
        ensures held { IfOk result (λ g. AllHeld (B.store bank.now) work.new.items) }
        ensures behind { Extends work.old.items work.new.items }
    {
        let first = size - count as usize;
        self.forest.glance(bank, symbol, first, size, work)
    }

    /// Finds the first rule of `symbol` that matches, after `glance` has returned that the first
    /// `passed` trees find none.
    #[inline(always)]
    pub fn find_others<B: TermBank>(
        &self,
        bank: &B,
        symbol: u32,
        count: u32,
        passed: usize,
        work: &mut Vec<Term>,
    ) -> Result<Option<Hit>, AllocError>
        requires held { AllHeld (B.store bank.now) work.old.items }
        requires can { CanFind (B.store bank.now) self.now symbol count (first_rule self.now symbol)
            work.old.items }
        requires none { LeavesOthers (B.store bank.now) self.now symbol count passed
            work.old.items }
        ensures finds { IfOk result (FindsOn (B.store bank.now) self.now
            (length work.old.items - count) (first_rule self.now symbol) work.old.items
            work.new.items) }
        ensures held { IfOk result (λ found. AllHeld (B.store bank.now) work.new.items) }
        ensures behind { Extends work.old.items work.new.items }
    {
        let first = work.len() - count as usize;
        self.forest.run_behind(bank, symbol, first, 0, passed, work)
    }
}
