//! The term store of a handle, and the prepared engine that evaluates terms over it.

ghost use Rattle.std.specs.Prelude.{◌≡◌, ◌-◌, ◌<◌, ◌≤◌, ◌↔◌, ℕ, List, [], length, None, Some};
ghost use Rattle.std.specs.Prelude.{Ok, Err, IsFalse, IsTrue};
ghost use Rattle.std.specs.Prelude.{IsSome, IfSome, IfErr, IfOk, OnErr, IsErrOf};
ghost use Rattle.rx_term.specs.Tree.{Tree, Int, Items, none};
ghost use Rattle.rx_term.specs.Name.{IsAllowed};
ghost use Rattle.rx_term.specs.Store.{tree_at, signature_of, longer, applied, held_open, noted};
ghost use Rattle.rx_term.specs.Store.{cells};
ghost use Rattle.rx_term.specs.Steps.{MakesOrRefuses, ReservesOrRefuses, Grows};
ghost use Rattle.rx_term.specs.Steps.{ProtectsOrRefuses, Reclaims, with_count};
ghost use Rattle.rx_term.specs.Walks.{AllHeld, HaveTrees};
ghost use Rattle.rx_text.specs.Answer.{AreNodesOf, AreProperNodes};
ghost use Rattle.rx_text.specs.Verdict.{IsVerdict, Spelt, Outside, TooLong};
ghost use Rattle.rx_text.specs.Faults.{IsOfText};
ghost use Rattle.rx_table.specs.Errors.{IsOfOpening};
ghost use Rattle.rx_table.specs.Opened.{broken_by_table, tree_of_table};
ghost use Rattle.rx_pattern.specs.Matching.{matching};
ghost use Rattle.rx_pattern.specs.Filling.{filling, Count, Kinds};
ghost use Rattle.rx_pattern.specs.Held.{Binds, AddsOnlyLists};
ghost use Rattle.rx_pattern.specs.Faults.{IsMatchRefusal, IsOfTerms};
ghost use Rattle.psilt_core.specs.Names.{names_of, NamesOrRefuses};

use crate::limited::LimitedBank;
use indexmap::IndexSet;
use rec_engine::Prepared;
use rx_pattern::{MakeFault, Pattern, PatternFault};
use rx_shared::SharedBank;
use rx_table::{TableFault, open_nodes};
use rx_term::{BankFault, RootsFull, Symbol, Term, TermBank};
use rx_text::{Node, TextFault, read};
use std::alloc::Global;
use std::marker::Model;

/// A store of shared terms, the limit on its symbols, the prepared engine of the specification, if
/// there is one, and the symbols that C has numbers for. Contracts see these parts; of the engine
/// they see the specification, the options and the memoized results.
#[derive(Drop)]
pub struct Bank {
    pub(crate) shared: LimitedBank,
    /// The largest number of symbols.
    pub(crate) most_names: u32,
    pub(crate) prepared: Option<Prepared>,
    /// The numbers that the store has for the symbols that C knows; their indexes are C's numbers.
    pub(crate) symbols: IndexSet<u64>,
}

impl Model for Bank {
    ghost use Rattle.std.specs.Prelude.{IfSome};
    ghost use Rattle.std.specs.Option.{option_map};
    ghost use Rattle.rx_shared.specs.State.{store_of as terms_of};
    ghost use Rattle.rec_engine.specs.Prepared.{FitsIn, memo_of};
    ghost use Rattle.psilt_core.specs.Banks.{AreSymbols, BankState, bank_code, specified_by};

    ghost Value = { BankState };

    ghost coded = { bank_code };

    ghost view = { λ b. record {
      shared = b.shared.shared;
      most_names = b.most_names;
      specified = option_map specified_by b.prepared;
      memo = option_map memo_of b.prepared;
      symbols = b.symbols.keys;
    } };

    ghost invariant = { λ b. IfSome b.prepared (FitsIn (terms_of b.shared.shared))
        × AreSymbols (terms_of b.shared.shared) b.symbols.keys };
}

impl Bank {
    ghost use Rattle.rx_shared.specs.State.{store_of as terms_of};
    ghost use Rattle.psilt_core.specs.Banks.{IsSameButTerms, store_of};

    /// Makes a bank from a store without symbols. It has no specification.
    pub(crate) fn new(alloc: Global, shared: SharedBank) -> Bank
        requires { names_of (terms_of shared) ≡ 0 }
        ensures { result ≡ record {
          shared = shared;
          most_names = 4294967295;
          specified = None;
          memo = None;
          symbols = [];
        } }
    {
        Bank {
            shared: LimitedBank::new(alloc, shared),
            most_names: u32::MAX,
            prepared: None,
            symbols: IndexSet::new(alloc),
        }
    }

    /// Returns the store of shared terms.
    pub(crate) fn shared_bank(&self) -> &SharedBank
        ensures { result.now ≡ self.now.shared }
    {
        &self.shared.shared
    }

    /// Returns the number of symbols.
    pub(crate) fn names(&self) -> u32
        ensures { result ≡ names_of (store_of self.now) }
    {
        self.shared.names()
    }

    /// Returns whether the last call was refused a symbol because the number of symbols is at its
    /// limit.
    pub(crate) fn lacks_names(&self) -> bool
        ensures { IsTrue result → self.now.most_names ≤ names_of (store_of self.now) }
    {
        self.shared.lacks_names(self.most_names)
    }

    /// Returns whether there are no more symbols than before the last call, or no more than the
    /// limit allows.
    pub(crate) fn keeps_limit(&self, before: u32) -> bool
        ensures kept { IsTrue result → before < names_of (store_of self.now)
            → names_of (store_of self.now) ≤ self.now.most_names }
        ensures passed { IsFalse result → self.now.most_names < names_of (store_of self.now) }
    {
        self.shared.keeps(before, self.most_names)
    }

    /// Limits the number of symbols to `most`.
    pub(crate) fn limit_names(&mut self, most: u32)
        ensures { self.new ≡ record self.old { most_names = most } }
    {
        self.most_names = most;
    }

    /// Returns the one symbol with this name, flag and number of arguments. `Full` if there is none
    /// and the number of symbols is at its limit.
    pub(crate) fn symbol(
        &mut self,
        name: &[u8],
        quoted: bool,
        arity: u32,
    ) -> Result<Symbol, BankFault>
        requires { IsAllowed name.now quoted }
        ensures added { NamesOrRefuses self.old.most_names (store_of self.old) (store_of self.new)
            (record { name = name.now; quoted = quoted; arity = arity }) result }
        ensures beside { IsSameButTerms self.old self.new }
    {
        self.shared.allow(self.most_names);
        self.shared.intern(name, quoted, arity)
    }

    /// Returns the reference of an integer.
    pub(crate) fn int(&mut self, z: i32) -> Result<Term, BankFault>
        ensures made { MakesOrRefuses (store_of self.old) (store_of self.new) (Some (Int z none))
            result }
        ensures beside { IsSameButTerms self.old self.new }
    {
        self.shared.int(z)
    }

    /// Returns the reference of the empty list.
    pub(crate) fn nil(&mut self) -> Result<Term, BankFault>
        ensures made { MakesOrRefuses (store_of self.old) (store_of self.new)
            (Some (Items none none)) result }
        ensures beside { IsSameButTerms self.old self.new }
    {
        self.shared.nil()
    }

    /// Returns the reference of the list of an item and the items of a list.
    pub(crate) fn cons(&mut self, head: Term, tail: Term) -> Result<Term, BankFault>
        requires { let w = store_of self.old in IsSome (longer (tree_at w head) (tree_at w tail)) }
        ensures made { let w = store_of self.old in
            MakesOrRefuses w (store_of self.new) (longer (tree_at w head) (tree_at w tail)) result }
        ensures beside { IsSameButTerms self.old self.new }
    {
        self.shared.cons(head, tail)
    }

    /// Returns the reference of the application of a symbol to a list.
    pub(crate) fn appl(&mut self, sym: Symbol, args: Term) -> Result<Term, BankFault>
        requires { let w = store_of self.old in
            IsSome (applied (signature_of w sym) (tree_at w args)) }
        ensures made { let w = store_of self.old in MakesOrRefuses w (store_of self.new)
            (applied (signature_of w sym) (tree_at w args)) result }
        ensures beside { IsSameButTerms self.old self.new }
    {
        self.shared.appl(sym, args)
    }

    /// Returns the reference of a placeholder.
    pub(crate) fn hole(&mut self, inner: Term) -> Result<Term, BankFault>
        requires { IsSome (tree_at (store_of self.old) inner) }
        ensures made { let w = store_of self.old in
            MakesOrRefuses w (store_of self.new) (held_open (tree_at w inner)) result }
        ensures beside { IsSameButTerms self.old self.new }
    {
        self.shared.hole(inner)
    }

    /// Returns the reference of a term whose annotations are replaced by the items of a list.
    pub(crate) fn annotate(&mut self, t: Term, anns: Term) -> Result<Term, BankFault>
        requires { let w = store_of self.old in IsSome (noted (tree_at w t) (tree_at w anns)) }
        ensures made { let w = store_of self.old in
            MakesOrRefuses w (store_of self.new) (noted (tree_at w t) (tree_at w anns)) result }
        ensures beside { IsSameButTerms self.old self.new }
    {
        self.shared.annotated(t, anns)
    }

    /// Returns the term that a text spells. `Memory` also if a symbol may not be added.
    pub(crate) fn read(&mut self, alloc: Global, text: &[u8]) -> Result<Term, TextFault>
        ensures spelt { IfOk result (λ t. (u : Tree) × (tree_at (store_of self.new) t ≡ Some u)
            × IsVerdict text.now (Spelt u)) }
        ensures long { IsErrOf result TextFault.Long ↔ IsVerdict text.now TooLong }
        ensures outside { (at : ℕ) → IsErrOf result (TextFault.Grammar at)
            → IsVerdict text.now (Outside at) }
        ensures unchanged { IfErr result
            (λ fault. IsOfText fault → store_of self.new ≡ store_of self.old) }
        ensures full { IsErrOf result TextFault.Full
            → cells (store_of self.new) ≡ (store_of self.new).cap }
        ensures grows { Grows (store_of self.old) (store_of self.new) }
        ensures beside { IsSameButTerms self.old self.new }
    {
        self.shared.allow(self.most_names);
        read(alloc, text, &mut self.shared)
    }

    /// Returns the term of a table from the nodes of its text. `Memory` also if a symbol may not be
    /// added.
    pub(crate) fn open_nodes(
        &mut self,
        alloc: Global,
        text: &[u8],
        nodes: &[Node],
    ) -> Result<Term, TableFault>
        requires nodes { (t : Tree) × AreNodesOf text.now nodes.now t }
        requires proper { AreProperNodes text.now nodes.now }
        ensures held { IfOk result (λ r. IsSome (tree_at (store_of self.new) r)) }
        ensures opened { IfOk result (λ r. (t : Tree) → AreNodesOf text.now nodes.now t
            → tree_at (store_of self.new) r ≡ tree_of_table t) }
        ensures not_table { IsErrOf result TableFault.NotTable
            → (t : Tree) → AreNodesOf text.now nodes.now t → broken_by_table t ≡ Some 1 }
        ensures rule { (n : ℕ) → IsErrOf result (TableFault.Element n)
            → (t : Tree) → AreNodesOf text.now nodes.now t → broken_by_table t ≡ Some 2 }
        ensures full { IsErrOf result TableFault.Full
            → cells (store_of self.new) ≡ (store_of self.new).cap }
        ensures opening { IfErr result IsOfOpening }
        ensures grows { Grows (store_of self.old) (store_of self.new) }
        ensures beside { IsSameButTerms self.old self.new }
    {
        self.shared.allow(self.most_names);
        open_nodes(alloc, text, nodes, &mut self.shared)
    }

    /// Returns whether a pattern matches a term, and makes references of its bindings.
    pub(crate) fn match_term(
        &mut self,
        pattern: &Pattern,
        t: Term,
        found: &mut Vec<Term>,
    ) -> Result<bool, PatternFault>
        requires { IsSome (tree_at (store_of self.old) t) }
        ensures answer { IfOk result (λ does. (u : Tree) → tree_at (store_of self.old) t ≡ Some u
            → Binds (store_of self.new) (matching pattern.now u) found.new.items does) }
        ensures refused { IfErr result (IsMatchRefusal (store_of self.new)) }
        ensures grows { Grows (store_of self.old) (store_of self.new) }
        ensures added { AddsOnlyLists (store_of self.old) (store_of self.new) }
        ensures beside { IsSameButTerms self.old self.new }
    {
        pattern.matches(&mut self.shared, t, found)
    }

    /// Replaces the placeholders of a pattern by terms. `Memory` also if a symbol may not be added.
    pub(crate) fn fill(&mut self, pattern: &Pattern, args: &[Term]) -> Result<Term, MakeFault>
        requires { AllHeld (store_of self.old) args.now }
        ensures made { IfOk result (λ r. (bs : List Tree)
            → HaveTrees (store_of self.old) args.now bs → (u : Tree)
            × (filling pattern.now bs ≡ Ok u) × (tree_at (store_of self.new) r ≡ Some u)) }
        ensures count { (bs : List Tree) → HaveTrees (store_of self.old) args.now bs
            → (IsErrOf result MakeFault.Count ↔ (filling pattern.now bs ≡ Err Count)) }
        ensures kind { (bs : List Tree) → HaveTrees (store_of self.old) args.now bs → (at : ℕ)
            → (IsErrOf result (MakeFault.Kind at) ↔ (filling pattern.now bs ≡ Err (Kinds at))) }
        ensures unchanged { IfErr result
            (λ fault. IsOfTerms fault → store_of self.new ≡ store_of self.old) }
        ensures full { IsErrOf result MakeFault.Full
            → cells (store_of self.new) ≡ (store_of self.new).cap }
        ensures grows { Grows (store_of self.old) (store_of self.new) }
        ensures beside { IsSameButTerms self.old self.new }
    {
        self.shared.allow(self.most_names);
        pattern.make(&mut self.shared, args)
    }

    /// Reserves memory for `k` more cells.
    pub(crate) fn reserve(&mut self, k: u32) -> Result<(), BankFault>
        ensures reserved { ReservesOrRefuses (store_of self.old) (store_of self.new) k result }
        ensures beside { IsSameButTerms self.old self.new }
    {
        self.shared.reserve(k)
    }

    /// Increases the protection count of a term.
    pub(crate) fn protect(&mut self, t: Term) -> Result<(), RootsFull>
        requires { IsSome (tree_at (store_of self.old) t) }
        ensures roots { ProtectsOrRefuses (store_of self.old) (store_of self.new) t result }
        ensures beside { IsSameButTerms self.old self.new }
    {
        self.shared.protect(t)
    }

    /// Decreases the protection count of a term.
    pub(crate) fn unprotect(&mut self, t: Term)
        requires { 0 < (store_of self.old).roots t.0 }
        ensures roots { store_of self.new
            ≡ with_count (store_of self.old) t ((store_of self.old).roots t.0 - 1) }
        ensures beside { IsSameButTerms self.old self.new }
    {
        self.shared.unprotect(t);
    }

    /// Frees all terms that neither the roots nor these terms reach.
    pub(crate) fn reclaim(&mut self, kept: &[Term])
        requires { AllHeld (store_of self.old) kept.now }
        ensures reclaims { Reclaims (store_of self.old) (store_of self.new) kept.now }
        ensures beside { IsSameButTerms self.old self.new }
    {
        match &mut self.prepared {
            Some(prepared) => prepared.reclaim(&mut self.shared, kept),
            None => self.shared.reclaim(kept),
        }
    }
}
