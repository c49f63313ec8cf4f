//! Evaluates terms over the store of a handle. For each call, an engine takes over the store and
//! returns it.

ghost use Rattle.std.specs.Prelude.{◌≡◌, ◌⊎◌, ◌<◌, ◌≤◌, [], IfErr, IfOk, IsSome, None, OnErr, OnOk, Some};
ghost use Rattle.std.specs.Prelude.{IfSome, IsErr, is_some, length};
ghost use Rattle.std.specs.Option.{option_map};
ghost use Rattle.rx_term.specs.Tree.{Items, Tree, list_of, none};
ghost use Rattle.rx_term.specs.Store.{longer, tree_at};
ghost use Rattle.rx_term.specs.Steps.{Grows, Keeps, SameBesideContent};
ghost use Rattle.rec_sorts.specs.Linked.{HasMoreSymbols};
ghost use Rattle.rec_sorts.specs.TermRules.{broken_by_terms};
ghost use Rattle.rec_sorts.specs.TermsFaults.{IsTermsFault};
ghost use Rattle.rec_engine.specs.Engine.{AreInRange, IsGiven, IsNormalised, IsOutcome};
ghost use Rattle.rec_engine.specs.Engine.{eval_tree};
ghost use Rattle.rec_engine.specs.Control.{IfEnded, Obeys};
ghost use Rattle.rec_engine.specs.Prepared.{FitsIn, memo_of};
ghost use Rattle.rx_shared.specs.State.{store_of as terms_of};
ghost use Rattle.psilt_core.specs.Names.{names_of, KeepsLimit};
ghost use Rattle.psilt_core.specs.Banks.{AreSymbols, IsSameButTerms, IsSpecified, specified_by};
ghost use Rattle.psilt_core.specs.Banks.{store_of};
ghost use Rattle.psilt_core.specs.Inner.Engines.{with_engine};
ghost use Rattle.psilt_core.specs.Evaluating.{IsRoom, IsRoomFault, IsCollected, LacksCells};
ghost use Rattle.psilt_core.specs.Evaluating.{IsFilledWith, IsSpecFault};

use crate::Bank;
use crate::limited::LimitedBank;
use core::mem::replace_with;
use indexmap::IndexSet;
use rec_engine::{Control, Controlled, Engine, EngineFault, Limits, Options, Prepared};
use rec_sorts::{Checked, TermsFault, check_terms};
use rx_term::{BankFault, Term};
use std::alloc::Global;

/// The specification and the options of a new engine.
#[derive(Drop)]
struct Wanted {
    alloc: Global,
    checked: Checked,
    options: Options,
}

impl Wanted {
    /// Makes the engine over a store. An error returns the store.
    fn over(self, bank: LimitedBank) -> Result<Engine<LimitedBank>, LimitedBank>
        requires { AreInRange self.options }
        ensures spec { IfOk result (λ e. e.spec ≡ self.checked.spec) }
        ensures options { IfOk result (λ e. e.options ≡ self.options) }
        ensures store { IfOk result
            (λ e. HasMoreSymbols (terms_of bank.shared) (terms_of e.bank.shared)) }
        ensures refused { IfErr result
            (λ b. HasMoreSymbols (terms_of bank.shared) (terms_of b.shared)) }
    {
        let Wanted {
            alloc,
            checked,
            options,
        } = self;
        Engine::over(alloc, checked, bank, options)
    }
}

/// A term to evaluate, with its step limit and the control.
pub(crate) struct Given<C> {
    pub(crate) term: Term,
    pub(crate) steps: u64,
    pub(crate) control: C,
}

/// The end of an evaluation, and its control.
pub(crate) type Answer<C> = (Result<Controlled, EngineFault>, C);

/// Makes the list of one term.
fn list_of(bank: &mut Bank, t: Term) -> Result<Term, BankFault>
    requires { IsSome (tree_at (store_of bank.old) t) }
    ensures list { IfOk result (λ r. tree_at (store_of bank.new) r
        ≡ longer (tree_at (store_of bank.old) t) (Some (Items none none))) }
    ensures full { IfErr result (IsRoomFault (store_of bank.new)) }
    ensures added { IfErr result (λ e. (r : Term) (v : Tree)
        → tree_at (store_of bank.new) r ≡ Some v
        → (tree_at (store_of bank.old) r ≡ Some v) ⊎ (v ≡ list_of none)) }
    ensures grows { Grows (store_of bank.old) (store_of bank.new) }
    ensures beside { SameBesideContent (store_of bank.old) (store_of bank.new) }
    ensures same { IsSameButTerms bank.old bank.new }
{
    let nil = bank.nil()?;
    bank.cons(t, nil)
}

/// Makes the list of one term. If the store is full, it is collected first: the parts of protected
/// terms and of this term are kept.
pub(crate) fn list_anyway(bank: &mut Bank, t: Term) -> Result<Term, BankFault>
    requires { IsSome (tree_at (store_of bank.old) t) }
    ensures list { IfOk result (λ r. tree_at (store_of bank.new) r
        ≡ longer (tree_at (store_of bank.old) t) (Some (Items none none))) }
    ensures full { IfErr result (IsCollected (store_of bank.new) t) }
    ensures keeps { Keeps (store_of bank.old) (store_of bank.new) [] }
    ensures given { tree_at (store_of bank.new) t ≡ tree_at (store_of bank.old) t }
    ensures same { IsSameButTerms bank.old bank.new }
{
    match list_of(bank, t) {
        Ok(list) => Ok(list),
        Err(BankFault::Memory) => Err(BankFault::Memory),
        Err(BankFault::Full) => {
            bank.reclaim(&[t]);
            list_of(bank, t)
        }
    }
}

/// Drops an engine and returns its store.
fn bank_of(engine: Engine<LimitedBank>) -> LimitedBank
    ensures { result ≡ engine.bank }
{
    let (bank, work) = engine.into_parts();
    drop(work);
    bank
}

/// Replaces an optional value by `None`, and drops the old one.
fn forget<T: Drop>(place: &mut Option<T>)
    ensures { place.new ≡ None }
{
    *place = None;
}

impl Bank {
    /// Makes the bank from an engine, the symbols that C knows and the limit on symbols.
    pub(crate) fn of(engine: Engine<LimitedBank>, most_names: u32, symbols: IndexSet<u64>) -> Bank
        requires { AreSymbols (terms_of engine.bank.shared) symbols.keys }
        ensures { result ≡ with_engine engine most_names symbols.keys }
    {
        let (shared, prepared) = engine.apart();
        Bank {
            shared,
            most_names,
            prepared: Some(prepared),
            symbols,
        }
    }

    /// Returns the engine over the store of a bank with a specification, the limit on symbols, and
    /// the symbols that C knows. `of` makes the bank again.
    pub(crate) fn into_engine(self) -> (Engine<LimitedBank>, u32, IndexSet<u64>)
        requires { IsSome self.specified }
        ensures parts { self ≡ with_engine result.0 result.1 result.2.keys }
        ensures known { AreSymbols (terms_of result.0.bank.shared) result.2.keys }
    {
        let Bank {
            shared,
            most_names,
            prepared,
            symbols,
        } = self;
        match prepared {
            Some(prepared) => (prepared.over(shared), most_names, symbols),
            None => unreachable!(),
        }
    }

    /// Returns whether there is a specification.
    pub(crate) fn is_specified(&self) -> bool
        ensures { result ≡ is_some self.now.specified }
    {
        self.prepared.is_some()
    }

    /// Replaces the specification by a well-formed one. After an error the old one stays. The error
    /// is `Full` if the limit on symbols allows no more.
    pub(crate) fn specify(
        &mut self,
        alloc: Global,
        checked: Checked,
        options: Options,
    ) -> Result<(), BankFault>
        requires { AreInRange options }
        ensures store { HasMoreSymbols (store_of self.old) (store_of self.new) }
        ensures limit { IfOk result
            (λ u. KeepsLimit self.old.most_names (store_of self.old) (store_of self.new)) }
        ensures done { OnOk result (self.new.specified
            ≡ Some (record { spec = checked.spec; options = options })) }
        ensures refused { OnErr result (self.new.specified ≡ self.old.specified) }
        ensures fault { IfErr result (IsSpecFault self.new) }
        ensures beside { self.new ≡ record self.old {
          shared = self.new.shared;
          specified = self.new.specified;
          memo = self.new.memo;
        } }
    {
        let wanted = Wanted {
            alloc,
            checked,
            options,
        };
        replace_with(self, wanted, Bank::with_spec)
    }

    /// Takes the specification, and returns the store with the result.
    fn with_spec(self, wanted: Wanted) -> (Bank, Result<(), BankFault>)
        requires { AreInRange wanted.options }
        ensures store { HasMoreSymbols (store_of self) (store_of result.0) }
        ensures limit { IfOk result.1
            (λ u. KeepsLimit self.most_names (store_of self) (store_of result.0)) }
        ensures done { OnOk result.1 (result.0.specified
            ≡ Some (record { spec = wanted.checked.spec; options = wanted.options })) }
        ensures refused { OnErr result.1 (result.0.specified ≡ self.specified) }
        ensures fault { IfErr result.1 (IsSpecFault result.0) }
        ensures beside { result.0 ≡ record self {
          shared = result.0.shared;
          specified = result.0.specified;
          memo = result.0.memo;
        } }
    {
        let Bank {
            mut shared,
            most_names,
            prepared,
            symbols,
        } = self;
        shared.allow(most_names);
        let before = shared.names();
        match wanted.over(shared) {
            Ok(engine) => Bank::renew(engine, before, most_names, prepared, symbols),
            Err(shared) => Bank::restore(shared, most_names, prepared, symbols),
        }
    }

    /// Makes the bank of a new engine, which replaces the prepared one. If the engine added symbols
    /// to the `before` earlier ones and passed the limit, the prepared engine stays.
    fn renew(
        engine: Engine<LimitedBank>,
        before: u32,
        most_names: u32,
        prepared: Option<Prepared>,
        symbols: IndexSet<u64>,
    ) -> (Bank, Result<(), BankFault>)
        requires fits { IfSome prepared (FitsIn (terms_of engine.bank.shared)) }
        requires known { AreSymbols (terms_of engine.bank.shared) symbols.keys }
        ensures bank { result.0.shared ≡ engine.bank.shared }
        ensures most { result.0.most_names ≡ most_names }
        ensures known { result.0.symbols ≡ symbols.keys }
        ensures limit { IfOk result.1 (λ u. before < names_of (terms_of engine.bank.shared)
            → names_of (terms_of engine.bank.shared) ≤ most_names) }
        ensures done { OnOk result.1 (result.0.specified
            ≡ Some (record { spec = engine.spec; options = engine.options })) }
        ensures refused { OnErr result.1
            (result.0.specified ≡ option_map specified_by prepared) }
        ensures fault { IfErr result.1 (IsSpecFault result.0) }
    {
        if engine.bank().keeps(before, most_names) {
            drop(prepared);
            (Bank::of(engine, most_names, symbols), Ok(()))
        } else {
            Bank::restore(bank_of(engine), most_names, prepared, symbols)
        }
    }

    /// Makes the bank with the prepared engine again, after the new one ran out of memory or
    /// symbols.
    fn restore(
        shared: LimitedBank,
        most_names: u32,
        prepared: Option<Prepared>,
        symbols: IndexSet<u64>,
    ) -> (Bank, Result<(), BankFault>)
        requires fits { IfSome prepared (FitsIn (terms_of shared.shared)) }
        requires known { AreSymbols (terms_of shared.shared) symbols.keys }
        ensures bank { result.0 ≡ record {
          shared = shared.shared;
          most_names = most_names;
          specified = option_map specified_by prepared;
          memo = option_map memo_of prepared;
          symbols = symbols.keys;
        } }
        ensures refused { IsErr result.1 }
        ensures fault { IfErr result.1 (IsSpecFault result.0) }
    {
        let fault = if shared.lacks_names(most_names) {
            BankFault::Full
        } else {
            BankFault::Memory
        };
        let bank = Bank {
            shared,
            most_names,
            prepared,
            symbols,
        };
        (bank, Err(fault))
    }

    /// Removes the specification.
    pub(crate) fn unspecify(&mut self)
        ensures { self.new ≡ record self.old { specified = None; memo = None } }
    {
        forget(&mut self.prepared);
    }

    /// Checks the items of a list against the rules of input terms.
    pub(crate) fn check(&self, alloc: Global, list: Term) -> Result<(), TermsFault>
        requires specified { IsSome self.now.specified }
        requires held { IsSome (tree_at (store_of self.now) list) }
        ensures kept { OnOk result (IsSpecified self.now
            (λ y. IfSome (tree_at (store_of self.now) list) (λ t. broken_by_terms y t ≡ None))) }
        ensures broken { IfErr result (λ fault. IsSpecified self.now
            (λ y. IfSome (tree_at (store_of self.now) list)
            (λ t. IsTermsFault (broken_by_terms y t) fault))) }
    {
        match &self.prepared {
            Some(prepared) => check_terms(alloc, prepared.checked(), &self.shared, list),
            None => unreachable!(),
        }
    }

    /// Returns the number of EVAL terms.
    pub(crate) fn eval_terms(&self) -> u32
        requires { IsSome self.now.specified }
        ensures { IsSpecified self.now (λ y. result ≡ length y.terms) }
    {
        match &self.prepared {
            Some(prepared) => prepared.eval_terms(),
            None => unreachable!(),
        }
    }

    /// Evaluates a term that violates no rule of input terms within its steps, unless the control
    /// stops the evaluation.
    pub(crate) fn normalise<C: Control>(&mut self, given: Given<C>) -> Answer<C>
        requires { IsSpecified self.old (λ y. IsGiven y (store_of self.old) given.term) }
        ensures beside { IsSameButTerms self.old self.new }
        ensures keeps { Keeps (store_of self.old) (store_of self.new) [] }
        ensures given { tree_at (store_of self.new) given.term
            ≡ tree_at (store_of self.old) given.term }
        ensures outcome { IfOk result.0 (λ end. IsSpecified self.old
            (λ y. IfEnded (λ o. (u : Tree) → tree_at (store_of self.old) given.term ≡ Some u
            → IsOutcome y (store_of self.new) given.steps u o) end)) }
        ensures rewriting { IfOk result.0 (λ end. IsSpecified self.old
            (λ y. IfEnded (λ o. (u : Tree) → tree_at (store_of self.old) given.term ≡ Some u
            → IsNormalised y (store_of self.new) given.steps u o) end)) }
        ensures obeys { Obeys Controlled.Stopped (C.has_requested given.control)
            (C.has_requested result.1) result.0 }
        ensures room { IfErr result.0 (IsRoom (LacksCells self.new)) }
    {
        replace_with(self, given, Bank::with_outcome)
    }

    /// Evaluates a term, and returns the store with the outcome.
    fn with_outcome<C: Control>(self, given: Given<C>) -> (Bank, Answer<C>)
        requires { IsSpecified self (λ y. IsGiven y (store_of self) given.term) }
        ensures beside { IsSameButTerms self result.0 }
        ensures keeps { Keeps (store_of self) (store_of result.0) [] }
        ensures given { tree_at (store_of result.0) given.term
            ≡ tree_at (store_of self) given.term }
        ensures outcome { IfOk result.1.0 (λ end. IsSpecified self
            (λ y. IfEnded (λ o. (u : Tree) → tree_at (store_of self) given.term ≡ Some u
            → IsOutcome y (store_of result.0) given.steps u o) end)) }
        ensures rewriting { IfOk result.1.0 (λ end. IsSpecified self
            (λ y. IfEnded (λ o. (u : Tree) → tree_at (store_of self) given.term ≡ Some u
            → IsNormalised y (store_of result.0) given.steps u o) end)) }
        ensures obeys { Obeys Controlled.Stopped (C.has_requested given.control)
            (C.has_requested result.1.1) result.1.0 }
        ensures room { IfErr result.1.0 (IsRoom (LacksCells result.0)) }
    {
        let (mut engine, most_names, symbols) = self.into_engine();
        let Given {
            term,
            steps,
            mut control,
        } = given;
        let limits = Limits { steps, depth: None };
        let outcome = engine.normalise_controlled(term, limits, &mut control);
        (Bank::of(engine, most_names, symbols), (outcome, control))
    }

    /// Makes the EVAL term with the index `i`, from 0.
    pub(crate) fn eval_term(&mut self, i: u32) -> Result<Term, EngineFault>
        requires { IsSpecified self.old (λ y. i < length y.terms) }
        ensures beside { IsSameButTerms self.old self.new }
        ensures keeps { Keeps (store_of self.old) (store_of self.new) [] }
        ensures term { IfOk result (λ t. IsSpecified self.old
            (λ y. tree_at (store_of self.new) t ≡ eval_tree y i)) }
        ensures given { IfOk result (λ t. IsSpecified self.old
            (λ y. IsGiven y (store_of self.new) t)) }
        ensures room { IfErr result (IsRoom (IsSpecified self.old
            (λ y. IsFilledWith self.new (eval_tree y i)))) }
    {
        replace_with(self, i, Bank::with_eval_term)
    }

    /// Makes an EVAL term, and returns the store with it.
    fn with_eval_term(self, i: u32) -> (Bank, Result<Term, EngineFault>)
        requires { IsSpecified self (λ y. i < length y.terms) }
        ensures beside { IsSameButTerms self result.0 }
        ensures keeps { Keeps (store_of self) (store_of result.0) [] }
        ensures term { IfOk result.1 (λ t. IsSpecified self
            (λ y. tree_at (store_of result.0) t ≡ eval_tree y i)) }
        ensures given { IfOk result.1 (λ t. IsSpecified self
            (λ y. IsGiven y (store_of result.0) t)) }
        ensures room { IfErr result.1 (IsRoom (IsSpecified self
            (λ y. IsFilledWith result.0 (eval_tree y i)))) }
    {
        let (mut engine, most_names, symbols) = self.into_engine();
        let term = engine.eval_term(i);
        (Bank::of(engine, most_names, symbols), term)
    }
}
