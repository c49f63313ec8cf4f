//! Calls of symbols on values.

ghost use Rattle.std.specs.Prelude.{◌≡◌, ◌<◌, ◌∷◌, ℕ, [], All, IfErr, IfOk, IfSome, IsSome, IsTrue};
ghost use Rattle.std.specs.Prelude.{None, Some, length, option_map, slice_get};
ghost use Rattle.std.specs.Option.{option_and_then};
ghost use Rattle.rx_term.specs.Tree.{from_list, none};
ghost use Rattle.rx_term.specs.Name.{Signature};
ghost use Rattle.rx_term.specs.Store.{arity_at, signature_of, tree_at};
ghost use Rattle.rx_term.specs.Steps.{Keeps};
ghost use Rattle.rx_term.specs.Walks.{AllHeld, held_tree, held_trees};
ghost use Rattle.rec_syntax.specs.Parts.{IsDeclaration, Within, declaration_of, words_of};
ghost use Rattle.rec_sorts.specs.Lookup.{same_sort, symbol, symbols};
ghost use Rattle.rec_sorts.specs.Numbering.{arity_of};
ghost use Rattle.rec_sorts.specs.TermRules.{are_ill_sorted, tree_sort};
ghost use Rattle.rec_engine.specs.Engine.{IsCallOutcome};
ghost use Rattle.rec_engine.specs.Machine.{called};
ghost use Rattle.psilt_core.specs.Answers.{IsApplication, are_held, terms_of};
ghost use Rattle.psilt_core.specs.Banks.{IsSameButTerms, IsSpecified, signature_at, store_of};
ghost use Rattle.psilt_core.specs.Calling.{CallsOn, IsCallFault, call_of};
ghost use Rattle.psilt_core.specs.Evaluating.{IsRoom, LacksCells};
ghost use Rattle.psilt_core.specs.Inner.Judged.{IsDeclared, IsJudged, IsSymbolOf};
ghost use Rattle.psilt_core.specs.Works.{Forgets, IsSameButRead, IsSameButRun, KeepsRefusal};

use crate::evaluating::{Normalised, fault_of_bank, fault_of_engine, value_or_fault};
use crate::keeping::references;
use crate::making::apply_symbol;
use crate::{Bank, Fault, Work};
use core::mem::replace_with;
use rec_engine::{Controlled, Engine, EngineFault, Limits, Outcome};
use rec_sorts::Checked;
use rec_syntax::{Declaration, Span, Syntax};
use rx_term::{BankFault, Kind, Symbol, Term, TermBank, plain_name};
use std::alloc::Global;

/// The call of a symbol of the store on values.
#[derive(Drop)]
pub(crate) struct Call {
    symbol: Symbol,
    values: Vec<Term>,
}

/// A call that violates no rule, with its step limit.
#[derive(Drop)]
pub(crate) struct Asked {
    /// The application of the symbol to the values.
    kept: Term,
    /// The number of the symbol in the specification.
    number: u32,
    values: Vec<Term>,
    steps: u64,
}

/// Returns the number of the declared symbol with this name. Takes time linear in the number of
/// declared symbols.
fn named(checked: &Checked, name: &[u8]) -> Option<u32>
    ensures symbol { symbol checked.now.spec name.now
        ≡ option_and_then (slice_get (symbols checked.now.spec)) result }
    ensures number { IfSome result (λ k. k < length (symbols checked.now.spec)) }
{
    for number in 0..checked.symbols() {
        if checked.symbol_name(number) == name {
            return Some(number);
        }
    }
    None
}

/// Returns the number of the declared symbol that has the name and the quotes of a symbol of the
/// store. Takes constant time if the symbol has the declared number of arguments.
fn declared<B: TermBank>(engine: &Engine<B>, symbol: Symbol) -> Option<u32>
    requires { IsSome (signature_of (B.store engine.now.bank) symbol) }
    ensures symbol { IsDeclared engine.now.spec (B.store engine.now.bank) symbol result }
    ensures number { IfSome result (λ k. k < length (symbols engine.now.spec)) }
{
    let checked = engine.checked();
    let _kept = checked.syntax();
    if let Some(number) = engine.matcher().links.op_of(symbol) {
        return Some(number);
    }
    let name = engine.bank().name_of(symbol);
    if engine.bank().quoted_of(symbol) == plain_name(name) {
        return None;
    }
    named(checked, name)
}

/// Returns the declaration of the symbol with this number.
fn declaration(syntax: &Syntax, number: usize) -> Option<&Declaration>
    ensures symbol { option_map (λ d. declaration_of syntax.now.source d.now) result
        ≡ slice_get (symbols syntax.now.spec) number }
    ensures sound { IfSome result (λ d. IsDeclaration syntax.now.source d.now) }
{
    let constructors = syntax.constructors();
    let operators = syntax.operators();
    if number < constructors.len() {
        return Some(&constructors[number]);
    }
    let rest = number - constructors.len();
    if rest < operators.len() {
        Some(&operators[rest])
    } else {
        None
    }
}

/// Returns whether a symbol of the store is declared with this sort.
fn is_of_sort<B: TermBank>(engine: &Engine<B>, syntax: &Syntax, symbol: Symbol, sort: &[u8]) -> bool
    requires spec { syntax.now.spec ≡ engine.now.spec }
    requires symbol { IsSome (signature_of (B.store engine.now.bank) symbol) }
    ensures { (g : Signature) → signature_of (B.store engine.now.bank) symbol ≡ Some g
        → result ≡ same_sort (tree_sort engine.now.spec (call_of g none)) (Some sort.now) }
{
    let Some(number) = declared(engine, symbol) else {
        return false;
    };
    match declaration(syntax, number as usize) {
        Some(declaration) => syntax.word(declaration.sort) == sort,
        None => false,
    }
}

/// Returns whether a term has this sort, which is that of its symbol.
fn has_sort<B: TermBank>(engine: &Engine<B>, syntax: &Syntax, value: Term, sort: &[u8]) -> bool
    requires spec { syntax.now.spec ≡ engine.now.spec }
    requires value { IsSome (tree_at (B.store engine.now.bank) value) }
    ensures { result ≡ same_sort
        (tree_sort engine.now.spec (held_tree (B.store engine.now.bank) value)) (Some sort.now) }
{
    match engine.bank().kind(value) {
        Kind::Appl(symbol) => is_of_sort(engine, syntax, symbol, sort),
        Kind::Int(_) => false,
        Kind::Nil => false,
        Kind::Cons => false,
        Kind::Hole => false,
    }
}

/// Returns whether one of these values has another sort than the one for its position.
fn are_ill_sorted<B: TermBank>(
    engine: &Engine<B>,
    syntax: &Syntax,
    sorts: &[Span],
    values: &[Term],
) -> bool
    requires spec { syntax.now.spec ≡ engine.now.spec }
    requires within { All (Within syntax.now.source) sorts.now }
    requires values { AllHeld (B.store engine.now.bank) values.now }
    requires count { length values.now ≡ length sorts.now }
    ensures { result ≡ are_ill_sorted engine.now.spec (words_of syntax.now.source sorts.now)
        (from_list (held_trees (B.store engine.now.bank) values.now)) }
{
    for i in 0..values.len() {
        if !has_sort(engine, syntax, values[i], syntax.word(sorts[i])) {
            return true;
        }
    }
    false
}

/// Checks the call of a symbol on values against the rules T4 to T6, and returns the number of the
/// symbol in the specification; otherwise the number of the lowest-numbered rule that is violated.
/// The values themselves are not checked.
fn judge<B: TermBank>(engine: &Engine<B>, call: &Call) -> Result<u32, u8>
    requires count { arity_at (B.store engine.now.bank) call.now.symbol
        ≡ Some (length call.now.values.items) }
    requires values { AllHeld (B.store engine.now.bank) call.now.values.items }
    ensures number { IfOk result
        (IsSymbolOf engine.now.spec (B.store engine.now.bank) call.now.symbol) }
    ensures kept { IfOk result (λ k. IsJudged engine.now.spec (B.store engine.now.bank)
        call.now.symbol call.now.values.items None) }
    ensures broken { IfErr result (λ number. IsJudged engine.now.spec (B.store engine.now.bank)
        call.now.symbol call.now.values.items (Some number)) }
{
    let Some(number) = declared(engine, call.symbol) else {
        return Err(4);
    };
    let syntax = engine.checked().syntax();
    let Some(declaration) = declaration(syntax, number as usize) else {
        unreachable!()
    };
    let sorts = declaration.arguments.as_slice();
    if call.values.len() != sorts.len() {
        return Err(5);
    }
    if are_ill_sorted(engine, syntax, sorts, &call.values) {
        return Err(6);
    }
    Ok(number)
}

impl Bank {
    /// Checks a call against the rules T4 to T6. Returns it again, with the number of its symbol in
    /// the specification or the number of the lowest-numbered rule that is violated.
    fn judge(&mut self, call: Call) -> (Call, Result<u32, u8>)
        requires specified { IsSome self.old.specified }
        requires count { arity_at (store_of self.old) call.symbol
            ≡ Some (length call.values.items) }
        requires values { AllHeld (store_of self.old) call.values.items }
        ensures same { self.new ≡ self.old }
        ensures call { result.0 ≡ call }
        ensures number { IfOk result.1 (λ k. IsSpecified self.old
            (λ y. IsSymbolOf y (store_of self.old) call.symbol k)) }
        ensures kept { IfOk result.1 (λ k. IsSpecified self.old
            (λ y. IsJudged y (store_of self.old) call.symbol call.values.items None)) }
        ensures broken { IfErr result.1 (λ number. IsSpecified self.old
            (λ y. IsJudged y (store_of self.old) call.symbol call.values.items (Some number))) }
    {
        replace_with(self, call, Bank::with_verdict)
    }

    /// Checks a call, and returns the store with it and the verdict.
    fn with_verdict(self, call: Call) -> (Bank, (Call, Result<u32, u8>))
        requires specified { IsSome self.specified }
        requires count { arity_at (store_of self) call.symbol ≡ Some (length call.values.items) }
        requires values { AllHeld (store_of self) call.values.items }
        ensures same { result.0 ≡ self }
        ensures call { result.1.0 ≡ call }
        ensures number { IfOk result.1.1 (λ k. IsSpecified self
            (λ y. IsSymbolOf y (store_of self) call.symbol k)) }
        ensures kept { IfOk result.1.1 (λ k. IsSpecified self
            (λ y. IsJudged y (store_of self) call.symbol call.values.items None)) }
        ensures broken { IfErr result.1.1 (λ number. IsSpecified self
            (λ y. IsJudged y (store_of self) call.symbol call.values.items (Some number))) }
    {
        let (engine, most_names, symbols) = self.into_engine();
        let verdict = judge(&engine, &call);
        (Bank::of(engine, most_names, symbols), (call, verdict))
    }

    /// Evaluates a call that violates no rule within its steps.
    fn call(&mut self, asked: Asked) -> Result<Outcome, EngineFault>
        requires kept { IsSome (tree_at (store_of self.old) asked.kept) }
        requires values { AllHeld (store_of self.old) asked.values.items }
        requires number { IsSpecified self.old (λ y. (asked.number < length (symbols y))
            × (length asked.values.items ≡ arity_of y asked.number)) }
        ensures beside { IsSameButTerms self.old self.new }
        ensures keeps { Keeps (store_of self.old) (store_of self.new) (asked.kept ∷ []) }
        ensures outcome { IfOk result (λ o. IsSpecified self.old (λ y. IsCallOutcome y
            (store_of self.new) asked.steps (called y asked.number
            (held_trees (store_of self.old) asked.values.items)) o)) }
        ensures room { IfErr result (IsRoom (LacksCells self.new)) }
    {
        replace_with(self, asked, Bank::with_call)
    }

    /// Evaluates a call, and returns the store with the outcome.
    fn with_call(self, asked: Asked) -> (Bank, Result<Outcome, EngineFault>)
        requires kept { IsSome (tree_at (store_of self) asked.kept) }
        requires values { AllHeld (store_of self) asked.values.items }
        requires number { IsSpecified self (λ y. (asked.number < length (symbols y))
            × (length asked.values.items ≡ arity_of y asked.number)) }
        ensures beside { IsSameButTerms self result.0 }
        ensures keeps { Keeps (store_of self) (store_of result.0) (asked.kept ∷ []) }
        ensures outcome { IfOk result.1 (λ o. IsSpecified self (λ y. IsCallOutcome y
            (store_of result.0) asked.steps (called y asked.number
            (held_trees (store_of self) asked.values.items)) o)) }
        ensures room { IfErr result.1 (IsRoom (LacksCells result.0)) }
    {
        let (mut engine, most_names, symbols) = self.into_engine();
        let Asked {
            kept,
            number,
            values,
            steps,
        } = asked;
        let limits = Limits { steps, depth: None };
        let outcome = engine.call(kept, number, &values, limits);
        (Bank::of(engine, most_names, symbols), outcome)
    }
}

/// Applies a symbol to values, whose numbers are `args`. If the store is full, it is collected
/// first: the parts of protected terms and of the values are kept.
fn apply_anyway(bank: &mut Bank, call: &Call, args: &[u32]) -> Result<Term, BankFault>
    requires args { IsTrue (are_held (store_of bank.old) args.now) }
    requires values { call.now.values.items ≡ terms_of args.now }
    requires count { arity_at (store_of bank.old) call.now.symbol ≡ Some (length args.now) }
    ensures keeps { Keeps (store_of bank.old) (store_of bank.new) (terms_of args.now) }
    ensures made { IfOk result (λ r. (g : Signature)
        → signature_of (store_of bank.old) call.now.symbol ≡ Some g
        → IsApplication (store_of bank.old) g.name g.quoted args.now
        (tree_at (store_of bank.new) r)) }
    ensures full { IfErr result (IsCallFault (store_of bank.new) args.now) }
    ensures same { IsSameButTerms bank.old bank.new }
{
    match apply_symbol(bank, call.symbol, args) {
        Ok(t) => Ok(t),
        Err(BankFault::Memory) => Err(BankFault::Memory),
        Err(BankFault::Full) => {
            bank.reclaim(&call.values);
            apply_symbol(bank, call.symbol, args)
        }
    }
}

impl Work {
    /// Evaluates the call of the symbol that has a number on values, within `steps` steps. The
    /// values are not evaluated again. `Unknown` if no symbol has the number; `Range` if the symbol
    /// has another number of arguments; `Rule` if the call itself violates one of the rules T4 to
    /// T6, which is stored in the work: the values are not checked; `Limit` if more steps are
    /// needed. Terms that no root reaches may be freed, except the values and the result. The
    /// bindings of the last match are dropped, except after `Unspecified`, `Unknown`, `Range` and
    /// `Stale`.
    pub fn call(
        &mut self,
        alloc: Global,
        n: usize,
        args: &[u32],
        steps: u64,
    ) -> Result<Normalised, Fault>
        ensures answer { CallsOn self.old.bank self.new.bank n args.now steps self.new.rule
            result }
        ensures keeps { Keeps (store_of self.old.bank) (store_of self.new.bank)
            (terms_of args.now) }
        ensures bindings { Forgets self.old.bound.items self.new.bound.items result }
        ensures refusal { KeepsRefusal self.old self.new result }
        ensures place { self.new.place ≡ self.old.place }
        ensures beside { IsSameButRun self.old self.new }
    {
        if !self.bank.is_specified() {
            return Err(Fault::Unspecified);
        }
        let Some(symbol) = self.bank.symbol_at(n) else {
            return Err(Fault::Unknown);
        };
        if self.bank.shared_bank().arity_of(symbol) as usize != args.len() {
            return Err(Fault::Range);
        }
        if !self.are_held(args) {
            return Err(Fault::Stale);
        }
        self.bound.clear();
        match references(alloc, args) {
            Ok(values) => self.call_values(Call { symbol, values }, args, steps),
            Err(_) => Err(Fault::Memory),
        }
    }

    /// Evaluates a call of a symbol that takes as many values, whose numbers are `args`.
    fn call_values(&mut self, call: Call, args: &[u32], steps: u64) -> Result<Normalised, Fault>
        requires specified { IsSome self.old.bank.specified }
        requires args { IsTrue (are_held (store_of self.old.bank) args.now) }
        requires values { call.values.items ≡ terms_of args.now }
        requires count { arity_at (store_of self.old.bank) call.symbol ≡ Some (length args.now) }
        ensures answer { (n : ℕ) → signature_at self.old.bank n
            ≡ signature_of (store_of self.old.bank) call.symbol
            → CallsOn self.old.bank self.new.bank n args.now steps self.new.rule result }
        ensures keeps { Keeps (store_of self.old.bank) (store_of self.new.bank)
            (terms_of args.now) }
        ensures refusal { KeepsRefusal self.old self.new result }
        ensures place { self.new.place ≡ self.old.place }
        ensures beside { IsSameButRead self.old self.new }
    {
        let (call, verdict) = self.bank.judge(call);
        let number = match verdict {
            Ok(number) => number,
            Err(number) => {
                self.rule = u32::from(number);
                return Err(Fault::Rule);
            }
        };
        let kept = match apply_anyway(&mut self.bank, &call, args) {
            Ok(kept) => kept,
            Err(fault) => return Err(fault_of_bank(fault)),
        };
        let Call { symbol: _, values } = call;
        let asked = Asked {
            kept,
            number,
            values,
            steps,
        };
        match self.bank.call(asked) {
            Ok(outcome) => value_or_fault(Controlled::Ended(outcome)),
            Err(fault) => Err(fault_of_engine(fault)),
        }
    }
}
