//! Tests of the engine's calls with values that the caller makes, and of protected values.

ghost use Rattle.std.specs.Prelude.{◌≡◌, ◌<◌, IsSome, length};
ghost use Rattle.rx_term.specs.Store.{tree_at};
ghost use Rattle.rec_sorts.specs.Lookup.{symbols};
ghost use Rattle.rec_sorts.specs.Numbering.{arity_of};

use crate::banks::expect_text;
use crate::cases::{Bank, Case, OPTIONS, Question, expect_cases};
use crate::engine::{ADD, TWENTY, is_room, outcome_of, value_of};
use crate::lent::makes_values_on;
use rec_engine::{Engine, Limits, Outcome};
use rx_term::{Term, TermBank};
use smallvec::SmallVec;
use std::alloc::Global;
use std::process::Abort;

/// The symbol `z`. The constants are the numbers of the symbols of the addition.
pub const ZERO: u32 = 0;

/// The symbol `s`.
pub const SUCCESSOR: u32 = 1;

/// The symbol `add`.
pub const ADDITION: u32 = 2;

/// Aborts the test unless there is a symbol with this number and this number of arguments.
fn expect_symbol<B: TermBank>(rt: &impl Abort, engine: &Engine<B>, symbol: u32, count: u32)
    ensures declared { symbol < length (symbols engine.now.spec) }
    ensures counted { arity_of engine.now.spec symbol ≡ count }
{
    let checked = engine.checked();
    assert!(rt; symbol < checked.symbols());
    assert!(rt; checked.arity(symbol) == count);
}

/// Makes the constant of a symbol. Another reference stays valid.
pub fn constant<B: TermBank>(
    rt: &impl Abort,
    engine: &mut Engine<B>,
    kept: Term,
    symbol: u32,
) -> Term {
    assert!(rt; engine.bank().holds(kept));
    expect_symbol(rt, engine, symbol, 0);
    engine.apply(kept, symbol, &[]).expect(rt, "a constant")
}

/// Makes the application of a symbol to a value, which stays valid.
pub fn apply_to<B: TermBank>(
    rt: &impl Abort,
    engine: &mut Engine<B>,
    symbol: u32,
    value: Term,
) -> Term {
    assert!(rt; engine.bank().holds(value));
    expect_symbol(rt, engine, symbol, 1);
    engine
        .apply(value, symbol, &[value])
        .expect(rt, "an application")
}

/// Aborts the test unless two values are in the store and can be added.
pub fn expect_addends<B: TermBank>(rt: &impl Abort, engine: &Engine<B>, both: (Term, Term))
    ensures first { IsSome (tree_at (B.store engine.now.bank) both.0) }
    ensures second { IsSome (tree_at (B.store engine.now.bank) both.1) }
    ensures declared { 2 < length (symbols engine.now.spec) }
    ensures counted { arity_of engine.now.spec 2 ≡ 2 }
{
    let bank = engine.bank();
    assert!(rt; bank.holds(both.0) && bank.holds(both.1));
    expect_symbol(rt, engine, ADDITION, 2);
}

/// Makes the sum of two values without evaluating it. The first one stays valid.
fn sum_of<B: TermBank>(
    rt: &impl Abort,
    engine: &mut Engine<B>,
    (first, second): (Term, Term),
) -> Term {
    expect_addends(rt, engine, (first, second));
    engine
        .apply(first, ADDITION, &[first, second])
        .expect(rt, "an application")
}

/// Evaluates the sum of two values within `n` steps. The first one stays valid.
fn call_on_both<B: TermBank>(
    rt: &impl Abort,
    engine: &mut Engine<B>,
    (first, second): (Term, Term),
    n: u64,
) -> Outcome {
    expect_addends(rt, engine, (first, second));
    engine
        .call(first, ADDITION, &[first, second], Limits::of_steps(n))
        .expect(rt, "an outcome")
}

/// Makes the values `s(z)` and `z`.
pub fn one_and_zero<B: TermBank>(rt: &impl Abort, engine: &mut Engine<B>) -> (Term, Term) {
    let empty = engine.nil().expect(rt, "the empty list");
    let zero = constant(rt, engine, empty, ZERO);
    (apply_to(rt, engine, SUCCESSOR, zero), zero)
}

/// Aborts the test unless this is the result, after two steps.
pub fn expect_in_two(rt: &impl Abort, outcome: Outcome, wanted: Term) {
    let (value, steps) = value_of(outcome).expect(rt, "a value");
    assert!(rt; value == wanted && steps == 2);
}

/// Makes the list of one value.
fn list_of<B: TermBank>(rt: &impl Abort, engine: &mut Engine<B>, value: Term) -> Term {
    let empty = engine.nil().expect(rt, "the empty list");
    assert!(rt; engine.bank().holds(value));
    engine.hold(value, empty).expect(rt, "a list")
}

/// Aborts the test unless the values and the sum that are made have the expected texts.
fn makes_values<B: TermBank>(rt: &impl Abort, alloc: Global, engine: &mut Engine<B>) {
    let empty = engine.nil().expect(rt, "the empty list");
    expect_text(rt, alloc, engine.bank(), empty, b"[]");
    let zero = constant(rt, engine, empty, ZERO);
    let one = apply_to(rt, engine, SUCCESSOR, zero);
    let sum = sum_of(rt, engine, (one, zero));
    expect_text(rt, alloc, engine.bank(), sum, b"add(s(z),z)");
    let list = list_of(rt, engine, sum);
    expect_text(rt, alloc, engine.bank(), list, b"[add(s(z),z)]");
}

/// Aborts the test unless a call with values takes two steps: `add(s(z),z)` is rewritten by the
/// second rule and then by the first.
fn calls_values<B: TermBank>(rt: &impl Abort, alloc: Global, engine: &mut Engine<B>) {
    let both = one_and_zero(rt, engine);
    assert!(rt; value_of(call_on_both(rt, engine, both, 1)).is_none());
    expect_in_two(rt, call_on_both(rt, engine, both, 2), both.0);
    expect_text(rt, alloc, engine.bank(), both.0, b"s(z)");
}

/// Returns the first rule that matches a term.
fn first_rule<B: TermBank>(
    rt: &impl Abort,
    alloc: Global,
    engine: &Engine<B>,
    t: Term,
) -> Option<u32> {
    assert!(rt; engine.bank().holds(t));
    let mut values = SmallVec::new(alloc);
    engine
        .matcher()
        .next(engine.bank(), t, 0, &mut values)
        .expect(rt, "an answer")
}

/// Aborts the test unless the second rule is the first that matches `add(s(z),z)`, and none matches
/// `s(z)`.
fn tells_rules<B: TermBank>(rt: &impl Abort, alloc: Global, engine: &mut Engine<B>) {
    let both = one_and_zero(rt, engine);
    let sum = sum_of(rt, engine, both);
    assert!(rt; matches!(first_rule(rt, alloc, engine, sum), Some(1)));
    assert!(rt; first_rule(rt, alloc, engine, both.0).is_none());
}

/// Returns whether the store is too small for an EVAL term.
fn lacks_room<B: TermBank>(rt: &impl Abort, engine: &mut Engine<B>, i: u32) -> bool
    ensures { (B.store engine.new.bank).roots ≡ (B.store engine.old.bank).roots }
{
    assert!(rt; i < engine.eval_terms());
    is_room(engine.eval_term(i).err())
}

/// Evaluates the first EVAL term, and protects the result.
fn protected_value<B: TermBank>(rt: &impl Abort, engine: &mut Engine<B>) -> Term
    ensures { 0 < (B.store engine.new.bank).roots result.0 }
{
    let (value, _) = value_of(outcome_of(rt, engine, 0, 0)).expect(rt, "a value");
    assert!(rt; engine.bank().holds(value));
    engine.protect(value).expect(rt, "a root");
    value
}

/// Aborts the test unless the result of the first EVAL term keeps its four cells while it is
/// protected, so that there is no room for the three more of the second term, and frees them
/// afterwards.
fn keeps_protected<B: TermBank>(rt: &impl Abort, alloc: Global, engine: &mut Engine<B>) {
    let value = protected_value(rt, engine);
    assert!(rt; lacks_room(rt, engine, 1));
    expect_text(rt, alloc, engine.bank(), value, b"h(c1)");
    engine.unprotect(value);
    assert!(rt; !lacks_room(rt, engine, 1));
}

/// The subject of a test of values.
#[derive(Drop)]
pub enum Values {
    Make,
    MakeOn,
    Call,
    TellRules,
    Protect,
}

const MADE: Case = Case {
    spec: ADD,
    options: OPTIONS,
    bank: Bank::Plain(100),
    question: Question::Values(Values::Make),
};

/// With a stack of the caller.
const MADE_ON: Case = Case {
    spec: ADD,
    options: OPTIONS,
    bank: Bank::Shared(100),
    question: Question::Values(Values::MakeOn),
};

const CALLED: Case = Case {
    spec: ADD,
    options: OPTIONS,
    bank: Bank::Shared(100),
    question: Question::Values(Values::Call),
};

const RULES: Case = Case {
    spec: ADD,
    options: OPTIONS,
    bank: Bank::Plain(100),
    question: Question::Values(Values::TellRules),
};

const PROTECTED: Case = Case {
    spec: TWENTY,
    options: OPTIONS,
    bank: Bank::Plain(6),
    question: Question::Values(Values::Protect),
};

/// Aborts the test unless values behave as expected.
pub fn ask<B: TermBank>(rt: &impl Abort, alloc: Global, engine: &mut Engine<B>, values: &Values) {
    match values {
        Values::Make => makes_values(rt, alloc, engine),
        Values::MakeOn => makes_values_on(rt, alloc, engine),
        Values::Call => calls_values(rt, alloc, engine),
        Values::TellRules => tells_rules(rt, alloc, engine),
        Values::Protect => keeps_protected(rt, alloc, engine),
    }
}

#[test]
fn values_are_used(rt: HostRuntime) {
    let cases = &[&MADE, &MADE_ON, &CALLED, &RULES, &PROTECTED];
    expect_cases(&rt, rt.alloc(), cases);
}
