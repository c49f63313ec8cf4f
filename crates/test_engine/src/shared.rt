//! Tests of input terms that share subterms, whose trees are far larger than their cells.

ghost use Rattle.std.specs.Prelude.{IfOk, IsSome};
ghost use Rattle.rx_term.specs.Store.{tree_at};
ghost use Rattle.rec_engine.specs.Engine.{IsGiven};

use crate::banks::{expect_text, plain_box, shared_bank, term_of};
use crate::engine::{outcome_of, value_of};
use crate::texts::checked_spec;
use example_client::evaluating::{admit, engine_over};
use rec_engine::{Engine, EngineFault, Outcome};
use rec_sorts::Checked;
use rx_term::{BankFault, Term, TermBank};
use std::alloc::Global;
use std::process::Abort;

/// Pairs, their first components, and an operator that only `z` has a rule for.
const PAIRS: &[u8] = b"REC-SPEC Pairs SORTS N \
    CONS z : -> N pair : N N -> N \
    OPNS f : N -> N g : N -> N \
    VARS X Y : N \
    RULES f(pair(X,Y)) -> X g(z) -> z \
    EVAL f(pair(z,z)) END-SPEC";

/// The number of nested pairs. The innermost term occurs 2^200 times.
const LEVELS: u32 = 200;

/// Makes the pair of a term and itself.
#[tactic(auto, using(rx_term::proofs::StoreLemmas::bank_steps))]
fn paired<B: TermBank>(bank: &mut B, term: Term) -> Result<Term, BankFault>
    requires { IsSome (tree_at (B.store bank.old) term) }
{
    let nil = bank.nil()?;
    let last = bank.cons(term, nil)?;
    let both = bank.cons(term, last)?;
    let pair = bank.symbol(b"pair", false, 2)?;
    bank.appl(pair, both)
}

/// Makes `f` of a term.
#[tactic(auto, using(rx_term::proofs::StoreLemmas::bank_steps))]
fn first_of<B: TermBank>(bank: &mut B, term: Term) -> Result<Term, BankFault>
    requires { IsSome (tree_at (B.store bank.old) term) }
{
    let nil = bank.nil()?;
    let only = bank.cons(term, nil)?;
    let first = bank.symbol(b"f", false, 1)?;
    bank.appl(first, only)
}

/// Makes `g` of a term.
#[tactic(auto, using(rx_term::proofs::StoreLemmas::bank_steps))]
fn stuck_on<B: TermBank>(bank: &mut B, term: Term) -> Result<Term, BankFault>
    requires { IsSome (tree_at (B.store bank.old) term) }
{
    let nil = bank.nil()?;
    let only = bank.cons(term, nil)?;
    let stuck = bank.symbol(b"g", false, 1)?;
    bank.appl(stuck, only)
}

/// Makes this number of nested pairs around `z`, each of a term and itself.
fn pairs<B: TermBank>(rt: &impl Abort, alloc: Global, bank: &mut B, levels: u32) -> Term {
    let mut term = term_of(rt, alloc, bank, b"z");
    for _ in 0..levels {
        assert!(rt; bank.holds(term));
        term = paired(bank, term).expect(rt, "a pair");
    }
    term
}

/// The operators around the pairs.
#[derive(Clone, Copy, Drop)]
enum Around {
    Nothing,
    First,
    StuckOnFirst,
}

/// Puts operators around a term.
fn applied<B: TermBank>(rt: &impl Abort, bank: &mut B, around: Around, term: Term) -> Term {
    assert!(rt; bank.holds(term));
    match around {
        Around::Nothing => term,
        Around::First => first_of(bank, term).expect(rt, "a call"),
        Around::StuckOnFirst => {
            let first = first_of(bank, term).expect(rt, "a call");
            assert!(rt; bank.holds(first));
            stuck_on(bank, first).expect(rt, "a call")
        }
    }
}

/// An engine, a term that it can evaluate, and the components of the outermost pair in it.
#[derive(Drop)]
struct Shared<B: TermBank> {
    engine: Box<Engine<B>>,
    term: Term,
    component: Term,
}

/// Returns an engine over a store that has a term, which violates no rule.
fn engine_for<B: TermBank + Drop>(
    rt: &impl Abort,
    alloc: Global,
    checked: Checked,
    mut bank: Box<B>,
    term: Term,
) -> Box<Engine<B>>
    requires { IsSome (tree_at (B.store bank.value) term) }
    ensures { IsGiven result.value.spec (B.store result.value.bank) term }
{
    admit(alloc, &checked, &mut *bank, term).expect(rt, "a term to evaluate");
    let engine = engine_over(alloc, checked, Box::into_inner(bank)).expect(rt, "an engine");
    Box::new(alloc, engine).expect(rt, "memory")
}

/// Returns an engine over a store that has these operators around the nested pairs.
fn engine_with<B: TermBank + Drop>(
    rt: &impl Abort,
    alloc: Global,
    mut bank: Box<B>,
    around: Around,
) -> Shared<B>
    ensures { IsGiven result.engine.value.spec (B.store result.engine.value.bank) result.term }
{
    let checked = checked_spec(rt, alloc, PAIRS);
    let component = pairs(rt, alloc, &mut *bank, LEVELS - 1);
    assert!(rt; bank.holds(component));
    let pair = paired(&mut *bank, component).expect(rt, "a pair");
    let term = applied(rt, &mut *bank, around, pair);
    assert!(rt; bank.holds(term));
    Shared {
        engine: engine_for(rt, alloc, checked, bank, term),
        term,
        component,
    }
}

/// Aborts the test unless an evaluation ended with this value, after this number of steps.
fn expect_value(rt: &impl Abort, outcome: Outcome, wanted: Term, steps: u64) {
    let (value, spent) = value_of(outcome).expect(rt, "a value");
    assert!(rt; value == wanted && spent == steps);
}

/// Aborts the test unless a term of constructors alone is its own value, in no step.
fn pairs_are_values<B: TermBank + Drop>(rt: &impl Abort, alloc: Global, bank: Box<B>) {
    let mut shared = engine_with(rt, alloc, bank, Around::Nothing);
    let outcome = shared.engine.normalise(shared.term, 0);
    expect_value(rt, outcome.expect(rt, "an outcome"), shared.term, 0);
}

/// Aborts the test unless `f` of the pairs is rewritten once, to the first component.
fn calls_are_evaluated<B: TermBank + Drop>(rt: &impl Abort, alloc: Global, bank: Box<B>) {
    let mut shared = engine_with(rt, alloc, bank, Around::First);
    let outcome = shared.engine.normalise(shared.term, 1);
    expect_value(rt, outcome.expect(rt, "an outcome"), shared.component, 1);
}

/// Aborts the test unless `f` of the pairs exceeds the limit of no step.
fn calls_take_steps<B: TermBank + Drop>(rt: &impl Abort, alloc: Global, bank: Box<B>) {
    let mut shared = engine_with(rt, alloc, bank, Around::First);
    let outcome = shared.engine.normalise(shared.term, 0);
    assert!(rt; matches!(outcome, Ok(Outcome::Limit)));
}

/// Aborts the test unless `g(f(..))` has too many occurrences to be compiled, and the engine then
/// evaluates the first EVAL term.
fn occurrences_are_limited<B: TermBank + Drop>(rt: &impl Abort, alloc: Global, bank: Box<B>) {
    let mut shared = engine_with(rt, alloc, bank, Around::StuckOnFirst);
    let outcome = shared.engine.normalise(shared.term, 9);
    assert!(rt; matches!(outcome, Err(EngineFault::Memory)));
    let (value, steps) = value_of(outcome_of(rt, &mut *shared.engine, 0, 1)).expect(rt, "a value");
    assert!(rt; steps == 1);
    expect_text(rt, alloc, shared.engine.bank(), value, b"z");
}

#[test]
fn shared_terms_end(rt: HostRuntime) {
    let alloc = rt.alloc();
    pairs_are_values(&rt, alloc, plain_box(&rt, alloc, 10_000));
    calls_are_evaluated(&rt, alloc, plain_box(&rt, alloc, 10_000));
    calls_take_steps(&rt, alloc, plain_box(&rt, alloc, 10_000));
    occurrences_are_limited(&rt, alloc, plain_box(&rt, alloc, 10_000));
}

/// Returns an engine over an empty store.
fn engine_of_pairs<B: TermBank + Drop>(
    rt: &impl Abort,
    alloc: Global,
    bank: Box<B>,
) -> Box<Engine<B>> {
    let checked = checked_spec(rt, alloc, PAIRS);
    let engine = engine_over(alloc, checked, Box::into_inner(bank)).expect(rt, "an engine");
    Box::new(alloc, engine).expect(rt, "memory")
}

/// Makes `f` of this number of nested pairs in a store, and copies it into the store of an engine.
fn copy_from<B: TermBank, N: TermBank>(
    rt: &impl Abort,
    alloc: Global,
    engine: &mut Engine<B>,
    own: &mut N,
    levels: u32,
) -> Result<Term, EngineFault>
    ensures { IfOk result (IsGiven engine.new.spec (B.store engine.new.bank)) }
{
    let pair = pairs(rt, alloc, own, levels);
    assert!(rt; own.holds(pair));
    let call = first_of(own, pair).expect(rt, "a call");
    assert!(rt; own.holds(call));
    admit(alloc, engine.checked(), own, call).expect(rt, "a term to evaluate");
    engine.given_from(own, call)
}

/// Aborts the test unless the copy of `f` of this number of nested pairs is rewritten once. Returns
/// the value.
fn evaluate_copy<B: TermBank>(
    rt: &impl Abort,
    alloc: Global,
    engine: &mut Engine<B>,
    levels: u32,
) -> Term {
    let mut own = shared_bank(rt, alloc, 10_000);
    let call = copy_from(rt, alloc, engine, &mut own, levels).expect(rt, "a copy");
    let outcome = engine.normalise(call, 1).expect(rt, "an outcome");
    let (value, steps) = value_of(outcome).expect(rt, "a value");
    assert!(rt; steps == 1);
    value
}

/// Aborts the test unless the value of a copy is printed as expected.
fn copies_are_evaluated<B: TermBank + Drop>(rt: &impl Abort, alloc: Global, bank: Box<B>) {
    let mut engine = engine_of_pairs(rt, alloc, bank);
    let value = evaluate_copy(rt, alloc, &mut *engine, 3);
    let wanted = b"pair(pair(z,z),pair(z,z))";
    expect_text(rt, alloc, engine.bank(), value, wanted);
}

/// Aborts the test unless a copy takes at most three cells for each level, and seven more.
fn copies_are_shared<B: TermBank + Drop>(rt: &impl Abort, alloc: Global, bank: Box<B>) {
    let mut engine = engine_of_pairs(rt, alloc, bank);
    evaluate_copy(rt, alloc, &mut *engine, LEVELS);
    assert!(rt; engine.bank().cells() <= 3 * LEVELS + 7);
}

/// Aborts the test unless a store without room for a copy is full.
fn copies_need_room<B: TermBank + Drop>(rt: &impl Abort, alloc: Global, bank: Box<B>) {
    let mut engine = engine_of_pairs(rt, alloc, bank);
    let mut own = shared_bank(rt, alloc, 10_000);
    let copy = copy_from(rt, alloc, &mut *engine, &mut own, LEVELS);
    assert!(rt; matches!(copy, Err(EngineFault::Room)));
}

#[test]
fn copies_shared_terms(rt: HostRuntime) {
    let alloc = rt.alloc();
    copies_are_evaluated(&rt, alloc, plain_box(&rt, alloc, 10_000));
    copies_are_shared(&rt, alloc, plain_box(&rt, alloc, 10_000));
    copies_need_room(&rt, alloc, plain_box(&rt, alloc, 300));
}
