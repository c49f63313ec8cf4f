//! Tests of the engine's functions that use a stack or a buffer of the caller.

ghost use Rattle.std.specs.Prelude.{◌≡◌, ◌∷◌, []};

use crate::banks::{expect_held, expect_text};
use crate::values::{ADDITION, SUCCESSOR, ZERO, apply_to, constant};
use rec_engine::Engine;
use rx_term::{Term, TermBank};
use smallvec::SmallVec;
use std::alloc::Global;
use std::process::Abort;

/// Returns a stack of a value and two more above it.
fn stack_of(rt: &impl Abort, alloc: Global, below: Term, above: (Term, Term)) -> Vec<Term>
    ensures { result.items ≡ below ∷ above.0 ∷ above.1 ∷ [] }
{
    let mut stack = Vec::new(alloc);
    stack.push(below).expect(rt, "room for a value");
    stack.push(above.0).expect(rt, "room for a value");
    stack.push(above.1).expect(rt, "room for a value");
    stack
}

/// Aborts the test unless a stack has these values.
fn expect_terms(rt: &impl Abort, stack: &[Term], values: &[Term]) {
    assert!(rt; stack == values);
}

/// Replaces the two upper values of a stack by their sum.
fn add_on<B: TermBank>(
    rt: &impl Abort,
    engine: &mut Engine<B>,
    stack: &mut Vec<Term>,
    values: (Term, Term, Term),
)
    requires { stack.old.items ≡ values.0 ∷ values.1 ∷ values.2 ∷ [] }
{
    expect_held(rt, engine.bank(), values);
    let checked = engine.checked();
    assert!(rt; ADDITION < checked.symbols() && checked.arity(ADDITION) == 2);
    engine
        .apply_on(stack, ADDITION, 2)
        .expect(rt, "an application");
}

/// Makes the sum of two values above another one, which stays.
fn add_above<B: TermBank>(
    rt: &impl Abort,
    alloc: Global,
    engine: &mut Engine<B>,
    values: (Term, Term, Term),
) -> Term {
    let mut stack = stack_of(rt, alloc, values.0, (values.1, values.2));
    add_on(rt, engine, &mut stack, values);
    let sum = stack.pop().expect(rt, "a sum");
    expect_terms(rt, &stack, &[values.0]);
    sum
}

/// Makes the list of a value that is on the stack twice, above another value.
fn list_on<B: TermBank>(
    rt: &impl Abort,
    engine: &mut Engine<B>,
    stack: &mut Vec<Term>,
    values: (Term, Term),
) -> Term
    requires { stack.old.items ≡ values.0 ∷ values.1 ∷ values.1 ∷ [] }
{
    let empty = engine.nil().expect(rt, "the empty list");
    expect_held(rt, engine.bank(), (values.0, values.1, values.1));
    engine.hold_on(stack, 1, empty).expect(rt, "a list")
}

/// Makes the list of a value, on a stack of that value and another one, which stays unchanged.
fn list_above<B: TermBank>(
    rt: &impl Abort,
    alloc: Global,
    engine: &mut Engine<B>,
    values: (Term, Term),
) -> Term {
    let mut stack = stack_of(rt, alloc, values.0, (values.1, values.1));
    let list = list_on(rt, engine, &mut stack, values);
    expect_terms(rt, &stack, &[values.0, values.1, values.1]);
    list
}

/// Returns a list of one reference.
fn only(rt: &impl Abort, alloc: Global, t: Term) -> Vec<Term> {
    let mut out = Vec::new(alloc);
    assert!(rt; out.push(t).is_ok());
    out
}

/// Returns the first rule that matches a term, with a buffer that is not empty.
fn rule_with_room<B: TermBank>(
    rt: &impl Abort,
    alloc: Global,
    engine: &Engine<B>,
    t: Term,
) -> Option<u32> {
    assert!(rt; engine.bank().holds(t));
    let mut values = SmallVec::new(alloc);
    let mut room = only(rt, alloc, t);
    engine
        .matcher()
        .next_on(engine.bank(), t, 0, &mut room, &mut values)
        .expect(rt, "an answer")
}

/// Aborts the test unless a term that is made this way has the expected text and rule.
pub fn makes_values_on<B: TermBank>(rt: &impl Abort, alloc: Global, engine: &mut Engine<B>) {
    let empty = engine.nil().expect(rt, "the empty list");
    let zero = constant(rt, engine, empty, ZERO);
    let one = apply_to(rt, engine, SUCCESSOR, zero);
    let sum = add_above(rt, alloc, engine, (one, one, zero));
    expect_text(rt, alloc, engine.bank(), sum, b"add(s(z),z)");
    assert!(rt; rule_with_room(rt, alloc, engine, sum) == Some(1));
    let list = list_above(rt, alloc, engine, (one, sum));
    expect_text(rt, alloc, engine.bank(), list, b"[add(s(z),z)]");
}
