//! Tests of the call-depth limit.

use crate::cases::{Bank, Case, OPTIONS, Question, expect_cases};
use crate::engine::{ADD, End, HIT, PAIR, Row, SUM, expect_rows, has_ended};
use crate::values::{ADDITION, expect_addends, expect_in_two, one_and_zero};
use rec_engine::{Engine, EngineFault, Limits, Outcome, Unwatched};
use rx_term::{Term, TermBank};
use std::alloc::Global;
use std::process::Abort;

/// Evaluates the first EVAL term within `n` steps and this call-depth limit.
fn outcome_within<B: TermBank>(
    rt: &impl Abort,
    engine: &mut Engine<B>,
    n: u64,
    depth: u32,
) -> Result<Outcome, EngineFault> {
    assert!(rt; engine.eval_terms() > 0);
    let t = engine.eval_term(0).expect(rt, "a term");
    let limits = Limits {
        steps: n,
        depth: Some(depth),
    };
    engine.normalise_with(t, limits, &mut Unwatched)
}

/// The step limit of the first EVAL term, the call-depth limit, and how the evaluation ends.
pub type Waiting = (u64, u32, End);

/// `add(s(s(z)),s(z))` needs three frames: one for the term, and one for `s(add(X,Y))` in the first
/// and in the second step.
const THRICE: [Waiting; 6] = [
    (0, 0, End::Deep),
    (0, 1, End::Limit),
    (1, 1, End::Deep),
    (1, 2, End::Limit),
    (2, 2, End::Deep),
    (3, 3, End::Value(SUM, 3)),
];

/// The sum without a call-depth limit.
const AT_LAST: [Row; 1] = [(0, 3, End::Value(SUM, 3))];

/// A tail call needs no frame. The term has a frame for `d`; the right-hand side of `d(X) ->
/// p(k(X),k(X))` has one for each `k` in turn, which calls itself as a tail call.
const TWICE: [Waiting; 2] = [(7, 1, End::Deep), (7, 2, End::Value(PAIR, 7))];

/// Aborts the test unless the first EVAL term ends as expected.
fn expect_waiting<B: TermBank>(
    rt: &impl Abort,
    alloc: Global,
    engine: &mut Engine<B>,
    rows: &[Waiting],
) {
    for row in rows {
        let outcome = outcome_within(rt, engine, row.0, row.1);
        let holds = has_ended(rt, alloc, engine.bank(), outcome, &row.2);
        assert!(rt; holds, "{} steps, {} calls", row.0, row.1);
    }
}

/// Returns whether the call-depth limit was reached.
fn is_deep(outcome: Result<Outcome, EngineFault>) -> bool {
    matches!(outcome, Err(EngineFault::Deep))
}

/// Evaluates the sum of two values within two steps and this call-depth limit. The first value is
/// protected.
fn call_on_both_within<B: TermBank>(
    rt: &impl Abort,
    engine: &mut Engine<B>,
    (first, second): (Term, Term),
    depth: u32,
) -> Result<Outcome, EngineFault> {
    expect_addends(rt, engine, (first, second));
    let limits = Limits {
        steps: 2,
        depth: Some(depth),
    };
    engine.call(first, ADDITION, &[first, second], limits)
}

/// Aborts the test unless `add(s(z),z)` needs one frame.
fn waits_in_call<B: TermBank>(rt: &impl Abort, engine: &mut Engine<B>) {
    let both = one_and_zero(rt, engine);
    assert!(rt; is_deep(call_on_both_within(rt, engine, both, 0)));
    let outcome = call_on_both_within(rt, engine, both, 1).expect(rt, "an outcome");
    expect_in_two(rt, outcome, both.0);
}

/// The calls whose depth is tested.
#[derive(Drop)]
pub enum Waits {
    /// The first EVAL term.
    OfTerm(&'static [Waiting]),
    /// The sum.
    OfSum,
    /// A call with values as arguments.
    OfCall,
}

const CALLS: Case = Case {
    spec: ADD,
    options: OPTIONS,
    bank: Bank::Plain(100),
    question: Question::Depth(Waits::OfSum),
};

const LAST_CALLS: Case = Case {
    spec: HIT,
    options: OPTIONS,
    bank: Bank::Shared(100),
    question: Question::Depth(Waits::OfTerm(&TWICE)),
};

const CALLS_ON_VALUES: Case = Case {
    spec: ADD,
    options: OPTIONS,
    bank: Bank::Plain(100),
    question: Question::Depth(Waits::OfCall),
};

/// Aborts the test unless an engine needs the expected call depth.
pub fn ask<B: TermBank>(rt: &impl Abort, alloc: Global, engine: &mut Engine<B>, waits: &Waits) {
    match waits {
        Waits::OfTerm(rows) => expect_waiting(rt, alloc, engine, rows),
        Waits::OfSum => {
            expect_waiting(rt, alloc, engine, &THRICE);
            expect_rows(rt, alloc, engine, &AT_LAST);
        }
        Waits::OfCall => waits_in_call(rt, engine),
    }
}

#[test]
fn calls_wait(rt: HostRuntime) {
    expect_cases(&rt, rt.alloc(), &[&CALLS, &LAST_CALLS, &CALLS_ON_VALUES]);
}
