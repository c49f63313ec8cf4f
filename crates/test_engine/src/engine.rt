//! Tests of the engine over both stores.

use crate::banks::text_of;
use crate::cases::{ANEW, Bank, Case, OPTIONS, Question, REMEMBERING, expect_cases};
use rec_engine::{Engine, EngineFault, Options, Outcome};
use rx_term::{Term, TermBank};
use std::alloc::Global;
use std::process::Abort;

/// The first EVAL term has eight cells: itself, `[s(s(z)),s(z)]`, `s(s(z))`, `[s(z)]`, `s(z)`,
/// `[z]`, `z` and `[]`.
pub const ADD: &[u8] = b"REC-SPEC Add SORTS N \
    CONS z : -> N s : N -> N \
    OPNS add : N N -> N \
    VARS X Y : N \
    RULES add(z,Y) -> Y add(s(X),Y) -> s(add(X,Y)) \
    EVAL add(s(s(z)),s(z)) s(z) END-SPEC";

/// The condition of the first rule fails for `z`, after one step; that of the second holds for it.
pub const COND: &[u8] = b"REC-SPEC Cond SORTS N \
    CONS z : -> N s : N -> N \
    OPNS f : N -> N g : N -> N \
    VARS X : N \
    RULES f(X) -> X if g(X) -><- X f(X) -> s(g(X)) if g(X) ->/<- X \
        g(z) -> s(z) g(s(X)) -> s(X) \
    EVAL f(z) f(s(z)) END-SPEC";

/// Each term is an application of `h` to a constant of its own. It is a normal form.
pub const TWENTY: &[u8] = b"REC-SPEC Twenty SORTS N \
    CONS c1 : -> N c2 : -> N c3 : -> N c4 : -> N c5 : -> N \
        c6 : -> N c7 : -> N c8 : -> N c9 : -> N c10 : -> N \
        c11 : -> N c12 : -> N c13 : -> N c14 : -> N c15 : -> N \
        c16 : -> N c17 : -> N c18 : -> N c19 : -> N c20 : -> N \
    OPNS h : N -> N \
    EVAL h(c1) h(c2) h(c3) h(c4) h(c5) h(c6) h(c7) h(c8) h(c9) h(c10) \
        h(c11) h(c12) h(c13) h(c14) h(c15) h(c16) h(c17) h(c18) h(c19) h(c20) END-SPEC";

/// `k(s(s(z)))` is called twice, in three steps each.
pub const HIT: &[u8] = b"REC-SPEC Hit SORTS Nat Pair \
    CONS z : -> Nat s : Nat -> Nat p : Nat Nat -> Pair \
    OPNS k : Nat -> Nat d : Nat -> Pair \
    VARS X : Nat \
    RULES k(z) -> z k(s(X)) -> k(X) d(X) -> p(k(X),k(X)) \
    EVAL d(s(s(z))) END-SPEC";

/// Its result is `z`, after `FAST_STEPS` steps.
pub const FAST: &[u8] = b"REC-SPEC Fast SORTS Nat \
    CONS z : -> Nat s : Nat -> Nat \
    OPNS k : Nat -> Nat q : Nat Nat -> Nat \
    VARS X Y : Nat \
    RULES k(z) -> z k(s(X)) -> q(k(X),k(X)) q(X,Y) -> X \
    EVAL k(\
        s(s(s(s(s(s(s(s(s(s(s(s(s(s(s(s(s(s(s(s(s(s(s(s(s(\
        s(s(s(s(s(s(s(s(s(s(s(s(s(s(s(s(s(s(s(s(s(s(s(s(s(\
        z))))))))))))))))))))))))))))))))))))))))))))))))))) END-SPEC";

/// 3 * 2^50 - 2.
pub const FAST_STEPS: u64 = 3_377_699_720_527_870;

/// The condition of `h` holds, and each right-hand side has a ground term of four symbols, or of
/// two.
const GROUND: &[u8] = b"REC-SPEC Ground SORTS N \
    CONS z : -> N s : N -> N g : N N -> N \
    OPNS f : N -> N h : N -> N \
    VARS X : N \
    RULES f(X) -> g(g(z,s(z)),X) h(X) -> s(z) if X -><- g(z,s(z)) \
    EVAL f(f(h(g(z,s(z))))) END-SPEC";

/// The result of the first EVAL term of the addition.
pub const SUM: &[u8] = b"s(s(s(z)))";

/// The text of the number 1.
pub const ONE: &[u8] = b"s(z)";

/// The text of the number 2.
pub const TWO: &[u8] = b"s(s(z))";

/// The text of the number 0.
pub const ZERO: &[u8] = b"z";

/// The text of a pair of zeros.
pub const PAIR: &[u8] = b"p(z,z)";

const GROUND_VALUE: &[u8] = b"g(g(z,s(z)),g(g(z,s(z)),s(z)))";

/// The end of an evaluation: a result with this text and this number of steps, or another end.
#[derive(Drop)]
pub enum End {
    Value(&'static [u8], u64),
    Limit,
    Deep,
    Room,
}

/// The index of a term, its step limit, and how the evaluation ends.
pub type Row = (u32, u64, End);

const VALUES: Case = Case {
    spec: ADD,
    options: OPTIONS,
    bank: Bank::Plain(100),
    question: Question::Rows(&[(0, 5, End::Value(SUM, 3)), (1, 0, End::Value(ONE, 0))]),
};

/// Conditions that fail and conditions that hold spend their steps.
const CONDITIONS: Case = Case {
    spec: COND,
    options: OPTIONS,
    bank: Bank::Plain(100),
    question: Question::Rows(&[(0, 9, End::Value(TWO, 5)), (1, 9, End::Value(ONE, 2))]),
};

/// A sum exceeds a limit that is one step too low, and is evaluated by the next call.
const LIMITS: Case = Case {
    spec: ADD,
    options: OPTIONS,
    bank: Bank::Plain(100),
    question: Question::Rows(&[(0, 2, End::Limit), (0, 3, End::Value(SUM, 3))]),
};

/// Ground terms of rules are built correctly the first time and later.
const GROUND_ROWS: [Row; 2] = [
    (0, 3, End::Value(GROUND_VALUE, 3)),
    (0, 3, End::Value(GROUND_VALUE, 3)),
];

const GROUND_TERMS: Case = Case {
    spec: GROUND,
    options: OPTIONS,
    bank: Bank::Plain(100),
    question: Question::Rows(&GROUND_ROWS),
};

const GROUND_TERMS_ANEW: Case = Case {
    spec: GROUND,
    options: ANEW,
    bank: Bank::Shared(100),
    question: Question::Rows(&GROUND_ROWS),
};

/// A call that is repeated spends the same number of steps.
const REPEATED_ROWS: [Row; 2] = [(0, 9, End::Value(PAIR, 7)), (0, 6, End::Limit)];

const REPEATED: Case = Case {
    spec: HIT,
    options: OPTIONS,
    bank: Bank::Plain(100),
    question: Question::Rows(&REPEATED_ROWS),
};

/// Repeated calls with a memo table of one result.
const REPEATED_BESIDE_ONE: Case = Case {
    spec: HIT,
    options: Options {
        memo: 1,
        reclaim_every: 262_144,
    },
    bank: Bank::Plain(100),
    question: Question::Rows(&REPEATED_ROWS),
};

/// Repeated calls with a large memo table, and a collection after each new cell.
const REPEATED_ANEW: Case = Case {
    spec: HIT,
    options: Options {
        memo: 65_536,
        reclaim_every: 1,
    },
    bank: Bank::Shared(100),
    question: Question::Rows(&REPEATED_ROWS),
};

/// Steps are counted exactly, even if they are so many that only a memo table makes them feasible.
const REMEMBERED: Case = Case {
    spec: FAST,
    options: REMEMBERING,
    bank: Bank::Shared(10_000),
    question: Question::Rows(&[
        (0, FAST_STEPS, End::Value(ZERO, FAST_STEPS)),
        (0, FAST_STEPS - 1, End::Limit),
    ]),
};

/// The room in a store.
#[derive(Drop)]
pub enum Cells {
    /// Too little for the first EVAL term.
    OfTerm,
    /// Too little for its result.
    OfValue,
    /// Enough for twenty terms, which then have at most this number of cells.
    AtMost(u32),
}

const CELLS_OF_A_TERM: Case = Case {
    spec: ADD,
    options: OPTIONS,
    bank: Bank::Plain(7),
    question: Question::Cells(Cells::OfTerm),
};

const CELLS_OF_A_VALUE: Case = Case {
    spec: ADD,
    options: OPTIONS,
    bank: Bank::Plain(8),
    question: Question::Cells(Cells::OfValue),
};

const EARLIER_TERMS: Case = Case {
    spec: TWENTY,
    options: ANEW,
    bank: Bank::Shared(100),
    question: Question::Cells(Cells::AtMost(30)),
};

/// The second EVAL term of the addition.
const SECOND: [Row; 1] = [(1, 0, End::Value(ONE, 0))];

/// Evaluates the EVAL term with index `i` within `n` steps.
pub fn outcome_of<B: TermBank>(rt: &impl Abort, engine: &mut Engine<B>, i: u32, n: u64) -> Outcome {
    assert!(rt; i < engine.eval_terms());
    let t = engine.eval_term(i).expect(rt, "a term");
    engine.normalise(t, n).expect(rt, "an outcome")
}

/// Returns the result and its steps, or `None` if the step limit was exceeded.
pub fn value_of(outcome: Outcome) -> Option<(Term, u64)> {
    match outcome {
        Outcome::Value { term, steps } => Some((term, steps)),
        Outcome::Limit => None,
    }
}

/// Returns whether an evaluation ended as expected.
pub fn has_ended<B: TermBank>(
    rt: &impl Abort,
    alloc: Global,
    bank: &B,
    outcome: Result<Outcome, EngineFault>,
    end: &End,
) -> bool {
    match outcome {
        Ok(Outcome::Value { term, steps }) => is_value(rt, alloc, bank, (term, steps), end),
        Ok(Outcome::Limit) => matches!(end, End::Limit),
        Err(EngineFault::Deep) => matches!(end, End::Deep),
        Err(EngineFault::Room) => matches!(end, End::Room),
        Err(EngineFault::Memory) => false,
    }
}

/// Returns whether an evaluation ends with this term and this number of steps.
fn is_value<B: TermBank>(
    rt: &impl Abort,
    alloc: Global,
    bank: &B,
    (term, steps): (Term, u64),
    end: &End,
) -> bool {
    match end {
        End::Value(text, spent) => {
            steps == *spent && text_of(rt, alloc, bank, term).as_slice() == *text
        }
        _ => false,
    }
}

/// Aborts the test unless an EVAL term ends as its test case states.
fn expect_row<B: TermBank>(rt: &impl Abort, alloc: Global, engine: &mut Engine<B>, row: &Row) {
    let outcome = outcome_of(rt, engine, row.0, row.1);
    let holds = has_ended(rt, alloc, engine.bank(), Ok(outcome), &row.2);
    assert!(rt; holds, "term {} within {}", row.0, row.1);
}

/// Aborts the test unless the EVAL terms end as their test cases state.
pub fn expect_rows<B: TermBank>(
    rt: &impl Abort,
    alloc: Global,
    engine: &mut Engine<B>,
    rows: &[Row],
) {
    for row in rows {
        expect_row(rt, alloc, engine, row);
    }
}

/// Returns whether an EVAL term exceeds the limit of `n` steps.
pub fn is_over<B: TermBank>(rt: &impl Abort, engine: &mut Engine<B>, i: u32, n: u64) -> bool {
    matches!(outcome_of(rt, engine, i, n), Outcome::Limit)
}

/// Returns whether the store is full.
pub fn is_room(fault: Option<EngineFault>) -> bool {
    matches!(fault, Some(EngineFault::Room))
}

/// Returns whether the store is too small for the first EVAL term.
fn has_no_room<B: TermBank>(rt: &impl Abort, engine: &mut Engine<B>) -> bool {
    assert!(rt; engine.eval_terms() > 0);
    is_room(engine.eval_term(0).err())
}

/// Returns whether the first EVAL term is made with this number of cells, and the store is too
/// small for its result.
fn has_no_room_for_value<B: TermBank>(
    rt: &impl Abort,
    engine: &mut Engine<B>,
    cells: u32,
    n: u64,
) -> bool {
    assert!(rt; engine.eval_terms() > 0);
    let t = engine.eval_term(0).expect(rt, "a term");
    assert!(rt; engine.bank().cells() == cells);
    is_room(engine.normalise(t, n).err())
}

/// Evaluates all terms in turn without a step, and returns the number of results.
pub fn count_values<B: TermBank>(rt: &impl Abort, engine: &mut Engine<B>) -> u32 {
    let mut values: u32 = 0;
    for i in 0..engine.eval_terms() {
        if !is_over(rt, engine, i, 0) {
            values = values.saturating_add(1);
        }
    }
    values
}

/// Aborts the test unless the store is too small for the first EVAL term, and large enough for the
/// second one afterwards.
fn refuses_term<B: TermBank>(rt: &impl Abort, alloc: Global, engine: &mut Engine<B>) {
    assert!(rt; has_no_room(rt, engine));
    expect_rows(rt, alloc, engine, &SECOND);
}

/// Aborts the test unless the store is large enough for the first EVAL term, too small for its
/// result, and large enough for the second one afterwards.
fn refuses_value<B: TermBank>(rt: &impl Abort, alloc: Global, engine: &mut Engine<B>) {
    assert!(rt; has_no_room_for_value(rt, engine, 8, 3));
    expect_rows(rt, alloc, engine, &SECOND);
}

/// Evaluates twenty terms. Aborts the test unless all have a result, and at most `at_most` cells
/// are in use then.
fn reclaims_earlier_terms<B: TermBank>(rt: &impl Abort, engine: &mut Engine<B>, at_most: u32) {
    assert!(rt; count_values(rt, engine) == 20);
    assert!(rt; engine.bank().cells() <= at_most);
}

/// Aborts the test unless the engine's store has the expected room.
pub fn ask<B: TermBank>(rt: &impl Abort, alloc: Global, engine: &mut Engine<B>, cells: &Cells) {
    match cells {
        Cells::OfTerm => refuses_term(rt, alloc, engine),
        Cells::OfValue => refuses_value(rt, alloc, engine),
        Cells::AtMost(count) => reclaims_earlier_terms(rt, engine, *count),
    }
}

/// How terms end, and the room in stores.
const CASES: [&Case; 12] = [
    &VALUES,
    &CONDITIONS,
    &LIMITS,
    &GROUND_TERMS,
    &GROUND_TERMS_ANEW,
    &REPEATED,
    &REPEATED_BESIDE_ONE,
    &REPEATED_ANEW,
    &REMEMBERED,
    &CELLS_OF_A_TERM,
    &CELLS_OF_A_VALUE,
    &EARLIER_TERMS,
];

#[test]
fn terms_end(rt: HostRuntime) {
    expect_cases(&rt, rt.alloc(), &CASES);
}
