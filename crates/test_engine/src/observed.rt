//! Tests of the counters of an engine, and of progress reports.

use crate::cases::{ANEW, Bank, Case, OPTIONS, Question, REMEMBERING, expect_cases};
use crate::engine::{
    ADD, COND, End, FAST, FAST_STEPS, HIT, ONE, PAIR, Row, SUM, TWENTY, TWO, ZERO, count_values,
    expect_rows, has_ended,
};
use crate::texts::expect;
use rec_engine::{Engine, EngineFault, Limits, Outcome, RuleCount, Tally, Watch};
use rx_term::TermBank;
use std::alloc::Global;
use std::process::Abort;

/// Two rules in turn, without an end.
const TURNS: &[u8] = b"REC-SPEC Turns SORTS N \
    CONS z : -> N s : N -> N \
    OPNS f : N -> N \
    VARS X : N \
    RULES f(z) -> f(s(z)) f(s(X)) -> f(X) \
    EVAL f(z) END-SPEC";

/// Four times the number of steps between two progress reports.
const LONG: u64 = 262_144;

/// The numbers of matches, rewrites and failed conditions of a rule.
type Count = (u64, u64, u64);

/// An observer that records the reports.
#[derive(Drop)]
struct Witness {
    told: u32,
    ceased: u32,
    /// The steps left in the last report.
    left: u64,
    /// Whether each report had fewer steps left than the one before, and the store had cells.
    goes_on: bool,
}

impl Watch for Witness {
    fn tell(&mut self, left: u64, cells: u32) {
        self.told = self.told.saturating_add(1);
        self.goes_on = self.goes_on && left < self.left && cells > 0;
        self.left = left;
    }

    fn cease(&mut self) {
        self.ceased = self.ceased.saturating_add(1);
    }
}

/// No report so far.
const NOTHING: Witness = Witness {
    told: 0,
    ceased: 0,
    left: LONG,
    goes_on: true,
};

/// The step limit of the sum, the call-depth limit if there is one, and how the evaluation ends.
pub type Told = (u64, Option<u32>, End);

const ENDS: [Told; 5] = [
    (5, None, End::Value(SUM, 3)),
    (2, None, End::Limit),
    (3, Some(3), End::Value(SUM, 3)),
    (1, Some(2), End::Limit),
    (2, Some(2), End::Deep),
];

/// In a store that is full of the term.
const ENDS_WITHOUT_ROOM: [Told; 2] = [(5, None, End::Room), (5, Some(3), End::Room)];

/// Evaluates the first EVAL term within `n` steps, with a witness.
fn watch_first<B: TermBank>(
    rt: &impl Abort,
    engine: &mut Engine<B>,
    n: u64,
    depth: Option<u32>,
    witness: &mut Witness,
) -> Result<Outcome, EngineFault> {
    assert!(rt; engine.eval_terms() > 0);
    let t = engine.eval_term(0).expect(rt, "a term");
    engine.normalise_with(t, Limits { steps: n, depth }, witness)
}

/// Aborts the test unless the sum ends as expected, and a witness is notified once.
fn expect_end<B: TermBank>(rt: &impl Abort, alloc: Global, engine: &mut Engine<B>, row: &Told) {
    let mut witness = NOTHING;
    let outcome = watch_first(rt, engine, row.0, row.1, &mut witness);
    let holds = has_ended(rt, alloc, engine.bank(), outcome, &row.2) && witness.ceased == 1;
    assert!(rt; holds, "{} steps, {:?} calls", row.0, row.1);
}

/// Aborts the test unless the sum ends as each test case states, and a witness is notified once.
fn expect_told<B: TermBank>(rt: &impl Abort, alloc: Global, engine: &mut Engine<B>, rows: &[Told]) {
    for row in rows {
        expect_end(rt, alloc, engine, row);
    }
}

/// Aborts the test unless a witness is notified after each 65,536 matches of a term without an end.
fn hears_of_rules<B: TermBank>(rt: &impl Abort, engine: &mut Engine<B>) {
    let mut witness = NOTHING;
    let outcome = watch_first(rt, engine, LONG, None, &mut witness);
    let is_limit = matches!(outcome, Ok(Outcome::Limit));
    assert!(rt; is_limit && witness.told == 4 && witness.ceased == 1 && witness.goes_on);
}

/// Aborts the test unless the rules have exactly these counts.
fn expect_counts(rt: &impl Abort, counts: &[RuleCount], rows: &[Count]) {
    assert!(rt; counts.len() == rows.len());
    for (count, row) in counts.iter().zip(rows) {
        assert!(rt;
            (count.matched, count.fired, count.failed) == *row,
            "{row:?}"
        );
    }
}

/// Two rules spent half of the steps each.
const IN_TURN: [Count; 2] = [(LONG / 2, LONG / 2, 0), (LONG / 2, LONG / 2, 0)];

/// `f(z)` takes five steps: the first rule's, one in its condition, which fails, the second rule's,
/// one in its condition and one after it.
const FIRST: [Row; 1] = [(0, 9, End::Value(TWO, 5))];

const OF_FIRST: [Count; 4] = [(1, 0, 1), (1, 1, 0), (3, 3, 0), (0, 0, 0)];

/// `f(s(z))` takes two: the first rule's, and one in its condition, which holds.
const SECOND: [Row; 1] = [(1, 9, End::Value(ONE, 2))];

const OF_BOTH: [Count; 4] = [(2, 1, 1), (1, 1, 0), (3, 3, 0), (1, 1, 0)];

/// After one step of `f(z)` none is left for the condition.
const BROKEN_OFF: [Row; 1] = [(0, 1, End::Limit)];

const OF_ALL: [Count; 4] = [(3, 1, 1), (1, 1, 0), (3, 3, 0), (1, 1, 0)];

const OF_NONE: [Count; 4] = [(0, 0, 0); 4];

/// Each `k` is called twice without a memo table.
const REPEATED: [Row; 1] = [(0, 9, End::Value(PAIR, 7))];

const OF_REPEATED: [Count; 3] = [(2, 2, 0), (4, 4, 0), (1, 1, 0)];

/// Returns the number of matches.
fn match_count(counts: &[RuleCount]) -> u64 {
    let mut sum: u64 = 0;
    for count in counts {
        sum = sum.saturating_add(count.matched);
    }
    sum
}

const LONGEST: [Row; 1] = [(0, FAST_STEPS, End::Value(ZERO, FAST_STEPS))];

/// Returns whether the steps of matches and of memoized results are all steps.
fn are_all_steps(tally: &Tally, counts: &[RuleCount]) -> bool {
    tally.steps == FAST_STEPS
        && tally.remembered > 0
        && tally.saved < FAST_STEPS
        && match_count(counts) == FAST_STEPS - tally.saved
}

/// The expected counters of an engine.
#[derive(Drop)]
pub enum Done {
    /// This number of steps, none of them by a memoized result.
    Steps(u64),
    /// All steps of the longest evaluation, some of them by memoized results.
    Remembered,
    /// No step; this number of cells was made, and none was freed.
    Cells(u32),
    /// At least the first number of cells was made, and at most the second was in use at once.
    Reclaims(u32, u32),
}

/// Returns whether an engine has these counters.
fn has_done<B: TermBank>(engine: &Engine<B>, done: &Done) -> bool {
    let tally = engine.tally();
    match done {
        Done::Steps(count) => tally.steps == *count && tally.remembered == 0 && tally.saved == 0,
        Done::Remembered => are_all_steps(&tally, engine.rule_counts()),
        Done::Cells(count) => {
            tally.steps == 0
                && tally.made == *count as u64
                && tally.most == *count
                && tally.reclaims == 0
        }
        Done::Reclaims(made, most) => {
            tally.made >= *made as u64
                && tally.reclaims > 0
                && tally.most <= *most
                && tally.most >= engine.bank().cells()
        }
    }
}

/// A step of a test.
#[derive(Drop)]
pub enum Step {
    /// How evaluations of the sum end.
    Ends(&'static [Told]),
    /// The reports about a term without an end.
    LongTerm,
    /// How terms end.
    Rows(&'static [Row]),
    /// Rules are counted from here on.
    Count,
    /// The counts of the rules; none if rules are not counted.
    Counts(&'static [Count]),
    /// The number of terms that have a result without a step.
    Values(u32),
    /// The expected counters, with a name for the failure message.
    Done(&'static str, Done),
}

/// Aborts the test unless a step has the expected result.
fn take_step<B: TermBank>(rt: &impl Abort, alloc: Global, engine: &mut Engine<B>, step: &Step) {
    match step {
        Step::Ends(rows) => expect_told(rt, alloc, engine, rows),
        Step::LongTerm => hears_of_rules(rt, engine),
        Step::Rows(rows) => expect_rows(rt, alloc, engine, rows),
        Step::Count => expect(rt, engine.count_rules(alloc).is_ok(), "memory"),
        Step::Counts(rows) => expect_counts(rt, engine.rule_counts(), rows),
        Step::Values(count) => expect(rt, count_values(rt, engine) == *count, "values"),
        Step::Done(place, done) => expect(rt, has_done(engine, done), place),
    }
}

/// Runs all steps of a test.
pub fn ask<B: TermBank>(rt: &impl Abort, alloc: Global, engine: &mut Engine<B>, steps: &[Step]) {
    for step in steps {
        take_step(rt, alloc, engine, step);
    }
}

/// A witness gets the same reports with and without counted rules.
const LONG_TERM: [Step; 6] = [
    Step::LongTerm,
    Step::Counts(&[]),
    Step::Count,
    Step::LongTerm,
    Step::Counts(&IN_TURN),
    Step::Done("after two long terms", Done::Steps(2 * LONG)),
];

/// Rules are counted from the request on, and from zero after another request; steps are counted
/// from the start.
const RULES: [Step; 13] = [
    Step::Rows(&SECOND),
    Step::Counts(&[]),
    Step::Count,
    Step::Counts(&OF_NONE),
    Step::Rows(&FIRST),
    Step::Counts(&OF_FIRST),
    Step::Rows(&SECOND),
    Step::Counts(&OF_BOTH),
    Step::Rows(&BROKEN_OFF),
    Step::Counts(&OF_ALL),
    Step::Done("after four terms", Done::Steps(10)),
    Step::Count,
    Step::Counts(&OF_NONE),
];

/// Each repeated call is counted again without a memo table.
const CALLS: [Step; 4] = [
    Step::Count,
    Step::Rows(&REPEATED),
    Step::Counts(&OF_REPEATED),
    Step::Done("after calls", Done::Steps(7)),
];

const RESULTS: [Step; 3] = [
    Step::Count,
    Step::Rows(&LONGEST),
    Step::Done("after memoized calls", Done::Remembered),
];

/// Twenty terms take a cell for the empty list and three more for each: itself, the list of its
/// argument, and the argument.
const CELLS: [Step; 3] = [
    Step::Done("before terms", Done::Cells(0)),
    Step::Values(20),
    Step::Done("after twenty terms", Done::Cells(61)),
];

/// With collections, the same cells are made, and fewer are in use.
const RECLAIMS: [Step; 2] = [
    Step::Values(20),
    Step::Done("after collections", Done::Reclaims(61, 30)),
];

const ENDS_TOLD: Case = Case {
    spec: ADD,
    options: OPTIONS,
    bank: Bank::Plain(100),
    question: Question::Observed(&[Step::Ends(&ENDS)]),
};

/// In a store that is full of the term.
const ENDS_TOLD_WITHOUT_ROOM: Case = Case {
    spec: ADD,
    options: OPTIONS,
    bank: Bank::Plain(8),
    question: Question::Observed(&[Step::Ends(&ENDS_WITHOUT_ROOM)]),
};

const RULES_TOLD: Case = Case {
    spec: TURNS,
    options: OPTIONS,
    bank: Bank::Plain(100),
    question: Question::Observed(&LONG_TERM),
};

const RULES_COUNTED: Case = Case {
    spec: COND,
    options: OPTIONS,
    bank: Bank::Plain(100),
    question: Question::Observed(&RULES),
};

const CALLS_COUNTED: Case = Case {
    spec: HIT,
    options: OPTIONS,
    bank: Bank::Plain(100),
    question: Question::Observed(&CALLS),
};

const RESULTS_COUNTED: Case = Case {
    spec: FAST,
    options: REMEMBERING,
    bank: Bank::Shared(10_000),
    question: Question::Observed(&RESULTS),
};

const CELLS_COUNTED: Case = Case {
    spec: TWENTY,
    options: OPTIONS,
    bank: Bank::Shared(100),
    question: Question::Observed(&CELLS),
};

const RECLAIMS_COUNTED: Case = Case {
    spec: TWENTY,
    options: ANEW,
    bank: Bank::Shared(100),
    question: Question::Observed(&RECLAIMS),
};

/// Reports and counters.
const CASES: [&Case; 8] = [
    &ENDS_TOLD,
    &ENDS_TOLD_WITHOUT_ROOM,
    &RULES_TOLD,
    &RULES_COUNTED,
    &CALLS_COUNTED,
    &RESULTS_COUNTED,
    &CELLS_COUNTED,
    &RECLAIMS_COUNTED,
];

#[test]
fn evaluations_are_observed(rt: HostRuntime) {
    expect_cases(&rt, rt.alloc(), &CASES);
}
