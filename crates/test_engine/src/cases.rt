//! Engines over empty stores, and what is tested of them.

use crate::banks::{plain_bank, shared_bank};
use crate::engine::{Row, expect_rows};
use crate::texts::checked_spec;
use crate::{depth, engine, observed, trace, values};
use rec_engine::{Engine, Options};
use rx_term::TermBank;
use std::alloc::Global;
use std::process::Abort;

/// The kind of store, and its capacity.
#[derive(Drop)]
pub enum Bank {
    Plain(u32),
    Shared(u32),
}

/// The subject of a test of an engine.
#[derive(Drop)]
pub enum Question {
    /// How evaluations end.
    Rows(&'static [Row]),
    /// The test cases of other modules.
    Cells(engine::Cells),
    Depth(depth::Waits),
    Values(values::Values),
    Observed(&'static [observed::Step]),
    Trace(trace::Traced),
}

/// An engine, and the subject of its test.
#[derive(Drop)]
pub struct Case {
    pub spec: &'static [u8],
    pub options: Options,
    pub bank: Bank,
    pub question: Question,
}

/// Options without a memo table, and with few collections.
pub const OPTIONS: Options = Options {
    memo: 0,
    reclaim_every: 262_144,
};

/// Options with a collection after each new cell.
pub const ANEW: Options = Options {
    memo: 0,
    reclaim_every: 1,
};

/// Options with a large memo table.
pub const REMEMBERING: Options = Options {
    memo: 65_536,
    reclaim_every: 262_144,
};

/// Aborts the test unless an engine behaves as expected.
fn ask<B: TermBank>(rt: &impl Abort, alloc: Global, engine: &mut Engine<B>, question: &Question) {
    match question {
        Question::Rows(rows) => expect_rows(rt, alloc, engine, rows),
        Question::Cells(cells) => engine::ask(rt, alloc, engine, cells),
        Question::Depth(waits) => depth::ask(rt, alloc, engine, waits),
        Question::Values(values) => values::ask(rt, alloc, engine, values),
        Question::Observed(steps) => observed::ask(rt, alloc, engine, steps),
        Question::Trace(traced) => trace::ask(rt, alloc, engine, traced),
    }
}

/// Returns an engine for a specification over a store.
fn engine_for<B: TermBank + Drop>(
    rt: &impl Abort,
    alloc: Global,
    spec: &[u8],
    bank: B,
    options: Options,
) -> Box<Engine<B>> {
    assert!(rt;
        options.memo <= 1_048_576
            && options.reclaim_every >= 1
            && options.reclaim_every <= 1_073_741_824
    );
    let checked = checked_spec(rt, alloc, spec);
    let engine = Engine::new(alloc, checked, bank, options).expect(rt, "an engine");
    Box::new(alloc, engine).expect(rt, "memory")
}

/// Tests an engine over a store.
fn ask_over<B: TermBank + Drop>(rt: &impl Abort, alloc: Global, case: &Case, bank: B) {
    let mut engine = engine_for(rt, alloc, case.spec, bank, case.options);
    ask(rt, alloc, &mut *engine, &case.question);
}

/// Tests the engine of a test case.
fn expect_case(rt: &impl Abort, alloc: Global, case: &Case) {
    match case.bank {
        Bank::Plain(cells) => ask_over(rt, alloc, case, plain_bank(rt, alloc, cells)),
        Bank::Shared(cells) => ask_over(rt, alloc, case, shared_bank(rt, alloc, cells)),
    }
}

/// Tests the engines of test cases.
pub fn expect_cases(rt: &impl Abort, alloc: Global, cases: &[&Case]) {
    for case in cases {
        expect_case(rt, alloc, case);
    }
}
