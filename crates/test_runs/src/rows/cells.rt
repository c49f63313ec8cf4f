//! Runs with small stores.

use crate::rows::spec::{expect_lines, run_alone};
use crate::rows::{ADD, Ran, options, push, push_often};
use rec_run::RunOptions;
use rx_run::{Finish, RunFault};
use std::alloc::Global;
use std::process::Abort;

/// The line of the sum.
const SUM: &[u8] = b"s(s(s(z)))\n";

/// Returns options with this capacity (1 to 1,000,000), that collect after each new cell.
fn narrow(steps: u32, cells: u32) -> RunOptions {
    RunOptions {
        steps: u64::from(steps),
        cells: cells.clamp(1, 1_000_000),
        memo: 0,
        reclaim: 1,
        count: false,
    }
}

/// Aborts the test unless the run fails if the store has less than ten cells, and succeeds if it
/// has 64 or more. A run that fails writes nothing.
fn expect_sum(rt: &impl Abort, ran: &Ran, cells: u32) {
    let is_done = ran.result == Ok(Finish::Done) && ran.written.as_slice() == SUM;
    let is_short = ran.result == Err(RunFault::Room { lines: 0 }) && ran.written.is_empty();
    assert!(rt; is_done && cells >= 10 || is_short && cells < 64, "{cells}");
}

#[test]
fn few_cells(rt: HostRuntime) {
    for cells in 1..=64 {
        let ran = run_alone(rt.alloc(), ADD.as_bytes(), narrow(3, cells));
        expect_sum(&rt, &ran, cells);
    }
}

/// Appends the numbers from 1 to 20, each between two texts.
fn push_numbers(rt: &impl Abort, alloc: Global, text: &mut String, front: &str, back: &str) {
    for i in 1..=20 {
        let item = format!(in alloc; "{front}{i}{back}").expect(rt, "memory");
        push(rt, text, item.as_str());
    }
}

/// Appends a specification of twenty constants, with a term of each.
fn push_constants(rt: &impl Abort, alloc: Global, text: &mut String) {
    push(rt, text, "REC-SPEC K SORTS N CONS");
    push_numbers(rt, alloc, text, " c", " : -> N");
    push(rt, text, " OPNS h : N -> N EVAL");
    push_numbers(rt, alloc, text, " h(c", ")");
    push(rt, text, " END-SPEC");
}

/// Returns options with no steps, a store of sixteen cells, and the default collection interval.
fn sixteen_cells() -> RunOptions {
    let mut few = narrow(0, 16);
    few.reclaim = 262_144;
    few
}

#[test]
fn cells_of_earlier_terms(rt: HostRuntime) {
    let mut text = String::new(rt.alloc());
    push_constants(&rt, rt.alloc(), &mut text);
    let mut due = String::new(rt.alloc());
    push_numbers(&rt, rt.alloc(), &mut due, "h(c", ")\n");
    expect_lines(&rt, rt.alloc(), text.as_str(), narrow(0, 16), due.as_str());
    expect_lines(
        &rt,
        rt.alloc(),
        text.as_str(),
        sixteen_cells(),
        due.as_str(),
    );
}

/// Appends a specification whose one term nests two symbols thirty times around `z`.
fn push_nested(rt: &impl Abort, text: &mut String) {
    push(
        rt,
        text,
        "REC-SPEC K SORTS N \
            CONS z : -> N s : N -> N q : N -> N \
            OPNS t : N -> N e : N -> N \
            VARS X : N \
            RULES t(X) -> e(q(X)) e(q(X)) -> X EVAL ",
    );
    push_often(rt, text, "t(s(", 30);
    push(rt, text, "z");
    push_often(rt, text, "))", 30);
    push(rt, text, " END-SPEC");
}

/// Appends the line of its result.
fn push_nested_line(rt: &impl Abort, text: &mut String) {
    push_often(rt, text, "s(", 30);
    push(rt, text, "z");
    push_often(rt, text, ")", 30);
    push(rt, text, "\n");
}

/// Returns options with sixty steps and a store of two hundred cells.
fn two_hundred_cells() -> RunOptions {
    let mut few = options(60, false);
    few.cells = 200;
    few
}

#[test]
fn cells_of_a_nested_term(rt: HostRuntime) {
    let mut text = String::new(rt.alloc());
    push_nested(&rt, &mut text);
    let mut due = String::new(rt.alloc());
    push_nested_line(&rt, &mut due);
    expect_lines(
        &rt,
        rt.alloc(),
        text.as_str(),
        two_hundred_cells(),
        due.as_str(),
    );
}
