//! Runs on worked examples, and comparison of their results.

mod bank;
mod cells;
mod choice;
mod counting;
mod depth;
mod given;
mod hostile;
mod limits;
mod look;
mod pattern;
mod performing;
mod serve;
mod shared;
mod spec;
mod streams;
mod table;
mod term;

use rec_run::{RunOptions, run_at};
use rx_run::{Finish, Place, RunFault};
use std::alloc::Global;
use std::io::Read;
use std::process::Abort;

/// The largest size of a text, in bytes.
pub(crate) const LIMIT: usize = 16_777_216;

/// One byte more than the largest size.
pub(crate) const PAST: usize = LIMIT + 1;

/// A specification of addition, with these terms to evaluate.
macro_rules! addition {
    ($term:literal) => {
        concat!(
            "REC-SPEC Add\nSORTS Nat\n",
            "CONS\n  z : -> Nat\n  s : Nat -> Nat\n",
            "OPNS\n  plus : Nat Nat -> Nat\n",
            "VARS\n  X Y : Nat\n",
            "RULES\n  plus(z,Y) -> Y\n  plus(s(X),Y) -> s(plus(X,Y))\n",
            "EVAL\n  ",
            $term,
            "\nEND-SPEC\n",
        )
    };
}

pub(crate) use addition;

/// Addition, with the sum of two and one.
pub(crate) const ADD: &str = addition!("plus(s(s(z)),s(z))");

/// A specification with all sections and one rule.
pub(crate) const Q: &str = "REC-SPEC Q \
    SORTS A B \
    CONS a : -> A b : -> B \
    OPNS f : A -> A \
    VARS X Y : A \
    RULES f(X) -> X \
    EVAL f(a) END-SPEC";

/// Returns options with this step limit.
pub(crate) fn options(steps: u32, count: bool) -> RunOptions {
    RunOptions {
        steps: u64::from(steps),
        cells: 16_777_216,
        memo: 65_536,
        reclaim: 262_144,
        count,
    }
}

/// The result of a run.
#[derive(Drop)]
pub(crate) struct Ran {
    pub(crate) result: Result<Finish, RunFault>,
    pub(crate) place: Option<Place>,
    pub(crate) written: Vec<u8>,
}

/// Runs a specification with input terms, if there are any.
pub(crate) fn run_on<T: Read>(
    alloc: Global,
    spec: &mut &[u8],
    terms: Option<&mut T>,
    options: RunOptions,
) -> Ran {
    let mut place = None;
    let mut written = Vec::new(alloc);
    let result = run_at(alloc, spec, terms, &mut written, options, &mut place);
    Ran {
        result,
        place,
        written,
    }
}

/// Aborts the test unless the run ended like this, with this offset and these lines.
pub(crate) fn expect_ran(
    rt: &impl Abort,
    ran: &Ran,
    finish: Finish,
    place: Option<Place>,
    lines: &str,
) {
    assert!(rt;
        ran.result == Ok(finish)
            && ran.place == place
            && ran.written.as_slice() == lines.as_bytes(),
        "{lines}"
    );
}

/// Appends a text.
pub(crate) fn push(rt: &impl Abort, text: &mut String, end: &str) {
    assert!(rt; text.push_str(end).is_ok());
}

/// Appends a text `times` times.
pub(crate) fn push_often(rt: &impl Abort, text: &mut String, part: &str, times: u32) {
    for _ in 0..times {
        push(rt, text, part);
    }
}

/// Returns a text that is padded with spaces to a length.
pub(crate) fn pad(rt: &impl Abort, alloc: Global, text: &str, length: usize) -> Vec<u8> {
    let mut padded = Vec::from_slice(alloc, text.as_bytes()).expect(rt, "memory");
    assert!(rt; padded.resize(length, b' ').is_ok());
    padded
}
