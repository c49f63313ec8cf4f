//! Runs on texts of the largest size, of one byte more, and without end.

use crate::rows::given::run_beside;
use crate::rows::performing::{Job, expect_held, perform};
use crate::rows::spec::TITLE;
use crate::rows::streams::{Slow, bytewise, endless, taking};
use crate::rows::{LIMIT, PAST, Q, Ran, expect_ran, options, pad, run_on};
use rx_run::Finish;
use std::alloc::Global;
use std::process::Abort;

/// Runs a specification. The slice keeps the rest that is not read.
fn run_without_steps(alloc: Global, spec: &mut &[u8]) -> Ran {
    run_on(alloc, spec, None::<&mut &[u8]>, options(0, false))
}

#[test]
fn the_longest_specification(rt: HostRuntime) {
    let text = pad(&rt, rt.alloc(), TITLE, LIMIT);
    let ran = run_without_steps(rt.alloc(), &mut text.as_slice());
    expect_ran(&rt, &ran, Finish::Done, None, "");
}

/// The text after one that is too long.
const REST: &[u8] = b"ab";

/// Aborts the test unless a text that is too long is rejected, and only its first byte too many is
/// read.
fn expect_rest(rt: &impl Abort, alloc: Global, mut text: &[u8], rest: &[u8]) {
    let ran = run_without_steps(alloc, &mut text);
    expect_ran(rt, &ran, Finish::Refused, None, "!spec L1\n");
    assert!(rt; text == rest);
}

#[test]
fn a_byte_too_much(rt: HostRuntime) {
    let mut text = pad(&rt, rt.alloc(), TITLE, PAST);
    expect_rest(&rt, rt.alloc(), &text, &[]);
    assert!(rt; text.extend_from_slice(REST).is_ok());
    expect_rest(&rt, rt.alloc(), &text, REST);
}

#[test]
fn the_longest_terms(rt: HostRuntime) {
    let terms = pad(&rt, rt.alloc(), "[a]", LIMIT);
    let ran = run_beside(rt.alloc(), Q.as_bytes(), &terms, options(1, false));
    expect_ran(&rt, &ran, Finish::Done, None, "a\na\n");
}

/// Aborts the test unless a run is rejected with this line only.
fn expect_long(rt: &impl Abort, alloc: Global, job: Job<'_>, first: &mut Slow<'_>, line: &[u8]) {
    let mut out = taking(alloc);
    let ended = perform(alloc, job, first, &mut endless(), &mut out);
    expect_held(rt, ended, Ok(Finish::Refused), &out, line);
}

/// Runs on an endless text of spaces, and the error line.
static ENDLESS: [(Job<'static>, &[u8]); 4] = [
    (Job::Alone(0), b"!spec L1\n"),
    (Job::Print, b"!term L1\n"),
    (Job::Share, b"!term L1\n"),
    (Job::Match(b"a"), b"!term L1\n"),
];

#[test]
fn blanks_without_end(rt: HostRuntime) {
    for (job, line) in &ENDLESS {
        expect_long(&rt, rt.alloc(), *job, &mut endless(), line);
    }
    let spec = &mut bytewise(Q);
    expect_long(&rt, rt.alloc(), Job::Beside(1), spec, b"!terms L1\n");
}

/// Aborts the test unless a text is rejected as a pattern and as arguments.
fn expect_long_text(rt: &impl Abort, alloc: Global, long: &[u8], term: &mut Slow<'_>) {
    let line = b"!pattern L1\n";
    expect_long(rt, alloc, Job::Match(long), term, line);
    let making = Job::Make {
        pattern: long,
        args: b"[",
    };
    expect_long(rt, alloc, making, term, line);
    let making = Job::Make {
        pattern: b"a",
        args: long,
    };
    expect_long(rt, alloc, making, term, b"!args L1\n");
}

#[test]
fn long_patterns_and_arguments(rt: HostRuntime) {
    let long = pad(&rt, rt.alloc(), "", PAST);
    expect_long_text(&rt, rt.alloc(), &long, &mut bytewise("a"));
}
