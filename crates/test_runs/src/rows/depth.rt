//! Tests of the call depth: one frame for the term, and one for each call in a right-hand side that
//! is not a tail call.

use crate::rows::streams::{Sink, bytewise, taking};
use crate::rows::{addition, options};
use rec_run::{
    LimitLines, NoTerms, RunOptions, RunSettings, TermChoice, ValueForm, run_given, unobserved,
};
use rec_serve::{Deaf, ServeSettings, Session, run_serve};
use rx_run::{Ending, Finish, InputForm, RunFault};
use std::alloc::Global;
use std::process::Abort;

/// Two additions. The second one takes two more steps, and two more frames.
const SUMS: &str = addition!("plus(z,z) plus(s(s(z)),z)");

/// Returns options without a memo table. A call that is to be memoized has a frame of its own.
pub(crate) fn forgetful() -> RunOptions {
    let RunOptions {
        steps,
        cells,
        memo: _,
        reclaim,
        count,
    } = options(10, false);
    RunOptions {
        steps,
        cells,
        memo: 0,
        reclaim,
        count,
    }
}

/// The call-depth limit, the end of the run, and its lines.
type Ends = (Option<u32>, Result<Finish, RunFault>, &'static str);

static ENDS: [Ends; 4] = [
    (None, Ok(Finish::Done), "z\ns(s(z))\n"),
    (Some(3), Ok(Finish::Done), "z\ns(s(z))\n"),
    (Some(2), Err(RunFault::Deep { lines: 1 }), "z\n"),
    (Some(0), Err(RunFault::Deep { lines: 0 }), ""),
];

/// Aborts the test unless a run ends as expected, with these lines.
fn expect_end(rt: &impl Abort, alloc: Global, out: &mut Sink, row: &Ends) {
    let (depth, due, lines) = *row;
    let settings = RunSettings {
        options: forgetful(),
        limits: LimitLines::Bare,
        form: ValueForm::Plain,
        sizes: false,
        depth,
        terms: TermChoice::All,
        input: InputForm::Term,
    };
    let mut spec = bytewise(SUMS);
    let mut observer = unobserved();
    let end = match run_given(alloc, &mut spec, &mut NoTerms, out, settings, &mut observer) {
        Ok(report) => Ok(report.ending.finish()),
        Err(fault) => Err(fault),
    };
    assert!(rt;
        end == due && out.held.as_slice() == lines.as_bytes(),
        "{lines}"
    );
}

#[test]
fn as_many_calls_as_are_needed_may_wait_or_one_fewer(rt: HostRuntime) {
    for row in &ENDS {
        expect_end(&rt, rt.alloc(), &mut taking(rt.alloc()), row);
    }
}

/// The call-depth limit, and the responses to the requests.
type Answers = (Option<u32>, &'static str);

static ANSWERS: [Answers; 4] = [
    (None, "s(z)\ns(s(z))\n!term A\ns(z){a}\n"),
    (Some(3), "s(z)\ns(s(z))\n!term A\ns(z){a}\n"),
    (Some(2), "s(z)\n!depth\n!term A\ns(z){a}\n"),
    (Some(1), "!depth\n!depth\n!term A\n!depth\n"),
];

/// Aborts the test unless the requests have these responses.
fn expect_answers(rt: &impl Abort, alloc: Global, out: &mut Sink, row: &Answers) {
    let (depth, lines) = *row;
    let settings = ServeSettings {
        options: forgetful(),
        form: ValueForm::Plain,
        depth,
        input: InputForm::Term,
    };
    let mut requests = bytewise("plus(s(z),z)\nplus(s(s(z)),z)\nz(\nplus(s(z),z){a}");
    let mut spec = bytewise(SUMS);
    let session = Session { alloc, settings };
    let end = run_serve(session, &mut spec, &mut requests, out, &mut Deaf);
    assert!(rt;
        matches!(end, Ok(Ending::Done)) && out.held.as_slice() == lines.as_bytes(),
        "{lines}"
    );
}

#[test]
fn a_request_that_is_too_deep_stands_between_others(rt: HostRuntime) {
    for row in &ANSWERS {
        expect_answers(&rt, rt.alloc(), &mut taking(rt.alloc()), row);
    }
}
