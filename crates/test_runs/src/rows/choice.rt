//! Runs that evaluate only some of their terms.

use crate::rows::depth::forgetful;
use crate::rows::given::{limits_in, run_with_terms};
use crate::rows::{addition, options};
use rec_run::{LimitLines, RunOptions, RunReport, RunSettings, TermChoice, ValueForm};
use rx_run::{Ending, InputForm, RunFault};
use std::alloc::Global;
use std::process::Abort;

/// Two additions: the first takes one step, the second three steps and two frames more.
const SUMS: &str = addition!("plus(z,z) plus(s(s(z)),z)");

/// Two input terms: one of two steps, and one without steps.
const GIVEN: &str = "[plus(s(z),s(z)){id(1)},z{a}]";

/// A choice, and the lines.
type Chosen = (TermChoice, &'static str);

/// With at most ten steps, which are printed.
static COUNTED: [Chosen; 9] = [
    (
        TermChoice::All,
        "z\t1\ns(s(z))\t3\ns(s(z)){id(1)}\t2\nz{a}\t0\n",
    ),
    (TermChoice::Input, "s(s(z)){id(1)}\t2\nz{a}\t0\n"),
    (TermChoice::Nth(0), ""),
    (TermChoice::Nth(1), "z\t1\n"),
    (TermChoice::Nth(2), "s(s(z))\t3\n"),
    (TermChoice::Nth(3), "s(s(z)){id(1)}\t2\n"),
    (TermChoice::Nth(4), "z{a}\t0\n"),
    (TermChoice::Nth(5), ""),
    (TermChoice::Nth(u64::MAX), ""),
];

/// With at most two steps, and annotations on limit lines: only the second term of the
/// specification needs more.
static LIMITED: [Chosen; 4] = [
    (TermChoice::All, "z\n!limit 2\ns(s(z)){id(1)}\nz{a}\n"),
    (TermChoice::Input, "s(s(z)){id(1)}\nz{a}\n"),
    (TermChoice::Nth(2), "!limit 2\n"),
    (TermChoice::Nth(4), "z{a}\n"),
];

/// With at most one step, and annotations on limit lines: the first input term needs more.
static ANNOTATED: [Chosen; 3] = [
    (TermChoice::Input, "!limit 1{id(1)}\nz{a}\n"),
    (TermChoice::Nth(3), "!limit 1{id(1)}\n"),
    (TermChoice::Nth(1), "z\n"),
];

/// Returns the settings of a choice, without a call-depth limit.
fn settings(options: RunOptions, terms: TermChoice) -> RunSettings {
    RunSettings {
        options,
        limits: LimitLines::Annotated,
        form: ValueForm::Plain,
        sizes: false,
        depth: None,
        terms,
        input: InputForm::Term,
    }
}

/// Runs a specification with input terms.
fn run_chosen(
    alloc: Global,
    spec: &str,
    terms: &str,
    settings: RunSettings,
    out: &mut Vec<u8>,
) -> Result<RunReport, RunFault> {
    let mut spec = spec.as_bytes();
    let mut terms = terms.as_bytes();
    run_with_terms(alloc, &mut spec, &mut terms, settings, out)
}

/// Aborts the test unless a choice has these lines, and a report with their numbers.
fn expect_chosen(rt: &impl Abort, alloc: Global, options: RunOptions, row: &Chosen) {
    let (choice, wanted) = *row;
    let mut written = Vec::new(alloc);
    let end = run_chosen(alloc, SUMS, GIVEN, settings(options, choice), &mut written);
    let Ok(report) = end else {
        return rt.abort();
    };
    assert!(rt;
        matches!(report.ending, Ending::Done)
            && report.lines == wanted.lines().count() as u64
            && report.limit_lines == limits_in(wanted)
            && written.as_slice() == wanted.as_bytes(),
        "{choice:?}: {wanted}"
    );
}

#[test]
fn only_the_chosen_terms_have_lines(rt: HostRuntime) {
    for row in &COUNTED {
        expect_chosen(&rt, rt.alloc(), options(10, true), row);
    }
    for row in &LIMITED {
        expect_chosen(&rt, rt.alloc(), options(2, false), row);
    }
    for row in &ANNOTATED {
        expect_chosen(&rt, rt.alloc(), options(1, false), row);
    }
}

/// Each input text, the choice, and the error line of a rejected term that is not chosen.
static REFUSED: [(&str, TermChoice, &str); 3] = [
    ("[z,plus]", TermChoice::Nth(1), "!terms T5\n"),
    ("[z,plus]", TermChoice::Nth(3), "!terms T5\n"),
    ("[z,3]", TermChoice::Nth(0), "!terms T2\n"),
];

/// Aborts the test unless the input terms are rejected, and the report has no lines.
fn expect_refused(rt: &impl Abort, alloc: Global, row: &(&str, TermChoice, &str)) {
    let (terms, choice, line) = *row;
    let mut written = Vec::new(alloc);
    let settings = settings(options(10, false), choice);
    let Ok(report) = run_chosen(alloc, SUMS, terms, settings, &mut written) else {
        return rt.abort();
    };
    assert!(rt;
        matches!(report.ending, Ending::Refused(_))
            && report.lines == 0
            && report.limit_lines == 0
            && written.as_slice() == line.as_bytes(),
        "{terms} {choice:?}"
    );
}

#[test]
fn terms_that_are_not_chosen_are_checked(rt: HostRuntime) {
    for row in &REFUSED {
        expect_refused(&rt, rt.alloc(), row);
    }
}

/// A choice, the number of lines in the error, if there is one, and the lines. The second term of
/// the specification and the second input term exceed the call-depth limit.
static DEEP: [(TermChoice, Option<u64>, &str); 6] = [
    (TermChoice::All, Some(1), "z\n"),
    (TermChoice::Input, Some(1), "s(z)\n"),
    (TermChoice::Nth(1), None, "z\n"),
    (TermChoice::Nth(2), Some(0), ""),
    (TermChoice::Nth(3), None, "s(z)\n"),
    (TermChoice::Nth(4), Some(0), ""),
];

/// Aborts the test unless a choice ends with this error or without one, after these lines.
fn expect_deep(rt: &impl Abort, alloc: Global, row: &(TermChoice, Option<u64>, &str)) {
    let (choice, fault, wanted) = *row;
    let mut written = Vec::new(alloc);
    let settings = RunSettings {
        options: forgetful(),
        limits: LimitLines::Bare,
        form: ValueForm::Plain,
        sizes: false,
        depth: Some(2),
        terms: choice,
        input: InputForm::Term,
    };
    let terms = "[plus(z,s(z)),plus(s(s(z)),z)]";
    let end = match run_chosen(alloc, SUMS, terms, settings, &mut written) {
        Ok(report) if report.lines == wanted.lines().count() as u64 => None,
        Err(RunFault::Deep { lines }) => Some(lines),
        _ => return rt.abort(),
    };
    assert!(rt;
        end == fault && written.as_slice() == wanted.as_bytes(),
        "{choice:?}"
    );
}

#[test]
fn errors_count_the_lines_that_were_written(rt: HostRuntime) {
    for row in &DEEP {
        expect_deep(&rt, rt.alloc(), row);
    }
}
