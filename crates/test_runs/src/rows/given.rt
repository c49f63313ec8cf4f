//! Runs of specifications with input terms.

use crate::rows::streams::bytewise;
use crate::rows::{ADD, Q, Ran, expect_ran, options, run_on};
use rec_run::{
    LimitLines, RunOptions, RunReport, RunSettings, TermChoice, ValueForm, refused_term, run_given,
    unobserved,
};
use rx_run::{Ending, Finish, InputForm, Named, Place, RunFault, Source};
use rx_text::Input;
use std::alloc::Global;
use std::io::Read;
use std::process::Abort;

/// The rules of addition, without a term.
const SUMS: &str = "REC-SPEC Add SORTS Nat \
    CONS z : -> Nat s : Nat -> Nat \
    OPNS plus : Nat Nat -> Nat \
    VARS X Y : Nat \
    RULES plus(z,Y) -> Y plus(s(X),Y) -> s(plus(X,Y)) \
    EVAL END-SPEC";

/// A specification whose one sort has no name.
const SPOILT: &str = "REC-SPEC E SORTS : END-SPEC";

/// A specification, the text of input terms, the step limit, whether steps are printed, and the
/// lines.
type Value = (&'static str, &'static str, u32, bool, &'static str);

static VALUES: [Value; 9] = [
    (ADD, "[]", 3, false, "s(s(s(z)))\n"),
    (ADD, "[plus(z,s(z))]", 3, false, "s(s(s(z)))\ns(z)\n"),
    (SUMS, "[plus(s(z),z),z]", 2, true, "s(z)\t2\nz\t0\n"),
    (SUMS, "[]", 2, true, ""),
    (Q, "[ b , f(f(a)) ]", 1, false, "a\nb\n!limit 1\n"),
    (Q, "[f(a){a}]", 1, false, "a\na{a}\n"),
    (Q, "[a{3}]", 1, false, "a\na{3}\n"),
    (
        Q,
        "[f(a){b,[3]},a{f(a)}]",
        1,
        true,
        "a\t1\na{b,[3]}\t1\na{f(a)}\t0\n",
    ),
    (Q, "[f(f(a)){b}]", 1, true, "a\t1\n!limit 1\n"),
];

/// Input terms with results of at most four bytes, and the same terms with at most three.
static BOUNDED: [Value; 2] = [
    (
        Q,
        "[f(a){b},b{a},f(f(a))]",
        1,
        true,
        "a\t1\na{b}\t1\nb{a}\t0\n!limit 1\n",
    ),
    (
        Q,
        "[f(a){b},b{a},f(f(a))]",
        1,
        true,
        "a\t1\n!bytes 3{b}\n!bytes 3{a}\n!limit 1\n",
    ),
];

/// Test cases with annotations on limit lines.
static ANNOTATED: [Value; 2] = [
    (
        Q,
        "[f(f(a)){b},f(f(a)),a{b}]",
        1,
        true,
        "a\t1\n!limit 1{b}\n!limit 1\na{b}\t0\n",
    ),
    (
        ADD,
        "[plus(s(s(s(z))),z){id(2),[3]}]",
        2,
        false,
        "!limit 2\n!limit 2{id(2),[3]}\n",
    ),
];

/// A specification, the text of input terms, and the error line.
type Refused = (&'static str, &'static str, &'static str);

static REFUSED: [Refused; 11] = [
    (ADD, "[plus(s(z),z),3]", "!terms T2\n"),
    (Q, "a", "!terms T1\n"),
    (Q, "[a]{a}", "!terms T1\n"),
    (Q, "[f(a),3]", "!terms T2\n"),
    (Q, "[a{a},<a>]", "!terms T2\n"),
    (Q, "[f(a{b})]", "!terms T3\n"),
    (Q, "[\"a\"]", "!terms T4\n"),
    (Q, "[X]", "!terms T4\n"),
    (Q, "[f(a,a)]", "!terms T5\n"),
    (Q, "[f]", "!terms T5\n"),
    (Q, "[f(b)]", "!terms T6\n"),
];

/// A specification, the text of input terms, and the index of the rejected one.
type RefusedTerm = (&'static str, &'static str, Option<usize>);

static REFUSED_TERMS: [RefusedTerm; 8] = [
    (Q, "[f(a),3]", Some(1)),
    (Q, "[a{b},f(a{b})]", Some(1)),
    (Q, "[f(b),a,c,X]", Some(2)),
    (Q, "[f(b),f]", Some(1)),
    (Q, "[f(b)]", Some(0)),
    (Q, "[a]{a}", None),
    (Q, "[3", None),
    (SPOILT, "[3]", None),
];

/// Runs a specification with the text of input terms.
pub(crate) fn run_beside(
    alloc: Global,
    mut spec: &[u8],
    mut terms: &[u8],
    options: RunOptions,
) -> Ran {
    run_on(alloc, &mut spec, Some(&mut terms), options)
}

/// Returns the number of limit lines in a text.
pub(crate) fn limits_in(lines: &str) -> u64 {
    let mut count = 0u64;
    for line in lines.lines() {
        if line.starts_with('!') {
            count = count.saturating_add(1);
        }
    }
    count
}

/// Runs a specification with input terms.
pub(crate) fn run_with_terms<R: Read, T: Read>(
    alloc: Global,
    spec: &mut R,
    terms: &mut T,
    settings: RunSettings,
    out: &mut Vec<u8>,
) -> Result<RunReport, RunFault> {
    let mut reader = Input::new(terms);
    let mut observer = unobserved();
    run_given(alloc, spec, &mut reader, out, settings, &mut observer)
}

/// Aborts the test unless a test case has these lines with annotated limit lines.
fn expect_annotated(rt: &impl Abort, alloc: Global, row: &Value, form: ValueForm) {
    let mut spec = row.0.as_bytes();
    let mut terms = row.1.as_bytes();
    let mut written = Vec::new(alloc);
    let settings = RunSettings {
        options: options(row.2, row.3),
        limits: LimitLines::Annotated,
        form,
        sizes: false,
        depth: None,
        terms: TermChoice::All,
        input: InputForm::Term,
    };
    let end = run_with_terms(alloc, &mut spec, &mut terms, settings, &mut written);
    assert!(rt;
        matches!(end, Ok(RunReport { ending: Ending::Done, lines: _, limit_lines })
            if limit_lines == limits_in(row.4))
            && written.as_slice() == row.4.as_bytes(),
        "{}",
        row.4
    );
}

#[test]
fn limit_lines_with_annotations(rt: HostRuntime) {
    for row in &ANNOTATED {
        expect_annotated(&rt, rt.alloc(), row, ValueForm::Plain);
    }
    let [short, long] = &BOUNDED;
    expect_annotated(&rt, rt.alloc(), short, ValueForm::Within(4));
    expect_annotated(&rt, rt.alloc(), long, ValueForm::Within(3));
}

/// Aborts the test unless a test case has these lines.
fn expect_value(rt: &impl Abort, alloc: Global, row: &Value) {
    let options = options(row.2, row.3);
    let ran = run_beside(alloc, row.0.as_bytes(), row.1.as_bytes(), options);
    expect_ran(rt, &ran, Finish::Done, None, row.4);
}

#[test]
fn values(rt: HostRuntime) {
    for row in &VALUES {
        expect_value(&rt, rt.alloc(), row);
    }
}

/// Aborts the test unless the input terms are rejected with this offset.
fn expect_refused(rt: &impl Abort, alloc: Global, row: &Refused, place: Option<Place>) {
    let options = options(3, false);
    let ran = run_beside(alloc, row.0.as_bytes(), row.1.as_bytes(), options);
    expect_ran(rt, &ran, Finish::Refused, place, row.2);
}

#[test]
fn refusals(rt: HostRuntime) {
    for row in &REFUSED {
        expect_refused(&rt, rt.alloc(), row, None);
    }
    let outside = Place {
        text: Source::Terms,
        rule: Named::A,
        at: 4,
    };
    expect_refused(&rt, rt.alloc(), &(Q, "[f(a", "!terms A\n"), Some(outside));
}

#[test]
fn terms_of_a_refused_specification_are_not_read(rt: HostRuntime) {
    let mut terms = bytewise("[a]");
    let options = options(1, false);
    let ran = run_on(
        rt.alloc(),
        &mut SPOILT.as_bytes(),
        Some(&mut terms),
        options,
    );
    let due = Place {
        text: Source::Spec,
        rule: Named::G,
        at: 17,
    };
    expect_ran(&rt, &ran, Finish::Refused, Some(due), "!spec G\n");
    assert!(rt; terms.reads == 0);
}

/// Returns the index of the rejected term. This wrapper has no contract.
fn term_refused_in(alloc: Global, spec: &str, terms: &str) -> Result<Option<usize>, RunFault> {
    refused_term(alloc, spec.as_bytes(), terms.as_bytes())
}

#[test]
fn tells_the_refused_term(rt: HostRuntime) {
    for (spec, terms, wanted) in &REFUSED_TERMS {
        let found = term_refused_in(rt.alloc(), spec, terms);
        assert!(rt; found == Ok(*wanted), "{terms}");
    }
}
