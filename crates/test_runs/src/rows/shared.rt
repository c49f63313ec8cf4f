//! Tables of values, and their numbers of cells.

use crate::rows::given::run_with_terms;
use crate::rows::streams::{Slow, bytewise, taking};
use crate::rows::{options, push, push_often};
use rec_run::{LimitLines, RunReport, RunSettings, TermChoice, ValueForm};
use rec_serve::{Deaf, ServeSettings, Session, run_serve};
use rx_run::{Ending, InputForm};
use std::alloc::Global;
use std::process::Abort;

/// A specification whose terms double their value: `d(s(s(z)))` has 4 leaves after 5 steps.
const TREES: &str = "REC-SPEC Trees SORTS Nat Tree \
    CONS z : -> Nat s : Nat -> Nat leaf : -> Tree node : Tree Tree -> Tree \
    OPNS d : Nat -> Tree dup : Tree -> Tree \
    VARS X : Nat T : Tree \
    RULES d(z) -> leaf d(s(X)) -> dup(d(X)) dup(T) -> node(T,T) \
    EVAL d(s(s(z))) END-SPEC";

/// The text of input terms, the form of values, whether the numbers of steps and of cells are
/// printed, and the lines.
type Value = (&'static str, ValueForm, bool, bool, &'static str);

static VALUES: [Value; 7] = [
    (
        "[]",
        ValueForm::Table,
        false,
        false,
        "[node(leaf,leaf),node(<0>,<0>)]\n",
    ),
    (
        "[d(z),d(s(z)),leaf{a}]",
        ValueForm::Table,
        true,
        true,
        "[node(leaf,leaf),node(<0>,<0>)]\t5\t8\n[leaf]\t1\t2\n[node(leaf,leaf)]\t3\t5\n\
         [leaf{a}]\t0\t4\n",
    ),
    (
        "[d(s(s(z))){id(1)},d(s(s(z))){[node(leaf,leaf)]}]",
        ValueForm::Table,
        false,
        true,
        "[node(leaf,leaf),node(<0>,<0>)]\t8\n[node(leaf,leaf),node(<0>,<0>){id(1)}]\t12\n\
         [node(leaf,leaf),node(<0>,<0>){[<0>]}]\t9\n",
    ),
    (
        "[d(s(s(s(s(z)))))]",
        ValueForm::Table,
        true,
        false,
        "[node(leaf,leaf),node(<0>,<0>)]\t5\n!limit 8\n",
    ),
    (
        "[d(s(z)){a}]",
        ValueForm::Plain,
        true,
        true,
        "node(node(leaf,leaf),node(leaf,leaf))\t5\t8\nnode(leaf,leaf){a}\t3\t7\n",
    ),
    (
        "[d(s(z)){a}]",
        ValueForm::Plain,
        false,
        true,
        "node(node(leaf,leaf),node(leaf,leaf))\t8\nnode(leaf,leaf){a}\t7\n",
    ),
    (
        "[d(s(z)){a}]",
        ValueForm::Within(18),
        false,
        true,
        "!bytes 18\nnode(leaf,leaf){a}\t7\n",
    ),
];

/// Aborts the test unless the input terms have these lines.
fn expect_written(rt: &impl Abort, alloc: Global, given: &str, settings: RunSettings, lines: &str) {
    let mut written = Vec::new(alloc);
    let mut spec = TREES.as_bytes();
    let mut terms = given.as_bytes();
    let end = run_with_terms(alloc, &mut spec, &mut terms, settings, &mut written);
    assert!(rt;
        end.is_ok() && written.as_slice() == lines.as_bytes(),
        "{lines}"
    );
}

/// Aborts the test unless a test case has these lines within eight steps.
fn expect_lines(rt: &impl Abort, alloc: Global, row: &Value) {
    let (given, form, counted, sizes, lines) = *row;
    let settings = RunSettings {
        options: options(8, counted),
        limits: LimitLines::Bare,
        form,
        sizes,
        depth: None,
        terms: TermChoice::All,
        input: InputForm::Term,
    };
    expect_written(rt, alloc, given, settings, lines);
}

/// The form in which input terms are read, their text, and the lines.
type Given = (InputForm, &'static str, &'static str);

static GIVEN: [Given; 6] = [
    (
        InputForm::Term,
        "[dup(node(leaf,leaf)),node(leaf,leaf)]",
        "node(node(leaf,leaf),node(leaf,leaf))\t1\nnode(leaf,leaf)\t0\n",
    ),
    (
        InputForm::Table,
        "[node(leaf,leaf),[dup(<0>),<0>]]",
        "node(node(leaf,leaf),node(leaf,leaf))\t1\nnode(leaf,leaf)\t0\n",
    ),
    (InputForm::Table, "f(a)", "!terms R1\n"),
    (InputForm::Table, "[<0>]", "!terms R2\n"),
    (InputForm::Table, "[leaf,node(<0>,<0>)]", "!terms T1\n"),
    (InputForm::Table, "[leaf,[<0>", "!terms A\n"),
];

/// Aborts the test unless the input terms of a test case have these lines.
fn expect_given(rt: &impl Abort, alloc: Global, row: &Given) {
    let (input, given, lines) = *row;
    let settings = RunSettings {
        options: options(8, true),
        limits: LimitLines::Bare,
        form: ValueForm::Plain,
        sizes: false,
        depth: None,
        terms: TermChoice::Input,
        input,
    };
    expect_written(rt, alloc, given, settings, lines);
}

#[test]
fn tables_and_sizes(rt: HostRuntime) {
    for row in &VALUES {
        expect_lines(&rt, rt.alloc(), row);
    }
    for row in &GIVEN {
        expect_given(&rt, rt.alloc(), row);
    }
}

/// Returns a term whose value has 2^60 leaves, with these annotations.
fn doubled(rt: &impl Abort, alloc: Global, notes: &str) -> String {
    let mut text = String::new(alloc);
    push(rt, &mut text, "d(");
    push_often(rt, &mut text, "s(", 60);
    push(rt, &mut text, "z");
    push_often(rt, &mut text, ")", 61);
    push(rt, &mut text, notes);
    text
}

/// Appends the element that is twice the one with this number.
fn push_double(rt: &impl Abort, alloc: Global, text: &mut String, number: u32) {
    let element = format!(in alloc; ",node(<{number}>,<{number}>)").expect(rt, "memory");
    push(rt, text, &element);
}

/// Returns the table of this value with these annotations, and the rest of its line.
fn doubled_line(rt: &impl Abort, alloc: Global, notes: &str, end: &str) -> String {
    let mut text = String::new(alloc);
    push(rt, &mut text, "[node(leaf,leaf)");
    for number in 0..59 {
        push_double(rt, alloc, &mut text, number);
    }
    push(rt, &mut text, notes);
    push(rt, &mut text, "]");
    push(rt, &mut text, end);
    text
}

/// Runs the input terms of a text, and writes their tables with steps and cells.
fn run_doubled(rt: &impl Abort, alloc: Global, given: &str, out: &mut Vec<u8>) {
    let settings = RunSettings {
        options: options(121, true),
        limits: LimitLines::Bare,
        form: ValueForm::Table,
        sizes: true,
        depth: None,
        terms: TermChoice::Input,
        input: InputForm::Term,
    };
    let mut spec = TREES.as_bytes();
    let mut terms = given.as_bytes();
    let end = run_with_terms(alloc, &mut spec, &mut terms, settings, out);
    assert!(rt;
        matches!(
            end,
            Ok(RunReport {
                lines: 1,
                limit_lines: 0,
                ..
            })
        )
    );
}

#[test]
fn a_value_with_many_leaves_has_a_short_table(rt: HostRuntime) {
    let alloc = rt.alloc();
    let mut terms = String::new(alloc);
    push(&rt, &mut terms, "[");
    push(&rt, &mut terms, &doubled(&rt, alloc, "{id(1)}"));
    push(&rt, &mut terms, "]");
    let mut written = Vec::new(alloc);
    run_doubled(&rt, alloc, &terms, &mut written);
    let due = doubled_line(&rt, alloc, "{id(1)}", "\t121\t186\n");
    assert!(rt; written.as_slice() == due.as_bytes());
}

/// Returns a session of tables with 121 steps for each request, whose requests are in this form.
fn table_session(alloc: Global, input: InputForm) -> Session {
    let settings = ServeSettings {
        options: options(121, true),
        form: ValueForm::Table,
        depth: None,
        input,
    };
    Session { alloc, settings }
}

/// Aborts the test unless the requests have these responses.
fn expect_served(
    rt: &impl Abort,
    alloc: Global,
    input: InputForm,
    requests: &mut Slow<'_>,
    due: &str,
) {
    let mut out = taking(alloc);
    let mut spec = bytewise(TREES);
    let session = table_session(alloc, input);
    let end = run_serve(session, &mut spec, requests, &mut out, &mut Deaf);
    assert!(rt;
        matches!(end, Ok(Ending::Done)) && out.held.as_slice() == due.as_bytes(),
        "{due}"
    );
}

#[test]
fn sessions_answer_with_tables(rt: HostRuntime) {
    let alloc = rt.alloc();
    let mut requests = doubled(&rt, alloc, "{id(1),[node(leaf,leaf)]}\n");
    push(&rt, &mut requests, &doubled(&rt, alloc, "\n"));
    push(
        &rt,
        &mut requests,
        "d(s(s(z))){[node(leaf,leaf)]}\nleaf{a}\nd(s(z))\nz(z)\nz",
    );
    let mut due = doubled_line(&rt, alloc, "{id(1),[<0>]}", "\t121\n");
    push(&rt, &mut due, &doubled_line(&rt, alloc, "", "\t121\n"));
    push(
        &rt,
        &mut due,
        "[node(leaf,leaf),node(<0>,<0>){[<0>]}]\t5\n[leaf{a}]\t0\n[node(leaf,leaf)]\t3\n\
         !term T5\n[z]\t0\n",
    );
    let input = InputForm::Term;
    expect_served(&rt, alloc, input, &mut bytewise(&requests), &due);
}

#[test]
fn a_request_with_many_leaves_has_a_short_table(rt: HostRuntime) {
    let alloc = rt.alloc();
    let mut requests = String::new(alloc);
    push(&rt, &mut requests, "[leaf");
    for number in 0..59 {
        push_double(&rt, alloc, &mut requests, number);
    }
    push(
        &rt,
        &mut requests,
        ",dup(<59>){id(1)}]\n[leaf,dup(dup(<0>))]\n",
    );
    let mut due = doubled_line(&rt, alloc, "{id(1)}", "\t1\n");
    push(&rt, &mut due, "[node(leaf,leaf),node(<0>,<0>)]\t2\n");
    let input = InputForm::Table;
    expect_served(&rt, alloc, input, &mut bytewise(&requests), &due);
}
