//! Runs that print a term over several lines.

use crate::rows::streams::{bytewise, failing, failing_at, taking};
use rx_render::{Indentation, run_aterm_indented};
use rx_run::{Ending, Finish, Named, Place, RunFault, Source, run_aterm};
use std::alloc::Global;
use std::io::ErrorKind;
use std::process::Abort;

/// A text of a term, the number of spaces of a level, and the expected lines.
type Row = (&'static str, u8, &'static str);

static ROWS: [Row; 8] = [
    (
        "f ( a , [ 1 , -007 ] ) { b }",
        2,
        "f(\n  a,\n  [\n    1,\n    -7\n  ]\n){\n  b\n}\n",
    ),
    ("f(a,[1,-7]){b}", 0, "f(\na,\n[\n1,\n-7\n]\n){\nb\n}\n"),
    ("<7>{7}", 1, "<\n 7\n>{\n 7\n}\n"),
    ("[[],f(),(),a{}]", 3, "[\n   [],\n   f,\n   (),\n   a\n]\n"),
    ("(\"\")", 1, "(\n \"\"\n)\n"),
    ("\"a b,(\\n\"", 4, "\"a b,(\\n\"\n"),
    (
        "\"\\\"\\377\"(-2147483648)",
        1,
        "\"\\\"\\377\"(\n -2147483648\n)\n",
    ),
    ("7", 255, "7\n"),
];

/// A text of a term, the number of spaces of a level, the width, and the expected lines.
type WideRow = (&'static str, u8, u32, &'static str);

static WIDE_ROWS: [WideRow; 21] = [
    // the text has 14 bytes
    ("f(a,[1,-7]){b}", 2, 14, "f(a,[1,-7]){b}\n"),
    ("f(a,[1,-7]){b}", 2, 13, "f(\n  a,\n  [1,-7]\n){\n  b\n}\n"),
    // the list ends in column 8, without the annotation
    ("f(a,[1,-7]){b}", 2, 8, "f(\n  a,\n  [1,-7]\n){\n  b\n}\n"),
    (
        "f(a,[1,-7]){b}",
        2,
        7,
        "f(\n  a,\n  [\n    1,\n    -7\n  ]\n){\n  b\n}\n",
    ),
    // no line, and any line
    (
        "f(a,[1,-7]){b}",
        2,
        0,
        "f(\n  a,\n  [\n    1,\n    -7\n  ]\n){\n  b\n}\n",
    ),
    (
        "f ( a , [ 1 , -007 ] ) { b }",
        2,
        u32::MAX,
        "f(a,[1,-7]){b}\n",
    ),
    // line feeds alone: the list has 6 bytes in its line
    ("f(a,[1,-7]){b}", 0, 6, "f(\na,\n[1,-7]\n){\nb\n}\n"),
    ("f(a,[1,-7]){b}", 0, 5, "f(\na,\n[\n1,\n-7\n]\n){\nb\n}\n"),
    // a comma after a term does not count
    ("[[1],[2]]", 1, 8, "[\n [1],\n [2]\n]\n"),
    ("[[1],[2]]", 1, 4, "[\n [1],\n [2]\n]\n"),
    ("[[1],[2]]", 1, 3, "[\n [\n  1\n ],\n [\n  2\n ]\n]\n"),
    // some parts fit
    (
        "[[1,2],[[3],[44444444]]]",
        1,
        9,
        "[\n [1,2],\n [\n  [3],\n  [\n   44444444\n  ]\n ]\n]\n",
    ),
    // the margin is beyond the width
    (
        "[[1,2]]",
        4,
        3,
        "[\n    [\n        1,\n        2\n    ]\n]\n",
    ),
    ("[[[]]]", 4, 3, "[\n    [\n        []\n    ]\n]\n"),
    // annotations belong to the term
    ("[1{a,b},2]", 1, 9, "[\n 1{a,b},\n 2\n]\n"),
    ("[1{a,b},2]", 1, 7, "[\n 1{a,b},\n 2\n]\n"),
    ("[1{a,b},2]", 1, 6, "[\n 1{\n  a,\n  b\n },\n 2\n]\n"),
    ("a{b{c}}", 1, 5, "a{\n b{c}\n}\n"),
    // placeholders
    ("<int>", 1, 5, "<int>\n"),
    ("<int>", 1, 4, "<\n int\n>\n"),
    // the bytes of an escaped name count as they are printed
    ("(\"\\n\")", 1, 5, "(\n \"\\n\"\n)\n"),
];

/// One space for each level, without a width.
const BY_ONE: Indentation = Indentation {
    indent: 1,
    width: None,
};

/// One space for each level, and a width into which `f(a)` fits.
const ONE_LINE: Indentation = Indentation {
    indent: 1,
    width: Some(4),
};

const REFUSAL: &[u8] = b"!term A\n";

/// Prints a text in one line.
fn in_one_line(rt: &impl Abort, alloc: Global, mut text: &[u8]) -> Vec<u8> {
    let mut written = Vec::new(alloc);
    assert!(rt; run_aterm(alloc, &mut text, &mut written) == Ok(Finish::Done));
    written
}

/// Aborts the test unless two texts have the same term.
fn expect_same(rt: &impl Abort, alloc: Global, text: &str, printed: &[u8]) {
    let first = in_one_line(rt, alloc, text.as_bytes());
    let again = in_one_line(rt, alloc, printed);
    assert!(rt; first.as_slice() == again.as_slice(), "{text}");
}

/// Aborts the test unless a text is printed as expected, and the printed text has the same term.
fn expect_laid(rt: &impl Abort, alloc: Global, text: &str, indentation: Indentation, lines: &str) {
    let mut written = Vec::new(alloc);
    let end = run_aterm_indented(alloc, &mut text.as_bytes(), indentation, &mut written);
    assert!(rt;
        matches!(end, Ok(Ending::Done)) && written.as_slice() == lines.as_bytes(),
        "{text}"
    );
    expect_same(rt, alloc, text, written.as_slice());
}

#[test]
fn over_several_lines(rt: HostRuntime) {
    for (text, indent, lines) in &ROWS {
        let indentation = Indentation {
            indent: *indent,
            width: None,
        };
        expect_laid(&rt, rt.alloc(), text, indentation, lines);
    }
}

#[test]
fn within_a_width(rt: HostRuntime) {
    for (text, indent, width, lines) in &WIDE_ROWS {
        let indentation = Indentation {
            indent: *indent,
            width: Some(*width),
        };
        expect_laid(&rt, rt.alloc(), text, indentation, lines);
    }
}

/// Aborts the test unless a text that is not a term is rejected at its offset.
fn expect_refused(rt: &impl Abort, alloc: Global, written: &mut Vec<u8>, mut text: &[u8], at: u32) {
    let Ok(ending) = run_aterm_indented(alloc, &mut text, BY_ONE, written) else {
        panic!(rt; "a stream refused")
    };
    let due = Place {
        text: Source::Term,
        rule: Named::A,
        at,
    };
    assert!(rt; matches!(ending, Ending::Refused(_)) && ending.place() == Some(due));
    assert!(rt; written.as_slice() == REFUSAL);
}

#[test]
fn refused_at_its_place(rt: HostRuntime) {
    let written = &mut Vec::new(rt.alloc());
    expect_refused(&rt, rt.alloc(), written, b"f(a,)", 4);
}

/// Aborts the test unless a failed read is reported, and nothing is written.
fn expect_unread(rt: &impl Abort, alloc: Global, number: usize) {
    let mut input = failing("f(a)", number, ErrorKind::Other);
    let mut out = taking(alloc);
    let end = run_aterm_indented(alloc, &mut input, BY_ONE, &mut out);
    assert!(rt; matches!(end, Err(RunFault::Read)) && out.held.is_empty());
}

/// Aborts the test unless a failed write is reported, and a prefix of the expected lines for `f(a)`
/// was written.
fn expect_unwritten(
    rt: &impl Abort,
    alloc: Global,
    indentation: Indentation,
    lines: &[u8],
    number: usize,
) {
    let out = &mut failing_at(alloc, number, Some(ErrorKind::Other));
    let end = run_aterm_indented(alloc, &mut bytewise("f(a)"), indentation, out);
    let held = out.held.as_slice();
    assert!(rt; matches!(end, Err(RunFault::Write)));
    assert!(rt; lines.starts_with(held) && held.len() == number.wrapping_sub(1));
}

#[test]
fn each_call_fails(rt: HostRuntime) {
    for number in 1..=5 {
        expect_unread(&rt, rt.alloc(), number);
    }
    for number in 1..=8 {
        expect_unwritten(&rt, rt.alloc(), BY_ONE, b"f(\n a\n)\n", number);
    }
    for number in 1..=5 {
        expect_unwritten(&rt, rt.alloc(), ONE_LINE, b"f(a)\n", number);
    }
}
