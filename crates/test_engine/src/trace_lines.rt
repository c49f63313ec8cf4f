//! Tests of the lines of a trace.

use crate::banks::{plain_box, term_of};
use crate::texts::expect;
use rec_trace::{Look, Margins, Rewrite, Spot, firing_line, spot_of, whole_line};
use rx_plain::PlainBank;
use rx_term::TermBank;
use std::alloc::Global;
use std::process::Abort;

/// Three lines, the second one empty.
const TEXT: &[u8] = b"ab\n\nc";

/// Offsets in that text, with their lines and columns.
const SPOTS: [(usize, u64, u64); 5] = [(0, 1, 1), (2, 1, 3), (3, 2, 1), (4, 3, 1), (5, 3, 2)];

const PLAIN: Look = Look {
    counted: false,
    width: None,
};

const COUNTED: Look = Look {
    counted: true,
    width: None,
};

const CUT: Look = Look {
    counted: false,
    width: Some(7),
};

/// A redex and its replacement.
const ADDED: (&[u8], &[u8]) = (b"add(s(z),z)", b"s(add(z,z))");

/// A redex of seven bytes.
const SHORT: (&[u8], &[u8]) = (b"f(a,bc)", b"b");

#[test]
fn spots(rt: HostRuntime) {
    for (at, line, column) in &SPOTS {
        assert!(rt; *at <= TEXT.len());
        let spot = spot_of(TEXT, *at);
        assert!(rt; spot.line == *line && spot.column == *column);
    }
}

/// The kind of line.
#[derive(Drop)]
enum Told {
    /// A rewrite, with the texts of the redex and its replacement.
    Firing((&'static [u8], &'static [u8])),
    /// The whole term `s(add(z,z))`.
    Whole,
}

/// The kind of line, its form, and the line.
type Row = (Told, Look, &'static str);

const FIRINGS: [Row; 4] = [
    (
        Told::Firing(ADDED),
        PLAIN,
        "7:10: add(s(z),z) -> s(add(z,z))\n",
    ),
    (
        Told::Firing(ADDED),
        COUNTED,
        "7:10: add(s(z),z) -> s(add(z,z))\t3\n",
    ),
    (Told::Firing(ADDED), CUT, "7:10: add(... -> s(ad...\n"),
    (Told::Firing(SHORT), CUT, "7:10: f(a,bc) -> b\n"),
];

const WHOLE_TERMS: [Row; 3] = [
    (Told::Whole, PLAIN, "12:1: s(add(z,z))\n"),
    (Told::Whole, COUNTED, "12:1: s(add(z,z))\t40\n"),
    (Told::Whole, CUT, "12:1: s(ad...\n"),
];

/// Writes the line of a rewrite, in this store.
fn line_of_firing(
    rt: &impl Abort,
    alloc: Global,
    bank: &mut PlainBank,
    texts: (&[u8], &[u8]),
    look: Look,
) -> Vec<u8> {
    let redex = term_of(rt, alloc, bank, texts.0);
    let contractum = term_of(rt, alloc, bank, texts.1);
    assert!(rt; bank.holds(redex) && bank.holds(contractum));
    let spot = Spot {
        line: 7,
        column: 10,
    };
    let rewrite = Rewrite { redex, contractum };
    let margins = Margins {
        spot,
        spent: 3,
        look,
    };
    firing_line(alloc, bank, rewrite, margins).expect(rt, "the line of a firing")
}

/// Writes the line of the whole term, in this store.
fn line_of_whole(rt: &impl Abort, alloc: Global, bank: &mut PlainBank, look: Look) -> Vec<u8> {
    let whole = term_of(rt, alloc, bank, b"s(add(z,z))");
    assert!(rt; bank.holds(whole));
    let spot = Spot {
        line: 12,
        column: 1,
    };
    let margins = Margins {
        spot,
        spent: 40,
        look,
    };
    whole_line(alloc, bank, whole, margins).expect(rt, "the line of a whole term")
}

/// Aborts the test unless the line is as expected.
fn expect_line(rt: &impl Abort, alloc: Global, bank: &mut PlainBank, row: &Row) {
    let line = match &row.0 {
        Told::Firing(texts) => line_of_firing(rt, alloc, bank, *texts, row.1),
        Told::Whole => line_of_whole(rt, alloc, bank, row.1),
    };
    expect(rt, line.as_slice() == row.2.as_bytes(), row.2);
}

/// Aborts the test unless the lines of test cases are as expected.
fn expect_lines(rt: &impl Abort, alloc: Global, bank: &mut PlainBank, rows: &[Row]) {
    for row in rows {
        expect_line(rt, alloc, bank, row);
    }
}

#[test]
fn firings(rt: HostRuntime) {
    expect_lines(
        &rt,
        rt.alloc(),
        &mut *plain_box(&rt, rt.alloc(), 100),
        &FIRINGS,
    );
}

#[test]
fn whole_terms(rt: HostRuntime) {
    expect_lines(
        &rt,
        rt.alloc(),
        &mut *plain_box(&rt, rt.alloc(), 100),
        &WHOLE_TERMS,
    );
}
