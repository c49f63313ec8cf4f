//! Tests that each option sets its field.

use recw_cli::{Asked, EvalOptions, Request, TermChoice, read_words};
use rx_run::InputForm;
use std::alloc::Global;
use std::process::Abort;
use std::rt::Files;

/// The call-depth limit, the largest number of bytes of a result and the largest number of nodes of
/// its graph, if there are any, and the terms that are evaluated.
type Bounds = (Option<u32>, Option<u64>, Option<u32>, TermChoice);

/// Options; the expected numbers; the expected flags for step counts, annotations of limit lines,
/// stuck calls, profile, progress, tables, sizes and a table of input terms; the limits and the
/// terms.
type Row = (&'static [&'static str], [u64; 4], [bool; 8], Bounds);

const OPTIONS: [Row; 11] = [
    (
        &["eval"],
        [1_000_000, 16_777_216, 65_536, 262_144],
        [false, false, false, false, false, false, false, false],
        (None, None, None, TermChoice::All),
    ),
    (
        &[
            "eval",
            "--steps",
            "11",
            "--cells",
            "12",
            "--memo",
            "13",
            "--reclaim",
            "14",
            "--count",
            "--depth",
            "15",
            "--bytes",
            "16",
            "--profile",
            "--progress",
        ],
        [11, 12, 13, 14],
        [true, false, false, true, true, false, false, false],
        (Some(15), Some(16), None, TermChoice::All),
    ),
    (
        &[
            "eval",
            "--reclaim=24",
            "--memo=23",
            "spec",
            "--cells=22",
            "terms",
            "--limit-annotations",
            "--steps=21",
            "--depth=0",
            "--bytes=0",
        ],
        [21, 22, 23, 24],
        [false, true, false, false, false, false, false, false],
        (Some(0), Some(0), None, TermChoice::All),
    ),
    (
        &["eval", "--stuck"],
        [1_000_000, 16_777_216, 65_536, 262_144],
        [false, false, true, false, false, false, false, false],
        (None, None, None, TermChoice::All),
    ),
    (
        &["eval", "--only-terms", "-e", "z"],
        [1_000_000, 16_777_216, 65_536, 262_144],
        [false, false, false, false, false, false, false, false],
        (None, None, None, TermChoice::Input),
    ),
    (
        &["eval", "--term", "1000000000000000000"],
        [1_000_000, 16_777_216, 65_536, 262_144],
        [false, false, false, false, false, false, false, false],
        (None, None, None, TermChoice::Nth(1_000_000_000_000_000_000)),
    ),
    (
        &["eval", "--to-table", "--sizes"],
        [1_000_000, 16_777_216, 65_536, 262_144],
        [false, false, false, false, false, true, true, false],
        (None, None, None, TermChoice::All),
    ),
    (
        &["eval", "--terms-table", "a", "b"],
        [1_000_000, 16_777_216, 65_536, 262_144],
        [false, false, false, false, false, false, false, true],
        (None, None, None, TermChoice::All),
    ),
    (
        &["serve", "--from-table", "a"],
        [1_000_000, 16_777_216, 65_536, 262_144],
        [false, false, false, false, false, false, false, true],
        (Some(1_000_000), Some(16_777_216), None, TermChoice::All),
    ),
    (
        &["eval", "--dot", "5"],
        [1_000_000, 16_777_216, 65_536, 262_144],
        [false, false, false, false, false, false, false, false],
        (None, None, Some(1000), TermChoice::Nth(5)),
    ),
    (
        &["eval", "--nodes=7", "--dot=1"],
        [1_000_000, 16_777_216, 65_536, 262_144],
        [false, false, false, false, false, false, false, false],
        (None, None, Some(7), TermChoice::Nth(1)),
    ),
];

/// Compares the fields of a request with the expected ones.
fn reaches_its_field<H: Abort + Files>(rt: &H, alloc: Global, row: &Row) {
    let (words, numbers, flags, bounds) = *row;
    let mut none = Vec::new(alloc);
    let mut told = Vec::new(alloc);
    let asked = read_words(alloc, words, &mut none, &mut told);
    let Asked::Run(invocation) = asked else {
        return rt.abort();
    };
    let options = match invocation.request {
        Request::Eval { options, .. } | Request::Serve { options, .. } => options,
        _ => return rt.abort(),
    };
    let EvalOptions {
        terms,
        input,
        steps,
        cells,
        memo,
        reclaim,
        count,
        bytes,
        to_table,
        sizes,
        graph,
        limit_annotations,
        depth,
        stuck,
        profile,
        progress,
    } = options;
    let found = [steps, u64::from(cells), u64::from(memo), u64::from(reclaim)];
    let said = [
        count,
        limit_annotations,
        stuck,
        profile,
        progress,
        to_table,
        sizes,
        input == InputForm::Table,
    ];
    assert!(rt;
        found == numbers && said == flags && (depth, bytes, graph, terms) == bounds,
        "{words:?}"
    );
}

#[test]
fn options_reach_their_fields(rt: HostRuntime) {
    for row in &OPTIONS {
        reaches_its_field(&rt, rt.alloc(), row);
    }
}
