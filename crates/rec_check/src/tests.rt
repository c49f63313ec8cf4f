//! Examinations of small texts.

use crate::finding::Diagnostic;
use crate::runs::{Examination, Judgement, examine};
use std::process::Abort;

/// A diagnostic: its offsets, its code and its detail.
type Expected = (usize, usize, &'static [u8], &'static [u8]);

/// A text, the result of its check, and its diagnostics.
type Row = (&'static [u8], Judgement, &'static [Expected]);

/// Fails unless a diagnostic is the expected one.
fn is_expected(rt: &impl Abort, found: &Diagnostic, expected: &Expected) {
    let (at, end, code, shown) = *expected;
    assert_eq!(rt; found.at, at);
    assert_eq!(rt; found.end, end);
    assert!(rt; found.kind.code() == code);
    assert_eq!(rt; found.kind.is_error(), !code.starts_with(b"W"));
    assert!(rt; found.shown.as_slice() == shown);
}

/// Fails unless an examination has the expected result.
fn are_expected(rt: &impl Abort, examination: &Examination, row: &Row) {
    let (_text, judgement, expected) = *row;
    assert_eq!(rt; examination.judgement, judgement);
    assert_eq!(rt; examination.diagnostics.len(), expected.len());
    for (found, expected) in examination.diagnostics.iter().zip(expected) {
        is_expected(rt, found, expected);
    }
}

/// The operator `p`, at 49, has no rule for `s(z)`.
const PARTIAL: &[u8] = b"REC-SPEC P SORTS N\nCONS z : -> N s : N -> N\nOPNS p : N -> N\n\
    RULES p(z) -> z\nEVAL p(s(z))\nEND-SPEC\n";

/// The text `PARTIAL` with comments, of which one silences the warning.
const SILENCED: &[u8] = b"REC-SPEC P SORTS N\nCONS z : -> N s : N -> N\nOPNS p : N -> N\n\
    RULES p(z) -> z % recw: allow W3 p \t\nEVAL p(s(z))\nEND-SPEC\n% the end";

/// The text `PARTIAL` with comments that silence other warnings or none.
const OTHERS: &[u8] = b"REC-SPEC P SORTS N\nCONS z : -> N s : N -> N\nOPNS p : N -> N\n\
    RULES p(z) -> z\nEVAL p(s(z))\nEND-SPEC\n% recw: allow W3 s\n% recw: allow W5 p\n\
    %recw: allow W3 p\n% recw: allow W3 p here\n% recw: allow W3 pp\n% % recw: allow W3 p\n";

/// The second rule of `ff`, at 80, comes after a rule for all arguments in line 2, column 7. The
/// sort `M`, at 19, is not used.
const UNREACHABLE: &[u8] =
    b"REC-SPEC U SORTS N M CONS a : -> N OPNS ff : N -> N VARS X : N\nRULES ff(X) -> X\n\
    ff(a) -> a\nEVAL ff(a) END-SPEC % recw: allow W4 N\n";

/// Texts with their errors and warnings.
const ROWS: &[Row] = &[
    (b"REC-SPEC", Judgement::Refused, &[(8, 8, b"G", b"")]),
    (
        b"REC-SPEC E SORTS N CONS a : -> M EVAL bb END-SPEC % recw: allow S4 M",
        Judgement::Refused,
        &[(31, 32, b"S4", b"M"), (38, 40, b"S5", b"bb")],
    ),
    (PARTIAL, Judgement::Warned, &[(49, 50, b"W3", b"p(s(z))")]),
    (SILENCED, Judgement::Good, &[]),
    (
        UNREACHABLE,
        Judgement::Warned,
        &[(19, 20, b"W4", b"M"), (80, 82, b"W1", b"2:7")],
    ),
    (OTHERS, Judgement::Warned, &[(49, 50, b"W3", b"p(s(z))")]),
];

#[test]
fn texts_are_examined(rt: HostRuntime) {
    for row in ROWS {
        let examination = examine(rt.alloc(), row.0).expect(&rt, "memory");
        are_expected(&rt, &examination, row);
    }
}
