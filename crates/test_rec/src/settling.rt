//! Tests of parallel moves.

ghost use Rattle.std.specs.Prelude.{◌≡◌, ◌-◌, nat_lt, length};
ghost use Rattle.std.specs.List.{list_all};

use rec_match::{move_down, settle, settle_over};
use rx_term::Term;
use std::alloc::Global;
use std::process::Abort;

/// Registers, the index of ten references from which they are counted, the index to which their
/// values are moved, and the expected references.
type Row = (&'static [u32], usize, usize, &'static [u32]);

const SETTLED: [Row; 9] = [
    (&[], 2, 1, &[0]),
    (&[1], 2, 1, &[0, 3]),
    (&[1, 0], 2, 2, &[0, 1, 3, 2]),
    (&[1, 2, 0], 2, 2, &[0, 1, 3, 4, 2]),
    (&[3, 2, 1, 0], 2, 1, &[0, 5, 4, 3, 2]),
    (&[4, 3, 2, 1, 0], 2, 2, &[0, 1, 6, 5, 4, 3, 2]),
    (&[0], 0, 10, &[0, 1, 2, 3, 4, 5, 6, 7, 8, 9, 0]),
    (&[9, 8], 0, 9, &[0, 1, 2, 3, 4, 5, 6, 7, 8, 9, 8]),
    (&[3, 3, 3], 6, 8, &[0, 1, 2, 3, 4, 5, 6, 7, 9, 9, 9]),
];

/// The index of references, the index to which they are moved, and the expected references.
const MOVED: [(usize, usize, &[u32]); 3] = [
    (8, 1, &[0, 8, 9]),
    (10, 2, &[0, 1]),
    (0, 0, &[0, 1, 2, 3, 4, 5, 6, 7, 8, 9]),
];

/// Ten references with the numbers of their indices.
const TEN: [Term; 10] = [
    Term(0),
    Term(1),
    Term(2),
    Term(3),
    Term(4),
    Term(5),
    Term(6),
    Term(7),
    Term(8),
    Term(9),
];

/// Returns the ten references as a vector.
fn ten(rt: &impl Abort, alloc: Global) -> Vec<Term>
    ensures { length result.items ≡ 10 }
{
    Vec::from_slice(alloc, &TEN).expect(rt, "memory")
}

/// Aborts the test unless these are the references.
fn expect_numbers(rt: &impl Abort, work: &[Term], wanted: &[u32]) {
    assert!(rt; work.len() == wanted.len());
    for (term, number) in work.iter().zip(wanted) {
        assert!(rt; term.0 == *number);
    }
}

/// Returns whether all registers are below `count`.
fn are_there(registers: &[u32], count: usize) -> bool
    ensures { result ≡ list_all (λ r. nat_lt r count) registers.now }
{
    registers
        .iter()
        .all(|register| (*register as usize) < count)
}

/// Moves the values of registers among ten references, with one of the two functions.
fn settle_ten(rt: &impl Abort, work: &mut Vec<Term>, row: &Row, is_over: bool)
    requires { length work.old.items ≡ 10 }
{
    let (registers, first, to, _) = *row;
    assert!(rt; first <= 10 && to <= 10);
    assert!(rt; are_there(registers, 10 - first));
    let done = if is_over {
        settle_over(registers, first, to, work)
    } else {
        settle(registers, first, to, work)
    };
    assert!(rt; done.is_ok());
}

/// Aborts the test unless the values of registers are moved as expected.
fn expect_settled(rt: &impl Abort, alloc: Global, row: &Row, is_over: bool) {
    let mut work = ten(rt, alloc);
    settle_ten(rt, &mut work, row, is_over);
    expect_numbers(rt, &work, row.3);
}

#[test]
fn values_settle(rt: HostRuntime) {
    for row in &SETTLED {
        expect_settled(&rt, rt.alloc(), row, false);
        expect_settled(&rt, rt.alloc(), row, true);
    }
}

/// Aborts the test unless references are moved down as expected.
fn expect_moved(rt: &impl Abort, alloc: Global, from: usize, to: usize, wanted: &[u32]) {
    let mut work = ten(rt, alloc);
    assert!(rt; to <= from && from <= 10);
    move_down(&mut work, to, from);
    expect_numbers(rt, &work, wanted);
}

#[test]
fn references_move_down(rt: HostRuntime) {
    for (from, to, wanted) in &MOVED {
        expect_moved(&rt, rt.alloc(), *from, *to, *wanted);
    }
}
