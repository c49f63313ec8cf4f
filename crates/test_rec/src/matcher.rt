//! Tests of the search for the first rule that matches a term.

ghost use Rattle.rec_sorts.specs.Linked.{AreLinked, HasMoreSymbols};
ghost use Rattle.rec_match.specs.Next.{AreReady};

use crate::banks::{plain_bank, term_of};
use crate::counting::Counting;
use crate::texts::{checked_box, expect, push};
use rec_match::Matcher;
use rec_sorts::{Checked, Links};
use rx_plain::PlainBank;
use rx_term::{Term, TermBank};
use smallvec::SmallVec;
use std::alloc::Global;
use std::cell::Cell;
use std::io::Write;
use std::process::Abort;

const OVL: &[u8] = b"REC-SPEC Ovl SORTS N \
    CONS a : -> N b : -> N \
    OPNS f : N N -> N \
    VARS X Y : N \
    RULES f(X,X) -> a f(a,Y) -> b f(X,b) -> a f(X,Y) -> b \
    EVAL f(b,a) END-SPEC";

/// The symbol `g` has number 3. Its argument is a pair in each left-hand side but the last, where
/// it is a variable.
const PAIRS: &[u8] = b"REC-SPEC Pairs SORTS N \
    CONS a : -> N b : -> N p : N N -> N \
    OPNS g : N -> N \
    VARS X Y : N \
    RULES g(p(X,X)) -> a g(p(a,Y)) -> b g(p(X,b)) -> a g(p(Y,X)) -> b g(X) -> a \
    EVAL g(b) END-SPEC";

/// A term's text, the first rule that may be found, the rule that is found, and whether each of its
/// values is the term `a`.
type Row = (&'static str, u32, Option<u32>, &'static [bool]);

const OVERLAPPING: [Row; 11] = [
    ("f(a,a)", 0, Some(0), &[true]),
    ("f(a,a)", 1, Some(1), &[true]),
    ("f(a,a)", 2, Some(3), &[true, true]),
    ("f(a,a)", 4, None, &[]),
    ("f(a,b)", 0, Some(1), &[false]),
    ("f(a,b)", 2, Some(2), &[true]),
    ("f(a,b)", 3, Some(3), &[true, false]),
    ("f(b,a)", 0, Some(3), &[false, true]),
    ("f(b,b)", 0, Some(0), &[false]),
    ("f(b,b)", 1, Some(2), &[false]),
    ("f(b,b)", 3, Some(3), &[false, false]),
];

const OVERLAPPING_PAIRS: [Row; 11] = [
    ("g(p(a,a))", 0, Some(0), &[true]),
    ("g(p(a,a))", 1, Some(1), &[true]),
    ("g(p(a,a))", 2, Some(3), &[true, true]),
    ("g(p(a,b))", 0, Some(1), &[false]),
    ("g(p(a,b))", 2, Some(2), &[true]),
    ("g(p(b,b))", 1, Some(2), &[false]),
    ("g(p(b,a))", 0, Some(3), &[false, true]),
    ("g(p(b,a))", 4, Some(4), &[false]),
    ("g(p(b,a))", 5, None, &[]),
    ("g(a)", 0, Some(4), &[true]),
    ("g(p(a,b){b})", 0, Some(4), &[false]),
];

const UNMATCHED: [Row; 6] = [
    ("a", 0, None, &[]),
    ("7", 0, None, &[]),
    ("[a]", 0, None, &[]),
    ("f(a)", 0, None, &[]),
    ("f(a,a){b}", 0, None, &[]),
    ("<f(a,a)>", 0, None, &[]),
];

const WIDE: [Row; 3] = [
    (
        "w(b,b,b,b,b,b,b,b,b,b,b,b,b,b,b,b,b,b,b,a)",
        0,
        Some(19),
        &[false; 19],
    ),
    ("w(b,b,b,b,b,b,b,b,b,b,b,b,b,b,b,b,b,b,b,b)", 0, None, &[]),
    (
        "w(a,a,a,a,a,a,a,a,a,a,a,a,a,a,a,a,a,a,a,a)",
        0,
        Some(0),
        &[true; 19],
    ),
];

/// Test cases for 200 constants.
const CASES: [Row; 3] = [
    ("k(c0)", 0, Some(0), &[]),
    ("k(c199)", 0, Some(199), &[]),
    ("k(a)", 0, None, &[]),
];

/// Test cases for 5,000 constants.
const MANY_CASES: [Row; 2] = [("k(c4999)", 0, Some(4999), &[]), ("k(a)", 0, None, &[])];

/// The specification before the variables of `w`.
const HEAD_OF_WIDE: &[u8] = b"REC-SPEC Wide SORTS N \
    CONS a : -> N b : -> N \
    OPNS w : N N N N N N N N N N N N N N N N N N N N -> N \
    VARS";

/// The specification before the constants of `k`.
const HEAD_OF_CASES: &[u8] = b"REC-SPEC Cases SORTS N CONS a : -> N";

/// Adds the symbols of a specification to a store.
fn link<B: TermBank>(rt: &impl Abort, alloc: Global, bank: &mut B, checked: &Checked) -> Links
    ensures linked { AreLinked checked.now.spec (B.store bank.new) result }
    ensures same { HasMoreSymbols (B.store bank.old) (B.store bank.new) }
{
    Links::make(alloc, checked, bank).expect(rt, "links")
}

/// Builds the matcher of a checked specification. Its symbols are added to the store.
pub fn build<B: TermBank>(
    rt: &impl Abort,
    alloc: Global,
    bank: &mut B,
    checked: &Checked,
) -> Box<Matcher>
    ensures ready { AreReady (B.store bank.new) result.value }
    ensures same { HasMoreSymbols (B.store bank.old) (B.store bank.new) }
{
    let links = link(rt, alloc, bank, checked);
    let matcher = Matcher::build(alloc, checked, &links).expect(rt, "a matcher");
    Box::new(alloc, matcher).expect(rt, "memory")
}

/// Returns whether exactly the terms with these flags are `one`.
fn are(one: Term, terms: &[Term], wanted: &[bool]) -> bool {
    if terms.len() != wanted.len() {
        return false;
    }
    for (term, is_one) in terms.iter().zip(wanted) {
        if (term.0 == one.0) != *is_one {
            return false;
        }
    }
    true
}

/// Aborts the test unless the matcher of a specification finds the rule of a test case, from a rule
/// on, with its values.
fn expect_row<B: TermBank>(
    rt: &impl Abort,
    alloc: Global,
    bank: &mut B,
    checked: &Checked,
    row: &Row,
) {
    let a = term_of(rt, alloc, bank, b"a");
    let u = term_of(rt, alloc, bank, row.0.as_bytes());
    let matcher = build(rt, alloc, bank, checked);
    assert!(rt; bank.holds(u));
    let mut bind = SmallVec::new(alloc);
    let rule = matcher
        .next(bank, u, row.1, &mut bind)
        .expect(rt, "an answer");
    let holds = rule == row.2 && are(a, bind.as_slice(), row.3);
    assert!(rt; holds, "{} from {}", row.0, row.1);
}

/// Returns a store of 100 cells that counts how often a node is read.
fn counting(rt: &impl Abort, alloc: Global) -> Box<Counting<PlainBank>> {
    let counting = Counting {
        bank: plain_bank(rt, alloc, 100),
        reads: Cell::new(0),
    };
    Box::new(alloc, counting).expect(rt, "memory")
}

/// Tests a test case in a new store, and that few nodes are read.
fn expect_row_alone(rt: &impl Abort, alloc: Global, checked: &Checked, row: &Row) {
    let mut bank = counting(rt, alloc);
    expect_row(rt, alloc, &mut *bank, checked, row);
    expect(rt, bank.reads.get() < 100, row.0);
}

/// Tests the test cases of a specification.
fn expect_rows(rt: &impl Abort, alloc: Global, spec: &[u8], rows: &[Row]) {
    let checked = checked_box(rt, alloc, spec);
    for row in rows {
        expect_row_alone(rt, alloc, &checked, row);
    }
}

#[test]
fn overlapping_rules(rt: HostRuntime) {
    expect_rows(&rt, rt.alloc(), OVL, &OVERLAPPING);
    expect_rows(&rt, rt.alloc(), PAIRS, &OVERLAPPING_PAIRS);
    expect_rows(&rt, rt.alloc(), OVL, &UNMATCHED);
}

/// Returns the number of trees for the symbol with this number.
fn trees_of(matcher: &Matcher, number: usize) -> usize {
    match matcher.forest.roots.get(number) {
        Some(roots) => roots.len(),
        None => 0,
    }
}

/// Returns the number of trees in the matcher of a checked specification.
fn trees_in(rt: &impl Abort, alloc: Global, checked: &Checked, number: usize) -> usize {
    trees_of(
        &build(rt, alloc, &mut *counting(rt, alloc), checked),
        number,
    )
}

/// Returns the number of trees in the matcher of a text.
fn trees(rt: &impl Abort, alloc: Global, spec: &[u8], number: usize) -> usize {
    let checked = checked_box(rt, alloc, spec);
    trees_in(rt, alloc, &checked, number)
}

/// The rules of pairs have one tree. The symbol `w` has number 2; one tree for it would have a leaf
/// for each set of its arguments.
#[test]
fn trees_of_rules(rt: HostRuntime) {
    assert!(rt; trees(&rt, rt.alloc(), PAIRS, 3) == 1);
    let spec = wide(&rt, rt.alloc());
    assert!(rt; trees(&rt, rt.alloc(), &spec, 2) == 20);
}

/// Appends a number between two texts.
fn push_number(rt: &impl Abort, text: &mut Vec<u8>, before: &str, number: u32, after: &str) {
    assert!(rt; write!(text, "{before}{number}{after}").is_ok());
}

/// Appends a rule of the operator `w`, whose left-hand side has `a` at one position and variables
/// at the others.
fn push_rule(rt: &impl Abort, text: &mut Vec<u8>, place: u32) {
    for i in 1..=20 {
        push(rt, text, if i == 1 { b" w(" } else { b"," });
        if i == place {
            push(rt, text, b"a");
        } else {
            push_number(rt, text, "X", i, "");
        }
    }
    push(rt, text, b") -> b");
}

/// Returns a specification of an operator `w` with 20 arguments and a rule for each of them.
fn wide(rt: &impl Abort, alloc: Global) -> Vec<u8> {
    let mut text = Vec::from_slice(alloc, HEAD_OF_WIDE).expect(rt, "memory");
    for i in 1..=20 {
        push_number(rt, &mut text, " X", i, "");
    }
    push(rt, &mut text, b" : N RULES");
    for place in 1..=20 {
        push_rule(rt, &mut text, place);
    }
    push(rt, &mut text, b" EVAL a END-SPEC");
    text
}

#[test]
fn a_rule_for_each_argument(rt: HostRuntime) {
    let spec = wide(&rt, rt.alloc());
    expect_rows(&rt, rt.alloc(), &spec, &WIDE);
}

/// Returns a specification of an operator `k` with a rule for each of `count` constants.
fn cases(rt: &impl Abort, alloc: Global, count: u32) -> Vec<u8> {
    let mut text = Vec::from_slice(alloc, HEAD_OF_CASES).expect(rt, "memory");
    for i in 0..count {
        push_number(rt, &mut text, " c", i, " : -> N");
    }
    push(rt, &mut text, b" OPNS k : N -> N RULES");
    for i in 0..count {
        push_number(rt, &mut text, " k(c", i, ") -> a");
    }
    push(rt, &mut text, b" EVAL a END-SPEC");
    text
}

/// Aborts the test unless the matcher of such a specification finds the expected rules.
fn expect_cases(rt: &impl Abort, alloc: Global, count: u32, rows: &[Row]) {
    let spec = cases(rt, alloc, count);
    expect_rows(rt, alloc, &spec, rows);
}

#[test]
fn a_rule_for_each_constant(rt: HostRuntime) {
    expect_cases(&rt, rt.alloc(), 200, &CASES);
    expect_cases(&rt, rt.alloc(), 5_000, &MANY_CASES);
}
