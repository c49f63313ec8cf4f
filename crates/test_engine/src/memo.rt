//! Tests of memo tables: one pair, no room, missing terms, and many pairs, compared with the last
//! pair of each key.

use crate::banks::plain_bank;
use crate::texts::expect;
use rec_memo::{Memo, Seen, Tally, fingerprint};
use rx_term::{Symbol, Term, TermBank};
use std::alloc::Global;
use std::process::Abort;

/// A reference that the store of the test cases has.
const ONE: Term = Term(0);

/// A second reference that the store has.
const TWO: Term = Term(1);

/// A reference that the store does not have.
const GONE: Term = Term(7);

/// An operation of a memo table, with its expected result.
#[derive(Drop)]
enum Step {
    Put(Term, Term, u64),
    /// The pair of a key.
    Get(Term, Option<(Term, u64)>),
    Touch(Term),
    Clear,
    /// Drops the pairs that are not in the store.
    Sweep,
    /// The references that are added to these roots; `None` if no pair is new.
    Newest(&'static [Term], Option<&'static [Term]>),
}

/// A name, the capacity of the memo table, and its operations.
type Row = (&'static str, u32, &'static [Step]);

const CLEARED: [Step; 5] = [
    Step::Put(Term(7), Term(9), 3),
    Step::Get(Term(7), Some((Term(9), 3))),
    Step::Get(Term(9), None),
    Step::Clear,
    Step::Get(Term(7), None),
];

const NOTHING_KEPT: [Step; 4] = [
    Step::Put(Term(7), Term(9), 3),
    Step::Get(Term(7), None),
    Step::Clear,
    Step::Get(Term(7), None),
];

const NOT_HELD: [Step; 7] = [
    Step::Put(ONE, TWO, 5),
    Step::Put(TWO, GONE, 6),
    Step::Put(GONE, ONE, 7),
    Step::Sweep,
    Step::Get(ONE, Some((TWO, 5))),
    Step::Get(TWO, None),
    Step::Get(GONE, None),
];

/// A new pair is added to the roots until the next collection, and once more if it is looked up
/// then.
const HANDED_OVER: [Step; 7] = [
    Step::Newest(&[TWO], None),
    Step::Put(ONE, TWO, 5),
    Step::Newest(&[TWO], Some(&[TWO, ONE, TWO])),
    Step::Sweep,
    Step::Newest(&[TWO], None),
    Step::Touch(ONE),
    Step::Newest(&[], Some(&[ONE, TWO])),
];

/// Two keys of one set are kept; a third one replaces the older one. Of 2 sets the first has the
/// keys 2, 4 and 5.
const IN_A_SET: [Step; 6] = [
    Step::Put(Term(2), Term(1), 2),
    Step::Put(Term(4), Term(1), 4),
    Step::Put(Term(5), Term(1), 5),
    Step::Get(Term(2), None),
    Step::Get(Term(4), Some((Term(1), 4))),
    Step::Get(Term(5), Some((Term(1), 5))),
];

const ROWS: [Row; 5] = [
    ("a pair is put and cleared", 1, &CLEARED),
    ("no entries keep nothing", 0, &NOTHING_KEPT),
    ("results that no root reaches are dropped", 8, &NOT_HELD),
    ("results of new pairs become roots", 8, &HANDED_OVER),
    ("two keys share a set", 4, &IN_A_SET),
];

/// Returns whether a memo table adds exactly these references to the roots in `kept`.
fn hands_over<B: TermBank>(memo: &Memo, bank: &B, kept: &[Term], all: Option<&[Term]>) -> bool {
    match memo.with_newest(bank, kept) {
        Some(handed) => match all {
            Some(all) => handed.as_slice() == all,
            None => false,
        },
        None => all.is_none(),
    }
}

/// Runs an operation, and returns whether it has the expected result.
fn answers<B: TermBank>(memo: &mut Memo, bank: &B, step: &Step) -> bool {
    match step {
        Step::Put(key, value, cost) => memo.put(*key, *value, *cost),
        Step::Get(key, pair) => return memo.get(*key) == *pair,
        Step::Touch(key) => memo.touch(*key),
        Step::Clear => memo.clear(),
        Step::Sweep => memo.retain_held(bank),
        Step::Newest(kept, all) => return hands_over(memo, bank, kept, *all),
    }
    true
}

/// Runs the operations of a test case. Aborts the test at the first unexpected result.
fn take_steps<B: TermBank>(rt: &impl Abort, memo: &mut Memo, bank: &B, row: &Row) {
    for (number, step) in row.2.iter().enumerate() {
        let holds = answers(memo, bank, step);
        assert!(rt; holds, "{}: {number}", row.0);
    }
}

/// Tests an empty memo table.
fn expect_row<B: TermBank>(rt: &impl Abort, alloc: Global, bank: &B, row: &Row) {
    assert!(rt; row.1 <= 1_048_576);
    let mut memo = Memo::new(alloc, row.1).expect(rt, "a memo");
    take_steps(rt, &mut memo, bank, row);
}

/// Puts two terms into a store. Aborts the test unless it then has the references of the test
/// cases, except the missing one.
fn put_terms<B: TermBank>(rt: &impl Abort, bank: &mut B) {
    assert!(rt; bank.int(1).is_ok() && bank.int(2).is_ok());
    assert!(rt; bank.holds(ONE) && bank.holds(TWO) && !bank.holds(GONE));
}

/// Tests memo tables over an empty store.
fn expect_rows<B: TermBank + Drop>(rt: &impl Abort, alloc: Global, mut bank: B) {
    put_terms(rt, &mut bank);
    for row in &ROWS {
        expect_row(rt, alloc, &bank, row);
    }
}

#[test]
fn pairs_are_put_and_dropped(rt: HostRuntime) {
    expect_rows(&rt, rt.alloc(), plain_bank(&rt, rt.alloc(), 10));
}

/// Returns the next number of a fixed sequence.
fn next(state: &mut u32) -> u32 {
    *state = state.wrapping_mul(1_664_525).wrapping_add(1_013_904_223);
    *state >> 16
}

/// The last pair that was put for a key.
type Last = Option<(Term, u64)>;

/// Aborts the test unless a key has its last pair, or none if the table is too small. Returns
/// whether it has one.
fn expect_last(rt: &impl Abort, memo: &Memo, entries: u32, last: &Last, key: Term) -> bool {
    let answer = memo.get(key);
    assert!(rt; answer == *last || (answer == None && entries < 100));
    answer.is_some()
}

/// Puts a pair for a key. Aborts the test unless the key has this pair then.
fn put_next(rt: &impl Abort, memo: &mut Memo, entries: u32, key: Term, next: (Term, u64)) {
    memo.put(key, next.0, next.1);
    assert!(rt; entries == 0 || memo.get(key) == Some(next));
}

/// Puts 200 pairs into a memo table. Aborts the test if a key has a pair other than its last one.
/// Returns how often it had one.
fn put_many(rt: &impl Abort, memo: &mut Memo, entries: u32) -> u32 {
    let mut last: [Last; 32] = [None; 32];
    let mut state = 1;
    let mut found = 0u32;
    for turn in 0..200u64 {
        let key = next(&mut state) % 32;
        if expect_last(rt, memo, entries, &last[key as usize], Term(key)) {
            found = found.saturating_add(1);
        }
        let pair = (Term(next(&mut state)), turn);
        put_next(rt, memo, entries, Term(key), pair);
        last[key as usize] = Some(pair);
    }
    found
}

/// A key has the last pair that was put for it, or none. Right after a put it has that pair, and if
/// there is room it keeps it.
#[test]
fn a_key_has_its_last_pair_or_none(rt: HostRuntime) {
    for entries in &[0, 1, 2, 5, 16, 100] {
        let mut memo = Memo::new(rt.alloc(), *entries).expect(&rt, "a memo");
        let found = put_many(&rt, &mut memo, *entries);
        assert!(rt; (*entries == 0) == (found == 0));
    }
}

/// Returns the number of keys, of `keys`, that have the pair of themselves and 1.
fn count_pairs(memo: &Memo, keys: u32) -> u32 {
    let mut found = 0u32;
    for key in 0..keys {
        if memo.get(Term(key)) == Some((Term(key), 1)) {
            found = found.saturating_add(1);
        }
    }
    found
}

/// A memo table starts with room for 1,024 pairs and grows.
#[test]
fn a_memo_grows(rt: HostRuntime) {
    let mut memo = Memo::new(rt.alloc(), 65_536).expect(&rt, "a memo");
    for key in 0..8_192 {
        memo.put(Term(key), Term(key), 1);
    }
    assert!(rt; count_pairs(&memo, 8_192) > 4_096);
}

const CALL: [Term; 2] = [Term(7), Term(8)];

const OTHER_CALL: [Term; 2] = [Term(8), Term(7)];

/// A name, the arguments of a call, and whether the call was seen before.
type Sight = (&'static str, &'static [Term], bool);

const SEEN: [Sight; 4] = [
    ("a call at its first sight", &CALL, false),
    ("a call at its second sight", &CALL, true),
    ("another call at its first sight", &OTHER_CALL, false),
    ("another call at its second sight", &OTHER_CALL, true),
];

const BLIND: [Sight; 2] = [
    ("a call, blind", &CALL, false),
    ("a call, blind, once more", &CALL, false),
];

/// Returns the fingerprint of a call.
fn print_of(arguments: &[Term]) -> u64 {
    fingerprint(Symbol(3), arguments)
}

/// Aborts the test unless a table recognizes calls as expected.
fn expect_sights(rt: &impl Abort, seen: &mut Seen, sights: &[Sight]) {
    for (sight, arguments, is_seen) in sights {
        expect(rt, seen.again(print_of(arguments)) == *is_seen, sight);
    }
}

/// Tests a table for this number of calls.
fn expect_seen(rt: &impl Abort, alloc: Global, count: u32, sights: &[Sight]) {
    assert!(rt; count <= 1_048_576);
    let mut seen = Seen::new(alloc, count).expect(rt, "a table");
    expect_sights(rt, &mut seen, sights);
}

#[test]
fn a_call_is_seen_at_its_second_sight(rt: HostRuntime) {
    assert!(rt; print_of(&CALL) != print_of(&OTHER_CALL));
    expect_seen(&rt, rt.alloc(), 16_384, &SEEN);
    expect_seen(&rt, rt.alloc(), 0, &BLIND);
}

/// A window of lookups without a hit is followed by a pause, and the next window by a pause of
/// twice the length.
#[test]
fn asks_that_save_nothing_pause(rt: HostRuntime) {
    let mut idle = Tally::new();
    let mut useful = Tally::new();
    let mut idle_asks = 0u32;
    let mut useful_asks = 0u32;
    for _ in 0..6_144 {
        if idle.asks() {
            idle.miss();
            idle_asks = idle_asks.saturating_add(1);
        }
        if useful.asks() {
            useful.hit(1);
            useful_asks = useful_asks.saturating_add(1);
        }
    }
    assert!(rt; useful_asks == 6_144);
    assert!(rt; idle_asks > 3_000 && idle_asks < 3_100);
}
