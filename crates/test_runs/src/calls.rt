//! The calls of the C library with enough memory, and their results, which were derived by hand.

ghost use Rattle.std.specs.Prelude.{◌≡◌, None};
ghost use Rattle.psilt_core.specs.Handles.{work_of};

mod asking;
mod rows;

use asking::{Row, ask};
use psilt_core::{Fault, Psilt, Work};
use std::alloc::Global;
use std::process::Abort;

/// Makes a store with this capacity.
fn store(rt: &impl Abort, alloc: Global, cells: u32) -> Box<Work> {
    Work::new(alloc, cells).expect(rt, "a store")
}

/// Runs test cases on an empty store.
fn ask_anew(rt: &impl Abort, alloc: Global, cells: u32, rows: &[Row]) {
    ask(rt, alloc, &mut store(rt, alloc, cells), rows);
}

/// The capacities of stores, and the test cases for each.
const ASKED: [(u32, &[Row]); 11] = [
    (100, &rows::MAKES),
    (100, &rows::PARTS),
    (100, &rows::KEEPS),
    (1_000, &rows::EVALUATES),
    (1_000, &rows::REMEMBERS),
    (100, &rows::MATCHES),
    (100, &rows::REFUSED_PATTERNS),
    (100, &rows::FORGETS_BINDINGS),
    (100, &rows::APPLIES),
    (100, &rows::CALLS),
    (100, &rows::TABLES),
];

#[test]
fn calls_of_a_store(rt: HostRuntime) {
    for (cells, rows) in &ASKED {
        ask_anew(&rt, rt.alloc(), *cells, rows);
    }
}

/// Returns whether a buffer receives the text `f`, and its second byte is unchanged.
fn is_copied(work: &Work) -> bool {
    let mut buffer = *b"##";
    work.copy(&mut buffer) == Ok(()) && buffer == *b"f#"
}

/// Returns whether a buffer that is too short is an error.
fn is_too_short(work: &Work) -> bool {
    work.copy(&mut []) == Err(Fault::Range)
}

/// Tests errors of texts, and a buffer that is too short.
fn refuses(rt: &impl Abort, alloc: Global, work: &mut Work) {
    ask(rt, alloc, work, &rows::REFUSES);
    assert!(rt; is_copied(work));
    assert!(rt; is_too_short(work));
}

#[test]
fn texts_are_refused(rt: HostRuntime) {
    refuses(&rt, rt.alloc(), &mut store(&rt, rt.alloc(), 100));
}

/// Returns whether nothing can be taken out of a handle, which is closed afterwards.
fn is_closed(alloc: Global, psilt: &mut Psilt) -> bool
    ensures { work_of psilt.new ≡ None }
{
    psilt.take(alloc).is_none()
}

/// Returns whether an integer can be made.
fn makes_one(work: &mut Work) -> bool {
    work.int(1).is_ok()
}

/// Checks that the contents of a handle can be taken out once, and used.
fn opens_and_closes(rt: &impl Abort, alloc: Global, psilt: &mut Psilt) {
    assert!(rt; is_closed(alloc, psilt));
    psilt.put(store(rt, alloc, 10));
    let mut work = psilt.take(alloc).expect(rt, "a store");
    assert!(rt; is_closed(alloc, psilt));
    assert!(rt; makes_one(&mut work));
}

/// Returns whether a store with this capacity is an error.
fn is_refused(alloc: Global, cells: u32) -> bool {
    Work::new(alloc, cells).is_err()
}

#[test]
fn a_handle_is_opened_and_closed(rt: HostRuntime) {
    opens_and_closes(&rt, rt.alloc(), &mut Psilt::new());
    assert!(&rt; is_refused(rt.alloc(), 0));
    assert!(&rt; is_refused(rt.alloc(), 1_073_741_825));
}
