//! Each kind of run over readers and writers that transfer one byte in each call, with one call
//! that fails.

use crate::rows::performing::{Job, expect_held, perform};
use crate::rows::spec::NEQ;
use crate::rows::streams::{Sink, Slow, bytewise, failing, failing_at, taking, unflushed};
use crate::rows::{ADD, Q};
use rx_run::{Finish, RunFault};
use std::alloc::Global;
use std::io::ErrorKind;
use std::process::Abort;

/// Errors of readers and writers, including `Interrupted`, after which another call might succeed.
const KINDS: [ErrorKind; 3] = [
    ErrorKind::Other,
    ErrorKind::Interrupted,
    ErrorKind::OutOfMemory,
];

/// A run on two texts, of which it may read only one, with its end and its output.
struct Row {
    job: Job<'static>,
    first: &'static str,
    second: &'static str,
    finish: Finish,
    lines: &'static str,
}

static ROWS: [Row; 16] = [
    Row {
        job: Job::Alone(3),
        first: ADD,
        second: "",
        finish: Finish::Done,
        lines: "s(s(s(z)))\n",
    },
    Row {
        job: Job::Alone(2),
        first: NEQ,
        second: "",
        finish: Finish::Done,
        lines: "z\ns(z)\n",
    },
    Row {
        job: Job::Alone(3),
        first: "REC-SPEC E SORTS : END-SPEC",
        second: "",
        finish: Finish::Refused,
        lines: "!spec G\n",
    },
    Row {
        job: Job::Beside(3),
        first: Q,
        second: "[f(a){b,[3]},a{f(a)}]",
        finish: Finish::Done,
        lines: "a\na{b,[3]}\na{f(a)}\n",
    },
    Row {
        job: Job::Beside(1),
        first: Q,
        second: "[f(a){b,[3]},a{f(a)}]",
        finish: Finish::Done,
        lines: "a\na{b,[3]}\na{f(a)}\n",
    },
    Row {
        job: Job::Beside(3),
        first: Q,
        second: "[f(b)]",
        finish: Finish::Refused,
        lines: "!terms T6\n",
    },
    Row {
        job: Job::Print,
        first: "f ( a , [ 1 , -007 ] ) { b }",
        second: "",
        finish: Finish::Done,
        lines: "f(a,[1,-7]){b}\n",
    },
    Row {
        job: Job::Print,
        first: "f(a,)",
        second: "",
        finish: Finish::Refused,
        lines: "!term A\n",
    },
    Row {
        job: Job::Share,
        first: "[a]{b}",
        second: "",
        finish: Finish::Done,
        lines: "[a]{b}\ncells 5\n",
    },
    Row {
        job: Job::Share,
        first: "a{b}",
        second: "",
        finish: Finish::Done,
        lines: "a{b}\ncells 4\n",
    },
    Row {
        job: Job::Match(b"f(<int>,<list>)"),
        first: "f(1,2,3)",
        second: "",
        finish: Finish::Done,
        lines: "yes\n1\n[2,3]\n",
    },
    Row {
        job: Job::Match(b"f(<list>)"),
        first: "f(1,2,3)",
        second: "",
        finish: Finish::Done,
        lines: "yes\n[1,2,3]\n",
    },
    Row {
        job: Job::Match(b"a"),
        first: "",
        second: "",
        finish: Finish::Refused,
        lines: "!term A\n",
    },
    Row {
        job: Job::Make {
            pattern: b"f(<int>,<list>)",
            args: b"[1,[2,3]]",
        },
        first: "",
        second: "",
        finish: Finish::Done,
        lines: "f(1,2,3)\n",
    },
    Row {
        job: Job::Make {
            pattern: b"<int>",
            args: b"[1]",
        },
        first: "",
        second: "",
        finish: Finish::Done,
        lines: "1\n",
    },
    Row {
        job: Job::Make {
            pattern: b"f(<int>)",
            args: b"[a]",
        },
        first: "",
        second: "",
        finish: Finish::Refused,
        lines: "!args M2\n",
    },
];

/// Runs a test case with readers that do not fail.
fn perform_into(alloc: Global, row: &Row, out: &mut Sink) -> Result<Finish, RunFault> {
    let mut first = bytewise(row.first);
    let mut second = bytewise(row.second);
    perform(alloc, row.job, &mut first, &mut second, out)
}

#[test]
fn one_byte_a_call(rt: HostRuntime) {
    for row in &ROWS {
        let out = &mut taking(rt.alloc());
        let ended = perform_into(rt.alloc(), row, out);
        expect_held(&rt, ended, Ok(row.finish), out, row.lines.as_bytes());
    }
}

/// Aborts the test if a run continues or writes after a failed read of the first or the second
/// text.
fn expect_unread(
    rt: &impl Abort,
    alloc: Global,
    row: &Row,
    first: &mut Slow<'_>,
    second: &mut Slow<'_>,
) {
    let mut out = taking(alloc);
    let ended = perform(alloc, row.job, first, second, &mut out);
    expect_held(rt, ended, Err(RunFault::Read), &out, &[]);
}

/// Lets a read of the first text fail or, if its number is 0, one of the second. The second text is
/// not read after a failed read of the first.
fn fail_read(rt: &impl Abort, alloc: Global, row: &Row, (i, k): (usize, usize), kind: ErrorKind) {
    let mut first = failing(row.first, i, kind);
    let mut second = failing(row.second, k, kind);
    expect_unread(rt, alloc, row, &mut first, &mut second);
    assert!(rt;
        second.reads == k && (i == 0 || first.reads == i),
        "{i} {k}"
    );
}

/// Lets each read of the texts fail in turn. Arguments of `make` are not read.
fn fail_reads(rt: &impl Abort, alloc: Global, row: &Row, kind: ErrorKind) {
    if matches!(row.job, Job::Make { .. }) {
        return;
    }
    for k in 1..=row.first.len().saturating_add(1) {
        fail_read(rt, alloc, row, (k, 0), kind);
    }
    if matches!(row.job, Job::Beside(_)) {
        for k in 1..=row.second.len().saturating_add(1) {
            fail_read(rt, alloc, row, (0, k), kind);
        }
    }
}

#[test]
fn reads_fail(rt: HostRuntime) {
    for row in &ROWS {
        for kind in &KINDS {
            fail_reads(&rt, rt.alloc(), row, *kind);
        }
    }
}

/// If the write after these bytes fails, exactly these bytes were written.
fn fail_write(rt: &impl Abort, alloc: Global, row: &Row, held: &[u8], error: Option<ErrorKind>) {
    let k = held.len().wrapping_add(1);
    let mut out = failing_at(alloc, k, error);
    let ended = perform_into(alloc, row, &mut out);
    expect_held(rt, ended, Err(RunFault::Write), &out, held);
    assert!(rt; out.writes == k, "{k}");
}

/// Lets each write fail in turn.
fn fail_writes(rt: &impl Abort, alloc: Global, row: &Row, error: Option<ErrorKind>) {
    let lines = row.lines.as_bytes();
    for before in 0..lines.len() {
        fail_write(rt, alloc, row, &lines[..before], error);
    }
}

#[test]
fn writes_fail(rt: HostRuntime) {
    for row in &ROWS {
        fail_writes(&rt, rt.alloc(), row, None);
        for kind in &KINDS {
            fail_writes(&rt, rt.alloc(), row, Some(*kind));
        }
    }
}

/// If a flush fails, the lines were written.
#[test]
fn flushes_fail(rt: HostRuntime) {
    for row in &ROWS {
        for kind in &KINDS {
            let out = &mut unflushed(rt.alloc(), *kind);
            let held = row.lines.as_bytes();
            let ended = perform_into(rt.alloc(), row, out);
            expect_held(&rt, ended, Err(RunFault::Write), out, held);
        }
    }
}
