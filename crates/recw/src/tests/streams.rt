//! Tests of named files, and of inputs and outputs that fail.

use crate::program::program;
use crate::shelf::Shelf;
use crate::tests::{ADDITION, Ran, Row, run_over};
use recw_cli::{Console, failed_start};
use std::alloc::Global;
use std::io;
use std::io::{ErrorKind, Read, Write};
use std::process::Abort;
use std::rt::Files;

/// A reader that must not be used.
#[derive(Drop)]
struct Unread;

impl Read for Unread {
    fn read(&mut self, _buf: &mut [u8]) -> io::Result<usize> {
        Err(io::Error::from(ErrorKind::Other))
    }
}

/// A specification and terms for it.
pub(crate) const FILES: Shelf = Shelf {
    spec: ADDITION,
    terms: "[plus(z,s(z))]",
};

/// Runs on named files. Standard input must not be read, except in one of them.
pub(crate) const NAMED: &[Row] = &[
    (&["eval", "spec"], "", 0, "s(s(s(z)))\n", ""),
    (&["eval", "spec", "terms"], "", 0, "s(s(s(z)))\ns(z)\n", ""),
    (
        &["eval", "spec", "terms", "--only-terms"],
        "",
        0,
        "s(z)\n",
        "",
    ),
    (
        &["eval", "spec", "--term", "2", "terms"],
        "",
        0,
        "s(z)\n",
        "",
    ),
    (
        &["eval", "spec", "--term", "3", "terms"],
        "",
        2,
        "",
        "error: there is no term 3; this run has 2\n\nFor more information, try '--help'.\n",
    ),
    (
        &["eval", "terms", "spec"],
        "",
        1,
        "!spec G\n",
        "recw: spec G at byte 0\n",
    ),
    (
        &["eval", "spec", "spec"],
        "",
        1,
        "!terms A\n",
        "recw: terms A at byte 9\n",
    ),
    (&["serve", "spec", "terms"], "", 0, "!term T2\n", ""),
    (
        &["serve", "--count", "spec", "spec"],
        "",
        0,
        "!term A\n",
        "",
    ),
    (
        &["serve", "spec", "--explain", "terms"],
        "",
        0,
        "!term T2\n",
        "terms:1:1: T2: integer, list or placeholder as a subterm of an input term; \
         found a list\n    [plus(z,s(z))]\n    ^\n",
    ),
    (
        &["serve", "terms", "spec"],
        "",
        1,
        "!spec G\n",
        "recw: spec G at byte 0\n",
    ),
    (&["serve", "spec"], "", 4, "", "recw: read failed\n"),
    (&["serve", "spec", "none"], "", 4, "", "recw: read failed\n"),
    (&["join", "spec", "none"], "", 4, "", "recw: read failed\n"),
    (
        &["join", "spec", "terms"],
        "",
        1,
        "terms:1:1: error: syntax error in the specification [G]\n",
        "",
    ),
    (
        &["check", "--join", "spec", "terms"],
        "",
        1,
        "terms:1:1: error: syntax error in the specification [G]\n",
        "",
    ),
    (
        &["check", "--join", "spec", "--explain", "terms"],
        "",
        1,
        "terms:1:1: error: syntax error in the specification [G]\n    \
         [plus(z,s(z))]\n    ^\n    expected `REC-SPEC`\n",
        "",
    ),
    (
        &["check", "--format", "json", "--join", "terms", "spec"],
        "",
        1,
        "{\"file\":\"terms\",\"line\":1,\"column\":1,\"end_line\":1,\"end_column\":2,\
         \"severity\":\"error\",\"code\":\"G\",\"message\":\"syntax error in the specification\",\
         \"expected\":[\"`REC-SPEC`\"],\"suggestion\":null}\n",
        "",
    ),
    (
        &["eval", "--join", "spec", "spec"],
        "",
        1,
        "!spec S1\n",
        "recw: spec S1 at byte 19\n",
    ),
    (
        &["eval", "--explain", "--join", "terms", "spec"],
        "",
        1,
        "!spec G\n",
        "recw: spec G at byte 0\nterms:1:1: G: syntax error in the specification; \
         expected `REC-SPEC`\n    [plus(z,s(z))]\n    ^\n",
    ),
    (
        &["trace", "spec", "terms", "--last", "1"],
        "",
        0,
        "... 2 more\n1:103: plus(z,s(z)) -> s(z)\ns(s(s(z)))\n\
         1:103: plus(z,s(z)) -> s(z)\ns(z)\n",
        "",
    ),
    (
        &["trace", "spec", "spec"],
        "",
        1,
        "!terms A\n",
        "recw: terms A at byte 9\n",
    ),
    (&["trace", "spec", "-"], "", 4, "", "recw: read failed\n"),
    (&["aterm", "terms"], "", 0, "[plus(z,s(z))]\n", ""),
    (&["share", "terms"], "", 0, "[plus(z,s(z))]\ncells 8\n", ""),
    (
        &["match", "[<appl>]", "terms"],
        "",
        0,
        "yes\nplus(z,s(z))\n",
        "",
    ),
    (&["aterm", "-"], "", 4, "", "recw: read failed\n"),
    (&["eval"], "", 4, "", "recw: read failed\n"),
];

/// Runs the program on these files, with a standard input that must not be read.
pub(crate) fn run_on(files: &Shelf, alloc: Global, words: &[&str]) -> Ran {
    run_over(files, alloc, words, &mut Unread)
}

/// A writer that fails at each write if it is full, and otherwise at each flush.
#[derive(Clone, Copy, Drop)]
struct Failing {
    /// Whether it fails at each write.
    is_full: bool,
    /// The error.
    kind: ErrorKind,
}

impl Write for Failing {
    fn write(&mut self, buf: &[u8]) -> io::Result<usize> {
        if self.is_full {
            return Err(io::Error::from(self.kind));
        }
        Ok(buf.len())
    }

    fn flush(&mut self) -> io::Result<()> {
        if self.is_full {
            return Ok(());
        }
        Err(io::Error::from(self.kind))
    }
}

/// Whether the output is full, and arguments for each kind of run. The last step of each is a
/// flush.
const WRITES: [(bool, &[&str]); 10] = [
    (true, &["--help"]),
    (true, &["eval"]),
    (false, &["--help"]),
    (false, &["eval"]),
    (false, &["trace", "-"]),
    (false, &["aterm"]),
    (false, &["share"]),
    (false, &["share", "--dot"]),
    (false, &["match", "<term>"]),
    (false, &["make", "<int>", "[1]"]),
];

/// Checks that a run with a failing output has status 4 and this standard error.
fn fails_to_write<H: Abort + Files>(
    rt: &H,
    alloc: Global,
    failing: Failing,
    words: &[&str],
    told: &str,
) {
    let mut err = Console::new(Vec::new(alloc), false);
    let mut input = ADDITION.as_bytes();
    let mut out = failing;
    let status = program(rt, alloc, words, &mut input, &mut out, &mut err);
    let err = err.into_inner();
    let is_told = status == 4 && err.as_slice() == told.as_bytes();
    assert!(rt; is_told, "{words:?}");
}

#[test]
fn reports_a_failing_output(rt: HostRuntime) {
    let kind = ErrorKind::StorageFull;
    for (is_full, words) in &WRITES {
        let is_full = *is_full;
        let failing = Failing { is_full, kind };
        fails_to_write(&rt, rt.alloc(), failing, words, "recw: write failed\n");
    }
}

/// If the reader of the output goes away, there is no message.
#[test]
fn is_quiet_about_a_closed_pipe(rt: HostRuntime) {
    let kind = ErrorKind::BrokenPipe;
    for (is_full, words) in &WRITES {
        let is_full = *is_full;
        fails_to_write(&rt, rt.alloc(), Failing { is_full, kind }, words, "");
    }
}

/// The message about a closed pipe.
const CLOSED: &str = "recw: write failed\n<stdout>: broken pipe\n";

#[test]
fn explains_a_closed_pipe(rt: HostRuntime) {
    let is_full = true;
    let kind = ErrorKind::BrokenPipe;
    let words = &["eval", "--explain"];
    fails_to_write(&rt, rt.alloc(), Failing { is_full, kind }, words, CLOSED);
}

/// The errors of reading the arguments, the status and standard error.
const STARTS: [(ErrorKind, u8, &str); 2] = [
    (ErrorKind::OutOfMemory, 3, "recw: out of memory\n"),
    (
        ErrorKind::InvalidData,
        2,
        "error: an argument is not valid UTF-8\n\nFor more information, try '--help'.\n",
    ),
];

/// Compares the report of an error in reading the arguments.
fn tells_of(rt: &impl Abort, alloc: Global, kind: ErrorKind, status: u8, said: &str) {
    let mut err = Vec::new(alloc);
    let got = failed_start(&io::Error::from(kind), &mut err);
    let is_told = got == status && err.as_slice() == said.as_bytes();
    assert!(rt; is_told, "{said}");
}

#[test]
fn tells_why_there_are_no_words(rt: HostRuntime) {
    for (kind, status, said) in &STARTS {
        tells_of(&rt, rt.alloc(), *kind, *status, said);
    }
}
