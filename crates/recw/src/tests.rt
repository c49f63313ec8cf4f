//! Tests of the whole program: arguments and texts in; exit status, standard output and standard
//! error out.
//!
//! Most tests are tables of `Row`s. The modules are: `help` and `refused` (help and usage errors),
//! `words` and `outcome` (output and exit statuses), `given` and `streams` (sources of input,
//! failing streams), `explained`, `named`, `hinted`, `shown` and `checked` (explanations), `told`
//! (progress and profiles), `prompts` (standard input on a terminal), `fields` (options).

mod checked;
mod explained;
mod fields;
mod given;
mod help;
mod hinted;
mod named;
mod outcome;
mod prompts;
mod refused;
mod shown;
mod streams;
mod told;
mod words;

use crate::program::program;
use crate::screen::{Look, Screen};
use crate::shelf::Shelf;
use rec_run::Unwatched;
use recw_cli::{Audience, Console, Request};
use std::alloc::Global;
use std::io::{Read, Sink, Write};
use std::process::Abort;
use std::rt::Files;

/// A specification that adds two and one.
pub(crate) const ADDITION: &str =
    "REC-SPEC Add SORTS Nat CONS z : -> Nat s : Nat -> Nat OPNS plus : Nat Nat -> Nat \
     VARS X Y : Nat RULES plus(z,Y) -> Y plus(s(X),Y) -> s(plus(X,Y)) \
     EVAL plus(s(s(z)),s(z)) END-SPEC";

/// The results of a run of the program.
#[derive(Drop)]
pub(crate) struct Ran {
    /// The exit status.
    status: u8,
    /// Its standard output.
    out: Vec<u8>,
    /// Its standard error.
    err: Vec<u8>,
}

impl Ran {
    /// Returns the standard output as a text.
    pub(crate) fn out(&self) -> &str {
        text_of(self.out.as_slice())
    }

    /// Returns the standard error as a text.
    pub(crate) fn err(&self) -> &str {
        text_of(self.err.as_slice())
    }
}

/// Returns an output as a text.
fn text_of(bytes: &[u8]) -> &str {
    str::from_utf8(bytes).unwrap_or("(not UTF-8)")
}

impl<W: Write> Screen for Console<W> {
    type Progress = Unwatched;

    /// Both outputs are one terminal, or none.
    fn look(&self) -> Look {
        Look {
            is_terminal: self.is_curious(),
            has_colours: self.is_curious(),
        }
    }

    fn columns(&self) -> Option<usize> {
        if self.is_curious() { Some(80) } else { None }
    }

    fn progress(&self, _request: &Request<'_>) -> Unwatched {
        Unwatched
    }

    type Prompts = Sink;

    fn prompts(&self) -> Option<Sink> {
        None
    }
}

/// Runs the program with this text as its standard input.
pub(crate) fn run<H: Files>(rt: &H, alloc: Global, words: &[&str], text: &str) -> Ran {
    run_over(rt, alloc, words, &mut text.as_bytes())
}

/// Runs the program on these files and this standard input.
pub(crate) fn run_over<H: Files, R: Read>(
    files: &H,
    alloc: Global,
    words: &[&str],
    input: &mut R,
) -> Ran {
    run_before(files, alloc, words, input, false)
}

/// Runs the program with standard error that is a terminal, or not.
pub(crate) fn run_before<H: Files, R: Read>(
    files: &H,
    alloc: Global,
    words: &[&str],
    input: &mut R,
    is_curious: bool,
) -> Ran {
    let mut out = Vec::new(alloc);
    let mut err = Console::new(Vec::new(alloc), is_curious);
    let status = program(files, alloc, words, input, &mut out, &mut err);
    let err = err.into_inner();
    Ran { status, out, err }
}

/// A test case: the arguments, the standard input, the status and the two outputs.
pub(crate) type Row = (
    &'static [&'static str],
    &'static str,
    u8,
    &'static str,
    &'static str,
);

/// Compares the results of a run with a test case.
pub(crate) fn leaves(rt: &impl Abort, row: &Row, ran: &Ran) {
    let (words, _, status, out, err) = *row;
    let as_said = ran.status == status && ran.out() == out && ran.err() == err;
    assert!(rt; as_said, "{words:?}: {}{}", ran.out(), ran.err());
}

/// Runs the program for each test case, with its text as standard input.
fn all_leave<H: Abort + Files>(rt: &H, alloc: Global, rows: &[Row]) {
    for row in rows {
        leaves(rt, row, &run(rt, alloc, row.0, row.1));
    }
}

/// The test cases with texts on standard input: help, and the output of each command.
const TABLES: [&[Row]; 5] = [
    help::HELPS,
    words::STATUSES,
    words::TRACES,
    words::TERMS,
    words::PATTERNS,
];

#[test]
fn answers_and_writes(rt: HostRuntime) {
    for rows in &TABLES {
        all_leave(&rt, rt.alloc(), rows);
    }
}

/// The test cases with texts on standard input: explanations, input terms and exit statuses.
const REPORTS: [&[Row]; 4] = [
    explained::INPUTS,
    checked::FORMS,
    given::WORDS,
    outcome::STATUSES,
];

#[test]
fn explains_and_reports(rt: HostRuntime) {
    for rows in &REPORTS {
        all_leave(&rt, rt.alloc(), rows);
    }
}

/// Runs the program for each test case, on these files.
fn all_leave_on(rt: &impl Abort, alloc: Global, files: &Shelf, rows: &[Row]) {
    for row in rows {
        leaves(rt, row, &streams::run_on(files, alloc, row.0));
    }
}

/// The test cases with texts in files.
const SHELVES: [(Shelf, &[Row]); 7] = [
    (streams::FILES, streams::NAMED),
    (explained::REFUSED, explained::EXPLAINED),
    (given::FILES, given::NAMED),
    (given::TABLE, given::TABLED),
    (given::BROKEN, given::REFUSED),
    (given::REQUESTS, given::SERVED),
    (checked::PARTS, checked::JOINED),
];

#[test]
fn reads_its_files(rt: HostRuntime) {
    for (files, rows) in &SHELVES {
        all_leave_on(&rt, rt.alloc(), files, rows);
    }
}
