//! Tests of progress lines and profiles.

use crate::numbered::TermNumber;
use crate::profile::Profile;
use crate::progress::{Display, Progress};
use crate::tests::outcome::STUCK;
use crate::tests::{ADDITION, Row, run};
use rec_run::{Profiler, RuleCount, Tally};
use rec_sorts::{Checked, check};
use rec_syntax::read_spec;
use recw_cli::TermChoice;
use std::alloc::Global;
use std::cell::Cell;
use std::io;
use std::io::ErrorKind;
use std::process::Abort;
use std::rt::Files;
use std::time::{Clock, Duration};

/// A clock that advances each time it is read, or that has no time.
#[derive(Drop)]
struct Ticking {
    /// Its next time, in milliseconds.
    now: Cell<u64>,
    /// The milliseconds by which it advances; 0 if it has no time.
    step: u64,
}

impl Clock for Ticking {
    fn monotonic(&self) -> io::Result<Duration> {
        if self.step == 0 {
            return Err(io::Error::from(ErrorKind::Other));
        }
        let now = self.now.get();
        self.now.set(now.saturating_add(self.step));
        Ok(Duration::from_millis(now))
    }

    fn since_1970(&self) -> io::Result<Duration> {
        Ok(Duration::ZERO)
    }
}

/// Returns a clock that advances by this number of milliseconds.
fn clock_of(step: u64) -> Ticking {
    Ticking {
        now: Cell::new(0),
        step,
    }
}

/// The milliseconds by which the clock advances, the number of progress reports, and the expected
/// number of lines: the first after a second, and then one each tenth of a second.
const TIMES: [(u64, u32, usize); 7] = [
    (400, 3, 0),
    (400, 5, 2),
    (1000, 2, 0),
    (1001, 2, 1),
    // at 1050 and 1200
    (50, 26, 2),
    (100, 14, 2),
    (0, 100, 0),
];

/// The line for a term with this number of steps left, and the bytes that clear it.
const LINE: &[u8] = b"\rrecw: term 1: 12,345,678 of 1,000,000,000 steps, 262,144 cells\x1b[K";

const WIPED: &[u8] = b"\r\x1b[K";

/// Returns what is shown of a run in which all terms are evaluated.
fn display_of(is_asked: bool, steps: u64, width: usize) -> Display {
    Display {
        is_asked,
        steps,
        width,
        first: TermNumber::first(TermChoice::All),
    }
}

/// Checks that the line is shown this number of times and then cleared; not at all if progress is
/// not requested.
fn shows(rt: &impl Abort, alloc: Global, step: u64, told: u32, shown: usize) -> io::Result<()> {
    let clock = clock_of(step);
    let mut err = Vec::new(alloc);
    let mut progress = Progress::new(alloc, &clock, display_of(true, 1_000_000_000, 80));
    let mut silent = Progress::new(alloc, &clock, display_of(false, 1_000_000_000, 80));
    for _ in 0..told {
        progress.show(987_654_322, 262_144, &mut err);
        silent.show(987_654_322, 262_144, &mut err);
    }
    progress.end_term(&mut err);
    progress.end_term(&mut err);
    silent.end_term(&mut err);
    let mut wanted = Vec::new(alloc);
    for _ in 0..shown {
        wanted.extend_from_slice(LINE)?;
    }
    if shown > 0 {
        wanted.extend_from_slice(WIPED)?;
    }
    assert!(rt; err.as_slice() == wanted.as_slice(), "{step} {told}");
    Ok(())
}

#[test]
fn shows_how_far_a_term_is(rt: HostRuntime) -> io::Result<()> {
    for (step, told, shown) in &TIMES {
        shows(&rt, rt.alloc(), *step, *told, *shown)?;
    }
    Ok(())
}

/// The lines of the second and the third of three terms.
const SECOND: &[u8] = b"\rrecw: term 2: 0 of 1,000 steps, 999 cells\x1b[K\r\x1b[K\
    \rrecw: term 3: 1,000 of 1,000 steps, 1,073,741,824 cells\x1b[K\r\x1b[K";

#[test]
fn shows_which_term_it_is(rt: HostRuntime) {
    let clock = clock_of(2000);
    let mut err = Vec::new(rt.alloc());
    let mut progress = Progress::new(rt.alloc(), &clock, display_of(true, 1000, 80));
    progress.show(999, 1, &mut err);
    progress.end_term(&mut err);
    progress.show(1000, 999, &mut err);
    progress.end_term(&mut err);
    progress.show(0, 1_073_741_824, &mut err);
    progress.end_term(&mut err);
    assert!(&rt; err.as_slice() == SECOND);
}

/// Which terms are evaluated, and the name of the second of them.
const CHOICES: [(TermChoice, &str); 3] = [
    (TermChoice::All, "term 2"),
    (TermChoice::Input, "input term 2"),
    (TermChoice::Nth(7), "term 8"),
];

#[test]
fn counts_the_terms_that_are_evaluated(rt: HostRuntime) -> io::Result<()> {
    for (terms, name) in &CHOICES {
        let second = TermNumber::first(*terms).after(1);
        let said = format!(in rt.alloc(); "{second}")?;
        assert!(&rt; said.as_str() == *name, "{said}");
    }
    Ok(())
}

/// The columns of a terminal, and the line of a term of a step on it, with the bytes that clear it.
const WIDTHS: [(usize, &[u8]); 4] = [
    (
        42,
        b"\rrecw: term 1: 1 of 1,000 steps, 999 cells\x1b[K\r\x1b[K",
    ),
    (
        41,
        b"\rrecw: term 1: 1 of 1,000 steps, 999 cell\x1b[K\r\x1b[K",
    ),
    (13, b"\rrecw: term 1\x1b[K\r\x1b[K"),
    (1, b"\r\x1b[K\r\x1b[K"),
];

#[test]
fn cuts_lines_to_the_terminal(rt: HostRuntime) {
    let clock = clock_of(2000);
    for (width, line) in &WIDTHS {
        let mut err = Vec::new(rt.alloc());
        let mut progress = Progress::new(rt.alloc(), &clock, display_of(true, 1000, *width));
        progress.show(999, 1, &mut err);
        progress.show(999, 999, &mut err);
        progress.end_term(&mut err);
        assert!(&rt; err.as_slice() == *line, "{width}");
    }
}

/// The counts of the rules of the addition.
const COUNTS: &[RuleCount] = &[
    RuleCount {
        matched: 1,
        fired: 1,
        failed: 0,
    },
    RuleCount {
        matched: 20,
        fired: 4,
        failed: 15,
    },
];

/// The totals.
const TALLY: Tally = Tally {
    steps: 28,
    remembered: 2,
    saved: 7,
    made: 40,
    most: 9,
    reclaims: 5,
};

/// The profile of both, and the same on a terminal.
const PROFILES: [(Option<usize>, &str); 3] = [
    (
        None,
        "profile: 1:118: 20 matched, 4 applied, 15 failed\tplus(s(X),Y) -> s(plus(X,Y))\n\
         profile: 1:103: 1 matched, 1 applied, 0 failed\tplus(z,Y) -> Y\n\
         profile: steps: 28 spent, 21 matched, 7 saved by 2 memo hits\n\
         profile: cells: 40 made, 9 in use at most\nprofile: garbage collections: 5\n",
    ),
    (
        Some(80),
        "profile: 1:118: 20 matched, 4 applied, 15 failed  plus(s(X),Y) -> s(plus(X,Y))\n\
         profile: 1:103:  1 matched, 1 applied,  0 failed  plus(z,Y) -> Y\n\
         profile: steps: 28 spent, 21 matched, 7 saved by 2 memo hits\n\
         profile: cells: 40 made, 9 in use at most\nprofile: garbage collections: 5\n",
    ),
    (
        Some(75),
        "profile: 1:118: 20 matched, 4 applied, 15 failed  plus(s(X),Y) -> s(plu...\n\
         profile: 1:103:  1 matched, 1 applied,  0 failed  plus(z,Y) -> Y\n\
         profile: steps: 28 spent, 21 matched, 7 saved by 2 memo hits\n\
         profile: cells: 40 made, 9 in use at most\nprofile: garbage collections: 5\n",
    ),
];

/// Returns the specification of the addition.
fn addition(rt: &impl Abort, alloc: Global) -> Checked {
    let Ok(syntax) = read_spec(alloc, ADDITION.as_bytes()) else {
        return rt.abort();
    };
    match check(alloc, syntax) {
        Ok(checked) => checked,
        Err(_) => rt.abort(),
    }
}

/// Compares the profile of these counts, on a terminal with this number of columns if there is one.
fn profiles(
    rt: &impl Abort,
    alloc: Global,
    counts: &[RuleCount],
    columns: Option<usize>,
    wanted: &str,
) {
    let checked = addition(rt, alloc);
    let mut told = Vec::new(alloc);
    let mut silent = Profile::new(alloc, false, columns, &mut told);
    silent.conclude(&checked, counts, TALLY);
    let mut profile = Profile::new(alloc, true, columns, &mut told);
    profile.conclude(&checked, counts, TALLY);
    assert!(rt; told.as_slice() == wanted.as_bytes(), "{wanted}");
}

#[test]
fn tells_what_a_run_took(rt: HostRuntime) {
    for (columns, wanted) in &PROFILES {
        profiles(&rt, rt.alloc(), COUNTS, *columns, *wanted);
    }
    profiles(&rt, rt.alloc(), &[], None, "profile: out of memory\n");
}

/// Runs with messages, of which the beginning and the end of standard error are known.
const RUNS: [(Row, &str); 6] = [
    (
        (
            &["eval", "--profile", "--memo", "0"],
            ADDITION,
            0,
            "s(s(s(z)))\n",
            "profile: 1:118: 2 matched, 2 applied, 0 failed\tplus(s(X),Y) -> s(plus(X,Y))\n\
             profile: 1:103: 1 matched, 1 applied, 0 failed\tplus(z,Y) -> Y\n\
             profile: steps: 3 spent, 3 matched, 0 saved by 0 memo hits\nprofile: cells: ",
        ),
        "\nprofile: garbage collections: 0\n",
    ),
    (
        (
            &["eval", "--profile", "--steps", "2", "--memo", "0"],
            ADDITION,
            0,
            "!limit 2\n",
            "profile: 1:118: 2 matched, 2 applied, 0 failed\tplus(s(X),Y) -> s(plus(X,Y))\n\
             profile: 1:103: 0 matched, 0 applied, 0 failed\tplus(z,Y) -> Y\n\
             profile: steps: 2 spent, 2 matched, 0 saved by 0 memo hits\nprofile: cells: ",
        ),
        "\nprofile: garbage collections: 0\n",
    ),
    (
        (
            &["eval", "--profile", "--cells", "3"],
            ADDITION,
            3,
            "",
            "profile: 1:103: 0 matched, 0 applied, 0 failed\tplus(z,Y) -> Y\n\
             profile: 1:118: 0 matched, 0 applied, 0 failed\tplus(s(X),Y) -> s(plus(X,Y))\n\
             profile: steps: 0 spent, 0 matched, 0 saved by 0 memo hits\nprofile: cells: ",
        ),
        "\nrecw: out of cells\n",
    ),
    (
        (
            &["eval", "--profile"],
            "REC-SPEC E SORTS : END-SPEC",
            1,
            "!spec G\n",
            "recw: spec G at byte 17\n",
        ),
        "recw: spec G at byte 17\n",
    ),
    (
        (
            &[
                "eval",
                "--stuck",
                "--profile",
                "--progress",
                "--memo",
                "0",
                "-e",
                "f(s(z))",
            ],
            STUCK,
            5,
            "f(z)\nf(s(z))\n",
            "profile: 1:91: 1 matched, 0 applied, 1 failed\tf(s(X)) -> X if X -><- s(z)\n\
             profile: steps: 1 spent, 1 matched, 0 saved by 0 memo hits\nprofile: cells: ",
        ),
        "\nprofile: garbage collections: 0\nstuck: term 1: f(z): no rule matches\n\
         stuck: term 2: f(s(z)): the conditions of 1:91 fail\n",
    ),
    (
        (
            &["eval", "--stuck", "--profile", "--cells", "3"],
            STUCK,
            3,
            "",
            "profile: 1:91: 0 matched, 0 applied, 0 failed\tf(s(X)) -> X if X -><- s(z)\n\
             profile: steps: 0 spent, 0 matched, 0 saved by 0 memo hits\nprofile: cells: ",
        ),
        "\nrecw: out of cells\n",
    ),
];

/// Compares the results of a run, and the beginning and the end of standard error.
fn tells<H: Abort + Files>(rt: &H, alloc: Global, row: &Row, end: &str) {
    let (words, text, status, out, front) = *row;
    let ran = run(rt, alloc, words, text);
    let is_told = ran.err().starts_with(front) && ran.err().ends_with(end);
    assert!(rt;
        ran.status == status && ran.out() == out && is_told,
        "{words:?}: {}",
        ran.err()
    );
}

#[test]
fn tells_of_runs(rt: HostRuntime) {
    for (row, end) in &RUNS {
        tells(&rt, rt.alloc(), row, end);
    }
}

/// With both options, the profile is written first, and the rest is as with the other option alone.
fn tells_both<H: Abort + Files>(rt: &H, alloc: Global, text: &str) -> io::Result<()> {
    let took = run(rt, alloc, &["eval", "--profile"], text);
    let calls = run(rt, alloc, &["eval", "--stuck"], text);
    let both = run(rt, alloc, &["eval", "--profile", "--stuck"], text);
    let told = format!(in alloc; "{}{}", took.err(), calls.err())?;
    assert!(rt;
        both.status == calls.status && both.out() == calls.out() && both.err() == told.as_str(),
        "{}",
        both.err()
    );
    Ok(())
}

#[test]
fn tells_of_calls_behind_a_profile(rt: HostRuntime) -> io::Result<()> {
    for text in &[ADDITION, STUCK] {
        tells_both(&rt, rt.alloc(), *text)?;
    }
    Ok(())
}
