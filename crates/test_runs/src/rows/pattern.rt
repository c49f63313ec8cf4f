//! Runs with a pattern.

use crate::rows::performing::{Job, perform};
use crate::rows::streams::{Slow, bytewise, taking};
use crate::rows::{Ran, expect_ran};
use rx_run::{
    Finish, Misfit, Named, Place, RunFault, Source, refused_argument, run_make_at, run_match_at,
};
use std::alloc::Global;
use std::process::Abort;

/// Whether a term is matched, or made from arguments.
enum Way {
    Match,
    Make,
}

/// A pattern with its kind of run, the text of a term or of arguments, and the lines.
type Row = (Way, &'static str, &'static str, &'static str);

static DONE: [Row; 16] = [
    (Way::Match, "f(<int>,<list>)", "f(1,2,3)", "yes\n1\n[2,3]\n"),
    (Way::Match, "f(<int>,<list>)", "f(1)", "yes\n1\n[]\n"),
    (Way::Match, "f(<int>,<list>)", "f(a)", "no\n"),
    (Way::Match, "[<list>]{x}", "[1,2]{x}", "yes\n[1,2]\n"),
    (Way::Match, "a{<list>}", "a", "yes\n[]\n"),
    (Way::Match, "<str>", "a", "no\n"),
    (Way::Match, "<str>", "\"a\"{b}", "yes\n\"a\"{b}\n"),
    (Way::Match, "<int>", "7{a}", "yes\n7{a}\n"),
    (
        Way::Match,
        "f(g(<int>){<int>},<int>)",
        "f(g(1){2},3)",
        "yes\n1\n2\n3\n",
    ),
    (
        Way::Match,
        "[<list>,<list>]",
        "[[1],2,3]",
        "yes\n[1]\n[2,3]\n",
    ),
    (Way::Match, "a", "a", "yes\n"),
    (Way::Match, "a", "a{b}", "no\n"),
    (Way::Make, "f(<int>,<list>)", "[1,[2,3]]", "f(1,2,3)\n"),
    (Way::Make, "f(<int>,<list>)", "[1,[]]", "f(1)\n"),
    (Way::Make, "a", "[]{}", "a\n"),
    (
        Way::Make,
        "f(<term>){<list>}",
        "[a{b},[1,2]]",
        "f(a{b}){1,2}\n",
    ),
];

/// The text with a syntax error, and the offset.
type Outside = Option<(Source, u32)>;

/// A pattern with its kind of run, the text of a term or of arguments, the error line, and the
/// offset.
type Refused = (Way, &'static str, &'static str, &'static str, Outside);

static REFUSED: [Refused; 20] = [
    (Way::Match, "<foo>", "a", "!pattern P1\n", None),
    (Way::Match, "<int>{a}", "1", "!pattern P2\n", None),
    (Way::Match, "<int>{<foo>}", "1", "!pattern P1\n", None),
    (
        Way::Match,
        "",
        "a",
        "!pattern A\n",
        Some((Source::Pattern, 0)),
    ),
    (Way::Match, "<foo>", "f(a", "!pattern P1\n", None),
    (
        Way::Match,
        "a b",
        "f(a",
        "!pattern A\n",
        Some((Source::Pattern, 2)),
    ),
    (Way::Match, "a", "f(a", "!term A\n", Some((Source::Term, 3))),
    (Way::Match, "a", "", "!term A\n", Some((Source::Term, 0))),
    (Way::Make, "f(<int>)", "[]", "!args M1\n", None),
    (Way::Make, "f(<int>)", "[1,2]", "!args M1\n", None),
    (Way::Make, "f(<int>)", "[a]", "!args M2\n", None),
    (Way::Make, "f(<list>)", "[[a]{b}]", "!args M2\n", None),
    (Way::Make, "a", "b", "!args T1\n", None),
    (Way::Make, "a", "[]{b}", "!args T1\n", None),
    (Way::Make, "f(<int>)", "1", "!args T1\n", None),
    (Way::Make, "<foo>", "(", "!pattern P1\n", None),
    (Way::Make, "<int>{a}", "[a]", "!pattern P2\n", None),
    (
        Way::Make,
        "f(",
        "[",
        "!pattern A\n",
        Some((Source::Pattern, 2)),
    ),
    (Way::Make, "a", "[", "!args A\n", Some((Source::Args, 1))),
    (Way::Make, "a", "", "!args A\n", Some((Source::Args, 0))),
];

/// A pattern, the text of arguments, and the argument that does not fit.
type RefusedArgument = (&'static str, &'static str, Option<Misfit>);

static REFUSED_ARGUMENTS: [RefusedArgument; 8] = [
    (
        "f(<int>)",
        "[]",
        Some(Misfit::Count {
            wanted: 1,
            given: 0,
        }),
    ),
    (
        "f(<int>,<list>)",
        "[a,[],1]",
        Some(Misfit::Count {
            wanted: 2,
            given: 3,
        }),
    ),
    ("f(<int>)", "[a]", Some(Misfit::Kind { at: 0 })),
    (
        "f(<int>,<list>)",
        "[1,[a]{b}]",
        Some(Misfit::Kind { at: 1 }),
    ),
    ("f(<int>,<list>)", "[1,[a]]", None),
    ("f(<int>)", "1", None),
    ("f(<int>)", "[", None),
    ("f(<foo>)", "[]", None),
];

/// Matches the pattern of a text against the term of a text.
fn match_texts(alloc: Global, pattern: &str, mut input: &[u8]) -> Ran {
    let mut place = None;
    let mut written = Vec::new(alloc);
    let pattern = pattern.as_bytes();
    let result = run_match_at(alloc, pattern, &mut input, &mut written, &mut place);
    Ran {
        result,
        place,
        written,
    }
}

/// Makes a term from a pattern and the text of arguments.
fn make_texts(alloc: Global, pattern: &str, args: &[u8]) -> Ran {
    let mut place = None;
    let mut written = Vec::new(alloc);
    let result = run_make_at(alloc, pattern.as_bytes(), args, &mut written, &mut place);
    Ran {
        result,
        place,
        written,
    }
}

/// Runs a pattern.
fn run_texts(alloc: Global, way: &Way, pattern: &str, text: &str) -> Ran {
    match way {
        Way::Match => match_texts(alloc, pattern, text.as_bytes()),
        Way::Make => make_texts(alloc, pattern, text.as_bytes()),
    }
}

#[test]
fn matches_and_makes(rt: HostRuntime) {
    for (way, pattern, text, lines) in &DONE {
        let ran = run_texts(rt.alloc(), way, pattern, text);
        expect_ran(&rt, &ran, Finish::Done, None, lines);
    }
}

/// Aborts the test unless a run is rejected with this line and this offset.
fn expect_refused(rt: &impl Abort, ran: &Ran, line: &str, outside: Outside) {
    let place = match outside {
        None => None,
        Some((text, at)) => Some(Place {
            text,
            rule: Named::A,
            at,
        }),
    };
    expect_ran(rt, ran, Finish::Refused, place, line);
}

#[test]
fn refused_matches_and_makes(rt: HostRuntime) {
    for (way, pattern, text, line, outside) in &REFUSED {
        let ran = run_texts(rt.alloc(), way, pattern, text);
        expect_refused(&rt, &ran, line, *outside);
    }
}

/// A pattern, the end of a match with the term `a`, and the number of reads.
static READS: [(&str, Finish, usize); 5] = [
    ("<foo>", Finish::Refused, 0),
    ("<int>{a}", Finish::Refused, 0),
    ("", Finish::Refused, 0),
    ("f(a", Finish::Refused, 0),
    ("a", Finish::Done, 2),
];

/// Returns the end of a match with a term that is read.
fn ended(alloc: Global, pattern: &str, input: &mut Slow<'_>) -> Result<Finish, RunFault> {
    let job = Job::Match(pattern.as_bytes());
    perform(alloc, job, input, &mut bytewise(""), &mut taking(alloc))
}

#[test]
fn unread_inputs(rt: HostRuntime) {
    for (pattern, finish, reads) in &READS {
        let mut input = bytewise("a");
        let ended = ended(rt.alloc(), pattern, &mut input);
        assert!(rt; ended == Ok(*finish) && input.reads == *reads, "{pattern}");
    }
}

/// Returns the argument that is rejected. This wrapper has no contract.
fn argument_refused_in(
    alloc: Global,
    pattern: &str,
    args: &str,
) -> Result<Option<Misfit>, RunFault> {
    refused_argument(alloc, pattern.as_bytes(), args.as_bytes())
}

#[test]
fn tells_the_refused_argument(rt: HostRuntime) {
    for (pattern, args, wanted) in &REFUSED_ARGUMENTS {
        let found = argument_refused_in(rt.alloc(), pattern, args);
        assert!(rt; found == Ok(*wanted), "{pattern} {args}");
    }
}
