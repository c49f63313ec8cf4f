//! Runs that print a term or count its cells.

use crate::rows::{Ran, expect_ran};
use rx_run::{Finish, Named, Place, Source, run_aterm_at, run_share_at};
use std::alloc::Global;
use std::process::Abort;

/// Whether cells are counted, a text of a term, and the lines.
type Row = (bool, &'static str, &'static str);

static PRINTED: [Row; 14] = [
    (false, "f ( a , [ 1 , -007 ] ) { b }", "f(a,[1,-7]){b}\n"),
    (false, "f()", "f\n"),
    (false, "()", "()\n"),
    (false, "a{}", "a\n"),
    (false, "2147483647", "2147483647\n"),
    (false, "-2147483648", "-2147483648\n"),
    (false, "-0", "0\n"),
    (false, "\"a\\012\\\"\\377\"", "\"a\\n\\\"\\377\"\n"),
    (false, "\"\u{e9}\"", "\"\\303\\251\"\n"),
    (false, "<7>{7}", "<7>{7}\n"),
    (true, "f(a,a)", "f(a,a)\ncells 5\n"),
    (true, "[1,[1]]", "[1,[1]]\ncells 5\n"),
    (true, "a{b}", "a{b}\ncells 4\n"),
    (true, "[a]{b}", "[a]{b}\ncells 5\n"),
];

/// Texts with a syntax error, and its offset.
static OUTSIDE: [(&str, u32); 9] = [
    ("", 0),
    ("2147483648", 0),
    ("1.5", 1),
    ("\"\\8\"", 0),
    ("f(a,)", 4),
    ("a b", 2),
    ("[1,2147483648]", 3),
    ("f(a", 3),
    ("a{b}{c}", 4),
];

const REFUSAL: &str = "!term A\n";

/// Prints the term of a text.
fn print(alloc: Global, mut text: &[u8]) -> Ran {
    let mut place = None;
    let mut written = Vec::new(alloc);
    let result = run_aterm_at(alloc, &mut text, &mut written, &mut place);
    Ran {
        result,
        place,
        written,
    }
}

/// Prints the term of a text and its number of cells.
fn share(alloc: Global, mut text: &[u8]) -> Ran {
    let mut place = None;
    let mut written = Vec::new(alloc);
    let result = run_share_at(alloc, &mut text, &mut written, &mut place);
    Ran {
        result,
        place,
        written,
    }
}

/// Prints the term of a text and, if `counts`, its number of cells.
fn print_or_share(alloc: Global, counts: bool, text: &str) -> Ran {
    if counts {
        share(alloc, text.as_bytes())
    } else {
        print(alloc, text.as_bytes())
    }
}

#[test]
fn printed_and_counted(rt: HostRuntime) {
    for (counts, text, lines) in &PRINTED {
        let ran = print_or_share(rt.alloc(), *counts, text);
        expect_ran(&rt, &ran, Finish::Done, None, lines);
    }
}

/// Aborts the test unless a text is rejected at this offset.
fn expect_outside(rt: &impl Abort, ran: &Ran, at: u32) {
    let due = Place {
        text: Source::Term,
        rule: Named::A,
        at,
    };
    expect_ran(rt, ran, Finish::Refused, Some(due), REFUSAL);
}

#[test]
fn outside(rt: HostRuntime) {
    for (text, at) in &OUTSIDE {
        expect_outside(&rt, &print(rt.alloc(), text.as_bytes()), *at);
        expect_outside(&rt, &share(rt.alloc(), text.as_bytes()), *at);
    }
}

const WHOLE: &[u8] = b"f(a,[1,-7]){b}";

/// Aborts the test unless a prefix of the whole text is printed with something after it if it is a
/// term, or is rejected otherwise.
fn expect_front(rt: &impl Abort, ran: &Ran, front: &[u8]) {
    let written = ran.written.as_slice();
    let (finish, is_due) = if front.len() == 1 || front.len() == 11 {
        let goes_on = written.len() > front.len() && written.starts_with(front);
        (Finish::Done, goes_on)
    } else {
        (Finish::Refused, written == REFUSAL.as_bytes())
    };
    assert!(rt; ran.result == Ok(finish) && is_due);
}

#[test]
fn proper_prefixes(rt: HostRuntime) {
    for count in 0..WHOLE.len() {
        let front = &WHOLE[..count];
        expect_front(&rt, &print(rt.alloc(), front), front);
    }
}
