//! Tests of reading and writing texts of terms.

use crate::banks::{expect_text, plain_bank, shared_bank, term_of, text_of};
use crate::texts::{Nest, blanks, expect, push};
use rx_plain::PlainBank;
use rx_term::{Term, TermBank};
use rx_text::TokenKind::*;
use rx_text::{
    RefusedWrite, TextFault, TokenKind, WriteFault, expected_at_fault, put, read, text_front,
    write, write_within,
};
use std::alloc::Global;
use std::io;
use std::io::Write;
use std::process::Abort;

/// Texts, and the expected tokens, which begin a term.
const BEGINS: [(&str, &[TokenKind]); 8] = [
    ("", &[Integer, Name, Open, OpenBracket, Less]),
    ("<", &[Integer, Name, Open, OpenBracket, Less]),
    ("f(a,", &[Integer, Name, Open, OpenBracket, Less]),
    ("[1,", &[Integer, Name, Open, OpenBracket, Less]),
    ("(", &[Integer, Name, Open, Close, OpenBracket, Less]),
    ("f(", &[Integer, Name, Open, Close, OpenBracket, Less]),
    ("[", &[Integer, Name, Open, OpenBracket, CloseBracket, Less]),
    ("a{", &[Integer, Name, Open, OpenBracket, CloseBrace, Less]),
];

/// Texts, and the expected tokens after a term.
const BEHIND: [(&str, &[TokenKind]); 11] = [
    ("a b", &[Open, OpenBrace, End]),
    ("f(a", &[Open, Close, OpenBrace, Comma]),
    ("1 b", &[OpenBrace, End]),
    ("f() b", &[OpenBrace, End]),
    ("[] b", &[OpenBrace, End]),
    ("<a> b", &[OpenBrace, End]),
    ("a{} b", &[End]),
    ("f(a{}", &[Close, Comma]),
    ("[a{}", &[CloseBracket, Comma]),
    ("a{b{}", &[CloseBrace, Comma]),
    ("<a{}", &[Greater]),
];

/// Texts with a syntax error, and its offset.
const PLACES: [(&str, u32); 14] = [
    ("", 0),
    ("2147483648", 0),
    ("-2147483649", 0),
    ("1.5", 1),
    ("\"\\8\"", 0),
    ("f(a", 3),
    ("a{b}{c}", 4),
    ("[1,2147483648]", 3),
    ("f(a,)", 4),
    ("a b", 2),
    ("1a", 1),
    ("a'", 1),
    ("--1", 0),
    ("<a,b>", 2),
];

/// A text of a term, and its printed form.
const PRINTED: [(&str, &str); 10] = [
    ("f ( a , [ 1 , -007 ] ) { b }", "f(a,[1,-7]){b}"),
    ("f()", "f"),
    ("()", "()"),
    ("a{}", "a"),
    ("2147483647", "2147483647"),
    ("-2147483648", "-2147483648"),
    ("-0", "0"),
    ("\"a\\012\\\"\\377\"", "\"a\\n\\\"\\377\""),
    ("\"\u{e9}\"", "\"\\303\\251\""),
    ("<7>{7}", "<7>{7}"),
];

/// Returns the offset of the syntax error of a text.
fn place(alloc: Global, bank: &mut PlainBank, text: &[u8]) -> Option<u32> {
    match read(alloc, text, bank) {
        Err(TextFault::Grammar { at }) => Some(at),
        _ => None,
    }
}

fn expect_places(rt: &impl Abort, alloc: Global, bank: &mut PlainBank) {
    for (text, at) in &PLACES {
        let found = place(alloc, bank, text.as_bytes());
        expect(rt, found == Some(*at), text);
    }
}

/// Returns the printed form of the term of a text; an empty text if it is not a term.
fn printed_text(rt: &impl Abort, alloc: Global, bank: &mut PlainBank, text: &[u8]) -> Vec<u8> {
    match read(alloc, text, bank) {
        Ok(t) => text_of(rt, alloc, bank, t),
        Err(_) => Vec::new(alloc),
    }
}

fn expect_printed(rt: &impl Abort, alloc: Global, bank: &mut PlainBank) {
    for (text, wanted) in &PRINTED {
        let found = printed_text(rt, alloc, bank, text.as_bytes());
        expect(rt, found.as_slice() == wanted.as_bytes(), text);
    }
}

/// The brackets are read before a store without room for their lists is used.
fn expect_no_room(rt: &impl Abort, alloc: Global, bank: &mut PlainBank) {
    let bytes = BRACKETS.text(rt, alloc);
    assert!(rt; read(alloc, &bytes, bank) == Err(TextFault::Full));
}

/// A full store is reported as full; a text with a syntax error is reported as such.
fn fill(rt: &impl Abort, alloc: Global, bank: &mut PlainBank) {
    assert!(rt;
        read(alloc, b"[1,2,3]", bank) == Err(TextFault::Full)
            && bank.cells() == bank.cap()
            && read(alloc, b"[1,2,3", bank) == Err(TextFault::Grammar { at: 6 })
    );
}

/// Writes a term to a writer with room for this number of bytes. All of the room is used.
fn fill_with(
    rt: &impl Abort,
    alloc: Global,
    bank: &PlainBank,
    t: Term,
    left: usize,
) -> Result<(), WriteFault> {
    assert!(rt; bank.holds(t));
    let mut out = Small { left };
    let answer = write(alloc, bank, t, &mut out);
    assert!(rt; out.left == 0);
    answer
}

/// Aborts the test unless the front of a text has `most` bytes, and the text is returned if it fits.
fn expect_within(rt: &impl Abort, alloc: Global, bank: &PlainBank, t: Term, most: usize) {
    assert!(rt; bank.holds(t));
    let front = text_front(alloc, bank, t, most).expect(rt, "memory");
    assert!(rt; front.as_slice() == &b"f(a,[1])"[..most.min(8)]);
    match write_within(alloc, bank, t, most).expect(rt, "memory") {
        Some(whole) => assert!(rt; most >= 8 && whole.as_slice() == b"f(a,[1])".as_slice()),
        None => assert!(rt; most < 8),
    }
}

/// Aborts the test unless a term of eight bytes fits into eight bytes and no fewer.
fn expect_room(rt: &impl Abort, alloc: Global, bank: &mut PlainBank) {
    let t = term_of(rt, alloc, bank, b"f(a,[1])");
    for left in 0..8 {
        assert!(rt; fill_with(rt, alloc, bank, t, left) == Err(WriteFault::Write));
    }
    assert!(rt; fill_with(rt, alloc, bank, t, 8).is_ok());
    for most in 0..10 {
        expect_within(rt, alloc, bank, t, most);
    }
}

/// Tests the longest text of spaces, and one with one byte more.
fn expect_long(rt: &impl Abort, alloc: Global, bank: &mut PlainBank) {
    let mut bytes = blanks(rt, alloc, 16_777_216);
    assert!(rt; read(alloc, &bytes, bank) == Err(TextFault::Grammar { at: 16_777_216 }));
    push(rt, &mut bytes, b"a");
    assert!(rt; read(alloc, &bytes, bank) == Err(TextFault::Long));
}

/// The subject of a test of a store.
#[derive(Drop)]
enum Question {
    Places,
    Printed,
    NoRoom,
    Full,
    Room,
    Long,
}

/// Aborts the test unless a store behaves as expected.
fn ask_bank(rt: &impl Abort, alloc: Global, bank: &mut PlainBank, question: &Question) {
    match question {
        Question::Places => expect_places(rt, alloc, bank),
        Question::Printed => expect_printed(rt, alloc, bank),
        Question::NoRoom => expect_no_room(rt, alloc, bank),
        Question::Full => fill(rt, alloc, bank),
        Question::Room => expect_room(rt, alloc, bank),
        Question::Long => expect_long(rt, alloc, bank),
    }
}

/// Tests an empty store of this capacity.
fn ask(rt: &impl Abort, alloc: Global, cells: u32, question: &Question) {
    ask_bank(rt, alloc, &mut plain_bank(rt, alloc, cells), question);
}

/// The capacities of stores, and the subjects of their tests.
const ASKED: [(u32, Question); 6] = [
    (10, Question::Places),
    (1000, Question::Printed),
    (2, Question::NoRoom),
    (3, Question::Full),
    (100, Question::Room),
    (10, Question::Long),
];

#[test]
fn texts_of_terms(rt: HostRuntime) {
    for (cells, question) in &ASKED {
        ask(&rt, rt.alloc(), *cells, question);
    }
}

/// Returns the expected tokens at the syntax error of a text.
fn expected_kinds(rt: &impl Abort, alloc: Global, text: &[u8]) -> Vec<TokenKind> {
    expected_at_fault(alloc, text).expect(rt, "kinds of tokens")
}

/// Aborts the test unless the texts have these expected tokens.
fn expect_kinds(rt: &impl Abort, alloc: Global, rows: &[(&str, &[TokenKind])]) {
    for (text, wanted) in rows {
        let kinds = expected_kinds(rt, alloc, text.as_bytes());
        expect(rt, kinds.as_slice() == *wanted, text);
    }
}

#[test]
fn expected_tokens(rt: HostRuntime) {
    expect_kinds(&rt, rt.alloc(), &BEGINS);
    expect_kinds(&rt, rt.alloc(), &BEHIND);
    expect_kinds(&rt, rt.alloc(), &[("f(a,[1,2]){b}", &[])]);
}

/// Two million opening brackets, and as many closing ones.
const BRACKETS: Nest = Nest {
    before: b"",
    open: b"[",
    inner: b"",
    close: b']',
    after: b"",
    depth: 2_000_000,
};

/// Aborts the test unless a text is the printed form of its term.
fn expect_same<B: TermBank + Drop>(rt: &impl Abort, alloc: Global, mut bank: B, text: &[u8]) {
    let t = term_of(rt, alloc, &mut bank, text);
    expect_text(rt, alloc, &bank, t, text);
}

/// Tests the same in a store of two million cells.
fn expect_in_cells(rt: &impl Abort, alloc: Global, text: &[u8]) {
    expect_same(rt, alloc, shared_bank(rt, alloc, 2_000_000), text);
}

#[test]
fn two_million_levels(rt: HostRuntime) {
    expect_in_cells(&rt, rt.alloc(), &BRACKETS.text(&rt, rt.alloc()));
}

/// A writer with room for a number of bytes.
#[derive(Drop)]
struct Small {
    left: usize,
}

impl Write for Small {
    fn write(&mut self, buf: &[u8]) -> io::Result<usize> {
        let count = buf.len().min(self.left).min(1);
        self.left -= count;
        Ok(count)
    }

    fn flush(&mut self) -> io::Result<()> {
        Ok(())
    }
}

/// A text that does not fit is an error; the empty text needs no room.
#[test]
fn a_text_beyond_the_room(rt: HostRuntime) {
    let mut out = Small { left: 3 };
    assert!(rt; put(&mut out, b"abc").is_ok() && out.left == 0);
    assert!(rt; put(&mut out, b"d") == Err(RefusedWrite) && put(&mut out, b"").is_ok());
}
