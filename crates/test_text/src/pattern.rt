//! Tests of patterns: matching and construction.

use crate::banks::{plain_bank, term_of};
use crate::texts::expect;
use rx_pattern::{MakeFault, Pattern, PatternFault};
use rx_plain::PlainBank;
use rx_term::{Term, TermBank};
use std::alloc::Global;
use std::process::Abort;

/// A pattern, a subject, and the terms that are bound if it matches.
type Bound = (&'static str, &'static str, Option<&'static [&'static str]>);

const IN_ORDER: [Bound; 7] = [
    ("f(<int>,<list>)", "f(1,2,3)", Some(&["1", "[2,3]"])),
    ("f(<int>,<list>)", "f(1)", Some(&["1", "[]"])),
    ("[<list>]{x}", "[1,2]{x}", Some(&["[1,2]"])),
    ("a{<list>}", "a", Some(&["[]"])),
    (
        "[<list>,<list>]",
        "[[1]{x},2,3]",
        Some(&["[1]{x}", "[2,3]"]),
    ),
    (
        "f(g(<int>){<int>},<int>)",
        "f(g(1){2},3)",
        Some(&["1", "2", "3"]),
    ),
    ("<list>", "[1]{x}", Some(&["[1]{x}"])),
];

const OF_KINDS: [Bound; 7] = [
    ("<str>", "\"a\"{b}", Some(&["\"a\"{b}"])),
    ("<int()>", "7{a}", Some(&["7{a}"])),
    ("<int{}>", "7", Some(&["7"])),
    ("<appl>", "\"a\"(1)", Some(&["\"a\"(1)"])),
    ("<appl>", "a", Some(&["a"])),
    ("<placeholder>", "<a>", Some(&["<a>"])),
    ("<term>", "[<a>]{1}", Some(&["[<a>]{1}"])),
];

const UNMATCHED: [Bound; 8] = [
    ("f(<int>,<list>)", "f(a)", None),
    ("f(<term>,<int>)", "f(1,a)", None),
    ("<str>", "a", None),
    ("<str>", "\"a\"(b)", None),
    ("<int>", "a", None),
    ("a", "a{b}", None),
    ("a", "\"a\"", None),
    ("[<term>]", "[1,2]", None),
];

/// Terms, and the reason if they are not patterns.
const REFUSED: [(&str, Option<PatternFault>); 8] = [
    ("<foo>", Some(PatternFault::Unknown)),
    ("<int>{a}", Some(PatternFault::Annotated)),
    ("<int>{<foo>}", Some(PatternFault::Unknown)),
    ("<int>{<int>}", Some(PatternFault::Annotated)),
    ("<<foo>>", Some(PatternFault::Unknown)),
    ("f([<\"int\">])", Some(PatternFault::Unknown)),
    ("[<int>{a},<Int>]", Some(PatternFault::Unknown)),
    ("<int()>", None),
];

/// A pattern, at most two arguments, and the term that is made.
type Made = (
    &'static str,
    &'static [&'static str],
    Result<&'static str, MakeFault>,
);

const MADE: [Made; 4] = [
    ("f(<int>,<list>)", &["1", "[2,3]"], Ok("f(1,2,3)")),
    ("f(<int>,<list>)", &["1", "[]"], Ok("f(1)")),
    ("[<list>,7]{<term>}", &["[1]{x}", "a"], Ok("[[1]{x},7]{a}")),
    ("a{<list>}", &["[1,2]"], Ok("a{1,2}")),
];

const UNMADE: [Made; 5] = [
    ("f(<int>)", &[], Err(MakeFault::Count)),
    ("f(<int>)", &["a"], Err(MakeFault::Kind { at: 0 })),
    (
        "f(<int>,<int>)",
        &["a", "b"],
        Err(MakeFault::Kind { at: 0 }),
    ),
    (
        "f(<int>,<int>)",
        &["1", "b"],
        Err(MakeFault::Kind { at: 1 }),
    ),
    ("f(<list>)", &["[a]{b}"], Err(MakeFault::Kind { at: 0 })),
];

/// Terms, and their numbers of placeholders.
const PLACEHOLDERS: [(&str, usize); 3] = [
    ("f(a,[1])", 0),
    ("<term>", 1),
    ("f(g(<int>){<int>},<list>)", 3),
];

/// Makes a pattern of a term in the store.
fn pattern_of<B: TermBank>(
    rt: &impl Abort,
    alloc: Global,
    bank: &mut B,
    text: &[u8],
) -> Result<Pattern, PatternFault> {
    let t = term_of(rt, alloc, bank, text);
    assert!(rt; bank.holds(t));
    Pattern::of(alloc, bank, t)
}

/// Reads the pattern of a text.
pub fn pattern<B: TermBank>(rt: &impl Abort, alloc: Global, bank: &mut B, text: &[u8]) -> Pattern {
    pattern_of(rt, alloc, bank, text).expect(rt, "a pattern")
}

/// Returns a list of one reference.
pub fn only(rt: &impl Abort, alloc: Global, t: Term) -> Vec<Term> {
    let mut out = Vec::new(alloc);
    assert!(rt; out.push(t).is_ok());
    out
}

/// Matches a pattern against a term, and returns the bindings.
pub fn answer<B: TermBank>(
    rt: &impl Abort,
    bank: &mut B,
    p: &Pattern,
    t: Term,
    out: &mut Vec<Term>,
) -> Result<bool, PatternFault> {
    assert!(rt; bank.holds(t));
    p.matches(bank, t, out)
}

/// Returns whether these are the references of the terms of the texts.
pub fn are_spelt(
    rt: &impl Abort,
    alloc: Global,
    bank: &mut PlainBank,
    terms: &[Term],
    texts: &[&str],
) -> bool {
    if terms.len() != texts.len() {
        return false;
    }
    for (t, text) in terms.iter().zip(texts) {
        if *t != term_of(rt, alloc, bank, text.as_bytes()) {
            return false;
        }
    }
    true
}

/// Matches the pattern of a text against a subject. `out` is not empty before.
fn answer_of(
    rt: &impl Abort,
    alloc: Global,
    bank: &mut PlainBank,
    (text, subject): (&str, &str),
    out: &mut Vec<Term>,
) -> Result<bool, PatternFault> {
    let p = pattern(rt, alloc, bank, text.as_bytes());
    let t = term_of(rt, alloc, bank, subject.as_bytes());
    assert!(rt; out.push(t).is_ok());
    answer(rt, bank, &p, t, out)
}

/// Returns whether the pattern of a test case binds exactly its terms, or does not match.
fn holds(rt: &impl Abort, alloc: Global, bank: &mut PlainBank, row: &Bound) -> bool {
    let mut out = Vec::new(alloc);
    let found = answer_of(rt, alloc, bank, (row.0, row.1), &mut out);
    match row.2 {
        Some(texts) => found == Ok(true) && are_spelt(rt, alloc, bank, &out, texts),
        None => found == Ok(false) && out.is_empty(),
    }
}

/// Aborts the test unless the patterns of test cases bind the expected terms.
fn expect_bound(rt: &impl Abort, alloc: Global, bank: &mut PlainBank, rows: &[Bound]) {
    for row in rows {
        let is_bound = holds(rt, alloc, bank, row);
        assert!(rt; is_bound, "{} {}", row.0, row.1);
    }
}

/// Returns the reason why a term is not a pattern.
fn refusal(
    rt: &impl Abort,
    alloc: Global,
    bank: &mut PlainBank,
    text: &[u8],
) -> Option<PatternFault> {
    pattern_of(rt, alloc, bank, text).err()
}

/// Aborts the test unless terms are rejected as patterns for the expected reason.
fn expect_refused(rt: &impl Abort, alloc: Global, bank: &mut PlainBank) {
    for (text, wanted) in &REFUSED {
        let found = refusal(rt, alloc, bank, text.as_bytes());
        expect(rt, found == *wanted, text);
    }
}

/// Returns the number of placeholders of a pattern.
fn placeholders(rt: &impl Abort, alloc: Global, bank: &mut PlainBank, text: &[u8]) -> usize {
    pattern(rt, alloc, bank, text).placeholders()
}

/// Aborts the test unless patterns have the expected numbers of placeholders.
fn expect_placeholders(rt: &impl Abort, alloc: Global, bank: &mut PlainBank) {
    for (text, count) in &PLACEHOLDERS {
        let found = placeholders(rt, alloc, bank, text.as_bytes());
        expect(rt, found == *count, text);
    }
}

/// Makes a term from a pattern and one argument.
pub fn of_one<B: TermBank>(
    rt: &impl Abort,
    bank: &mut B,
    p: &Pattern,
    a: Term,
) -> Result<Term, MakeFault> {
    assert!(rt; bank.holds(a));
    p.make(bank, &[a])
}

/// Makes a term from a pattern and two arguments.
fn of_two<B: TermBank>(
    rt: &impl Abort,
    bank: &mut B,
    p: &Pattern,
    a: Term,
    b: Term,
) -> Result<Term, MakeFault> {
    assert!(rt; bank.holds(a));
    assert!(rt; bank.holds(b));
    p.make(bank, &[a, b])
}

/// Makes a term from a pattern and the terms of these texts.
fn make_of(
    rt: &impl Abort,
    alloc: Global,
    bank: &mut PlainBank,
    p: &Pattern,
    texts: &[&str],
) -> Result<Term, MakeFault> {
    if texts.is_empty() {
        return p.make(bank, &[]);
    }
    let a = term_of(rt, alloc, bank, texts[0].as_bytes());
    if texts.len() == 1 {
        return of_one(rt, bank, p, a);
    }
    let b = term_of(rt, alloc, bank, texts[1].as_bytes());
    of_two(rt, bank, p, a, b)
}

/// Returns whether the arguments of a test case make its term, or fail for its reason.
fn makes(rt: &impl Abort, alloc: Global, bank: &mut PlainBank, row: &Made) -> bool {
    let p = pattern(rt, alloc, bank, row.0.as_bytes());
    let found = make_of(rt, alloc, bank, &p, row.1);
    match row.2 {
        Ok(whole) => found == Ok(term_of(rt, alloc, bank, whole.as_bytes())),
        Err(fault) => found == Err(fault),
    }
}

/// Aborts the test unless the patterns of test cases make the expected terms.
fn expect_made(rt: &impl Abort, alloc: Global, bank: &mut PlainBank, rows: &[Made]) {
    for row in rows {
        let is_made = makes(rt, alloc, bank, row);
        assert!(rt; is_made, "{} {:?}", row.0, row.1);
    }
}

/// The subject of a test of patterns.
#[derive(Drop)]
enum Question {
    Bound(&'static [Bound]),
    Refused,
    Placeholders,
    Made(&'static [Made]),
}

/// Aborts the test unless patterns in this store behave as expected.
fn ask_bank(rt: &impl Abort, alloc: Global, bank: &mut PlainBank, question: &Question) {
    match question {
        Question::Bound(rows) => expect_bound(rt, alloc, bank, rows),
        Question::Refused => expect_refused(rt, alloc, bank),
        Question::Placeholders => expect_placeholders(rt, alloc, bank),
        Question::Made(rows) => expect_made(rt, alloc, bank, rows),
    }
}

/// Tests patterns in a new store.
fn ask(rt: &impl Abort, alloc: Global, question: &Question) {
    ask_bank(rt, alloc, &mut plain_bank(rt, alloc, 1000), question);
}

/// The subjects, each for a store of its own.
const ASKED: [Question; 7] = [
    Question::Bound(&IN_ORDER),
    Question::Bound(&OF_KINDS),
    Question::Bound(&UNMATCHED),
    Question::Refused,
    Question::Placeholders,
    Question::Made(&MADE),
    Question::Made(&UNMADE),
];

#[test]
fn patterns_of_terms(rt: HostRuntime) {
    for question in &ASKED {
        ask(&rt, rt.alloc(), question);
    }
}
