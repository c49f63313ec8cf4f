//! Tests of the well-formedness rules of input terms, and of their postfix items.

ghost use Rattle.std.specs.Prelude.{IsSome};
ghost use Rattle.rx_term.specs.Store.{tree_at};

use crate::banks::{plain_box, term_of};
use crate::texts::{ADD, Nest, Q, checked_box, expect};
use rec_sorts::{Checked, Letter, Meaning, TermsFault, broken_element, check_terms, term_letters};
use rx_term::{BankFault, Term, TermBank};
use std::alloc::Global;
use std::process::Abort;

/// A constant whose name is quoted in terms, and an operator with arguments of two sorts.
const TWO: &str = "REC-SPEC Two SORTS A B CONS 0 : -> A b : -> B OPNS g : A B -> A EVAL 0 END-SPEC";

/// A specification, input terms, and the number of the violated rule.
type Row = (&'static str, &'static str, Option<u8>);

const BROKEN: [Row; 16] = [
    // not a list
    (Q, "a", Some(1)),
    (Q, "[a]{a}", Some(1)),
    // not an application
    (Q, "[f(a),3]", Some(2)),
    (Q, "[a{a},<a>]", Some(2)),
    (Q, "[g(1)]", Some(2)),
    (ADD, "[plus(s(z),z),3]", Some(2)),
    (TWO, "[0]", Some(2)),
    // annotations inside
    (Q, "[f(a{b})]", Some(3)),
    (Q, "[a{b},f(a{b})]", Some(3)),
    // undeclared
    (Q, "[\"a\"]", Some(4)),
    (Q, "[X]", Some(4)),
    (Q, "[\"a-b\"]", Some(4)),
    // wrong number of arguments
    (Q, "[f(a,a)]", Some(5)),
    (Q, "[f]", Some(5)),
    // wrong sort
    (Q, "[f(b)]", Some(6)),
    (TWO, "[g(\"0\",\"0\")]", Some(6)),
];

const KEPT: [Row; 7] = [
    (Q, "[f(a){a}]", None),
    (Q, "[a{3}]", None),
    (Q, "[f(a){b,[3]},a{f(a)}]", None),
    (Q, "[ b , f(f(a)) ]", None),
    (Q, "[]", None),
    (TWO, "[\"0\"]", None),
    (TWO, "[g(\"0\",b)]", None),
];

/// Input terms, and the index of the first that alone violates the rule that the list violates.
type First = (&'static str, Option<usize>);

const FIRST: [First; 9] = [
    ("[f(a),3,4]", Some(1)),
    ("[f(a{b}),c,<a>]", Some(2)),
    ("[f(b),f(a,a),f(a{b})]", Some(2)),
    ("[f(b),c]", Some(1)),
    ("[f(b),f]", Some(1)),
    ("[f(b),a,f(b)]", Some(0)),
    ("[a,f(a)]", None),
    ("[3]{a}", None),
    ("3", None),
];

/// A list of one term of nested symbols `f`.
const DEEP: Nest = Nest {
    before: b"[",
    open: b"f(",
    inner: b"a",
    close: b')',
    after: b"]",
    depth: 2000,
};

/// Returns the number of the rule that the input terms of a list violate. The number 0 means out of
/// memory.
fn broken_list<B: TermBank>(
    rt: &impl Abort,
    alloc: Global,
    checked: &Checked,
    bank: &B,
    list: Term,
) -> Option<u8> {
    assert!(rt; bank.holds(list));
    match check_terms(alloc, checked, bank, list) {
        Ok(()) => None,
        Err(TermsFault::Rule { number }) => Some(number),
        Err(TermsFault::Memory) => Some(0),
    }
}

/// Returns the number of the rule that input terms violate, in this store.
fn broken_in<B: TermBank>(
    rt: &impl Abort,
    alloc: Global,
    checked: &Checked,
    bank: &mut B,
    terms: &[u8],
) -> Option<u8> {
    let list = term_of(rt, alloc, bank, terms);
    broken_list(rt, alloc, checked, bank, list)
}

/// Returns the number of the rule that input terms violate, in a new store.
fn broken_rule(rt: &impl Abort, alloc: Global, checked: &Checked, terms: &[u8]) -> Option<u8> {
    broken_in(
        rt,
        alloc,
        checked,
        &mut *plain_box(rt, alloc, 10_000),
        terms,
    )
}

/// Returns the number of the rule that input terms for the text of a specification violate.
fn broken_beside(rt: &impl Abort, alloc: Global, spec: &str, terms: &[u8]) -> Option<u8> {
    let checked = checked_box(rt, alloc, spec.as_bytes());
    broken_rule(rt, alloc, &checked, terms)
}

/// Aborts the test unless input terms violate the rule of their test case.
fn expect_rows(rt: &impl Abort, alloc: Global, rows: &[Row]) {
    for (spec, terms, wanted) in rows {
        let found = broken_beside(rt, alloc, spec, terms.as_bytes());
        expect(rt, found == *wanted, terms);
    }
}

#[test]
fn broken_rules(rt: HostRuntime) {
    expect_rows(&rt, rt.alloc(), &BROKEN);
    expect_rows(&rt, rt.alloc(), &KEPT);
}

/// Makes the sum of a term and itself.
#[tactic(auto, using(rx_term::proofs::StoreLemmas::bank_steps))]
fn doubled<B: TermBank>(bank: &mut B, term: Term) -> Result<Term, BankFault>
    requires { IsSome (tree_at (B.store bank.old) term) }
{
    let nil = bank.nil()?;
    let last = bank.cons(term, nil)?;
    let both = bank.cons(term, last)?;
    let plus = bank.symbol(b"plus", false, 2)?;
    bank.appl(plus, both)
}

/// Makes the list of one term.
#[tactic(auto, using(rx_term::proofs::StoreLemmas::bank_steps))]
fn only<B: TermBank>(bank: &mut B, term: Term) -> Result<Term, BankFault>
    requires { IsSome (tree_at (B.store bank.old) term) }
{
    let nil = bank.nil()?;
    bank.cons(term, nil)
}

/// Returns a list of one term: 200 nested sums, each of a term and itself. The innermost term
/// occurs 2^200 times.
fn shared_sums<B: TermBank>(rt: &impl Abort, alloc: Global, bank: &mut B, inner: &str) -> Term {
    let mut term = term_of(rt, alloc, bank, inner.as_bytes());
    for _ in 0..200 {
        assert!(rt; bank.holds(term));
        term = doubled(bank, term).expect(rt, "a sum");
    }
    assert!(rt; bank.holds(term));
    only(bank, term).expect(rt, "a list")
}

/// Returns the number of the rule that these sums violate.
fn broken_sums(rt: &impl Abort, alloc: Global, inner: &str) -> Option<u8> {
    let checked = checked_box(rt, alloc, ADD.as_bytes());
    let bank = &mut *plain_box(rt, alloc, 10_000);
    let list = shared_sums(rt, alloc, bank, inner);
    broken_list(rt, alloc, &checked, bank, list)
}

#[test]
fn deep(rt: HostRuntime) {
    let terms = DEEP.text(&rt, rt.alloc());
    assert!(rt; broken_beside(&rt, rt.alloc(), Q, &terms) == None);
    assert!(rt; broken_sums(&rt, rt.alloc(), "z") == None);
    assert!(rt; broken_sums(&rt, rt.alloc(), "q") == Some(4));
}

/// Returns the index of the first term that alone violates the rule that the list violates.
fn first_broken<B: TermBank>(
    rt: &impl Abort,
    alloc: Global,
    checked: &Checked,
    bank: &mut B,
    terms: &[u8],
) -> Option<usize> {
    let list = term_of(rt, alloc, bank, terms);
    assert!(rt; bank.holds(list));
    broken_element(alloc, checked, bank, list).expect(rt, "an answer")
}

/// Aborts the test unless this index is the one of the test case.
fn expect_first<B: TermBank>(rt: &impl Abort, alloc: Global, checked: &Checked, bank: &mut B) {
    for (terms, wanted) in &FIRST {
        let found = first_broken(rt, alloc, checked, bank, terms.as_bytes());
        expect(rt, found == *wanted, terms);
    }
}

/// Two input terms for the addition: a sum, and a constant.
const SUMS: &[u8] = b"[plus(s(z),z),z{3}]";

/// The symbols of the sum in postfix form, with their numbers of arguments.
const SUM: [(u32, u32); 4] = [(0, 0), (1, 1), (0, 0), (2, 2)];

const CONSTANT: [(u32, u32); 1] = [(0, 0)];

/// Returns the postfix items of the input terms.
fn letters_of<B: TermBank>(
    rt: &impl Abort,
    alloc: Global,
    checked: &Checked,
    bank: &mut B,
) -> Vec<Vec<Letter>> {
    let list = term_of(rt, alloc, bank, SUMS);
    assert!(rt; bank.holds(list));
    assert!(rt; check_terms(alloc, checked, bank, list).is_ok());
    term_letters(alloc, checked, bank, list).expect(rt, "letters")
}

/// Returns whether items are these symbols with these numbers of arguments.
fn are_symbols(letters: &[Letter], symbols: &[(u32, u32)]) -> bool {
    if letters.len() != symbols.len() {
        return false;
    }
    for (letter, (number, count)) in letters.iter().zip(symbols) {
        if letter.meaning != Meaning::Symbol(*number) || letter.count != *count {
            return false;
        }
    }
    true
}

fn expect_letters(rt: &impl Abort, terms: &[Vec<Letter>]) {
    assert!(rt; terms.len() == 2);
    assert!(rt; are_symbols(&terms[0], &SUM));
    assert!(rt; are_symbols(&terms[1], &CONSTANT));
}

fn expect_sums<B: TermBank>(rt: &impl Abort, alloc: Global, checked: &Checked, bank: &mut B) {
    let terms = letters_of(rt, alloc, checked, bank);
    expect_letters(rt, &terms);
}

/// The subject of another test of a specification.
#[derive(Drop)]
enum Question {
    First,
    Letters,
}

/// Aborts the test unless a specification behaves as expected.
fn ask(rt: &impl Abort, alloc: Global, checked: &Checked, question: &Question) {
    let bank = &mut *plain_box(rt, alloc, 1000);
    match question {
        Question::First => expect_first(rt, alloc, checked, bank),
        Question::Letters => expect_sums(rt, alloc, checked, bank),
    }
}

/// Tests the text of a specification.
fn ask_spec(rt: &impl Abort, alloc: Global, spec: &str, question: &Question) {
    let checked = checked_box(rt, alloc, spec.as_bytes());
    ask(rt, alloc, &checked, question);
}

#[test]
fn terms_one_by_one(rt: HostRuntime) {
    ask_spec(&rt, rt.alloc(), Q, &Question::First);
    ask_spec(&rt, rt.alloc(), ADD, &Question::Letters);
}
