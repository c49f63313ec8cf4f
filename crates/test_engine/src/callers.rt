//! Tests of the clients in `example_client` over the plain store, with results that were derived by hand.
#![tactic(auto, using(rx_term::proofs::StoreLemmas::bank_steps))]

ghost use Rattle.rx_term.specs.declared.Term.{Term};
ghost use Rattle.rx_term.specs.Tree.{Tree};
ghost use Rattle.rec_engine.specs.Engine.{IsGiven, Spells};
ghost use Rattle.example_client.specs.Kept.{IsProtected, KeepsRoots};

use example_client::evaluating::{
    admit, engine_over, own_value_text, specification_of, value_text,
};
use example_client::keeping::keep;
use example_client::rewriting::{pattern, rewrite};
use example_client::staying::{answer, kept_value, let_go, request};
use example_client::texts::{name_at, read_back, text_of};
use rec_engine::Engine;
use rec_sorts::{Checked, Letter};
use rx_pattern::Pattern;
use rx_plain::PlainBank;
use rx_term::{Term, TermBank};
use rx_text::read;
use std::alloc::Global;
use std::process::Abort;

/// Addition. The sum takes two steps by the second rule and one by the first.
const ADDITION: &[u8] = b"REC-SPEC Addition SORTS Nat \
    CONS z : -> Nat s : Nat -> Nat \
    OPNS plus : Nat Nat -> Nat \
    VARS X Y : Nat \
    RULES plus(z,Y) -> Y plus(s(X),Y) -> s(plus(X,Y)) \
    EVAL plus(s(s(z)),s(z)) END-SPEC";

const X: &[u8] = b"x";

const Y: &[u8] = b"y";

/// Returns an empty store.
fn bank_of(rt: &impl Abort, alloc: Global) -> Box<PlainBank> {
    let bank = PlainBank::new(alloc, 1000).expect(rt, "a bank");
    Box::new(alloc, bank).expect(rt, "memory")
}

/// Makes `x` with a line and a column.
fn x_at<B: TermBank>(rt: &impl Abort, bank: &mut B, line: i32, column: i32) -> Term {
    name_at(bank, X, line, column).expect(rt, "a located x")
}

/// Makes `y` with a line and a column.
fn y_at<B: TermBank>(rt: &impl Abort, bank: &mut B, line: i32, column: i32) -> Term {
    name_at(bank, Y, line, column).expect(rt, "a located y")
}

/// Reads the term of a text.
fn term<B: TermBank>(rt: &impl Abort, alloc: Global, bank: &mut B, text: &[u8]) -> Term {
    read(alloc, text, bank).expect(rt, "a term")
}

/// Aborts the test unless a term has this printed text.
fn expect_text<B: TermBank>(rt: &impl Abort, alloc: Global, bank: &B, t: Term, wanted: &[u8]) {
    assert!(rt; bank.holds(t));
    assert!(rt; text_of(alloc, bank, t).expect(rt, "a text").as_slice() == wanted);
}

/// Aborts the test unless a located name is printed as expected, and read back from its text.
fn print_and_read<B: TermBank>(rt: &impl Abort, alloc: Global, bank: &mut B) {
    let x = x_at(rt, bank, 3, -7);
    expect_text(rt, alloc, bank, x, b"x{at(3,-7)}");
    assert!(rt; bank.holds(x));
    assert!(rt; read_back(alloc, bank, x).expect(rt, "a term") == x);
}

#[test]
fn builds_prints_and_reads_back(rt: HostRuntime) {
    print_and_read(&rt, rt.alloc(), &mut *bank_of(&rt, rt.alloc()));
}

/// Reads the pattern of a text.
fn pattern_of<B: TermBank>(rt: &impl Abort, alloc: Global, bank: &mut B, text: &[u8]) -> Pattern {
    pattern(alloc, bank, text).expect(rt, "a pattern")
}

/// A rule whose sides are patterns.
#[derive(Drop)]
struct Rule {
    /// The left-hand side.
    left: Pattern,
    /// The right-hand side.
    right: Pattern,
}

/// Rewrites the term of a text with a rule.
fn rewrite_text<B: TermBank>(
    rt: &impl Abort,
    alloc: Global,
    bank: &mut B,
    rule: &Rule,
    text: &[u8],
) -> Option<Term> {
    let t = term(rt, alloc, bank, text);
    assert!(rt; bank.holds(t));
    rewrite(alloc, bank, &rule.left, &rule.right, t).expect(rt, "a step, or none")
}

/// Aborts the test unless `plus` with an integer as its second argument is rewritten to `add`, and
/// no other `plus` is rewritten.
fn rewrite_sums<B: TermBank>(rt: &impl Abort, alloc: Global, bank: &mut B, rule: &Rule) {
    let made = rewrite_text(rt, alloc, bank, rule, b"plus(x{at(3,7)}, 1)").expect(rt, "a sum");
    expect_text(rt, alloc, bank, made, b"add(x{at(3,7)},[1])");
    assert!(rt; rewrite_text(rt, alloc, bank, rule, b"plus(1,x)").is_none());
}

/// Tests the same rewriting with the patterns of two texts.
fn rewrite_by_texts<B: TermBank>(rt: &impl Abort, alloc: Global, bank: &mut B) {
    let left = pattern_of(rt, alloc, bank, b"plus(<term>,<int>)");
    let right = pattern_of(rt, alloc, bank, b"add(<term>,[<int>])");
    rewrite_sums(rt, alloc, bank, &Rule { left, right });
}

#[test]
fn rewrites_by_patterns(rt: HostRuntime) {
    rewrite_by_texts(&rt, rt.alloc(), &mut *bank_of(&rt, rt.alloc()));
}

/// Aborts the test unless the terms take the expected numbers of cells, and a collection leaves
/// only the needed ones.
fn keep_one<B: TermBank>(rt: &impl Abort, bank: &mut B) {
    let x = x_at(rt, bank, 3, 7);
    // x{at(3,7)}, [at(3,7)], at(3,7), [3,7], [7], [], 3 and 7, and the constant x
    assert!(rt; bank.cells() == 9);
    let y = y_at(rt, bank, 3, 8);
    // y{at(3,8)}, [at(3,8)], at(3,8), [3,8], [8], 8, and the constant y
    assert!(rt; bank.cells() == 16);
    keep_first(rt, bank, x, y);
}

/// Tests a collection that keeps only the first of two terms.
fn keep_first<B: TermBank>(rt: &impl Abort, bank: &mut B, x: Term, y: Term) {
    assert!(rt; bank.holds(x));
    assert!(rt; matches!(keep(bank, x), Ok(8)));
    assert!(rt; bank.holds(x) && !bank.holds(y));
}

#[test]
fn keeps_what_is_needed(rt: HostRuntime) {
    keep_one(&rt, &mut *bank_of(&rt, rt.alloc()));
}

/// Returns a checked specification of addition.
fn addition(rt: &impl Abort, alloc: Global) -> Box<Checked> {
    let addition = specification_of(alloc, ADDITION).expect(rt, "a specification");
    Box::new(alloc, addition).expect(rt, "memory")
}

/// Returns an engine for a specification over a store.
fn engine_of<B: TermBank + Drop>(
    rt: &impl Abort,
    alloc: Global,
    addition: Box<Checked>,
    bank: Box<B>,
) -> Box<Engine<B>>
    ensures { (t : Term) → IsGiven addition.value.spec (B.store bank.value) t →
        IsGiven result.value.spec (B.store result.value.bank) t }
{
    let (addition, bank) = (Box::into_inner(addition), Box::into_inner(bank));
    let engine = engine_over(alloc, addition, bank).expect(rt, "an engine");
    Box::new(alloc, engine).expect(rt, "memory")
}

/// Reads and protects a term that can be evaluated.
fn admit_text<B: TermBank>(
    rt: &impl Abort,
    alloc: Global,
    addition: &Checked,
    bank: &mut B,
    text: &[u8],
) -> Term
    ensures { IsGiven addition.now.spec (B.store bank.new) result }
{
    let t = term(rt, alloc, bank, text);
    assert!(rt; bank.holds(t));
    admit(alloc, addition, bank, t).expect(rt, "a term to evaluate");
    t
}

/// The text of a result, or `None` if more than `steps` steps are needed for it.
#[derive(Clone, Copy)]
struct Expected<'a> {
    /// The step limit.
    steps: u64,
    /// The text.
    text: Option<&'a [u8]>,
}

/// Returns the expected result within this number of steps.
fn within(steps: u64, text: Option<&[u8]>) -> Expected<'_> {
    Expected { steps, text }
}

/// Aborts the test unless a text is this one, or is missing as expected.
fn expect_found(rt: &impl Abort, found: &Option<Vec<u8>>, wanted: Option<&[u8]>) {
    match (found, wanted) {
        (Some(text), Some(wanted)) => assert!(rt; text.as_slice() == wanted),
        (None, None) => {}
        _ => assert!(rt; false),
    }
}

/// Aborts the test unless an input term has the expected result.
fn expect_given<B: TermBank>(
    rt: &impl Abort,
    alloc: Global,
    engine: &mut Engine<B>,
    t: Term,
    due: Expected<'_>,
)
    requires { IsGiven engine.old.spec (B.store engine.old.bank) t }
{
    let found = value_text(alloc, engine, t, due.steps).expect(rt, "a value, or none");
    expect_found(rt, &found, due.text);
}

/// Aborts the test unless an input term, a sum with an annotation, has the expected result.
fn evaluate_given<B: TermBank + Drop>(
    rt: &impl Abort,
    alloc: Global,
    mut bank: Box<B>,
    due: Expected<'_>,
) {
    let addition = addition(rt, alloc);
    let sum = admit_text(rt, alloc, &addition, &mut *bank, b"plus(s(z),z){at(3,7)}");
    let mut engine = engine_of(rt, alloc, addition, bank);
    expect_given(rt, alloc, &mut engine, sum, due);
}

/// Aborts the test unless the first EVAL term has the expected result.
fn expect_own<B: TermBank>(
    rt: &impl Abort,
    alloc: Global,
    engine: &mut Engine<B>,
    due: Expected<'_>,
) {
    assert!(rt; engine.eval_terms() > 0);
    let found = own_value_text(alloc, engine, 0, due.steps).expect(rt, "a value, or none");
    expect_found(rt, &found, due.text);
}

/// Aborts the test unless the sum of the specification has the expected result.
fn evaluate_own<B: TermBank + Drop>(
    rt: &impl Abort,
    alloc: Global,
    bank: Box<B>,
    due: Expected<'_>,
) {
    let mut engine = engine_of(rt, alloc, addition(rt, alloc), bank);
    expect_own(rt, alloc, &mut engine, due);
}

#[test]
fn evaluates_given_terms(rt: HostRuntime) {
    let alloc = rt.alloc();
    evaluate_given(&rt, alloc, bank_of(&rt, alloc), within(1, None));
    let due = within(2, Some(b"s(z){at(3,7)}"));
    evaluate_given(&rt, alloc, bank_of(&rt, alloc), due);
}

#[test]
fn evaluates_own_terms(rt: HostRuntime) {
    let alloc = rt.alloc();
    evaluate_own(&rt, alloc, bank_of(&rt, alloc), within(2, None));
    evaluate_own(
        &rt,
        alloc,
        bank_of(&rt, alloc),
        within(3, Some(b"s(s(s(z)))")),
    );
}

/// Aborts the test unless the term of a text is rejected.
fn refuse_foreign<B: TermBank>(
    rt: &impl Abort,
    alloc: Global,
    addition: &Checked,
    bank: &mut B,
    text: &[u8],
) {
    let other = term(rt, alloc, bank, text);
    assert!(rt; bank.holds(other));
    assert!(rt; admit(alloc, addition, bank, other).is_err());
}

#[test]
fn refuses_foreign_terms(rt: HostRuntime) {
    let spec = &addition(&rt, rt.alloc());
    let bank = &mut *bank_of(&rt, rt.alloc());
    refuse_foreign(&rt, rt.alloc(), spec, bank, b"minus(s(z),z)");
}

/// Returns the postfix items of the term of a text.
fn request_letters(rt: &impl Abort, alloc: Global, addition: &Checked, text: &[u8]) -> Vec<Letter>
    ensures { (u : Tree) × Spells addition.now.spec result.items u }
{
    let requests = &mut *bank_of(rt, alloc);
    request(alloc, addition, requests, text).expect(rt, "a term to evaluate")
}

/// Aborts the test unless the term of a text has the expected result.
fn expect_answer<B: TermBank>(
    rt: &impl Abort,
    alloc: Global,
    engine: &mut Engine<B>,
    text: &[u8],
    due: Expected<'_>,
)
    ensures { KeepsRoots (B.store engine.old.bank) (B.store engine.new.bank) }
{
    let letters = request_letters(rt, alloc, engine.checked(), text);
    let found = answer(alloc, engine, &letters, due.steps).expect(rt, "a value, or none");
    expect_found(rt, &found, due.text);
}

/// Evaluates the term of a text within `n` steps, and protects the result.
fn keep_value_of<B: TermBank>(
    rt: &impl Abort,
    alloc: Global,
    engine: &mut Engine<B>,
    text: &[u8],
    n: u64,
) -> Term
    ensures { IsProtected (B.store engine.new.bank) result }
{
    let letters = request_letters(rt, alloc, engine.checked(), text);
    let found = kept_value(engine, &letters, n).expect(rt, "a value, or none");
    found.expect(rt, "a value")
}

/// Aborts the test unless a dropped result has this text.
fn expect_let_go<B: TermBank>(
    rt: &impl Abort,
    alloc: Global,
    engine: &mut Engine<B>,
    value: Term,
    wanted: &[u8],
)
    requires { IsProtected (B.store engine.old.bank) value }
{
    let text = let_go(alloc, engine, value).expect(rt, "a text");
    assert!(rt; text.as_slice() == wanted);
}

/// Aborts the test unless terms that are evaluated one after the other have the expected results,
/// and one that is kept meanwhile is still there at the end.
fn ask_in_turn<B: TermBank>(rt: &impl Abort, alloc: Global, engine: &mut Engine<B>) {
    let kept = keep_value_of(rt, alloc, engine, b"plus(s(z),s(z))", 2);
    expect_answer(rt, alloc, engine, b"plus(s(s(z)),z)", within(2, None));
    let due = within(1, Some(b"s(z)"));
    expect_answer(rt, alloc, engine, b"s(plus(z,z)){x}", due);
    expect_let_go(rt, alloc, engine, kept, b"s(s(z))");
}

#[test]
fn asks_an_engine_that_stays(rt: HostRuntime) {
    let alloc = rt.alloc();
    let mut engine = engine_of(&rt, alloc, addition(&rt, alloc), bank_of(&rt, alloc));
    ask_in_turn(&rt, alloc, &mut *engine);
}
