//! Tests of the search for rules on a value stack.

ghost use Rattle.std.specs.Prelude.{List, ◌≡◌, ◌≤◌, length};
ghost use Rattle.rx_term.specs.declared.Term.{Term};
ghost use Rattle.rx_term.specs.Store.{Store};
ghost use Rattle.rx_term.specs.Walks.{AllHeld};
ghost use Rattle.rec_match.specs.Matching.{CanFind, first_rule};
ghost use Rattle.rec_match.specs.Next.{AreReady};

use crate::banks::{expect_text, shared_box, term_of};
use crate::matcher::build;
use crate::texts::checked_box;
use rec_match::{Glance, Hit, Matcher, Place, Values};
use rec_sorts::Checked;
use rx_term::{Term, TermBank};
use std::alloc::Global;
use std::process::Abort;

/// The symbol `f` has number 2. The first left-hand side is not left-linear.
const OVERLAPPING: &[u8] = b"REC-SPEC Overlapping SORTS N \
    CONS a : -> N b : -> N \
    OPNS f : N N -> N \
    VARS X Y : N \
    RULES f(X,X) -> a f(a,Y) -> b f(X,b) -> a f(X,Y) -> b \
    EVAL f(b,a) END-SPEC";

/// The symbol `g` has number 3. All left-hand sides are left-linear.
const LINEAR: &[u8] = b"REC-SPEC Linear SORTS N \
    CONS a : -> N b : -> N p : N N -> N \
    OPNS g : N N -> N \
    VARS X Y Z : N \
    RULES g(a,X) -> X g(p(X,Y),b) -> Y g(p(X,Y),p(Z,a)) -> Z \
    EVAL g(b,b) END-SPEC";

/// A symbol's number, the first rule that may be found, two arguments, the rule that is found, and
/// the values of its variables.
type Row = (
    u32,
    u32,
    [&'static [u8]; 2],
    Option<u32>,
    &'static [&'static [u8]],
);

const FROM_A_RULE_ON: [Row; 7] = [
    (2, 0, [b"a", b"a"], Some(0), &[b"a"]),
    (2, 1, [b"a", b"a"], Some(1), &[b"a"]),
    (2, 2, [b"a", b"a"], Some(3), &[b"a", b"a"]),
    (2, 0, [b"a", b"b"], Some(1), &[b"b"]),
    (2, 1, [b"b", b"b"], Some(2), &[b"b"]),
    (2, 3, [b"b", b"b"], Some(3), &[b"b", b"b"]),
    (2, 0, [b"b", b"a"], Some(3), &[b"b", b"a"]),
];

/// The first tree compares two values, so the fast path finds nothing.
const FIRST_RULES: [Row; 4] = [
    (2, 0, [b"a", b"a"], Some(0), &[b"a"]),
    (2, 0, [b"a", b"b"], Some(1), &[b"b"]),
    (2, 0, [b"b", b"b"], Some(0), &[b"b"]),
    (2, 0, [b"b", b"a"], Some(3), &[b"b", b"a"]),
];

const FIRST_LINEAR_RULES: [Row; 6] = [
    (3, 0, [b"a", b"p(a,b)"], Some(0), &[b"p(a,b)"]),
    (3, 0, [b"p(a,b)", b"b"], Some(1), &[b"a", b"b"]),
    (3, 0, [b"p(a,b)", b"p(b,a)"], Some(2), &[b"a", b"b", b"b"]),
    (3, 0, [b"p(a,b)", b"p(b,b)"], None, &[]),
    (3, 0, [b"p(a,b){a}", b"b"], None, &[]),
    (3, 0, [b"b", b"a"], None, &[]),
];

/// The kind of search.
#[derive(Drop)]
enum Search {
    /// From a given rule on.
    FromOneOn,
    /// Among all rules; the fast path finds it.
    AtOnce,
    /// Among all rules; the fast path does not find it.
    BehindALook,
}

/// A specification, the kind of search, and test cases.
type Case = (&'static [u8], Search, &'static [Row]);

const CASES: [Case; 3] = [
    (OVERLAPPING, Search::FromOneOn, &FROM_A_RULE_ON),
    (OVERLAPPING, Search::BehindALook, &FIRST_RULES),
    (LINEAR, Search::AtOnce, &FIRST_LINEAR_RULES),
];

/// Returns the number of arguments of a symbol that has a rule.
fn count_of(rt: &impl Abort, matcher: &Matcher, symbol: u32, rule: u32) -> u32
    ensures { (w : Store) (work : List Term) → AreReady w matcher.now → result ≤ length work
        → CanFind w matcher.now symbol result rule work }
{
    assert!(rt; (rule as usize) < matcher.sides.len());
    let side = &matcher.sides[rule as usize];
    assert!(rt; side.symbol == symbol);
    side.count
}

/// Returns the first rule of a symbol.
fn first_of(rt: &impl Abort, matcher: &Matcher, symbol: u32) -> u32
    ensures { result ≡ first_rule matcher.now symbol }
{
    assert!(rt; (symbol as usize) < matcher.heads.len());
    matcher.heads[symbol as usize]
}

/// Returns a stack of a reference and two arguments.
fn stack<B: TermBank>(rt: &impl Abort, alloc: Global, bank: &B, terms: [Term; 3]) -> Vec<Term>
    ensures held { AllHeld (B.store bank.now) result.items }
    ensures three { length result.items ≡ 3 }
{
    let [below, one, other] = terms;
    assert!(rt; bank.holds(below));
    assert!(rt; bank.holds(one));
    assert!(rt; bank.holds(other));
    Vec::from_slice(alloc, &[below, one, other]).expect(rt, "memory")
}

/// The result of a search for arguments above one reference.
#[derive(Drop)]
struct Answer {
    rule: Option<u32>,
    values: Vec<Term>,
    /// Whether the fast path found it.
    at_once: bool,
}

/// Returns the value in the register of a position.
fn value_at(rt: &impl Abort, registers: &[Term], place: Place) -> Term {
    let register = match place {
        Place::First(register) => register,
        Place::Again { register, value: _ } => register,
    };
    assert!(rt; (register as usize) < registers.len());
    registers[register as usize]
}

/// Returns the values in registers, which are counted from the first argument on.
fn read(rt: &impl Abort, places: &[Place], work: &Vec<Term>) -> Vec<Term> {
    assert!(rt; work.len() > 0);
    let (mut values, registers) = (Vec::new(*work.allocator()), &work[1..]);
    for place in places {
        assert!(rt; values.push(value_at(rt, registers, *place)).is_ok());
    }
    values
}

/// Returns the values of a rule that was found.
fn values_of(rt: &impl Abort, matcher: &Matcher, work: &Vec<Term>, hit: Hit) -> Vec<Term> {
    match hit.values {
        Values::OnTop(from) => {
            assert!(rt; from <= work.len());
            Vec::from_slice(*work.allocator(), &work[from..]).expect(rt, "memory")
        }
        Values::InRegisters { from, to } => {
            assert!(rt; from <= to && to <= matcher.forest.places.len());
            read(rt, &matcher.forest.places[from..to], work)
        }
    }
}

/// Returns the result of a search. Aborts the test unless the stack is unchanged if nothing is
/// found.
fn answer_of(
    rt: &impl Abort,
    matcher: &Matcher,
    work: &Vec<Term>,
    found: Option<Hit>,
    at_once: bool,
) -> Answer {
    let (rule, values) = match found {
        Some(hit) => (Some(hit.rule), values_of(rt, matcher, work, hit)),
        None => {
            assert!(rt; work.len() == 3);
            (None, Vec::new(*work.allocator()))
        }
    };
    Answer {
        rule,
        values,
        at_once,
    }
}

/// Searches from a rule on.
fn find<B: TermBank>(
    rt: &impl Abort,
    bank: &B,
    matcher: &Matcher,
    mut work: Vec<Term>,
    row: &Row,
) -> Answer
    requires held { AllHeld (B.store bank.now) work.items }
    requires three { length work.items ≡ 3 }
    requires ready { AreReady (B.store bank.now) matcher.now }
{
    let count = count_of(rt, matcher, row.0, row.1);
    assert!(rt; count == 2);
    let alloc = *work.allocator();
    let (mut pending, mut bind) = (Vec::new(alloc), Vec::new(alloc));
    let found = matcher
        .find(
            bank,
            row.0,
            count,
            row.1,
            &mut work,
            &mut pending,
            &mut bind,
        )
        .expect(rt, "memory");
    answer_of(rt, matcher, &work, found, false)
}

/// Searches with the fast path and, if that finds nothing, with the general search.
fn look<B: TermBank>(
    rt: &impl Abort,
    bank: &B,
    matcher: &Matcher,
    mut work: Vec<Term>,
    row: &Row,
) -> Answer
    requires held { AllHeld (B.store bank.now) work.items }
    requires three { length work.items ≡ 3 }
    requires ready { AreReady (B.store bank.now) matcher.now }
{
    let first = first_of(rt, matcher, row.0);
    let count = count_of(rt, matcher, row.0, first);
    assert!(rt; count == 2);
    match matcher
        .glance(bank, row.0, count, 3, &mut work)
        .expect(rt, "memory")
    {
        Glance::Found(hit) => answer_of(rt, matcher, &work, Some(hit), true),
        Glance::Left(passed) => {
            let found = matcher
                .find_others(bank, row.0, count, passed, &mut work)
                .expect(rt, "memory");
            answer_of(rt, matcher, &work, found, false)
        }
    }
}

/// Aborts the test unless the fast path finds the rule exactly if it should.
fn expect_at_once(rt: &impl Abort, answer: &Answer, search: &Search) {
    match search {
        Search::FromOneOn => {}
        Search::AtOnce => assert!(rt; answer.at_once || answer.rule.is_none()),
        Search::BehindALook => assert!(rt; !answer.at_once),
    }
}

/// Aborts the test unless terms have these texts.
fn expect_texts<B: TermBank>(
    rt: &impl Abort,
    alloc: Global,
    bank: &B,
    terms: &[Term],
    texts: &[&[u8]],
) {
    assert!(rt; terms.len() == texts.len());
    for (term, text) in terms.iter().zip(texts) {
        expect_text(rt, alloc, bank, *term, text);
    }
}

/// Aborts the test unless the rule and the values of a test case are found.
fn expect_answer<B: TermBank>(
    rt: &impl Abort,
    alloc: Global,
    bank: &B,
    answer: &Answer,
    row: &Row,
) {
    assert!(rt; answer.rule == row.3);
    expect_texts(rt, alloc, bank, &answer.values, row.4);
}

/// Returns a reference, and the arguments of a test case.
fn terms_of<B: TermBank>(rt: &impl Abort, alloc: Global, bank: &mut B, row: &Row) -> [Term; 3] {
    let below = term_of(rt, alloc, bank, b"below");
    let one = term_of(rt, alloc, bank, row.2[0]);
    let other = term_of(rt, alloc, bank, row.2[1]);
    [below, one, other]
}

/// A specification, and the kind of search.
#[derive(Drop)]
struct Asked<'a> {
    checked: Box<Checked>,
    search: &'a Search,
}

/// Aborts the test unless the matcher of a specification finds the expected rule. The symbols are
/// added to the store.
fn expect_row<B: TermBank>(rt: &impl Abort, alloc: Global, bank: &mut B, asked: &Asked, row: &Row) {
    let terms = terms_of(rt, alloc, bank, row);
    let matcher = build(rt, alloc, bank, &asked.checked);
    let work = stack(rt, alloc, bank, terms);
    let answer = match asked.search {
        Search::FromOneOn => find(rt, bank, &matcher, work, row),
        _ => look(rt, bank, &matcher, work, row),
    };
    expect_at_once(rt, &answer, asked.search);
    expect_answer(rt, alloc, bank, &answer, row);
}

/// Tests a test case in a new store.
fn expect_row_alone(rt: &impl Abort, alloc: Global, asked: &Asked, row: &Row) {
    expect_row(rt, alloc, &mut *shared_box(rt, alloc, 100), asked, row);
}

/// Tests the test cases of a specification.
fn expect_case(rt: &impl Abort, alloc: Global, case: &Case) {
    let asked = Asked {
        checked: checked_box(rt, alloc, case.0),
        search: &case.1,
    };
    for row in case.2 {
        expect_row_alone(rt, alloc, &asked, row);
    }
}

#[test]
fn rules_are_found(rt: HostRuntime) {
    for case in &CASES {
        expect_case(&rt, rt.alloc(), case);
    }
}
