//! Tests of specifications: parsing, well-formedness, input terms, symbol maps and matching. A
//! function that owns a large value has few returns, since the value is dropped at each of them.
#![tactic(auto)]

ghost use Rattle.std.specs.Prelude.{◌≡◌, IfSome, IsSome, length};
ghost use Rattle.rx_term.specs.Store.{tree_at};
ghost use Rattle.rec_sorts.specs.Lookup.{symbols};
ghost use Rattle.rec_match.specs.Next.{AreReady};

use crate::banks::{KEPT, add_content, compare, set_up, show_roots};
use crate::needs::{heap_answer, read_held};
use crate::report::Report;
use rec_match::Matcher;
use rec_sorts::{Checked, Links, check, check_terms};
use rec_syntax::{Syntax, read_spec};
use rx_term::{Term, TermBank};
use smallvec::SmallVec;
use std::alloc::Global;

/// Addition, and doubling by a rule with a condition. To double two takes one step, and to add two
/// to two takes three.
const DOUBLING: &[u8] = b"REC-SPEC Doubling SORTS N CONS z : -> N s : N -> N
    OPNS plus : N N -> N twice : N -> N VARS X Y : N
    RULES plus(z,Y) -> Y plus(s(X),Y) -> s(plus(X,Y))
    twice(X) -> plus(X,X) if X ->/<- z twice(X) -> z
    EVAL twice(s(s(z))) z END-SPEC";

/// Input terms without an error.
const TERMS: &[u8] = b"[plus(z,s(z)),z{a}]";

/// The term for which a rule is searched.
const SUM: &[u8] = b"plus(s(z),s(s(z)))";

/// Returns the checked specification.
pub fn checked_specification(alloc: Global) -> Option<Box<Checked>> {
    let syntax = read_spec(alloc, DOUBLING).ok()?;
    heap_answer(alloc, check(alloc, syntax))
}

/// Reads a specification.
pub fn try_read(report: &mut Report) -> Option<()> {
    report.begin();
    report.tell(read_spec(report.alloc, DOUBLING));
    let syntax = heap_answer(report.alloc, read_spec(report.alloc, DOUBLING))?;
    show_syntax(&*syntax, report);
    Some(())
}

/// Prints the parts of a specification.
fn show_syntax(syntax: &Syntax, report: &mut Report) {
    report.say(syntax.source() == DOUBLING, "the text");
    report.count(syntax.rules().len() as u64, "rules");
    report.count(syntax.terms().len() as u64, "terms");
}

/// Checks a specification.
pub fn try_check(report: &mut Report) -> Option<()> {
    check_once(report)?;
    let checked = checked_specification(report.alloc)?;
    report.count(u64::from(checked.symbols()), "symbols");
    show_syntax(checked.syntax(), report);
    Some(())
}

/// Checks it while allocations may fail.
fn check_once(report: &mut Report) -> Option<()> {
    let syntax = read_spec(report.alloc, DOUBLING).ok()?;
    report.begin();
    report.tell(check(report.alloc, syntax));
    Some(())
}

/// Checks input terms twice; allocations may fail the first time.
pub fn try_check_terms<B: TermBank>(bank: &mut B, report: &mut Report) -> Option<()> {
    let list = read_held(report.alloc, bank, TERMS)?;
    let checked = checked_specification(report.alloc)?;
    report.begin();
    report.tell(check_terms(report.alloc, &*checked, bank, list));
    let again = check_terms(report.alloc, &*checked, bank, list);
    report.say(again.is_ok(), "accepted");
    Some(())
}

/// Adds the symbols of a specification to a store.
pub fn try_links<B: TermBank>(bank: &mut B, report: &mut Report) -> Option<()> {
    let kept = set_up(report.alloc, bank, KEPT)?;
    let checked = checked_specification(report.alloc)?;
    link_twice(&*checked, bank, report)?;
    show_roots(bank, kept, report);
    Some(())
}

/// Adds them twice; allocations may fail the first time.
fn link_twice<B: TermBank>(checked: &Checked, bank: &mut B, report: &mut Report) -> Option<()> {
    let mut before = Vec::new(report.alloc);
    add_content(report.alloc, bank, &mut before)?;
    report.begin();
    report.tell(Links::make(report.alloc, checked, bank));
    compare(bank, &before, report)?;
    count_symbols(checked, bank, report)
}

/// Prints the number of symbols of a specification in a store.
fn count_symbols<B: TermBank>(checked: &Checked, bank: &mut B, report: &mut Report) -> Option<()> {
    let links = heap_answer(report.alloc, Links::make(report.alloc, checked, bank))?;
    report.count(links.symbols().len() as u64, "symbols");
    Some(())
}

/// Builds the matching trees.
pub fn try_build<B: TermBank>(bank: &mut B, report: &mut Report) -> Option<()> {
    let checked = checked_specification(report.alloc)?;
    build_over(&*checked, bank, report)
}

/// Builds them for the symbols of a store.
fn build_over<B: TermBank>(checked: &Checked, bank: &mut B, report: &mut Report) -> Option<()> {
    let links = Links::make(report.alloc, checked, bank).ok()?;
    build_twice(checked, &links, report)
}

/// Builds them twice; allocations may fail the first time.
fn build_twice(checked: &Checked, links: &Links, report: &mut Report) -> Option<()>
    requires { length links.now ≡ length (symbols checked.now.spec) }
{
    report.begin();
    report.tell(Matcher::build(report.alloc, checked, links));
    let matcher = heap_answer(report.alloc, Matcher::build(report.alloc, checked, links))?;
    report.count(matcher.sides.len() as u64, "left sides");
    Some(())
}

/// Returns a matcher for a store that has its symbols.
fn matcher_for<B: TermBank>(alloc: Global, bank: &mut B) -> Option<Matcher>
    ensures { IfSome result (AreReady (B.store bank.new)) }
{
    let checked = checked_specification(alloc)?;
    matcher_of(alloc, &*checked, bank)
}

/// Returns the matcher of a specification.
fn matcher_of<B: TermBank>(alloc: Global, checked: &Checked, bank: &mut B) -> Option<Matcher>
    ensures { IfSome result (AreReady (B.store bank.new)) }
{
    let links = Links::make(alloc, checked, bank).ok()?;
    match Matcher::build(alloc, checked, &links) {
        Ok(matcher) => Some(matcher),
        Err(_) => None,
    }
}

/// Searches the first rule for a term.
pub fn try_next<B: TermBank>(bank: &mut B, report: &mut Report) -> Option<()> {
    let t = read_held(report.alloc, bank, SUM)?;
    let matcher = matcher_for(report.alloc, bank)?;
    ask(bank, &matcher, t, report)
}

/// Searches it twice, if the store has the term; allocations may fail the first time.
fn ask<B: TermBank>(bank: &B, matcher: &Matcher, t: Term, report: &mut Report) -> Option<()>
    requires { AreReady (B.store bank.now) matcher.now }
{
    if !bank.holds(t) {
        return None;
    }
    let mut bound: SmallVec<Term, 8> = SmallVec::new(report.alloc);
    report.begin();
    let is_done = report.tell(matcher.next(bank, t, 0, &mut bound));
    let is_empty = is_done || bound.is_empty();
    report.say(is_empty, "without values after a fault");
    let again = matcher.next(bank, t, 0, &mut bound);
    report.say(again == Ok(Some(1)), "the second rule");
    report.count(bound.len() as u64, "values");
    Some(())
}
