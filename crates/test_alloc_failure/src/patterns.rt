//! Tests of patterns.

ghost use Rattle.std.specs.Prelude.{IsSome};
ghost use Rattle.rx_term.specs.Store.{tree_at};

use crate::needs::{heap_answer, read_held};
use crate::report::Report;
use rx_pattern::Pattern;
use rx_term::{Term, TermBank};
use std::alloc::Global;

/// A pattern that binds an integer and the rest of a list with annotations.
const PATTERN: &[u8] = b"f(<int>,[<list>]{x})";

/// A term that it matches.
const SUBJECT: &[u8] = b"f(1,[2,3]{x})";

/// The first argument of the pattern.
const FIRST: &[u8] = b"1";

/// The second argument of the pattern.
const SECOND: &[u8] = b"[2,3]";

/// Returns the pattern of the text.
fn pattern<B: TermBank>(alloc: Global, bank: &mut B) -> Option<Box<Pattern>> {
    let t = read_held(alloc, bank, PATTERN)?;
    heap_answer(alloc, Pattern::of(alloc, bank, t))
}

/// Makes a pattern of a term.
pub fn try_of<B: TermBank>(bank: &mut B, report: &mut Report) -> Option<()> {
    let t = read_held(report.alloc, bank, PATTERN)?;
    report.begin();
    report.tell(Pattern::of(report.alloc, bank, t));
    let pattern = heap_answer(report.alloc, Pattern::of(report.alloc, bank, t))?;
    show_bindings(bank, &*pattern, report)
}

/// Prints the bindings of a pattern in the subject.
fn show_bindings<B: TermBank>(bank: &mut B, pattern: &Pattern, report: &mut Report) -> Option<()> {
    let t = read_held(report.alloc, bank, SUBJECT)?;
    let mut bound = Vec::new(report.alloc);
    report.say(pattern.matches(bank, t, &mut bound) == Ok(true), "matched");
    for binding in &bound {
        report.show(bank, *binding);
    }
    Some(())
}

/// Matches a term twice; allocations may fail the first time.
pub fn try_matches<B: TermBank>(bank: &mut B, report: &mut Report) -> Option<()> {
    let pattern = pattern(report.alloc, bank)?;
    let t = read_held(report.alloc, bank, SUBJECT)?;
    match_once(bank, &*pattern, t, report);
    report.show(bank, t);
    show_bindings(bank, &*pattern, report)
}

/// Matches a term while allocations may fail.
fn match_once<B: TermBank>(bank: &mut B, pattern: &Pattern, t: Term, report: &mut Report)
    requires { IsSome (tree_at (B.store bank.old) t) }
{
    let mut bound: Vec<Term> = Vec::new(report.alloc);
    report.begin();
    let is_done = report.tell(pattern.matches(bank, t, &mut bound));
    let is_empty = is_done || bound.is_empty();
    report.say(is_empty, "without bindings after a fault");
}

/// Makes a term from a pattern.
pub fn try_make<B: TermBank>(bank: &mut B, report: &mut Report) -> Option<()> {
    let pattern = pattern(report.alloc, bank)?;
    make_twice(bank, &*pattern, report)
}

/// Makes it twice from terms that are read; allocations may fail the first time.
fn make_twice<B: TermBank>(bank: &mut B, pattern: &Pattern, report: &mut Report) -> Option<()> {
    let first = read_held(report.alloc, bank, FIRST)?;
    let second = read_held(report.alloc, bank, SECOND)?;
    let given = [first, second];
    make_once(bank, pattern, &given, report)?;
    report.show(bank, second);
    let made = make(bank, pattern, &given)?;
    report.show(bank, made);
    Some(())
}

/// Makes it while allocations may fail, if the store has both arguments.
fn make_once<B: TermBank>(
    bank: &mut B,
    pattern: &Pattern,
    given: &[Term; 2],
    report: &mut Report,
) -> Option<()> {
    if !bank.holds(given[0]) || !bank.holds(given[1]) {
        return None;
    }
    report.begin();
    report.tell(pattern.make(bank, given));
    Some(())
}

/// Makes it, if the store has both arguments.
fn make<B: TermBank>(bank: &mut B, pattern: &Pattern, given: &[Term; 2]) -> Option<Term> {
    if !bank.holds(given[0]) || !bank.holds(given[1]) {
        return None;
    }
    pattern.make(bank, given).ok()
}
