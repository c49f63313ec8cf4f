//! Tests of the memo table and the engine. Each call of the engine is in a small function of its
//! own.
#![tactic(auto)]

ghost use Rattle.std.specs.Prelude.{IfSome};
ghost use Rattle.rec_engine.specs.Engine.{IsGiven};

use crate::CELLS;
use crate::needs::{heap_answer, read_held};
use crate::report::Report;
use crate::specifications::checked_specification;
use rec_engine::{Engine, Options, Outcome};
use rec_memo::Memo;
use rx_shared::SharedBank;
use rx_term::{Term, TermBank};
use std::alloc::Global;

/// A small memo table, and collections as often as possible, so that a failed allocation meets
/// both.
const OPTIONS: Options = Options {
    memo: 16,
    reclaim_every: 1,
};

/// The number of steps of the specification's first EVAL term.
const STEPS: u64 = 4;

/// The text of a term that has to stay.
const KEPT: &[u8] = b"[kept]";

/// The call of the engine.
#[derive(Clone, Copy)]
pub enum Asked {
    /// Make an EVAL term.
    Term,
    /// Evaluate that term.
    Value,
}

/// Makes a memo table.
pub fn try_memo(report: &mut Report) -> Option<()> {
    report.begin();
    report.tell(Memo::new(report.alloc, 16));
    let mut memo = heap_answer(report.alloc, Memo::new(report.alloc, 16))?;
    memo.put(Term(1), Term(2), 3);
    report.say(memo.get(Term(1)) == Some((Term(2), 3)), "remembered");
    Some(())
}

/// Makes an engine over a store.
fn engine_over<B: TermBank + Drop>(alloc: Global, bank: B) -> Option<Box<Engine<B>>> {
    let checked = checked_specification(alloc)?;
    let checked = Box::into_inner(checked);
    heap_answer(alloc, Engine::new(alloc, checked, bank, OPTIONS))
}

/// Makes an engine, and then one over another store.
pub fn try_new(report: &mut Report) -> Option<()> {
    let bank = SharedBank::new(report.alloc, CELLS).ok()?;
    make_once(bank, report)?;
    let another = SharedBank::new(report.alloc, CELLS).ok()?;
    let engine = engine_over(report.alloc, another)?;
    report.count(u64::from(engine.eval_terms()), "terms");
    Some(())
}

/// Makes an engine while allocations may fail. It takes the store and the specification.
fn make_once<B: TermBank + Drop>(bank: B, report: &mut Report) -> Option<()> {
    let checked = checked_specification(report.alloc)?;
    report.begin();
    let checked = Box::into_inner(checked);
    report.tell(Engine::new(report.alloc, checked, bank, OPTIONS));
    Some(())
}

/// Reads and protects a term that has to stay.
fn keep<B: TermBank>(alloc: Global, bank: &mut B) -> Option<Term> {
    let kept = read_held(alloc, bank, KEPT)?;
    bank.protect(kept).ok()?;
    Some(kept)
}

/// Returns the specification's first EVAL term.
fn own_term<B: TermBank>(engine: &mut Engine<B>) -> Option<Term>
    ensures { IfSome result (IsGiven engine.new.spec (B.store engine.new.bank)) }
{
    if engine.eval_terms() == 0 {
        return None;
    }
    engine.eval_term(0).ok()
}

/// Calls an engine while allocations may fail. If one fails, the same engine must return the result
/// when it is called again.
pub fn try_ask<B: TermBank + Drop>(mut bank: B, asked: Asked, report: &mut Report) -> Option<()> {
    let kept = keep(report.alloc, &mut bank)?;
    let mut engine = engine_over(report.alloc, bank)?;
    match asked {
        Asked::Term => make_twice(&mut *engine, kept, report),
        Asked::Value => evaluate_twice(&mut *engine, kept, report),
    }
}

/// Makes the first EVAL term twice; allocations may fail the first time.
fn make_twice<B: TermBank>(engine: &mut Engine<B>, kept: Term, report: &mut Report) -> Option<()> {
    if engine.eval_terms() == 0 {
        return None;
    }
    report.begin();
    report.tell(engine.eval_term(0));
    report.show(engine.bank(), kept);
    let t = own_term(engine)?;
    report.show(engine.bank(), t);
    Some(())
}

/// Evaluates that term twice; allocations may fail the first time.
fn evaluate_twice<B: TermBank>(
    engine: &mut Engine<B>,
    kept: Term,
    report: &mut Report,
) -> Option<()> {
    let t = own_term(engine)?;
    evaluate(engine, t, report);
    report.show(engine.bank(), kept);
    show_value(engine, t, report)
}

/// Evaluates a term while allocations may fail. It can be evaluated again.
fn evaluate<B: TermBank>(engine: &mut Engine<B>, t: Term, report: &mut Report)
    requires { IsGiven engine.old.spec (B.store engine.old.bank) t }
    ensures { IsGiven engine.new.spec (B.store engine.new.bank) t }
{
    report.begin();
    report.tell(engine.normalise(t, STEPS));
}

/// Evaluates a term, and prints its normal form.
fn show_value<B: TermBank>(engine: &mut Engine<B>, t: Term, report: &mut Report) -> Option<()>
    requires { IsGiven engine.old.spec (B.store engine.old.bank) t }
{
    match engine.normalise(t, STEPS).ok()? {
        Outcome::Limit => report.say(false, "a value"),
        Outcome::Value { term, steps } => {
            report.show(engine.bank(), term);
            report.count(steps, "steps");
        }
    }
    Some(())
}
