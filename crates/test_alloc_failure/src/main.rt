//! Allocation-failure tests: makes one call of a library while a tracer refuses allocations, and
//! prints the state after it.
//!
//! The two arguments of the program name the test: the kind of value and the call, as `shared
//! cons`. The program prepares the value, prints `ready`, makes the call, and prints the result of
//! the call and what it finds afterwards. `tests/memory.py` traces the program, lets each
//! allocation of the call fail in turn, and compares the lines. So it checks that the call reports
//! out of memory, that existing values are unchanged, that the same call succeeds afterwards, and
//! that all blocks are freed.
//!
//! | Module | Calls |
//! |---|---|
//! | `banks` | both term stores |
//! | `arenas` | `rx_names`, `rx_arena`, `rx_sweep` |
//! | `texts`, `patterns` | `rx_text`, `rx_pattern` |
//! | `specifications` | `rec_syntax`, `rec_sorts`, `rec_match` |
//! | `engines` | `rec_memo`, `rec_engine` |
//! | `report`, `needs` | the lines that are printed, and the preparation of values |
//!
//! The exit status is 0 if the test ran to its end and all lines were printed, and 3 otherwise.
#![tactic(auto, using(rx_term::proofs::StoreLemmas::bank_steps))]

mod arenas;
mod banks;
mod engines;
mod needs;
mod patterns;
mod report;
mod specifications;
mod texts;

use crate::banks::Call;
use crate::engines::Asked;
use crate::needs::heap_answer;
use crate::report::Report;
use rx_plain::PlainBank;
use rx_shared::SharedBank;
use rx_term::TermBank;
use std::env;
use std::process::ExitCode;

/// The capacity of the stores, in cells.
const CELLS: u32 = 4096;

/// Runs the test that the arguments name.
fn main(rt: HostRuntime) -> ExitCode {
    let mut report = Report::new(rt.alloc(), rt.stdout());
    match try_row(&rt, &mut report) {
        Some(()) if report.is_whole() => ExitCode::SUCCESS,
        _ => ExitCode::from(3),
    }
}

/// Runs the test that the arguments of the process name. Returns `None` if it did not run to its
/// end.
fn try_row(rt: &HostRuntime, report: &mut Report) -> Option<()> {
    let words: Vec<String> = env::args(rt).ok()?.skip(1).collect(rt.alloc()).ok()?;
    try_words(&words, report)
}

/// Runs the test that these arguments name.
fn try_words(words: &[String], report: &mut Report) -> Option<()> {
    let [kind, call] = words else {
        return None;
    };
    let call = call.as_str();
    match kind.as_str() {
        "plain" => try_plain(call, report),
        "shared" => try_shared(call, report),
        "store" => try_store(call, report),
        "engine" => try_engine(call, report),
        kind => try_over_shared(kind, call, report),
    }
}

/// Runs a test of the plain store.
fn try_plain(call: &str, report: &mut Report) -> Option<()> {
    match call {
        "new" => banks::try_new_plain(report),
        "broad" => banks::try_broad_plain(report),
        _ => try_over_plain(call, report),
    }
}

/// Runs a test of an existing plain store.
fn try_over_plain(call: &str, report: &mut Report) -> Option<()> {
    let mut bank = heap_answer(report.alloc, PlainBank::new(report.alloc, CELLS))?;
    try_bank(call, &mut *bank, report)
}

/// Runs a test of the shared store.
fn try_shared(call: &str, report: &mut Report) -> Option<()> {
    match call {
        "new" => banks::try_new_shared(report),
        "broad" => banks::try_broad_shared(report),
        "thousand" => banks::try_thousand(report),
        _ => try_over_shared("shared", call, report),
    }
}

/// Runs a test of an existing shared store, or a test of another kind with it.
fn try_over_shared(kind: &str, call: &str, report: &mut Report) -> Option<()> {
    let mut bank = heap_answer(report.alloc, SharedBank::new(report.alloc, CELLS))?;
    match kind {
        "shared" => try_bank(call, &mut *bank, report),
        "text" => try_text(call, &mut *bank, report),
        "specification" => try_specification(call, &mut *bank, report),
        _ => None,
    }
}

/// Runs a test of any store.
fn try_bank<B: TermBank>(call: &str, bank: &mut B, report: &mut Report) -> Option<()> {
    let call = match call {
        "int" => Call::Int,
        "nil" => Call::Nil,
        "cons" => Call::Cons,
        "appl" => Call::Appl,
        "hole" => Call::Hole,
        "annotated" => Call::Annotated,
        "symbol" => Call::Symbol,
        "reserve" => Call::Reserve,
        "readers" => return banks::try_readers(bank, report),
        "reclaim" => return banks::try_reclaim(bank, report),
        _ => return None,
    };
    banks::try_call(bank, call, report)
}

/// Runs a test of the table of names or of the arena, from which the stores are built.
fn try_store(call: &str, report: &mut Report) -> Option<()> {
    match call {
        "intern" => arenas::try_intern(report),
        "arena" => arenas::try_new(report),
        "collect" => arenas::try_collect(report),
        _ => arenas::try_filled(call, report),
    }
}

/// Runs a test of texts or patterns, with any store.
fn try_text<B: TermBank>(call: &str, bank: &mut B, report: &mut Report) -> Option<()> {
    match call {
        "read" => texts::try_read(bank, report),
        "write" => texts::try_write(bank, report),
        "pattern" => patterns::try_of(bank, report),
        "matches" => patterns::try_matches(bank, report),
        "make" => patterns::try_make(bank, report),
        _ => None,
    }
}

/// Runs a test of specifications, with any store.
fn try_specification<B: TermBank>(call: &str, bank: &mut B, report: &mut Report) -> Option<()> {
    match call {
        "read" => specifications::try_read(report),
        "check" => specifications::try_check(report),
        "terms" => specifications::try_check_terms(bank, report),
        "links" => specifications::try_links(bank, report),
        "build" => specifications::try_build(bank, report),
        "next" => specifications::try_next(bank, report),
        _ => None,
    }
}

/// Runs a test of the engine with a shared store, or of the memo table.
fn try_engine(call: &str, report: &mut Report) -> Option<()> {
    let asked = match call {
        "memo" => return engines::try_memo(report),
        "new" => return engines::try_new(report),
        "eval_term" => Asked::Term,
        "normalise" => Asked::Value,
        _ => return None,
    };
    let bank = SharedBank::new(report.alloc, CELLS).ok()?;
    engines::try_ask(bank, asked, report)
}
