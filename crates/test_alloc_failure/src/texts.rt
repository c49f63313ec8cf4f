//! Tests of texts of annotated terms.

ghost use Rattle.std.specs.Prelude.{IsSome};
ghost use Rattle.rx_term.specs.Store.{tree_at};

use crate::needs::read_held;
use crate::report::Report;
use rx_term::{Term, TermBank};
use rx_text::{read, write};

/// A text with each kind of term. Its 14 cells are listed in `banks`.
const TEXT: &[u8] = b"f(g(a),[1,<7>]){b}";

/// The text of a term that has to stay.
const KEPT: &[u8] = b"[kept]";

/// Reads a text. The terms from before must still be there after a failure.
pub fn try_read<B: TermBank>(bank: &mut B, report: &mut Report) -> Option<()> {
    let kept = read_held(report.alloc, bank, KEPT)?;
    report.begin();
    report.tell(read(report.alloc, TEXT, bank));
    report.show(bank, kept);
    let t = read_held(report.alloc, bank, TEXT)?;
    report.show(bank, t);
    bank.reclaim(&[]);
    report.count(u64::from(bank.cells()), "cells kept");
    Some(())
}

/// Writes a term to a writer that needs no memory.
pub fn try_write<B: TermBank>(bank: &mut B, report: &mut Report) -> Option<()> {
    let t = read_held(report.alloc, bank, TEXT)?;
    let mut text = Vec::with_capacity(report.alloc, 1000).ok()?;
    write_once(bank, t, &mut text, report);
    report.show(bank, t);
    Some(())
}

/// Writes a term while allocations may fail.
fn write_once<B: TermBank>(bank: &B, t: Term, text: &mut Vec<u8>, report: &mut Report)
    requires { IsSome (tree_at (B.store bank.now) t) }
{
    report.begin();
    report.tell(write(report.alloc, bank, t, text));
    report.say(TEXT.starts_with(text), "a beginning");
}
