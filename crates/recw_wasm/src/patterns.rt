//! Runs with a pattern.

ghost use Rattle.std.specs.Prelude.{◌≡◌, Ok, Err, IfErr, IfOk};
ghost use Rattle.rx_run.specs.PatternRuns.{IsMakeDue, IsMatchDue};
ghost use Rattle.recw_wasm.specs.Answers.{Answers};

use crate::handing::hand_ending;
use crate::told::Told;
use rx_run::{Ending, MatchReport, RunFault, make_term, match_term};
use std::alloc::Global;

/// Matches a pattern against a term.
#[unsafe(no_mangle)]
pub extern "C" fn recw_match(
    alloc: Global,
    pattern: &[u8],
    term: &[u8],
    out: &mut [u8],
    told: &mut Told,
) -> u32
    ensures { Answers (IsMatchDue pattern.now term.now) result told.new out.old out.new }
{
    let mut text = term;
    let mut lines = Vec::new(alloc);
    let report = match_term(alloc, pattern, &mut text, &mut lines);
    hand_ending(ending_of(report), lines, out, told)
}

/// Converts the end of a match.
fn ending_of(report: Result<MatchReport, RunFault>) -> Result<Ending, RunFault>
    ensures ended { IfOk report (λ matched. result ≡ Ok matched.ending) }
    ensures stopped { IfErr report (λ fault. result ≡ Err fault) }
{
    match report {
        Ok(matched) => Ok(matched.ending),
        Err(fault) => Err(fault),
    }
}

/// Makes a term from a pattern and a list of arguments.
#[unsafe(no_mangle)]
pub extern "C" fn recw_make(
    alloc: Global,
    pattern: &[u8],
    args: &[u8],
    out: &mut [u8],
    told: &mut Told,
) -> u32
    ensures { Answers (IsMakeDue pattern.now args.now) result told.new out.old out.new }
{
    let mut lines = Vec::new(alloc);
    let end = make_term(alloc, pattern, args, &mut lines);
    hand_ending(end, lines, out, told)
}
