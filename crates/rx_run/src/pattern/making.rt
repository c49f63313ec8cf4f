//! Runs that fill a pattern with arguments.

ghost use Rattle.std.specs.Prelude.{◌≡◌, ◌≢◌, IfErr, IfOk};
ghost use Rattle.rx_text.specs.Output.{contents_of};
ghost use Rattle.rx_run.specs.Inner.PatternAnswers.{IsPatternRead};
ghost use Rattle.rx_run.specs.Run.{Breaks, Concludes, IsNotDeep};
ghost use Rattle.rx_run.specs.Run.{RoomFills, RoomFillsOne};
ghost use Rattle.rx_run.specs.Streams.{ReportsWrite};
ghost use Rattle.rx_run.specs.PatternRuns.{IsMakeDue};

use crate::ending::RunFault;
use crate::pattern::answer::make_of_reading;
use crate::pattern::reading::{read_pattern, read_pattern_in};
use crate::refusal::{Ending, Reading};
use crate::term::output::TermLines;
use crate::term::reading::{MOST_CELLS, empty_bank};
use crate::term::runs::end_term;
use rx_pattern::Pattern;
use rx_term::TermBank;
use rx_text::Output;
use std::alloc::Global;
use std::io::Write;

/// Fills a pattern with arguments, and writes the printed form of the result and a line end, or the
/// error line of a rejected input. Flushes at the end.
pub fn make_term<W: Write>(
    alloc: Global,
    pattern: &[u8],
    args: &[u8],
    out: &mut W,
) -> Result<Ending, RunFault>
    ensures ends { IfOk result (λ ending. Concludes (IsMakeDue pattern.now args.now) ending
        (W.contents out.old) (W.contents out.new)) }
    ensures fault { IfErr result (λ fault.
        Breaks (IsMakeDue pattern.now args.now) fault (W.contents out.old) (W.contents out.new)) }
    ensures no_depth { IfErr result IsNotDeep }
    ensures no_reader { IfErr result (λ fault. fault ≢ RunFault.Read) }
{
    match empty_bank(alloc, MOST_CELLS) {
        Ok(bank) => make_owned(alloc, bank, pattern, args, out),
        Err(fault) => Err(fault),
    }
}

/// Fills a pattern with arguments, in two term stores of the caller.
///
/// Writes the printed form of the result and a line end, or the error line of a rejected input, and
/// flushes. Only adds terms: those of the pattern's text to `patterns`, those of the arguments and
/// of the result to `bank`. Returns `Room` only if one of the two stores is full.
pub fn make_term_over<B: TermBank, W: Write>(
    alloc: Global,
    patterns: &mut B,
    bank: &mut B,
    pattern: &[u8],
    args: &[u8],
    out: &mut Output<'_, W>,
) -> Result<Ending, RunFault>
    ensures ends { IfOk result (λ ending.
        Concludes (IsMakeDue pattern.now args.now) ending (contents_of W.contents out.old)
        (contents_of W.contents out.new)) }
    ensures fault { IfErr result (λ fault.
        Breaks (IsMakeDue pattern.now args.now) fault (contents_of W.contents out.old)
        (contents_of W.contents out.new)) }
    ensures no_depth { IfErr result IsNotDeep }
    ensures room { IfErr result (RoomFillsOne (B.store patterns.old) (B.store patterns.new)
        (B.store bank.old) (B.store bank.new)) }
    ensures caps { ((B.store patterns.new).cap ≡ (B.store patterns.old).cap)
        × ((B.store bank.new).cap ≡ (B.store bank.old).cap) }
    ensures no_reader { IfErr result (λ fault. fault ≢ RunFault.Read) }
    ensures reports { ReportsWrite out.old out.new result }
{
    let reading = read_pattern_in(alloc, pattern, patterns)?;
    make_over(alloc, reading, bank, pattern, args, out)
}

/// Fills a pattern with arguments in an empty store, which it drops.
fn make_owned<B: TermBank + Drop, W: Write>(
    alloc: Global,
    mut bank: B,
    pattern: &[u8],
    args: &[u8],
    out: &mut W,
) -> Result<Ending, RunFault>
    requires limit { (B.store bank).cap ≡ 1073741824 }
    ensures ends { IfOk result (λ ending. Concludes (IsMakeDue pattern.now args.now) ending
        (W.contents out.old) (W.contents out.new)) }
    ensures fault { IfErr result (λ fault.
        Breaks (IsMakeDue pattern.now args.now) fault (W.contents out.old) (W.contents out.new)) }
    ensures no_depth { IfErr result IsNotDeep }
    ensures no_reader { IfErr result (λ fault. fault ≢ RunFault.Read) }
{
    let reading = read_pattern(alloc, pattern)?;
    let mut output = Output::new(out);
    make_over(alloc, reading, &mut bank, pattern, args, &mut output)
}

/// Fills the pattern that `reading` has with arguments, in a store of the caller.
fn make_over<B: TermBank, W: Write>(
    alloc: Global,
    reading: Reading<Pattern>,
    bank: &mut B,
    pattern: &[u8],
    args: &[u8],
    out: &mut Output<'_, W>,
) -> Result<Ending, RunFault>
    requires read { IsPatternRead pattern.now reading }
    ensures ends { IfOk result (λ ending.
        Concludes (IsMakeDue pattern.now args.now) ending (contents_of W.contents out.old)
        (contents_of W.contents out.new)) }
    ensures fault { IfErr result (λ fault.
        Breaks (IsMakeDue pattern.now args.now) fault (contents_of W.contents out.old)
        (contents_of W.contents out.new)) }
    ensures no_depth { IfErr result IsNotDeep }
    ensures room { IfErr result (RoomFills (B.store bank.old) (B.store bank.new)) }
    ensures cap { (B.store bank.new).cap ≡ (B.store bank.old).cap }
    ensures no_reader { IfErr result (λ fault. fault ≢ RunFault.Read) }
    ensures reports { ReportsWrite out.old out.new result }
{
    let made = make_of_reading(alloc, reading, args, bank)?;
    end_term(alloc, bank, &made, out, &TermLines::Text)
}
