//! Runs that match a pattern with a term.

ghost use Rattle.std.specs.Prelude.{◌≡◌, IfErr, IfOk, OnErr, OnOk};
ghost use Rattle.rx_term.specs.Tree.{Tree};
ghost use Rattle.rx_text.specs.Input.{remaining_in};
ghost use Rattle.rx_text.specs.Output.{Writes, contents_of};
ghost use Rattle.rx_run.specs.Inner.PatternAnswers.{IsAnswerHeld, IsPatternRead, answer_due};
ghost use Rattle.rx_run.specs.Refusals.{ending_of};
ghost use Rattle.rx_run.specs.Run.{BreaksFor, ConcludesFor, IsNotDeep};
ghost use Rattle.rx_run.specs.Run.{IsReadOut, RoomFills, RoomFillsOne, Stops, StopsWriting};
ghost use Rattle.rx_run.specs.Streams.{ReportsBoth, ReportsWrite};
ghost use Rattle.rx_run.specs.PatternRuns.{IsMatchDue, IsMatchedFor, IsNoPattern, SpellsPattern};

use crate::ending::RunFault;
use crate::pattern::answer::{Answer, has_matched, match_reading};
use crate::pattern::lines::write_answer;
use crate::pattern::reading::{read_pattern, read_pattern_in};
use crate::refusal::{Ending, Reading};
use crate::term::reading::{MOST_CELLS, empty_bank};
use rx_pattern::Pattern;
use rx_term::TermBank;
use rx_text::{Input, Output};
use std::alloc::Global;
use std::io::{Read, Write};

/// The result of a run that matches a pattern with a term.
#[derive(Clone, Copy)]
pub struct MatchReport {
    /// Whether all lines were written or an input was rejected.
    pub ending: Ending,
    /// Whether the pattern matches the term. False if an input was rejected.
    pub matched: bool,
}

/// Matches a pattern with the text of a term.
///
/// Writes `yes` and a line for each binding, or `no`, or the error line of a rejected input, and
/// flushes. If the pattern is rejected, the input is not read. After an error the position of the
/// reader is unspecified.
pub fn match_term<R: Read, W: Write>(
    alloc: Global,
    pattern: &[u8],
    input: &mut R,
    out: &mut W,
) -> Result<MatchReport, RunFault>
    ensures ends { IfOk result (λ report. ConcludesFor (IsMatchDue pattern.now)
        (R.remaining input.old) report.ending (W.contents out.old) (W.contents out.new)) }
    ensures matched { IfOk result
        (λ report. IsMatchedFor pattern.now (R.remaining input.old) report.matched) }
    ensures fault { IfErr result (λ fault. BreaksFor (IsMatchDue pattern.now)
        (R.remaining input.old) fault (W.contents out.old) (W.contents out.new)) }
    ensures no_depth { IfErr result IsNotDeep }
    ensures input_read { OnOk result ((p : Tree) → SpellsPattern pattern.now p
        → IsReadOut (R.remaining input.old) (R.remaining input.new)) }
    ensures unread { IsNoPattern pattern.now → input.new ≡ input.old }
{
    match empty_bank(alloc, MOST_CELLS) {
        Ok(bank) => match_owned(alloc, bank, pattern, input, out),
        Err(fault) => Err(fault),
    }
}

/// Matches a pattern with the text of a term, in two term stores of the caller.
///
/// Writes `yes` and a line for each binding, or `no`, or the error line of a rejected input, and
/// flushes. If the pattern is rejected, the input is not read. Only adds terms: those of the
/// pattern's text to `patterns`, those of the term to `bank`. Returns `Room` only if one of the two
/// stores is full. A stream that has failed is not used again.
pub fn match_term_over<B: TermBank, R: Read, W: Write>(
    alloc: Global,
    patterns: &mut B,
    bank: &mut B,
    pattern: &[u8],
    input: &mut Input<'_, R>,
    out: &mut Output<'_, W>,
) -> Result<MatchReport, RunFault>
    ensures ends { IfOk result (λ report. ConcludesFor (IsMatchDue pattern.now)
        (remaining_in R.remaining input.old) report.ending (contents_of W.contents out.old)
        (contents_of W.contents out.new)) }
    ensures matched { IfOk result (λ report.
        IsMatchedFor pattern.now (remaining_in R.remaining input.old) report.matched) }
    ensures fault { IfErr result (λ fault. BreaksFor (IsMatchDue pattern.now)
        (remaining_in R.remaining input.old) fault (contents_of W.contents out.old)
        (contents_of W.contents out.new)) }
    ensures no_depth { IfErr result IsNotDeep }
    ensures room { IfErr result (RoomFillsOne (B.store patterns.old) (B.store patterns.new)
        (B.store bank.old) (B.store bank.new)) }
    ensures caps { ((B.store patterns.new).cap ≡ (B.store patterns.old).cap)
        × ((B.store bank.new).cap ≡ (B.store bank.old).cap) }
    ensures input_read { OnOk result ((p : Tree) → SpellsPattern pattern.now p
        → IsReadOut (remaining_in R.remaining input.old) (remaining_in R.remaining input.new)) }
    ensures unread { IsNoPattern pattern.now → input.new ≡ input.old }
    ensures reports { ReportsBoth input.old input.new out.old out.new result }
{
    let reading = read_pattern_in(alloc, pattern, patterns)?;
    match_over(alloc, reading, bank, pattern, input, out)
}

/// Matches a pattern with the text of a term in an empty store, which it drops.
fn match_owned<B: TermBank + Drop, R: Read, W: Write>(
    alloc: Global,
    mut bank: B,
    pattern: &[u8],
    input: &mut R,
    out: &mut W,
) -> Result<MatchReport, RunFault>
    requires limit { (B.store bank).cap ≡ 1073741824 }
    ensures ends { IfOk result (λ report. ConcludesFor (IsMatchDue pattern.now)
        (R.remaining input.old) report.ending (W.contents out.old) (W.contents out.new)) }
    ensures matched { IfOk result
        (λ report. IsMatchedFor pattern.now (R.remaining input.old) report.matched) }
    ensures fault { IfErr result (λ fault. BreaksFor (IsMatchDue pattern.now)
        (R.remaining input.old) fault (W.contents out.old) (W.contents out.new)) }
    ensures no_depth { IfErr result IsNotDeep }
    ensures input_read { OnOk result ((p : Tree) → SpellsPattern pattern.now p
        → IsReadOut (R.remaining input.old) (R.remaining input.new)) }
    ensures unread { IsNoPattern pattern.now → input.new ≡ input.old }
{
    let reading = read_pattern(alloc, pattern)?;
    let mut input = Input::new(input);
    let mut output = Output::new(out);
    match_over(alloc, reading, &mut bank, pattern, &mut input, &mut output)
}

/// Matches the pattern that `reading` has with the text of a term in a store of the caller.
fn match_over<B: TermBank, R: Read, W: Write>(
    alloc: Global,
    reading: Reading<Pattern>,
    bank: &mut B,
    pattern: &[u8],
    input: &mut Input<'_, R>,
    out: &mut Output<'_, W>,
) -> Result<MatchReport, RunFault>
    requires read { IsPatternRead pattern.now reading }
    ensures ends { IfOk result (λ report. ConcludesFor (IsMatchDue pattern.now)
        (remaining_in R.remaining input.old) report.ending (contents_of W.contents out.old)
        (contents_of W.contents out.new)) }
    ensures matched { IfOk result (λ report.
        IsMatchedFor pattern.now (remaining_in R.remaining input.old) report.matched) }
    ensures fault { IfErr result (λ fault. BreaksFor (IsMatchDue pattern.now)
        (remaining_in R.remaining input.old) fault (contents_of W.contents out.old)
        (contents_of W.contents out.new)) }
    ensures no_depth { IfErr result IsNotDeep }
    ensures room { IfErr result (RoomFills (B.store bank.old) (B.store bank.new)) }
    ensures cap { (B.store bank.new).cap ≡ (B.store bank.old).cap }
    ensures input_read { OnOk result ((p : Tree) → SpellsPattern pattern.now p
        → IsReadOut (remaining_in R.remaining input.old) (remaining_in R.remaining input.new)) }
    ensures unread { IsNoPattern pattern.now → input.new ≡ input.old }
    ensures reports { ReportsBoth input.old input.new out.old out.new result }
{
    let answer = match_reading(alloc, reading, input, bank)?;
    let ending = end_answer(alloc, bank, &answer, out)?;
    Ok(MatchReport {
        ending,
        matched: has_matched(&answer),
    })
}

/// Writes the specified output of an answer, flushes, and returns the end of the run.
fn end_answer<B: TermBank, W: Write>(
    alloc: Global,
    bank: &B,
    answer: &Reading<Answer>,
    out: &mut Output<'_, W>,
) -> Result<Ending, RunFault>
    requires held { IsAnswerHeld (B.store bank.now) answer.now }
    ensures ends { IfOk result (λ ending. ending ≡ ending_of answer.now) }
    ensures ok { OnOk result (Writes W.contents out.old out.new
        (answer_due (B.store bank.now) answer.now).text) }
    ensures err { IfErr result (λ fault. Stops fault (answer_due (B.store bank.now) answer.now).text
        (contents_of W.contents out.old) (contents_of W.contents out.new)) }
    ensures writing { IfErr result StopsWriting }
    ensures reports { ReportsWrite out.old out.new result }
{
    write_answer(alloc, bank, answer, out)?;
    out.flush()?;
    Ok(answer.ending())
}
