//! Runs on the text of one term.

ghost use Rattle.std.specs.Prelude.{◌≡◌, ℕ, IfErr, IfOk, OnOk};
ghost use Rattle.rx_text.specs.Output.{Writes, contents_of};
ghost use Rattle.rx_run.specs.Refusals.{ending_of};
ghost use Rattle.rx_run.specs.Run.{BreaksFor, ConcludesFor, IsNotDeep, IsReadOut};
ghost use Rattle.rx_run.specs.Run.{RoomFills, StopsBy, StopsWriting};
ghost use Rattle.rx_run.specs.Streams.{ReportsWrite};
ghost use Rattle.rx_run.specs.TermRuns.{
  IsShareDue,
  IsTermDue,
  IsTermHeld,
  IsUnrooted,
  RunsOnTerm,
  due_at,
};

use crate::ending::RunFault;
use crate::refusal::{Ending, Reading};
use crate::term::output::{TermLines, TermOutput};
use crate::term::reading::{InputForm, MOST_CELLS, empty_bank, read_term};
use crate::writing::write_refusal_to;
use rx_term::{Term, TermBank};
use rx_text::{Input, Output};
use std::alloc::Global;
use std::io::{Read, Write};

/// What a run reads and writes.
#[derive(Clone, Copy)]
pub struct TermRun<L> {
    /// The form in which the input is read.
    pub form: InputForm,
    /// The lines for its term.
    pub lines: L,
}

/// Reads the text of a term and writes its printed form and a line end, or its error line. Flushes
/// at the end. After an error the position of the reader is unspecified.
pub fn print_term<R: Read, W: Write>(
    alloc: Global,
    input: &mut R,
    out: &mut W,
) -> Result<Ending, RunFault>
    ensures ends { IfOk result (λ ending. ConcludesFor IsTermDue (R.remaining input.old)
        ending (W.contents out.old) (W.contents out.new)) }
    ensures fault { IfErr result (λ fault. BreaksFor IsTermDue (R.remaining input.old)
        fault (W.contents out.old) (W.contents out.new)) }
    ensures no_depth { IfErr result IsNotDeep }
    ensures input_read { OnOk result (IsReadOut (R.remaining input.old) (R.remaining input.new)) }
{
    let mut input = Input::new(input);
    let mut output = Output::new(out);
    let run = TermRun {
        form: InputForm::Term,
        lines: TermLines::Text,
    };
    run_on_term(alloc, &mut input, &mut output, &run)
}

/// Reads the text of a term and writes a line with its printed form and a line with the number of
/// its cells, or its error line. Flushes at the end. After an error the position of the reader is
/// unspecified.
pub fn share_term<R: Read, W: Write>(
    alloc: Global,
    input: &mut R,
    out: &mut W,
) -> Result<Ending, RunFault>
    ensures ends { IfOk result (λ ending. ConcludesFor IsShareDue (R.remaining input.old)
        ending (W.contents out.old) (W.contents out.new)) }
    ensures fault { IfErr result (λ fault. BreaksFor IsShareDue (R.remaining input.old)
        fault (W.contents out.old) (W.contents out.new)) }
    ensures no_depth { IfErr result IsNotDeep }
    ensures input_read { OnOk result (IsReadOut (R.remaining input.old) (R.remaining input.new)) }
{
    let mut input = Input::new(input);
    let mut output = Output::new(out);
    let run = TermRun {
        form: InputForm::Term,
        lines: TermLines::TextAndCells,
    };
    run_on_term(alloc, &mut input, &mut output, &run)
}

/// Reads an input in the form of `run` and writes the lines of `run` for its term, or its error line.
/// Flushes at the end. The term store has at most 2^30 cells. A stream that has failed is not used
/// again.
pub fn run_on_term<R: Read, W: Write, L: TermOutput>(
    alloc: Global,
    input: &mut Input<'_, R>,
    out: &mut Output<'_, W>,
    run: &TermRun<L>,
) -> Result<Ending, RunFault>
    ensures { RunsOnTerm run.now.form (L.lines run.now.lines) (L.counts_lines run.now.lines)
        R.remaining W.contents input.old input.new out.old out.new result }
{
    match empty_bank(alloc, MOST_CELLS) {
        Ok(bank) => run_owned(alloc, bank, input, out, run),
        Err(fault) => Err(fault),
    }
}

/// Runs on the text of a term in an empty store, which it drops.
fn run_owned<B: TermBank + Drop, R: Read, W: Write, L: TermOutput>(
    alloc: Global,
    mut bank: B,
    input: &mut Input<'_, R>,
    out: &mut Output<'_, W>,
    run: &TermRun<L>,
) -> Result<Ending, RunFault>
    requires unrooted { (t : ℕ) → (B.store bank).roots t ≡ 0 }
    requires limit { (B.store bank).cap ≡ 1073741824 }
    ensures { RunsOnTerm run.now.form (L.lines run.now.lines) (L.counts_lines run.now.lines)
        R.remaining W.contents input.old input.new out.old out.new result }
{
    run_on_term_over(alloc, &mut bank, input, out, run)
}

/// Reads an input in the form of `run` into a store of the caller, and writes the lines of `run` for
/// its term, or its error line. Flushes at the end. Returns `Room` only if the store is full. If the
/// lines free everything except the term, no term of the store may be protected. A stream that has
/// failed is not used again.
pub fn run_on_term_over<B: TermBank, R: Read, W: Write, L: TermOutput>(
    alloc: Global,
    bank: &mut B,
    input: &mut Input<'_, R>,
    out: &mut Output<'_, W>,
    run: &TermRun<L>,
) -> Result<Ending, RunFault>
    requires unrooted { IsUnrooted (L.reclaims run.now.lines) (B.store bank.old) }
    ensures runs { RunsOnTerm run.now.form (L.lines run.now.lines) (L.counts_lines run.now.lines)
        R.remaining W.contents input.old input.new out.old out.new result }
    ensures room { IfErr result (RoomFills (B.store bank.old) (B.store bank.new)) }
    ensures cap { (B.store bank.new).cap ≡ (B.store bank.old).cap }
{
    let reading = read_term(alloc, run.form, input, bank)?;
    end_term(alloc, bank, &reading, out, &run.lines)
}

/// Writes the specified output for what was read, flushes, and returns the end of the run.
pub(crate) fn end_term<B: TermBank, W: Write, L: TermOutput>(
    alloc: Global,
    bank: &mut B,
    reading: &Reading<Term>,
    out: &mut Output<'_, W>,
    lines: &L,
) -> Result<Ending, RunFault>
    requires held { IsTermHeld (B.store bank.old) reading.now }
    requires unrooted { IsUnrooted (L.reclaims lines.now) (B.store bank.old) }
    ensures ends { IfOk result (λ ending. ending ≡ ending_of reading.now) }
    ensures ok { OnOk result (Writes W.contents out.old out.new
        (due_at (L.lines lines.now) (B.store bank.old) reading.now).text) }
    ensures err { IfErr result (λ fault. StopsBy (L.counts_lines lines.now) fault
        (due_at (L.lines lines.now) (B.store bank.old) reading.now).text
        (contents_of W.contents out.old) (contents_of W.contents out.new)) }
    ensures writing { IfErr result StopsWriting }
    ensures cap { (B.store bank.new).cap ≡ (B.store bank.old).cap }
    ensures reports { ReportsWrite out.old out.new result }
{
    write_due(alloc, bank, reading, out, lines)?;
    out.flush()?;
    Ok(reading.ending())
}

/// Writes the lines of a term, or the error line of a rejected input.
fn write_due<B: TermBank, W: Write, L: TermOutput>(
    alloc: Global,
    bank: &mut B,
    reading: &Reading<Term>,
    out: &mut Output<'_, W>,
    lines: &L,
) -> Result<(), RunFault>
    requires held { IsTermHeld (B.store bank.old) reading.now }
    requires unrooted { IsUnrooted (L.reclaims lines.now) (B.store bank.old) }
    ensures ok { OnOk result (Writes W.contents out.old out.new
        (due_at (L.lines lines.now) (B.store bank.old) reading.now).text) }
    ensures err { IfErr result (λ fault. StopsBy (L.counts_lines lines.now) fault
        (due_at (L.lines lines.now) (B.store bank.old) reading.now).text
        (contents_of W.contents out.old) (contents_of W.contents out.new)) }
    ensures writing { IfErr result StopsWriting }
    ensures cap { (B.store bank.new).cap ≡ (B.store bank.old).cap }
    ensures reports { ReportsWrite out.old out.new result }
{
    match reading {
        Reading::Refused(refusal) => write_refusal_to(*refusal, out)?,
        Reading::Good(t) => lines.write_lines(alloc, bank, *t, out)?,
    }
    Ok(())
}
