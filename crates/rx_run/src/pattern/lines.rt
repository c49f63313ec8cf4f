//! Writes the output of a run with a pattern.

ghost use Rattle.std.specs.Prelude.{◌++◌, IfErr, OnOk, codes, flat_map};
ghost use Rattle.rx_term.specs.Walks.{AllHeld};
ghost use Rattle.rx_text.specs.Output.{Writes, contents_of};
ghost use Rattle.rx_run.specs.Inner.PatternAnswers.{IsAnswerHeld, answer_due};
ghost use Rattle.rx_run.specs.Run.{Stops, StopsWriting};
ghost use Rattle.rx_run.specs.Streams.{ReportsWrite};
ghost use Rattle.rx_run.specs.TermRuns.{line_at};

use crate::ending::RunFault;
use crate::pattern::answer::Answer;
use crate::refusal::Reading;
use crate::writing::{write_line_to, write_refusal_to};
use rx_term::{Term, TermBank};
use rx_text::Output;
use std::alloc::Global;
use std::io::Write;

/// Writes the lines of an answer, or the error line of a rejected input.
pub(crate) fn write_answer<B: TermBank, W: Write>(
    alloc: Global,
    bank: &B,
    answer: &Reading<Answer>,
    out: &mut Output<'_, W>,
) -> Result<(), RunFault>
    requires held { IsAnswerHeld (B.store bank.now) answer.now }
    ensures ok { OnOk result (Writes W.contents out.old out.new
        (answer_due (B.store bank.now) answer.now).text) }
    ensures err { IfErr result (λ fault. Stops fault (answer_due (B.store bank.now) answer.now).text
        (contents_of W.contents out.old) (contents_of W.contents out.new)) }
    ensures writing { IfErr result StopsWriting }
    ensures reports { ReportsWrite out.old out.new result }
{
    match answer {
        Reading::Refused(refusal) => write_refusal_to(*refusal, out)?,
        Reading::Good(Answer::No) => out.put(b"no\n")?,
        Reading::Good(Answer::Yes(bindings)) => write_bindings(alloc, bank, bindings, out)?,
    }
    Ok(())
}

/// Writes `yes` and a line for each binding.
fn write_bindings<B: TermBank, W: Write>(
    alloc: Global,
    bank: &B,
    bindings: &[Term],
    out: &mut Output<'_, W>,
) -> Result<(), RunFault>
    requires held { AllHeld (B.store bank.now) bindings.now }
    ensures ok { OnOk result (Writes W.contents out.old out.new
        (codes "yes\n" ++ flat_map (line_at (B.store bank.now)) bindings.now)) }
    ensures err { IfErr result
        (λ fault. Stops fault (codes "yes\n" ++ flat_map (line_at (B.store bank.now)) bindings.now)
        (contents_of W.contents out.old) (contents_of W.contents out.new)) }
    ensures writing { IfErr result StopsWriting }
    ensures reports { ReportsWrite out.old out.new result }
{
    out.put(b"yes\n")?;
    for i in 0..bindings.len() {
        write_line_to(alloc, bank, bindings[i], i as u64 + 1, out)?;
    }
    Ok(())
}
