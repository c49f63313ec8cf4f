//! Writes error lines, lines of terms, and numbers.

ghost use Rattle.std.specs.Prelude.{◌++◌, IfErr, IsSome, OnErr, OnOk, decimal};
ghost use Rattle.std.specs.Io.KnownBytes.{Appends};
ghost use Rattle.rx_term.specs.Store.{tree_at};
ghost use Rattle.rx_text.specs.Output.{ReportsRefusal, Writes};
ghost use Rattle.rx_text.specs.Output.{WritesFront, contents_of};
ghost use Rattle.rx_text.specs.Written.{AppendsFront};
ghost use Rattle.rx_run.specs.Due.{steps_text};
ghost use Rattle.rx_run.specs.Refusals.{name_of, refusal_due, word_of};
ghost use Rattle.rx_run.specs.Run.{StopsAfter, StopsWriting};
ghost use Rattle.rx_run.specs.Streams.{ReportsWrite};
ghost use Rattle.rx_run.specs.TermRuns.{line_at};

use crate::ending::{RunFault, Source};
use crate::refusal::{Reason, Refusal};
use itoa::Buffer;
use rx_term::{Term, TermBank};
use rx_text::{Output, RefusedWrite, WriteFault, write_to};
use std::alloc::Global;
use std::io::Write;

/// Writes the error line of a rejected input. The output is not used again after a failed write.
pub fn write_refusal_to<W: Write>(
    refusal: Refusal,
    out: &mut Output<'_, W>,
) -> Result<(), RefusedWrite>
    ensures ok { OnOk result (Writes W.contents out.old out.new (refusal_due refusal).text) }
    ensures err { OnErr result (WritesFront W.contents out.old out.new (refusal_due refusal).text) }
    ensures reports { ReportsRefusal out.old out.new result }
{
    write_word(refusal.text, out)?;
    write_name(refusal.reason, out)?;
    out.put(b"\n")?;
    Ok(())
}

/// Writes the start of an error line, which names the input.
fn write_word<W: Write>(text: Source, out: &mut Output<'_, W>) -> Result<(), RefusedWrite>
    ensures ok { OnOk result (Writes W.contents out.old out.new (word_of text)) }
    ensures err { OnErr result (WritesFront W.contents out.old out.new (word_of text)) }
    ensures reports { ReportsRefusal out.old out.new result }
{
    match text {
        Source::Spec => out.put(b"!spec "),
        Source::Terms => out.put(b"!terms "),
        Source::Term => out.put(b"!term "),
        Source::Pattern => out.put(b"!pattern "),
        Source::Args => out.put(b"!args "),
    }
}

/// Writes the error code.
fn write_name<W: Write>(reason: Reason, out: &mut Output<'_, W>) -> Result<(), RefusedWrite>
    ensures ok { OnOk result (Writes W.contents out.old out.new (name_of reason)) }
    ensures err { OnErr result (WritesFront W.contents out.old out.new (name_of reason)) }
    ensures reports { ReportsRefusal out.old out.new result }
{
    match reason {
        Reason::Long => out.put(b"L1"),
        Reason::Grammar { at: _ } => out.put(b"G"),
        Reason::Rule { number, at: _ } => put_numbered_to(out, b"S", u64::from(number)),
        Reason::Outside { at: _ } => out.put(b"A"),
        Reason::TermsRule { number } => put_numbered_to(out, b"T", u64::from(number)),
        Reason::Unknown => out.put(b"P1"),
        Reason::Annotated => out.put(b"P2"),
        Reason::Unlisted => out.put(b"T1"),
        Reason::Count => out.put(b"M1"),
        Reason::Kind => out.put(b"M2"),
        Reason::NotTable => out.put(b"R1"),
        Reason::Element { number: _ } => out.put(b"R2"),
    }
}

/// Writes the printed form of a term and a line end. `lines` lines have been written before; an
/// error counts them too. The output is not used again after a failed write.
pub fn write_line_to<B: TermBank, W: Write>(
    alloc: Global,
    bank: &B,
    t: Term,
    lines: u64,
    out: &mut Output<'_, W>,
) -> Result<(), RunFault>
    requires held { IsSome (tree_at (B.store bank.now) t) }
    ensures ok { OnOk result (Writes W.contents out.old out.new (line_at (B.store bank.now) t)) }
    ensures err { IfErr result (λ fault. StopsAfter lines fault (line_at (B.store bank.now) t)
        (contents_of W.contents out.old) (contents_of W.contents out.new)) }
    ensures writing { IfErr result StopsWriting }
    ensures reports { ReportsWrite out.old out.new result }
{
    match write_to(alloc, bank, t, out) {
        Ok(()) => {}
        Err(WriteFault::Memory) => return Err(RunFault::Memory { lines }),
        Err(WriteFault::Write) => return Err(RunFault::Write),
    }
    out.put(b"\n")?;
    Ok(())
}

/// Writes a text and then a decimal number.
pub fn put_numbered<W: Write>(out: &mut W, text: &[u8], n: u64) -> Result<(), RefusedWrite>
    ensures ok { OnOk result
        (Appends (W.contents out.old) (W.contents out.new) (text.now ++ decimal n)) }
    ensures err { OnErr result
        (AppendsFront (text.now ++ decimal n) (W.contents out.old) (W.contents out.new)) }
{
    let mut output = Output::new(out);
    put_numbered_to(&mut output, text, n)
}

/// Writes a text and then a decimal number to an output, which is not used again after a failed
/// write.
pub fn put_numbered_to<W: Write>(
    out: &mut Output<'_, W>,
    text: &[u8],
    n: u64,
) -> Result<(), RefusedWrite>
    ensures ok { OnOk result (Writes W.contents out.old out.new (text.now ++ decimal n)) }
    ensures err { OnErr result (WritesFront W.contents out.old out.new (text.now ++ decimal n)) }
    ensures reports { ReportsRefusal out.old out.new result }
{
    out.put(text)?;
    out.put(Buffer::new().format(n).as_bytes())?;
    Ok(())
}

/// Writes a tab and the number of steps if `counted` is true, otherwise nothing.
pub fn write_steps<W: Write>(counted: bool, steps: u64, out: &mut W) -> Result<(), RefusedWrite>
    ensures ok { OnOk result
        (Appends (W.contents out.old) (W.contents out.new) (steps_text counted steps)) }
    ensures err { OnErr result
        (AppendsFront (steps_text counted steps) (W.contents out.old) (W.contents out.new)) }
{
    let mut output = Output::new(out);
    write_steps_to(counted, steps, &mut output)
}

/// Writes a tab and the number of steps to an output if `counted` is true, otherwise nothing. The
/// output is not used again after a failed write.
pub fn write_steps_to<W: Write>(
    counted: bool,
    steps: u64,
    out: &mut Output<'_, W>,
) -> Result<(), RefusedWrite>
    ensures ok { OnOk result (Writes W.contents out.old out.new (steps_text counted steps)) }
    ensures err { OnErr result (WritesFront W.contents out.old out.new (steps_text counted steps)) }
    ensures reports { ReportsRefusal out.old out.new result }
{
    if counted {
        put_numbered_to(out, b"\t", steps)
    } else {
        Ok(())
    }
}
