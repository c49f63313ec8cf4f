//! Runs that list the words of a specification.

ghost use Rattle.std.specs.Prelude.{◌≡◌, ◌≤◌, IfErr, IfOk, IfSome, OnOk, length};
ghost use Rattle.rec_syntax.specs.Grammar.{SpecText};
ghost use Rattle.rec_syntax.specs.Length.{longest};
ghost use Rattle.rx_text.specs.Input.{remaining_in};
ghost use Rattle.rx_text.specs.Output.{contents_of};
ghost use Rattle.rx_run.specs.Run.{IsReadOut, StopsWriting};
ghost use Rattle.rx_run.specs.Streams.{ReportsBoth, ReportsWrite};
ghost use Rattle.rec_uses.specs.Runs.{Concludes, IsText, IsTextRead, Stops};

use crate::choosing::chosen;
use crate::lines::write_uses;
use crate::spots::Spot;
use crate::tables::Tables;
use crate::uses::uses_of;
use rec_syntax::{Syntax, SyntaxFault, read_spec};
use rx_run::{RunFault, read_all_from};
use rx_text::{Input, Output};
use std::alloc::Global;
use std::io::{Read, Write};

/// The settings of a run.
#[derive(Clone, Copy, Drop)]
pub struct UsesSettings<'a> {
    /// The name of the text, with which each line begins.
    pub name: &'a [u8],
    /// The location of a word: only the words that name the same are listed.
    pub at: Option<Spot>,
}

/// The end of a run.
#[derive(Drop)]
pub enum Outcome {
    /// All lines were written.
    Listed,
    /// The text that was read is too long or outside the grammar. Nothing was written.
    Refused(Vec<u8>),
}

/// Reads a specification and writes a line for each of its words but the name, in the order of the
/// text, or for the words that name the same as the word at a location. If an allocation or a read
/// fails, nothing was written; if a write fails, a prefix of the lines was written.
pub fn run_uses<R: Read, W: Write>(
    alloc: Global,
    settings: &UsesSettings<'_>,
    spec: &mut R,
    out: &mut W,
) -> Result<Outcome, RunFault>
    ensures output { IfOk result (λ outcome. IfSome (R.remaining spec.old) (λ text.
        Concludes settings.now text outcome (W.contents out.old) (W.contents out.new))) }
    ensures text { IfOk result (λ outcome. IfSome (R.remaining spec.old) (IsTextRead outcome)) }
    ensures fault { IfErr result (λ fault. IfSome (R.remaining spec.old) (λ text.
        Stops settings.now text fault (W.contents out.old) (W.contents out.new))) }
    ensures spec_read { OnOk result (IsReadOut (R.remaining spec.old) (R.remaining spec.new)) }
{
    let mut input = Input::new(spec);
    let mut output = Output::new(out);
    list_input(alloc, settings, &mut input, &mut output)
}

/// Reads a specification from an input and lists its words. A failed stream is not used again.
fn list_input<R: Read, W: Write>(
    alloc: Global,
    settings: &UsesSettings<'_>,
    spec: &mut Input<'_, R>,
    out: &mut Output<'_, W>,
) -> Result<Outcome, RunFault>
    ensures output { IfOk result (λ outcome. IfSome (remaining_in R.remaining spec.old) (λ text.
        Concludes settings.now text outcome
        (contents_of W.contents out.old) (contents_of W.contents out.new))) }
    ensures text { IfOk result
        (λ outcome. IfSome (remaining_in R.remaining spec.old) (IsTextRead outcome)) }
    ensures fault { IfErr result (λ fault. IfSome (remaining_in R.remaining spec.old) (λ text.
        Stops settings.now text fault
        (contents_of W.contents out.old) (contents_of W.contents out.new))) }
    ensures spec_read { OnOk result (IsReadOut (remaining_in R.remaining spec.old)
        (remaining_in R.remaining spec.new)) }
    ensures reports { ReportsBoth spec.old spec.new out.old out.new result }
{
    let text = read_all_from(alloc, spec)?;
    list_text(alloc, settings, text, out)
}

/// Lists the words of a text. The output is not used again after a failed write.
fn list_text<W: Write>(
    alloc: Global,
    settings: &UsesSettings<'_>,
    text: Vec<u8>,
    out: &mut Output<'_, W>,
) -> Result<Outcome, RunFault>
    ensures output { IfOk result (λ outcome. Concludes settings.now text.items outcome
        (contents_of W.contents out.old) (contents_of W.contents out.new)) }
    ensures text { IfOk result (IsText text.items) }
    ensures fault { IfErr result (λ fault. Stops settings.now text.items fault
        (contents_of W.contents out.old) (contents_of W.contents out.new)) }
    ensures writing { IfErr result StopsWriting }
    ensures reports { ReportsWrite out.old out.new result }
{
    match read_spec(alloc, &text) {
        Ok(syntax) => list_syntax(alloc, settings, &syntax, out),
        Err(SyntaxFault::Memory) => Err(RunFault::Memory { lines: 0 }),
        Err(SyntaxFault::Long) => Ok(Outcome::Refused(text)),
        Err(SyntaxFault::Grammar { at: _ }) => Ok(Outcome::Refused(text)),
    }
}

/// Lists the words of a specification.
fn list_syntax<W: Write>(
    alloc: Global,
    settings: &UsesSettings<'_>,
    syntax: &Syntax,
    out: &mut Output<'_, W>,
) -> Result<Outcome, RunFault>
    requires fits { length syntax.now.source ≤ longest }
    requires spelled { SpecText syntax.now.source syntax.now.spec }
    ensures output { IfOk result (λ outcome. (outcome ≡ Outcome.Listed)
        × Concludes settings.now syntax.now.source Outcome.Listed
        (contents_of W.contents out.old) (contents_of W.contents out.new)) }
    ensures fault { IfErr result (λ fault. Stops settings.now syntax.now.source fault
        (contents_of W.contents out.old) (contents_of W.contents out.new)) }
    ensures writing { IfErr result StopsWriting }
    ensures reports { ReportsWrite out.old out.new result }
{
    let tables = Tables::of(alloc, syntax)?;
    let uses = uses_of(alloc, syntax)?;
    let kept = chosen(alloc, syntax.source(), settings.at, uses)?;
    write_uses(settings.name, syntax, &tables, &kept, out)?;
    out.flush()?;
    Ok(Outcome::Listed)
}
