//! Runs of a check, from the text to its diagnostics and their lines.

ghost use Rattle.std.specs.Prelude.{◌≡◌, IfErr, IfOk, IfSome, OnOk, Some};
ghost use Rattle.rec_syntax.specs.Grammar.{SpecText};
ghost use Rattle.rec_syntax.specs.Syntax.{Spec};
ghost use Rattle.rec_sorts.specs.SpecRules.{Fits, Good, fault};
ghost use Rattle.rx_text.specs.Input.{remaining_in};
ghost use Rattle.rx_text.specs.Output.{contents_of};
ghost use Rattle.rx_run.specs.Run.{IsReadOut, StopsWriting};
ghost use Rattle.rx_run.specs.Streams.{ReportsBoth, ReportsWrite};
ghost use Rattle.rec_check.specs.Findings.{as_diagnostics, found_alone, judgement_of};
ghost use Rattle.rec_check.specs.Runs.{Examined, Stops, Tells};

use crate::calls::uncovered_calls;
use crate::errors::errors;
use crate::finding::{Diagnostic, Kind};
use crate::lines::write_diagnostics;
use crate::order::Reported;
use crate::silenced::unsilenced;
use crate::warned::warnings;
use rec_sorts::{Checked, SortFault, check};
use rec_syntax::{Syntax, SyntaxFault, read_spec};
use rx_run::{RunFault, read_all_from};
use rx_text::{Input, Output};
use std::alloc::{AllocError, Global};
use std::io::{Read, Write};

/// The result of a check.
#[derive(Clone, Copy, Debug, Drop, PartialEq, Eq)]
pub enum Judgement {
    /// The specification is well-formed, without warnings.
    Good,
    /// It is well-formed, with warnings.
    Warned,
    /// The text was rejected.
    Refused,
}

/// All errors of a text, or all its warnings that no comment silences, and the result of the check.
#[derive(Drop)]
pub struct Examination {
    pub judgement: Judgement,
    /// First the error that evaluation reports; the others, and warnings, are in the order of the
    /// text.
    pub diagnostics: Vec<Diagnostic>,
}

/// Reads a specification and writes a line for each error, or for each warning that no comment
/// silences. The first error is the one that evaluation reports; the others, and warnings, are in
/// the order of the text. The lines begin with `name`. If an allocation or a read fails, nothing was
/// written; if a write fails, a prefix of the lines was written.
pub fn run_check<R: Read, W: Write>(
    alloc: Global,
    name: &[u8],
    spec: &mut R,
    out: &mut W,
) -> Result<Judgement, RunFault>
    ensures output { IfOk result (λ end. IfSome (R.remaining spec.old)
        (λ text. Tells name.now text end (W.contents out.old) (W.contents out.new))) }
    ensures fault { IfErr result (λ fault. IfSome (R.remaining spec.old)
        (λ text. Stops name.now text fault (W.contents out.old) (W.contents out.new))) }
    ensures spec_read { OnOk result (IsReadOut (R.remaining spec.old) (R.remaining spec.new)) }
{
    let mut input = Input::new(spec);
    let mut output = Output::new(out);
    check_input(alloc, name, &mut input, &mut output)
}

/// Reads a specification from an input and checks it. A stream that failed is not used again.
fn check_input<R: Read, W: Write>(
    alloc: Global,
    name: &[u8],
    spec: &mut Input<'_, R>,
    out: &mut Output<'_, W>,
) -> Result<Judgement, RunFault>
    ensures output { IfOk result (λ end. IfSome (remaining_in R.remaining spec.old)
        (λ text. Tells name.now text end
        (contents_of W.contents out.old) (contents_of W.contents out.new))) }
    ensures fault { IfErr result (λ fault. IfSome (remaining_in R.remaining spec.old)
        (λ text. Stops name.now text fault
        (contents_of W.contents out.old) (contents_of W.contents out.new))) }
    ensures spec_read { OnOk result (IsReadOut (remaining_in R.remaining spec.old)
        (remaining_in R.remaining spec.new)) }
    ensures reports { ReportsBoth spec.old spec.new out.old out.new result }
{
    let text = read_all_from(alloc, spec)?;
    check_text_to(alloc, name, &text, out)
}

/// Checks a text like [`run_check`].
pub fn check_text<W: Write>(
    alloc: Global,
    name: &[u8],
    text: &[u8],
    out: &mut W,
) -> Result<Judgement, RunFault>
    ensures output { IfOk result
        (λ end. Tells name.now text.now end (W.contents out.old) (W.contents out.new)) }
    ensures fault { IfErr result
        (λ fault. Stops name.now text.now fault (W.contents out.old) (W.contents out.new)) }
{
    let mut output = Output::new(out);
    check_text_to(alloc, name, text, &mut output)
}

/// Checks a text. The output is not used again after a failed write.
fn check_text_to<W: Write>(
    alloc: Global,
    name: &[u8],
    text: &[u8],
    out: &mut Output<'_, W>,
) -> Result<Judgement, RunFault>
    ensures output { IfOk result (λ end. Tells name.now text.now end
        (contents_of W.contents out.old) (contents_of W.contents out.new)) }
    ensures fault { IfErr result (λ fault. Stops name.now text.now fault
        (contents_of W.contents out.old) (contents_of W.contents out.new)) }
    ensures writing { IfErr result StopsWriting }
    ensures reports { ReportsWrite out.old out.new result }
{
    let examination = examine(alloc, text)?;
    write_diagnostics(name, text, &examination.diagnostics, out)?;
    out.flush()?;
    Ok(examination.judgement)
}

/// Returns all errors of a text, or all its warnings that no comment silences, and the result of
/// the check. The cost is that of [`run_check`]. An error means out of memory.
pub fn examine(alloc: Global, text: &[u8]) -> Result<Examination, AllocError>
    ensures { IfOk result
        (λ e. Examined text.now (as_diagnostics e.diagnostics.items) e.judgement) }
{
    match read_spec(alloc, text) {
        Ok(syntax) => examine_syntax(alloc, text, syntax),
        Err(SyntaxFault::Long) => examination_of(alloc, Kind::TooLong, 0),
        Err(SyntaxFault::Grammar { at }) => examination_of(alloc, Kind::Outside, at as usize),
        Err(SyntaxFault::Memory) => Err(AllocError),
    }
}

/// Returns the examination of a text that is not a specification.
fn examination_of(alloc: Global, kind: Kind, at: usize) -> Result<Examination, AllocError>
    ensures found { IfOk result
        (λ e. as_diagnostics e.diagnostics.items ≡ found_alone kind at) }
    ensures refused { IfOk result (λ e. e.judgement ≡ Judgement.Refused) }
{
    let mut diagnostics = Vec::new(alloc);
    diagnostics.push(Diagnostic {
        at,
        end: at,
        kind,
        shown: Vec::new(alloc),
    })?;
    Ok(Examination {
        judgement: Judgement::Refused,
        diagnostics,
    })
}

/// Examines a specification that was read.
fn examine_syntax(alloc: Global, text: &[u8], syntax: Syntax) -> Result<Examination, AllocError>
    requires same { syntax.source ≡ text.now }
    requires fits { Fits text.now }
    requires spelled { SpecText text.now syntax.spec }
    ensures { IfOk result
        (λ e. Examined text.now (as_diagnostics e.diagnostics.items) e.judgement) }
{
    match check(alloc, syntax) {
        Ok(checked) => examine_good(alloc, &checked),
        Err(SortFault::Rule { number, at }) => {
            examine_broken(alloc, text, Reported { number, at })
        }
        Err(SortFault::Memory) => Err(AllocError),
    }
}

/// Returns the warnings for a well-formed specification that no comment silences.
fn examine_good(alloc: Global, checked: &Checked) -> Result<Examination, AllocError>
    requires fits { Fits checked.now.source }
    requires spelled { SpecText checked.now.source checked.now.spec }
    ensures { IfOk result (λ e.
        Examined checked.now.source (as_diagnostics e.diagnostics.items) e.judgement) }
{
    let missing = uncovered_calls(alloc, checked)?;
    let found = warnings(alloc, checked, missing)?;
    let diagnostics = unsilenced(alloc, checked.syntax().source(), found)?;
    Ok(Examination {
        judgement: judge(&diagnostics),
        diagnostics,
    })
}

/// Returns the result of the check of a well-formed specification.
fn judge(warnings: &[Diagnostic]) -> Judgement
    ensures { (y : Spec) → result ≡ judgement_of (Good y) (as_diagnostics warnings.now) }
{
    if warnings.len() == 0 {
        Judgement::Good
    } else {
        Judgement::Warned
    }
}

/// Returns all errors of a specification that violates a rule.
fn examine_broken(alloc: Global, text: &[u8], reported: Reported) -> Result<Examination, AllocError>
    requires fits { Fits text.now }
    requires broken { (y : Spec) × SpecText text.now y
        × (fault y ≡ Some (record { number = reported.number; at = reported.at })) }
    ensures { IfOk result
        (λ e. Examined text.now (as_diagnostics e.diagnostics.items) e.judgement) }
{
    match read_spec(alloc, text) {
        Ok(syntax) => Ok(Examination {
            judgement: Judgement::Refused,
            diagnostics: errors(alloc, &syntax, reported)?,
        }),
        Err(SyntaxFault::Memory) => Err(AllocError),
        Err(SyntaxFault::Long) => unreachable!(),
        Err(SyntaxFault::Grammar { at: _ }) => unreachable!(),
    }
}
