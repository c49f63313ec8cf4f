//! Writes the result of an evaluation as a line.

ghost use Rattle.std.specs.Prelude.{
  ◌≡◌,
  ◌++◌,
  IfErr,
  IfOk,
  IfSome,
  IsSome,
  OnErr,
  OnOk,
  codes,
};
ghost use Rattle.std.specs.Io.KnownBytes.{Appends};
ghost use Rattle.rx_term.specs.Store.{tree_at};
ghost use Rattle.rx_term.specs.Tree.{Trees, annotations, list_of};
ghost use Rattle.rx_text.specs.Canon.{canon, canon_all};
ghost use Rattle.rx_table.specs.Table.{table};
ghost use Rattle.rx_text.specs.Output.{ReportsRefusal, Writes};
ghost use Rattle.rx_text.specs.Output.{WritesFront};
ghost use Rattle.rx_text.specs.Written.{AppendsFront};
ghost use Rattle.rec_run.specs.EvaluatedLines.{
  HoldsValue,
  IsThereFor,
  ReportsOutput,
  due_before,
  figures_of,
  is_limit_line,
  is_over,
  outcome_line,
  outcome_text,
  said,
  unsaid,
  value_of,
};
ghost use Rattle.rec_run.specs.GivenTerms.{item_at};
ghost use Rattle.rec_run.specs.Output.{is_longer, notes_text};
ghost use Rattle.rec_run.specs.Run.{HasRoom};
ghost use Rattle.rec_run.specs.declared.options.ValueForm.TheVariants.{Within};

use crate::options::{LimitLines, Run, ValueForm};
use rec_engine::Outcome;
use rx_run::{RunFault, put_numbered_to, write_steps_to};
use rx_table::{count_cells, write_table_to};
use rx_term::{Term, TermBank};
use rx_text::{Output, RefusedWrite, write_to, write_within};
use std::alloc::{AllocError, Global};
use std::io::Write;

/// A term, and the result of its evaluation.
#[derive(Clone, Copy, Drop)]
pub(crate) struct Evaluated {
    /// The term.
    pub(crate) term: Term,
    /// The result.
    pub(crate) outcome: Outcome,
}

/// A value, and the number of steps that it took.
#[derive(Clone, Copy, Drop)]
struct Valued {
    /// The value.
    term: Term,
    /// The number of steps.
    steps: u64,
}

/// Writes the result of an evaluation, without the annotations of a limit line and without the line
/// end. Returns whether the line is a limit line.
fn write_outcome<B: TermBank, W: Write>(
    run: Run,
    bank: &B,
    outcome: Outcome,
    out: &mut Output<'_, W>,
) -> Result<bool, RunFault>
    requires held { HoldsValue (B.store bank.now) outcome }
    ensures limit { IfOk result (λ limited. limited
        ≡ is_limit_line run.settings.form (B.store bank.now) outcome) }
    ensures ok { OnOk result (Writes W.contents out.old out.new
        (outcome_text run.settings (B.store bank.now) outcome)) }
    ensures err { OnErr result (WritesFront W.contents out.old out.new
        (outcome_text run.settings (B.store bank.now) outcome)) }
    ensures room { IfErr result HasRoom }
    ensures reports { ReportsOutput out.old out.new result }
{
    match outcome {
        Outcome::Value { term, steps } => write_value(run, bank, Valued { term, steps }, out),
        Outcome::Limit => {
            put_numbered_to(out, b"!limit ", run.settings.options.steps)?;
            Ok(true)
        }
    }
}

/// Writes a value in the form of values, without the annotations of a limit line. Returns whether
/// its line is a limit line.
fn write_value<B: TermBank, W: Write>(
    run: Run,
    bank: &B,
    valued: Valued,
    out: &mut Output<'_, W>,
) -> Result<bool, RunFault>
    requires held { IsSome (tree_at (B.store bank.now) valued.term) }
    ensures limit { IfOk result (λ limited. limited
        ≡ is_longer (value_of run.settings.form (B.store bank.now) valued.term)) }
    ensures ok { OnOk result (Writes W.contents out.old out.new
        (unsaid (figures_of run.settings (B.store bank.now) valued.term valued.steps)
        (value_of run.settings.form (B.store bank.now) valued.term))) }
    ensures err { OnErr result (WritesFront W.contents out.old out.new
        (unsaid (figures_of run.settings (B.store bank.now) valued.term valued.steps)
        (value_of run.settings.form (B.store bank.now) valued.term))) }
    ensures room { IfErr result HasRoom }
    ensures reports { ReportsOutput out.old out.new result }
{
    match run.settings.form {
        ValueForm::Plain => {
            write_plain(run, bank, valued, out)?;
            Ok(false)
        }
        ValueForm::Within(most) => write_bounded(run, bank, valued, most, out),
        ValueForm::Table => {
            write_tabled(run, bank, valued, out)?;
            Ok(false)
        }
    }
}

/// Writes the text of a value of any length, and its numbers.
fn write_plain<B: TermBank, W: Write>(
    run: Run,
    bank: &B,
    valued: Valued,
    out: &mut Output<'_, W>,
) -> Result<(), RunFault>
    requires held { IsSome (tree_at (B.store bank.now) valued.term) }
    ensures ok { OnOk result (Writes W.contents out.old out.new
        (canon (item_at (B.store bank.now) valued.term)
        ++ figures_of run.settings (B.store bank.now) valued.term valued.steps)) }
    ensures err { OnErr result (WritesFront W.contents out.old out.new
        (canon (item_at (B.store bank.now) valued.term)
        ++ figures_of run.settings (B.store bank.now) valued.term valued.steps)) }
    ensures room { IfErr result HasRoom }
    ensures reports { ReportsOutput out.old out.new result }
{
    write_to(run.alloc, bank, valued.term, out)?;
    write_figures(run, bank, valued, out)
}

/// Writes the table of a value, and its numbers.
fn write_tabled<B: TermBank, W: Write>(
    run: Run,
    bank: &B,
    valued: Valued,
    out: &mut Output<'_, W>,
) -> Result<(), RunFault>
    requires held { IsSome (tree_at (B.store bank.now) valued.term) }
    ensures ok { OnOk result (Writes W.contents out.old out.new
        (canon (table (item_at (B.store bank.now) valued.term))
        ++ figures_of run.settings (B.store bank.now) valued.term valued.steps)) }
    ensures err { OnErr result (WritesFront W.contents out.old out.new
        (canon (table (item_at (B.store bank.now) valued.term))
        ++ figures_of run.settings (B.store bank.now) valued.term valued.steps)) }
    ensures room { IfErr result HasRoom }
    ensures reports { ReportsOutput out.old out.new result }
{
    write_table_to(run.alloc, bank, valued.term, out)?;
    write_figures(run, bank, valued, out)
}

/// Writes the numbers of a value: of its steps, and of its cells, each if it is printed.
fn write_figures<B: TermBank, W: Write>(
    run: Run,
    bank: &B,
    valued: Valued,
    out: &mut Output<'_, W>,
) -> Result<(), RunFault>
    requires held { IsSome (tree_at (B.store bank.now) valued.term) }
    ensures ok { OnOk result (Writes W.contents out.old out.new
        (figures_of run.settings (B.store bank.now) valued.term valued.steps)) }
    ensures err { OnErr result (WritesFront W.contents out.old out.new
        (figures_of run.settings (B.store bank.now) valued.term valued.steps)) }
    ensures room { IfErr result HasRoom }
    ensures reports { ReportsOutput out.old out.new result }
{
    write_steps_to(run.settings.options.count, valued.steps, out)?;
    if run.settings.sizes {
        let cells = count_cells(run.alloc, bank, valued.term)?;
        put_numbered_to(out, b"\t", u64::from(cells))?;
    }
    Ok(())
}

/// Writes a value of at most `most` bytes and its numbers, or `!bytes`. Returns whether the value is
/// longer.
fn write_bounded<B: TermBank, W: Write>(
    run: Run,
    bank: &B,
    valued: Valued,
    most: u64,
    out: &mut Output<'_, W>,
) -> Result<bool, RunFault>
    requires held { IsSome (tree_at (B.store bank.now) valued.term) }
    ensures limit { IfOk result (λ limited. limited
        ≡ is_longer (value_of (Within most) (B.store bank.now) valued.term)) }
    ensures ok { OnOk result (Writes W.contents out.old out.new
        (unsaid (figures_of run.settings (B.store bank.now) valued.term valued.steps)
        (value_of (Within most) (B.store bank.now) valued.term))) }
    ensures err { OnErr result (WritesFront W.contents out.old out.new
        (unsaid (figures_of run.settings (B.store bank.now) valued.term valued.steps)
        (value_of (Within most) (B.store bank.now) valued.term))) }
    ensures room { IfErr result HasRoom }
    ensures reports { ReportsOutput out.old out.new result }
{
    let text = write_within(run.alloc, bank, valued.term, most as usize)?;
    match text {
        Some(text) => {
            out.put(&text)?;
            write_figures(run, bank, valued, out)?;
            Ok(false)
        }
        None => {
            put_numbered_to(out, b"!bytes ", most)?;
            Ok(true)
        }
    }
}

/// Returns whether the step limit was too low.
pub fn is_limit(outcome: Outcome) -> bool
    ensures { result ≡ is_over outcome }
{
    matches!(outcome, Outcome::Limit)
}

/// Writes the line of the result of an evaluation. Returns whether it is a limit line.
pub(crate) fn write_outcome_line<B: TermBank, W: Write>(
    run: Run,
    bank: &B,
    evaluated: Evaluated,
    out: &mut Output<'_, W>,
) -> Result<bool, RunFault>
    requires held { HoldsValue (B.store bank.now) evaluated.outcome }
    requires there { IsThereFor run.settings.limits (B.store bank.now) evaluated.term }
    ensures limit { IfOk result (λ limited. limited
        ≡ is_limit_line run.settings.form (B.store bank.now) evaluated.outcome) }
    ensures ok { OnOk result (Writes W.contents out.old out.new
        (outcome_line run.settings (B.store bank.now) evaluated.term evaluated.outcome
        ++ codes "\n")) }
    ensures err { IfErr result (λ fault. WritesFront W.contents out.old out.new
        (due_before fault (outcome_line run.settings (B.store bank.now) evaluated.term
        evaluated.outcome))) }
    ensures room { IfErr result HasRoom }
    ensures reports { ReportsOutput out.old out.new result }
{
    let limited = write_outcome(run, bank, evaluated.outcome, out)?;
    write_said(run, bank, evaluated.term, limited, out)?;
    out.put(b"\n")?;
    Ok(limited)
}

/// Writes the annotations of the term of a limit line, if limit lines have them.
fn write_said<B: TermBank, W: Write>(
    run: Run,
    bank: &B,
    term: Term,
    limited: bool,
    out: &mut Output<'_, W>,
) -> Result<(), RunFault>
    requires there { IsThereFor run.settings.limits (B.store bank.now) term }
    ensures ok { OnOk result (Writes W.contents out.old out.new
        (said limited run.settings.limits (annotations (item_at (B.store bank.now) term)))) }
    ensures err { OnErr result (WritesFront W.contents out.old out.new
        (said limited run.settings.limits (annotations (item_at (B.store bank.now) term)))) }
    ensures room { IfErr result HasRoom }
    ensures reports { ReportsOutput out.old out.new result }
{
    match (run.settings.limits, limited) {
        (LimitLines::Annotated, true) => write_notes_to(run.alloc, bank, term, out),
        _ => Ok(()),
    }
}

/// Writes the annotations of a term in braces, or nothing if it has none.
pub fn write_notes<B: TermBank, W: Write>(
    alloc: Global,
    bank: &B,
    t: Term,
    out: &mut W,
) -> Result<(), RunFault>
    requires { IsSome (tree_at (B.store bank.now) t) }
    ensures ok { OnOk result (Appends (W.contents out.old) (W.contents out.new)
        (notes_text (annotations (item_at (B.store bank.now) t)))) }
    ensures err { OnErr result (AppendsFront (notes_text (annotations
        (item_at (B.store bank.now) t))) (W.contents out.old) (W.contents out.new)) }
{
    let mut output = Output::new(out);
    write_notes_to(alloc, bank, t, &mut output)
}

/// Writes the annotations of a term in braces to an output, or nothing if it has none. An output
/// that has failed is not used again.
pub fn write_notes_to<B: TermBank, W: Write>(
    alloc: Global,
    bank: &B,
    t: Term,
    out: &mut Output<'_, W>,
) -> Result<(), RunFault>
    requires held { IsSome (tree_at (B.store bank.now) t) }
    ensures ok { OnOk result (Writes W.contents out.old out.new
        (notes_text (annotations (item_at (B.store bank.now) t)))) }
    ensures err { OnErr result (WritesFront W.contents out.old out.new
        (notes_text (annotations (item_at (B.store bank.now) t)))) }
    ensures room { IfErr result HasRoom }
    ensures reports { ReportsOutput out.old out.new result }
{
    match bank.anns(t) {
        None => Ok(()),
        Some(list) => {
            let text = items_text(alloc, bank, list)?;
            put_between(b"{", &text, b"}", out)?;
            Ok(())
        }
    }
}

/// Returns the printed items of a list without annotations, separated by commas.
fn items_text<B: TermBank>(alloc: Global, bank: &B, list: Term) -> Result<Vec<u8>, AllocError>
    requires { (ts : Trees) × (tree_at (B.store bank.now) list ≡ Some (list_of ts)) }
    ensures { IfOk result (λ text. (ts : Trees)
        → tree_at (B.store bank.now) list ≡ Some (list_of ts) → text.items ≡ canon_all ts) }
{
    let text = term_text(alloc, bank, list)?;
    Vec::from_slice(alloc, &text[1..text.len() - 1])
}

/// Returns the printed text of a term.
fn term_text<B: TermBank>(alloc: Global, bank: &B, t: Term) -> Result<Vec<u8>, AllocError>
    requires { IsSome (tree_at (B.store bank.now) t) }
    ensures { IfOk result (λ text.
        IfSome (tree_at (B.store bank.now) t) (λ u. text.items ≡ canon u)) }
{
    let mut text = Vec::new(alloc);
    match rx_text::write(alloc, bank, t, &mut text) {
        Ok(()) => Ok(text),
        Err(_) => Err(AllocError),
    }
}

/// Writes `left`, `text` and `right`, one after another.
fn put_between<W: Write>(
    left: &[u8],
    text: &[u8],
    right: &[u8],
    out: &mut Output<'_, W>,
) -> Result<(), RefusedWrite>
    ensures ok { OnOk result
        (Writes W.contents out.old out.new (left.now ++ text.now ++ right.now)) }
    ensures err { OnErr result
        (WritesFront W.contents out.old out.new (left.now ++ text.now ++ right.now)) }
    ensures reports { ReportsRefusal out.old out.new result }
{
    out.put(left)?;
    out.put(text)?;
    out.put(right)?;
    Ok(())
}
