//! Reads the text of one term.

ghost use Rattle.std.specs.Prelude.{◌≡◌, ◌<◌, ◌≤◌, IfOk, IfErr, OnOk};
ghost use Rattle.rx_term.specs.Steps.{Grows};
ghost use Rattle.rx_text.specs.Verdict.{Verdict, IsVerdict};
ghost use Rattle.rx_text.specs.Input.{remaining_in};
ghost use Rattle.rx_shared.specs.State.{IsEmptyStore, store_of};
ghost use Rattle.rx_run.specs.Run.{IsReadOut, RanOut, StopsUnwritten};
ghost use Rattle.rx_run.specs.Streams.{ReportsRead};
ghost use Rattle.rx_run.specs.Readings.{IsReadingOfTable, Parses};
ghost use Rattle.rx_run.specs.TermRuns.{IsReadingOf};
ghost use Rattle.rx_run.specs.Inner.TermReadings.{IsGivenIn};

use crate::ending::{RunFault, Source};
use crate::refusal::{Reading, Reason};
use crate::streams::read_all_from;
use rx_shared::SharedBank;
use rx_table::{TableFault, read_table};
use rx_term::{Term, TermBank};
use rx_text::{Input, TextFault};
use std::alloc::Global;
use std::io::Read;

/// The greatest capacity of a term store, in cells.
pub const MOST_CELLS: u32 = 1_073_741_824;

/// The form in which the input of a run is read.
#[derive(Clone, Copy, Debug, Drop, PartialEq, Eq)]
pub enum InputForm {
    /// The text of a term.
    Term,
    /// The text of a table, whose term is taken. A text that is not a table is rejected with `R1` or
    /// `R2`. Only the term takes cells of the store.
    Table,
}

/// Reads an input in this form into a store.
pub(crate) fn read_term<B: TermBank, R: Read>(
    alloc: Global,
    form: InputForm,
    input: &mut Input<'_, R>,
    bank: &mut B,
) -> Result<Reading<Term>, RunFault>
    ensures read { IfOk result (λ reading.
        IsGivenIn form (remaining_in R.remaining input.old) (B.store bank.new) reading) }
    ensures grows { Grows (B.store bank.old) (B.store bank.new) }
    ensures out { OnOk result
        (IsReadOut (remaining_in R.remaining input.old) (remaining_in R.remaining input.new)) }
    ensures fault { IfErr result (StopsUnwritten (B.store bank.old) (B.store bank.new)) }
    ensures reports { ReportsRead input.old input.new result }
{
    let text = read_all_from(alloc, input)?;
    parse_input(alloc, Source::Term, form, &text, bank)
}

/// Creates an empty store with this capacity. The only error is `Memory`.
pub fn empty_bank(alloc: Global, cells: u32) -> Result<SharedBank, RunFault>
    requires { (0 < cells) × (cells ≤ 1073741824) }
    ensures empty { IfOk result (λ bank. IsEmptyStore (store_of bank) cells) }
    ensures fault { IfErr result (λ fault. fault ≡ RunFault.Memory 0) }
{
    match SharedBank::new(alloc, cells) {
        Ok(bank) => Ok(bank),
        Err(_) => Err(RunFault::Memory { lines: 0 }),
    }
}

/// Parses a text into a store. `source` is the input that an error names.
pub fn parse<B: TermBank>(
    alloc: Global,
    source: Source,
    text: &[u8],
    bank: &mut B,
) -> Result<Reading<Term>, RunFault>
    ensures read { IfOk result (λ reading. (v : Verdict) ×
        IsReadingOf source (B.store bank.new) reading v × IsVerdict text.now v) }
    ensures grows { Grows (B.store bank.old) (B.store bank.new) }
    ensures fault { IfErr result (RanOut (B.store bank.old) (B.store bank.new)) }
{
    match rx_text::read(alloc, text, bank) {
        Ok(term) => Ok(Reading::Good(term)),
        Err(TextFault::Long) => Ok(Reading::refused(source, Reason::Long)),
        Err(TextFault::Grammar { at }) => Ok(Reading::refused(source, Reason::Outside { at })),
        Err(TextFault::Memory) => Err(RunFault::Memory { lines: 0 }),
        Err(TextFault::Full) => Err(RunFault::Room { lines: 0 }),
    }
}

/// Reads a text in this form into a store. `source` is the input that an error names. The time is
/// linear in the text.
///
/// # Errors
///
/// `Memory` if an allocation failed, `Room` if `bank` is full.
pub fn parse_input<B: TermBank>(
    alloc: Global,
    source: Source,
    form: InputForm,
    text: &[u8],
    bank: &mut B,
) -> Result<Reading<Term>, RunFault>
    ensures { Parses source form text.now (B.store bank.old) (B.store bank.new) result }
{
    match form {
        InputForm::Term => parse(alloc, source, text, bank),
        InputForm::Table => parse_table(alloc, source, text, bank),
    }
}

/// Reads the text of a table, and makes its term in a store. `source` is the input that an error
/// names.
fn parse_table<B: TermBank>(
    alloc: Global,
    source: Source,
    text: &[u8],
    bank: &mut B,
) -> Result<Reading<Term>, RunFault>
    ensures read { IfOk result (λ reading. (v : Verdict) ×
        IsReadingOfTable source (B.store bank.new) reading v × IsVerdict text.now v) }
    ensures grows { Grows (B.store bank.old) (B.store bank.new) }
    ensures fault { IfErr result (RanOut (B.store bank.old) (B.store bank.new)) }
{
    match read_table(alloc, text, bank) {
        Ok(term) => Ok(Reading::Good(term)),
        Err(TableFault::Long) => Ok(Reading::refused(source, Reason::Long)),
        Err(TableFault::Grammar { at }) => Ok(Reading::refused(source, Reason::Outside { at })),
        Err(TableFault::NotTable) => Ok(Reading::refused(source, Reason::NotTable)),
        Err(TableFault::Element { number }) => {
            Ok(Reading::refused(source, Reason::Element { number }))
        }
        Err(TableFault::Memory) => Err(RunFault::Memory { lines: 0 }),
        Err(TableFault::Full) => Err(RunFault::Room { lines: 0 }),
    }
}
