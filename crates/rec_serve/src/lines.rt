//! Response lines, each of which is complete in memory before it is written.
ghost use Rattle.rec_run.specs.GivenTerms.{item_at};
ghost use Rattle.rec_run.specs.Output.{notes_text, printed};
ghost use Rattle.std.specs.Prelude.{
  ◌≡◌,
  ◌≤◌,
  ◌<◌,
  ◌++◌,
  IfOk,
  IfSome,
  IsSome,
  None,
  OnOk,
  codes,
  length,
};
ghost use Rattle.rx_term.specs.Store.{noted, tree_at};
ghost use Rattle.rx_term.specs.Tree.{annotations};
ghost use Rattle.rx_text.specs.Canon.{canon};
ghost use Rattle.rx_table.specs.Table.{table};
ghost use Rattle.rec_run.specs.EvaluatedLines.{unsaid};
ghost use Rattle.rx_run.specs.Due.{steps_text};
ghost use Rattle.rec_serve.specs.Answering.{shown};
ghost use Rattle.rec_serve.specs.Conversation.{refusal_line};
ghost use Rattle.rec_serve.specs.Inner.Values.{HasBareValue, IsBare, value_for};

use crate::ending::Refusal;
use crate::settings::{ServeSettings, Session};
use rec_engine::Outcome;
use rec_run::ValueForm;
use rx_run::{MOST_CELLS, empty_bank, put_numbered, write_steps};
use rx_table::{copy_term, write_table_to};
use rx_term::{BankFault, Term, TermBank};
use rx_text::{Output, WriteFault, put, write_within};
use std::alloc::{AllocError, Global};

/// Makes the response line of a rejected request.
pub(crate) fn refusal_text(alloc: Global, refusal: Refusal) -> Result<Vec<u8>, WriteFault>
    ensures { IfOk result (λ text. text.items ≡ refusal_line refusal) }
{
    let mut text = Vec::new(alloc);
    match refusal {
        Refusal::Long => put(&mut text, b"!term L1\n")?,
        Refusal::Outside { at: _ } => put(&mut text, b"!term A\n")?,
        Refusal::NotTable => put(&mut text, b"!term R1\n")?,
        Refusal::Element { number: _ } => put(&mut text, b"!term R2\n")?,
        Refusal::Rule { number } => {
            put_numbered(&mut text, b"!term T", u64::from(number))?;
            text.push(b'\n')?;
        }
    }
    Ok(text)
}

/// The term of a request in its store, and its value, in the store of the engine, after some steps.
#[derive(Clone, Copy, Drop)]
struct Evaluated {
    /// The term.
    term: Term,
    /// The value, without the annotations of the term.
    value: Term,
    /// The number of steps.
    steps: u64,
}

/// Makes the line of the outcome, in the store `bank`, of a term of the store `own`. The value has
/// the annotations of the term.
pub(crate) fn outcome_text<N: TermBank, B: TermBank>(
    session: Session,
    own: &N,
    term: Term,
    bank: &B,
    outcome: Outcome,
) -> Result<Vec<u8>, WriteFault>
    requires held { IsSome (tree_at (N.store own.now) term) }
    requires value { HasBareValue (B.store bank.now) outcome }
    ensures { IfOk result (λ text. IfSome (tree_at (N.store own.now) term)
        (λ t. text.items ≡ shown (B.store bank.now) session.settings (annotations t) outcome
        ++ codes "\n")) }
{
    let Session { alloc, settings } = session;
    let mut text = Vec::new(alloc);
    match outcome {
        Outcome::Value { term: value, steps } => {
            let evaluated = Evaluated { term, value, steps };
            write_value(settings, own, bank, evaluated, &mut text)?;
        }
        Outcome::Limit => put_numbered(&mut text, b"!limit ", settings.options.steps)?,
    }
    text.push(b'\n')?;
    Ok(text)
}

/// Appends a value with the annotations of its term and its steps, in the form of values.
fn write_value<N: TermBank, B: TermBank>(
    settings: ServeSettings,
    own: &N,
    bank: &B,
    evaluated: Evaluated,
    text: &mut Vec<u8>,
) -> Result<(), WriteFault>
    requires held { IsSome (tree_at (N.store own.now) evaluated.term) }
    requires bare { IsBare (B.store bank.now) evaluated.value }
    ensures { OnOk result (text.new.items ≡ text.old.items
        ++ unsaid (steps_text settings.options.count evaluated.steps) (printed settings.form
        (value_for (N.store own.now) evaluated.term (B.store bank.now) evaluated.value))) }
{
    let alloc = *text.allocator();
    match settings.form {
        ValueForm::Plain => {
            write_plain(own, bank, evaluated, text)?;
            Ok(write_steps(settings.options.count, evaluated.steps, text)?)
        }
        ValueForm::Within(most) => match bounded_text(alloc, own, bank, evaluated, most)? {
            Some(found) => {
                put(text, &found)?;
                Ok(write_steps(settings.options.count, evaluated.steps, text)?)
            }
            None => Ok(put_numbered(text, b"!bytes ", most)?),
        },
        ValueForm::Table => {
            write_tabled(own, bank, evaluated, text)?;
            Ok(write_steps(settings.options.count, evaluated.steps, text)?)
        }
    }
}

/// Appends a value with the annotations of its term.
fn write_plain<N: TermBank, B: TermBank>(
    own: &N,
    bank: &B,
    evaluated: Evaluated,
    text: &mut Vec<u8>,
) -> Result<(), WriteFault>
    requires held { IsSome (tree_at (N.store own.now) evaluated.term) }
    requires bare { IsBare (B.store bank.now) evaluated.value }
    ensures { OnOk result (text.new.items ≡ text.old.items ++ canon
        (value_for (N.store own.now) evaluated.term (B.store bank.now) evaluated.value)) }
{
    let alloc = *text.allocator();
    rx_text::write(alloc, bank, evaluated.value, text)?;
    write_notes(own, evaluated.term, text)
}

/// Returns the text of a value with the annotations of its term, or `None` if it has more than
/// `most` bytes.
fn bounded_text<N: TermBank, B: TermBank>(
    alloc: Global,
    own: &N,
    bank: &B,
    evaluated: Evaluated,
    most: u64,
) -> Result<Option<Vec<u8>>, WriteFault>
    requires held { IsSome (tree_at (N.store own.now) evaluated.term) }
    requires bare { IsBare (B.store bank.now) evaluated.value }
    ensures whole { IfOk result (λ found. IfSome found (λ text. text.items ≡ canon
        (value_for (N.store own.now) evaluated.term (B.store bank.now) evaluated.value))) }
    ensures within { IfOk result (λ found. IfSome found (λ text. length text.items ≤ most)) }
    ensures longer { IfOk result (λ found. found ≡ None → most < length (canon
        (value_for (N.store own.now) evaluated.term (B.store bank.now) evaluated.value))) }
{
    let mut notes = Vec::new(alloc);
    write_notes(own, evaluated.term, &mut notes)?;
    let Some(left) = (most as usize).checked_sub(notes.len()) else {
        return Ok(None);
    };
    match write_within(alloc, bank, evaluated.value, left) {
        Ok(Some(mut text)) => {
            put(&mut text, &notes)?;
            Ok(Some(text))
        }
        Ok(None) => Ok(None),
        Err(AllocError) => Err(WriteFault::Memory),
    }
}

/// Appends the table of a value with the annotations of its term.
fn write_tabled<N: TermBank, B: TermBank>(
    own: &N,
    bank: &B,
    evaluated: Evaluated,
    text: &mut Vec<u8>,
) -> Result<(), WriteFault>
    requires held { IsSome (tree_at (N.store own.now) evaluated.term) }
    requires bare { IsBare (B.store bank.now) evaluated.value }
    ensures { OnOk result (text.new.items ≡ text.old.items ++ canon (table
        (value_for (N.store own.now) evaluated.term (B.store bank.now) evaluated.value))) }
{
    let alloc = *text.allocator();
    match own.anns(evaluated.term) {
        None => write_table(alloc, bank, evaluated.value, text),
        Some(notes) => {
            let given = Noted {
                value: evaluated.value,
                notes,
            };
            write_noted_table(own, bank, given, text)
        }
    }
}

/// Appends the table of a term.
fn write_table<B: TermBank>(
    alloc: Global,
    bank: &B,
    t: Term,
    text: &mut Vec<u8>,
) -> Result<(), WriteFault>
    requires { IsSome (tree_at (B.store bank.now) t) }
    ensures { OnOk result (text.new.items ≡ text.old.items
        ++ canon (table (item_at (B.store bank.now) t))) }
{
    let mut out = Output::new(text);
    write_table_to(alloc, bank, t, &mut out)
}

/// A value in the store of an engine, and the list of its annotations in another store.
#[derive(Clone, Copy, Drop)]
struct Noted {
    /// The value.
    value: Term,
    /// The list of its annotations.
    notes: Term,
}

/// Appends the table of a value with annotations, which is made in a store for it.
fn write_noted_table<N: TermBank, B: TermBank>(
    own: &N,
    bank: &B,
    given: Noted,
    text: &mut Vec<u8>,
) -> Result<(), WriteFault>
    requires { IsSome (noted (tree_at (B.store bank.now) given.value)
        (tree_at (N.store own.now) given.notes)) }
    ensures { OnOk result (IfSome (noted (tree_at (B.store bank.now) given.value)
        (tree_at (N.store own.now) given.notes))
        (λ u. text.new.items ≡ text.old.items ++ canon (table u))) }
{
    match empty_bank(*text.allocator(), MOST_CELLS) {
        Ok(store) => write_table_in(own, bank, given, store, text),
        Err(_) => Err(WriteFault::Memory),
    }
}

/// Appends the table of a value with annotations, which is made in the store `store`.
fn write_table_in<N: TermBank, B: TermBank, C: TermBank + Drop>(
    own: &N,
    bank: &B,
    given: Noted,
    mut store: C,
    text: &mut Vec<u8>,
) -> Result<(), WriteFault>
    requires { IsSome (noted (tree_at (B.store bank.now) given.value)
        (tree_at (N.store own.now) given.notes)) }
    ensures { OnOk result (IfSome (noted (tree_at (B.store bank.now) given.value)
        (tree_at (N.store own.now) given.notes))
        (λ u. text.new.items ≡ text.old.items ++ canon (table u))) }
{
    let alloc = *text.allocator();
    match annotate(alloc, own, bank, given, &mut store) {
        Ok(t) => write_table(alloc, &store, t, text),
        Err(_) => Err(WriteFault::Memory),
    }
}

/// Makes, in the store `store`, a value with its annotations.
fn annotate<N: TermBank, B: TermBank, C: TermBank>(
    alloc: Global,
    own: &N,
    bank: &B,
    given: Noted,
    store: &mut C,
) -> Result<Term, BankFault>
    requires { IsSome (noted (tree_at (B.store bank.now) given.value)
        (tree_at (N.store own.now) given.notes)) }
    ensures { IfOk result (λ r. tree_at (C.store store.new) r
        ≡ noted (tree_at (B.store bank.now) given.value) (tree_at (N.store own.now) given.notes)) }
{
    let value = copy_term(alloc, bank, given.value, store)?;
    let notes = copy_term(alloc, own, given.notes, store)?;
    store.annotated(value, notes)
}

/// Appends the annotations of a term in braces, if it has any.
fn write_notes<N: TermBank>(bank: &N, t: Term, text: &mut Vec<u8>) -> Result<(), WriteFault>
    requires { IsSome (tree_at (N.store bank.now) t) }
    ensures { OnOk result (IfSome (tree_at (N.store bank.now) t)
        (λ u. text.new.items ≡ text.old.items ++ notes_text (annotations u))) }
{
    let Some(notes) = bank.anns(t) else {
        return Ok(());
    };
    let alloc = *text.allocator();
    let mut list = Vec::new(alloc);
    rx_text::write(alloc, bank, notes, &mut list)?;
    // The text of the list is in brackets.
    text.push(b'{')?;
    put(text, &list[1..list.len() - 1])?;
    text.push(b'}')?;
    Ok(())
}
