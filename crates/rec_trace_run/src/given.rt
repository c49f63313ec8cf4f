//! Input terms in the form in which they are traced: without a term store.

ghost use Rattle.std.specs.Prelude.{◌≡◌, IfOk, IsSome, Some, length};
ghost use Rattle.std.specs.Option.{ForSome};
ghost use Rattle.rx_term.specs.Store.{tree_at};
ghost use Rattle.rx_term.specs.Tree.{annotations, from_list, list_of};
ghost use Rattle.rec_sorts.specs.Numbering.{Pairwise};
ghost use Rattle.rec_run.specs.GivenTerms.{HoldsTerms, given_at, given_by, item_at};
ghost use Rattle.rec_run.specs.Output.{notes_text};
ghost use Rattle.rec_trace_run.specs.Inner.Telling.{AreGivenTerms, HasNotes};

use rec_run::write_notes;
use rec_sorts::{Checked, Letter, term_letters};
use rx_term::{Term, TermBank};
use std::alloc::{AllocError, Global};

/// Input terms, in their order.
#[derive(Drop)]
pub(crate) struct GivenTerms {
    /// The postfix items of each term.
    pub(crate) letters: Vec<Vec<Letter>>,
    /// The text of the annotations of each term, in braces; empty without annotations.
    pub(crate) notes: Vec<Vec<u8>>,
}

/// Returns the text of a term's annotations.
fn notes_of<B: TermBank>(alloc: Global, bank: &B, t: Term) -> Result<Vec<u8>, AllocError>
    requires { IsSome (tree_at (B.store bank.now) t) }
    ensures { IfOk result
        (λ text. text.items ≡ notes_text (annotations (item_at (B.store bank.now) t))) }
{
    let mut text = Vec::new(alloc);
    match write_notes(alloc, bank, t, &mut text) {
        Ok(()) => Ok(text),
        Err(_) => Err(AllocError),
    }
}

/// Returns the texts of the annotations of all terms of a list, whose number is `count`.
fn notes_of_all<B: TermBank>(
    alloc: Global,
    bank: &B,
    list: Term,
    count: usize,
) -> Result<Vec<Vec<u8>>, AllocError>
    requires held { tree_at (B.store bank.now) list
        ≡ Some (list_of (from_list (given_at (B.store bank.now) list))) }
    requires count { count ≡ length (given_at (B.store bank.now) list) }
    ensures { IfOk result
        (λ notes. Pairwise HasNotes notes.items (given_at (B.store bank.now) list)) }
{
    let mut notes = Vec::new(alloc);
    let mut rest = list;
    for _index in 0..count {
        let text = notes_of(alloc, bank, bank.head(rest))?;
        notes.push(text)?;
        rest = bank.tail(rest);
    }
    Ok(notes)
}

/// Returns the terms of a list, which violate no rule.
fn listed_terms<B: TermBank>(
    alloc: Global,
    checked: &Checked,
    bank: &B,
    list: Term,
) -> Result<GivenTerms, AllocError>
    requires { HoldsTerms checked.now.spec (B.store bank.now) list }
    ensures { IfOk result
        (AreGivenTerms checked.now.spec (given_at (B.store bank.now) list)) }
{
    let letters = term_letters(alloc, checked, bank, list)?;
    let notes = notes_of_all(alloc, bank, list, letters.len())?;
    Ok(GivenTerms { letters, notes })
}

/// Returns the terms of a list, which violate no rule, or no terms without a list.
pub(crate) fn given_terms<B: TermBank>(
    alloc: Global,
    checked: &Checked,
    bank: &B,
    list: Option<Term>,
) -> Result<GivenTerms, AllocError>
    requires { ForSome list (HoldsTerms checked.now.spec (B.store bank.now)) }
    ensures { IfOk result
        (AreGivenTerms checked.now.spec (given_by (B.store bank.now) list)) }
{
    match list {
        Some(list) => listed_terms(alloc, checked, bank, list),
        None => Ok(GivenTerms {
            letters: Vec::new(alloc),
            notes: Vec::new(alloc),
        }),
    }
}
