//! Finds the input term that violates a rule, since errors `T1` to `T6` have no offset.

ghost use Rattle.std.specs.Prelude.{◌≡◌, None, IfOk};
ghost use Rattle.rx_text.specs.Verdict.{Verdict, IsVerdict};
ghost use Rattle.rec_syntax.specs.Syntax.{Spec};
ghost use Rattle.rec_sorts.specs.SpecRules as verdict;
ghost use Rattle.rec_sorts.specs.SpecRules.{Good, SpecVerdict};
ghost use Rattle.rec_run.specs.GivenTerms.{IsRefusal};
ghost use Rattle.rec_run.specs.Reading.{IsSpecRead};
ghost use Rattle.rec_run.specs.RefusedItems.{term_in};

use crate::spec::reading::judge;
use rec_sorts::{Checked, broken_element};
use rx_run::{MOST_CELLS, Reading, RunFault, Source, empty_bank, parse};
use rx_term::TermBank;
use std::alloc::{AllocError, Global};

/// Parses and checks a copy of the text of a specification.
fn judge_copy(alloc: Global, text: &[u8]) -> Result<Reading<Checked>, AllocError>
    ensures { IfOk result (IsSpecRead text.now) }
{
    let copy = Vec::from_slice(alloc, text)?;
    judge(alloc, copy)
}

/// Returns the index, from 0, of the first input term that violates on its own the rule by which
/// `terms` is rejected.
///
/// Returns `None` if there is no such term: `spec` is rejected, `terms` is accepted or malformed,
/// or the violated rule requires a list (`T1`).
pub fn refused_term(alloc: Global, spec: &[u8], terms: &[u8]) -> Result<Option<usize>, RunFault>
    ensures first { IfOk result (λ found. (y : Spec) (v : Verdict) → SpecVerdict spec.now (Good y)
        → IsVerdict terms.now v → found ≡ term_in y v) }
    ensures none { IfOk result
        (λ found. (v : verdict.Verdict) → SpecVerdict spec.now v → IsRefusal v → found ≡ None) }
{
    match judge_copy(alloc, spec)? {
        Reading::Refused(_) => Ok(None),
        Reading::Good(checked) => refused_term_for(alloc, &checked, terms),
    }
}

/// Finds the input term that violates a rule, for an accepted specification.
fn refused_term_for(
    alloc: Global,
    checked: &Checked,
    terms: &[u8],
) -> Result<Option<usize>, RunFault>
    ensures { IfOk result
        (λ found. (v : Verdict) → IsVerdict terms.now v → found ≡ term_in checked.now.spec v) }
{
    match empty_bank(alloc, MOST_CELLS) {
        Ok(bank) => refused_term_over(alloc, checked, terms, bank),
        Err(fault) => Err(fault),
    }
}

/// Finds the input term that violates a rule, and makes the terms in `bank`.
fn refused_term_over<B: TermBank + Drop>(
    alloc: Global,
    checked: &Checked,
    terms: &[u8],
    mut bank: B,
) -> Result<Option<usize>, RunFault>
    ensures { IfOk result
        (λ found. (v : Verdict) → IsVerdict terms.now v → found ≡ term_in checked.now.spec v) }
{
    match parse(alloc, Source::Terms, terms, &mut bank)? {
        Reading::Refused(_) => Ok(None),
        Reading::Good(list) => Ok(broken_element(alloc, checked, &bank, list)?),
    }
}
