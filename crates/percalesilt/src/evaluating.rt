//! Specifications and evaluation for C.

ghost use Rattle.std.specs.Prelude.{◌≡◌, ◌≢◌, []};
ghost use Rattle.rx_term.specs.Store.{tree_at};
ghost use Rattle.rx_term.specs.Steps.{Keeps};
ghost use Rattle.psilt_core.specs.Codes.{told};
ghost use Rattle.psilt_core.specs.Answers.{term_of, terms_of};
ghost use Rattle.psilt_core.specs.Banks.{store_of};
ghost use Rattle.psilt_core.specs.Calling.{CallsOn};
ghost use Rattle.psilt_core.specs.Evaluating.{Specifies, Unspecifies, Normalises, CountsTerms};
ghost use Rattle.psilt_core.specs.Evaluating.{GivesTerm, normalised_of};
ghost use Rattle.psilt_core.specs.Handles.{OnWork};
ghost use Rattle.psilt_core.specs.Works.{IsSameButBound, IsSameButRun, IsSameButSpec, Forgets};
ghost use Rattle.psilt_core.specs.Works.{KeepsRefusal};

use crate::answer::{give, on_work, tell, tell_done, tell_value};
use psilt_core::Psilt;
use rx_term::Term;
use std::alloc::Global;

/// Reads and checks a specification, which replaces the one before, if any.
///
/// The memo table has `memo` entries. Garbage is collected at the latest after `reclaim` new cells.
#[unsafe(no_mangle)]
pub extern "C" fn psilt_spec(
    alloc: Global,
    psilt: &mut Psilt,
    text: &[u8],
    memo: u32,
    reclaim: u32,
) -> u32
    ensures answer { OnWork psilt.old psilt.new result
        (λ v w. Specifies v.bank w.bank text.now memo reclaim w.place w.rule (told result tt)
        × IsSameButSpec v w) }
{
    tell_done(on_work!(psilt, alloc, work, work.specify(alloc, text, memo, reclaim)))
}

/// Removes the specification.
#[unsafe(no_mangle)]
pub extern "C" fn psilt_spec_free(alloc: Global, psilt: &mut Psilt) -> u32
    ensures answer { OnWork psilt.old psilt.new result
        (λ v w. Unspecifies v.bank w.bank (told result tt) × IsSameButSpec v w) }
{
    tell_done(on_work!(psilt, alloc, work, work.unspecify()))
}

/// Evaluates a term with a limit of `steps` steps. Writes its normal form and the number of steps.
#[unsafe(no_mangle)]
pub extern "C" fn psilt_normalise(
    alloc: Global,
    psilt: &mut Psilt,
    term: u32,
    steps: u64,
    value: &mut u32,
    taken: &mut u64,
) -> u32
    ensures answer { OnWork psilt.old psilt.new result
        (λ v w. Normalises v.bank w.bank (term_of term) steps w.rule
        (told result (normalised_of value.new taken.new))
        × Keeps (store_of v.bank) (store_of w.bank) []
        × (tree_at (store_of w.bank) (term_of term) ≡ tree_at (store_of v.bank) (term_of term))
        × Forgets v.bound.items w.bound.items (told result (normalised_of value.new taken.new))
        × IsSameButRun v w) }
    ensures kept { result ≢ 0 → (value.new ≡ value.old) × (taken.new ≡ taken.old) }
{
    tell_value(
        on_work!(psilt, alloc, work, work.normalise(alloc, Term(term), steps)),
        value,
        taken,
    )
}

/// Evaluates the call of a symbol on values with a limit of `steps` steps. Writes its value and the
/// number of steps.
#[unsafe(no_mangle)]
pub extern "C" fn psilt_call(
    alloc: Global,
    psilt: &mut Psilt,
    symbol: usize,
    args: &[u32],
    steps: u64,
    value: &mut u32,
    taken: &mut u64,
) -> u32
    ensures answer { OnWork psilt.old psilt.new result
        (λ v w. CallsOn v.bank w.bank symbol args.now steps w.rule
        (told result (normalised_of value.new taken.new))
        × Keeps (store_of v.bank) (store_of w.bank) (terms_of args.now)
        × Forgets v.bound.items w.bound.items (told result (normalised_of value.new taken.new))
        × KeepsRefusal v w (told result (normalised_of value.new taken.new))
        × (w.place ≡ v.place) × IsSameButRun v w) }
    ensures kept { result ≢ 0 → (value.new ≡ value.old) × (taken.new ≡ taken.old) }
{
    tell_value(
        on_work!(psilt, alloc, work, work.call(alloc, symbol, args, steps)),
        value,
        taken,
    )
}

/// Writes the number of terms in the `EVAL` section of the specification.
#[unsafe(no_mangle)]
pub extern "C" fn psilt_eval_terms(alloc: Global, psilt: &mut Psilt, out: &mut u32) -> u32
    ensures answer { OnWork psilt.old psilt.new result
        (λ v w. CountsTerms v.bank (told result out.new) × (w ≡ v)) }
    ensures out { result ≢ 0 → out.new ≡ out.old }
{
    tell(on_work!(psilt, alloc, work, work.eval_terms()), out)
}

/// Makes term number `i`, from 0, of the `EVAL` section of the specification.
#[unsafe(no_mangle)]
pub extern "C" fn psilt_eval_term(alloc: Global, psilt: &mut Psilt, i: u32, out: &mut u32) -> u32
    ensures answer { OnWork psilt.old psilt.new result
        (λ v w. GivesTerm v.bank w.bank i (told result (term_of out.new))
        × Keeps (store_of v.bank) (store_of w.bank) []
        × Forgets v.bound.items w.bound.items (told result (term_of out.new))
        × IsSameButBound v w) }
    ensures out { result ≢ 0 → out.new ≡ out.old }
{
    give(on_work!(psilt, alloc, work, work.eval_term(i)), out)
}
