//! Details of the errors `M1` and `M2`, which have no offset.

ghost use Rattle.std.specs.Prelude.{◌≡◌, List, None, Some, IfErr, IfOk, IsSome};
ghost use Rattle.rx_term.specs.Tree.{Tree};
ghost use Rattle.rx_term.specs.Store.{tree_at};
ghost use Rattle.rx_term.specs.Walks.{AllHeld, HaveTrees};
ghost use Rattle.rx_text.specs.Verdict.{Verdict, IsVerdict};
ghost use Rattle.rx_run.specs.PatternRuns.{IsNoPattern, SpellsPattern, elements};
ghost use Rattle.rx_run.specs.Run.{StopsAtOnce};
ghost use Rattle.rx_run.specs.RefusedItems.{misfit_among, misfit_in, misfit_of};

use crate::ending::{RunFault, Source};
use crate::pattern::reading::{elements_of, read_pattern};
use crate::refusal::Reading;
use crate::term::reading::{MOST_CELLS, empty_bank, parse};
use rx_pattern::{MakeFault, Pattern};
use rx_term::{Term, TermBank};
use std::alloc::Global;

/// Why arguments do not fit a pattern.
#[derive(Clone, Copy, Debug, Drop, PartialEq, Eq)]
pub enum Misfit {
    /// The pattern has `wanted` placeholders, and there are `given` arguments.
    Count { wanted: usize, given: usize },
    /// The argument with this index, counted from 0, is the first that its placeholder does not
    /// accept.
    Kind { at: usize },
}

/// Returns why the arguments do not fit a pattern. `None` if they fit, and if the pattern or the
/// text of the arguments is rejected with another error.
pub fn refused_argument(
    alloc: Global,
    pattern: &[u8],
    args: &[u8],
) -> Result<Option<Misfit>, RunFault>
    ensures first { IfOk result (λ found. (p : Tree) (v : Verdict) → SpellsPattern pattern.now p
        → IsVerdict args.now v → found ≡ misfit_in p v) }
    ensures none { IfOk result (λ found. IsNoPattern pattern.now → found ≡ None) }
    ensures fault { IfErr result StopsAtOnce }
{
    match read_pattern(alloc, pattern)? {
        Reading::Refused(_) => Ok(None),
        Reading::Good(pattern) => misfit_for(alloc, &pattern, args),
    }
}

/// Returns why the arguments do not fit a pattern, in a store that is dropped afterwards.
fn misfit_for(alloc: Global, pattern: &Pattern, args: &[u8]) -> Result<Option<Misfit>, RunFault>
    ensures why { IfOk result
        (λ found. (v : Verdict) → IsVerdict args.now v → found ≡ misfit_in pattern.now v) }
    ensures fault { IfErr result StopsAtOnce }
{
    match empty_bank(alloc, MOST_CELLS) {
        Ok(bank) => misfit_of_text(alloc, pattern, args, bank),
        Err(fault) => Err(fault),
    }
}

/// Returns why the arguments do not fit a pattern, in an empty store, which it drops.
fn misfit_of_text<B: TermBank + Drop>(
    alloc: Global,
    pattern: &Pattern,
    args: &[u8],
    mut bank: B,
) -> Result<Option<Misfit>, RunFault>
    requires limit { (B.store bank).cap ≡ 1073741824 }
    ensures why { IfOk result
        (λ found. (v : Verdict) → IsVerdict args.now v → found ≡ misfit_in pattern.now v) }
    ensures fault { IfErr result StopsAtOnce }
{
    match parse(alloc, Source::Args, args, &mut bank)? {
        Reading::Refused(_) => Ok(None),
        Reading::Good(t) => misfit_of_term(alloc, pattern, t, &mut bank),
    }
}

/// Returns why the elements of a term do not fit a pattern.
fn misfit_of_term<B: TermBank>(
    alloc: Global,
    pattern: &Pattern,
    t: Term,
    bank: &mut B,
) -> Result<Option<Misfit>, RunFault>
    requires { IsSome (tree_at (B.store bank.old) t) }
    ensures why { IfOk result (λ found. (u : Tree) → tree_at (B.store bank.old) t ≡ Some u
        → found ≡ misfit_among pattern.now (elements u)) }
    ensures fault { IfErr result StopsAtOnce }
{
    match elements_of(alloc, bank, t)? {
        None => Ok(None),
        Some(args) => misfit_of_elements(pattern, &args, bank),
    }
}

/// Returns why terms of the store do not fit a pattern.
fn misfit_of_elements<B: TermBank>(
    pattern: &Pattern,
    args: &[Term],
    bank: &mut B,
) -> Result<Option<Misfit>, RunFault>
    requires { AllHeld (B.store bank.old) args.now }
    ensures why { IfOk result (λ found. (ts : List Tree) → HaveTrees (B.store bank.old) args.now ts
        → found ≡ misfit_of pattern.now ts) }
    ensures fault { IfErr result StopsAtOnce }
{
    match pattern.make(bank, args) {
        Ok(_) => Ok(None),
        Err(MakeFault::Count) => Ok(Some(Misfit::Count {
            wanted: pattern.placeholders(),
            given: args.len(),
        })),
        Err(MakeFault::Kind { at }) => Ok(Some(Misfit::Kind { at })),
        Err(MakeFault::Memory) => Err(RunFault::Memory { lines: 0 }),
        Err(MakeFault::Full) => Err(RunFault::Room { lines: 0 }),
    }
}
