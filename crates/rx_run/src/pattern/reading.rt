//! Reads patterns and lists of arguments.

ghost use Rattle.std.specs.Prelude.{◌≡◌, option_map, Some, IfErr, IfOk, IsSome};
ghost use Rattle.std.specs.Option.{option_and_then};
ghost use Rattle.rx_term.specs.Tree.{Tree, Trees, list_of, to_list};
ghost use Rattle.rx_term.specs.Store.{tree_at};
ghost use Rattle.rx_term.specs.Walks.{HaveTrees};
ghost use Rattle.rx_run.specs.PatternRuns.{elements};
ghost use Rattle.rx_run.specs.Run.{RanOut, StopsAtOnce};
ghost use Rattle.rx_run.specs.Inner.PatternAnswers.{HasElements, IsPatternOf, IsPatternRead};

use crate::ending::{RunFault, Source};
use crate::refusal::{Reading, Reason};
use crate::term::reading::{MOST_CELLS, empty_bank, parse};
use rx_pattern::{Pattern, PatternFault};
use rx_term::{Kind, Term, TermBank};
use std::alloc::{AllocError, Global};

/// Returns the elements of a list without annotations, or `None` for any other term.
pub(crate) fn elements_of<B: TermBank>(
    alloc: Global,
    bank: &B,
    t: Term,
) -> Result<Option<Vec<Term>>, AllocError>
    requires { IsSome (tree_at (B.store bank.now) t) }
    ensures { IfOk result (λ found.
        HasElements (B.store bank.now) (option_and_then elements (tree_at (B.store bank.now) t))
        (option_map (λ v. v.items) found)) }
{
    if bank.anns(t).is_some() {
        return Ok(None);
    }
    match bank.kind(t) {
        Kind::Nil | Kind::Cons => Ok(Some(items_of(alloc, bank, t)?)),
        Kind::Int(_) | Kind::Appl(_) | Kind::Hole => Ok(None),
    }
}

/// Returns the elements of a list without annotations.
fn items_of<B: TermBank>(alloc: Global, bank: &B, list: Term) -> Result<Vec<Term>, AllocError>
    requires { (ts : Trees) × (tree_at (B.store bank.now) list ≡ Some (list_of ts)) }
    ensures { IfOk result
        (λ found. (ts : Trees) → tree_at (B.store bank.now) list ≡ Some (list_of ts) →
        HaveTrees (B.store bank.now) found.items (to_list ts)) }
{
    let mut found = Vec::new(alloc);
    let mut rest = list;
    while let Kind::Cons = bank.kind(rest) {
        found.push(bank.head(rest))?;
        rest = bank.tail(rest);
    }
    Ok(found)
}

/// Reads the text of a pattern in a store that is dropped afterwards.
pub(crate) fn read_pattern(alloc: Global, text: &[u8]) -> Result<Reading<Pattern>, RunFault>
    ensures read { IfOk result (λ reading. IsPatternRead text.now reading) }
    ensures fault { IfErr result StopsAtOnce }
{
    match empty_bank(alloc, MOST_CELLS) {
        Ok(bank) => read_pattern_over(alloc, text, bank),
        Err(fault) => Err(fault),
    }
}

/// Reads the text of a pattern in an empty store, which it drops.
fn read_pattern_over<B: TermBank + Drop>(
    alloc: Global,
    text: &[u8],
    mut bank: B,
) -> Result<Reading<Pattern>, RunFault>
    requires limit { (B.store bank).cap ≡ 1073741824 }
    ensures read { IfOk result (λ reading. IsPatternRead text.now reading) }
    ensures fault { IfErr result StopsAtOnce }
{
    read_pattern_in(alloc, text, &mut bank)
}

/// Reads the text of a pattern in a store of the caller. Only adds terms to the store.
pub(crate) fn read_pattern_in<B: TermBank>(
    alloc: Global,
    text: &[u8],
    bank: &mut B,
) -> Result<Reading<Pattern>, RunFault>
    ensures read { IfOk result (λ reading. IsPatternRead text.now reading) }
    ensures cap { (B.store bank.new).cap ≡ (B.store bank.old).cap }
    ensures fault { IfErr result (RanOut (B.store bank.old) (B.store bank.new)) }
{
    match parse(alloc, Source::Pattern, text, bank)? {
        Reading::Refused(refusal) => Ok(Reading::Refused(refusal)),
        Reading::Good(t) => pattern_of(alloc, bank, t),
    }
}

/// Converts a term of the store to a pattern. A term that is not a pattern is rejected.
fn pattern_of<B: TermBank>(alloc: Global, bank: &B, t: Term) -> Result<Reading<Pattern>, RunFault>
    requires { IsSome (tree_at (B.store bank.now) t) }
    ensures read { IfOk result
        (λ reading. (u : Tree) → tree_at (B.store bank.now) t ≡ Some u → IsPatternOf u reading) }
    ensures fault { IfErr result (λ fault. fault ≡ RunFault.Memory 0) }
{
    match Pattern::of(alloc, bank, t) {
        Ok(pattern) => Ok(Reading::Good(pattern)),
        Err(PatternFault::Unknown) => Ok(Reading::refused(Source::Pattern, Reason::Unknown)),
        Err(PatternFault::Annotated) => Ok(Reading::refused(Source::Pattern, Reason::Annotated)),
        Err(_) => Err(RunFault::Memory { lines: 0 }),
    }
}
