//! Patterns for C: reading, matching, and making terms.

ghost use Rattle.std.specs.Prelude.{◌≡◌, ◌≢◌};
ghost use Rattle.rx_term.specs.Steps.{Grows};
ghost use Rattle.rx_pattern.specs.Held.{AddsOnlyLists};
ghost use Rattle.psilt_core.specs.Banks.{store_of};
ghost use Rattle.psilt_core.specs.Codes.{told};
ghost use Rattle.psilt_core.specs.Answers.{term_of};
ghost use Rattle.psilt_core.specs.Patterns.{ReadsPattern, FreesPattern, Matches, TellsBound, Fills};
ghost use Rattle.psilt_core.specs.Patterns.{pattern_at};
ghost use Rattle.psilt_core.specs.Handles.{OnWork};
ghost use Rattle.psilt_core.specs.Works.{IsSameButBank, IsSameButBound, IsSameButPatterns};

use crate::answer::{give, on_work, tell, tell_done};
use psilt_core::Psilt;
use rx_term::Term;
use std::alloc::Global;

/// Reads the text of a pattern, and writes its number.
#[unsafe(no_mangle)]
pub extern "C" fn psilt_pattern(
    alloc: Global,
    psilt: &mut Psilt,
    text: &[u8],
    out: &mut usize,
) -> u32
    ensures answer { OnWork psilt.old psilt.new result
        (λ v w. ReadsPattern v.patterns w.patterns text.now w.place w.rule (told result out.new)
        × IsSameButPatterns v w) }
    ensures out { result ≢ 0 → out.new ≡ out.old }
{
    tell(on_work!(psilt, alloc, work, work.pattern(alloc, text)), out)
}

/// Frees a pattern and its number.
#[unsafe(no_mangle)]
pub extern "C" fn psilt_pattern_free(alloc: Global, psilt: &mut Psilt, pattern: usize) -> u32
    ensures answer { OnWork psilt.old psilt.new result
        (λ v w. FreesPattern v.patterns w.patterns pattern (told result tt)
        × IsSameButPatterns v w) }
{
    tell_done(on_work!(psilt, alloc, work, work.free_pattern(pattern)))
}

/// Matches a pattern with a term, stores the bindings, and writes their number.
#[unsafe(no_mangle)]
pub extern "C" fn psilt_match(
    alloc: Global,
    psilt: &mut Psilt,
    pattern: usize,
    term: u32,
    count: &mut usize,
) -> u32
    ensures answer { OnWork psilt.old psilt.new result
        (λ v w. Matches (pattern_at v.patterns pattern) (store_of v.bank) (store_of w.bank)
        v.bound.items w.bound.items (term_of term) (told result count.new)
        × Grows (store_of v.bank) (store_of w.bank)
        × AddsOnlyLists (store_of v.bank) (store_of w.bank) × IsSameButBound v w) }
    ensures out { result ≢ 0 → count.new ≡ count.old }
{
    tell(
        on_work!(
            psilt,
            alloc,
            work,
            work.match_term(alloc, pattern, Term(term))
        ),
        count,
    )
}

/// Writes binding number `i`, from 0, of the last match.
#[unsafe(no_mangle)]
pub extern "C" fn psilt_bound(alloc: Global, psilt: &mut Psilt, i: usize, out: &mut u32) -> u32
    ensures answer { OnWork psilt.old psilt.new result
        (λ v w. TellsBound v.bound.items i (told result (term_of out.new)) × (w ≡ v)) }
    ensures out { result ≢ 0 → out.new ≡ out.old }
{
    give(on_work!(psilt, alloc, work, work.binding(i)), out)
}

/// Makes a pattern's term, with terms instead of its placeholders, in order.
#[unsafe(no_mangle)]
pub extern "C" fn psilt_make(
    alloc: Global,
    psilt: &mut Psilt,
    pattern: usize,
    args: &[u32],
    out: &mut u32,
) -> u32
    ensures answer { OnWork psilt.old psilt.new result
        (λ v w. Fills (pattern_at v.patterns pattern) v.bank.most_names (store_of v.bank)
        (store_of w.bank) args.now (told result (term_of out.new))
        × Grows (store_of v.bank) (store_of w.bank) × IsSameButBank v w) }
    ensures out { result ≢ 0 → out.new ≡ out.old }
{
    give(
        on_work!(psilt, alloc, work, work.make(alloc, pattern, args)),
        out,
    )
}
