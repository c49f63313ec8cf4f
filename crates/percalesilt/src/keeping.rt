//! Protection of terms, garbage collection and capacity for C.

ghost use Rattle.std.specs.Prelude.{◌≡◌, ◌≢◌, [], OnErr, OnOk};
ghost use Rattle.rx_term.specs.Store.{cells};
ghost use Rattle.psilt_core.specs.Codes.{told};
ghost use Rattle.psilt_core.specs.Answers.{term_of, Protects, Unprotects, Keeps, MakesRoom};
ghost use Rattle.psilt_core.specs.Banks.{store_of};
ghost use Rattle.psilt_core.specs.Handles.{OnBank, OnWork, InBank};
ghost use Rattle.psilt_core.specs.Works.{IsSameButBound};

use crate::answer::{on_work, tell, tell_done};
use psilt_core::Psilt;
use rx_term::Term;
use std::alloc::Global;

/// Protects a term once more.
#[unsafe(no_mangle)]
pub extern "C" fn psilt_protect(alloc: Global, psilt: &mut Psilt, term: u32) -> u32
    ensures answer { OnBank psilt.old psilt.new result
        (λ v w. Protects v w (term_of term) (told result tt)) }
{
    tell_done(on_work!(psilt, alloc, work, work.protect(Term(term))))
}

/// Protects a term once less.
#[unsafe(no_mangle)]
pub extern "C" fn psilt_unprotect(alloc: Global, psilt: &mut Psilt, term: u32) -> u32
    ensures answer { OnBank psilt.old psilt.new result
        (λ v w. Unprotects v w (term_of term) (told result tt)) }
{
    tell_done(on_work!(psilt, alloc, work, work.unprotect(Term(term))))
}

/// Collects garbage: frees all terms that neither protected terms nor those in `kept` reach, and
/// clears the bindings of the last match.
#[unsafe(no_mangle)]
pub extern "C" fn psilt_reclaim(alloc: Global, psilt: &mut Psilt, kept: &[u32]) -> u32
    ensures answer { OnWork psilt.old psilt.new result
        (λ v w. Keeps (store_of v.bank) (store_of w.bank) kept.now (told result tt)
        × OnOk (told {X = Unit {0}} result tt) (w.bound.items ≡ [])
        × OnErr (told {X = Unit {0}} result tt) (w.bound ≡ v.bound)
        × IsSameButBound v w) }
{
    tell_done(on_work!(psilt, alloc, work, work.reclaim(alloc, kept)))
}

/// Allocates memory for `count` more cells.
#[unsafe(no_mangle)]
pub extern "C" fn psilt_reserve(alloc: Global, psilt: &mut Psilt, count: u32) -> u32
    ensures answer { OnBank psilt.old psilt.new result
        (λ v w. MakesRoom v w count (told result tt)) }
{
    tell_done(on_work!(psilt, alloc, work, work.reserve(count)))
}

/// Writes the number of cells in use.
#[unsafe(no_mangle)]
pub extern "C" fn psilt_cells(alloc: Global, psilt: &mut Psilt, out: &mut u32) -> u32
    ensures answer { InBank psilt.old psilt.new result
        (λ v. (result ≡ 0) × (out.new ≡ cells v)) }
    ensures out { result ≢ 0 → out.new ≡ out.old }
{
    tell(on_work!(psilt, alloc, work, Ok(work.cells())), out)
}

/// Writes the number of cells that can be used without more memory.
#[unsafe(no_mangle)]
pub extern "C" fn psilt_spare(alloc: Global, psilt: &mut Psilt, out: &mut u32) -> u32
    ensures answer { InBank psilt.old psilt.new result
        (λ v. (result ≡ 0) × (out.new ≡ v.spare)) }
    ensures out { result ≢ 0 → out.new ≡ out.old }
{
    tell(on_work!(psilt, alloc, work, Ok(work.spare())), out)
}
