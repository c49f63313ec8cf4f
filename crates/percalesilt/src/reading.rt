//! Functions for C that read parts of terms.

ghost use Rattle.std.specs.Prelude.{◌≡◌, ◌≢◌, ℕ, ℤ, IsSome};
ghost use Rattle.rx_term.specs.Store.{tree_at, head_of, tail_of, args_of, inner_of, anns_of};
ghost use Rattle.psilt_core.specs.Codes.{told};
ghost use Rattle.psilt_core.specs.Answers.{term_of, Looks, HasKindNumber, ReadsPart, ReadsArg};
ghost use Rattle.psilt_core.specs.Answers.{ReadsOf, quoted_in, arity_in};
ghost use Rattle.psilt_core.specs.Handles.{InBank};

use crate::answer::{give, on_work, tell, tell_done, tell_kind};
use psilt_core::Psilt;
use rx_term::Term;
use std::alloc::Global;

/// Writes the kind of a term: 0 for an integer, whose value is also written, 1 for the empty list,
/// 2 for a longer list, 3 for an application, 4 for a placeholder.
#[unsafe(no_mangle)]
pub extern "C" fn psilt_kind(
    alloc: Global,
    psilt: &mut Psilt,
    term: u32,
    kind: &mut u32,
    value: &mut i32,
) -> u32
    ensures answer { InBank psilt.old psilt.new result
        (λ v. Looks v (term_of term)
        (λ (k : ℕ × ℤ). HasKindNumber v (term_of term) k.0 k.1)
        (told result (kind.new, value.new))) }
    ensures kept { result ≢ 0 → (kind.new ≡ kind.old) × (value.new ≡ value.old) }
{
    tell_kind(
        on_work!(psilt, alloc, work, work.kind(Term(term))),
        kind,
        value,
    )
}

/// Writes the first item of a list.
#[unsafe(no_mangle)]
pub extern "C" fn psilt_head(alloc: Global, psilt: &mut Psilt, term: u32, out: &mut u32) -> u32
    ensures answer { InBank psilt.old psilt.new result
        (λ v. ReadsPart v (term_of term) head_of (told result (term_of out.new))) }
    ensures out { result ≢ 0 → out.new ≡ out.old }
{
    give(on_work!(psilt, alloc, work, work.head(Term(term))), out)
}

/// Writes the list of the items after the first one, without annotations.
#[unsafe(no_mangle)]
pub extern "C" fn psilt_tail(alloc: Global, psilt: &mut Psilt, term: u32, out: &mut u32) -> u32
    ensures answer { InBank psilt.old psilt.new result
        (λ v. ReadsPart v (term_of term) tail_of (told result (term_of out.new))) }
    ensures out { result ≢ 0 → out.new ≡ out.old }
{
    give(on_work!(psilt, alloc, work, work.tail(Term(term))), out)
}

/// Writes the list of the arguments of an application.
#[unsafe(no_mangle)]
pub extern "C" fn psilt_args(alloc: Global, psilt: &mut Psilt, term: u32, out: &mut u32) -> u32
    ensures answer { InBank psilt.old psilt.new result
        (λ v. ReadsPart v (term_of term) args_of (told result (term_of out.new))) }
    ensures out { result ≢ 0 → out.new ≡ out.old }
{
    give(on_work!(psilt, alloc, work, work.args(Term(term))), out)
}

/// Writes the term inside a placeholder.
#[unsafe(no_mangle)]
pub extern "C" fn psilt_inner(alloc: Global, psilt: &mut Psilt, term: u32, out: &mut u32) -> u32
    ensures answer { InBank psilt.old psilt.new result
        (λ v. ReadsPart v (term_of term) inner_of (told result (term_of out.new))) }
    ensures out { result ≢ 0 → out.new ≡ out.old }
{
    give(on_work!(psilt, alloc, work, work.inner(Term(term))), out)
}

/// Writes the list of the annotations of a term.
#[unsafe(no_mangle)]
pub extern "C" fn psilt_annotations(
    alloc: Global,
    psilt: &mut Psilt,
    term: u32,
    out: &mut u32,
) -> u32
    ensures answer { InBank psilt.old psilt.new result
        (λ v. ReadsPart v (term_of term) anns_of (told result (term_of out.new))) }
    ensures out { result ≢ 0 → out.new ≡ out.old }
{
    give(
        on_work!(psilt, alloc, work, work.annotations(Term(term))),
        out,
    )
}

/// Writes argument number `i`, from 0, of an application.
#[unsafe(no_mangle)]
pub extern "C" fn psilt_arg(
    alloc: Global,
    psilt: &mut Psilt,
    term: u32,
    i: u32,
    out: &mut u32,
) -> u32
    ensures answer { InBank psilt.old psilt.new result
        (λ v. ReadsArg v (term_of term) i (told result (term_of out.new))) }
    ensures out { result ≢ 0 → out.new ≡ out.old }
{
    give(on_work!(psilt, alloc, work, work.arg(Term(term), i)), out)
}

/// Writes the number of arguments of an application.
#[unsafe(no_mangle)]
pub extern "C" fn psilt_arity(alloc: Global, psilt: &mut Psilt, term: u32, out: &mut u32) -> u32
    ensures answer { InBank psilt.old psilt.new result
        (λ v. ReadsOf v (term_of term) arity_in (told result out.new)) }
    ensures out { result ≢ 0 → out.new ≡ out.old }
{
    tell(on_work!(psilt, alloc, work, work.arity(Term(term))), out)
}

/// Writes whether the name of an application is quoted.
#[unsafe(no_mangle)]
pub extern "C" fn psilt_quoted(alloc: Global, psilt: &mut Psilt, term: u32, out: &mut bool) -> u32
    ensures answer { InBank psilt.old psilt.new result
        (λ v. ReadsOf v (term_of term) quoted_in (told result out.new)) }
    ensures out { result ≢ 0 → out.new ≡ out.old }
{
    tell(
        on_work!(psilt, alloc, work, work.is_quoted(Term(term))),
        out,
    )
}

/// Returns 0 if the store has a term with this reference.
#[unsafe(no_mangle)]
pub extern "C" fn psilt_holds(alloc: Global, psilt: &mut Psilt, term: u32) -> u32
    ensures answer { InBank psilt.old psilt.new result
        (λ v. Looks v (term_of term)
        (λ (_ : Unit {0}). IsSome (tree_at v (term_of term))) (told result tt)) }
{
    tell_done(on_work!(psilt, alloc, work, work.holds(Term(term))))
}
