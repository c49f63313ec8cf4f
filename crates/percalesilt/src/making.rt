//! Functions for C that make terms.

ghost use Rattle.std.specs.Prelude.{◌≡◌, ◌≢◌, [], ◌∷◌, Some};
ghost use Rattle.rx_term.specs.Tree.{Int, Items, none};
ghost use Rattle.rx_term.specs.Store.{tree_at, longer, held_open, noted};
ghost use Rattle.psilt_core.specs.Codes.{told};
ghost use Rattle.psilt_core.specs.Answers.{term_of, MakesFrom, Applies};
ghost use Rattle.psilt_core.specs.Banks.{store_of};
ghost use Rattle.psilt_core.specs.Handles.{OnBank, OnWork};
ghost use Rattle.psilt_core.specs.Works.{IsSameButBank};

use crate::answer::{give, on_work};
use psilt_core::Psilt;
use rx_term::Term;
use std::alloc::Global;

/// Makes an integer.
#[unsafe(no_mangle)]
pub extern "C" fn psilt_int(alloc: Global, psilt: &mut Psilt, value: i32, out: &mut u32) -> u32
    ensures answer { OnBank psilt.old psilt.new result
        (λ v w. MakesFrom v w [] (Some (Int value none)) (told result (term_of out.new))) }
    ensures out { result ≢ 0 → out.new ≡ out.old }
{
    give(on_work!(psilt, alloc, work, work.int(value)), out)
}

/// Makes the empty list.
#[unsafe(no_mangle)]
pub extern "C" fn psilt_nil(alloc: Global, psilt: &mut Psilt, out: &mut u32) -> u32
    ensures answer { OnBank psilt.old psilt.new result
        (λ v w. MakesFrom v w [] (Some (Items none none)) (told result (term_of out.new))) }
    ensures out { result ≢ 0 → out.new ≡ out.old }
{
    give(on_work!(psilt, alloc, work, work.nil()), out)
}

/// Makes a list of `head` and then the items of `tail`.
#[unsafe(no_mangle)]
pub extern "C" fn psilt_cons(
    alloc: Global,
    psilt: &mut Psilt,
    head: u32,
    tail: u32,
    out: &mut u32,
) -> u32
    ensures answer { OnBank psilt.old psilt.new result
        (λ v w. MakesFrom v w (head ∷ tail ∷ [])
        (longer (tree_at v (term_of head)) (tree_at v (term_of tail)))
        (told result (term_of out.new))) }
    ensures out { result ≢ 0 → out.new ≡ out.old }
{
    give(
        on_work!(psilt, alloc, work, work.cons(Term(head), Term(tail))),
        out,
    )
}

/// Makes a placeholder with a term inside.
#[unsafe(no_mangle)]
pub extern "C" fn psilt_hole(alloc: Global, psilt: &mut Psilt, inner: u32, out: &mut u32) -> u32
    ensures answer { OnBank psilt.old psilt.new result
        (λ v w. MakesFrom v w (inner ∷ []) (held_open (tree_at v (term_of inner)))
        (told result (term_of out.new))) }
    ensures out { result ≢ 0 → out.new ≡ out.old }
{
    give(on_work!(psilt, alloc, work, work.hole(Term(inner))), out)
}

/// Makes a term whose annotations are the items of a list, instead of those that it has.
#[unsafe(no_mangle)]
pub extern "C" fn psilt_annotate(
    alloc: Global,
    psilt: &mut Psilt,
    term: u32,
    anns: u32,
    out: &mut u32,
) -> u32
    ensures answer { OnBank psilt.old psilt.new result
        (λ v w. MakesFrom v w (term ∷ anns ∷ [])
        (noted (tree_at v (term_of term)) (tree_at v (term_of anns)))
        (told result (term_of out.new))) }
    ensures out { result ≢ 0 → out.new ≡ out.old }
{
    give(
        on_work!(psilt, alloc, work, work.annotate(Term(term), Term(anns))),
        out,
    )
}

/// Makes an application of a name to some terms.
#[unsafe(no_mangle)]
pub extern "C" fn psilt_appl(
    alloc: Global,
    psilt: &mut Psilt,
    name: &[u8],
    quoted: bool,
    args: &[u32],
    out: &mut u32,
) -> u32
    ensures answer { OnWork psilt.old psilt.new result
        (λ v w. Applies v.bank.most_names (store_of v.bank) (store_of w.bank) name.now quoted
        args.now (told result (term_of out.new)) × IsSameButBank v w) }
    ensures out { result ≢ 0 → out.new ≡ out.old }
{
    give(
        on_work!(psilt, alloc, work, work.appl(name, quoted, args)),
        out,
    )
}
