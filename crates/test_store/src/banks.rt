//! Test cases for every term store.
#![tactic(auto, using(rx_term::proofs::StoreLemmas::bank_steps))]

ghost use Rattle.std.specs.Prelude.{◌≡◌, ℕ, false, IsSome, IsTrue, IfOk, Some, codes};
ghost use Rattle.rx_term.specs.Tree.{Tree, Appl, none, more};
ghost use Rattle.rx_term.specs.Store.{tree_at, part_at, head_of, tail_of, inner_of, held_open};
ghost use Rattle.rx_term.specs.Store.{noted};
ghost use Rattle.rx_term.specs.Steps.{Grows};

use rx_term::build::constant;
use rx_term::walk::count_nodes;
use rx_term::{BankFault, Kind, Term, TermBank};
use std::alloc::Global;
use std::process::Abort;

/// Makes `f(a,a)`. Returns it, and whether its two arguments are one reference.
pub fn pair<B: TermBank>(bank: &mut B) -> Result<(Term, bool), BankFault>
    ensures tree { IfOk result (λ r. tree_at (B.store bank.new) r.0 ≡
        Some (Appl (codes "f") false
        (more (Appl (codes "a") false none none)
        (more (Appl (codes "a") false none none) none)) none)) }
{
    let first = constant(bank, b"a")?;
    let second = constant(bank, b"a")?;
    let r = apply_f(bank, first, second)?;
    Ok((r, first == second))
}

/// Makes `f` of two references.
fn apply_f<B: TermBank>(bank: &mut B, first: Term, second: Term) -> Result<Term, BankFault>
    requires first { IsSome (tree_at (B.store bank.old) first) }
    requires second { IsSome (tree_at (B.store bank.old) second) }
    ensures roots { (B.store bank.new).roots ≡ (B.store bank.old).roots }
    ensures made { IfOk result (λ r. (t u : Tree) → tree_at (B.store bank.old) first ≡ Some t
        → tree_at (B.store bank.old) second ≡ Some u → tree_at (B.store bank.new) r ≡
        Some (Appl (codes "f") false (more t (more u none)) none)) }
{
    let nil = bank.nil()?;
    let short = bank.cons(second, nil)?;
    let long = bank.cons(first, short)?;
    let f = bank.symbol(b"f", false, 2)?;
    bank.appl(f, long)
}

/// Aborts if the test cases do not hold for two empty stores with limits of 5 and 10 cells.
pub fn expect_rows<B: TermBank>(rt: &impl Abort, five: &mut B, ten: &mut B)
    requires { (t : ℕ) → (B.store five.old).roots t ≡ 0 }
{
    expect_room_for_five(rt, five);
    let a = fill_five(rt, five);
    expect_reclaims(rt, five, a);
    assert!(rt; expect_notes(rt, ten).is_ok());
    assert!(rt; ten.cells() == 5);
}

/// Aborts unless there is room for exactly five trees.
fn expect_room_for_five<B: TermBank>(rt: &impl Abort, bank: &mut B)
    ensures roots { (B.store bank.new).roots ≡ (B.store bank.old).roots }
{
    assert!(rt; bank.cap() == 5);
    assert!(rt; bank.reserve(6) == Err(BankFault::Full));
    assert!(rt; bank.reserve(5).is_ok());
    assert!(rt; bank.spare() == 5);
}

/// Makes `f(a,a)` in an empty store with a limit of 5 cells, which is full then. Aborts if a sixth
/// tree fits, or `a` is not found again.
fn fill_five<B: TermBank>(rt: &impl Abort, bank: &mut B) -> Term
    ensures held { IsSome (tree_at (B.store bank.new) result) }
    ensures roots { (B.store bank.new).roots ≡ (B.store bank.old).roots }
{
    let a = constant(bank, b"a").expect(rt, "`a`");
    assert!(rt; apply_f(bank, a, a).is_ok());
    assert!(rt; bank.cells() == 5);
    assert!(rt; bank.int(7) == Err(BankFault::Full));
    let again = constant(bank, b"a").expect(rt, "`a` again");
    assert!(rt; again == a);
    again
}

/// Aborts if a store with `f(a,a)` does not keep exactly `a` and its parts while `a` is protected
/// as often as possible, or keeps any tree afterwards.
fn expect_reclaims<B: TermBank>(rt: &impl Abort, bank: &mut B, a: Term)
    requires held { IsSome (tree_at (B.store bank.old) a) }
    requires unrooted { (B.store bank.old).roots a.0 ≡ 0 }
{
    assert!(rt; root_fully(bank, a));
    bank.reclaim(&[]);
    assert!(rt; bank.cells() == 2);
    unroot(bank, a);
    bank.reclaim(&[]);
    assert!(rt; bank.cells() == 0);
}

/// Protects a term as often as possible, and returns whether the next time was an error.
fn root_fully<B: TermBank>(bank: &mut B, a: Term) -> bool
    requires held { IsSome (tree_at (B.store bank.old) a) }
    requires unrooted { (B.store bank.old).roots a.0 ≡ 0 }
    ensures rooted { (B.store bank.new).roots a.0 ≡ 65535 }
    ensures refused { IsTrue result }
{
    for _i in 0..65535u32 {
        let _ = bank.protect(a);
    }
    bank.protect(a).is_err()
}

/// Removes 65,535 protections of a term.
fn unroot<B: TermBank>(bank: &mut B, a: Term)
    requires { (B.store bank.old).roots a.0 ≡ 65535 }
    ensures { (B.store bank.new).roots a.0 ≡ 0 }
{
    for _i in 0..65535u32 {
        bank.unprotect(a);
    }
}

/// Makes a placeholder of 7 with the annotation list of 7 in an empty store. Aborts if its parts
/// are not as they were made.
fn expect_notes<B: TermBank>(rt: &impl Abort, bank: &mut B) -> Result<(), BankFault> {
    let seven = bank.int(7)?;
    let nil = bank.nil()?;
    let list = bank.cons(seven, nil)?;
    let noted = note_hole(bank, seven, list)?;
    expect_list_of_seven(rt, bank, list, seven, nil);
    expect_noted_hole(rt, bank, noted, seven, list);
    Ok(())
}

/// Aborts if the list does not have 7 as its first item, followed by the other list.
fn expect_list_of_seven<B: TermBank>(rt: &impl Abort, bank: &B, list: Term, seven: Term, rest: Term)
    requires seven { IsSome (tree_at (B.store bank.now) seven) }
    requires head { IsSome (part_at head_of (B.store bank.now) list) }
    requires tail { IsSome (part_at tail_of (B.store bank.now) list) }
{
    assert!(rt; bank.kind(seven) == Kind::Int(7));
    assert!(rt; bank.head(list) == seven);
    assert!(rt; bank.tail(list) == rest);
}

/// Makes a placeholder with annotations.
fn note_hole<B: TermBank>(bank: &mut B, inner: Term, anns: Term) -> Result<Term, BankFault>
    requires inner { IsSome (tree_at (B.store bank.old) inner) }
    requires anns { let w = B.store bank.old in
        IsSome (noted (held_open (tree_at w inner)) (tree_at w anns)) }
    ensures grows { Grows (B.store bank.old) (B.store bank.new) }
    ensures made { let w = B.store bank.old in IfOk result (λ r. tree_at (B.store bank.new) r ≡
        noted (held_open (tree_at w inner)) (tree_at w anns)) }
{
    let hole = bank.hole(inner)?;
    bank.annotated(hole, anns)
}

/// Aborts if the tree is not a placeholder of one reference with annotations at the other.
fn expect_noted_hole<B: TermBank>(rt: &impl Abort, bank: &B, tree: Term, inner: Term, anns: Term)
    requires tree { IsSome (tree_at (B.store bank.now) tree) }
    requires hole { IsSome (part_at inner_of (B.store bank.now) tree) }
{
    assert!(rt; bank.kind(tree) == Kind::Hole);
    assert!(rt; bank.inner(tree) == inner);
    assert!(rt; bank.anns(tree) == Some(anns));
}

/// Aborts if a term is not an unquoted symbol named `f` with two arguments.
fn expect_symbol<B: TermBank>(rt: &impl Abort, bank: &B, t: Term)
    requires { IsSome (tree_at (B.store bank.now) t) }
{
    match bank.kind(t) {
        Kind::Appl(sym) => {
            assert!(rt; bank.name_of(sym) == b"f".as_slice());
            assert!(rt; !bank.quoted_of(sym) && bank.arity_of(sym) == 2);
        }
        _ => assert!(rt; false),
    }
}

/// Aborts if equal terms are not one reference, in an empty store.
pub fn expect_shared<B: TermBank>(rt: &impl Abort, alloc: Global, bank: &mut B) {
    let (pair, one) = pair(bank).expect(rt, "`f(a,a)`");
    assert!(rt; one && bank.cells() == 5);
    assert!(rt; count_nodes(alloc, bank, pair) == Ok(8));
    expect_symbol(rt, bank, pair);
}
