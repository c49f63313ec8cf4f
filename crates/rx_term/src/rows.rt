//! Test cases that hold for every store, as functions for the tests of each store.
#![tactic(auto, using(crate::proofs::StoreLemmas::bank_steps))]

ghost use Rattle.std.specs.Prelude.{◌≡◌, ℕ, ◌+◌, ◌≤◌, ◌<◌, false, IsTrue, IsSome, IfOk, Some, None};
ghost use Rattle.std.specs.Prelude.{codes, pos};
ghost use Rattle.rx_term.specs.Tree.{Tree, Appl, none, more};
ghost use Rattle.rx_term.specs.Store.{tree_at, signature_of, cells};
ghost use Rattle.rx_term.specs.Store.{part_at, head_of, tail_of, inner_of, held_open, noted};
ghost use Rattle.rx_term.specs.Kinds.{HasKind, HasAnns};
ghost use Rattle.rx_term.specs.Steps.{Grows};
ghost use Rattle.rx_term.specs.Rows.{HasTree, noted_seven};

use crate::build::constant;
use crate::{BankFault, Kind, Term, TermBank};

/// Makes `f(a,a)`. Returns its reference, and whether its two arguments are one reference.
pub fn pair<B: TermBank>(bank: &mut B) -> Result<(Term, bool), BankFault>
    ensures tree { IfOk result (λ r. tree_at (B.store bank.new) r.0 ≡
        Some (Appl (codes "f") false
        (more (Appl (codes "a") false none none)
        (more (Appl (codes "a") false none none) none)) none)) }
    ensures shared { IfOk result (λ r. IsTrue r.1) }
{
    let first = constant(bank, b"a")?;
    let second = constant(bank, b"a")?;
    let r = apply_f(bank, first, second)?;
    Ok((r, first == second))
}

/// Makes `f` of two references.
fn apply_f<B: TermBank>(bank: &mut B, first: Term, second: Term) -> Result<Term, BankFault>
    requires first { IsSome (tree_at (B.store bank.old) first) }
    requires second { IsSome (tree_at (B.store bank.old) second) }
    ensures roots { (B.store bank.new).roots ≡ (B.store bank.old).roots }
    ensures limit { (B.store bank.new).cap ≡ (B.store bank.old).cap }
    ensures made { IfOk result (λ r. (t u : Tree) → tree_at (B.store bank.old) first ≡ Some t
        → tree_at (B.store bank.old) second ≡ Some u → tree_at (B.store bank.new) r ≡
        Some (Appl (codes "f") false (more t (more u none)) none)) }
{
    let nil = bank.nil()?;
    let short = bank.cons(second, nil)?;
    let long = bank.cons(first, short)?;
    let f = bank.symbol(b"f", false, 2)?;
    bank.appl(f, long)
}

/// Returns whether the test cases hold for two empty stores with limits of 5 and 10 cells. If they
/// do, the first store has that limit and is empty again, and the second one has a placeholder of 7
/// with the annotation 7.
pub fn hold<B: TermBank>(five: &mut B, ten: &mut B) -> Result<bool, BankFault>
    requires { (t : ℕ) → (B.store five.old).roots t ≡ 0 }
    ensures limit { IfOk result (λ b. IsTrue b → (B.store five.new).cap ≡ 5) }
    ensures emptied { IfOk result (λ b. IsTrue b → cells (B.store five.new) ≡ 0) }
    ensures noted { IfOk result (λ b. IsTrue b → HasTree (B.store ten.new) noted_seven) }
{
    match fills(five)? {
        Some(a) => Ok(reclaims(five, a) && notes(ten)?),
        None => Ok(false),
    }
}

/// Checks in an empty store with a limit of 5 cells that five trees fit, a sixth does not, and a
/// tree that is there is found.
fn fills<B: TermBank>(bank: &mut B) -> Result<Option<Term>, BankFault>
    ensures held { IfOk result (λ r. (a : _) → r ≡ Some a → IsSome (tree_at (B.store bank.new) a)) }
    ensures limit { IfOk result (λ r. IsSome r → (B.store bank.new).cap ≡ 5) }
    ensures roots { (B.store bank.new).roots ≡ (B.store bank.old).roots }
{
    let roomy = has_room_for_five(bank)?;
    let a = make_five(bank)?;
    let whole = bank.cells() == 5;
    let Err(BankFault::Full) = bank.int(7) else {
        return Ok(None);
    };
    let again = constant(bank, b"a")?;
    if roomy && whole && again == a {
        Ok(Some(again))
    } else {
        Ok(None)
    }
}

/// Returns whether there is room for five trees, and none for a sixth one.
fn has_room_for_five<B: TermBank>(bank: &mut B) -> Result<bool, BankFault>
    ensures roots { (B.store bank.new).roots ≡ (B.store bank.old).roots }
    ensures limit { (B.store bank.new).cap ≡ (B.store bank.old).cap }
    ensures room { IfOk result (λ b. IsTrue b → (B.store bank.new).spare ≡ 5) }
{
    let refused = bank.reserve(6) == Err(BankFault::Full);
    bank.reserve(5)?;
    Ok(refused && bank.spare() == 5)
}

/// Makes `f(a,a)` and its parts, and returns the reference of `a`.
fn make_five<B: TermBank>(bank: &mut B) -> Result<Term, BankFault>
    ensures roots { (B.store bank.new).roots ≡ (B.store bank.old).roots }
    ensures limit { (B.store bank.new).cap ≡ (B.store bank.old).cap }
{
    let a = constant(bank, b"a")?;
    apply_f(bank, a, a)?;
    Ok(a)
}

/// Protects a term as often as possible, and returns whether the next time was an error.
fn root_fully<B: TermBank>(bank: &mut B, a: Term) -> bool
    requires held { IsSome (tree_at (B.store bank.old) a) }
    requires unrooted { (B.store bank.old).roots a.0 ≡ 0 }
    ensures rooted { (B.store bank.new).roots a.0 ≡ 65535 }
    ensures refused { IsTrue result }
    ensures limit { (B.store bank.new).cap ≡ (B.store bank.old).cap }
{
    for _i in 0..65535u32 {
        let _ = bank.protect(a);
    }
    bank.protect(a).is_err()
}

/// Removes 65,535 protections of a term.
fn unroot<B: TermBank>(bank: &mut B, a: Term)
    requires { (B.store bank.old).roots a.0 ≡ 65535 }
    ensures roots { (B.store bank.new).roots a.0 ≡ 0 }
    ensures limit { (B.store bank.new).cap ≡ (B.store bank.old).cap }
{
    for _i in 0..65535u32 {
        bank.unprotect(a);
    }
}

/// Makes a placeholder of 7 with the annotation 7 in an empty store with a limit of 10 cells.
/// Returns whether its parts are as they were made.
fn notes<B: TermBank>(bank: &mut B) -> Result<bool, BankFault>
    ensures { IfOk result (λ b. IsTrue b → HasTree (B.store bank.new) noted_seven) }
{
    let seven = bank.int(7)?;
    let nil = bank.nil()?;
    let list = bank.cons(seven, nil)?;
    let noted = note_hole(bank, seven, list)?;
    Ok(is_list_of_seven(bank, list, seven, nil) && is_noted_hole(bank, noted, seven, list))
}

/// Returns whether a list has 7 as its first item, followed by the other list.
fn is_list_of_seven<B: TermBank>(bank: &B, list: Term, seven: Term, rest: Term) -> bool
    requires seven { IsSome (tree_at (B.store bank.now) seven) }
    requires head { IsSome (part_at head_of (B.store bank.now) list) }
    requires tail { IsSome (part_at tail_of (B.store bank.now) list) }
    ensures kind { IsTrue result → HasKind (B.store bank.now) seven (Kind.Int (pos 7)) }
    ensures head { IsTrue result → tree_at (B.store bank.now) seven ≡
        part_at head_of (B.store bank.now) list }
    ensures tail { IsTrue result → tree_at (B.store bank.now) rest ≡
        part_at tail_of (B.store bank.now) list }
{
    let holds = bank.head(list) == seven && bank.tail(list) == rest;
    holds && bank.kind(seven) == Kind::Int(7)
}

/// Makes a placeholder with annotations.
fn note_hole<B: TermBank>(bank: &mut B, inner: Term, anns: Term) -> Result<Term, BankFault>
    requires inner { IsSome (tree_at (B.store bank.old) inner) }
    requires anns { let w = B.store bank.old in
        IsSome (noted (held_open (tree_at w inner)) (tree_at w anns)) }
    ensures grows { Grows (B.store bank.old) (B.store bank.new) }
    ensures made { let w = B.store bank.old in IfOk result (λ r. tree_at (B.store bank.new) r ≡
        noted (held_open (tree_at w inner)) (tree_at w anns)) }
{
    let hole = bank.hole(inner)?;
    bank.annotated(hole, anns)
}

/// Returns whether a tree is a placeholder of one reference, with annotations at the other.
fn is_noted_hole<B: TermBank>(bank: &B, tree: Term, inner: Term, anns: Term) -> bool
    requires tree { IsSome (tree_at (B.store bank.now) tree) }
    requires hole { IsSome (part_at inner_of (B.store bank.now) tree) }
    ensures kind { IsTrue result → HasKind (B.store bank.now) tree Kind.Hole }
    ensures inner { IsTrue result → tree_at (B.store bank.now) inner ≡
        part_at inner_of (B.store bank.now) tree }
    ensures anns { IsTrue result → HasAnns (B.store bank.now) tree (Some anns) }
{
    let holds = bank.inner(tree) == inner && bank.anns(tree) == Some(anns);
    holds && bank.kind(tree) == Kind::Hole
}

/// Checks which cells a collection keeps while `a` is protected as often as possible, and after
/// that.
fn reclaims<B: TermBank>(bank: &mut B, a: Term) -> bool
    requires held { IsSome (tree_at (B.store bank.old) a) }
    requires unrooted { (B.store bank.old).roots a.0 ≡ 0 }
    ensures limit { (B.store bank.new).cap ≡ (B.store bank.old).cap }
    ensures emptied { IsTrue result → cells (B.store bank.new) ≡ 0 }
{
    let refused = root_fully(bank, a);
    bank.reclaim(&[]);
    let two = bank.cells() == 2;
    unroot(bank, a);
    bank.reclaim(&[]);
    refused && two && bank.cells() == 0
}
