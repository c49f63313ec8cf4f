//! Finds the rules that match a call.

ghost use Rattle.std.specs.Prelude.{◌≡◌, ℕ, IfOk, List, OnOk, length, map};
ghost use Rattle.rx_term.specs.Walks.{AllHeld, held_tree};
ghost use Rattle.rx_term.specs.declared.Term.{Term};
ghost use Rattle.rec_syntax.specs.Syntax.{Spec};
ghost use Rattle.rec_match.specs.Matching.{CanFind, FindsFor};
ghost use Rattle.rec_match.specs.Next.{IsReady};
ghost use Rattle.rec_stuck.specs.Inner.Calls.{AreSpots, IsCalled};
ghost use Rattle.rec_stuck.specs.Stuck.{bare_of, fitting_spots};

use rec_match::Matcher;
use rec_sorts::push_items;
use rec_trace::Spot;
use rx_term::{Term, TermBank};
use std::alloc::{AllocError, Global};

/// A term that is an application of a symbol of the specification, and the symbol's number.
#[derive(Clone, Copy, Drop)]
pub(crate) struct Call {
    /// The term.
    pub(crate) term: Term,
    /// The number of its symbol.
    pub(crate) symbol: u32,
    /// The number of its arguments.
    pub(crate) count: u32,
}

/// Returns the locations of the rules that match a call, in their order. `spots` has those of all
/// rules.
pub(crate) fn fitting_spots<B: TermBank>(
    alloc: Global,
    bank: &B,
    matcher: &Matcher,
    spots: &[Spot],
    call: Call,
) -> Result<Vec<Spot>, AllocError>
    requires { (source : List ℕ) × (y : Spec) × IsReady y (B.store bank.now) matcher.now
        × IsCalled y (B.store bank.now) call × AreSpots source y spots.now }
    ensures { IfOk result (λ found. (source : List ℕ) (y : Spec)
        → IsReady y (B.store bank.now) matcher.now → IsCalled y (B.store bank.now) call
        → AreSpots source y spots.now
        → found.items ≡ fitting_spots source y (bare_of (held_tree (B.store bank.now) call.term))) }
{
    let mut arguments = Vec::new(alloc);
    push_items(bank, bank.args(call.term), &mut arguments)?;
    let mut found = Vec::new(alloc);
    let mut at = matcher.heads[call.symbol as usize];
    while let Some(rule) = next_rule(bank, matcher, call, at, &mut arguments)? {
        found.push(spots[rule as usize])?;
        at = matcher.sides[rule as usize].next;
    }
    Ok(found)
}

/// Returns the first rule, from number `at` on, that matches a call with these arguments.
fn next_rule<B: TermBank>(
    bank: &B,
    matcher: &Matcher,
    call: Call,
    at: u32,
    arguments: &mut Vec<Term>,
) -> Result<Option<u32>, AllocError>
    requires held { AllHeld (B.store bank.now) arguments.old.items }
    requires counted { length arguments.old.items ≡ call.count }
    requires can { CanFind (B.store bank.now) matcher.now call.symbol call.count at
        arguments.old.items }
    ensures same { OnOk result (arguments.new.items ≡ arguments.old.items) }
    ensures found { IfOk result (λ found. (bind : List Term)
        × FindsFor (B.store bank.now) matcher.now at arguments.old.items bind found) }
{
    let alloc = *arguments.allocator();
    let mut pending = Vec::new(alloc);
    let mut bind = Vec::new(alloc);
    let found = matcher.find(
        bank,
        call.symbol,
        call.count,
        at,
        arguments,
        &mut pending,
        &mut bind,
    )?;
    arguments.truncate(call.count as usize);
    match found {
        Some(hit) => Ok(Some(hit.rule)),
        None => Ok(None),
    }
}
