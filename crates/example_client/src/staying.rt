//! An engine that stays: it evaluates one request after another, and some of the results are kept.

ghost use Rattle.std.specs.Prelude.{◌≡◌, ◌-◌, [], IsSome, Some, IfOk, IfSome, option_map};
ghost use Rattle.rx_term.specs.Tree.{Tree};
ghost use Rattle.rx_term.specs.Store.{tree_at};
ghost use Rattle.rx_term.specs.Steps.{Keeps, with_count};
ghost use Rattle.rx_text.specs.Verdict.{IsVerdict, Spelt};
ghost use Rattle.rx_text.specs.Canon.{canon};
ghost use Rattle.rec_sorts.specs.Binding.{tree_of};
ghost use Rattle.rec_sorts.specs.Evaluation.{term_of};
ghost use Rattle.rec_engine.specs.Engine.{Spells, SameEngine};
ghost use Rattle.example_client.specs.Evaluated.{IsHeld, value_within, value_text};
ghost use Rattle.example_client.specs.Kept.{KeepsRoots, IsProtected};

use crate::WorkFault;
use crate::evaluating::{value_of, value_text};
use crate::texts::{only, text_of};
use rec_engine::Engine;
use rec_sorts::{Checked, Letter, check_terms, term_letters};
use rx_term::{Term, TermBank};
use rx_text::{WriteFault, read};
use std::alloc::Global;

/// Checks that a term can be evaluated, and returns its postfix items.
fn letters_of<B: TermBank>(
    alloc: Global,
    checked: &Checked,
    bank: &mut B,
    t: Term,
) -> Result<Vec<Letter>, WorkFault>
    requires { IsSome (tree_at (B.store bank.old) t) }
    ensures { IfOk result (λ ls. (u : Tree) → tree_at (B.store bank.old) t ≡ Some u →
        Spells checked.now.spec ls.items u) }
{
    let list = only(bank, t)?;
    check_terms(alloc, checked, bank, list)?;
    let mut all = term_letters(alloc, checked, bank, list)?;
    match all.pop() {
        Some(letters) => Ok(letters),
        None => unreachable!(),
    }
}

/// Reads and checks the term that a text spells, and returns its postfix items. The text is read
/// into a store for requests only, so that unknown names do not enter the engine's store.
pub fn request<B: TermBank>(
    alloc: Global,
    checked: &Checked,
    requests: &mut B,
    text: &[u8],
) -> Result<Vec<Letter>, WorkFault>
    ensures { IfOk result (λ ls. (u : Tree) × IsVerdict text.now (Spelt u)
        × Spells checked.now.spec ls.items u) }
{
    let t = read(alloc, text, requests)?;
    let letters = letters_of(alloc, checked, requests, t)?;
    Ok(letters)
}

/// Evaluates a request and prints its normal form. Returns `None` if it takes more than `n` steps.
pub fn answer<B: TermBank>(
    alloc: Global,
    engine: &mut Engine<B>,
    letters: &[Letter],
    n: u64,
) -> Result<Option<Vec<u8>>, WorkFault>
    requires { (u : Tree) × Spells engine.old.spec letters.now u }
    ensures text { IfOk result (λ text. (u : Tree) → Spells engine.old.spec letters.now u →
        option_map (λ v. v.items) text ≡ value_text engine.old.spec n (tree_of (term_of u))) }
    ensures same { SameEngine engine.old engine.new }
    ensures keeps { Keeps (B.store engine.old.bank) (B.store engine.new.bank) [] }
{
    let t = engine.given_term(letters)?;
    value_text(alloc, engine, t, n)
}

/// Evaluates a request and protects its normal form, until `let_go` is called. Returns `None` if it
/// takes more than `n` steps.
pub fn kept_value<B: TermBank>(
    engine: &mut Engine<B>,
    letters: &[Letter],
    n: u64,
) -> Result<Option<Term>, WorkFault>
    requires { (u : Tree) × Spells engine.old.spec letters.now u }
    ensures value { IfOk result (λ r. (u : Tree) → Spells engine.old.spec letters.now u →
        IsHeld (B.store engine.new.bank) r
        (value_within engine.old.spec n (tree_of (term_of u)))) }
    ensures protected { IfOk result (λ r. IfSome r (IsProtected (B.store engine.new.bank))) }
    ensures same { SameEngine engine.old engine.new }
    ensures keeps { KeepsRoots (B.store engine.old.bank) (B.store engine.new.bank) }
{
    let t = engine.given_term(letters)?;
    let Some(value) = value_of(engine, t, n)? else {
        return Ok(None);
    };
    engine.protect(value)?;
    Ok(Some(value))
}

/// Prints a normal form that was kept, and removes its protection. If printing fails, it stays
/// protected.
pub fn let_go<B: TermBank>(
    alloc: Global,
    engine: &mut Engine<B>,
    value: Term,
) -> Result<Vec<u8>, WriteFault>
    requires { IsProtected (B.store engine.old.bank) value }
    ensures text { IfOk result (λ text. (u : Tree) →
        tree_at (B.store engine.old.bank) value ≡ Some u → text.items ≡ canon u) }
    ensures same { SameEngine engine.old engine.new }
    ensures count { IfOk result (λ text. B.store engine.new.bank
        ≡ with_count (B.store engine.old.bank) value
        ((B.store engine.old.bank).roots value.0 - 1)) }
{
    let text = text_of(alloc, engine.bank(), value)?;
    engine.unprotect(value);
    Ok(text)
}
