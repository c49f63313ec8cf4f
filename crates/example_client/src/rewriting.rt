//! Patterns from texts, and one rewriting step with two of them.

ghost use Rattle.std.specs.Prelude.{◌≡◌, IsSome, Some, None, IfOk};
ghost use Rattle.rx_term.specs.Tree.{Tree};
ghost use Rattle.rx_term.specs.Store.{tree_at};
ghost use Rattle.rx_term.specs.Steps.{Grows};
ghost use Rattle.rx_text.specs.Verdict.{IsVerdict, Spelt};
ghost use Rattle.rx_pattern.specs.Pattern.{unfit};
ghost use Rattle.example_client.specs.Step.{IsStep};

use crate::WorkFault;
use rx_pattern::Pattern;
use rx_term::{Term, TermBank};
use rx_text::read;
use std::alloc::Global;

/// Reads a pattern from a text. Returns an error if the text is not a term or not a pattern, or if
/// the store or an allocation fails.
pub fn pattern<B: TermBank>(alloc: Global, bank: &mut B, text: &[u8]) -> Result<Pattern, WorkFault>
    ensures spelt { IfOk result (λ p. IsVerdict text.now (Spelt p)) }
    ensures fit { IfOk result (λ p. unfit p ≡ None) }
    ensures grows { Grows (B.store bank.old) (B.store bank.new) }
{
    let t = read(alloc, text, bank)?;
    Ok(Pattern::of(alloc, bank, t)?)
}

/// Returns the term that `right` makes of the bindings of `left` in a term, or `None` if `left`
/// does not match it. Returns an error if the bindings do not fit `right`, or if the store or an
/// allocation fails.
pub fn rewrite<B: TermBank>(
    alloc: Global,
    bank: &mut B,
    left: &Pattern,
    right: &Pattern,
    t: Term,
) -> Result<Option<Term>, WorkFault>
    requires { IsSome (tree_at (B.store bank.old) t) }
    ensures step { IfOk result (λ r. (u : Tree) → tree_at (B.store bank.old) t ≡ Some u →
        IsStep (B.store bank.new) left.now right.now u r) }
    ensures grows { Grows (B.store bank.old) (B.store bank.new) }
{
    let mut bound = Vec::new(alloc);
    if !left.matches(bank, t, &mut bound)? {
        return Ok(None);
    }
    let made = right.make(bank, bound.as_slice())?;
    Ok(Some(made))
}
