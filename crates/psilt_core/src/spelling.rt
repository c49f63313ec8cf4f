//! Reads and checks the text of a pattern, in a term store of its own.

ghost use Rattle.std.specs.Prelude.{◌≡◌, IsSome, IfOk, IfErr, None, Some};
ghost use Rattle.rx_term.specs.Tree.{Tree};
ghost use Rattle.rx_term.specs.Store.{tree_at};
ghost use Rattle.rx_shared.specs.State.{store_of};
ghost use Rattle.rx_pattern.specs.Pattern.{unfit};
ghost use Rattle.psilt_core.specs.Patterns.{IsNoPattern, IsUnfit, SpellsPattern};

use crate::work::MOST_CELLS;
use rx_pattern::{Pattern, PatternFault};
use rx_shared::SharedBank;
use rx_term::Term;
use rx_text::{TextFault, read};
use std::alloc::Global;

/// The largest length of a text, in bytes.
const LONGEST: usize = 16_777_216;

/// Why a text is rejected as a pattern.
#[derive(Clone, Copy, Debug, Drop)]
pub enum NoPattern {
    /// Out of memory or cells, so the verdict is not known.
    Memory,
    /// The text has more than 16,777,216 bytes.
    Long,
    /// The text leaves the grammar at this offset.
    Grammar { at: u32 },
    /// A placeholder violates this rule: 1 if it is not one of the six, otherwise 2 if it has
    /// annotations.
    Rule { number: u32 },
}

/// Returns the pattern that a text spells.
pub(crate) fn read_pattern(alloc: Global, text: &[u8]) -> Result<Pattern, NoPattern>
    ensures pattern { IfOk result (SpellsPattern text.now) }
    ensures none { IfErr result (IsNoPattern text.now) }
{
    if text.len() > LONGEST {
        return Err(NoPattern::Long);
    }
    match SharedBank::new(alloc, MOST_CELLS) {
        Ok(bank) => read_pattern_over(alloc, text, bank),
        Err(_) => Err(NoPattern::Memory),
    }
}

/// Reads a pattern over this store, and frees the store.
fn read_pattern_over(alloc: Global, text: &[u8], mut bank: SharedBank) -> Result<Pattern, NoPattern>
    ensures pattern { IfOk result (SpellsPattern text.now) }
    ensures none { IfErr result (IsNoPattern text.now) }
{
    read_pattern_in(alloc, text, &mut bank)
}

/// Reads a pattern over this store.
fn read_pattern_in(alloc: Global, text: &[u8], bank: &mut SharedBank) -> Result<Pattern, NoPattern>
    ensures pattern { IfOk result (SpellsPattern text.now) }
    ensures none { IfErr result (IsNoPattern text.now) }
{
    match read(alloc, text, bank) {
        Ok(t) => pattern_of(alloc, bank, t),
        Err(TextFault::Long) => Err(NoPattern::Long),
        Err(TextFault::Grammar { at }) => Err(NoPattern::Grammar { at }),
        Err(TextFault::Memory) => Err(NoPattern::Memory),
        Err(TextFault::Full) => Err(NoPattern::Memory),
    }
}

/// Returns the pattern that has the tree of a term.
fn pattern_of(alloc: Global, bank: &SharedBank, t: Term) -> Result<Pattern, NoPattern>
    requires { IsSome (tree_at (store_of bank.now) t) }
    ensures pattern { IfOk result
        (λ p. (tree_at (store_of bank.now) t ≡ Some p) × (unfit p ≡ None)) }
    ensures none { IfErr result
        (λ why. (u : Tree) → tree_at (store_of bank.now) t ≡ Some u → IsUnfit u why) }
{
    match Pattern::of(alloc, bank, t) {
        Ok(pattern) => Ok(pattern),
        Err(PatternFault::Unknown) => Err(NoPattern::Rule { number: 1 }),
        Err(PatternFault::Annotated) => Err(NoPattern::Rule { number: 2 }),
        Err(_) => Err(NoPattern::Memory),
    }
}
