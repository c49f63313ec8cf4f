//! The parts of a tree that are shared in its table.

ghost use Rattle.std.specs.Prelude.{◌≡◌, ◌&&◌, IfOk, IsSome, length, map, nat_le, nat_lt};
ghost use Rattle.rx_term.specs.Tree.{Tree};
ghost use Rattle.rx_term.specs.Store.{tree_at};
ghost use Rattle.rx_term.specs.Walks.{held_tree};
ghost use Rattle.rx_text.specs.Canon.{canon};
ghost use Rattle.rx_table.specs.Table.{is_shared};
ghost use Rattle.rx_table.specs.Inner.Walk.{AreBelow, HasParts, trees_of};
ghost use Rattle.rx_table.specs.Inner.Shared.{AreCounts};

use crate::walk::Parts;
use rx_term::{Term, TermBank};
use rx_text::write_within;
use std::alloc::{AllocError, Global};

/// No number of an element in a placeholder is longer, in bytes, up to the number 999,999.
const SHORT: usize = 8;

/// Returns how often each of the first `count` indices is among these.
fn count_uses(alloc: Global, count: usize, inside: &[u32]) -> Result<Vec<usize>, AllocError>
    requires { AreBelow count inside.now }
    ensures { IfOk result (λ uses. AreCounts count inside.now uses.items) }
{
    let mut uses = vec![in alloc; 0_usize; count]?;
    for index in inside {
        uses[*index as usize] += 1;
    }
    Ok(uses)
}

/// Returns whether a part is shared: used at least twice, and with a text of more than 8 bytes.
fn is_shared<B: TermBank>(alloc: Global, bank: &B, t: Term, uses: usize) -> Result<bool, AllocError>
    requires { IsSome (tree_at (B.store bank.now) t) }
    ensures { IfOk result (λ shared. shared ≡ (nat_le 2 uses
        && nat_lt 8 (length (canon (held_tree (B.store bank.now) t))))) }
{
    if uses < 2 {
        return Ok(false);
    }
    Ok(write_within(alloc, bank, t, SHORT)?.is_none())
}

/// Returns for each of the parts of a tree whether it is shared. Takes time in proportion to their
/// cells.
pub(crate) fn shared_parts<B: TermBank>(
    alloc: Global,
    bank: &B,
    parts: &Parts,
) -> Result<Vec<bool>, AllocError>
    requires { (t : Tree) × HasParts (B.store bank.now) t parts.now }
    ensures { IfOk result (λ shared. shared.items
        ≡ map (is_shared (trees_of (B.store bank.now) parts.now.terms.keys))
        (trees_of (B.store bank.now) parts.now.terms.keys)) }
{
    let uses = count_uses(alloc, parts.terms.len(), &parts.inside)?;
    let mut shared = Vec::new(alloc);
    while shared.len() < parts.terms.len() {
        let index = shared.len();
        let part = Term(parts.terms.as_slice()[index]);
        shared.push(is_shared(alloc, bank, part, uses[index])?)?;
    }
    Ok(shared)
}
