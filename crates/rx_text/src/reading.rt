//! Reads a text into a term store.

ghost use Rattle.std.specs.Prelude.{◌≡◌, ◌↔◌, ℕ, Some, IfOk, IfErr, IsErrOf};
ghost use Rattle.rx_term.specs.Tree.{Tree};
ghost use Rattle.rx_term.specs.Store.{tree_at, cells};
ghost use Rattle.rx_term.specs.Steps.{Grows};
ghost use Rattle.rx_text.specs.Verdict.{IsVerdict, TooLong, Outside, Spelt};
ghost use Rattle.rx_text.specs.Faults.{IsOfText};
ghost use Rattle.rx_text.specs.Answer.{AreNodesOf, AreProperNodes};

use crate::build::build;
use crate::faults::TextFault;
use crate::nodes::Node;
use crate::reader::read_nodes;
use rx_term::{Term, TermBank};
use std::alloc::Global;

/// The greatest length of a text, in bytes.
pub const LONGEST: usize = 16_777_216;

/// Parses a text into the nodes of its tree, each after those of its parts.
///
/// Each `Node::Annotations` has a number of annotations that is not 0, and its tree has none yet.
/// Returns the errors of [`read`] except `Full`. Takes time in proportion to the text.
pub fn parse(alloc: Global, bytes: &[u8]) -> Result<Vec<Node>, TextFault>
    ensures spelt { IfOk result (λ nodes. (t : Tree) × IsVerdict bytes.now (Spelt t)
        × AreNodesOf bytes.now nodes.items t) }
    ensures proper { IfOk result (λ nodes. AreProperNodes bytes.now nodes.items) }
    ensures long { IsErrOf result TextFault.Long ↔ IsVerdict bytes.now TooLong }
    ensures outside { (at : ℕ) → IsErrOf result (TextFault.Grammar at)
        → IsVerdict bytes.now (Outside at) }
    ensures not_full { IsErrOf result TextFault.Full → ⊥ }
{
    if bytes.len() > LONGEST {
        return Err(TextFault::Long);
    }
    read_nodes(alloc, bytes)
}

/// Parses a text into a term store, and returns its term.
///
/// Returns `Long` if the text has more than [`LONGEST`] bytes, `Grammar` with the offset of the
/// first token that no valid text has there, `Memory` if an allocation failed, and `Full` if the
/// store is full. Only adds terms; after `Long` and `Grammar` the store is unchanged. Takes
/// expected time in proportion to the text.
pub fn read<B: TermBank>(alloc: Global, bytes: &[u8], bank: &mut B) -> Result<Term, TextFault>
    ensures spelt { IfOk result (λ t. (u : Tree) × (tree_at (B.store bank.new) t ≡ Some u)
        × IsVerdict bytes.now (Spelt u)) }
    ensures long { IsErrOf result TextFault.Long ↔ IsVerdict bytes.now TooLong }
    ensures outside { (at : ℕ) → IsErrOf result (TextFault.Grammar at)
        → IsVerdict bytes.now (Outside at) }
    ensures unchanged { IfErr result
        (λ fault. IsOfText fault → B.store bank.new ≡ B.store bank.old) }
    ensures full { IsErrOf result TextFault.Full
        → cells (B.store bank.new) ≡ (B.store bank.new).cap }
    ensures full_spelt { IsErrOf result TextFault.Full
        → (u : Tree) × IsVerdict bytes.now (Spelt u) }
    ensures grows { Grows (B.store bank.old) (B.store bank.new) }
{
    let nodes = parse(alloc, bytes)?;
    build(alloc, bytes, &nodes, bank)
}
