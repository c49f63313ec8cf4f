//! The type of patterns.

ghost use Rattle.std.specs.Prelude.{◌≡◌, ◌↔◌, ℕ, List, [], Some, None, Ok, Err, IsSome, IfSome};
ghost use Rattle.std.specs.Prelude.{IfOk, IfErr, OnErr, IsErrOf, length};
ghost use Rattle.rx_term.specs.Tree.{Tree};
ghost use Rattle.rx_term.specs.Store.{tree_at, cells};
ghost use Rattle.rx_term.specs.Steps.{Grows};
ghost use Rattle.rx_term.specs.Walks.{AllHeld, HaveTrees};
ghost use Rattle.rx_pattern.specs.Pattern.{unfit, Unknown, Annotated};
ghost use Rattle.rx_pattern.specs.Matching.{matching};
ghost use Rattle.rx_pattern.specs.Filling.{filling, blanks, Count, Kinds};
ghost use Rattle.rx_pattern.specs.Held.{Binds, AddsOnlyLists};
ghost use Rattle.rx_pattern.specs.Faults.{IsMatchRefusal, IsOfTerms};

use crate::check::check;
use crate::faults::{MakeFault, PatternFault};
use crate::fill::{count_blanks, fill, misfit};
use crate::flatten::flatten;
use crate::nodes::Node;
use crate::subjects::match_nodes;
use rx_term::{Term, TermBank};
use std::alloc::Global;
use std::marker::Model;

/// A pattern, independent of any store. Contracts see its tree.
#[derive(Drop)]
pub struct Pattern {
    alloc: Global,
    nodes: Vec<Node>,
}

impl Model for Pattern {
    ghost use Rattle.rx_term.specs.Tree.{Tree};
    ghost use Rattle.rx_term.specs.Inner.Code.{coded_tree};

    ghost Value = { Tree };

    ghost coded = { coded_tree };

    ghost use Rattle.rx_pattern.specs.Inner.PatternView.{tree_of, IsPatternCode};

    ghost view = { tree_of };

    ghost invariant = { IsPatternCode };
}

impl Pattern {
    /// Makes a pattern from a term of the store. Returns `Unknown` if a placeholder is not one of
    /// the six, otherwise `Annotated` if one has annotations, and `Memory` if an allocation failed.
    /// Takes time linear in the size of the term as a tree.
    pub fn of<B: TermBank>(alloc: Global, bank: &B, t: Term) -> Result<Pattern, PatternFault>
        requires { IsSome (tree_at (B.store bank.now) t) }
        ensures made { IfOk result (λ p. tree_at (B.store bank.now) t ≡ Some p) }
        ensures fit { IfOk result (λ p. unfit p ≡ None) }
        ensures unknown { IsErrOf result PatternFault.Unknown
            → IfSome (tree_at (B.store bank.now) t) (λ u. unfit u ≡ Some Unknown) }
        ensures annotated { IsErrOf result PatternFault.Annotated
            → IfSome (tree_at (B.store bank.now) t) (λ u. unfit u ≡ Some Annotated) }
        ensures never_full { IsErrOf result PatternFault.Full → ⊥ }
    {
        check(alloc, bank, t)?;
        let nodes = flatten(alloc, bank, t)?;
        Ok(Pattern { alloc, nodes })
    }

    /// Returns whether the pattern matches a term, and in `out` the references of its bindings, in
    /// order. Only `[]` and lists of the store without their annotations are added to the store.
    /// `out` is empty if the pattern does not match, and after an error. Returns `Full` or `Memory`
    /// if the store could not add a list, `Memory` also if an allocation failed. Takes time linear
    /// in the size of the pattern.
    pub fn matches<B: TermBank>(
        &self,
        bank: &mut B,
        t: Term,
        out: &mut Vec<Term>,
    ) -> Result<bool, PatternFault>
        requires { IsSome (tree_at (B.store bank.old) t) }
        ensures answer { IfOk result (λ found. (u : Tree) → tree_at (B.store bank.old) t ≡ Some u
            → Binds (B.store bank.new) (matching self.now u) out.new.items found) }
        ensures refused { IfErr result (IsMatchRefusal (B.store bank.new)) }
        ensures emptied { OnErr result (out.new.items ≡ []) }
        ensures grows { Grows (B.store bank.old) (B.store bank.new) }
        ensures added { AddsOnlyLists (B.store bank.old) (B.store bank.new) }
    {
        out.clear();
        let found = match match_nodes(self.alloc, &self.nodes, bank, t, out) {
            Ok(found) => found,
            Err(fault) => {
                out.clear();
                return Err(fault);
            }
        };
        if !found {
            out.clear();
        }
        Ok(found)
    }

    /// Returns the number of placeholders. Takes time linear in the size of the pattern.
    pub fn placeholders(&self) -> usize
        ensures { result ≡ length (blanks self.now) }
    {
        count_blanks(&self.nodes)
    }

    /// Makes the pattern's tree with these terms in place of its placeholders, in order. Returns
    /// `Count` if their numbers differ, otherwise `Kind` with the least index of a term that does
    /// not fit its placeholder; the store is unchanged then. Returns `Full` or `Memory` if the
    /// store could not grow.
    pub fn make<B: TermBank>(&self, bank: &mut B, args: &[Term]) -> Result<Term, MakeFault>
        requires { AllHeld (B.store bank.old) args.now }
        ensures made { IfOk result (λ r. (bs : List Tree) → HaveTrees (B.store bank.old) args.now bs
            → (u : Tree) × (filling self.now bs ≡ Ok u) × (tree_at (B.store bank.new) r ≡ Some u)) }
        ensures count { (bs : List Tree) → HaveTrees (B.store bank.old) args.now bs
            → (IsErrOf result MakeFault.Count ↔ (filling self.now bs ≡ Err Count)) }
        ensures kind { (bs : List Tree) → HaveTrees (B.store bank.old) args.now bs → (at : ℕ)
            → (IsErrOf result (MakeFault.Kind at) ↔ (filling self.now bs ≡ Err (Kinds at))) }
        ensures unchanged { IfErr result
            (λ fault. IsOfTerms fault → B.store bank.new ≡ B.store bank.old) }
        ensures full { IsErrOf result MakeFault.Full
            → cells (B.store bank.new) ≡ (B.store bank.new).cap }
        ensures grows { Grows (B.store bank.old) (B.store bank.new) }
    {
        if let Some(fault) = misfit(&self.nodes, bank, args) {
            return Err(fault);
        }
        fill(self.alloc, &self.nodes, bank, args)
    }
}
