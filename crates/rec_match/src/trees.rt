//! Construction of the matching trees of all symbols.

ghost use Rattle.std.specs.Prelude.{◌≡◌, ◌<◌, ◌∷◌, [], IfOk, length};
ghost use Rattle.rec_sorts.specs.Lookup.{symbols};
ghost use Rattle.rec_match.specs.Forests.{IsForest};
ghost use Rattle.rec_match.specs.Inner.Tasks.{IsReady, CanMark, CanStep};
ghost use Rattle.rec_match.specs.Inner.Paths.{AreTreesOf};
ghost use Rattle.rec_match.specs.Inner.Starting.{ChainsRules};
ghost use Rattle.rec_match.specs.Matching.{numbers_of};
ghost use Rattle.rec_match.specs.Pushed.{AreLeftParts};
ghost use Rattle.rec_match.specs.declared.forest.Node.TheVariants.{Fail};

use crate::chain::Chains;
use crate::forest::{Forest, Node};
use crate::grow::{Grower, Growth, Work};
use crate::push::{LeftParts, left_parts};
use rec_sorts::{Checked, Links};
use std::alloc::{AllocError, Global};

/// Returns the limit on the work of building trees, for this number of parts of left-hand sides. It
/// is a few times what trees of rules need that hardly overlap.
fn fuel(parts: usize) -> u64 {
    (parts as u64).saturating_mul(16).saturating_add(1 << 22)
}

impl Forest {
    /// Returns a forest without trees: one node, to which nothing leads.
    pub(crate) fn new(alloc: Global) -> Result<Forest, AllocError>
        ensures nodes { IfOk result (λ f. f.nodes.items ≡ Fail ∷ []) }
    {
        let mut nodes = Vec::new(alloc);
        nodes.push(Node::Fail)?;
        Ok(Forest {
            nodes,
            places: Vec::new(alloc),
            children: Vec::new(alloc),
            roots: Vec::new(alloc),
        })
    }
}

impl Grower<'_> {
    /// Builds the trees of a symbol's rules and returns their roots: one tree for all rules, or one
    /// for each rule if that tree would be too large. The roots are in the order of the rules.
    fn trees_of(&self, symbol: u32, work: &mut Work) -> Result<Vec<u32>, AllocError>
        requires symbol { symbol < length (symbols self.now.checked.now.spec) }
        requires ready { IsReady self.now }
        requires some { 0 < length work.old.growth.forest.nodes.items }
        requires can { CanStep self.now work.old.growth.forest [] }
        requires marks { CanMark self.now work.old.marks }
        ensures marks { IfOk result (λ roots. CanMark self.now work.new.marks) }
        ensures trees { IfOk result (λ roots. AreTreesOf self.now work.old.growth.forest symbol
            work.new.growth.forest roots.items) }
    {
        let rows = self
            .left
            .rows(self.alloc, self.checked, self.chains, symbol)?;
        let width = self.checked.arity(symbol);
        let root = self.tree(width, rows, work)?;
        if root != 0 {
            let one = vec![in self.alloc; root; 1]?;
            return Ok(one);
        }
        let rows = self
            .left
            .rows(self.alloc, self.checked, self.chains, symbol)?;
        let roots = self.paths(width, &rows, &mut work.growth.forest)?;
        Ok(roots)
    }

    /// Builds the trees of all symbols, one after the other, in an empty forest.
    fn grow_trees(&self, work: &mut Work) -> Result<(), AllocError>
        requires ready { IsReady self.now }
        requires nodes { work.old.growth.forest.nodes.items ≡ Fail ∷ [] }
        requires marks { CanMark self.now work.old.marks }
        ensures { IfOk result (λ u. IsForest self.now.checked.now.spec
            (numbers_of self.now.links.now) work.new.growth.forest) }
    {
        let _kept = self.checked.syntax();
        let mut roots = Vec::new(self.alloc);
        for symbol in 0..self.checked.symbols() {
            roots.push(self.trees_of(symbol, work)?)?;
        }
        work.growth.forest.roots = roots;
        Ok(())
    }
}

/// Builds the matching trees of all symbols from the parts of the left-hand sides.
fn grow_all(
    checked: &Checked,
    links: &Links,
    chains: &Chains,
    left: &LeftParts,
) -> Result<Forest, AllocError>
    requires linked { length links.now ≡ length (symbols checked.now.spec) }
    requires chains { ChainsRules checked.now.spec chains.now }
    requires left { AreLeftParts checked.now.spec left.now.parts left.now.numbers.items
        (length checked.now.spec.rules) }
    ensures { IfOk result (IsForest checked.now.spec (numbers_of links.now)) }
{
    let _differ = links.symbols();
    let _kept = checked.syntax();
    let alloc = *left.numbers.allocator();
    let grower = Grower {
        alloc,
        checked,
        links,
        left,
        chains,
    };
    let fuel = fuel(left.parts.parts.len());
    let mut work = Work::new(alloc, checked.symbols(), fuel)?;
    grower.grow_trees(&mut work)?;
    let Work { growth, .. } = work;
    let Growth { forest, .. } = growth;
    Ok(forest)
}

/// Builds the matching trees of a specification's symbols from their rule chains.
pub(crate) fn trees(
    alloc: Global,
    checked: &Checked,
    links: &Links,
    chains: &Chains,
) -> Result<Forest, AllocError>
    requires linked { length links.now ≡ length (symbols checked.now.spec) }
    requires chains { ChainsRules checked.now.spec chains.now }
    ensures { IfOk result (IsForest checked.now.spec (numbers_of links.now)) }
{
    let left = left_parts(alloc, checked)?;
    grow_all(checked, links, chains, &left)
}
