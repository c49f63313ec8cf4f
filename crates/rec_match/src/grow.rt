//! Growth of matching trees: each pending node is written, and its children become pending.

ghost use Rattle.std.specs.Prelude.{◌≡◌, ◌+◌, ◌<◌, ◌≤◌, ◌^◌, ◌∷◌, [], All, IfOk, length, map};
ghost use Rattle.rec_sorts.specs.Lookup.{symbols};
ghost use Rattle.rec_match.specs.Inner.Marking.{HasMarks};
ghost use Rattle.rec_match.specs.Inner.Shares.{symbols_of, AreShares};
ghost use Rattle.rec_match.specs.Inner.Tasks.{
  Covers,
  Adds,
  BranchesOut,
  TriesFirst,
  HasTree,
  task,
  tasks_of,
  IsReady,
  CanMark,
  StepsBy,
  CanStep,
  StepsOrStays,
  GrowsOut,
  CanGrow,
};
ghost use Rattle.rec_match.specs.Matching.{numbers_of};
ghost use Rattle.rec_match.specs.Parts.{coded_of, IsCode};
ghost use Rattle.rec_match.specs.declared.forest.Node.TheVariants.{Fail};

use crate::chain::Chains;
use crate::forest::{Child, Forest, Node, Place};
use crate::marks::Marks;
use crate::parts::CodeRow;
use crate::push::LeftParts;
use crate::shares::{Opening, Share};
use crate::switch::{Window, look_cost, no_children, window_of};
use rec_sorts::{Checked, Links};
use std::alloc::{AllocError, Global};

/// A pending node: the number of registers, and the rows with the tests that remain.
#[derive(Drop)]
pub(crate) struct Pending {
    pub(crate) node: u32,
    pub(crate) width: u32,
    pub(crate) rows: Vec<CodeRow>,
}

/// The forest so far, and the pending nodes.
#[derive(Drop)]
pub(crate) struct Growth {
    pub(crate) forest: Forest,
    pub(crate) pending: Vec<Pending>,
}

/// The state of tree building: the growth, marks of symbols, the fuel that is left, and the largest
/// number of nodes.
#[derive(Drop)]
pub(crate) struct Work {
    pub(crate) growth: Growth,
    pub(crate) marks: Marks,
    pub(crate) fuel: u64,
    pub(crate) most: usize,
}

impl Growth {
    /// Adds a pending node.
    fn add(&mut self, width: u32, rows: Vec<CodeRow>) -> Result<u32, AllocError>
        ensures { IfOk result (Adds self.old.forest (tasks_of self.old) self.new.forest
            (tasks_of self.new) width (map coded_of rows.items)) }
    {
        let node = self.forest.add_node()?;
        self.pending.push(Pending { node, width, rows })?;
        Ok(node)
    }

    /// Writes a pending node as a leaf for the first row, which has no tests left; the remaining
    /// rows become a pending node after it.
    fn write_leaf(
        &mut self,
        node: u32,
        width: u32,
        rule: u32,
        places: &[Place],
        rest: Vec<CodeRow>,
    ) -> Result<(), AllocError>
        requires { node < length self.old.forest.nodes.items }
        ensures { IfOk result (λ u. TriesFirst self.old.forest (tasks_of self.old) node width rule
            places.now (map coded_of rest.items) self.new.forest (tasks_of self.new)) }
    {
        let next = self.add(width, rest)?;
        self.forest.write_try(node, rule, places, next)?;
        Ok(())
    }
}

impl Work {
    /// Returns the state before any growth, with no marked symbol.
    pub(crate) fn new(alloc: Global, symbols: u32, fuel: u64) -> Result<Work, AllocError>
        ensures nodes { IfOk result (λ w. w.growth.forest.nodes.items ≡ Fail ∷ []) }
        ensures marks { IfOk result (λ w. HasMarks w.marks symbols) }
    {
        let forest = Forest::new(alloc)?;
        let marks = Marks::new(alloc, symbols)?;
        let pending = Vec::new(alloc);
        Ok(Work {
            growth: Growth { forest, pending },
            marks,
            fuel,
            most: 0,
        })
    }
}

/// The largest number of nodes of a symbol's tree.
const MOST_NODES: usize = 65_536;

/// The inputs of tree building: a specification, its symbols in a store, its left-hand sides, and
/// the rule chain of each symbol.
#[derive(Clone, Copy)]
pub(crate) struct Grower<'a> {
    pub(crate) alloc: Global,
    pub(crate) checked: &'a Checked,
    pub(crate) links: &'a Links,
    pub(crate) left: &'a LeftParts,
    pub(crate) chains: &'a Chains,
}

impl Grower<'_> {
    /// Adds a pending node for the symbol of each share, and returns the window of children by the
    /// symbols' numbers in the store.
    fn add_children(
        &self,
        mut shares: Vec<Share>,
        width: u32,
        window: Window,
        growth: &mut Growth,
    ) -> Result<Vec<Child>, AllocError>
        requires ready { IsReady self.now }
        requires declared { All
            (λ k. k < length (symbols self.now.checked.now.spec)) (symbols_of shares.items) }
        requires covers { Covers (numbers_of self.now.links.now)
            (symbols_of shares.items) window.low window.span }
        ensures long { IfOk result (λ w. length w.items ≡ window.span) }
        ensures longer { IfOk result
            (λ w. length growth.old.forest.nodes.items ≤ length growth.new.forest.nodes.items) }
        ensures branches { IfOk result (λ w. (register : _) (coded : _) → AreShares
            self.now.left.now.parts register width (symbols_of shares.items) coded shares.items
            → BranchesOut self.now.checked.now.spec (numbers_of self.now.links.now)
            self.now.left.now.parts growth.old.forest (tasks_of growth.old) width coded
            growth.new.forest (tasks_of growth.new) register window.low
            (symbols_of shares.items) w.items 0) }
    {
        let mut children = no_children(self.alloc, window.span)?;
        while let Some(share) = shares.pop() {
            let Share { symbol, rows } = share;
            let count = self.checked.arity(symbol);
            if count > u32::MAX - width {
                return Err(AllocError);
            }
            let node = growth.add(width + count, rows)?;
            let at = self.links.symbol_of(symbol).0 - window.low;
            children[at as usize] = Child { node, count };
        }
        Ok(children)
    }

    /// Writes a pending node as a switch. The rows that remain for each marked symbol, and those
    /// that remain for every other term, become pending nodes.
    fn branch(
        &self,
        rows: &[CodeRow],
        node: u32,
        opening: Opening,
        window: Window,
        work: &mut Work,
    ) -> Result<(), AllocError>
        requires ready { IsReady self.now }
        requires there { node < length work.old.growth.forest.nodes.items }
        requires register { opening.register < opening.base }
        requires codes { All (λ row. All (IsCode self.now.left.now.parts) row.codes.items)
            rows.now }
        requires marks { CanMark self.now work.old.marks }
        requires covers { Covers (numbers_of self.now.links.now) work.old.marks.symbols.items
            window.low window.span }
        requires room { opening.base + length self.now.left.now.parts.arguments.items < 2 ^ 32 }
        ensures marks { IfOk result (λ u. work.new.marks ≡ work.old.marks) }
        ensures fuel { IfOk result (λ u. work.new.fuel ≡ work.old.fuel) }
        ensures steps { IfOk result (λ u. StepsBy self.now work.old.growth.forest
            (task node opening.base rows.now ∷ tasks_of work.old.growth)
            work.new.growth.forest (tasks_of work.new.growth)) }
    {
        let parts = &self.left.parts;
        let Opening { register, base } = opening;
        let left = parts.keep_rows(self.alloc, rows, register, &work.marks.marked)?;
        let other = work.growth.add(base, left)?;
        let shares = parts.deal(self.alloc, rows, opening, &work.marks)?;
        let children = self.add_children(shares, base, window, &mut work.growth)?;
        let forest = &mut work.growth.forest;
        forest.write_switch(node, register, window.low, &children, other)?;
        Ok(())
    }

    /// Writes a pending node as a switch on the register of the first symbol test. Nothing changes
    /// if there is no such test, if the switch would cost more than half of the fuel, or if there
    /// would be too many nodes.
    fn switch(
        &self,
        rows: &[CodeRow],
        node: u32,
        width: u32,
        work: &mut Work,
    ) -> Result<bool, AllocError>
        requires ready { IsReady self.now }
        requires there { node < length work.old.growth.forest.nodes.items }
        requires some { 0 < length rows.now }
        requires codes { All (λ row. All (IsCode self.now.left.now.parts) row.codes.items)
            rows.now }
        requires registers { All (λ row. All (λ c. c.register < width) row.codes.items) rows.now }
        requires marks { CanMark self.now work.old.marks }
        ensures marks { IfOk result (λ goes. CanMark self.now work.new.marks) }
        ensures fuel { IfOk result (λ goes. work.new.fuel ≤ work.old.fuel) }
        ensures steps { IfOk result (StepsOrStays self.now work.old.growth.forest
            (task node width rows.now ∷ tasks_of work.old.growth) work.new.growth) }
    {
        let parts = &self.left.parts;
        let Some(register) = parts.first_register(&rows[0].codes) else {
            return Ok(false);
        };
        parts.mark_rows(self.links, rows, register, &mut work.marks)?;
        let symbols = work.marks.symbols.len();
        if symbols > work.most.saturating_sub(work.growth.forest.nodes.len()) {
            return Ok(false);
        }
        if !parts.pay_switch(rows, register, symbols as u64, &mut work.fuel) {
            return Ok(false);
        }
        let Some(window) = window_of(self.links, &work.marks.symbols) else {
            return Ok(false);
        };
        if parts.arguments.len() > (u32::MAX - width) as usize {
            return Ok(false);
        }
        let base = width;
        self.branch(rows, node, Opening { register, base }, window, work)?;
        Ok(true)
    }

    /// Writes a pending node, and makes its children pending. Returns false if it would cost too
    /// much.
    fn step(
        &self,
        mut rows: Vec<CodeRow>,
        node: u32,
        width: u32,
        work: &mut Work,
    ) -> Result<bool, AllocError>
        requires ready { IsReady self.now }
        requires can { CanStep self.now work.old.growth.forest
            (task node width rows.items ∷ tasks_of work.old.growth) }
        requires marks { CanMark self.now work.old.marks }
        ensures marks { IfOk result (λ goes. CanMark self.now work.new.marks) }
        ensures fuel { IfOk result (λ goes. work.new.fuel ≤ work.old.fuel) }
        ensures steps { IfOk result (StepsOrStays self.now work.old.growth.forest
            (task node width rows.items ∷ tasks_of work.old.growth) work.new.growth) }
    {
        if rows.is_empty() {
            work.growth.forest.nodes[node as usize] = Node::Fail;
            return Ok(true);
        }
        let parts = &self.left.parts;
        if let Some(places) = parts.places_of(self.alloc, &rows[0].codes)? {
            let rule = rows.remove(0).rule;
            work.growth.write_leaf(node, width, rule, &places, rows)?;
            return Ok(true);
        }
        self.switch(&rows, node, width, work)
    }

    /// Writes nodes until none is pending. Returns false if that would cost more than the fuel, or
    /// if there are too many nodes.
    fn grow(&self, work: &mut Work) -> Result<bool, AllocError>
        requires ready { IsReady self.now }
        requires can { CanStep self.now work.old.growth.forest (tasks_of work.old.growth) }
        requires marks { CanMark self.now work.old.marks }
        ensures marks { IfOk result (λ grown. CanMark self.now work.new.marks) }
        ensures grows { IfOk result
            (GrowsOut self.now work.old.growth work.new.growth.forest) }
    {
        while let Some(pending) = work.growth.pending.pop() {
            let cost = look_cost(&pending.rows);
            if work.fuel <= cost || work.growth.forest.nodes.len() > work.most {
                return Ok(false);
            }
            work.fuel -= cost + 1;
            let Pending { node, width, rows } = pending;
            if !self.step(rows, node, width, work)? {
                return Ok(false);
            }
        }
        Ok(true)
    }

    /// Grows the tree of these rows and returns its root. Returns 0 if the tree would have too many
    /// nodes or cost more than the fuel; no node of it is kept then.
    pub(crate) fn tree(
        &self,
        width: u32,
        rows: Vec<CodeRow>,
        work: &mut Work,
    ) -> Result<u32, AllocError>
        requires ready { IsReady self.now }
        requires some { 0 < length work.old.growth.forest.nodes.items }
        requires can { CanGrow self.now work.old.growth.forest width (map coded_of rows.items) }
        requires marks { CanMark self.now work.old.marks }
        ensures marks { IfOk result (λ root. CanMark self.now work.new.marks) }
        ensures tree { IfOk result (HasTree self.now.checked.now.spec
            (numbers_of self.now.links.now) self.now.left.now.parts work.old.growth.forest width
            (map coded_of rows.items) work.new.growth.forest) }
    {
        let nodes = work.growth.forest.nodes.len();
        let places = work.growth.forest.places.len();
        let children = work.growth.forest.children.len();
        work.growth.pending.clear();
        work.most = nodes.saturating_add(MOST_NODES);
        let root = work.growth.add(width, rows)?;
        if self.grow(work)? {
            return Ok(root);
        }
        work.growth.forest.nodes.truncate(nodes);
        work.growth.forest.places.truncate(places);
        work.growth.forest.children.truncate(children);
        Ok(0)
    }
}
