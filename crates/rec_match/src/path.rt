//! Trees for one rule, which are straight paths: each symbol of the rule is tested at a node of its
//! own, and all other terms lead to no rule.
//!
//! Each path begins with the arguments alone, so the registers of a path that failed are cut off
//! before the next one is tried. A node has one number of registers, so the other branch of a
//! path's node cannot be the first node of the next rule. A path has two nodes for each symbol and
//! two at its end, and is built in linear time.

ghost use Rattle.std.specs.Prelude.{◌≡◌, ◌+◌, ◌<◌, ◌^◌, ◌++◌, ◌∷◌, ◌≤◌, []};
ghost use Rattle.std.specs.Prelude.{IfOk, length, map, reverse, slice_range};
ghost use Rattle.rec_sorts.specs.Numbering.{variable_count};
ghost use Rattle.rec_match.specs.Inner.Tasks.{IsReady, StepsBy, CanStep, CanGrow};
ghost use Rattle.rec_match.specs.Inner.Paths.{
  waiting,
  path_task,
  left_to_ask,
  AsksFor,
  AreValues,
  AreTrees,
};
ghost use Rattle.rec_match.specs.Matching.{numbers_of};
ghost use Rattle.rec_match.specs.Parts.{coded_of, numbered_from};
ghost use Rattle.rec_match.specs.Placed.{ArePlaces};

use crate::forest::{Child, Forest};
use crate::grow::Grower;
use crate::parts::{Code, CodeRow, Part, Parts, push_from};
use crate::places::Places;
use rec_sorts::Meaning;
use std::alloc::{AllocError, Global};

/// A path that is being written: the pending node, the number of its registers, the rule, the
/// variables with their registers, and the tests that remain, in reverse order.
#[derive(Drop)]
pub(crate) struct Path {
    pub(crate) node: u32,
    pub(crate) width: u32,
    pub(crate) rule: u32,
    pub(crate) values: Vec<Code>,
    pub(crate) rest: Vec<Code>,
}

/// Appends tests in reverse order.
fn push_reversed(codes: &[Code], rest: &mut Vec<Code>) -> Result<(), AllocError>
    ensures { IfOk result (λ u. rest.new.items ≡ rest.old.items ++ reverse codes.now) }
{
    let mut i = codes.len();
    while i > 0 {
        i -= 1;
        rest.push(codes[i])?;
    }
    Ok(())
}

impl Parts {
    /// Appends a test for each argument of a part, on the registers from `base` on, in reverse
    /// order.
    fn push_asked(
        &self,
        alloc: Global,
        part: Part,
        base: u32,
        rest: &mut Vec<Code>,
    ) -> Result<(), AllocError>
        requires ordered { part.from ≤ part.to }
        requires within { part.to ≤ length self.now.arguments.items }
        requires room { base + length self.now.arguments.items < 2 ^ 32 }
        ensures { IfOk result (λ u. rest.new.items ≡ rest.old.items ++ reverse
            (numbered_from base (slice_range self.now.arguments.items part.from part.to))) }
    {
        let mut codes = Vec::new(alloc);
        let arguments = &self.arguments[part.from as usize..part.to as usize];
        push_from(arguments, base, &mut codes)?;
        push_reversed(&codes, rest)?;
        Ok(())
    }
}

impl Grower<'_> {
    /// Writes the pending node as a test for `symbol`. The tests of its arguments remain for a node
    /// after it.
    fn pass(
        &self,
        code: Code,
        symbol: u32,
        path: &mut Path,
        forest: &mut Forest,
    ) -> Result<(), AllocError>
        requires ready { IsReady self.now }
        requires asks { AsksFor self.now code symbol }
        requires can { CanStep self.now forest.old
            (waiting path.old (code ∷ reverse path.old.rest.items) ∷ []) }
        ensures steps { IfOk result (λ u. StepsBy self.now forest.old
            (waiting path.old (code ∷ reverse path.old.rest.items) ∷ []) forest.new
            (path_task path.new ∷ [])) }
        ensures values { IfOk result (λ u. path.new.values ≡ path.old.values) }
        ensures more { IfOk result
            (λ u. length forest.new.nodes.items ≡ length forest.old.nodes.items + 2) }
        ensures few { IfOk result (λ u. length forest.old.nodes.items < 2 ^ 32) }
    {
        let parts = &self.left.parts;
        let count = self.checked.arity(symbol);
        if count > u32::MAX - path.width
            || parts.arguments.len() > (u32::MAX - path.width) as usize
        {
            return Err(AllocError);
        }
        let part = parts.parts[code.part as usize];
        parts.push_asked(self.alloc, part, path.width, &mut path.rest)?;
        let other = forest.add_node()?;
        let node = forest.add_node()?;
        let low = self.links.symbol_of(symbol).0;
        forest.write_switch(
            path.node,
            code.register,
            low,
            &[Child { node, count }],
            other,
        )?;
        path.node = node;
        path.width += count;
        Ok(())
    }

    /// Handles the first test that remains: writes a node for a symbol, or notes a variable's
    /// register.
    fn ask(&self, code: Code, path: &mut Path, forest: &mut Forest) -> Result<(), AllocError>
        requires ready { IsReady self.now }
        requires can { CanStep self.now forest.old
            (waiting path.old (code ∷ reverse path.old.rest.items) ∷ []) }
        requires values { AreValues self.now path.old.values.items }
        ensures steps { IfOk result (λ u. StepsBy self.now forest.old
            (waiting path.old (code ∷ reverse path.old.rest.items) ∷ []) forest.new
            (path_task path.new ∷ [])) }
        ensures values { IfOk result (λ u. AreValues self.now path.new.values.items) }
        ensures less { IfOk result (λ u. left_to_ask path.new forest.new
            ≤ left_to_ask path.old forest.old) }
    {
        match self.left.parts.parts[code.part as usize].meaning {
            Meaning::Variable(_) => {
                path.values.push(code)?;
                Ok(())
            }
            Meaning::Symbol(symbol) => self.pass(code, symbol, path, forest),
        }
    }

    /// Handles all tests that remain.
    fn ask_all(&self, path: &mut Path, forest: &mut Forest) -> Result<(), AllocError>
        requires ready { IsReady self.now }
        requires can { CanStep self.now forest.old (path_task path.old ∷ []) }
        requires none { path.old.values.items ≡ [] }
        ensures steps { IfOk result (λ u. StepsBy self.now forest.old (path_task path.old ∷ [])
            forest.new (path_task path.new ∷ [])) }
        ensures done { IfOk result (λ u. path.new.rest.items ≡ []) }
        ensures values { IfOk result (λ u. AreValues self.now path.new.values.items) }
    {
        while let Some(code) = path.rest.pop() {
            self.ask(code, path, forest)?;
        }
        Ok(())
    }

    /// Writes the pending node as the leaf of the rule. No symbol test remains.
    fn end(&self, path: &Path, forest: &mut Forest, given: &mut Places) -> Result<(), AllocError>
        requires ready { IsReady self.now }
        requires can { CanStep self.now forest.old (path_task path.now ∷ []) }
        requires done { path.now.rest.items ≡ [] }
        requires values { AreValues self.now path.now.values.items }
        requires given { ArePlaces [] (variable_count self.now.checked.now.spec) given.old }
        ensures steps { IfOk result (λ u. StepsBy self.now forest.old (path_task path.now ∷ [])
            forest.new []) }
        ensures given { IfOk result
            (λ u. ArePlaces [] (variable_count self.now.checked.now.spec) given.new) }
    {
        let parts = &self.left.parts;
        let places = parts.value_places(self.alloc, &path.values, given)?;
        let next = forest.add_node()?;
        forest.write_try(path.node, path.rule, &places, next)?;
        Ok(())
    }

    /// Builds the tree of one row without earlier tests, and returns its root.
    fn path(
        &self,
        width: u32,
        row: &CodeRow,
        forest: &mut Forest,
        given: &mut Places,
    ) -> Result<u32, AllocError>
        requires ready { IsReady self.now }
        requires can { CanGrow self.now forest.old width (coded_of row.now ∷ []) }
        requires given { ArePlaces [] (variable_count self.now.checked.now.spec) given.old }
        ensures tree { IfOk result (λ root. AreTrees self.now.checked.now.spec
            (numbers_of self.now.links.now) self.now.left.now.parts forest.old width
            (coded_of row.now ∷ []) forest.new (root ∷ [])) }
        ensures given { IfOk result
            (λ root. ArePlaces [] (variable_count self.now.checked.now.spec) given.new) }
    {
        let mut rest = Vec::new(self.alloc);
        push_reversed(&row.codes, &mut rest)?;
        let root = forest.add_node()?;
        let mut path = Path {
            node: root,
            width,
            rule: row.rule,
            values: Vec::new(self.alloc),
            rest,
        };
        self.ask_all(&mut path, forest)?;
        self.end(&path, forest, given)?;
        Ok(root)
    }

    /// Builds a tree for each row without earlier tests, and returns their roots.
    pub(crate) fn paths(
        &self,
        width: u32,
        rows: &[CodeRow],
        forest: &mut Forest,
    ) -> Result<Vec<u32>, AllocError>
        requires ready { IsReady self.now }
        requires can { CanGrow self.now forest.old width (map coded_of rows.now) }
        ensures { IfOk result (λ roots. AreTrees self.now.checked.now.spec
            (numbers_of self.now.links.now) self.now.left.now.parts forest.old width
            (map coded_of rows.now) forest.new roots.items) }
    {
        let mut given = Places::new(self.alloc, self.checked.variables())?;
        let mut roots = Vec::new(self.alloc);
        for row in rows {
            roots.push(self.path(width, row, forest, &mut given)?)?;
        }
        Ok(roots)
    }
}
