//! Evaluates terms that share so many subterms that they are first looked at by their different
//! subterms, each of which is visited once.

ghost use Rattle.std.specs.Prelude.{◌≡◌, ◌<◌, ◌+◌, ◌*◌, ◌∷◌, [], true, false, IfOk, IsSome, OnOk};
ghost use Rattle.std.specs.Prelude.{length};
ghost use Rattle.rx_term.specs.Tree.{Tree, to_list};
ghost use Rattle.rx_term.specs.Store.{tree_at};
ghost use Rattle.rx_term.specs.Steps.{Keeps};
ghost use Rattle.rx_term.specs.Walks.{AllHeld, held_tree, held_trees};
ghost use Rattle.rec_sorts.specs.Evaluation.{term_of};
ghost use Rattle.rec_sorts.specs.Laws.{Every};
ghost use Rattle.rec_sorts.specs.TermRules.{arguments};
ghost use Rattle.rec_sorts.specs.Walking.{backwards};
ghost use Rattle.rec_engine.specs.declared.engine.evaluation.Reached.TheVariants.{Deep};
ghost use Rattle.rec_engine.specs.Control.{Obeys};
ghost use Rattle.rec_engine.specs.Engine.{IsGiven};
ghost use Rattle.rec_engine.specs.Inner.Answered.{IsAnswer, StandsAbove};
ghost use Rattle.rec_engine.specs.Inner.Given.{IsNode, IsNodeOp};
ghost use Rattle.rec_engine.specs.Inner.Heap.{IsHeld};
ghost use Rattle.rec_engine.specs.Inner.Shared.{AreOwnValues, AreShapes, HasNoRules, IsOwnValue};
ghost use Rattle.rec_engine.specs.Inner.Visits.{CanVisit};
ghost use Rattle.rec_engine.specs.Machine.{AreFull};
ghost use Rattle.rec_engine.specs.Turn.{IsReady, RoomOnlyIn, StaysFor};

use crate::compile::code::Op;
use crate::compile::has_rules;
use crate::engine::errors::EngineFault;
use crate::engine::evaluation::Reached;
use crate::engine::watch::Control;
use crate::terms::given::Reader;
use crate::terms::visits::{Visit, enter_node};
use crate::vm::Machine;
use indexmap::IndexMap;
use rec_sorts::push_items;
use rx_term::{Kind, Term, TermBank};
use std::alloc::AllocError;

/// The size of a term, and whether it is its own value.
#[derive(Clone, Copy, Drop)]
pub(crate) struct Shape {
    /// The number of occurrences of subterms, at most `u64::MAX`.
    occurrences: u64,
    /// No symbol in the term has rules.
    is_value: bool,
}

impl Shape {
    /// Adds the shape of an argument.
    fn with(self, argument: Shape) -> Shape
        ensures { result.is_value ≡ true
            → (self.is_value ≡ true) × (argument.is_value ≡ true) }
    {
        Shape {
            occurrences: self.occurrences.saturating_add(argument.occurrences),
            is_value: self.is_value && argument.is_value,
        }
    }
}

impl<B: TermBank> Machine<B> {
    /// Returns the instruction of a node, which calls its symbol.
    fn node_op(&self, node: Term) -> Op
        requires ready { IsReady B.store self.now }
        requires held { IsSome (tree_at (B.store self.now.heap.bank) node) }
        requires node { IsNode self.now.checked.spec
            (held_tree (B.store self.now.heap.bank) node) }
        ensures { IsNodeOp self.now.checked.spec
            (held_tree (B.store self.now.heap.bank) node) result }
    {
        let reader = Reader {
            checked: &self.checked,
            bank: &self.heap.bank,
            links: &self.code.links,
        };
        reader.node_op(node)
    }

    /// Returns the shape of a subterm that the walk has left.
    fn known_shape(&self, shapes: &IndexMap<u32, Shape>, node: Term) -> Shape
        requires { AreShapes self.now.checked.spec self.now.code.matcher
            (B.store self.now.heap.bank) shapes.now }
        ensures { result.is_value ≡ true → IsOwnValue self.now.checked.spec self.now.code.matcher
            (held_tree (B.store self.now.heap.bank) node) }
    {
        match shapes.get(&node.0) {
            Some(shape) => *shape,
            None => Shape {
                occurrences: 0,
                is_value: false,
            },
        }
    }

    /// Returns the shape of a term whose symbol has no rules, from the shapes of its arguments.
    fn arguments_shape(&self, shapes: &IndexMap<u32, Shape>, node: Term) -> Shape
        requires held { IsSome (tree_at (B.store self.now.heap.bank) node) }
        requires node { IsNode self.now.checked.spec
            (held_tree (B.store self.now.heap.bank) node) }
        requires shapes { AreShapes self.now.checked.spec self.now.code.matcher
            (B.store self.now.heap.bank) shapes.now }
        ensures { result.is_value ≡ true → AreOwnValues self.now.checked.spec
            self.now.code.matcher (arguments (held_tree (B.store self.now.heap.bank) node)) }
    {
        let mut shape = Shape {
            occurrences: 1,
            is_value: true,
        };
        let mut rest = self.heap.bank.args(node);
        while let Kind::Cons = self.heap.bank.kind(rest) {
            let argument = self.heap.bank.head(rest);
            shape = shape.with(self.known_shape(shapes, argument));
            rest = self.heap.bank.tail(rest);
        }
        shape
    }

    /// Returns whether a rule may apply at the root of a term.
    fn may_apply(&self, node: Term) -> bool
        requires ready { IsReady B.store self.now }
        requires held { IsSome (tree_at (B.store self.now.heap.bank) node) }
        requires node { IsNode self.now.checked.spec
            (held_tree (B.store self.now.heap.bank) node) }
        ensures { result ≡ false → HasNoRules self.now.checked.spec self.now.code.matcher
            (held_tree (B.store self.now.heap.bank) node) }
    {
        match self.node_op(node) {
            Op::Call { symbol, count: _ } => has_rules(&self.code.matcher, symbol),
            _ => true,
        }
    }

    /// Returns the shape of a term, from the shapes of its arguments.
    fn shape(&self, shapes: &IndexMap<u32, Shape>, node: Term) -> Shape
        requires ready { IsReady B.store self.now }
        requires held { IsSome (tree_at (B.store self.now.heap.bank) node) }
        requires node { IsNode self.now.checked.spec
            (held_tree (B.store self.now.heap.bank) node) }
        requires shapes { AreShapes self.now.checked.spec self.now.code.matcher
            (B.store self.now.heap.bank) shapes.now }
        ensures { result.is_value ≡ true → IsOwnValue self.now.checked.spec self.now.code.matcher
            (held_tree (B.store self.now.heap.bank) node) }
    {
        let mut shape = self.arguments_shape(shapes, node);
        if self.may_apply(node) {
            shape.is_value = false;
        }
        shape
    }

    /// Makes the visits and all that follow from them, and finds the shapes of the terms that they
    /// leave.
    fn visit_all(
        &self,
        visits: &mut Vec<Visit>,
        shapes: &mut IndexMap<u32, Shape>,
    ) -> Result<(), AllocError>
        requires ready { IsReady B.store self.now }
        requires can { Every (CanVisit (IsNode self.now.checked.spec) (B.store self.now.heap.bank))
            visits.old.items }
        requires shapes { AreShapes self.now.checked.spec self.now.code.matcher
            (B.store self.now.heap.bank) shapes.old }
        ensures { OnOk result (AreShapes self.now.checked.spec self.now.code.matcher
            (B.store self.now.heap.bank) shapes.new) }
    {
        while let Some(visit) = visits.pop() {
            match visit {
                Visit::Leave(node) => {
                    let shape = self.shape(shapes, node);
                    shapes.insert(node.0, shape)?;
                }
                Visit::Enter(node) => {
                    if !shapes.contains_key(&node.0) {
                        enter_node(&self.heap.bank, node, visits)?;
                    }
                }
            }
        }
        Ok(())
    }

    /// Returns the number of occurrences of subterms in a term, and whether its arguments are their
    /// own values. Takes expected time in proportion to the number of its different subterms.
    fn call_shape(&self, t: Term) -> Result<Shape, AllocError>
        requires ready { IsReady B.store self.now }
        requires given { IsGiven self.now.checked.spec (B.store self.now.heap.bank) t }
        ensures { IfOk result (λ shape. shape.is_value ≡ true → AreOwnValues
            self.now.checked.spec self.now.code.matcher
            (arguments (held_tree (B.store self.now.heap.bank) t))) }
    {
        let alloc = *self.heap.work.allocator();
        let mut visits = Vec::new(alloc);
        let mut shapes = IndexMap::new(alloc);
        visits.push(Visit::Enter(t))?;
        self.visit_all(&mut visits, &mut shapes)?;
        Ok(self.arguments_shape(&shapes, t))
    }

    /// Returns the arguments of a term, in their order.
    fn arguments(&self, node: Term) -> Result<Vec<Term>, AllocError>
        requires held { IsSome (tree_at (B.store self.now.heap.bank) node) }
        requires node { IsNode self.now.checked.spec
            (held_tree (B.store self.now.heap.bank) node) }
        ensures held { IfOk result (λ v. AllHeld (B.store self.now.heap.bank) v.items) }
        ensures trees { IfOk result (λ v. held_trees (B.store self.now.heap.bank) v.items
            ≡ to_list (arguments (held_tree (B.store self.now.heap.bank) node))) }
    {
        let mut values = Vec::new(*self.heap.work.allocator());
        push_items(&self.heap.bank, self.heap.bank.args(node), &mut values)?;
        Ok(values)
    }

    /// Evaluates a ground term whose arguments are their own values with a step limit of `n`: its
    /// symbol is called on them.
    fn evaluate_call<C: Control>(
        &mut self,
        t: Term,
        n: u64,
        control: &mut C,
    ) -> Result<Reached, EngineFault>
        requires ready { IsReady B.store self.old }
        requires given { IsGiven self.old.checked.spec (B.store self.old.heap.bank) t }
        requires values { AreOwnValues self.old.checked.spec self.old.code.matcher
            (arguments (held_tree (B.store self.old.heap.bank) t)) }
        ensures stays { StaysFor B.store (t ∷ []) self.old self.new }
        ensures exact { IfOk result (λ r. (u : Tree)
            → tree_at (B.store self.old.heap.bank) t ≡ Some u
            → IsAnswer self.old.checked.spec (B.store self.new.heap.bank) n (term_of u) r) }
        ensures held { IfOk result (λ r. IsHeld B.store self.new.heap) }
        ensures stands { IfOk result (StandsAbove self.new.heap.work.items t) }
        ensures deep { IfOk result (λ r. r ≡ Deep → AreFull self.new.state) }
        ensures obeys { Obeys Reached.Stopped (C.has_requested control.old)
            (C.has_requested control.new) result }
        ensures room { RoomOnlyIn B.store self.new result }
    {
        let Op::Call { symbol, count: _ } = self.node_op(t) else {
            unreachable!()
        };
        let Ok(values) = self.arguments(t) else {
            return Err(EngineFault::Memory);
        };
        self.call_with(t, symbol, &values, n, control)
    }

    /// Evaluates a ground term that may have any number of occurrences of subterms, with a step
    /// limit of `n`. If its arguments are not their own values, it is compiled, unless it has more
    /// than `u32::MAX` occurrences: that is out of memory. `found` is scratch space.
    pub(crate) fn evaluate_shared<C: Control>(
        &mut self,
        found: &mut Vec<Op>,
        t: Term,
        n: u64,
        control: &mut C,
    ) -> Result<Reached, EngineFault>
        requires ready { IsReady B.store self.old }
        requires given { IsGiven self.old.checked.spec (B.store self.old.heap.bank) t }
        ensures ready { IsReady B.store self.new }
        ensures spec { self.new.checked.spec ≡ self.old.checked.spec }
        ensures keeps { Keeps (B.store self.old.heap.bank) (B.store self.new.heap.bank) (t ∷ []) }
        ensures exact { IfOk result (λ r. (u : Tree)
            → tree_at (B.store self.old.heap.bank) t ≡ Some u
            → IsAnswer self.old.checked.spec (B.store self.new.heap.bank) n (term_of u) r) }
        ensures held { IfOk result (λ r. IsHeld B.store self.new.heap) }
        ensures stands { IfOk result (StandsAbove self.new.heap.work.items t) }
        ensures depth { self.new.state.depth ≡ self.old.state.depth }
        ensures deep { IfOk result (λ r. r ≡ Deep → AreFull self.new.state) }
        ensures obeys { Obeys Reached.Stopped (C.has_requested control.old)
            (C.has_requested control.new) result }
        ensures room { RoomOnlyIn B.store self.new result }
    {
        let Ok(shape) = self.call_shape(t) else {
            return Err(EngineFault::Memory);
        };
        if shape.is_value {
            return self.evaluate_call(t, n, control);
        }
        if shape.occurrences > u64::from(u32::MAX) {
            return Err(EngineFault::Memory);
        }
        match self.evaluate_within(found, t, n, u32::MAX as usize, control)? {
            Some(reached) => Ok(reached),
            None => Err(EngineFault::Memory),
        }
    }
}
