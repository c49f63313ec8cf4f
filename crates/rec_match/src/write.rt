//! Writing of nodes of matching trees.

ghost use Rattle.std.specs.Prelude.{◌≡◌, ◌<◌, ◌^◌, All, IfOk, length, true};
ghost use Rattle.rec_match.specs.Forests.{IsNew};
ghost use Rattle.rec_match.specs.Inner.Tasks.{AddsNode, WritesTry, WritesSwitch};

use crate::forest::{Child, Forest, Node, Place};
use std::alloc::AllocError;

/// Returns whether a value is new, so that it need not equal an earlier one.
fn is_new(place: Place) -> bool
    ensures { result ≡ true → IsNew place }
{
    match place {
        Place::First(_) => true,
        Place::Again {
            register: _,
            value: _,
        } => false,
    }
}

/// Returns whether each value is new.
fn are_new(places: &[Place]) -> bool
    ensures { result ≡ true → All IsNew places.now }
{
    for place in places {
        if !is_new(*place) {
            return false;
        }
    }
    true
}

impl Forest {
    /// Adds a node at which no rule remains so far.
    pub(crate) fn add_node(&mut self) -> Result<u32, AllocError>
        ensures adds { IfOk result (λ node. AddsNode self.old self.new node) }
        ensures few { IfOk result (λ node. length self.old.nodes.items < 2 ^ 32) }
    {
        let Ok(node) = u32::try_from(self.nodes.len()) else {
            return Err(AllocError);
        };
        self.nodes.push(Node::Fail)?;
        Ok(node)
    }

    /// Writes a node that tries a rule, with the positions of its values and the next node.
    pub(crate) fn write_try(
        &mut self,
        node: u32,
        rule: u32,
        places: &[Place],
        next: u32,
    ) -> Result<(), AllocError>
        requires { node < length self.old.nodes.items }
        ensures { IfOk result (λ u. WritesTry self.old self.new node rule places.now next) }
    {
        let Ok(from) = u32::try_from(self.places.len()) else {
            return Err(AllocError);
        };
        let Ok(to) = u32::try_from(self.places.len() + places.len()) else {
            return Err(AllocError);
        };
        self.places.extend_from_slice(places)?;
        self.nodes[node as usize] = Node::Try {
            rule,
            from,
            to,
            next,
            linear: are_new(places),
        };
        Ok(())
    }

    /// Writes a switch, with a window of children and the node for every other term.
    pub(crate) fn write_switch(
        &mut self,
        node: u32,
        register: u32,
        low: u64,
        window: &[Child],
        other: u32,
    ) -> Result<(), AllocError>
        requires { node < length self.old.nodes.items }
        ensures { IfOk result
            (λ u. WritesSwitch self.old self.new node register low window.now other) }
    {
        let Ok(from) = u32::try_from(self.children.len()) else {
            return Err(AllocError);
        };
        let Ok(span) = u32::try_from(window.len()) else {
            return Err(AllocError);
        };
        self.children.extend_from_slice(window)?;
        self.nodes[node as usize] = Node::Switch {
            register,
            low,
            from,
            span,
            other,
        };
        Ok(())
    }
}
