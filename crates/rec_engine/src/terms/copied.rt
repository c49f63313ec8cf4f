//! Copies terms of another store: each different subterm once, and without annotations.

ghost use Rattle.std.specs.Prelude.{◌≡◌, IfErr, IfOk, IsSome, Some, Contains};
ghost use Rattle.rx_term.specs.Tree.{Tree, to_list, items_of};
ghost use Rattle.rx_term.specs.Parts.{parts};
ghost use Rattle.rx_term.specs.Store.{Store, tree_at};
ghost use Rattle.rx_term.specs.Walks.{held_tree};
ghost use Rattle.rec_sorts.specs.Laws.{Every};
ghost use Rattle.rec_sorts.specs.TermRules.{arguments};
ghost use Rattle.rec_sorts.specs.Walking.{backwards};
ghost use Rattle.rec_engine.specs.Engine.{RoomOnlyFor};
ghost use Rattle.rec_engine.specs.Inner.Building.{OnTop};
ghost use Rattle.rec_engine.specs.Inner.Copied.{AreCopies, ArePartsOf, HasCopy, HasNilFirst};
ghost use Rattle.rec_engine.specs.Inner.Copied.{HasSymbol, PushesCopies, copied};
ghost use Rattle.rec_engine.specs.Inner.Heap.{IsHeld, KeepsHeap, KeepsRoots, HasRoomOnly};
ghost use Rattle.rec_engine.specs.declared.engine.errors.EngineFault.TheVariants.{Memory};

use crate::engine::errors::EngineFault;
use crate::heap::Heap;
use crate::heap::work::push;
use crate::terms::visits::{Visit, enter_node};
use indexmap::IndexMap;
use rx_term::{Kind, Term, TermBank};

/// Pushes the copies of the items of a list. `copies` has the index of each copy on the value
/// stack.
fn push_copies<N: TermBank>(
    own: &N,
    copies: &IndexMap<u32, usize>,
    list: Term,
    work: &mut Vec<Term>,
) -> Result<(), EngineFault>
    requires list { IsSome (tree_at (N.store own.now) list) }
    requires known { (x : Tree)
        → Contains (to_list (items_of (held_tree (N.store own.now) list))) x
        → HasCopy (N.store own.now) copies.now x }
    requires copies { (w : Store) × AreCopies (N.store own.now) w work.old.items copies.now }
    ensures pushed { IfOk result (λ u. (w : Store)
        → AreCopies (N.store own.now) w work.old.items copies.now → PushesCopies w
        (to_list (items_of (held_tree (N.store own.now) list))) work.old.items work.new.items) }
    ensures fault { IfErr result (λ e. e ≡ Memory) }
{
    let mut rest = list;
    while let Kind::Cons = own.kind(rest) {
        let Some(at) = copies.get(&own.head(rest).0) else {
            unreachable!()
        };
        let copy = work[*at];
        push(work, copy)?;
        rest = own.tail(rest);
    }
    Ok(())
}

impl<B: TermBank> Heap<B> {
    /// Pushes the copy of a term of another store. Its arguments have copies on the value stack,
    /// and the empty list is at the bottom of it.
    fn copy_node<N: TermBank>(
        &mut self,
        own: &N,
        copies: &IndexMap<u32, usize>,
        node: Term,
    ) -> Result<(), EngineFault>
        requires there { IsSome (tree_at (N.store own.now) node) }
        requires node { HasSymbol (B.store self.old.bank) (held_tree (N.store own.now) node) }
        requires known { (x : Tree)
            → Contains (to_list (arguments (held_tree (N.store own.now) node))) x
            → HasCopy (N.store own.now) copies.now x }
        requires copies { AreCopies (N.store own.now) (B.store self.old.bank)
            self.old.work.items copies.now }
        requires nil { HasNilFirst (B.store self.old.bank) self.old.work.items }
        requires held { IsHeld B.store self.old }
        ensures kept { KeepsHeap B.store self.old self.new }
        ensures held { IfOk result (λ u. IsHeld B.store self.new) }
        ensures made { IfOk result (λ u. OnTop (B.store self.new.bank) self.old.work.items
            self.new.work.items (copied (held_tree (N.store own.now) node))) }
        ensures needed { HasRoomOnly B.store self.new result }
        ensures room { (u : Tree) → ArePartsOf (B.store self.old.bank) self.old.work.items u
            → Contains (parts u) (copied (held_tree (N.store own.now) node))
            → RoomOnlyFor (B.store self.new.bank) self.new.pace.memo (Some u) result }
    {
        let Kind::Appl(symbol) = own.kind(node) else {
            unreachable!()
        };
        let count = own.arity_of(symbol);
        let name = own.name_of(symbol);
        let Ok(symbol) = self.bank.symbol(name, own.quoted_of(symbol), count) else {
            return Err(EngineFault::Memory);
        };
        push_copies(own, copies, own.args(node), &mut self.work)?;
        let empty = self.work[0];
        push(&mut self.work, empty)?;
        self.apply_apart(symbol, count)
    }

    /// Copies a term of another store without its annotations. Each of its different subterms is
    /// visited once. Meanwhile only their copies and the empty list are on the value stack.
    pub(crate) fn copy_term<N: TermBank>(&mut self, own: &N, t: Term) -> Result<Term, EngineFault>
        requires there { IsSome (tree_at (N.store own.now) t) }
        requires nodes { Every (HasSymbol (B.store self.old.bank))
            (backwards (held_tree (N.store own.now) t)) }
        ensures kept { KeepsRoots B.store self.old self.new }
        ensures term { IfOk result (λ r. tree_at (B.store self.new.bank) r
            ≡ Some (copied (held_tree (N.store own.now) t))) }
        ensures stands { IfOk result (Contains self.new.work.items) }
        ensures held { IfOk result (λ r. IsHeld B.store self.new) }
        ensures needed { HasRoomOnly B.store self.new result }
        ensures room { RoomOnlyFor (B.store self.new.bank) self.new.pace.memo
            (Some (copied (held_tree (N.store own.now) t))) result }
    {
        self.work.clear();
        match self.push_nil() {
            Ok(_) => {}
            Err(fault) => return Err(fault),
        }
        let alloc = *self.work.allocator();
        let mut visits = Vec::new(alloc);
        let mut copies = IndexMap::new(alloc);
        let Ok(()) = visits.push(Visit::Enter(t)) else {
            return Err(EngineFault::Memory);
        };
        while let Some(visit) = visits.pop() {
            match visit {
                Visit::Leave(node) => {
                    match self.copy_node(own, &copies, node) {
                        Ok(()) => {}
                        Err(fault) => return Err(fault),
                    }
                    let Ok(_) = copies.insert(node.0, self.work.len() - 1) else {
                        return Err(EngineFault::Memory);
                    };
                }
                Visit::Enter(node) => {
                    if !copies.contains_key(&node.0) {
                        let Ok(()) = enter_node(own, node, &mut visits) else {
                            return Err(EngineFault::Memory);
                        };
                    }
                }
            }
        }
        let Some(at) = copies.get(&t.0) else {
            unreachable!()
        };
        Ok(self.work[*at])
    }
}
