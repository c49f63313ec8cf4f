//! Makes terms on a stack that the caller lends, without a copy of it. No code runs, so no frame is
//! pushed.

ghost use Rattle.std.specs.Prelude.{◌≡◌, ◌<◌, ◌≤◌, ◌-◌, ◌++◌, ◌∷◌, [], IfOk, IsSome};
ghost use Rattle.std.specs.Prelude.{length, get_or, take};
ghost use Rattle.rx_term.specs.Store.{tree_at, longer};
ghost use Rattle.rx_term.specs.Steps.{Keeps};
ghost use Rattle.rx_term.specs.Walks.{AllHeld};
ghost use Rattle.rec_sorts.specs.Lookup.{symbols};
ghost use Rattle.rec_sorts.specs.Numbering.{arity_of};
ghost use Rattle.rec_engine.specs.Cells.{RoomOnly};
ghost use Rattle.rec_engine.specs.Engine.{SameEngine};
ghost use Rattle.rec_engine.specs.Inner.Heap.{IsHeld};
ghost use Rattle.rec_engine.specs.Turn.{IsReady, StaysFor, RoomOnlyIn};
ghost use Rattle.rec_engine.specs.Lent.{IsAppliedOn};

use crate::engine::Engine;
use crate::engine::errors::EngineFault;
use crate::heap::cells::Node;
use crate::vm::Machine;
use rx_term::{Term, TermBank};
use std::mem;

impl<B: TermBank> Machine<B> {
    /// Replaces the `count` references on top by the application of a symbol to them.
    fn apply_top(&mut self, symbol: u32, count: u32) -> Result<(), EngineFault>
        requires ready { IsReady B.store self.old }
        requires held { IsHeld B.store self.old.heap }
        requires symbol { symbol < length (symbols self.old.checked.spec) }
        requires arity { arity_of self.old.checked.spec symbol ≡ count }
        requires count { count ≤ length self.old.heap.work.items }
        ensures stays { StaysFor B.store
            (take (length self.old.heap.work.items - count) self.old.heap.work.items)
            self.old self.new }
        ensures applied { IfOk result (λ u. IsAppliedOn self.old.checked.spec
            (B.store self.old.heap.bank) (B.store self.new.heap.bank) symbol count
            self.old.heap.work.items self.new.heap.work.items) }
        ensures room { RoomOnlyIn B.store self.new result }
    {
        self.heap.push_nil()?;
        self.heap
            .apply_apart(self.code.links.symbol_of(symbol), count)
    }

    /// Makes a list whose head is the reference at an index and whose tail is `list`. If the store
    /// is full, the list is left on top.
    fn hold_at(&mut self, at: usize, list: Term) -> Result<Term, EngineFault>
        requires ready { IsReady B.store self.old }
        requires held { IsHeld B.store self.old.heap }
        requires at { at < length self.old.heap.work.items }
        requires longer { IsSome (longer
            (tree_at (B.store self.old.heap.bank) (get_or self.old.heap.work.items at list))
            (tree_at (B.store self.old.heap.bank) list)) }
        ensures stays { StaysFor B.store (self.old.heap.work.items ++ list ∷ [])
            self.old self.new }
        ensures same { IfOk result (λ r. self.new.heap.work.items ≡ self.old.heap.work.items) }
        ensures below { take (length self.old.heap.work.items) self.new.heap.work.items
            ≡ self.old.heap.work.items }
        ensures exact { IfOk result (λ r. tree_at (B.store self.new.heap.bank) r ≡ longer
            (tree_at (B.store self.old.heap.bank) (get_or self.old.heap.work.items at list))
            (tree_at (B.store self.old.heap.bank) list)) }
        ensures room { RoomOnlyIn B.store self.new result }
    {
        let t = self.heap.work[at];
        match self.heap.work.push(list) {
            Ok(()) => {}
            Err(_) => return Err(EngineFault::Memory),
        }
        let held = self.heap.make(Node::Cons(t, list))?;
        self.heap.work.take_last();
        Ok(held)
    }
}

impl<B: TermBank> Engine<B> {
    /// Replaces the `count` values on top of a borrowed stack by the application of a symbol to
    /// them, without trying a rule. The values below are kept.
    pub fn apply_on(
        &mut self,
        stack: &mut Vec<Term>,
        symbol: u32,
        count: u32,
    ) -> Result<(), EngineFault>
        requires held { AllHeld (B.store self.old.bank) stack.old.items }
        requires symbol { symbol < length (symbols self.old.spec) }
        requires arity { arity_of self.old.spec symbol ≡ count }
        requires count { count ≤ length stack.old.items }
        ensures same { SameEngine self.old self.new }
        ensures keeps { Keeps (B.store self.old.bank) (B.store self.new.bank)
            (take (length stack.old.items - count) stack.old.items) }
        ensures applied { IfOk result (λ u. IsAppliedOn self.old.spec (B.store self.old.bank)
            (B.store self.new.bank) symbol count stack.old.items stack.new.items) }
        ensures room { RoomOnly (B.store self.new.bank) stack.new.items self.new.memo result }
    {
        self.machine.heap.work.clear();
        mem::swap(&mut self.machine.heap.work, stack);
        let applied = self.machine.apply_top(symbol, count);
        mem::swap(&mut self.machine.heap.work, stack);
        applied
    }

    /// Makes a list whose head is the reference at index `at` of a borrowed stack and whose tail is
    /// `list`. The stack and the list are kept. If the store is full, the list is left on top of
    /// the stack.
    pub fn hold_on(
        &mut self,
        stack: &mut Vec<Term>,
        at: usize,
        list: Term,
    ) -> Result<Term, EngineFault>
        requires held { AllHeld (B.store self.old.bank) stack.old.items }
        requires at { at < length stack.old.items }
        requires longer { IsSome (longer
            (tree_at (B.store self.old.bank) (get_or stack.old.items at list))
            (tree_at (B.store self.old.bank) list)) }
        ensures same { SameEngine self.old self.new }
        ensures keeps { Keeps (B.store self.old.bank) (B.store self.new.bank)
            (stack.old.items ++ list ∷ []) }
        ensures stack { IfOk result (λ r. stack.new.items ≡ stack.old.items) }
        ensures below { take (length stack.old.items) stack.new.items ≡ stack.old.items }
        ensures held { IfOk result (λ r. tree_at (B.store self.new.bank) r ≡ longer
            (tree_at (B.store self.old.bank) (get_or stack.old.items at list))
            (tree_at (B.store self.old.bank) list)) }
        ensures room { RoomOnly (B.store self.new.bank) stack.new.items self.new.memo result }
    {
        self.machine.heap.work.clear();
        mem::swap(&mut self.machine.heap.work, stack);
        let held = self.machine.hold_at(at, list);
        mem::swap(&mut self.machine.heap.work, stack);
        held
    }
}
