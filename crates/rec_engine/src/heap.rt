//! The term store with the references that an evaluation needs, and the terms that are built in it.
//! A cell that does not fit is made once more after a garbage collection.

pub(crate) mod cells;
pub(crate) mod constants;
pub(crate) mod pace;
pub(crate) mod work;

ghost use Rattle.std.specs.Prelude.{◌≡◌, IsSome, ◌<◌, ◌++◌, ◌∷◌, [], IfOk, OnErr, Err, Some};
ghost use Rattle.std.specs.Prelude.{length, Contains};
ghost use Rattle.rec_engine.specs.Cells.{built, StandsIn};
ghost use Rattle.rec_engine.specs.Inner.Heap.{IsHeld, KeepsHeap, MakesIn, KeepsRoots, HasRoomOnly};
ghost use Rattle.rx_term.specs.Tree.{Items, none};
ghost use Rattle.rx_term.specs.Store.{tree_at};
ghost use Rattle.rec_engine.specs.declared.engine.errors.EngineFault.TheVariants.{Room};
ghost use Rattle.rec_engine.specs.Inner.Building.{CanLink, Links, CanHead, Heads, CanApply};
ghost use Rattle.rec_engine.specs.Inner.Building.{Applies, KeepsBelow, LeavesParts};

use crate::engine::errors::EngineFault;
use crate::heap::cells::{Node, make_apart, make_once};
use crate::heap::pace::Pace;
use crate::heap::work::push;
use rx_term::{BankFault, Symbol, Term, TermBank};

/// The term store, all references that the evaluation needs (`work`, the value stack), and the
/// collection schedule.
#[derive(Drop)]
pub(crate) struct Heap<B: TermBank> {
    pub(crate) bank: B,
    pub(crate) work: Vec<Term>,
    pub(crate) pace: Pace,
}

impl<B: TermBank> Heap<B> {
    /// Makes a cell. If the store is full, collects garbage and tries once more. If it is full even
    /// then, forgets all memoized results and returns `Room`.
    #[inline(always)]
    pub(crate) fn make_anyway(&mut self, node: Node) -> Result<Term, EngineFault>
        requires node { IsSome (built (B.store self.old.bank) node) }
        requires held { IsHeld B.store self.old }
        requires parts { StandsIn self.old.work.items node }
        ensures kept { KeepsHeap B.store self.old self.new }
        ensures same { self.new.work.items ≡ self.old.work.items }
        ensures makes { MakesIn B.store self.old self.new node result }
    {
        match make_once(&mut self.bank, node) {
            Ok(t) => Ok(t),
            Err(BankFault::Memory) => Err(EngineFault::Memory),
            Err(BankFault::Full) => {
                self.pace.reclaim(&mut self.bank, &self.work);
                match make_apart(&mut self.bank, node) {
                    Ok(t) => Ok(t),
                    Err(BankFault::Memory) => Err(EngineFault::Memory),
                    Err(BankFault::Full) => {
                        self.pace.memo.clear();
                        Err(EngineFault::Room)
                    }
                }
            }
        }
    }

    /// Defers a scheduled collection if memoized results saved enough steps. Otherwise collects
    /// garbage, but keeps the terms of new results until the next collection.
    #[inline(never)]
    fn reclaim_or_wait(&mut self)
        requires { IsHeld B.store self.old }
        ensures kept { KeepsHeap B.store self.old self.new }
        ensures same { self.new.work.items ≡ self.old.work.items }
    {
        if self.pace.due.put_off() {
            return;
        }
        match self.pace.memo.with_newest(&self.bank, &self.work) {
            Some(kept) => self.pace.reclaim(&mut self.bank, &kept),
            None => self.pace.reclaim(&mut self.bank, &self.work),
        }
    }

    /// Collects garbage if enough cells were made since the last collection.
    #[inline(always)]
    pub(crate) fn reclaim_if_due(&mut self)
        requires { IsHeld B.store self.old }
        ensures kept { KeepsHeap B.store self.old self.new }
        ensures same { self.new.work.items ≡ self.old.work.items }
    {
        if self.pace.due.is_at(self.bank.cells()) {
            self.reclaim_or_wait();
        }
    }

    /// Makes a cell after a safe point. All values that are needed are on the value stack.
    pub(crate) fn make(&mut self, node: Node) -> Result<Term, EngineFault>
        requires node { IsSome (built (B.store self.old.bank) node) }
        requires held { IsHeld B.store self.old }
        requires parts { StandsIn self.old.work.items node }
        ensures kept { KeepsHeap B.store self.old self.new }
        ensures same { self.new.work.items ≡ self.old.work.items }
        ensures makes { MakesIn B.store self.old self.new node result }
    {
        self.reclaim_if_due();
        self.make_anyway(node)
    }
}

impl<B: TermBank> Heap<B> {
    /// Pushes the empty list, and returns its reference.
    #[inline(always)]
    pub(crate) fn push_nil(&mut self) -> Result<Term, EngineFault>
        requires { IsHeld B.store self.old }
        ensures kept { KeepsHeap B.store self.old self.new }
        ensures empty { IfOk result
            (λ t. tree_at (B.store self.new.bank) t ≡ Some (Items none none)) }
        ensures pushed { IfOk result (λ t. self.new.work.items ≡ self.old.work.items ++ t ∷ []) }
        ensures same { result ≡ Err Room → self.new.work.items ≡ self.old.work.items }
        ensures room { HasRoomOnly B.store self.new result }
    {
        let empty = self.make(Node::Nil)?;
        push(&mut self.work, empty)?;
        Ok(empty)
    }

    /// Replaces the item and the list on top by the list of both.
    #[inline(always)]
    fn link(&mut self) -> Result<(), EngineFault>
        requires held { IsHeld B.store self.old }
        requires fits { CanLink (B.store self.old.bank) self.old.work.items }
        ensures kept { KeepsHeap B.store self.old self.new }
        ensures held { IfOk result (λ u. IsHeld B.store self.new) }
        ensures links { IfOk result (λ u. Links (B.store self.old.bank) (B.store self.new.bank)
            self.old.work.items self.new.work.items) }
        ensures same { OnErr result (self.new.work.items ≡ self.old.work.items) }
        ensures room { HasRoomOnly B.store self.new result }
    {
        let count = self.work.len();
        let node = Node::Cons(self.work[count - 2], self.work[count - 1]);
        let list = self.make_anyway(node)?;
        self.work[count - 2] = list;
        self.work.take_last();
        Ok(())
    }

    /// Replaces the item on top by the list of this item. The empty list is elsewhere on the value
    /// stack.
    #[inline(always)]
    fn link_first(&mut self, empty: Term) -> Result<(), EngineFault>
        requires held { IsHeld B.store self.old }
        requires some { 0 < length self.old.work.items }
        requires there { Contains self.old.work.items empty }
        requires nil { tree_at (B.store self.old.bank) empty ≡ Some (Items none none) }
        ensures kept { KeepsHeap B.store self.old self.new }
        ensures held { IfOk result (λ u. IsHeld B.store self.new) }
        ensures links { IfOk result (λ u. Links (B.store self.old.bank) (B.store self.new.bank)
            (self.old.work.items ++ empty ∷ []) self.new.work.items) }
        ensures room { HasRoomOnly B.store self.new result }
    {
        let count = self.work.len();
        let node = Node::Cons(self.work[count - 1], empty);
        let list = self.make_anyway(node)?;
        self.work[count - 1] = list;
        Ok(())
    }

    /// Replaces the list on top by the application of a symbol to it.
    #[inline(always)]
    fn head(&mut self, symbol: Symbol) -> Result<(), EngineFault>
        requires held { IsHeld B.store self.old }
        requires fits { CanHead (B.store self.old.bank) self.old.work.items symbol }
        ensures kept { KeepsHeap B.store self.old self.new }
        ensures held { IfOk result (λ u. IsHeld B.store self.new) }
        ensures heads { IfOk result (λ u. Heads (B.store self.old.bank) (B.store self.new.bank)
            self.old.work.items self.new.work.items symbol) }
        ensures same { OnErr result (self.new.work.items ≡ self.old.work.items) }
        ensures room { HasRoomOnly B.store self.new result }
    {
        let count = self.work.len();
        let node = Node::Appl(symbol, self.work[count - 1]);
        let term = self.make_anyway(node)?;
        self.work[count - 1] = term;
        Ok(())
    }

    /// Replaces the `count` values on top, which are below an empty list, by the application of a
    /// symbol. Outlined, since it is rare.
    #[inline(never)]
    pub(crate) fn apply_apart(&mut self, symbol: Symbol, count: u32) -> Result<(), EngineFault>
        requires held { IsHeld B.store self.old }
        requires fits { CanApply (B.store self.old.bank) self.old.work.items count symbol }
        ensures kept { KeepsRoots B.store self.old self.new }
        ensures below { KeepsBelow (B.store self.old.bank) (B.store self.new.bank)
            self.old.work.items count symbol }
        ensures held { IfOk result (λ u. IsHeld B.store self.new) }
        ensures applies { IfOk result (λ u. Applies (B.store self.old.bank)
            (B.store self.new.bank) self.old.work.items self.new.work.items count symbol) }
        ensures parts { OnErr result (LeavesParts (B.store self.old.bank) (B.store self.new.bank)
            self.old.work.items self.new.work.items count symbol) }
        ensures room { HasRoomOnly B.store self.new result }
    {
        self.reclaim_if_due();
        let mut left = count;
        'links: while left > 0 {
            self.link()?;
            left -= 1;
        }
        self.head(symbol)?;
        Ok(())
    }

    /// Replaces the `count` values on top, at least one, by the application of a symbol. The empty
    /// list is elsewhere on the value stack.
    #[inline(always)]
    pub(crate) fn apply_some(
        &mut self,
        empty: Term,
        symbol: Symbol,
        count: u32,
    ) -> Result<(), EngineFault>
        requires held { IsHeld B.store self.old }
        requires some { 0 < count }
        requires there { Contains self.old.work.items empty }
        requires fits { CanApply (B.store self.old.bank) (self.old.work.items ++ empty ∷ [])
            count symbol }
        requires nil { tree_at (B.store self.old.bank) empty ≡ Some (Items none none) }
        ensures kept { KeepsRoots B.store self.old self.new }
        ensures below { KeepsBelow (B.store self.old.bank) (B.store self.new.bank)
            (self.old.work.items ++ empty ∷ []) count symbol }
        ensures held { IfOk result (λ u. IsHeld B.store self.new) }
        ensures applies { IfOk result (λ u. Applies (B.store self.old.bank)
            (B.store self.new.bank) (self.old.work.items ++ empty ∷ []) self.new.work.items
            count symbol) }
        ensures room { HasRoomOnly B.store self.new result }
    {
        self.reclaim_if_due();
        self.link_first(empty)?;
        let mut left = count - 1;
        'links: while left > 0 {
            self.link()?;
            left -= 1;
        }
        self.head(symbol)?;
        Ok(())
    }
}
