//! Removal of one slot from its chain. It is searched for and unlinked, which is faster than taking
//! the whole chain apart: new slots are at the front, so one that dies soon is found at once.

ghost use Rattle.std.specs.Prelude.{◌≡◌, ◌<◌, ◌∷◌, ◌++◌, ℕ, List, IfNone, IfSome, length};
ghost use Rattle.std.specs.Prelude.{slice_set};
ghost use Rattle.rx_arena.specs.Put.{times};
ghost use Rattle.rx_arena.specs.Arena.{chain_at, besides, IsArena};

use crate::Slot;
use crate::arena::Arena;

impl Arena {
    /// Returns the slot before this one in its chain, or `None` if it is the first.
    fn chain_before(&self, chain: u32, slot: Slot) -> Option<Slot>
        requires chain { chain < length self.now.chains }
        requires there { 0 < times slot.0 (chain_at self.now chain) }
        ensures first { IfNone result
            ((rest : List ℕ) × (chain_at self.now chain ≡ slot.0 ∷ rest)) }
        ensures behind { IfSome result (λ s. (before : List ℕ) × (rest : List ℕ)
            × (chain_at self.now chain ≡ before ++ s.0 ∷ slot.0 ∷ rest)) }
        ensures law { IsArena self.now }
    {
        let mut last = None;
        let mut next = self.chain_first(chain);
        while let Some(here) = next {
            if here.0 == slot.0 {
                return last;
            }
            last = Some(here);
            next = self.chain_next(here);
        }
        unreachable!()
    }

    /// Links the slot before `slot` to the one after it.
    fn chain_skip(&mut self, chain: u32, before: Slot, slot: Slot)
        requires chain { chain < length self.old.chains }
        requires row { (front : List ℕ) × (rest : List ℕ)
            × (chain_at self.old chain ≡ front ++ before.0 ∷ slot.0 ∷ rest) }
        ensures after { self.new ≡ record self.old {
          chains =
              slice_set self.old.chains chain (besides slot.0 (chain_at self.old chain));
        } }
        ensures law { IsArena self.new }
    {
        let next = self.pool.chain_next(slot.0);
        self.pool.set_chain_next(before.0, next);
        self.linked -= 1;
    }

    /// Removes a slot from its chain. The others keep their order. Takes time linear in the number
    /// of slots before it.
    pub fn chain_remove(&mut self, chain: u32, slot: Slot)
        requires chain { chain < length self.old.chains }
        requires there { 0 < times slot.0 (chain_at self.old chain) }
        ensures after { self.new ≡ record self.old {
          chains =
              slice_set self.old.chains chain (besides slot.0 (chain_at self.old chain));
        } }
        ensures law { IsArena self.new }
    {
        match self.chain_before(chain, slot) {
            Some(before) => self.chain_skip(chain, before, slot),
            None => {
                self.chain_pop(chain);
            }
        }
    }
}
