//! Removal of unmarked slots from a chain.

ghost use Rattle.std.specs.Prelude.{◌≡◌, ℕ, ◌+◌};
ghost use Rattle.std.specs.Prelude.{◌<◌, []};
ghost use Rattle.std.specs.Prelude.{Some};
ghost use Rattle.std.specs.Prelude.{length, slice_set};
ghost use Rattle.std.specs.Prelude.{reverse};
ghost use Rattle.rx_arena.specs.Put.{times, emptied};
ghost use Rattle.rx_arena.specs.Arena.{chain_at, IsLoose};
ghost use Rattle.rx_arena.specs.Arena.{IsUnprotected};
ghost use Rattle.rx_arena.specs.Arena.{kept_in, dropped_from};
ghost use Rattle.rx_arena.specs.Arena.{IsArena};

use crate::arena::Arena;

impl Arena {
    /// Moves the marked slots of a chain to the gray list, and frees the others.
    fn sort_out(&mut self, chain: u32)
        requires chain { chain < length self.old.chains }
        requires no_gray { self.old.gray ≡ [] }
        requires unprotected { IsUnprotected self.old chain }
        ensures cells { self.new.cells ≡ emptied self.old.cells (dropped_from self.old chain) }
        ensures gray { reverse self.new.gray ≡ kept_in self.old chain }
        ensures loose { (s : ℕ) → 0 < times s self.new.gray → IsLoose self.new s }
        ensures chains { self.new.chains ≡ slice_set self.old.chains chain [] }
        ensures spare { self.new.spare ≡ self.old.spare + length (dropped_from self.old chain) }
        ensures cap { self.new.cap ≡ self.old.cap }
        ensures law { IsArena self.new }
    {
        while let Some(slot) = self.chain_pop(chain) {
            if self.marked(slot) {
                self.gray_return(slot);
            } else {
                self.give_back(slot);
            }
        }
    }

    /// Moves the gray list to a chain that is empty.
    fn restore(&mut self, chain: u32)
        requires chain { chain < length self.old.chains }
        requires empty { chain_at self.old chain ≡ [] }
        requires loose { (s : ℕ) → 0 < times s self.old.gray → IsLoose self.old s }
        ensures after { self.new ≡ record self.old
            { chains = slice_set self.old.chains chain (reverse self.old.gray); gray = [] } }
        ensures law { IsArena self.new }
    {
        while let Some(slot) = self.gray_pop() {
            self.chain_push(chain, slot);
        }
    }

    /// Moves the marked slots of a chain to the gray list, and removes the others from it.
    fn part(&mut self, chain: u32)
        requires chain { chain < length self.old.chains }
        requires no_gray { self.old.gray ≡ [] }
        ensures rest { self.new ≡ record self.old
            { chains = slice_set self.old.chains chain []; gray = self.new.gray } }
        ensures gray { reverse self.new.gray ≡ kept_in self.old chain }
        ensures loose { (s : ℕ) → 0 < times s self.new.gray → IsLoose self.new s }
        ensures law { IsArena self.new }
    {
        while let Some(slot) = self.chain_pop(chain) {
            if self.marked(slot) {
                self.gray_return(slot);
            }
        }
    }

    /// Removes the unmarked slots from a chain without freeing them, for callers that keep slots in
    /// other chains. The others keep their order. Takes time linear in the length of the chain.
    pub fn chain_keep_marked(&mut self, chain: u32)
        requires chain { chain < length self.old.chains }
        requires no_gray { self.old.gray ≡ [] }
        ensures after { self.new ≡ record self.old
            { chains = slice_set self.old.chains chain (kept_in self.old chain) } }
        ensures law { IsArena self.new }
    {
        self.part(chain);
        self.restore(chain);
    }

    /// Frees the unmarked slots of a chain, which are not protected. The others keep their order.
    /// Takes time linear in the length of the chain.
    pub fn chain_retain_marked(&mut self, chain: u32)
        requires chain { chain < length self.old.chains }
        requires no_gray { self.old.gray ≡ [] }
        requires unprotected { IsUnprotected self.old chain }
        ensures cells { self.new.cells ≡ emptied self.old.cells (dropped_from self.old chain) }
        ensures chains { self.new.chains ≡ slice_set self.old.chains chain
            (kept_in self.old chain) }
        ensures spare { self.new.spare ≡ self.old.spare + length (dropped_from self.old chain) }
        ensures rest { self.new ≡ record self.old
            { cells = self.new.cells; chains = self.new.chains; spare = self.new.spare } }
        ensures law { IsArena self.new }
    {
        self.sort_out(chain);
        self.restore(chain);
    }
}
