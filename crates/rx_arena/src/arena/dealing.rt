//! Rehashing: slots are distributed to another number of chains.

ghost use Rattle.std.specs.Prelude.{◌≡◌, ◌≢◌, ◌==◌, if◌then◌else◌, ℕ, ◌+◌, ◌%◌};
ghost use Rattle.std.specs.Prelude.{◌<◌, ◌≤◌, ◌^◌, []};
ghost use Rattle.std.specs.Prelude.{Some, None, Ok, IfOk, IfErr, OnOk};
ghost use Rattle.std.specs.Prelude.{OnErr, length, slice_set, take};
ghost use Rattle.std.specs.Prelude.{replicate};
ghost use Rattle.rx_arena.specs.Put.{times, times_in, total};
ghost use Rattle.rx_arena.specs.Arena.{IsTaken, chain_at, IsLoose};
ghost use Rattle.rx_arena.specs.Arena.{hash_at};
ghost use Rattle.rx_arena.specs.Arena.{times_hashed, IsArena};

use crate::Slot;
use crate::arena::{Arena, home};
use crate::fault::ArenaFault;
use crate::heads::Heads;

/// The number of slots that are examined to choose how the heads of chains are spread.
const SAMPLE: u32 = 1024;

impl Arena {
    /// Drops all chains except the first `count`. The dropped ones are empty.
    fn keep_chains(&mut self, count: u32)
        requires { (c : ℕ) → count ≤ c → chain_at self.old c ≡ [] }
        ensures after { self.new ≡ record self.old { chains = take count self.old.chains } }
        ensures law { IsArena self.new }
    {
        self.heads.truncate(count);
    }

    /// Moves each slot of a chain to the chain, among the first `count`, of its hash.
    fn move_chain(&mut self, from: u32, count: u32)
        requires count { (0 < count) × (count ≤ from) }
        requires from { from < length self.old.chains }
        ensures moved { (c : ℕ) → c < count → (s : ℕ)
            → times s (chain_at self.new c) ≡ times s (chain_at self.old c)
            + (if hash_at self.old s % count == c then times s (chain_at self.old from) else 0) }
        ensures empty { chain_at self.new from ≡ [] }
        ensures others { (c : ℕ) → count ≤ c → c ≢ from
            → chain_at self.new c ≡ chain_at self.old c }
        ensures chains { length self.new.chains ≡ length self.old.chains }
        ensures rest { self.new ≡ record self.old { chains = self.new.chains } }
        ensures law { IsArena self.new }
    {
        while let Some(slot) = self.chain_pop(from) {
            let chain = home(self.read(slot).hash, count);
            self.chain_push(chain, slot);
        }
    }

    /// Moves the slots of all chains to the first one, and drops the others.
    fn gather(&mut self)
        requires { 0 < length self.old.chains }
        ensures one { length self.new.chains ≡ 1 }
        ensures all { (s : ℕ) → times s (chain_at self.new 0) ≡ times_in s self.old.chains }
        ensures rest { self.new ≡ record self.old { chains = self.new.chains } }
        ensures law { IsArena self.new }
    {
        let old = self.chains();
        for from in 1..old {
            self.move_chain(from, 1);
        }
        self.keep_chains(1);
    }

    /// Returns the heads of `chains` empty chains, and of one more.
    fn empty_heads(&self, chains: u32) -> Result<Heads, ArenaFault>
        requires { chains ≤ 2 ^ 30 }
        ensures ok { IfOk result (λ h. h ≡ replicate (chains + 1) None) }
        ensures fault { IfErr result (λ e. e ≡ ArenaFault.Memory) }
        ensures law { IsArena self.now }
    {
        Heads::new(self.alloc, chains + 1, chains, self.heads.is_annotated())
    }

    /// Puts the only chain after `count` empty ones. `empty` has their heads and one for its own.
    fn put_behind(&mut self, empty: Heads, count: u32)
        requires one { length self.old.chains ≡ 1 }
        requires empty { empty ≡ replicate (count + 1) None }
        requires count { count ≤ 2 ^ 30 }
        ensures after { self.new ≡ record self.old
            { chains = slice_set (replicate (count + 1) []) count (chain_at self.old 0) } }
        ensures law { IsArena self.new }
    {
        let head = self.heads.get(0);
        self.heads = empty;
        self.heads.set(count, head);
    }

    /// Distributes the slots of all chains to `chains` new ones, by way of a single chain.
    fn deal_chains(&mut self, chains: u32) -> Result<(), ArenaFault>
        requires chains { (1 ≤ chains) × (chains ≤ 2 ^ 30) }
        requires some { 0 < length self.old.chains }
        ensures chains { OnOk result (length self.new.chains ≡ chains) }
        ensures hashed { OnOk result ((c : ℕ) → c < chains → (s : ℕ)
            → times s (chain_at self.new c) ≡ times_hashed self.old chains c s) }
        ensures rest { self.new ≡ record self.old { chains = self.new.chains } }
        ensures err { OnErr result (self.new ≡ self.old) }
        ensures fault { IfErr result (λ e. e ≡ ArenaFault.Memory) }
        ensures law { IsArena self.new }
    {
        let empty = self.empty_heads(chains)?;
        self.gather();
        self.put_behind(empty, chains);
        self.move_chain(chains, chains);
        self.keep_chains(chains);
        Ok(())
    }

    /// Returns whether a third of the last slots below `end` have annotations.
    fn has_annotated(&self, end: u32) -> bool
        requires { (s : ℕ) → s < end → IsTaken self.now s }
    {
        let mut annotated: u32 = 0;
        for slot in end.saturating_sub(SAMPLE)..end {
            if self.read(Slot(slot)).anns.is_some() {
                annotated = annotated.saturating_add(1);
            }
        }
        annotated > SAMPLE / 3
    }

    /// Replaces the chains by `count` empty ones. Their heads are spread for cells with
    /// annotations, or for cells without.
    fn clear_chains(&mut self, count: u32, annotated: bool) -> Result<(), ArenaFault>
        requires { count ≤ 2 ^ 30 }
        ensures ok { OnOk result (self.new ≡ record self.old { chains = replicate count [] }) }
        ensures err { OnErr result (self.new ≡ self.old) }
        ensures fault { IfErr result (λ e. e ≡ ArenaFault.Memory) }
        ensures law { IsArena self.new }
    {
        let heads = Heads::new(self.alloc, count, count, annotated)?;
        self.heads = heads;
        self.linked = 0;
        Ok(())
    }

    /// Puts each slot below `end` into the chain of its hash.
    fn deal_slots(&mut self, end: u32, chains: u32)
        requires chains { (1 ≤ chains) × (chains ≡ length self.old.chains) }
        requires empty { (s : ℕ) → IsLoose self.old s }
        requires taken { (s : ℕ) → s < end → IsTaken self.old s }
        requires law { IsArena self.old }
        ensures dealt { (c : ℕ) → c < chains → (s : ℕ) → s < end
            → times s (chain_at self.new c) ≡ (if hash_at self.old s % chains == c then 1 else 0) }
        ensures past { (s : ℕ) → end ≤ s → IsLoose self.new s }
        ensures count { length self.new.chains ≡ chains }
        ensures rest { self.new ≡ record self.old { chains = self.new.chains } }
        ensures law { IsArena self.new }
    {
        for slot in 0..end {
            let chain = home(self.read(Slot(slot)).hash, chains);
            self.chain_push(chain, Slot(slot));
        }
    }

    /// Distributes the slots below `end`, which are exactly those in chains, to `chains` new
    /// chains.
    fn deal_out(&mut self, end: u32, chains: u32) -> Result<(), ArenaFault>
        requires chains { (1 ≤ chains) × (chains ≤ 2 ^ 30) }
        requires inside { (s : ℕ) → s < end → times_in s self.old.chains ≡ 1 }
        requires past { (s : ℕ) → end ≤ s → IsLoose self.old s }
        requires law { IsArena self.old }
        ensures chains { OnOk result (length self.new.chains ≡ chains) }
        ensures hashed { OnOk result ((c : ℕ) → c < chains → (s : ℕ)
            → times s (chain_at self.new c) ≡ times_hashed self.old chains c s) }
        ensures rest { self.new ≡ record self.old { chains = self.new.chains } }
        ensures err { OnErr result (self.new ≡ self.old) }
        ensures fault { IfErr result (λ e. e ≡ ArenaFault.Memory) }
        ensures law { IsArena self.new }
    {
        let annotated = self.has_annotated(end);
        self.clear_chains(chains, annotated)?;
        self.deal_slots(end, chains);
        Ok(())
    }

    /// Returns the number of slots in chains.
    fn linked(&self) -> u32
        ensures value { result ≡ total self.now.chains }
        ensures law { IsArena self.now }
    {
        self.linked
    }

    /// Distributes the slots of all chains to `chains` new ones, by their hashes. The only error is
    /// `Memory`; the arena is unchanged then. Takes time linear in the number of slots and chains.
    ///
    /// If every slot that was ever taken is in a chain, slots are visited in order. Otherwise all
    /// chains are gathered in one, which is then distributed, so that there are never more chains
    /// than the new ones and one.
    pub fn rehash_into(&mut self, chains: u32) -> Result<(), ArenaFault>
        requires { (1 ≤ chains) × (chains ≤ 2 ^ 30) }
        ensures chains { OnOk result (length self.new.chains ≡ chains) }
        ensures hashed { OnOk result ((c : ℕ) → c < chains → (s : ℕ)
            → times s (chain_at self.new c) ≡ times_hashed self.old chains c s) }
        ensures rest { self.new ≡ record self.old { chains = self.new.chains } }
        ensures err { OnErr result (self.new ≡ self.old) }
        ensures fault { IfErr result (λ e. e ≡ ArenaFault.Memory) }
        ensures law { IsArena self.new }
    {
        let slots = self.slots();
        if self.chains() == 0 {
            self.deal_out(0, chains)
        } else if self.linked() == slots {
            self.deal_out(slots, chains)
        } else {
            self.deal_chains(chains)
        }
    }
}
