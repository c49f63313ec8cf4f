//! The slots that are taken, and the list of those that were freed.
//!
//! Marks are bytes next to each other and not in cells, so marking sees whether a subterm is
//! marked, and sweeping whether a slot stays, without its cell of 48 bytes. Marking begins with the
//! protected slots, for which a second byte suffices.
ghost use Rattle.std.specs.Prelude.{◌≡◌, ◌+◌, ◌-◌, ◌<◌, ◌≤◌, ◌^◌, ◌∷◌, [], Option, Some, None, Ok};
ghost use Rattle.std.specs.Prelude.{Err, MatchOption, MatchResult, IfSome, IfOk, IfErr, OnOk};
ghost use Rattle.std.specs.Prelude.{◌≢◌, IsTrue, OnErr, OnSome, IfNone, get_or, length, min, ℕ};
ghost use Rattle.std.specs.Prelude.{false, not};
ghost use Rattle.rx_arena.specs.Inner.Held.{IsHeld};
ghost use Rattle.rx_arena.specs.Faces.{ask, word_of};
ghost use Rattle.rx_arena.specs.Inner.Node as spec;
ghost use Rattle.rx_arena.specs.Inner.Node.{Node, lone, has_mark, is_protected_node, with_mark};
ghost use Rattle.rx_arena.specs.Inner.Node.{with_chain, with_next, with_roots};
ghost use Rattle.rx_arena.specs.Put.{put, filled, altered};
ghost use Rattle.rx_arena.specs.Inner.Links.{Listed, Listed-prop, links};
ghost use Rattle.rx_arena.specs.Inner.Pool.{spare_of, is_unmarked_node};

use crate::CellBody;
use crate::fault::ArenaFault;
use crate::slots::{GIVEN_BACK, Slots};
use std::alloc::Global;
use std::marker::Model;

/// The number of slots of a block.
const BLOCK: u32 = 1024;

/// One mark of taken cells. Whether it means "marked" changes with each turn: after a collection
/// marked cells keep their byte, which then means "not marked", so no pass clears marks.
const LOW: u8 = 0;

/// The other mark of taken cells.
const HIGH: u8 = 1;

/// Returns the mark of a taken cell, from the state of the turn and whether the cell is marked.
fn mark_of(turned: bool, marked: bool) -> u8
    ensures { result ≡ spec.mark_of turned marked }
{
    if turned == marked { LOW } else { HIGH }
}

/// The slots that are taken. The slot that was freed last is the next one to be taken.
#[derive(Drop)]
pub(crate) struct Pool {
    store: Slots,
    free: Option<u32>,
    fresh: u32,
    taken: u32,
    room: u32,
    cap: u32,
    turned: bool,
    ghost listed: { Listed (links (λ n. n.next) store)
        free } by { Listed-prop (links (λ n. n.next) store) free },
}

impl Model for Pool {
    ghost use Rattle.rx_arena.specs.Inner.Pool.{PoolState, IsPool, cells_of};

    ghost Value = { PoolState };

    ghost view = { λ p. record {
      cells = cells_of p.store p.listed.0 p.fresh;
      free = p.listed.0;
      fresh = p.fresh;
      room = p.room;
      cap = p.cap;
      turned = p.turned;
    } };

    ghost invariant = { λ p. IsPool p.store p.listed.0 p.fresh p.taken p.room p.cap };
}

impl Pool {
    /// Returns a pool without slots, for at most `cap`.
    pub(crate) fn new(alloc: Global, cap: u32) -> Pool
        requires { cap ≤ 2 ^ 30 }
        ensures { result ≡ record {
          cells = [];
          free = [];
          fresh = 0;
          room = 0;
          cap = cap;
          turned = false;
        } }
    {
        Pool {
            store: Slots::new(alloc),
            free: None,
            fresh: 0,
            taken: 0,
            room: 0,
            cap,
            turned: false,
        }
    }

    /// Returns the number of slots that are taken.
    pub(crate) fn taken(&self) -> u32
        ensures value { result ≡ filled self.now.cells }
        ensures fits { result ≤ self.now.cap }
    {
        self.taken
    }

    /// Returns the number of slots that can be taken without new memory.
    pub(crate) fn spare(&self) -> u32
        ensures value { result ≡ spare_of self.now }
        ensures fits { result + filled self.now.cells ≤ self.now.cap }
    {
        self.cap.min(self.room) - self.taken
    }

    /// Takes the slot that was freed last.
    #[inline(always)]
    fn reuse(&mut self, body: CellBody, word: u64) -> Option<u32>
        requires { word ≡ word_of body }
        ensures listed { MatchOption result (self.old.free ≡ [])
            (λ s. self.old.free ≡ s ∷ self.new.free) }
        ensures was_free { IfSome result (λ s. get_or self.old.cells s None ≡ None) }
        ensures below { IfSome result (λ s. s < self.old.cap) }
        ensures some { IfSome result (λ s. self.new ≡ record self.old {
          cells = put self.old.cells s
              (Some (lone (spec.mark_of self.old.turned false) body));
          free = self.new.free;
        }) }
        ensures none { IfNone result (self.new ≡ self.old) }
        ensures fits { spare_of self.new + filled self.new.cells ≤ self.new.cap }
    {
        match self.free {
            Some(slot) => {
                self.free = self.store.next(slot);
                self.store
                    .fill(slot, body, word, mark_of(self.turned, false));
                self.taken += 1;
                Some(slot)
            }
            None => None,
        }
    }

    /// Takes a slot that was never taken.
    #[inline(always)]
    fn extend(&mut self, body: CellBody, word: u64) -> u32
        requires room { (self.old.fresh < self.old.room) × (self.old.fresh < self.old.cap) }
        requires word { word ≡ word_of body }
        ensures slot { result ≡ self.old.fresh }
        ensures was_free { get_or self.old.cells result None ≡ None }
        ensures after { self.new ≡ record self.old {
          cells = put self.old.cells result
              (Some (lone (spec.mark_of self.old.turned false) body));
          fresh = self.old.fresh + 1;
        } }
        ensures fits { spare_of self.new + filled self.new.cells ≤ self.new.cap }
    {
        let slot = self.fresh;
        self.store
            .fill(slot, body, word, mark_of(self.turned, false));
        self.fresh += 1;
        self.taken += 1;
        slot
    }

    /// Adds a block of slots.
    #[inline(never)]
    fn grow(&mut self) -> Result<(), ArenaFault>
        requires { self.old.room < self.old.cap }
        ensures ok { OnOk result (self.new ≡ record self.old { room = self.old.room + 1024 }) }
        ensures err { OnErr result (self.new ≡ self.old) }
        ensures fault { IfErr result (λ e. e ≡ ArenaFault.Memory) }
    {
        match self.store.grow() {
            Ok(()) => {
                self.room += BLOCK;
                Ok(())
            }
            Err(_) => Err(ArenaFault::Memory),
        }
    }

    /// Frees a slot.
    pub(crate) fn give_back(&mut self, slot: u32)
        requires { IsHeld self.old.cells slot }
        ensures after { self.new ≡ record self.old
            { cells = put self.old.cells slot None; free = slot ∷ self.old.free } }
        ensures spare { spare_of self.new ≡ spare_of self.old + 1 }
    {
        self.store.give_back(slot, self.free);
        self.free = Some(slot);
        self.taken -= 1;
    }

    /// Returns whether the slot is taken and not marked.
    pub(crate) fn holds_unmarked(&self, slot: u32) -> bool
        ensures { result ≡ is_unmarked_node self.now.turned (get_or self.now.cells slot None) }
    {
        slot < self.fresh && self.store.mark(slot) == mark_of(self.turned, false)
    }

    /// Returns whether the slot is taken and protected.
    pub(crate) fn is_protected(&self, slot: u32) -> bool
        ensures { result ≡ is_protected_node (get_or self.now.cells slot None) }
    {
        slot < self.fresh && self.store.is_protected(slot) && self.store.mark(slot) != GIVEN_BACK
    }

    /// Returns the number of slots that were ever taken.
    pub(crate) fn slots(&self) -> u32
        ensures count { result ≡ length self.now.cells }
        ensures past { (s : ℕ) → result ≤ s → get_or self.now.cells s None ≡ None }
    {
        self.fresh
    }

    /// Returns the contents of a taken slot.
    pub(crate) fn body(&self, slot: u32) -> CellBody
        requires { IsHeld self.now.cells slot }
        ensures { IfSome (get_or self.now.cells slot None) (λ n. result ≡ n.body) }
    {
        self.store.body(slot)
    }

    /// Returns the word of a taken slot.
    #[inline(always)]
    pub(crate) fn word(&self, slot: u32) -> u64
        requires { IsHeld self.now.cells slot }
        ensures { IfSome (get_or self.now.cells slot None) (λ n. result ≡ word_of n.body) }
    {
        self.store.word(slot)
    }

    /// Returns true only if a slot is taken and its word is this one.
    #[inline(always)]
    pub(crate) fn holds_word(&self, slot: u32, word: u64) -> bool
        requires { word ≢ ask }
        ensures { IsTrue result
            → (n : Node) × (get_or self.now.cells slot None ≡ Some n) × (word ≡ word_of n.body) }
    {
        slot < self.room && self.store.word(slot) == word
    }

    /// Returns the number of protections of a taken slot.
    pub(crate) fn roots(&self, slot: u32) -> u16
        requires { IsHeld self.now.cells slot }
        ensures { IfSome (get_or self.now.cells slot None) (λ n. result ≡ n.roots) }
    {
        self.store.roots(slot)
    }

    /// Returns whether a taken slot is marked.
    pub(crate) fn marked(&self, slot: u32) -> bool
        requires { IsHeld self.now.cells slot }
        ensures { IfSome (get_or self.now.cells slot None)
            (λ n. result ≡ has_mark self.now.turned n) }
    {
        self.store.mark(slot) != mark_of(self.turned, false)
    }

    /// Returns the next slot of a taken slot's chain.
    #[inline(always)]
    pub(crate) fn chain_next(&self, slot: u32) -> Option<u32>
        requires { IsHeld self.now.cells slot × IfSome (get_or self.now.cells slot None)
            (λ n. IfSome n.chain (IsHeld self.now.cells)) }
        ensures { IfSome (get_or self.now.cells slot None) (λ n. result ≡ n.chain) }
    {
        self.store.chain_next(slot)
    }

    /// Returns the next slot of a list of taken slots.
    #[inline(always)]
    pub(crate) fn next(&self, slot: u32) -> Option<u32>
        requires { IsHeld self.now.cells slot }
        ensures { IfSome (get_or self.now.cells slot None) (λ n. result ≡ n.next) }
    {
        self.store.next(slot)
    }

    /// Sets the number of protections of a taken slot.
    pub(crate) fn set_roots(&mut self, slot: u32, count: u16)
        requires { IsHeld self.old.cells slot }
        ensures { self.new ≡ record self.old
            { cells = altered slot (with_roots count) self.old.cells } }
    {
        self.store.set_roots(slot, count)
    }

    /// Marks a taken slot, or clears its mark.
    pub(crate) fn set_mark(&mut self, slot: u32, marked: bool)
        requires { IsHeld self.old.cells slot }
        ensures { self.new ≡ record self.old {
          cells = altered slot
              (with_mark (spec.mark_of self.old.turned marked)) self.old.cells;
        } }
    {
        self.store.set_mark(slot, mark_of(self.turned, marked))
    }

    /// Exchanges the meanings of the two marks.
    pub(crate) fn turn(&mut self)
        ensures after { self.new ≡ record self.old { turned = not self.old.turned } }
        ensures two { (s : ℕ) (n : Node) → get_or self.old.cells s None ≡ Some n → n.mark ≤ 1 }
    {
        self.turned = !self.turned;
    }

    /// Links a taken slot to the next one of its chain.
    #[inline(always)]
    pub(crate) fn set_chain_next(&mut self, slot: u32, next: Option<u32>)
        requires held { IsHeld self.old.cells slot × IfSome next (IsHeld self.old.cells) }
        requires apart { IfSome next (λ t. ¬ (t ≡ slot)) }
        ensures { self.new ≡ record self.old
            { cells = altered slot (with_chain next) self.old.cells } }
    {
        self.store.set_chain_next(slot, next)
    }

    /// Links a taken slot to the next one of a list of taken slots.
    #[inline(always)]
    pub(crate) fn set_next(&mut self, slot: u32, next: Option<u32>)
        requires held { IsHeld self.old.cells slot }
        requires small { IfSome next (λ t. t < 4294967295) }
        ensures { self.new ≡ record self.old
            { cells = altered slot (with_next next) self.old.cells } }
    {
        self.store.set_next(slot, next)
    }

    /// Takes a slot for a body whose word is known; a freed slot, if there is one. Fails like
    /// `Arena::take`.
    #[inline(always)]
    pub(crate) fn take(&mut self, body: CellBody, word: u64) -> Result<u32, ArenaFault>
        requires { word ≡ word_of body }
        ensures free { IfOk result (λ s. get_or self.old.cells s None ≡ None) }
        ensures below { IfOk result (λ s. s < self.old.cap) }
        ensures cells { IfOk result (λ s. self.new.cells ≡ put self.old.cells s
            (Some (lone (spec.mark_of self.old.turned false) body))) }
        ensures cap { self.new.cap ≡ self.old.cap }
        ensures turned { self.new.turned ≡ self.old.turned }
        ensures spare { spare_of self.old ≤ spare_of self.new + 1 }
        ensures fits { spare_of self.new + filled self.new.cells ≤ self.new.cap }
        ensures err { OnErr result (self.new ≡ self.old) }
        ensures none_spare { OnErr result (spare_of self.old ≡ 0) }
        ensures full { result ≡ Err ArenaFault.Full → filled self.old.cells ≡ self.old.cap }
        ensures memory { result ≡ Err ArenaFault.Memory → filled self.old.cells < self.old.cap }
    {
        if let Some(slot) = self.reuse(body, word) {
            return Ok(slot);
        }
        if self.fresh == self.cap {
            return Err(ArenaFault::Full);
        }
        if self.fresh == self.room {
            self.grow()?;
        }
        Ok(self.extend(body, word))
    }

    /// Adds blocks until `count` slots can be taken. Fails like `Arena::reserve`.
    pub(crate) fn reserve(&mut self, count: u32) -> Result<(), ArenaFault>
        ensures same { self.new ≡ record self.old { room = self.new.room } }
        ensures grown { self.old.room ≤ self.new.room }
        ensures fits { spare_of self.new + filled self.new.cells ≤ self.new.cap }
        ensures ok { OnOk result (count ≤ spare_of self.new) }
        ensures full { result ≡ Err ArenaFault.Full → self.old.cap < filled self.old.cells + count }
        ensures memory { result ≡ Err ArenaFault.Memory
            → filled self.old.cells + count ≤ self.old.cap }
        ensures too_few { OnErr result (spare_of self.old < count) }
    {
        if count > self.cap - self.taken {
            return Err(ArenaFault::Full);
        }
        while self.spare() < count {
            self.grow()?;
        }
        Ok(())
    }
}
