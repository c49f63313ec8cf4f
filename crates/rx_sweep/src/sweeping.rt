//! Sweeping: slots that are not marked are freed.
ghost use Rattle.std.specs.Prelude.{◌≡◌, ℕ, ◌+◌, ◌<◌, List, [], length, slice_set, false, None};
ghost use Rattle.std.specs.Prelude.{map, filter, if◌then◌else◌};
ghost use Rattle.rx_arena.specs.Put.{times, put};
ghost use Rattle.rx_arena.specs.Arena.{taken_at, IsTaken, taken_count, InChain, IsLoose, roots_at};
ghost use Rattle.rx_arena.specs.Arena.{besides, chain_at, marked_at, IsMarked, IsArena};
ghost use Rattle.rx_sweep.specs.Reach.{home, IsHomed};
ghost use Rattle.rx_sweep.specs.Inner.Marking.{Swept};

use rx_arena::Slot;
use rx_arena::arena::Arena;

/// Removes the slots that are not marked from the chains.
fn unlink(arena: &mut Arena)
    requires no_gray { arena.old.gray ≡ [] }
    ensures chains { arena.new.chains ≡ map (filter (λ s. marked_at arena.old s)) arena.old.chains }
    ensures rest { arena.new ≡ record arena.old { chains = arena.new.chains } }
    ensures law { IsArena arena.new }
{
    for chain in 0..arena.chains() {
        arena.chain_keep_marked(chain);
    }
}

/// Removes a slot that is not marked from the chain of its hash, and frees it.
fn drop_slot(arena: &mut Arena, slot: Slot)
    requires no_gray { arena.old.gray ≡ [] }
    requires taken { IsTaken arena.old slot.0 }
    requires unmarked { marked_at arena.old slot.0 ≡ false }
    requires unprotected { roots_at arena.old slot.0 ≡ 0 }
    requires there { 0 < times slot.0 (chain_at arena.old (home arena.old slot.0)) }
    ensures after { arena.new ≡ record arena.old {
      cells = put arena.old.cells slot.0 None;
      chains = slice_set arena.old.chains (home arena.old slot.0)
          (besides slot.0 (chain_at arena.old (home arena.old slot.0)));
      spare = arena.old.spare + 1;
    } }
    ensures law { IsArena arena.new }
{
    let chain = arena.home(arena.read(slot).hash);
    arena.chain_remove(chain, slot);
    arena.give_back(slot);
}

/// Frees the slots that are not marked, from the last one to the first. So the slots that are taken
/// next are neighbors.
fn give_back_unmarked(arena: &mut Arena)
    requires no_gray { arena.old.gray ≡ [] }
    requires loose { (s : ℕ) → marked_at arena.old s ≡ false → IsLoose arena.old s }
    requires roots { (s : ℕ) → 0 < roots_at arena.old s → IsMarked arena.old s }
    requires law { IsArena arena.old }
    ensures cells { (s : ℕ)
        → taken_at arena.new s ≡ (if marked_at arena.old s then taken_at arena.old s else None) }
    ensures chains { arena.new.chains ≡ arena.old.chains }
    ensures no_gray { arena.new.gray ≡ [] }
    ensures spare { arena.new.spare + taken_count
        arena.new ≡ arena.old.spare + taken_count arena.old }
    ensures cap { arena.new.cap ≡ arena.old.cap }
    ensures law { IsArena arena.new }
{
    let mut left = arena.slots();
    while left > 0 {
        left -= 1;
        let slot = Slot(left);
        if arena.holds_unmarked(slot) {
            arena.give_back(slot);
        }
    }
}

/// Frees every slot that is not marked.
pub(crate) fn sweep(arena: &mut Arena)
    requires no_gray { arena.old.gray ≡ [] }
    requires chained { (s : ℕ) → IsTaken arena.old s → InChain arena.old s }
    requires roots { (s : ℕ) → 0 < roots_at arena.old s → IsMarked arena.old s }
    ensures swept { Swept arena.old arena.new }
    ensures law { IsArena arena.new }
{
    unlink(arena);
    give_back_unmarked(arena);
}

/// Frees every slot that is not marked, in one pass over the slots, if each slot is in the chain of
/// its hash.
pub(crate) fn sweep_by_hash(arena: &mut Arena)
    requires no_gray { arena.old.gray ≡ [] }
    requires homed { IsHomed arena.old }
    requires chained { (s : ℕ) → IsTaken arena.old s → InChain arena.old s }
    requires roots { (s : ℕ) → 0 < roots_at arena.old s → IsMarked arena.old s }
    ensures swept { Swept arena.old arena.new }
    ensures law { IsArena arena.new }
{
    let mut number = arena.slots();
    while number > 0 {
        number -= 1;
        let slot = Slot(number);
        if arena.holds_unmarked(slot) {
            drop_slot(arena, slot);
        }
    }
}
