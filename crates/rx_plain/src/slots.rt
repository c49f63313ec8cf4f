//! Slots, and the search for a body or a free slot.

ghost use Rattle.std.specs.Prelude.{◌≡◌, ◌≢◌, ◌<◌, ◌↔◌, ℕ, IsTrue, Some, None, length, map};
ghost use Rattle.std.specs.Prelude.{count_by, MatchOption};
ghost use Rattle.rx_plain.specs.Slots.{swept_of, is_taken, heap_of, cell_of, cell_in};

use rx_term::{Symbol, Term};

/// The contents of a taken slot without its annotations.
#[derive(Clone, Copy, PartialEq, Eq)]
pub enum Shape {
    Int(i32),
    Nil,
    Cons(Term, Term),
    Appl(Symbol, Term),
    Hole(Term),
}

/// The contents of a slot, with the reference of its annotation list.
#[derive(Clone, Copy, PartialEq, Eq)]
pub struct Body {
    pub shape: Shape,
    pub anns: Option<Term>,
}

/// A slot: free, or taken by a body.
#[derive(Clone, Copy)]
pub struct Slot {
    pub body: Option<Body>,
    pub roots: u16,
    pub mark: bool,
}

/// Returns whether the slot has this body.
fn is_of(slot: &Slot, body: Body) -> bool
    ensures { IsTrue result ↔ (cell_in slot.now.body ≡ Some (cell_of body)) }
{
    match slot.body {
        Some(b) => b == body,
        None => false,
    }
}

/// Returns the first slot that has this body. Takes linear time.
pub fn find(slots: &[Slot], body: Body) -> Option<usize>
    ensures { MatchOption result
        ((t : ℕ) → heap_of slots.now t ≢ Some (cell_of body))
        (λ i. (i < length slots.now) × (heap_of slots.now i ≡ Some (cell_of body))) }
{
    for (i, slot) in slots.iter().enumerate() {
        if is_of(slot, body) {
            return Some(i);
        }
    }
    None
}

/// Returns the first slot that is free. Takes linear time.
pub fn find_free(slots: &[Slot]) -> Option<usize>
    ensures { MatchOption result
        ((t : ℕ) → t < length slots.now → heap_of slots.now t ≢ None)
        (λ i. (i < length slots.now) × (heap_of slots.now i ≡ None)) }
{
    for (i, slot) in slots.iter().enumerate() {
        if slot.body.is_none() {
            return Some(i);
        }
    }
    None
}

/// Returns the slot after a sweep: kept if it was marked, otherwise free; not marked.
fn sweep_slot(slot: Slot) -> Slot
    ensures { result ≡ swept_of slot }
{
    if slot.mark {
        Slot {
            body: slot.body,
            roots: slot.roots,
            mark: false,
        }
    } else {
        Slot {
            body: None,
            roots: 0,
            mark: false,
        }
    }
}

/// Frees the slots that are not marked, and clears all marks. Returns the number of slots that are
/// still taken.
pub fn sweep(slots: &mut [Slot]) -> usize
    ensures slots { slots.new ≡ map swept_of slots.old }
    ensures taken { result ≡ count_by is_taken slots.new }
{
    for i in 0..slots.len() {
        let slot = sweep_slot(slots[i]);
        slots[i] = slot;
    }
    slots.iter().filter(|s| s.body.is_some()).count()
}
