//! Marking of reached slots, by passes over all slots.

ghost use Rattle.std.specs.Prelude.{◌≡◌, ◌<◌, ℕ, ◌∷◌, [], length, map, Contains, Some, slice_get};
ghost use Rattle.rx_term.specs.declared.Term.{Term};
ghost use Rattle.rx_term.specs.Heap.{links, node_links, notes_links};
ghost use Rattle.rx_plain.specs.Slots.{cell_of, node_of, notes_of};
ghost use Rattle.rx_plain.specs.Marks.{Marks, Fresh, AreLinksWithin, links_below, Passes, Spreads};
ghost use Rattle.rx_plain.specs.Marks.{Reaches, root_marked};

use crate::slots::{Body, Shape, Slot};
use rx_term::Term;

/// Marks one slot. Returns whether it was not marked.
fn mark(slots: &mut [Slot], t: Term) -> bool
    requires { t.0 < length slots.old }
    ensures marks { Marks slots.old slots.new (t.0 ∷ []) }
    ensures fresh { Fresh result slots.old slots.new }
{
    let slot = slots[t.0 as usize];
    if slot.mark {
        return false;
    }
    slots[t.0 as usize] = Slot {
        body: slot.body,
        roots: slot.roots,
        mark: true,
    };
    true
}

/// Marks the slots that a shape names. Returns whether one of them was not marked.
fn mark_shape(slots: &mut [Slot], shape: Shape) -> bool
    requires { (i : ℕ) → Contains (node_links (node_of shape)) i → i < length slots.old }
    ensures marks { Marks slots.old slots.new (node_links (node_of shape)) }
    ensures fresh { Fresh result slots.old slots.new }
{
    match shape {
        Shape::Int(_) => false,
        Shape::Nil => false,
        Shape::Cons(head, tail) => {
            let first = mark(slots, head);
            let second = mark(slots, tail);
            first || second
        }
        Shape::Appl(_, args) => mark(slots, args),
        Shape::Hole(inner) => mark(slots, inner),
    }
}

/// Marks the slot of an annotation list, if there is one.
fn mark_notes(slots: &mut [Slot], anns: Option<Term>) -> bool
    requires { (i : ℕ) → Contains (notes_links (notes_of anns)) i → i < length slots.old }
    ensures marks { Marks slots.old slots.new (notes_links (notes_of anns)) }
    ensures fresh { Fresh result slots.old slots.new }
{
    match anns {
        Some(list) => mark(slots, list),
        None => false,
    }
}

/// Marks the slots that a body names.
fn mark_links(slots: &mut [Slot], body: Body) -> bool
    requires { (i : ℕ) → Contains (links (cell_of body)) i → i < length slots.old }
    ensures marks { Marks slots.old slots.new (links (cell_of body)) }
    ensures fresh { Fresh result slots.old slots.new }
{
    let inside = mark_shape(slots, body.shape);
    let beside = mark_notes(slots, body.anns);
    inside || beside
}

/// Returns the slot with this index.
fn slot_at(slots: &[Slot], place: usize) -> Slot
    requires { place < length slots.now }
    ensures { slice_get slots.now place ≡ Some result }
{
    slots[place]
}

/// Marks the slots that a marked slot names.
fn mark_below(slots: &mut [Slot], place: usize) -> bool
    requires place { place < length slots.old }
    requires within { AreLinksWithin slots.old }
    ensures marks { Marks slots.old slots.new (links_below (slice_get slots.old place)) }
    ensures fresh { Fresh result slots.old slots.new }
{
    let slot = slot_at(slots, place);
    if !slot.mark {
        return false;
    }
    match slot.body {
        Some(body) => mark_links(slots, body),
        None => false,
    }
}

/// Makes one pass over all slots. Returns whether there is a new mark.
fn pass(slots: &mut [Slot]) -> bool
    requires { AreLinksWithin slots.old }
    ensures { Passes slots.old slots.new result }
{
    let mut fresh = false;
    for place in 0..slots.len() {
        let below = mark_below(slots, place);
        fresh = fresh || below;
    }
    fresh
}

/// Makes passes until there is no new mark.
fn spread(slots: &mut [Slot])
    requires { AreLinksWithin slots.old }
    ensures { Spreads slots.old slots.new }
{
    let mut fresh = true;
    while fresh {
        fresh = pass(slots);
    }
}

/// Marks the slots of these references.
fn mark_extra(slots: &mut [Slot], extra: &[Term])
    requires { (t : Term) → Contains extra.now t → t.0 < length slots.old }
    ensures { Marks slots.old slots.new (map (λ t. t.0) extra.now) }
{
    for t in extra {
        let _ = mark(slots, *t);
    }
}

/// Returns the slot, marked if and only if it is protected.
fn mark_if_rooted(slot: Slot) -> Slot
    ensures { result ≡ root_marked slot }
{
    Slot {
        body: slot.body,
        roots: slot.roots,
        mark: slot.roots > 0,
    }
}

/// Marks exactly the slots that are protected.
fn mark_roots(slots: &mut [Slot])
    ensures { slots.new ≡ map root_marked slots.old }
{
    for place in 0..slots.len() {
        let slot = mark_if_rooted(slots[place]);
        slots[place] = slot;
    }
}

/// Marks exactly the slots that protected slots and those in `extra` reach.
pub fn mark_reached(slots: &mut [Slot], extra: &[Term])
    requires within { AreLinksWithin slots.old }
    requires handed { (t : Term) → Contains extra.now t → t.0 < length slots.old }
    ensures { Reaches slots.old slots.new extra.now }
{
    mark_roots(slots);
    mark_extra(slots, extra);
    spread(slots);
}
