//! Reading of cells.

ghost use Rattle.std.specs.Prelude.{◌≡◌, ◌≢◌, ◌==◌, IsTrue};
ghost use Rattle.std.specs.Prelude.{Some, None, IfSome};
ghost use Rattle.rx_arena.specs.Faces.{ask, face_of, word_of};
ghost use Rattle.rx_arena.specs.Arena.{Taken, taken_at, IsTaken};

use crate::arena::Arena;
use crate::faces::{ASK, first, said, second, word};
use crate::{CellBody, Face, Slot};

impl Arena {
    /// Returns the contents of a cell.
    pub fn read(&self, slot: Slot) -> CellBody
        requires { IsTaken self.now slot.0 }
        ensures { IfSome (taken_at self.now slot.0) (λ t. result ≡ t.body) }
    {
        self.pool.body(slot.0)
    }

    /// Returns the word of a slot, which has the contents of its cell if they fit. The cell is not
    /// read.
    #[inline(always)]
    pub fn word(&self, slot: Slot) -> u64
        requires { IsTaken self.now slot.0 }
        ensures { IfSome (taken_at self.now slot.0) (λ t. result ≡ word_of t.body) }
    {
        self.pool.word(slot.0)
    }

    /// Returns true only if the slot is taken by a cell whose word is this one. One load and one
    /// compare decide whether a slot has a certain body.
    #[inline(always)]
    pub fn holds_word(&self, slot: Slot, word: u64) -> bool
        requires { word ≢ ask }
        ensures { IsTrue result
            → (t : Taken) × (taken_at self.now slot.0 ≡ Some t) × (word ≡ word_of t.body) }
    {
        self.pool.holds_word(slot.0, word)
    }

    /// Returns the contents of a cell without the hash, read in the cell.
    #[inline(never)]
    fn face_in_cell(&self, slot: Slot) -> Face
        requires { IsTaken self.now slot.0 }
        ensures { IfSome (taken_at self.now slot.0) (λ t. result ≡ face_of t.body) }
    {
        let body = self.read(slot);
        Face {
            kind: body.kind,
            a: body.a,
            b: body.b,
            anns: body.anns,
        }
    }

    /// Returns the first word of the body, read in the cell.
    #[inline(never)]
    fn first_in_cell(&self, slot: Slot) -> u64
        requires { IsTaken self.now slot.0 }
        ensures { IfSome (taken_at self.now slot.0) (λ t. result ≡ t.body.a) }
    {
        self.read(slot).a
    }

    /// Returns the second word of the body, read in the cell.
    #[inline(never)]
    fn second_in_cell(&self, slot: Slot) -> u64
        requires { IsTaken self.now slot.0 }
        ensures { IfSome (taken_at self.now slot.0) (λ t. result ≡ t.body.b) }
    {
        self.read(slot).b
    }

    /// Returns the contents of a cell without the hash. They are mostly in the word of the slot, so
    /// that the cell is not read.
    #[inline(always)]
    pub fn face(&self, slot: Slot) -> Face
        requires { IsTaken self.now slot.0 }
        ensures { IfSome (taken_at self.now slot.0) (λ t. result ≡ face_of t.body) }
    {
        match said(self.word(slot)) {
            Some(face) => face,
            None => self.face_in_cell(slot),
        }
    }

    /// Returns the first word of the body, mostly from the word of the slot.
    #[inline(always)]
    pub fn first(&self, slot: Slot) -> u64
        requires { IsTaken self.now slot.0 }
        ensures { IfSome (taken_at self.now slot.0) (λ t. result ≡ t.body.a) }
    {
        let word = self.word(slot);
        if word == ASK {
            self.first_in_cell(slot)
        } else {
            first(word)
        }
    }

    /// Returns the second word of the body, mostly from the word of the slot.
    #[inline(always)]
    pub fn second(&self, slot: Slot) -> u64
        requires { IsTaken self.now slot.0 }
        ensures { IfSome (taken_at self.now slot.0) (λ t. result ≡ t.body.b) }
    {
        let word = self.word(slot);
        if word == ASK {
            self.second_in_cell(slot)
        } else {
            second(word)
        }
    }
}
