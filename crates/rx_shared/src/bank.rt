//! The store: its invariant, reading, protection and collection.
//!
//! The reading functions are inlined always: if a program has engines of several kinds they have
//! many callers, and the compiler would make functions of them.

mod making;

ghost use Rattle.std.specs.Prelude.{◌≡◌, ◌≤◌, ◌^◌, length};
ghost use Rattle.rx_term.specs.Heap.{Least, Least-prop, IsDistinct, is_whole};
ghost use Rattle.rx_names.specs.Names.{symbols_of};
ghost use Rattle.rx_shared.specs.Tidy.{IsTidy, heap_of};
ghost use Rattle.rx_shared.specs.Inner.Hints.{CoversTaken};
ghost use Rattle.rx_term.specs.Bank.{table_of};

use crate::bodies::{EMPTY, INTEGER, body};
use crate::graying::gray_all;
use crate::hints::Hints;
use rx_arena::arena::Arena;
use rx_arena::faces::said;
use rx_arena::{ArenaFault, Face, Slot};
use rx_names::Names;
use rx_sweep::collect_by_hash;
use rx_sweep::kinds::{APPLICATION, LIST, PLACEHOLDER};
use rx_term::{BankFault, Kind, RootsFull, Symbol, Term, TermBank};
use std::alloc::Global;

/// The number of chains at first is 2 to this power.
const FIRST_BITS: u32 = 10;

/// The largest number of chains is 2 to this power.
const LAST_BITS: u32 = 30;

/// A term store with maximal sharing, for at most `cap` cells.
#[derive(Drop)]
pub struct SharedBank {
    arena: Arena,
    names: Names,
    hints: Hints,
    bits: u32,
    cap: u32,
    ghost limited: { cap ≡ arena.cap },
    ghost few: { bits ≤ 30 },
    ghost chained: { length arena.chains ≡ 2 ^ bits },
    ghost tidy: { IsTidy arena },
    ghost distinct: { IsDistinct (heap_of arena) },
    ghost whole: { Least
        (is_whole (heap_of arena) (table_of (symbols_of names)) arena.cap) } by { Least-prop
            (is_whole (heap_of arena) (table_of (symbols_of names)) arena.cap) },
    ghost covered: { CoversTaken hints.last.items arena },
}

impl SharedBank {
    ghost use Rattle.std.specs.Prelude.{◌<◌, IsSome, IfSome, IfOk, IfErr, Some, None};
    ghost use Rattle.rx_term.specs.Store.{tree_at};
    ghost use Rattle.rx_term.specs.Kinds.{HasKind};
    ghost use Rattle.rx_term.specs.Steps.{with_count};
    ghost use Rattle.rx_term.specs.declared.faults.BankFault.TheVariants.{Memory};
    ghost use Rattle.rx_shared.specs.Bodies.{notes_of, whole};
    ghost use Rattle.rx_shared.specs.State.{store_of};
    ghost use Rattle.rx_shared.specs.Inner.Reading.{HoldsFace, HoldsWritten};
    ghost use Rattle.rx_term.specs.Bank.{IsEmptyStore, IsNotesOf};
    ghost use Rattle.rx_shared.specs.Mirror.{Mirrors};
    ghost use Rattle.rx_arena.specs.Arena.{IsArena};

    /// Returns an empty store for at most `cap` cells, from 1 to 2^30. The only error is `Memory`.
    /// Blocks of cells are allocated when they are needed.
    pub fn new(alloc: Global, cap: u32) -> Result<SharedBank, BankFault>
        requires { (0 < cap) × (cap ≤ 1073741824) }
        ensures empty { IfOk result (λ b. IsEmptyStore (store_of b) cap) }
        ensures memory_alone { IfErr result (λ e. e ≡ Memory) }
    {
        let Ok(arena) = Arena::new(alloc, cap, 1 << FIRST_BITS) else {
            return Err(BankFault::Memory);
        };
        let Ok(names) = Names::new(alloc) else {
            return Err(BankFault::Memory);
        };
        Ok(SharedBank {
            arena,
            names,
            hints: Hints::new(alloc),
            bits: FIRST_BITS,
            cap,
        })
    }

    /// Returns the arena, which has exactly the store's trees: a reference and its slot have the
    /// same number.
    pub fn arena(&self) -> &Arena
        ensures mirrors { Mirrors (store_of self.now) result.now }
        ensures law { IsArena result.now }
    {
        &self.arena
    }

    /// Returns the contents of a term's cell without the hash.
    #[inline(always)]
    fn face(&self, t: Term) -> Face
        requires { IsSome (tree_at (store_of self.now) t) }
        ensures { HoldsFace self.now.arena t.0 result }
    {
        self.arena.face(Slot(t.0))
    }

    /// Returns the contents of a term's cell, if they fit in the word of its slot.
    #[inline(always)]
    fn face_beside(&self, t: Term) -> Option<Face>
        requires { IsSome (tree_at (store_of self.now) t) }
        ensures { IfSome result (HoldsFace self.now.arena t.0) }
    {
        said(self.arena.word(Slot(t.0)))
    }

    /// Returns the kind of a term whose cell has these contents.
    #[inline(always)]
    fn kind_of(&self, t: Term, face: Face) -> Kind
        requires held { IsSome (tree_at (store_of self.now) t) }
        requires holds { HoldsFace self.now.arena t.0 face }
        ensures { HasKind (store_of self.now) t result }
    {
        if face.kind == APPLICATION {
            Kind::Appl(Symbol(face.a))
        } else if face.kind == LIST {
            Kind::Cons
        } else if face.kind == EMPTY {
            Kind::Nil
        } else if face.kind == INTEGER {
            Kind::Int((face.a as u32).cast_signed())
        } else {
            Kind::Hole
        }
    }

    /// Returns the kind of a term, read in its cell; few words do not have it.
    #[inline(never)]
    fn kind_in_cell(&self, t: Term) -> Kind
        requires { IsSome (tree_at (store_of self.now) t) }
        ensures { HasKind (store_of self.now) t result }
    {
        self.kind_of(t, self.face(t))
    }

    /// Returns the first word of a term's body.
    #[inline(always)]
    fn first(&self, t: Term) -> u64
        requires { IsSome (tree_at (store_of self.now) t) }
        ensures { HoldsWritten self.now.arena t.0 (λ b. b.a ≡ result) }
    {
        self.arena.first(Slot(t.0))
    }

    /// Returns the second word of a term's body.
    #[inline(always)]
    fn second(&self, t: Term) -> u64
        requires { IsSome (tree_at (store_of self.now) t) }
        ensures { HoldsWritten self.now.arena t.0 (λ b. b.b ≡ result) }
    {
        self.arena.second(Slot(t.0))
    }

    /// Returns the slot of a list, unless it is empty.
    fn notes(&self, anns: Term) -> Option<Slot>
        requires { IsSome (tree_at (store_of self.now) anns) }
        ensures { IsNotesOf (tree_at (store_of self.now) anns) anns.0 (notes_of result) }
    {
        if self.face(anns).kind == LIST {
            Some(Slot(anns.0))
        } else {
            None
        }
    }

    /// Replaces the number of protections of a term.
    fn set_roots(&mut self, t: Term, count: u16)
        requires { IsSome (tree_at (store_of self.old) t) }
        ensures { store_of self.new ≡ with_count (store_of self.old) t count }
    {
        self.arena.set_roots(Slot(t.0), count);
    }

    /// Returns the number of protections of a term.
    fn roots(&self, t: Term) -> u16
        requires { IsSome (tree_at (store_of self.now) t) }
        ensures { result ≡ (store_of self.now).roots t.0 }
    {
        self.arena.roots(Slot(t.0))
    }
}

impl TermBank for SharedBank {
    ghost use Rattle.rx_shared.specs.State.{store_of};
    ghost use Rattle.rx_shared.specs.Inner.Soundness.{sound as bank_sound};

    ghost store = { store_of };

    fn symbol(&mut self, name: &[u8], quoted: bool, arity: u32) -> Result<Symbol, BankFault> {
        match self.names.intern(name, quoted, arity) {
            Ok(symbol) => Ok(symbol),
            Err(_) => Err(BankFault::Memory),
        }
    }

    fn int(&mut self, z: i32) -> Result<Term, BankFault> {
        self.make(body(INTEGER, u64::from(z.cast_unsigned()), 0, None))
    }

    #[inline(always)]
    fn nil(&mut self) -> Result<Term, BankFault> {
        self.make(body(EMPTY, 0, 0, None))
    }

    #[inline(always)]
    fn cons(&mut self, head: Term, tail: Term) -> Result<Term, BankFault> {
        self.make_bare(LIST, u64::from(head.0), tail)
    }

    #[inline(always)]
    fn appl(&mut self, sym: Symbol, args: Term) -> Result<Term, BankFault> {
        self.make_bare(APPLICATION, sym.0, args)
    }

    fn hole(&mut self, inner: Term) -> Result<Term, BankFault> {
        self.make(body(PLACEHOLDER, u64::from(inner.0), 0, None))
    }

    fn annotated(&mut self, t: Term, anns: Term) -> Result<Term, BankFault> {
        let bare = self.face(t);
        let notes = self.notes(anns);
        self.make(body(bare.kind, bare.a, bare.b, notes))
    }

    #[inline(always)]
    fn kind(&self, t: Term) -> Kind {
        match self.face_beside(t) {
            Some(face) => self.kind_of(t, face),
            None => self.kind_in_cell(t),
        }
    }

    #[inline(always)]
    fn head(&self, t: Term) -> Term {
        Term(self.first(t) as u32)
    }

    #[inline(always)]
    fn tail(&self, t: Term) -> Term {
        Term(self.second(t) as u32)
    }

    #[inline(always)]
    fn args(&self, t: Term) -> Term {
        Term(self.second(t) as u32)
    }

    fn inner(&self, t: Term) -> Term {
        Term(self.first(t) as u32)
    }

    #[inline(always)]
    fn anns(&self, t: Term) -> Option<Term> {
        match self.face(t).anns {
            Some(slot) => Some(Term(slot.0)),
            None => None,
        }
    }

    fn name_of(&self, sym: Symbol) -> &[u8] {
        self.names.get(sym).0
    }

    fn quoted_of(&self, sym: Symbol) -> bool {
        self.names.get(sym).1
    }

    fn arity_of(&self, sym: Symbol) -> u32 {
        self.names.get(sym).2
    }

    fn protect(&mut self, t: Term) -> Result<(), RootsFull> {
        let count = self.roots(t);
        if count == u16::MAX {
            return Err(RootsFull);
        }
        self.set_roots(t, count + 1);
        Ok(())
    }

    fn unprotect(&mut self, t: Term) {
        let count = self.roots(t);
        self.set_roots(t, count - 1);
    }

    fn reclaim(&mut self, extra: &[Term]) {
        gray_all(&mut self.arena, extra);
        collect_by_hash(&mut self.arena);
    }

    fn holds(&self, t: Term) -> bool {
        self.arena.holds_unmarked(Slot(t.0))
    }

    fn cells(&self) -> u32 {
        self.arena.cells()
    }

    fn spare(&self) -> u32 {
        self.arena.spare()
    }

    fn cap(&self) -> u32 {
        self.cap
    }

    fn reserve(&mut self, k: u32) -> Result<(), BankFault> {
        match self.arena.reserve(k) {
            Ok(()) => Ok(()),
            Err(ArenaFault::Full) => Err(BankFault::Full),
            Err(ArenaFault::Memory) => Err(BankFault::Memory),
        }
    }

    ghost sound = { bank_sound };
}
