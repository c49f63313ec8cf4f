//! The store.

ghost use Rattle.std.specs.Prelude.{◌≡◌, ◌<◌, ◌≤◌, ℕ, None, length};
ghost use Rattle.std.specs.FinMap as fin;
ghost use Rattle.rx_term.specs.Heap.{Least, Least-prop, IsDistinct, is_whole, content_by};
ghost use Rattle.rx_names.specs.Names.{symbols_of};
ghost use Rattle.rx_plain.specs.Slots.{heap_of, roots_of, cell_of};
ghost use Rattle.rx_term.specs.Bank.{table_of};

use crate::marks::mark_reached;
use crate::slots::{Body, Shape, Slot, find, find_free, sweep};
use rx_names::Names;
use rx_term::{BankFault, Kind, RootsFull, Symbol, Term, TermBank};
use std::alloc::Global;

/// A term store without hashing, for at most `cap` terms.
#[derive(Drop)]
pub struct PlainBank {
    slots: Vec<Slot>,
    names: Names,
    cap: u32,
    taken: u32,
    ghost limited: { cap ≤ 1073741824 },
    ghost bounded: { length slots.items ≤ cap },
    ghost distinct: { IsDistinct (heap_of slots.items) },
    ghost whole: { Least (is_whole (heap_of slots.items) (table_of (symbols_of names))
        (length slots.items)) } by { Least-prop
            (is_whole (heap_of slots.items) (table_of (symbols_of names)) (length slots.items)) },
    ghost unrooted: { (t : ℕ) → heap_of slots.items t ≡ None → roots_of slots.items t ≡ 0 },
    ghost counts: { (t : ℕ) → roots_of slots.items t ≤ 65535 },
    ghost counted: { taken ≡ fin.len (content_by (heap_of slots.items) (table_of (symbols_of names))
        (length slots.items) whole) },
}

impl PlainBank {
    ghost use Rattle.std.specs.Prelude.{IsSome, IfOk, IfErr, Some};
    ghost use Rattle.rx_term.specs.Store.{tree_at};
    ghost use Rattle.rx_term.specs.Steps.{MakesOrRefuses, with_count};
    ghost use Rattle.rx_term.specs.declared.faults.BankFault.TheVariants.{Memory};
    ghost use Rattle.rx_plain.specs.Slots.{notes_of};
    ghost use Rattle.rx_plain.specs.State.{store_of, tree_of_body};
    ghost use Rattle.rx_term.specs.Bank.{IsEmptyStore, IsNotesOf};

    /// Returns an empty store for at most `cap` terms, from 1 to 2^30. The only error is `Memory`.
    pub fn new(alloc: Global, cap: u32) -> Result<PlainBank, BankFault>
        requires { (0 < cap) × (cap ≤ 1073741824) }
        ensures empty { IfOk result (λ b. IsEmptyStore (store_of b) cap) }
        ensures memory_alone { IfErr result (λ e. e ≡ Memory) }
    {
        match Names::new(alloc) {
            Ok(names) => Ok(PlainBank {
                slots: Vec::new(alloc),
                names,
                cap,
                taken: 0,
            }),
            Err(_) => Err(BankFault::Memory),
        }
    }

    /// Returns the reference of a body, which is added if it is not there. Searches all slots.
    fn make(&mut self, body: Body) -> Result<Term, BankFault>
        requires { IsSome (tree_of_body (store_of self.old) body) }
        ensures { let w = store_of self.old in
            MakesOrRefuses w (store_of self.new) (tree_of_body w body) result }
    {
        if let Some(i) = find(&self.slots, body) {
            return Ok(Term(i as u32));
        }
        let slot = Slot {
            body: Some(body),
            roots: 0,
            mark: false,
        };
        if let Some(i) = find_free(&self.slots) {
            self.slots[i] = slot;
            self.taken += 1;
            return Ok(Term(i as u32));
        }
        let i = self.slots.len();
        if i >= self.cap as usize {
            return Err(BankFault::Full);
        }
        match self.slots.push(slot) {
            Err(_) => Err(BankFault::Memory),
            Ok(()) => {
                self.taken += 1;
                Ok(Term(i as u32))
            }
        }
    }

    /// Returns the body of a term.
    fn body(&self, t: Term) -> Body
        requires { IsSome (tree_at (store_of self.now) t) }
        ensures holds { heap_of self.now.slots.items t.0 ≡ Some (cell_of result) }
        ensures tree { tree_at (store_of self.now) t ≡ tree_of_body (store_of self.now) result }
    {
        self.slots[t.0 as usize].body.unwrap()
    }

    /// Returns the reference of a list, unless it is empty.
    fn notes(&self, anns: Term) -> Option<Term>
        requires { IsSome (tree_at (store_of self.now) anns) }
        ensures { IsNotesOf (tree_at (store_of self.now) anns) anns.0 (notes_of result) }
    {
        match self.body(anns).shape {
            Shape::Cons(_, _) => Some(anns),
            _ => None,
        }
    }

    /// Replaces the number of protections of a term.
    fn set_roots(&mut self, t: Term, count: u16)
        requires { IsSome (tree_at (store_of self.old) t) }
        ensures { store_of self.new ≡ with_count (store_of self.old) t count }
    {
        let slot = self.slots[t.0 as usize];
        self.slots[t.0 as usize] = Slot {
            body: slot.body,
            roots: count,
            mark: slot.mark,
        };
    }

    /// Returns the number of protections of a term.
    fn roots(&self, t: Term) -> u16
        requires { IsSome (tree_at (store_of self.now) t) }
        ensures { result ≡ (store_of self.now).roots t.0 }
    {
        self.slots[t.0 as usize].roots
    }
}

impl TermBank for PlainBank {
    ghost use Rattle.rx_plain.specs.State.{store_of};
    ghost use Rattle.rx_plain.specs.Inner.Soundness.{sound as bank_sound};

    ghost store = { store_of };

    fn symbol(&mut self, name: &[u8], quoted: bool, arity: u32) -> Result<Symbol, BankFault> {
        match self.names.intern(name, quoted, arity) {
            Ok(symbol) => Ok(symbol),
            Err(_) => Err(BankFault::Memory),
        }
    }

    fn int(&mut self, z: i32) -> Result<Term, BankFault> {
        self.make(Body {
            shape: Shape::Int(z),
            anns: None,
        })
    }

    fn nil(&mut self) -> Result<Term, BankFault> {
        self.make(Body {
            shape: Shape::Nil,
            anns: None,
        })
    }

    fn cons(&mut self, head: Term, tail: Term) -> Result<Term, BankFault> {
        self.make(Body {
            shape: Shape::Cons(head, tail),
            anns: None,
        })
    }

    fn appl(&mut self, sym: Symbol, args: Term) -> Result<Term, BankFault> {
        self.make(Body {
            shape: Shape::Appl(sym, args),
            anns: None,
        })
    }

    fn hole(&mut self, inner: Term) -> Result<Term, BankFault> {
        self.make(Body {
            shape: Shape::Hole(inner),
            anns: None,
        })
    }

    fn annotated(&mut self, t: Term, anns: Term) -> Result<Term, BankFault> {
        let body = self.body(t);
        let notes = self.notes(anns);
        self.make(Body {
            shape: body.shape,
            anns: notes,
        })
    }

    fn kind(&self, t: Term) -> Kind {
        match self.body(t).shape {
            Shape::Int(z) => Kind::Int(z),
            Shape::Nil => Kind::Nil,
            Shape::Cons(_, _) => Kind::Cons,
            Shape::Appl(sym, _) => Kind::Appl(sym),
            Shape::Hole(_) => Kind::Hole,
        }
    }

    fn head(&self, t: Term) -> Term {
        match self.body(t).shape {
            Shape::Cons(head, _) => head,
            _ => t,
        }
    }

    fn tail(&self, t: Term) -> Term {
        match self.body(t).shape {
            Shape::Cons(_, tail) => tail,
            _ => t,
        }
    }

    fn args(&self, t: Term) -> Term {
        match self.body(t).shape {
            Shape::Appl(_, args) => args,
            _ => t,
        }
    }

    fn inner(&self, t: Term) -> Term {
        match self.body(t).shape {
            Shape::Hole(inner) => inner,
            _ => t,
        }
    }

    fn anns(&self, t: Term) -> Option<Term> {
        self.body(t).anns
    }

    fn name_of(&self, sym: Symbol) -> &[u8] {
        self.names.get(sym).0
    }

    fn quoted_of(&self, sym: Symbol) -> bool {
        self.names.get(sym).1
    }

    fn arity_of(&self, sym: Symbol) -> u32 {
        self.names.get(sym).2
    }

    fn protect(&mut self, t: Term) -> Result<(), RootsFull> {
        let count = self.roots(t);
        if count == u16::MAX {
            return Err(RootsFull);
        }
        self.set_roots(t, count + 1);
        Ok(())
    }

    fn unprotect(&mut self, t: Term) {
        let count = self.roots(t);
        self.set_roots(t, count - 1);
    }

    fn reclaim(&mut self, extra: &[Term]) {
        mark_reached(&mut self.slots, extra);
        self.taken = sweep(&mut self.slots) as u32;
    }

    fn holds(&self, t: Term) -> bool {
        match self.slots.get(t.0 as usize) {
            Some(slot) => slot.body.is_some(),
            None => false,
        }
    }

    fn cells(&self) -> u32 {
        self.taken
    }

    fn spare(&self) -> u32 {
        let room = self.slots.capacity();
        let most = if room < self.cap as usize {
            room as u32
        } else {
            self.cap
        };
        most - self.taken
    }

    fn cap(&self) -> u32 {
        self.cap
    }

    fn reserve(&mut self, k: u32) -> Result<(), BankFault> {
        if k > self.cap - self.taken {
            return Err(BankFault::Full);
        }
        let wanted = (self.taken + k) as usize;
        let len = self.slots.len();
        if wanted <= len {
            return Ok(());
        }
        match self.slots.reserve(wanted - len) {
            Err(_) => Err(BankFault::Memory),
            Ok(()) => Ok(()),
        }
    }

    ghost sound = { bank_sound };
}
