//! Making terms, each once.
//!
//! The fast path compares one word and passes two others. List nodes and applications have slow
//! paths of their own, and a body is put together only in functions that are not inlined.

ghost use Rattle.std.specs.Prelude.{◌≡◌, ◌+◌, ◌*◌, ◌<◌, ℕ, false, length};
ghost use Rattle.rx_shared.specs.Tidy.{heap_of};

use crate::bank::{LAST_BITS, SharedBank};
use crate::bodies::body;
use crate::finding::{find, holds_word};
use rx_arena::faces::{bare_word, word};
use rx_arena::{ArenaFault, CellBody, Slot};
use rx_sweep::kinds::{APPLICATION, LIST};
use rx_term::{BankFault, Term};

/// The largest first word that a packed word can have; with it a packed word can mean "read the
/// cell".
const LARGEST: u64 = u32::MAX as u64;

/// Returns whether a body of this kind without annotations, with this first word and a small second
/// one, can have the word that means "read the cell".
#[inline(always)]
fn may_ask(kind: u8, a: u64) -> bool
    ensures { result ≡ false → (b : ℕ) → kind < 4 → b < 1073741824 → (a < 4294967296)
        × ((kind * 1073741824 + b) * 4294967296 + a < 18446744073709551615) }
{
    if a < LARGEST {
        return false;
    }
    if kind > LIST {
        return true;
    }
    a > LARGEST
}

impl SharedBank {
    ghost use Rattle.std.specs.Prelude.{◌≢◌, ◌<◌, ◌%◌, ℕ, IsSome, IsTrue, Some, None};
    ghost use Rattle.rx_term.specs.Store.{tree_at};
    ghost use Rattle.rx_term.specs.Steps.{MakesOrRefuses};
    ghost use Rattle.rx_term.specs.declared.faults.BankFault.TheVariants.{Memory};
    ghost use Rattle.rx_shared.specs.Bodies.{cell_of, body_of, whole, IsWritten};
    ghost use Rattle.rx_shared.specs.State.{store_of, tree_of_body};
    ghost use Rattle.rx_arena.specs.Faces.{word_of};

    /// Doubles the chains if there are more cells than chains. If allocation fails, they stay as
    /// they are.
    #[inline(never)]
    fn widen(&mut self)
        ensures { store_of self.new ≡ store_of self.old }
    {
        if self.bits < LAST_BITS && self.arena.cells() > 1 << self.bits {
            if let Ok(()) = self.arena.rehash_into(2 << self.bits) {
                self.bits += 1;
            }
        }
    }

    /// Doubles the chains if there are more cells than chains; the test is inlined.
    #[inline(always)]
    fn widen_where_full(&mut self)
        ensures { store_of self.new ≡ store_of self.old }
    {
        if self.arena.cells() > 1 << self.bits {
            self.widen();
        }
    }

    /// Takes a slot for a body of this word, which no slot has.
    #[inline(always)]
    fn add(&mut self, chain: u32, body: CellBody, word: u64) -> Result<Term, BankFault>
        requires chain { chain ≡ body.hash % length self.old.arena.chains }
        requires word { word ≡ word_of body }
        requires written { IsWritten body }
        requires tree { IsSome (tree_of_body (store_of self.old) body) }
        requires nowhere { (t : ℕ) → heap_of self.old.arena t ≢ Some (cell_of body) }
        ensures { let w = store_of self.old in
            MakesOrRefuses w (store_of self.new) (tree_of_body w body) result }
    {
        match self.arena.take_with(body, word) {
            Ok(slot) => {
                self.arena.chain_push(chain, slot);
                self.hints.cover(body, slot.0);
                Ok(Term(slot.0))
            }
            Err(ArenaFault::Full) => Err(BankFault::Full),
            Err(ArenaFault::Memory) => Err(BankFault::Memory),
        }
    }

    /// Returns the chain of a hash: its low bits, as the number of chains is a power of two.
    #[inline(always)]
    fn home(&self, hash: u64) -> u32
        ensures { result ≡ hash % length self.now.arena.chains }
    {
        (hash & ((1u64 << self.bits) - 1)) as u32
    }

    /// Returns the reference of a body of this word. It is searched for along its chain, unless the
    /// hints returned 0 (`told`): then no slot has it.
    #[inline(always)]
    fn make_by_hash(&mut self, body: CellBody, word: u64, told: u32) -> Result<Term, BankFault>
        requires word { word ≡ word_of body }
        requires written { IsWritten body }
        requires tree { IsSome (tree_of_body (store_of self.old) body) }
        requires nowhere { told ≡ 0
            → (t : ℕ) → heap_of self.old.arena t ≢ Some (cell_of body) }
        ensures { let w = store_of self.old in
            MakesOrRefuses w (store_of self.new) (tree_of_body w body) result }
    {
        let chain = self.home(body.hash);
        if told > 0 && !self.hints.rules_out(body) {
            if let Some(slot) = find(&self.arena, chain, body, word) {
                self.hints.point(body, slot.0);
                return Ok(Term(slot.0));
            }
        }
        let made = self.add(chain, body, word)?;
        self.widen_where_full();
        Ok(made)
    }

    /// Returns the reference of a list node of these words, found or made by its hash.
    #[inline(never)]
    fn make_list(&mut self, a: u64, b: u64, word: u64, told: u32) -> Result<Term, BankFault>
        requires word { word ≡ word_of (body_of 2 a b None) }
        requires written { IsWritten (body_of 2 a b None) }
        requires tree { IsSome (tree_of_body (store_of self.old) (body_of 2 a b None)) }
        requires nowhere { told ≡ 0
            → (t : ℕ) → heap_of self.old.arena t ≢ Some (cell_of (body_of 2 a b None)) }
        ensures { let w = store_of self.old in MakesOrRefuses w (store_of self.new)
            (tree_of_body w (body_of 2 a b None)) result }
    {
        self.make_by_hash(body(LIST, a, b, None), word, told)
    }

    /// Returns the reference of an application of these words, found or made by its hash.
    #[inline(never)]
    fn make_application(&mut self, a: u64, b: u64, word: u64, told: u32) -> Result<Term, BankFault>
        requires word { word ≡ word_of (body_of 3 a b None) }
        requires written { IsWritten (body_of 3 a b None) }
        requires tree { IsSome (tree_of_body (store_of self.old) (body_of 3 a b None)) }
        requires nowhere { told ≡ 0
            → (t : ℕ) → heap_of self.old.arena t ≢ Some (cell_of (body_of 3 a b None)) }
        ensures { let w = store_of self.old in MakesOrRefuses w (store_of self.new)
            (tree_of_body w (body_of 3 a b None)) result }
    {
        self.make_by_hash(body(APPLICATION, a, b, None), word, told)
    }

    /// Returns the reference of any body of these words, found or made by its hash.
    #[inline(never)]
    fn make_any(
        &mut self,
        kind: u8,
        a: u64,
        b: u64,
        anns: Option<Slot>,
        told: u32,
    ) -> Result<Term, BankFault>
        requires written { IsWritten (body_of kind a b anns) }
        requires tree { IsSome (tree_of_body (store_of self.old) (body_of kind a b anns)) }
        requires nowhere { told ≡ 0
            → (t : ℕ) → heap_of self.old.arena t ≢ Some (cell_of (body_of kind a b anns)) }
        ensures { let w = store_of self.old in MakesOrRefuses w (store_of self.new)
            (tree_of_body w (body_of kind a b anns)) result }
    {
        let whole = body(kind, a, b, anns);
        self.make_by_hash(whole, word(whole), told)
    }

    /// Returns the reference of a body of these words, by an outlined function for its kind.
    #[inline(always)]
    fn make_slowly(
        &mut self,
        kind: u8,
        a: u64,
        b: u64,
        anns: Option<Slot>,
        word: u64,
        told: u32,
    ) -> Result<Term, BankFault>
        requires word { word ≡ word_of (body_of kind a b anns) }
        requires written { IsWritten (body_of kind a b anns) }
        requires tree { IsSome (tree_of_body (store_of self.old) (body_of kind a b anns)) }
        requires nowhere { told ≡ 0
            → (t : ℕ) → heap_of self.old.arena t ≢ Some (cell_of (body_of kind a b anns)) }
        ensures { let w = store_of self.old in MakesOrRefuses w (store_of self.new)
            (tree_of_body w (body_of kind a b anns)) result }
    {
        match anns {
            Some(_) => self.make_any(kind, a, b, anns, told),
            None => {
                if kind == LIST {
                    self.make_list(a, b, word, told)
                } else if kind == APPLICATION {
                    self.make_application(a, b, word, told)
                } else {
                    self.make_any(kind, a, b, None, told)
                }
            }
        }
    }

    /// Returns the reference of a body of this word. Most are where the hints lead, or new as the
    /// hints show.
    #[inline(always)]
    fn make_with(&mut self, body: CellBody, word: u64) -> Result<Term, BankFault>
        requires word { word ≡ word_of body }
        requires written { IsWritten body }
        requires tree { IsSome (tree_of_body (store_of self.old) body) }
        ensures { let w = store_of self.old in
            MakesOrRefuses w (store_of self.new) (tree_of_body w body) result }
    {
        let told = self.hints.look(body);
        if told > 0 && holds_word(&self.arena, Slot(told - 1), word) {
            return Ok(Term(told - 1));
        }
        self.make_slowly(body.kind, body.a, body.b, body.anns, word, told)
    }

    /// Returns the reference of a body.
    #[inline(always)]
    pub(super) fn make(&mut self, body: CellBody) -> Result<Term, BankFault>
        requires written { IsWritten body }
        requires tree { IsSome (tree_of_body (store_of self.old) body) }
        ensures { let w = store_of self.old in
            MakesOrRefuses w (store_of self.new) (tree_of_body w body) result }
    {
        self.make_with(body, word(body))
    }

    /// Returns the reference of a body of kind below 4 without annotations, whose second word is
    /// the slot of a term. That slot is below 2^30, so the word needs no test of it; and if the
    /// first word is small, the word cannot mean "read the cell". If the hints have no slot, no
    /// cell has this body.
    #[inline(always)]
    pub(super) fn make_bare(&mut self, kind: u8, a: u64, b: Term) -> Result<Term, BankFault>
        requires kind { kind < 4 }
        requires held { IsSome (tree_at (store_of self.old) b) }
        requires written { IsWritten (body_of kind a b.0 None) }
        requires tree { IsSome (tree_of_body (store_of self.old) (body_of kind a b.0 None)) }
        ensures { let w = store_of self.old in MakesOrRefuses w (store_of self.new)
            (tree_of_body w (body_of kind a b.0 None)) result }
    {
        let second = u64::from(b.0);
        let whole = body(kind, a, second, None);
        if may_ask(kind, a) {
            return self.make(whole);
        }
        let word = bare_word(kind, a, second);
        let told = self.hints.look(whole);
        let slot = Slot(told.wrapping_sub(1));
        if self.arena.holds_word(slot, word) {
            return Ok(Term(slot.0));
        }
        self.make_slowly(kind, a, second, None, word, told)
    }
}
