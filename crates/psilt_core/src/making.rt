//! Makes terms from references.

ghost use Rattle.std.specs.Prelude.{◌≡◌, List, [], ◌∷◌, length, Some, IfErr, IfOk, IsSome, IsTrue};
ghost use Rattle.rx_term.specs.Tree.{Int, Items, none};
ghost use Rattle.rx_term.specs.Name.{IsAllowed, Signature};
ghost use Rattle.rx_term.specs.Store.{tree_at, signature_of, longer, held_open, noted};
ghost use Rattle.rx_term.specs.Steps.{Grows};
ghost use Rattle.rx_term.specs.Walks.{Lists};
ghost use Rattle.psilt_core.specs.Banks.{IsSameButTerms, store_of};
ghost use Rattle.psilt_core.specs.Answers.{are_held, terms_of, is_plain_list, MakesFrom};
ghost use Rattle.psilt_core.specs.Answers.{AddsRests, Applies, IsApplication};
ghost use Rattle.psilt_core.specs.Evaluating.{IsRoomFault};
ghost use Rattle.psilt_core.specs.Names.{IsNameFault, KeepsLimit};
ghost use Rattle.psilt_core.specs.Works.{IsSameButBank};

use crate::fault::term_or_fault;
use crate::{Bank, Fault, Work};
use rx_term::{BankFault, Kind, Symbol, Term, TermBank, plain_name};

impl Work {
    /// Returns whether all references of these numbers are in the store.
    pub fn are_held(&self, given: &[u32]) -> bool
        ensures { result ≡ are_held (store_of self.now.bank) given.now }
    {
        let bank = self.bank.shared_bank();
        given.iter().all(|n| bank.holds(Term(*n)))
    }

    /// Returns whether the reference is in the store and is a list without annotations.
    fn is_plain_list(&self, t: Term) -> bool
        ensures { result ≡ is_plain_list (tree_at (store_of self.now.bank) t) }
    {
        let bank = self.bank.shared_bank();
        if !bank.holds(t) {
            return false;
        }
        if bank.anns(t).is_some() {
            return false;
        }
        match bank.kind(t) {
            Kind::Nil => true,
            Kind::Cons => true,
            _ => false,
        }
    }

    /// Makes an integer.
    pub fn int(&mut self, value: i32) -> Result<Term, Fault>
        ensures answer { MakesFrom (store_of self.old.bank) (store_of self.new.bank) []
            (Some (Int value none)) result }
        ensures beside { IsSameButBank self.old self.new }
    {
        term_or_fault(self.bank.int(value))
    }

    /// Makes the empty list.
    pub fn nil(&mut self) -> Result<Term, Fault>
        ensures answer { MakesFrom (store_of self.old.bank) (store_of self.new.bank) []
            (Some (Items none none)) result }
        ensures beside { IsSameButBank self.old self.new }
    {
        term_or_fault(self.bank.nil())
    }

    /// Makes the list of an item and the items of a list. `Kind` if the tail is not a list without
    /// annotations.
    pub fn cons(&mut self, head: Term, tail: Term) -> Result<Term, Fault>
        ensures answer { let w = store_of self.old.bank in
            MakesFrom w (store_of self.new.bank) (head.0 ∷ tail.0 ∷ [])
            (longer (tree_at w head) (tree_at w tail)) result }
        ensures beside { IsSameButBank self.old self.new }
    {
        if !self.are_held(&[head.0, tail.0]) {
            return Err(Fault::Stale);
        }
        if !self.is_plain_list(tail) {
            return Err(Fault::Kind);
        }
        term_or_fault(self.bank.cons(head, tail))
    }

    /// Makes a placeholder of a term.
    pub fn hole(&mut self, inner: Term) -> Result<Term, Fault>
        ensures answer { let w = store_of self.old.bank in
            MakesFrom w (store_of self.new.bank) (inner.0 ∷ [])
            (held_open (tree_at w inner)) result }
        ensures beside { IsSameButBank self.old self.new }
    {
        if !self.are_held(&[inner.0]) {
            return Err(Fault::Stale);
        }
        term_or_fault(self.bank.hole(inner))
    }

    /// Makes a term whose annotations are replaced by the items of a list. `Kind` if the list has
    /// annotations itself, or is not a list.
    pub fn annotate(&mut self, t: Term, anns: Term) -> Result<Term, Fault>
        ensures answer { let w = store_of self.old.bank in
            MakesFrom w (store_of self.new.bank) (t.0 ∷ anns.0 ∷ [])
            (noted (tree_at w t) (tree_at w anns)) result }
        ensures beside { IsSameButBank self.old self.new }
    {
        if !self.are_held(&[t.0, anns.0]) {
            return Err(Fault::Stale);
        }
        if !self.is_plain_list(anns) {
            return Err(Fault::Kind);
        }
        term_or_fault(self.bank.annotate(t, anns))
    }

    /// Applies a name to the terms of these numbers. `Name` if the name is not quoted, not empty
    /// and not a plain name; `Full` if all cells are in use, or if the name is new and the number
    /// of names is at its limit.
    pub fn appl(&mut self, name: &[u8], quoted: bool, args: &[u32]) -> Result<Term, Fault>
        ensures answer { Applies self.old.bank.most_names (store_of self.old.bank)
            (store_of self.new.bank) name.now quoted args.now result }
        ensures beside { IsSameButBank self.old self.new }
    {
        if !quoted && !plain_name(name) && !name.is_empty() {
            return Err(Fault::Name);
        }
        let Ok(arity) = u32::try_from(args.len()) else {
            return Err(Fault::Range);
        };
        if !self.are_held(args) {
            return Err(Fault::Stale);
        }
        term_or_fault(apply_name(&mut self.bank, name, quoted, arity, args))
    }
}

/// Applies a name to the terms of these numbers, which are in the store.
fn apply_name(
    bank: &mut Bank,
    name: &[u8],
    quoted: bool,
    arity: u32,
    args: &[u32],
) -> Result<Term, BankFault>
    requires name { IsAllowed name.now quoted }
    requires args { IsTrue (are_held (store_of bank.old) args.now) }
    requires arity { arity ≡ length args.now }
    ensures grows { Grows (store_of bank.old) (store_of bank.new) }
    ensures made { IfOk result (λ r. IsApplication (store_of bank.old) name.now quoted args.now
        (tree_at (store_of bank.new) r)) }
    ensures limit { IfOk result
        (λ r. KeepsLimit bank.old.most_names (store_of bank.old) (store_of bank.new)) }
    ensures full { IfErr result (IsNameFault bank.old.most_names (store_of bank.old)
        (store_of bank.new) (record { name = name.now; quoted = quoted; arity = arity })) }
    ensures beside { IsSameButTerms bank.old bank.new }
{
    let symbol = bank.symbol(name, quoted, arity)?;
    apply_symbol(bank, symbol, args)
}

/// Applies a symbol to the terms of these numbers, which are in the store.
pub(crate) fn apply_symbol(bank: &mut Bank, symbol: Symbol, args: &[u32]) -> Result<Term, BankFault>
    requires symbol { IsSome (signature_of (store_of bank.old) symbol) }
    requires args { IsTrue (are_held (store_of bank.old) args.now) }
    requires arity { (g : Signature) → signature_of (store_of bank.old) symbol ≡ Some g
        → g.arity ≡ length args.now }
    ensures grows { Grows (store_of bank.old) (store_of bank.new) }
    ensures made { IfOk result (λ r. (g : Signature)
        → signature_of (store_of bank.old) symbol ≡ Some g
        → IsApplication (store_of bank.old) g.name g.quoted args.now
        (tree_at (store_of bank.new) r)) }
    ensures full { IfErr result (IsRoomFault (store_of bank.new)) }
    ensures added { IfErr result
        (λ e. AddsRests (store_of bank.old) (store_of bank.new) args.now) }
    ensures named { (store_of bank.new).symbols ≡ (store_of bank.old).symbols }
    ensures beside { IsSameButTerms bank.old bank.new }
{
    let list = list(bank, args)?;
    bank.appl(symbol, list)
}

/// Makes the list of the terms of these numbers, which are in the store.
fn list(bank: &mut Bank, items: &[u32]) -> Result<Term, BankFault>
    requires { IsTrue (are_held (store_of bank.old) items.now) }
    ensures grows { Grows (store_of bank.old) (store_of bank.new) }
    ensures made { IfOk result (λ r. Lists (store_of bank.old) (terms_of items.now)
        (tree_at (store_of bank.new) r)) }
    ensures full { IfErr result (IsRoomFault (store_of bank.new)) }
    ensures added { AddsRests (store_of bank.old) (store_of bank.new) items.now }
    ensures named { (store_of bank.new).symbols ≡ (store_of bank.old).symbols }
    ensures beside { IsSameButTerms bank.old bank.new }
{
    let mut list = bank.nil()?;
    let mut left = items.len();
    while left > 0 {
        left -= 1;
        list = bank.cons(Term(items[left]), list)?;
    }
    Ok(list)
}
