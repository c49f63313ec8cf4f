//! The interface of a term store, with its contracts.

ghost use Rattle.std.specs.Prelude.{
  ◌≡◌,
  ◌-◌,
  ◌<◌,
  IsSome,
  is_some,
  Some,
  Contains,
};
ghost use Rattle.rx_term.specs.Tree.{Int, Items, none};
ghost use Rattle.rx_term.specs.Name.{IsAllowed};
ghost use Rattle.rx_term.specs.Store.{
  Store,
  tree_at,
  signature_of,
  cells,
  part_at,
  head_of,
  tail_of,
  args_of,
  inner_of,
  longer,
  applied,
  held_open,
  noted,
  name_at,
  quoted_at,
  arity_at,
};
ghost use Rattle.rx_term.specs.Kinds.{HasKind, HasAnns};
ghost use Rattle.rx_term.specs.Steps.{
  MakesOrRefuses,
  AddsOrRefuses,
  ReservesOrRefuses,
  ProtectsOrRefuses,
  Reclaims,
  IsSound,
  with_count,
};
ghost use Rattle.rx_term.specs.declared.Term.{Term};

use crate::{BankFault, Kind, RootsFull, Symbol, Term};

/// A store of terms with maximal sharing: one reference for each tree that it has.
///
/// **Making terms.** If the store has the tree already, its reference is returned and nothing
/// changes. Otherwise one cell is used. These functions fail only if no cell is spare: with
/// [`BankFault::Full`] if as many cells are in use as the limit allows, otherwise with
/// [`BankFault::Memory`]. After an error all trees, symbols and protections are unchanged.
pub trait TermBank {
    ghost store: { Self → Store };

    /// Returns the symbol with this name, flag and number of arguments. The name has to be plain,
    /// quoted or empty. The only error is `Memory`; nothing changes then.
    fn symbol(&mut self, name: &[u8], quoted: bool, arity: u32) -> Result<Symbol, BankFault>
        requires { IsAllowed name.now quoted }
        ensures { AddsOrRefuses (store self.old) (store self.new)
            (record { name = name.now; quoted = quoted; arity = arity }) result };

    /// Returns the reference of an integer. Fails like all functions that make terms.
    fn int(&mut self, z: i32) -> Result<Term, BankFault>
        ensures { MakesOrRefuses (store self.old) (store self.new) (Some (Int z none)) result };

    /// Returns the reference of the empty list. Fails like all functions that make terms.
    fn nil(&mut self) -> Result<Term, BankFault>
        ensures { MakesOrRefuses (store self.old) (store self.new)
            (Some (Items none none)) result };

    /// Returns the reference of the list `tail` with `head` before its items. `tail` is a list
    /// without annotations. Fails like all functions that make terms.
    fn cons(&mut self, head: Term, tail: Term) -> Result<Term, BankFault>
        requires { let w = store self.old in IsSome (longer (tree_at w head) (tree_at w tail)) }
        ensures { let w = store self.old in
            MakesOrRefuses w (store self.new) (longer (tree_at w head) (tree_at w tail)) result };

    /// Returns the reference of `sym` applied to the items of `args`: a list without annotations,
    /// with as many items as the symbol has arguments. Fails like all functions that make terms.
    fn appl(&mut self, sym: Symbol, args: Term) -> Result<Term, BankFault>
        requires { let w = store self.old in
            IsSome (applied (signature_of w sym) (tree_at w args)) }
        ensures { let w = store self.old in
            MakesOrRefuses w (store self.new)
            (applied (signature_of w sym) (tree_at w args)) result };

    /// Returns the reference of a placeholder of `inner`. Fails like all functions that make terms.
    fn hole(&mut self, inner: Term) -> Result<Term, BankFault>
        requires { IsSome (tree_at (store self.old) inner) }
        ensures { let w = store self.old in
            MakesOrRefuses w (store self.new) (held_open (tree_at w inner)) result };

    /// Returns the reference of the tree of `t` with the items of `anns`, a list without
    /// annotations, in place of its own annotations. Fails like all functions that make terms.
    fn annotated(&mut self, t: Term, anns: Term) -> Result<Term, BankFault>
        requires { let w = store self.old in IsSome (noted (tree_at w t) (tree_at w anns)) }
        ensures { let w = store self.old in
            MakesOrRefuses w (store self.new) (noted (tree_at w t) (tree_at w anns)) result };

    /// Returns the kind of a term.
    fn kind(&self, t: Term) -> Kind
        requires { IsSome (tree_at (store self.now) t) }
        ensures { HasKind (store self.now) t result };

    /// Returns the first item of a list that is not empty.
    fn head(&self, t: Term) -> Term
        requires { IsSome (part_at head_of (store self.now) t) }
        ensures { tree_at (store self.now) result ≡ part_at head_of (store self.now) t };

    /// Returns a list without its first item and without annotations.
    fn tail(&self, t: Term) -> Term
        requires { IsSome (part_at tail_of (store self.now) t) }
        ensures { tree_at (store self.now) result ≡ part_at tail_of (store self.now) t };

    /// Returns the arguments of an application, as a list.
    fn args(&self, t: Term) -> Term
        requires { IsSome (part_at args_of (store self.now) t) }
        ensures { tree_at (store self.now) result ≡ part_at args_of (store self.now) t };

    /// Returns the term inside a placeholder.
    fn inner(&self, t: Term) -> Term
        requires { IsSome (part_at inner_of (store self.now) t) }
        ensures { tree_at (store self.now) result ≡ part_at inner_of (store self.now) t };

    /// Returns the annotations of a term as a list, or `None` if it has none.
    fn anns(&self, t: Term) -> Option<Term>
        requires { IsSome (tree_at (store self.now) t) }
        ensures { HasAnns (store self.now) t result };

    /// Returns the name of a symbol.
    fn name_of(&self, sym: Symbol) -> &[u8]
        requires { IsSome (signature_of (store self.now) sym) }
        ensures { name_at (store self.now) sym ≡ Some result.now };

    /// Returns whether the name of a symbol is quoted.
    fn quoted_of(&self, sym: Symbol) -> bool
        requires { IsSome (signature_of (store self.now) sym) }
        ensures { quoted_at (store self.now) sym ≡ Some result };

    /// Returns the number of arguments of a symbol.
    fn arity_of(&self, sym: Symbol) -> u32
        requires { IsSome (signature_of (store self.now) sym) }
        ensures { arity_at (store self.now) sym ≡ Some result };

    /// Protects `t` once more: it is a root of garbage collection while its count is above 0.
    /// Returns [`RootsFull`], and changes nothing, if it is protected 65,535 times already.
    fn protect(&mut self, t: Term) -> Result<(), RootsFull>
        requires { IsSome (tree_at (store self.old) t) }
        ensures { ProtectsOrRefuses (store self.old) (store self.new) t result };

    /// Removes one protection of `t`, which has at least one.
    fn unprotect(&mut self, t: Term)
        requires { 0 < (store self.old).roots t.0 }
        ensures { store self.new ≡ with_count (store self.old) t ((store self.old).roots t.0 - 1) };

    /// Collects garbage: keeps exactly the terms that protected terms and those in `extra` reach.
    /// The cell of each other term becomes spare.
    fn reclaim(&mut self, extra: &[Term])
        requires { (t : Term) → Contains extra.now t → IsSome (tree_at (store self.old) t) }
        ensures { Reclaims (store self.old) (store self.new) extra.now };

    /// Returns whether the store has this reference.
    fn holds(&self, t: Term) -> bool
        ensures { result ≡ is_some (tree_at (store self.now) t) };

    /// Returns the number of cells in use, which is the number of references.
    fn cells(&self) -> u32
        ensures { result ≡ cells (store self.now) };

    /// Returns the number of terms that can be made without new memory.
    fn spare(&self) -> u32
        ensures { result ≡ (store self.now).spare };

    /// Returns the cell limit.
    fn cap(&self) -> u32
        ensures { result ≡ (store self.now).cap };

    /// Makes room for `k` more cells, so that the next `k` new terms need no memory. Returns `Full`
    /// if that would pass the limit, `Memory` if an allocation failed.
    fn reserve(&mut self, k: u32) -> Result<(), BankFault>
        ensures { ReservesOrRefuses (store self.old) (store self.new) k result };

    ghost sound: { (b : Self) → IsSound (store b) };
}
