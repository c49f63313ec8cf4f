//! Terms that are made, in one store, of the parts of a term of another store.

ghost use Rattle.std.specs.Prelude.{◌≡◌, ◌+◌, ◌<◌, ◌≤◌, IfErr, IfOk, IsSome, Some, length, map};
ghost use Rattle.rx_term.specs.Tree.{
  Tree,
  Trees,
  annotated,
  annotations,
  list_of,
  none,
  to_list,
};
ghost use Rattle.rx_term.specs.Store.{signature_of, tree_at};
ghost use Rattle.rx_term.specs.Steps.{Grows, IsBankRefusal};
ghost use Rattle.rx_term.specs.Walks.{HaveTrees, held_tree};
ghost use Rattle.rx_table.specs.Table.{direct};
ghost use Rattle.rx_table.specs.Inner.Walk.{AreBelow, HasParts, body_items, part_tree};
ghost use Rattle.rx_table.specs.Inner.Made.{AreMade, IsBare, picked, remade};

use crate::walk::{Parts, inside_of};
use rx_term::{BankFault, Kind, Symbol, Term, TermBank};
use std::alloc::{AllocError, Global};

/// Makes the list of these terms.
fn make_list<C: TermBank>(items: &[Term], to: &mut C) -> Result<Term, BankFault>
    requires { (us : Trees) × HaveTrees (C.store to.old) items.now (to_list us) }
    ensures list { IfOk result (λ r. (us : Trees)
        → HaveTrees (C.store to.old) items.now (to_list us)
        → tree_at (C.store to.new) r ≡ Some (list_of us)) }
    ensures refused { IfErr result (IsBankRefusal (C.store to.new)) }
    ensures grows { Grows (C.store to.old) (C.store to.new) }
{
    let mut list = to.nil()?;
    let mut end = items.len();
    while end > 0 {
        end -= 1;
        list = to.cons(items[end], list)?;
    }
    Ok(list)
}

/// Returns the symbol of the store `to` that has the signature of a symbol of the store `from`.
fn symbol_in<B: TermBank, C: TermBank>(
    from: &B,
    symbol: Symbol,
    to: &mut C,
) -> Result<Symbol, BankFault>
    requires { IsSome (signature_of (B.store from.now) symbol) }
    ensures symbol { IfOk result (λ s. signature_of (C.store to.new) s
        ≡ signature_of (B.store from.now) symbol) }
    ensures refused { IfErr result (IsBankRefusal (C.store to.new)) }
    ensures grows { Grows (C.store to.old) (C.store to.new) }
{
    let name = from.name_of(symbol);
    to.symbol(name, from.quoted_of(symbol), from.arity_of(symbol))
}

/// Makes a tree without its annotations of the terms `items`, which were made of its items, its
/// arguments or its inner tree.
fn make_body<B: TermBank, C: TermBank>(
    from: &B,
    t: Term,
    items: &[Term],
    to: &mut C,
) -> Result<Term, BankFault>
    requires held { IsSome (tree_at (B.store from.now) t) }
    requires items { (f : Tree → Tree) × HaveTrees (C.store to.old) items.now
        (map f (body_items (held_tree (B.store from.now) t))) }
    ensures body { IfOk result (λ r. (f : Tree → Tree) → HaveTrees (C.store to.old) items.now
        (map f (body_items (held_tree (B.store from.now) t))) → tree_at (C.store to.new) r
        ≡ Some (remade f (annotated (held_tree (B.store from.now) t) none))) }
    ensures refused { IfErr result (IsBankRefusal (C.store to.new)) }
    ensures grows { Grows (C.store to.old) (C.store to.new) }
{
    match from.kind(t) {
        Kind::Int(value) => to.int(value),
        Kind::Nil => to.nil(),
        Kind::Cons => make_list(items, to),
        Kind::Appl(symbol) => {
            let args = make_list(items, to)?;
            let symbol = symbol_in(from, symbol, to)?;
            to.appl(symbol, args)
        }
        Kind::Hole => to.hole(items[0]),
    }
}

/// Annotates `body` with the terms `notes`.
fn annotate<C: TermBank>(body: Term, notes: &[Term], to: &mut C) -> Result<Term, BankFault>
    requires body { IsBare (C.store to.old) body }
    requires notes { (us : Trees) × HaveTrees (C.store to.old) notes.now (to_list us) }
    ensures annotated { IfOk result (λ r. (u : Tree) (us : Trees)
        → tree_at (C.store to.old) body ≡ Some u
        → HaveTrees (C.store to.old) notes.now (to_list us)
        → tree_at (C.store to.new) r ≡ Some (annotated u us)) }
    ensures refused { IfErr result (IsBankRefusal (C.store to.new)) }
    ensures grows { Grows (C.store to.old) (C.store to.new) }
{
    if notes.is_empty() {
        return Ok(body);
    }
    let list = make_list(notes, to)?;
    to.annotated(body, list)
}

/// Returns how many of the `count` trees one step inside of a tree come before its annotations.
fn body_count<B: TermBank>(bank: &B, t: Term, count: usize) -> usize
    requires held { IsSome (tree_at (B.store bank.now) t) }
    requires count { count ≡ length (direct (held_tree (B.store bank.now) t)) }
    ensures { result ≡ length (body_items (held_tree (B.store bank.now) t)) }
{
    let Some(mut rest) = bank.anns(t) else {
        return count;
    };
    let mut left = count;
    while let Kind::Cons = bank.kind(rest) {
        left -= 1;
        rest = bank.tail(rest);
    }
    left
}

/// Makes a tree of the terms `items`, which were made of the trees one step inside of it.
fn make_part<B: TermBank, C: TermBank>(
    from: &B,
    t: Term,
    items: &[Term],
    to: &mut C,
) -> Result<Term, BankFault>
    requires held { IsSome (tree_at (B.store from.now) t) }
    requires items { (f : Tree → Tree) × HaveTrees (C.store to.old) items.now
        (map f (direct (held_tree (B.store from.now) t))) }
    ensures part { IfOk result (λ r. (f : Tree → Tree) → HaveTrees (C.store to.old) items.now
        (map f (direct (held_tree (B.store from.now) t)))
        → tree_at (C.store to.new) r ≡ Some (remade f (held_tree (B.store from.now) t))) }
    ensures refused { IfErr result (IsBankRefusal (C.store to.new)) }
    ensures grows { Grows (C.store to.old) (C.store to.new) }
{
    let (items, notes) = items.split_at(body_count(from, t, items.len()));
    let body = make_body(from, t, items, to)?;
    annotate(body, notes, to)
}

/// Returns the terms with these indices.
fn pick(alloc: Global, made: &[Term], inside: &[u32]) -> Result<Vec<Term>, AllocError>
    requires { AreBelow (length made.now) inside.now }
    ensures { IfOk result (λ found. found.items ≡ picked made.now inside.now) }
{
    let mut found = Vec::new(alloc);
    for index in inside {
        found.push(made[*index as usize])?;
    }
    Ok(found)
}

/// Makes the part that follows those that the terms `made` were made of.
pub(crate) fn make_next<B: TermBank, C: TermBank>(
    from: &B,
    parts: &Parts,
    made: &[Term],
    to: &mut C,
) -> Result<Term, BankFault>
    requires next { length made.now < length parts.now.terms.keys }
    requires parts { (t : Tree) × HasParts (B.store from.now) t parts.now }
    requires made { (f : Tree → Tree)
        × AreMade (B.store from.now) parts.now.terms.keys f (C.store to.old) made.now }
    ensures part { IfOk result (λ r. (f : Tree → Tree)
        → AreMade (B.store from.now) parts.now.terms.keys f (C.store to.old) made.now
        → tree_at (C.store to.new) r ≡ Some (remade f
        (part_tree (B.store from.now) parts.now.terms.keys (length made.now)))) }
    ensures refused { IfErr result (IsBankRefusal (C.store to.new)) }
    ensures grows { Grows (C.store to.old) (C.store to.new) }
{
    let alloc = *parts.inside.allocator();
    let index = made.len();
    let Ok(items) = pick(alloc, made, inside_of(parts, index)) else {
        return Err(BankFault::Memory);
    };
    let part = Term(parts.terms.as_slice()[index]);
    make_part(from, part, &items, to)
}
