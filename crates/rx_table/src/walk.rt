//! The different subterms of a tree, in the order of a walk.

ghost use Rattle.std.specs.Prelude.{◌≡◌, ◌<◌, ◌≤◌, IfOk, IsSome, OnOk, [], length};
ghost use Rattle.rx_term.specs.Tree.{Tree, annotations, items_of, to_list};
ghost use Rattle.rx_term.specs.Store.{Store, tree_at};
ghost use Rattle.rx_term.specs.Walks.{held_tree};
ghost use Rattle.rx_table.specs.Table.{direct};
ghost use Rattle.rx_table.specs.Inner.Walk.{AreBelow, Enters, HasParts, IsList, Leaves, Pushes};
ghost use Rattle.rx_table.specs.Inner.Walk.{body_items, part_tree, trees_at};

use crate::term_index::TermIndex;
use rx_term::{Kind, Term, TermBank};
use std::alloc::{AllocError, Global};

/// The next visit of a walk.
#[derive(Clone, Copy, Drop)]
pub(crate) enum Visit {
    /// Enters a tree.
    Enter(Term),
    /// Leaves a tree. The finished trees from this place on are those one step inside of it.
    Leave(Term, usize),
}

/// The parts of a tree: its different subterms, each after those inside of it, from left to right.
#[derive(Drop)]
pub(crate) struct Parts {
    /// Their references.
    pub(crate) terms: TermIndex,
    /// The indices of the trees one step inside of the first part, of the second part, and so on.
    pub(crate) inside: Vec<u32>,
    /// Where those of each part begin in `inside`, and where the last of them end.
    bounds: Vec<usize>,
}

/// Pushes the items of a list.
fn push_items<B: TermBank>(bank: &B, list: Term, items: &mut Vec<Term>) -> Result<(), AllocError>
    requires { IsList (B.store bank.now) list }
    ensures { OnOk result (Pushes (B.store bank.now) items.old.items items.new.items
        (to_list (items_of (held_tree (B.store bank.now) list)))) }
{
    let mut rest = list;
    while let Kind::Cons = bank.kind(rest) {
        items.push(bank.head(rest))?;
        rest = bank.tail(rest);
    }
    Ok(())
}

/// Pushes the items, the arguments or the inner tree of a tree.
fn push_inside<B: TermBank>(bank: &B, t: Term, inside: &mut Vec<Term>) -> Result<(), AllocError>
    requires { IsSome (tree_at (B.store bank.now) t) }
    ensures { OnOk result (Pushes (B.store bank.now) inside.old.items inside.new.items
        (body_items (held_tree (B.store bank.now) t))) }
{
    match bank.kind(t) {
        Kind::Int(_) | Kind::Nil => Ok(()),
        Kind::Cons => push_items(bank, t, inside),
        Kind::Appl(_) => push_items(bank, bank.args(t), inside),
        Kind::Hole => {
            inside.push(bank.inner(t))?;
            Ok(())
        }
    }
}

/// Pushes the annotations of a tree.
fn push_anns<B: TermBank>(bank: &B, t: Term, inside: &mut Vec<Term>) -> Result<(), AllocError>
    requires { IsSome (tree_at (B.store bank.now) t) }
    ensures { OnOk result (Pushes (B.store bank.now) inside.old.items inside.new.items
        (to_list (annotations (held_tree (B.store bank.now) t)))) }
{
    match bank.anns(t) {
        Some(anns) => push_items(bank, anns, inside),
        None => Ok(()),
    }
}

/// Pushes the trees one step inside of a tree.
fn push_direct<B: TermBank>(bank: &B, t: Term, inside: &mut Vec<Term>) -> Result<(), AllocError>
    requires { IsSome (tree_at (B.store bank.now) t) }
    ensures { OnOk result (Pushes (B.store bank.now) inside.old.items inside.new.items
        (direct (held_tree (B.store bank.now) t))) }
{
    push_inside(bank, t, inside)?;
    push_anns(bank, t, inside)
}

/// Enters a tree when there are `start` finished trees: the trees inside of it are visited next, from
/// left to right, and then the tree is left. The buffer `inside` is empty before and afterwards.
fn enter<B: TermBank>(
    bank: &B,
    t: Term,
    start: usize,
    inside: &mut Vec<Term>,
    visits: &mut Vec<Visit>,
) -> Result<(), AllocError>
    requires held { IsSome (tree_at (B.store bank.now) t) }
    requires empty { inside.old.items ≡ [] }
    ensures empty { OnOk result (inside.new.items ≡ []) }
    ensures enters { OnOk result
        (Enters (B.store bank.now) t start visits.old.items visits.new.items) }
{
    push_direct(bank, t, inside)?;
    visits.push(Visit::Leave(t, start))?;
    while let Some(next) = inside.pop() {
        visits.push(Visit::Enter(next))?;
    }
    Ok(())
}

/// Leaves a tree: it is the next part, if it is not one already, and a finished tree in place of
/// those one step inside of it, which are the finished trees from `start` on.
fn leave(
    t: Term,
    start: usize,
    parts: &mut Parts,
    finished: &mut Vec<u32>,
) -> Result<(), AllocError>
    requires { start ≤ length finished.old.items }
    ensures { OnOk result
        (Leaves t start parts.old finished.old.items parts.new finished.new.items) }
{
    let (index, is_new) = parts.terms.add(t.0)?;
    if is_new {
        parts.inside.extend_from_slice(&finished[start..])?;
        parts.bounds.push(parts.inside.len())?;
    }
    finished.truncate(start);
    finished.push(index as u32)?;
    Ok(())
}

/// Returns the parts of a tree. Looks a reference up once for each tree one step inside of a part.
/// Takes time in proportion to the cells of the tree, and to 1/1,024 of the greatest reference of a
/// part. Reports out of memory also if there are more than 2,147,483,648 parts.
pub(crate) fn find_parts<B: TermBank>(alloc: Global, bank: &B, t: Term) -> Result<Parts, AllocError>
    requires { IsSome (tree_at (B.store bank.now) t) }
    ensures { IfOk result (HasParts (B.store bank.now) (held_tree (B.store bank.now) t)) }
{
    let mut parts = Parts {
        terms: TermIndex::new(alloc),
        inside: Vec::new(alloc),
        bounds: Vec::new(alloc),
    };
    parts.bounds.push(0)?;
    let mut finished = Vec::new(alloc);
    let mut inside = Vec::new(alloc);
    let mut visits = Vec::new(alloc);
    visits.push(Visit::Enter(t))?;
    while let Some(visit) = visits.pop() {
        match visit {
            Visit::Enter(t) => match parts.terms.index_of(t.0) {
                Some(index) => finished.push(index as u32)?,
                None => enter(bank, t, finished.len(), &mut inside, &mut visits)?,
            },
            Visit::Leave(t, start) => leave(t, start, &mut parts, &mut finished)?,
        }
    }
    Ok(parts)
}

/// Returns the indices of the trees one step inside of the part with this index.
pub(crate) fn inside_of(parts: &Parts, index: usize) -> &[u32]
    requires index { index < length parts.now.terms.keys }
    requires parts { (w : Store) × ((t : Tree) × HasParts w t parts.now) }
    ensures below { AreBelow index result.now }
    ensures trees { (w : Store) (t : Tree) → HasParts w t parts.now
        → trees_at w parts.now.terms.keys result.now
        ≡ direct (part_tree w parts.now.terms.keys index) }
{
    &parts.inside[parts.bounds[index]..parts.bounds[index + 1]]
}
