//! Making a term from the nodes of a pattern.

ghost use Rattle.std.specs.Prelude.{◌≡◌, ◌<◌, ◌^◌, ◌∷◌, List, map, length, IsSome, IfOk, IfErr};
ghost use Rattle.std.specs.Prelude.{OnOk, Some, None};
ghost use Rattle.rx_term.specs.Name.{IsAllowed};
ghost use Rattle.rx_term.specs.Tree.{Tree, Trees, Int, Appl, Items, none, more, annotated};
ghost use Rattle.rx_term.specs.Tree.{annotations};
ghost use Rattle.rx_term.specs.Store.{tree_at};
ghost use Rattle.rx_term.specs.Steps.{Grows, IsBankRefusal};
ghost use Rattle.rx_term.specs.Walks.{AllHeld, HaveTrees};
ghost use Rattle.rx_pattern.specs.Filling.{filled, takes as takes_rest, Rest as RestBlank};
ghost use Rattle.rx_pattern.specs.Code.{Piece, One, Several, assembled};
ghost use Rattle.rx_pattern.specs.Nodes.{step_of, tree_of_nodes, AreNodes};
ghost use Rattle.rx_pattern.specs.Subjects.{OnStack, IsListed, Stands};
ghost use Rattle.rx_pattern.specs.Making.{is_blank as is_blank_step, takes_as, blanks_of_steps};
ghost use Rattle.rx_pattern.specs.Making.{IsMisfit, HasParts, IsValid};
ghost use Rattle.rx_pattern.specs.Faults.{IsMakeRefusal};

use crate::faults::MakeFault;
use crate::lists::{annotate, count, plain_list};
use crate::nodes::{Class, Name, Node};
use crate::words::fits;
use rx_term::{BankFault, Term, TermBank};
use std::alloc::Global;

/// Returns whether the node is a placeholder or a rest of a list, which takes a term.
fn is_blank(node: &Node) -> bool
    ensures { result ≡ is_blank_step (step_of node.now) }
{
    matches!(node, Node::Placeholder(_) | Node::Rest)
}

/// Returns the number of terms that the nodes take.
pub fn count_blanks(nodes: &[Node]) -> usize
    ensures { result ≡ length (blanks_of_steps (map step_of nodes.now)) }
{
    let mut blanks = 0;
    for node in nodes {
        if is_blank(node) {
            blanks += 1;
        }
    }
    blanks
}

/// Returns whether a tree is a list without annotations.
fn is_plain_list<B: TermBank>(bank: &B, t: Term) -> bool
    requires { IsSome (tree_at (B.store bank.now) t) }
    ensures { (u : Tree) → tree_at (B.store bank.now) t ≡ Some u → result ≡ takes_rest RestBlank u }
{
    fits(bank, Class::List, t) && bank.anns(t).is_none()
}

/// Returns whether a term fits the node, if the node takes one.
fn takes<B: TermBank>(bank: &B, node: &Node, t: Term) -> bool
    requires { IsSome (tree_at (B.store bank.now) t) }
    ensures { (u : Tree) → tree_at (B.store bank.now) t ≡ Some u
        → result ≡ takes_as (step_of node.now) u }
{
    match node {
        Node::Placeholder(class) => fits(bank, *class, t),
        Node::Rest => is_plain_list(bank, t),
        _ => true,
    }
}

/// Returns the reason why these terms do not fit the nodes, or `None` if they fit.
pub fn misfit<B: TermBank>(nodes: &[Node], bank: &B, args: &[Term]) -> Option<MakeFault>
    requires { AllHeld (B.store bank.now) args.now }
    ensures { (bs : List Tree) → HaveTrees (B.store bank.now) args.now bs
        → IsMisfit result (blanks_of_steps (map step_of nodes.now)) bs }
{
    if count_blanks(nodes) != args.len() {
        return Some(MakeFault::Count);
    }
    let mut at = 0;
    for node in nodes {
        if is_blank(node) {
            if !takes(bank, node, args[at]) {
                return Some(MakeFault::Kind { at });
            }
            at += 1;
        }
    }
    None
}

/// Makes the application of a name to the items of a list.
fn apply<B: TermBank>(bank: &mut B, name: &Name, args: Option<Term>) -> Result<Term, BankFault>
    requires list { (ts : Trees) × IsListed (B.store bank.old) args ts }
    requires allowed { IsAllowed name.now.bytes.items name.now.quoted }
    ensures made { IfOk result (λ r. (ts : Trees) → IsListed (B.store bank.old) args ts
        → tree_at (B.store bank.new) r ≡ Some (Appl name.now.bytes.items name.now.quoted ts none)) }
    ensures refused { IfErr result (IsBankRefusal (B.store bank.new)) }
    ensures grows { Grows (B.store bank.old) (B.store bank.new) }
{
    let args = plain_list(bank, args)?;
    let arity = count(bank, args);
    let symbol = bank.symbol(&name.bytes, name.quoted, arity)?;
    bank.appl(symbol, args)
}

/// Pushes the tree with the topmost piece as its annotations.
fn push_noted<B: TermBank>(
    bank: &mut B,
    t: Term,
    made: &mut Vec<Option<Term>>,
) -> Result<(), MakeFault>
    requires bare { (u : Tree) × (tree_at (B.store bank.old) t ≡ Some u) × (annotations u ≡ none) }
    requires newest { (anns : Trees) × ((ps : List Piece)
        × OnStack (Stands (B.store bank.old)) made.old.items (Several anns ∷ ps)) }
    ensures made { OnOk result ((u : Tree) (anns : Trees) (ps : List Piece)
        → tree_at (B.store bank.old) t ≡ Some u
        → OnStack (Stands (B.store bank.old)) made.old.items (Several anns ∷ ps)
        → OnStack (Stands (B.store bank.new)) made.new.items (One (annotated u anns) ∷ ps)) }
    ensures refused { IfErr result (IsMakeRefusal (B.store bank.new)) }
    ensures grows { Grows (B.store bank.old) (B.store bank.new) }
{
    let anns = made.pop().unwrap();
    let whole = annotate(bank, t, anns)?;
    made.push(Some(whole))?;
    Ok(())
}

/// Pushes the integer, with the topmost piece as its annotations.
fn push_integer<B: TermBank>(
    bank: &mut B,
    value: i32,
    made: &mut Vec<Option<Term>>,
) -> Result<(), MakeFault>
    requires { (anns : Trees) × ((ps : List Piece)
        × OnStack (Stands (B.store bank.old)) made.old.items (Several anns ∷ ps)) }
    ensures made { OnOk result ((anns : Trees) (ps : List Piece)
        → OnStack (Stands (B.store bank.old)) made.old.items (Several anns ∷ ps)
        → OnStack (Stands (B.store bank.new)) made.new.items (One (Int value anns) ∷ ps)) }
    ensures refused { IfErr result (IsMakeRefusal (B.store bank.new)) }
    ensures grows { Grows (B.store bank.old) (B.store bank.new) }
{
    let t = bank.int(value)?;
    push_noted(bank, t, made)
}

/// Pushes the application of a name to the topmost piece.
fn push_application<B: TermBank>(
    bank: &mut B,
    name: &Name,
    made: &mut Vec<Option<Term>>,
) -> Result<(), MakeFault>
    requires newest { (args : Trees) × ((anns : Trees) × ((ps : List Piece)
        × OnStack (Stands (B.store bank.old)) made.old.items (Several args ∷ Several anns ∷ ps))) }
    requires allowed { IsAllowed name.now.bytes.items name.now.quoted }
    ensures made { OnOk result ((args anns : Trees) (ps : List Piece)
        → OnStack (Stands (B.store bank.old)) made.old.items (Several args ∷ Several anns ∷ ps)
        → OnStack (Stands (B.store bank.new)) made.new.items
        (One (Appl name.now.bytes.items name.now.quoted args anns) ∷ ps)) }
    ensures refused { IfErr result (IsMakeRefusal (B.store bank.new)) }
    ensures grows { Grows (B.store bank.old) (B.store bank.new) }
{
    let args = made.pop().unwrap();
    let t = apply(bank, name, args)?;
    push_noted(bank, t, made)
}

/// Pushes the list of the items of the topmost piece.
fn push_list<B: TermBank>(bank: &mut B, made: &mut Vec<Option<Term>>) -> Result<(), MakeFault>
    requires { (items : Trees) × ((anns : Trees) × ((ps : List Piece)
        × OnStack (Stands (B.store bank.old)) made.old.items (Several items ∷ Several anns ∷ ps))) }
    ensures made { OnOk result ((items anns : Trees) (ps : List Piece)
        → OnStack (Stands (B.store bank.old)) made.old.items (Several items ∷ Several anns ∷ ps)
        → OnStack (Stands (B.store bank.new)) made.new.items (One (Items items anns) ∷ ps)) }
    ensures refused { IfErr result (IsMakeRefusal (B.store bank.new)) }
    ensures grows { Grows (B.store bank.old) (B.store bank.new) }
{
    let items = made.pop().unwrap();
    let t = plain_list(bank, items)?;
    push_noted(bank, t, made)
}

/// Puts the topmost tree in front of the list below it.
fn push_item<B: TermBank>(bank: &mut B, made: &mut Vec<Option<Term>>) -> Result<(), MakeFault>
    requires { (t : Tree) × ((ts : Trees) × ((ps : List Piece)
        × OnStack (Stands (B.store bank.old)) made.old.items (One t ∷ Several ts ∷ ps))) }
    ensures made { OnOk result ((t : Tree) (ts : Trees) (ps : List Piece)
        → OnStack (Stands (B.store bank.old)) made.old.items (One t ∷ Several ts ∷ ps)
        → OnStack (Stands (B.store bank.new)) made.new.items (Several (more t ts) ∷ ps)) }
    ensures refused { IfErr result (IsMakeRefusal (B.store bank.new)) }
    ensures grows { Grows (B.store bank.old) (B.store bank.new) }
{
    let head = made.pop().unwrap().unwrap();
    let others = made.pop().unwrap();
    let tail = plain_list(bank, others)?;
    let list = bank.cons(head, tail)?;
    made.push(Some(list))?;
    Ok(())
}

/// Replaces the topmost pieces that the node needs by the piece that it makes of them.
fn join<B: TermBank>(
    bank: &mut B,
    node: &Node,
    made: &mut Vec<Option<Term>>,
) -> Result<(), MakeFault>
    requires parts { (ps : List Piece) × OnStack (Stands (B.store bank.old)) made.old.items ps
        × HasParts (step_of node.now) ps }
    requires valid { IsValid (step_of node.now) }
    ensures made { OnOk result ((ps : List Piece)
        → OnStack (Stands (B.store bank.old)) made.old.items ps → HasParts (step_of node.now) ps
        → OnStack (Stands (B.store bank.new)) made.new.items (assembled (step_of node.now) ps)) }
    ensures refused { IfErr result (IsMakeRefusal (B.store bank.new)) }
    ensures grows { Grows (B.store bank.old) (B.store bank.new) }
{
    match node {
        Node::Integer(value) => push_integer(bank, *value, made),
        Node::Application(name) => push_application(bank, name, made),
        Node::List => push_list(bank, made),
        Node::Item => push_item(bank, made),
        _ => {
            made.push(None)?;
            Ok(())
        }
    }
}

/// Makes the tree of the nodes with these terms in place of its placeholders. The nodes are visited
/// from the last to the first, with a stack of finished pieces.
pub fn fill<B: TermBank>(
    alloc: Global,
    nodes: &[Node],
    bank: &mut B,
    args: &[Term],
) -> Result<Term, MakeFault>
    requires nodes { AreNodes nodes.now }
    requires fitting { (bs : List Tree) × HaveTrees (B.store bank.old) args.now bs
        × IsMisfit None (blanks_of_steps (map step_of nodes.now)) bs }
    ensures made { IfOk result (λ r. (bs : List Tree) → HaveTrees (B.store bank.old) args.now bs
        → tree_at (B.store bank.new) r ≡ Some (filled (tree_of_nodes nodes.now) bs).0) }
    ensures refused { IfErr result (IsMakeRefusal (B.store bank.new)) }
    ensures grows { Grows (B.store bank.old) (B.store bank.new) }
{
    let mut made = Vec::new(alloc);
    let mut left = args.len();
    let mut at = nodes.len();
    while at > 0 {
        at -= 1;
        let node = &nodes[at];
        if is_blank(node) {
            left -= 1;
            made.push(Some(args[left]))?;
        } else {
            join(bank, node, &mut made)?;
        }
    }
    Ok(made.pop().unwrap().unwrap())
}
