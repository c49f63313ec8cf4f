//! Matching the nodes of a pattern with a term.

ghost use Rattle.std.specs.Prelude.{◌≡◌, ◌&&◌, ◌++◌, ◌∷◌, [], map, bytes_eq};
ghost use Rattle.std.specs.Prelude.{IsSome, IsTrue, IfOk, IfErr, OnOk, Some};
ghost use Rattle.std.specs.Bool.{beq};
ghost use Rattle.rx_term.specs.Name.{Signature};
ghost use Rattle.rx_term.specs.Tree.{Tree, Trees, list_of};
ghost use Rattle.rx_term.specs.Store.{tree_at, signature_of};
ghost use Rattle.rx_term.specs.Steps.{Grows};
ghost use Rattle.rx_pattern.specs.Matching.{matching};
ghost use Rattle.rx_pattern.specs.Code.{Number, Named, Listing, Item, Piece, One, Several};
ghost use Rattle.rx_pattern.specs.Pattern.{fits};
ghost use Rattle.rx_pattern.specs.Nodes.{kind_of_class, step_of, tree_of_nodes, AreNodes};
ghost use Rattle.rx_pattern.specs.Subjects.{IsListed, Stands, Suits, meets, Met, MetOrNot, Answers};
ghost use Rattle.rx_pattern.specs.Held.{AddsOnlyLists};
ghost use Rattle.rx_pattern.specs.Faults.{IsMatchRefusal};

use crate::faults::PatternFault;
use crate::lists::{is_empty, plain_list};
use crate::nodes::{Class, Name, Node};
use crate::words::fits;
use rx_term::{Kind, Symbol, Term, TermBank};
use std::alloc::Global;

/// Returns whether the tree is this integer; pushes its annotations.
fn match_integer<B: TermBank>(
    bank: &B,
    value: i32,
    t: Term,
    subjects: &mut Vec<Option<Term>>,
) -> Result<bool, PatternFault>
    requires { IsSome (tree_at (B.store bank.now) t) }
    ensures met { IfOk result (λ matched. (u : Tree) → tree_at (B.store bank.now) t ≡ Some u
        → Met (B.store bank.now) (meets (Number value) (One u)) subjects.old.items
        subjects.new.items matched) }
    ensures refused { IfErr result (λ fault. fault ≡ PatternFault.Memory) }
{
    let Kind::Int(other) = bank.kind(t) else {
        return Ok(false);
    };
    if other != value {
        return Ok(false);
    }
    subjects.push(bank.anns(t))?;
    Ok(true)
}

/// Returns whether the symbol has this name.
fn is_name<B: TermBank>(bank: &B, symbol: Symbol, name: &Name) -> bool
    requires { IsSome (signature_of (B.store bank.now) symbol) }
    ensures { (g : Signature) → signature_of (B.store bank.now) symbol ≡ Some g
        → result ≡ (bytes_eq name.now.bytes.items g.name && beq name.now.quoted g.quoted) }
{
    name.bytes.as_slice() == bank.name_of(symbol) && name.quoted == bank.quoted_of(symbol)
}

/// Returns whether the tree is an application of this name; pushes its annotations and then its
/// arguments, which come first.
fn match_application<B: TermBank>(
    bank: &B,
    name: &Name,
    t: Term,
    subjects: &mut Vec<Option<Term>>,
) -> Result<bool, PatternFault>
    requires { IsSome (tree_at (B.store bank.now) t) }
    ensures met { IfOk result (λ matched. (u : Tree) → tree_at (B.store bank.now) t ≡ Some u
        → Met (B.store bank.now) (meets (Named name.now.bytes.items name.now.quoted) (One u))
        subjects.old.items subjects.new.items matched) }
    ensures refused { IfErr result (λ fault. fault ≡ PatternFault.Memory) }
{
    let Kind::Appl(symbol) = bank.kind(t) else {
        return Ok(false);
    };
    if !is_name(bank, symbol, name) {
        return Ok(false);
    }
    let anns = bank.anns(t);
    let args = Some(bank.args(t));
    subjects.push(anns)?;
    subjects.push(args)?;
    Ok(true)
}

/// Returns whether the tree is a list; pushes its annotations and then its items, which come first.
fn match_list<B: TermBank>(
    bank: &B,
    t: Term,
    subjects: &mut Vec<Option<Term>>,
) -> Result<bool, PatternFault>
    requires { IsSome (tree_at (B.store bank.now) t) }
    ensures met { IfOk result (λ matched. (u : Tree) → tree_at (B.store bank.now) t ≡ Some u
        → Met (B.store bank.now) (meets (Listing) (One u)) subjects.old.items
        subjects.new.items matched) }
    ensures refused { IfErr result (λ fault. fault ≡ PatternFault.Memory) }
{
    if !fits(bank, Class::List, t) {
        return Ok(false);
    }
    subjects.push(bank.anns(t))?;
    subjects.push(Some(t))?;
    Ok(true)
}

/// Returns whether the list has an item; pushes the other items and then the first one.
fn match_item<B: TermBank>(
    bank: &B,
    list: Option<Term>,
    subjects: &mut Vec<Option<Term>>,
) -> Result<bool, PatternFault>
    requires { (ts : Trees) × IsListed (B.store bank.now) list ts }
    ensures met { IfOk result (λ matched. (ts : Trees) → IsListed (B.store bank.now) list ts
        → Met (B.store bank.now) (meets Item (Several ts)) subjects.old.items
        subjects.new.items matched) }
    ensures refused { IfErr result (λ fault. fault ≡ PatternFault.Memory) }
{
    if is_empty(bank, list) {
        return Ok(false);
    }
    let list = list.unwrap();
    subjects.push(Some(bank.tail(list)))?;
    subjects.push(Some(bank.head(list)))?;
    Ok(true)
}

/// Returns whether a placeholder fits the tree, and appends the tree to the bindings.
fn match_placeholder<B: TermBank>(
    bank: &B,
    class: Class,
    t: Term,
    out: &mut Vec<Term>,
) -> Result<bool, PatternFault>
    requires { IsSome (tree_at (B.store bank.now) t) }
    ensures fits { IfOk result (λ matched. (u : Tree) → tree_at (B.store bank.now) t ≡ Some u
        → matched ≡ fits (kind_of_class class) u) }
    ensures bound { IfOk result
        (λ matched. IsTrue matched → out.new.items ≡ out.old.items ++ t ∷ []) }
    ensures refused { IfErr result (λ fault. fault ≡ PatternFault.Memory) }
{
    if !fits(bank, class, t) {
        return Ok(false);
    }
    out.push(t)?;
    Ok(true)
}

/// Appends the items of a list to the bindings, as a list without annotations.
fn bind_rest<B: TermBank>(
    bank: &mut B,
    list: Option<Term>,
    out: &mut Vec<Term>,
) -> Result<(), PatternFault>
    requires { (ts : Trees) × IsListed (B.store bank.old) list ts }
    ensures bound { OnOk result ((r : Term) × (out.new.items ≡ out.old.items ++ r ∷ [])
        × ((ts : Trees) → IsListed (B.store bank.old) list ts
        → tree_at (B.store bank.new) r ≡ Some (list_of ts))) }
    ensures refused { IfErr result (IsMatchRefusal (B.store bank.new)) }
    ensures grows { Grows (B.store bank.old) (B.store bank.new) }
    ensures added { AddsOnlyLists (B.store bank.old) (B.store bank.new) }
{
    let rest = plain_list(bank, list)?;
    out.push(rest)?;
    Ok(())
}

/// Returns whether the node matches the start of its subject; pushes what remains of the subject.
fn match_node<B: TermBank>(
    bank: &mut B,
    node: &Node,
    subject: Option<Term>,
    subjects: &mut Vec<Option<Term>>,
    out: &mut Vec<Term>,
) -> Result<bool, PatternFault>
    requires { (v : Piece) × Stands (B.store bank.old) subject v × Suits (step_of node.now) v }
    ensures met { IfOk result (λ matched. (v : Piece) → Stands (B.store bank.old) subject v
        → Suits (step_of node.now) v → MetOrNot (B.store bank.old) (B.store bank.new)
        (meets (step_of node.now) v) subjects.old.items subjects.new.items out.old.items
        out.new.items matched) }
    ensures refused { IfErr result (IsMatchRefusal (B.store bank.new)) }
    ensures grows { Grows (B.store bank.old) (B.store bank.new) }
    ensures added { AddsOnlyLists (B.store bank.old) (B.store bank.new) }
{
    match node {
        Node::Integer(value) => match_integer(bank, *value, subject.unwrap(), subjects),
        Node::Application(name) => match_application(bank, name, subject.unwrap(), subjects),
        Node::List => match_list(bank, subject.unwrap(), subjects),
        Node::Placeholder(class) => match_placeholder(bank, *class, subject.unwrap(), out),
        Node::End => Ok(is_empty(bank, subject)),
        Node::Item => match_item(bank, subject, subjects),
        Node::Rest => {
            bind_rest(bank, subject, out)?;
            Ok(true)
        }
    }
}

/// Returns whether the nodes match the tree, and the bindings in `out`, which is empty before.
pub fn match_nodes<B: TermBank>(
    alloc: Global,
    nodes: &[Node],
    bank: &mut B,
    t: Term,
    out: &mut Vec<Term>,
) -> Result<bool, PatternFault>
    requires nodes { AreNodes nodes.now }
    requires held { IsSome (tree_at (B.store bank.old) t) }
    requires empty { out.old.items ≡ [] }
    ensures answer { IfOk result (λ found. (u : Tree) → tree_at (B.store bank.old) t ≡ Some u
        → Answers (B.store bank.new) (matching (tree_of_nodes nodes.now) u) out.new.items found) }
    ensures refused { IfErr result (IsMatchRefusal (B.store bank.new)) }
    ensures grows { Grows (B.store bank.old) (B.store bank.new) }
    ensures added { AddsOnlyLists (B.store bank.old) (B.store bank.new) }
{
    let mut subjects = Vec::new(alloc);
    subjects.push(Some(t))?;
    for node in nodes {
        let subject = subjects.pop().unwrap();
        if !match_node(bank, node, subject, &mut subjects, out)? {
            return Ok(false);
        }
    }
    Ok(true)
}
