//! Reads the text of a table: makes its term.
//!
//! The nodes of the text are read once, with a stack of the trees that are not yet part of another
//! tree. In the end these are the elements of the table, so a reference `<k>` opens to the term at the
//! index k of the stack. With each term the stack has the number of elements that have to come before
//! its tree. If no element needs more than come before it, each reference was to a complete element.

ghost use Rattle.std.specs.Prelude.{◌≡◌, ◌↔◌, ◌++◌, ◌∷◌, ◌+◌, ◌<◌, ◌≤◌, [], ℕ, List, None, Some};
ghost use Rattle.std.specs.Prelude.{IfErr, IfOk, IfSome, IsErrOf, IsSome, IsTrue, OnOk, drop};
ghost use Rattle.std.specs.Prelude.{length, map, reverse};
ghost use Rattle.std.specs.List.{AllByRecursion};
ghost use Rattle.rx_term.specs.Tree.{Hole, Int, Items, Tree, more, none};
ghost use Rattle.rx_term.specs.Store.{cells, tree_at};
ghost use Rattle.rx_term.specs.Steps.{Grows};
ghost use Rattle.rx_text.specs.Answer.{AreNodesOf, AreProperNodes};
ghost use Rattle.rx_text.specs.Nodes.{Enough, IsProper, assembled, needed, top};
ghost use Rattle.rx_text.specs.Reader.{IsNode, made_of, node_of};
ghost use Rattle.rx_text.specs.Verdict.{IsVerdict, Outside, Spelt, TooLong};
ghost use Rattle.rx_table.specs.Opened.{broken_by_table, broken_element, element};
ghost use Rattle.rx_table.specs.Opened.{tree_of_table};
ghost use Rattle.rx_table.specs.Errors.{IsOfOpening, IsOfText};
ghost use Rattle.rx_table.specs.Inner.Faults.{IsRefusal};
ghost use Rattle.rx_table.specs.Inner.Reading.{EndsIn, Fit, HasItems, IsBroken, IsShut, IsReading};
ghost use Rattle.rx_table.specs.Inner.Reading.{IsStack, IsStep, StartsHole, after_number, most};
ghost use Rattle.rx_table.specs.Inner.Reading.{needed_by, noted, taken_by};

use crate::faults::TableFault;
use rx_term::{Term, TermBank};
use rx_text::{Node, make_node, parse};
use std::alloc::Global;

/// More elements than there can be: a tree that needs as many does not open.
const NEVER: usize = usize::MAX;

/// What has to come before a tree so that it opens.
#[derive(Clone, Copy, Drop)]
pub(crate) struct Need {
    /// The number of elements: 1 more than the greatest number of a reference in the tree, or
    /// [`NEVER`].
    elements: usize,
    /// Whether the tree is a number in a placeholder, which has no annotations.
    is_number: bool,
}

/// The trees that were read and are not yet part of another tree.
#[derive(Drop)]
pub(crate) struct Stack {
    /// What each tree opens to. If it does not open, any term.
    terms: Vec<Term>,
    /// What each tree needs.
    needs: Vec<Need>,
}

impl Stack {
    /// Adds a tree.
    fn push(&mut self, term: Term, need: Need) -> Result<(), TableFault>
        ensures terms { OnOk result (self.new.terms.items ≡ self.old.terms.items ++ term ∷ []) }
        ensures needs { OnOk result (self.new.needs.items ≡ self.old.needs.items ++ need ∷ []) }
        ensures memory { IfErr result (λ fault. fault ≡ TableFault.Memory) }
    {
        self.terms.push(term)?;
        self.needs.push(need)?;
        Ok(())
    }
}

/// Returns the element with this number, if it is one of these.
fn element(elements: &[Term], number: i32) -> Option<Term>
    ensures { result ≡ element elements.now number }
{
    if number < 0 {
        return None;
    }
    elements.get(number as usize).copied()
}

/// Returns how many elements have to come before a reference with this number.
fn after_number(number: i32) -> usize
    ensures { result ≡ after_number number }
{
    if number < 0 {
        return NEVER;
    }
    number as usize + 1
}

/// Adds a reference to an element. It opens to the term of that element, of which nothing is known
/// yet if it is not complete.
fn push_reference<B: TermBank>(
    number: i32,
    stack: &mut Stack,
    bank: &mut B,
) -> Result<(), TableFault>
    ensures stack { OnOk result ((ts : List Tree) → IsStack (B.store bank.old) ts stack.old
        → IsStack (B.store bank.new) (Hole (Int number none) none ∷ ts) stack.new) }
    ensures refused { IfErr result (IsRefusal (B.store bank.new)) }
    ensures grows { Grows (B.store bank.old) (B.store bank.new) }
{
    let need = Need {
        elements: after_number(number),
        is_number: true,
    };
    match element(&stack.terms, number) {
        Some(term) => {
            stack.push(term, need)?;
            Ok(())
        }
        None => {
            let term = bank.nil()?;
            stack.push(term, need)?;
            Ok(())
        }
    }
}

/// Removes the last `count` needs, and returns how many elements these trees need.
fn take_needs(needs: &mut Vec<Need>, count: u32) -> usize
    requires { count ≤ length needs.old.items }
    ensures most { result ≡ most count (reverse needs.old.items) }
    ensures left { reverse needs.new.items ≡ drop count (reverse needs.old.items) }
{
    let mut elements = 0;
    for _index in 0..count {
        let need = needs.pop().unwrap();
        elements = need.elements.max(elements);
    }
    elements
}

/// Removes the last `count` needs, which are those of annotations, and the need below them, which is
/// that of their tree. Returns how many elements the annotated tree needs.
fn take_annotated(needs: &mut Vec<Need>, count: u32) -> usize
    requires { count + 1 ≤ length needs.old.items }
    ensures noted { let old = reverse needs.old.items in
        result ≡ noted (most count old) (drop count old) }
    ensures left { reverse needs.new.items ≡ drop (count + 1) (reverse needs.old.items) }
{
    let elements = take_needs(needs, count);
    let tree = needs.pop().unwrap();
    if tree.is_number {
        return NEVER;
    }
    elements.max(tree.elements)
}

/// Removes the needs of the trees that a node takes, and returns how many elements its tree needs.
fn take_node(needs: &mut Vec<Need>, node: Node) -> usize
    requires { taken_by node ≤ length needs.old.items }
    ensures needed { result ≡ needed_by node (reverse needs.old.items) }
    ensures left { reverse needs.new.items ≡ drop (taken_by node) (reverse needs.old.items) }
{
    match node {
        Node::Integer(_) => 0,
        Node::Application(_, count) => take_needs(needs, count),
        Node::List(count) => take_needs(needs, count),
        Node::Placeholder => {
            take_needs(needs, 1);
            NEVER
        }
        Node::Annotations(count) => take_annotated(needs, count),
    }
}

/// Adds the tree of a node. A placeholder does not open.
fn push_node<B: TermBank>(
    bytes: &[u8],
    node: Node,
    stack: &mut Stack,
    bank: &mut B,
) -> Result<(), TableFault>
    requires stack { (ts : List Tree) × IsStack (B.store bank.old) ts stack.old
        × (needed (node_of bytes.now node) ≤ length ts) }
    requires name { IsNode bytes.now node }
    ensures stack { OnOk result ((ts : List Tree) → IsStack (B.store bank.old) ts stack.old
        → needed (node_of bytes.now node) ≤ length ts → IsProper (node_of bytes.now node) ts
        → (StartsHole (node ∷ []) → IsShut (top ts))
        → IsStack (B.store bank.new) (assembled (node_of bytes.now node) ts) stack.new) }
    ensures refused { IfErr result (IsRefusal (B.store bank.new)) }
    ensures grows { Grows (B.store bank.old) (B.store bank.new) }
{
    let term = make_node(bytes, node, &mut stack.terms, bank)?;
    let elements = take_node(&mut stack.needs, node);
    let need = Need {
        elements,
        is_number: false,
    };
    stack.push(term, need)?;
    Ok(())
}

/// Puts the newest tree into a placeholder, as the item of a list in it.
fn push_item<B: TermBank>(bytes: &[u8], stack: &mut Stack, bank: &mut B) -> Result<(), TableFault>
    requires { (ts : List Tree) × IsStack (B.store bank.old) ts stack.old × (1 ≤ length ts) }
    ensures stack { OnOk result ((t : Tree) (ts : List Tree)
        → IsStack (B.store bank.old) (t ∷ ts) stack.old
        → IsStack (B.store bank.new) (Hole (Items (more t none) none) none ∷ ts) stack.new) }
    ensures refused { IfErr result (IsRefusal (B.store bank.new)) }
    ensures grows { Grows (B.store bank.old) (B.store bank.new) }
{
    let term = make_node(bytes, Node::Placeholder, &mut stack.terms, bank)?;
    let elements = take_needs(&mut stack.needs, 1);
    let need = Need {
        elements,
        is_number: false,
    };
    stack.push(term, need)?;
    Ok(())
}

/// What is read at once.
#[derive(Clone, Copy, Drop)]
pub(crate) enum Step {
    /// The number of an element, in a placeholder.
    Reference(i32),
    /// A list of the newest tree, in a placeholder.
    Item,
    /// One node.
    Single(Node),
}

/// Returns whether a placeholder is next.
fn starts_hole(nodes: &[Node]) -> bool
    ensures { IsTrue result ↔ StartsHole nodes.now }
{
    match nodes.first() {
        Some(Node::Placeholder) => true,
        _ => false,
    }
}

/// Returns what is read next.
fn step_of(nodes: &[Node]) -> Step
    requires some { 0 < length nodes.now }
    requires names { (bytes : List ℕ) × AllByRecursion (IsNode bytes) nodes.now }
    ensures { IsStep nodes.now result }
{
    let node = nodes[0];
    if !starts_hole(&nodes[1..]) {
        return Step::Single(node);
    }
    match node {
        Node::Integer(number) => Step::Reference(number),
        Node::List(count) => {
            if count == 1 {
                return Step::Item;
            }
            Step::Single(node)
        }
        _ => Step::Single(node),
    }
}

/// Reads the next one or two nodes, and returns their number.
fn read_next<B: TermBank>(
    bytes: &[u8],
    nodes: &[Node],
    stack: &mut Stack,
    bank: &mut B,
) -> Result<usize, TableFault>
    requires some { 0 < length nodes.now }
    requires reading { (all : List Node)
        × IsReading (B.store bank.old) bytes.now all nodes.now stack.old }
    ensures reading { IfOk result (λ count. (all : List Node)
        → IsReading (B.store bank.old) bytes.now all nodes.now stack.old
        → IsReading (B.store bank.new) bytes.now all (drop count nodes.now) stack.new) }
    ensures count { IfOk result (λ count. (0 < count) × (count ≤ length nodes.now)) }
    ensures refused { IfErr result (IsRefusal (B.store bank.new)) }
    ensures grows { Grows (B.store bank.old) (B.store bank.new) }
{
    match step_of(nodes) {
        Step::Reference(number) => {
            push_reference(number, stack, bank)?;
            Ok(2)
        }
        Step::Item => {
            push_item(bytes, stack, bank)?;
            Ok(2)
        }
        Step::Single(node) => {
            push_node(bytes, node, stack, bank)?;
            Ok(1)
        }
    }
}

/// Reads these nodes.
fn read_elements<B: TermBank>(
    alloc: Global,
    bytes: &[u8],
    nodes: &[Node],
    bank: &mut B,
) -> Result<Stack, TableFault>
    requires enough { Enough [] (map (node_of bytes.now) nodes.now) }
    requires proper { AreProperNodes bytes.now nodes.now }
    requires names { AllByRecursion (IsNode bytes.now) nodes.now }
    ensures stack { IfOk result (IsStack (B.store bank.new) (made_of bytes.now nodes.now)) }
    ensures refused { IfErr result (IsRefusal (B.store bank.new)) }
    ensures grows { Grows (B.store bank.old) (B.store bank.new) }
{
    let mut stack = Stack {
        terms: Vec::new(alloc),
        needs: Vec::new(alloc),
    };
    let mut at = 0;
    while at < nodes.len() {
        at += read_next(bytes, &nodes[at..], &mut stack, bank)?;
    }
    Ok(stack)
}

/// Returns the number of the first element that needs more elements than come before it.
fn first_broken(needs: &[Need]) -> Option<usize>
    ensures fit { result ≡ None → Fit (reverse needs.now) }
    ensures broken { IfSome result (IsBroken needs.now) }
{
    for (number, need) in needs.iter().enumerate() {
        if need.elements > number {
            return Some(number);
        }
    }
    None
}

/// Returns whether the tree of a node is a list that is not empty.
fn has_items(node: Node) -> bool
    ensures { IsTrue result ↔ HasItems node }
{
    match node {
        Node::List(count) => count > 0,
        _ => false,
    }
}

/// Returns the nodes of the elements of a table, which are all but the last one. Returns `None` if
/// the last one is not that of a list that is not empty.
fn elements_of(nodes: &[Node]) -> Option<&[Node]>
    requires { 0 < length nodes.now }
    ensures none { result ≡ None
        → (front : List Node) × EndsIn (λ n. HasItems n → ⊥) nodes.now front }
    ensures some { IfSome result (λ elements. EndsIn HasItems nodes.now elements.now) }
{
    let (last, elements) = nodes.split_last()?;
    if has_items(*last) {
        Some(elements)
    } else {
        None
    }
}

/// Makes, in a store, the term of a table from the nodes of its text, which
/// [`parse`](rx_text::parse) returned.
///
/// Returns `NotTable` if the tree of the nodes is not a list without annotations that has an
/// element, and `Element` with the number of the first element that has a placeholder of another
/// form; `Memory` if an allocation failed, and `Full` if the store is full. Only adds terms: those
/// of the table, without numbers in placeholders. Takes expected time in proportion to the text.
pub fn open_nodes<B: TermBank>(
    alloc: Global,
    bytes: &[u8],
    nodes: &[Node],
    bank: &mut B,
) -> Result<Term, TableFault>
    requires nodes { (t : Tree) × AreNodesOf bytes.now nodes.now t }
    requires proper { AreProperNodes bytes.now nodes.now }
    ensures held { IfOk result (λ r. IsSome (tree_at (B.store bank.new) r)) }
    ensures opened { IfOk result (λ r. (t : Tree) → AreNodesOf bytes.now nodes.now t
        → tree_at (B.store bank.new) r ≡ tree_of_table t) }
    ensures not_table { IsErrOf result TableFault.NotTable
        → (t : Tree) → AreNodesOf bytes.now nodes.now t → broken_by_table t ≡ Some 1 }
    ensures rule { (n : ℕ) → IsErrOf result (TableFault.Element n)
        → (t : Tree) → AreNodesOf bytes.now nodes.now t → broken_by_table t ≡ Some 2 }
    ensures element { (n : ℕ) → IsErrOf result (TableFault.Element n)
        → (t : Tree) → AreNodesOf bytes.now nodes.now t → broken_element t ≡ Some n }
    ensures full { IsErrOf result TableFault.Full
        → cells (B.store bank.new) ≡ (B.store bank.new).cap }
    ensures opening { IfErr result IsOfOpening }
    ensures grows { Grows (B.store bank.old) (B.store bank.new) }
{
    let Some(elements) = elements_of(nodes) else {
        return Err(TableFault::NotTable);
    };
    let mut stack = read_elements(alloc, bytes, elements, bank)?;
    match first_broken(&stack.needs) {
        Some(number) => Err(TableFault::Element { number }),
        None => Ok(stack.terms.pop().unwrap()),
    }
}

/// Reads the text of a table, and makes its term in a store.
///
/// Returns `Long` if the text has more than [`LONGEST`](rx_text::LONGEST) bytes, `Grammar` with the
/// offset of a syntax error, and the errors of [`open_nodes`]. Only adds terms; after `Long` and
/// `Grammar` the store is unchanged. Takes expected time in proportion to the text.
pub fn read_table<B: TermBank>(
    alloc: Global,
    bytes: &[u8],
    bank: &mut B,
) -> Result<Term, TableFault>
    ensures held { IfOk result (λ r. IsSome (tree_at (B.store bank.new) r)) }
    ensures read { IfOk result (λ r. (t : Tree) × IsVerdict bytes.now (Spelt t)
        × (tree_at (B.store bank.new) r ≡ tree_of_table t)) }
    ensures long { IsErrOf result TableFault.Long ↔ IsVerdict bytes.now TooLong }
    ensures outside { (at : ℕ) → IsErrOf result (TableFault.Grammar at)
        → IsVerdict bytes.now (Outside at) }
    ensures not_table { IsErrOf result TableFault.NotTable
        → (t : Tree) × IsVerdict bytes.now (Spelt t) × (broken_by_table t ≡ Some 1) }
    ensures element { (n : ℕ) → IsErrOf result (TableFault.Element n)
        → (t : Tree) × IsVerdict bytes.now (Spelt t) × (broken_by_table t ≡ Some 2)
        × (broken_element t ≡ Some n) }
    ensures unchanged { IfErr result
        (λ fault. IsOfText fault → B.store bank.new ≡ B.store bank.old) }
    ensures full { IsErrOf result TableFault.Full
        → cells (B.store bank.new) ≡ (B.store bank.new).cap }
    ensures grows { Grows (B.store bank.old) (B.store bank.new) }
{
    let nodes = parse(alloc, bytes)?;
    open_nodes(alloc, bytes, &nodes, bank)
}
