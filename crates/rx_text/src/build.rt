//! Builds a tree in a term store from the nodes of a text.

ghost use Rattle.std.specs.Prelude.{◌≡◌, ◌≤◌, ◌++◌, ◌∷◌, [], List, length, drop, Some, IfOk, IfErr};
ghost use Rattle.rx_term.specs.Tree.{Tree, list_of};
ghost use Rattle.rx_term.specs.Store.{tree_at, signature_of};
ghost use Rattle.rx_term.specs.Steps.{Grows, IsBankRefusal};
ghost use Rattle.rx_text.specs.Lexemes.{name_of, IsWord};
ghost use Rattle.rx_text.specs.Nodes.{newest, needed, assembled, Application, Holding, Annotating};
ghost use Rattle.rx_text.specs.Reader.{node_of, IsNode};
ghost use Rattle.rx_text.specs.Answer.{AreNodesOf};
ghost use Rattle.rx_text.specs.Held.{Holds, IsRefusal};

use crate::faults::TextFault;
use crate::nodes::{Node, Word};
use crate::quoted_name::read_quoted;
use rx_term::{BankFault, Symbol, Term, TermBank};
use std::alloc::Global;

/// Removes the last `count` references and returns a list of them.
fn take_list<B: TermBank>(made: &mut Vec<Term>, count: u32, bank: &mut B) -> Result<Term, BankFault>
    requires held { (trees : List Tree) × Holds (B.store bank.old) made.old.items trees
        × (count ≤ length trees) }
    ensures list { IfOk result (λ r. (trees : List Tree) → Holds (B.store bank.old) made.old.items
        trees → tree_at (B.store bank.new) r ≡ Some (list_of (newest count trees))) }
    ensures left { IfOk result (λ r. (trees : List Tree) → Holds (B.store bank.old) made.old.items
        trees → Holds (B.store bank.new) made.new.items (drop count trees)) }
    ensures refused { IfErr result (IsBankRefusal (B.store bank.new)) }
    ensures grows { Grows (B.store bank.old) (B.store bank.new) }
{
    let mut list = bank.nil()?;
    for _index in 0..count {
        let item = made.pop().unwrap();
        list = bank.cons(item, list)?;
    }
    Ok(list)
}

/// Returns the symbol with the name of a word and this number of arguments.
fn symbol_of<B: TermBank>(
    alloc: Global,
    bytes: &[u8],
    word: Word,
    count: u32,
    bank: &mut B,
) -> Result<Symbol, TextFault>
    requires { IsWord bytes.now word }
    ensures symbol { IfOk result (λ s. signature_of (B.store bank.new) s ≡ Some
        (record { name = name_of bytes.now word; quoted = word.quoted; arity = count })) }
    ensures refused { IfErr result (IsRefusal (B.store bank.new)) }
    ensures grows { Grows (B.store bank.old) (B.store bank.new) }
{
    if word.quoted {
        let read = read_quoted(alloc, &bytes[word.from as usize..])?;
        let (name, _) = read.unwrap();
        Ok(bank.symbol(&name, true, count)?)
    } else {
        let name = &bytes[word.from as usize..word.to as usize];
        Ok(bank.symbol(name, false, count)?)
    }
}

/// Applies a name to the last `count` references.
#[inline]
fn make_application<B: TermBank>(
    bytes: &[u8],
    word: Word,
    count: u32,
    made: &mut Vec<Term>,
    bank: &mut B,
) -> Result<Term, TextFault>
    requires held { (trees : List Tree) × Holds (B.store bank.old) made.old.items trees
        × (count ≤ length trees) }
    requires name { IsWord bytes.now word }
    ensures made { IfOk result (λ r. (trees : List Tree)
        → Holds (B.store bank.old) made.old.items trees → Holds (B.store bank.new)
        (made.new.items ++ r ∷ [])
        (assembled (Application (name_of bytes.now word) word.quoted count) trees)) }
    ensures refused { IfErr result (IsRefusal (B.store bank.new)) }
    ensures grows { Grows (B.store bank.old) (B.store bank.new) }
{
    let args = take_list(made, count, bank)?;
    let symbol = symbol_of(*made.allocator(), bytes, word, count, bank)?;
    Ok(bank.appl(symbol, args)?)
}

/// Makes a placeholder of the last reference.
#[inline]
fn make_placeholder<B: TermBank>(made: &mut Vec<Term>, bank: &mut B) -> Result<Term, TextFault>
    requires held { (trees : List Tree) × Holds (B.store bank.old) made.old.items trees
        × (needed Holding ≤ length trees) }
    ensures made { IfOk result (λ r. (trees : List Tree)
        → Holds (B.store bank.old) made.old.items trees → Holds (B.store bank.new)
        (made.new.items ++ r ∷ []) (assembled Holding trees)) }
    ensures refused { IfErr result (IsRefusal (B.store bank.new)) }
    ensures grows { Grows (B.store bank.old) (B.store bank.new) }
{
    let inner = made.pop().unwrap();
    Ok(bank.hole(inner)?)
}

/// Annotates the reference below the last `count` ones with these.
#[inline]
fn make_annotated<B: TermBank>(
    count: u32,
    made: &mut Vec<Term>,
    bank: &mut B,
) -> Result<Term, TextFault>
    requires held { (trees : List Tree) × Holds (B.store bank.old) made.old.items trees
        × (needed (Annotating count) ≤ length trees) }
    ensures made { IfOk result (λ r. (trees : List Tree)
        → Holds (B.store bank.old) made.old.items trees → Holds (B.store bank.new)
        (made.new.items ++ r ∷ []) (assembled (Annotating count) trees)) }
    ensures refused { IfErr result (IsRefusal (B.store bank.new)) }
    ensures grows { Grows (B.store bank.old) (B.store bank.new) }
{
    let anns = take_list(made, count, bank)?;
    let term = made.pop().unwrap();
    Ok(bank.annotated(term, anns)?)
}

/// Makes the tree of a node of the text `bytes` in a store. Its parts are the last of the terms
/// `made`, which are removed. Takes time in proportion to their number and the name of the node.
#[inline(always)]
pub fn make_node<B: TermBank>(
    bytes: &[u8],
    node: Node,
    made: &mut Vec<Term>,
    bank: &mut B,
) -> Result<Term, TextFault>
    requires held { (trees : List Tree) × Holds (B.store bank.old) made.old.items trees
        × (needed (node_of bytes.now node) ≤ length trees) }
    requires name { IsNode bytes.now node }
    ensures made { IfOk result (λ r. (trees : List Tree)
        → Holds (B.store bank.old) made.old.items trees → Holds (B.store bank.new)
        (made.new.items ++ r ∷ []) (assembled (node_of bytes.now node) trees)) }
    ensures refused { IfErr result (IsRefusal (B.store bank.new)) }
    ensures grows { Grows (B.store bank.old) (B.store bank.new) }
{
    match node {
        Node::Integer(value) => Ok(bank.int(value)?),
        Node::Application(word, count) => make_application(bytes, word, count, made, bank),
        Node::List(count) => Ok(take_list(made, count, bank)?),
        Node::Placeholder => make_placeholder(made, bank),
        Node::Annotations(count) => make_annotated(count, made, bank),
    }
}

/// Builds the tree of a list of nodes.
pub fn build<B: TermBank>(
    alloc: Global,
    bytes: &[u8],
    nodes: &[Node],
    bank: &mut B,
) -> Result<Term, TextFault>
    requires { (t : Tree) × AreNodesOf bytes.now nodes.now t }
    ensures made { IfOk result (λ r. (t : Tree) → AreNodesOf bytes.now nodes.now t
        → tree_at (B.store bank.new) r ≡ Some t) }
    ensures refused { IfErr result (IsRefusal (B.store bank.new)) }
    ensures grows { Grows (B.store bank.old) (B.store bank.new) }
{
    let mut made: Vec<Term> = Vec::new(alloc);
    for node in nodes {
        let term = make_node(bytes, *node, &mut made, bank)?;
        made.push(term)?;
    }
    Ok(made[0])
}
