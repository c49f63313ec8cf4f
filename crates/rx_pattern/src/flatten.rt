//! The nodes of a pattern, made from a term.

ghost use Rattle.std.specs.Prelude.{◌≡◌, ◌++◌, ◌∷◌, [], map, true, IsSome, IsTrue, IfOk, OnOk};
ghost use Rattle.std.specs.Prelude.{Some};
ghost use Rattle.rx_term.specs.Name.{Signature};
ghost use Rattle.rx_term.specs.Tree.{Tree, Trees};
ghost use Rattle.rx_term.specs.Store.{tree_at, signature_of};
ghost use Rattle.rx_pattern.specs.Pattern.{is_pattern, is_list_placeholder, knows_placeholders};
ghost use Rattle.rx_pattern.specs.Code.{code, Named, Piece, One, Several};
ghost use Rattle.rx_pattern.specs.Nodes.{step_of};
ghost use Rattle.rx_pattern.specs.Subjects.{IsListed};
ghost use Rattle.rx_pattern.specs.Inner.Jobs.{IsFor, IsOfPattern, Opens};

use crate::lists::is_empty;
use crate::nodes::{Class, Name, Node};
use crate::words::class_of;
use rx_term::{Kind, Symbol, Term, TermBank};
use std::alloc::{AllocError, Global};

/// A part of the term whose nodes are still to be made.
#[derive(Clone, Copy, Drop)]
pub enum Job {
    /// A tree.
    Tree(Term),
    /// The items of a list; `None` has no items.
    Items(Option<Term>),
}

/// Returns the node of a symbol.
fn application<B: TermBank>(alloc: Global, bank: &B, symbol: Symbol) -> Result<Node, AllocError>
    requires { IsSome (signature_of (B.store bank.now) symbol) }
    ensures { IfOk result (λ node. (s : Signature) → signature_of (B.store bank.now) symbol ≡ Some s
        → step_of node ≡ Named s.name s.quoted) }
{
    let bytes = bank.name_of(symbol).to_vec(alloc)?;
    let quoted = bank.quoted_of(symbol);
    Ok(Node::Application(Name { bytes, quoted }))
}

/// Pushes the annotations and then the items of a list, which come first.
fn leave(jobs: &mut Vec<Job>, anns: Option<Term>, list: Term) -> Result<(), AllocError>
    ensures { OnOk result (jobs.new.items
        ≡ jobs.old.items ++ Job.Items anns ∷ Job.Items (Some list) ∷ []) }
{
    jobs.push(Job::Items(anns))?;
    jobs.push(Job::Items(Some(list)))?;
    Ok(())
}

/// Returns the first node of a tree, and pushes the parts that follow it.
fn tree_node<B: TermBank>(
    alloc: Global,
    bank: &B,
    t: Term,
    jobs: &mut Vec<Job>,
) -> Result<Node, AllocError>
    requires { (u : Tree) × (tree_at (B.store bank.now) t ≡ Some u)
        × (knows_placeholders u ≡ true) }
    ensures { IfOk result (λ node. (u : Tree) → tree_at (B.store bank.now) t ≡ Some u
        → Opens (B.store bank.now) (One u) (step_of node) jobs.old.items jobs.new.items) }
{
    let anns = bank.anns(t);
    match bank.kind(t) {
        Kind::Int(value) => {
            jobs.push(Job::Items(anns))?;
            Ok(Node::Integer(value))
        }
        Kind::Appl(symbol) => {
            leave(jobs, anns, bank.args(t))?;
            application(alloc, bank, symbol)
        }
        Kind::Nil | Kind::Cons => {
            leave(jobs, anns, t)?;
            Ok(Node::List)
        }
        Kind::Hole => {
            let class = class_of(bank, bank.inner(t)).unwrap();
            Ok(Node::Placeholder(class))
        }
    }
}

/// Returns whether the tree is a placeholder `<list>`.
fn is_list_placeholder<B: TermBank>(bank: &B, t: Term) -> bool
    requires { IsSome (tree_at (B.store bank.now) t) }
    ensures { (u : Tree) → tree_at (B.store bank.now) t ≡ Some u → result ≡ is_list_placeholder u }
{
    match bank.kind(t) {
        Kind::Hole => matches!(class_of(bank, bank.inner(t)), Some(Class::List)),
        _ => false,
    }
}

/// Returns the first node of the items of a list, and pushes the parts that follow it.
fn items_node<B: TermBank>(
    bank: &B,
    list: Option<Term>,
    jobs: &mut Vec<Job>,
) -> Result<Node, AllocError>
    requires { (ts : Trees) × IsListed (B.store bank.now) list ts }
    ensures { IfOk result (λ node. (ts : Trees) → IsListed (B.store bank.now) list ts
        → Opens (B.store bank.now) (Several ts) (step_of node) jobs.old.items jobs.new.items) }
{
    if is_empty(bank, list) {
        return Ok(Node::End);
    }
    let list = list.unwrap();
    let head = bank.head(list);
    let tail = bank.tail(list);
    if is_list_placeholder(bank, head) && is_empty(bank, Some(tail)) {
        return Ok(Node::Rest);
    }
    jobs.push(Job::Items(Some(tail)))?;
    jobs.push(Job::Tree(head))?;
    Ok(Node::Item)
}

/// Returns the first node of a part, and pushes the parts that follow it.
fn next_node<B: TermBank>(
    alloc: Global,
    bank: &B,
    job: Job,
    jobs: &mut Vec<Job>,
) -> Result<Node, AllocError>
    requires { (v : Piece) × IsFor (B.store bank.now) job v × IsOfPattern v }
    ensures { IfOk result (λ node. (v : Piece) → IsFor (B.store bank.now) job v
        → Opens (B.store bank.now) v (step_of node) jobs.old.items jobs.new.items) }
{
    match job {
        Job::Tree(t) => tree_node(alloc, bank, t, jobs),
        Job::Items(list) => items_node(bank, list, jobs),
    }
}

/// Returns the nodes of a pattern.
pub fn flatten<B: TermBank>(alloc: Global, bank: &B, t: Term) -> Result<Vec<Node>, AllocError>
    requires { (u : Tree) × (tree_at (B.store bank.now) t ≡ Some u) × IsTrue (is_pattern u) }
    ensures { IfOk result (λ nodes. (u : Tree) → tree_at (B.store bank.now) t ≡ Some u
        → map step_of nodes.items ≡ code u []) }
{
    let mut nodes = Vec::new(alloc);
    let mut jobs = Vec::new(alloc);
    jobs.push(Job::Tree(t))?;
    while let Some(job) = jobs.pop() {
        let node = next_node(alloc, bank, job, &mut jobs)?;
        nodes.push(node)?;
    }
    Ok(nodes)
}
