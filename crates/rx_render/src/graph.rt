//! The shared graph of a term: its different parts in the order of discovery, and the lines of the
//! current part.

ghost use Rattle.std.specs.Prelude.{◌≡◌, ◌++◌, ◌∷◌, [], IfOk, IsSome, OnOk, nat_eq, slice_get};
ghost use Rattle.std.specs.Option.{option_map};
ghost use Rattle.std.specs.List.{position_or_len};
ghost use Rattle.indexmap.specs.IndexSet.{insert_key};
ghost use Rattle.rx_term.specs.Kinds.{HasCons};
ghost use Rattle.rx_term.specs.Store.{tree_at};
ghost use Rattle.rx_term.specs.Tree.{annotations};
ghost use Rattle.rx_term.specs.Walks.{held_tree};
ghost use Rattle.rx_render.specs.Graph.{annotation_links, edge_line, inside_links, link_to, links};
ghost use Rattle.rx_render.specs.Drawing.{AreHeld, Follows, LooksAt, term_of};

use crate::labels::{push_node, push_number};
use indexmap::IndexSet;
use rx_term::{Kind, Term, TermBank};
use std::alloc::{AllocError, Global};

/// A graph that is written part by part.
#[derive(Drop)]
pub struct Graph {
    /// The parts that were discovered, by their references.
    pub found: IndexSet<u32>,
    /// The greatest number of nodes. Parts that were discovered later have no edges.
    pub nodes: usize,
    /// The lines of the current part.
    pub lines: Vec<u8>,
}

impl Graph {
    /// Creates a graph with at most `nodes` nodes, in which one part was discovered.
    pub fn new(alloc: Global, nodes: usize, first: Term) -> Result<Graph, AllocError>
        ensures found { IfOk result (λ graph. graph.found.keys ≡ first.0 ∷ []) }
        ensures nodes { IfOk result (λ graph. graph.nodes ≡ nodes) }
    {
        let mut found = IndexSet::new(alloc);
        found.insert(first.0)?;
        Ok(Graph {
            found,
            nodes,
            lines: Vec::new(alloc),
        })
    }

    /// Returns the part with this number.
    pub fn part(&self, number: usize) -> Option<Term>
        ensures { result ≡ option_map term_of (slice_get self.now.found.keys number) }
    {
        match self.found.get_index(number) {
            Some(reference) => Some(Term(*reference)),
            None => None,
        }
    }

    /// Returns the number of a part. A new part is appended.
    fn number_of(&mut self, part: Term) -> Result<usize, AllocError>
        ensures number { IfOk result (λ number.
            number ≡ position_or_len (nat_eq part.0) self.old.found.keys) }
        ensures found { OnOk result
            (self.new.found.keys ≡ insert_key nat_eq self.old.found.keys part.0) }
        ensures lines { self.new.lines ≡ self.old.lines }
        ensures nodes { self.new.nodes ≡ self.old.nodes }
    {
        let (number, _) = self.found.insert_full(part.0)?;
        Ok(number)
    }

    /// Appends the line of an edge.
    fn push_edge(&mut self, from: usize, to: usize, name: &[u8]) -> Result<(), AllocError>
        ensures lines { OnOk result
            (self.new.lines.items ≡ self.old.lines.items ++ edge_line from to name.now) }
        ensures found { self.new.found ≡ self.old.found }
        ensures nodes { self.new.nodes ≡ self.old.nodes }
    {
        self.lines.extend_from_slice(b"  n")?;
        push_number(&mut self.lines, from)?;
        self.lines.extend_from_slice(b" -> n")?;
        push_number(&mut self.lines, to)?;
        self.lines.extend_from_slice(b" [label=\"")?;
        self.lines.extend_from_slice(name)?;
        self.lines.extend_from_slice(b"\"];\n")
    }

    /// Discovers the part at the end of an edge. The line of the edge is appended if the part is a
    /// node.
    fn follow<B: TermBank>(
        &mut self,
        bank: &B,
        from: usize,
        name: &[u8],
        part: Term,
    ) -> Result<(), AllocError>
        requires held { AreHeld (B.store bank.now) self.old }
        requires part { IsSome (tree_at (B.store bank.now) part) }
        ensures { OnOk result (Follows (B.store bank.now) from
            (link_to name.now (held_tree (B.store bank.now) part) ∷ []) self.old self.new) }
    {
        let number = self.number_of(part)?;
        if number < self.nodes {
            self.push_edge(from, number, name)?;
        }
        Ok(())
    }

    /// Follows the edges to the arguments, items or inner term of a part.
    fn follow_inside<B: TermBank>(
        &mut self,
        bank: &B,
        from: usize,
        part: Term,
    ) -> Result<(), AllocError>
        requires held { AreHeld (B.store bank.now) self.old }
        requires part { IsSome (tree_at (B.store bank.now) part) }
        ensures { OnOk result (Follows (B.store bank.now) from
            (inside_links (held_tree (B.store bank.now) part)) self.old self.new) }
    {
        match bank.kind(part) {
            Kind::Int(_) => Ok(()),
            Kind::Nil => Ok(()),
            Kind::Cons => self.follow_items(bank, from, part),
            Kind::Appl(_) => self.follow(bank, from, b"args", bank.args(part)),
            Kind::Hole => self.follow(bank, from, b"inner", bank.inner(part)),
        }
    }

    /// Follows the edges to the head and the tail of a list.
    fn follow_items<B: TermBank>(
        &mut self,
        bank: &B,
        from: usize,
        list: Term,
    ) -> Result<(), AllocError>
        requires held { AreHeld (B.store bank.now) self.old }
        requires list { HasCons (B.store bank.now) list }
        ensures { OnOk result (Follows (B.store bank.now) from
            (inside_links (held_tree (B.store bank.now) list)) self.old self.new) }
    {
        self.follow(bank, from, b"head", bank.head(list))?;
        self.follow(bank, from, b"tail", bank.tail(list))
    }

    /// Follows the edge to the annotations of a part, if it has some.
    fn follow_annotations<B: TermBank>(
        &mut self,
        bank: &B,
        from: usize,
        part: Term,
    ) -> Result<(), AllocError>
        requires held { AreHeld (B.store bank.now) self.old }
        requires part { IsSome (tree_at (B.store bank.now) part) }
        ensures { OnOk result (Follows (B.store bank.now) from
            (annotation_links (annotations (held_tree (B.store bank.now) part)))
            self.old self.new) }
    {
        match bank.anns(part) {
            Some(anns) => self.follow(bank, from, b"annotations", anns),
            None => Ok(()),
        }
    }

    /// Follows the edges of a part.
    fn follow_links<B: TermBank>(
        &mut self,
        bank: &B,
        from: usize,
        part: Term,
    ) -> Result<(), AllocError>
        requires held { AreHeld (B.store bank.now) self.old }
        requires part { IsSome (tree_at (B.store bank.now) part) }
        ensures { OnOk result (Follows (B.store bank.now) from
            (links (held_tree (B.store bank.now) part)) self.old self.new) }
    {
        self.follow_inside(bank, from, part)?;
        self.follow_annotations(bank, from, part)
    }

    /// Visits a part. Its lines are its node and the edges from it.
    pub fn look_at<B: TermBank>(
        &mut self,
        alloc: Global,
        bank: &B,
        number: usize,
        part: Term,
    ) -> Result<(), AllocError>
        requires held { AreHeld (B.store bank.now) self.old }
        requires part { IsSome (tree_at (B.store bank.now) part) }
        ensures { OnOk result (LooksAt (B.store bank.now) number
            (held_tree (B.store bank.now) part) self.old self.new) }
    {
        self.lines.clear();
        push_node(alloc, bank, number, part, &mut self.lines)?;
        self.follow_links(bank, number, part)
    }
}
