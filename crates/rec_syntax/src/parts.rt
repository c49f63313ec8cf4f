//! The parts of a specification. Their names are spans of its text.

ghost use Rattle.std.specs.Prelude.{◌≡◌, []};

use crate::lexer::Span;
use smallvec::SmallVec;
use std::alloc::Global;
use std::default::MadeWith;

/// A list of names. Most have few, so up to four are stored without an allocation.
pub type Words = SmallVec<Span, 4>;

/// One item of a term in postfix form: a name with the number of its arguments.
#[derive(Clone, Copy, Drop)]
pub struct Node {
    pub word: Span,
    pub count: usize,
}

/// A term in postfix form: each node comes after the nodes of its arguments.
#[derive(Drop)]
pub struct Term {
    pub nodes: Vec<Node>,
}

impl Term {
    /// Returns the nodes. Each comes after those of its arguments; the last one is the root.
    pub fn nodes(&self) -> &[Node]
        ensures { result.now ≡ self.now.nodes.items }
    {
        &self.nodes
    }
}

/// A condition of a rule: two terms whose normal forms have to be equal (`equal`), or to differ.
#[derive(Drop)]
pub struct Condition {
    pub left: Term,
    pub right: Term,
    pub equal: bool,
}

// The value of the unused slot of a short list of conditions: two terms without nodes.
impl MadeWith<Global> for Condition {
    ghost is_made_with = { λ c. (c.left.nodes.items ≡ []) × (c.right.nodes.items ≡ []) };

    fn made_with(alloc: Global) -> Self {
        Condition {
            left: Term {
                nodes: Vec::new(alloc),
            },
            right: Term {
                nodes: Vec::new(alloc),
            },
            equal: true,
        }
    }
}

/// A rewrite rule: left-hand side, right-hand side and conditions.
#[derive(Drop)]
pub struct Rule {
    pub left: Term,
    pub right: Term,
    /// The conditions in the order of the text. A list of up to one allocates nothing for itself; a
    /// rule without conditions still has room for one.
    pub conditions: SmallVec<Condition, 1>,
}

/// The declaration of a symbol: its name, the sorts of its arguments, and its result sort.
#[derive(Drop)]
pub struct Declaration {
    pub name: Span,
    pub arguments: Words,
    pub sort: Span,
}

/// A group of variables that are declared together, with their sort.
#[derive(Drop)]
pub struct Group {
    pub first: Span,
    pub others: Words,
    pub sort: Span,
}

/// The name of a specification, and the contents of its sections in the order of the grammar.
#[derive(Drop)]
pub struct Sections {
    pub name: Span,
    pub sorts: Vec<Span>,
    pub constructors: Vec<Declaration>,
    pub operators: Vec<Declaration>,
    pub groups: Vec<Group>,
    pub rules: Vec<Rule>,
    pub terms: Vec<Term>,
}

impl Sections {
    /// Returns an empty name and empty sections.
    pub(crate) fn new(alloc: Global) -> Self
        ensures name { result.name ≡ record { from = 0; to = 0 } }
        ensures sorts { result.sorts.items ≡ [] }
        ensures constructors { result.constructors.items ≡ [] }
        ensures operators { result.operators.items ≡ [] }
        ensures groups { result.groups.items ≡ [] }
        ensures rules { result.rules.items ≡ [] }
        ensures terms { result.terms.items ≡ [] }
    {
        Sections {
            name: Span { from: 0, to: 0 },
            sorts: Vec::new(alloc),
            constructors: Vec::new(alloc),
            operators: Vec::new(alloc),
            groups: Vec::new(alloc),
            rules: Vec::new(alloc),
            terms: Vec::new(alloc),
        }
    }
}
