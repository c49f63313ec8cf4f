//! Location of a word in the rules and terms of a specification.

use rec_syntax::{Node, Rule, Syntax, Term};

/// An occurrence of a word in a term.
#[derive(Clone, Copy)]
pub struct Occurrence<'s> {
    /// The words of the term in postfix form.
    nodes: &'s [Node],
    /// The index of the word.
    index: usize,
}

/// Returns the occurrence that begins at this offset. Only the last term that begins at or before
/// the offset is searched.
pub fn find_word(syntax: &Syntax, at: usize) -> Option<Occurrence<'_>> {
    let mut last = None;
    for rule in syntax.rules() {
        last = last_in_rule(rule, at).or(last);
    }
    for term in syntax.terms() {
        last = last_of(term, at).or(last);
    }
    find_in_term(last?, at)
}

/// Returns the last term of a rule that begins at or before an offset.
fn last_in_rule(rule: &Rule, at: usize) -> Option<&Term> {
    let mut last = last_of(&rule.right, at).or(last_of(&rule.left, at));
    for condition in rule.conditions.iter() {
        last = last_of(&condition.left, at).or(last);
        last = last_of(&condition.right, at).or(last);
    }
    last
}

/// Returns the term if it begins at or before an offset.
fn last_of(term: &Term, at: usize) -> Option<&Term> {
    if head_of(term)?.word.from <= at {
        Some(term)
    } else {
        None
    }
}

/// Searches a term.
fn find_in_term(term: &Term, at: usize) -> Option<Occurrence<'_>> {
    let nodes = term.nodes();
    let index = nodes.iter().position(|node| node.word.from == at)?;
    Some(Occurrence { nodes, index })
}

/// The application whose argument a word begins.
#[derive(Clone, Copy)]
pub struct Call {
    /// The application's symbol.
    pub head: Node,
    /// The index of the argument.
    pub index: usize,
}

impl Occurrence<'_> {
    /// Returns the node of the word.
    pub fn node(&self) -> Option<Node> {
        self.nodes.get(self.index).copied()
    }

    /// Returns the application whose argument the word begins, if there is one.
    pub fn call(&self) -> Option<Call> {
        // the number of complete terms after that of the word that no application has taken as
        // arguments yet
        let mut behind = 0usize;
        for head in self.nodes.get(self.index..)?.iter().skip(1) {
            if head.count > behind {
                let index = head.count.saturating_sub(behind).saturating_sub(1);
                return Some(Call { head: *head, index });
            }
            behind = behind.saturating_sub(head.count).saturating_add(1);
        }
        None
    }
}

/// Two terms that must have the same sort.
#[derive(Clone, Copy)]
pub struct Sides<'s> {
    /// The left one.
    pub left: &'s Term,
    /// The right one.
    pub right: &'s Term,
}

/// Returns the two sides of the rule or of the condition that begins at this offset.
pub fn find_sides(syntax: &Syntax, at: usize) -> Option<Sides<'_>> {
    for rule in syntax.rules() {
        if begins_at(&rule.left, at) {
            let (left, right) = (&rule.left, &rule.right);
            return Some(Sides { left, right });
        }
        if let Some(found) = find_condition(rule, at) {
            return Some(found);
        }
    }
    None
}

/// Returns the two sides of the condition that begins at this offset.
fn find_condition(rule: &Rule, at: usize) -> Option<Sides<'_>> {
    let conditions = rule.conditions.as_slice();
    let condition = conditions
        .iter()
        .find(|condition| begins_at(&condition.left, at))?;
    Some(Sides {
        left: &condition.left,
        right: &condition.right,
    })
}

/// Returns whether a term has a word at this offset.
pub fn has_word(term: &Term, at: usize) -> bool {
    find_in_term(term, at).is_some()
}

/// Returns whether a term begins at this offset.
pub fn begins_at(term: &Term, at: usize) -> bool {
    match head_of(term) {
        Some(head) => head.word.from == at,
        None => false,
    }
}

/// Returns the first word of a term.
pub fn head_of(term: &Term) -> Option<Node> {
    term.nodes().last().copied()
}
