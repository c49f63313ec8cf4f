//! Puts the words of a term, whose nodes are in postfix form, into the order of the text.

ghost use Rattle.std.specs.Prelude.{◌≡◌, ◌++◌, [], All, IfNone, OnOk, map, reverse};
ghost use Rattle.std.specs.Option.{option_to_list};
ghost use Rattle.rec_syntax.specs.Parts.{IsTerm, Within, node_of, term_of};
ghost use Rattle.rec_syntax.specs.Syntax.{subterms};
ghost use Rattle.rec_sorts.specs.SpecRules.{heads};
ghost use Rattle.rec_uses.specs.Inner.Heads.{completed, pass, passed};
ghost use Rattle.rec_uses.specs.Inner.Values.{as_word, as_words, state_of};

use crate::words::{Word, word_at};
use rec_syntax::{Node, Syntax, Term};
use std::alloc::{AllocError, Global};

/// A word that waits for some of its arguments.
#[derive(Clone, Copy, Drop)]
pub struct Waiting<'a> {
    pub word: Word<'a>,
    pub left: usize,
}

/// The nodes of a term that were passed, from the last to the first.
#[derive(Drop)]
pub struct Order<'a> {
    /// The words that wait for arguments, the innermost last.
    waiting: Vec<Waiting<'a>>,
    /// The words that are complete, the first one of the text last.
    complete: Vec<Word<'a>>,
}

impl<'a> Order<'a> {
    /// Returns an order of no nodes.
    pub(crate) fn new(alloc: Global) -> Self
        ensures waiting { result.waiting.items ≡ [] }
        ensures complete { result.complete.items ≡ [] }
    {
        Order {
            waiting: Vec::new(alloc),
            complete: Vec::new(alloc),
        }
    }

    /// Ends an argument of the innermost word that waits. A word that has all its arguments is
    /// complete, and ends an argument of the next one.
    fn end_argument(&mut self) -> Result<(), AllocError>
        ensures { OnOk result (state_of self.new
            ≡ completed (state_of self.old).waiting (state_of self.old).complete) }
    {
        while let Some(innermost) = self.waiting.pop() {
            if innermost.left > 1 {
                self.waiting.push(Waiting {
                    word: innermost.word,
                    left: innermost.left - 1,
                })?;
                return Ok(());
            }
            self.complete.push(innermost.word)?;
        }
        Ok(())
    }

    /// Passes a node.
    fn pass(&mut self, word: Word<'a>, count: usize) -> Result<(), AllocError>
        ensures { OnOk result (state_of self.new
            ≡ pass (state_of self.old) (record { word = as_word word.entry; count = count })) }
    {
        if count > 0 {
            self.waiting.push(Waiting { word, left: count })?;
            return Ok(());
        }
        self.complete.push(word)?;
        self.end_argument()
    }

    /// Passes the nodes of a term, from the last to the first.
    fn pass_all(&mut self, syntax: &'a Syntax, nodes: &[Node]) -> Result<(), AllocError>
        requires { All (λ n. Within syntax.now.source n.word) nodes.now }
        ensures { OnOk result (state_of self.new
            ≡ passed (state_of self.old) (map (node_of syntax.now.source) nodes.now)) }
    {
        let mut at = nodes.len();
        while at > 0 {
            at -= 1;
            let node = nodes[at];
            self.pass(word_at(syntax, node.word), node.count)?;
        }
        Ok(())
    }

    /// Passes a whole term. Its words are then complete.
    pub(crate) fn pass_term(&mut self, syntax: &'a Syntax, term: &Term) -> Result<(), AllocError>
        requires term { IsTerm syntax.now.source term.now }
        requires waiting { self.old.waiting.items ≡ [] }
        requires complete { self.old.complete.items ≡ [] }
        ensures { OnOk result (as_words (reverse self.new.complete.items)
            ≡ heads (subterms (term_of syntax.now.source term.now))) }
    {
        self.pass_all(syntax, term.nodes())
    }

    /// Takes the first complete word.
    pub(crate) fn take(&mut self) -> Option<Word<'a>>
        ensures complete { self.old.complete.items
            ≡ self.new.complete.items ++ option_to_list result }
        ensures end { IfNone result (self.old.complete.items ≡ []) }
    {
        self.complete.pop()
    }
}
