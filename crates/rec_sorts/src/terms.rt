//! The items of a term: their declarations, numbers of arguments, and sorts.

ghost use Rattle.std.specs.Prelude.{◌≡◌, [], IfOk, OnOk, All, map};
ghost use Rattle.rec_syntax.specs.Parts.{Within, IsTerm, node_of, term_of};
ghost use Rattle.rec_sorts.specs.Letters.{bare, unknown_among};

use crate::letters::{Letter, Meaning};
use crate::places::{TermPlaces, earlier_place, number, place_where};
use crate::scope::Scope;
use rec_syntax::{Node, Term};
use std::alloc::{AllocError, Global};

/// A postfix item with its offset. Its meaning is `None` if the name is not declared.
#[derive(Clone, Copy, Debug)]
pub struct Placed {
    pub meaning: Option<Meaning>,
    pub count: u32,
    pub at: u32,
}

/// Buffers for the items of two terms and for the roots of a term's arguments. They are reused for
/// each term.
#[derive(Drop)]
pub struct Room {
    pub left: Vec<Placed>,
    pub right: Vec<Placed>,
    pub heads: Vec<Placed>,
}

impl Room {
    /// Returns empty buffers.
    pub fn new(alloc: Global) -> Room {
        Room {
            left: Vec::new(alloc),
            right: Vec::new(alloc),
            heads: Vec::new(alloc),
        }
    }
}

/// Returns the items without their offsets. A name that is not declared becomes symbol 0.
pub fn bare_letters(alloc: Global, letters: &[Placed]) -> Result<Vec<Letter>, AllocError>
    ensures { IfOk result (λ v. v.items ≡ bare letters.now) }
{
    let mut kept = Vec::with_capacity(alloc, letters.len())?;
    for placed in letters {
        kept.push(Letter {
            meaning: placed.meaning.unwrap_or(Meaning::Symbol(0)),
            count: placed.count,
        })?;
    }
    Ok(kept)
}

/// Returns the least offset of a name that is not declared.
fn unknown_place(letters: &[Placed]) -> Option<u32>
    ensures { result ≡ unknown_among letters.now }
{
    let mut least = None;
    for placed in letters {
        least = earlier_place(least, place_where(placed.meaning.is_none(), placed.at));
    }
    least
}

impl Scope<'_> {
    ghost use Rattle.rec_sorts.specs.Letters.{placed_by, ill_filled_among, misplaced};
    ghost use Rattle.rec_sorts.specs.Letters.{ill_sorted_among};
    ghost use Rattle.rec_sorts.specs.Reading.{IsReadTerm};

    /// Reads the items of a term; they replace the contents of `letters`.
    fn letters(&self, nodes: &[Node], letters: &mut Vec<Placed>) -> Result<(), AllocError>
        requires { All (λ n. Within self.now.source.now n.word) nodes.now }
        ensures { OnOk result (letters.new.items
            ≡ map (placed_by self.now) (map (node_of self.now.source.now) nodes.now)) }
    {
        letters.clear();
        for node in nodes {
            letters.push(Placed {
                meaning: self.meaning(self.word(node.word)),
                count: number(node.count)?,
                at: number(node.word.from)?,
            })?;
        }
        Ok(())
    }

    /// Returns the least offset of a name with the wrong number of arguments.
    fn ill_filled_place(&self, letters: &[Placed]) -> Option<u32>
        ensures { result ≡ ill_filled_among self.now letters.now }
    {
        let mut least = None;
        for placed in letters {
            let filled = placed.count as usize == self.arguments(placed.meaning).len();
            least = earlier_place(least, place_where(!filled, placed.at));
        }
        least
    }

    /// Returns the least offset of an argument whose sort is not the one for its position.
    fn misplaced_place(&self, arguments: &[Placed], sorts: &[Option<u32>]) -> Option<u32>
        ensures { result ≡ misplaced self.now arguments.now sorts.now }
    {
        let mut least = None;
        for (argument, sort) in arguments.iter().zip(sorts) {
            let fits = self.sort(argument.meaning) == *sort;
            least = earlier_place(least, place_where(!fits, argument.at));
        }
        least
    }

    /// Returns the least offset of an argument whose sort is not the declared one. `heads` is a
    /// stack of the roots of the terms so far.
    fn ill_sorted_place(
        &self,
        letters: &[Placed],
        heads: &mut Vec<Placed>,
    ) -> Result<Option<u32>, AllocError>
        ensures { IfOk result (λ least. least ≡ ill_sorted_among self.now [] letters.now) }
    {
        heads.clear();
        let mut least = None;
        for placed in letters {
            let base = heads.len().saturating_sub(placed.count as usize);
            let sorts = self.arguments(placed.meaning);
            least = earlier_place(least, self.misplaced_place(&heads[base..], sorts));
            heads.truncate(base);
            heads.push(*placed)?;
        }
        Ok(least)
    }

    /// Reads the items of a term, which replace the contents of `letters`, and returns the offsets
    /// at which the term on its own violates rules.
    pub fn term(
        &self,
        term: &Term,
        letters: &mut Vec<Placed>,
        heads: &mut Vec<Placed>,
    ) -> Result<TermPlaces, AllocError>
        requires { IsTerm self.now.source.now term.now }
        ensures { IfOk result (IsReadTerm self.now (term_of self.now.source.now term.now)
            letters.new.items) }
    {
        self.letters(term.nodes(), letters)?;
        Ok(TermPlaces {
            unknown: unknown_place(letters),
            ill_filled: self.ill_filled_place(letters),
            ill_sorted: self.ill_sorted_place(letters, heads)?,
            ..TermPlaces::NONE
        })
    }
}
