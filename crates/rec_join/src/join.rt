//! One text of several.

ghost use Rattle.std.specs.Prelude.{◌≡◌, All, IfErr, IfNone, IfOk, IfSome};
ghost use Rattle.rec_syntax.specs.Grammar.{SpecText};
ghost use Rattle.rec_join.specs.Inner.Nodes.{specs_of};
ghost use Rattle.rec_join.specs.Join.{
  AreSpelled,
  Covers,
  IsCopied,
  IsJoinFault,
  IsJoined,
  IsOrigin,
  texts_of,
};

use crate::agree::agrees;
use crate::fault::JoinFault;
use crate::layout::{Layout, Piece, are_copied, lay_out};
use rec_syntax::{Syntax, SyntaxFault, read_owned, read_spec};
use std::alloc::{AllocError, Global};

/// A text to be joined, and its name in the comments of the joined text.
#[derive(Clone, Copy, Drop)]
pub struct Part<'a> {
    pub name: &'a [u8],
    pub text: &'a [u8],
}

/// A byte of a part: the index of the part, and the offset in its text.
#[derive(Clone, Copy, PartialEq, Eq, Debug, Drop)]
pub struct Origin {
    pub part: usize,
    pub at: usize,
}

/// A specification that was joined of parts, with its text.
#[derive(Drop)]
pub struct Joined {
    /// The specification, which has the joined text as its source.
    pub syntax: Syntax,
    /// The bytes of the joined text that were copied from the parts.
    pub pieces: Vec<Piece>,
}

impl Joined {
    /// Returns where the byte of the joined text at an offset was copied from, or `None` if it was
    /// added. Linear in the number of pieces.
    pub fn origin(&self, at: usize) -> Option<Origin>
        ensures copied { IfSome result (IsOrigin self.now.pieces.items at) }
        ensures added { IfNone result (All (λ p. ¬ Covers at p) self.now.pieces.items) }
    {
        for piece in &self.pieces {
            let fits = piece.from <= usize::MAX - piece.length;
            if fits && piece.at <= at && at - piece.at < piece.length {
                return Some(Origin {
                    part: piece.part,
                    at: piece.from + (at - piece.at),
                });
            }
        }
        None
    }
}

/// Returns the specifications of the parts, or the error of the first that has none.
fn read_parts(alloc: Global, parts: &[Part<'_>]) -> Result<Vec<Syntax>, JoinFault>
    ensures spelled { IfOk result (λ v. AreSpelled (texts_of parts.now) (specs_of v.items)) }
    ensures fault { IfErr result (IsJoinFault (texts_of parts.now)) }
{
    let mut syntaxes = Vec::new(alloc);
    for (index, part) in parts.iter().enumerate() {
        match read_spec(alloc, part.text) {
            Ok(syntax) => {
                if syntaxes.push(syntax).is_err() {
                    return Err(JoinFault::Memory);
                }
            }
            Err(SyntaxFault::Memory) => return Err(JoinFault::Memory),
            Err(SyntaxFault::Long) => return Err(JoinFault::Long { part: index }),
            Err(SyntaxFault::Grammar { at }) => {
                return Err(JoinFault::Grammar { part: index, at });
            }
        }
    }
    Ok(syntaxes)
}

/// Reads a joined text, and compares it with the parts.
fn confirmed(
    alloc: Global,
    layout: Layout,
    parts: &[Part<'_>],
    syntaxes: &[Syntax],
) -> Result<Joined, JoinFault>
    requires { AreSpelled (texts_of parts.now) (specs_of syntaxes.now) }
    ensures spelled { IfOk result (λ j. SpecText j.syntax.source j.syntax.spec) }
    ensures joined { IfOk result (λ j. IsJoined (texts_of parts.now) j.syntax.spec) }
    ensures copied { IfOk result (λ j. All
        (IsCopied (texts_of parts.now) j.syntax.source) j.pieces.items) }
    ensures fault { IfErr result (IsJoinFault (texts_of parts.now)) }
{
    let Layout { text, pieces } = layout;
    let syntax = match read_owned(alloc, text) {
        Ok(syntax) => syntax,
        Err(SyntaxFault::Memory) => return Err(JoinFault::Memory),
        Err(SyntaxFault::Long) => return Err(JoinFault::TooLong),
        Err(SyntaxFault::Grammar { at: _ }) => return Err(JoinFault::Mismatch),
    };
    if agrees(&syntax, syntaxes) && are_copied(parts, syntax.source(), &pieces) {
        Ok(Joined { syntax, pieces })
    } else {
        Err(JoinFault::Mismatch)
    }
}

/// Returns the specification of the parts together: their sections one after another, under the
/// name of the last part. Its text has the comments of the parts, and before each part of a section
/// a comment with the part's name. Fails with the first part that is no specification, or if the
/// joined text is too long. Linear in the texts.
pub fn join_texts(alloc: Global, parts: &[Part<'_>]) -> Result<Joined, JoinFault>
    ensures spelled { IfOk result (λ j. SpecText j.syntax.source j.syntax.spec) }
    ensures joined { IfOk result (λ j. IsJoined (texts_of parts.now) j.syntax.spec) }
    ensures copied { IfOk result (λ j. All
        (IsCopied (texts_of parts.now) j.syntax.source) j.pieces.items) }
    ensures fault { IfErr result (IsJoinFault (texts_of parts.now)) }
{
    if parts.is_empty() {
        return Err(JoinFault::Empty);
    }
    let syntaxes = read_parts(alloc, parts)?;
    match lay_out(alloc, parts, &syntaxes) {
        Ok(layout) => confirmed(alloc, layout, parts, &syntaxes),
        Err(AllocError) => Err(JoinFault::Memory),
    }
}
