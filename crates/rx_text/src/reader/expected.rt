//! The expected tokens at the offset of a syntax error.

ghost use Rattle.std.specs.Prelude.{◌≡◌, ◌≤◌, ◌<◌, ◌↔◌, ◌∷◌, ℕ, true, List, Contains, IfOk};
ghost use Rattle.std.specs.Prelude.{IsErrOf, is_some, length, reverse};
ghost use Rattle.rx_term.specs.Tree.{Tree};
ghost use Rattle.rx_text.specs.Machine as machine;
ghost use Rattle.rx_text.specs.Machine.{start, close, first, whole, step};
ghost use Rattle.rx_text.specs.Reader.{frame_of, frames_of, due_of, owned};
ghost use Rattle.rx_text.specs.Lexemes.{token_of};
ghost use Rattle.rx_text.specs.Verdict.{longest};
ghost use Rattle.rx_text.specs.Expected.{is_taken, AreExpected, IsAtFault};

use super::{Due, Opening, Reader};
use crate::faults::TextFault;
use crate::lexer::{LexemeKind, next};
use crate::reading::LONGEST;
use crate::token_kind::TokenKind;
use std::alloc::{AllocError, Global};

/// Returns whether a term can start with a token of this kind.
fn begins_term(kind: TokenKind) -> bool
    ensures { (fs : List machine.Frame) → result ≡ is_taken (start fs) kind }
{
    matches!(
        kind,
        TokenKind::Integer
            | TokenKind::Name
            | TokenKind::Open
            | TokenKind::OpenBracket
            | TokenKind::Less
    )
}

/// Returns whether this mark closes the open group.
fn closes(opening: Opening, kind: TokenKind) -> bool
    ensures { (bytes : List ℕ) (n : ℕ) (made : List Tree) (fs : List machine.Frame)
        → result ≡ is_taken (close (frame_of bytes opening n made) fs) kind }
{
    match opening {
        Opening::Arguments(_) => matches!(kind, TokenKind::Close),
        Opening::List => matches!(kind, TokenKind::CloseBracket),
        Opening::Annotations => matches!(kind, TokenKind::CloseBrace),
        Opening::Placeholder => false,
    }
}

/// Returns whether a token of this kind can follow the mark that opens this group.
fn is_first(opening: Opening, kind: TokenKind) -> bool
    ensures { (bytes : List ℕ) (n : ℕ) (made : List Tree) (fs : List machine.Frame)
        → result ≡ is_taken (first (frame_of bytes opening n made) fs) kind }
{
    match kind {
        TokenKind::Close | TokenKind::CloseBracket | TokenKind::CloseBrace => closes(opening, kind),
        _ => begins_term(kind),
    }
}

/// Returns whether a token of this kind can follow a complete item of this group.
fn is_after_item(opening: Opening, kind: TokenKind) -> bool
    ensures { (bytes : List ℕ) (u : Tree) (n : ℕ) (made : List Tree) (fs : List machine.Frame)
        → result ≡ is_taken (whole u (frame_of bytes opening n made ∷ fs)) kind }
{
    match opening {
        Opening::Placeholder => matches!(kind, TokenKind::Greater),
        _ => match kind {
            TokenKind::Comma => true,
            _ => closes(opening, kind),
        },
    }
}

impl<'a> Reader<'a> {
    /// Returns whether a token of this kind can follow a term with its annotations.
    fn is_after_whole(&self, kind: TokenKind) -> bool
        ensures { (u : Tree) (made : List Tree) → result ≡ is_taken
            (whole u (frames_of self.now.bytes.now (reverse self.now.frames.items) made)) kind }
    {
        match self.frames.last() {
            None => matches!(kind, TokenKind::End),
            Some(frame) => is_after_item(frame.opening, kind),
        }
    }

    /// Returns whether the parser accepts a token of this kind in this state.
    fn is_expected(&self, due: Due, kind: TokenKind) -> bool
        ensures { (made : List Tree) → result ≡ is_taken (step (due_of self.now.bytes.now due made)
            (frames_of self.now.bytes.now (reverse self.now.frames.items) (owned due made))) kind }
    {
        match due {
            Due::AtTerm => begins_term(kind),
            Due::First(opening) => is_first(opening, kind),
            Due::Named(_) => match kind {
                TokenKind::Open | TokenKind::OpenBrace => true,
                _ => self.is_after_whole(kind),
            },
            Due::Body => match kind {
                TokenKind::OpenBrace => true,
                _ => self.is_after_whole(kind),
            },
            Due::Whole => self.is_after_whole(kind),
            Due::Done => false,
        }
    }

    /// Returns the kinds of tokens that the parser accepts in this state.
    fn expected_kinds(&self, alloc: Global, due: Due) -> Result<Vec<TokenKind>, AllocError>
        ensures { (made : List Tree) → IfOk result
            (λ kinds. (k : TokenKind) → Contains kinds.items k
            ↔ (is_taken (step (due_of self.now.bytes.now due made) (frames_of self.now.bytes.now
            (reverse self.now.frames.items) (owned due made))) k ≡ true)) }
    {
        let mut kinds = Vec::new(alloc);
        for kind in TokenKind::ALL {
            if self.is_expected(due, kind) {
                kinds.push(kind)?;
            }
        }
        Ok(kinds)
    }

    /// Returns whether the parser accepts this token in this state.
    fn may_take(&self, due: Due, token: LexemeKind) -> bool
        ensures { (made : List Tree) → result ≡ is_some
            (step (due_of self.now.bytes.now due made) (frames_of self.now.bytes.now
            (reverse self.now.frames.items) (owned due made)) (token_of self.now.bytes.now token)) }
    {
        match TokenKind::of(token) {
            Some(kind) => self.is_expected(due, kind),
            None => false,
        }
    }
}

/// Reads the tokens before the syntax error. Returns the parser and its state at that offset.
fn read_to_fault(alloc: Global, bytes: &[u8]) -> Result<(Due, Reader<'_>), AllocError>
    requires { length bytes.now ≤ longest }
    ensures same { IfOk result (λ at. at.1.bytes.now ≡ bytes.now) }
    ensures reached { IfOk result (λ at. IsAtFault bytes.now at.0 at.1) }
{
    let mut reader = Reader {
        bytes,
        frames: Vec::new(alloc),
        nodes: Vec::new(alloc),
    };
    let mut due = Due::AtTerm;
    let mut from = 0;
    loop {
        let lexeme = next(reader.bytes, from);
        if !reader.may_take(due, lexeme.kind) {
            return Ok((due, reader));
        }
        due = match reader.step(due, lexeme.kind) {
            Ok(due) => due,
            Err(_) => return Err(AllocError),
        };
        if let LexemeKind::End = lexeme.kind {
            return Ok((due, reader));
        }
        from = lexeme.to;
    }
}

/// Returns the expected tokens of a text with a syntax error: each kind of token that some valid
/// text has at the offset of the error, after the same tokens.
///
/// Returns `Long` if the text has more than [`LONGEST`](crate::LONGEST) bytes.
pub fn expected_at_fault(alloc: Global, bytes: &[u8]) -> Result<Vec<TokenKind>, TextFault>
    ensures expected { IfOk result (λ kinds. AreExpected bytes.now kinds.items) }
    ensures long { IsErrOf result TextFault.Long ↔ (longest < length bytes.now) }
{
    if bytes.len() > LONGEST {
        return Err(TextFault::Long);
    }
    let (due, reader) = read_to_fault(alloc, bytes)?;
    Ok(reader.expected_kinds(alloc, due)?)
}
