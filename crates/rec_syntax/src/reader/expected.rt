//! The kinds of tokens that are possible at the offset of a syntax error.

ghost use Rattle.std.specs.Prelude.{◌≡◌, ◌↔◌, ℕ, true, List, Contains, IfOk, is_some};
ghost use Rattle.rec_syntax.specs.Syntax as syntax;
ghost use Rattle.rec_syntax.specs.Syntax.{Spec};
ghost use Rattle.rec_syntax.specs.Inner.Machine.{start, between, complete, after, step};
ghost use Rattle.rec_syntax.specs.Inner.Reader.{level_of, role_of, due_of, open_of, state_of, IsAt};
ghost use Rattle.rec_syntax.specs.Lexemes.{token_of};
ghost use Rattle.rec_syntax.specs.Expected.{is_taken, AreExpected, IsAtFault};

use super::items::is_later;
use super::{Due, Reader, Role};
use crate::lexer::{LexemeKind, Part, next};
use crate::token_kind::TokenKind;
use std::alloc::{AllocError, Global};

/// Returns whether a token of this kind can follow a whole item of the open section.
fn is_after_item(level: Option<Part>, kind: TokenKind) -> bool
    ensures { (y : Spec) → result ≡ is_taken (between (level_of level) y) kind }
{
    match kind {
        TokenKind::PlainWord => level.is_some(),
        TokenKind::Section(part) => is_later(level, part),
        TokenKind::EndSpec => true,
        _ => false,
    }
}

/// Returns whether a token of this kind can follow a whole term that is not an argument.
fn is_after_whole(role: &Role, kind: TokenKind) -> bool
    ensures { (bytes : List ℕ) (t : syntax.Term) (y : Spec)
        → result ≡ is_taken (complete (role_of bytes role.now) t y) kind }
{
    match role {
        Role::Left => matches!(kind, TokenKind::Arrow),
        Role::Right(_) => match kind {
            TokenKind::If => true,
            _ => is_after_item(Some(Part::Rules), kind),
        },
        Role::ConditionLeft(_) => matches!(kind, TokenKind::Equal | TokenKind::Unequal),
        Role::ConditionRight(_, _, _) => match kind {
            TokenKind::AndIf => true,
            _ => is_after_item(Some(Part::Rules), kind),
        },
        Role::InEval => is_after_item(Some(Part::Eval), kind),
    }
}

impl Reader {
    /// Returns whether a token of this kind can follow a whole term.
    fn is_after_term(&self, kind: TokenKind) -> bool
        ensures { (t : syntax.Term) (y : Spec) (made : List syntax.Term)
            → result ≡ is_taken (after (role_of self.now.source.items self.now.role) t
            (open_of self.now.source.items self.now made) y) kind }
    {
        if self.calls.is_empty() {
            is_after_whole(&self.role, kind)
        } else {
            matches!(kind, TokenKind::Comma | TokenKind::Close)
        }
    }

    /// Returns whether a token of this kind can come next.
    fn is_expected(&self, due: Due, kind: TokenKind) -> bool
        ensures { (y : Spec)
            → result ≡ is_taken (step (due_of self.now.source.items due self.now) y) kind }
    {
        match due {
            Due::Start => matches!(kind, TokenKind::RecSpec),
            Due::Title | Due::ResultSort(_, _) | Due::GroupSort(_) | Due::AtTerm => {
                matches!(kind, TokenKind::PlainWord)
            }
            Due::Between(level) => is_after_item(level, kind),
            Due::Named(_, _) => matches!(kind, TokenKind::Colon),
            Due::Arguments(_, _) => matches!(kind, TokenKind::PlainWord | TokenKind::Arrow),
            Due::Grouped(_) => matches!(kind, TokenKind::PlainWord | TokenKind::Colon),
            Due::Called(_) => match kind {
                TokenKind::Open => true,
                _ => self.is_after_term(kind),
            },
            Due::First(_) => matches!(kind, TokenKind::PlainWord | TokenKind::Close),
            Due::After => self.is_after_term(kind),
            Due::Ended => matches!(kind, TokenKind::End),
            Due::Done => false,
        }
    }

    /// Returns the kinds of tokens that can come next.
    fn expected_kinds(&self, alloc: Global, due: Due) -> Result<Vec<TokenKind>, AllocError>
        ensures { (y : Spec) → IfOk result (λ kinds. (k : TokenKind) → Contains kinds.items k
            ↔ (is_taken (step (due_of self.now.source.items due self.now) y) k ≡ true)) }
    {
        let mut kinds = Vec::new(alloc);
        for kind in TokenKind::ALL {
            if self.is_expected(due, kind) {
                kinds.push(kind)?;
            }
        }
        Ok(kinds)
    }

    /// Returns whether the reader can take this token next.
    fn may_take(&self, due: Due, token: LexemeKind) -> bool
        ensures { let bytes = self.now.source.items in (y : Spec)
            → result ≡ is_some (step (due_of bytes due self.now) y (token_of bytes token)) }
    {
        match TokenKind::of(token) {
            Some(kind) => self.is_expected(due, kind),
            None => false,
        }
    }

    /// Reads the tokens before the error offset, from the first one on, and returns the control
    /// state there.
    fn read_to_fault(&mut self) -> Result<Due, AllocError>
        requires start { state_of self.old.source.items Due.Start self.old ≡ start }
        requires state { IsAt Due.Start self.old }
        ensures same { self.new.source ≡ self.old.source }
        ensures reached { IfOk result (λ due. IsAtFault self.old.source.items due self.new) }
    {
        let mut due = Due::Start;
        let mut from = 0;
        loop {
            let lexeme = next(&self.source, from);
            if !self.may_take(due, lexeme.kind) {
                return Ok(due);
            }
            due = match self.step(due, lexeme.kind) {
                Ok(due) => due,
                Err(_) => return Err(AllocError),
            };
            if let LexemeKind::End = lexeme.kind {
                return Ok(due);
            }
            from = lexeme.to;
        }
    }

    /// Returns the kinds of tokens that are possible at the error offset. The reader is before the
    /// first token.
    fn expected_in_text(&mut self, alloc: Global) -> Result<Vec<TokenKind>, AllocError>
        requires start { state_of self.old.source.items Due.Start self.old ≡ start }
        requires state { IsAt Due.Start self.old }
        ensures { IfOk result (λ kinds. AreExpected self.old.source.items kinds.items) }
    {
        let due = self.read_to_fault()?;
        self.expected_kinds(alloc, due)
    }
}

/// Returns the kinds of tokens that are possible at the error offset of this text.
fn expected_in(alloc: Global, source: Vec<u8>) -> Result<Vec<TokenKind>, AllocError>
    ensures { IfOk result (λ kinds. AreExpected source.items kinds.items) }
{
    Reader::new(alloc, source).expected_in_text(alloc)
}

/// Returns the kinds of tokens that are possible at the offset of the syntax error: each kind of
/// which some text of the grammar has a token there, after the tokens before it. For a text without
/// a syntax error nothing is promised. Reads the text once up to the error.
pub fn expected_at_fault(alloc: Global, bytes: &[u8]) -> Result<Vec<TokenKind>, AllocError>
    ensures { IfOk result (λ kinds. AreExpected bytes.now kinds.items) }
{
    let source = Vec::from_slice(alloc, bytes)?;
    expected_in(alloc, source)
}
