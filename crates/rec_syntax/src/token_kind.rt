//! The kinds of tokens of the grammar, as error messages name them.

ghost use Rattle.std.specs.Prelude.{List};
ghost use Rattle.rec_syntax.specs.Expected.{IsKindOf};
ghost use Rattle.rec_syntax.specs.Lexemes.{token_of};

use crate::lexer::{LexemeKind, Part};

/// A kind of token.
#[derive(Clone, Copy, PartialEq, Eq, Debug, Drop)]
pub enum TokenKind {
    /// An identifier: a word that is not reserved.
    PlainWord,
    /// `REC-SPEC`.
    RecSpec,
    /// The reserved word with which a section begins.
    Section(Part),
    /// `END-SPEC`.
    EndSpec,
    /// `if`.
    If,
    /// `and-if`.
    AndIf,
    /// `:`.
    Colon,
    /// `(`.
    Open,
    /// `)`.
    Close,
    /// `,`.
    Comma,
    /// `->`.
    Arrow,
    /// `-><-`.
    Equal,
    /// `->/<-`.
    Unequal,
    /// The end of the text.
    End,
}

impl TokenKind {
    /// All kinds, each once.
    pub const ALL: [TokenKind; 19] = [
        TokenKind::PlainWord,
        TokenKind::RecSpec,
        TokenKind::Section(Part::Sorts),
        TokenKind::Section(Part::Cons),
        TokenKind::Section(Part::Opns),
        TokenKind::Section(Part::Vars),
        TokenKind::Section(Part::Rules),
        TokenKind::Section(Part::Eval),
        TokenKind::EndSpec,
        TokenKind::If,
        TokenKind::AndIf,
        TokenKind::Colon,
        TokenKind::Open,
        TokenKind::Close,
        TokenKind::Comma,
        TokenKind::Arrow,
        TokenKind::Equal,
        TokenKind::Unequal,
        TokenKind::End,
    ];

    /// Returns the kind of a token, or `None` for a bad token.
    pub(crate) fn of(token: LexemeKind) -> Option<TokenKind>
        ensures { IsKindOf result token }
    {
        match token {
            LexemeKind::Plain(_) => Some(TokenKind::PlainWord),
            LexemeKind::RecSpec => Some(TokenKind::RecSpec),
            LexemeKind::Head(part) => Some(TokenKind::Section(part)),
            LexemeKind::EndSpec => Some(TokenKind::EndSpec),
            LexemeKind::If => Some(TokenKind::If),
            LexemeKind::AndIf => Some(TokenKind::AndIf),
            LexemeKind::Colon => Some(TokenKind::Colon),
            LexemeKind::Open => Some(TokenKind::Open),
            LexemeKind::Close => Some(TokenKind::Close),
            LexemeKind::Comma => Some(TokenKind::Comma),
            LexemeKind::Arrow => Some(TokenKind::Arrow),
            LexemeKind::Equal => Some(TokenKind::Equal),
            LexemeKind::Unequal => Some(TokenKind::Unequal),
            LexemeKind::Bad => None,
            LexemeKind::End => Some(TokenKind::End),
        }
    }
}
