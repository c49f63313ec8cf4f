//! The kinds of tokens of the grammar.

ghost use Rattle.std.specs.Prelude.{List};
ghost use Rattle.rx_text.specs.Expected.{IsKindOf};
ghost use Rattle.rx_text.specs.Lexemes.{token_of};

use crate::lexer::LexemeKind;

/// A kind of token.
#[derive(Clone, Copy, PartialEq, Eq, Debug, Drop)]
pub enum TokenKind {
    /// An integer.
    Integer,
    /// A name, quoted or plain.
    Name,
    /// `(`.
    Open,
    /// `)`.
    Close,
    /// `[`.
    OpenBracket,
    /// `]`.
    CloseBracket,
    /// `{`.
    OpenBrace,
    /// `}`.
    CloseBrace,
    /// `<`.
    Less,
    /// `>`.
    Greater,
    /// `,`.
    Comma,
    /// The end of the text.
    End,
}

impl TokenKind {
    /// All kinds, each once.
    pub const ALL: [TokenKind; 12] = [
        TokenKind::Integer,
        TokenKind::Name,
        TokenKind::Open,
        TokenKind::Close,
        TokenKind::OpenBracket,
        TokenKind::CloseBracket,
        TokenKind::OpenBrace,
        TokenKind::CloseBrace,
        TokenKind::Less,
        TokenKind::Greater,
        TokenKind::Comma,
        TokenKind::End,
    ];

    /// Returns the kind of a token, or `None` for a bad token.
    pub(crate) fn of(token: LexemeKind) -> Option<TokenKind>
        ensures { IsKindOf result token }
    {
        match token {
            LexemeKind::Integer(_) => Some(TokenKind::Integer),
            LexemeKind::Name(_) => Some(TokenKind::Name),
            LexemeKind::Open => Some(TokenKind::Open),
            LexemeKind::Close => Some(TokenKind::Close),
            LexemeKind::OpenBracket => Some(TokenKind::OpenBracket),
            LexemeKind::CloseBracket => Some(TokenKind::CloseBracket),
            LexemeKind::OpenBrace => Some(TokenKind::OpenBrace),
            LexemeKind::CloseBrace => Some(TokenKind::CloseBrace),
            LexemeKind::Less => Some(TokenKind::Less),
            LexemeKind::Greater => Some(TokenKind::Greater),
            LexemeKind::Comma => Some(TokenKind::Comma),
            LexemeKind::Bad => None,
            LexemeKind::End => Some(TokenKind::End),
        }
    }
}
