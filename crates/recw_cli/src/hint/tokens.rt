//! The tokens of specifications, for hints.

use rec_syntax::{Part, TokenKind};

/// A token: its kind, or `None` if no token begins there, and its range in the text.
#[derive(Clone, Copy)]
pub struct Token {
    /// The kind.
    pub kind: Option<TokenKind>,
    /// The offset of the first byte.
    pub from: usize,
    /// The offset after the last byte.
    pub to: usize,
}

impl Token {
    /// Returns whether the token is of this kind.
    pub fn is(&self, kind: TokenKind) -> bool {
        match self.kind {
            Some(own) => own == kind,
            None => false,
        }
    }

    /// Returns the section that the token begins, if it begins one.
    pub fn part(&self) -> Option<Part> {
        match self.kind {
            Some(TokenKind::Section(part)) => Some(part),
            _ => None,
        }
    }
}

/// Returns the text from an offset on.
pub fn rest_of(text: &[u8], from: usize) -> &[u8] {
    match text.get(from..) {
        Some(rest) => rest,
        None => &[],
    }
}

/// Returns the first token from an offset on.
pub fn token_at(text: &[u8], from: usize) -> Token {
    let from = from
        .saturating_add(layout_length(rest_of(text, from)))
        .min(text.len());
    let (kind, length) = first_token(rest_of(text, from));
    Token {
        kind,
        from,
        to: from.saturating_add(length),
    }
}

/// Returns the number of bytes of layout and comments at the start of a text.
fn layout_length(text: &[u8]) -> usize {
    let mut is_comment = false;
    for (i, byte) in text.iter().enumerate() {
        if is_comment {
            is_comment = *byte != b'\n';
        } else if *byte == b'%' {
            is_comment = true;
        } else if !is_blank(*byte) {
            return i;
        }
    }
    text.len()
}

/// Returns whether a byte is layout.
pub fn is_blank(byte: u8) -> bool {
    matches!(byte, b' ' | b'\t' | b'\n' | b'\r')
}

/// Returns the kind of the token at the start of a text, and its length.
fn first_token(text: &[u8]) -> (Option<TokenKind>, usize) {
    match text {
        [] => (Some(TokenKind::End), 0),
        [b':', ..] => (Some(TokenKind::Colon), 1),
        [b'(', ..] => (Some(TokenKind::Open), 1),
        [b')', ..] => (Some(TokenKind::Close), 1),
        [b',', ..] => (Some(TokenKind::Comma), 1),
        [b'-', rest @ ..] => first_dash(rest),
        _ => first_word(text),
    }
}

/// Returns the kind of the token that begins with a `-` before a text, and its length.
fn first_dash(rest: &[u8]) -> (Option<TokenKind>, usize) {
    match rest {
        [b'>', b'<', b'-', ..] => (Some(TokenKind::Equal), 4),
        [b'>', b'/', b'<', b'-', ..] => (Some(TokenKind::Unequal), 5),
        [b'>', ..] => (Some(TokenKind::Arrow), 2),
        _ => (None, 1),
    }
}

/// Returns the kind of the word at the start of a text, and its length. At a byte that no token
/// begins with, that is a token without a kind.
fn first_word(text: &[u8]) -> (Option<TokenKind>, usize) {
    let length = word_length(text);
    match text.get(..length) {
        Some([]) | None => (None, 1),
        Some(word) => (Some(word_kind(word)), length),
    }
}

/// Returns the number of bytes of the word at the start of a text.
fn word_length(text: &[u8]) -> usize {
    for (i, byte) in text.iter().enumerate() {
        let is_part = match *byte {
            b'\'' => i > 0,
            b'-' => i > 0 && starts_word(text.get(i.saturating_add(1))),
            _ => starts_word(Some(byte)),
        };
        if !is_part {
            return i;
        }
    }
    text.len()
}

/// Returns whether a word can begin with this byte.
pub fn starts_word(byte: Option<&u8>) -> bool {
    match byte {
        Some(byte) => byte.is_ascii_alphanumeric() || *byte == b'_',
        None => false,
    }
}

/// Returns the kind of a word.
fn word_kind(word: &[u8]) -> TokenKind {
    for (reserved, kind) in &RESERVED {
        if word == reserved.as_bytes() {
            return *kind;
        }
    }
    TokenKind::PlainWord
}

/// The reserved words, with their kinds. All except the last two begin or end a section.
pub const RESERVED: [(&str, TokenKind); 10] = [
    ("REC-SPEC", TokenKind::RecSpec),
    ("SORTS", TokenKind::Section(Part::Sorts)),
    ("CONS", TokenKind::Section(Part::Cons)),
    ("OPNS", TokenKind::Section(Part::Opns)),
    ("VARS", TokenKind::Section(Part::Vars)),
    ("RULES", TokenKind::Section(Part::Rules)),
    ("EVAL", TokenKind::Section(Part::Eval)),
    ("END-SPEC", TokenKind::EndSpec),
    ("and-if", TokenKind::AndIf),
    ("if", TokenKind::If),
];

/// Returns the reserved word that begins a section.
pub fn word_of(part: Part) -> &'static str {
    match part {
        Part::Sorts => "SORTS",
        Part::Cons => "CONS",
        Part::Opns => "OPNS",
        Part::Vars => "VARS",
        Part::Rules => "RULES",
        Part::Eval => "EVAL",
    }
}

/// Returns the index of a section in the order of sections.
pub fn rank(part: Part) -> usize {
    match part {
        Part::Sorts => 0,
        Part::Cons => 1,
        Part::Opns => 2,
        Part::Vars => 3,
        Part::Rules => 4,
        Part::Eval => 5,
    }
}
