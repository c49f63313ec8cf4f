//! The declarations of a specification, by name.

use rec_syntax::{Declaration, Span, Syntax};

/// Returns the bytes of a word.
pub fn word_in(text: &[u8], span: Span) -> &[u8] {
    match text.get(span.from..span.to) {
        Some(word) => word,
        None => &[],
    }
}

/// Returns the word that begins at this offset.
pub fn word_at(text: &[u8], at: usize) -> &[u8] {
    let (_, rest) = text.split_at(at.min(text.len()));
    let (word, _) = rest.split_at(word_length(rest).min(rest.len()));
    word
}

/// Returns the length of the word at the beginning of a text.
fn word_length(text: &[u8]) -> usize {
    for (i, byte) in text.iter().enumerate() {
        if !is_word_byte(*byte) || (*byte == b'-' && !joins(text, i)) {
            return i;
        }
    }
    text.len()
}

/// Returns whether a part of a word follows a `-`.
fn joins(text: &[u8], at: usize) -> bool {
    match text.get(at.saturating_add(1)) {
        Some(next) => next.is_ascii_alphanumeric() || *next == b'_',
        None => false,
    }
}

/// Returns the offset after the token that begins at an offset. A byte without a token ends its
/// character; at the end of the text there is no token.
pub fn token_end(text: &[u8], at: usize) -> usize {
    let (_, rest) = text.split_at(at.min(text.len()));
    let length = match rest {
        [] => 0,
        [b'-', b'>', b'/', b'<', b'-', ..] => 5,
        [b'-', b'>', b'<', b'-', ..] => 4,
        [b'-', b'>', ..] => 2,
        [byte, ..] if byte.is_ascii_alphanumeric() || *byte == b'_' => word_length(rest),
        [byte, ..] if byte.is_ascii() => 1,
        [_, more @ ..] => {
            let others = more.iter().take_while(|byte| matches!(**byte, 0x80..=0xBF));
            others.count().saturating_add(1)
        }
    };
    at.saturating_add(length)
}

/// Returns whether a word may contain this byte.
pub fn is_word_byte(byte: u8) -> bool {
    byte.is_ascii_alphanumeric() || matches!(byte, b'_' | b'\'' | b'-')
}

/// Returns the first declaration of a sort.
pub fn find_sort(syntax: &Syntax, name: &[u8]) -> Option<Span> {
    let text = syntax.source();
    syntax
        .sorts()
        .iter()
        .find(|sort| word_in(text, **sort) == name)
        .copied()
}

/// Returns the name of the symbol that `name` spells with escapes, or `name` itself if it has no
/// escapes or spells no symbol.
pub fn declared_spelling<'s>(syntax: &'s Syntax, name: &'s [u8]) -> &'s [u8] {
    if !name.contains(&b'\\') {
        return name;
    }
    let text = syntax.source();
    let symbols = syntax
        .constructors()
        .iter()
        .chain(syntax.operators().iter());
    for symbol in symbols {
        let word = word_in(text, symbol.name);
        if spells(name, word) {
            return word;
        }
    }
    name
}

/// Returns whether a quoted name, with its escapes, spells a word. No word contains a byte that is
/// written as `\n`, `\t`, `\r`, `\\` or `\"`, so only octal escapes can spell a byte of a word.
fn spells(name: &[u8], word: &[u8]) -> bool {
    let mut rest = name;
    for byte in word {
        let Some((spelt, after)) = first_spelt(rest) else {
            return false;
        };
        if spelt != *byte {
            return false;
        }
        rest = after;
    }
    rest.is_empty()
}

/// Returns the byte that the first item of a name spells, and the items after it. Returns `None` if
/// there is no item, or if the byte cannot be part of a word.
fn first_spelt(name: &[u8]) -> Option<(u8, &[u8])> {
    match name {
        [
            b'\\',
            high @ b'0'..=b'3',
            middle @ b'0'..=b'7',
            low @ b'0'..=b'7',
            after @ ..,
        ] => {
            let byte = (high - b'0') * 64 + (middle - b'0') * 8 + (low - b'0');
            Some((byte, after))
        }
        [b'\\', ..] => None,
        [byte, after @ ..] => Some((*byte, after)),
        [] => None,
    }
}

/// Returns the first declaration of a symbol.
pub fn find_symbol<'s>(syntax: &'s Syntax, name: &[u8]) -> Option<&'s Declaration> {
    let text = syntax.source();
    match find_declaration(text, syntax.constructors(), name) {
        Some(declaration) => Some(declaration),
        None => find_declaration(text, syntax.operators(), name),
    }
}

/// Returns the first of these declarations that has this name.
fn find_declaration<'s>(
    text: &[u8],
    declarations: &'s [Declaration],
    name: &[u8],
) -> Option<&'s Declaration> {
    declarations
        .iter()
        .find(|declaration| word_in(text, declaration.name) == name)
}

/// Returns the first declaration of a variable, and its sort.
pub fn find_variable(syntax: &Syntax, name: &[u8]) -> Option<(Span, Span)> {
    let text = syntax.source();
    for group in syntax.groups() {
        if word_in(text, group.first) == name {
            return Some((group.first, group.sort));
        }
        for word in group.others.iter() {
            if word_in(text, *word) == name {
                return Some((*word, group.sort));
            }
        }
    }
    None
}

/// Returns the sort of a symbol or of a variable.
pub fn sort_of<'s>(syntax: &'s Syntax, name: &[u8]) -> Option<&'s [u8]> {
    let sort = match find_symbol(syntax, name) {
        Some(declaration) => declaration.sort,
        None => find_variable(syntax, name)?.1,
    };
    Some(word_in(syntax.source(), sort))
}
