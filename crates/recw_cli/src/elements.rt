//! The subterms of an input term, with their offsets in its text.

use std::alloc::{AllocError, Global};

/// The kind of a part.
#[derive(Clone, Copy, PartialEq, Eq)]
pub enum Kind {
    /// An application of an unquoted name.
    Plain,
    /// An application of a quoted name.
    Quoted,
    /// An integer.
    Integer,
    /// A list.
    List,
    /// A placeholder.
    Placeholder,
}

/// A part of an input term: the term itself, or a subterm that is reached through arguments.
/// Elements of lists and annotations are not parts.
#[derive(Clone, Copy, Drop)]
pub struct Part<'a> {
    /// Its kind.
    pub kind: Kind,
    /// Its name without quotes, or the digits of an integer.
    pub name: &'a [u8],
    /// Its offset in the text.
    pub at: usize,
    /// Its number of arguments.
    pub count: usize,
    /// Whether it has annotations.
    pub is_annotated: bool,
    /// The index of the part whose argument it is, and the argument's index.
    pub parent: Option<(usize, usize)>,
}

/// The term of a text that is examined.
#[derive(Clone, Copy)]
pub enum Which {
    /// The element of the list with this index, from 0.
    Element(usize),
    /// The whole text.
    Whole,
}

/// Returns the parts of a term in a syntactically correct text. A part comes before its arguments.
pub fn parts_of(alloc: Global, text: &[u8], which: Which) -> Result<Vec<Part<'_>>, AllocError> {
    let mut walk = Walk::new(alloc, which);
    walk.take_all(text)?;
    Ok(walk.parts)
}

/// A token of the ATerm grammar.
#[derive(Clone, Copy)]
pub enum Token<'a> {
    /// An integer.
    Integer(&'a [u8]),
    /// A name, quoted or not.
    Name(Kind, &'a [u8]),
    /// Any other token, by its first byte.
    Mark(u8),
}

/// A token with its location.
#[derive(Clone, Copy)]
pub struct Lexeme<'a> {
    /// The token.
    pub token: Token<'a>,
    /// The text from its first byte on.
    pub from: &'a [u8],
    /// The text after it.
    pub behind: &'a [u8],
}

/// Returns the first token of a text, if there is one.
pub fn next_lexeme(text: &[u8]) -> Option<Lexeme<'_>> {
    let from = without_layout(text);
    let (token, length) = first_token(from, *from.first()?)?;
    let (_, behind) = from.split_at(length.min(from.len()));
    Some(Lexeme {
        token,
        from,
        behind,
    })
}

/// Skips layout at the start of a text.
fn without_layout(text: &[u8]) -> &[u8] {
    let blanks = text.iter().take_while(|byte| is_layout(**byte)).count();
    let (_, from) = text.split_at(blanks.min(text.len()));
    from
}

/// Returns the token at the start of a text, whose first byte is `first`, and its length.
fn first_token(text: &[u8], first: u8) -> Option<(Token<'_>, usize)> {
    match first {
        b'"' => quoted_name(text),
        b'-' | b'0'..=b'9' => Some(integer(text)),
        b'_' | b'a'..=b'z' | b'A'..=b'Z' => Some(unquoted_name(text)),
        _ => Some((Token::Mark(first), 1)),
    }
}

/// Returns the integer at the start of a text, and its length.
fn integer(text: &[u8]) -> (Token<'_>, usize) {
    let (word, _) = text.split_at(digits_end(text).min(text.len()));
    (Token::Integer(word), word.len())
}

/// Returns the unquoted name at the start of a text, and its length.
fn unquoted_name(text: &[u8]) -> (Token<'_>, usize) {
    let (word, _) = text.split_at(name_end(text).min(text.len()));
    (Token::Name(Kind::Plain, word), word.len())
}

/// Returns whether a byte is layout.
fn is_layout(byte: u8) -> bool {
    matches!(byte, b' ' | b'\t' | b'\n' | b'\r')
}

/// Returns the quoted name at the start of a text, and its length with the quotes.
fn quoted_name(from: &[u8]) -> Option<(Token<'_>, usize)> {
    let (_, inside) = from.split_at(from.len().min(1));
    let length = quoted_length(inside)?;
    let (name, _) = inside.split_at(length.min(inside.len()));
    Some((Token::Name(Kind::Quoted, name), length.saturating_add(2)))
}

/// Returns the number of bytes before the closing quote.
fn quoted_length(text: &[u8]) -> Option<usize> {
    let mut is_escaped = false;
    for (i, byte) in text.iter().enumerate() {
        if is_escaped {
            is_escaped = false;
        } else if *byte == b'\\' {
            is_escaped = true;
        } else if *byte == b'"' {
            return Some(i);
        }
    }
    None
}

/// Returns the length of an integer.
fn digits_end(from: &[u8]) -> usize {
    let digits = from.iter().skip(1).position(|byte| !byte.is_ascii_digit());
    match digits {
        Some(count) => count.saturating_add(1),
        None => from.len(),
    }
}

/// Returns the length of an unquoted name.
fn name_end(from: &[u8]) -> usize {
    let end = from.iter().position(|byte| !is_name_byte(*byte));
    end.unwrap_or(from.len())
}

/// Returns whether an unquoted name may contain a byte.
fn is_name_byte(byte: u8) -> bool {
    byte.is_ascii_alphanumeric() || matches!(byte, b'_' | b'-' | b'+' | b'*' | b'$' | b'.')
}

/// A walk over the tokens of a text.
#[derive(Drop)]
struct Walk<'a> {
    /// The parts so far.
    parts: Vec<Part<'a>>,
    /// The indices of the applications whose argument lists are open, innermost last.
    open: Vec<usize>,
    /// The index of the part that was completed last.
    last: usize,
    /// Whether the previous token was the name of that part.
    is_named: bool,
    /// The number of open brackets inside a list or annotation, whose tokens are skipped.
    skipped: usize,
    /// The part whose annotation braces were opened by the previous token.
    braced: Option<usize>,
    /// The number of list elements that remain before the term.
    before: usize,
    /// Whether the opening bracket of the list is still to come.
    is_outside: bool,
    /// Whether the term is complete.
    is_over: bool,
}

impl<'a> Walk<'a> {
    /// Returns a walk before the first token.
    fn new(alloc: Global, which: Which) -> Walk<'a> {
        let (before, is_outside) = match which {
            Which::Element(before) => (before, true),
            Which::Whole => (0, false),
        };
        Walk {
            parts: Vec::new(alloc),
            open: Vec::new(alloc),
            last: 0,
            is_named: false,
            skipped: 0,
            braced: None,
            before,
            is_outside,
            is_over: false,
        }
    }

    /// Reads all tokens of a text.
    fn take_all(&mut self, text: &'a [u8]) -> Result<(), AllocError> {
        let mut rest = text;
        // each pass but the last consumes a byte
        for _ in 0..=text.len() {
            let Some(lexeme) = next_lexeme(rest) else {
                break;
            };
            let at = text.len().saturating_sub(lexeme.from.len());
            self.take(lexeme.token, at)?;
            rest = lexeme.behind;
        }
        Ok(())
    }

    /// Processes the token at offset `at`.
    fn take(&mut self, token: Token<'a>, at: usize) -> Result<(), AllocError> {
        if self.is_over {
            return Ok(());
        }
        if self.is_outside {
            self.is_outside = false;
            return Ok(());
        }
        if self.skipped > 0 {
            self.annotate(token);
            self.skip(token);
            return Ok(());
        }
        self.take_outside(token, at)
    }

    /// Processes a token that is not inside a list or annotation.
    fn take_outside(&mut self, token: Token<'a>, at: usize) -> Result<(), AllocError> {
        let was_named = self.is_named;
        self.is_named = matches!(token, Token::Name(_, _));
        match token {
            Token::Integer(word) => self.add(Kind::Integer, word, at),
            Token::Name(kind, name) => self.add(kind, name, at),
            Token::Mark(b'(') => self.begin_arguments(was_named, at),
            Token::Mark(b'[') => self.add_closed(Kind::List, at),
            Token::Mark(b'<') => self.add_closed(Kind::Placeholder, at),
            Token::Mark(mark) => {
                self.take_mark(mark);
                Ok(())
            }
        }
    }

    /// Skips a token inside a list or annotation.
    fn skip(&mut self, token: Token<'a>) {
        match token {
            Token::Mark(b'(' | b'[' | b'<' | b'{') => {
                self.skipped = self.skipped.saturating_add(1);
            }
            Token::Mark(b')' | b']' | b'>' | b'}') => {
                self.skipped = self.skipped.saturating_sub(1);
            }
            _ => {}
        }
    }

    /// Adds a part.
    fn add(&mut self, kind: Kind, name: &'a [u8], at: usize) -> Result<(), AllocError> {
        let parent = self.next_argument();
        self.last = self.parts.len();
        self.parts.push(Part {
            kind,
            name,
            at,
            count: 0,
            is_annotated: false,
            parent,
        })?;
        Ok(())
    }

    /// Counts one more argument of the innermost open application, and returns its index with the
    /// argument's index.
    fn next_argument(&mut self) -> Option<(usize, usize)> {
        let parent = self.open.last().copied()?;
        let before = count_argument(&mut self.parts, parent)?;
        Some((parent, before))
    }

    /// Adds a part without arguments.
    fn add_closed(&mut self, kind: Kind, at: usize) -> Result<(), AllocError> {
        self.skipped = 1;
        self.add(kind, &[], at)
    }

    /// Opens the argument list of the previous name, or of an application with an empty name.
    fn begin_arguments(&mut self, is_named: bool, at: usize) -> Result<(), AllocError> {
        if !is_named {
            self.add(Kind::Plain, &[], at)?;
        }
        self.open.push(self.last)?;
        Ok(())
    }

    /// Processes a mark that ends arguments or the term, or that begins annotations.
    fn take_mark(&mut self, mark: u8) {
        match mark {
            b')' => self.last = self.open.pop().unwrap_or(self.last),
            b'{' => {
                self.skipped = 1;
                self.braced = Some(self.last);
            }
            b',' if !self.open.is_empty() => {}
            b',' if self.before > 0 => {
                self.before = self.before.saturating_sub(1);
                self.parts.clear();
            }
            _ => self.is_over = true,
        }
    }

    /// Marks the part whose braces were just opened as annotated if this token begins an
    /// annotation. Empty braces are not annotations.
    fn annotate(&mut self, token: Token<'a>) {
        let Some(at) = self.braced.take() else {
            return;
        };
        if let Some(part) = self.parts.get_mut(at) {
            part.is_annotated = !matches!(token, Token::Mark(b'}'));
        }
    }
}

/// Counts one more argument of the part with this index. Returns the number before.
fn count_argument(parts: &mut [Part<'_>], at: usize) -> Option<usize> {
    let part = parts.get_mut(at)?;
    let before = part.count;
    part.count = before.saturating_add(1);
    Some(before)
}
