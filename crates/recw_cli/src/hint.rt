//! Hints for a specification or an annotated term outside its grammar: what is written in place of
//! what the grammar has there.

mod annotated;
mod bytes;
mod change;
mod declarations;
mod fault;
mod reserved;
mod sections;
mod terms;
mod tokens;

use crate::names::word_in;
pub use annotated::find_term_hint;
pub use change::Change;
use fault::Fault;
use rec_syntax::{Part, Span};
use std::alloc::Global;
use std::io;
use std::io::Write;
use tokens::word_of;

/// The number of tokens that are read of a changed text if a change is right that is hardly
/// doubtful.
pub const NEAR: usize = 2;

/// The number of tokens that are read of a changed text if a doubtful change is right.
pub const FAR: usize = 3;

/// A hint about a part of a text.
#[derive(Clone, Copy)]
pub struct Hint {
    /// The offset of the part.
    pub from: usize,
    /// The offset after the part.
    pub to: usize,
    /// What is wrong with it.
    kind: HintKind,
    /// What to write, if one change of the text is right.
    change: Option<Change>,
}

/// What is wrong with a part of a text.
#[derive(Clone, Copy)]
pub enum HintKind {
    /// Words that need nothing else.
    Words(&'static str),
    /// Another spelling of a token, which is called `of`.
    Instead {
        of: &'static str,
        meant: &'static str,
    },
    /// A section that belongs before another.
    Before(Part, Part),
    /// A section that is there already, on this line.
    Twice(Part, usize),
    /// A comma between such items.
    Comma(&'static str),
    /// A mark after such an item.
    Mark(&'static str, u8),
    /// A constant of this name and sort, declared without an arrow.
    Constant(Span, Span),
}

impl Hint {
    /// Returns a hint without a change.
    fn new(from: usize, to: usize, kind: HintKind) -> Hint {
        Hint {
            from,
            to,
            kind,
            change: None,
        }
    }

    /// Returns a hint about the part that a change replaces.
    fn of_change(change: Change, kind: HintKind) -> Hint {
        Hint {
            from: change.from,
            to: change.to,
            kind,
            change: Some(change),
        }
    }

    /// Returns the change of the text that the hint suggests, if it suggests one. The changed text
    /// is read further.
    pub fn suggestion(&self) -> Option<Change> {
        self.change
    }

    /// Writes the hint. `text` is the text that it is about.
    pub fn write<W: Write>(&self, text: &[u8], out: &mut W) -> io::Result<()> {
        match self.kind {
            HintKind::Words(words) => out.write_all(words.as_bytes()),
            HintKind::Instead { of, meant } => write!(out, "not {of}; did you mean {meant}?"),
            HintKind::Before(part, later) => write_before(part, later, out),
            HintKind::Twice(part, line) => write_twice(part, line, out),
            HintKind::Comma(items) => {
                write!(out, "{items} are separated by spaces; remove this comma")
            }
            HintKind::Mark(items, mark) => write_mark(items, mark, out),
            HintKind::Constant(name, sort) => write_constant(text, name, sort, out),
        }
    }
}

/// Writes where a section belongs.
fn write_before<W: Write>(part: Part, later: Part, out: &mut W) -> io::Result<()> {
    let word = word_of(part);
    let before = word_of(later);
    write!(out, "section out of order; write {word} before {before}")
}

/// Writes where a section is already.
fn write_twice<W: Write>(part: Part, line: usize, out: &mut W) -> io::Result<()> {
    let word = word_of(part);
    write!(
        out,
        "section out of order; {word} is already on line {line}"
    )
}

/// Writes that a mark is not needed.
fn write_mark<W: Write>(items: &str, mark: u8, out: &mut W) -> io::Result<()> {
    write!(out, "{items} end without a mark; remove this ")?;
    out.write_all(&[mark])
}

/// Writes how a constant is declared.
fn write_constant<W: Write>(text: &[u8], name: Span, sort: Span, out: &mut W) -> io::Result<()> {
    out.write_all(b"a constant has an arrow; did you mean ")?;
    out.write_all(word_in(text, name))?;
    out.write_all(b" : -> ")?;
    out.write_all(word_in(text, sort))?;
    out.write_all(b"?")
}

/// Returns a hint for the syntax error at offset `at`, if one of the known mistakes is there. A
/// hint that says what to write is returned only if the text with that is read further. If an
/// allocation fails, there may be no hint. Reads the text once for each change that it tries.
pub fn find_hint(alloc: Global, text: &[u8], at: usize) -> Option<Hint> {
    let fault = Fault::new(alloc, text, at)?;
    bytes::find(&fault)
        .or_else(|| sections::find(&fault))
        .or_else(|| terms::find(&fault))
        .or_else(|| declarations::find(&fault))
        .or_else(|| reserved::find(&fault))
}
