//! The findings of `check` in a joined text, with the locations in its parts.

use crate::check::name_of;
use crate::join::NamedText;
use rec_check::Kind;
use rec_join::{Joined, Origin};
use rec_syntax::{Declaration, Span, Syntax};
use recw_cli::PartPlace;
use rx_run::RunFault;
use std::alloc::{AllocError, Global};
use std::io;
use std::io::Write;

/// A line and a column, from 1.
#[derive(Clone, Copy)]
struct Spot {
    line: usize,
    column: usize,
}

/// The offsets at which the lines of a text begin.
#[derive(Drop)]
struct Lines {
    starts: Vec<usize>,
}

impl Lines {
    /// Returns the begins of the lines of a text.
    fn of(alloc: Global, text: &[u8]) -> Result<Lines, AllocError> {
        let mut starts = Vec::new(alloc);
        starts.push(0)?;
        for (at, byte) in text.iter().enumerate() {
            if *byte == b'\n' {
                starts.push(at.saturating_add(1))?;
            }
        }
        Ok(Lines { starts })
    }

    /// Returns the offset of a location, if the text has its line.
    fn offset(&self, spot: Spot) -> Option<usize> {
        let start = self.starts.get(spot.line.checked_sub(1)?)?;
        start.checked_add(spot.column.checked_sub(1)?)
    }

    /// Returns the location of an offset.
    fn spot(&self, at: usize) -> Spot {
        let line = match self.starts.binary_search(&at) {
            Ok(index) => index.saturating_add(1),
            Err(index) => index,
        };
        let start = match self.starts.get(line.saturating_sub(1)) {
            Some(start) => *start,
            None => 0,
        };
        Spot {
            line,
            column: at.saturating_sub(start).saturating_add(1),
        }
    }
}

/// A joined text with its parts, and the lines of all of them.
#[derive(Drop)]
pub struct Mapped<'a> {
    joined: &'a Joined,
    texts: &'a [NamedText<'a>],
    whole: Lines,
    parts: Vec<Lines>,
}

/// A line of `check` without a file name: its location, and what follows.
#[derive(Clone, Copy)]
struct Finding<'a> {
    spot: Spot,
    rest: &'a [u8],
}

/// Returns the decimal number at the begin of a text, and what follows.
fn read_number(text: &[u8]) -> Option<(usize, &[u8])> {
    let count = text.iter().take_while(|byte| byte.is_ascii_digit()).count();
    let (digits, rest) = text.split_at(count.min(text.len()));
    let digits = str::from_utf8(digits).ok()?;
    Some((digits.parse().ok()?, rest))
}

/// Returns the location at the begin of a text, and what follows.
fn read_spot(text: &[u8]) -> Option<(Spot, &[u8])> {
    let (line, rest) = read_number(text)?;
    let rest = rest.strip_prefix(b":")?;
    let (column, rest) = read_number(rest)?;
    Some((Spot { line, column }, rest))
}

/// Returns the parts of a line of `check` without a file name.
fn read_finding(line: &[u8]) -> Option<Finding<'_>> {
    let (spot, rest) = read_spot(line.strip_prefix(b":")?)?;
    Some(Finding { spot, rest })
}

/// Returns the offset of the last `: ` of a text.
fn last_colon(text: &[u8]) -> Option<usize> {
    let mut last = None;
    for (at, byte) in text.iter().enumerate() {
        if *byte == b':' && text.get(at.saturating_add(1)) == Some(&b' ') {
            last = Some(at);
        }
    }
    last
}

/// Returns the first of the declarations that has this name.
fn declared(syntax: &Syntax, declarations: &[Declaration], word: &[u8]) -> Option<Span> {
    let source = syntax.source();
    for declaration in declarations {
        let Span { from, to } = declaration.name;
        if source.get(from..to) == Some(word) {
            return Some(declaration.name);
        }
    }
    None
}

/// Returns the first declaration of a sort with these bytes.
fn first_sort(syntax: &Syntax, word: &[u8]) -> Option<Span> {
    for sort in syntax.sorts() {
        if syntax.word(*sort) == word {
            return Some(*sort);
        }
    }
    None
}

/// Returns the first declaration of a variable with these bytes.
fn first_variable(syntax: &Syntax, word: &[u8]) -> Option<Span> {
    for group in syntax.groups() {
        if syntax.word(group.first) == word {
            return Some(group.first);
        }
        for other in group.others.as_slice() {
            if syntax.word(*other) == word {
                return Some(*other);
            }
        }
    }
    None
}

/// Returns the first declaration of a symbol with these bytes.
fn first_symbol(syntax: &Syntax, word: &[u8]) -> Option<Span> {
    match declared(syntax, syntax.constructors(), word) {
        None => declared(syntax, syntax.operators(), word),
        found => found,
    }
}

/// Returns the code in its brackets at the end of a line.
fn code_in(end: &[u8]) -> &[u8] {
    let code = end.strip_prefix(b" [").unwrap_or(end);
    code.strip_suffix(b"]").unwrap_or(code)
}

/// Returns the first declaration of a word that is declared twice, by the code of the error.
fn first_declaration(syntax: &Syntax, code: &[u8], word: &[u8]) -> Option<Span> {
    if code == b"S1".as_slice() {
        first_sort(syntax, word)
    } else if code == b"S2".as_slice() {
        first_symbol(syntax, word)
    } else if code == b"S3".as_slice() {
        match first_symbol(syntax, word) {
            None => first_variable(syntax, word),
            found => found,
        }
    } else {
        None
    }
}

impl<'a> Mapped<'a> {
    /// Returns a joined text with its parts.
    pub fn new(
        alloc: Global,
        joined: &'a Joined,
        texts: &'a [NamedText<'a>],
    ) -> Result<Mapped<'a>, AllocError> {
        let whole = Lines::of(alloc, joined.syntax.source())?;
        let mut parts = Vec::new(alloc);
        for text in texts {
            parts.push(Lines::of(alloc, &text.text)?)?;
        }
        Ok(Mapped {
            joined,
            texts,
            whole,
            parts,
        })
    }

    /// Writes the location of an offset of the joined text in its part.
    fn write_offset<W: Write>(&self, at: usize, out: &mut W) -> io::Result<()> {
        if let Some(Origin { part, at }) = self.joined.origin(at)
            && let Some(text) = self.texts.get(part)
            && let Some(lines) = self.parts.get(part)
        {
            let Spot { line, column } = lines.spot(at);
            out.write_all(&text.name)?;
            write!(out, ":{line}:{column}")
        } else {
            let Spot { line, column } = self.whole.spot(at);
            write!(out, "<joined>:{line}:{column}")
        }
    }

    /// Writes a location of the joined text as that in its part.
    fn write_spot<W: Write>(&self, spot: Spot, out: &mut W) -> io::Result<()> {
        self.write_offset(self.whole.offset(spot).unwrap_or(0), out)
    }

    /// Writes what follows the location of a finding. A location before the code is mapped, and a
    /// second declaration is followed by the location of the first.
    fn write_rest<W: Write>(&self, rest: &[u8], out: &mut W) -> io::Result<()> {
        let Some(colon) = last_colon(rest) else {
            return out.write_all(rest);
        };
        let after = colon.saturating_add(2);
        let (before, detail) = rest.split_at(after.min(rest.len()));
        if let Some((other, code)) = read_spot(detail) {
            out.write_all(before)?;
            self.write_spot(other, out)?;
            return out.write_all(code);
        }
        let length = detail.len().saturating_sub(5);
        let (word, code) = detail.split_at(length.min(detail.len()));
        out.write_all(before)?;
        self.write_word(code_in(code), word, out)?;
        out.write_all(code)
    }

    /// Writes the word that a finding is about, and the location of its first declaration if it is
    /// declared twice.
    fn write_word<W: Write>(&self, code: &[u8], word: &[u8], out: &mut W) -> io::Result<()> {
        out.write_all(word)?;
        match first_declaration(&self.joined.syntax, code, word) {
            Some(first) => {
                out.write_all(b": ")?;
                self.write_offset(first.from, out)
            }
            None => Ok(()),
        }
    }

    /// Returns the detail of a finding, with locations in the parts.
    pub fn located_detail(
        &self,
        alloc: Global,
        kind: Kind,
        detail: &[u8],
    ) -> Result<Vec<u8>, AllocError> {
        let mut located = Vec::new(alloc);
        let written = match read_spot(detail) {
            Some((spot, _)) => self.write_spot(spot, &mut located),
            None => self.write_word(kind.code(), detail, &mut located),
        };
        match written {
            Ok(()) => Ok(located),
            Err(_) => Err(AllocError),
        }
    }

    /// Returns the location of an offset of the joined text in its part, if it is of one.
    pub fn place(&self, at: usize) -> Option<PartPlace<'a>> {
        let Origin { part, at } = self.joined.origin(at)?;
        let text = self.texts.get(part)?;
        let Spot { line, column } = self.parts.get(part)?.spot(at);
        Some(PartPlace {
            name: name_of(text.path),
            text: &text.text,
            line,
            begin: at.saturating_sub(column.saturating_sub(1)),
            at,
        })
    }

    /// Writes a line of `check` with the locations in the parts.
    fn write_line<W: Write>(&self, line: &[u8], out: &mut W) -> io::Result<()> {
        match read_finding(line) {
            None => out.write_all(line)?,
            Some(Finding { spot, rest }) => {
                self.write_spot(spot, out)?;
                self.write_rest(rest, out)?;
            }
        }
        out.write_all(b"\n")
    }

    /// Writes the lines of `check`, which have no file names, with the locations in the parts.
    pub fn write_lines<W: Write>(&self, lines: &[u8], out: &mut W) -> Result<(), RunFault> {
        for line in lines.split(|byte| *byte == b'\n') {
            if !line.is_empty() && self.write_line(line, out).is_err() {
                return Err(RunFault::Write);
            }
        }
        out.flush().map_err(|_| RunFault::Write)
    }
}
