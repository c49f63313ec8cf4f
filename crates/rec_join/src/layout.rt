//! The joined text, and where its bytes were copied from.

ghost use Rattle.std.specs.Prelude.{◌≡◌, ◌+◌, ◌≤◌, All, length, slice_range, true};
ghost use Rattle.rec_join.specs.Join.{IsCopied, texts_of};

use crate::join::Part;
use crate::scan::{HEADS, Range, STRETCHES, Stretches, stretches_of};
use rec_syntax::{Span, Syntax};
use std::alloc::{AllocError, Global};

/// Bytes of the joined text that were copied from a part.
#[derive(Clone, Copy, Drop)]
pub struct Piece {
    /// Their offset in the joined text.
    pub at: usize,
    /// The index of the part.
    pub part: usize,
    /// Their offset in the part's text.
    pub from: usize,
    /// Their number.
    pub length: usize,
}

/// The joined text with its pieces, in the order of the text.
#[derive(Drop)]
pub(crate) struct Layout {
    pub text: Vec<u8>,
    pub pieces: Vec<Piece>,
}

/// Returns whether the byte is layout: a space, a tab, a line feed or a carriage return.
fn is_blank(b: u8) -> bool {
    b == b' ' || b == b'\t' || b == b'\n' || b == b'\r'
}

/// Returns the range without the blank lines around it, or an empty range if it is blank. A line
/// keeps its indentation unless its begin is outside the range.
fn trimmed(text: &[u8], range: Range) -> Range
    ensures order { result.from ≤ result.to }
    ensures within { result.to ≤ length text.now }
{
    let mut to = range.to.min(text.len());
    let from = range.from.min(to);
    while to > from && is_blank(text[to - 1]) {
        to -= 1;
    }
    let mut first = from;
    let mut line = from;
    while first < to && is_blank(text[first]) {
        if text[first] == b'\n' {
            line = first + 1;
        }
        first += 1;
    }
    if line > from {
        Range { from: line, to }
    } else {
        Range { from: first, to }
    }
}

impl Layout {
    /// Appends bytes of a part, and records where they are from.
    fn copy(&mut self, part: usize, text: &[u8], range: Range) -> Result<(), AllocError>
        requires order { range.from ≤ range.to }
        requires within { range.to ≤ length text.now }
    {
        let at = self.text.len();
        self.text.extend_from_slice(&text[range.from..range.to])?;
        self.pieces.push(Piece {
            at,
            part,
            from: range.from,
            length: range.to - range.from,
        })?;
        Ok(())
    }

    /// Appends a comment with the name of a part. Control characters are replaced by `?`, so that
    /// the comment is one line.
    fn name(&mut self, name: &[u8]) -> Result<(), AllocError> {
        self.text.extend_from_slice(b"% ")?;
        for b in name {
            let shown = if *b < 32 || *b == 127 { b'?' } else { *b };
            self.text.push(shown)?;
        }
        self.text.push(b'\n')?;
        Ok(())
    }

    /// Appends a stretch of a part under its name, with `margin` before the name and before a first
    /// line that is not whole. The bytes end with a line feed, so that a comment in them has no
    /// effect on what follows.
    fn stretch(
        &mut self,
        index: usize,
        part: &Part<'_>,
        range: Range,
        margin: &[u8],
    ) -> Result<(), AllocError>
        requires order { range.from ≤ range.to }
        requires within { range.to ≤ length part.now.text.now }
    {
        self.text.extend_from_slice(margin)?;
        self.name(part.name)?;
        if range.from > 0 && part.text[range.from - 1] != b'\n' {
            self.text.extend_from_slice(margin)?;
        }
        self.copy(index, part.text, range)?;
        self.text.push(b'\n')?;
        Ok(())
    }

    /// Appends a section: its reserved word, and the stretches of all parts that are not blank. A
    /// section that is blank in all parts is omitted.
    fn section(
        &mut self,
        section: usize,
        parts: &[Part<'_>],
        stretches: &[Stretches],
    ) -> Result<(), AllocError> {
        let mut is_open = false;
        for (index, part) in parts.iter().enumerate() {
            let range = range_of(stretches, index, section);
            let range = trimmed(part.text, range);
            if range.from < range.to {
                if !is_open {
                    self.head(section)?;
                    is_open = true;
                }
                self.stretch(index, part, range, margin_of(section))?;
            }
        }
        Ok(())
    }

    /// Appends the reserved word of a section on a line.
    fn head(&mut self, section: usize) -> Result<(), AllocError> {
        if 1 < section && section < 8 {
            self.text.extend_from_slice(HEADS[section].as_bytes())?;
            self.text.push(b'\n')?;
        }
        Ok(())
    }

    /// Appends a stretch of a part that has comments only, unless it is blank.
    fn comments(&mut self, index: usize, part: &Part<'_>, range: Range) -> Result<(), AllocError> {
        let range = trimmed(part.text, range);
        if range.from < range.to {
            self.stretch(index, part, range, b"")?;
        }
        Ok(())
    }

    /// Appends the comments before the first section of a part: those around `REC-SPEC` and around
    /// the name.
    fn preface(
        &mut self,
        index: usize,
        part: &Part<'_>,
        name: Span,
        stretches: &[Stretches],
    ) -> Result<(), AllocError> {
        self.comments(index, part, range_of(stretches, index, 0))?;
        let Range { from, to } = range_of(stretches, index, 1);
        self.comments(
            index,
            part,
            Range {
                from,
                to: name.from,
            },
        )?;
        self.comments(index, part, Range { from: name.to, to })
    }

    /// Appends the comments of all parts before their first sections, and the line with the name of
    /// the last part.
    fn title(
        &mut self,
        parts: &[Part<'_>],
        syntaxes: &[Syntax],
        stretches: &[Stretches],
    ) -> Result<(), AllocError> {
        for (index, part) in parts.iter().enumerate() {
            if let Some(syntax) = syntaxes.get(index) {
                self.preface(index, part, syntax.name(), stretches)?;
            }
        }
        self.text.extend_from_slice(b"REC-SPEC ")?;
        if let (Some(part), Some(syntax)) = (parts.last(), syntaxes.last()) {
            let Span { from, to } = syntax.name();
            let range = trimmed(part.text, Range { from, to });
            self.copy(parts.len() - 1, part.text, range)?;
        }
        self.text.push(b'\n')?;
        Ok(())
    }
}

/// Returns the margin of the lines of a section.
fn margin_of(section: usize) -> &'static [u8] {
    if 1 < section && section < 8 {
        b"  "
    } else {
        b""
    }
}

/// Returns a stretch of a part, or an empty range if there is none.
fn range_of(stretches: &[Stretches], part: usize, index: usize) -> Range {
    match stretches.get(part) {
        Some(stretches) if index < STRETCHES => stretches.ranges[index],
        _ => Range { from: 0, to: 0 },
    }
}

/// Returns the joined text of parts. Linear in their texts.
pub(crate) fn lay_out(
    alloc: Global,
    parts: &[Part<'_>],
    syntaxes: &[Syntax],
) -> Result<Layout, AllocError> {
    let mut stretches = Vec::new(alloc);
    for part in parts {
        stretches.push(stretches_of(part.text))?;
    }
    let mut layout = Layout {
        text: Vec::new(alloc),
        pieces: Vec::new(alloc),
    };
    layout.title(parts, syntaxes, &stretches)?;
    for section in 2..8 {
        layout.section(section, parts, &stretches)?;
    }
    layout.text.extend_from_slice(b"END-SPEC\n")?;
    layout.section(8, parts, &stretches)?;
    Ok(layout)
}

/// Returns whether both texts have these numbers of bytes from these offsets on, and the bytes are
/// the same.
fn same_bytes(whole: &[u8], at: usize, text: &[u8], from: usize, count: usize) -> bool
    ensures within { result ≡ true → at + count ≤ length whole.now }
    ensures inside { result ≡ true → from + count ≤ length text.now }
    ensures same { result ≡ true
        → slice_range whole.now at (at + count) ≡ slice_range text.now from (from + count) }
{
    if count > whole.len() || at > whole.len() - count {
        return false;
    }
    if count > text.len() || from > text.len() - count {
        return false;
    }
    whole[at..at + count] == text[from..from + count]
}

/// Returns whether the bytes of a piece are those of its part.
fn is_copied(parts: &[Part<'_>], whole: &[u8], piece: Piece) -> bool
    ensures { result ≡ true → IsCopied (texts_of parts.now) whole.now piece }
{
    if piece.part >= parts.len() {
        return false;
    }
    let part = parts[piece.part];
    same_bytes(whole, piece.at, part.text, piece.from, piece.length)
}

/// Returns whether the bytes of each piece are those of its part. Linear in the joined text.
pub(crate) fn are_copied(parts: &[Part<'_>], whole: &[u8], pieces: &[Piece]) -> bool
    ensures { result ≡ true → All (IsCopied (texts_of parts.now) whole.now) pieces.now }
{
    for piece in pieces {
        if !is_copied(parts, whole, *piece) {
            return false;
        }
    }
    true
}
