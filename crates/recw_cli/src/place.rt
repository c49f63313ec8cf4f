//! Locations in a text, and the display of source lines.

use std::io;
use std::io::Write;

/// The number of bytes of a line that are shown before a location.
const BEFORE: usize = 60;

/// The number of bytes that are shown from the location on.
const BEHIND: usize = 40;

/// The byte that ends a line.
const LINE_FEED: u8 = b'\n';

/// A location in a text.
#[derive(Clone, Copy)]
pub struct Spot<'a> {
    /// The line, from 1.
    pub line: usize,
    /// The column in bytes, from 1.
    pub column: usize,
    /// The bytes of the line before the location.
    before: &'a [u8],
    /// The bytes of the line from the location on, as many as are shown and two more.
    behind: &'a [u8],
}

/// Returns the line that contains offset `at`, from 1.
pub fn line_of(text: &[u8], at: usize) -> usize {
    let (above, _) = text.split_at(at.min(text.len()));
    let feeds = above.iter().filter(|byte| **byte == LINE_FEED).count();
    feeds.saturating_add(1)
}

/// Returns the location of offset `at`.
pub fn place_in(text: &[u8], at: usize) -> Spot<'_> {
    Places::new(text).place(at)
}

/// A cursor that computes locations in a text.
#[derive(Clone, Copy)]
pub struct Places<'a> {
    /// The text.
    text: &'a [u8],
    /// The offset of the cursor.
    at: usize,
    /// The line of that offset, from 1.
    line: usize,
    /// The offset of that line.
    begin: usize,
}

impl<'a> Places<'a> {
    /// Returns a cursor at the first byte.
    pub fn new(text: &'a [u8]) -> Places<'a> {
        Places {
            text,
            at: 0,
            line: 1,
            begin: 0,
        }
    }

    /// Returns a cursor at the first byte of a line, whose number and offset are given.
    pub fn at_line(text: &'a [u8], line: usize, begin: usize) -> Places<'a> {
        Places {
            text,
            at: begin,
            line,
            begin,
        }
    }

    /// Returns the location of an offset. The cost is the distance to the previous offset if that
    /// was not greater, and otherwise the offset itself.
    pub fn place(&mut self, at: usize) -> Spot<'a> {
        let at = at.min(self.text.len());
        if at < self.at {
            *self = Places::new(self.text);
        }
        self.go_on(at);
        let (above, below) = self.text.split_at(at.min(self.text.len()));
        let (_, before) = above.split_at(self.begin.min(above.len()));
        let behind = first_line(below);
        Spot {
            line: self.line,
            column: before.len().saturating_add(1),
            before: if behind.is_empty() {
                without_return(before)
            } else {
                before
            },
            behind: without_return(behind),
        }
    }

    /// Moves to a greater offset.
    fn go_on(&mut self, at: usize) {
        let part = self.text.get(self.at..at).unwrap_or(&[]);
        for (i, byte) in part.iter().enumerate() {
            if *byte == LINE_FEED {
                self.line = self.line.saturating_add(1);
                self.begin = self.at.saturating_add(i).saturating_add(1);
            }
        }
        self.at = at;
    }
}

/// Returns the text before its first line feed, or more of it than is shown.
fn first_line(text: &[u8]) -> &[u8] {
    let line = text.iter().take(BEHIND.saturating_add(2));
    let line = line.take_while(|byte| **byte != LINE_FEED);
    let (line, _) = text.split_at(line.count().min(text.len()));
    line
}

/// Removes the carriage return at the end of a line.
fn without_return(line: &[u8]) -> &[u8] {
    match line.strip_suffix(b"\r") {
        Some(line) => line,
        None => line,
    }
}

/// The bytes of a line that are shown.
#[derive(Clone, Copy)]
struct Window<'a> {
    /// The bytes before the location.
    before: &'a [u8],
    /// The bytes from the location on.
    behind: &'a [u8],
    /// Whether bytes before these are left out.
    is_cut_before: bool,
    /// Whether bytes after these are left out.
    is_cut_behind: bool,
}

/// Returns the bytes that are nearest to the location.
fn window_of<'a>(spot: &Spot<'a>) -> Window<'a> {
    let cut = spot.before.len().saturating_sub(BEFORE);
    let (_, before) = spot.before.split_at(cut);
    let (behind, hidden) = spot.behind.split_at(spot.behind.len().min(BEHIND));
    Window {
        before,
        behind,
        is_cut_before: cut > 0,
        is_cut_behind: !hidden.is_empty(),
    }
}

/// Writes the line of a location, and a caret below it.
pub fn show_line<W: Write>(spot: &Spot<'_>, out: &mut W) -> io::Result<()> {
    let window = window_of(spot);
    show_window(window, out)?;
    show_caret(window, out)
}

/// Writes the bytes of a line that are shown.
fn show_window<W: Write>(window: Window<'_>, out: &mut W) -> io::Result<()> {
    out.write_all(if window.is_cut_before {
        b"    ..."
    } else {
        b"    "
    })?;
    show_bytes(window.before, out)?;
    show_bytes(window.behind, out)?;
    out.write_all(if window.is_cut_behind {
        b"...\n"
    } else {
        b"\n"
    })
}

/// Writes bytes in visible form.
pub fn show_bytes<W: Write>(bytes: &[u8], out: &mut W) -> io::Result<()> {
    for byte in bytes {
        show(*byte, out)?;
    }
    Ok(())
}

/// Writes a caret below the location.
fn show_caret<W: Write>(window: Window<'_>, out: &mut W) -> io::Result<()> {
    out.write_all(if window.is_cut_before {
        b"       "
    } else {
        b"    "
    })?;
    for byte in window.before {
        pad(*byte, out)?;
    }
    out.write_all(b"^\n")
}

/// Writes a byte in visible form: bytes that are neither printable nor tabs by their number.
fn show<W: Write>(byte: u8, out: &mut W) -> io::Result<()> {
    match byte {
        b'\t' | b' '..=b'~' => out.write_all(&[byte]),
        _ => write!(out, "\\x{byte:02x}"),
    }
}

/// Writes as many spaces as the visible form of a byte has characters; a tab for a tab.
fn pad<W: Write>(byte: u8, out: &mut W) -> io::Result<()> {
    match byte {
        b'\t' => out.write_all(b"\t"),
        b' '..=b'~' => out.write_all(b" "),
        _ => out.write_all(b"    "),
    }
}
