//! A writer for standard error that makes control characters visible.

use std::io;
use std::io::Write;

/// Describes the reader of standard error.
pub trait Audience {
    /// Returns whether explanations are wanted even without `--explain`, as on a terminal.
    fn is_curious(&self) -> bool;
}

/// A writer that shows control characters by their numbers if its audience is curious, so that a
/// name in an input cannot control the terminal.
#[derive(Drop)]
pub struct Console<W> {
    /// The wrapped writer.
    output: W,
    /// Whether control characters are shown by their numbers.
    is_curious: bool,
    /// Whether the last byte may be the first of a control character of two bytes, and was held
    /// back.
    is_held: bool,
}

/// The first byte of each control character of two bytes.
const BEGINNING: u8 = 0xC2;

impl<W: Write> Console<W> {
    /// Returns a wrapper of `output` that has held nothing back.
    pub fn new(output: W, is_curious: bool) -> Console<W> {
        Console {
            output,
            is_curious,
            is_held: false,
        }
    }

    /// Writes the first byte by its number if it is part of a control character, and otherwise the
    /// bytes before the next one that may be. Returns the number of bytes that were used.
    fn write_front(&mut self, bytes: &[u8], first: u8) -> io::Result<usize> {
        if first == BEGINNING && !self.is_held {
            self.is_held = true;
            return Ok(1);
        }
        if is_control(first) || (self.is_held && is_second(first)) {
            self.is_held = false;
            write!(self.output, "\\x{first:02x}")?;
            return Ok(1);
        }
        self.hand_on()?;
        self.output.write(front_of(bytes))
    }

    /// Writes the byte that was held back, if there is one.
    fn hand_on(&mut self) -> io::Result<()> {
        if !self.is_held {
            return Ok(());
        }
        self.is_held = false;
        self.output.write_all(&[BEGINNING])
    }
}

/// Returns the first byte and those after it, up to the next one that may be part of a control
/// character.
fn front_of(bytes: &[u8]) -> &[u8] {
    let plain = bytes.iter().skip(1);
    let plain = plain.take_while(|byte| !is_control(**byte) && **byte != BEGINNING);
    let (front, _) = bytes.split_at(plain.count().saturating_add(1).min(bytes.len()));
    front
}

/// Returns whether a byte is a control character other than a line feed or a tab.
fn is_control(byte: u8) -> bool {
    byte.is_ascii_control() && byte != b'\n' && byte != b'\t'
}

/// Returns whether a byte may be the second one of a control character of two bytes.
fn is_second(byte: u8) -> bool {
    matches!(byte, 0x80..=0x9F)
}

impl<W: Write + Drop> Console<W> {
    /// Returns the wrapped writer.
    pub fn into_inner(self) -> W {
        self.output
    }
}

impl<W: Write> Audience for Console<W> {
    fn is_curious(&self) -> bool {
        self.is_curious
    }
}

impl<W: Write> Write for Console<W> {
    fn write(&mut self, buf: &[u8]) -> io::Result<usize> {
        if !self.is_curious {
            return self.output.write(buf);
        }
        match buf.first() {
            None => Ok(0),
            Some(byte) => Ok(self.write_front(buf, *byte)?.min(buf.len())),
        }
    }

    fn flush(&mut self) -> io::Result<()> {
        self.output.flush()
    }
}
