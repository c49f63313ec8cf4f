//! Strings of JSON.

use std::io;
use std::io::Write;

/// A writer of the contents of a JSON string. A byte outside ASCII becomes U+FFFD.
#[derive(Drop)]
pub struct Escaped<'a, W> {
    /// The output.
    out: &'a mut W,
}

impl<'a, W: Write> Escaped<'a, W> {
    /// Returns a writer to `out`.
    pub fn new(out: &'a mut W) -> Escaped<'a, W> {
        Escaped { out }
    }
}

impl<W: Write> Write for Escaped<'_, W> {
    fn write(&mut self, buf: &[u8]) -> io::Result<usize> {
        for byte in buf {
            let letter = if byte.is_ascii() {
                char::from(*byte)
            } else {
                char::REPLACEMENT_CHARACTER
            };
            write_letter(letter, self.out)?;
        }
        Ok(buf.len())
    }

    fn flush(&mut self) -> io::Result<()> {
        self.out.flush()
    }
}

/// Writes a JSON string.
pub fn write_string<W: Write>(text: &str, out: &mut W) -> io::Result<()> {
    out.write_all(b"\"")?;
    for letter in text.chars() {
        write_letter(letter, out)?;
    }
    out.write_all(b"\"")
}

/// Writes a character of a JSON string; a control character by its number.
fn write_letter<W: Write>(letter: char, out: &mut W) -> io::Result<()> {
    match letter {
        '"' => out.write_all(b"\\\""),
        '\\' => out.write_all(b"\\\\"),
        _ if letter.is_control() => {
            let number = u32::from(letter);
            write!(out, "\\u{number:04x}")
        }
        _ => write!(out, "{letter}"),
    }
}
