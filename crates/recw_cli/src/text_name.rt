//! Names of input texts in messages.

use std::io;
use std::io::Write;

/// The name of an input text.
#[derive(Clone, Copy)]
pub enum TextName<'a> {
    /// A path, or a name such as `standard input`.
    Path(&'a str),
    /// The term of the option `-e` with this index.
    Word(usize),
    /// A line of a text, from 1.
    Line { path: &'a str, number: u64 },
}

impl TextName<'_> {
    /// Writes the name, with each control character by its number.
    pub fn write<W: Write>(self, out: &mut W) -> io::Result<()> {
        match self {
            TextName::Path(path) => write_visible(path, out),
            TextName::Word(before) => {
                let number = before.saturating_add(1);
                write!(out, "-e {number}")
            }
            TextName::Line { path, number } => {
                write_visible(path, out)?;
                write!(out, ":{number}")
            }
        }
    }
}

/// Writes a text, with each control character by its number.
pub fn write_visible<W: Write>(text: &str, out: &mut W) -> io::Result<()> {
    for letter in text.chars() {
        write_letter(letter, out)?;
    }
    Ok(())
}

/// Writes a character; a control character by its number.
fn write_letter<W: Write>(letter: char, out: &mut W) -> io::Result<()> {
    if !letter.is_control() {
        return write!(out, "{letter}");
    }
    let number = u32::from(letter);
    write!(out, "\\x{number:02x}")
}
