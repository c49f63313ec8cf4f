//! Reports about the command-line arguments: help, usage errors and suggestions.
ghost use Rattle.std.specs.Prelude.{◌≡◌, ◌≢◌, ◌↔◌, ◌⊎◌};
ghost use Rattle.clap.specs.Words.{kind_of};

use crate::status::{COMMAND_LINE, DONE, OUT_OF_ROOM, STREAMS};
use clap::error::ErrorKind;
use std::io;
use std::io::Write;

/// Reports out of memory, and returns the exit status.
fn out_of_memory<E: Write>(err: &mut E) -> u8
    ensures { result ≡ 3 }
{
    tell("out of memory", err);
    OUT_OF_ROOM
}

/// Reports a failed write, and returns the exit status.
fn write_failed<E: Write>(err: &mut E) -> u8
    ensures { result ≡ 4 }
{
    tell("write failed", err);
    STREAMS
}

/// Reports an error. If the line cannot be written, it is dropped.
fn tell<E: Write>(fault: &str, err: &mut E) {
    let _ = writeln!(err, "recw: {fault}");
}

/// Returns the exit status after a help text, and reports a failed write, unless the reader of the
/// help went away.
pub fn help_written<E: Write>(written: io::Result<()>, err: &mut E) -> u8
    ensures { (result ≡ 0) ⊎ (result ≡ 4) }
{
    match written {
        Ok(()) => DONE,
        Err(error) if error.kind() == io::ErrorKind::BrokenPipe => STREAMS,
        Err(_) => write_failed(err),
    }
}

/// Prints the help or a usage error, and returns the exit status.
pub fn refused_words<W: Write, E: Write>(error: &clap::Error, out: &mut W, err: &mut E) -> u8
    ensures memory { kind_of error.now ≡ ErrorKind.OutOfMemory → result ≡ 3 }
    ensures help { kind_of error.now ≡ ErrorKind.DisplayHelp → (result ≡ 0) ⊎ (result ≡ 4) }
    ensures wrong { (result ≡ 2) ↔ ((kind_of error.now ≢ ErrorKind.OutOfMemory)
        × ((kind_of error.now ≢ ErrorKind.DisplayHelp)
        × (kind_of error.now ≢ ErrorKind.DisplayVersion))) }
{
    match error.kind() {
        ErrorKind::OutOfMemory => out_of_memory(err),
        ErrorKind::DisplayHelp | ErrorKind::DisplayVersion => help_written(show(error, out), err),
        _ => {
            let _ = write!(err, "{error}");
            COMMAND_LINE
        }
    }
}

/// Writes the help or the version.
fn show<W: Write>(help: &clap::Error, out: &mut W) -> io::Result<()> {
    write!(out, "{help}")?;
    out.flush()
}

/// Suggests a command if the first argument is a file name and not a command.
pub fn advise<E: Write>(words: &[&str], err: &mut E) {
    if let Some(word) = words.first()
        && word.contains(['.', '/'].as_slice())
    {
        let _ = write_advice(word, err);
    }
}

/// Writes the suggested command line. The file name is quoted if the shell would not read it as one
/// word.
fn write_advice<E: Write>(word: &str, err: &mut E) -> io::Result<()> {
    err.write_all(b"\nTo evaluate the specification in that file: recw eval ")?;
    write_word(word, err)?;
    err.write_all(b"\n")
}

/// Writes a word as a shell reads it.
fn write_word<E: Write>(word: &str, err: &mut E) -> io::Result<()> {
    if word.bytes().all(is_plain) {
        return err.write_all(word.as_bytes());
    }
    err.write_all(b"'")?;
    for byte in word.bytes() {
        write_quoted(byte, err)?;
    }
    err.write_all(b"'")
}

/// Writes a byte as a shell reads it within single quotes.
fn write_quoted<E: Write>(byte: u8, err: &mut E) -> io::Result<()> {
    match byte {
        b'\'' => err.write_all(b"'\\''"),
        _ => err.write_all(&[byte]),
    }
}

/// Returns whether a shell reads a byte as itself.
fn is_plain(byte: u8) -> bool {
    byte.is_ascii_alphanumeric() || matches!(byte, b'.' | b'/' | b'_' | b'-' | b'+' | b',' | b'@')
}

/// Reports that the arguments could not be read, and returns the exit status.
pub fn failed_start<E: Write>(error: &io::Error, err: &mut E) -> u8 {
    if error.kind() == io::ErrorKind::OutOfMemory {
        return out_of_memory(err);
    }
    let _ = err.write_all(
        b"error: an argument is not valid UTF-8\n\nFor more information, try '--help'.\n",
    );
    COMMAND_LINE
}
