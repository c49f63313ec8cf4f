//! Reading of the command-line arguments, and help.

use crate::refusals::{self, Code, code_named};
use crate::report::{advise, help_written, refused_words};
use crate::request::{Invocation, parse_words};
use clap::error::ErrorKind;
use std::alloc::Global;
use std::io;
use std::io::Write;

/// The result of reading the arguments.
#[derive(Drop)]
pub enum Asked<'a> {
    /// A run is requested.
    Run(Invocation<'a>),
    /// Help or a usage error was printed. The program ends with this exit status.
    End(u8),
}

/// The help of `help refusals`.
const REFUSALS_HELP: &str =
    "Print the error codes and their meanings\n\nUsage: recw help refusals\n";

/// The help of `help`.
const HELP_HELP: &str = "\
Print this message or the help of the given subcommand(s)

Usage: recw help [COMMAND]...

Arguments:
  [COMMAND]...  Command or code to print help for; 'refusals' lists the error codes
";

/// The arguments that are used if there are none.
const NO_WORDS: &[&str] = &["eval"];

/// Reads the arguments after the program's name; without any, `eval` is assumed. Prints requested
/// help on `out` and usage errors on `err`.
pub fn read_words<'a, W: Write, E: Write>(
    alloc: Global,
    words: &'a [&str],
    out: &mut W,
    err: &mut E,
) -> Asked<'a> {
    if words.is_empty() {
        return read(alloc, NO_WORDS, out, err);
    }
    match help_of(words) {
        Some(help) => Asked::End(help_written(help.write(out), err)),
        None => read(alloc, words, out, err),
    }
}

/// Help that the command-line parser does not know.
#[derive(Clone, Copy)]
enum Help {
    /// The list of error codes.
    Refusals,
    /// The help of a code.
    Code(Code),
    /// A fixed text.
    Text(&'static str),
}

/// Returns the help that these arguments request, if it is one of these.
fn help_of(words: &[&str]) -> Option<Help> {
    match words {
        ["help", "refusals"] => Some(Help::Refusals),
        ["help", "refusals", "-h" | "--help"] => Some(Help::Text(REFUSALS_HELP)),
        ["help", "help"] => Some(Help::Text(HELP_HELP)),
        ["help", name] => Some(Help::Code(code_named(name)?)),
        _ => None,
    }
}

impl Help {
    /// Writes the help and flushes.
    fn write<W: Write>(self, out: &mut W) -> io::Result<()> {
        match self {
            Help::Refusals => refusals::write_all(out),
            Help::Code(code) => code.write_help(out),
            Help::Text(text) => write_flushed(text, out),
        }
    }
}

/// Writes a text and flushes.
fn write_flushed<W: Write>(text: &str, out: &mut W) -> io::Result<()> {
    out.write_all(text.as_bytes())?;
    out.flush()
}

/// Parses arguments, and prints the help or the error if they request no run.
fn read<'a, W: Write, E: Write>(
    alloc: Global,
    words: &'a [&str],
    out: &mut W,
    err: &mut E,
) -> Asked<'a> {
    match parse_words(alloc, words) {
        Ok(invocation) => Asked::Run(invocation),
        Err(error) => Asked::End(answer(&error, words, out, err)),
    }
}

/// Prints the help or a usage error, and for an unknown command a suggestion.
fn answer<W: Write, E: Write>(error: &clap::Error, words: &[&str], out: &mut W, err: &mut E) -> u8 {
    let status = refused_words(error, out, err);
    if error.kind() == ErrorKind::InvalidSubcommand {
        advise(words, err);
    }
    status
}
