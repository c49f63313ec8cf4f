//! Parsed command lines.

use crate::command;
use crate::options::{
    CheckOptions, EvalOptions, RulePlace, Shown, TermChoice, check_of, counted_of, indent_of,
    nodes_of, options_of, printed_of, shown_of, width_of, word_place_of,
};
use crate::wrong::{MISSING, NO_INPUT, ONLY_FROM_TABLE, READ_TWICE, Wrong};
use clap::{ArgMatches, Command, Error};
use rx_run::{InputForm, TermLines, TermRun};
use std::alloc::{AllocError, Global};

/// A command with its arguments. A missing path means standard input.
#[derive(Clone, Copy)]
pub enum Request<'a> {
    /// Evaluate a specification and, if there is a file of them, input terms.
    Eval {
        options: EvalOptions,
        spec: Option<&'a str>,
        terms: Option<&'a str>,
    },
    /// Answer the requests of a file, one line each, by a specification.
    Serve {
        options: EvalOptions,
        spec: Option<&'a str>,
        requests: Option<&'a str>,
    },
    /// Print a term as `run` says, or over several lines if there is a number of spaces for each
    /// level. With a width, a term that fits on a line of this length is not divided.
    Aterm {
        file: Option<&'a str>,
        indent: Option<u8>,
        width: Option<u32>,
        run: TermRun<TermLines>,
    },
    /// Print each rewrite of an evaluation.
    Trace {
        options: EvalOptions,
        shown: Shown<'a>,
        spec: Option<&'a str>,
        terms: Option<&'a str>,
    },
    /// Print a term and its number of cells as `run` says, or its graph if there is a largest number
    /// of nodes.
    Share {
        file: Option<&'a str>,
        nodes: Option<u32>,
        run: TermRun<TermLines>,
    },
    /// Match a pattern against a term.
    Match {
        pattern: &'a str,
        file: Option<&'a str>,
    },
    /// Make a term from a pattern and a list of arguments.
    Make {
        pattern: &'a str,
        args: &'a str,
    },
    /// Check specifications, whose files are in [`Invocation`].
    Check {
        options: CheckOptions,
    },
    /// List the words of a specification, or those that name the same as the word at a location.
    Uses {
        spec: Option<&'a str>,
        at: Option<RulePlace>,
    },
    /// Join specifications, whose files are in [`Invocation`].
    Join,
}

impl<'a> Request<'a> {
    /// Returns the file that is read first, if one is named.
    pub fn path(&self) -> Option<&'a str> {
        match *self {
            Request::Eval { spec, .. }
            | Request::Serve { spec, .. }
            | Request::Trace { spec, .. }
            | Request::Uses { spec, .. } => spec,
            Request::Aterm { file, .. }
            | Request::Share { file, .. }
            | Request::Match { file, .. } => file,
            Request::Make { .. } | Request::Check { .. } | Request::Join => None,
        }
    }

    /// Returns the file of input terms, if one is named.
    pub fn terms_path(&self) -> Option<&'a str> {
        match *self {
            Request::Eval { terms, .. } | Request::Trace { terms, .. } => terms,
            _ => None,
        }
    }

    /// Returns the file of requests, if one is named.
    pub fn requests_path(&self) -> Option<&'a str> {
        match *self {
            Request::Serve { requests, .. } => requests,
            _ => None,
        }
    }

    /// Returns whether standard input is named twice.
    fn is_read_twice(&self) -> bool {
        let is_standard = self.path().unwrap_or(STANDARD_INPUT) == STANDARD_INPUT;
        match *self {
            Request::Serve { requests, .. } => is_standard && requests.is_none(),
            _ => is_standard && self.terms_path() == Some(STANDARD_INPUT),
        }
    }
}

/// The path that means standard input.
pub const STANDARD_INPUT: &str = "-";

/// A command with the options that are common to all commands.
#[derive(Drop)]
pub struct Invocation<'a> {
    /// The command.
    pub request: Request<'a>,
    /// The terms given with `-e`, or the files to check or to join.
    pub given: Vec<&'a str>,
    /// The files of `--join`.
    pub joined: Vec<&'a str>,
    /// Whether errors are explained.
    pub explain: bool,
    /// Whether the exit status reports that a pattern does not match, or that there is a limit line.
    pub has_outcome: bool,
}

/// Parses the arguments after the program's name.
pub fn parse_words<'a>(alloc: Global, words: &'a [&'a str]) -> Result<Invocation<'a>, Error> {
    let mut command = command::command(alloc)?;
    read_by(alloc, &mut command, words)
}

/// Parses arguments with this parser.
fn read_by<'a>(
    alloc: Global,
    command: &mut Command<'a>,
    words: &'a [&'a str],
) -> Result<Invocation<'a>, Error> {
    let matches = command.try_get_matches_from_mut(words)?;
    invocation_or_error(alloc, command, &matches)
}

/// Returns the command that matched arguments describe, or a usage error.
fn invocation_or_error<'a>(
    alloc: Global,
    command: &mut Command<'a>,
    matches: &ArgMatches<'a>,
) -> Result<Invocation<'a>, Error> {
    match bare_by(matches) {
        Ok(asked) => Ok(asked.with(given_of(alloc, matches)?, joined_of(alloc, matches)?)),
        Err(Wrong { kind, message }) => Err(command.error(kind, message)?),
    }
}

/// Returns the files of `--join`.
fn joined_of<'a>(alloc: Global, matches: &ArgMatches<'a>) -> Result<Vec<&'a str>, AllocError> {
    match matches.subcommand() {
        Some((_, inner)) => copy_of(alloc, inner.get_strs("join")),
        None => Ok(Vec::new(alloc)),
    }
}

/// Returns the terms given with `-e`, or the files to check or to join.
fn given_of<'a>(alloc: Global, matches: &ArgMatches<'a>) -> Result<Vec<&'a str>, AllocError> {
    match matches.subcommand() {
        Some(("check" | "join", inner)) => copy_of(alloc, inner.get_strs("SPEC")),
        Some((_, inner)) => copy_of(alloc, inner.get_strs("input")),
        None => Ok(Vec::new(alloc)),
    }
}

/// Copies a list of arguments, if there is one.
fn copy_of<'a>(alloc: Global, words: Option<&[&'a str]>) -> Result<Vec<&'a str>, AllocError> {
    match words {
        Some(words) => Vec::from_slice(alloc, words),
        None => Ok(Vec::new(alloc)),
    }
}

/// A command without the terms given with `-e`.
#[derive(Clone, Copy)]
struct Bare<'a> {
    /// The command.
    request: Request<'a>,
    /// Whether errors are explained.
    explain: bool,
    /// Whether the exit status reports the outcome.
    has_outcome: bool,
}

/// Returns how often an argument that may be repeated is standard input.
fn standard_count(inner: &ArgMatches<'_>, id: &str) -> usize {
    match inner.get_strs(id) {
        Some(paths) => {
            let standard = paths.iter().filter(|path| **path == STANDARD_INPUT);
            standard.count()
        }
        None => 0,
    }
}

/// Returns whether standard input is named twice among the files to check or to join.
fn names_twice(request: &Request<'_>, inner: &ArgMatches<'_>) -> bool {
    let joined = standard_count(inner, "join");
    match request {
        Request::Check { .. } | Request::Join => {
            joined.saturating_add(standard_count(inner, "SPEC")) > 1
        }
        Request::Eval { spec, terms, .. } => {
            let is_read = spec.is_none() || *terms == Some(STANDARD_INPUT);
            joined > 1 || joined == 1 && is_read
        }
        _ => false,
    }
}

impl<'a> Bare<'a> {
    /// Adds the terms given with `-e` or the files to check or to join, and the files of `--join`.
    fn with(self, given: Vec<&'a str>, joined: Vec<&'a str>) -> Invocation<'a> {
        let Bare {
            request,
            explain,
            has_outcome,
        } = self;
        Invocation {
            request,
            given,
            joined,
            explain,
            has_outcome,
        }
    }
}

/// Returns the command that matched arguments describe, or their error.
fn bare_by<'a>(matches: &ArgMatches<'a>) -> Result<Bare<'a>, Wrong> {
    match matches.subcommand() {
        Some((name, inner)) => bare_of(name, inner),
        None => Err(MISSING),
    }
}

/// Returns the command with this name and its common options, or the error in its arguments.
fn bare_of<'a>(name: &str, inner: &ArgMatches<'a>) -> Result<Bare<'a>, Wrong> {
    let request = request_of(name, inner)?;
    if request.is_read_twice() || names_twice(&request, inner) {
        return Err(READ_TWICE);
    }
    Ok(Bare {
        request,
        explain: inner.get_flag("explain"),
        has_outcome: inner.get_flag("test") || inner.get_flag("limit-status"),
    })
}

/// Returns the command with this name, or the error in its arguments.
fn request_of<'a>(name: &str, inner: &ArgMatches<'a>) -> Result<Request<'a>, Wrong> {
    match name {
        "eval" => eval_of(inner),
        "trace" => trace_of(inner),
        "share" => share_of(inner),
        "uses" => uses_of(inner),
        _ => other_of(name, inner).ok_or(MISSING),
    }
}

/// Returns the command with this name, for all commands except `eval`, `trace`, `share` and `uses`.
/// `None` if an argument is missing, or no command has this name.
fn other_of<'a>(name: &str, inner: &ArgMatches<'a>) -> Option<Request<'a>> {
    match name {
        "serve" => serve_of(inner),
        "aterm" => Some(Request::Aterm {
            file: path_of(inner, "FILE"),
            indent: indent_of(inner),
            width: width_of(inner),
            run: printed_of(inner),
        }),
        "match" => match_of(inner),
        "make" => make_of(inner),
        "check" => Some(Request::Check {
            options: check_of(inner),
        }),
        "join" => Some(Request::Join),
        _ => None,
    }
}

/// Returns the path of an argument. `None` if it is missing or means standard input.
fn path_of<'a>(inner: &ArgMatches<'a>, id: &str) -> Option<&'a str> {
    inner.get_str(id).filter(|path| *path != STANDARD_INPUT)
}

/// Returns the request of `eval`.
fn eval_of<'a>(inner: &ArgMatches<'a>) -> Result<Request<'a>, Wrong> {
    let options = options_of(inner).ok_or(MISSING)?;
    let terms = inner.get_str("TERMS");
    let has_input = terms.is_some() || inner.get_strs("input").is_some();
    if options.terms == TermChoice::Input && !has_input {
        return Err(NO_INPUT);
    }
    Ok(Request::Eval {
        options,
        spec: path_of(inner, "SPEC"),
        terms,
    })
}

/// Returns the request of `trace`.
fn trace_of<'a>(inner: &ArgMatches<'a>) -> Result<Request<'a>, Wrong> {
    let shown = shown_of(inner)?;
    let options = options_of(inner).ok_or(MISSING)?;
    Ok(Request::Trace {
        options,
        shown,
        spec: path_of(inner, "SPEC"),
        terms: inner.get_str("TERMS"),
    })
}

/// Returns the request of `share`. The text of a table's term may have far more bytes than memory,
/// so the term is not printed.
fn share_of<'a>(inner: &ArgMatches<'a>) -> Result<Request<'a>, Wrong> {
    let nodes = nodes_of(inner);
    let run = counted_of(inner);
    if run.form == InputForm::Table && run.lines == TermLines::TextAndCells && nodes.is_none() {
        return Err(ONLY_FROM_TABLE);
    }
    Ok(Request::Share {
        file: path_of(inner, "FILE"),
        nodes,
        run,
    })
}

/// Returns the request of `uses`.
fn uses_of<'a>(inner: &ArgMatches<'a>) -> Result<Request<'a>, Wrong> {
    Ok(Request::Uses {
        spec: path_of(inner, "SPEC"),
        at: word_place_of(inner)?,
    })
}

/// Returns the request of `serve`.
fn serve_of<'a>(inner: &ArgMatches<'a>) -> Option<Request<'a>> {
    Some(Request::Serve {
        options: options_of(inner)?,
        spec: path_of(inner, "SPEC"),
        requests: path_of(inner, "FILE"),
    })
}

/// Returns the request of `match`.
fn match_of<'a>(inner: &ArgMatches<'a>) -> Option<Request<'a>> {
    Some(Request::Match {
        pattern: inner.get_str("PATTERN")?,
        file: path_of(inner, "FILE"),
    })
}

/// Returns the request of `make`.
fn make_of<'a>(inner: &ArgMatches<'a>) -> Option<Request<'a>> {
    Some(Request::Make {
        pattern: inner.get_str("PATTERN")?,
        args: inner.get_str("ARGS")?,
    })
}
