//! Standard error: messages, and the progress of long evaluations.

use crate::numbered::TermNumber;
use crate::progress::{Display, Progress};
use rec_run::Watch;
use recw_cli::{Audience, Console, Request, TermChoice};
use std::alloc::Global;
use std::env::{Env, FillError};
use std::io::{self, IsTerminal, Stderr, Write};

/// What standard output is.
#[derive(Clone, Copy)]
pub struct Look {
    /// Whether it is a terminal.
    pub is_terminal: bool,
    /// Whether text on it may have colours.
    pub has_colours: bool,
}

impl Look {
    /// A file or a pipe.
    pub const PLAIN: Look = Look {
        is_terminal: false,
        has_colours: false,
    };
}

/// An output for messages that can also show the progress of an evaluation.
pub trait Screen: Audience {
    /// The progress display of one run.
    type Progress: Watch + Drop;

    /// Returns what standard output is.
    fn look(&self) -> Look;

    /// Returns the number of columns of standard error, if it is a terminal.
    fn columns(&self) -> Option<usize>;

    /// Returns the progress display for this request. It shows nothing if none is requested.
    fn progress(&self, request: &Request<'_>) -> Self::Progress;

    /// The output of prompts.
    type Prompts: Write + Drop;

    /// Returns the output of prompts, if standard input is typed at a terminal, and prompts are
    /// shown on one.
    fn prompts(&self) -> Option<Self::Prompts>;
}

/// Standard error of the process.
#[derive(Drop)]
pub struct Terminal<'a> {
    /// The clock, and the source of further handles of standard error.
    rt: &'a HostRuntime,
    /// The allocator of progress lines.
    alloc: Global,
    /// The writer for messages.
    console: Console<Stderr>,
}

impl<'a> Terminal<'a> {
    /// Returns standard error of the process. Errors are explained if it is a terminal or the
    /// variable RECW_EXPLAIN is set.
    pub fn new(rt: &'a HostRuntime, alloc: Global) -> Terminal<'a> {
        let err = rt.stderr();
        let explains = err.is_terminal() || has_variable(rt, "RECW_EXPLAIN");
        let console = Console::new(err, explains);
        Terminal { rt, alloc, console }
    }
}

/// Returns whether an environment variable is set, to any value.
fn has_variable(env: &impl Env, name: &str) -> bool {
    match env.var(name, &mut [0u8; 1]) {
        Ok(_) | Err(FillError::TooLong) => true,
        Err(FillError::NotPresent) => false,
    }
}

/// Returns whether an environment variable is set and not empty.
fn has_value(env: &impl Env, name: &str) -> bool {
    match env.var(name, &mut [0u8; 1]) {
        Ok(length) => length > 0,
        Err(FillError::TooLong) => true,
        Err(FillError::NotPresent) => false,
    }
}

/// Returns whether the terminal is one without colours, such as the compilation buffer of Emacs.
fn is_dumb(env: &impl Env) -> bool {
    let mut name = [0u8; 4];
    match env.var("TERM", &mut name) {
        Ok(_) => name == *b"dumb",
        Err(_) => false,
    }
}

/// Returns the number of columns of the terminal: the variable COLUMNS if it is a positive number,
/// and otherwise 80.
fn columns_of(env: &impl Env) -> usize {
    let mut buf = [0u8; 20];
    let Ok(len) = env.var("COLUMNS", &mut buf) else {
        return 80;
    };
    let text = str::from_utf8(buf.get(..len).unwrap_or(&[])).unwrap_or("");
    match text.parse::<usize>() {
        Ok(columns) if columns > 0 => columns,
        _ => 80,
    }
}

impl Write for Terminal<'_> {
    fn write(&mut self, buf: &[u8]) -> io::Result<usize> {
        self.console.write(buf)
    }

    fn flush(&mut self) -> io::Result<()> {
        self.console.flush()
    }
}

impl Audience for Terminal<'_> {
    fn is_curious(&self) -> bool {
        self.console.is_curious()
    }
}

impl<'a> Screen for Terminal<'a> {
    type Progress = ProgressLine<'a>;

    /// Text on a terminal has colours unless the variable NO_COLOR has a value.
    fn look(&self) -> Look {
        let is_terminal = self.rt.stdout().is_terminal();
        let is_plain = has_value(self.rt, "NO_COLOR") || is_dumb(self.rt);
        Look {
            is_terminal,
            has_colours: is_terminal && !is_plain,
        }
    }

    fn columns(&self) -> Option<usize> {
        if self.rt.stderr().is_terminal() {
            Some(columns_of(self.rt))
        } else {
            None
        }
    }

    /// A progress line is shown for `eval` if it is requested or standard error is a terminal.
    fn progress(&self, request: &Request<'_>) -> ProgressLine<'a> {
        let err = self.rt.stderr();
        let (is_asked, steps, terms) = match *request {
            Request::Eval { options, .. } => {
                let is_asked = options.progress || err.is_terminal();
                (is_asked, options.steps, options.terms)
            }
            _ => (false, 0, TermChoice::All),
        };
        let display = Display {
            is_asked,
            steps,
            width: self.columns().unwrap_or(usize::MAX),
            first: TermNumber::first(terms),
        };
        let progress = Progress::new(self.alloc, self.rt, display);
        ProgressLine { progress, err }
    }

    type Prompts = Stderr;

    fn prompts(&self) -> Option<Stderr> {
        let err = self.rt.stderr();
        if err.is_terminal() && self.rt.stdin().is_terminal() {
            Some(err)
        } else {
            None
        }
    }
}

/// The line on standard error that shows the progress of an evaluation.
#[derive(Drop)]
pub struct ProgressLine<'a> {
    /// The state of the display.
    progress: Progress<'a, HostRuntime>,
    /// Standard error; control bytes are written as they are.
    err: Stderr,
}

impl Watch for ProgressLine<'_> {
    fn tell(&mut self, left: u64, cells: u32) {
        self.progress.show(left, cells, &mut self.err);
    }

    fn cease(&mut self) {
        self.progress.end_term(&mut self.err);
    }
}
