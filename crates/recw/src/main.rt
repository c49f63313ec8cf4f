//! The program `recw`.
//!
//! `main` reads the arguments of the process and calls `program` with its standard streams.
//! `program` parses the arguments, runs the command, reports how the run ended, and returns the
//! exit status. It is generic over files and streams, so that the tests call it with files in
//! memory.
//!
//! ```text
//! recw eval add.rec     # s(s(s(z)))
//! recw check add.rec    # no output: there is nothing to warn of
//! ```
//!
//! | Modules | Subject |
//! |---|---|
//! | `program`, `work`, `check`, `uses`, `join`, `joined`, `serve` | the commands and their files |
//! | `mapped` | the findings of `check --join` |
//! | `evidence`, `recorded`, `expected`, `item` | texts and errors of a run, for `--explain` |
//! | `report`, `profile`, `progress`, `prompts`, `screen` | messages on standard error |
//! | `drawn` | graphs of results |
//! | `calls`, `legend`, `numbered` | stuck calls, rules of a trace, and terms in these messages |
//! | `options`, `given`, `input` | conversions from the command line |
//!
//! **Invariants.** All named files are opened before anything is read, except that `check`, `join`
//! and `--join` take one file after the other. A stream that failed is not used again. Texts are
//! recorded only if errors are explained. A message that cannot be written is dropped and does not
//! change the exit status.
//!
//! **Errors.** The exit status is 0 to 5 as in the help. The status as a function of the run's end
//! has a contract (`report`); messages and the parsing of arguments are only tested.
//!
//! **Cost.** That of the run. Output is buffered in 64 KiB, and flushed early as `Prompt`
//! describes.
#![tactic(auto)]

mod calls;
mod check;
mod drawn;
mod evidence;
mod expected;
mod given;
mod input;
mod item;
mod join;
mod joined;
mod legend;
mod mapped;
mod numbered;
mod options;
mod profile;
mod program;
mod progress;
mod prompts;
mod recorded;
mod report;
mod screen;
mod serve;
#[cfg(test)]
mod shelf;
#[cfg(test)]
mod tests;
mod uses;
mod work;

use program::program;
use recw_cli::{Guarded, Prompt};
use screen::Terminal;
use std::alloc::Global;
use std::env;
use std::io::{self, BufWriter};
use std::process::ExitCode;

/// The size of the output buffer, in bytes.
const OUT_CAPACITY: usize = 65_536;

/// Runs the program on the arguments of the process and its standard streams.
fn main(rt: HostRuntime) -> ExitCode {
    let status = match start(&rt, rt.alloc()) {
        Ok(status) => status,
        Err(error) => recw_cli::failed_start(&error, &mut Terminal::new(&rt, rt.alloc())),
    };
    ExitCode::from(status)
}

/// Runs the program; fails if an argument is not UTF-8 or if there is not enough memory for the
/// arguments and the output buffer.
fn start(rt: &HostRuntime, alloc: Global) -> io::Result<u8> {
    let given: Vec<String> = env::args(rt)?.skip(1).collect(alloc)?;
    let words: Vec<&str> = given.iter().map(|word| word.as_str()).collect(alloc)?;
    let buffered = BufWriter::with_capacity(alloc, OUT_CAPACITY, Guarded::new(rt.stdout()))?;
    let mut out = Prompt::new(rt, buffered);
    let mut err = Terminal::new(rt, alloc);
    Ok(program(
        rt,
        alloc,
        words.as_slice(),
        &mut rt.stdin(),
        &mut out,
        &mut err,
    ))
}
