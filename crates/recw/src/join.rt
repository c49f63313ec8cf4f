//! The command `join`, and the texts of `--join`: several specifications as one.

use crate::check::{name_of, shown_name};
use crate::evidence::Evidence;
use crate::input::{Sources, open};
use crate::report::Outcome;
use rec_check::check_text;
use rec_join::{JoinFault, Joined, Part, join_texts};
use rx_run::{RunFault, read_all_from};
use std::alloc::Global;
use std::io::{Read, Write};
use std::rt::Files;

/// The line of a joined text that is too long.
const TOO_LONG: &[u8] = b"<joined>:1:1: error: the joined text has more than 16777216 bytes [L1]\n";

/// The line of a joined text that differs from its parts, which is a defect of the program.
const MISMATCH: &[u8] = b"<joined>:1:1: error: the joined text differs from its parts: a defect\n";

/// The text of a specification.
#[derive(Drop)]
pub struct NamedText<'a> {
    /// Its path.
    pub path: &'a str,
    /// Its name in messages.
    pub name: Vec<u8>,
    /// Its bytes.
    pub text: Vec<u8>,
}

/// Reads the specification in a file or on standard input.
pub fn read_named<'a, H: Files, R: Read>(
    sources: &mut Sources<'_, H, R>,
    path: &'a str,
    evidence: &mut Evidence<'a>,
) -> Result<NamedText<'a>, RunFault> {
    let alloc = evidence.alloc;
    let name = name_of(path);
    let mut file = evidence.note_open(open(sources.rt, Some(path), sources.input), name)?;
    let mut read = evidence.record(&mut file);
    let text = read_all_from(alloc, &mut rx_text::Input::new(&mut read));
    evidence.note_read(read.finish(), name);
    Ok(NamedText {
        path,
        name: shown_name(alloc, name)?,
        text: text?,
    })
}

/// Reads specifications in their order.
pub fn read_each<'a, H: Files, R: Read>(
    sources: &mut Sources<'_, H, R>,
    paths: &'a [&'a str],
    evidence: &mut Evidence<'a>,
) -> Result<Vec<NamedText<'a>>, RunFault> {
    let mut texts = Vec::new(evidence.alloc);
    for path in paths {
        let text = read_named(sources, path, evidence)?;
        if texts.push(text).is_err() {
            return Err(RunFault::Memory { lines: 0 });
        }
    }
    Ok(texts)
}

/// Joins specifications.
pub fn joined_of(alloc: Global, texts: &[NamedText<'_>]) -> Result<Joined, JoinFault> {
    let mut parts = Vec::new(alloc);
    for text in texts {
        let part = Part {
            name: &text.name,
            text: &text.text,
        };
        if parts.push(part).is_err() {
            return Err(JoinFault::Memory);
        }
    }
    join_texts(alloc, &parts)
}

/// Writes the line of `check` for the part that is no specification, or the line of the joined
/// text.
pub fn tell_fault<W: Write>(
    alloc: Global,
    fault: &JoinFault,
    texts: &[NamedText<'_>],
    out: &mut W,
) -> Result<Outcome, RunFault> {
    match *fault {
        JoinFault::Empty => Ok(Outcome::Done),
        JoinFault::Memory => Err(RunFault::Memory { lines: 0 }),
        JoinFault::TooLong => tell_line(TOO_LONG, out),
        JoinFault::Mismatch => tell_line(MISMATCH, out),
        JoinFault::Long { part } | JoinFault::Grammar { part, .. } => {
            if let Some(text) = texts.get(part) {
                check_text(alloc, &text.name, &text.text, out)?;
            }
            Ok(Outcome::Faulty)
        }
    }
}

/// Writes the line of an error.
fn tell_line<W: Write>(line: &[u8], out: &mut W) -> Result<Outcome, RunFault> {
    write_all(line, out)?;
    Ok(Outcome::Faulty)
}

/// Writes bytes and flushes.
pub fn write_all<W: Write>(bytes: &[u8], out: &mut W) -> Result<(), RunFault> {
    match out.write_all(bytes) {
        Ok(()) => out.flush().map_err(|_| RunFault::Write),
        Err(_) => Err(RunFault::Write),
    }
}

/// Writes one specification of several. A text outside the grammar has the line of `check`, and
/// nothing else is written.
pub fn join<'a, H: Files, R: Read, W: Write>(
    sources: &mut Sources<'_, H, R>,
    out: &mut W,
    evidence: &mut Evidence<'a>,
) -> Result<Outcome, RunFault> {
    let alloc = evidence.alloc;
    let texts = read_each(sources, evidence.invocation.given.as_slice(), evidence)?;
    match joined_of(alloc, &texts) {
        Ok(joined) => {
            write_all(joined.syntax.source(), out)?;
            Ok(Outcome::Done)
        }
        Err(fault) => tell_fault(alloc, &fault, &texts, out),
    }
}
