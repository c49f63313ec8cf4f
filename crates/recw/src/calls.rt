//! Stuck calls with the numbers of their terms.

use crate::numbered::TermNumber;
use rec_engine::Engine;
use rec_run::{Reporter, Watch};
use rec_sorts::Checked;
use rec_stuck::StuckReport;
use recw_cli::TermChoice;
use rx_term::{Term, TermBank};
use std::alloc::{AllocError, Global};
use std::cell::Cell;
use std::io;
use std::io::Write;
use std::rc::Rc;

/// The beginning of a line that reports a stuck call.
const MARK: &[u8] = b"stuck: ";

/// A watch that counts the evaluations that have ended.
#[derive(Drop)]
pub struct Counted<V> {
    /// The wrapped watch.
    pub watch: V,
    /// The number of evaluations that have ended.
    pub ended: Rc<Cell<u64>>,
}

impl<V: Watch> Watch for Counted<V> {
    fn tell(&mut self, left: u64, cells: u32) {
        self.watch.tell(left, cells);
    }

    fn cease(&mut self) {
        self.ended.set(self.ended.get().saturating_add(1));
        self.watch.cease();
    }
}

/// A report that has lines.
pub trait Lines {
    /// Returns the number of bytes of its lines.
    fn length(&self) -> usize;
}

impl Lines for StuckReport {
    fn length(&self) -> usize {
        self.lines.len()
    }
}

/// The lines of a term in a report.
#[derive(Clone, Copy)]
pub struct Part {
    /// The number of evaluations that had ended, with that of the term.
    ended: u64,
    /// The offset of the first line.
    from: usize,
}

/// A report that notes which lines are those of which term.
#[derive(Drop)]
pub struct Parted<S> {
    /// The wrapped report.
    pub reporter: S,
    /// The number of evaluations that have ended.
    pub ended: Rc<Cell<u64>>,
    /// The lines of each term that has a value.
    pub parts: Vec<Part>,
}

impl<S: Reporter + Lines> Reporter for Parted<S> {
    ghost told = { λ p. S.told p.reporter };

    ghost is_ready = { λ p source spec. S.is_ready p.reporter source spec };

    ghost says = { S.says };

    fn begin(&mut self, alloc: Global, checked: &Checked) -> Result<(), AllocError> {
        self.reporter.begin(alloc, checked)
    }

    fn report<B: TermBank>(
        &mut self,
        alloc: Global,
        engine: &Engine<B>,
        value: Term,
    ) -> Result<(), AllocError> {
        let part = Part {
            ended: self.ended.get(),
            from: self.reporter.length(),
        };
        self.parts.push(part)?;
        self.reporter.report(alloc, engine, value)
    }
}

/// Returns the lines of a report with the numbers of their terms.
pub fn numbered_lines(
    alloc: Global,
    lines: &[u8],
    parts: &[Part],
    terms: TermChoice,
) -> io::Result<Vec<u8>> {
    let first = TermNumber::first(terms);
    let mut numbered = Vec::new(alloc);
    let mut ends = parts.iter().skip(1);
    for part in parts {
        let to = match ends.next() {
            Some(next) => next.from,
            None => lines.len(),
        };
        let term = first.after(part.ended.saturating_sub(1));
        write_part(lines.get(part.from..to).unwrap_or(&[]), term, &mut numbered)?;
    }
    Ok(numbered)
}

/// Writes the lines of a term with its number.
fn write_part<W: Write>(lines: &[u8], term: TermNumber, out: &mut W) -> io::Result<()> {
    for line in lines.split(|byte| *byte == b'\n') {
        if let Some(call) = line.strip_prefix(MARK) {
            write!(out, "stuck: {term}: ")?;
            out.write_all(call)?;
            out.write_all(b"\n")?;
        }
    }
    Ok(())
}
