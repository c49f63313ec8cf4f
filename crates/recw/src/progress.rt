//! The progress line of long evaluations.

use crate::numbered::TermNumber;
use std::alloc::Global;
use std::io::Write;
use std::time::{Clock, Duration};
use std::{fmt, io};

/// The time before the first line of a term, in milliseconds.
const PATIENCE: u64 = 1000;

/// The shortest time between two lines, in milliseconds.
const INTERVAL: u64 = 100;

/// Clears the rest of the line.
const CLEAR: &[u8] = b"\x1b[K";

/// Returns to the start of the line and clears it.
const WIPE: &[u8] = b"\r\x1b[K";

/// What is shown of a run.
#[derive(Clone, Copy)]
pub struct Display {
    /// Whether progress is shown.
    pub is_asked: bool,
    /// The step limit of each term.
    pub steps: u64,
    /// The number of columns of the terminal. Lines are shorter.
    pub width: usize,
    /// The number of the first term.
    pub first: TermNumber,
}

/// The progress of a run, and the time of the next line.
#[derive(Drop)]
pub struct Progress<'a, C> {
    /// The allocator of the lines.
    alloc: Global,
    /// The clock.
    clock: &'a C,
    /// What is shown.
    display: Display,
    /// The number of the term that is being evaluated.
    term: TermNumber,
    /// The time of the next line. `None` before the first report about a term.
    due: Option<Duration>,
    /// Whether a line is visible.
    is_shown: bool,
}

impl<'a, C: Clock> Progress<'a, C> {
    /// Returns the state before the first term.
    pub fn new(alloc: Global, clock: &'a C, display: Display) -> Progress<'a, C> {
        Progress {
            alloc,
            clock,
            display,
            term: display.first,
            due: None,
            is_shown: false,
        }
    }

    /// Shows the progress of the term, if it is time. A line that cannot be shown is dropped.
    pub fn show<E: Write>(&mut self, left: u64, cells: u32, err: &mut E) {
        if self.display.is_asked && self.is_due() {
            self.is_shown = true;
            let _ = self.write_line(left, cells, err);
        }
    }

    /// Returns whether it is time for a line, and sets the time of the next one. Without a clock
    /// reading, it is not.
    fn is_due(&mut self) -> bool {
        let Ok(now) = self.clock.monotonic() else {
            return false;
        };
        let due = self.due;
        match due {
            Some(due) if now <= due => false,
            Some(_) => {
                self.due = Some(now.saturating_add(Duration::from_millis(INTERVAL)));
                true
            }
            None => {
                self.due = Some(now.saturating_add(Duration::from_millis(PATIENCE)));
                false
            }
        }
    }

    /// Writes the line over the visible one, and clears the rest of that. The last column stays
    /// free: a terminal that clears after it would clear the last character.
    fn write_line<E: Write>(&self, left: u64, cells: u32, err: &mut E) -> io::Result<()> {
        let term = self.term;
        let steps = self.display.steps;
        let spent = Grouped(steps.saturating_sub(left));
        let steps = Grouped(steps);
        let cells = Grouped(u64::from(cells));
        let mut line = Vec::new(self.alloc);
        write!(
            line,
            "\rrecw: {term}: {spent} of {steps} steps, {cells} cells"
        )?;
        line.truncate(self.display.width);
        line.extend_from_slice(CLEAR)?;
        err.write_all(line.as_slice())
    }

    /// Ends a term: clears its line. The next term follows.
    pub fn end_term<E: Write>(&mut self, err: &mut E) {
        self.term = self.term.after(1);
        if self.is_shown {
            self.is_shown = false;
            let _ = err.write_all(WIPE);
        }
    }
}

/// A number that is printed with a comma before each group of three digits.
#[derive(Clone, Copy)]
struct Grouped(u64);

impl fmt::Display for Grouped {
    fn fmt<W: fmt::Write>(&self, f: &mut fmt::Formatter<W>) -> fmt::Result {
        let Grouped(number) = *self;
        if number < 1000 {
            write!(f, "{number}")
        } else {
            write_groups(&groups_of(number), f)
        }
    }
}

/// Writes the groups of a number from its first digit on. Writes nothing for zero.
fn write_groups<W: fmt::Write>(groups: &[u64; 7], f: &mut fmt::Formatter<W>) -> fmt::Result {
    let mut is_begun = false;
    for group in groups {
        if is_begun {
            write!(f, ",{group:03}")?;
        } else if *group > 0 {
            is_begun = true;
            write!(f, "{group}")?;
        }
    }
    Ok(())
}

/// Returns the digits of a number in groups of three, the last digits last.
fn groups_of(number: u64) -> [u64; 7] {
    let mut groups = [0; 7];
    let mut rest = number;
    for group in groups.iter_mut().rev() {
        *group = rest % 1000;
        rest /= 1000;
    }
    groups
}
