//! The report of `--profile`: the uses of each rule, steps and cells.

use rec_run::{Profiler, RuleCount, Tally};
use rec_sorts::Checked;
use rec_syntax::Syntax;
use rec_trace_run::{Spot, rule_spots};
use recw_cli::text_of_rule;
use std::alloc::Global;
use std::io;
use std::io::Write;

/// The line that is written if there is no memory for the report.
const NO_MEMORY: &[u8] = b"profile: out of memory\n";

/// The most bytes of a rule's text if standard error is not a terminal.
const MOST_TEXT: usize = 60;

/// The fewest bytes to which a rule's text is cut on a narrow terminal.
const LEAST_TEXT: usize = 20;

/// Writes the report, if it is requested.
#[derive(Drop)]
pub struct Profile<'a, E> {
    /// The allocator of the report.
    alloc: Global,
    /// Whether it is requested.
    is_asked: bool,
    /// The number of columns of the output, if it is a terminal.
    columns: Option<usize>,
    /// The output.
    err: &'a mut E,
    /// Whether an evaluation could start.
    has_begun: bool,
}

/// A profiler that notes whether an evaluation could start.
pub trait Starts: Profiler {
    /// Returns whether an evaluation could start.
    fn has_begun(&self) -> bool;
}

impl<E: Write> Starts for Profile<'_, E> {
    fn has_begun(&self) -> bool {
        self.has_begun
    }
}

impl<'a, E: Write> Profile<'a, E> {
    /// Returns a profiler that writes to `err` if the report is requested. The report has aligned
    /// columns if `err` is a terminal, which has this number of columns.
    pub fn new(
        alloc: Global,
        is_asked: bool,
        columns: Option<usize>,
        err: &'a mut E,
    ) -> Profile<'a, E> {
        Profile {
            alloc,
            is_asked,
            columns,
            err,
            has_begun: false,
        }
    }
}

impl<E: Write> Profiler for Profile<'_, E> {
    fn counts_rules(&self) -> bool {
        self.is_asked
    }

    fn conclude(&mut self, checked: &Checked, counts: &[RuleCount], tally: Tally) {
        self.has_begun = true;
        if self.is_asked {
            let report = report_of(self.alloc, checked.syntax(), counts, tally, self.columns);
            // Lines that cannot be written are dropped.
            let _ = match report {
                Ok(text) => self.err.write_all(text.as_slice()),
                Err(_) => self.err.write_all(NO_MEMORY),
            };
        }
    }
}

/// The uses of a rule.
#[derive(Clone, Copy)]
struct Row {
    /// The index of the rule.
    number: usize,
    /// The location of the rule.
    spot: Spot,
    /// The uses.
    count: RuleCount,
}

/// Returns the lines: one for each rule, and then the totals. The only error is out of memory,
/// which includes rules that were not counted.
fn report_of(
    alloc: Global,
    syntax: &Syntax,
    counts: &[RuleCount],
    tally: Tally,
    columns: Option<usize>,
) -> io::Result<Vec<u8>> {
    let rows = rows_of(alloc, syntax, counts)?;
    let layout = Layout::of(&rows, columns);
    let mut text = Vec::new(alloc);
    for row in &rows {
        layout.write(*row, &mut text)?;
        if let Some(rule) = syntax.rules().get(row.number) {
            let rule = text_of_rule(alloc, syntax, rule, layout.text)?;
            text.extend_from_slice(&rule)?;
        }
        text.extend_from_slice(b"\n")?;
    }
    write_tally(tally, matches_of(counts), &mut text)?;
    Ok(text)
}

/// Returns the uses of each rule: the rules with the most matches first, and otherwise in their
/// order.
fn rows_of(alloc: Global, syntax: &Syntax, counts: &[RuleCount]) -> io::Result<Vec<Row>> {
    let spots = rule_spots(alloc, syntax)?;
    if counts.len() != spots.len() {
        return Err(io::Error::from(io::ErrorKind::OutOfMemory));
    }
    let mut rows = Vec::new(alloc);
    for (number, (spot, count)) in spots.iter().zip(counts).enumerate() {
        let row = Row {
            number,
            spot: *spot,
            count: *count,
        };
        rows.push(row)?;
    }
    rows.sort_by_key(|row: &Row| u64::MAX - row.count.matched)?;
    Ok(rows)
}

/// Returns the number of matches of all rules.
fn matches_of(counts: &[RuleCount]) -> u64 {
    let mut matched = 0u64;
    for count in counts {
        matched = matched.saturating_add(count.matched);
    }
    matched
}

/// The widths of the columns; 0 if they are not aligned.
#[derive(Clone, Copy)]
struct Layout {
    /// The location.
    place: usize,
    /// The number of matches.
    matched: usize,
    /// The number of applications.
    fired: usize,
    /// The number of failed conditions.
    failed: usize,
    /// The most bytes of the text of a rule.
    text: usize,
    /// What is before the text.
    before: &'static str,
}

/// Returns the number of decimal digits.
fn digits_of(number: u64) -> usize {
    let mut count = 1usize;
    let mut bound = 10u64;
    for _ in 0..19 {
        if number < bound {
            break;
        }
        count = count.saturating_add(1);
        bound = bound.saturating_mul(10);
    }
    count
}

impl Layout {
    /// Returns the widths for these rows on a terminal with this number of columns, or on none.
    fn of(rows: &[Row], columns: Option<usize>) -> Layout {
        let mut layout = Layout {
            place: 0,
            matched: 0,
            fired: 0,
            failed: 0,
            text: MOST_TEXT,
            before: "\t",
        };
        let Some(columns) = columns else {
            return layout;
        };
        for row in rows {
            layout.widen(*row);
        }
        layout.before = "  ";
        // the words and marks of a line have 40 bytes, and the last column stays free
        let taken = layout
            .place
            .saturating_add(layout.matched)
            .saturating_add(layout.fired)
            .saturating_add(layout.failed)
            .saturating_add(41);
        layout.text = columns.saturating_sub(taken).max(LEAST_TEXT);
        layout
    }

    /// Makes the columns at least as wide as those of a row.
    fn widen(&mut self, row: Row) {
        let Row { spot, count, .. } = row;
        let place = digits_of(spot.line).saturating_add(digits_of(spot.column));
        self.place = self.place.max(place.saturating_add(1));
        self.matched = self.matched.max(digits_of(count.matched));
        self.fired = self.fired.max(digits_of(count.fired));
        self.failed = self.failed.max(digits_of(count.failed));
    }

    /// Writes a row up to the text of its rule.
    fn write<W: Write>(&self, row: Row, out: &mut W) -> io::Result<()> {
        let Row { spot, count, .. } = row;
        let Spot { line, column } = spot;
        let length = digits_of(line).saturating_add(digits_of(column));
        write!(out, "profile: {line}:{column}: ")?;
        pad(self.place, length.saturating_add(1), out)?;
        write_count(count.matched, self.matched, out)?;
        out.write_all(b" matched, ")?;
        write_count(count.fired, self.fired, out)?;
        out.write_all(b" applied, ")?;
        write_count(count.failed, self.failed, out)?;
        write!(out, " failed{}", self.before)
    }
}

/// Writes the spaces that a text of this length lacks to a width.
fn pad<W: Write>(width: usize, length: usize, out: &mut W) -> io::Result<()> {
    for _ in length..width {
        out.write_all(b" ")?;
    }
    Ok(())
}

/// Writes a number at the right of a column of this width.
fn write_count<W: Write>(number: u64, width: usize, out: &mut W) -> io::Result<()> {
    pad(width, digits_of(number), out)?;
    write!(out, "{number}")
}

/// Writes the lines of the totals; `matched` is the number of steps that matches spent.
fn write_tally<W: Write>(tally: Tally, matched: u64, out: &mut W) -> io::Result<()> {
    let Tally {
        steps,
        remembered,
        saved,
        ..
    } = tally;
    writeln!(
        out,
        "profile: steps: {steps} spent, {matched} matched, {saved} saved by {remembered} memo hits"
    )?;
    write_cells(tally, out)
}

/// Writes the lines about cells.
fn write_cells<W: Write>(tally: Tally, out: &mut W) -> io::Result<()> {
    let Tally {
        made,
        most,
        reclaims,
        ..
    } = tally;
    writeln!(out, "profile: cells: {made} made, {most} in use at most")?;
    writeln!(out, "profile: garbage collections: {reclaims}")
}
