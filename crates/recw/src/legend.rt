//! The rules of the lines of a trace, with their texts.

use rec_syntax::Syntax;
use rec_trace_run::{Spot, rule_spots};
use recw_cli::text_of_rule;
use std::alloc::{AllocError, Global};
use std::io;
use std::io::Write;

/// One more than the greatest column: a text has fewer bytes.
const COLUMNS: u64 = 33_554_432;

/// The part of a line that was written: its location, or what follows that.
#[derive(Clone, Copy)]
enum Front {
    /// A part of the line number.
    Line(u64),
    /// The line number, and a part of the column.
    Column(u64, u64),
    /// The line does not begin with a location, or the location is complete.
    Rest,
}

/// A writer that notes the rules at whose locations lines begin.
#[derive(Drop)]
pub struct Legend<'a, W> {
    /// The output.
    out: &'a mut W,
    /// The start of the line that is being written.
    front: Front,
    /// The locations of the rules, in their order.
    keys: Vec<u64>,
    /// Of each rule, whether a line begins with its location.
    are_shown: Vec<bool>,
}

/// Returns a number for a location: a greater one for a later location.
fn key_of(line: u64, column: u64) -> u64 {
    line.saturating_mul(COLUMNS).saturating_add(column)
}

/// Returns a number with one more decimal digit.
fn with_digit(number: u64, digit: u8) -> u64 {
    let value = u64::from(digit.saturating_sub(b'0'));
    number.saturating_mul(10).saturating_add(value)
}

impl<'a, W: Write> Legend<'a, W> {
    /// Returns a wrapper of `out` to which nothing was written.
    pub fn new(
        alloc: Global,
        syntax: &Syntax,
        out: &'a mut W,
    ) -> Result<Legend<'a, W>, AllocError> {
        let spots = rule_spots(alloc, syntax)?;
        let mut keys = Vec::new(alloc);
        let mut are_shown = Vec::new(alloc);
        for spot in &spots {
            keys.push(key_of(spot.line, spot.column))?;
            are_shown.push(false)?;
        }
        Ok(Legend {
            out,
            front: Front::Line(0),
            keys,
            are_shown,
        })
    }

    /// Notes a byte that was written.
    fn note(&mut self, byte: u8) {
        self.front = match (self.front, byte) {
            (_, b'\n') => Front::Line(0),
            (Front::Line(line), b'0'..=b'9') => Front::Line(with_digit(line, byte)),
            (Front::Line(line), b':') => Front::Column(line, 0),
            (Front::Column(line, column), b'0'..=b'9') => {
                Front::Column(line, with_digit(column, byte))
            }
            (Front::Column(line, column), b':') => {
                self.show(key_of(line, column));
                Front::Rest
            }
            _ => Front::Rest,
        };
    }

    /// Notes the rule at a location, if there is one.
    fn show(&mut self, key: u64) {
        if let Ok(index) = self.keys.binary_search(&key)
            && let Some(is_shown) = self.are_shown.get_mut(index)
        {
            *is_shown = true;
        }
    }

    /// Returns for each rule whether a line begins with its location.
    pub fn finish(self) -> Vec<bool> {
        self.are_shown
    }
}

impl<W: Write> Write for Legend<'_, W> {
    fn write(&mut self, buf: &[u8]) -> io::Result<usize> {
        let count = self.out.write(buf)?;
        let (written, _) = buf.split_at(count.min(buf.len()));
        for byte in written {
            self.note(*byte);
        }
        Ok(count)
    }

    fn flush(&mut self) -> io::Result<()> {
        self.out.flush()
    }
}

/// Returns a line with the location and the text of each of these rules.
pub fn legend_of(
    alloc: Global,
    syntax: &Syntax,
    are_shown: &[bool],
) -> Result<Vec<u8>, AllocError> {
    let mut lines = Vec::new(alloc);
    let spots = rule_spots(alloc, syntax)?;
    for (number, rule) in syntax.rules().iter().enumerate() {
        if are_shown.get(number) == Some(&true)
            && let Some(Spot { line, column }) = spots.get(number)
        {
            let text = text_of_rule(alloc, syntax, rule, usize::MAX)?;
            if write!(lines, "rule: {line}:{column}: ").is_err() {
                return Err(AllocError);
            }
            lines.extend_from_slice(&text)?;
            lines.extend_from_slice(b"\n")?;
        }
    }
    Ok(lines)
}
