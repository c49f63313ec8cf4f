//! Selections of rewrites, and of terms, that name nothing.

use crate::elements::{Token, next_lexeme};
use crate::named::{nearest_symbol, write_nearest};
use crate::names::{find_symbol, word_in};
use crate::nodes::head_of;
use crate::options::{RulePlace, Shown};
use crate::place::{Places, Spot};
use rec_syntax::Syntax;
use std::io;
use std::io::Write;

/// The most operators that a message lists.
const MOST_NAMES: usize = 20;

/// A line and a column, from 1.
#[derive(Clone, Copy, PartialEq, Eq)]
pub struct Location {
    line: usize,
    column: usize,
}

impl Location {
    /// Returns whether it is after another location.
    fn is_after(self, other: Location) -> bool {
        self.line > other.line || self.line == other.line && self.column > other.column
    }
}

/// What an option names, although the specification, or the run, does not have it.
#[derive(Clone, Copy)]
pub enum Unnamed<'s, 'n> {
    /// A rule: its location, and the location of the nearest one.
    Rule {
        place: RulePlace,
        nearest: Option<Location>,
    },
    /// A symbol.
    Symbol {
        syntax: &'s Syntax,
        name: &'n str,
    },
    /// The term with this number, in a run that has `count` terms, if that is known.
    Term {
        number: u64,
        count: Option<u64>,
    },
}

/// Returns the rule, or else the symbol, that a selection names and the specification does not
/// have.
pub fn find_unnamed<'s, 'n>(syntax: &'s Syntax, shown: &Shown<'n>) -> Option<Unnamed<'s, 'n>> {
    match unnamed_rule(syntax, shown) {
        Some(unnamed) => Some(unnamed),
        None => unnamed_symbol(syntax, shown),
    }
}

/// Returns the symbol that a selection names, if it is not declared.
fn unnamed_symbol<'s, 'n>(syntax: &'s Syntax, shown: &Shown<'n>) -> Option<Unnamed<'s, 'n>> {
    let name = shown.symbol?;
    match find_symbol(syntax, name.as_bytes()) {
        Some(_) => None,
        None => Some(Unnamed::Symbol { syntax, name }),
    }
}

/// Returns the location that a selection has, if no rule begins there.
fn unnamed_rule<'s, 'n>(syntax: &Syntax, shown: &Shown<'_>) -> Option<Unnamed<'s, 'n>> {
    let place = shown.rule?;
    let wanted = Location {
        line: place.line as usize,
        column: place.column as usize,
    };
    let nearest = nearest_rule(syntax, wanted);
    match nearest {
        Some(found) if found == wanted => None,
        _ => Some(Unnamed::Rule { place, nearest }),
    }
}

/// Returns the location of the last rule that begins at or before a location, or else of the first
/// rule. Rules have the order of the text.
fn nearest_rule(syntax: &Syntax, wanted: Location) -> Option<Location> {
    let mut places = Places::new(syntax.source());
    let mut nearest = None;
    for rule in syntax.rules() {
        let Spot { line, column, .. } = places.place(head_of(&rule.left)?.word.from);
        let location = Location { line, column };
        if nearest.is_some() && location.is_after(wanted) {
            break;
        }
        nearest = Some(location);
    }
    nearest
}

/// Returns the number of terms in the text of a list.
pub fn count_terms(text: &[u8]) -> u64 {
    let mut depth = 0usize;
    let mut commas = 0u64;
    let mut is_empty = true;
    let mut rest = text;
    // each pass but the last consumes a byte
    for _ in 0..=text.len() {
        let Some(lexeme) = next_lexeme(rest) else {
            break;
        };
        rest = lexeme.behind;
        match lexeme.token {
            Token::Mark(b')' | b']' | b'}' | b'>') => depth = depth.saturating_sub(1),
            Token::Mark(b',') if depth == 1 => commas = commas.saturating_add(1),
            token => {
                is_empty = is_empty && depth != 1;
                if matches!(token, Token::Mark(b'(' | b'[' | b'{' | b'<')) {
                    depth = depth.saturating_add(1);
                }
            }
        }
    }
    if is_empty {
        0
    } else {
        commas.saturating_add(1)
    }
}

impl Unnamed<'_, '_> {
    /// Writes the usage error.
    pub fn write<W: Write>(&self, out: &mut W) -> io::Result<()> {
        out.write_all(b"error: ")?;
        match *self {
            Unnamed::Rule { place, nearest } => write_rule(place, nearest, out)?,
            Unnamed::Symbol { syntax, name } => write_symbol(syntax, name, out)?,
            Unnamed::Term { number, count } => write_term(number, count, out)?,
        }
        out.write_all(b"\n\nFor more information, try '--help'.\n")
    }
}

/// Writes that no rule begins at a location.
fn write_rule<W: Write>(
    place: RulePlace,
    nearest: Option<Location>,
    out: &mut W,
) -> io::Result<()> {
    let RulePlace { line, column } = place;
    write!(
        out,
        "invalid value '{line}:{column}' for '--rule <LINE:COL>': no rule begins there; "
    )?;
    match nearest {
        Some(Location { line, column }) => {
            write!(out, "the nearest one begins at {line}:{column}")
        }
        None => out.write_all(b"there are no rules"),
    }
}

/// Writes that a symbol is not declared, and the nearest one, or else the operators.
fn write_symbol<W: Write>(syntax: &Syntax, name: &str, out: &mut W) -> io::Result<()> {
    write!(
        out,
        "invalid value '{name}' for '--symbol <NAME>': not a symbol; "
    )?;
    match nearest_symbol(syntax, name.as_bytes()) {
        Some(nearest) => write_nearest(nearest, out),
        None => write_operators(syntax, out),
    }
}

/// Writes the operators.
fn write_operators<W: Write>(syntax: &Syntax, out: &mut W) -> io::Result<()> {
    let operators = syntax.operators();
    out.write_all(match operators.len() {
        0 => b"there are no operators",
        1 => b"the only operator is",
        _ => b"operators are",
    })?;
    let mut before = b" ".as_slice();
    for operator in operators.iter().take(MOST_NAMES) {
        out.write_all(before)?;
        out.write_all(word_in(syntax.source(), operator.name))?;
        before = b", ".as_slice();
    }
    match operators.len().saturating_sub(MOST_NAMES) {
        0 => Ok(()),
        more => write!(out, " and {more} more"),
    }
}

/// Writes that a run does not have a term, and the number of its terms if that is known.
fn write_term<W: Write>(number: u64, count: Option<u64>, out: &mut W) -> io::Result<()> {
    write!(out, "there is no term {number}")?;
    match count {
        Some(count) => write!(out, "; this run has {count}"),
        None => Ok(()),
    }
}
