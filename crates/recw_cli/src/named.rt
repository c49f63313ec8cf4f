//! Details about the names at the location of a violated rule of specifications.

use crate::names::{find_sort, find_symbol, find_variable, sort_of, word_at, word_in};
use crate::near::Nearest;
use crate::nodes::{Occurrence, Sides, begins_at, find_sides, find_word, has_word, head_of};
use crate::place::line_of;
use rec_syntax::{Declaration, Span, Syntax, Term};
use std::io;
use std::io::Write;

/// The most sorts that a message lists.
const MOST_SORTS: usize = 20;

/// A detail of an error.
#[derive(Clone, Copy)]
pub enum Detail<'s> {
    /// A note on an offset at which nothing is visible.
    Note(&'static str),
    /// The line on which a name is declared already, and whether it is that of a symbol and not of
    /// the same kind.
    Declared {
        name: &'s [u8],
        line: usize,
        is_symbol: bool,
    },
    /// The declared sorts, as words of the text.
    Sorts {
        text: &'s [u8],
        sorts: &'s [Span],
    },
    /// The sections that can declare a word.
    Undeclared {
        sections: &'static str,
    },
    /// The declared and the actual number of arguments of a symbol.
    Count {
        symbol: &'s [u8],
        wanted: usize,
        given: usize,
    },
    /// A variable with arguments.
    Filled {
        variable: &'s [u8],
    },
    /// An argument of the wrong sort.
    Argument(Misfit<'s>),
    /// The sorts of the two sides of a rule or of a condition.
    Sides {
        left: &'s [u8],
        right: &'s [u8],
    },
}

/// Returns the detail of an error `S1` to `S11`, if there is one.
pub fn detail_of(syntax: &Syntax, rule: u8, at: usize) -> Option<Detail<'_>> {
    let word = word_at(syntax.source(), at);
    match rule {
        1 => Some(declared(syntax, find_sort(syntax, word)?, false)),
        2 => Some(declared(syntax, find_symbol(syntax, word)?.name, false)),
        3 => other_use(syntax, word),
        4 => Some(Detail::Sorts {
            text: syntax.source(),
            sorts: syntax.sorts(),
        }),
        5 => Some(Detail::Undeclared {
            sections: sections_of(syntax, at),
        }),
        6 => count_of(syntax, word, at),
        7 => Some(Detail::Argument(misfit_at(syntax, at)?)),
        9 => sides_of(syntax, at),
        _ => None,
    }
}

/// Returns the detail of a name that is declared already.
fn declared(syntax: &Syntax, name: Span, is_symbol: bool) -> Detail<'_> {
    let text = syntax.source();
    Detail::Declared {
        name: word_in(text, name),
        line: line_of(text, name.from),
        is_symbol,
    }
}

/// Returns the symbol or the variable that has this name already.
fn other_use<'s>(syntax: &'s Syntax, word: &[u8]) -> Option<Detail<'s>> {
    match find_symbol(syntax, word) {
        Some(symbol) => Some(declared(syntax, symbol.name, true)),
        None => Some(declared(syntax, find_variable(syntax, word)?.0, false)),
    }
}

/// Returns the sections that can declare the word of a term at this offset.
fn sections_of(syntax: &Syntax, at: usize) -> &'static str {
    if is_defined_at(syntax, at) {
        return "OPNS";
    }
    match count_at(syntax, at) {
        Some(0) if !is_in_eval(syntax, at) => "VARS, CONS or OPNS",
        _ => "CONS or OPNS",
    }
}

/// Returns whether a left-hand side begins at this offset.
fn is_defined_at(syntax: &Syntax, at: usize) -> bool {
    let mut rules = syntax.rules().iter();
    rules.any(|rule| begins_at(&rule.left, at))
}

/// Returns whether a term to evaluate has a word at this offset.
fn is_in_eval(syntax: &Syntax, at: usize) -> bool {
    let mut terms = syntax.terms().iter();
    terms.any(|term| has_word(term, at))
}

/// Returns the number of arguments of the word at this offset.
fn count_at(syntax: &Syntax, at: usize) -> Option<usize> {
    Some(find_word(syntax, at)?.node()?.count)
}

/// Returns the declared and the actual number of arguments of a word.
fn count_of<'s>(syntax: &'s Syntax, word: &'s [u8], at: usize) -> Option<Detail<'s>> {
    let given = count_at(syntax, at)?;
    match find_symbol(syntax, word) {
        Some(symbol) => Some(Detail::Count {
            symbol: word,
            wanted: symbol.arguments.len(),
            given,
        }),
        None => Some(Detail::Filled { variable: word }),
    }
}

/// Returns the sorts of the two sides of the rule or of the condition that begins at this offset.
fn sides_of(syntax: &Syntax, at: usize) -> Option<Detail<'_>> {
    let Sides { left, right } = find_sides(syntax, at)?;
    Some(Detail::Sides {
        left: side_sort(syntax, left)?,
        right: side_sort(syntax, right)?,
    })
}

/// Returns the sort of a side.
fn side_sort<'s>(syntax: &'s Syntax, side: &Term) -> Option<&'s [u8]> {
    sort_of(syntax, word_in(syntax.source(), head_of(side)?.word))
}

impl Detail<'_> {
    /// Writes the detail.
    pub fn write<W: Write>(&self, out: &mut W) -> io::Result<()> {
        match *self {
            Detail::Note(note) => out.write_all(note.as_bytes()),
            Detail::Declared {
                name,
                line,
                is_symbol,
            } => {
                write_behind(if is_symbol { b"the symbol " } else { b"" }, name, out)?;
                write!(out, " is already declared on line {line}")
            }
            Detail::Sorts { text, sorts } => write_sorts(text, sorts, out),
            Detail::Undeclared { sections } => write!(out, "declare it in {sections}"),
            Detail::Count {
                symbol,
                wanted,
                given,
            } => write_takes(symbol, wanted, given, out),
            Detail::Filled { variable } => {
                write_behind(b"the variable ", variable, out)?;
                out.write_all(b" takes no arguments")
            }
            Detail::Argument(misfit) => write_misfit(misfit, out),
            Detail::Sides { left, right } => write_sides(left, right, out),
        }
    }
}

/// Writes a text and a name after it.
fn write_behind<W: Write>(text: &[u8], name: &[u8], out: &mut W) -> io::Result<()> {
    out.write_all(text)?;
    out.write_all(name)
}

/// Writes the declared sorts.
fn write_sorts<W: Write>(text: &[u8], sorts: &[Span], out: &mut W) -> io::Result<()> {
    out.write_all(match sorts.len() {
        0 => b"no sorts are declared",
        1 => b"the only declared sort is",
        _ => b"declared sorts are",
    })?;
    write_some(text, sorts, out)?;
    match sorts.len().saturating_sub(MOST_SORTS) {
        0 => Ok(()),
        more => write!(out, " and {more} more"),
    }
}

/// Writes the first of these words, separated by commas.
fn write_some<W: Write>(text: &[u8], words: &[Span], out: &mut W) -> io::Result<()> {
    let mut before = b" ".as_slice();
    for word in words.iter().take(MOST_SORTS) {
        write_behind(before, word_in(text, *word), out)?;
        before = b", ".as_slice();
    }
    Ok(())
}

/// Writes the declared and the actual number of arguments of a symbol.
fn write_takes<W: Write>(name: &[u8], wanted: usize, given: usize, out: &mut W) -> io::Result<()> {
    out.write_all(name)?;
    let noun = if wanted == 1 { "argument" } else { "arguments" };
    write!(out, " takes {wanted} {noun}, found {given}")
}

/// Writes the declared and the actual sort of an argument, with its symbol and its number.
fn write_misfit<W: Write>(misfit: Misfit<'_>, out: &mut W) -> io::Result<()> {
    let number = misfit.index.saturating_add(1);
    write_behind(b"expected ", misfit.wanted, out)?;
    write_behind(b", found ", misfit.given, out)?;
    write!(out, ", in argument {number} of ")?;
    out.write_all(misfit.symbol)
}

/// Writes the sorts of two sides.
fn write_sides<W: Write>(left: &[u8], right: &[u8], out: &mut W) -> io::Result<()> {
    out.write_all(left)?;
    write_behind(b" on the left, ", right, out)?;
    out.write_all(b" on the right")
}

/// Returns the symbol or variable whose name is the nearest to a word.
pub fn nearest_name<'s>(syntax: &'s Syntax, word: &'s [u8]) -> Option<&'s [u8]> {
    let mut nearest = Nearest::to(word);
    offer_symbols(syntax.source(), syntax.constructors(), &mut nearest);
    offer_symbols(syntax.source(), syntax.operators(), &mut nearest);
    offer_variables(syntax, &mut nearest);
    nearest.name
}

/// Returns the symbol whose name is the nearest to a word.
pub fn nearest_symbol<'s>(syntax: &'s Syntax, word: &'s [u8]) -> Option<&'s [u8]> {
    let mut nearest = Nearest::to(word);
    offer_symbols(syntax.source(), syntax.constructors(), &mut nearest);
    offer_symbols(syntax.source(), syntax.operators(), &mut nearest);
    nearest.name
}

/// Compares the names of symbols with the nearest one so far.
fn offer_symbols<'s>(text: &'s [u8], symbols: &[Declaration], nearest: &mut Nearest<'s>) {
    for symbol in symbols {
        nearest.offer(word_in(text, symbol.name));
    }
}

/// Compares the names of variables with the nearest one so far.
fn offer_variables<'s>(syntax: &'s Syntax, nearest: &mut Nearest<'s>) {
    let text = syntax.source();
    for group in syntax.groups() {
        nearest.offer(word_in(text, group.first));
        for word in group.others.iter() {
            nearest.offer(word_in(text, *word));
        }
    }
}

/// Writes a suggestion.
pub fn write_nearest<W: Write>(name: &[u8], out: &mut W) -> io::Result<()> {
    write_behind(b"did you mean `", name, out)?;
    out.write_all(b"`?")
}

/// Returns the sort error of the argument that begins at this offset.
fn misfit_at(syntax: &Syntax, at: usize) -> Option<Misfit<'_>> {
    let found = find_word(syntax, at)?;
    misfit_of(syntax, found)
}

/// An argument of the wrong sort.
#[derive(Clone, Copy)]
pub struct Misfit<'s> {
    /// The declared sort.
    pub wanted: &'s [u8],
    /// The sort of the argument.
    pub given: &'s [u8],
    /// The symbol whose argument it is.
    pub symbol: &'s [u8],
    /// The index of the argument, from 0.
    pub index: usize,
}

/// Returns the sort error of the argument that a word begins.
fn misfit_of<'s>(syntax: &'s Syntax, found: Occurrence<'s>) -> Option<Misfit<'s>> {
    let text = syntax.source();
    let node = found.node()?;
    let call = found.call()?;
    let symbol = word_in(text, call.head.word);
    argument_misfit(syntax, symbol, call.index, word_in(text, node.word))
}

/// Returns the sort error of an argument of a symbol, if there is one. `head` is the first word of
/// the argument.
pub fn argument_misfit<'s>(
    syntax: &'s Syntax,
    symbol: &'s [u8],
    index: usize,
    head: &[u8],
) -> Option<Misfit<'s>> {
    let declaration = find_symbol(syntax, symbol)?;
    let wanted = word_in(
        syntax.source(),
        declaration.arguments.as_slice().get(index).copied()?,
    );
    let given = sort_of(syntax, head)?;
    if wanted == given {
        return None;
    }
    Some(Misfit {
        wanted,
        given,
        symbol,
        index,
    })
}
