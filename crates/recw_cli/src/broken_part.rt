//! Explanations of the part of an input term that violates a well-formedness rule.

use crate::elements::{Kind, Part};
use crate::named::{Detail, argument_misfit, nearest_symbol, write_nearest};
use crate::names::{find_symbol, word_in};
use crate::place::show_bytes;
use rec_syntax::{Declaration, Syntax};
use rx_run::Reason;
use std::io;
use std::io::Write;

/// Returns the first part of an input term that violates the rule of `reason`, one of T2 to T6.
/// Returns `None` for other errors.
pub fn first_broken<'a>(syntax: &Syntax, parts: &[Part<'a>], reason: Reason) -> Option<Part<'a>> {
    let Reason::TermsRule { number } = reason else {
        return None;
    };
    parts
        .iter()
        .find(|part| is_broken(syntax, parts, part, number))
        .copied()
}

/// Returns whether a part violates the rule with this number.
fn is_broken(syntax: &Syntax, parts: &[Part<'_>], part: &Part<'_>, rule: u8) -> bool {
    match rule {
        2 => !matches!(part.kind, Kind::Plain | Kind::Quoted),
        3 => part.is_annotated && part.parent.is_some(),
        4 => !is_declared(syntax, part),
        5 => match find_symbol(syntax, part.name) {
            Some(symbol) => symbol.arguments.len() != part.count,
            None => false,
        },
        6 => misfit_symbol(parts, part).is_some_and(|(symbol, index)| {
            argument_misfit(syntax, symbol, index, part.name).is_some()
        }),
        _ => false,
    }
}

/// Returns the symbol of which a part is an argument, and the argument's index.
fn misfit_symbol<'a>(parts: &[Part<'a>], part: &Part<'_>) -> Option<(&'a [u8], usize)> {
    let (parent, index) = part.parent?;
    Some((parts.get(parent)?.name, index))
}

/// Returns whether a symbol with the part's name is declared, and the name is quoted if and only if
/// it has to be.
fn is_declared(syntax: &Syntax, part: &Part<'_>) -> bool {
    let is_quoted = part.kind == Kind::Quoted;
    find_symbol(syntax, part.name).is_some() && is_quoted == is_quoted_in_terms(part.name)
}

/// Returns whether a name of a specification has to be quoted in a text of terms.
fn is_quoted_in_terms(word: &[u8]) -> bool {
    let begins_plain = match word.first() {
        Some(byte) => byte.is_ascii_alphabetic() || *byte == b'_',
        None => false,
    };
    !begins_plain || word.contains(&b'\'')
}

/// Writes the details of the part that violates a rule: its kind, its symbol, or the expected and
/// the actual count or sort.
pub fn write_part<W: Write>(
    syntax: &Syntax,
    parts: &[Part<'_>],
    part: &Part<'_>,
    reason: Reason,
    out: &mut W,
) -> io::Result<()> {
    match reason {
        Reason::TermsRule { number: 2 } => write_kind(syntax, part, out),
        Reason::TermsRule { number: 3 } => write_annotated(part, out),
        Reason::TermsRule { number: 4 } => write_undeclared(syntax, part, out),
        Reason::TermsRule { number: 5 } => write_count(syntax, part, out),
        _ => write_argument(syntax, parts, part, out),
    }
}

/// Writes the kind of a part that is not an application.
fn write_kind<W: Write>(syntax: &Syntax, part: &Part<'_>, out: &mut W) -> io::Result<()> {
    match part.kind {
        Kind::List => out.write_all(b"; found a list"),
        Kind::Placeholder => out.write_all(b"; found a placeholder"),
        _ => {
            out.write_all(b"; found the integer ")?;
            out.write_all(part.name)?;
            write_meant(find_symbol(syntax, part.name), syntax, out)
        }
    }
}

/// Writes the name of a part that has annotations.
fn write_annotated<W: Write>(part: &Part<'_>, out: &mut W) -> io::Result<()> {
    out.write_all(b"; found on ")?;
    write_name(part.name, part.kind == Kind::Quoted, out)
}

/// Writes the declared and the actual number of arguments.
fn write_count<W: Write>(syntax: &Syntax, part: &Part<'_>, out: &mut W) -> io::Result<()> {
    match find_symbol(syntax, part.name) {
        Some(symbol) => {
            let detail = Detail::Count {
                symbol: part.name,
                wanted: symbol.arguments.len(),
                given: part.count,
            };
            write_detail(&detail, out)
        }
        None => Ok(()),
    }
}

/// Writes the undeclared symbol, and a suggestion.
fn write_undeclared<W: Write>(syntax: &Syntax, part: &Part<'_>, out: &mut W) -> io::Result<()> {
    out.write_all(b"; ")?;
    write_name(part.name, part.kind == Kind::Quoted, out)?;
    match find_symbol(syntax, part.name) {
        Some(symbol) => write_meant(Some(symbol), syntax, out),
        None => match nearest_symbol(syntax, part.name) {
            Some(name) => {
                out.write_all(b"; ")?;
                write_nearest(name, out)
            }
            None => Ok(()),
        },
    }
}

/// Writes a detail, after the rest of a line.
fn write_detail<W: Write>(detail: &Detail<'_>, out: &mut W) -> io::Result<()> {
    out.write_all(b"; ")?;
    detail.write(out)
}

/// Writes a suggestion: the symbol in the spelling of texts of terms.
fn write_meant<W: Write>(
    symbol: Option<&Declaration>,
    syntax: &Syntax,
    out: &mut W,
) -> io::Result<()> {
    let Some(symbol) = symbol else {
        return Ok(());
    };
    let name = word_in(syntax.source(), symbol.name);
    out.write_all(b"; did you mean `")?;
    write_name(name, is_quoted_in_terms(name), out)?;
    out.write_all(b"`?")
}

/// Writes a name, in quotes if it is quoted.
fn write_name<W: Write>(name: &[u8], is_quoted: bool, out: &mut W) -> io::Result<()> {
    if !is_quoted {
        return out.write_all(if name.is_empty() { b"()" } else { name });
    }
    out.write_all(b"\"")?;
    show_bytes(name, out)?;
    out.write_all(b"\"")
}

/// Writes the declared and the actual sort of an argument.
fn write_argument<W: Write>(
    syntax: &Syntax,
    parts: &[Part<'_>],
    part: &Part<'_>,
    out: &mut W,
) -> io::Result<()> {
    let Some((symbol, index)) = misfit_symbol(parts, part) else {
        return Ok(());
    };
    match argument_misfit(syntax, symbol, index, part.name) {
        Some(misfit) => write_detail(&Detail::Argument(misfit), out),
        None => Ok(()),
    }
}
