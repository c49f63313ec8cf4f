//! The explanation of an error: its location, a description, and the source line.

use crate::broken_part::{first_broken, write_part};
use crate::diagnosis::{Subject, diagnose, syntax_at};
use crate::elements::{Part, Which, parts_of};
use crate::hint::Hint;
use crate::item::{Item, write_item};
use crate::names::declared_spelling;
use crate::place::{Spot, place_in, show_line};
use crate::refusals::words_of;
use crate::text_name::TextName;
use crate::unplaced::{Cause, cause_of};
use rec_syntax::{Syntax, read_spec};
use rx_run::Reason;
use std::alloc::Global;
use std::io;
use std::io::{Error, Write};

/// An error code with the name of the rejected text.
#[derive(Clone, Copy)]
pub struct NamedRefusal<'a> {
    /// The name of the text.
    pub text: TextName<'a>,
    /// The error.
    pub reason: Reason,
}

/// Explains an error that has an offset: location, description, details, expected tokens, the
/// source line with a caret, and a hint if there is one.
pub fn explain_place<'a, W: Write>(
    alloc: Global,
    refusal: NamedRefusal<'_>,
    text: &'a [u8],
    at: usize,
    expected: &'a [&'static str],
    out: &mut W,
) -> io::Result<()> {
    match syntax_at(alloc, refusal.reason, text) {
        Some(syntax) => {
            let syntax = Some(&syntax);
            let subject = Subject {
                text,
                syntax,
                expected,
            };
            explain_subject(alloc, refusal, &subject, at, out)
        }
        None => {
            let syntax = None;
            let subject = Subject {
                text,
                syntax,
                expected,
            };
            explain_subject(alloc, refusal, &subject, at, out)
        }
    }
}

/// Explains an error in a part of a specification: location, description, and the source line with
/// a caret. The details of [`explain_place`] need the whole specification.
pub fn explain_part<W: Write>(
    refusal: NamedRefusal<'_>,
    text: &[u8],
    at: usize,
    out: &mut W,
) -> io::Result<()> {
    let spot = place_in(text, at);
    explain_spot(refusal, &spot, out)?;
    show_below(&spot, out)
}

/// Explains an error at an offset of a text.
fn explain_subject<W: Write>(
    alloc: Global,
    refusal: NamedRefusal<'_>,
    subject: &Subject<'_, '_>,
    at: usize,
    out: &mut W,
) -> io::Result<()> {
    let spot = place_in(subject.text, at);
    let diagnosis = diagnose(alloc, refusal.reason, at, subject);
    explain_spot(refusal, &spot, out)?;
    diagnosis.write(b"; ", out)?;
    show_below(&spot, out)?;
    match diagnosis.hint {
        Some(hint) => show_hint(refusal.text, subject.text, hint, out),
        None => Ok(()),
    }
}

/// Ends a line, and writes the source line with a caret.
fn show_below<W: Write>(spot: &Spot<'_>, out: &mut W) -> io::Result<()> {
    out.write_all(b"\n")?;
    show_line(spot, out)
}

/// Writes the location and the description of an error.
fn explain_spot<W: Write>(
    refusal: NamedRefusal<'_>,
    spot: &Spot<'_>,
    out: &mut W,
) -> io::Result<()> {
    write_spot(refusal.text, spot, out)?;
    explain_reason(refusal.reason, out)
}

/// Writes a text's name, the line unless the name includes it, and the column.
pub fn write_spot<W: Write>(text: TextName<'_>, spot: &Spot<'_>, out: &mut W) -> io::Result<()> {
    text.write(out)?;
    write_numbers(text, spot, out)
}

/// Writes the line, unless the text's name includes it, and the column.
fn write_numbers<W: Write>(text: TextName<'_>, spot: &Spot<'_>, out: &mut W) -> io::Result<()> {
    let Spot { line, column, .. } = *spot;
    match text {
        TextName::Line { .. } => write!(out, ":{column}: "),
        _ => write!(out, ":{line}:{column}: "),
    }
}

/// Explains an error without an offset, with the list item that causes it, if that is known.
pub fn explain_text<W: Write>(
    refusal: NamedRefusal<'_>,
    item: Option<Item>,
    out: &mut W,
) -> io::Result<()> {
    refusal.text.write(out)?;
    out.write_all(b": ")?;
    explain_reason(refusal.reason, out)?;
    explain_item(item, out)?;
    out.write_all(b"\n")
}

/// Explains an error without an offset of a whole text, with the part of the text that causes it if
/// that can be found, else with the list item, if that is known.
pub fn explain_whole<W: Write>(
    refusal: NamedRefusal<'_>,
    text: &[u8],
    item: Option<Item>,
    out: &mut W,
) -> io::Result<()> {
    match cause_of(refusal.reason, text) {
        Some(cause) => explain_cause(refusal, cause, text, out),
        None => explain_text(refusal, item, out),
    }
}

/// Explains an error with the part of the text that causes it.
fn explain_cause<W: Write>(
    refusal: NamedRefusal<'_>,
    cause: Cause<'_>,
    text: &[u8],
    out: &mut W,
) -> io::Result<()> {
    let spot = place_in(text, cause.at);
    explain_spot(refusal, &spot, out)?;
    cause.write(out)?;
    show_below(&spot, out)
}

/// The texts of a run whose input terms are rejected.
#[derive(Clone, Copy)]
pub struct Texts<'a> {
    /// The specification.
    pub spec: &'a [u8],
    /// The input terms.
    pub terms: &'a [u8],
    /// The rejected one.
    pub which: Which,
}

impl Texts<'_> {
    /// Returns the index of the rejected element, if it is one of a list.
    fn item(&self) -> Option<Item> {
        match self.which {
            Which::Element(at) => Some(Item::Element { at }),
            Which::Whole => None,
        }
    }
}

/// Explains an error of an input term, with the offset of the part that violates the rule.
pub fn explain_given<W: Write>(
    alloc: Global,
    refusal: NamedRefusal<'_>,
    texts: Texts<'_>,
    out: &mut W,
) -> io::Result<()> {
    match read_spec(alloc, texts.spec) {
        Ok(syntax) => explain_by(alloc, &syntax, refusal, texts, out),
        Err(_) => explain_text(refusal, texts.item(), out),
    }
}

/// Explains an error of an input term with the declarations of its specification.
fn explain_by<'t, W: Write>(
    alloc: Global,
    syntax: &'t Syntax,
    refusal: NamedRefusal<'_>,
    texts: Texts<'t>,
    out: &mut W,
) -> io::Result<()> {
    match parts_of(alloc, texts.terms, texts.which) {
        Ok(mut parts) => {
            for part in parts.iter_mut() {
                part.name = declared_spelling(syntax, part.name);
            }
            explain_among(syntax, parts.as_slice(), refusal, texts, out)
        }
        Err(_) => explain_text(refusal, texts.item(), out),
    }
}

/// Explains an error with the parts of the rejected term. Without a part that violates the rule,
/// the explanation has no offset.
fn explain_among<W: Write>(
    syntax: &Syntax,
    parts: &[Part<'_>],
    refusal: NamedRefusal<'_>,
    texts: Texts<'_>,
    out: &mut W,
) -> io::Result<()> {
    match first_broken(syntax, parts, refusal.reason) {
        Some(part) => {
            let spot = place_in(texts.terms, part.at);
            explain_element(refusal, texts.item(), &spot, out)?;
            write_part(syntax, parts, &part, refusal.reason, out)?;
            show_below(&spot, out)
        }
        None => explain_text(refusal, texts.item(), out),
    }
}

/// Writes the location and the description of an error in an input term, and its index in the list.
fn explain_element<W: Write>(
    refusal: NamedRefusal<'_>,
    item: Option<Item>,
    spot: &Spot<'_>,
    out: &mut W,
) -> io::Result<()> {
    explain_spot(refusal, spot, out)?;
    explain_item(item, out)
}

/// Writes the list item that causes an error, if it is known.
fn explain_item<W: Write>(item: Option<Item>, out: &mut W) -> io::Result<()> {
    match item {
        Some(item) => write_item(item, out),
        None => Ok(()),
    }
}

/// Writes the name of a stream that failed, and the system's message.
pub fn explain_trouble<W: Write>(
    alloc: Global,
    name: TextName<'_>,
    error: Error,
    out: &mut W,
) -> io::Result<()> {
    name.write(out)?;
    match format!(in alloc; "{error}") {
        Ok(said) => writeln!(out, ": {}", without_number(said.as_str())),
        Err(_) => writeln!(out, ": {error}"),
    }
}

/// Returns the system's message without the error number.
fn without_number(said: &str) -> &str {
    match said.rsplit_once(" (os error") {
        Some((said, _)) => said,
        None => said,
    }
}

/// Writes the error code and its description.
fn explain_reason<W: Write>(reason: Reason, out: &mut W) -> io::Result<()> {
    write!(out, "{reason}: {}", words_of(reason))
}

/// Writes the location of a hint, the hint, and the source line.
pub fn show_hint<W: Write>(
    name: TextName<'_>,
    text: &[u8],
    hint: Hint,
    out: &mut W,
) -> io::Result<()> {
    let spot = place_in(text, hint.from);
    write_spot(name, &spot, out)?;
    hint.write(text, out)?;
    show_below(&spot, out)
}
