//! The diagnosis of an error with an offset, for all explanations.

use crate::hint::{Hint, find_hint, find_term_hint};
use crate::named::{Detail, detail_of, nearest_name, write_nearest};
use crate::names::word_at;
use rec_syntax::{Syntax, read_spec};
use rx_run::Reason;
use std::alloc::Global;
use std::io;
use std::io::Write;

/// A rejected text.
#[derive(Clone, Copy)]
pub struct Subject<'t, 's> {
    /// The text.
    pub text: &'t [u8],
    /// The specification, if the text is one.
    pub syntax: Option<&'s Syntax>,
    /// The names of the tokens that are expected at a syntax error.
    pub expected: &'t [&'static str],
}

/// What is known about an error.
#[derive(Clone, Copy)]
pub struct Diagnosis<'t, 's> {
    /// What was found, and in place of what.
    pub detail: Option<Detail<'s>>,
    /// The names of the expected tokens.
    pub expected: &'t [&'static str],
    /// The name that was probably meant in place of the word at the error.
    pub suggestion: Option<&'s [u8]>,
    /// A hint about a syntax error.
    pub hint: Option<Hint>,
}

/// Returns the syntax of a text that violates a rule of specifications. `None` for other errors,
/// or if an allocation fails.
pub fn syntax_at(alloc: Global, reason: Reason, text: &[u8]) -> Option<Syntax> {
    match reason {
        Reason::Rule { .. } => read_spec(alloc, text).ok(),
        _ => None,
    }
}

/// Returns what is known about the error at an offset of a text.
pub fn diagnose<'t, 's>(
    alloc: Global,
    reason: Reason,
    at: usize,
    subject: &Subject<'t, 's>,
) -> Diagnosis<'t, 's> {
    let suggestion = find_suggestion(reason, at, subject);
    Diagnosis {
        detail: match suggestion {
            Some(_) => None,
            None => find_detail(reason, at, subject),
        },
        expected: subject.expected,
        suggestion,
        hint: hint_of(alloc, reason, at, subject),
    }
}

/// Returns the detail of an error, if there is one.
fn find_detail<'s>(reason: Reason, at: usize, subject: &Subject<'_, 's>) -> Option<Detail<'s>> {
    match reason {
        Reason::Grammar { at: _ } | Reason::Outside { at: _ } => {
            Some(Detail::Note(note_at(subject.text, at)?))
        }
        Reason::Rule { number, at: _ } => detail_of(subject.syntax?, number, at),
        _ => None,
    }
}

/// Returns a note on an offset at which nothing is visible: the end of the text, an empty text, or
/// a byte order mark.
fn note_at(text: &[u8], at: usize) -> Option<&'static str> {
    if text.is_empty() {
        Some("the text is empty")
    } else if at >= text.len() {
        Some("unexpected end of text")
    } else if at == 0 && text.starts_with(b"\xEF\xBB\xBF") {
        Some("unexpected byte order mark")
    } else {
        None
    }
}

/// Returns the name that was probably meant in place of an undeclared one.
fn find_suggestion<'s>(reason: Reason, at: usize, subject: &Subject<'_, 's>) -> Option<&'s [u8]> {
    match reason {
        Reason::Rule { number: 5, at: _ } => {
            let syntax = subject.syntax?;
            nearest_name(syntax, word_at(syntax.source(), at))
        }
        _ => None,
    }
}

/// Returns the hint about a syntax error, if there is one.
fn hint_of(alloc: Global, reason: Reason, at: usize, subject: &Subject<'_, '_>) -> Option<Hint> {
    match reason {
        Reason::Grammar { at: _ } => find_hint(alloc, subject.text, at),
        Reason::Outside { at: _ } => find_term_hint(subject.text, at),
        _ => None,
    }
}

impl<'t, 's> Diagnosis<'t, 's> {
    /// Leaves out the line of an earlier declaration.
    pub fn without_declaration(self) -> Diagnosis<'t, 's> {
        match self.detail {
            Some(Detail::Declared { .. }) => Diagnosis {
                detail: None,
                ..self
            },
            _ => self,
        }
    }

    /// Returns whether something is known besides a hint.
    pub fn is_said(&self) -> bool {
        self.detail.is_some() || !self.expected.is_empty() || self.suggestion.is_some()
    }

    /// Writes the detail, the expected tokens and the suggestion: `first`, and `; ` between them.
    pub fn write<W: Write>(&self, first: &[u8], out: &mut W) -> io::Result<()> {
        let mut before = first;
        if let Some(detail) = self.detail {
            out.write_all(before)?;
            detail.write(out)?;
            before = b"; ";
        }
        if !self.expected.is_empty() {
            out.write_all(before)?;
            write_expected(self.expected, out)?;
            before = b"; ";
        }
        if let Some(name) = self.suggestion {
            out.write_all(before)?;
            write_nearest(name, out)?;
        }
        Ok(())
    }
}

/// Writes the expected tokens.
fn write_expected<W: Write>(words: &[&str], out: &mut W) -> io::Result<()> {
    let last = words.len().saturating_sub(1);
    for (i, word) in words.iter().enumerate() {
        let before = if i == 0 {
            "expected "
        } else if i == last {
            " or "
        } else {
            ", "
        };
        write!(out, "{before}{word}")?;
    }
    Ok(())
}
