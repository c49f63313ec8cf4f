//! The findings of a check, with explanations or as JSON.

use crate::diagnosis::{Diagnosis, Subject, diagnose, syntax_at};
use crate::explain::{show_hint, write_spot};
use crate::hint::{Change, Hint};
use crate::json::{Escaped, write_string};
use crate::names::token_end;
use crate::place::{Places, Spot, place_in, show_line};
use crate::text_name::TextName;
use rec_syntax::Syntax;
use rx_run::Reason;
use std::alloc::Global;
use std::io;
use std::io::Write;

/// The number of findings of a text that are explained; the others have their lines alone.
const MOST_EXPLAINED: usize = 1000;

/// The form of the findings of a check.
#[derive(Clone, Copy, PartialEq, Eq)]
pub enum Form {
    /// A line for each.
    Lines,
    /// A line for each, the source line with a caret, and what is known about the error.
    Explained {
        /// Whether the severity has a colour.
        has_colours: bool,
    },
    /// A JSON object on a line for each.
    Json,
}

/// The location of a finding in a part of a joined text.
#[derive(Clone, Copy)]
pub struct PartPlace<'a> {
    /// The name of the part.
    pub name: TextName<'a>,
    /// The text of the part.
    pub text: &'a [u8],
    /// The line, from 1.
    pub line: usize,
    /// The offset of the line in the part.
    pub begin: usize,
    /// The offset in the part.
    pub at: usize,
}

/// A finding of a check.
#[derive(Clone, Copy)]
pub struct Finding<'a> {
    /// The offset of the word that it is about.
    pub at: usize,
    /// The end of that word; not used for a syntax error.
    pub end: usize,
    /// The location in a part, if the text was joined of several. `shown` includes the location of
    /// an earlier declaration then.
    pub place: Option<PartPlace<'a>>,
    /// The error; `None` for a warning.
    pub reason: Option<Reason>,
    /// The code.
    pub code: &'a [u8],
    /// The description.
    pub label: &'a [u8],
    /// The detail after the description; may be empty.
    pub shown: &'a [u8],
}

/// A text with findings.
#[derive(Clone, Copy)]
pub struct Listed<'n, 't> {
    /// The name of the text.
    pub name: TextName<'n>,
    /// The text.
    pub text: &'t [u8],
    /// The names of the tokens that are expected at a syntax error.
    pub expected: &'t [&'static str],
}

/// Writes the findings in a text, and flushes.
pub fn list_findings<W: Write>(
    alloc: Global,
    listed: &Listed<'_, '_>,
    findings: &[Finding<'_>],
    form: Form,
    out: &mut W,
) -> io::Result<()> {
    match syntax_of(alloc, listed.text, findings) {
        Some(syntax) => Listing::new(alloc, listed, Some(&syntax)).write_all(findings, form, out),
        None => Listing::new(alloc, listed, None).write_all(findings, form, out),
    }
}

/// Returns the syntax of a text whose findings are errors `S1` to `S11`.
fn syntax_of(alloc: Global, text: &[u8], findings: &[Finding<'_>]) -> Option<Syntax> {
    syntax_at(alloc, findings.first()?.reason?, text)
}

/// Where a finding is: in the text, or in a part of it.
#[derive(Clone, Copy)]
struct Site<'n, 't> {
    /// The name of the text or of the part.
    name: TextName<'n>,
    /// The offset in it.
    at: usize,
    /// The location.
    spot: Spot<'t>,
    /// A cursor at the location.
    places: Places<'t>,
}

/// Returns where a finding is in a part.
fn site_in<'a>(place: PartPlace<'a>) -> Site<'a, 'a> {
    let PartPlace {
        name,
        text,
        line,
        begin,
        at,
    } = place;
    let mut places = Places::at_line(text, line, begin);
    let spot = places.place(at);
    Site {
        name,
        at,
        spot,
        places,
    }
}

/// The state of a listing.
#[derive(Clone, Copy)]
struct Listing<'n, 't, 's> {
    /// The allocator of diagnoses.
    alloc: Global,
    /// The name of the text.
    name: TextName<'n>,
    /// The text.
    subject: Subject<'t, 's>,
    /// The cursor in the text.
    places: Places<'t>,
}

impl<'n, 't, 's> Listing<'n, 't, 's> {
    /// Returns the state before the first finding.
    fn new(
        alloc: Global,
        listed: &Listed<'n, 't>,
        syntax: Option<&'s Syntax>,
    ) -> Listing<'n, 't, 's> {
        let Listed {
            name,
            text,
            expected,
        } = *listed;
        Listing {
            alloc,
            name,
            subject: Subject {
                text,
                syntax,
                expected,
            },
            places: Places::new(text),
        }
    }

    /// Writes findings, and flushes.
    fn write_all<W: Write>(
        &mut self,
        findings: &[Finding<'_>],
        form: Form,
        out: &mut W,
    ) -> io::Result<()> {
        for (i, finding) in findings.iter().enumerate() {
            if i == MOST_EXPLAINED {
                self.subject.syntax = None;
            }
            self.write(finding, form, out)?;
        }
        out.flush()
    }

    /// Writes a finding.
    fn write<W: Write>(
        &mut self,
        finding: &Finding<'_>,
        form: Form,
        out: &mut W,
    ) -> io::Result<()> {
        match finding.place {
            Some(place) => self.write_at(finding, &site_in(place), form, out),
            None => {
                let site = self.next_site(finding.at);
                self.write_at(finding, &site, form, out)
            }
        }
    }

    /// Moves to an offset of the text, and returns where that is.
    fn next_site(&mut self, at: usize) -> Site<'n, 't> {
        let spot = self.places.place(at);
        Site {
            name: self.name,
            at,
            spot,
            places: self.places,
        }
    }

    /// Writes a finding that is at `site`.
    fn write_at<W: Write>(
        &self,
        finding: &Finding<'_>,
        site: &Site<'_, '_>,
        form: Form,
        out: &mut W,
    ) -> io::Result<()> {
        match form {
            Form::Json => self.write_object(finding, site, out),
            Form::Lines => write_line(finding, site, false, out),
            Form::Explained { has_colours } => {
                write_line(finding, site, has_colours, out)?;
                self.write_explanation(finding, &site.spot, out)
            }
        }
    }

    /// Returns what is known about the error of a finding. `None` for a warning.
    fn diagnosis(&self, finding: &Finding<'_>) -> Option<Diagnosis<'t, 's>> {
        let reason = finding.reason?;
        let diagnosis = diagnose(self.alloc, reason, finding.at, &self.subject);
        match finding.place {
            Some(_) => Some(diagnosis.without_declaration()),
            None => Some(diagnosis),
        }
    }

    /// Writes what follows the line of a finding.
    fn write_explanation<W: Write>(
        &self,
        finding: &Finding<'_>,
        spot: &Spot<'_>,
        out: &mut W,
    ) -> io::Result<()> {
        show_line(spot, out)?;
        match self.diagnosis(finding) {
            Some(diagnosis) => self.write_diagnosis(&diagnosis, out),
            None => Ok(()),
        }
    }

    /// Writes what is known about an error, below its source line.
    fn write_diagnosis<W: Write>(
        &self,
        diagnosis: &Diagnosis<'_, '_>,
        out: &mut W,
    ) -> io::Result<()> {
        if diagnosis.is_said() {
            diagnosis.write(b"    ", out)?;
            out.write_all(b"\n")?;
        }
        match diagnosis.hint {
            Some(hint) => show_hint(self.name, self.subject.text, hint, out),
            None => Ok(()),
        }
    }

    /// Writes the object of a finding.
    fn write_object<W: Write>(
        &self,
        finding: &Finding<'_>,
        site: &Site<'_, '_>,
        out: &mut W,
    ) -> io::Result<()> {
        let diagnosis = self.diagnosis(finding);
        let change = match &diagnosis {
            Some(diagnosis) => replacement(diagnosis, finding.at),
            None => None,
        };
        let length = self.end_of(finding, change).saturating_sub(finding.at);
        out.write_all(b"{\"file\":")?;
        write_name(site.name, out)?;
        write_range(site, site.at.saturating_add(length), out)?;
        out.write_all(b",\"severity\":\"")?;
        out.write_all(finding.severity())?;
        out.write_all(b"\",\"code\":\"")?;
        out.write_all(finding.code)?;
        out.write_all(b"\",\"message\":\"")?;
        finding.write_message(&mut Escaped::new(out))?;
        match &diagnosis {
            Some(diagnosis) => self.write_members(diagnosis, change, out),
            None => out.write_all(b"\",\"expected\":[],\"suggestion\":null}\n"),
        }
    }

    /// Returns the end of the word or token that a finding is about, or of the part that is to be
    /// replaced.
    fn end_of(&self, finding: &Finding<'_>, change: Option<Change>) -> usize {
        match (change, finding.reason) {
            (Some(change), _) => change.to,
            (None, Some(Reason::Grammar { at: _ })) => token_end(self.subject.text, finding.at),
            (None, _) => finding.end,
        }
    }

    /// Writes what is known about an error, and ends its object. `change` is what the hint suggests
    /// to write at the error.
    fn write_members<W: Write>(
        &self,
        diagnosis: &Diagnosis<'_, '_>,
        change: Option<Change>,
        out: &mut W,
    ) -> io::Result<()> {
        if let Some(detail) = diagnosis.detail {
            let mut message = Escaped::new(out);
            message.write_all(b"; ")?;
            detail.write(&mut message)?;
        }
        if let Some(hint) = diagnosis.hint
            && change.is_none()
        {
            self.write_hint(hint, &mut Escaped::new(out))?;
        }
        out.write_all(b"\",\"expected\":[")?;
        write_strings(diagnosis.expected, out)?;
        out.write_all(b"],\"suggestion\":")?;
        match change {
            Some(change) => write_string(change.meant, out)?,
            None => write_suggestion(diagnosis.suggestion, out)?,
        }
        out.write_all(b"}\n")
    }

    /// Writes a hint, with its location.
    fn write_hint<W: Write>(&self, hint: Hint, out: &mut W) -> io::Result<()> {
        let text = self.subject.text;
        let Spot { line, column, .. } = place_in(text, hint.from);
        write!(out, "; {line}:{column}: ")?;
        hint.write(text, out)
    }
}

/// Writes the line of a finding.
fn write_line<W: Write>(
    finding: &Finding<'_>,
    site: &Site<'_, '_>,
    has_colours: bool,
    out: &mut W,
) -> io::Result<()> {
    write_spot(site.name, &site.spot, out)?;
    out.write_all(finding.mark(has_colours))?;
    finding.write_message(out)?;
    out.write_all(b" [")?;
    out.write_all(finding.code)?;
    out.write_all(b"]\n")
}

/// Writes the name of a text.
fn write_name<W: Write>(name: TextName<'_>, out: &mut W) -> io::Result<()> {
    match name {
        TextName::Path(path) => write_string(path, out),
        name => {
            out.write_all(b"\"")?;
            name.write(&mut Escaped::new(out))?;
            out.write_all(b"\"")
        }
    }
}

/// Writes the location of a finding, and that of an offset after it.
fn write_range<W: Write>(site: &Site<'_, '_>, end: usize, out: &mut W) -> io::Result<()> {
    let Spot { line, column, .. } = site.spot;
    write!(out, ",\"line\":{line},\"column\":{column}")?;
    let mut ahead = site.places;
    let Spot { line, column, .. } = ahead.place(end);
    write!(out, ",\"end_line\":{line},\"end_column\":{column}")
}

/// Returns what a hint suggests to write at an error, if it is a word or a mark.
fn replacement(diagnosis: &Diagnosis<'_, '_>, at: usize) -> Option<Change> {
    let change = diagnosis.hint?.suggestion()?;
    if change.from == at && change.times == 1 && change.meant != " " {
        Some(change)
    } else {
        None
    }
}

/// Writes strings, separated by commas.
fn write_strings<W: Write>(words: &[&str], out: &mut W) -> io::Result<()> {
    let mut before = b"".as_slice();
    for word in words {
        out.write_all(before)?;
        write_string(word, out)?;
        before = b",";
    }
    Ok(())
}

/// Writes the name that was probably meant, or `null`.
fn write_suggestion<W: Write>(name: Option<&[u8]>, out: &mut W) -> io::Result<()> {
    match name {
        None => out.write_all(b"null"),
        Some(name) => {
            out.write_all(b"\"")?;
            Escaped::new(out).write_all(name)?;
            out.write_all(b"\"")
        }
    }
}

impl Finding<'_> {
    /// Returns the severity.
    fn severity(&self) -> &'static [u8] {
        match self.reason {
            Some(_) => b"error",
            None => b"warning",
        }
    }

    /// Returns the severity as the line has it.
    fn mark(&self, has_colours: bool) -> &'static [u8] {
        match (self.reason, has_colours) {
            (Some(_), false) => b"error: ",
            (Some(_), true) => b"\x1b[1;31merror:\x1b[0m ",
            (None, false) => b"warning: ",
            (None, true) => b"\x1b[1;33mwarning:\x1b[0m ",
        }
    }

    /// Writes the description and its detail.
    fn write_message<W: Write>(&self, out: &mut W) -> io::Result<()> {
        out.write_all(self.label)?;
        if !self.shown.is_empty() {
            out.write_all(b": ")?;
            out.write_all(self.shown)?;
        }
        Ok(())
    }
}
