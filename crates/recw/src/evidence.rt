//! The inputs and the result of a run, for the explanation of its error.

use crate::expected::expected_words;
use crate::input::{Input, open, open_file};
use crate::item::{element_of_terms, item_of_args};
use crate::numbered::TermNumber;
use crate::recorded::Recorded;
use crate::report::Outcome;
use crate::screen::Look;
use rec_syntax::read_spec;
use recw_cli::{
    Form, Given, Invocation, Item, NamedRefusal, Request, STANDARD_INPUT, TermChoice, TextName,
    Texts, Unnamed, Which, count_terms, explain_given, explain_part, explain_place,
    explain_trouble, explain_whole,
};
use rx_run::{Ending, InputForm, Reason, Refusal, RunFault, Source};
use std::alloc::Global;
use std::io;
use std::io::{Error, ErrorKind, Read, Write};
use std::rt::Files;

/// A stream that failed, and the reason.
#[derive(Clone, Copy)]
struct Trouble<'a> {
    /// The name of the stream.
    name: TextName<'a>,
    /// The system's error.
    error: Error,
}

/// The request of a run, the texts that it read, and its results.
#[derive(Drop)]
pub struct Evidence<'a> {
    /// The allocator of the texts.
    pub alloc: Global,
    /// The request.
    pub invocation: &'a Invocation<'a>,
    /// Whether errors are explained.
    pub is_curious: bool,
    /// What standard output is.
    pub look: Look,
    /// The form of the findings of a check.
    pub form: Form,
    /// The index of the rejected term, if it was given with `-e`.
    word: Option<usize>,
    /// The text of the specification, or of the term.
    pub first: Vec<u8>,
    /// The path of the part that is rejected, if the specification is joined of several.
    pub part: Option<&'a str>,
    /// The text of the input terms.
    pub second: Vec<u8>,
    /// Whether a pattern matches.
    pub is_match: bool,
    /// The number of limit lines that were written.
    pub limit_lines: u64,
    /// The lines that report stuck calls.
    pub calls: Vec<u8>,
    /// The usage error, if an option names something that does not exist.
    pub wrong: Vec<u8>,
    /// The lines of `--rules`.
    pub rules: Vec<u8>,
    /// Whether it is known that the evaluation of a term was started.
    pub has_begun: bool,
    /// The stream that failed, and the reason.
    trouble: Option<Trouble<'a>>,
}

impl<'a> Evidence<'a> {
    /// Returns the state before a run.
    pub fn new(alloc: Global, invocation: &'a Invocation<'a>) -> Evidence<'a> {
        Evidence {
            alloc,
            invocation,
            is_curious: invocation.explain,
            look: Look::PLAIN,
            form: Form::Lines,
            word: None,
            first: Vec::new(alloc),
            part: None,
            second: Vec::new(alloc),
            is_match: false,
            limit_lines: 0,
            calls: Vec::new(alloc),
            wrong: Vec::new(alloc),
            rules: Vec::new(alloc),
            has_begun: false,
            trouble: None,
        }
    }

    /// Opens the file that is read first, or uses standard input if none is named. `source` is the
    /// kind of the text.
    pub fn open_first<'i, H: Files, R: Read>(
        &mut self,
        rt: &H,
        input: &'i mut R,
        source: Source,
    ) -> Result<Input<'i, R, H::File>, RunFault> {
        let name = self.name_of(source);
        let path = self.invocation.request.path();
        self.note_open(open(rt, path, input), name)
    }

    /// Opens the file of the specification. Fails if none is named.
    pub fn open_spec<H: Files>(&mut self, rt: &H) -> Result<H::File, RunFault> {
        let name = self.name_of(Source::Spec);
        let path = self.invocation.request.path();
        self.note_open(open_file(rt, path), name)
    }

    /// Returns a file that was opened under this name, or records why it could not be opened.
    pub fn note_open<T>(
        &mut self,
        opening: io::Result<T>,
        name: TextName<'a>,
    ) -> Result<T, RunFault> {
        match opening {
            Ok(file) => Ok(file),
            Err(error) => {
                self.trouble = Some(Trouble { name, error });
                Err(RunFault::Read)
            }
        }
    }

    /// Returns the name of an input text.
    pub fn name_of(&self, source: Source) -> TextName<'a> {
        let request = &self.invocation.request;
        let path = match (source, self.word) {
            (Source::Pattern, _) => Some("PATTERN"),
            (Source::Args, _) => Some("ARGS"),
            (Source::Terms, Some(word)) => return TextName::Word(word),
            (Source::Terms, None) => request.terms_path(),
            (Source::Spec, _) if self.part.is_some() => self.part,
            (Source::Term, None) if matches!(request, Request::Serve { .. }) => {
                request.requests_path()
            }
            _ => request.path(),
        };
        match path {
            Some(path) if path != STANDARD_INPUT => TextName::Path(path),
            _ => TextName::Path("<stdin>"),
        }
    }

    /// Returns the name of the requests of a session.
    pub fn requests_name(&self) -> &'a str {
        match self.invocation.request.requests_path() {
            Some(path) => path,
            None => "<stdin>",
        }
    }

    /// Returns a reader that records its text if errors are explained, or the terms of the run may
    /// have to be counted.
    pub fn record<'r, R: Read>(&self, input: &'r mut R) -> Recorded<'r, R> {
        let is_kept = self.is_curious || self.chosen_term().is_some();
        Recorded::new(self.alloc, input, is_kept)
    }

    /// Returns the number of the term that alone is evaluated, if there is one.
    fn chosen_term(&self) -> Option<u64> {
        match self.invocation.request {
            Request::Eval { options, .. } | Request::Trace { options, .. } => match options.terms {
                TermChoice::Nth(number) => Some(number),
                _ => None,
            },
            _ => None,
        }
    }

    /// Returns whether the input terms are read as a table.
    fn has_table(&self) -> bool {
        match self.invocation.request {
            Request::Eval { options, .. } => options.input == InputForm::Table,
            _ => false,
        }
    }

    /// Returns the number of terms of the run, if its texts were recorded and are not tables.
    fn term_count(&self) -> Option<u64> {
        if self.has_table() {
            return None;
        }
        let syntax = read_spec(self.alloc, &self.first).ok()?;
        let invocation = self.invocation;
        let input = if !invocation.given.is_empty() {
            invocation.given.len() as u64
        } else if invocation.request.terms_path().is_none() {
            0
        } else if self.second.is_empty() {
            return None;
        } else {
            count_terms(&self.second)
        };
        Some(input.saturating_add(syntax.terms().len() as u64))
    }

    /// Records the usage error of a run without lines, if one term was to be evaluated: there is no
    /// such term.
    pub fn note_missing(&mut self) -> Result<(), RunFault> {
        let Some(number) = self.chosen_term() else {
            return Ok(());
        };
        let count = self.term_count();
        let mut wrong = Vec::new(self.alloc);
        match (Unnamed::Term { number, count }).write(&mut wrong) {
            Ok(()) => {
                self.wrong = wrong;
                Ok(())
            }
            Err(_) => Err(RunFault::Memory { lines: 0 }),
        }
    }

    /// Returns the outcome of a run that ended so.
    pub fn outcome_of(&self, ending: Ending) -> Outcome {
        match ending {
            Ending::Done if !self.wrong.is_empty() => Outcome::Unnamed,
            _ => Outcome::from(ending),
        }
    }

    /// Returns the text that was read under this name. If a read failed, records the name and the
    /// reason, unless an earlier failure is recorded. Input terms, which are read last, are
    /// recorded first.
    pub fn note_read(&mut self, end: (Vec<u8>, Option<Error>), name: TextName<'a>) -> Vec<u8> {
        let (text, trouble) = end;
        if let Some(error) = trouble
            && self.trouble.is_none()
        {
            self.trouble = Some(Trouble { name, error });
        }
        text
    }

    /// Keeps the text that was read first; `source` is its kind.
    pub fn keep_first<R: Read>(&mut self, read: Recorded<'_, R>, source: Source) {
        let name = self.name_of(source);
        self.first = self.note_read(read.finish(), name);
    }

    /// Keeps the text of the input terms.
    pub fn keep_second<R: Read>(&mut self, read: Recorded<'_, R>) {
        let name = self.name_of(Source::Terms);
        self.second = self.note_read(read.finish(), name);
    }

    /// Records the error of a write to standard output, if one failed.
    pub fn note_write(&mut self, trouble: Option<Error>) {
        if let Some(error) = trouble
            && self.trouble.is_none()
        {
            let name = TextName::Path("<stdout>");
            self.trouble = Some(Trouble { name, error });
        }
    }

    /// Returns whether a failure is not reported: the reader of standard output went away, and the
    /// options do not ask for explanations.
    pub fn is_quiet(&self) -> bool {
        match self.trouble {
            Some(Trouble { error, .. }) => {
                error.kind() == ErrorKind::BrokenPipe && !self.invocation.explain
            }
            None => false,
        }
    }

    /// Converts the end of a run with terms given with `-e`: a syntax error is located in the
    /// option that contains it.
    pub fn note_word(&mut self, ending: Ending, given: &Given) -> Ending {
        match ending {
            Ending::Refused(
                Refusal {
                    text: Source::Terms,
                    reason: Reason::Outside { at },
                },
            ) => {
                let (word, within) = given.locate(at as usize);
                self.word = Some(word);
                let at = u32::try_from(within).unwrap_or(at);
                Ending::Refused(Refusal {
                    text: Source::Terms,
                    reason: Reason::Outside { at },
                })
            }
            _ => ending,
        }
    }

    /// Explains how a run ended, if there is more to report than the error line.
    pub fn explain<W: Write>(&self, end: Result<Outcome, RunFault>, out: &mut W) -> io::Result<()> {
        match end {
            Ok(Outcome::Refused(refusal)) => self.explain_refusal(refusal, out),
            Err(RunFault::Read | RunFault::Write) => self.explain_trouble(out),
            Err(RunFault::Room { lines }) => {
                self.write_term(lines, out)?;
                explain_room(self.invocation.request, out)
            }
            Err(RunFault::Deep { lines }) => {
                self.write_term(lines, out)?;
                explain_depth(self.invocation.request, out)
            }
            _ => Ok(()),
        }
    }

    /// Writes the number of the term whose evaluation failed, after this number of lines, if it is
    /// known that it was not the reading of the input terms that failed.
    fn write_term<W: Write>(&self, lines: u64, out: &mut W) -> io::Result<()> {
        let invocation = self.invocation;
        let reads_terms = invocation.request.terms_path().is_some() || !invocation.given.is_empty();
        match invocation.request {
            Request::Eval { options, .. } | Request::Trace { options, .. }
                if lines > 0 || self.has_begun || !reads_terms => {
                let term = TermNumber::first(options.terms).after(lines);
                write!(out, "{term}: ")
            }
            _ => Ok(()),
        }
    }

    /// Explains an error of an input.
    fn explain_refusal<W: Write>(&self, refusal: Refusal, out: &mut W) -> io::Result<()> {
        let source = refusal.text;
        let text = self.name_of(source);
        let reason = refusal.reason;
        let named = NamedRefusal { text, reason };
        match (refusal.place(), source) {
            (Some(place), Source::Spec) if self.is_in_part(reason) => {
                explain_part(named, self.text_of(source), place.at as usize, out)
            }
            (Some(place), _) => {
                self.explain_at(named, self.text_of(source), place.at as usize, out)
            }
            (None, Source::Terms) if !self.has_table() => self.explain_terms(named, out),
            (None, _) => { explain_whole(named, self.text_of(source), self.item_of(refusal), out) }
        }
    }

    /// Returns whether an error is located in one of several parts that are a specification
    /// together.
    fn is_in_part(&self, reason: Reason) -> bool {
        self.part.is_some() && matches!(reason, Reason::Rule { .. })
    }

    /// Explains an error with an offset in a text, and the expected tokens.
    fn explain_at<W: Write>(
        &self,
        refusal: NamedRefusal<'_>,
        text: &[u8],
        at: usize,
        out: &mut W,
    ) -> io::Result<()> {
        let alloc = self.alloc;
        match expected_words(alloc, refusal.reason, text, at) {
            Some(expected) => explain_place(alloc, refusal, text, at, expected.as_slice(), out),
            None => explain_place(alloc, refusal, text, at, &[], out),
        }
    }

    /// Explains an error of the input terms, with the rejected term and part.
    fn explain_terms<W: Write>(&self, refusal: NamedRefusal<'_>, out: &mut W) -> io::Result<()> {
        let spec = self.first.as_slice();
        let terms = self.second.as_slice();
        let Some(element) = element_of_terms(self.alloc, spec, terms) else {
            return explain_whole(refusal, terms, None, out);
        };
        match self.invocation.given.as_slice().get(element) {
            Some(word) => {
                let terms = word.as_bytes();
                let text = TextName::Word(element);
                let reason = refusal.reason;
                let which = Which::Whole;
                let texts = Texts { spec, terms, which };
                explain_given(self.alloc, NamedRefusal { text, reason }, texts, out)
            }
            None => {
                let which = Which::Element(element);
                explain_given(self.alloc, refusal, Texts { spec, terms, which }, out)
            }
        }
    }

    /// Returns the list item that causes an error, if the text is a list and the item can be found.
    fn item_of(&self, refusal: Refusal) -> Option<Item> {
        match (refusal, self.invocation.request) {
            (
                Refusal {
                    reason: Reason::Element { number },
                    ..
                },
                _,
            ) => Some(Item::Element { at: number }),
            (
                Refusal {
                    text: Source::Args,
                    ..
                },
                Request::Make { pattern, args },
            ) => item_of_args(self.alloc, pattern.as_bytes(), args.as_bytes()),
            _ => None,
        }
    }

    /// Writes the name of the stream that failed, and the reason.
    fn explain_trouble<W: Write>(&self, out: &mut W) -> io::Result<()> {
        match self.trouble {
            Some(Trouble { name, error }) => explain_trouble(self.alloc, name, error, out),
            None => Ok(()),
        }
    }

    /// Returns the rejected text.
    fn text_of(&self, source: Source) -> &[u8] {
        match (source, self.invocation.request) {
            (Source::Pattern, Request::Match { pattern, .. } | Request::Make { pattern, .. }) => {
                pattern.as_bytes()
            }
            (Source::Args, Request::Make { args, .. }) => args.as_bytes(),
            (Source::Terms, _) => self.given_text(),
            _ => self.first.as_slice(),
        }
    }

    /// Returns the text of the input terms, or of the rejected one of those given with `-e`.
    fn given_text(&self) -> &[u8] {
        match self.word {
            Some(word) => self.word_text(word),
            None => self.second.as_slice(),
        }
    }

    /// Returns the term given with `-e` that has this index.
    fn word_text(&self, before: usize) -> &[u8] {
        match self.invocation.given.as_slice().get(before) {
            Some(word) => word.as_bytes(),
            None => &[],
        }
    }
}

/// Names the option that raises the store limit.
fn explain_room<W: Write>(request: Request<'_>, out: &mut W) -> io::Result<()> {
    match request {
        Request::Eval { options, .. }
        | Request::Serve { options, .. }
        | Request::Trace { options, .. } => {
            let cells = options.cells;
            let noun = if cells == 1 { "cell" } else { "cells" };
            writeln!(
                out,
                "the store limit is {cells} {noun}; raise it with --cells"
            )
        }
        _ => Ok(()),
    }
}

/// Names the option that raises the call-depth limit.
fn explain_depth<W: Write>(request: Request<'_>, out: &mut W) -> io::Result<()> {
    if let Request::Eval { options, .. } = request
        && let Some(depth) = options.depth
    {
        let noun = if depth == 1 { "frame" } else { "frames" };
        writeln!(
            out,
            "the call-depth limit is {depth} {noun}; raise it with --depth"
        )
    } else {
        Ok(())
    }
}
