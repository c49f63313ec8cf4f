//! The command `serve`: sessions of requests and responses.

use crate::evidence::Evidence;
use crate::expected::expected_words;
use crate::input::{Sources, open_file};
use crate::options::serve_settings;
use crate::recorded::Recorded;
use rec_serve::{Listener, Refusal, ServeFault, Session, run_serve};
use rec_sorts::Checked;
use recw_cli::{
    EvalOptions, Item, NamedRefusal, TextName, Texts, Which, explain_given, explain_place,
    explain_text,
};
use rx_run::{Ending, InputForm, Reason, RunFault, Source};
use rx_text::LONGEST;
use std::alloc::Global;
use std::io;
use std::io::{Read, Write};
use std::rt::Files;

/// Explains the requests that are rejected, if that is requested.
#[derive(Drop)]
struct Explainer<'a, E> {
    /// The allocator of the explanations.
    alloc: Global,
    /// The name of the requests.
    path: &'a str,
    /// Whether errors are explained.
    is_asked: bool,
    /// The form of the requests.
    input: InputForm,
    /// The output.
    err: &'a mut E,
}

impl<E: Write> Listener for Explainer<'_, E> {
    ghost use Rattle.std.specs.Prelude.{[]};

    ghost told = { λ _. [] };

    ghost says = { λ _ _ _. [] };

    fn hear_refusal(&mut self, checked: &Checked, number: u64, request: &[u8], refusal: Refusal) {
        if self.is_asked {
            // A line that cannot be written is dropped.
            let _ = self.explain(checked, number, request, refusal);
        }
    }
}

impl<E: Write> Explainer<'_, E> {
    /// Explains the error of a request.
    fn explain(
        &mut self,
        checked: &Checked,
        number: u64,
        request: &[u8],
        refusal: Refusal,
    ) -> io::Result<()> {
        let path = self.path;
        let text = TextName::Line { path, number };
        match refusal {
            Refusal::Long => {
                let reason = Reason::Long;
                self.explain_at(NamedRefusal { text, reason }, request, LONGEST)
            }
            Refusal::Outside { at } => {
                let reason = Reason::Outside { at };
                self.explain_at(NamedRefusal { text, reason }, request, at as usize)
            }
            Refusal::NotTable => {
                let reason = Reason::NotTable;
                explain_text(NamedRefusal { text, reason }, None, self.err)
            }
            Refusal::Element { number } => {
                let reason = Reason::Element { number };
                let item = Some(Item::Element { at: number });
                explain_text(NamedRefusal { text, reason }, item, self.err)
            }
            Refusal::Rule { number } => {
                let reason = Reason::TermsRule { number };
                self.explain_rule(checked, NamedRefusal { text, reason }, request)
            }
        }
    }

    /// Explains an error of the term of a request. It has no offset if the request is a table.
    fn explain_rule(
        &mut self,
        checked: &Checked,
        refusal: NamedRefusal<'_>,
        request: &[u8],
    ) -> io::Result<()> {
        match self.input {
            InputForm::Term => {
                let spec = checked.syntax().source();
                let which = Which::Whole;
                let terms = request;
                let texts = Texts { spec, terms, which };
                explain_given(self.alloc, refusal, texts, self.err)
            }
            InputForm::Table => explain_text(refusal, None, self.err),
        }
    }

    /// Explains an error with an offset in a request, and the expected tokens.
    fn explain_at(
        &mut self,
        refusal: NamedRefusal<'_>,
        request: &[u8],
        at: usize,
    ) -> io::Result<()> {
        let alloc = self.alloc;
        match expected_words(alloc, refusal.reason, request, at) {
            Some(expected) => {
                let expected = expected.as_slice();
                explain_place(alloc, refusal, request, at, expected, self.err)
            }
            None => explain_place(alloc, refusal, request, at, &[], self.err),
        }
    }
}

/// Answers the requests of a file or of standard input, with a specification from the other.
pub fn serve<H: Files, R: Read, W: Write, E: Write>(
    sources: &mut Sources<'_, H, R>,
    options: EvalOptions,
    out: &mut W,
    err: &mut E,
    evidence: &mut Evidence<'_>,
) -> Result<Ending, RunFault> {
    match evidence.invocation.request.requests_path() {
        Some(_) => serve_file(sources.rt, options, sources.input, out, err, evidence),
        None => serve_input(sources.rt, options, sources.input, out, err, evidence),
    }
}

/// Answers the requests of a file, with a specification in another file or on standard input.
fn serve_file<H: Files, R: Read, W: Write, E: Write>(
    rt: &H,
    options: EvalOptions,
    input: &mut R,
    out: &mut W,
    err: &mut E,
    evidence: &mut Evidence<'_>,
) -> Result<Ending, RunFault> {
    let mut spec = evidence.open_first(rt, input, Source::Spec)?;
    serve_opened(rt, options, &mut spec, out, err, evidence)
}

/// Answers the requests of a file, with the text of a specification.
fn serve_opened<H: Files, S: Read, W: Write, E: Write>(
    rt: &H,
    options: EvalOptions,
    spec: &mut S,
    out: &mut W,
    err: &mut E,
    evidence: &mut Evidence<'_>,
) -> Result<Ending, RunFault> {
    let path = evidence.invocation.request.requests_path();
    let name = evidence.name_of(Source::Term);
    let mut requests = evidence.note_open(open_file(rt, path), name)?;
    serve_on(options, spec, &mut requests, out, err, evidence)
}

/// Answers the requests on standard input, with a specification in a file.
fn serve_input<H: Files, R: Read, W: Write, E: Write>(
    rt: &H,
    options: EvalOptions,
    input: &mut R,
    out: &mut W,
    err: &mut E,
    evidence: &mut Evidence<'_>,
) -> Result<Ending, RunFault> {
    let mut spec = evidence.open_spec(rt)?;
    serve_on(options, &mut spec, input, out, err, evidence)
}

/// Answers requests, and records the text of the specification for an explanation.
fn serve_on<S: Read, R: Read, W: Write, E: Write>(
    options: EvalOptions,
    spec: &mut S,
    requests: &mut R,
    out: &mut W,
    err: &mut E,
    evidence: &mut Evidence<'_>,
) -> Result<Ending, RunFault> {
    let mut spec = evidence.record(spec);
    let end = answer_all(options, &mut spec, requests, out, err, evidence);
    evidence.keep_first(spec, Source::Spec);
    end
}

/// Answers requests, and explains those that are rejected if that is requested.
fn answer_all<S: Read, R: Read, W: Write, E: Write>(
    options: EvalOptions,
    spec: &mut S,
    requests: &mut R,
    out: &mut W,
    err: &mut E,
    evidence: &mut Evidence<'_>,
) -> Result<Ending, RunFault> {
    let alloc = evidence.alloc;
    let mut requests = Recorded::new(alloc, requests, false);
    let mut explainer = Explainer {
        alloc,
        path: evidence.requests_name(),
        is_asked: evidence.is_curious,
        input: options.input,
        err,
    };
    let settings = serve_settings(options);
    let session = Session { alloc, settings };
    let end = run_serve(session, spec, &mut requests, out, &mut explainer);
    let name = evidence.name_of(Source::Term);
    evidence.note_read(requests.finish(), name);
    end_of(end)
}

/// Converts the end of a session to that of other runs.
fn end_of(end: Result<Ending, ServeFault>) -> Result<Ending, RunFault> {
    match end {
        Ok(ending) => Ok(ending),
        Err(ServeFault::Memory) => Err(RunFault::Memory { lines: 0 }),
        Err(ServeFault::Read { answered: _ }) => Err(RunFault::Read),
        Err(ServeFault::Write { answered: _ }) => Err(RunFault::Write),
    }
}
