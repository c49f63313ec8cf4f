//! The command `check`: specifications are checked one after the other.

use crate::evidence::Evidence;
use crate::expected::expected_words;
use crate::input::{Sources, open};
use crate::join::{NamedText, joined_of, read_each, read_named, tell_fault};
use crate::mapped::Mapped;
use crate::report::Outcome;
use crate::screen::Look;
use rec_check::{Diagnostic, Examination, Judgement, Kind, Rule, examine, run_check};
use rec_join::{JoinFault, Joined};
use recw_cli::{
    CheckOptions, Finding, Form, Listed, PartPlace, STANDARD_INPUT, TextName, list_findings,
};
use rx_run::{Reason, RunFault, read_all_from};
use rx_text::Input;
use std::alloc::{AllocError, Global};
use std::io::{Read, Write};
use std::rt::Files;

/// Returns the name of a specification in messages.
pub fn name_of(path: &str) -> TextName<'_> {
    if path == STANDARD_INPUT {
        TextName::Path("<stdin>")
    } else {
        TextName::Path(path)
    }
}

/// Returns the name of a specification in the lines of findings and of words.
pub fn shown_name(alloc: Global, name: TextName<'_>) -> Result<Vec<u8>, RunFault> {
    let mut shown = Vec::new(alloc);
    match name.write(&mut shown) {
        Ok(()) => Ok(shown),
        Err(_) => Err(RunFault::Memory { lines: 0 }),
    }
}

/// Checks the specifications in these files. The first failure ends the run.
pub fn check<H: Files, R: Read, W: Write>(
    sources: &mut Sources<'_, H, R>,
    options: CheckOptions,
    out: &mut W,
    evidence: &mut Evidence<'_>,
) -> Result<Outcome, RunFault> {
    let mut texts = read_each(sources, evidence.invocation.joined.as_slice(), evidence)?;
    let mut outcome = Outcome::Done;
    evidence.form = form_of(options, evidence.invocation.explain, evidence.look);
    for path in evidence.invocation.given.as_slice() {
        let judgement = if texts.is_empty() {
            check_file(sources, path, out, evidence)?
        } else {
            let last = read_named(sources, path, evidence)?;
            check_after(evidence, &mut texts, last, out)?
        };
        if is_faulty(judgement, options.is_strict) {
            outcome = Outcome::Faulty;
        }
    }
    Ok(outcome)
}

/// Returns the form of the findings. They are explained if that is requested or standard output is
/// a terminal.
fn form_of(options: CheckOptions, is_asked: bool, look: Look) -> Form {
    if options.is_json {
        Form::Json
    } else if is_asked || look.is_terminal {
        let has_colours = look.has_colours;
        Form::Explained { has_colours }
    } else {
        Form::Lines
    }
}

/// Returns whether a specification has an error or, if `is_strict`, a warning.
fn is_faulty(judgement: Judgement, is_strict: bool) -> bool {
    match judgement {
        Judgement::Good => false,
        Judgement::Warned => is_strict,
        _ => true,
    }
}

/// Checks the specification that these texts and a last one are together. The texts stay as they
/// are.
fn check_after<'a, W: Write>(
    evidence: &Evidence<'_>,
    texts: &mut Vec<NamedText<'a>>,
    last: NamedText<'a>,
    out: &mut W,
) -> Result<Judgement, RunFault> {
    if texts.push(last).is_err() {
        return Err(RunFault::Memory { lines: 0 });
    }
    let judgement = check_joined(evidence.alloc, texts, evidence.form, out);
    texts.pop();
    judgement
}

/// Checks the specification that these texts are together, with locations in the texts.
fn check_joined<W: Write>(
    alloc: Global,
    texts: &[NamedText<'_>],
    form: Form,
    out: &mut W,
) -> Result<Judgement, RunFault> {
    match (joined_of(alloc, texts), form) {
        (Ok(joined), Form::Lines) => {
            let mut lines = Vec::new(alloc);
            let text = joined.syntax.source();
            let judgement = rec_check::check_text(alloc, b"", text, &mut lines)?;
            match Mapped::new(alloc, &joined, texts) {
                Ok(mapped) => mapped.write_lines(&lines, out)?,
                Err(_) => return Err(RunFault::Memory { lines: 0 }),
            }
            Ok(judgement)
        }
        (Ok(joined), form) => list_joined(alloc, joined, texts, form, out),
        (Err(fault), Form::Lines) => {
            tell_fault(alloc, &fault, texts, out)?;
            Ok(Judgement::Refused)
        }
        (Err(fault), form) => list_fault(alloc, &fault, texts, form, out),
    }
}

/// Writes the findings in a joined text in a form other than lines.
fn list_joined<W: Write>(
    alloc: Global,
    joined: Joined,
    texts: &[NamedText<'_>],
    form: Form,
    out: &mut W,
) -> Result<Judgement, RunFault> {
    let Examination {
        judgement,
        mut diagnostics,
    } = examine(alloc, joined.syntax.source())?;
    let mapped = Mapped::new(alloc, &joined, texts)?;
    for diagnostic in diagnostics.iter_mut() {
        diagnostic.shown = mapped.located_detail(alloc, diagnostic.kind, &diagnostic.shown)?;
    }
    let findings = placed_findings(alloc, &diagnostics, &mapped)?;
    let listed = Listed {
        name: TextName::Path(JOINED),
        text: joined.syntax.source(),
        expected: &[],
    };
    match list_findings(alloc, &listed, &findings, form, out) {
        Ok(()) => Ok(judgement),
        Err(_) => Err(RunFault::Write),
    }
}

/// Returns diagnostics in a joined text as they are listed, with their locations in the parts.
fn placed_findings<'f>(
    alloc: Global,
    diagnostics: &'f [Diagnostic],
    mapped: &Mapped<'f>,
) -> Result<Vec<Finding<'f>>, AllocError> {
    let mut findings = Vec::new(alloc);
    for diagnostic in diagnostics {
        let place = mapped.place(diagnostic.at);
        findings.push(finding_of(diagnostic, place))?;
    }
    Ok(findings)
}

/// Writes why texts cannot be joined, in a form other than lines.
fn list_fault<W: Write>(
    alloc: Global,
    fault: &JoinFault,
    texts: &[NamedText<'_>],
    form: Form,
    out: &mut W,
) -> Result<Judgement, RunFault> {
    match *fault {
        JoinFault::Empty => Ok(Judgement::Good),
        JoinFault::Memory => Err(RunFault::Memory { lines: 0 }),
        JoinFault::TooLong => list_alone(alloc, &TOO_LONG, form, out),
        JoinFault::Mismatch => list_alone(alloc, &MISMATCH, form, out),
        JoinFault::Long { part } | JoinFault::Grammar { part, .. } => match texts.get(part) {
            Some(text) => list_part(alloc, text, form, out),
            None => Ok(Judgement::Refused),
        },
    }
}

/// The name of a joined text.
const JOINED: &str = "<joined>";

/// The finding in a joined text that is too long.
const TOO_LONG: Finding<'static> = Finding {
    at: 0,
    end: 0,
    place: None,
    reason: Some(Reason::Long),
    code: b"L1",
    label: b"the joined text has more than 16777216 bytes",
    shown: b"",
};

/// The finding in a joined text that differs from its parts, which is a defect of the program.
const MISMATCH: Finding<'static> = Finding {
    at: 0,
    end: 0,
    place: None,
    reason: Some(Reason::Long),
    code: b"",
    label: b"the joined text differs from its parts: a defect",
    shown: b"",
};

/// Writes one finding about files that cannot be joined.
fn list_alone<W: Write>(
    alloc: Global,
    finding: &Finding<'_>,
    form: Form,
    out: &mut W,
) -> Result<Judgement, RunFault> {
    let listed = Listed {
        name: TextName::Path(JOINED),
        text: b"",
        expected: &[],
    };
    match list_findings(alloc, &listed, &[*finding], form, out) {
        Ok(()) => Ok(Judgement::Refused),
        Err(_) => Err(RunFault::Write),
    }
}

/// Writes the findings in one of several texts, which is no specification.
fn list_part<W: Write>(
    alloc: Global,
    part: &NamedText<'_>,
    form: Form,
    out: &mut W,
) -> Result<Judgement, RunFault> {
    let mut spec = part.text.as_slice();
    write_findings(alloc, name_of(part.path), form, &mut spec, out)
}

/// Checks the specification in a file or on standard input.
fn check_file<'a, H: Files, R: Read, W: Write>(
    sources: &mut Sources<'_, H, R>,
    path: &'a str,
    out: &mut W,
    evidence: &mut Evidence<'a>,
) -> Result<Judgement, RunFault> {
    let name = name_of(path);
    let mut file = evidence.note_open(open(sources.rt, Some(path), sources.input), name)?;
    check_text(&mut file, name, out, evidence)
}

/// Checks the specification in a text called `name`.
fn check_text<'a, R: Read, W: Write>(
    text: &mut R,
    name: TextName<'a>,
    out: &mut W,
    evidence: &mut Evidence<'a>,
) -> Result<Judgement, RunFault> {
    let mut spec = evidence.record(text);
    let end = match evidence.form {
        Form::Lines => write_lines(evidence.alloc, name, &mut spec, out),
        form => write_findings(evidence.alloc, name, form, &mut spec, out),
    };
    evidence.note_read(spec.finish(), name);
    end
}

/// Writes the lines of findings.
fn write_lines<R: Read, W: Write>(
    alloc: Global,
    name: TextName<'_>,
    spec: &mut R,
    out: &mut W,
) -> Result<Judgement, RunFault> {
    let shown = shown_name(alloc, name)?;
    run_check(alloc, &shown, spec, out)
}

/// Writes findings in another form.
fn write_findings<R: Read, W: Write>(
    alloc: Global,
    name: TextName<'_>,
    form: Form,
    spec: &mut R,
    out: &mut W,
) -> Result<Judgement, RunFault> {
    let text = read_all_from(alloc, &mut Input::new(spec))?;
    let Examination {
        judgement,
        diagnostics,
    } = examine(alloc, &text)?;
    let findings = findings_of(alloc, &diagnostics)?;
    let expected = expected_by(alloc, &findings, &text);
    let listed = Listed {
        name,
        text: &text,
        expected: &expected,
    };
    match list_findings(alloc, &listed, &findings, form, out) {
        Ok(()) => Ok(judgement),
        Err(_) => Err(RunFault::Write),
    }
}

/// Returns diagnostics as they are listed.
fn findings_of(alloc: Global, diagnostics: &[Diagnostic]) -> Result<Vec<Finding<'_>>, AllocError> {
    let mut findings = Vec::new(alloc);
    for diagnostic in diagnostics {
        findings.push(finding_of(diagnostic, None))?;
    }
    Ok(findings)
}

/// Returns the names of the expected tokens, if the finding is a syntax error.
fn expected_by(alloc: Global, findings: &[Finding<'_>], text: &[u8]) -> Vec<&'static str> {
    match expected_at(alloc, findings, text) {
        Some(expected) => expected,
        None => Vec::new(alloc),
    }
}

/// Returns the names of the tokens that are expected at the first finding, if it is a syntax error.
fn expected_at(alloc: Global, findings: &[Finding<'_>], text: &[u8]) -> Option<Vec<&'static str>> {
    let Finding { reason, at, .. } = *findings.first()?;
    expected_words(alloc, reason?, text, at)
}

/// Returns a diagnostic as it is listed, with its location in a part of the text.
fn finding_of<'f>(diagnostic: &'f Diagnostic, place: Option<PartPlace<'f>>) -> Finding<'f> {
    let Diagnostic { at, end, kind, .. } = *diagnostic;
    Finding {
        at,
        end,
        place,
        reason: reason_of(kind, at),
        code: kind.code(),
        label: kind.label(),
        shown: &diagnostic.shown,
    }
}

/// Returns the error of a finding at this offset. `None` for a warning.
fn reason_of(kind: Kind, at: usize) -> Option<Reason> {
    let at = u32::try_from(at).unwrap_or(u32::MAX);
    match kind {
        Kind::TooLong => Some(Reason::Long),
        Kind::Outside => Some(Reason::Grammar { at }),
        Kind::Broken(rule) => {
            let number = number_of(rule);
            Some(Reason::Rule { number, at })
        }
        _ => None,
    }
}

/// Returns the number of a rule.
fn number_of(rule: Rule) -> u8 {
    match rule {
        Rule::SortTwice => 1,
        Rule::SymbolTwice => 2,
        Rule::VariableTaken => 3,
        Rule::SortUnknown => 4,
        Rule::WordUnknown => 5,
        Rule::IllFilled => 6,
        Rule::IllSorted => 7,
        Rule::IllHeaded => 8,
        Rule::UnlikeSides => 9,
        Rule::Unbound => 10,
        Rule::OpenTerm => 11,
    }
}
