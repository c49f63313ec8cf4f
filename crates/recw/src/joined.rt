//! Evaluation with `--join`: the specification is joined of several.

use crate::evidence::Evidence;
use crate::input::Sources;
use crate::join::{NamedText, joined_of, read_each, read_named, tell_fault, write_all};
use crate::program::{evaluate_beside, evaluate_text};
use crate::work::Work;
use rec_join::{JoinFault, Joined, Origin};
use rec_run::RunReport;
use recw_cli::STANDARD_INPUT;
use rx_run::{Ending, Reason, Refusal, RunFault, Source};
use std::io::{Read, Write};
use std::rt::Files;

/// The end of a run whose specification is too long.
const LONG: Ending = Ending::Refused(Refusal {
    text: Source::Spec,
    reason: Reason::Long,
});

/// Returns the joined text, or the text of the part that is no specification, if there is one.
fn source_of<'s, 'a>(
    joined: &'s Result<Joined, JoinFault>,
    texts: &'s [NamedText<'a>],
    evidence: &mut Evidence<'a>,
) -> Option<&'s [u8]> {
    match joined {
        Ok(joined) => Some(joined.syntax.source()),
        Err(JoinFault::Long { part } | JoinFault::Grammar { part, .. }) => {
            let text = texts.get(*part)?;
            evidence.part = Some(text.path);
            Some(&text.text)
        }
        Err(_) => None,
    }
}

/// Reports that there is no joined text, although each part is a specification.
fn tell_none<W: Write>(
    joined: &Result<Joined, JoinFault>,
    out: &mut W,
    evidence: &Evidence<'_>,
) -> Result<RunReport, RunFault> {
    match joined {
        Ok(_) | Err(JoinFault::TooLong) => write_all(b"!spec L1\n", out)?,
        Err(fault) => {
            tell_fault(evidence.alloc, fault, &[], out)?;
        }
    }
    Ok(RunReport {
        ending: LONG,
        lines: 0,
        limit_lines: 0,
    })
}

/// Evaluates the specification that the files of `--join` and the file of the specification are
/// together. If one of them is no specification, the error is that of this file alone.
pub fn evaluate_joined<'a, H: Files, R: Read, W: Write, K: Work>(
    sources: &mut Sources<'_, H, R>,
    work: &mut K,
    out: &mut W,
    evidence: &mut Evidence<'a>,
) -> Result<RunReport, RunFault> {
    let path = evidence.invocation.request.path().unwrap_or(STANDARD_INPUT);
    let mut texts = read_each(sources, evidence.invocation.joined.as_slice(), evidence)?;
    let last = read_named(sources, path, evidence)?;
    if texts.push(last).is_err() {
        return Err(RunFault::Memory { lines: 0 });
    }
    let joined = joined_of(evidence.alloc, &texts);
    let Some(source) = source_of(&joined, &texts, evidence) else {
        return tell_none(&joined, out, evidence);
    };
    let mut text = source;
    let mut spec = evidence.record(&mut text);
    let end = if evidence.invocation.request.terms_path() == Some(STANDARD_INPUT) {
        evaluate_beside(work, &mut spec, sources.input, out, evidence)
    } else {
        evaluate_text(sources.rt, work, &mut spec, out, evidence)
    };
    evidence.keep_first(spec, Source::Spec);
    match &joined {
        Ok(joined) => {
            let report = end?;
            let ending = in_part(report.ending, joined, &texts, evidence);
            Ok(RunReport { ending, ..report })
        }
        Err(_) => end,
    }
}

/// Converts the end of a run on a joined text: an error of the specification is located in the part
/// that has it.
fn in_part<'a>(
    end: Ending,
    joined: &Joined,
    texts: &[NamedText<'a>],
    evidence: &mut Evidence<'a>,
) -> Ending {
    if let Ending::Refused(
        Refusal {
            text: Source::Spec,
            reason: Reason::Rule { number, at },
        },
    ) = end
        && let Some(Origin { part, at }) = joined.origin(at as usize)
        && let Some(text) = texts.get(part)
        && let Ok(at) = u32::try_from(at)
    {
        evidence.part = Some(text.path);
        evidence.first = Vec::from_slice(evidence.alloc, &text.text).unwrap_or(Vec::new(
            evidence.alloc,
        ));
        let reason = Reason::Rule { number, at };
        Ending::Refused(Refusal {
            text: Source::Spec,
            reason,
        })
    } else {
        end
    }
}
