//! The command `uses`: the words of a specification with their declarations.

use crate::check::shown_name;
use crate::evidence::Evidence;
use crate::report::Outcome;
use rec_check::check_text;
use rec_uses::{Spot, UsesSettings, run_uses};
use recw_cli::{RulePlace, TextName};
use rx_run::{RunFault, Source};
use std::io::{Read, Write};
use std::rt::Files;

/// Returns the location of a word.
fn word_spot(place: RulePlace) -> Spot {
    Spot {
        line: u64::from(place.line),
        column: u64::from(place.column),
    }
}

/// Lists the words of a specification in a file or on standard input. A text outside the grammar
/// has the line of `check`.
pub fn list_uses<H: Files, R: Read, W: Write>(
    rt: &H,
    at: Option<RulePlace>,
    input: &mut R,
    out: &mut W,
    evidence: &mut Evidence<'_>,
) -> Result<Outcome, RunFault> {
    let name = evidence.name_of(Source::Spec);
    let mut file = evidence.open_first(rt, input, Source::Spec)?;
    list_text(&mut file, name, at, out, evidence)
}

/// Lists the words of the specification in a text called `name`.
fn list_text<'a, R: Read, W: Write>(
    text: &mut R,
    name: TextName<'a>,
    at: Option<RulePlace>,
    out: &mut W,
    evidence: &mut Evidence<'a>,
) -> Result<Outcome, RunFault> {
    let alloc = evidence.alloc;
    let shown = shown_name(alloc, name)?;
    let settings = UsesSettings {
        name: &shown,
        at: at.map(word_spot),
    };
    let mut spec = evidence.record(text);
    let end = run_uses(alloc, &settings, &mut spec, out);
    evidence.note_read(spec.finish(), name);
    match end? {
        rec_uses::Outcome::Listed => Ok(Outcome::Done),
        rec_uses::Outcome::Refused(refused) => {
            check_text(alloc, &shown, &refused, out)?;
            Ok(Outcome::Faulty)
        }
    }
}
