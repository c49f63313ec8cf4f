//! The words that are listed.

ghost use Rattle.std.specs.Prelude.{◌≡◌, IfOk, filter, option_map};
ghost use Rattle.rec_uses.specs.Inner.Values.{as_use, as_uses, as_word};
ghost use Rattle.rec_uses.specs.Lines.{chosen, covers, first_at};
ghost use Rattle.rec_uses.specs.Uses.{names_same};

use crate::spots::{Cursor, Spot};
use crate::uses::{Use, names_same};
use crate::words::Word;
use std::alloc::{AllocError, Global};

/// Returns whether a location is that of a byte of a word that begins at another location.
fn covers(begin: Spot, spot: Spot, word: Word<'_>) -> bool
    ensures { result ≡ covers begin spot (as_word word.entry) }
{
    begin.line == spot.line
        && begin.column <= spot.column
        && spot.column - begin.column < word.bytes.len() as u64
}

/// Returns the first word that has a byte at a location.
fn first_at<'a>(text: &[u8], spot: Spot, uses: &[Use<'a>]) -> Option<Use<'a>>
    ensures { option_map as_use result ≡ first_at text.now spot (as_uses uses.now) }
{
    let mut cursor = Cursor::new(text);
    for used in uses {
        if covers(cursor.spot(used.word.at), spot, used.word) {
            return Some(*used);
        }
    }
    None
}

/// Returns the words that name the same as a word.
fn like<'a>(alloc: Global, picked: &Use<'_>, uses: &[Use<'a>]) -> Result<Vec<Use<'a>>, AllocError>
    ensures { IfOk result (λ v. as_uses v.items
        ≡ filter (λ u. names_same (as_use picked.now) u) (as_uses uses.now)) }
{
    let mut kept = Vec::new(alloc);
    for used in uses {
        if names_same(picked, used) {
            kept.push(*used)?;
        }
    }
    Ok(kept)
}

/// Returns all words, or those that name the same as the word at a location.
pub(crate) fn chosen<'a>(
    alloc: Global,
    text: &[u8],
    at: Option<Spot>,
    uses: Vec<Use<'a>>,
) -> Result<Vec<Use<'a>>, AllocError>
    ensures { IfOk result
        (λ v. as_uses v.items ≡ chosen text.now at (as_uses uses.entry.items)) }
{
    let spot = match at {
        None => return Ok(uses),
        Some(spot) => spot,
    };
    match first_at(text, spot, &uses) {
        None => Ok(Vec::new(alloc)),
        Some(picked) => like(alloc, &picked, &uses),
    }
}
