//! Diagnostics in the order of their offsets.

ghost use Rattle.std.specs.Prelude.{◌≡◌, ◌++◌, IfOk, OnOk};
ghost use Rattle.std.specs.List.Sorted.{IsNonDecreasingBy};
ghost use Rattle.rec_check.specs.Errors.{rank};
ghost use Rattle.rec_check.specs.Findings.{
  AreInOrder,
  HasSame,
  as_diagnostic,
  as_diagnostics,
  found_at,
};
ghost use Rattle.rec_check.specs.Named.{as_words};

use crate::finding::{Diagnostic, Kind};
use crate::located::Word;
use std::alloc::AllocError;

/// Appends a diagnostic of this kind for each of these words.
pub(crate) fn push_found(
    kind: Kind,
    words: &[Word<'_>],
    found: &mut Vec<Diagnostic>,
) -> Result<(), AllocError>
    ensures { OnOk result (as_diagnostics found.new.items
        ≡ as_diagnostics found.old.items ++ found_at kind (as_words words.now)) }
{
    for word in words {
        let shown = Vec::from_slice(*found.allocator(), word.bytes)?;
        found.push(Diagnostic {
            at: word.at,
            end: word.at + word.bytes.len(),
            kind,
            shown,
        })?;
    }
    Ok(())
}

/// Sorts diagnostics by their offsets.
pub(crate) fn in_order(mut found: Vec<Diagnostic>) -> Result<Vec<Diagnostic>, AllocError>
    ensures { IfOk result
        (λ v. AreInOrder (as_diagnostics found.items) (as_diagnostics v.items)) }
{
    found.sort_by_key(|diagnostic| diagnostic.at)?;
    Ok(found)
}

/// The violation that evaluation reports: the number of its rule, and its offset.
#[derive(Clone, Copy, Drop)]
pub(crate) struct Reported {
    pub(crate) number: u8,
    pub(crate) at: u32,
}

impl Reported {
    /// Returns the key by which errors are sorted: the reported one is first.
    fn rank(self, error: &Diagnostic) -> u128
        ensures { result ≡ rank (record { number = self.number; at = self.at })
            (as_diagnostic error.now) }
    {
        if error.at == self.at as usize && error.kind.rule_number() == self.number {
            0
        } else {
            1 + error.at as u128
        }
    }
}

/// Sorts errors: the reported one, then the others by their offsets.
pub(crate) fn reported_first(
    mut errors: Vec<Diagnostic>,
    reported: Reported,
) -> Result<Vec<Diagnostic>, AllocError>
    ensures same { IfOk result
        (λ v. HasSame (as_diagnostics errors.items) (as_diagnostics v.items)) }
    ensures ordered { IfOk result (λ v. IsNonDecreasingBy
        (rank (record { number = reported.number; at = reported.at }))
        (as_diagnostics v.items)) }
{
    errors.sort_by_key(|error| reported.rank(error))?;
    Ok(errors)
}
