//! The section of a term's selected rewrites whose lines are written while the term is traced.

ghost use Rattle.std.specs.Prelude.{◌≡◌, ◌+◌, ◌≤◌, ℕ, IfErr, IfOk, List, OnOk, drop, length};
ghost use Rattle.rec_trace_run.specs.Picks.{back_count, front_lines, left_out_count, picks_by};
ghost use Rattle.rec_trace_run.specs.Picks.{rest_lines};
ghost use Rattle.rec_trace_run.specs.Inner.Telling.{AddsIf, HasBounds, front_most, section_lines};

use crate::picked::Picked;
use rec_engine::EngineFault;

/// A section of a term's selected rewrites, which are numbered from 0, and the number of selected
/// rewrites so far.
#[derive(Drop)]
pub(crate) struct Section {
    /// The number of the first rewrite of the section.
    from: u64,
    /// The number after that of the last one; with `None`, the section has all from `from` on.
    upto: Option<u64>,
    /// The number of selected rewrites so far.
    pub(crate) seen: u64,
}

/// Returns the largest number of lines at the beginning; `None` for all.
fn front_of(picked: Picked<'_>) -> Option<u64>
    ensures { result ≡ front_most (picks_by picked.entry) }
{
    match picked.first {
        Some(first) => Some(first),
        None => match picked.last {
            Some(_) => Some(0),
            None => None,
        },
    }
}

/// Returns the largest number of lines at the end.
fn back_of(picked: Picked<'_>) -> u64
    ensures { result ≡ back_count (picks_by picked.entry) }
{
    match picked.last {
        Some(last) => u64::from(last),
        None => 0,
    }
}

impl Section {
    /// Makes the section of the rewrites that are shown at the beginning.
    pub(crate) fn front(picked: Picked<'_>) -> Section
        ensures lines { (ls : List (List ℕ))
            → section_lines result ls ≡ front_lines (picks_by picked.entry) ls }
        ensures none { result.seen ≡ 0 }
    {
        Section {
            from: 0,
            upto: front_of(picked),
            seen: 0,
        }
    }

    /// Makes the section of all rewrites from a number on.
    pub(crate) fn back(from: u64) -> Section
        ensures lines { (ls : List (List ℕ)) → section_lines result ls ≡ drop from ls }
        ensures none { result.seen ≡ 0 }
    {
        Section {
            from,
            upto: None,
            seen: 0,
        }
    }

    /// Returns whether the section has the next selected rewrite.
    fn has_next(&self) -> bool
        ensures { AddsIf self.now result }
    {
        if self.seen < self.from {
            return false;
        }
        match self.upto {
            None => true,
            Some(upto) => self.seen < upto,
        }
    }

    /// Counts one more selected rewrite, and returns whether the section has it. If the count
    /// overflows, the error is `Memory`.
    pub(crate) fn take(&mut self) -> Result<bool, EngineFault>
        ensures line { IfOk result (AddsIf self.old) }
        ensures counted { OnOk result (self.new.seen ≡ self.old.seen + 1) }
        ensures bounds { HasBounds self.old self.new }
        ensures memory { IfErr result (λ fault. fault ≡ EngineFault.Memory) }
    {
        match self.seen.checked_add(1) {
            Some(more) => {
                let here = self.has_next();
                self.seen = more;
                Ok(here)
            }
            None => Err(EngineFault::Memory),
        }
    }
}

/// The selected rewrites after those that are shown at the beginning.
#[derive(Clone, Copy, Drop)]
pub(crate) struct Rest {
    /// The number of those that are left out.
    pub(crate) left_out: u64,
    /// The number of the first one after these, counted from 0 over all selected rewrites.
    pub(crate) from: u64,
}

/// Divides the selected rewrites after those at the beginning, by the number of all selected ones.
pub(crate) fn rest_of(picked: Picked<'_>, seen: u64) -> Rest
    ensures left_out { (ls : List (List ℕ)) → seen ≡ length ls
        → result.left_out ≡ left_out_count (picks_by picked.entry) ls }
    ensures last { (ls : List (List ℕ)) → seen ≡ length ls → drop result.from ls
        ≡ drop (left_out_count (picks_by picked.entry) ls) (rest_lines (picks_by picked.entry) ls) }
{
    let rest = match front_of(picked) {
        Some(front) => seen.saturating_sub(front),
        None => 0,
    };
    let left_out = rest.saturating_sub(back_of(picked));
    let last = rest - left_out;
    Rest {
        left_out,
        from: seen - last,
    }
}
