//! The settings of a run of traces.

ghost use Rattle.std.specs.Prelude.{◌≡◌};
ghost use Rattle.rec_trace_run.specs.Traces.{shown_by};

use crate::picked::Picked;
use rec_run::{RunOptions, TermChoice};
use rec_trace::Look;
use std::alloc::Global;

/// The settings of a run of traces: its limits, the form of its lines and the selection of
/// rewrites.
#[derive(Clone, Copy, Debug, Drop)]
pub struct TraceOptions<'a> {
    /// The limits of the run. `count` adds the steps spent so far to the lines of rewrites and
    /// values. The memo table is not used.
    pub run: RunOptions,
    /// Whether the line of a rewrite shows the whole term after it, not the redex and its
    /// replacement. Before the first rewrite there is then a line of the term itself.
    pub whole: bool,
    /// The largest number of bytes of a term that the line of a rewrite shows. A longer text is cut
    /// and ends in `...`.
    pub width: Option<u32>,
    /// The selection of the rewrites that are shown.
    pub picked: Picked<'a>,
    /// The terms that are traced.
    pub terms: TermChoice,
}

impl TraceOptions<'_> {
    /// Returns the form of the lines of rewrites.
    pub(crate) fn look(self) -> Look
        ensures counted { result.counted ≡ (shown_by self.entry).counted }
        ensures width { result.width ≡ (shown_by self.entry).width }
    {
        let width = match self.width {
            Some(width) => Some(width as usize),
            None => None,
        };
        Look {
            counted: self.run.count,
            width,
        }
    }
}

/// The allocator and the settings of a run of traces.
#[derive(Clone, Copy, Drop)]
pub(crate) struct Setup<'a> {
    /// The allocator.
    pub(crate) alloc: Global,
    /// The settings of the run.
    pub(crate) options: TraceOptions<'a>,
}
