//! Options of an evaluation and of a trace.

ghost use Rattle.std.specs.Prelude.{◌≡◌, ◌^◌, max, min};
ghost use Rattle.rec_trace_run.specs.Traces.{shown_by};
ghost use Rattle.recw_wasm.specs.Answers.{shown_as};

use rec_run::{RunOptions, TermChoice};
use rec_trace_run::Picked;

/// The greatest step limit.
const MOST_STEPS: u64 = 1_000_000_000_000_000_000;

/// The greatest number of cells, and of new cells between two garbage collections.
const MOST_CELLS: u32 = 1_073_741_824;

/// The greatest capacity of the memo table.
const MOST_REMEMBERED: u32 = 1_048_576;

/// The smallest width of a term in a trace line: the three dots of a shortened term.
const LEAST_WIDTH: u32 = 3;

/// The greatest width of a term in a trace line.
const MOST_WIDTH: u32 = 1_073_741_824;

/// The limits of an evaluation. A number outside its range counts as the nearest one within.
#[derive(Clone, Copy)]
#[repr(C)]
pub struct Options {
    /// The step limit of each term, 0 to 10^18.
    pub steps: u64,
    /// The maximum number of cells, 1 to 2^30.
    pub cells: u32,
    /// The capacity of the memo table, 0 to 2^20.
    pub memo: u32,
    /// The number of new cells between two garbage collections, 1 to 2^30.
    pub reclaim: u32,
    /// Whether each result is followed by its step count.
    pub count: bool,
}

impl Options {
    /// Returns the settings of the run.
    pub fn within(&self) -> RunOptions
        ensures steps { result.steps ≡ min self.now.steps (10 ^ 18) }
        ensures count { result.count ≡ self.now.count }
        ensures cells { result.cells ≡ min (max self.now.cells 1) (2 ^ 30) }
        ensures memo { result.memo ≡ min self.now.memo (2 ^ 20) }
        ensures reclaim { result.reclaim ≡ min (max self.now.reclaim 1) (2 ^ 30) }
    {
        RunOptions {
            steps: self.steps.min(MOST_STEPS),
            cells: self.cells.max(1).min(MOST_CELLS),
            memo: self.memo.min(MOST_REMEMBERED),
            reclaim: self.reclaim.max(1).min(MOST_CELLS),
            count: self.count,
        }
    }
}

/// The options of a trace. A number outside its range counts as the nearest one within.
#[derive(Clone, Copy)]
#[repr(C)]
pub struct TraceOptions {
    /// The limits. A trace has no memo table.
    pub limits: Options,
    /// The maximum number of bytes of a term in a trace line, 3 to 2^30.
    pub width: u32,
    /// Whether trace lines show the whole term.
    pub whole: bool,
}

impl TraceOptions {
    /// Returns the options of the run. Every rewrite is shown.
    pub fn within(&self) -> rec_trace_run::TraceOptions<'static>
        ensures steps { result.run.steps ≡ min self.now.limits.steps (10 ^ 18) }
        ensures cells { result.run.cells ≡ min (max self.now.limits.cells 1) (2 ^ 30) }
        ensures memo { result.run.memo ≡ min self.now.limits.memo (2 ^ 20) }
        ensures reclaim { result.run.reclaim ≡ min (max self.now.limits.reclaim 1) (2 ^ 30) }
        ensures shown { shown_by result ≡ shown_as self.now }
    {
        rec_trace_run::TraceOptions {
            run: self.limits.within(),
            whole: self.whole,
            width: Some(self.width.max(LEAST_WIDTH).min(MOST_WIDTH)),
            picked: Picked::all(),
            terms: TermChoice::All,
        }
    }
}
