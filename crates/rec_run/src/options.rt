//! Limits and output options of a run.

ghost use Rattle.std.specs.Prelude.{◌≤◌, ◌^◌};

use rx_run::InputForm;
use std::alloc::Global;

/// Limits of a run, and whether steps are printed.
#[derive(Clone, Copy, Debug, Drop)]
pub struct RunOptions {
    /// The step limit of each term, 0 to 10^18.
    pub steps: u64,
    /// The capacity of the store in cells, 1 to 2^30.
    pub cells: u32,
    /// The capacity of the memo table in results, 0 to 2^20; 0 turns it off.
    pub memo: u32,
    /// Garbage is collected at the latest after this number of new cells, 1 to 2^30.
    pub reclaim: u32,
    /// Whether a tab and the number of steps follow each value.
    pub count: bool,
    ghost steps_in_range: { steps ≤ 10 ^ 18 },
    ghost cells_in_range: { (1 ≤ cells) × (cells ≤ 2 ^ 30) },
    ghost memo_in_range: { memo ≤ 2 ^ 20 },
    ghost reclaim_in_range: { (1 ≤ reclaim) × (reclaim ≤ 2 ^ 30) },
}

/// The end of the limit line of an input term, after `!limit N` or `!bytes N`.
#[derive(Clone, Copy, Debug, Drop, PartialEq, Eq)]
pub enum LimitLines {
    /// Nothing: `!limit 50`.
    Bare,
    /// The annotations of the input term: `!limit 50{id(2)}`.
    Annotated,
}

/// The form of values.
#[derive(Clone, Copy, Debug, Drop, PartialEq, Eq)]
pub enum ValueForm {
    /// The text of the value, of any length.
    Plain,
    /// The text of the value if it has at most this number of bytes, or else a limit line:
    /// `!bytes 100`.
    Within(u64),
    /// The table of the value, of any length, with one element for each part that it shares.
    Table,
}

/// The terms of a run that are evaluated and have a line.
#[derive(Clone, Copy, Debug, Drop, PartialEq, Eq)]
pub enum TermChoice {
    /// All terms of the specification, and then all input terms.
    All,
    /// The input terms.
    Input,
    /// The term with this number, counted from 1 over the terms of the specification and then the
    /// input terms. If there are fewer terms, no term.
    Nth(u64),
}

/// All settings of a run.
#[derive(Clone, Copy, Debug, Drop)]
pub struct RunSettings {
    /// Limits, and whether steps are printed.
    pub options: RunOptions,
    /// The form of limit lines of input terms.
    pub limits: LimitLines,
    /// The form of values.
    pub form: ValueForm,
    /// Whether a tab and the number of cells follow each value, after the number of steps.
    pub sizes: bool,
    /// The call-depth limit in frames. With `None`, only memory limits the depth.
    pub depth: Option<u32>,
    /// The terms that are evaluated.
    pub terms: TermChoice,
    /// The form in which input terms are read.
    pub input: InputForm,
}

/// The allocator and the settings of a run.
#[derive(Clone, Copy, Drop)]
pub(crate) struct Run {
    /// The allocator.
    pub(crate) alloc: Global,
    /// The settings of the run.
    pub(crate) settings: RunSettings,
}
