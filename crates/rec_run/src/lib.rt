//! Runs of a specification: bytes of a specification and of input terms in, lines out.
//!
//! [`run_given`] reads a specification and, if there are some, input terms. It evaluates all terms,
//! or those that a [`TermChoice`] selects, and writes one line for each, or a single error line if
//! an input is rejected. [`run`] and [`run_at`] are short forms without settings and observer.
//! [`run_over`] runs over a store of the caller.
//!
//! ```text
//! let options = RunOptions { steps: 50_000, cells, memo: 65_536, reclaim: 262_144, count: true };
//! match run(alloc, &mut spec, Some(&mut terms), &mut out, options)? {
//!     Finish::Done => { /* one line for each term */ }
//!     Finish::Refused => { /* one error line, such as `!spec G` */ }
//! }
//! ```
//!
//! | Return value of [`run_given`] | Written |
//! |---|---|
//! | a report with `Ending::Done` | the specified lines, exactly |
//! | a report with `Ending::Refused` | the error line, exactly |
//! | a [`RunFault`] | a prefix of the specified output; `lines` counts its complete lines |
//!
//! **Invariants.** The specified output depends on the texts, the step limit, the form of lines and
//! the choice of terms only. Store capacity, memo table, collection interval and observer do not occur in its
//! definition (`specs/Output.antt`). These statements hold for readers and writers that describe
//! their bytes in contracts. A stream that has failed is not used again.
//!
//! **Parts.** To keep an engine, use [`read_spec_text`], [`read_given_from`], [`engine_over`] and
//! [`evaluate_within`]. Runs on single terms and patterns are re-exported from `rx_run`.
//!
//! **Cost.** Each text is read whole before anything is evaluated, up to 16,777,217 bytes. A value of
//! the form [`ValueForm::Plain`] is written without a copy, whatever its length. One of the form
//! [`ValueForm::Within`] is first printed to memory, up to one byte more than its bound. The table of
//! a value, and the number of its cells, take expected time in proportion to its cells, however long
//! its text is.
#![tactic(auto)]

pub mod laws;
mod observer;
mod options;
mod refused_items;
mod reporter;
mod shorthand;
mod spec;

pub use observer::{Observer, Profiler, unobserved};
pub use options::{LimitLines, RunOptions, RunSettings, TermChoice, ValueForm};
pub use rec_engine::{RuleCount, Tally, Unwatched, Watch};
pub use refused_items::refused_term;
pub use reporter::Reporter;
pub use rx_run::{
    Finish, Place, RunFault, run_aterm, run_aterm_at, run_make, run_make_at, run_match,
    run_match_at, run_share, run_share_at,
};
pub use shorthand::{run, run_at};
pub use spec::counts::Counts;
pub use spec::due::{EndedWithin, RunReport, end_run, refuse};
pub use spec::evaluated::engine_over;
pub use spec::evaluation::evaluate_within;
pub use spec::given::{run_given, run_over};
pub use spec::input_terms::{InputTerms, NoTerms};
pub use spec::lines::engine_fault;
pub use spec::outcome::{is_limit, write_notes};
pub use spec::reading::{Job, read_given_from, read_spec_text, read_spec_text_from};
pub use spec::window::{Window, window_of};
