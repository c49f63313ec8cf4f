//! Reports the stuck calls in the results of a run.
//!
//! A stuck call is an application of an operator in a normal form: no rule applies to it.
//! A [`StuckReport`] is a reporter for the observer of `rec_run::run_given`. It has a line for each
//! different call in each value:
//!
//! ```text
//! stuck: head(nil): no rule matches
//! stuck: pop(s(s(zero))): the conditions of 12:3, 13:3 fail
//! ```
//!
//! It is used like this:
//!
//! ```text
//! let reporter = StuckReport::new(alloc);
//! let mut observer = Observer { watch: Unwatched, profiler: Unwatched, reporter };
//! let report = run_given(alloc, &mut spec, &mut NoTerms, &mut out, settings, &mut observer)?;
//! // observer.reporter.lines: the lines of all values
//! ```
//!
//! **Lines.** A call comes after the calls inside of it, and calls come from left to right. Its
//! text has no annotations of its own and at most 60 bytes. The reason has the locations of all
//! rules whose left-hand sides match the call, or states that there are none.
//!
//! **Invariants.** The report does not change the output of the run. `specs/Stuck.antt` defines it:
//! the clause `told` of `run_given` is about the text `stuck_text` of each value.
//!
//! **Cost.** Each different application in a value is visited once. For each call, the rules of its
//! symbol are tried in order. The only errors are those of the run.
#![tactic(auto)]

mod applications;
mod fitting;
mod reasons;
mod report;
mod short_text;

pub use report::StuckReport;
