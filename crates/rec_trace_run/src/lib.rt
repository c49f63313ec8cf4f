//! Traces of whole specifications: texts in, the lines of their rewrites out.
//!
//! [`run_trace`] reads a specification and, if there are some, input terms. It evaluates each EVAL
//! term and then each input term, and writes a line for each selected rewrite and for the value.
//! [`TraceOptions`] has the limits of the run and the form of the lines. [`Picked`] selects
//! rewrites by their rule or symbol, and the first and last ones of these.
//!
//! ```text
//! let picked = Picked { place: None, symbol: Some(b"insert"), first: Some(1), last: Some(1) };
//! let options = TraceOptions { run, whole: false, width: Some(60), picked };
//! let report = run_trace(alloc, &mut spec, &mut terms, &mut out, options)?;
//! ```
//!
//! It writes these lines for a term. Each rewrite begins with the location of its rule:
//!
//! ```text
//! 22:3: insert(s(z),nil) -> cons(s(z),nil)
//! ... 3 more
//! 22:3: insert(s(s(z)),nil) -> cons(s(s(z)),nil)
//! cons(z,cons(s(z),cons(s(s(z)),nil)))
//! ```
//!
//! **Invariants.** The specified output depends on the texts, the step limit and the form of the
//! lines only (`specs/Traces.antt`); store capacity and collection interval do not occur in its
//! definition. A run that fails has written a prefix of it. A stream that has failed is not used
//! again. The module [`laws`] relates the lines of traces to those of evaluation.
//!
//! **Cost.** Each text is read whole before anything is evaluated. The line of a rewrite is made
//! only if it is written, and no line is kept. A term with lines at the end is traced twice: the
//! first time counts its selected rewrites.
#![tactic(auto)]

mod beginning;
mod due;
mod ending;
mod fired;
mod firings;
mod given;
pub mod laws;
mod next;
mod options;
mod page;
mod picked;
mod runs;
mod section;
mod steps;
mod telling;
mod terms;

pub use options::TraceOptions;
pub use picked::{Picked, RulePlace};
pub use rec_trace::{Spot, rule_spots};
pub use runs::run_trace;
