//! Traces of an evaluation: the rewrites outside of conditions, in their order.
//!
//! A [`Tracer`] evaluates one term over an engine and stops at each rewrite. [`Tracer::next_step`]
//! returns the rule, the redex and the contractum of the next rewrite, or the value, or that the
//! step limit is too low. [`Tracer::next_event`] does not build the contractum; [`Tracer::rewrite`]
//! builds it when it is needed, and [`Tracer::whole`] builds the whole term. [`firing_line`] and
//! [`whole_line`] make lines of these, with the locations that [`rule_spots`] returns.
//!
//! ```text
//! let mut tracer = Tracer::of_eval(alloc, &mut engine, 0, steps)?;
//! while let Turn::Fired { rule, redex, contractum } = tracer.next_step(alloc, &mut engine)? {
//!     let margins = Margins { spot: spots[rule as usize], spent: steps - tracer.left(), look };
//!     let line = firing_line(alloc, engine.bank(), Rewrite { redex, contractum }, margins)?;
//! }
//! tracer.end(&mut engine);
//! ```
//!
//! **Which rewrites.** Evaluation is leftmost-innermost, with rules in the order of the text. The
//! rewrites of conditions are not part of the trace, but their steps are spent. The module [`laws`]
//! relates traces to evaluation and to rewriting.
//!
//! **Invariants.** A tracer protects its values as one list in the engine's store. Each call gets
//! the same engine, which is not called in between. The terms of an event may be freed by the next
//! call.
//!
//! **Errors.** `Memory`, or `Room` if the store is full and the memo table is empty; never `Deep`.
//! After an error or a limit, a tracer can only be ended.
//!
//! **Cost.** No function recurses on a term. [`Tracer::rewrite`] and [`Tracer::whole`] build their
//! terms anew at each call. A term that is cut to a width is not printed further than that.
#![tactic(auto)]

pub mod laws;
mod lines;
mod row;
mod saved;
mod sides;
mod spots;
mod tracer;

pub use lines::{Look, Margins, Spot, firing_line, spot_of, whole_line};
pub use spots::rule_spots;
pub use tracer::{Event, Rewrite, Tracer, Turn};
