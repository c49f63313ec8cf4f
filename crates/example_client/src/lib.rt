//! Example clients of the public crates, as a language workbench writes them, for any term store.
//!
//! Each function is a small task with a contract that follows from those of the crates that it
//! calls: build, print and read a term ([`texts`]), rewrite it with two patterns ([`rewriting`]),
//! keep one term and free the rest ([`keeping`]), evaluate the terms of a specification
//! ([`evaluating`]), and answer one request after another with an engine that stays ([`staying`]).
//! The error types are in [`faults`].
//!
//! ```text
//! let checked = specification_of(alloc, text)?;
//! let mut engine = engine_over(alloc, checked, bank)?;
//! if let Some(text) = own_value_text(alloc, &mut engine, 0, 1_000_000)? {
//!     // the printed normal form of the first EVAL term
//! }
//! ```
//!
//! **Invariant.** A term that has to survive an evaluation or a collection is protected. Everything
//! else may be freed by the next call that evaluates.
//!
//! **Cost.** That of the crates that are called: linear in the sizes of texts and terms, and for an
//! evaluation bounded by its step limit.
#![tactic(auto, using(rx_term::proofs::StoreLemmas::bank_steps))]

pub mod evaluating;
pub mod faults;
pub mod keeping;
pub mod rewriting;
pub mod staying;
pub mod texts;

pub use faults::WorkFault;
