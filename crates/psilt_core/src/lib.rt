//! The work of a handle of the C library: a term store, a specification, patterns and a text.
//!
//! Each call of the library is a function of [`Work`]. It tests its arguments and returns a
//! [`Fault`] if one is not as required, so no sequence of calls breaks an invariant. [`Psilt`] is
//! the handle itself: a [`Work`], or closed. `fault::code` makes the number that C gets.
//!
//! ```text
//! let mut work = Work::new(alloc, 1_000_000)?;
//! work.specify(alloc, spec, 65_536, 262_144)?;
//! let term = work.read(alloc, b"add(s(zero),zero)")?;
//! let Normalised { term, steps } = work.normalise(alloc, term, 50_000)?;
//! let length = work.print(alloc, term)?; // the text is in work.text
//! ```
//!
//! **Parts.** [`Bank`] has the term store, the prepared engine of the specification and the symbols
//! that C has numbers for. `Patterns` has the patterns by number. The last printed text, the
//! bindings of the last match and the location of the last rejected text are fields of [`Work`].
//!
//! **Invariants.** The prepared engine and the numbered symbols belong to the term store. A closed
//! handle owns no work. Symbols are never freed; [`Work::limit_names`] limits their number.
//!
//! **Lifetime of terms.** `reclaim`, `normalise`, `call` and `eval_term` may collect garbage. A term
//! lives until then; [`Work::protect`] keeps it longer. A freed reference is reported as `Stale`,
//! but its number may be that of another term later.
//!
//! **Stops.** [`Work::obey`] shares a flag between two handles, and [`Work::request_stop`] sets it,
//! also while the other handle evaluates. Contracts see nothing of the flag. What a control does to
//! an evaluation is the contract of [`Work::normalise_controlled`].
//!
//! **Cost.** To read an argument takes time linear in its index. At the limit of names, the first
//! lookup of a symbol makes a table of all symbols; later lookups use it until a symbol is added.
#![tactic(auto, using(rx_term::proofs::StoreLemmas::bank_steps))]

mod bank;
pub mod calling;
pub mod evaluating;
pub mod fault;
pub mod handle;
mod held;
mod judging;
pub mod keeping;
mod limited;
mod loose;
pub mod making;
pub mod matching;
mod naming;
mod patterns;
pub mod reading;
mod running;
mod spelling;
pub mod stopping;
pub mod tables;
pub mod texts;
pub mod work;

pub use bank::Bank;
pub use fault::Fault;
pub use handle::Psilt;
pub use work::Work;
