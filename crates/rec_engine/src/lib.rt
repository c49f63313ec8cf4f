//! The rewriting engine: evaluates terms of a REC specification over any term store.
//!
//! [`Engine`] owns a checked specification, its compiled rules and a store (`B: TermBank`).
//! Rewriting is leftmost-innermost with the rules in the order of the text. [`Engine::normalise`]
//! returns the normal form and the exact number of steps, or [`Outcome::Limit`] if the step limit
//! is too low. To run a whole specification from bytes to output lines, use `rec_run`.
//!
//! ```text
//! let options = Options { memo: 65_536, reclaim_every: 262_144 };
//! let mut engine = Engine::new(alloc, checked, bank, options)?;
//! let term = engine.eval_term(0)?;
//! match engine.normalise(term, 1_000_000)? {
//!     Outcome::Value { term, steps } => { /* read `term` through engine.bank() */ }
//!     Outcome::Limit => { /* more steps are needed */ }
//! }
//! ```
//!
//! **Design.** Rules are compiled once to a flat array of instructions (`compile`), which a stack
//! machine runs (`vm`). Arguments, bindings and results share one value stack (`heap.work`), and
//! calls push frames on a second one, so nothing recurses on a term. Tail calls push no frame.
//!
//! **Shared subterms.** An input term may share subterms, and so have many more occurrences of
//! subterms than the store has cells. Arguments without operators are values, and are never
//! compiled if the term has more than 1,048,576 occurrences: `f(v)` takes no longer because `v` has
//! 2^200 leaves in a few hundred cells. Any other term is compiled, with an instruction for each
//! occurrence; more than `u32::MAX` are out of memory at once. [`Engine::given_from`] copies a term
//! of another store by its different subterms.
//!
//! **Memo table.** It stores results of repeated calls. A hit costs as many steps as the first
//! evaluation, so it saves time and never changes an outcome.
//!
//! **Lifetime of terms.** A call that evaluates or makes terms may collect garbage. A term that is
//! passed in or returned lives until the next such call; [`Engine::protect`] keeps it longer.
//!
//! **Errors.** After an [`EngineFault`] the engine can be used again, and protected terms are
//! intact. `Room` is returned only if every cell is in use and needed and the memo table is empty.
#![tactic(auto)]

mod compile;
mod engine;
mod heap;
mod terms;
mod vm;

pub use engine::counting::{RuleCount, Tally};
pub use engine::errors::EngineFault;
pub use engine::limits::Limits;
pub use engine::watch::{Control, Unwatched, Watch};
pub use engine::{Controlled, Engine, Options, Outcome, Prepared};
