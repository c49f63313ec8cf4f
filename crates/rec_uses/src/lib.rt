//! Lists the words of a specification with their declarations.
//!
//! [`run_uses`] reads a specification and writes one line for each word but its name, in the order
//! of the text: location, kind (sort, constructor, operator, variable or `undeclared`), word,
//! location of its declaration (`-` if it has none) and its sorts. If [`UsesSettings::at`] is a
//! location, only the words that name the same as the word there are listed: those that a renaming
//! changes. The specification may violate the rules S1 to S11: a word names the first declaration
//! with its bytes.
//!
//! ```text
//! let settings = UsesSettings { name: b"add.rec", at: None };
//! match run_uses(alloc, &settings, &mut file, &mut out)? {
//!     Outcome::Listed => { /* add.rec:7:3: operator plus: 7:3: Nat Nat -> Nat .. */ }
//!     Outcome::Refused(text) => { /* not in the grammar: nothing was written */ }
//! }
//! ```
//!
//! **Proved.** The lines are those of the definitions in `specs`. If a text spells a specification,
//! the list has exactly its words that are not reserved, except the name, in their order (module
//! [`laws`]).
//!
//! **Errors.** If an allocation or a read fails, nothing was written. If a write fails, a prefix of
//! the lines was written. A failed stream is not used again.
//!
//! **Cost.** Expected time is linear in the text and the lines: each word is hashed once, and the
//! locations take one pass over the text. The list and the descriptions of the declarations are in
//! memory, the lines are not.
#![tactic(auto)]

mod choosing;
pub mod laws;
mod lines;
mod order;
mod runs;
mod spots;
mod tables;
mod uses;
mod words;

pub use runs::{Outcome, UsesSettings, run_uses};
pub use spots::Spot;
