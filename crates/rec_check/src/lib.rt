//! Checks specifications: reports all errors, or warnings.
//!
//! [`examine`] returns all errors or warnings of a text as [`Diagnostic`] values. [`run_check`]
//! reads a specification and writes one line for each; [`check_text`] does the same for a text in
//! memory. If the specification is rejected, they are all words at which it violates one of the
//! rules `S1` to `S11`, where the rule can be judged ([`judged_words`]): first the error that
//! evaluation reports, then the others in the order of the text. Otherwise they are warnings
//! ([`warnings`]): unreachable rules (`W1`), rules that cannot match (`W2`), missing cases (`W3`),
//! unused declarations (`W4`) and used operators without rules (`W5`). The comment
//! `% recw: allow W3 lexi` silences the warning `W3` for the word `lexi`.
//!
//! ```text
//! match run_check(alloc, b"add.rec", &mut file, &mut out)? {
//!     Judgement::Good => { /* nothing was written */ }
//!     Judgement::Warned | Judgement::Refused => { /* one line for each diagnostic */ }
//! }
//! ```
//!
//! **What is proved.** Each line is specified by the definitions in `specs`: words, order, location
//! and text. The exception is `W3`. Each call that is shown has well-sorted ground arguments without
//! unused operators, and no left-hand side matches it; but that every missing case is found is not
//! promised.
//!
//! **Errors.** If an allocation fails, nothing has been written. If a read or a write fails, the
//! stream is not used again. After a failed write, the output is a prefix of the specified lines.
//!
//! **Cost.** Linear in the text for rejected specifications, times the logarithm of the number of
//! diagnostics. For `W1` and `W2`, each left-hand side and each of its arguments is compared with the
//! rules without conditions whose least frequent symbol it has; if it has more than 256 symbols and
//! variables, with the rules of its own symbol. The search for `W3` stops after 2,000,000
//! comparisons, and is left out if there are more than 100,000 sorts, symbols or rules.
#![tactic(auto)]

mod broken;
mod calls;
mod errors;
mod fillings;
mod filters;
mod finding;
pub mod laws;
mod lines;
mod located;
mod matching;
mod names;
mod order;
mod printed;
mod rewriting;
mod runs;
mod scope;
mod silenced;
mod spots;
#[cfg(test)]
mod tests;
mod uncovered;
mod unused;
mod warned;
mod words;

pub use broken::judged_words;
pub use calls::uncovered_calls;
pub use finding::{Diagnostic, Kind, Rule};
pub use located::Word;
pub use runs::{Examination, Judgement, check_text, examine, run_check};
pub use spots::{Cursor, Spot};
pub use unused::{ruleless, unused_sorts, unused_symbols, unused_variables};
pub use warned::warnings;
