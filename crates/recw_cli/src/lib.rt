//! The command line of the program `recw`: its arguments, its help, and its explanations of errors.
//!
//! [`read_words`] parses the command-line arguments. It returns an [`Invocation`], whose
//! [`Request`] names the command with its options in range, or it prints the help or a usage error
//! and returns the exit status. The functions `explain_..` write the lines of `--explain`: the
//! location of an error, its description, the expected tokens, and the source line with a caret.
//! [`list_findings`] does this for the findings of a check, or writes them as JSON. All of them take
//! what they say from one diagnosis.
//! [`find_unnamed`] finds a rule or a symbol that an option names and the specification does not
//! have; [`text_of_rule`] makes the text of a rule on one line.
//! [`Console`], [`Guarded`] and [`Prompt`] are wrappers of a writer.
//!
//! ```text
//! match read_words(alloc, words, &mut out, &mut err) {
//!     Asked::End(status) => status,
//!     Asked::Run(invocation) => { /* run invocation.request */ }
//! }
//! ```
//!
//! **Invariants.** The numbers in [`EvalOptions`] are in the ranges that the help states. Whatever
//! an argument or an input text contains, these functions return. What they write is not specified
//! by contracts; `recw`'s tests and the scripts in `tests` compare it.
//!
//! **Errors.** If an allocation fails while a detail of an explanation is computed, the detail is
//! left out. If a write fails, the function returns the writer's error and writes nothing more.
//!
//! **Cost.** Linear in the arguments. An explanation is linear in the text of the rejected input,
//! times a small constant: a hint about a syntax error reads the text with each change that it
//! tries, at most a dozen times.
#![tactic(auto)]

mod arguments;
mod asked;
mod broken_part;
mod command;
mod console;
mod diagnosis;
mod elements;
mod explain;
mod given;
mod guarded;
mod hint;
mod item;
mod json;
mod listing;
mod named;
mod names;
mod near;
mod nodes;
mod options;
mod place;
mod prompt;
mod refusals;
mod report;
mod request;
mod rule_text;
mod selection;
pub mod status;
mod text_name;
mod unplaced;
mod wrong;

pub use asked::{Asked, read_words};
pub use console::{Audience, Console};
pub use elements::Which;
pub use explain::{
    NamedRefusal, Texts, explain_given, explain_part, explain_place, explain_text, explain_trouble,
    explain_whole,
};
pub use given::Given;
pub use guarded::Guarded;
pub use hint::{Change, Hint, find_hint, find_term_hint};
pub use item::Item;
pub use listing::{Finding, Form, Listed, PartPlace, list_findings};
pub use options::{CheckOptions, EvalOptions, RulePlace, Shown, TermChoice};
pub use prompt::Prompt;
pub use report::failed_start;
pub use request::{Invocation, Request, STANDARD_INPUT};
pub use rule_text::text_of_rule;
pub use selection::{Location, Unnamed, count_terms, find_unnamed};
pub use text_name::TextName;
