//! Finds the rule whose left-hand side matches a term.
//!
//! A [`Matcher`] is built once for a checked specification and the symbols of one term store. It
//! compiles the left-hand sides into matching trees: a [`Forest`] of [`Node`]s, each of which tests
//! the symbol of one register or tries a rule. Registers hold the subterms that were reached so
//! far; they are on the caller's value stack, above the arguments of the call.
//!
//! ```text
//! let matcher = Matcher::build(alloc, &checked, &links)?;
//! let mut values = SmallVec::new(..);
//! if let Some(rule) = matcher.next(&bank, term, 0, &mut values)? {
//!     // values: those of the rule's variables, in the order of their first occurrence
//! }
//! ```
//!
//! **Which rule.** [`Matcher::next`] returns the first rule, in the order of the text from a given
//! number on, whose left-hand side matches. Conditions are not evaluated here. A matcher may only
//! be used with the store whose symbols it was built with.
//!
//! **Inside a run.** [`Matcher::glance`] is the fast path over the first tree of a symbol;
//! [`Matcher::find_others`] and [`Matcher::find`] do the rest. [`settle`] then moves the values of
//! the rule's variables to their final positions, as one parallel move.
//!
//! **Cost.** A search visits each node of a tree at most once, and rules with common symbols share
//! the nodes that test these. A symbol has one tree for all its rules, unless that would be too
//! large (65,536 nodes, or more work than a limit that grows with the left-hand sides): then it has
//! a tree for each rule. The only error is out of memory.
#![tactic(auto)]

mod build;
mod chain;
mod forest;
mod grow;
mod leaves;
mod marks;
mod matcher;
mod next;
mod parts;
mod path;
mod places;
mod push;
mod registers;
mod rows;
mod settling;
mod shares;
mod switch;
mod trees;
mod write;

pub use forest::{Child, Forest, Glance, Hit, Node, Place, Values};
pub use matcher::{LeftSide, Matcher};
pub use parts::{Code, CodeRow, Part, Parts};
pub use places::Places;
pub use settling::{move_down, settle, settle_over};
