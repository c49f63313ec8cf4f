//! Tables: terms written with one element for each part that they share.
//!
//! The value of `dup(dup(...))` can have 2^60 leaves in a few hundred cells. Its text is too long
//! to be written, but its table has one element for each different part:
//!
//! ```text
//! write_table_to(alloc, &bank, term, &mut out)?; // [node(leaf,leaf),node(<0>,<0>),..]
//! let again = read_table(alloc, &text, &mut bank)?; // the term
//! ```
//!
//! **Functions.** [`write_table_to`] prints the table of a term, and [`read_table`] makes the term of
//! the text of a table; [`open_nodes`] does so for a caller that has the nodes of the text already.
//! [`copy_term`] copies a term by its parts into another store, and [`count_cells`] returns the number
//! of cells of a term.
//!
//! **Form.** A table is an ordinary term: a list whose last element is the term. In an element, a
//! placeholder `<k>` is the element with the number k, counted from 0, which comes earlier in the
//! list; a placeholder `<t>` of the term itself is written `<[t]>`. So whatever reads and prints
//! terms reads and prints tables. The table that is printed is the one table of the term: it has an
//! element for each subterm that is used at least twice by the different subterms, and whose text has
//! more than 8 bytes, each after those inside of it, from left to right. [`read_table`] reads any
//! table.
//!
//! **Laws.** Opening the table of a term gives the term, the table is a valid term, and its elements
//! but the last are distinct, used twice or more, and no more than the parts (module [`laws`]).
//! `specs/Table.antt` and `specs/Opened.antt` define tables and their terms.
//!
//! **Errors.** Out of memory, also if a term that is printed or copied has more than 2,147,483,648
//! parts; out of cells; and [`TableFault`] for a text that is too long, a syntax error, or a rule of
//! tables that the text breaks. Terms are only added; after an error those that were made so far stay
//! until garbage is collected.
//!
//! **Cost.** Printing and copying take time in proportion to the cells of the given term and not to
//! its occurrences: each different subterm is visited once, and its reference is looked up once for
//! each use. Only a tail that two lists have in common is walked once for each list. For a copy this
//! is expected time, since the other store looks up each term that it makes. References are looked up
//! in pages of 4 KB: one for each 1,024 references among which the term has a subterm, and 24 bytes
//! for each 1,024 references up to the greatest, which are written in that much time. Reading takes
//! expected time in proportion to the text, without recursion, and makes only the cells of the term: a
//! stack has the terms of what was read, and for each the number of elements that have to come before
//! it.
#![tactic(auto)]

mod copy;
mod faults;
pub mod laws;
mod made;
mod reading;
mod shared;
mod table;
mod term_index;
#[cfg(test)]
mod tests;
mod walk;

pub use copy::{copy_term, count_cells};
pub use faults::TableFault;
pub use reading::{open_nodes, read_table};
pub use table::write_table_to;
