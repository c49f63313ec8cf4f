//! Prints annotated terms for readers: over several lines, or as a shared graph for Graphviz.
//!
//! [`write_indented`] prints a term with a line break after each opening mark and each comma and
//! before each closing mark. With a width, terms that fit on their line are not broken.
//! [`write_graph_to`] writes a graph with a node for each different part of a term, and an edge to
//! each of its own parts.
//!
//! ```text
//! let indentation = Indentation { indent: 2, width: Some(8) };
//! write_indented(alloc, &bank, t, indentation, &mut out)?; // f(a,[1,2]), which has 10 bytes:
//! // f(
//! //   a,
//! //   [1,2]
//! // )
//! ```
//!
//! [`run_aterm_indented`] and [`run_share_dot`] read the text of a term and write one of the two
//! forms; the graph may also be that of a table's term. [`Look`] is the form for runs of `rx_run`.
//!
//! **Meaning.** The indented text spells the same term as its printed form, and a whole graph has
//! exactly one node for each different part. Module [`laws`] has these properties.
//!
//! **Cost.** Indented text takes time in proportion to its length, which grows with the depth of
//! the term; nothing recurses on a term. With a width, each term that starts a line is first printed
//! into memory, but at most one byte beyond the width. A graph takes expected time in proportion to
//! its nodes. If a term has more parts than the limit of nodes, the first parts are written, and the
//! number of others.
#![tactic(auto)]

mod drawing;
mod graph;
mod indented;
mod labels;
pub mod laws;
mod layout;
mod naming;
mod runs;

pub use drawing::{Extent, write_graph_to};
pub use indented::{write_indented, write_indented_to};
pub use layout::Indentation;
pub use runs::{Look, run_aterm_indented, run_share_dot};
