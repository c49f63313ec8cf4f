//! Sessions: a process that keeps one engine answers requests, with one response line for each.
//!
//! [`run_serve`] reads a specification and then requests, one input term on each line, or one table
//! whose term is the input term. [`converse`] answers requests over an engine of the caller, and
//! [`answer`] a single request. A [`Listener`] receives the requests that are rejected.
//!
//! ```text
//! let form = ValueForm::Plain;
//! let settings = ServeSettings { options, form, depth: Some(10_000), input: InputForm::Term };
//! let session = Session { alloc, settings };
//! match run_serve(session, &mut spec, &mut requests, &mut out, &mut Deaf)? {
//!     Ending::Done => { /* one response for each request */ }
//!     Ending::Refused(_) => { /* one error line, such as `!spec G` */ }
//! }
//! ```
//!
//! | Response | Meaning |
//! |---|---|
//! | a term | its value, with the annotations of the input term |
//! | `!limit 50000` | the step limit is too low |
//! | `!term L1`, `!term A`, `!term T3` | rejected: too long, not a term, violates a rule |
//! | `!term R1`, `!term R2` | rejected: read as a table, but not a table |
//! | `!memory`, `!cells`, `!depth` | out of memory, out of cells, call-depth limit reached |
//!
//! **Invariants.** The specified response to a request depends on the specification, the request,
//! the step limit, `count` and the forms of requests and values only. Lines as in the last row of
//! the table are not specified responses: they report that a request ran out of a resource, and do
//! not end the session. An error of a session is a [`ServeFault`]; it counts the responses that were
//! written whole. All output is flushed before each read. A stream that has failed is not used
//! again.
//!
//! **Cost.** Each request is read in a store without terms, and each different subterm of its term is
//! copied to the store of the engine once. The first store is replaced once more than 65,536 bytes of
//! requests were read in it. At most 16,777,217 bytes of a request are kept. If the table of a value
//! with annotations is written, its cells are copied to a store for it first.
#![tactic(auto)]

mod answers;
mod conversation;
mod ending;
pub mod laws;
mod lines;
mod read_ahead;
mod request;
mod requests;
mod runs;
mod settings;
mod workspace;

pub use answers::{Answered, answer};
pub use conversation::{Deaf, Listener, converse};
pub use ending::{Refusal, ServeFault};
pub use runs::run_serve;
pub use settings::{ServeSettings, Session};
