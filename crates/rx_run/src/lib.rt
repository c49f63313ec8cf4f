//! Runs on annotated terms and patterns, and the parts that all runs have in common.
//!
//! A run reads bytes, writes lines and ends. [`print_term`] and [`share_term`] run on the text of
//! one term, [`match_term`] matches a pattern with a term, and [`make_term`] fills a pattern with
//! arguments. [`run_on_term`] also reads tables ([`InputForm`]), and writes tables and lines of a
//! limited length ([`TermLines`]). An input that is rejected makes the run write one error line, such as `!term A`. Runs
//! of whole specifications are in `rec_run`, which uses this crate.
//!
//! ```text
//! let ending = match_term(alloc, b"f(<term>)", &mut input, &mut out)?.ending;
//! if let Some(place) = ending.place() {
//!     // offset of the error: place.at
//! }
//! ```
//!
//! | Return value | Written |
//! |---|---|
//! | `Ok(Ending::Done)` | the specified lines, exactly |
//! | `Ok(Ending::Refused(refusal))` | the error line of `refusal`, exactly |
//! | `Err(fault)` | a prefix of the specified output |
//!
//! **Variants.** Functions that end in `_over` use a term store of the caller; the others create
//! one with up to 2^30 cells. Functions that start with `run_` return a [`Finish`], and those that
//! end in `_at` store the offset of an error.
//!
//! **Streams.** [`read_all_from`] reads at most one byte more than the greatest length of a text,
//! [`LIMIT`]. A reader or writer that has failed is not used again.
//!
//! **Cost.** A text is held in memory as a whole, and its terms share equal subterms. Output is not
//! buffered here.
#![tactic(auto)]

mod ending;
pub mod laws;
mod pattern;
mod refusal;
mod refused_items;
mod shorthand;
mod streams;
mod term;
mod writing;

pub use ending::{Finish, Named, Place, RunFault, Source};
pub use pattern::making::{make_term, make_term_over};
pub use pattern::matching::{MatchReport, match_term, match_term_over};
pub use refusal::{Ending, Reading, Reason, Refusal};
pub use refused_items::{Misfit, refused_argument};
pub use shorthand::{
    run_aterm, run_aterm_at, run_make, run_make_at, run_match, run_match_at, run_share,
    run_share_at,
};
pub use streams::{LIMIT, read_all_from};
pub use term::output::{TermLines, TermOutput, keep_alone};
pub use term::reading::{InputForm, MOST_CELLS, empty_bank, parse, parse_input};
pub use term::runs::{TermRun, print_term, run_on_term, run_on_term_over, share_term};
pub use writing::{
    put_numbered, put_numbered_to, write_line_to, write_refusal_to, write_steps, write_steps_to,
};
