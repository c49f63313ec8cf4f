//! The C library: a term store with rewriting, as functions that C calls.
//!
//! `clib/percalesilt.h` declares these functions, and `docs/C.md` describes them. A handle, of the
//! type `psilt_core::Psilt`, is closed or open; an open one owns a term store, patterns and at most
//! one specification. Terms, symbols and patterns are numbers of one handle.
//!
//! ```text
//! psilt p = PSILT_INIT;
//! psilt_term term;
//! size_t length;
//!
//! psilt_open(&p, 1048576);
//! psilt_read(&p, (const uint8_t *)"f(1,[])", 7, &term);
//! psilt_print(&p, term, &length);
//! psilt_close(&p);
//! ```
//!
//! **Return codes.** Each function, except `psilt_version_number`, returns 0 on success and
//! otherwise the number of a `psilt_core::Fault`. It returns 3 if the handle is closed, except
//! `psilt_open`. Output parameters are written only if the code is 0.
//!
//! **Invariants.** Each function converts numbers to terms and results to codes; `psilt_core` does
//! the work. The contracts relate the handle before and after a call by the definitions of that
//! crate.
//!
//! **Cost.** That of the function of `psilt_core` that is called, and constant time.
#![tactic(auto)]

mod answer;
pub mod evaluating;
pub mod handle;
pub mod keeping;
pub mod making;
pub mod matching;
pub mod naming;
pub mod reading;
pub mod stopping;
pub mod tables;
pub mod texts;
pub mod version;
