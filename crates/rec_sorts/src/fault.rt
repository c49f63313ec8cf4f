//! The error types of the checks.

use thiserror::Error;

/// The error of [`crate::check`]: why a specification is rejected.
#[derive(Debug, Drop, Error)]
pub enum SortFault {
    /// A rule is violated: the lowest-numbered one, from 1 to 11, with the least offset in bytes of
    /// a violation.
    #[error("rule {number} is broken at {at}")]
    Rule { number: u8, at: u32 },
    /// An allocation failed.
    #[error("out of memory")]
    Memory,
}

/// The error of [`crate::check_terms`]: why input terms are rejected.
#[derive(Debug, Drop, Error)]
pub enum TermsFault {
    /// A rule is violated: the lowest-numbered one, from 1 to 6.
    #[error("rule {number} is broken")]
    Rule { number: u8 },
    /// An allocation failed.
    #[error("out of memory")]
    Memory,
}
