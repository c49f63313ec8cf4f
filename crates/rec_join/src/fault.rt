//! The error type of joining.

use thiserror::Error;

/// Why several texts have no joined text. Parts are counted from 0.
#[derive(Debug, Drop, Error)]
pub enum JoinFault {
    /// There is no part.
    #[error("no specification")]
    Empty,
    /// This part is the first that is not a specification: it has more than 16,777,216 bytes.
    #[error("part {part} is too long")]
    Long { part: usize },
    /// This part is the first that is not a specification: it is outside the grammar. `at` is the
    /// offset of its syntax error.
    #[error("part {part} is outside the grammar at {at}")]
    Grammar { part: usize, at: u32 },
    /// The joined text has more than 16,777,216 bytes.
    #[error("the joined text is too long")]
    TooLong,
    /// The joined text does not spell the specification of the parts. This is a defect of this
    /// crate; no input is known that leads to it.
    #[error("the joined text differs from its parts")]
    Mismatch,
    /// An allocation failed.
    #[error("out of memory")]
    Memory,
}
