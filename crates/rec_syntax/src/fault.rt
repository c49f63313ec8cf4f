//! The error type of the reader.

use thiserror::Error;

/// The error of [`crate::read_spec`] and [`crate::read_owned`]: why there is no specification.
#[derive(Debug, Drop, Error)]
pub enum SyntaxFault {
    /// The text has more than 16,777,216 bytes.
    #[error("the text is too long")]
    Long,
    /// The text is outside the grammar. `at` is the offset in bytes of the first token that no text
    /// of the grammar has after the tokens before it.
    #[error("the text is outside the grammar at {at}")]
    Grammar { at: u32 },
    /// An allocation failed.
    #[error("out of memory")]
    Memory,
}
