//! The error type of a symbol table.

use thiserror::Error;

/// The error of adding a symbol: an allocation failed.
#[derive(Clone, Copy, PartialEq, Eq, Debug, Drop, Error)]
pub enum NamesFault {
    /// An allocation failed.
    #[error("out of memory")]
    Memory,
}
