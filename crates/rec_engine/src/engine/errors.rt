//! Errors of the engine.

use thiserror::Error;

/// Why the engine returns no outcome.
#[derive(Clone, Copy, PartialEq, Eq, Debug, Drop, Error)]
pub enum EngineFault {
    /// An allocation failed.
    #[error("out of memory")]
    Memory,
    /// The store is full, and a collection frees no cell.
    #[error("out of cells")]
    Room,
    /// The number of pending calls has reached the depth limit.
    #[error("too deep")]
    Deep,
}
