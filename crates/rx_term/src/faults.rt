//! The error types of term stores.

use thiserror::Error;

/// Why a store could not make a term, a symbol or room.
#[derive(Clone, Copy, PartialEq, Eq, Debug, Drop, Error)]
pub enum BankFault {
    /// An allocation failed.
    #[error("out of memory")]
    Memory,
    /// The store is full: all cells up to the limit are in use.
    #[error("out of cells")]
    Full,
}

/// A reference is protected 65,535 times, which is the most.
#[derive(Clone, Copy, PartialEq, Eq, Debug, Drop, Error)]
#[error("protected too often")]
pub struct RootsFull;
