//! Errors of a client that calls several crates: each error of a crate is one variant.

use rec_engine::EngineFault;
use rec_sorts::{SortFault, TermsFault};
use rec_syntax::SyntaxFault;
use rx_pattern::{MakeFault, PatternFault};
use rx_term::{BankFault, RootsFull};
use rx_text::{TextFault, WriteFault};
use std::alloc::AllocError;
use thiserror::Error;

/// The error of work with terms, patterns and specifications.
#[derive(Debug, Drop, Error)]
pub enum WorkFault {
    /// The store could not grow.
    #[error("{0}")]
    Bank(#[from] BankFault),
    /// A term is protected as often as possible.
    #[error("{0}")]
    Roots(#[from] RootsFull),
    /// The text of a term could not be read.
    #[error("{0}")]
    Text(#[from] TextFault),
    /// A term could not be printed.
    #[error("{0}")]
    Write(#[from] WriteFault),
    /// A term is not a pattern, or matching failed.
    #[error("{0}")]
    Pattern(#[from] PatternFault),
    /// No term was made from a pattern.
    #[error("{0}")]
    Make(#[from] MakeFault),
    /// The text of a specification could not be read.
    #[error("{0}")]
    Syntax(#[from] SyntaxFault),
    /// A specification violates a rule.
    #[error("{0}")]
    Rules(#[from] SortFault),
    /// A term is not one of the specification.
    #[error("{0}")]
    Terms(#[from] TermsFault),
    /// The engine reported an error.
    #[error("{0}")]
    Engine(#[from] EngineFault),
    /// An allocation failed.
    #[error("out of memory")]
    Memory,
}

impl From<AllocError> for WorkFault {
    fn from(_error: AllocError) -> WorkFault {
        WorkFault::Memory
    }
}
