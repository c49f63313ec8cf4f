//! The error types of patterns.

ghost use Rattle.std.specs.Prelude.{◌≡◌};

use rx_term::BankFault;
use std::alloc::{AllocError, AllocFailed};
use thiserror::Error;

/// The error of [`crate::Pattern::of`] and of matching.
#[derive(Clone, Copy, PartialEq, Eq, Debug, Drop, Error)]
pub enum PatternFault {
    /// A placeholder is not one of the six.
    #[error("an unknown placeholder")]
    Unknown,
    /// All placeholders are known, and one has annotations.
    #[error("a placeholder with annotations")]
    Annotated,
    /// An allocation failed.
    #[error("out of memory")]
    Memory,
    /// The store is full.
    #[error("out of cells")]
    Full,
}

impl<T: Drop> From<AllocFailed<T>> for PatternFault {
    ghost use Rattle.rx_pattern.specs.declared.faults.PatternFault.TheVariants.{Memory};

    ghost from_gives = { λ _ e. e ≡ Memory };

    fn from(_error: AllocFailed<T>) -> Self {
        PatternFault::Memory
    }
}

impl From<AllocError> for PatternFault {
    ghost use Rattle.rx_pattern.specs.declared.faults.PatternFault.TheVariants.{Memory};

    ghost from_gives = { λ _ e. e ≡ Memory };

    fn from(_error: AllocError) -> Self {
        PatternFault::Memory
    }
}

impl From<BankFault> for PatternFault {
    ghost use Rattle.rx_pattern.specs.Faults.{pattern_fault};

    ghost from_gives = { λ fault e. e ≡ pattern_fault fault };

    fn from(fault: BankFault) -> Self {
        match fault {
            BankFault::Memory => PatternFault::Memory,
            BankFault::Full => PatternFault::Full,
        }
    }
}

/// The error of [`crate::Pattern::make`].
#[derive(Clone, Copy, PartialEq, Eq, Debug, Drop, Error)]
pub enum MakeFault {
    /// The number of terms is not the number of placeholders.
    #[error("a wrong number of terms")]
    Count,
    /// The term at index `at`, from 0, is the first one that does not fit its placeholder.
    #[error("the term at {at} is of a wrong kind")]
    Kind { at: usize },
    /// An allocation failed.
    #[error("out of memory")]
    Memory,
    /// The store is full.
    #[error("out of cells")]
    Full,
}

impl<T: Drop> From<AllocFailed<T>> for MakeFault {
    ghost use Rattle.rx_pattern.specs.declared.faults.MakeFault.TheVariants.{Memory};

    ghost from_gives = { λ _ e. e ≡ Memory };

    fn from(_error: AllocFailed<T>) -> Self {
        MakeFault::Memory
    }
}

impl From<BankFault> for MakeFault {
    ghost use Rattle.rx_pattern.specs.Faults.{make_fault};

    ghost from_gives = { λ fault e. e ≡ make_fault fault };

    fn from(fault: BankFault) -> Self {
        match fault {
            BankFault::Memory => MakeFault::Memory,
            BankFault::Full => MakeFault::Full,
        }
    }
}
