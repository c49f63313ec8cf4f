//! The errors of reading and printing.

ghost use Rattle.std.specs.Prelude.{◌≡◌};

use rx_term::BankFault;
use std::alloc::{AllocError, AllocFailed};
use thiserror::Error;

/// Why a text was not read.
#[derive(Clone, Copy, PartialEq, Eq, Debug, Drop, Error)]
pub enum TextFault {
    /// The text has more than 16,777,216 bytes.
    #[error("the text is too long")]
    Long,
    /// The text has a syntax error: the token at this offset is the first that no valid text has
    /// there.
    #[error("the text is outside the grammar at {at}")]
    Grammar { at: u32 },
    /// An allocation failed.
    #[error("out of memory")]
    Memory,
    /// The term store is full.
    #[error("out of cells")]
    Full,
}

impl<T: Drop> From<AllocFailed<T>> for TextFault {
    ghost use Rattle.rx_text.specs.declared.faults.TextFault.TheVariants.{Memory};

    ghost from_gives = { λ _ e. e ≡ Memory };

    fn from(_error: AllocFailed<T>) -> Self {
        TextFault::Memory
    }
}

impl From<AllocError> for TextFault {
    ghost use Rattle.rx_text.specs.declared.faults.TextFault.TheVariants.{Memory};

    ghost from_gives = { λ _ e. e ≡ Memory };

    fn from(_error: AllocError) -> Self {
        TextFault::Memory
    }
}

impl From<BankFault> for TextFault {
    ghost use Rattle.rx_text.specs.Faults.{text_fault};

    ghost from_gives = { λ fault e. e ≡ text_fault fault };

    fn from(fault: BankFault) -> Self {
        match fault {
            BankFault::Memory => TextFault::Memory,
            BankFault::Full => TextFault::Full,
        }
    }
}

/// The writer returned an error, or accepted no byte of a text.
#[derive(Clone, Copy, PartialEq, Eq, Debug, Drop, Error)]
#[error("the text was not written")]
pub struct RefusedWrite;

/// The reader returned an error.
#[derive(Clone, Copy, PartialEq, Eq, Debug, Drop, Error)]
#[error("the text was not read")]
pub struct RefusedRead;

/// Why a term was not printed completely.
#[derive(Clone, Copy, PartialEq, Eq, Debug, Drop, Error)]
pub enum WriteFault {
    /// An allocation failed.
    #[error("out of memory")]
    Memory,
    /// The writer failed.
    #[error("the text was not written")]
    Write,
}

impl<T: Drop> From<AllocFailed<T>> for WriteFault {
    ghost use Rattle.rx_text.specs.declared.faults.WriteFault.TheVariants.{Memory};

    ghost from_gives = { λ _ e. e ≡ Memory };

    fn from(_error: AllocFailed<T>) -> Self {
        WriteFault::Memory
    }
}

impl From<RefusedWrite> for WriteFault {
    ghost use Rattle.rx_text.specs.declared.faults.WriteFault.TheVariants.{Write};

    ghost from_gives = { λ _ e. e ≡ Write };

    fn from(_error: RefusedWrite) -> Self {
        WriteFault::Write
    }
}
