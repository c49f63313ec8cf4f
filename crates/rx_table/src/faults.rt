//! The error of making and reading a table.

ghost use Rattle.std.specs.Prelude.{◌≡◌};

use rx_term::BankFault;
use rx_text::TextFault;
use std::alloc::{AllocError, AllocFailed};
use thiserror::Error;

/// Why a table was not made, or not read.
#[derive(Clone, Copy, PartialEq, Eq, Debug, Drop, Error)]
pub enum TableFault {
    /// The text has more than 16,777,216 bytes.
    #[error("the text is too long")]
    Long,
    /// The text has a syntax error: the token at this offset is the first that no valid text has
    /// there.
    #[error("the text is outside the grammar at {at}")]
    Grammar { at: u32 },
    /// Error R1: the term is not a list without annotations that has an element.
    #[error("not a table")]
    NotTable,
    /// Error R2: in the element with this number, a placeholder is neither the number of an earlier
    /// element nor a list of one item, or a number, its placeholder or such a list has annotations.
    #[error("a placeholder of element {number} is not in its form")]
    Element { number: usize },
    /// An allocation failed.
    #[error("out of memory")]
    Memory,
    /// The term store is full.
    #[error("out of cells")]
    Full,
}

impl<T: Drop> From<AllocFailed<T>> for TableFault {
    ghost use Rattle.rx_table.specs.declared.faults.TableFault.TheVariants.{Memory};

    ghost from_gives = { λ _ e. e ≡ Memory };

    fn from(_error: AllocFailed<T>) -> Self {
        TableFault::Memory
    }
}

impl From<AllocError> for TableFault {
    ghost use Rattle.rx_table.specs.declared.faults.TableFault.TheVariants.{Memory};

    ghost from_gives = { λ _ e. e ≡ Memory };

    fn from(_error: AllocError) -> Self {
        TableFault::Memory
    }
}

impl From<BankFault> for TableFault {
    ghost use Rattle.rx_table.specs.Inner.Faults.{table_fault};

    ghost from_gives = { λ fault e. e ≡ table_fault fault };

    fn from(fault: BankFault) -> Self {
        match fault {
            BankFault::Memory => TableFault::Memory,
            BankFault::Full => TableFault::Full,
        }
    }
}

impl From<TextFault> for TableFault {
    ghost use Rattle.rx_table.specs.Inner.Faults.{fault_of_text};

    ghost from_gives = { λ fault e. e ≡ fault_of_text fault };

    fn from(fault: TextFault) -> Self {
        match fault {
            TextFault::Long => TableFault::Long,
            TextFault::Grammar { at } => TableFault::Grammar { at },
            TextFault::Memory => TableFault::Memory,
            TextFault::Full => TableFault::Full,
        }
    }
}
