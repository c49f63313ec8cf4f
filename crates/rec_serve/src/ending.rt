//! The errors of sessions, and the reasons why requests are rejected.

ghost use Rattle.std.specs.Prelude.{◌≡◌};
ghost use Rattle.rec_serve.specs.Inner.Steps.{stopped_after};

use rx_text::{RefusedRead, RefusedWrite};
use thiserror::Error;

/// An error that stops a session before its end. `answered` is the number of requests whose
/// responses were written whole.
#[derive(Clone, Copy, Debug, Drop, PartialEq, Eq, Error)]
pub enum ServeFault {
    /// An allocation failed before the first request was read.
    #[error("out of memory")]
    Memory,
    /// A reader returned an error.
    #[error("read failed")]
    Read { answered: u64 },
    /// The writer returned an error, or accepted no byte.
    #[error("write failed")]
    Write { answered: u64 },
}

impl ServeFault {
    /// Returns the error of a session in which a stream failed after this number of responses.
    pub(crate) fn after(self, answered: u64) -> ServeFault
        ensures { result ≡ stopped_after self answered }
    {
        match self {
            ServeFault::Memory => ServeFault::Memory,
            ServeFault::Read { .. } => ServeFault::Read { answered },
            ServeFault::Write { .. } => ServeFault::Write { answered },
        }
    }
}

/// Makes the error of a reader that failed before the first response.
impl From<RefusedRead> for ServeFault {
    ghost use Rattle.rec_serve.specs.declared.ending.ServeFault.TheVariants.{Read};

    ghost from_gives = { λ _ r. r ≡ Read 0 };

    fn from(_error: RefusedRead) -> ServeFault {
        ServeFault::Read { answered: 0 }
    }
}

/// Makes the error of a writer that failed before the first response.
impl From<RefusedWrite> for ServeFault {
    ghost use Rattle.rec_serve.specs.declared.ending.ServeFault.TheVariants.{Write};

    ghost from_gives = { λ _ r. r ≡ Write 0 };

    fn from(_error: RefusedWrite) -> ServeFault {
        ServeFault::Write { answered: 0 }
    }
}

/// The reason why a request is rejected.
#[derive(Clone, Copy, Debug, Drop, PartialEq, Eq)]
pub enum Refusal {
    /// The request is longer than the text of a term may be.
    Long,
    /// The request is not a term: `at` is the offset of the first token that no term has there.
    Outside { at: u32 },
    /// The request is read as a table, and is not a list without annotations that has an element.
    NotTable,
    /// The request is read as a table. In its element with this number, counted from 0, a
    /// placeholder is neither the number of an earlier element nor a list of one item, or a number,
    /// its placeholder or such a list has annotations.
    Element { number: usize },
    /// The term violates this well-formedness rule of input terms, T2 to T6, and none before it.
    Rule { number: u8 },
}
