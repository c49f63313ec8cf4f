//! The ends of a run, its errors, and the offsets of errors in inputs.

ghost use Rattle.std.specs.Prelude.{◌≡◌};

use rx_text::{RefusedRead, RefusedWrite, WriteFault};
use std::alloc::AllocError;
use std::fmt;
use thiserror::Error;

/// The end of a run that did not fail, without the reason.
#[derive(Clone, Copy, Debug, Drop, PartialEq, Eq)]
pub enum Finish {
    /// All lines were written.
    Done,
    /// An input was rejected, and its error line was written.
    Refused,
}

/// The error of a run that failed. `lines` is the number of complete lines that were written.
#[derive(Clone, Copy, Debug, Drop, PartialEq, Eq, Error)]
pub enum RunFault {
    /// An allocation failed.
    #[error("out of memory")]
    Memory { lines: u64 },
    /// The store is full: it has as many cells as the options allow.
    #[error("out of cells")]
    Room { lines: u64 },
    /// Calls were nested more deeply than the options allow.
    #[error("too deep")]
    Deep { lines: u64 },
    /// The reader returned an error.
    #[error("read failed")]
    Read,
    /// The writer returned an error, or accepted no byte.
    #[error("write failed")]
    Write,
}

impl From<RefusedRead> for RunFault {
    ghost use Rattle.rx_run.specs.declared.ending.RunFault.TheVariants.{Read};

    ghost from_gives = { λ _ r. r ≡ Read };

    fn from(_error: RefusedRead) -> RunFault {
        RunFault::Read
    }
}

impl From<RefusedWrite> for RunFault {
    ghost use Rattle.rx_run.specs.declared.ending.RunFault.TheVariants.{Write};

    ghost from_gives = { λ _ r. r ≡ Write };

    fn from(_error: RefusedWrite) -> RunFault {
        RunFault::Write
    }
}

/// Converts a write error to the error of a run whose lines are not counted.
impl From<WriteFault> for RunFault {
    ghost use Rattle.rx_run.specs.Run.{fault_of_write};

    ghost from_gives = { λ e r. r ≡ fault_of_write e };

    fn from(error: WriteFault) -> RunFault {
        match error {
            WriteFault::Memory => RunFault::Memory { lines: 0 },
            WriteFault::Write => RunFault::Write,
        }
    }
}

impl From<AllocError> for RunFault {
    ghost use Rattle.rx_run.specs.declared.ending.RunFault.TheVariants.{Memory};

    ghost from_gives = { λ _ r. r ≡ Memory 0 };

    fn from(_error: AllocError) -> RunFault {
        RunFault::Memory { lines: 0 }
    }
}

/// An input of a run.
#[derive(Clone, Copy, Debug, Drop, PartialEq, Eq)]
pub enum Source {
    /// A specification.
    Spec,
    /// A list of input terms.
    Terms,
    /// An annotated term.
    Term,
    /// A pattern.
    Pattern,
    /// The arguments of a pattern.
    Args,
}

/// An error that has an offset.
#[derive(Clone, Copy, Debug, Drop, PartialEq, Eq)]
pub enum Named {
    /// `G`: a syntax error in a specification.
    G,
    /// `S1` to `S11`: a specification violates this well-formedness rule.
    S(u8),
    /// `A`: a syntax error in an annotated term.
    A,
}

/// The location of an error in an input.
#[derive(Clone, Copy, Debug, Drop, PartialEq, Eq)]
pub struct Place {
    /// The rejected input.
    pub text: Source,
    /// The error.
    pub rule: Named,
    /// The offset of the error in bytes.
    pub at: u32,
}

impl fmt::Display for Source {
    fn fmt<W: fmt::Write>(&self, f: &mut fmt::Formatter<W>) -> fmt::Result {
        f.write_str(match *self {
            Source::Spec => "spec",
            Source::Terms => "terms",
            Source::Term => "term",
            Source::Pattern => "pattern",
            Source::Args => "args",
        })
    }
}

impl fmt::Display for Named {
    fn fmt<W: fmt::Write>(&self, f: &mut fmt::Formatter<W>) -> fmt::Result {
        match *self {
            Named::G => f.write_str("G"),
            Named::S(number) => write!(f, "S{number}"),
            Named::A => f.write_str("A"),
        }
    }
}

impl fmt::Display for Place {
    fn fmt<W: fmt::Write>(&self, f: &mut fmt::Formatter<W>) -> fmt::Result {
        let Place { text, rule, at } = *self;
        write!(f, "{text} {rule} at byte {at}")
    }
}
