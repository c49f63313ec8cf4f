//! The errors of the calls, and their numbers.

ghost use Rattle.std.specs.Prelude.{◌≡◌};
ghost use Rattle.psilt_core.specs.Codes.{made_of, code_of};

use rx_term::{BankFault, Term};
use std::fmt;
use thiserror::Error;

/// Why a call fails. C gets these numbers; 0 means success.
#[derive(Clone, Copy, PartialEq, Eq, Debug, Drop, Error)]
pub enum Fault {
    /// Out of memory.
    Memory = 1,
    /// All cells up to the limit are in use, or the number of names is at its limit.
    Full = 2,
    /// The handle is not open.
    Closed = 3,
    /// A reference is not in the term store.
    Stale = 4,
    /// A term has another kind than the call takes.
    Kind = 5,
    /// The text is outside its grammar.
    Syntax = 6,
    /// A number or a length is outside its range, or a buffer is too short.
    Range = 7,
    /// The name is not quoted, and has to be.
    Name = 8,
    /// The term is protected as often as possible.
    Roots = 9,
    /// The term is not protected.
    Unprotected = 10,
    /// The handle is open already.
    Open = 11,
    /// A specification, a pattern or a term violates a rule.
    Rule = 12,
    /// More steps are needed than the step limit allows.
    Limit = 13,
    /// There is no specification.
    Unspecified = 14,
    /// The term does not match the pattern.
    Unmatched = 15,
    /// No pattern, or no symbol, has the number.
    Unknown = 16,
    /// A stop of the evaluation was requested.
    Interrupted = 17,
}

impl Fault {
    /// Returns the message of the error.
    fn words(self) -> &'static str {
        match self {
            Fault::Memory => "out of memory",
            Fault::Full => "out of cells or names",
            Fault::Closed => "the handle is closed",
            Fault::Stale => "no such reference",
            Fault::Kind => "a term of another kind",
            Fault::Syntax => "the text is outside its grammar",
            Fault::Range => "a number outside its range",
            Fault::Name => "a name that has to be quoted",
            Fault::Roots => "protected too often",
            Fault::Unprotected => "not protected",
            Fault::Open => "the handle is open",
            Fault::Rule => "a rule is broken",
            Fault::Limit => "over the limit of steps",
            Fault::Unspecified => "nothing is specified",
            Fault::Unmatched => "no match",
            Fault::Unknown => "no such pattern or symbol",
            Fault::Interrupted => "interrupted",
        }
    }
}

impl fmt::Display for Fault {
    fn fmt<W: fmt::Write>(&self, f: &mut fmt::Formatter<W>) -> fmt::Result {
        f.write_str(self.words())
    }
}

/// Returns the result of a constructor of the term store, with the error of the library.
pub(crate) fn term_or_fault(answer: Result<Term, BankFault>) -> Result<Term, Fault>
    ensures { result ≡ made_of answer }
{
    match answer {
        Ok(t) => Ok(t),
        Err(BankFault::Memory) => Err(Fault::Memory),
        Err(BankFault::Full) => Err(Fault::Full),
    }
}

/// Returns the number of a result: 0 for success.
pub fn code<T: Drop>(answer: &Result<T, Fault>) -> u32
    ensures { result ≡ code_of answer.now }
{
    match answer {
        Ok(_) => 0,
        Err(fault) => *fault as u32,
    }
}
