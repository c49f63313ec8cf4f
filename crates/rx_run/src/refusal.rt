//! Errors that reject an input, and results of reading.

ghost use Rattle.std.specs.Prelude.{◌≡◌};
ghost use Rattle.rx_run.specs.declared.refusal.Reading.TheVariants.{Refused};
ghost use Rattle.rx_run.specs.Refusals.{ending_of, finish_of, place_by, place_of};

use crate::ending::{Finish, Named, Place, Source};
use std::fmt;

/// Why an input is rejected.
#[derive(Clone, Copy)]
pub enum Reason {
    /// `L1`: it is longer than [`LIMIT`](crate::LIMIT).
    Long,
    /// `G`: a syntax error in a specification, at this offset.
    Grammar { at: u32 },
    /// `S1` to `S11`: a specification violates this well-formedness rule. The offset is that of the
    /// violation.
    Rule { number: u8, at: u32 },
    /// `A`: a syntax error in an annotated term, at this offset.
    Outside { at: u32 },
    /// `T1` to `T6`: input terms violate this well-formedness rule.
    TermsRule { number: u8 },
    /// `P1`: a placeholder of the pattern is not one of the six kinds.
    Unknown,
    /// `P2`: a placeholder of the pattern has annotations.
    Annotated,
    /// `T1`: the arguments are not a list without annotations.
    Unlisted,
    /// `M1`: the number of arguments differs from the number of placeholders.
    Count,
    /// `M2`: a placeholder does not accept its argument.
    Kind,
    /// `R1`: a table is not a list without annotations that has an element.
    NotTable,
    /// `R2`: in the element of a table with this number, counted from 0, a placeholder is neither
    /// the number of an earlier element nor a list of one item, or a number, its placeholder or such
    /// a list has annotations.
    Element { number: usize },
}

/// Prints the error code.
impl fmt::Display for Reason {
    fn fmt<W: fmt::Write>(&self, f: &mut fmt::Formatter<W>) -> fmt::Result {
        match *self {
            Reason::Long => f.write_str("L1"),
            Reason::Grammar { at: _ } => f.write_str("G"),
            Reason::Rule { number, at: _ } => write!(f, "S{number}"),
            Reason::Outside { at: _ } => f.write_str("A"),
            Reason::TermsRule { number } => write!(f, "T{number}"),
            Reason::Unknown => f.write_str("P1"),
            Reason::Annotated => f.write_str("P2"),
            Reason::Unlisted => f.write_str("T1"),
            Reason::Count => f.write_str("M1"),
            Reason::Kind => f.write_str("M2"),
            Reason::NotTable => f.write_str("R1"),
            Reason::Element { number: _ } => f.write_str("R2"),
        }
    }
}

/// An input that is rejected, with the reason.
#[derive(Clone, Copy)]
pub struct Refusal {
    /// The input.
    pub text: Source,
    /// Why it is rejected.
    pub reason: Reason,
}

impl Refusal {
    /// Returns the location of the error, or `None` if this error has no offset.
    pub fn place(self) -> Option<Place>
        ensures { result ≡ place_by self.text self.reason }
    {
        let (rule, at) = match self.reason {
            Reason::Grammar { at } => (Named::G, at),
            Reason::Rule { number, at } => (Named::S(number), at),
            Reason::Outside { at } => (Named::A, at),
            _ => return None,
        };
        Some(Place {
            text: self.text,
            rule,
            at,
        })
    }
}

/// The end of a run that did not fail, with the reason.
#[derive(Clone, Copy)]
pub enum Ending {
    /// All lines were written.
    Done,
    /// An input was rejected, and its error line was written.
    Refused(Refusal),
}

impl Ending {
    /// Returns the end of the run without the reason.
    pub fn finish(self) -> Finish
        ensures { result ≡ finish_of self }
    {
        match self {
            Ending::Done => Finish::Done,
            Ending::Refused(_) => Finish::Refused,
        }
    }

    /// Returns the location of the error, or `None` if no input was rejected or the error has no
    /// offset.
    pub fn place(self) -> Option<Place>
        ensures { result ≡ place_of self }
    {
        match self {
            Ending::Done => None,
            Ending::Refused(refusal) => refusal.place(),
        }
    }
}

/// The result of reading one or more inputs.
#[derive(Drop)]
pub enum Reading<T> {
    /// An input was rejected.
    Refused(Refusal),
    /// All inputs were accepted, with this result.
    Good(T),
}

impl<T> Reading<T> {
    /// Returns the result for a rejected input.
    pub fn refused(text: Source, reason: Reason) -> Reading<T>
        ensures { result ≡ Refused (record { text = text; reason = reason }) }
    {
        Reading::Refused(Refusal { text, reason })
    }

    /// Returns the end of a run with this result, if the run does not fail.
    pub fn ending(&self) -> Ending
        ensures { result ≡ ending_of self.now }
    {
        match self {
            Reading::Refused(refusal) => Ending::Refused(*refusal),
            Reading::Good(_) => Ending::Done,
        }
    }
}
