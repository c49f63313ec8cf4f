//! The numbers of terms in messages.

use recw_cli::TermChoice;
use std::fmt;

/// The number of a term, as messages have it: `term 3`. If only input terms are evaluated, they are
/// counted without the EVAL terms: `input term 3`.
#[derive(Clone, Copy)]
pub struct TermNumber {
    /// What is counted.
    noun: &'static str,
    /// The number, from 1.
    number: u64,
}

impl TermNumber {
    /// Returns the number of the first term that is evaluated.
    pub fn first(terms: TermChoice) -> TermNumber {
        let noun = match terms {
            TermChoice::Input => "input term",
            _ => "term",
        };
        let number = match terms {
            TermChoice::Nth(number) => number,
            _ => 1,
        };
        TermNumber { noun, number }
    }

    /// Returns the number of the term that is evaluated after this one and `count - 1` others.
    pub fn after(self, count: u64) -> TermNumber {
        TermNumber {
            noun: self.noun,
            number: self.number.saturating_add(count),
        }
    }
}

impl fmt::Display for TermNumber {
    fn fmt<W: fmt::Write>(&self, f: &mut fmt::Formatter<W>) -> fmt::Result {
        let TermNumber { noun, number } = *self;
        write!(f, "{noun} {number}")
    }
}
