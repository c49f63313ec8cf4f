//! The chosen terms of a run, as ranges of its terms.

ghost use Rattle.rec_run.specs.Choice.{IsWindow};
ghost use Rattle.rec_run.specs.declared.options.TermChoice.TheVariants.{Nth};

use crate::options::TermChoice;

/// A range of the terms of a specification, and one of the input terms.
#[derive(Clone, Copy, Drop)]
pub struct Window {
    /// The index of the first term of the specification, from 0.
    pub from: u32,
    /// The index after that of the last term of the specification.
    pub upto: u32,
    /// The number of input terms before the first one.
    pub skipped: u64,
    /// The largest number of input terms.
    pub most: u64,
}

/// No terms.
const NOTHING: Window = Window {
    from: 0,
    upto: 0,
    skipped: 0,
    most: 0,
};

/// Returns the ranges of the chosen terms, for a specification with `own` terms and at most `items`
/// input terms.
pub fn window_of(terms: TermChoice, own: u32, items: u64) -> Window
    ensures { IsWindow terms own items result }
{
    match terms {
        TermChoice::All => Window {
            from: 0,
            upto: own,
            skipped: 0,
            most: items,
        },
        TermChoice::Input => Window {
            from: 0,
            upto: 0,
            skipped: 0,
            most: items,
        },
        TermChoice::Nth(number) => nth_window(number, own, items),
    }
}

/// Returns the range of the term with this number, counted from 1.
fn nth_window(number: u64, own: u32, items: u64) -> Window
    ensures { IsWindow (Nth number) own items result }
{
    let first = u64::from(own);
    if number == 0 {
        NOTHING
    } else if number <= first {
        Window {
            from: (number - 1) as u32,
            upto: number as u32,
            skipped: 0,
            most: 0,
        }
    } else if number - first <= items {
        Window {
            from: 0,
            upto: 0,
            skipped: number - first - 1,
            most: 1,
        }
    } else {
        NOTHING
    }
}
