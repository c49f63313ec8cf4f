//! Laws of errors, over the definitions alone.

ghost use Rattle.rec_check.specs.Laws.{FirstPlace};

/// The first error is the one that evaluation reports.
pub fn first_place()
    ensures { FirstPlace }
{}
