//! Properties of the specified output alone.

ghost use Rattle.rec_run.specs.Laws.{OneDue};

pub use rx_run::laws::one_due_with_pattern;

/// The texts of a run have at most one specified output.
pub fn one_due()
    ensures { OneDue }
{}
