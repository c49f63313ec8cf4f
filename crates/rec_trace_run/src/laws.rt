//! Properties of whole traces, stated over the definitions alone.

ghost use Rattle.rec_trace_run.specs.Traces.{DigitsLaw, OneTraceDue, ValuesLaw, WholeTraceLaw};

/// The texts of a run have at most one specified output.
pub fn one_trace_due()
    ensures { OneTraceDue }
{}

/// If all rewrites are selected, the lines of a term are those of its trace: each rewrite has its
/// line.
pub fn whole_trace_law()
    ensures { WholeTraceLaw }
{}

/// The lines of traces that begin with neither a digit nor a `.` are the lines of evaluation. The
/// specification violates no rule, and its text is shorter than 2^63 bytes.
pub fn values_law()
    ensures { ValuesLaw }
{}

/// If neither `first` nor `last` is given, the lines that begin with no digit are the lines of
/// evaluation. The specification violates no rule, and its text is shorter than 2^63 bytes.
pub fn digits_law()
    ensures { DigitsLaw }
{}
