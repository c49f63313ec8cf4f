//! Properties of the specified output of runs with a pattern.

ghost use Rattle.rx_run.specs.PatternRuns.{OneDueOfBoth, make_due, match_due};

/// For any two texts, exactly one result is specified for a match, and exactly one for filling a
/// pattern.
pub fn one_due_with_pattern()
    ensures of_match { OneDueOfBoth match_due }
    ensures of_make { OneDueOfBoth make_due }
{}
