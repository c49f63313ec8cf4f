//! The selection of the rewrites that a trace shows.

ghost use Rattle.std.specs.Prelude.{◌≡◌};
ghost use Rattle.rec_trace_run.specs.Picks.{all_picked, picks_by};

/// The location at which a rule begins in the text of the specification.
#[derive(Clone, Copy, Debug, Drop)]
pub struct RulePlace {
    /// The line, from 1.
    pub line: u32,
    /// The column, in bytes, from 1.
    pub column: u32,
}

/// Selects the rewrites that have a line, for each term anew. If some selected rewrites have none,
/// a line reports their number.
#[derive(Clone, Copy, Debug, Drop)]
pub struct Picked<'a> {
    /// The location at which the rule has to begin. With `None`, every rule is selected.
    pub place: Option<RulePlace>,
    /// The symbol of the call that is rewritten, as the specification spells it. With `None`, calls
    /// of every symbol are selected.
    pub symbol: Option<&'a [u8]>,
    /// The number of selected rewrites that are shown at the beginning. With `None`, all are shown
    /// if `last` is also `None`, otherwise none at the beginning.
    pub first: Option<u64>,
    /// The number of other selected rewrites that are shown at the end. For these, the term is
    /// traced a second time.
    pub last: Option<u32>,
}

impl Picked<'_> {
    /// Selects all rewrites.
    pub fn all() -> Picked<'static>
        ensures { picks_by result ≡ all_picked }
    {
        Picked {
            place: None,
            symbol: None,
            first: None,
            last: None,
        }
    }
}
