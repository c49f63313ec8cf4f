//! Properties of sessions, stated over the definitions alone.

ghost use Rattle.rec_serve.specs.Laws.{NoWant, OneAnswer, OneLine, RequestsLaw, SplitLaw};

/// The requests of a stream are its lines, and no byte of the stream is lost.
pub fn requests_law()
    ensures { RequestsLaw }
{}

/// Each request has exactly one specified response. It is one line, and never `!memory`, `!cells`
/// or `!depth`.
pub fn answer_law()
    ensures one { OneAnswer }
    ensures line { OneLine }
    ensures no_want { NoWant }
{}

/// The specified responses do not depend on which process answers which requests.
pub fn split_law()
    ensures { SplitLaw }
{}
