//! Properties of traces, stated over the definitions alone.

ghost use Rattle.rec_trace.specs.Trace.{TraceLaw, FollowLaw, DepthLaw};
ghost use Rattle.rec_trace.specs.Lines.{ValueLineLaw, FiringLineLaw};
ghost use Rattle.rec_trace.specs.States.{StateLaw};
ghost use Rattle.rec_syntax.specs.Syntax.{Spec};

/// A trace has the outcome of the evaluation, and each of its rewrites is a step of rewriting.
pub fn trace_law()
    ensures { TraceLaw }
{}

/// The rewrites of a trace are a sequence of steps of rewriting with the same length, which is at
/// most the number of steps spent.
pub fn follow_law()
    ensures { FollowLaw }
{}

/// Traces satisfy their equations, whatever the call depth.
pub fn depth_law()
    ensures { DepthLaw }
{}

/// Lines of rewrites begin with a digit, and no other lines do.
pub fn line_law()
    ensures value { ValueLineLaw }
    ensures firing { FiringLineLaw }
{}

/// A trace is that of a machine's first state, and each transition of the machine is one of the
/// trace.
pub fn state_law()
    ensures { (y : Spec) → StateLaw y }
{}
