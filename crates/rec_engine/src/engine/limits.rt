//! The limits of an evaluation.

ghost use Rattle.std.specs.Prelude.{◌≡◌, None};
ghost use Rattle.rec_engine.specs.Limits.{limited, most_pending};

use crate::engine::errors::EngineFault;

/// The step limit and the call-depth limit of an evaluation.
#[derive(Clone, Copy, PartialEq, Eq, Debug, Drop)]
pub struct Limits {
    /// The greatest number of steps, from 0 to 10^18. Each match spends one step, also if a
    /// condition then fails. A memoized result spends the steps that it took.
    pub steps: u64,
    /// The greatest number of calls that may be pending at once: the term itself, a right-hand side
    /// or a condition that has a pending call which is not its last, and a call whose result will
    /// be memoized; the last one is left out, with its memo entry, once the limit is reached.
    /// Without a number only memory limits them.
    pub depth: Option<u32>,
}

impl Limits {
    /// Returns a step limit without a depth limit.
    pub fn of_steps(steps: u64) -> Limits
        ensures steps { result.steps ≡ steps }
        ensures depth { result.depth ≡ None }
    {
        Limits { steps, depth: None }
    }

    /// Returns the greatest number of frames that the machine may push.
    pub(crate) fn most_frames(self) -> usize
        ensures { result ≡ most_pending self.depth }
    {
        match self.depth {
            Some(depth) => depth as usize,
            None => usize::MAX,
        }
    }
}

/// Converts the result of an evaluation under limits. `None` means that the depth limit was
/// reached; without a depth limit this is out of memory, since no machine has that number of
/// frames.
pub(crate) fn limit<T>(
    answer: Result<Option<T>, EngineFault>,
    depth: Option<u32>,
) -> Result<T, EngineFault>
    ensures { result ≡ limited depth answer }
{
    match answer {
        Ok(Some(value)) => Ok(value),
        Ok(None) => match depth {
            Some(_) => Err(EngineFault::Deep),
            None => Err(EngineFault::Memory),
        },
        Err(fault) => Err(fault),
    }
}
