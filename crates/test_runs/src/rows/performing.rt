//! The kinds of runs, over readers and writers that transfer one byte in each call.

use crate::rows::options;
use crate::rows::streams::{Sink, Slow};
use rec_run::run;
use rx_run::{Finish, RunFault, run_aterm, run_make, run_match, run_share};
use std::alloc::Global;
use std::process::Abort;

/// A kind of run, with its step limit, or its pattern and the text of its arguments.
#[derive(Clone, Copy)]
pub(crate) enum Job<'a> {
    Alone(u32),
    Beside(u32),
    Print,
    Share,
    Match(&'a [u8]),
    Make { pattern: &'a [u8], args: &'a [u8] },
}

/// Runs on two texts, of which it may read only one, or none.
pub(crate) fn perform(
    alloc: Global,
    job: Job<'_>,
    first: &mut Slow<'_>,
    second: &mut Slow<'_>,
    out: &mut Sink,
) -> Result<Finish, RunFault> {
    match job {
        Job::Alone(steps) => {
            let options = options(steps, false);
            run(alloc, first, None::<&mut Slow<'_>>, out, options)
        }
        Job::Beside(steps) => run(alloc, first, Some(second), out, options(steps, false)),
        Job::Print => run_aterm(alloc, first, out),
        Job::Share => run_share(alloc, first, out),
        Job::Match(pattern) => run_match(alloc, pattern, first, out),
        Job::Make { pattern, args } => run_make(alloc, pattern, args, out),
    }
}

/// Aborts the test unless a run ended as expected, and its writer has these bytes.
pub(crate) fn expect_held(
    rt: &impl Abort,
    ended: Result<Finish, RunFault>,
    due: Result<Finish, RunFault>,
    out: &Sink,
    held: &[u8],
) {
    assert!(rt; ended == due && out.held.as_slice() == held);
}
