//! Stops of evaluations, for C.

ghost use Rattle.std.specs.Prelude.{◌≡◌, Some};
ghost use Rattle.psilt_core.specs.Handles.{work_of, Joins, OnWork};

use crate::answer::{CLOSED, on_work, tell_done};
use psilt_core::{Psilt, Work};
use std::alloc::Global;

/// Lets requests to another handle stop the evaluations of this one, in place of those that could
/// before.
#[unsafe(no_mangle)]
pub extern "C" fn psilt_obey(alloc: Global, psilt: &mut Psilt, stop: &mut Psilt) -> u32
    ensures answer { Joins (work_of psilt.old) (work_of stop.old) result }
    ensures same { work_of psilt.new ≡ work_of psilt.old }
    ensures stop { work_of stop.new ≡ work_of stop.old }
{
    let Some(mut work) = psilt.take(alloc) else {
        return CLOSED;
    };
    let answer = obey(alloc, &mut work, stop);
    psilt.put(work);
    answer
}

/// Lets requests to a handle stop the evaluations of a work.
fn obey(alloc: Global, work: &mut Work, stop: &mut Psilt) -> u32
    ensures answer { Joins (Some work.old) (work_of stop.old) result }
    ensures same { work.new ≡ work.old }
    ensures stop { work_of stop.new ≡ work_of stop.old }
{
    tell_done(on_work!(stop, alloc, other, work.obey(alloc, &mut other)))
}

/// Requests that each handle which obeys this one ends its evaluation at the next report, or
/// withdraws the request. It stands until it is withdrawn.
#[unsafe(no_mangle)]
pub extern "C" fn psilt_interrupt(alloc: Global, stop: &mut Psilt, on: bool) -> u32
    ensures answer { OnWork stop.old stop.new result (λ v w. (result ≡ 0) × (w ≡ v)) }
{
    tell_done(on_work!(
        stop,
        alloc,
        work,
        {
            work.request_stop(on);
            Ok(())
        }
    ))
}
