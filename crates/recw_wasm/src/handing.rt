//! The result of a run is passed to the host.

ghost use Rattle.std.specs.Prelude.{◌≡◌, ◌<◌, IfErr, IfOk, length, take};
ghost use Rattle.rx_run.specs.Refusals.{finish_of, place_of};
ghost use Rattle.recw_wasm.specs.Inner.Handing.{IsHanded, IsWithheld, fault_number};

use crate::told::Told;
use rx_run::{Ending, Finish, Place, RunFault};

/// All lines were written.
const DONE: u32 = 0;

/// A text was rejected.
const REFUSED: u32 = 1;

/// The buffer is too short.
const SHORT: u32 = 2;

/// Out of memory.
const OUT_OF_MEMORY: u32 = 3;

/// Out of cells.
const OUT_OF_CELLS: u32 = 4;

/// Writes the lines of a run to the start of the buffer, and returns the status.
pub(crate) fn hand_ending(
    end: Result<Ending, RunFault>,
    lines: Vec<u8>,
    out: &mut [u8],
    told: &mut Told,
) -> u32
    ensures handed { IfOk end (λ ending. IsHanded (finish_of ending) lines.items (place_of ending)
        result told.new out.old out.new) }
    ensures withheld { IfErr end (λ fault.
        IsWithheld fault result told.new out.old out.new) }
{
    match end {
        Ok(ending) => hand_over(Ok(ending.finish()), lines, ending.place(), out, told),
        Err(fault) => hand_over(Err(fault), lines, None, out, told),
    }
}

/// Writes the lines of a run with this result and this offset of an error, and returns the status.
pub(crate) fn hand_over(
    end: Result<Finish, RunFault>,
    lines: Vec<u8>,
    place: Option<Place>,
    out: &mut [u8],
    told: &mut Told,
) -> u32
    ensures handed { IfOk end (λ finish.
        IsHanded finish lines.items place result told.new out.old out.new) }
    ensures withheld { IfErr end (λ fault.
        IsWithheld fault result told.new out.old out.new) }
{
    match end {
        Ok(finish) => {
            *told = Told::of(lines.len(), place);
            hand_lines(finish, lines.as_slice(), out)
        }
        Err(fault) => {
            *told = Told::of(0, None);
            number_of(fault)
        }
    }
}

/// Writes the lines of a run that ended, and returns the status.
fn hand_lines(finish: Finish, lines: &[u8], out: &mut [u8]) -> u32
    ensures done { result ≡ 0 → finish ≡ Finish.Done }
    ensures refused { result ≡ 1 → finish ≡ Finish.Refused }
    ensures written { result < 2 → take (length lines.now) out.new ≡ lines.now }
    ensures short { result ≡ 2 → length out.old < length lines.now }
    ensures kept { 1 < result → out.new ≡ out.old }
    ensures known { result < 3 }
{
    let length = lines.len();
    if length > out.len() {
        return SHORT;
    }
    out[..length].copy_from_slice(lines);
    match finish {
        Finish::Done => DONE,
        Finish::Refused => REFUSED,
    }
}

/// Returns the status of an error. A text in memory can be read, a write to a vector fails only if
/// the vector cannot grow, and no run has a call-depth limit.
fn number_of(fault: RunFault) -> u32
    ensures { result ≡ fault_number fault }
{
    match fault {
        RunFault::Room { .. } => OUT_OF_CELLS,
        RunFault::Memory { .. } | RunFault::Deep { .. } | RunFault::Read | RunFault::Write => {
            OUT_OF_MEMORY
        }
    }
}
