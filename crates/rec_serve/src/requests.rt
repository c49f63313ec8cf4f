//! The requests of a stream, which are its lines.

ghost use Rattle.std.specs.Prelude.{◌∷◌, [], List, ℕ, IfOk, MatchOption};
ghost use Rattle.std.specs.Io.KnownBytes.{IsAtEnd, Keeps};
ghost use Rattle.rx_text.specs.Input.{remaining_in};
ghost use Rattle.rx_text.specs.Output.{contents_of};
ghost use Rattle.rec_serve.specs.Inner.Causes.{ReportsRead, ReportsServeWrite};
ghost use Rattle.rec_serve.specs.Inner.Reading.{IsOver, IsRead, Splits, left_of};

use crate::ending::ServeFault;
use crate::read_ahead::ReadAhead;
use crate::request::Request;
use rx_text::{Input, Output};
use std::alloc::Global;
use std::io::{Read, Write};

/// Reads the next request, if there is one. All output is flushed before each read.
pub(crate) fn next_request<R: Read, W: Write>(
    alloc: Global,
    ahead: &mut ReadAhead,
    reader: &mut Input<'_, R>,
    out: &mut Output<'_, W>,
) -> Result<Option<Request>, ServeFault>
    ensures request { IfOk result (λ found. MatchOption found
        (IsOver (left_of ahead.old (remaining_in R.remaining reader.old))
        × IsAtEnd (remaining_in R.remaining reader.new))
        (λ request. (line : List ℕ) × IsRead request line
        × Splits (left_of ahead.old (remaining_in R.remaining reader.old))
        (left_of ahead.new (remaining_in R.remaining reader.new)) (line ∷ []))) }
    ensures kept { Keeps (contents_of W.contents out.old) (contents_of W.contents out.new) }
    ensures read_reports { ReportsRead reader.old reader.new
        (left_of ahead.old (remaining_in R.remaining reader.old)) result }
    ensures write_reports { ReportsServeWrite out.old out.new result }
{
    let mut request = Request::new(alloc);
    for _piece in 0..u64::MAX {
        if !ahead.refill(reader, out)? {
            return Ok(request.last());
        }
        if ahead.take_piece(&mut request) {
            return Ok(request.ended());
        }
    }
    Err(ServeFault::Read { answered: 0 })
}
