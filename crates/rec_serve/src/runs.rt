//! Whole runs: a specification, and a session over it.

ghost use Rattle.std.specs.Prelude.{◌≡◌, IfErr, IfOk, IfSome, OnErr, OnOk};
ghost use Rattle.std.specs.Io.KnownBytes.{IsAtEnd};
ghost use Rattle.rx_text.specs.Input.{remaining_in};
ghost use Rattle.rx_text.specs.Output.{ReportsRefusal, Writes, WritesFront, contents_of};
ghost use Rattle.rx_shared.specs.State.{store_of};
ghost use Rattle.rec_engine.specs.Engine.{RemembersNothing};
ghost use Rattle.rec_syntax.specs.Syntax.{Spec};
ghost use Rattle.rec_sorts.specs.SpecRules.{Good, Verdict};
ghost use Rattle.rec_run.specs.EvaluatedLines.{engine_options};
ghost use Rattle.rec_run.specs.GivenTerms.{IsRefusal, OnGoodSpec, OnRefusedSpec};
ghost use Rattle.rec_run.specs.Reading.{IsSpecReading};
ghost use Rattle.rx_run.specs.Refusals.{refusal_due};
ghost use Rattle.rx_run.specs.Run.{IsReadOut, StopsReading};
ghost use Rattle.rec_serve.specs.Inner.Causes.{
  ReportsServeRead,
  ReportsServeReads,
  ReportsServeWrite,
};
ghost use Rattle.rec_serve.specs.Replies.{
  BreaksAfter,
  BreaksOff,
  BreaksServing,
  ConcludesAfter,
  ConcludesServing,
  Converses,
  unread_fault,
};

use crate::conversation::{Listener, converse_from};
use crate::ending::ServeFault;
use crate::settings::Session;
use rec_engine::Engine;
use rec_run::{engine_over, read_spec_text_from};
use rec_sorts::Checked;
use rx_run::{Ending, Reading, Refusal, RunFault, write_refusal_to};
use rx_shared::SharedBank;
use rx_text::{Input, Output, RefusedWrite};
use std::alloc::AllocError;
use std::io::{Read, Write};

/// Reads a specification. If it is accepted, answers the requests of a stream with one response
/// line for each, whatever the requests before it were. If it is rejected, writes its error line
/// and reads no request. EVAL terms are not evaluated. If the settings have a call-depth limit, a
/// request that reaches it has the response `!depth`. The listener receives each request that is
/// rejected.
pub fn run_serve<S: Read, R: Read, W: Write, L: Listener>(
    session: Session,
    spec: &mut S,
    requests: &mut R,
    out: &mut W,
    listener: &mut L,
) -> Result<Ending, ServeFault>
    ensures ends { IfOk result (λ ending. ConcludesServing session.settings
        (S.remaining spec.old) (R.remaining requests.old)
        ending (W.contents out.old) (W.contents out.new)) }
    ensures fault { IfErr result (λ fault. BreaksServing session.settings
        (S.remaining spec.old) (R.remaining requests.old)
        fault (W.contents out.old) (W.contents out.new)) }
    ensures spec_read { OnOk result (IsReadOut (S.remaining spec.old) (S.remaining spec.new)) }
    ensures requests_read { OnOk result (OnGoodSpec (S.remaining spec.old)
        (IsAtEnd (R.remaining requests.new))) }
    ensures unread { OnRefusedSpec (S.remaining spec.old) (requests.new ≡ requests.old) }
{
    let mut spec = Input::new(spec);
    let mut input = Input::new(requests);
    let mut output = Output::new(out);
    serve_from(session, &mut spec, &mut input, &mut output, listener)
}

/// Runs a session from two inputs and to an output, as `run_serve` does. A stream that has failed
/// is not used again.
fn serve_from<S: Read, R: Read, W: Write, L: Listener>(
    session: Session,
    spec: &mut Input<'_, S>,
    requests: &mut Input<'_, R>,
    out: &mut Output<'_, W>,
    listener: &mut L,
) -> Result<Ending, ServeFault>
    ensures ends { IfOk result (λ ending. ConcludesServing session.settings
        (remaining_in S.remaining spec.old) (remaining_in R.remaining requests.old) ending
        (contents_of W.contents out.old) (contents_of W.contents out.new)) }
    ensures fault { IfErr result (λ fault. BreaksServing session.settings
        (remaining_in S.remaining spec.old) (remaining_in R.remaining requests.old) fault
        (contents_of W.contents out.old) (contents_of W.contents out.new)) }
    ensures spec_read { OnOk result (IsReadOut (remaining_in S.remaining spec.old)
        (remaining_in S.remaining spec.new)) }
    ensures requests_read { OnOk result (OnGoodSpec (remaining_in S.remaining spec.old)
        (IsAtEnd (remaining_in R.remaining requests.new))) }
    ensures unread { OnRefusedSpec (remaining_in S.remaining spec.old)
        (requests.new ≡ requests.old) }
    ensures read_reports { ReportsServeReads spec.old spec.new
        requests.old requests.new
        (remaining_in R.remaining requests.old) result }
    ensures write_reports { ReportsServeWrite out.old out.new result }
{
    match read_spec_text_from(session.alloc, spec) {
        Ok(reading) => serve_reading(session, reading, requests, out, listener),
        Err(fault) => Err(unread(fault)),
    }
}

/// Returns the error of a run whose specification was not read.
fn unread(fault: RunFault) -> ServeFault
    requires { StopsReading fault }
    ensures { result ≡ unread_fault fault }
{
    match fault {
        RunFault::Memory { lines: _ } => ServeFault::Memory,
        RunFault::Read => ServeFault::Read { answered: 0 },
        RunFault::Room { lines: _ } => unreachable!(),
        RunFault::Deep { lines: _ } => unreachable!(),
        RunFault::Write => unreachable!(),
    }
}

/// Answers the requests if the specification is accepted, and writes its error line if it is
/// rejected.
fn serve_reading<R: Read, W: Write, L: Listener>(
    session: Session,
    reading: Reading<Checked>,
    requests: &mut Input<'_, R>,
    out: &mut Output<'_, W>,
    listener: &mut L,
) -> Result<Ending, ServeFault>
    ensures ends { IfOk result (λ ending. (v : Verdict) → IsSpecReading reading v
        → ConcludesAfter session.settings v
        (remaining_in R.remaining requests.old) ending
        (contents_of W.contents out.old) (contents_of W.contents out.new)) }
    ensures fault { IfErr result (λ fault. (v : Verdict) → IsSpecReading reading v
        → BreaksAfter session.settings v
        (remaining_in R.remaining requests.old) fault
        (contents_of W.contents out.old) (contents_of W.contents out.new)) }
    ensures requests_read { OnOk result ((y : Spec) → IsSpecReading reading (Good y)
        → IsAtEnd (remaining_in R.remaining requests.new)) }
    ensures unread { (v : Verdict) → IsSpecReading reading v → IsRefusal v
        → requests.new ≡ requests.old }
    ensures read_reports { ReportsServeRead requests.old requests.new
        (remaining_in R.remaining requests.old) result }
    ensures write_reports { ReportsServeWrite out.old out.new result }
{
    match reading {
        Reading::Refused(refusal) => match refuse(refusal, out) {
            Ok(()) => Ok(Ending::Refused(refusal)),
            Err(RefusedWrite) => Err(ServeFault::Write { answered: 0 }),
        },
        Reading::Good(checked) => {
            match serve(session, checked, requests, out, listener) {
                Ok(()) => Ok(Ending::Done),
                Err(fault) => Err(fault),
            }
        }
    }
}

/// Writes the error line of a rejected specification, and flushes.
fn refuse<W: Write>(refusal: Refusal, out: &mut Output<'_, W>) -> Result<(), RefusedWrite>
    ensures ok { OnOk result (Writes W.contents out.old out.new (refusal_due refusal).text) }
    ensures err { OnErr result (WritesFront W.contents out.old out.new (refusal_due refusal).text) }
    ensures reports { ReportsRefusal out.old out.new result }
{
    write_refusal_to(refusal, out)?;
    out.flush()
}

/// Answers the requests with an accepted specification.
fn serve<R: Read, W: Write, L: Listener>(
    session: Session,
    checked: Checked,
    requests: &mut Input<'_, R>,
    out: &mut Output<'_, W>,
    listener: &mut L,
) -> Result<(), ServeFault>
    ensures output { OnOk result (IfSome (remaining_in R.remaining requests.old)
        (λ bytes. Converses checked.spec session.settings bytes (contents_of W.contents out.old)
        (contents_of W.contents out.new))) }
    ensures fault { IfErr result (λ fault. IfSome (remaining_in R.remaining requests.old)
        (λ bytes. BreaksOff checked.spec session.settings bytes fault
        (contents_of W.contents out.old) (contents_of W.contents out.new))) }
    ensures requests_read { OnOk result (IsAtEnd (remaining_in R.remaining requests.new)) }
    ensures read_reports { ReportsServeRead requests.old requests.new
        (remaining_in R.remaining requests.old) result }
    ensures write_reports { ReportsServeWrite out.old out.new result }
{
    match engine_for(session, checked) {
        Ok(mut engine) => {
            let end = converse_from(session, &mut engine, requests, out, listener);
            // By a call: the end of the block would drop each part of an engine here.
            drop(engine);
            end
        }
        Err(AllocError) => Err(ServeFault::Memory),
    }
}

/// Makes the engine of a session, over an empty store with the capacity of the settings.
fn engine_for(session: Session, checked: Checked) -> Result<Engine<SharedBank>, AllocError>
    ensures spec { IfOk result (λ e. e.spec ≡ checked.spec) }
    ensures options { IfOk result (λ e. e.options ≡ engine_options session.settings.options) }
    ensures memo { IfOk result (λ e. RemembersNothing session.settings.options.memo e.memo) }
    ensures limit { IfOk result (λ e. (store_of e.bank).cap ≡ session.settings.options.cells) }
{
    let Session { alloc, settings } = session;
    let Ok(bank) = SharedBank::new(alloc, settings.options.cells) else {
        return Err(AllocError);
    };
    match engine_over(alloc, checked, bank, None, settings.options) {
        Ok(engine) => Ok(engine),
        Err(_) => Err(AllocError),
    }
}
