//! Sessions: a specification, and requests that are answered one after the other.

ghost use Rattle.std.specs.Prelude.{
  ◌≡◌,
  ◌<◌,
  ◌+◌,
  ◌++◌,
  [],
  List,
  ℕ,
  IfErr,
  IfOk,
  IfSome,
  MatchBool,
  MatchResult,
  None,
  Ok,
  OnErr,
  OnOk,
  true,
};
ghost use Rattle.std.specs.Io.KnownBytes.{IsAtEnd};
ghost use Rattle.rx_text.specs.Input.{remaining_in};
ghost use Rattle.rx_text.specs.Output.{ReportsRefusal, contents_of};
ghost use Rattle.rec_engine.specs.Engine.{SameEngine};
ghost use Rattle.rec_engine.specs.Limits.{KeepsLimit};
ghost use Rattle.rec_serve.specs.Answering.{text_of};
ghost use Rattle.rec_serve.specs.Conversation.{IsAnswer};
ghost use Rattle.rec_serve.specs.declared.ending.Refusal.{Refusal};
ghost use Rattle.rec_serve.specs.Inner.Causes.{ReportsRead, ReportsServeRead, ReportsServeWrite};
ghost use Rattle.rec_serve.specs.Inner.Heard.{Hears, heard_of};
ghost use Rattle.rec_serve.specs.Inner.Reading.{IsRead, left_of};
ghost use Rattle.rec_serve.specs.Inner.Reasons.{HasReason, IsReplyOf};
ghost use Rattle.rec_serve.specs.Inner.Replying.{IsPartlyRepliedTo, IsRepliedTo};
ghost use Rattle.rec_serve.specs.Replies.{BreaksOff, Converses};
ghost use Rattle.rec_serve.specs.Inner.Steps.{EndsStep, Replies, StopsStep};

use crate::answers::{Answered, answer};
use crate::ending::{Refusal, ServeFault};
use crate::read_ahead::ReadAhead;
use crate::request::Request;
use crate::requests::next_request;
use crate::settings::Session;
use crate::workspace::Workspace;
use rec_engine::{Engine, EngineFault};
use rec_sorts::Checked;
use rx_term::TermBank;
use rx_text::{Input, Output, RefusedWrite};
use std::alloc::AllocError;
use std::io::{Read, Write};

/// Receives the requests that are rejected.
pub trait Listener {
    /// The bytes that it has reported.
    ghost told: { Self → List ℕ };

    /// `says number request refusal`: the bytes that it reports for a rejected request.
    ghost says: { ℕ → List ℕ → Refusal → List ℕ };

    /// Called when the request of this number, from 1, was rejected and its response was written.
    fn hear_refusal(&mut self, checked: &Checked, number: u64, request: &[u8], refusal: Refusal)
        ensures told { told self.new ≡ told self.old ++ says number request.now refusal };
}

/// A listener that ignores all rejected requests.
#[derive(Clone, Copy, Debug, Drop)]
pub struct Deaf;

impl Listener for Deaf {
    ghost told = { λ _. [] };

    ghost says = { λ _ _ _. [] };

    fn hear_refusal(
        &mut self,
        _checked: &Checked,
        _number: u64,
        _request: &[u8],
        _refusal: Refusal,
    ) {}
}

/// Answers the requests of a stream over an engine, with one response line for each. It is the
/// specified response, or reports that memory or cells ran out, or that the call-depth limit was
/// reached if the settings have one. All output is flushed before each read.
pub fn converse<B: TermBank, R: Read, W: Write, L: Listener>(
    session: Session,
    engine: &mut Engine<B>,
    requests: &mut R,
    out: &mut W,
    listener: &mut L,
) -> Result<(), ServeFault>
    ensures same { SameEngine engine.old engine.new }
    ensures output { OnOk result (IfSome (R.remaining requests.old)
        (λ bytes. Converses engine.old.spec session.settings bytes (W.contents out.old)
        (W.contents out.new))) }
    ensures fault { IfErr result (λ fault. IfSome (R.remaining requests.old)
        (λ bytes. BreaksOff engine.old.spec session.settings bytes fault (W.contents out.old)
        (W.contents out.new))) }
    ensures requests_read { OnOk result (IsAtEnd (R.remaining requests.new)) }
{
    let mut input = Input::new(requests);
    let mut output = Output::new(out);
    converse_from(session, engine, &mut input, &mut output, listener)
}

/// The state of a session between two requests.
#[derive(Drop)]
struct Progress {
    /// The session, and the store of the last request.
    workspace: Workspace,
    /// The bytes that were read after that request.
    ahead: ReadAhead,
    /// The number of requests that were answered.
    answered: u64,
}

/// Answers the requests of an input to an output, as `converse` does. A stream that has failed is
/// not used again.
pub(crate) fn converse_from<B: TermBank, R: Read, W: Write, L: Listener>(
    session: Session,
    engine: &mut Engine<B>,
    requests: &mut Input<'_, R>,
    out: &mut Output<'_, W>,
    listener: &mut L,
) -> Result<(), ServeFault>
    ensures same { SameEngine engine.old engine.new }
    ensures output { OnOk result (IfSome (remaining_in R.remaining requests.old)
        (λ bytes. Converses engine.old.spec session.settings bytes (contents_of W.contents out.old)
        (contents_of W.contents out.new))) }
    ensures fault { IfErr result (λ fault. IfSome (remaining_in R.remaining requests.old)
        (λ bytes. BreaksOff engine.old.spec session.settings bytes fault
        (contents_of W.contents out.old) (contents_of W.contents out.new))) }
    ensures requests_read { OnOk result (IsAtEnd (remaining_in R.remaining requests.new)) }
    ensures read_reports { ReportsServeRead requests.old requests.new
        (remaining_in R.remaining requests.old) result }
    ensures write_reports { ReportsServeWrite out.old out.new result }
{
    let ahead = match ReadAhead::new(session.alloc) {
        Ok(ahead) => ahead,
        Err(AllocError) => return Err(ServeFault::Memory),
    };
    let mut progress = Progress {
        workspace: Workspace::new(session),
        ahead,
        answered: 0,
    };
    for answered in 0..u64::MAX {
        match answer_next(&mut progress, engine, requests, out, listener) {
            Ok(true) => {}
            Ok(false) => return Ok(()),
            Err(fault) => return Err(fault.after(answered)),
        }
    }
    Err(ServeFault::Read { answered: u64::MAX })
}

/// Answers the next request, if there is one, and reports it to the listener if it is rejected.
/// Returns whether there was a request.
fn answer_next<B: TermBank, R: Read, W: Write, L: Listener>(
    progress: &mut Progress,
    engine: &mut Engine<B>,
    requests: &mut Input<'_, R>,
    out: &mut Output<'_, W>,
    listener: &mut L,
) -> Result<bool, ServeFault>
    requires counted { progress.old.answered < u64.MAX }
    ensures same { SameEngine engine.old engine.new }
    ensures session { progress.new.workspace.session ≡ progress.old.workspace.session }
    ensures counts { result ≡ Ok true → progress.new.answered ≡ progress.old.answered + 1 }
    ensures step { IfOk result (λ is_more. MatchBool is_more
        (Replies
        (IsReplyOf B.store engine.old.spec progress.old.workspace.session.settings
        progress.new.workspace engine.new)
        (left_of progress.old.ahead (remaining_in R.remaining requests.old))
        (left_of progress.new.ahead (remaining_in R.remaining requests.new))
        (contents_of W.contents out.old) (contents_of W.contents out.new))
        (EndsStep (left_of progress.old.ahead (remaining_in R.remaining requests.old))
        (remaining_in R.remaining requests.new)
        (contents_of W.contents out.old) (contents_of W.contents out.new))) }
    ensures fault { IfErr result (λ fault. StopsStep
        (IsReplyOf B.store engine.old.spec progress.old.workspace.session.settings
        progress.new.workspace engine.new)
        fault (left_of progress.old.ahead (remaining_in R.remaining requests.old))
        (contents_of W.contents out.old) (contents_of W.contents out.new)) }
    ensures read_reports { ReportsRead requests.old requests.new
        (left_of progress.old.ahead (remaining_in R.remaining requests.old)) result }
    ensures write_reports { ReportsServeWrite out.old out.new result }
    ensures told { MatchResult result
        (λ _. Hears L.says (progress.old.answered + 1) (L.told listener.old) (L.told listener.new))
        (λ _. L.told listener.new ≡ L.told listener.old) }
{
    // The old store is dropped before memory is allocated for the next request, so that a new store
    // fits into the same memory.
    progress.workspace.renew();
    let alloc = progress.workspace.session.alloc;
    match next_request(alloc, &mut progress.ahead, requests, out) {
        Ok(Some(request)) => match reply(&mut progress.workspace, engine, &request, out) {
            Ok(refusal) => {
                progress.answered += 1;
                tell(
                    engine.checked(),
                    progress.answered,
                    &request,
                    refusal,
                    listener,
                );
                Ok(true)
            }
            Err(RefusedWrite) => Err(ServeFault::Write { answered: 0 }),
        },
        Ok(None) => Ok(false),
        Err(fault) => Err(fault),
    }
}

/// Returns the line that is written for a request.
fn reply_text(reply: &Result<Answered, EngineFault>) -> &[u8]
    ensures { result.now ≡ text_of reply.now }
{
    match reply {
        Ok(answer) => &answer.text,
        Err(EngineFault::Memory) => b"!memory\n",
        Err(EngineFault::Room) => b"!cells\n",
        Err(EngineFault::Deep) => b"!depth\n",
    }
}

/// Reports a request to the listener if it is rejected.
fn tell<L: Listener>(
    checked: &Checked,
    number: u64,
    request: &Request,
    refusal: Option<Refusal>,
    listener: &mut L,
)
    ensures { L.told listener.new ≡ L.told listener.old
        ++ heard_of L.says number request.now.text.items refusal }
{
    if let Some(refusal) = refusal {
        listener.hear_refusal(checked, number, &request.text, refusal);
    }
}

/// Writes the response to a request, and returns the reason why it is rejected, if it is.
fn reply<B: TermBank, W: Write>(
    workspace: &mut Workspace,
    engine: &mut Engine<B>,
    request: &Request,
    out: &mut Output<'_, W>,
) -> Result<Option<Refusal>, RefusedWrite>
    ensures same { SameEngine engine.old engine.new }
    ensures session { workspace.new.session ≡ workspace.old.session }
    ensures ok { OnOk result (IsRepliedTo
        (IsReplyOf B.store engine.old.spec workspace.old.session.settings workspace.new engine.new)
        request.now (contents_of W.contents out.old) (contents_of W.contents out.new)) }
    ensures err { OnErr result (IsPartlyRepliedTo
        (IsReplyOf B.store engine.old.spec workspace.old.session.settings workspace.new engine.new)
        request.now (contents_of W.contents out.old) (contents_of W.contents out.new)) }
    ensures reports { ReportsRefusal out.old out.new result }
{
    let found = answer_kept(workspace, engine, request);
    match out.put(reply_text(&found)) {
        Ok(()) => Ok(refusal_in(&found)),
        Err(fault) => Err(fault),
    }
}

/// Returns the reason why a request is rejected, if it is.
fn refusal_in(reply: &Result<Answered, EngineFault>) -> Option<Refusal> {
    match reply {
        Ok(answer) => answer.refusal,
        Err(_) => None,
    }
}

/// Returns the response to a request, of which the first bytes were kept. The request is read in the
/// store of the workspace.
fn answer_kept<B: TermBank>(
    workspace: &mut Workspace,
    engine: &mut Engine<B>,
    request: &Request,
) -> Result<Answered, EngineFault>
    ensures same { SameEngine engine.old engine.new }
    ensures session { workspace.new.session ≡ workspace.old.session }
    ensures answered { IfOk result (λ a. (line : List ℕ) → IsRead request.now line
        → IsAnswer engine.old.spec workspace.old.session.settings
        line a.text.items) }
    ensures bound { IfOk result (λ a. a.refusal ≡ None
        → KeepsLimit workspace.old.session.settings.depth engine.new.bound engine.new.waiting) }
    ensures reason { IfErr result (HasReason B.store workspace.new engine.new) }
{
    if request.is_lost {
        return Err(EngineFault::Memory);
    }
    match workspace.take_bank(request.text.len()) {
        Ok(mut own) => {
            let found = answer(workspace.session, &mut *own, engine, &request.text);
            workspace.give_back(own);
            found
        }
        Err(AllocError) => Err(EngineFault::Memory),
    }
}
