//! The response to one request.

ghost use Rattle.std.specs.Prelude.{
  ◌≡◌,
  [],
  IfErr,
  IfOk,
  IfSome,
  IsSome,
  None,
  OnOk,
  Some,
};
ghost use Rattle.rx_term.specs.Steps.{Grows, IsBankRefusal, Keeps};
ghost use Rattle.rx_term.specs.Store.{tree_at};
ghost use Rattle.rx_term.specs.Tree.{list_of, more, none};
ghost use Rattle.rx_term.specs.Walks.{held_tree};
ghost use Rattle.rec_engine.specs.Limits.{KeepsLimit};
ghost use Rattle.rec_engine.specs.Engine.{IsGiven, SameEngine};
ghost use Rattle.rec_sorts.specs.Binding.{tree_of};
ghost use Rattle.rec_sorts.specs.Evaluation.{term_of};
ghost use Rattle.rec_serve.specs.Answering.{AnswersTree, CellsOnly, DeepOnly, IsAnswered};
ghost use Rattle.rec_serve.specs.Conversation.{refusal_line};
ghost use Rattle.rec_serve.specs.Inner.Asked.{of_input, of_reason, of_store};

use crate::ending::Refusal;
use crate::lines::{outcome_text, refusal_text};
use crate::settings::Session;
use rec_engine::{Engine, EngineFault};
use rec_run::evaluate_within;
use rec_sorts::{TermsFault, check_terms};
use rx_run::{Reading, Reason, RunFault, Source, parse_input};
use rx_term::{BankFault, Term, TermBank};
use std::alloc::Global;

/// The response to a request.
#[derive(Drop)]
pub struct Answered {
    /// The response line, with the line end.
    pub text: Vec<u8>,
    /// The reason why the request is rejected, or `None` if it is accepted.
    pub refusal: Option<Refusal>,
}

/// Returns the response to a request, which is read in the form of the settings into the store `own`
/// of the caller. The error is `EngineFault::Room` only if that store is full or the engine has no
/// room, and `EngineFault::Deep` only if as many calls are pending as the settings allow. After an
/// error the engine can answer the next request.
pub fn answer<N: TermBank, B: TermBank>(
    session: Session,
    own: &mut N,
    engine: &mut Engine<B>,
    request: &[u8],
) -> Result<Answered, EngineFault>
    ensures answered { IfOk result
        (IsAnswered engine.old.spec session.settings request.now) }
    ensures same { SameEngine engine.old engine.new }
    ensures keeps { Keeps (B.store engine.old.bank) (B.store engine.new.bank) [] }
    ensures grows { Grows (N.store own.old) (N.store own.new) }
    ensures room { IfErr result (CellsOnly (N.store own.new) (B.store engine.new.bank)
        engine.new.work engine.new.memo) }
    ensures deep { IfErr result (DeepOnly engine.new.waiting session.settings.depth) }
    ensures bound { IfOk result (λ a. a.refusal ≡ None
        → KeepsLimit session.settings.depth engine.new.bound engine.new.waiting) }
{
    let input = session.settings.input;
    match parse_input(session.alloc, Source::Term, input, request, own) {
        Ok(Reading::Good(term)) => answer_term(session, own, engine, term),
        Ok(Reading::Refused(refused)) => refuse(session.alloc, refusal_for(refused.reason)),
        Err(fault) => Err(input_fault(fault)),
    }
}

/// Returns the reason why a request is rejected, from the error of its text.
fn refusal_for(reason: Reason) -> Refusal
    requires { IsSome (of_reason reason) }
    ensures { of_reason reason ≡ Some result }
{
    match reason {
        Reason::Long => Refusal::Long,
        Reason::Outside { at } => Refusal::Outside { at },
        Reason::NotTable => Refusal::NotTable,
        Reason::Element { number } => Refusal::Element { number },
        _ => unreachable!(),
    }
}

/// Returns the error of a request whose text was not read.
fn input_fault(fault: RunFault) -> EngineFault
    ensures { result ≡ of_input fault }
{
    match fault {
        RunFault::Room { lines: _ } => EngineFault::Room,
        _ => EngineFault::Memory,
    }
}

/// Returns the response to a request that is rejected.
fn refuse(alloc: Global, refusal: Refusal) -> Result<Answered, EngineFault>
    ensures text { IfOk result (λ a. a.text.items ≡ refusal_line refusal) }
    ensures refusal { IfOk result (λ a. a.refusal ≡ Some refusal) }
    ensures memory { IfErr result (λ fault. fault ≡ EngineFault.Memory) }
{
    match refusal_text(alloc, refusal) {
        Ok(text) => Ok(Answered {
            text,
            refusal: Some(refusal),
        }),
        Err(_) => Err(EngineFault::Memory),
    }
}

/// Returns the response to a request that is a term.
fn answer_term<N: TermBank, B: TermBank>(
    session: Session,
    own: &mut N,
    engine: &mut Engine<B>,
    term: Term,
) -> Result<Answered, EngineFault>
    requires { IsSome (tree_at (N.store own.old) term) }
    ensures answered { IfOk result (λ a. IfSome (tree_at (N.store own.old) term)
        (λ t. AnswersTree engine.old.spec session.settings t a)) }
    ensures same { SameEngine engine.old engine.new }
    ensures keeps { Keeps (B.store engine.old.bank) (B.store engine.new.bank) [] }
    ensures grows { Grows (N.store own.old) (N.store own.new) }
    ensures room { IfErr result (CellsOnly (N.store own.new) (B.store engine.new.bank)
        engine.new.work engine.new.memo) }
    ensures deep { IfErr result (DeepOnly engine.new.waiting session.settings.depth) }
    ensures bound { IfOk result (λ a. a.refusal ≡ None
        → KeepsLimit session.settings.depth engine.new.bound engine.new.waiting) }
{
    let list = match alone(own, term) {
        Ok(list) => list,
        Err(fault) => return Err(store_fault(fault)),
    };
    match check_terms(session.alloc, engine.checked(), own, list) {
        Ok(()) => answer_checked(session, own, engine, term),
        Err(TermsFault::Rule { number }) => refuse(session.alloc, Refusal::Rule { number }),
        Err(TermsFault::Memory) => Err(EngineFault::Memory),
    }
}

/// Returns the error of a request if the store in which it is read cannot make a term.
fn store_fault(fault: BankFault) -> EngineFault
    ensures { result ≡ of_store fault }
{
    match fault {
        BankFault::Memory => EngineFault::Memory,
        BankFault::Full => EngineFault::Room,
    }
}

/// Makes the list of one term.
fn alone<N: TermBank>(bank: &mut N, t: Term) -> Result<Term, BankFault>
    requires { IsSome (tree_at (N.store bank.old) t) }
    ensures list { IfOk result (λ r. IfSome (tree_at (N.store bank.old) t)
        (λ u. tree_at (N.store bank.new) r ≡ Some (list_of (more u none)))) }
    ensures grows { Grows (N.store bank.old) (N.store bank.new) }
    ensures full { IfErr result (IsBankRefusal (N.store bank.new)) }
{
    let nil = bank.nil()?;
    bank.cons(t, nil)
}

/// Returns the response to a request whose term violates no rule.
fn answer_checked<N: TermBank, B: TermBank>(
    session: Session,
    own: &N,
    engine: &mut Engine<B>,
    term: Term,
) -> Result<Answered, EngineFault>
    requires { IsGiven engine.old.spec (N.store own.now) term }
    ensures answered { IfOk result (λ a. IfSome (tree_at (N.store own.now) term)
        (λ t. AnswersTree engine.old.spec session.settings t a)) }
    ensures same { SameEngine engine.old engine.new }
    ensures keeps { Keeps (B.store engine.old.bank) (B.store engine.new.bank) [] }
    ensures room { IfErr result (CellsOnly (N.store own.now) (B.store engine.new.bank)
        engine.new.work engine.new.memo) }
    ensures deep { IfErr result (DeepOnly engine.new.waiting session.settings.depth) }
    ensures bound { OnOk result
        (KeepsLimit session.settings.depth engine.new.bound engine.new.waiting) }
{
    match engine.given_from(own, term) {
        Ok(given) => answer_given(session, own, engine, Asked { term, given }),
        Err(fault) => Err(fault),
    }
}

/// The term of a request in its store, and its copy in the store of the engine.
#[derive(Clone, Copy, Drop)]
struct Asked {
    /// The term.
    term: Term,
    /// The copy, without annotations.
    given: Term,
}

/// Returns the response to a request whose term the engine has.
fn answer_given<N: TermBank, B: TermBank>(
    session: Session,
    own: &N,
    engine: &mut Engine<B>,
    asked: Asked,
) -> Result<Answered, EngineFault>
    requires term { IsGiven engine.old.spec (N.store own.now) asked.term }
    requires given { IsGiven engine.old.spec (B.store engine.old.bank) asked.given }
    requires same { tree_at (B.store engine.old.bank) asked.given
        ≡ Some (tree_of (term_of (held_tree (N.store own.now) asked.term))) }
    ensures answered { IfOk result (λ a. IfSome (tree_at (N.store own.now) asked.term)
        (λ t. AnswersTree engine.old.spec session.settings t a)) }
    ensures same { SameEngine engine.old engine.new }
    ensures keeps { Keeps (B.store engine.old.bank) (B.store engine.new.bank) [] }
    ensures room { IfErr result (CellsOnly (N.store own.now) (B.store engine.new.bank)
        engine.new.work engine.new.memo) }
    ensures deep { IfErr result (DeepOnly engine.new.waiting session.settings.depth) }
    ensures bound { OnOk result
        (KeepsLimit session.settings.depth engine.new.bound engine.new.waiting) }
{
    let settings = session.settings;
    let outcome = evaluate_within(engine, asked.given, settings.options.steps, settings.depth)?;
    match outcome_text(session, own, asked.term, engine.bank(), outcome) {
        Ok(text) => Ok(Answered {
            text,
            refusal: None,
        }),
        Err(_) => Err(EngineFault::Memory),
    }
}
