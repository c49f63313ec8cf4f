//! Tests of traces, rewrite by rewrite.

ghost use Rattle.std.specs.Prelude.{◌≡◌, Some};
ghost use Rattle.rx_term.specs.Store.{tree_at};
ghost use Rattle.rx_term.specs.Tree.{Tree};
ghost use Rattle.rec_engine.specs.Engine.{SameEngine};
ghost use Rattle.rec_trace.specs.Tracing.{IsEvent, Rewrites, Stands};

use crate::banks::expect_text;
use crate::cases::{ANEW, Bank, Case, Question, expect_cases};
use rec_engine::Engine;
use rec_trace::{Event, Tracer, Turn};
use rx_term::{Term, TermBank};
use std::alloc::Global;
use std::process::Abort;

/// A sum, and a condition that spends a step.
const SPEC: &[u8] = b"REC-SPEC Add SORTS N \
    CONS z : -> N s : N -> N \
    OPNS add : N N -> N f : N -> N \
    VARS X Y : N \
    RULES add(z,Y) -> Y add(s(X),Y) -> s(add(X,Y)) f(X) -> s(X) if add(X,z) -><- X \
    EVAL add(s(z),s(z)) f(z) END-SPEC";

/// A rewrite: its rule, the redex, its replacement, and the steps left.
pub struct Fired {
    rule: u32,
    redex: &'static [u8],
    contractum: &'static [u8],
    left: u64,
}

/// A request to a trace.
#[derive(Drop)]
pub enum Asked {
    /// The whole term, with its text.
    Whole(&'static [u8]),
    /// The next step, which is this rewrite.
    Step(&'static Fired),
    /// The next event, which is this rewrite; then its replacement.
    Event(&'static Fired),
    /// The next event, which is a rewrite. The replacement is not made.
    Unwritten,
}

/// The last request to a trace.
#[derive(Drop)]
pub enum Last {
    /// The next step, which is the result with this text.
    Step(&'static [u8]),
    /// The next event, which is the result with this text.
    Event(&'static [u8]),
    /// The next step, which exceeds the step limit.
    StepOverLimit,
    /// The next event, which exceeds the step limit.
    EventOverLimit,
}

/// The index of a term, the step limit of its trace, and the requests in order.
pub type Trace = (u32, u64, &'static [Asked], Last);

/// Traces of one engine, one after the other.
pub type Traced = &'static [Trace];

/// Returns the next step of a trace: a rewrite or the result.
fn step_of<B: TermBank>(
    rt: &impl Abort,
    alloc: Global,
    engine: &mut Engine<B>,
    tracer: &mut Tracer,
) -> Turn
    requires { Stands engine.old.spec (B.store engine.old.bank) tracer.old }
    ensures same { SameEngine engine.old engine.new }
    ensures stands { Stands engine.old.spec (B.store engine.new.bank) tracer.new }
{
    let turn = tracer.next_step(alloc, engine).expect(rt, "a step");
    assert!(rt; !matches!(turn, Turn::Limit));
    turn
}

/// Aborts the test unless a redex and its replacement have the texts of this rewrite.
fn expect_texts<B: TermBank>(
    rt: &impl Abort,
    alloc: Global,
    bank: &B,
    (redex, contractum): (Term, Term),
    wanted: &Fired,
) {
    expect_text(rt, alloc, bank, redex, wanted.redex);
    expect_text(rt, alloc, bank, contractum, wanted.contractum);
}

/// Aborts the test unless this rewrite's rule was applied, and the steps left are as expected.
fn expect_rule(rt: &impl Abort, tracer: &Tracer, rule: u32, wanted: &Fired) {
    assert!(rt; rule == wanted.rule && tracer.left() == wanted.left);
}

/// Aborts the test unless the next step of a trace is this rewrite.
fn expect_fired<B: TermBank>(
    rt: &impl Abort,
    alloc: Global,
    engine: &mut Engine<B>,
    tracer: &mut Tracer,
    wanted: &Fired,
)
    requires { Stands engine.old.spec (B.store engine.old.bank) tracer.old }
    ensures same { SameEngine engine.old engine.new }
    ensures stands { Stands engine.old.spec (B.store engine.new.bank) tracer.new }
{
    let Turn::Fired {
        rule,
        redex,
        contractum,
    } = step_of(rt, alloc, engine, tracer)
    else {
        panic!(rt; "a firing")
    };
    expect_rule(rt, tracer, rule, wanted);
    expect_texts(rt, alloc, engine.bank(), (redex, contractum), wanted);
}

/// Aborts the test unless the next step of a trace is the result with this text.
fn expect_value<B: TermBank>(
    rt: &impl Abort,
    alloc: Global,
    engine: &mut Engine<B>,
    tracer: &mut Tracer,
    wanted: &[u8],
)
    requires { Stands engine.old.spec (B.store engine.old.bank) tracer.old }
{
    let Turn::Value { term } = step_of(rt, alloc, engine, tracer) else {
        panic!(rt; "a value")
    };
    expect_text(rt, alloc, engine.bank(), term, wanted);
}

/// Returns the next event of a trace: a rewrite or the result.
fn event_of<B: TermBank>(rt: &impl Abort, engine: &mut Engine<B>, tracer: &mut Tracer) -> Event
    requires { Stands engine.old.spec (B.store engine.old.bank) tracer.old }
    ensures same { SameEngine engine.old engine.new }
    ensures stands { Stands engine.old.spec (B.store engine.new.bank) tracer.new }
    ensures event { IsEvent engine.old.spec (B.store engine.old.bank) (B.store engine.new.bank)
        tracer.old tracer.new result }
{
    let event = tracer.next_event(engine).expect(rt, "an event");
    assert!(rt; !matches!(event, Event::Limit));
    event
}

/// Returns the rule and the redex of the next event. Aborts the test unless it is this rewrite.
fn fired_event<B: TermBank>(
    rt: &impl Abort,
    alloc: Global,
    engine: &mut Engine<B>,
    tracer: &mut Tracer,
    wanted: &Fired,
) -> (u32, Term)
    requires { Stands engine.old.spec (B.store engine.old.bank) tracer.old }
    ensures same { SameEngine engine.old engine.new }
    ensures stands { Stands engine.old.spec (B.store engine.new.bank) tracer.new }
    ensures fired { (u : Tree) × (v : Tree)
        × (tree_at (B.store engine.new.bank) result.1 ≡ Some u)
        × Rewrites engine.old.spec result.0 u v }
{
    let Event::Fired { rule, redex } = event_of(rt, engine, tracer) else {
        panic!(rt; "a firing")
    };
    expect_rule(rt, tracer, rule, wanted);
    expect_text(rt, alloc, engine.bank(), redex, wanted.redex);
    (rule, redex)
}

/// Aborts the test unless the next event of a trace is this rewrite, with its replacement.
fn expect_event<B: TermBank>(
    rt: &impl Abort,
    alloc: Global,
    engine: &mut Engine<B>,
    tracer: &mut Tracer,
    wanted: &Fired,
)
    requires { Stands engine.old.spec (B.store engine.old.bank) tracer.old }
    ensures same { SameEngine engine.old engine.new }
    ensures stands { Stands engine.old.spec (B.store engine.new.bank) tracer.new }
{
    let (rule, redex) = fired_event(rt, alloc, engine, tracer, wanted);
    let made = tracer
        .rewrite(alloc, engine, rule, redex)
        .expect(rt, "the rewritten term");
    expect_texts(
        rt,
        alloc,
        engine.bank(),
        (made.redex, made.contractum),
        wanted,
    );
}

/// Aborts the test unless the next event of a trace is the result with this text.
fn expect_last_event<B: TermBank>(
    rt: &impl Abort,
    alloc: Global,
    engine: &mut Engine<B>,
    tracer: &mut Tracer,
    wanted: &[u8],
)
    requires { Stands engine.old.spec (B.store engine.old.bank) tracer.old }
{
    let Event::Value { term } = event_of(rt, engine, tracer) else {
        panic!(rt; "a value")
    };
    expect_text(rt, alloc, engine.bank(), term, wanted);
}

/// Aborts the test unless the whole term has this text.
fn expect_whole_term<B: TermBank>(
    rt: &impl Abort,
    alloc: Global,
    engine: &mut Engine<B>,
    tracer: &mut Tracer,
    wanted: &[u8],
)
    requires { Stands engine.old.spec (B.store engine.old.bank) tracer.old }
    ensures same { SameEngine engine.old engine.new }
    ensures stands { Stands engine.old.spec (B.store engine.new.bank) tracer.new }
{
    let whole = tracer.whole(alloc, engine).expect(rt, "the whole term");
    expect_text(rt, alloc, engine.bank(), whole, wanted);
}

/// Aborts the test unless the next event of a trace is a rewrite.
fn expect_unwritten<B: TermBank>(rt: &impl Abort, engine: &mut Engine<B>, tracer: &mut Tracer)
    requires { Stands engine.old.spec (B.store engine.old.bank) tracer.old }
    ensures same { SameEngine engine.old engine.new }
    ensures stands { Stands engine.old.spec (B.store engine.new.bank) tracer.new }
{
    let event = event_of(rt, engine, tracer);
    assert!(rt; matches!(event, Event::Fired { .. }));
}

/// Aborts the test unless a trace answers a request as expected.
fn expect_asked<B: TermBank>(
    rt: &impl Abort,
    alloc: Global,
    engine: &mut Engine<B>,
    tracer: &mut Tracer,
    asked: &Asked,
)
    requires { Stands engine.old.spec (B.store engine.old.bank) tracer.old }
    ensures same { SameEngine engine.old engine.new }
    ensures stands { Stands engine.old.spec (B.store engine.new.bank) tracer.new }
{
    match asked {
        Asked::Whole(text) => expect_whole_term(rt, alloc, engine, tracer, text),
        Asked::Step(wanted) => expect_fired(rt, alloc, engine, tracer, wanted),
        Asked::Event(wanted) => expect_event(rt, alloc, engine, tracer, wanted),
        Asked::Unwritten => expect_unwritten(rt, engine, tracer),
    }
}

/// Aborts the test unless the next step of a trace exceeds the step limit.
fn expect_limit<B: TermBank>(
    rt: &impl Abort,
    alloc: Global,
    engine: &mut Engine<B>,
    tracer: &mut Tracer,
)
    requires { Stands engine.old.spec (B.store engine.old.bank) tracer.old }
{
    let turn = tracer.next_step(alloc, engine).expect(rt, "a step");
    assert!(rt; matches!(turn, Turn::Limit));
}

/// Aborts the test unless the next event of a trace exceeds the step limit.
fn expect_limit_event<B: TermBank>(rt: &impl Abort, engine: &mut Engine<B>, tracer: &mut Tracer)
    requires { Stands engine.old.spec (B.store engine.old.bank) tracer.old }
{
    let event = tracer.next_event(engine).expect(rt, "an event");
    assert!(rt; matches!(event, Event::Limit));
}

/// Aborts the test unless a trace answers the last request as expected.
fn expect_last<B: TermBank>(
    rt: &impl Abort,
    alloc: Global,
    engine: &mut Engine<B>,
    tracer: &mut Tracer,
    last: &Last,
)
    requires { Stands engine.old.spec (B.store engine.old.bank) tracer.old }
{
    match last {
        Last::Step(text) => expect_value(rt, alloc, engine, tracer, text),
        Last::Event(text) => expect_last_event(rt, alloc, engine, tracer, text),
        Last::StepOverLimit => expect_limit(rt, alloc, engine, tracer),
        Last::EventOverLimit => expect_limit_event(rt, engine, tracer),
    }
}

/// Aborts the test unless a trace that was started answers all requests as expected.
fn follow<B: TermBank>(
    rt: &impl Abort,
    alloc: Global,
    engine: &mut Engine<B>,
    tracer: &mut Tracer,
    trace: &Trace,
)
    requires { Stands engine.old.spec (B.store engine.old.bank) tracer.old }
{
    for asked in trace.2 {
        expect_asked(rt, alloc, engine, tracer, asked);
    }
    expect_last(rt, alloc, engine, tracer, &trace.3);
}

/// Starts a trace, and aborts the test unless it answers as expected.
fn begin<B: TermBank>(rt: &impl Abort, alloc: Global, engine: &mut Engine<B>, trace: &Trace) {
    assert!(rt; engine.eval_terms() == 2 && trace.0 < 2);
    let mut tracer = Tracer::of_eval(alloc, engine, trace.0, trace.1).expect(rt, "a trace");
    follow(rt, alloc, engine, &mut tracer, trace);
}

/// Aborts the test unless an engine for the specification has these traces.
pub fn ask<B: TermBank>(rt: &impl Abort, alloc: Global, engine: &mut Engine<B>, traced: &Traced) {
    for trace in *traced {
        begin(rt, alloc, engine, trace);
    }
}

/// The first rewrite of the sum.
const FIRST: Fired = Fired {
    rule: 1,
    redex: b"add(s(z),s(z))",
    contractum: b"s(add(z,s(z)))",
    left: 4,
};

/// The second rewrite of the sum.
const SECOND: Fired = Fired {
    rule: 0,
    redex: b"add(z,s(z))",
    contractum: b"s(z)",
    left: 3,
};

/// A rewrite after a condition of one step, which is not shown.
const BEHIND: Fired = Fired {
    rule: 2,
    redex: b"f(z)",
    contractum: b"s(z)",
    left: 3,
};

/// The trace of the sum.
const SUM: Trace = (
    0,
    5,
    &[Asked::Step(&FIRST), Asked::Step(&SECOND)],
    Last::Step(b"s(s(z))"),
);

/// The trace of the sum, with the whole terms.
const WHOLE_TERMS: Trace = (
    0,
    5,
    &[
        Asked::Whole(b"add(s(z),s(z))"),
        Asked::Step(&FIRST),
        Asked::Whole(b"s(add(z,s(z)))"),
        Asked::Step(&SECOND),
        Asked::Whole(b"s(s(z))"),
    ],
    Last::Step(b"s(s(z))"),
);

/// The trace of a term with a condition.
const CONDITION: Trace = (1, 5, &[Asked::Step(&BEHIND)], Last::Step(b"s(z)"));

/// The trace of the sum by events.
const EVENTS: Trace = (
    0,
    5,
    &[Asked::Event(&FIRST), Asked::Event(&SECOND)],
    Last::Event(b"s(s(z))"),
);

/// The trace of the sum by events, without the replacement of the first redex.
const UNWRITTEN: Trace = (
    0,
    5,
    &[Asked::Unwritten, Asked::Step(&SECOND)],
    Last::Event(b"s(s(z))"),
);

/// The trace of a term with a condition, by events.
const CONDITION_EVENTS: Trace = (1, 5, &[Asked::Event(&BEHIND)], Last::Event(b"s(z)"));

/// A trace without steps exceeds its limit at once.
const NOTHING: Trace = (0, 0, &[], Last::StepOverLimit);

/// A trace without steps, by events.
const NO_EVENT: Trace = (0, 0, &[], Last::EventOverLimit);

const TRACES: [Traced; 7] = [
    &[SUM],
    &[WHOLE_TERMS],
    &[CONDITION],
    &[EVENTS],
    &[UNWRITTEN],
    &[CONDITION_EVENTS],
    &[NOTHING, NO_EVENT],
];

/// Returns the test case for these traces.
fn case(traced: Traced) -> Case {
    Case {
        spec: SPEC,
        options: ANEW,
        bank: Bank::Plain(1000),
        question: Question::Trace(traced),
    }
}

#[test]
fn terms_are_traced(rt: HostRuntime) {
    for traced in &TRACES {
        expect_cases(&rt, rt.alloc(), &[&case(*traced)]);
    }
}
