//! Sessions over readers and writers that transfer one byte in each call.

ghost use Rattle.std.specs.Prelude.{◌<◌, ◌≤◌};

use crate::rows::streams::{Sink, Slow, bytewise, failing, failing_at, taking, unflushed};
use crate::rows::{Q, options};
use rec_engine::{Engine, EngineFault};
use rec_run::{ValueForm, engine_over, read_spec_text};
use rec_serve::{Deaf, Refusal, ServeFault, ServeSettings, Session, answer, converse, run_serve};
use rec_sorts::Checked;
use rx_run::{Ending, InputForm, Named, Place, Reading, Source};
use rx_shared::SharedBank;
use std::alloc::Global;
use std::io::ErrorKind;
use std::process::Abort;

/// Requests of each kind for a specification.
const REQUESTS: &str = "f(a)\n\n f ( a ) {b}\nf(a\n3\nf(a{b})\nc\nf\nf(b)\nf(f(a))\nb";

/// The responses with one step.
const LINES: &str = "a\t1\n!term A\na{b}\t1\n!term A\n!term T2\n!term T3\n!term T4\n!term T5\n\
     !term T6\n!limit 1\nb\t0\n";

/// Requests that are read as tables: accepted ones, and some for each error.
const TABLES: &str =
    "[f(a)]\n[a,f(<0>){b,<0>}]\n[b{<[a]>}]\n[f(a),f(<0>)]\n\n[a\nf(a)\n[]\n[a]{b}\n\
     [f(<0>)]\n[a,f(<1>)]\n[a,f(<0>{b})]\n[a,f(<-1>)]\n[a,f(<a>)]\n[3,f(<0>)]\n[b,f(a{<0>})]\n[c]\n\
     [a,f]\n[b,f(<0>)]";

/// Their responses with one step.
const TABLE_LINES: &str = "a\t1\na{b,a}\t1\nb{<a>}\t0\n!limit 1\n!term A\n!term A\n!term R1\n\
     !term R1\n!term R1\n!term R2\n!term R2\n!term R2\n!term R2\n!term R2\n!term T2\n!term T3\n\
     !term T4\n!term T5\n!term T6\n";

/// Returns the number of complete lines.
fn lines_in(held: &[u8]) -> u64 {
    held.iter().filter(|byte| **byte == b'\n').count() as u64
}

/// Returns the error that ended a session, if there is one.
fn fault_in(end: Result<Ending, ServeFault>) -> Option<ServeFault> {
    match end {
        Ok(_) => None,
        Err(fault) => Some(fault),
    }
}

/// Aborts the test unless a prefix of the responses was written.
fn expect_beginning(rt: &impl Abort, out: &Sink) {
    assert!(rt; LINES.as_bytes().starts_with(out.held.as_slice()));
}

/// Returns a session with one step and without a call-depth limit, whose requests are in this form.
fn one_step(alloc: Global, is_counted: bool, input: InputForm) -> Session {
    let settings = ServeSettings {
        options: options(1, is_counted),
        form: ValueForm::Plain,
        depth: None,
        input,
    };
    Session { alloc, settings }
}

/// Runs a session with one step for each request, which is printed.
fn converse_with(
    alloc: Global,
    spec: &str,
    requests: &mut Slow<'_>,
    out: &mut Sink,
) -> Result<Ending, ServeFault> {
    let session = one_step(alloc, true, InputForm::Term);
    run_serve(session, &mut bytewise(spec), requests, out, &mut Deaf)
}

/// Returns the number of complete lines of a session, and the error that ended it.
fn stop(alloc: Global, requests: &mut Slow<'_>, out: &mut Sink) -> (u64, Option<ServeFault>) {
    let end = converse_with(alloc, Q, requests, out);
    (lines_in(out.held.as_slice()), fault_in(end))
}

/// Runs a session whose reader fails at read number `at`.
fn fails_to_read(rt: &impl Abort, alloc: Global, out: &mut Sink, at: usize) {
    let mut requests = failing(REQUESTS, at, ErrorKind::Other);
    let (answered, fault) = stop(alloc, &mut requests, out);
    assert!(rt;
        fault == Some(ServeFault::Read { answered }) && requests.reads == at,
        "{at}"
    );
    expect_beginning(rt, out);
}

/// Runs a session whose writer fails, or writes nothing, at write number `at`.
fn fails_to_write(rt: &impl Abort, alloc: Global, out: &mut Sink, at: usize) {
    let (answered, fault) = stop(alloc, &mut bytewise(REQUESTS), out);
    assert!(rt;
        fault == Some(ServeFault::Write { answered }) && out.writes == at,
        "{at}"
    );
    expect_beginning(rt, out);
}

/// Runs a session whose writer cannot be flushed. No request is read before.
fn fails_to_flush(rt: &impl Abort, alloc: Global, out: &mut Sink, requests: &mut Slow<'_>) {
    let (_, fault) = stop(alloc, requests, out);
    assert!(rt; fault == Some(ServeFault::Write { answered: 0 }));
    assert!(rt; requests.reads == 0 && out.held.is_empty());
}

#[test]
fn answers_each_request(rt: HostRuntime) {
    let alloc = rt.alloc();
    let mut out = taking(alloc);
    let mut requests = bytewise(REQUESTS);
    let end = converse_with(alloc, Q, &mut requests, &mut out);
    assert!(rt; matches!(end, Ok(Ending::Done)) && out.held.as_slice() == LINES.as_bytes());
}

#[test]
fn answers_each_table(rt: HostRuntime) {
    let alloc = rt.alloc();
    let mut out = taking(alloc);
    let session = one_step(alloc, true, InputForm::Table);
    let mut spec = bytewise(Q);
    let mut requests = bytewise(TABLES);
    let end = run_serve(session, &mut spec, &mut requests, &mut out, &mut Deaf);
    assert!(rt; matches!(end, Ok(Ending::Done)) && out.held.as_slice() == TABLE_LINES.as_bytes());
}

#[test]
fn long_values_are_not_written(rt: HostRuntime) {
    let alloc = rt.alloc();
    let mut out = taking(alloc);
    let settings = ServeSettings {
        options: options(1, true),
        form: ValueForm::Within(4),
        depth: None,
        input: InputForm::Term,
    };
    let session = Session { alloc, settings };
    let mut spec = bytewise(Q);
    let mut requests = bytewise("f(a)\nf(a){b}\nf(a){b,a}\nf(f(a))\nb{long}\nb");
    let end = run_serve(session, &mut spec, &mut requests, &mut out, &mut Deaf);
    let due = b"a\t1\na{b}\t1\n!bytes 4\n!limit 1\n!bytes 4\nb\t0\n";
    assert!(rt; matches!(end, Ok(Ending::Done)) && out.held.as_slice() == due.as_slice());
}

#[test]
fn breaks_off_where_a_stream_fails(rt: HostRuntime) {
    let alloc = rt.alloc();
    for at in 1..=REQUESTS.len() {
        fails_to_read(&rt, alloc, &mut taking(alloc), at);
    }
    for at in 1..=LINES.len() {
        let error = Some(ErrorKind::Interrupted);
        fails_to_write(&rt, alloc, &mut failing_at(alloc, at, error), at);
        fails_to_write(&rt, alloc, &mut failing_at(alloc, at, None), at);
    }
    let out = &mut unflushed(alloc, ErrorKind::Other);
    fails_to_flush(&rt, alloc, out, &mut bytewise(REQUESTS));
}

/// Aborts the test unless a specification with a sort that has no name is rejected before a request
/// is read.
fn expect_spoilt(rt: &impl Abort, alloc: Global, out: &mut Sink, requests: &mut Slow<'_>) {
    let spec = "REC-SPEC E SORTS : END-SPEC";
    let Ok(ending) = converse_with(alloc, spec, requests, out) else {
        panic!(rt; "a stream refused")
    };
    let text = Source::Spec;
    let rule = Named::G;
    assert!(rt; matches!(ending, Ending::Refused(_)) && requests.reads == 0);
    assert!(rt;
        ending.place() == Some(Place { text, rule, at: 17 })
            && out.held.as_slice() == b"!spec G\n".as_slice()
    );
}

#[test]
fn a_refused_specification_is_enough(rt: HostRuntime) {
    let out = &mut taking(rt.alloc());
    expect_spoilt(&rt, rt.alloc(), out, &mut bytewise(REQUESTS));
}

/// Returns an engine for a specification, with its own store.
fn engine_for(rt: &impl Abort, alloc: Global, mut spec: &[u8]) -> Box<Engine<SharedBank>> {
    let Ok(Reading::Good(checked)) = read_spec_text(alloc, &mut spec) else {
        panic!(rt; "a good specification")
    };
    boxed_engine(rt, alloc, checked)
}

/// Returns the engine of a specification that was read.
fn boxed_engine(rt: &impl Abort, alloc: Global, checked: Checked) -> Box<Engine<SharedBank>> {
    let bank = SharedBank::new(alloc, 1000).expect(rt, "memory");
    let made = engine_over(alloc, checked, bank, None, options(1, false));
    boxed(rt, alloc, made)
}

/// Returns the engine on the heap.
fn boxed(
    rt: &impl Abort,
    alloc: Global,
    made: Result<Engine<SharedBank>, SharedBank>,
) -> Box<Engine<SharedBank>> {
    let Ok(engine) = made else {
        panic!(rt; "memory")
    };
    Box::new(alloc, engine).expect(rt, "memory")
}

/// Returns an empty store of this capacity for a request.
fn store_of(rt: &impl Abort, alloc: Global, cells: u32) -> Box<SharedBank>
    requires { (0 < cells) × (cells ≤ 1000) }
{
    let bank = SharedBank::new(alloc, cells).expect(rt, "memory");
    Box::new(alloc, bank).expect(rt, "memory")
}

/// A request, the form in which it is read, and its response or the reason why it is rejected.
type Request = (InputForm, &'static str, Result<&'static str, Refusal>);

static ANSWERED: [Request; 6] = [
    (InputForm::Term, "f(a){b}", Ok("a{b}\n")),
    (InputForm::Term, "f(", Err(Refusal::Outside { at: 2 })),
    (InputForm::Table, "[a,f(<0>){b}]", Ok("a{b}\n")),
    (InputForm::Table, "a", Err(Refusal::NotTable)),
    (
        InputForm::Table,
        "[a,f(<1>)]",
        Err(Refusal::Element { number: 1 }),
    ),
    (
        InputForm::Table,
        "[b,f(<0>)]",
        Err(Refusal::Rule { number: 6 }),
    ),
];

/// Aborts the test unless a request has this response.
fn expect_answer(rt: &impl Abort, alloc: Global, engine: &mut Engine<SharedBank>, row: &Request) {
    let (input, request, due) = *row;
    let mut own = store_of(rt, alloc, 1000);
    let session = one_step(alloc, false, input);
    let answered = answer(session, &mut *own, engine, request.as_bytes()).expect(rt, "memory");
    let is_due = match due {
        Ok(line) => answered.text.as_slice() == line.as_bytes() && answered.refusal.is_none(),
        Err(refusal) => answered.refusal == Some(refusal),
    };
    assert!(rt; is_due, "{request}");
}

/// Tests a request that does not fit into a store of three cells.
fn wants_cells(rt: &impl Abort, alloc: Global, engine: &mut Engine<SharedBank>) {
    let mut own = store_of(rt, alloc, 3);
    let session = one_step(alloc, false, InputForm::Term);
    let wanting = answer(session, &mut *own, engine, b"f(a)");
    assert!(rt; matches!(wanting, Err(EngineFault::Room)));
}

/// Runs a session with the engine.
fn converses(rt: &impl Abort, alloc: Global, engine: &mut Engine<SharedBank>, out: &mut Sink) {
    let mut requests = bytewise("f(a)\nf(b)\n");
    let session = one_step(alloc, false, InputForm::Term);
    let end = converse(session, engine, &mut requests, out, &mut Deaf);
    assert!(rt; end == Ok(()) && out.held.as_slice() == b"a\n!term T6\n".as_slice());
}

#[test]
fn answers_over_an_engine(rt: HostRuntime) {
    let alloc = rt.alloc();
    let mut engine = engine_for(&rt, alloc, Q.as_bytes());
    for row in &ANSWERED {
        expect_answer(&rt, alloc, &mut engine, row);
    }
    wants_cells(&rt, alloc, &mut engine);
    converses(&rt, alloc, &mut engine, &mut taking(alloc));
}
