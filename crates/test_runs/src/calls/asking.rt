//! The calls of test cases, and the comparison of their results.

use psilt_core::evaluating::Normalised;
use psilt_core::{Fault, Work};
use rx_term::{Kind, Term};
use std::alloc::Global;
use std::process::Abort;

/// The name under which a test case keeps a term, a pattern or a symbol.
pub(crate) type Name = &'static str;

/// A call. Its terms are given by their names, after its pattern or its symbol.
pub(crate) enum Call {
    Int(i32),
    Nil,
    Cons,
    Hole,
    Annotate,
    Appl(&'static [u8], bool),
    IsAppl,
    IsInt(i32),
    Arity,
    Quoted,
    Args,
    Annotations,
    Arg(u32),
    Head,
    Tail,
    Inner,
    Cells,
    HasSpare(u32),
    Reserve(u32),
    Holds,
    Protect,
    Unprotect,
    Reclaim,
    Read(&'static [u8]),
    ReadTable(&'static [u8]),
    Print,
    PrintTable,
    Name,
    Place,
    Rule,
    /// The specification, the capacity of the memo table, and the collection interval.
    Specify(&'static [u8], u32, u32),
    Unspecify,
    Normalise(u64),
    EvalTerms,
    EvalTerm(u32),
    Pattern(&'static [u8]),
    FreePattern,
    MatchTerm,
    Binding(usize),
    Make,
    Symbol(&'static [u8], bool, u32),
    Apply,
    /// The call of a symbol, with its step limit.
    CallOn(u64),
    /// The number itself.
    Number(u32),
    /// The successor of another number.
    Next,
    /// Whether two numbers are equal.
    IsOne,
}

/// The expected result of a call.
pub(crate) enum Due {
    /// A new value, which is kept under this name.
    Kept(Name),
    /// A new value, which is kept under this name, and a number of steps.
    KeptAfter(Name, u64),
    /// The value that is kept under this name.
    Known(Name),
    /// The value that is kept under this name, and a number of steps.
    KnownAfter(Name, u64),
    Number(usize),
    Flag(bool),
    Done,
    /// The text that the call left, with its length.
    Text(&'static [u8]),
    Not(Fault),
}

/// A call, the names of its arguments, and the expected result.
pub(crate) type Row = (Call, &'static [Name], Due);

/// The result of a call: the number of a term, a pattern or a symbol, another number, 1 for true,
/// or 0; and the number of steps of an evaluation.
#[derive(Clone, Copy)]
struct Answer {
    number: usize,
    steps: u64,
}

type Came = Result<Answer, Fault>;

/// Converts a number.
fn of_number(came: Result<usize, Fault>) -> Came {
    match came {
        Ok(number) => Ok(Answer { number, steps: 0 }),
        Err(fault) => Err(fault),
    }
}

/// Converts a number of 32 bits.
fn of_count(came: Result<u32, Fault>) -> Came {
    match came {
        Ok(n) => of_number(Ok(n as usize)),
        Err(fault) => Err(fault),
    }
}

/// Converts a term.
fn of_term(came: Result<Term, Fault>) -> Came {
    match came {
        Ok(t) => of_count(Ok(t.0)),
        Err(fault) => Err(fault),
    }
}

/// Converts a truth value.
fn of_flag(came: Result<bool, Fault>) -> Came {
    match came {
        Ok(holds) => of_number(Ok(holds as usize)),
        Err(fault) => Err(fault),
    }
}

/// Converts a result without a value.
fn of_done(came: Result<(), Fault>) -> Came {
    match came {
        Ok(()) => of_number(Ok(0)),
        Err(fault) => Err(fault),
    }
}

/// Converts the result of an evaluation.
fn of_value(came: Result<Normalised, Fault>) -> Came {
    match came {
        Ok(value) => Ok(Answer {
            number: value.term.0 as usize,
            steps: value.steps,
        }),
        Err(fault) => Err(fault),
    }
}

/// Returns the argument with this index. Test cases have the number of arguments that their calls
/// take.
fn given_at(given: &[u32], i: usize) -> u32 {
    if i < given.len() { given[i] } else { u32::MAX }
}

/// Returns the first argument as a term.
fn first(given: &[u32]) -> Term {
    Term(given_at(given, 0))
}

/// Returns the second argument as a term.
fn second(given: &[u32]) -> Term {
    Term(given_at(given, 1))
}

/// Returns the number of the pattern or symbol that is the first argument.
fn number(given: &[u32]) -> usize {
    given_at(given, 0) as usize
}

/// Returns the arguments after a pattern or a symbol.
fn rest(given: &[u32]) -> &[u32] {
    match given {
        [_, rest @ ..] => rest,
        [] => given,
    }
}

/// Runs calls that make terms.
fn make(alloc: Global, work: &mut Work, given: &[u32], call: &Call) -> Came {
    match call {
        Call::Int(z) => of_term(work.int(*z)),
        Call::Nil => of_term(work.nil()),
        Call::Cons => of_term(work.cons(first(given), second(given))),
        Call::Hole => of_term(work.hole(first(given))),
        Call::Annotate => of_term(work.annotate(first(given), second(given))),
        Call::Appl(name, quoted) => of_term(work.appl(name, *quoted, given)),
        _ => take_apart(alloc, work, first(given), given, call),
    }
}

/// Returns whether this is an application.
fn is_appl(kind: Result<Kind, Fault>) -> bool {
    matches!(kind, Ok(Kind::Appl(_)))
}

/// Returns whether this is an integer with the value `z`.
fn is_int(kind: Result<Kind, Fault>, z: i32) -> bool {
    kind == Ok(Kind::Int(z))
}

/// Runs calls that inspect a term.
fn take_apart(alloc: Global, work: &mut Work, t: Term, given: &[u32], call: &Call) -> Came {
    match call {
        Call::IsAppl => of_flag(Ok(is_appl(work.kind(t)))),
        Call::IsInt(z) => of_flag(Ok(is_int(work.kind(t), *z))),
        Call::Arity => of_count(work.arity(t)),
        Call::Quoted => of_flag(work.is_quoted(t)),
        Call::Print => of_number(work.print(alloc, t)),
        Call::PrintTable => of_number(work.print_table(alloc, t)),
        Call::Name => of_number(work.name(alloc, t)),
        _ => take_part(alloc, work, t, given, call),
    }
}

/// Runs calls that return parts of a term.
fn take_part(alloc: Global, work: &mut Work, t: Term, given: &[u32], call: &Call) -> Came {
    match call {
        Call::Args => of_term(work.args(t)),
        Call::Annotations => of_term(work.annotations(t)),
        Call::Arg(i) => of_term(work.arg(t, *i)),
        Call::Head => of_term(work.head(t)),
        Call::Tail => of_term(work.tail(t)),
        Call::Inner => of_term(work.inner(t)),
        _ => keep(alloc, work, t, given, call),
    }
}

/// Runs calls that protect and collect.
fn keep(alloc: Global, work: &mut Work, t: Term, given: &[u32], call: &Call) -> Came {
    match call {
        Call::Cells => of_count(Ok(work.cells())),
        Call::HasSpare(cells) => of_flag(Ok(work.spare() >= *cells)),
        Call::Reserve(cells) => of_done(work.reserve(*cells)),
        Call::Holds => of_done(work.holds(t)),
        Call::Protect => of_done(work.protect(t)),
        Call::Unprotect => of_done(work.unprotect(t)),
        Call::Reclaim => of_done(work.reclaim(alloc, given)),
        _ => evaluate(alloc, work, t, given, call),
    }
}

/// Runs calls that read, write and evaluate.
fn evaluate(alloc: Global, work: &mut Work, t: Term, given: &[u32], call: &Call) -> Came {
    match call {
        Call::Read(text) => of_term(work.read(alloc, text)),
        Call::ReadTable(text) => of_term(work.read_table(alloc, text)),
        Call::Place => of_count(Ok(work.place)),
        Call::Rule => of_count(Ok(work.rule)),
        Call::Specify(text, memo, reclaim) => of_done(work.specify(alloc, text, *memo, *reclaim)),
        Call::Unspecify => of_done(work.unspecify()),
        Call::Normalise(steps) => of_value(work.normalise(alloc, t, *steps)),
        Call::EvalTerms => of_count(work.eval_terms()),
        Call::EvalTerm(i) => of_term(work.eval_term(*i)),
        _ => match_terms(alloc, work, number(given), rest(given), call),
    }
}

/// Runs calls with patterns and symbols.
fn match_terms(alloc: Global, work: &mut Work, n: usize, terms: &[u32], call: &Call) -> Came {
    match call {
        Call::Pattern(text) => of_number(work.pattern(alloc, text)),
        Call::FreePattern => of_done(work.free_pattern(n)),
        Call::MatchTerm => of_number(work.match_term(alloc, n, first(terms))),
        Call::Binding(i) => of_term(work.binding(*i)),
        Call::Make => of_term(work.make(alloc, n, terms)),
        Call::Symbol(name, quoted, arity) => of_number(work.symbol(name, *quoted, *arity)),
        Call::Apply => of_term(work.apply(n, terms)),
        Call::CallOn(steps) => of_value(work.call(alloc, n, terms, *steps)),
        _ => count(n, terms, call),
    }
}

/// Runs calls that need no store. A call of no group has an error that no test case expects.
fn count(n: usize, others: &[u32], call: &Call) -> Came {
    match call {
        Call::Number(n) => of_count(Ok(*n)),
        Call::Next => of_number(Ok(n.wrapping_add(1))),
        Call::IsOne => of_flag(Ok(n == number(others))),
        _ => Err(Fault::Closed),
    }
}

/// The numbers of terms, patterns and symbols that test cases keep.
#[derive(Drop)]
struct Kept {
    names: Vec<(Name, usize)>,
}

impl Kept {
    /// Keeps a number under a name.
    fn keep(&mut self, rt: &impl Abort, name: Name, number: usize) {
        assert!(rt; self.names.push((name, number)).is_ok());
    }

    /// Returns the number that is kept under a name.
    fn number(&self, rt: &impl Abort, name: Name) -> usize {
        let found = self.names.iter().find(|(known, _)| *known == name);
        let (_, number) = found.expect(rt, name);
        *number
    }

    /// Returns the number of 32 bits that is kept under a name.
    fn short(&self, rt: &impl Abort, name: Name) -> u32 {
        u32::try_from(self.number(rt, name)).expect(rt, name)
    }

    /// Returns the numbers that are kept under these names.
    fn numbers(&self, rt: &impl Abort, alloc: Global, names: &[Name]) -> Vec<u32> {
        let mut numbers = Vec::new(alloc);
        for name in names {
            assert!(rt; numbers.push(self.short(rt, name)).is_ok());
        }
        numbers
    }
}

/// Returns whether a result is the expected one, and keeps it if that is expected.
fn is_answer(rt: &impl Abort, text: &[u8], kept: &mut Kept, came: Answer, due: &Due) -> bool {
    match due {
        Due::Kept(name) => {
            kept.keep(rt, name, came.number);
            true
        }
        Due::KeptAfter(name, steps) => {
            kept.keep(rt, name, came.number);
            came.steps == *steps
        }
        Due::Known(name) => came.number == kept.number(rt, name),
        Due::KnownAfter(name, steps) => {
            came.number == kept.number(rt, name) && came.steps == *steps
        }
        Due::Number(wanted) => came.number == *wanted,
        Due::Flag(wanted) => came.number == *wanted as usize,
        Due::Done => true,
        Due::Text(wanted) => came.number == wanted.len() && text == *wanted,
        Due::Not(_) => false,
    }
}

/// Returns whether an error is the expected one.
fn is_fault(came: Fault, due: &Due) -> bool {
    match due {
        Due::Not(fault) => came == *fault,
        _ => false,
    }
}

/// Returns whether a call has the expected result or error.
fn is_due(rt: &impl Abort, text: &[u8], kept: &mut Kept, came: Came, due: &Due) -> bool {
    match came {
        Ok(answer) => is_answer(rt, text, kept, answer, due),
        Err(fault) => is_fault(fault, due),
    }
}

/// Runs the call of a test case, and returns whether it has the expected result.
fn holds(rt: &impl Abort, alloc: Global, work: &mut Work, kept: &mut Kept, row: &Row) -> bool {
    let given = kept.numbers(rt, alloc, row.1);
    let came = make(alloc, work, &given, &row.0);
    is_due(rt, work.text.as_slice(), kept, came, &row.2)
}

/// Runs test cases in order. Aborts the test, with the index of the test case, if one has another
/// result.
pub(crate) fn ask(rt: &impl Abort, alloc: Global, work: &mut Work, rows: &[Row]) {
    let mut kept = Kept {
        names: Vec::new(alloc),
    };
    for (number, row) in rows.iter().enumerate() {
        assert!(rt; holds(rt, alloc, work, &mut kept, row), "row {number}");
    }
}
