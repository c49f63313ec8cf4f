//! The test cases: calls, and their results, which were derived by hand.

use crate::calls::asking::{Call, Due, Row};
use psilt_core::Fault;

/// Addition, with two terms to evaluate.
const ADD: &[u8] = b"REC-SPEC Add SORTS Nat \
    CONS z : -> Nat s : Nat -> Nat OPNS plus : Nat Nat -> Nat \
    VARS X Y : Nat RULES plus(z,Y) -> Y plus(s(X),Y) -> s(plus(X,Y)) \
    EVAL plus(s(s(z)),s(z)) z END-SPEC";

/// A specification with a duplicate sort.
const TWICE: &[u8] = b"REC-SPEC A SORTS B B CONS OPNS VARS RULES EVAL END-SPEC";

/// Pairs of numbers, and a constructor of another sort.
const PAIRS: &[u8] = b"REC-SPEC Pairs SORTS Nat Pair \
    CONS z : -> Nat s : Nat -> Nat p : Nat Nat -> Pair \
    OPNS dup : Nat -> Pair plus : Nat Nat -> Nat VARS X Y : Nat \
    RULES dup(X) -> p(X,X) plus(z,Y) -> Y plus(s(X),Y) -> s(plus(X,Y)) EVAL END-SPEC";

/// The first calls of a store.
pub(crate) const MAKES: [Row; 14] = [
    (Call::Int(-7), &[], Due::Kept("seven")),
    (Call::Nil, &[], Due::Kept("nil")),
    (Call::Cons, &["seven", "nil"], Due::Kept("list")),
    (Call::Hole, &["list"], Due::Kept("hole")),
    (Call::Print, &["hole"], Due::Text(b"<[-7]>")),
    (Call::Annotate, &["seven", "list"], Due::Kept("noted")),
    (Call::Print, &["noted"], Due::Text(b"-7{-7}")),
    (
        Call::Appl(b"f", false),
        &["hole", "noted"],
        Due::Kept("both"),
    ),
    (Call::Print, &["both"], Due::Text(b"f(<[-7]>,-7{-7})")),
    (Call::Read(b"f(<[-7]>,-7{-7})"), &[], Due::Known("both")),
    (Call::Cons, &["seven", "both"], Due::Not(Fault::Kind)),
    (Call::Number(99), &[], Due::Kept("stale")),
    (Call::Cons, &["stale", "nil"], Due::Not(Fault::Stale)),
    (Call::Appl(b"a b", false), &[], Due::Not(Fault::Name)),
];

/// The parts of a term.
pub(crate) const PARTS: [Row; 21] = [
    (
        Call::Read(b"\"a b\"(1,[2,3],<int>){n}"),
        &[],
        Due::Kept("t"),
    ),
    (Call::IsAppl, &["t"], Due::Flag(true)),
    (Call::Arity, &["t"], Due::Number(3)),
    (Call::Quoted, &["t"], Due::Flag(true)),
    (Call::Name, &["t"], Due::Text(b"a b")),
    (Call::Args, &["t"], Due::Kept("args")),
    (Call::Print, &["args"], Due::Text(b"[1,[2,3],<int>]")),
    (Call::Annotations, &["t"], Due::Kept("notes")),
    (Call::Print, &["notes"], Due::Text(b"[n]")),
    (Call::Arg(1), &["t"], Due::Kept("list")),
    (Call::Tail, &["list"], Due::Kept("second")),
    (Call::Print, &["second"], Due::Text(b"[3]")),
    (Call::Head, &["second"], Due::Kept("three")),
    (Call::IsInt(3), &["three"], Due::Flag(true)),
    (Call::Arg(2), &["t"], Due::Kept("hole")),
    (Call::Inner, &["hole"], Due::Kept("inside")),
    (Call::Print, &["inside"], Due::Text(b"int")),
    (Call::Arg(3), &["t"], Due::Not(Fault::Range)),
    (Call::Head, &["t"], Due::Not(Fault::Kind)),
    (Call::Number(99), &[], Due::Kept("stale")),
    (Call::Tail, &["stale"], Due::Not(Fault::Stale)),
];

/// Eleven cells of three terms, of which eight stay.
pub(crate) const KEEPS: [Row; 14] = [
    (Call::Read(b"f(1)"), &[], Due::Kept("kept")),
    (Call::Read(b"[2,3]"), &[], Due::Kept("rooted")),
    (Call::Read(b"g(4)"), &[], Due::Kept("gone")),
    (Call::Cells, &[], Due::Number(11)),
    (Call::Protect, &["rooted"], Due::Done),
    (Call::Reclaim, &["kept"], Due::Done),
    (Call::Cells, &[], Due::Number(8)),
    (Call::Holds, &["gone"], Due::Not(Fault::Stale)),
    (Call::Unprotect, &["kept"], Due::Not(Fault::Unprotected)),
    (Call::Unprotect, &["rooted"], Due::Done),
    (Call::Unprotect, &["rooted"], Due::Not(Fault::Unprotected)),
    (Call::Reserve(92), &[], Due::Done),
    (Call::HasSpare(92), &[], Due::Flag(true)),
    (Call::Reserve(93), &[], Due::Not(Fault::Full)),
];

/// Errors of texts.
pub(crate) const REFUSES: [Row; 5] = [
    (Call::Read(b"f(1,,2)"), &[], Due::Not(Fault::Syntax)),
    (Call::Place, &[], Due::Number(4)),
    (Call::Cells, &[], Due::Number(0)),
    (Call::Read(b"f"), &[], Due::Kept("t")),
    (Call::Print, &["t"], Due::Text(b"f")),
];

/// A term of the handle's own store is evaluated, and its normal form is in that store too.
pub(crate) const EVALUATES: [Row; 32] = [
    (Call::Specify(ADD, 0, 1_000), &[], Due::Done),
    (Call::Read(b"plus(s(z),s(z)){note}"), &[], Due::Kept("t")),
    (Call::Read(b"s(s(z)){note}"), &[], Due::Kept("two")),
    (Call::Normalise(2), &["t"], Due::KnownAfter("two", 2)),
    (Call::Normalise(1), &["t"], Due::Not(Fault::Limit)),
    (Call::EvalTerms, &[], Due::Number(2)),
    (Call::EvalTerm(0), &[], Due::Kept("first")),
    (Call::Print, &["first"], Due::Text(b"plus(s(s(z)),s(z))")),
    (Call::Normalise(100), &["first"], Due::KeptAfter("value", 3)),
    (Call::Print, &["value"], Due::Text(b"s(s(s(z)))")),
    (Call::EvalTerm(2), &[], Due::Not(Fault::Range)),
    // Errors of terms and of specifications.
    (Call::Read(b"plus(s(z),4)"), &[], Due::Kept("unruled")),
    (Call::Normalise(9), &["unruled"], Due::Not(Fault::Rule)),
    (Call::Rule, &[], Due::Number(2)),
    (Call::Number(99), &[], Due::Kept("stale")),
    (Call::Normalise(9), &["stale"], Due::Not(Fault::Stale)),
    (
        Call::Specify(b"REC-SPEC A SORTS B B", 0, 1),
        &[],
        Due::Not(Fault::Syntax),
    ),
    (Call::Place, &[], Due::Number(20)),
    (Call::Rule, &[], Due::Number(0)),
    (Call::Specify(TWICE, 0, 1), &[], Due::Not(Fault::Rule)),
    (Call::Place, &[], Due::Number(19)),
    (Call::Rule, &[], Due::Number(1)),
    (
        Call::Specify(ADD, 1_048_577, 1),
        &[],
        Due::Not(Fault::Range),
    ),
    (Call::Specify(ADD, 0, 0), &[], Due::Not(Fault::Range)),
    (Call::EvalTerms, &[], Due::Number(2)),
    // Without a specification nothing can be evaluated, but terms stay.
    (Call::Read(b"s(z)"), &[], Due::Kept("left")),
    (Call::Unspecify, &[], Due::Done),
    (Call::Unspecify, &[], Due::Not(Fault::Unspecified)),
    (Call::Normalise(9), &["left"], Due::Not(Fault::Unspecified)),
    (Call::EvalTerms, &[], Due::Not(Fault::Unspecified)),
    (Call::EvalTerm(0), &[], Due::Not(Fault::Unspecified)),
    (Call::Print, &["left"], Due::Text(b"s(z)")),
];

/// Memoized results of terms that are freed are forgotten.
pub(crate) const REMEMBERS: [Row; 8] = [
    (Call::Specify(ADD, 1_024, 1), &[], Due::Done),
    (Call::Read(b"plus(s(s(z)),s(s(z)))"), &[], Due::Kept("t")),
    (Call::Normalise(9), &["t"], Due::Done),
    (Call::Reclaim, &[], Due::Done),
    (Call::Cells, &[], Due::Number(0)),
    (
        Call::Read(b"plus(s(s(z)),s(s(z)))"),
        &[],
        Due::Kept("again"),
    ),
    (Call::Normalise(9), &["again"], Due::KeptAfter("value", 3)),
    (Call::Print, &["value"], Due::Text(b"s(s(s(s(z))))")),
];

/// Two patterns at once, one of which is dropped.
pub(crate) const MATCHES: [Row; 22] = [
    (Call::Pattern(b"f(<int>,<list>)"), &[], Due::Kept("pair")),
    (Call::Pattern(b"<appl>"), &[], Due::Kept("other")),
    (Call::IsOne, &["pair", "other"], Due::Flag(false)),
    (Call::Read(b"f(a,7)"), &[], Due::Kept("unlike")),
    (
        Call::MatchTerm,
        &["pair", "unlike"],
        Due::Not(Fault::Unmatched),
    ),
    (Call::Read(b"f(7,[a]{n})"), &[], Due::Kept("t")),
    (Call::MatchTerm, &["pair", "t"], Due::Number(2)),
    (Call::Binding(0), &[], Due::Kept("seven")),
    (Call::Print, &["seven"], Due::Text(b"7")),
    (Call::Binding(1), &[], Due::Kept("rest")),
    (Call::Print, &["rest"], Due::Text(b"[[a]{n}]")),
    (Call::Binding(2), &[], Due::Not(Fault::Range)),
    (Call::Make, &["pair", "seven", "rest"], Due::Known("t")),
    (
        Call::MatchTerm,
        &["other", "seven"],
        Due::Not(Fault::Unmatched),
    ),
    (Call::Binding(0), &[], Due::Known("seven")),
    (Call::MatchTerm, &["other", "t"], Due::Number(1)),
    (Call::Binding(0), &[], Due::Known("t")),
    (Call::FreePattern, &["pair"], Due::Done),
    (Call::FreePattern, &["pair"], Due::Not(Fault::Unknown)),
    (Call::MatchTerm, &["pair", "t"], Due::Not(Fault::Unknown)),
    (Call::Pattern(b"[<term>]"), &[], Due::Known("pair")),
    (Call::MatchTerm, &["other", "t"], Due::Number(1)),
];

/// Errors of a pattern, of a match and of a construction.
pub(crate) const REFUSED_PATTERNS: [Row; 19] = [
    (Call::Pattern(b"f(1,,2)"), &[], Due::Not(Fault::Syntax)),
    (Call::Place, &[], Due::Number(4)),
    (Call::Rule, &[], Due::Number(0)),
    (
        Call::Pattern(b"f(<int>{n},<integer>)"),
        &[],
        Due::Not(Fault::Rule),
    ),
    (Call::Rule, &[], Due::Number(1)),
    (Call::Pattern(b"f(<int>{n})"), &[], Due::Not(Fault::Rule)),
    (Call::Rule, &[], Due::Number(2)),
    (Call::Cells, &[], Due::Number(0)),
    (Call::Pattern(b"f(<int>)"), &[], Due::Kept("pattern")),
    (Call::Next, &["pattern"], Due::Kept("unknown")),
    (Call::Number(0), &[], Due::Kept("nothing")),
    (
        Call::MatchTerm,
        &["pattern", "nothing"],
        Due::Not(Fault::Stale),
    ),
    (
        Call::MatchTerm,
        &["unknown", "nothing"],
        Due::Not(Fault::Unknown),
    ),
    (Call::Read(b"a"), &[], Due::Kept("a")),
    (Call::Make, &["pattern"], Due::Not(Fault::Range)),
    (Call::Make, &["pattern", "a"], Due::Not(Fault::Kind)),
    (Call::Number(99), &[], Due::Kept("stale")),
    (Call::Make, &["pattern", "stale"], Due::Not(Fault::Stale)),
    (Call::Make, &["unknown"], Due::Not(Fault::Unknown)),
];

/// A binding is known until terms are freed.
pub(crate) const FORGETS_BINDINGS: [Row; 9] = [
    (Call::Pattern(b"<term>"), &[], Due::Kept("pattern")),
    (Call::Read(b"f(1)"), &[], Due::Kept("t")),
    (Call::MatchTerm, &["pattern", "t"], Due::Number(1)),
    (Call::Number(99), &[], Due::Kept("stale")),
    (Call::Reclaim, &["stale"], Due::Not(Fault::Stale)),
    (Call::Binding(0), &[], Due::Known("t")),
    (Call::Reclaim, &["t"], Due::Done),
    (Call::Binding(0), &[], Due::Not(Fault::Range)),
    (Call::MatchTerm, &["pattern", "t"], Due::Number(1)),
];

/// Symbols by their numbers.
pub(crate) const APPLIES: [Row; 19] = [
    (Call::Symbol(b"f", false, 2), &[], Due::Kept("f")),
    (Call::Symbol(b"f", true, 2), &[], Due::Kept("g")),
    (Call::IsOne, &["f", "g"], Due::Flag(false)),
    (Call::Symbol(b"f", false, 2), &[], Due::Known("f")),
    (Call::Symbol(b"a b", false, 0), &[], Due::Not(Fault::Name)),
    (Call::Read(b"a"), &[], Due::Kept("a")),
    (Call::Apply, &["f", "a", "a"], Due::Kept("plain")),
    (Call::Print, &["plain"], Due::Text(b"f(a,a)")),
    (Call::Apply, &["g", "a", "plain"], Due::Kept("quoted")),
    (Call::Print, &["quoted"], Due::Text(b"\"f\"(a,f(a,a))")),
    (Call::Apply, &["f", "a"], Due::Not(Fault::Range)),
    (Call::Number(99), &[], Due::Kept("stale")),
    (Call::Apply, &["f", "a", "stale"], Due::Not(Fault::Stale)),
    (Call::Next, &["g"], Due::Kept("unknown")),
    (Call::Apply, &["unknown"], Due::Not(Fault::Unknown)),
    (Call::Reclaim, &[], Due::Done),
    (Call::Read(b"b"), &[], Due::Kept("b")),
    (Call::Apply, &["f", "b", "b"], Due::Kept("both")),
    (Call::Print, &["both"], Due::Text(b"f(b,b)")),
];

/// Symbols are called on values, which are not evaluated again.
pub(crate) const CALLS: [Row; 40] = [
    (Call::Number(0), &[], Due::Kept("unknown")),
    (Call::CallOn(9), &["unknown"], Due::Not(Fault::Unspecified)),
    (Call::Specify(PAIRS, 0, 1), &[], Due::Done),
    (Call::CallOn(9), &["unknown"], Due::Not(Fault::Unknown)),
    (Call::Symbol(b"plus", false, 2), &[], Due::Kept("plus")),
    (Call::Symbol(b"dup", false, 1), &[], Due::Kept("dup")),
    (Call::Symbol(b"s", false, 1), &[], Due::Kept("s")),
    (Call::Number(99), &[], Due::Kept("stale")),
    (Call::CallOn(9), &["plus", "stale"], Due::Not(Fault::Range)),
    (Call::CallOn(9), &["dup", "stale"], Due::Not(Fault::Stale)),
    (Call::Read(b"s(z)"), &[], Due::Kept("one")),
    (Call::Protect, &["one"], Due::Done),
    (Call::Read(b"s(s(z))"), &[], Due::Kept("two")),
    (Call::Protect, &["two"], Due::Done),
    (
        Call::CallOn(9),
        &["plus", "one", "one"],
        Due::KnownAfter("two", 2),
    ),
    (
        Call::CallOn(1),
        &["plus", "one", "one"],
        Due::Not(Fault::Limit),
    ),
    (Call::CallOn(0), &["s", "one"], Due::KnownAfter("two", 0)),
    (Call::Read(b"plus(z,z)"), &[], Due::Kept("call")),
    (Call::CallOn(1), &["dup", "call"], Due::KeptAfter("pair", 1)),
    (Call::Print, &["pair"], Due::Text(b"p(plus(z,z),plus(z,z))")),
    // The argument is kept; the value before it is not.
    (Call::Print, &["call"], Due::Text(b"plus(z,z)")),
    (Call::CallOn(0), &["s", "one"], Due::KnownAfter("two", 0)),
    (Call::Holds, &["pair"], Due::Not(Fault::Stale)),
    (Call::Read(b"s(f(1){a}){b}"), &[], Due::Kept("noted")),
    (
        Call::CallOn(9),
        &["plus", "one", "noted"],
        Due::KeptAfter("sum", 2),
    ),
    (Call::Print, &["sum"], Due::Text(b"s(s(f(1){a}){b})")),
    // The rules of the call itself.
    (Call::Symbol(b"minus", false, 1), &[], Due::Kept("minus")),
    (Call::CallOn(9), &["minus", "one"], Due::Not(Fault::Rule)),
    (Call::Rule, &[], Due::Number(4)),
    (Call::Symbol(b"plus", false, 1), &[], Due::Kept("short")),
    (Call::CallOn(9), &["short", "one"], Due::Not(Fault::Rule)),
    (Call::Rule, &[], Due::Number(5)),
    (Call::Symbol(b"dup", true, 1), &[], Due::Kept("quoted")),
    (Call::CallOn(9), &["quoted", "one"], Due::Not(Fault::Rule)),
    (Call::Rule, &[], Due::Number(4)),
    (Call::Read(b"p(z,z)"), &[], Due::Kept("pair")),
    (
        Call::CallOn(9),
        &["plus", "one", "pair"],
        Due::Not(Fault::Rule),
    ),
    (Call::Rule, &[], Due::Number(6)),
    (Call::Int(7), &[], Due::Kept("seven")),
    (Call::CallOn(9), &["dup", "seven"], Due::Not(Fault::Rule)),
];

/// Tables of terms, and texts that spell none.
pub(crate) const TABLES: [Row; 17] = [
    (
        Call::Read(b"f(pair(a,b),pair(a,b),<7>)"),
        &[],
        Due::Kept("t"),
    ),
    (
        Call::PrintTable,
        &["t"],
        Due::Text(b"[pair(a,b),f(<0>,<0>,<[7]>)]"),
    ),
    (
        Call::ReadTable(b"[pair(a,b), f(<0>,<0>,<[7]>)]"),
        &[],
        Due::Known("t"),
    ),
    (
        Call::ReadTable(b"[c,pair(a,b){c},g(<1>)]"),
        &[],
        Due::Kept("g"),
    ),
    (Call::Print, &["g"], Due::Text(b"g(pair(a,b){c})")),
    (Call::PrintTable, &["g"], Due::Text(b"[g(pair(a,b){c})]")),
    (Call::Number(99), &[], Due::Kept("stale")),
    (Call::PrintTable, &["stale"], Due::Not(Fault::Stale)),
    (Call::ReadTable(b"[a,,b]"), &[], Due::Not(Fault::Syntax)),
    (Call::Rule, &[], Due::Number(0)),
    (Call::Place, &[], Due::Number(3)),
    (Call::ReadTable(b"[a]{b}"), &[], Due::Not(Fault::Rule)),
    (Call::Rule, &[], Due::Number(1)),
    (Call::ReadTable(b"[a,<1>]"), &[], Due::Not(Fault::Rule)),
    (Call::Rule, &[], Due::Number(2)),
    (Call::ReadTable(b"[a,<0>{b}]"), &[], Due::Not(Fault::Rule)),
    (Call::Place, &[], Due::Number(3)),
];
