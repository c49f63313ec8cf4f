//! Tests of each export with ample memory. The expected values were worked out by hand.

use crate::checking::recw_check;
use crate::evaluating::{recw_eval, recw_eval_terms};
use crate::patterns::{recw_make, recw_match};
use crate::profiling::recw_profile;
use crate::terms::{recw_aterm, recw_share, recw_share_dot};
use crate::tracing::{recw_trace, recw_trace_terms};
use crate::{Options, Told, TraceOptions};
use std::process::Abort;

/// A specification that adds one and two.
const ADDITION: &[u8] =
    b"REC-SPEC Add SORTS Nat CONS z : -> Nat s : Nat -> Nat OPNS plus : Nat Nat -> Nat \
      VARS X Y : Nat RULES plus(z,Y) -> Y plus(s(X),Y) -> s(plus(X,Y)) \
      EVAL plus(s(s(z)),s(z)) END-SPEC";

/// A specification that doubles a tree 17 times.
const DOUBLING: &[u8] =
    b"REC-SPEC Double SORTS Nat Tree CONS z : -> Nat s : Nat -> Nat leaf : -> Tree \
      node : Tree Tree -> Tree OPNS d : Nat -> Tree dup : Tree -> Tree VARS X : Nat T : Tree \
      RULES d(z) -> leaf d(s(X)) -> dup(d(X)) dup(T) -> node(T,T) \
      EVAL d(s(s(s(s(s(s(s(s(s(s(s(s(s(s(s(s(s(z)))))))))))))))))) END-SPEC";

/// The default options of the program, with step counts.
const OPTIONS: Options = Options {
    steps: 1_000_000,
    cells: 16_777_216,
    memo: 65_536,
    reclaim: 262_144,
    count: true,
};

/// Options of a trace that shows eight bytes of a term.
const CUT: TraceOptions = TraceOptions {
    limits: OPTIONS,
    width: 8,
    whole: false,
};

/// Options of a trace with whole terms.
const WHOLE: TraceOptions = TraceOptions {
    limits: OPTIONS,
    width: 100,
    whole: true,
};

/// The value of `Told` before a run.
const UNTOLD: Told = Told {
    length: 99,
    at: 99,
    has_place: true,
};

/// Checks the start of the buffer, and that there is no offset.
fn wrote(rt: &impl Abort, status: u32, told: Told, room: &[u8], wanted: &[u8]) {
    assert_eq!(rt; status, 0);
    assert!(rt; !told.has_place);
    assert_eq!(rt; told.length, wanted.len());
    assert!(rt; room.starts_with(wanted));
}

#[test]
fn evaluations_are_written(rt: HostRuntime) {
    let alloc = rt.alloc();
    let mut room = [0u8; 40];
    let mut told = UNTOLD;
    let status = recw_eval(alloc, ADDITION, &OPTIONS, &mut room, &mut told);
    wrote(&rt, status, told, &room, b"s(s(s(z)))\t3\n");
    let status = recw_eval_terms(alloc, ADDITION, b"[z]", &OPTIONS, &mut room, &mut told);
    wrote(&rt, status, told, &room, b"s(s(s(z)))\t3\nz\t0\n");
}

/// A value of 2^17 leaves has 11 * 2^17 - 7 bytes.
#[test]
fn long_values_are_not_written(rt: HostRuntime) {
    let alloc = rt.alloc();
    let mut room = [0u8; 40];
    let mut told = UNTOLD;
    let status = recw_eval_terms(
        alloc,
        DOUBLING,
        b"[d(s(z))]",
        &OPTIONS,
        &mut room,
        &mut told,
    );
    wrote(
        &rt,
        status,
        told,
        &room,
        b"!bytes 1000000\nnode(leaf,leaf)\t3\n",
    );
}

/// Two rules: the first applies once, the second twice.
#[test]
fn profiles_are_written(rt: HostRuntime) {
    let alloc = rt.alloc();
    let mut room = [0u8; 40];
    let mut told = UNTOLD;
    let mut counts = [9u64; 13];
    let status = recw_profile(
        alloc,
        ADDITION,
        b"[z]",
        &OPTIONS,
        &mut counts,
        &mut room,
        &mut told,
    );
    wrote(&rt, status, told, &room, b"s(s(s(z)))\t3\nz\t0\n");
    assert_eq!(rt; (counts[0], counts[1], counts[2], counts[3]), (2, 3, 2, 0));
    assert_eq!(rt; (counts[7], counts[8], counts[9]), (1, 1, 0));
    assert_eq!(rt; (counts[10], counts[11], counts[12]), (2, 2, 0));
    let mut short = [9u64; 2];
    let status = recw_profile(
        alloc,
        b"REC-SPEC",
        b"[]",
        &OPTIONS,
        &mut short,
        &mut room,
        &mut told,
    );
    assert_eq!(rt; (status, short[0], short[1]), (1, 9, 9));
    let status = recw_profile(
        alloc, ADDITION, b"[]", &OPTIONS, &mut short, &mut room, &mut told,
    );
    assert_eq!(rt; (status, short[0], short[1]), (0, 2, 3));
}

/// The rules of the addition begin in its one line, at the columns 103 and 118.
#[test]
fn traces_are_written(rt: HostRuntime) {
    let alloc = rt.alloc();
    let mut room = [0u8; 300];
    let mut told = UNTOLD;
    let status = recw_trace(alloc, ADDITION, &CUT, &mut room, &mut told);
    let cut = b"1:118: plus(... -> s(plu...\t1\n1:118: plus(... -> s(plu...\t2\n\
        1:103: plus(... -> s(z)\t3\ns(s(s(z)))\t3\n";
    wrote(&rt, status, told, &room, cut);
    let status = recw_trace_terms(alloc, ADDITION, b"[z]", &WHOLE, &mut room, &mut told);
    let whole = b"0:0: plus(s(s(z)),s(z))\n1:118: s(plus(s(z),s(z)))\t1\n\
        1:118: s(s(plus(z,s(z))))\t2\n1:103: s(s(s(z)))\t3\ns(s(s(z)))\t3\n0:0: z\nz\t0\n";
    wrote(&rt, status, told, &room, whole);
}

#[test]
fn checks_are_written(rt: HostRuntime) {
    let alloc = rt.alloc();
    let mut room = [0u8; 80];
    let mut told = UNTOLD;
    let status = recw_check(alloc, b"a.rec", ADDITION, &mut room, &mut told);
    wrote(&rt, status, told, &room, b"");
    let unused = b"REC-SPEC A SORTS N CONS z : -> N END-SPEC";
    let status = recw_check(alloc, b"a.rec", unused, &mut room, &mut told);
    let warning = b"a.rec:1:25: warning: unused symbol: z [W4]\n";
    wrote(&rt, status, told, &room, warning);
    let status = recw_check(
        alloc,
        b"b",
        b"REC-SPEC E SORTS : END-SPEC",
        &mut room,
        &mut told,
    );
    assert_eq!(rt; (status, told.has_place), (1, false));
    assert!(rt; room.starts_with(b"b:1:18: error: syntax error in the specification [G]\n"));
    assert_eq!(rt; told.length, 53);
}

#[test]
fn terms_and_patterns_are_written(rt: HostRuntime) {
    let alloc = rt.alloc();
    let mut room = [0u8; 40];
    let mut told = UNTOLD;
    let status = recw_aterm(alloc, b" f( -07 ) ", &mut room, &mut told);
    wrote(&rt, status, told, &room, b"f(-7)\n");
    let status = recw_share(alloc, b"f(a,a)", &mut room, &mut told);
    wrote(&rt, status, told, &room, b"f(a,a)\ncells 5\n");
    let status = recw_match(alloc, b"f(<int>)", b"f(7)", &mut room, &mut told);
    wrote(&rt, status, told, &room, b"yes\n7\n");
    let status = recw_make(alloc, b"f(<int>)", b"[7]", &mut room, &mut told);
    wrote(&rt, status, told, &room, b"f(7)\n");
}

#[test]
fn graphs_are_written(rt: HostRuntime) {
    let alloc = rt.alloc();
    let mut room = [0u8; 200];
    let mut told = UNTOLD;
    let status = recw_share_dot(alloc, b"a", 1, &mut room, &mut told);
    let graph =
        b"digraph term {\n  node [shape=box, fontname=\"monospace\"];\n  n0 [label=\"a\"];\n  \
        rest [label=\"1 more\", style=dashed];\n}\n";
    wrote(&rt, status, told, &room, graph);
    let status = recw_share_dot(alloc, b"f(a,)", 1, &mut room, &mut told);
    assert_eq!(rt; (status, told.at, told.has_place), (1, 4, true));
    assert!(rt; room.starts_with(b"!term A\n"));
}

#[test]
fn refusals_and_short_rooms_are_told(rt: HostRuntime) {
    let alloc = rt.alloc();
    let mut room = [0u8; 8];
    let mut told = UNTOLD;
    assert_eq!(rt; recw_aterm(alloc, b"f(a,)", &mut room, &mut told), 1);
    assert_eq!(rt; (told.length, told.at, told.has_place), (8, 4, true));
    assert_eq!(rt; &room, b"!term A\n");
    assert_eq!(rt; recw_share(alloc, b"f(a,a)", &mut room, &mut told), 2);
    assert_eq!(rt; (told.length, told.has_place), (15, false));
    assert_eq!(rt; &room, b"!term A\n");
}
