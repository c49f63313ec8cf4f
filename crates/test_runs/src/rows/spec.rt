//! Runs of worked specifications.

use crate::rows::{ADD, Ran, addition, expect_ran, options, push, run_on};
use rec_run::RunOptions;
use rx_run::{Finish, Named, Place, Source};
use std::alloc::Global;
use std::process::Abort;

const SUCCESSOR: &str = addition!("s(z)");

const DUP: &str = "REC-SPEC Dup SORTS Nat Pair
CONS z : -> Nat  p : Nat Nat -> Pair
OPNS d : Nat -> Pair  e : Nat -> Nat
VARS X : Nat
RULES
  d(X) -> p(e(X),e(X))
  e(z) -> z
EVAL d(z)
END-SPEC
";

const COND: &str = "REC-SPEC Cond SORTS Nat
CONS z : -> Nat  s : Nat -> Nat
OPNS f : Nat -> Nat  g : Nat -> Nat
VARS X : Nat
RULES
  f(X) -> z if g(X) -><- z
  f(X) -> s(z)
  g(z) -> s(z)
EVAL f(z)
END-SPEC
";

const LOOP: &str = "REC-SPEC Loop SORTS Nat
CONS z : -> Nat
OPNS f : Nat -> Nat
VARS X : Nat
RULES f(X) -> z if f(X) -><- z   % spends before it asks
EVAL f(z)
END-SPEC
";

const EQ: &str = "REC-SPEC Eq SORTS Nat Bool
CONS z : -> Nat  s : Nat -> Nat  true : -> Bool  false : -> Bool
OPNS eq : Nat Nat -> Bool
VARS X Y : Nat
RULES
  eq(X,X) -> true
  eq(X,Y) -> false
EVAL
  eq(s(z),s(z))
  eq(z,s(z))
END-SPEC
";

/// A specification with a condition that two terms differ.
pub(crate) const NEQ: &str = "REC-SPEC Neq SORTS Nat
CONS z : -> Nat  s : Nat -> Nat
OPNS m : Nat Nat -> Nat
VARS X Y : Nat
RULES
  m(X,Y) -> z if X ->/<- Y and-if Y -><- z
  m(X,Y) -> s(z)
EVAL
  m(s(z),z)
  m(z,z)
END-SPEC
";

const ZERO: &str = "REC-SPEC Zero SORTS Nat
CONS 0 : -> Nat  s : Nat -> Nat  x' : -> Nat
EVAL s(0) x'
END-SPEC
";

const IRR: &str = "REC-SPEC Irr SORTS Nat
CONS z : -> Nat
OPNS h : Nat -> Nat
EVAL h(z)
END-SPEC
";

const HIT: &str = "REC-SPEC Hit SORTS Nat Pair \
    CONS z : -> Nat s : Nat -> Nat p : Nat Nat -> Pair \
    OPNS k : Nat -> Nat d : Nat -> Pair \
    VARS X : Nat \
    RULES k(z) -> z k(s(X)) -> k(X) d(X) -> p(k(X),k(X)) \
    EVAL d(s(s(z))) END-SPEC";

const IDLE: &str = "REC-SPEC Idle SORTS Nat Pair \
    CONS z : -> Nat s : Nat -> Nat p : Nat Nat -> Pair \
    OPNS h : Nat -> Nat f : Nat -> Nat d : Nat -> Pair \
    VARS X : Nat \
    RULES h(X) -> z if X -><- s(z) f(X) -> z d(X) -> p(f(X),f(X)) \
    EVAL f(h(z)) d(h(z)) END-SPEC";

/// A specification without sections.
pub(crate) const TITLE: &str = "REC-SPEC E END-SPEC";

/// The sections of a specification, between its title and its end.
static SECTIONS: [&str; 6] = [
    "SORTS A B",
    "CONS a : -> A  b : -> B",
    "OPNS f : A -> A",
    "VARS X Y : A",
    "RULES f(X) -> X",
    "EVAL f(a)",
];

/// A specification, the step limit, whether steps are printed, and the lines.
type Value = (&'static str, u32, bool, &'static str);

static VALUES: [Value; 22] = [
    (ADD, 3, false, "s(s(s(z)))\n"),
    (ADD, 2, false, "!limit 2\n"),
    (ADD, 3, true, "s(s(s(z)))\t3\n"),
    (SUCCESSOR, 0, false, "s(z)\n"),
    (DUP, 3, false, "p(z,z)\n"),
    (DUP, 2, false, "!limit 2\n"),
    (DUP, 3, true, "p(z,z)\t3\n"),
    (COND, 3, false, "s(z)\n"),
    (COND, 2, false, "!limit 2\n"),
    (LOOP, 50, false, "!limit 50\n"),
    (LOOP, 50, true, "!limit 50\n"),
    (EQ, 1, false, "true\nfalse\n"),
    (EQ, 0, false, "!limit 0\n!limit 0\n"),
    (NEQ, 2, false, "z\ns(z)\n"),
    (NEQ, 1, false, "z\n!limit 1\n"),
    (ZERO, 0, false, "s(\"0\")\n\"x'\"\n"),
    (IRR, 0, false, "h(z)\n"),
    (HIT, 7, false, "p(z,z)\n"),
    (HIT, 6, false, "!limit 6\n"),
    (IDLE, 4, false, "z\np(z,z)\n"),
    (IDLE, 3, false, "z\n!limit 3\n"),
    (TITLE, 0, false, ""),
];

/// The index of the section that is changed, its new text, the error line, and its offset.
type ChangedSection = (usize, &'static str, &'static str, Named, u32);

static CHANGED_SECTIONS: [ChangedSection; 16] = [
    (0, "SORTS A B A", "!spec S1\n", Named::S(1), 21),
    (2, "OPNS f : A -> A a : -> A", "!spec S2\n", Named::S(2), 61),
    (3, "VARS X Y X : A", "!spec S3\n", Named::S(3), 70),
    (3, "VARS X a : A", "!spec S3\n", Named::S(3), 68),
    (3, "VARS X Y : C", "!spec S4\n", Named::S(4), 72),
    (5, "EVAL f(c)", "!spec S5\n", Named::S(5), 97),
    (5, "EVAL f(a,a)", "!spec S6\n", Named::S(6), 95),
    (4, "RULES f(X(a)) -> X", "!spec S6\n", Named::S(6), 82),
    (5, "EVAL f(b)", "!spec S7\n", Named::S(7), 97),
    (4, "RULES a -> a", "!spec S8\n", Named::S(8), 80),
    (4, "RULES f(X) -> b", "!spec S9\n", Named::S(9), 80),
    (
        4,
        "RULES f(X) -> X if a -><- b",
        "!spec S9\n",
        Named::S(9),
        93,
    ),
    (4, "RULES f(X) -> Y", "!spec S10\n", Named::S(10), 88),
    (5, "EVAL f(X)", "!spec S11\n", Named::S(11), 97),
    (
        4,
        "RULES f(X) -> X and-if a -><- a",
        "!spec G\n",
        Named::G,
        90,
    ),
    (5, "EVAL f()", "!spec S6\n", Named::S(6), 95),
];

/// A specification, its error line, and the offset.
type RefusedText = (&'static str, &'static str, Named, u32);

static REFUSED_TEXTS: [RefusedText; 6] = [
    (
        "REC-SPEC W SORTS Nat Nat OPNS f : Nat -> Nat VARS X : Nat RULES f(X) -> g(X) END-SPEC",
        "!spec S1\n",
        Named::S(1),
        21,
    ),
    (
        "REC-SPEC V SORTS Nat CONS z : -> Nat OPNS f : Nat -> Nat VARS X Y : Nat \
            RULES f(X) -> Y EVAL k END-SPEC",
        "!spec S5\n",
        Named::S(5),
        93,
    ),
    ("REC-SPEC E SORTS : END-SPEC", "!spec G\n", Named::G, 17),
    ("REC-SPEC E", "!spec G\n", Named::G, 10),
    ("REC-SPEC if END-SPEC", "!spec G\n", Named::G, 9),
    ("REC-SPEC E OPNS CONS END-SPEC", "!spec G\n", Named::G, 16),
];

/// Runs a specification.
pub(crate) fn run_alone(alloc: Global, mut text: &[u8], options: RunOptions) -> Ran {
    run_on(alloc, &mut text, None::<&mut &[u8]>, options)
}

/// Aborts the test unless a specification has these lines.
pub(crate) fn expect_lines(
    rt: &impl Abort,
    alloc: Global,
    text: &str,
    options: RunOptions,
    lines: &str,
) {
    let ran = run_alone(alloc, text.as_bytes(), options);
    expect_ran(rt, &ran, Finish::Done, None, lines);
}

/// Returns options that collect after each new cell.
fn reclaim_often(steps: u32, count: bool) -> RunOptions {
    let mut often = options(steps, count);
    often.reclaim = 1;
    often
}

#[test]
fn values(rt: HostRuntime) {
    for (text, steps, count, lines) in &VALUES {
        expect_lines(&rt, rt.alloc(), text, options(*steps, *count), lines);
        expect_lines(&rt, rt.alloc(), text, reclaim_often(*steps, *count), lines);
    }
}

/// Aborts the test unless a specification is rejected with this line and offset.
fn expect_refused(
    rt: &impl Abort,
    alloc: Global,
    text: &str,
    line: &str,
    (rule, at): (Named, u32),
) {
    let ran = run_alone(alloc, text.as_bytes(), options(0, false));
    let due = Place {
        text: Source::Spec,
        rule,
        at,
    };
    expect_ran(rt, &ran, Finish::Refused, Some(due), line);
}

/// Appends the specification with one section changed, each section on a line.
fn push_sections(rt: &impl Abort, text: &mut String, changed: usize, section: &str) {
    push(rt, text, "REC-SPEC Q ");
    for (i, kept) in SECTIONS.iter().enumerate() {
        push(rt, text, if i == changed { section } else { kept });
        push(rt, text, "\n");
    }
    push(rt, text, "END-SPEC\n");
}

/// Aborts the test unless the specification with one section changed is rejected as expected.
fn expect_changed(rt: &impl Abort, alloc: Global, row: &ChangedSection) {
    let mut text = String::new(alloc);
    push_sections(rt, &mut text, row.0, row.1);
    expect_refused(rt, alloc, text.as_str(), row.2, (row.3, row.4));
}

/// Aborts the test unless the unchanged specification has its one line, and is rejected if a text
/// follows it.
fn expect_unchanged(rt: &impl Abort, alloc: Global, text: &mut String) {
    push_sections(rt, text, 0, SECTIONS[0]);
    expect_lines(rt, alloc, text.as_str(), options(1, false), "a\n");
    push(rt, text, "a");
    expect_refused(rt, alloc, text.as_str(), "!spec G\n", (Named::G, 109));
}

#[test]
fn refused_sections(rt: HostRuntime) {
    for row in &CHANGED_SECTIONS {
        expect_changed(&rt, rt.alloc(), row);
    }
    expect_unchanged(&rt, rt.alloc(), &mut String::new(rt.alloc()));
}

#[test]
fn refusals(rt: HostRuntime) {
    for (text, line, rule, at) in &REFUSED_TEXTS {
        expect_refused(&rt, rt.alloc(), text, line, (*rule, *at));
    }
    let unended = ADD.strip_suffix("END-SPEC\n").expect(&rt, "an end");
    expect_refused(&rt, rt.alloc(), unended, "!spec G\n", (Named::G, 184));
}

/// Returns the tree of `p` with the same tree twice.
fn pair(rt: &impl Abort, alloc: Global, part: &str) -> String {
    let mut tree = String::new(alloc);
    push(rt, &mut tree, "p(");
    push(rt, &mut tree, part);
    push(rt, &mut tree, ",");
    push(rt, &mut tree, part);
    push(rt, &mut tree, ")");
    tree
}

/// Returns a tree of `p` and `z` with this number of levels below its root.
fn balanced_tree(rt: &impl Abort, alloc: Global, levels: u32) -> String {
    let mut tree = String::new(alloc);
    push(rt, &mut tree, "z");
    for _ in 0..levels {
        tree = pair(rt, alloc, tree.as_str());
    }
    tree
}

/// Appends a specification whose result is this tree.
fn push_wide(rt: &impl Abort, text: &mut String, tree: &str) {
    push(
        rt,
        text,
        "REC-SPEC Wide SORTS N \
            CONS z : -> N p : N N -> N \
            OPNS f : N -> N \
            VARS X : N \
            RULES f(X) -> X \
            EVAL f(",
    );
    push(rt, text, tree);
    push(rt, text, ") END-SPEC");
}

#[test]
fn long_specification(rt: HostRuntime) {
    let mut tree = balanced_tree(&rt, rt.alloc(), 15);
    let mut text = String::new(rt.alloc());
    push_wide(&rt, &mut text, tree.as_str());
    assert!(rt; text.len() > 100_000);
    push(&rt, &mut tree, "\n");
    expect_lines(
        &rt,
        rt.alloc(),
        text.as_str(),
        options(1, false),
        tree.as_str(),
    );
}
