//! Tests of the forms of `check`: explained findings, colours and JSON.

use crate::shelf::Shelf;
use crate::tests::{Row, run_before};
use std::alloc::Global;
use std::process::Abort;
use std::rt::Files;

/// A specification with a misspelt word, a wrong number of arguments and a variable that is bound
/// nowhere.
const ERRORS: &str = "REC-SPEC E SORTS A CONS z : -> A s : A -> A OPNS plus : A A -> A VARS X : A\n\
     RULES plus(s(z,z),z) -> X\n\
     EVAL pluss(z,z) END-SPEC";

/// A specification with a misspelt section.
const MISSPELT: &str = "REC-SPEC E SORTS A CONS a : -> A OPNS f : A -> A VARS X : A\n\
     RULE f(X) -> X\n\
     EVAL f(a) END-SPEC";

/// A specification with an unused sort.
const UNUSED: &str = "REC-SPEC E SORTS A CONS OPNS VARS RULES EVAL END-SPEC";

/// A specification that ends too soon.
const CUT_OFF: &str = "REC-SPEC E CONS z : Nat Nat";

/// A specification without findings.
const GOOD: &str = "REC-SPEC E SORTS A CONS a : -> A OPNS VARS RULES EVAL a END-SPEC";

/// Explained findings, and JSON.
pub(crate) const FORMS: &[Row] = &[
    (
        &["check", "--explain", "-"],
        ERRORS,
        1,
        "<stdin>:3:6: error: undeclared symbol or variable in RULES or EVAL: pluss [S5]\n    \
         EVAL pluss(z,z) END-SPEC\n         ^\n    \
         did you mean `plus`?\n\
         <stdin>:2:12: error: wrong number of arguments of a symbol, or arguments of a variable: s \
         [S6]\n    \
         RULES plus(s(z,z),z) -> X\n               ^\n    \
         s takes 1 argument, found 2\n\
         <stdin>:2:25: error: variable that is not in the left-hand side of its rule: X [S10]\n    \
         RULES plus(s(z,z),z) -> X\n                            ^\n",
        "",
    ),
    (
        &["check", "--format", "json", "-"],
        ERRORS,
        1,
        "{\"file\":\"<stdin>\",\"line\":3,\"column\":6,\"end_line\":3,\"end_column\":11,\
         \"severity\":\"error\",\"code\":\"S5\",\
         \"message\":\"undeclared symbol or variable in RULES or EVAL: pluss\",\
         \"expected\":[],\"suggestion\":\"plus\"}\n\
         {\"file\":\"<stdin>\",\"line\":2,\"column\":12,\"end_line\":2,\"end_column\":13,\
         \"severity\":\"error\",\"code\":\"S6\",\
         \"message\":\"wrong number of arguments of a symbol, or arguments of a variable: s; \
         s takes 1 argument, found 2\",\
         \"expected\":[],\"suggestion\":null}\n\
         {\"file\":\"<stdin>\",\"line\":2,\"column\":25,\"end_line\":2,\"end_column\":26,\
         \"severity\":\"error\",\"code\":\"S10\",\
         \"message\":\"variable that is not in the left-hand side of its rule: X\",\
         \"expected\":[],\"suggestion\":null}\n",
        "",
    ),
    (
        &["check", "-", "--explain"],
        MISSPELT,
        1,
        "<stdin>:2:7: error: syntax error in the specification [G]\n    \
         RULE f(X) -> X\n          ^\n    \
         expected an identifier or `:`\n\
         <stdin>:2:1: not a section; did you mean RULES?\n    \
         RULE f(X) -> X\n    ^\n",
        "",
    ),
    (
        &["check", "--format=json", "-"],
        MISSPELT,
        1,
        "{\"file\":\"<stdin>\",\"line\":2,\"column\":7,\"end_line\":2,\"end_column\":8,\
         \"severity\":\"error\",\"code\":\"G\",\
         \"message\":\"syntax error in the specification; \
         2:1: not a section; did you mean RULES?\",\
         \"expected\":[\"an identifier\",\"`:`\"],\"suggestion\":null}\n",
        "",
    ),
    (
        &["check", "--format", "json", "-"],
        CUT_OFF,
        1,
        "{\"file\":\"<stdin>\",\"line\":1,\"column\":28,\"end_line\":1,\"end_column\":28,\
         \"severity\":\"error\",\"code\":\"G\",\
         \"message\":\"syntax error in the specification; unexpected end of text\",\
         \"expected\":[\"an identifier\",\"`->`\"],\"suggestion\":null}\n",
        "",
    ),
    (
        &["check", "--explain", "--format", "gnu", "-"],
        UNUSED,
        0,
        "<stdin>:1:18: warning: unused sort: A [W4]\n    \
         REC-SPEC E SORTS A CONS OPNS VARS RULES EVAL END-SPEC\n                     ^\n",
        "",
    ),
    (
        &["check", "--strict", "--format", "json", "-"],
        UNUSED,
        1,
        "{\"file\":\"<stdin>\",\"line\":1,\"column\":18,\"end_line\":1,\"end_column\":19,\
         \"severity\":\"warning\",\"code\":\"W4\",\"message\":\"unused sort: A\",\
         \"expected\":[],\"suggestion\":null}\n",
        "",
    ),
    (&["check", "--format", "json", "-"], GOOD, 0, "", ""),
    (
        &["check", "--format", "json", "no such file"],
        "",
        4,
        "",
        "recw: read failed\n",
    ),
];

/// Checks the output of `check` on a terminal.
fn shows<H: Abort + Files>(rt: &H, alloc: Global, words: &[&str], text: &str, wanted: &str) {
    let ran = run_before(rt, alloc, words, &mut text.as_bytes(), true);
    assert!(rt; ran.out() == wanted, "{words:?}: {}", ran.out());
}

#[test]
fn explains_findings_on_a_terminal(rt: HostRuntime) {
    let alloc = rt.alloc();
    let warning = "<stdin>:1:18: \u{1b}[1;33mwarning:\u{1b}[0m unused sort: A [W4]\n    \
         REC-SPEC E SORTS A CONS OPNS VARS RULES EVAL END-SPEC\n                     ^\n";
    shows(&rt, alloc, &["check", "-"], UNUSED, warning);
    let error =
        "<stdin>:1:28: \u{1b}[1;31merror:\u{1b}[0m syntax error in the specification [G]\n    \
         REC-SPEC E CONS z : Nat Nat\n                               ^\n    \
         unexpected end of text; expected an identifier or `->`\n";
    shows(&rt, alloc, &["check", "-"], CUT_OFF, error);
    let object = "{\"file\":\"<stdin>\",\"line\":1,\"column\":18,\"end_line\":1,\"end_column\":19,\
         \"severity\":\"warning\",\"code\":\"W4\",\"message\":\"unused sort: A\",\
         \"expected\":[],\"suggestion\":null}\n";
    shows(
        &rt,
        alloc,
        &["check", "--format", "json", "-"],
        UNUSED,
        object,
    );
}

/// Two specifications of the same sort.
const TWICE: Shelf = Shelf {
    spec: UNUSED,
    terms: UNUSED,
};

#[test]
fn explains_joined_texts_on_a_terminal(rt: HostRuntime) {
    let words = &["check", "--join", "terms", "spec"];
    let ran = run_before(&TWICE, rt.alloc(), words, &mut "".as_bytes(), true);
    let wanted = "spec:1:18: \u{1b}[1;31merror:\u{1b}[0m duplicate sort: A: terms:1:18 [S1]\n    \
         REC-SPEC E SORTS A CONS OPNS VARS RULES EVAL END-SPEC\n                     ^\n";
    assert!(rt; ran.out() == wanted, "{}", ran.out());
}

/// A specification that needs the sort and the constructor of another.
pub(crate) const PARTS: Shelf = Shelf {
    spec: "REC-SPEC M SORTS CONS OPNS g : N -> N VARS X : N RULES\n\
        g(X) -> zeor EVAL END-SPEC",
    terms: "REC-SPEC P SORTS N\nCONS zero : -> N OPNS VARS RULES EVAL END-SPEC",
};

/// Findings in joined texts, each in its own file.
pub(crate) const JOINED: &[Row] = &[
    (
        &["check", "--join", "terms", "spec"],
        "",
        1,
        "spec:2:9: error: undeclared symbol or variable in RULES or EVAL: zeor [S5]\n",
        "",
    ),
    (
        &["check", "--explain", "--join", "terms", "spec"],
        "",
        1,
        "spec:2:9: error: undeclared symbol or variable in RULES or EVAL: zeor [S5]\n    \
         g(X) -> zeor EVAL END-SPEC\n            ^\n    did you mean `zero`?\n",
        "",
    ),
    (
        &["check", "--join=terms", "--format=json", "spec"],
        "",
        1,
        "{\"file\":\"spec\",\"line\":2,\"column\":9,\"end_line\":2,\"end_column\":13,\
         \"severity\":\"error\",\"code\":\"S5\",\
         \"message\":\"undeclared symbol or variable in RULES or EVAL: zeor\",\
         \"expected\":[],\"suggestion\":\"zero\"}\n",
        "",
    ),
    (
        &["check", "--join", "terms", "--format", "json", "terms"],
        "",
        1,
        "{\"file\":\"terms\",\"line\":1,\"column\":18,\"end_line\":1,\"end_column\":19,\
         \"severity\":\"error\",\"code\":\"S1\",\"message\":\"duplicate sort: N: terms:1:18\",\
         \"expected\":[],\"suggestion\":null}\n\
         {\"file\":\"terms\",\"line\":2,\"column\":6,\"end_line\":2,\"end_column\":10,\
         \"severity\":\"error\",\"code\":\"S2\",\
         \"message\":\"duplicate symbol in CONS and OPNS, even with other sorts: zero: terms:2:6\",\
         \"expected\":[],\"suggestion\":null}\n",
        "",
    ),
];
