//! Tests of explanations on standard error.

use crate::shelf::Shelf;
use crate::tests::streams::run_on;
use crate::tests::{ADDITION, Row, run};
use std::alloc::Global;
use std::process::Abort;
use std::rt::Files;

/// Rejected texts, with line ends, a tab and a byte outside ASCII before the error.
pub(crate) const REFUSED: Shelf = Shelf {
    spec: "REC-SPEC E\nSORTS N\r\nCONS a : -> N\n\tb: -> M\nEND-SPEC",
    terms: "[a,\"\u{e9}\",f(1",
};

/// The explanations of these texts.
pub(crate) const EXPLAINED: &[Row] = &[
    (
        &["eval", "--explain", "spec"],
        "",
        1,
        "!spec S4\n",
        "recw: spec S4 at byte 41\n\
         spec:4:8: S4: undeclared sort in CONS, OPNS or VARS; \
         the only declared sort is N\n    \
         \tb: -> M\n    \t      ^\n",
    ),
    (
        &["eval", "--explain", "terms"],
        "",
        1,
        "!spec G\n",
        "recw: spec G at byte 0\n\
         terms:1:1: G: syntax error in the specification; expected `REC-SPEC`\n    \
         [a,\"\\xc3\\xa9\",f(1\n    ^\n",
    ),
    (
        &["aterm", "spec", "--explain"],
        "",
        1,
        "!term A\n",
        "recw: term A at byte 9\n\
         spec:1:10: A: syntax error in the annotated term; \
         expected `(`, `{` or the end of the text\n    \
         REC-SPEC E\n             ^\n",
    ),
    (
        &["aterm", "terms", "--explain"],
        "",
        1,
        "!term A\n",
        "recw: term A at byte 11\n\
         terms:1:12: A: syntax error in the annotated term; unexpected end of text; \
         expected `)`, `{` or `,`\n    \
         [a,\"\\xc3\\xa9\",f(1\n                     ^\n",
    ),
    (
        &["match", "--explain", "<foo>"],
        "",
        1,
        "!pattern P1\n",
        "PATTERN:1:1: P1: placeholder other than \
         <term>, <int>, <str>, <appl>, <placeholder>, <list>; found `<foo>`\n    <foo>\n    ^\n",
    ),
    (
        &["make", "--explain", "<int>", "[a]"],
        "",
        1,
        "!args M2\n",
        "ARGS: M2: argument that does not match its placeholder; element 1 of the list\n",
    ),
    (
        &["make", "--explain", "<int", "[a]"],
        "",
        1,
        "!pattern A\n",
        "recw: pattern A at byte 4\n\
         PATTERN:1:5: A: syntax error in the annotated term; unexpected end of text; \
         expected `(`, `{` or `>`\n    \
         <int\n        ^\n",
    ),
    (
        &["share", "--explain", "none"],
        "",
        4,
        "",
        "recw: read failed\nnone: entity not found\n",
    ),
    (
        &["aterm", "--explain"],
        "",
        4,
        "",
        "recw: read failed\n<stdin>: other error\n",
    ),
];

/// A text that ends too soon, on one line.
const CUT_OFF: &str = "REC-SPEC E CONS z : Nat Nat";

/// The explanation of its end.
const CUT_OFF_THERE: &str = "recw: spec G at byte 27\n\
     <stdin>:1:28: G: syntax error in the specification; unexpected end of text; \
     expected an identifier or `->`\n    \
     REC-SPEC E CONS z : Nat Nat\n                               ^\n";

/// The explanation if three cells are not enough.
const OUT_OF_CELLS: &str =
    "recw: out of cells\nterm 1: the store limit is 3 cells; raise it with --cells\n";

/// The explanations of texts on standard input.
pub(crate) const INPUTS: &[Row] = &[
    (
        &["eval", "--explain"],
        CUT_OFF,
        1,
        "!spec G\n",
        CUT_OFF_THERE,
    ),
    (
        &["eval", "--explain", "--cells", "3"],
        ADDITION,
        3,
        "",
        OUT_OF_CELLS,
    ),
];

/// A well-formed specification.
const KEPT: &str = "REC-SPEC Q SORTS A B CONS a : -> A b : -> B 0 : -> A OPNS f : A -> A \
     VARS X Y : A RULES f(X) -> X EVAL f(a) END-SPEC";

/// The parts of an explanation: text, rule and end of the line.
#[derive(Clone, Copy)]
struct Saying<'a> {
    /// The name of the text, and the location if there is one.
    text: &'a str,
    /// The error code.
    rule: &'a str,
    /// The end of the line, which may name an element.
    item: &'a str,
}

/// Compares an explanation with these parts.
fn tells(rt: &impl Abort, said: &str, saying: &Saying<'_>) {
    let Saying { text, rule, item } = *saying;
    let line = said.lines().next().unwrap_or("");
    let is_named = line.starts_with(text) && line.contains(rule) && line.ends_with(item);
    let is_counted = line.contains("element") == item.contains("element");
    assert!(rt; is_named && is_counted, "{text}{rule}{item}: {said}");
}

/// Input terms, the error with its location, and the end of the explanation.
const ITEMS: [(&str, &str, &str); 17] = [
    (
        "a",
        "terms:1:1: T1: ",
        "; write brackets around it, as in [a,b]",
    ),
    (
        "[a]{a}",
        "terms:1:4: T1: ",
        "; remove the annotations of the list",
    ),
    (
        "[f(a),3]",
        "terms:1:7: T2: ",
        "; element 2 of the list; found the integer 3",
    ),
    (
        "[f(a),f(0)]",
        "terms:1:9: T2: ",
        "; element 2 of the list; found the integer 0; did you mean `\"0\"`?",
    ),
    (
        "[a{a},<a>]",
        "terms:1:7: T2: ",
        "; element 2 of the list; found a placeholder",
    ),
    (
        "[f(a{b}),f(b),[a],c,1]",
        "terms:1:15: T2: ",
        "; element 3 of the list; found a list",
    ),
    (
        "[f(a{b})]",
        "terms:1:4: T3: ",
        "; element 1 of the list; found on a",
    ),
    (
        "[c,a{b},f(f(a{b})),f(a{b})]",
        "terms:1:13: T3: ",
        "; element 3 of the list; found on a",
    ),
    (
        "[f(a{ }),f(a{b})]",
        "terms:1:12: T3: ",
        "; element 2 of the list; found on a",
    ),
    (
        "[a,\"q\\n\"]",
        "terms:1:4: T4: ",
        "; element 2 of the list; \"q\\n\"",
    ),
    (
        "[\"\\060\"(a)]",
        "terms:1:2: T5: ",
        "; element 1 of the list; 0 takes 0 arguments, found 1",
    ),
    (
        "[a,b,\"a\",X]",
        "terms:1:6: T4: ",
        "; element 3 of the list; \"a\"; did you mean `a`?",
    ),
    (
        "[f(a,a),f(b),\nc]",
        "terms:2:1: T4: ",
        "; element 3 of the list; c",
    ),
    (
        "[f(b),f]",
        "terms:1:7: T5: ",
        "; element 2 of the list; f takes 1 argument, found 0",
    ),
    (
        "[a{f(f,f),<a>,[\"]\"]},f(a,(a),f(a))]",
        "terms:1:26: T4: ",
        "; element 2 of the list; ()",
    ),
    (
        "[f(a),f(a,f(a))]",
        "terms:1:7: T5: ",
        "; element 2 of the list; f takes 1 argument, found 2",
    ),
    (
        "[a,f(a),f(f(b)),f(b)]",
        "terms:1:13: T6: ",
        "; element 3 of the list; expected A, found B, in argument 1 of f",
    ),
];

/// Compares the explanation of rejected input terms with its expected parts.
fn tells_the_term(rt: &impl Abort, alloc: Global, terms: &'static str, rule: &str, item: &str) {
    let files = Shelf { spec: KEPT, terms };
    let ran = run_on(&files, alloc, &["eval", "--explain", "spec", "terms"]);
    let text = rule;
    tells(rt, ran.err(), &Saying { text, rule, item });
}

/// A pattern, arguments, the error code, and the end of the explanation.
const ARGUMENTS: [(&str, &str, &str, &str); 6] = [
    ("f(<int>)", "[]", "M1", "; expected 1, found 0"),
    ("f(<int>)", "[a,b]", "M1", "; expected 1, found 2"),
    ("a", "[a]", "M1", "; expected 0, found 1"),
    (
        "f(<int>,<int>,<str>)",
        "[1,a,b]",
        "M2",
        "; element 2 of the list",
    ),
    (
        "f(<int>,<list>)",
        "[1,[a]{b}]",
        "M2",
        "; element 2 of the list",
    ),
    (
        "f(<int>)",
        "1",
        "T1",
        "; write brackets around it, as in [a,b]",
    ),
];

/// Compares the explanation of rejected arguments with its expected parts.
fn tells_the_argument<H: Abort + Files>(
    rt: &H,
    alloc: Global,
    pattern: &str,
    args: &str,
    saying: &Saying<'_>,
) {
    let ran = run(rt, alloc, &["make", "--explain", pattern, args], "");
    tells(rt, ran.err(), saying);
}

#[test]
fn tells_which_element_it_is(rt: HostRuntime) {
    for (terms, rule, item) in &ITEMS {
        tells_the_term(&rt, rt.alloc(), terms, rule, item);
    }
    for (pattern, args, rule, item) in &ARGUMENTS {
        let text = "ARGS:";
        tells_the_argument(&rt, rt.alloc(), pattern, args, &Saying { text, rule, item });
    }
}
