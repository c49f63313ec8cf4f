//! Tests of hints about texts with syntax errors.

use rec_syntax::{SyntaxFault, read_spec};
use recw_cli::{find_hint, find_term_hint};
use std::alloc::Global;
use std::process::Abort;

/// Texts with a mistake that is known, the offset of the hint, and its words.
const KNOWN: [(&str, usize, &str); 23] = [
    (
        "R\u{0}E\u{0}C\u{0}",
        0,
        "the text is in UTF-16; save it in UTF-8",
    ),
    (
        "REC-SPEC E\n<<<<<<< HEAD\nEND-SPEC",
        11,
        "a conflict of a merge",
    ),
    (
        "REC-SPEC E OPNS f : N => N END-SPEC",
        22,
        "not an arrow; did you mean ->?",
    ),
    (
        "REC-SPEC E RULES f -> a if a != b END-SPEC",
        29,
        "not a comparison; did you mean ->/<-?",
    ),
    (
        "REC-SPEC E EVAL x\u{2019} END-SPEC",
        17,
        "not a quote; did you mean '?",
    ),
    (
        "REC-SPEC E EVAL x\u{a0}y END-SPEC",
        17,
        "no-break space; write a space",
    ),
    (
        "REC-SPEC E SORTS N; CONS a : -> N END-SPEC",
        18,
        "declarations end without a mark; remove this ;",
    ),
    (
        "REC-SPEC E EVAL a # b(\nEND-SPEC",
        18,
        "not a comment; comments start with %",
    ),
    (
        "REC-SPEC E EVAL \u{e4} END-SPEC",
        16,
        "other letters than those of ASCII are in comments only",
    ),
    (
        "REC-SPEC E OPNS CONS END-SPEC",
        16,
        "section out of order; write CONS before OPNS",
    ),
    (
        "REC-SPEC E SORTS\nVARS\nVARS END-SPEC",
        22,
        "section out of order; VARS is already on line 2",
    ),
    (
        "REC-SPEC SORTS N END-SPEC",
        9,
        "the specification has no name; write REC-SPEC NAME",
    ),
    (
        "REC-SPEC E END-SPEC REC-SPEC F END-SPEC",
        20,
        "a second specification; a text has only one",
    ),
    (
        "REC-SPEC E RULES f(g(a) -> a END-SPEC",
        18,
        "this parenthesis is not closed",
    ),
    (
        "REC-SPEC E EVAL f(a b) END-SPEC",
        20,
        "arguments are separated by commas",
    ),
    (
        "REC-SPEC E EVAL f(a)) END-SPEC",
        20,
        "no parenthesis is open here",
    ),
    (
        "REC-SPEC E EVAL (f(a)) END-SPEC",
        16,
        "a term starts with a symbol or a variable; remove the parentheses around it",
    ),
    (
        "REC-SPEC E RULES f -> a if a -><- b & b -><- b END-SPEC",
        36,
        "conditions are joined by and-if",
    ),
    (
        "REC-SPEC E SORTS A, B, C END-SPEC",
        18,
        "sorts are separated by spaces; remove this comma",
    ),
    (
        "REC-SPEC E OPNS f : A -> A -> A END-SPEC",
        27,
        "one arrow in a declaration; separate the sorts of arguments by spaces",
    ),
    (
        "REC-SPEC E CONS a : A b : A END-SPEC",
        16,
        "a constant has an arrow; did you mean a : -> A?",
    ),
    (
        "REC-SPEC E RULES if a -><- a then f -> a END-SPEC",
        17,
        "a condition comes after its rule",
    ),
    (
        "REC-SPEC E EVAL f(a) -> a END-SPEC",
        21,
        "EVAL has terms; write rules in RULES",
    ),
];

/// Texts with another mistake than those that a hint could name.
const UNKNOWN: [&str; 12] = [
    // a name with a mark in it is no comment
    "REC-SPEC E SORTS N CONS a#1 : -> N\nb : -> N END-SPEC",
    // names and numbers with a point in them are no items with a mark
    "REC-SPEC E EVAL 1.5 END-SPEC",
    // without the comma a name of a declaration is left
    "REC-SPEC E SORTS N OPNS f, g : N -> N END-SPEC",
    // a reserved word as a name is no section out of order
    "REC-SPEC E SORTS N OPNS CONS : N -> N END-SPEC",
    // an infix operator is no missing comma, and no missing parenthesis
    "REC-SPEC E EVAL f(a + b) END-SPEC",
    "REC-SPEC E EVAL f(a plus b) END-SPEC",
    // a tuple is no term in parentheses
    "REC-SPEC E RULES f(a) -> (a,b) END-SPEC",
    // an operator whose name other languages use for a section
    "REC-SPEC E CONS functions N -> N END-SPEC",
    // an operator whose name other languages use for a reserved word
    "REC-SPEC E RULES f(X) -> X if X -><- X and X Y -> X END-SPEC",
    // a symbol of mathematics is no letter
    "REC-SPEC E OPNS f : N \u{d7} N -> N END-SPEC",
    // a mark that goes on is no spelling of an arrow
    "REC-SPEC E RULES f(X) ===> X END-SPEC",
    // one closing parenthesis too many, before a comma
    "REC-SPEC E EVAL f(g(a)),g(b)) END-SPEC",
];

/// Annotated terms, the offset of the syntax error, and the hint with its offset.
const TERMS: [(&str, usize, usize, &str); 5] = [
    (
        "f(2147483648)",
        2,
        2,
        "integers are from -2147483648 to 2147483647",
    ),
    (
        "-2147483649",
        0,
        0,
        "integers are from -2147483648 to 2147483647",
    ),
    ("[\"a\\n", 1, 1, "this quoted name does not end"),
    (
        "\"a\\101\\x41\"",
        0,
        6,
        "not an escape; write \\n, \\t, \\r, \\\\, \\\" or three octal digits, such as \\101",
    ),
    ("f(1.5)", 3, 3, "terms have no real numbers"),
];

/// Annotated terms with another error than those, and its offset.
const OTHER_TERMS: [(&str, usize); 5] = [
    ("f(a -2147483648)", 4),
    ("f(a \"b\")", 4),
    ("f(a 2147483647)", 4),
    ("f(1.)", 3),
    ("f(a}", 3),
];

/// Returns the offset of the syntax error of a text.
fn fault_of(rt: &impl Abort, alloc: Global, text: &str) -> usize {
    match read_spec(alloc, text.as_bytes()) {
        Err(SyntaxFault::Grammar { at }) => at as usize,
        _ => {
            assert!(rt; false, "no syntax error in {text}");
            0
        }
    }
}

#[test]
fn names_known_mistakes(rt: HostRuntime) {
    let alloc = rt.alloc();
    for (text, from, words) in &KNOWN {
        let at = fault_of(&rt, alloc, text);
        let hint = find_hint(alloc, text.as_bytes(), at);
        let mut said = Vec::new(alloc);
        if let Some(hint) = hint {
            assert_eq!(rt; hint.from, *from, "{text}");
            assert!(rt; hint.write(text.as_bytes(), &mut said).is_ok());
        }
        assert_eq!(rt; said.as_slice(), words.as_bytes(), "{text}");
    }
}

#[test]
fn names_no_other_mistakes(rt: HostRuntime) {
    let alloc = rt.alloc();
    for text in &UNKNOWN {
        let at = fault_of(&rt, alloc, text);
        assert!(rt; find_hint(alloc, text.as_bytes(), at).is_none(), "{text}");
    }
}

#[test]
fn suggests_what_to_write(rt: HostRuntime) {
    let alloc = rt.alloc();
    let text = "REC-SPEC E SORTS N CONS a : N END-SPEC";
    let hint = find_hint(alloc, text.as_bytes(), 30);
    let change = hint.and_then(|hint| hint.suggestion());
    let said = change.map(|change| (change.from, change.to, change.meant));
    assert_eq!(rt; said, Some((28, 28, "-> ")));
}

#[test]
fn names_known_mistakes_of_terms(rt: HostRuntime) {
    let alloc = rt.alloc();
    for (text, at, from, words) in &TERMS {
        let mut said = Vec::new(alloc);
        if let Some(hint) = find_term_hint(text.as_bytes(), *at) {
            assert_eq!(rt; hint.from, *from, "{text}");
            assert!(rt; hint.write(text.as_bytes(), &mut said).is_ok());
        }
        assert_eq!(rt; said.as_slice(), words.as_bytes(), "{text}");
    }
    for (text, at) in &OTHER_TERMS {
        assert!(rt; find_term_hint(text.as_bytes(), *at).is_none(), "{text}");
    }
}
