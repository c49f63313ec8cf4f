//! Tests of the names in explanations.

use crate::tests::run;
use std::alloc::Global;
use std::process::Abort;
use std::rt::Files;

/// Specifications, and the explanation of each up to the end of a line.
const NAMES: [(&str, &str); 17] = [
    (
        "REC-SPEC E\nSORTS A B\n A\nEND-SPEC",
        "<stdin>:3:2: S1: duplicate sort; A is already declared on line 2\n",
    ),
    (
        "REC-SPEC E SORTS A\nCONS a : -> A\nOPNS b : -> A\n a : A -> A END-SPEC",
        "; a is already declared on line 2\n",
    ),
    (
        "REC-SPEC E SORTS A B VARS X Y\n : A\nZ Y : B END-SPEC",
        "; Y is already declared on line 1\n",
    ),
    (
        "REC-SPEC E SORTS A\nCONS a : -> A VARS a : A END-SPEC",
        "; the symbol a is already declared on line 2\n",
    ),
    (
        "REC-SPEC E SORTS A B CONS a : C -> A END-SPEC",
        "; declared sorts are A, B\n",
    ),
    (
        "REC-SPEC E CONS a : -> A END-SPEC",
        "; no sorts are declared\n",
    ),
    (
        "REC-SPEC E SORTS A CONS zero : -> A OPNS plus : A A -> A EVAL pluss(zero,zero) END-SPEC",
        "; did you mean `plus`?\n",
    ),
    (
        "REC-SPEC E SORTS A CONS a : -> A EVAL b END-SPEC",
        "; declare it in CONS or OPNS\n",
    ),
    (
        "REC-SPEC E SORTS A CONS a : -> A RULES f(a) -> a END-SPEC",
        "; declare it in OPNS\n",
    ),
    (
        "REC-SPEC E SORTS A CONS a : -> A OPNS f : A -> A RULES f(X) -> a END-SPEC",
        "; declare it in VARS, CONS or OPNS\n",
    ),
    (
        "REC-SPEC E SORTS A CONS a : -> A OPNS f : A -> A RULES f(a) -> long(a) END-SPEC",
        "; declare it in CONS or OPNS\n",
    ),
    (
        "REC-SPEC E SORTS A CONS z : -> A OPNS plus : A A -> A EVAL plus(z) END-SPEC",
        "; plus takes 2 arguments, found 1\n",
    ),
    (
        "REC-SPEC E SORTS A CONS z : -> A s : A -> A EVAL s(z,s(z),z) END-SPEC",
        "; s takes 1 argument, found 3\n",
    ),
    (
        "REC-SPEC E SORTS A CONS z : -> A OPNS f : A -> A VARS X : A RULES f(X) -> X(z) END-SPEC",
        "; the variable X takes no arguments\n",
    ),
    (
        "REC-SPEC E SORTS Elt List CONS e : -> Elt nil : -> List cons : Elt List -> List \
         EVAL cons(e,cons(e,nil)) cons(e,e) END-SPEC",
        "; expected List, found Elt, in argument 2 of cons\n",
    ),
    (
        "REC-SPEC E SORTS A B CONS a : -> A b : -> B OPNS f : A B A -> A VARS X : B \
         RULES f(f(a,X,a),b,a) -> a f(a,b,f(a,X,X)) -> a END-SPEC",
        "; expected A, found B, in argument 3 of f\n",
    ),
    (
        "REC-SPEC E SORTS A B CONS a : -> A b : -> B OPNS f : A -> A VARS X : A \
         RULES f(X) -> X if X -><- b END-SPEC",
        "; A on the left, B on the right\n",
    ),
];

/// Specifications with a misspelt reserved word, or with one that seems misspelt, and the
/// suggestion.
const MISSPELT: [(&str, &str); 8] = [
    (
        "REC-SPEC E SORTS A CONS a : -> A OPNS f : A -> A VARS X : A\nRULE f(X) -> X\nEVAL f(a) \
         END-SPEC",
        "<stdin>:2:1: not a section; did you mean RULES?\n    RULE f(X) -> X\n    ^\n",
    ),
    (
        "REC-SPEC E SORTS A CONS a : -> A EVAL a\nEND-SPCE",
        "<stdin>:2:1: not a section; did you mean END-SPEC?\n    END-SPCE\n    ^\n",
    ),
    (
        "REC-SPEC E\nSORT A CONS a : -> A END-SPEC",
        "<stdin>:2:1: not a section; did you mean SORTS?\n",
    ),
    (
        "REC-SPEC E SORTS A % CON\n CON cons : -> A EVAL cons END-SPEC",
        "<stdin>:2:2: not a section; did you mean CONS?\n",
    ),
    (
        "REC-SPEC E SORTS A CONS a : -> A OPNS sort : A -> A VARS X : A RULES sort(X) -> X\n\
         EVL sort(a) END-SPEC",
        "<stdin>:2:1: not a section; did you mean EVAL?\n",
    ),
    (
        "REC-SPEC E SORTS A CONS a : -> A OPNS f : A -> A VARS X : A rules f(X) -> X END-SPEC",
        "<stdin>:1:61: not a section; did you mean RULES?\n",
    ),
    (
        "REC-SPEC E SORTS A CONS a : -> A OPNS f : A -> A VARS X : A RULES f(X) -> X if X -><- a \
         andif X -><- a END-SPEC",
        "not a reserved word; did you mean and-if?\n",
    ),
    (
        "Rec-Spec E END-SPEC",
        "<stdin>:1:1: not a section; did you mean REC-SPEC?\n",
    ),
];

/// Texts with a syntax error at an offset without a visible character, and the explanation.
const HERE: [(&str, &str); 8] = [
    (
        "",
        "<stdin>:1:1: G: syntax error in the specification; the text is empty; \
         expected `REC-SPEC`\n",
    ),
    (
        "\u{feff}REC-SPEC E END-SPEC",
        "<stdin>:1:1: G: syntax error in the specification; unexpected byte order mark; \
         expected `REC-SPEC`\n",
    ),
    (
        "REC-SPEC E SORTS A\r\nCONS a -> A\r\nEND-SPEC\r\n",
        "<stdin>:2:8: G: syntax error in the specification; \
         expected `:`\n    CONS a -> A\n           ^\n",
    ),
    (
        "REC-SPEC->E END-SPEC",
        "<stdin>:1:9: G: syntax error in the specification; expected an identifier\n",
    ),
    (
        "REC-SPEC E SORTS-->A END-SPEC",
        "<stdin>:1:17: G: syntax error in the specification; expected an identifier, `CONS`",
    ),
    (
        "REC-SPEC E SORTS\r",
        "; unexpected end of text; expected an identifier, `CONS`, `OPNS`, `VARS`, `RULES`, \
         `EVAL` or `END-SPEC`\n    REC-SPEC E SORTS\n                    ^\n",
    ),
    (
        "REC-SPEC E SORTS A CONS a : -> A cons : A -> A EVAL cons(a END-SPEC",
        "expected `(`, `)` or `,`\n",
    ),
    (
        "REC-SPEC E SORTS A OPNS f : A -> A VARS X : A RULES f(X) X END-SPEC",
        "<stdin>:1:58: G: syntax error in the specification; expected `->`\n",
    ),
];

/// Compares the explanation of a specification on standard input.
fn says<H: Abort + Files>(rt: &H, alloc: Global, text: &str, said: &str) {
    let ran = run(rt, alloc, &["eval", "--explain"], text);
    assert!(rt; ran.err().contains(said), "{said}: {}", ran.err());
}

#[test]
fn names_what_a_refusal_is_about(rt: HostRuntime) {
    for (text, said) in &NAMES {
        says(&rt, rt.alloc(), text, said);
    }
    for (text, said) in &HERE {
        says(&rt, rt.alloc(), text, said);
    }
}

/// Checks that an explanation suggests no word.
fn asks_of_none<H: Abort + Files>(rt: &H, alloc: Global, text: &str) {
    let ran = run(rt, alloc, &["eval", "--explain"], text);
    assert!(rt; !ran.err().contains("did you mean"), "{}", ran.err());
}

#[test]
fn finds_reserved_words_that_are_misspelt(rt: HostRuntime) {
    for (text, said) in &MISSPELT {
        says(&rt, rt.alloc(), text, said);
    }
    for (text, _) in &HERE {
        asks_of_none(&rt, rt.alloc(), text);
    }
}
