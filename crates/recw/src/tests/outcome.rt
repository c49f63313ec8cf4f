//! Tests of exit statuses that depend on the results.

use crate::tests::{ADDITION, Row};

/// A call that no rule matches, and a condition that fails.
pub(crate) const STUCK: &str =
    "REC-SPEC S SORTS N CONS z : -> N s : N -> N p : N N -> N OPNS f : N -> N \
     VARS X : N RULES f(s(X)) -> X if X -><- s(z) EVAL f(z) END-SPEC";

/// Matches and evaluations with such statuses.
pub(crate) const STATUSES: &[Row] = &[
    (&["match", "--test", "f(<int>)"], "f(1)", 0, "yes\n1\n", ""),
    (&["match", "f(<int>)", "--test"], "f(a)", 1, "no\n", ""),
    (&["match", "--test", "<foo>"], "a", 2, "!pattern P1\n", ""),
    (
        &["match", "--test", "a"],
        "f(",
        2,
        "!term A\n",
        "recw: term A at byte 2\n",
    ),
    (
        &["match", "--test", "a", "no such file"],
        "",
        4,
        "",
        "recw: read failed\n",
    ),
    (&["eval", "--limit-status"], ADDITION, 0, "s(s(s(z)))\n", ""),
    (
        &["eval", "--limit-status", "--steps", "2"],
        ADDITION,
        5,
        "!limit 2\n",
        "",
    ),
    (
        &["eval", "--limit-status", "--steps", "2", "-e", "z"],
        ADDITION,
        5,
        "!limit 2\nz\n",
        "",
    ),
    (
        &["eval", "--limit-status", "--bytes", "10"],
        ADDITION,
        0,
        "s(s(s(z)))\n",
        "",
    ),
    (
        &["eval", "--limit-status", "--bytes", "9", "-e", "z{1}"],
        ADDITION,
        5,
        "!bytes 9\nz{1}\n",
        "",
    ),
    (
        &["eval", "--limit-status"],
        "REC-SPEC E SORTS : END-SPEC",
        1,
        "!spec G\n",
        "recw: spec G at byte 17\n",
    ),
    (
        &["eval", "--limit-status", "--cells", "3"],
        ADDITION,
        3,
        "",
        "recw: out of cells\n",
    ),
    (
        &["eval", "--limit-status", "--dot", "1", "--steps", "2"],
        ADDITION,
        5,
        "!limit 2\n",
        "",
    ),
    (
        &["eval", "--limit-status", "--dot", "2", "-e", "z"],
        ADDITION,
        0,
        "digraph term {\n  node [shape=box, fontname=\"monospace\"];\n  n0 [label=\"z\"];\n  \
         n0 -> n1 [label=\"args\"];\n  n1 [label=\"[]\"];\n}\n",
        "",
    ),
    (&["eval", "--stuck"], ADDITION, 0, "s(s(s(z)))\n", ""),
    (
        &["eval", "--stuck", "-e", "p(f(z),f(s(z))){1}"],
        STUCK,
        5,
        "f(z)\np(f(z),f(s(z))){1}\n",
        "stuck: term 1: f(z): no rule matches\nstuck: term 2: f(z): no rule matches\n\
         stuck: term 2: f(s(z)): the conditions of 1:91 fail\n",
    ),
    (
        &["eval", "--stuck", "--only-terms", "-e", "z", "-e", "f(z)"],
        STUCK,
        5,
        "z\nf(z)\n",
        "stuck: input term 2: f(z): no rule matches\n",
    ),
    (
        &["eval", "--stuck", "--term", "3", "-e", "z", "-e", "f(z)"],
        STUCK,
        5,
        "f(z)\n",
        "stuck: term 3: f(z): no rule matches\n",
    ),
    // A limit line counts as a term.
    (
        &[
            "eval",
            "--stuck",
            "--bytes",
            "4",
            "-e",
            "p(f(z),z)",
            "-e",
            "s(f(z))",
            "-e",
            "f(z){1}",
        ],
        STUCK,
        5,
        "f(z)\n!bytes 4\n!bytes 4\n!bytes 4\n",
        "stuck: term 1: f(z): no rule matches\nstuck: term 2: f(z): no rule matches\n\
         stuck: term 3: f(z): no rule matches\nstuck: term 4: f(z): no rule matches\n",
    ),
    (
        &[
            "eval", "--stuck", "--steps", "0", "--memo", "0", "-e", "f(s(z))", "-e", "s(f(z))",
        ],
        STUCK,
        5,
        "f(z)\n!limit 0\ns(f(z))\n",
        "stuck: term 1: f(z): no rule matches\nstuck: term 3: f(z): no rule matches\n",
    ),
    (
        &["eval", "--stuck", "--cells", "3"],
        STUCK,
        3,
        "",
        "recw: out of cells\n",
    ),
    // One frame for the term, and one for the call in each right-hand side but the last.
    (
        &["eval", "--memo", "0", "--depth", "3"],
        ADDITION,
        0,
        "s(s(s(z)))\n",
        "",
    ),
    (
        &["eval", "--memo", "0", "--depth", "2", "-e", "z"],
        ADDITION,
        3,
        "",
        "recw: too deep\n",
    ),
    (
        &["eval", "--depth", "0", "--explain"],
        ADDITION,
        3,
        "",
        "recw: too deep\nterm 1: the call-depth limit is 0 frames; raise it with --depth\n",
    ),
    (
        &[
            "eval",
            "--memo",
            "0",
            "--depth",
            "3",
            "--explain",
            "-e",
            "plus(s(s(s(z))),z)",
        ],
        ADDITION,
        3,
        "s(s(s(z)))\n",
        "recw: too deep\nterm 2: the call-depth limit is 3 frames; raise it with --depth\n",
    ),
    (
        &[
            "eval",
            "--memo",
            "0",
            "--depth",
            "2",
            "--explain",
            "--term",
            "2",
            "-e",
            "plus(s(s(z)),z)",
        ],
        ADDITION,
        3,
        "",
        "recw: too deep\nterm 2: the call-depth limit is 2 frames; raise it with --depth\n",
    ),
    // The input terms do not fit into the store: no term is named.
    (
        &[
            "trace",
            "-",
            "--cells",
            "3",
            "--explain",
            "-e",
            "s(s(s(s(z))))",
        ],
        ADDITION,
        3,
        "",
        "recw: out of cells\nthe store limit is 3 cells; raise it with --cells\n",
    ),
];
