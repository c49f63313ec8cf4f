//! Tests of input terms given with `-e`, and of standard input by its name `-`.

use crate::shelf::Shelf;
use crate::tests::{ADDITION, Row};

/// Terms given with `-e`, for a specification on standard input.
pub(crate) const WORDS: &[Row] = &[
    (
        &["eval", "-e", "plus(z,s(z))"],
        ADDITION,
        0,
        "s(s(s(z)))\ns(z)\n",
        "",
    ),
    (
        &["eval", "--input", "z", "-", "-e", " s(z){7} ", "--count"],
        ADDITION,
        0,
        "s(s(s(z)))\t3\nz\t0\ns(z){7}\t0\n",
        "",
    ),
    (
        &[
            "eval",
            "--limit-annotations",
            "--steps",
            "2",
            "-e",
            "plus(z,z){id(1)}",
            "-e",
            "plus(s(s(z)),z){id(2),3}",
        ],
        ADDITION,
        0,
        "!limit 2\nz{id(1)}\n!limit 2{id(2),3}\n",
        "",
    ),
    // The annotations count as bytes of a result, the steps do not.
    (
        &[
            "eval",
            "--count",
            "--bytes",
            "8",
            "-e",
            "z{id(1)}",
            "-e",
            "s(z){id}",
            "-e",
            "s(z){a,b}",
        ],
        ADDITION,
        0,
        "!bytes 8\nz{id(1)}\t0\ns(z){id}\t0\n!bytes 8\n",
        "",
    ),
    (
        &[
            "eval",
            "--limit-annotations",
            "--bytes=0",
            "--steps=2",
            "-e",
            "plus(z,z){id(1)}",
            "-e",
            "plus(s(s(z)),z){id(2),3}",
        ],
        ADDITION,
        0,
        "!limit 2\n!bytes 0{id(1)}\n!limit 2{id(2),3}\n",
        "",
    ),
    (
        &["eval", "-e", "z", "-e", "plus(z", "-e", "z)"],
        ADDITION,
        1,
        "!terms A\n",
        "recw: terms A at byte 6\n",
    ),
    (
        &["eval", "-e", "z,z"],
        ADDITION,
        1,
        "!terms A\n",
        "recw: terms A at byte 1\n",
    ),
    (
        &["eval", "-e", ""],
        ADDITION,
        1,
        "!terms A\n",
        "recw: terms A at byte 0\n",
    ),
    (
        &["eval", "-e", "z", "-e", "z]", "-e", "["],
        ADDITION,
        1,
        "!terms A\n",
        "recw: terms A at byte 1\n",
    ),
    (
        &["eval", "-e", "("],
        "REC-SPEC E SORTS : END-SPEC",
        1,
        "!spec G\n",
        "recw: spec G at byte 17\n",
    ),
    (&["eval", "-e", "[z]"], ADDITION, 1, "!terms T2\n", ""),
    (
        &["eval", "-e", "z", "--explain", "-e", "s(z"],
        ADDITION,
        1,
        "!terms A\n",
        "recw: terms A at byte 3\n\
         -e 2:1:4: A: syntax error in the annotated term; unexpected end of text; \
         expected `(`, `)`, `{` or `,`\n    s(z\n       ^\n",
    ),
    (
        &["eval", "-e", "z", "--explain", "-e", "s(z,z)"],
        ADDITION,
        1,
        "!terms T5\n",
        "-e 2:1:1: T5: wrong number of arguments; \
         s takes 1 argument, found 2\n    s(z,z)\n    ^\n",
    ),
    (
        &[
            "trace",
            "-",
            "-e",
            "plus(z,z){7}",
            "--first",
            "0",
            "-e",
            "plus(s(z),z)",
        ],
        ADDITION,
        0,
        "... 3 more\ns(s(s(z)))\n... 1 more\nz{7}\n... 2 more\ns(z)\n",
        "",
    ),
    (
        &["trace", "--input=plus(z,s(z))", "-", "--last", "1"],
        ADDITION,
        0,
        "... 2 more\n1:103: plus(z,s(z)) -> s(z)\ns(s(s(z)))\n\
         1:103: plus(z,s(z)) -> s(z)\ns(z)\n",
        "",
    ),
    (
        &["eval", "--term", "2", "-e", "z{7}", "-e", "plus(z,z)"],
        ADDITION,
        0,
        "z{7}\n",
        "",
    ),
    (
        &["eval", "--term=1", "-e", "z"],
        ADDITION,
        0,
        "s(s(s(z)))\n",
        "",
    ),
    (
        &[
            "eval",
            "--only-terms",
            "--count",
            "-e",
            "z{7}",
            "-e",
            "plus(z,z)",
        ],
        ADDITION,
        0,
        "z{7}\t0\nz\t1\n",
        "",
    ),
    (
        &["eval", "--term", "3", "-e", "z"],
        ADDITION,
        2,
        "",
        "error: there is no term 3; this run has 2\n\nFor more information, try '--help'.\n",
    ),
    (
        &["eval", "--term", "1000000000000000000", "--explain"],
        "REC-SPEC E END-SPEC",
        2,
        "",
        "error: there is no term 1000000000000000000; this run has 0\n\n\
         For more information, try '--help'.\n",
    ),
    // The other terms are checked, too.
    (
        &["eval", "--term", "1", "-e", "none"],
        ADDITION,
        1,
        "!terms T4\n",
        "",
    ),
    (
        &["trace", "-", "--term", "2", "-e", "plus(z,z)", "--rules"],
        ADDITION,
        0,
        "1:103: plus(z,z) -> z\nz\n",
        "rule: 1:103: plus(z,Y) -> Y\n",
    ),
    (
        &["trace", "-", "--term", "2", "--symbol", "plus"],
        ADDITION,
        2,
        "",
        "error: there is no term 2; this run has 1\n\nFor more information, try '--help'.\n",
    ),
    (
        &["trace", "-", "--term", "2", "--symbol", "pluss"],
        ADDITION,
        2,
        "",
        "error: invalid value 'pluss' for '--symbol <NAME>': not a symbol; did you mean `plus`?\n\n\
         For more information, try '--help'.\n",
    ),
    (
        &["trace", "-", "-e", "z", "-e", "z]"],
        ADDITION,
        1,
        "!terms A\n",
        "recw: terms A at byte 1\n",
    ),
    (&["aterm", "-"], "f ( a )", 0, "f(a)\n", ""),
    (&["share", "-"], "a", 0, "a\ncells 2\n", ""),
    (
        &["match", "-", "-"],
        "a",
        1,
        "!pattern A\n",
        "recw: pattern A at byte 0\n",
    ),
    (&["match", "a", "-"], "a", 0, "yes\n", ""),
];

/// A specification, and a text that is none.
pub(crate) const FILES: Shelf = Shelf {
    spec: ADDITION,
    terms: "[s(z",
};

/// Input terms in a table, which share a part.
pub(crate) const TABLE: Shelf = Shelf {
    spec: ADDITION,
    terms: "[s(z),[plus(<0>,<0>),plus(<0>,z){7}]]",
};

/// The evaluation of input terms in a table.
pub(crate) const TABLED: &[Row] = &[
    (
        &["eval", "--terms-table", "--count", "spec", "terms"],
        "",
        0,
        "s(s(s(z)))\t3\ns(s(z))\t2\ns(z){7}\t2\n",
        "",
    ),
    (
        &["eval", "spec", "terms", "--only-terms", "--terms-table"],
        "",
        0,
        "s(s(z))\ns(z){7}\n",
        "",
    ),
    (
        &["eval", "--terms-table", "--term", "4", "spec", "terms"],
        "",
        2,
        "",
        "error: there is no term 4\n\nFor more information, try '--help'.\n",
    ),
    (&["eval", "spec", "terms"], "", 1, "!terms T2\n", ""),
    (
        &["serve", "--from-table", "--explain", "spec", "terms"],
        "",
        0,
        "!term T2\n",
        "terms:1: T2: integer, list or placeholder as a subterm of an input term\n",
    ),
];

/// Requests: tables, of which the last one is not a term.
pub(crate) const REQUESTS: Shelf = Shelf {
    spec: ADDITION,
    terms: "[s(z),plus(<0>,<0>){7,<0>}]\ns(z)\n[s(z),<0>",
};

/// Sessions whose requests are tables.
pub(crate) const SERVED: &[Row] = &[
    (
        &["serve", "--from-table", "--count", "spec", "terms"],
        "",
        0,
        "s(s(z)){7,s(z)}\t2\n!term R1\n!term A\n",
        "",
    ),
    (
        &["serve", "spec", "terms", "--to-table", "--from-table"],
        "",
        0,
        "[s(s(z)){7,s(z)}]\n!term R1\n!term A\n",
        "",
    ),
    (
        &["serve", "--explain", "--from-table", "spec", "terms"],
        "",
        0,
        "s(s(z)){7,s(z)}\n!term R1\n!term A\n",
        "terms:2: R1: table that is not a list without annotations, or has no element\n\
         terms:3:10: A: syntax error in the annotated term; unexpected end of text; \
         expected `]`, `{` or `,`\n    [s(z),<0>\n             ^\n",
    ),
];

/// A table with an element that refers to itself.
pub(crate) const BROKEN: Shelf = Shelf {
    spec: ADDITION,
    terms: "[s(z),[plus(<1>,z)]]",
};

/// The errors of tables of input terms, and of a request.
pub(crate) const REFUSED: &[Row] = &[
    (
        &["serve", "--from-table", "--explain", "spec", "terms"],
        "",
        0,
        "!term R2\n",
        "terms:1: R2: placeholder of a table that is not <N>, N being an earlier element, \
         nor <[TERM]>; element 2 of the list\n",
    ),
    (
        &["eval", "--terms-table", "spec", "terms"],
        "",
        1,
        "!terms R2\n",
        "",
    ),
    (
        &["eval", "--terms-table", "spec", "spec"],
        "",
        1,
        "!terms A\n",
        "recw: terms A at byte 9\n",
    ),
];

/// Terms given with `-e`, for a specification in a file. Standard input must not be read.
pub(crate) const NAMED: &[Row] = &[
    (
        &["eval", "spec", "-e", "plus(s(z),z)"],
        "",
        0,
        "s(s(s(z)))\ns(z)\n",
        "",
    ),
    (&["eval", "spec", "-"], "", 4, "", "recw: read failed\n"),
    (&["eval", "-", "spec"], "", 4, "", "recw: read failed\n"),
    (
        &["eval", "--explain", "spec", "-"],
        "",
        4,
        "",
        "recw: read failed\n<stdin>: other error\n",
    ),
    (
        &["eval", "--explain", "spec", "terms"],
        "",
        1,
        "!terms A\n",
        "recw: terms A at byte 4\n\
         terms:1:5: A: syntax error in the annotated term; unexpected end of text; \
         expected `(`, `)`, `{` or `,`\n    [s(z\n        ^\n",
    ),
];
