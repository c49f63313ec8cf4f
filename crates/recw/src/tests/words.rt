//! Tests of arguments, exit statuses and standard output.

use crate::tests::{ADDITION, Row};

/// Two terms whose evaluation does not terminate: one runs in a circle, one grows.
const LOOPING: &str = "REC-SPEC L SORTS N CONS z : -> N s : N -> N OPNS f : N -> N g : N -> N \
     VARS X : N RULES f(X) -> f(X) g(X) -> s(g(X)) EVAL f(z) g(z) END-SPEC";

/// Evaluations: without arguments, without an end, with options at the ends of their ranges, and
/// for each status.
pub(crate) const STATUSES: &[Row] = &[
    (&[], ADDITION, 0, "s(s(s(z)))\n", ""),
    (
        &["eval"],
        LOOPING,
        0,
        "!limit 1000000\n!limit 1000000\n",
        "",
    ),
    (&["eval"], ADDITION, 0, "s(s(s(z)))\n", ""),
    (&["eval", "--memo", "0"], ADDITION, 0, "s(s(s(z)))\n", ""),
    (&["eval", "--memo=1048576"], ADDITION, 0, "s(s(s(z)))\n", ""),
    (&["eval", "--reclaim", "1"], ADDITION, 0, "s(s(s(z)))\n", ""),
    (&["eval", "--cells", "64"], ADDITION, 0, "s(s(s(z)))\n", ""),
    (
        &["eval", "--cells", "3"],
        ADDITION,
        3,
        "",
        "recw: out of cells\n",
    ),
    (
        &["eval", "--cells", "7"],
        ADDITION,
        3,
        "",
        "recw: out of cells\n",
    ),
    (&["eval", "--cells", "1"], "REC-SPEC E END-SPEC", 0, "", ""),
    (
        &["eval", "--cells", "1073741824", "--reclaim", "1073741824"],
        ADDITION,
        0,
        "s(s(s(z)))\n",
        "",
    ),
    (&["eval", "--steps", "2"], ADDITION, 0, "!limit 2\n", ""),
    (
        &["eval", "--to-table", "--count", "--sizes"],
        ADDITION,
        0,
        "[s(s(s(z)))]\t3\t8\n",
        "",
    ),
    (
        &["eval", "--bytes", "9", "--sizes", "-e", "s(z){a}"],
        ADDITION,
        0,
        "!bytes 9\ns(z){a}\t6\n",
        "",
    ),
    (
        &["eval", "--dot", "2", "-e", "plus(z,z)"],
        ADDITION,
        0,
        "digraph term {\n  node [shape=box, fontname=\"monospace\"];\n  n0 [label=\"z\"];\n  \
         n0 -> n1 [label=\"args\"];\n  n1 [label=\"[]\"];\n}\n",
        "",
    ),
    (
        &["eval", "--dot", "1", "--nodes", "1"],
        ADDITION,
        0,
        "digraph term {\n  node [shape=box, fontname=\"monospace\"];\n  n0 [label=\"s\"];\n  \
         rest [label=\"7 more\", style=dashed];\n}\n",
        "",
    ),
    (
        &["eval", "--dot", "3", "-e", "z"],
        ADDITION,
        2,
        "",
        "error: there is no term 3; this run has 2\n\nFor more information, try '--help'.\n",
    ),
    (
        &["eval", "--dot", "1"],
        "REC-SPEC E SORTS : END-SPEC",
        1,
        "!spec G\n",
        "recw: spec G at byte 17\n",
    ),
    (
        &["eval", "--steps=1000000000000000000", "--count"],
        ADDITION,
        0,
        "s(s(s(z)))\t3\n",
        "",
    ),
    (&["eval"], "REC-SPEC E END-SPEC", 0, "", ""),
    (
        &["eval"],
        "REC-SPEC E SORTS : END-SPEC",
        1,
        "!spec G\n",
        "recw: spec G at byte 17\n",
    ),
    (
        &["eval"],
        "REC-SPEC W SORTS Nat Nat OPNS f : Nat -> Nat VARS X : Nat RULES f(X) -> g(X) END-SPEC",
        1,
        "!spec S1\n",
        "recw: spec S1 at byte 21\n",
    ),
    (
        &["eval"],
        "REC-SPEC T SORTS N OPNS f : N -> N VARS X Y : N RULES f(X) -> Y END-SPEC",
        1,
        "!spec S10\n",
        "recw: spec S10 at byte 62\n",
    ),
    (
        &["eval", "/dev/null"],
        ADDITION,
        1,
        "!spec G\n",
        "recw: spec G at byte 0\n",
    ),
    (
        &["eval", "no such file"],
        ADDITION,
        4,
        "",
        "recw: read failed\n",
    ),
    (&["eval", "/"], ADDITION, 4, "", "recw: read failed\n"),
    (
        &["eval", "/dev/null", "/"],
        ADDITION,
        1,
        "!spec G\n",
        "recw: spec G at byte 0\n",
    ),
    (
        &["eval", "/dev/null", "no such file"],
        ADDITION,
        4,
        "",
        "recw: read failed\n",
    ),
];

/// Traces of evaluations.
pub(crate) const TRACES: &[Row] = &[
    (
        &["trace", "-"],
        ADDITION,
        0,
        "1:118: plus(s(s(z)),s(z)) -> s(plus(s(z),s(z)))\n\
         1:118: plus(s(z),s(z)) -> s(plus(z,s(z)))\n1:103: plus(z,s(z)) -> s(z)\ns(s(s(z)))\n",
        "",
    ),
    (
        &["trace", "--count", "--steps", "1", "-"],
        ADDITION,
        0,
        "1:118: plus(s(s(z)),s(z)) -> s(plus(s(z),s(z)))\t1\n!limit 1\n",
        "",
    ),
    (
        &[
            "trace", "-", "--whole", "--width", "8", "--first", "1", "--last=1",
        ],
        ADDITION,
        0,
        "0:0: plus(...\n1:118: s(plu...\n... 1 more\n1:103: s(s(s...\ns(s(s(z)))\n",
        "",
    ),
    // Terms with 3, 0, 1 and 2 rewrites.
    (
        &[
            "trace",
            "-",
            "--first",
            "1",
            "--last",
            "1",
            "-e",
            "z",
            "-e",
            "plus(z,z)",
            "-e",
            "plus(s(z),z)",
        ],
        ADDITION,
        0,
        "1:118: plus(s(s(z)),s(z)) -> s(plus(s(z),s(z)))\n... 1 more\n\
         1:103: plus(z,s(z)) -> s(z)\ns(s(s(z)))\nz\n1:103: plus(z,z) -> z\nz\n\
         1:118: plus(s(z),z) -> s(plus(z,z))\n1:103: plus(z,z) -> z\ns(z)\n",
        "",
    ),
    (
        &["trace", "-", "--last", "5"],
        ADDITION,
        0,
        "1:118: plus(s(s(z)),s(z)) -> s(plus(s(z),s(z)))\n\
         1:118: plus(s(z),s(z)) -> s(plus(z,s(z)))\n1:103: plus(z,s(z)) -> s(z)\ns(s(s(z)))\n",
        "",
    ),
    (
        &["trace", "-", "--last", "0"],
        ADDITION,
        0,
        "... 3 more\ns(s(s(z)))\n",
        "",
    ),
    (
        &["trace", "-", "--rule", "1:118", "--last", "1"],
        ADDITION,
        0,
        "... 1 more\n1:118: plus(s(z),s(z)) -> s(plus(z,s(z)))\ns(s(s(z)))\n",
        "",
    ),
    (
        &["trace", "-", "--steps", "2", "--last", "1"],
        ADDITION,
        0,
        "... 1 more\n1:118: plus(s(z),s(z)) -> s(plus(z,s(z)))\n!limit 2\n",
        "",
    ),
    (
        &["trace", "-", "--rule", "1:103", "--symbol", "plus"],
        ADDITION,
        0,
        "1:103: plus(z,s(z)) -> s(z)\ns(s(s(z)))\n",
        "",
    ),
    (
        &["trace", "-", "--symbol", "s"],
        ADDITION,
        0,
        "s(s(s(z)))\n",
        "",
    ),
    (
        &["trace", "--cells", "3", "--explain", "-"],
        ADDITION,
        3,
        "",
        "recw: out of cells\nterm 1: the store limit is 3 cells; raise it with --cells\n",
    ),
    (
        &["trace", "/dev/null", "-"],
        "[]",
        1,
        "!spec G\n",
        "recw: spec G at byte 0\n",
    ),
    (&["trace", "no such file"], "", 4, "", "recw: read failed\n"),
    // A rejected specification has its own error first, whatever is selected.
    (
        &["trace", "-", "--rule", "7:3", "--symbol", "none"],
        "REC-SPEC E SORTS : END-SPEC",
        1,
        "!spec G\n",
        "recw: spec G at byte 17\n",
    ),
    (
        &["trace", "-", "--symbol", "none", "--rules"],
        "REC-SPEC E SORTS A A END-SPEC",
        1,
        "!spec S1\n",
        "recw: spec S1 at byte 19\n",
    ),
    (
        &["trace", "-", "--rules"],
        ADDITION,
        0,
        "1:118: plus(s(s(z)),s(z)) -> s(plus(s(z),s(z)))\n\
         1:118: plus(s(z),s(z)) -> s(plus(z,s(z)))\n1:103: plus(z,s(z)) -> s(z)\ns(s(s(z)))\n",
        "rule: 1:103: plus(z,Y) -> Y\nrule: 1:118: plus(s(X),Y) -> s(plus(X,Y))\n",
    ),
    (
        &["trace", "-", "--rules", "--whole", "--last", "1", "--count"],
        ADDITION,
        0,
        "0:0: plus(s(s(z)),s(z))\n... 2 more\n1:103: s(s(s(z)))\t3\ns(s(s(z)))\t3\n",
        "rule: 1:103: plus(z,Y) -> Y\n",
    ),
    (
        &["trace", "-", "--rules", "--symbol", "s"],
        ADDITION,
        0,
        "s(s(s(z)))\n",
        "",
    ),
    // The text of a rule has no comments, and ends before the next rule.
    (
        &["trace", "-", "--rules"],
        "REC-SPEC L SORTS N CONS z : -> N OPNS f : N -> N g : -> N VARS X : N RULES\n\
         f( % a call\n\tX )   ->\r\n X if X -><- g\n% none\n( ) g( ) -> z EVAL f(z) END-SPEC",
        0,
        "2:1: f(z) -> z\nz\n",
        "rule: 2:1: f( X ) -> X if X -><- g ( )\n",
    ),
];

/// Terms that are printed.
pub(crate) const TERMS: &[Row] = &[
    (&["aterm"], "f ( a , [ 1 , -007 ] )", 0, "f(a,[1,-7])\n", ""),
    (
        &["aterm"],
        "f(a,)",
        1,
        "!term A\n",
        "recw: term A at byte 4\n",
    ),
    (
        &["aterm", "/dev/null"],
        "a",
        1,
        "!term A\n",
        "recw: term A at byte 0\n",
    ),
    (
        &["aterm", "--indent", "2"],
        "f ( a , [ 1 , -007 ] ) { b }",
        0,
        "f(\n  a,\n  [\n    1,\n    -7\n  ]\n){\n  b\n}\n",
        "",
    ),
    (
        &["aterm", "--indent=0"],
        "[[],<int>]",
        0,
        "[\n[],\n<\nint\n>\n]\n",
        "",
    ),
    (
        &["aterm", "--indent", "2", "--width", "8"],
        "f ( a , [ 1 , 2 ] )",
        0,
        "f(\n  a,\n  [1,2]\n)\n",
        "",
    ),
    (
        &["aterm", "--width=10", "--indent=2"],
        "f ( a , [ 1 , 2 ] )",
        0,
        "f(a,[1,2])\n",
        "",
    ),
    (
        &["aterm", "--indent", "1"],
        "f(a,)",
        1,
        "!term A\n",
        "recw: term A at byte 4\n",
    ),
    (&["share"], "f(a,a)", 0, "f(a,a)\ncells 5\n", ""),
    (
        &["share", "--dot"],
        "a",
        0,
        "digraph term {\n  node [shape=box, fontname=\"monospace\"];\n  n0 [label=\"a\"];\n  \
         n0 -> n1 [label=\"args\"];\n  n1 [label=\"[]\"];\n}\n",
        "",
    ),
    (
        &["share", "--dot", "--nodes", "1"],
        "a",
        0,
        "digraph term {\n  node [shape=box, fontname=\"monospace\"];\n  n0 [label=\"a\"];\n  \
         rest [label=\"1 more\", style=dashed];\n}\n",
        "",
    ),
    (
        &["share", "--dot"],
        "f(a,",
        1,
        "!term A\n",
        "recw: term A at byte 4\n",
    ),
    (
        &["share"],
        "a b",
        1,
        "!term A\n",
        "recw: term A at byte 2\n",
    ),
    (
        &["share", "no such file"],
        "a",
        4,
        "",
        "recw: read failed\n",
    ),
    (
        &["aterm", "--to-table"],
        "f(pair(a,b),pair(a,b),<7>)",
        0,
        "[pair(a,b),f(<0>,<0>,<[7]>)]\n",
        "",
    ),
    (
        &["aterm", "--from-table"],
        "[f(x),g(<0>,<0>)]",
        0,
        "g(f(x),f(x))\n",
        "",
    ),
    (
        &["aterm", "--from-table", "--to-table"],
        "[a,pair(<0>,b),f(<1>,pair(a,b))]",
        0,
        "[pair(a,b),f(<0>,<0>)]\n",
        "",
    ),
    // without the option, a table is a term
    (
        &["aterm"],
        "[f(x),g(<0>,<0>)]",
        0,
        "[f(x),g(<0>,<0>)]\n",
        "",
    ),
    (&["aterm", "--bytes", "6"], "f(a, a)", 0, "f(a,a)\n", ""),
    (&["aterm", "--bytes", "5"], "f(a, a)", 0, "!bytes 5\n", ""),
    (
        &["aterm", "--from-table", "--bytes", "0"],
        "[a]",
        0,
        "!bytes 0\n",
        "",
    ),
    (&["aterm", "--from-table"], "a", 1, "!term R1\n", ""),
    (
        &["aterm", "--from-table", "--explain"],
        "a",
        1,
        "!term R1\n",
        "<stdin>: R1: table that is not a list without annotations, or has no element\n",
    ),
    (
        &["share", "--from-table", "--to-table", "--explain"],
        "[a,b,<2>]",
        1,
        "!term R2\n",
        "<stdin>: R2: placeholder of a table that is not <N>, N being an earlier element, \
         nor <[TERM]>; element 3 of the list\n",
    ),
    (
        &["aterm", "--from-table"],
        "[a",
        1,
        "!term A\n",
        "recw: term A at byte 2\n",
    ),
    (
        &["share", "--from-table", "--to-table"],
        "[pair(a,b),f(<0>,<0>)]",
        0,
        "[pair(a,b),f(<0>,<0>)]\ncells 9\n",
        "",
    ),
    (
        &["share", "--to-table"],
        "f(a,a)",
        0,
        "[f(a,a)]\ncells 5\n",
        "",
    ),
    (
        &["share", "--from-table", "--dot"],
        "[c,a]",
        0,
        "digraph term {\n  node [shape=box, fontname=\"monospace\"];\n  n0 [label=\"a\"];\n  \
         n0 -> n1 [label=\"args\"];\n  n1 [label=\"[]\"];\n}\n",
        "",
    ),
    (
        &["share", "--from-table", "--dot"],
        "[<0>]",
        1,
        "!term R2\n",
        "",
    ),
];

/// Patterns that are matched and filled.
pub(crate) const PATTERNS: &[Row] = &[
    (
        &["match", "f(<int>,<list>)"],
        "f(1,2,3)",
        0,
        "yes\n1\n[2,3]\n",
        "",
    ),
    (&["match", "f(<int>,<list>)"], "f(1)", 0, "yes\n1\n[]\n", ""),
    (&["match", "f(<int>,<list>)"], "f(a)", 0, "no\n", ""),
    (&["match", "[<list>]{x}"], "[1,2]{x}", 0, "yes\n[1,2]\n", ""),
    (&["match", "<str>"], "a", 0, "no\n", ""),
    (&["match", " -7"], "-7", 0, "yes\n", ""),
    (&["match", "--", "-7"], "-7", 0, "yes\n", ""),
    (&["match", "<foo>"], "a", 1, "!pattern P1\n", ""),
    (&["match", "<int>{a}"], "1", 1, "!pattern P2\n", ""),
    (
        &["match", ""],
        "a",
        1,
        "!pattern A\n",
        "recw: pattern A at byte 0\n",
    ),
    (
        &["match", "a"],
        "f(a",
        1,
        "!term A\n",
        "recw: term A at byte 3\n",
    ),
    (
        &["match", "a", "/dev/null"],
        "a",
        1,
        "!term A\n",
        "recw: term A at byte 0\n",
    ),
    (
        &["match", "<foo>", "no such file"],
        "a",
        4,
        "",
        "recw: read failed\n",
    ),
    (
        &["make", "f(<int>,<list>)", "[1,[2,3]]"],
        "",
        0,
        "f(1,2,3)\n",
        "",
    ),
    (&["make", "a", "[]{}"], "", 0, "a\n", ""),
    (&["check", "-"], ADDITION, 0, "", ""),
    (
        &["check", "-"],
        "REC-SPEC E SORTS A CONS OPNS VARS RULES EVAL END-SPEC",
        0,
        "<stdin>:1:18: warning: unused sort: A [W4]\n",
        "",
    ),
    (
        &["check", "--strict", "-"],
        "REC-SPEC E SORTS A CONS OPNS VARS RULES EVAL END-SPEC",
        1,
        "<stdin>:1:18: warning: unused sort: A [W4]\n",
        "",
    ),
    (
        &["check", "-"],
        "",
        1,
        "<stdin>:1:1: error: syntax error in the specification [G]\n",
        "",
    ),
    (
        &["uses"],
        "REC-SPEC E SORTS A CONS a : -> A s : A -> B OPNS f : A B -> A VARS X Y : A\nRULES f(a,X) \
         -> b if X -><- Y EVAL f(s) END-SPEC",
        0,
        "<stdin>:1:18: sort A: 1:18\n\
         <stdin>:1:25: constructor a: 1:25: -> A\n\
         <stdin>:1:32: sort A: 1:18\n\
         <stdin>:1:34: constructor s: 1:34: A -> B\n\
         <stdin>:1:38: sort A: 1:18\n\
         <stdin>:1:43: sort B: -\n\
         <stdin>:1:50: operator f: 1:50: A B -> A\n\
         <stdin>:1:54: sort A: 1:18\n\
         <stdin>:1:56: sort B: -\n\
         <stdin>:1:61: sort A: 1:18\n\
         <stdin>:1:68: variable X: 1:68: A\n\
         <stdin>:1:70: variable Y: 1:70: A\n\
         <stdin>:1:74: sort A: 1:18\n\
         <stdin>:2:7: operator f: 1:50: A B -> A\n\
         <stdin>:2:9: constructor a: 1:25: -> A\n\
         <stdin>:2:11: variable X: 1:68: A\n\
         <stdin>:2:17: undeclared b: -\n\
         <stdin>:2:22: variable X: 1:68: A\n\
         <stdin>:2:29: variable Y: 1:70: A\n\
         <stdin>:2:36: operator f: 1:50: A B -> A\n\
         <stdin>:2:38: constructor s: 1:34: A -> B\n",
        "",
    ),
    (
        &["uses", "--at", "1:61", "-"],
        ADDITION,
        0,
        "<stdin>:1:60: operator plus: 1:60: Nat Nat -> Nat\n\
         <stdin>:1:103: operator plus: 1:60: Nat Nat -> Nat\n\
         <stdin>:1:118: operator plus: 1:60: Nat Nat -> Nat\n\
         <stdin>:1:136: operator plus: 1:60: Nat Nat -> Nat\n\
         <stdin>:1:152: operator plus: 1:60: Nat Nat -> Nat\n",
        "",
    ),
    (&["uses", "--at", "1:7"], ADDITION, 0, "", ""),
    (
        &["uses"],
        "",
        1,
        "<stdin>:1:1: error: syntax error in the specification [G]\n",
        "",
    ),
    (&["make", " -7", "[]"], "", 0, "-7\n", ""),
    (&["make", "f(<int>)", "[]"], "", 1, "!args M1\n", ""),
    (&["make", "f(<int>)", "[a]"], "", 1, "!args M2\n", ""),
    (&["make", "a", "[]{b}"], "", 1, "!args T1\n", ""),
    (&["make", "<foo>", "("], "", 1, "!pattern P1\n", ""),
    (
        &["make", "a", "["],
        "",
        1,
        "!args A\n",
        "recw: args A at byte 1\n",
    ),
    (
        &["make", "a", ""],
        "",
        1,
        "!args A\n",
        "recw: args A at byte 0\n",
    ),
];
