//! The error and warning codes: their descriptions, examples and fixes.

use rx_run::Reason;
use std::io;
use std::io::Write;

/// A code.
#[derive(Clone, Copy)]
pub struct Code {
    /// Its name.
    name: &'static str,
    /// Its description.
    words: &'static str,
    /// A text with the error or the warning.
    example: &'static str,
    /// What to write.
    fix: &'static str,
}

/// The number of error codes. They come before the warnings.
const ERRORS: usize = 26;

/// The codes, in the order of the list.
static CODES: [Code; 31] = [
    Code {
        name: "L1",
        words: "the text has more than 16777216 bytes",
        example: "a file of 17 MB",
        fix: "divide the text",
    },
    Code {
        name: "G",
        words: "syntax error in the specification",
        example: "RULES f(X) = X",
        fix: "write what is expected: f(X) -> X",
    },
    Code {
        name: "S1",
        words: "duplicate sort",
        example: "SORTS A B A",
        fix: "declare it once",
    },
    Code {
        name: "S2",
        words: "duplicate symbol in CONS and OPNS, even with other sorts",
        example: "CONS a : -> A OPNS a : -> B",
        fix: "rename one",
    },
    Code {
        name: "S3",
        words: "duplicate variable, or variable with the name of a symbol",
        example: "VARS X Y X : A",
        fix: "declare it once, or rename it",
    },
    Code {
        name: "S4",
        words: "undeclared sort in CONS, OPNS or VARS",
        example: "SORTS A VARS X : B",
        fix: "add it to SORTS, or correct the spelling",
    },
    Code {
        name: "S5",
        words: "undeclared symbol or variable in RULES or EVAL",
        example: "OPNS plus : A A -> A EVAL pluss(a,a)",
        fix: "declare it, or correct the spelling",
    },
    Code {
        name: "S6",
        words: "wrong number of arguments of a symbol, or arguments of a variable",
        example: "OPNS f : A -> A EVAL f(a,a)",
        fix: "give the declared number",
    },
    Code {
        name: "S7",
        words: "argument of the wrong sort",
        example: "CONS b : -> B OPNS f : A -> A EVAL f(b)",
        fix: "use a term of the declared sort",
    },
    Code {
        name: "S8",
        words: "left-hand side that does not start with an operator (a symbol of OPNS)",
        example: "CONS a : -> A RULES a -> a",
        fix: "start with an operator",
    },
    Code {
        name: "S9",
        words: "rule or condition whose two sides have different sorts",
        example: "CONS b : -> B OPNS f : A -> A RULES f(X) -> b",
        fix: "use terms of one sort",
    },
    Code {
        name: "S10",
        words: "variable that is not in the left-hand side of its rule",
        example: "RULES f(X) -> Y",
        fix: "add it to the left-hand side",
    },
    Code {
        name: "S11",
        words: "variable in an EVAL term",
        example: "VARS X : A EVAL f(X)",
        fix: "use a term without variables",
    },
    Code {
        name: "A",
        words: "syntax error in the annotated term",
        example: "[f(a",
        fix: "close the marks: [f(a)]",
    },
    Code {
        name: "T1",
        words: "input terms or arguments that are not one list without annotations",
        example: "a",
        fix: "put the terms into a list: [a]",
    },
    Code {
        name: "T2",
        words: "integer, list or placeholder as a subterm of an input term",
        example: "[f(3)]",
        fix: "use symbols; a symbol 3 is written \"3\"",
    },
    Code {
        name: "T3",
        words: "annotations on a subterm that is not a whole input term",
        example: "[f(a{b})]",
        fix: "annotate the whole term: [f(a){b}]",
    },
    Code {
        name: "T4",
        words: "undeclared symbol, or wrong quotes (only plain names have none)",
        example: "[\"a\"]",
        fix: "write a without quotes, or declare the symbol",
    },
    Code {
        name: "T5",
        words: "wrong number of arguments",
        example: "[f(a,a)], if f : A -> A",
        fix: "give the declared number",
    },
    Code {
        name: "T6",
        words: "argument of the wrong sort",
        example: "[f(b)], if f : A -> A and b : -> B",
        fix: "use a term of the declared sort",
    },
    Code {
        name: "P1",
        words: "placeholder other than <term>, <int>, <str>, <appl>, <placeholder>, <list>",
        example: "<foo>",
        fix: "use one of the six",
    },
    Code {
        name: "P2",
        words: "placeholder with annotations",
        example: "<int>{a}",
        fix: "remove the annotations",
    },
    Code {
        name: "M1",
        words: "wrong number of arguments for the pattern",
        example: "recw make 'f(<int>)' '[]'",
        fix: "give one argument for each placeholder",
    },
    Code {
        name: "M2",
        words: "argument that does not match its placeholder",
        example: "recw make 'f(<int>)' '[a]'",
        fix: "give an argument that the placeholder matches",
    },
    Code {
        name: "R1",
        words: "table that is not a list without annotations, or has no element",
        example: "a",
        fix: "put the terms into a list: [a]",
    },
    Code {
        name: "R2",
        words: "placeholder of a table that is not <N>, N being an earlier element, nor <[TERM]>",
        example: "[a,<1>]",
        fix: "write the number of an earlier element, counted from 0: [a,<0>]",
    },
    Code {
        name: "W1",
        words: "unreachable rule: an earlier rule without conditions matches all that it matches",
        example: "RULES f(X) -> a f(b) -> b",
        fix: "remove the rule, or move it up",
    },
    Code {
        name: "W2",
        words: "rule cannot match: this argument is rewritten first",
        example: "RULES f(X) -> a g(f(X)) -> b",
        fix: "write the result of the argument: g(a) -> b",
    },
    Code {
        name: "W3",
        words: "missing case: no left-hand side matches this call",
        example: "OPNS f : A -> A RULES f(a) -> a, if b : -> A",
        fix: "add a rule: f(b) -> a",
    },
    Code {
        name: "W4",
        words: "unused sort, symbol or variable",
        example: "VARS X Y : A RULES f(X) -> X",
        fix: "remove it",
    },
    Code {
        name: "W5",
        words: "operator without rules: each call of it is stuck",
        example: "OPNS f : A -> A RULES EVAL f(a)",
        fix: "add rules, or declare it in CONS",
    },
];

/// Returns the table of the codes.
fn table() -> &'static [Code] {
    &CODES
}

/// Returns the description of an error.
pub fn words_of(reason: Reason) -> &'static str {
    match table().get(index_of(reason)) {
        Some(code) => code.words,
        None => "",
    }
}

/// Returns the index of an error in the table.
fn index_of(reason: Reason) -> usize {
    match reason {
        Reason::Long => 0,
        Reason::Grammar { at: _ } => 1,
        Reason::Rule { number, at: _ } => usize::from(number.min(11)).saturating_add(1),
        Reason::Outside { at: _ } => 13,
        Reason::Unlisted => 14,
        Reason::TermsRule { number } => usize::from(number.min(6)).saturating_add(13),
        Reason::Unknown => 20,
        Reason::Annotated => 21,
        Reason::Count => 22,
        Reason::Kind => 23,
        Reason::NotTable => 24,
        Reason::Element { number: _ } => 25,
    }
}

/// Returns the code with this name, if there is one.
pub fn code_named(name: &str) -> Option<Code> {
    table().iter().find(|code| code.name == name).copied()
}

impl Code {
    /// Writes the code and its description.
    fn write_line<W: Write>(&self, out: &mut W) -> io::Result<()> {
        let Code { name, words, .. } = *self;
        let blanks = match name.len() {
            1 => "   ",
            2 => "  ",
            _ => " ",
        };
        writeln!(out, "{name}{blanks}{words}")
    }

    /// Writes the code, its description, an example and the fix.
    pub fn write_help<W: Write>(&self, out: &mut W) -> io::Result<()> {
        self.write_line(out)?;
        let Code { example, fix, .. } = *self;
        writeln!(out, "\nExample: {example}\nFix: {fix}")?;
        out.flush()
    }
}

/// Writes the list of all error codes.
pub fn write_all<W: Write>(out: &mut W) -> io::Result<()> {
    for code in table().iter().take(ERRORS) {
        code.write_line(out)?;
    }
    out.flush()
}
