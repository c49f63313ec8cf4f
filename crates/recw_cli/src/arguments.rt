//! The arguments of the commands: file arguments, and options with their ranges.

use clap::builder::ValueParser;
use clap::{Arg, ArgAction};
use std::alloc::{AllocError, Global};

/// The largest step limit.
pub const MOST_STEPS: u64 = 1_000_000_000_000_000_000;

/// The largest number of bytes of a result.
pub const MOST_BYTES: u64 = 1_000_000_000_000_000_000;

/// The largest store capacity in cells, and the largest `--reclaim`.
pub const MOST_CELLS: u32 = 1_073_741_824;

/// The largest capacity of the memo table, in results.
pub const MOST_RESULTS: u32 = 1_048_576;

/// The most spaces of one indentation level.
pub const MOST_INDENT: u32 = 64;

/// The smallest `--width`: the three dots at which a term is cut.
pub const LEAST_WIDTH: u32 = 3;

/// The options that `--bytes` of `aterm` and `--nodes` exclude.
const TABLE_OUTPUT: &[&str] = &["to-table"];

/// The options that `--indent` and `--width` of `aterm` exclude.
const TABLES: &[&str] = &["from-table", "to-table"];

/// An argument of a command.
#[derive(Clone, Copy)]
pub struct Argument {
    /// The identifier by which its value is read: the name in the help, or the option without its
    /// dashes.
    pub name: &'static str,
    /// Its line in the help.
    pub help: &'static str,
    /// Its form.
    pub kind: Kind,
}

/// The form of an argument.
#[derive(Clone, Copy)]
pub enum Kind {
    /// An optional file or term.
    Word,
    /// A required file or term.
    Needed,
    /// One or more files.
    Several,
    /// An option without a value.
    Flag,
    /// An option with a number.
    Number(Number),
    /// An option with a number, which requires the other option and excludes all that it excludes:
    /// the parser does not require an option that is excluded.
    NumberBeside(Number, &'static str, &'static [&'static str]),
    /// An option with a number, which excludes the other options.
    NumberWithout(Number, &'static [&'static str]),
    /// An option with two numbers and a `:` between them, which are read as two values.
    Place(Number),
    /// An option with a name; the string is its placeholder in the help.
    Name(&'static str),
    /// An option with one of several names.
    Choice(Choice),
    /// An option without a value, which excludes the other option.
    FlagWithout(&'static str),
    /// An option without a value, which requires the first argument and excludes the second one.
    FlagBeside(&'static str, &'static str),
    /// The option `-e`, which may be repeated, and excludes the argument with this name.
    Input(&'static str),
    /// An option with a file, which may be repeated; the string is its placeholder in the help.
    Files(&'static str),
}

/// The number of an option.
#[derive(Clone, Copy)]
pub struct Number {
    /// Its placeholder in the help.
    pub called: &'static str,
    /// The default, if there is one.
    pub default: Option<&'static str>,
    /// The range of the number.
    pub range: ValueParser<'static>,
}

/// The names of an option's values.
#[derive(Clone, Copy)]
pub struct Choice {
    /// The placeholder in the help.
    pub called: &'static str,
    /// The default.
    pub default: Option<&'static str>,
    /// The names.
    pub names: &'static [&'static str],
}

/// The pattern of `match` and `make`.
pub const PATTERN: Argument = Argument {
    name: "PATTERN",
    help: "ATerm with placeholders",
    kind: Kind::Needed,
};

/// The file of input terms.
pub const TERMS: Argument = Argument {
    name: "TERMS",
    help: "File with an ATerm list of input terms, or -",
    kind: Kind::Word,
};

/// The file of a term.
pub const FILE: Argument = Argument {
    name: "FILE",
    help: "ATerm file, or - [default: standard input]",
    kind: Kind::Word,
};

/// The option `-e`, an alternative to a file of input terms.
pub const INPUT: Argument = Argument {
    name: "input",
    help: "Input term instead of TERMS; may be repeated",
    kind: Kind::Input("TERMS"),
};

/// The option `--terms-table`, which requires a file of input terms.
pub const TERMS_TABLE: Argument = Argument {
    name: "terms-table",
    help: "Read TERMS as a table",
    kind: Kind::FlagBeside("TERMS", "input"),
};

/// The option `--only-terms`.
pub const ONLY_TERMS: Argument = Argument {
    name: "only-terms",
    help: "Evaluate input terms only, not the EVAL terms",
    kind: Kind::FlagWithout("term"),
};

/// The option `--term`.
pub const TERM: Argument = Argument {
    name: "term",
    help: "Evaluate only the N-th term, 1 to 10^18",
    kind: Kind::Number(Number {
        called: "N",
        default: None,
        range: ValueParser::Unsigned(1, MOST_STEPS),
    }),
};

/// The option `--join`.
pub const JOIN: Argument = Argument {
    name: "join",
    help: "Specification to join before SPEC; may be repeated",
    kind: Kind::Files("FILE"),
};

/// The option `--steps`.
pub const STEPS: Argument = Argument {
    name: "steps",
    help: "Step limit per term, up to 10^18",
    kind: Kind::Number(Number {
        called: "N",
        default: Some("1000000"),
        range: ValueParser::Unsigned(0, MOST_STEPS),
    }),
};

/// The option `--cells`.
pub const CELLS: Argument = Argument {
    name: "cells",
    help: "Cells in the store, 1 to 2^30",
    kind: Kind::Number(Number {
        called: "C",
        default: Some("16777216"),
        range: ValueParser::Signed(1, MOST_CELLS as i64),
    }),
};

/// The option `--memo`.
pub const MEMO: Argument = Argument {
    name: "memo",
    help: "Results in memo table, 0 to 2^20",
    kind: Kind::Number(Number {
        called: "M",
        default: Some("65536"),
        range: ValueParser::Signed(0, MOST_RESULTS as i64),
    }),
};

/// The option `--reclaim`.
pub const RECLAIM: Argument = Argument {
    name: "reclaim",
    help: "Most new cells between collections",
    kind: Kind::Number(Number {
        called: "K",
        default: Some("262144"),
        range: ValueParser::Signed(1, MOST_CELLS as i64),
    }),
};

/// The option `--depth`.
pub const DEPTH: Argument = Argument {
    name: "depth",
    help: "Call-depth limit, up to 2^32 - 1 [default: no limit]",
    kind: Kind::Number(Number {
        called: "D",
        default: None,
        range: ValueParser::Signed(0, u32::MAX as i64),
    }),
};

/// The option `--depth` of `serve`, which has a default.
pub const SERVED_DEPTH: Argument = Argument {
    name: "depth",
    help: "Call-depth limit, up to 2^32 - 1",
    kind: Kind::Number(Number {
        called: "D",
        default: Some("1000000"),
        range: ValueParser::Signed(0, u32::MAX as i64),
    }),
};

/// The option `--bytes`.
pub const BYTES: Argument = Argument {
    name: "bytes",
    help: "Bytes per result, up to 10^18 [default: no limit]",
    kind: Kind::Number(Number {
        called: "B",
        default: None,
        range: ValueParser::Unsigned(0, MOST_BYTES),
    }),
};

/// The option `--bytes` of `serve`, which has a default.
pub const SERVED_BYTES: Argument = Argument {
    name: "bytes",
    help: "Bytes per result, up to 10^18",
    kind: Kind::Number(Number {
        called: "B",
        default: Some("16777216"),
        range: ValueParser::Unsigned(0, MOST_BYTES),
    }),
};

/// The option `--to-table` of commands that print results.
pub const RESULT_TABLES: Argument = Argument {
    name: "to-table",
    help: "Print tables, with each shared part once",
    kind: Kind::FlagWithout("bytes"),
};

/// The option `--bytes` of `aterm`, whose default depends on `--from-table`.
pub const TERM_BYTES: Argument = Argument {
    name: "bytes",
    help: "Bytes of the term, up to 10^18; 16777216 with --from-table",
    kind: Kind::NumberWithout(
        Number {
            called: "B",
            default: None,
            range: ValueParser::Unsigned(0, MOST_BYTES),
        },
        TABLE_OUTPUT,
    ),
};

/// The option `--to-table` of commands on one term.
pub const TO_TABLE: Argument = Argument {
    name: "to-table",
    help: "Print the table of each term",
    kind: Kind::Flag,
};

/// The option `--from-table` of commands on one term.
pub const FROM_TABLE: Argument = Argument {
    name: "from-table",
    help: "Read a table, and use its term",
    kind: Kind::Flag,
};

/// The option `--from-table` of `serve`.
pub const REQUEST_TABLES: Argument = Argument {
    name: "from-table",
    help: "Read a table on each line, and use its term",
    kind: Kind::Flag,
};

/// The option `--indent`.
pub const INDENT: Argument = Argument {
    name: "indent",
    help: "Print over several lines, N spaces per level, 0 to 64",
    kind: Kind::NumberWithout(
        Number {
            called: "N",
            default: None,
            range: ValueParser::Signed(0, MOST_INDENT as i64),
        },
        TABLES,
    ),
};

/// The option `--width` of `aterm`, which requires `--indent`.
pub const LINE_WIDTH: Argument = Argument {
    name: "width",
    help: "Break only terms that do not fit on a line of W bytes",
    kind: Kind::NumberBeside(
        Number {
            called: "W",
            default: None,
            range: ValueParser::Signed(1, MOST_CELLS as i64),
        },
        "indent",
        TABLES,
    ),
};

/// The option `--width` of `trace`.
pub const WIDTH: Argument = Argument {
    name: "width",
    help: "Cut each term to W bytes, 3 to 2^30",
    kind: Kind::Number(Number {
        called: "W",
        default: None,
        range: ValueParser::Signed(LEAST_WIDTH as i64, MOST_CELLS as i64),
    }),
};

/// The option `--first`.
pub const FIRST: Argument = Argument {
    name: "first",
    help: "Print only the first N rewrites, up to 10^18",
    kind: Kind::Number(Number {
        called: "N",
        default: None,
        range: ValueParser::Unsigned(0, MOST_STEPS),
    }),
};

/// The option `--last`.
pub const LAST: Argument = Argument {
    name: "last",
    help: "Print only the last N rewrites, up to 2^30",
    kind: Kind::Number(Number {
        called: "N",
        default: None,
        range: ValueParser::Signed(0, MOST_CELLS as i64),
    }),
};

/// The option `--rule`.
pub const RULE: Argument = Argument {
    name: "rule",
    help: "Print only rewrites by the rule at this location",
    kind: Kind::Place(Number {
        called: "LINE:COL",
        default: None,
        range: ValueParser::Signed(1, u32::MAX as i64),
    }),
};

/// The option `--at`.
pub const AT: Argument = Argument {
    name: "at",
    help: "Print only the uses of the word at this location",
    kind: Kind::Place(Number {
        called: "LINE:COL",
        default: None,
        range: ValueParser::Signed(1, u32::MAX as i64),
    }),
};

/// The option `--symbol`.
pub const SYMBOL: Argument = Argument {
    name: "symbol",
    help: "Print only rewrites of calls of this symbol",
    kind: Kind::Name("NAME"),
};

/// The option `--rules`.
pub const RULES: Argument = Argument {
    name: "rules",
    help: "Print the text of each rule in these lines",
    kind: Kind::Flag,
};

/// The option `--nodes` of `share`, which requires `--dot`.
pub const NODES: Argument = Argument {
    name: "nodes",
    help: "Most nodes in the graph, 1 to 2^30",
    kind: Kind::NumberBeside(
        Number {
            called: "N",
            default: Some("2000"),
            range: ValueParser::Signed(1, MOST_CELLS as i64),
        },
        "dot",
        TABLE_OUTPUT,
    ),
};

/// The option `--nodes` of `eval`, which requires `--dot`.
pub const RESULT_NODES: Argument = Argument {
    name: "nodes",
    help: "Most nodes in the graph, 1 to 2^30",
    kind: Kind::NumberBeside(
        Number {
            called: "N",
            default: Some("1000"),
            range: ValueParser::Signed(1, MOST_CELLS as i64),
        },
        "dot",
        TABLE_OUTPUT,
    ),
};

/// The option `--count`.
pub const COUNT: Argument = Argument {
    name: "count",
    help: "Print the step count after each result",
    kind: Kind::Flag,
};

/// The option `--sizes`.
pub const SIZES: Argument = Argument {
    name: "sizes",
    help: "Print the number of cells after each result",
    kind: Kind::Flag,
};

/// The option `--dot` of `eval`.
pub const DOT: Argument = Argument {
    name: "dot",
    help: "Print a graph of the N-th result for Graphviz instead",
    kind: Kind::NumberWithout(
        Number {
            called: "N",
            default: None,
            range: ValueParser::Unsigned(1, MOST_STEPS),
        },
        &[
            "only-terms",
            "term",
            "bytes",
            "to-table",
            "count",
            "sizes",
            "stuck",
            "profile",
        ],
    ),
};

/// The option `--count` of `trace`.
pub const SPENT: Argument = Argument {
    name: "count",
    help: "Print the steps so far after each line",
    kind: Kind::Flag,
};

/// The option `--explain`.
pub const EXPLAIN: Argument = Argument {
    name: "explain",
    help: "Explain errors, also if not on a terminal",
    kind: Kind::Flag,
};

/// The option `--explain` of `check`.
pub const EXPLAIN_FINDINGS: Argument = Argument {
    name: "explain",
    help: "Explain findings, also if not on a terminal",
    kind: Kind::Flag,
};

/// The option `--format`.
pub const FORMAT: Argument = Argument {
    name: "format",
    help: "Write lines (gnu) or JSON objects (json)",
    kind: Kind::Choice(Choice {
        called: "FORM",
        default: Some("gnu"),
        names: &["gnu", "json"],
    }),
};

/// Makes these arguments for the command, in their order.
pub fn arguments_of<'a>(alloc: Global, arguments: &[Argument]) -> Result<Vec<Arg<'a>>, AllocError> {
    let mut made = Vec::new(alloc);
    for argument in arguments {
        made.push(argument_of(alloc, argument)?)?;
    }
    Ok(made)
}

/// Makes one argument.
fn argument_of<'a>(alloc: Global, argument: &Argument) -> Result<Arg<'a>, AllocError> {
    let bare = word(alloc, argument);
    match argument.kind {
        Kind::Word => Ok(bare),
        Kind::Needed => Ok(bare.required(true)),
        Kind::Several => Ok(several(bare)),
        Kind::Flag => Ok(flag(bare, argument.name)),
        Kind::Number(number) => Ok(option(bare, argument.name, &number)),
        Kind::NumberBeside(number, other, excluded) => {
            let option = option(bare, argument.name, &number).requires_arg(other)?;
            option.conflicts_with_all(excluded)
        }
        Kind::NumberWithout(number, others) => {
            option(bare, argument.name, &number).conflicts_with_all(others)
        }
        Kind::Place(number) => Ok(option(bare, argument.name, &number).value_delimiter(':')),
        Kind::Name(called) => Ok(bare.long(argument.name).value_name(called)),
        Kind::Choice(choice) => Ok(one_of(bare, argument.name, &choice)),
        Kind::FlagWithout(other) => flag(bare, argument.name).conflicts_with(other),
        Kind::FlagBeside(other, excluded) => {
            let flag = flag(bare, argument.name).requires_arg(other)?;
            flag.conflicts_with(excluded)
        }
        Kind::Input(other) => input(bare, argument.name).conflicts_with(other),
        Kind::Files(called) => Ok(files(bare, argument.name, called)),
    }
}

/// Makes an optional argument.
fn word<'a>(alloc: Global, argument: &Argument) -> Arg<'a> {
    Arg::new(alloc, argument.name).help(argument.help)
}

/// Makes it required, and lets it be repeated.
fn several(bare: Arg<'_>) -> Arg<'_> {
    bare.required(true).num_args(1..).action(ArgAction::Append)
}

/// Makes it an option without a value.
fn flag<'a>(bare: Arg<'a>, name: &'a str) -> Arg<'a> {
    bare.long(name).action(ArgAction::SetTrue)
}

/// Makes it an option with a number.
fn option<'a>(bare: Arg<'a>, name: &'a str, number: &Number) -> Arg<'a> {
    let option = bare
        .long(name)
        .value_name(number.called)
        .allow_negative_numbers(true)
        .value_parser(number.range);
    match number.default {
        Some(default) => option.default_value(default),
        None => option,
    }
}

/// Makes it an option with one of several names.
fn one_of<'a>(bare: Arg<'a>, name: &'a str, choice: &Choice) -> Arg<'a> {
    let option = bare
        .long(name)
        .value_name(choice.called)
        .value_parser(ValueParser::Names(choice.names))
        .hide_possible_values(true);
    match choice.default {
        Some(default) => option.default_value(default),
        None => option,
    }
}

/// Makes it the option `-e`.
fn input<'a>(bare: Arg<'a>, name: &'a str) -> Arg<'a> {
    bare.short('e')
        .long(name)
        .value_name("TERM")
        .action(ArgAction::Append)
}

/// Makes it an option with a file that may be repeated.
fn files<'a>(bare: Arg<'a>, name: &'a str, called: &'a str) -> Arg<'a> {
    bare.long(name).value_name(called).action(ArgAction::Append)
}
