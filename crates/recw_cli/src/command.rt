//! The commands, their arguments and the texts of their help.

use crate::arguments::{
    AT, Argument, BYTES, CELLS, COUNT, DEPTH, DOT, EXPLAIN, EXPLAIN_FINDINGS, FILE, FIRST, FORMAT,
    FROM_TABLE, INDENT, INPUT, JOIN, Kind, LAST, LINE_WIDTH, MEMO, NODES, ONLY_TERMS, PATTERN,
    RECLAIM, REQUEST_TABLES, RESULT_NODES, RESULT_TABLES, RULE, RULES, SERVED_BYTES, SERVED_DEPTH,
    SIZES, SPENT, STEPS, SYMBOL, TERM, TERM_BYTES, TERMS, TERMS_TABLE, TO_TABLE, WIDTH,
    arguments_of,
};
use clap::Command;
use std::alloc::{AllocError, Global};

/// The version. The version of the prover is not known here, since another kit may build the
/// program.
const VERSION: &str = "0.1.0";

/// A command of the program.
#[derive(Clone, Copy)]
struct Subcommand {
    /// Its name.
    name: &'static str,
    /// Its one-line description.
    about: &'static str,
    /// The text below its options in the help.
    after_help: &'static str,
    /// Its arguments, in the order of its help.
    arguments: &'static [Argument],
}

/// The commands that evaluate, in the order of the help. The commands are in three tables, since a
/// table of all is too large to be checked at once.
static EVALUATING: [Subcommand; 3] = [EVAL, SERVE, TRACE];

/// The commands on terms, which the help has after those that evaluate.
static ON_TERMS: [Subcommand; 4] = [ATERM, SHARE, MATCH, MAKE];

/// The commands on specifications, which the help has last.
static ON_SPECIFICATIONS: [Subcommand; 3] = [CHECK, USES, JOINED];

/// The command `eval`.
const EVAL: Subcommand = Subcommand {
    name: "eval",
    about: "Evaluate the terms of a specification",
    after_help: "A term that needs more than N steps prints the limit line '!limit N', and a\n\
         result of more than B bytes prints the limit line '!bytes B'. The reports of\n\
         --stuck, --profile, --progress and --explain go to standard error.\n\n\
         A cell takes up to 72 bytes, or 93 while a result of all cells is printed, so\n\
         the default of --cells takes up to 1.2 GB, or 1.6 GB.\n\n\
         Example: recw eval --count --steps 500 add.rec add.trm",
    arguments: &[
        Argument {
            name: "SPEC",
            help: "Specification file, or - [default: standard input]",
            kind: Kind::Word,
        },
        TERMS,
        INPUT,
        TERMS_TABLE,
        ONLY_TERMS,
        TERM,
        JOIN,
        STEPS,
        CELLS,
        MEMO,
        RECLAIM,
        DEPTH,
        BYTES,
        RESULT_TABLES,
        COUNT,
        SIZES,
        DOT,
        RESULT_NODES,
        Argument {
            name: "limit-annotations",
            help: "Print an input term's annotations after its limit",
            kind: Kind::Flag,
        },
        Argument {
            name: "limit-status",
            help: "Exit with status 5 if there is a limit line",
            kind: Kind::Flag,
        },
        Argument {
            name: "stuck",
            help: "Report stuck calls in results; status 5 if any",
            kind: Kind::Flag,
        },
        Argument {
            name: "profile",
            help: "Report rule counts and resource use",
            kind: Kind::Flag,
        },
        Argument {
            name: "progress",
            help: "Show progress, also if not on a terminal",
            kind: Kind::Flag,
        },
        EXPLAIN,
    ],
};

/// The command `serve`.
const SERVE: Subcommand = Subcommand {
    name: "serve",
    about: "Evaluate one term per input line, and print one line for each",
    after_help: "A term that needs more than N steps prints '!limit N', and a result of more\n\
         than B bytes prints '!bytes B'.\n\n\
         Example: echo 'plus(s(z),s(z))' | recw serve add.rec",
    arguments: &[
        Argument {
            name: "SPEC",
            help: "Specification file, or - if FILE is given",
            kind: Kind::Needed,
        },
        Argument {
            name: "FILE",
            help: "File with a term on each line, or - [default: standard input]",
            kind: Kind::Word,
        },
        REQUEST_TABLES,
        STEPS,
        CELLS,
        MEMO,
        RECLAIM,
        SERVED_DEPTH,
        SERVED_BYTES,
        RESULT_TABLES,
        COUNT,
        EXPLAIN,
    ],
};

/// The command `trace`.
const TRACE: Subcommand = Subcommand {
    name: "trace",
    about: "Print every rewrite outside conditions",
    after_help: "Each line is LINE:COL: CALL -> TERM, with the location of the rule.\n\n\
         Example: recw trace --first 2 add.rec",
    arguments: &[
        Argument {
            name: "SPEC",
            help: "Specification file, or -",
            kind: Kind::Needed,
        },
        TERMS,
        INPUT,
        TERM,
        STEPS,
        CELLS,
        SPENT,
        Argument {
            name: "whole",
            help: "Print the whole term after each rewrite",
            kind: Kind::Flag,
        },
        WIDTH,
        FIRST,
        LAST,
        RULE,
        SYMBOL,
        RULES,
        EXPLAIN,
    ],
};

/// The command `aterm`.
const ATERM: Subcommand = Subcommand {
    name: "aterm",
    about: "Print an ATerm in its shortest form",
    after_help: "A term of more than B bytes prints '!bytes B'.\n\n\
         Example: echo 'f ( a , [ 1 , -007 ] )' | recw aterm",
    arguments: &[
        FILE, EXPLAIN, INDENT, LINE_WIDTH, FROM_TABLE, TO_TABLE, TERM_BYTES,
    ],
};

/// The command `share`.
const SHARE: Subcommand = Subcommand {
    name: "share",
    about: "Print an ATerm and its size in store cells",
    after_help: "Example: echo 'f(a,a)' | recw share",
    arguments: &[
        FILE,
        EXPLAIN,
        Argument {
            name: "dot",
            help: "Print a graph of its cells for Graphviz instead",
            kind: Kind::FlagWithout("to-table"),
        },
        NODES,
        FROM_TABLE,
        TO_TABLE,
    ],
};

/// The command `match`.
const MATCH: Subcommand = Subcommand {
    name: "match",
    about: "Match an ATerm against a pattern and print the bindings",
    after_help: "Placeholders: <term>, <int>, <str>, <appl>, <placeholder>, <list>.\n\
         Write a pattern that begins with - with a space before it: ' -7'.\n\n\
         Example: echo 'f(1,2,3)' | recw match 'f(<int>,<list>)'",
    arguments: &[
        PATTERN,
        Argument {
            name: "test",
            help: "Exit with status 1 for no match, 2 for a rejected input",
            kind: Kind::Flag,
        },
        FILE,
        EXPLAIN,
    ],
};

/// The command `make`.
const MAKE: Subcommand = Subcommand {
    name: "make",
    about: "Build an ATerm from a pattern and arguments",
    after_help: "Write a pattern that begins with - with a space before it: ' -7'.\n\n\
         Example: recw make 'f(<int>,<list>)' '[1,[2,3]]'",
    arguments: &[
        PATTERN,
        Argument {
            name: "ARGS",
            help: "List with an ATerm for each placeholder, in order",
            kind: Kind::Needed,
        },
        EXPLAIN,
    ],
};

/// The command `check`.
const CHECK: Subcommand = Subcommand {
    name: "check",
    about: "Report errors and likely mistakes in specifications",
    after_help: "Each line is FILE:LINE:COL: SEVERITY: MESSAGE [CODE]. Warnings alone have \
         status 0.\n\n\
         Example: recw check add.rec",
    arguments: &[
        Argument {
            name: "SPEC",
            help: "Specification files, or -",
            kind: Kind::Several,
        },
        Argument {
            name: "strict",
            help: "Exit with status 1 if there is a warning",
            kind: Kind::Flag,
        },
        JOIN,
        FORMAT,
        EXPLAIN_FINDINGS,
    ],
};

/// The command `uses`.
const USES: Subcommand = Subcommand {
    name: "uses",
    about: "Print what each word of a specification names",
    after_help: "Each line is FILE:LINE:COL: KIND WORD: LINE:COL: SORTS, with the location of the\n\
         word's declaration, or - if it has none.\n\n\
         Example: recw uses --at 7:3 add.rec",
    arguments: &[
        Argument {
            name: "SPEC",
            help: "Specification file, or - [default: standard input]",
            kind: Kind::Word,
        },
        AT,
    ],
};

/// The command `join`.
const JOINED: Subcommand = Subcommand {
    name: "join",
    about: "Join specifications into one",
    after_help: "The sections are merged in order, under the name of the last specification. Each\n\
         part follows a comment with the name of its file.\n\n\
         Example: recw join nat.rec main.rec | recw eval",
    arguments: &[Argument {
        name: "SPEC",
        help: "Specification files, or -",
        kind: Kind::Several,
    }],
};

/// Makes the parser of the command line. Its input does not include the program's name.
pub fn command<'a>(alloc: Global) -> Result<Command<'a>, AllocError> {
    let mut subcommands = Vec::new(alloc);
    push_subcommands(alloc, evaluating(), &mut subcommands)?;
    push_subcommands(alloc, on_terms(), &mut subcommands)?;
    push_subcommands(alloc, on_specifications(), &mut subcommands)?;
    name_command(bare_command(alloc).subcommands(subcommands))
}

/// Sets the program's name in usage lines.
fn name_command(command: Result<Command<'_>, AllocError>) -> Result<Command<'_>, AllocError> {
    command?.bin_name("recw")
}

/// Returns the table of the commands that evaluate.
fn evaluating() -> &'static [Subcommand] {
    &EVALUATING
}

/// Returns the table of the commands on terms.
fn on_terms() -> &'static [Subcommand] {
    &ON_TERMS
}

/// Returns the table of the commands on specifications.
fn on_specifications() -> &'static [Subcommand] {
    &ON_SPECIFICATIONS
}

/// Makes these commands, in their order, and adds them to `made`.
fn push_subcommands<'a>(
    alloc: Global,
    subcommands: &[Subcommand],
    made: &mut Vec<Command<'a>>,
) -> Result<(), AllocError> {
    for subcommand in subcommands {
        made.push(subcommand_of(alloc, *subcommand)?)?;
    }
    Ok(())
}

/// Makes a command with its arguments.
fn subcommand_of<'a>(alloc: Global, subcommand: Subcommand) -> Result<Command<'a>, AllocError> {
    let arguments = arguments_of(alloc, subcommand.arguments)?;
    Command::new(alloc, subcommand.name)
        .about(subcommand.about)
        .after_help(subcommand.after_help)
        .args(arguments)
}

/// Makes the parser without its commands, and with the text of `--help`.
fn bare_command<'a>(alloc: Global) -> Command<'a> {
    Command::new(alloc, "recw")
        .about("Evaluate REC specifications and process annotated terms (ATerms)")
        .after_help(
            "Without arguments, recw evaluates the specification on standard input.\n\n\
             Exit status:\n  \
             0  done\n  \
             1  input rejected; see also match --test and check --strict\n  \
             2  usage error\n  \
             3  out of memory, out of cells or call-depth limit reached\n  \
             4  read or write error\n  \
             5  see --limit-status and --stuck of recw eval\n\n\
             Run 'recw help refusals' for a list of error codes, 'recw help S5' for one.",
        )
        .no_binary_name(true)
        .version(VERSION)
        .subcommand_required(true)
        .override_usage("recw [COMMAND]")
}
