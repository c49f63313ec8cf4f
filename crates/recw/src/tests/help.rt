//! Tests of the help texts, the version and the list of error codes.

use crate::tests::{Row, run};
use std::alloc::Global;
use std::process::Abort;
use std::rt::Files;

/// The program's help.
const HELP: &str = "Evaluate REC specifications and process annotated terms (ATerms)

Usage: recw [COMMAND]

Commands:
  eval   Evaluate the terms of a specification
  serve  Evaluate one term per input line, and print one line for each
  trace  Print every rewrite outside conditions
  aterm  Print an ATerm in its shortest form
  share  Print an ATerm and its size in store cells
  match  Match an ATerm against a pattern and print the bindings
  make   Build an ATerm from a pattern and arguments
  check  Report errors and likely mistakes in specifications
  uses   Print what each word of a specification names
  join   Join specifications into one
  help   Print this message or the help of the given subcommand(s)

Options:
  -h, --help     Print help
  -V, --version  Print version

Without arguments, recw evaluates the specification on standard input.

Exit status:
  0  done
  1  input rejected; see also match --test and check --strict
  2  usage error
  3  out of memory, out of cells or call-depth limit reached
  4  read or write error
  5  see --limit-status and --stuck of recw eval

Run 'recw help refusals' for a list of error codes, 'recw help S5' for one.
";

/// The help of `share`.
const SHARE_HELP: &str = "Print an ATerm and its size in store cells

Usage: recw share [OPTIONS] [FILE]

Arguments:
  [FILE]  ATerm file, or - [default: standard input]

Options:
      --explain     Explain errors, also if not on a terminal
      --dot         Print a graph of its cells for Graphviz instead
      --nodes <N>   Most nodes in the graph, 1 to 2^30 [default: 2000]
      --from-table  Read a table, and use its term
      --to-table    Print the table of each term
  -h, --help        Print help

Example: echo 'f(a,a)' | recw share
";

/// The help of `eval`.
const EVAL_HELP: &str = "Evaluate the terms of a specification

Usage: recw eval [OPTIONS] [SPEC] [TERMS]

Arguments:
  [SPEC]   Specification file, or - [default: standard input]
  [TERMS]  File with an ATerm list of input terms, or -

Options:
  -e, --input <TERM>       Input term instead of TERMS; may be repeated
      --terms-table        Read TERMS as a table
      --only-terms         Evaluate input terms only, not the EVAL terms
      --term <N>           Evaluate only the N-th term, 1 to 10^18
      --join <FILE>        Specification to join before SPEC; may be repeated
      --steps <N>          Step limit per term, up to 10^18 [default: 1000000]
      --cells <C>          Cells in the store, 1 to 2^30 [default: 16777216]
      --memo <M>           Results in memo table, 0 to 2^20 [default: 65536]
      --reclaim <K>        Most new cells between collections [default: 262144]
      --depth <D>          Call-depth limit, up to 2^32 - 1 [default: no limit]
      --bytes <B>          Bytes per result, up to 10^18 [default: no limit]
      --to-table           Print tables, with each shared part once
      --count              Print the step count after each result
      --sizes              Print the number of cells after each result
      --dot <N>            Print a graph of the N-th result for Graphviz instead
      --nodes <N>          Most nodes in the graph, 1 to 2^30 [default: 1000]
      --limit-annotations  Print an input term's annotations after its limit
      --limit-status       Exit with status 5 if there is a limit line
      --stuck              Report stuck calls in results; status 5 if any
      --profile            Report rule counts and resource use
      --progress           Show progress, also if not on a terminal
      --explain            Explain errors, also if not on a terminal
  -h, --help               Print help

A term that needs more than N steps prints the limit line '!limit N', and a
result of more than B bytes prints the limit line '!bytes B'. The reports of
--stuck, --profile, --progress and --explain go to standard error.

A cell takes up to 72 bytes, or 93 while a result of all cells is printed, so
the default of --cells takes up to 1.2 GB, or 1.6 GB.

Example: recw eval --count --steps 500 add.rec add.trm
";

/// The help of `serve`.
const SERVE_HELP: &str = "Evaluate one term per input line, and print one line for each

Usage: recw serve [OPTIONS] <SPEC> [FILE]

Arguments:
  <SPEC>  Specification file, or - if FILE is given
  [FILE]  File with a term on each line, or - [default: standard input]

Options:
      --from-table   Read a table on each line, and use its term
      --steps <N>    Step limit per term, up to 10^18 [default: 1000000]
      --cells <C>    Cells in the store, 1 to 2^30 [default: 16777216]
      --memo <M>     Results in memo table, 0 to 2^20 [default: 65536]
      --reclaim <K>  Most new cells between collections [default: 262144]
      --depth <D>    Call-depth limit, up to 2^32 - 1 [default: 1000000]
      --bytes <B>    Bytes per result, up to 10^18 [default: 16777216]
      --to-table     Print tables, with each shared part once
      --count        Print the step count after each result
      --explain      Explain errors, also if not on a terminal
  -h, --help         Print help

A term that needs more than N steps prints '!limit N', and a result of more
than B bytes prints '!bytes B'.

Example: echo 'plus(s(z),s(z))' | recw serve add.rec
";

/// The help of `trace`.
const TRACE_HELP: &str = "Print every rewrite outside conditions

Usage: recw trace [OPTIONS] <SPEC> [TERMS]

Arguments:
  <SPEC>   Specification file, or -
  [TERMS]  File with an ATerm list of input terms, or -

Options:
  -e, --input <TERM>     Input term instead of TERMS; may be repeated
      --term <N>         Evaluate only the N-th term, 1 to 10^18
      --steps <N>        Step limit per term, up to 10^18 [default: 1000000]
      --cells <C>        Cells in the store, 1 to 2^30 [default: 16777216]
      --count            Print the steps so far after each line
      --whole            Print the whole term after each rewrite
      --width <W>        Cut each term to W bytes, 3 to 2^30
      --first <N>        Print only the first N rewrites, up to 10^18
      --last <N>         Print only the last N rewrites, up to 2^30
      --rule <LINE:COL>  Print only rewrites by the rule at this location
      --symbol <NAME>    Print only rewrites of calls of this symbol
      --rules            Print the text of each rule in these lines
      --explain          Explain errors, also if not on a terminal
  -h, --help             Print help

Each line is LINE:COL: CALL -> TERM, with the location of the rule.

Example: recw trace --first 2 add.rec
";

/// The help of `aterm`.
const ATERM_HELP: &str = "Print an ATerm in its shortest form

Usage: recw aterm [OPTIONS] [FILE]

Arguments:
  [FILE]  ATerm file, or - [default: standard input]

Options:
      --explain     Explain errors, also if not on a terminal
      --indent <N>  Print over several lines, N spaces per level, 0 to 64
      --width <W>   Break only terms that do not fit on a line of W bytes
      --from-table  Read a table, and use its term
      --to-table    Print the table of each term
      --bytes <B>   Bytes of the term, up to 10^18; 16777216 with --from-table
  -h, --help        Print help

A term of more than B bytes prints '!bytes B'.

Example: echo 'f ( a , [ 1 , -007 ] )' | recw aterm
";

/// The help of `match`.
const MATCH_HELP: &str = "Match an ATerm against a pattern and print the bindings

Usage: recw match [OPTIONS] <PATTERN> [FILE]

Arguments:
  <PATTERN>  ATerm with placeholders
  [FILE]     ATerm file, or - [default: standard input]

Options:
      --test     Exit with status 1 for no match, 2 for a rejected input
      --explain  Explain errors, also if not on a terminal
  -h, --help     Print help

Placeholders: <term>, <int>, <str>, <appl>, <placeholder>, <list>.
Write a pattern that begins with - with a space before it: ' -7'.

Example: echo 'f(1,2,3)' | recw match 'f(<int>,<list>)'
";

/// The help of `make`.
const MAKE_HELP: &str = "Build an ATerm from a pattern and arguments

Usage: recw make [OPTIONS] <PATTERN> <ARGS>

Arguments:
  <PATTERN>  ATerm with placeholders
  <ARGS>     List with an ATerm for each placeholder, in order

Options:
      --explain  Explain errors, also if not on a terminal
  -h, --help     Print help

Write a pattern that begins with - with a space before it: ' -7'.

Example: recw make 'f(<int>,<list>)' '[1,[2,3]]'
";

/// The help of `check`.
const CHECK_HELP: &str = "Report errors and likely mistakes in specifications

Usage: recw check [OPTIONS] <SPEC>...

Arguments:
  <SPEC>...  Specification files, or -

Options:
      --strict         Exit with status 1 if there is a warning
      --join <FILE>    Specification to join before SPEC; may be repeated
      --format <FORM>  Write lines (gnu) or JSON objects (json) [default: gnu]
      --explain        Explain findings, also if not on a terminal
  -h, --help           Print help

Each line is FILE:LINE:COL: SEVERITY: MESSAGE [CODE]. Warnings alone have status 0.

Example: recw check add.rec
";

/// The help of `uses`.
const USES_HELP: &str = "Print what each word of a specification names

Usage: recw uses [OPTIONS] [SPEC]

Arguments:
  [SPEC]  Specification file, or - [default: standard input]

Options:
      --at <LINE:COL>  Print only the uses of the word at this location
  -h, --help           Print help

Each line is FILE:LINE:COL: KIND WORD: LINE:COL: SORTS, with the location of the
word's declaration, or - if it has none.

Example: recw uses --at 7:3 add.rec
";

/// The help of `join`.
const JOIN_HELP: &str = "Join specifications into one

Usage: recw join <SPEC>...

Arguments:
  <SPEC>...  Specification files, or -

Options:
  -h, --help  Print help

The sections are merged in order, under the name of the last specification. Each
part follows a comment with the name of its file.

Example: recw join nat.rec main.rec | recw eval
";

/// The help of `help`.
const HELP_HELP: &str = "Print this message or the help of the given subcommand(s)

Usage: recw help [COMMAND]...

Arguments:
  [COMMAND]...  Command or code to print help for; 'refusals' lists the error codes
";

/// The help of the list of error codes.
const REFUSALS_HELP: &str = "Print the error codes and their meanings

Usage: recw help refusals
";

/// The help of an error code.
const ERROR_HELP: &str = "S7  argument of the wrong sort

Example: CONS b : -> B OPNS f : A -> A EVAL f(b)
Fix: use a term of the declared sort
";

/// The help of a warning code.
const WARNING_HELP: &str = "W3  missing case: no left-hand side matches this call

Example: OPNS f : A -> A RULES f(a) -> a, if b : -> A
Fix: add a rule: f(b) -> a
";

/// The arguments that request help, and the help.
pub(crate) const HELPS: &[Row] = &[
    (&["-h"], "", 0, HELP, ""),
    (&["--help"], "", 0, HELP, ""),
    (&["help"], "", 0, HELP, ""),
    (&["share", "-h"], "", 0, SHARE_HELP, ""),
    (&["make", "--help"], "", 0, MAKE_HELP, ""),
    (&["eval", "-h"], "", 0, EVAL_HELP, ""),
    (&["eval", "--help"], "", 0, EVAL_HELP, ""),
    (&["help", "eval"], "", 0, EVAL_HELP, ""),
    (&["serve", "--help"], "", 0, SERVE_HELP, ""),
    (&["trace", "--help"], "", 0, TRACE_HELP, ""),
    (&["aterm", "-h"], "", 0, ATERM_HELP, ""),
    (&["match", "-h"], "", 0, MATCH_HELP, ""),
    (&["help", "make"], "", 0, MAKE_HELP, ""),
    (&["check", "--help"], "", 0, CHECK_HELP, ""),
    (&["uses", "--help"], "", 0, USES_HELP, ""),
    (&["join", "--help"], "", 0, JOIN_HELP, ""),
    (&["help", "help"], "", 0, HELP_HELP, ""),
    (&["help", "S7"], "", 0, ERROR_HELP, ""),
    (&["help", "W3"], "", 0, WARNING_HELP, ""),
    (&["help", "refusals", "--help"], "", 0, REFUSALS_HELP, ""),
    (&["help", "refusals", "-h"], "", 0, REFUSALS_HELP, ""),
];

/// The version is printed alone.
fn shows_its_version<H: Abort + Files>(rt: &H, alloc: Global) {
    let ran = run(rt, alloc, &["--version"], "");
    let is_shown = ran.out() == "recw 0.1.0\n" && ran.err().is_empty();
    assert!(rt; ran.status == 0 && is_shown);
}

/// The list of error codes has a line for each code.
fn shows_the_refusals<H: Abort + Files>(rt: &H, alloc: Global) {
    let ran = run(rt, alloc, &["help", "refusals"], "");
    let line = "\nS11 variable in an EVAL term\n";
    let is_shown = ran.out().lines().count() == 26 && ran.out().contains(line);
    assert!(rt; ran.status == 0 && is_shown && ran.err().is_empty());
}

/// A file name instead of a command is answered with a suggestion.
fn names_the_command<H: Abort + Files>(rt: &H, alloc: Global) {
    let ran = run(rt, alloc, &["sort.rec"], "");
    let is_named = ran.err().ends_with(": recw eval sort.rec\n");
    assert!(rt; ran.status == 2 && is_named && ran.out().is_empty());
}

/// A suggestion quotes a file name that the shell would split. A negative number is reported as an
/// invalid value, not as an option.
fn quotes_what_it_names<H: Abort + Files>(rt: &H, alloc: Global) {
    let ran = run(rt, alloc, &["my sort's.rec"], "");
    let is_quoted = ran.err().ends_with(": recw eval 'my sort'\\''s.rec'\n");
    assert!(rt; ran.status == 2 && is_quoted, "{}", ran.err());
    let ran = run(rt, alloc, &["eval", "--steps", "-1"], "");
    let is_number = ran
        .err()
        .starts_with("error: invalid value '-1' for '--steps <N>'");
    assert!(rt;
        ran.status == 2 && is_number && !ran.err().contains("tip"),
        "{}",
        ran.err()
    );
}

#[test]
fn shows_its_version_and_the_refusals(rt: HostRuntime) {
    shows_its_version(&rt, rt.alloc());
    shows_the_refusals(&rt, rt.alloc());
    names_the_command(&rt, rt.alloc());
    quotes_what_it_names(&rt, rt.alloc());
}
