//! The values of the options.
ghost use Rattle.std.specs.Prelude.{◌≤◌, ◌^◌};

use crate::arguments::{MOST_BYTES, MOST_CELLS, MOST_INDENT, MOST_RESULTS, MOST_STEPS};
use crate::wrong::{NO_RULE_PLACE, NO_WORD_PLACE, Wrong};
use clap::ArgMatches;
use rx_run::{InputForm, TermLines, TermRun};

/// The capacity of the memo table in commands without the option.
const MEMO: u32 = 65_536;

/// The largest number of bytes of the term of a table without the option.
const OPENED_BYTES: u64 = 16_777_216;

/// The collection interval in commands without the option.
const RECLAIM: u32 = 262_144;

/// The terms of a run that are evaluated. They are counted from 1: first the EVAL terms, then the
/// input terms.
#[derive(Clone, Copy, Debug, PartialEq, Eq)]
pub enum TermChoice {
    /// All terms.
    All,
    /// The input terms.
    Input,
    /// The term with this number.
    Nth(u64),
}

/// The options of an evaluation, each in its range.
#[derive(Clone, Copy)]
pub struct EvalOptions {
    /// The terms that are evaluated.
    pub terms: TermChoice,
    /// The form in which input terms or requests are read.
    pub input: InputForm,
    /// The step limit of each term.
    pub steps: u64,
    /// The capacity of the store, in cells.
    pub cells: u32,
    /// The capacity of the memo table, in results.
    pub memo: u32,
    /// Collect garbage at the latest after this many new cells.
    pub reclaim: u32,
    /// Whether each result is followed by its step count.
    pub count: bool,
    /// The largest number of bytes of a result, if there is one.
    pub bytes: Option<u64>,
    /// Whether the table of each result is printed. Then `bytes` does not count.
    pub to_table: bool,
    /// Whether each result is followed by its number of cells.
    pub sizes: bool,
    /// The largest number of nodes of the graph of the chosen term's result, if that is printed in
    /// place of the lines.
    pub graph: Option<u32>,
    /// Whether the limit line of an input term has its annotations.
    pub limit_annotations: bool,
    /// The call-depth limit, if there is one.
    pub depth: Option<u32>,
    /// Whether stuck calls are listed.
    pub stuck: bool,
    /// Whether rule counts and resource use are printed.
    pub profile: bool,
    /// Whether progress is shown even if standard error is not a terminal.
    pub progress: bool,
    pub ghost steps_in_range: { steps ≤ 10 ^ 18 },
    pub ghost cells_in_range: { (1 ≤ cells) × (cells ≤ 2 ^ 30) },
    pub ghost memo_in_range: { memo ≤ 2 ^ 20 },
    pub ghost reclaim_in_range: { (1 ≤ reclaim) × (reclaim ≤ 2 ^ 30) },
}

/// The options of a check.
#[derive(Clone, Copy)]
pub struct CheckOptions {
    /// Whether a warning leads to exit status 1.
    pub is_strict: bool,
    /// Whether findings are written as JSON.
    pub is_json: bool,
}

/// A location in a specification, line and column from 1.
#[derive(Clone, Copy)]
pub struct RulePlace {
    /// The line.
    pub line: u32,
    /// The column, in bytes.
    pub column: u32,
}

/// The options of a trace.
#[derive(Clone, Copy)]
pub struct Shown<'a> {
    /// Whether the whole term is printed, and not the redex alone.
    pub whole: bool,
    /// The length to which each term is cut, if it is.
    pub width: Option<u32>,
    /// The number of rewrites that are printed first. Without `first` and `last`, all are printed.
    pub first: Option<u64>,
    /// The number of rewrites that are printed last.
    pub last: Option<u32>,
    /// The rule whose rewrites are printed, if only one is selected.
    pub rule: Option<RulePlace>,
    /// The symbol whose calls are printed, if only one is selected.
    pub symbol: Option<&'a str>,
    /// Whether the texts of the rules in the lines are printed.
    pub rules: bool,
}

/// Returns the options of an evaluation. `None` if one is missing or not in its range.
pub fn options_of(matches: &ArgMatches<'_>) -> Option<EvalOptions> {
    Some(EvalOptions {
        terms: choice_of(matches),
        input: input_of(matches),
        steps: matches.get_one::<u64>("steps")?.min(MOST_STEPS),
        cells: matches.get_one::<u32>("cells")?.clamp(1, MOST_CELLS),
        memo: number_of(matches, "memo", MEMO).min(MOST_RESULTS),
        reclaim: number_of(matches, "reclaim", RECLAIM).clamp(1, MOST_CELLS),
        count: matches.get_flag("count"),
        bytes: matches.get_one::<u64>("bytes").map(most_bytes),
        to_table: matches.get_flag("to-table"),
        sizes: matches.get_flag("sizes"),
        graph: graph_of(matches),
        limit_annotations: matches.get_flag("limit-annotations"),
        depth: matches.get_one::<u32>("depth"),
        stuck: matches.get_flag("stuck"),
        profile: matches.get_flag("profile"),
        progress: matches.get_flag("progress"),
    })
}

/// Returns the terms that are evaluated.
fn choice_of(matches: &ArgMatches<'_>) -> TermChoice {
    let graph = matches.get_one::<u64>("dot");
    match matches.get_one::<u64>("term").or(graph) {
        Some(number) => TermChoice::Nth(number),
        None if matches.get_flag("only-terms") => TermChoice::Input,
        None => TermChoice::All,
    }
}

/// Returns the largest number of nodes of a graph, if `--dot` is given with a number.
fn graph_of(matches: &ArgMatches<'_>) -> Option<u32> {
    matches.get_one::<u64>("dot")?;
    matches.get_one::<u32>("nodes")
}

/// Returns the largest number of bytes, in its range.
fn most_bytes(bytes: u64) -> u64 {
    bytes.min(MOST_BYTES)
}

/// Returns the number of an option, or `default` if it has none.
fn number_of(matches: &ArgMatches<'_>, id: &str, default: u32) -> u32 {
    matches.get_one::<u32>(id).unwrap_or(default)
}

/// Returns the number of spaces of an indentation level, if `--indent` is given.
pub fn indent_of(inner: &ArgMatches<'_>) -> Option<u8> {
    let indent = inner.get_one::<u32>("indent")?;
    Some(indent.min(MOST_INDENT) as u8)
}

/// Returns the length of a line on which a term stays whole, if `--width` is given.
pub fn width_of(inner: &ArgMatches<'_>) -> Option<u32> {
    inner.get_one::<u32>("width")
}

/// Returns the form of an input: a table if the option with this name is given.
fn form_by(inner: &ArgMatches<'_>, id: &str) -> InputForm {
    if inner.get_flag(id) {
        InputForm::Table
    } else {
        InputForm::Term
    }
}

/// Returns the form in which a term is read, or the requests of a session are.
fn form_of(inner: &ArgMatches<'_>) -> InputForm {
    form_by(inner, "from-table")
}

/// Returns the form in which input terms or requests are read.
fn input_of(inner: &ArgMatches<'_>) -> InputForm {
    match form_by(inner, "terms-table") {
        InputForm::Term => form_of(inner),
        InputForm::Table => InputForm::Table,
    }
}

/// Returns the run of `aterm` without `--indent`.
pub fn printed_of(inner: &ArgMatches<'_>) -> TermRun<TermLines> {
    let form = form_of(inner);
    let lines = if inner.get_flag("to-table") {
        TermLines::Table
    } else {
        match (inner.get_one::<u64>("bytes"), form) {
            (Some(bytes), _) => TermLines::Within(most_bytes(bytes)),
            (None, InputForm::Table) => TermLines::Within(OPENED_BYTES),
            (None, InputForm::Term) => TermLines::Text,
        }
    };
    TermRun { form, lines }
}

/// Returns the run of `share` without `--dot`.
pub fn counted_of(inner: &ArgMatches<'_>) -> TermRun<TermLines> {
    let lines = if inner.get_flag("to-table") {
        TermLines::TableAndCells
    } else {
        TermLines::TextAndCells
    };
    let form = form_of(inner);
    TermRun { form, lines }
}

/// Returns the largest number of nodes of a graph, if `--dot` is given.
pub fn nodes_of(inner: &ArgMatches<'_>) -> Option<u32> {
    if !inner.get_flag("dot") {
        return None;
    }
    inner.get_one::<u32>("nodes")
}

/// Returns the options of a trace, or the error in the location of a rule.
pub fn shown_of<'a>(inner: &ArgMatches<'a>) -> Result<Shown<'a>, Wrong> {
    Ok(Shown {
        whole: inner.get_flag("whole"),
        width: width_of(inner),
        first: inner.get_one::<u64>("first"),
        last: inner.get_one::<u32>("last"),
        rule: place_of(inner, "rule", NO_RULE_PLACE)?,
        symbol: inner.get_str("symbol"),
        rules: inner.get_flag("rules"),
    })
}

/// Returns the options of a check.
pub fn check_of(inner: &ArgMatches<'_>) -> CheckOptions {
    CheckOptions {
        is_strict: inner.get_flag("strict"),
        is_json: inner.get_str("format") == Some("json"),
    }
}

/// Returns the location of the word whose uses are printed, if there is one.
pub fn word_place_of(inner: &ArgMatches<'_>) -> Result<Option<RulePlace>, Wrong> {
    place_of(inner, "at", NO_WORD_PLACE)
}

/// Returns the location that an option has, if it is given, or `wrong` if it is no location.
fn place_of(inner: &ArgMatches<'_>, id: &str, wrong: Wrong) -> Result<Option<RulePlace>, Wrong> {
    match inner.get_strs(id) {
        None => Ok(None),
        Some([line, column]) => Ok(Some(RulePlace {
            line: line.parse().map_err(|_| wrong)?,
            column: column.parse().map_err(|_| wrong)?,
        })),
        Some(_) => Err(wrong),
    }
}
