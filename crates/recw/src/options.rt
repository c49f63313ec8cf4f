//! Conversion of command-line options to the options of runs.

use rec_run::{LimitLines, RunOptions, RunSettings, TermChoice, ValueForm};
use rec_serve::ServeSettings;
use rec_trace_run::{Picked, TraceOptions};
use recw_cli::{EvalOptions, RulePlace, Shown};

/// Returns the limits of a run.
fn run_options(options: EvalOptions) -> RunOptions {
    RunOptions {
        steps: options.steps,
        cells: options.cells,
        memo: options.memo,
        reclaim: options.reclaim,
        count: options.count,
    }
}

/// Returns the form of limit lines.
fn limit_lines(options: EvalOptions) -> LimitLines {
    if options.limit_annotations {
        LimitLines::Annotated
    } else {
        LimitLines::Bare
    }
}

/// Returns the form of values.
fn value_form(options: EvalOptions) -> ValueForm {
    match options.bytes {
        _ if options.to_table => ValueForm::Table,
        Some(most) => ValueForm::Within(most),
        None => ValueForm::Plain,
    }
}

/// Returns the choice of the terms that are evaluated.
fn term_choice(options: EvalOptions) -> TermChoice {
    match options.terms {
        recw_cli::TermChoice::All => TermChoice::All,
        recw_cli::TermChoice::Input => TermChoice::Input,
        recw_cli::TermChoice::Nth(number) => TermChoice::Nth(number),
    }
}

/// Returns the settings of an evaluation.
pub fn run_settings(options: EvalOptions) -> RunSettings {
    RunSettings {
        options: run_options(options),
        limits: limit_lines(options),
        form: value_form(options),
        sizes: options.sizes,
        depth: options.depth,
        terms: term_choice(options),
        input: options.input,
    }
}

/// Returns the selection of rewrites that a trace shows.
fn picks(shown: Shown<'_>) -> Picked<'_> {
    Picked {
        place: shown.rule.map(rule_place),
        symbol: shown.symbol.map(str::as_bytes),
        first: shown.first,
        last: shown.last,
    }
}

/// Returns the location of the rule that a trace shows.
fn rule_place(place: RulePlace) -> rec_trace_run::RulePlace {
    rec_trace_run::RulePlace {
        line: place.line,
        column: place.column,
    }
}

/// Returns the settings of a trace.
pub fn trace_options(options: EvalOptions, shown: Shown<'_>) -> TraceOptions<'_> {
    TraceOptions {
        run: run_options(options),
        whole: shown.whole,
        width: shown.width,
        picked: picks(shown),
        terms: term_choice(options),
    }
}

/// Returns the settings of a session.
pub fn serve_settings(options: EvalOptions) -> ServeSettings {
    ServeSettings {
        options: run_options(options),
        form: value_form(options),
        depth: options.depth,
        input: options.input,
    }
}
