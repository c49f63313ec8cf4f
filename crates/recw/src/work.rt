//! The kinds of runs over a specification and input terms.

use crate::calls::{Counted, Parted};
use crate::legend::{Legend, legend_of};
use crate::options::{run_settings, trace_options};
use rec_run::{InputTerms, Observer, Profiler, RunReport, Unwatched, Watch, run_given};
use rec_sorts::{Checked, SortFault, check};
use rec_stuck::StuckReport;
use rec_syntax::{SyntaxFault, read_spec};
use rec_trace_run::run_trace;
use recw_cli::{EvalOptions, Shown, find_unnamed};
use rx_run::{Ending, RunFault, read_all_from};
use rx_text::Input;
use std::alloc::Global;
use std::io::{Read, Write};

/// A run over a specification and input terms.
pub trait Work {
    /// Runs over the texts of both.
    fn run<R: Read, G: InputTerms, W: Write>(
        &mut self,
        alloc: Global,
        spec: &mut R,
        terms: &mut G,
        out: &mut W,
    ) -> Result<RunReport, RunFault>;
}

/// Writes the results.
#[derive(Drop)]
pub struct Values<V, P> {
    /// The options of the evaluation.
    pub options: EvalOptions,
    /// The observer of the run.
    pub observer: Observer<V, P, Unwatched>,
}

impl<V: Watch, P: Profiler> Work for Values<V, P> {
    fn run<R: Read, G: InputTerms, W: Write>(
        &mut self,
        alloc: Global,
        spec: &mut R,
        terms: &mut G,
        out: &mut W,
    ) -> Result<RunReport, RunFault> {
        let settings = run_settings(self.options);
        run_given(alloc, spec, terms, out, settings, &mut self.observer)
    }
}

/// Writes the results, and reports the stuck calls in them.
#[derive(Drop)]
pub struct Calls<V, P> {
    /// The options of the evaluation.
    pub options: EvalOptions,
    /// The observer of the run.
    pub observer: Observer<Counted<V>, P, Parted<StuckReport>>,
}

impl<V: Watch, P: Profiler> Work for Calls<V, P> {
    fn run<R: Read, G: InputTerms, W: Write>(
        &mut self,
        alloc: Global,
        spec: &mut R,
        terms: &mut G,
        out: &mut W,
    ) -> Result<RunReport, RunFault> {
        let settings = run_settings(self.options);
        run_given(alloc, spec, terms, out, settings, &mut self.observer)
    }
}

/// Writes the rewrites, and the results.
#[derive(Drop)]
pub struct Firings<'a> {
    /// The options of the evaluation.
    pub options: EvalOptions,
    /// The options of the trace.
    pub shown: Shown<'a>,
    /// The usage error, if a rule or a symbol is selected that the specification does not have.
    /// Nothing is evaluated then.
    pub wrong: Vec<u8>,
    /// The lines of `--rules`.
    pub rules: Vec<u8>,
}

impl Work for Firings<'_> {
    fn run<R: Read, G: InputTerms, W: Write>(
        &mut self,
        alloc: Global,
        spec: &mut R,
        terms: &mut G,
        out: &mut W,
    ) -> Result<RunReport, RunFault> {
        let Shown {
            rule,
            symbol,
            rules,
            ..
        } = self.shown;
        if rule.is_none() && symbol.is_none() && !rules {
            let options = trace_options(self.options, self.shown);
            return run_trace(alloc, spec, terms, out, options);
        }
        let text = read_all_from(alloc, &mut Input::new(spec))?;
        match checked_text(alloc, &text)? {
            Some(checked) => self.run_checked(alloc, &checked, terms, out),
            None => self.run_text(alloc, &text, terms, out),
        }
    }
}

/// Returns a specification, if the text is one.
fn checked_text(alloc: Global, text: &[u8]) -> Result<Option<Checked>, RunFault> {
    let syntax = match read_spec(alloc, text) {
        Ok(syntax) => syntax,
        Err(SyntaxFault::Memory) => return Err(RunFault::Memory { lines: 0 }),
        Err(_) => return Ok(None),
    };
    match check(alloc, syntax) {
        Ok(checked) => Ok(Some(checked)),
        Err(SortFault::Memory) => Err(RunFault::Memory { lines: 0 }),
        Err(_) => Ok(None),
    }
}

impl<'a> Firings<'a> {
    /// Returns a run that was not started.
    pub fn new(alloc: Global, options: EvalOptions, shown: Shown<'a>) -> Firings<'a> {
        Firings {
            options,
            shown,
            wrong: Vec::new(alloc),
            rules: Vec::new(alloc),
        }
    }

    /// Runs over the text of a specification.
    fn run_text<G: InputTerms, W: Write>(
        &self,
        alloc: Global,
        text: &[u8],
        terms: &mut G,
        out: &mut W,
    ) -> Result<RunReport, RunFault> {
        let options = trace_options(self.options, self.shown);
        let mut spec = text;
        run_trace(alloc, &mut spec, terms, out, options)
    }

    /// Runs over a specification, unless it does not have what is selected.
    fn run_checked<G: InputTerms, W: Write>(
        &mut self,
        alloc: Global,
        checked: &Checked,
        terms: &mut G,
        out: &mut W,
    ) -> Result<RunReport, RunFault> {
        let syntax = checked.syntax();
        if let Some(unnamed) = find_unnamed(syntax, &self.shown) {
            let mut wrong = Vec::new(alloc);
            if unnamed.write(&mut wrong).is_err() {
                return Err(RunFault::Memory { lines: 0 });
            }
            self.wrong = wrong;
            return Ok(RunReport {
                ending: Ending::Done,
                lines: 0,
                limit_lines: 0,
            });
        }
        if !self.shown.rules {
            return self.run_text(alloc, syntax.source(), terms, out);
        }
        let mut legend = Legend::new(alloc, syntax, out)?;
        let end = self.run_text(alloc, syntax.source(), terms, &mut legend);
        self.rules = legend_of(alloc, syntax, &legend.finish())?;
        end
    }
}
