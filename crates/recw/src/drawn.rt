//! Graphs of results, which are printed in place of their lines.

ghost use Rattle.std.specs.Prelude.{◌≡◌, ◌++◌, IsSome, OnOk};
ghost use Rattle.rx_term.specs.Store.{tree_at};
ghost use Rattle.rx_term.specs.Walks.{held_tree};
ghost use Rattle.rx_render.specs.Graph.{graph_text};

use crate::join::write_all;
use crate::options::run_settings;
use crate::work::Work;
use rec_engine::Engine;
use rec_run::{
    InputTerms, Observer, Profiler, Reporter, RunReport, RunSettings, ValueForm, Watch, run_given,
};
use rec_sorts::Checked;
use recw_cli::EvalOptions;
use rx_render::{Extent, write_graph_to};
use rx_run::RunFault;
use rx_table::count_cells;
use rx_term::{Term, TermBank};
use rx_text::Output;
use std::alloc::{AllocError, Global};
use std::io::{Read, Write};

/// A report that has the graph of each value.
#[derive(Drop)]
pub struct GraphReport {
    /// The largest number of nodes of a graph.
    pub nodes: u32,
    /// The graphs.
    pub text: Vec<u8>,
}

impl Reporter for GraphReport {
    ghost use Rattle.std.specs.Prelude.{[]};

    ghost told = { λ _. [] };

    ghost is_ready = { λ _ _ _. Unit {0} };

    ghost says = { λ _ _ _. [] };

    fn begin(&mut self, _alloc: Global, _checked: &Checked) -> Result<(), AllocError> {
        Ok(())
    }

    fn report<B: TermBank>(
        &mut self,
        alloc: Global,
        engine: &Engine<B>,
        value: Term,
    ) -> Result<(), AllocError> {
        add_graph(alloc, engine.bank(), value, self.nodes, &mut self.text)
    }
}

/// Appends the graph of a term with at most `nodes` nodes.
fn add_graph<B: TermBank>(
    alloc: Global,
    bank: &B,
    t: Term,
    nodes: u32,
    text: &mut Vec<u8>,
) -> Result<(), AllocError>
    requires { IsSome (tree_at (B.store bank.now) t) }
    ensures { OnOk result (text.new.items ≡ text.old.items
        ++ graph_text nodes (held_tree (B.store bank.now) t)) }
{
    let cells = count_cells(alloc, bank, t)?;
    let mut out = Output::new(text);
    match write_graph_to(alloc, bank, t, Extent { nodes, cells }, &mut out) {
        Ok(()) => Ok(()),
        Err(_) => Err(AllocError),
    }
}

/// Writes the graph of the chosen term's result, or its limit line.
#[derive(Drop)]
pub struct Graphs<V, P> {
    /// The options of the evaluation.
    pub options: EvalOptions,
    /// The observer of the run.
    pub observer: Observer<V, P, GraphReport>,
}

impl<V: Watch, P: Profiler> Work for Graphs<V, P> {
    fn run<R: Read, G: InputTerms, W: Write>(
        &mut self,
        alloc: Global,
        spec: &mut R,
        terms: &mut G,
        out: &mut W,
    ) -> Result<RunReport, RunFault> {
        let settings = RunSettings {
            form: ValueForm::Within(0),
            ..run_settings(self.options)
        };
        let mut lines = Vec::new(alloc);
        let report = run_given(alloc, spec, terms, &mut lines, settings, &mut self.observer)?;
        let graph = &self.observer.reporter.text;
        if graph.is_empty() {
            write_all(&lines, out)?;
            return Ok(report);
        }
        write_all(graph, out)?;
        Ok(RunReport {
            limit_lines: 0,
            ..report
        })
    }
}
