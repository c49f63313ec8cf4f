//! Runs on the text of one term, which print it over several lines or write its shared graph.

ghost use Rattle.std.specs.Prelude.{◌≡◌, ℕ, false, IfErr, IfOk, IfSome, IsSome, OnOk};
ghost use Rattle.rx_term.specs.Store.{tree_at};
ghost use Rattle.rx_text.specs.Output.{Writes, contents_of};
ghost use Rattle.rx_run.specs.Run.{BreaksForBy, ConcludesFor, IsNotDeep, IsReadOut, StopsBy};
ghost use Rattle.rx_run.specs.Run.{StopsWriting};
ghost use Rattle.rx_run.specs.Streams.{ReportsWrite};
ghost use Rattle.rx_run.specs.TermRuns.{NamesElement, lines_at};
ghost use Rattle.rx_render.specs.Due.{IsDotDueIn, IsIndentedDue, indented_lines, lines_for};
ghost use Rattle.rx_render.specs.Due.{reclaims_others};
ghost use Rattle.rx_render.specs.Graph.{graph_text};

use crate::drawing::{Extent, write_graph_to};
use crate::indented::write_indented_to;
use crate::layout::Indentation;
use rx_run::{Ending, InputForm, RunFault, TermOutput, TermRun, keep_alone, run_on_term};
use rx_term::{Term, TermBank};
use rx_text::{Input, Output};
use std::alloc::Global;
use std::io::{Read, Write};

/// The form in which a term is written. The output counts as one answer, so an error reports 0
/// lines.
#[derive(Clone, Copy, Drop)]
pub enum Look {
    /// Its text over several lines, with this division into lines.
    Indented(Indentation),
    /// Its shared graph with at most this number of nodes. Everything else in the store is freed.
    Graph(u32),
}

impl TermOutput for Look {
    ghost lines = { lines_for };

    ghost counts_lines = { λ it. false };

    ghost reclaims = { reclaims_others };

    fn write_lines<B: TermBank, W: Write>(
        &self,
        alloc: Global,
        bank: &mut B,
        t: Term,
        out: &mut Output<'_, W>,
    ) -> Result<(), RunFault> {
        match *self {
            Look::Indented(indentation) => {
                write_indented_lines(alloc, bank, t, indentation, out)
            },
            Look::Graph(nodes) => write_graph(alloc, bank, t, nodes, out),
        }
    }
}

/// Reads the text of a term and writes it over several lines, as [`write_indented`] does, and a
/// line end; or its error line. Flushes at the end. An error reports 0 lines. The position of the
/// reader is then unspecified.
///
/// [`write_indented`]: crate::write_indented
pub fn run_aterm_indented<R: Read, W: Write>(
    alloc: Global,
    input: &mut R,
    indentation: Indentation,
    out: &mut W,
) -> Result<Ending, RunFault>
    ensures ends { IfOk result (λ ending. ConcludesFor (IsIndentedDue indentation)
        (R.remaining input.old) ending (W.contents out.old) (W.contents out.new)) }
    ensures fault { IfErr result (λ fault. BreaksForBy false (IsIndentedDue indentation)
        (R.remaining input.old) fault (W.contents out.old) (W.contents out.new)) }
    ensures no_depth { IfErr result IsNotDeep }
    ensures input_read { OnOk result (IsReadOut (R.remaining input.old) (R.remaining input.new)) }
{
    let mut input = Input::new(input);
    let mut output = Output::new(out);
    let run = TermRun {
        form: InputForm::Term,
        lines: Look::Indented(indentation),
    };
    run_on_term(alloc, &mut input, &mut output, &run)
}

/// Reads an input in this form and writes the shared graph of its term for Graphviz with at most
/// `nodes` nodes, or its error line. Flushes at the end. An error reports 0 lines. The position of
/// the reader is then unspecified.
pub fn run_share_dot<R: Read, W: Write>(
    alloc: Global,
    form: InputForm,
    input: &mut R,
    nodes: u32,
    out: &mut W,
) -> Result<Ending, RunFault>
    ensures ends { IfOk result (λ ending. ConcludesFor (IsDotDueIn form nodes)
        (R.remaining input.old) ending (W.contents out.old) (W.contents out.new)) }
    ensures element { IfOk result
        (λ ending. IfSome (R.remaining input.old) (NamesElement ending)) }
    ensures fault { IfErr result (λ fault. BreaksForBy false (IsDotDueIn form nodes)
        (R.remaining input.old) fault (W.contents out.old) (W.contents out.new)) }
    ensures no_depth { IfErr result IsNotDeep }
    ensures input_read { OnOk result (IsReadOut (R.remaining input.old) (R.remaining input.new)) }
{
    let mut input = Input::new(input);
    let mut output = Output::new(out);
    let run = TermRun {
        form,
        lines: Look::Graph(nodes),
    };
    run_on_term(alloc, &mut input, &mut output, &run)
}

/// Writes the text of a term over several lines, and a line end.
fn write_indented_lines<B: TermBank, W: Write>(
    alloc: Global,
    bank: &B,
    t: Term,
    indentation: Indentation,
    out: &mut Output<'_, W>,
) -> Result<(), RunFault>
    requires held { IsSome (tree_at (B.store bank.now) t) }
    ensures ok { OnOk result (Writes W.contents out.old out.new
        (lines_at (indented_lines indentation) (B.store bank.now) t)) }
    ensures err { IfErr result (λ fault. StopsBy false fault
        (lines_at (indented_lines indentation) (B.store bank.now) t)
        (contents_of W.contents out.old) (contents_of W.contents out.new)) }
    ensures writing { IfErr result StopsWriting }
    ensures reports { ReportsWrite out.old out.new result }
{
    write_indented_to(alloc, bank, t, indentation, out)?;
    out.put(b"\n")?;
    Ok(())
}

/// Frees everything except a term, and writes its shared graph.
fn write_graph<B: TermBank, W: Write>(
    alloc: Global,
    bank: &mut B,
    t: Term,
    nodes: u32,
    out: &mut Output<'_, W>,
) -> Result<(), RunFault>
    requires held { IsSome (tree_at (B.store bank.old) t) }
    requires unrooted { (r : ℕ) → (B.store bank.old).roots r ≡ 0 }
    ensures ok { OnOk result (Writes W.contents out.old out.new
        (lines_at (graph_text nodes) (B.store bank.old) t)) }
    ensures err { IfErr result (λ fault. StopsBy false fault
        (lines_at (graph_text nodes) (B.store bank.old) t)
        (contents_of W.contents out.old) (contents_of W.contents out.new)) }
    ensures writing { IfErr result StopsWriting }
    ensures cap { (B.store bank.new).cap ≡ (B.store bank.old).cap }
    ensures reports { ReportsWrite out.old out.new result }
{
    let cells = keep_alone(bank, t);
    write_graph_to(alloc, bank, t, Extent { nodes, cells }, out)?;
    Ok(())
}
