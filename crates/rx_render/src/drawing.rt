//! Writes the shared graph of a term for Graphviz.

ghost use Rattle.std.specs.Prelude.{◌≡◌, IfOk, IsSome, OnErr, OnOk, min};
ghost use Rattle.rx_term.specs.Parts.{part_count};
ghost use Rattle.rx_term.specs.Store.{tree_at};
ghost use Rattle.rx_term.specs.Walks.{held_tree};
ghost use Rattle.rx_text.specs.Output.{ReportsFault};
ghost use Rattle.rx_text.specs.Output.{Writes, WritesFront};
ghost use Rattle.rx_render.specs.Drawing.{AreHeld, Passes, next_lines};
ghost use Rattle.rx_render.specs.Graph.{first_lines, graph_text, order, rest_line};

use crate::graph::Graph;
use crate::labels::push_number;
use rx_term::{Term, TermBank};
use rx_text::{Output, WriteFault};
use std::alloc::{AllocError, Global};
use std::io::Write;

/// The first lines of a graph.
const HEADING: &[u8] = b"digraph term {\n  node [shape=box, fontname=\"monospace\"];\n";

/// The limit of nodes, and the number of parts.
#[derive(Clone, Copy, Drop)]
pub struct Extent {
    /// The greatest number of nodes that are written.
    pub nodes: u32,
    /// The number of different parts of the term.
    pub cells: u32,
}

/// Writes the lines of the part with this number, if there is one.
fn write_part<B: TermBank, W: Write>(
    alloc: Global,
    bank: &B,
    number: usize,
    graph: &mut Graph,
    out: &mut Output<'_, W>,
) -> Result<(), WriteFault>
    requires held { AreHeld (B.store bank.now) graph.old }
    ensures passed { OnOk result (Passes (B.store bank.now) number graph.old graph.new) }
    ensures written { OnOk result (Writes W.contents out.old out.new
        (next_lines (B.store bank.now) number graph.old)) }
    ensures front { OnErr result (WritesFront W.contents out.old out.new
        (next_lines (B.store bank.now) number graph.old)) }
    ensures reports { ReportsFault out.old out.new result }
{
    match graph.part(number) {
        Some(part) => match graph.look_at(alloc, bank, number, part) {
            Ok(()) => Ok(out.put(&graph.lines)?),
            Err(_) => Err(WriteFault::Memory),
        },
        None => Ok(()),
    }
}

/// Writes the lines of the parts up to the limit.
fn write_parts<B: TermBank, W: Write>(
    alloc: Global,
    bank: &B,
    t: Term,
    extent: Extent,
    out: &mut Output<'_, W>,
) -> Result<(), WriteFault>
    requires held { IsSome (tree_at (B.store bank.now) t) }
    requires counted { extent.cells ≡ part_count (held_tree (B.store bank.now) t) }
    ensures written { OnOk result (Writes W.contents out.old out.new
        (first_lines extent.nodes (order (held_tree (B.store bank.now) t))
        (min extent.nodes extent.cells))) }
    ensures front { OnErr result (WritesFront W.contents out.old out.new
        (first_lines extent.nodes (order (held_tree (B.store bank.now) t))
        (min extent.nodes extent.cells))) }
    ensures reports { ReportsFault out.old out.new result }
{
    let Ok(mut graph) = Graph::new(alloc, extent.nodes as usize, t) else {
        return Err(WriteFault::Memory);
    };
    for number in 0..extent.nodes.min(extent.cells) as usize {
        write_part(alloc, bank, number, &mut graph, out)?;
    }
    Ok(())
}

/// Returns the line with the number of nodes that are left out, or nothing for 0.
fn rest_text(alloc: Global, count: usize) -> Result<Vec<u8>, AllocError>
    ensures { IfOk result (λ text. text.items ≡ rest_line count) }
{
    let mut text = Vec::new(alloc);
    if count > 0 {
        text.extend_from_slice(b"  rest [label=\"")?;
        push_number(&mut text, count)?;
        text.extend_from_slice(b" more\", style=dashed];\n")?;
    }
    Ok(text)
}

/// Writes the number of nodes that are left out, if there are some.
fn write_rest<W: Write>(
    alloc: Global,
    count: u32,
    out: &mut Output<'_, W>,
) -> Result<(), WriteFault>
    ensures written { OnOk result (Writes W.contents out.old out.new (rest_line count)) }
    ensures front { OnErr result (WritesFront W.contents out.old out.new (rest_line count)) }
    ensures reports { ReportsFault out.old out.new result }
{
    match rest_text(alloc, count as usize) {
        Ok(text) => Ok(out.put(&text)?),
        Err(_) => Err(WriteFault::Memory),
    }
}

/// Writes the shared graph of a term for Graphviz.
///
/// The graph has a node for each different part, in breadth-first order from the term. Each node is
/// followed by the edges to its own parts. If there are more parts than `extent.nodes`, the first
/// ones are written with the edges between them, and the number of the others. After a failure the
/// writer is not called again.
pub fn write_graph_to<B: TermBank, W: Write>(
    alloc: Global,
    bank: &B,
    t: Term,
    extent: Extent,
    out: &mut Output<'_, W>,
) -> Result<(), WriteFault>
    requires held { IsSome (tree_at (B.store bank.now) t) }
    requires counted { extent.cells ≡ part_count (held_tree (B.store bank.now) t) }
    ensures written { OnOk result (Writes W.contents out.old out.new
        (graph_text extent.nodes (held_tree (B.store bank.now) t))) }
    ensures front { OnErr result (WritesFront W.contents out.old out.new
        (graph_text extent.nodes (held_tree (B.store bank.now) t))) }
    ensures reports { ReportsFault out.old out.new result }
{
    out.put(HEADING)?;
    write_parts(alloc, bank, t, extent, out)?;
    write_rest(alloc, extent.cells.saturating_sub(extent.nodes), out)?;
    Ok(out.put(b"}\n")?)
}
