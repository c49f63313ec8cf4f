//! The lines that a run writes for its term.

ghost use Rattle.std.specs.Prelude.{◌≡◌, Bool, List, ℕ, true, IfErr, IfSome, IsSome, OnErr, OnOk};
ghost use Rattle.rx_term.specs.Parts.{part_count};
ghost use Rattle.rx_term.specs.Store.{tree_at};
ghost use Rattle.rx_term.specs.Tree.{Tree};
ghost use Rattle.rx_text.specs.Output.{ReportsRefusal, Writes};
ghost use Rattle.rx_text.specs.Output.{WritesFront, contents_of};
ghost use Rattle.rx_run.specs.Run.{StopsBy, StopsWriting};
ghost use Rattle.rx_run.specs.Streams.{ReportsWrite};
ghost use Rattle.rx_run.specs.TermRuns.{
  IsUnrooted,
  cells_line,
  lines_at,
  lines_for,
  reclaims_others,
  table_line,
  within_line,
};
ghost use Rattle.rx_run.specs.Inner.TermReadings.{WritesLines, counted_lines, line_of};

use crate::ending::RunFault;
use crate::writing::{put_numbered_to, write_line_to};
use rx_table::write_table_to;
use rx_term::{Term, TermBank};
use rx_text::{Output, RefusedWrite, write_within};
use std::alloc::Global;
use std::io::Write;

/// The lines that a run writes for the term that it reads.
pub trait TermOutput {
    /// The lines for a tree.
    ghost lines: { Self → Tree → List ℕ };

    /// Whether an error counts the complete lines. If not, it reports 0.
    ghost counts_lines: { Self → Bool };

    /// Whether garbage collection frees everything except the term.
    ghost reclaims: { Self → Bool };

    /// Writes the lines for a term. The output is not used again after a failed write.
    fn write_lines<B: TermBank, W: Write>(
        &self,
        alloc: Global,
        bank: &mut B,
        t: Term,
        out: &mut Output<'_, W>,
    ) -> Result<(), RunFault>
        requires held { IsSome (tree_at (B.store bank.old) t) }
        requires unrooted { IsUnrooted (reclaims self.now) (B.store bank.old) }
        ensures ok { OnOk result (Writes W.contents out.old out.new
            (lines_at (lines self.now) (B.store bank.old) t)) }
        ensures err { IfErr result (λ fault. StopsBy (counts_lines self.now) fault
            (lines_at (lines self.now) (B.store bank.old) t)
            (contents_of W.contents out.old) (contents_of W.contents out.new)) }
        ensures writing { IfErr result StopsWriting }
        ensures cap { (B.store bank.new).cap ≡ (B.store bank.old).cap }
        ensures reports { ReportsWrite out.old out.new result };
}

/// The standard forms of output. Each line has a line end.
#[derive(Clone, Copy, Debug, Drop, PartialEq, Eq)]
pub enum TermLines {
    /// The printed form of the term.
    Text,
    /// The printed form of the term, or `!bytes` and this number if it has more bytes.
    Within(u64),
    /// The printed form of the term's table.
    Table,
    /// The printed form of the term, and the number of its cells. Everything else in the store is
    /// freed.
    TextAndCells,
    /// The printed form of the term's table, and the number of the term's cells. Everything else in
    /// the store is freed.
    TableAndCells,
}

/// A line of any length that is written for a term.
#[derive(Clone, Copy)]
enum Line {
    /// Its printed form.
    Text,
    /// The printed form of its table.
    Table,
}

impl TermOutput for TermLines {
    ghost lines = { lines_for };

    ghost counts_lines = { λ it. true };

    ghost reclaims = { reclaims_others };

    fn write_lines<B: TermBank, W: Write>(
        &self,
        alloc: Global,
        bank: &mut B,
        t: Term,
        out: &mut Output<'_, W>,
    ) -> Result<(), RunFault> {
        match *self {
            TermLines::Text => write_one(alloc, bank, t, Line::Text, out),
            TermLines::Within(most) => write_bounded(alloc, bank, t, most, out),
            TermLines::Table => write_one(alloc, bank, t, Line::Table, out),
            TermLines::TextAndCells => write_counted(alloc, bank, t, Line::Text, out),
            TermLines::TableAndCells => write_counted(alloc, bank, t, Line::Table, out),
        }
    }
}

/// Writes this line of a term.
fn write_one<B: TermBank, W: Write>(
    alloc: Global,
    bank: &B,
    t: Term,
    line: Line,
    out: &mut Output<'_, W>,
) -> Result<(), RunFault>
    requires { IsSome (tree_at (B.store bank.now) t) }
    ensures { WritesLines W.contents (lines_at (line_of line) (B.store bank.now) t) out.old out.new
        result }
{
    match line {
        Line::Text => write_line_to(alloc, bank, t, 0, out),
        Line::Table => write_table_line(alloc, bank, t, out),
    }
}

/// Writes the printed form of the table of a term and a line end.
fn write_table_line<B: TermBank, W: Write>(
    alloc: Global,
    bank: &B,
    t: Term,
    out: &mut Output<'_, W>,
) -> Result<(), RunFault>
    requires { IsSome (tree_at (B.store bank.now) t) }
    ensures { WritesLines W.contents (lines_at table_line (B.store bank.now) t) out.old out.new
        result }
{
    write_table_to(alloc, bank, t, out)?;
    out.put(b"\n")?;
    Ok(())
}

/// Writes the printed form of a term if it has at most `most` bytes, otherwise `!bytes` and this
/// number; and a line end.
fn write_bounded<B: TermBank, W: Write>(
    alloc: Global,
    bank: &B,
    t: Term,
    most: u64,
    out: &mut Output<'_, W>,
) -> Result<(), RunFault>
    requires { IsSome (tree_at (B.store bank.now) t) }
    ensures { WritesLines W.contents (lines_at (within_line most) (B.store bank.now) t) out.old
        out.new result }
{
    match write_within(alloc, bank, t, most as usize)? {
        Some(text) => out.put(&text)?,
        None => put_numbered_to(out, b"!bytes ", most)?,
    }
    out.put(b"\n")?;
    Ok(())
}

/// Frees everything except a term, and writes a line of it and the number of its cells.
fn write_counted<B: TermBank, W: Write>(
    alloc: Global,
    bank: &mut B,
    t: Term,
    line: Line,
    out: &mut Output<'_, W>,
) -> Result<(), RunFault>
    requires held { IsSome (tree_at (B.store bank.old) t) }
    requires unrooted { (r : ℕ) → (B.store bank.old).roots r ≡ 0 }
    ensures writes { WritesLines W.contents
        (lines_at (counted_lines (line_of line)) (B.store bank.old) t) out.old out.new result }
    ensures cap { (B.store bank.new).cap ≡ (B.store bank.old).cap }
{
    let cells = keep_alone(bank, t);
    write_one(alloc, bank, t, line, out)?;
    write_cells(cells, out)?;
    Ok(())
}

/// Frees everything except a term, and returns the number of its cells.
pub fn keep_alone<B: TermBank>(bank: &mut B, t: Term) -> u32
    requires held { IsSome (tree_at (B.store bank.old) t) }
    requires unrooted { (r : ℕ) → (B.store bank.old).roots r ≡ 0 }
    ensures kept { tree_at (B.store bank.new) t ≡ tree_at (B.store bank.old) t }
    ensures counted { IfSome (tree_at (B.store bank.old) t) (λ u. result ≡ part_count u) }
    ensures cap { (B.store bank.new).cap ≡ (B.store bank.old).cap }
{
    bank.reclaim(&[t]);
    bank.cells()
}

/// Writes the line `cells N`.
fn write_cells<W: Write>(cells: u32, out: &mut Output<'_, W>) -> Result<(), RefusedWrite>
    ensures ok { OnOk result
        (Writes W.contents out.old out.new (cells_line cells)) }
    ensures err { OnErr result
        (WritesFront W.contents out.old out.new (cells_line cells)) }
    ensures reports { ReportsRefusal out.old out.new result }
{
    put_numbered_to(out, b"cells ", u64::from(cells))?;
    out.put(b"\n")?;
    Ok(())
}
