//! Prints the tree of a term over several lines.

ghost use Rattle.std.specs.Prelude.{◌≡◌, ◌≤◌, ◌+◌, [], IfOk, IfSome, IsOkUnless, IsSome, OnErr};
ghost use Rattle.std.specs.Prelude.{OnOk, is_some, length, replicate};
ghost use Rattle.std.specs.Fmt.{signed_decimal};
ghost use Rattle.std.specs.Io.KnownBytes.{Appends};
ghost use Rattle.rx_term.specs.Kinds.{HasAppl};
ghost use Rattle.rx_term.specs.Store.{tree_at};
ghost use Rattle.rx_text.specs.Canon.{canon};
ghost use Rattle.rx_text.specs.Inner.Jobs.{seen};
ghost use Rattle.rx_text.specs.Output.{ReportsFault, ReportsRefusal};
ghost use Rattle.rx_text.specs.Output.{Writes, WritesFront, contents_of};
ghost use Rattle.rx_text.specs.Written.{AppendsFront};
ghost use Rattle.rx_render.specs.Laid.{fits, laid, new_line};
ghost use Rattle.rx_render.specs.Layout.{
  IsAtom,
  IsBlank,
  IsJob,
  IsPiece,
  Leaves,
  Spreads,
  arguments_laid,
  arguments_size,
  atom_text,
  body_laid,
  body_size,
  job_text,
  piece_size,
  piece_text,
  room,
  spread_laid,
};

use crate::layout::{Atom, Indentation, Job, Layout, Marks, Piece};
use crate::naming::write_name;
use itoa::Buffer;
use rx_term::{Kind, Symbol, Term, TermBank};
use rx_text::{Output, RefusedWrite, WriteFault, write_within};
use std::alloc::{AllocError, Global};
use std::io::Write;

/// Writes a line feed and the blanks of a line.
fn write_break<W: Write>(blanks: &[u8], out: &mut Output<'_, W>) -> Result<(), RefusedWrite>
    requires blank { blanks.now ≡ replicate (length blanks.now) 32 }
    ensures written { OnOk result (Writes W.contents out.old out.new
        (new_line (length blanks.now))) }
    ensures front { OnErr result (WritesFront W.contents out.old out.new
        (new_line (length blanks.now))) }
    ensures reports { ReportsRefusal out.old out.new result }
{
    out.put(b"\n")?;
    out.put(blanks)
}

/// Writes an integer.
fn write_integer<W: Write>(value: i32, out: &mut Output<'_, W>) -> Result<(), RefusedWrite>
    ensures written { OnOk result (Writes W.contents out.old out.new (signed_decimal value)) }
    ensures front { OnErr result (WritesFront W.contents out.old out.new (signed_decimal value)) }
    ensures reports { ReportsRefusal out.old out.new result }
{
    let mut buffer = Buffer::new();
    out.put(buffer.format(value).as_bytes())
}

/// Writes an atom. `blanks` has the blanks of its line.
fn write_atom<B: TermBank, W: Write>(
    alloc: Global,
    bank: &B,
    atom: Atom,
    blanks: &[u8],
    out: &mut Output<'_, W>,
) -> Result<(), WriteFault>
    requires atom { IsAtom (B.store bank.now) atom }
    requires blank { blanks.now ≡ replicate (length blanks.now) 32 }
    ensures written { OnOk result (Writes W.contents out.old out.new
        (atom_text (B.store bank.now) (length blanks.now) atom)) }
    ensures front { OnErr result (WritesFront W.contents out.old out.new
        (atom_text (B.store bank.now) (length blanks.now) atom)) }
    ensures reports { ReportsFault out.old out.new result }
{
    match atom {
        Atom::Byte(byte) => Ok(out.put(&[byte])?),
        Atom::Integer(value) => Ok(write_integer(value, out)?),
        Atom::Name(symbol) => {
            write_name(alloc, bank.name_of(symbol), bank.quoted_of(symbol), out)
        }
        Atom::Break => Ok(write_break(blanks, out)?),
    }
}

/// Pushes the arguments of an application in parentheses, or the text for none.
fn spread_arguments<B: TermBank>(
    bank: &B,
    term: Term,
    symbol: Symbol,
    margin: usize,
    layout: &mut Layout,
) -> Result<(), WriteFault>
    requires job { HasAppl (B.store bank.now) term symbol }
    requires within { margin ≤ room layout.old }
    requires blank { IsBlank layout.old }
    ensures spread { OnOk result (Spreads (B.store bank.now)
        (seen [] (arguments_laid layout.old.indentation margin) (tree_at (B.store bank.now) term))
        (seen 1 arguments_size (tree_at (B.store bank.now) term)) layout.old layout.new) }
    ensures memory { IsOkUnless result WriteFault.Memory }
{
    let args = bank.args(term);
    if let Kind::Cons = bank.kind(args) {
        layout.enclose(Marks(b'(', b')'), Piece::Items(args), margin)
    } else if bank.name_of(symbol).is_empty() && !bank.quoted_of(symbol) {
        layout.leave(&[
            Job::atom(Atom::Byte(b')'), margin),
            Job::atom(Atom::Byte(b'('), margin),
        ])
    } else {
        layout.leave(&[])
    }
}

/// Pushes an application without its annotations.
fn spread_application<B: TermBank>(
    bank: &B,
    term: Term,
    symbol: Symbol,
    margin: usize,
    layout: &mut Layout,
) -> Result<(), WriteFault>
    requires job { HasAppl (B.store bank.now) term symbol }
    requires within { margin ≤ room layout.old }
    requires blank { IsBlank layout.old }
    ensures spread { OnOk result (Spreads (B.store bank.now)
        (seen [] (body_laid layout.old.indentation margin) (tree_at (B.store bank.now) term))
        (seen 1 body_size (tree_at (B.store bank.now) term)) layout.old layout.new) }
    ensures memory { IsOkUnless result WriteFault.Memory }
{
    spread_arguments(bank, term, symbol, margin, layout)?;
    layout.leave(&[Job::atom(Atom::Name(symbol), margin)])
}

/// Pushes a tree without its annotations.
fn spread_body<B: TermBank>(
    bank: &B,
    term: Term,
    margin: usize,
    layout: &mut Layout,
) -> Result<(), WriteFault>
    requires job { IsSome (tree_at (B.store bank.now) term) }
    requires within { margin ≤ room layout.old }
    requires blank { IsBlank layout.old }
    ensures spread { OnOk result (Spreads (B.store bank.now)
        (seen [] (body_laid layout.old.indentation margin) (tree_at (B.store bank.now) term))
        (seen 1 body_size (tree_at (B.store bank.now) term)) layout.old layout.new) }
    ensures memory { IsOkUnless result WriteFault.Memory }
{
    match bank.kind(term) {
        Kind::Int(value) => layout.leave(&[Job::atom(Atom::Integer(value), margin)]),
        Kind::Nil => layout.leave(&[
            Job::atom(Atom::Byte(b']'), margin),
            Job::atom(Atom::Byte(b'['), margin),
        ]),
        Kind::Cons => layout.enclose(Marks(b'[', b']'), Piece::Items(term), margin),
        Kind::Appl(symbol) => spread_application(bank, term, symbol, margin, layout),
        Kind::Hole => {
            let inner = bank.inner(term);
            layout.enclose(Marks(b'<', b'>'), Piece::Tree(inner), margin)
        }
    }
}

/// Pushes a tree, followed by its annotations. The tree is not printed on one line.
fn spread_tree<B: TermBank>(
    bank: &B,
    term: Term,
    margin: usize,
    layout: &mut Layout,
) -> Result<(), WriteFault>
    requires job { IsPiece (B.store bank.now) (Piece.Tree term) }
    requires within { margin ≤ room layout.old }
    requires blank { IsBlank layout.old }
    ensures spread { OnOk result (Spreads (B.store bank.now)
        (seen [] (spread_laid layout.old.indentation margin) (tree_at (B.store bank.now) term))
        (piece_size (B.store bank.now) (Piece.Tree term)) layout.old layout.new) }
    ensures memory { IsOkUnless result WriteFault.Memory }
{
    let piece = Piece::Notes(term);
    layout.leave(&[Job { piece, margin }])?;
    spread_body(bank, term, margin, layout)
}

/// Pushes the annotations of a tree in braces, if it has some.
fn spread_notes<B: TermBank>(
    bank: &B,
    term: Term,
    margin: usize,
    layout: &mut Layout,
) -> Result<(), WriteFault>
    requires job { IsPiece (B.store bank.now) (Piece.Notes term) }
    requires within { margin ≤ room layout.old }
    requires blank { IsBlank layout.old }
    ensures spread { OnOk result (Spreads (B.store bank.now)
        (piece_text (B.store bank.now) layout.old.indentation margin (Piece.Notes term))
        (piece_size (B.store bank.now) (Piece.Notes term)) layout.old layout.new) }
    ensures memory { IsOkUnless result WriteFault.Memory }
{
    match bank.anns(term) {
        Some(anns) => layout.enclose(Marks(b'{', b'}'), Piece::Items(anns), margin),
        None => layout.leave(&[]),
    }
}

/// Pushes the items of a list, separated by commas.
fn spread_items<B: TermBank>(
    bank: &B,
    list: Term,
    margin: usize,
    layout: &mut Layout,
) -> Result<(), WriteFault>
    requires job { IsPiece (B.store bank.now) (Piece.Items list) }
    requires within { margin ≤ room layout.old }
    requires blank { IsBlank layout.old }
    ensures spread { OnOk result (Spreads (B.store bank.now)
        (piece_text (B.store bank.now) layout.old.indentation margin (Piece.Items list))
        (piece_size (B.store bank.now) (Piece.Items list)) layout.old layout.new) }
    ensures memory { IsOkUnless result WriteFault.Memory }
{
    if let Kind::Cons = bank.kind(list) {
        let first = Piece::Tree(bank.head(list));
        let others = Piece::Others(bank.tail(list));
        layout.leave(&[
            Job {
                piece: others,
                margin,
            },
            Job {
                piece: first,
                margin,
            },
        ])
    } else {
        layout.leave(&[])
    }
}

/// Pushes the items of a list, each after a comma on a line of its own.
fn spread_others<B: TermBank>(
    bank: &B,
    list: Term,
    margin: usize,
    layout: &mut Layout,
) -> Result<(), WriteFault>
    requires job { IsPiece (B.store bank.now) (Piece.Others list) }
    requires within { margin ≤ room layout.old }
    requires blank { IsBlank layout.old }
    ensures spread { OnOk result (Spreads (B.store bank.now)
        (piece_text (B.store bank.now) layout.old.indentation margin (Piece.Others list))
        (piece_size (B.store bank.now) (Piece.Others list)) layout.old layout.new) }
    ensures memory { IsOkUnless result WriteFault.Memory }
{
    if let Kind::Cons = bank.kind(list) {
        let first = Piece::Tree(bank.head(list));
        let others = Piece::Others(bank.tail(list));
        layout.leave(&[
            Job {
                piece: others,
                margin,
            },
            Job {
                piece: first,
                margin,
            },
            Job::atom(Atom::Break, margin),
            Job::atom(Atom::Byte(b','), margin),
        ])
    } else {
        layout.leave(&[])
    }
}

/// Returns the printed text of a tree if it fits on a line that starts with `margin` blanks.
fn fitting_text<B: TermBank>(
    alloc: Global,
    bank: &B,
    term: Term,
    margin: usize,
    indentation: Indentation,
) -> Result<Option<Vec<u8>>, WriteFault>
    requires job { IsSome (tree_at (B.store bank.now) term) }
    ensures some { IfOk result (λ found. IfSome (tree_at (B.store bank.now) term)
        (λ u. is_some found ≡ fits indentation.width margin u)) }
    ensures whole { IfOk result (λ found. IfSome found
        (λ text. IfSome (tree_at (B.store bank.now) term) (λ u. text.items ≡ canon u))) }
    ensures memory { IsOkUnless result WriteFault.Memory }
{
    let Some(width) = indentation.width else {
        return Ok(None);
    };
    let Some(most) = (width as usize).checked_sub(margin) else {
        return Ok(None);
    };
    match write_within(alloc, bank, term, most) {
        Ok(found) => Ok(found),
        Err(AllocError) => Err(WriteFault::Memory),
    }
}

/// Writes the start of a job, and pushes the rest of it.
fn write_job<B: TermBank, W: Write>(
    alloc: Global,
    bank: &B,
    job: Job,
    layout: &mut Layout,
    out: &mut Output<'_, W>,
) -> Result<(), WriteFault>
    requires job { IsJob (B.store bank.now) (room layout.old) job }
    requires blank { IsBlank layout.old }
    ensures written { OnOk result (Leaves (B.store bank.now)
        (job_text (B.store bank.now) layout.old.indentation job)
        (piece_size (B.store bank.now) job.piece)
        (contents_of W.contents out.old) (contents_of W.contents out.new) layout.old layout.new) }
    ensures front { OnErr result (WritesFront W.contents out.old out.new
        (job_text (B.store bank.now) layout.old.indentation job)) }
    ensures reports { ReportsFault out.old out.new result }
{
    match job.piece {
        Piece::Atom(atom) => write_atom(alloc, bank, atom, &layout.blanks[..job.margin], out),
        Piece::Tree(term) => {
            match fitting_text(alloc, bank, term, job.margin, layout.indentation)? {
                Some(text) => Ok(out.put(&text)?),
                None => spread_tree(bank, term, job.margin, layout),
            }
        }
        Piece::Notes(term) => spread_notes(bank, term, job.margin, layout),
        Piece::Items(list) => spread_items(bank, list, job.margin, layout),
        Piece::Others(list) => spread_others(bank, list, job.margin, layout),
    }
}

/// Prints the tree of a term over several lines.
///
/// A line feed and `indentation.indent` blanks for each level follow each opening mark and each
/// comma, and precede each closing mark. An empty list and a name without arguments are printed as
/// usual. With a width, a term stays on one line if the blanks of the line and the printed text of
/// the term have at most `indentation.width` bytes; a comma after the term does not count.
/// `Memory` is returned if an allocation failed, `Write` if the writer failed; the output is then a
/// prefix of the text.
///
/// Time grows with the length of the text. With a width, each term that starts a line is first
/// printed into memory, but at most one byte beyond the width.
pub fn write_indented<B: TermBank, W: Write>(
    alloc: Global,
    bank: &B,
    t: Term,
    indentation: Indentation,
    out: &mut W,
) -> Result<(), WriteFault>
    requires { IsSome (tree_at (B.store bank.now) t) }
    ensures written { OnOk result (IfSome (tree_at (B.store bank.now) t)
        (λ u. Appends (W.contents out.old) (W.contents out.new) (laid indentation u))) }
    ensures front { OnErr result (IfSome (tree_at (B.store bank.now) t)
        (λ u. AppendsFront (laid indentation u) (W.contents out.old) (W.contents out.new))) }
{
    let mut output = Output::new(out);
    write_indented_to(alloc, bank, t, indentation, &mut output)
}

/// Prints the tree of a term over several lines, like [`write_indented`], to an output that may
/// have been written to before. After a failure the writer is not called again.
pub fn write_indented_to<B: TermBank, W: Write>(
    alloc: Global,
    bank: &B,
    t: Term,
    indentation: Indentation,
    out: &mut Output<'_, W>,
) -> Result<(), WriteFault>
    requires held { IsSome (tree_at (B.store bank.now) t) }
    ensures written { OnOk result (IfSome (tree_at (B.store bank.now) t)
        (λ u. Writes W.contents out.old out.new (laid indentation u))) }
    ensures front { OnErr result (IfSome (tree_at (B.store bank.now) t)
        (λ u. WritesFront W.contents out.old out.new (laid indentation u))) }
    ensures reports { ReportsFault out.old out.new result }
{
    let mut layout = Layout::new(alloc, indentation);
    let piece = Piece::Tree(t);
    layout.leave(&[Job { piece, margin: 0 }])?;
    while let Some(job) = layout.jobs.pop() {
        write_job(alloc, bank, job, &mut layout, out)?;
    }
    Ok(())
}
