//! The lines of a trace.

ghost use Rattle.std.specs.Prelude.{◌≡◌, ◌≤◌, ◌<◌, ◌^◌, ◌++◌, ◌-◌, ℕ, suc, length, take, codes};
ghost use Rattle.std.specs.Prelude.{decimal};
ghost use Rattle.std.specs.Prelude.{Some, IsSome, IfOk};
ghost use Rattle.rx_term.specs.Tree.{Tree};
ghost use Rattle.rx_term.specs.Store.{tree_at};
ghost use Rattle.rx_text.specs.Canon.{canon};
ghost use Rattle.rec_trace.specs.Lines.{ends_in, behind_end, cut, place_text, spent_text};
ghost use Rattle.rec_trace.specs.Lines.{firing_text, whole_text};

use crate::tracer::Rewrite;
use itoa::Buffer;
use rx_term::{Term, TermBank};
use rx_text::{WriteFault, text_front, write, write_within};
use std::alloc::{AllocError, Global};

/// A location in a text: a line and a column, each from 1.
#[derive(Clone, Copy, Drop)]
pub struct Spot {
    /// The line, from 1.
    pub line: u64,
    /// The column in bytes, from 1.
    pub column: u64,
}

/// Returns the location of the byte at offset `at`.
pub fn spot_of(source: &[u8], at: usize) -> Spot
    requires within { at ≤ length source.now }
    requires short { length source.now < 2 ^ 63 }
    ensures line { result.line ≡ suc (ends_in (take at source.now)) }
    ensures column { result.column ≡ suc (behind_end 0 (take at source.now)) }
{
    let mut line = 1;
    let mut column = 1;
    let front = &source[..at];
    for byte in front {
        if *byte == b'\n' {
            line += 1;
            column = 1;
        } else {
            column += 1;
        }
    }
    Spot { line, column }
}

/// The form of the lines of a trace.
#[derive(Clone, Copy, Drop)]
pub struct Look {
    /// Whether the number of steps spent so far follows each line.
    pub counted: bool,
    /// The largest length of a term in bytes; a longer term ends in three dots.
    pub width: Option<usize>,
}

/// The parts of a line before and after its terms, and its form.
#[derive(Clone, Copy, Drop)]
pub struct Margins {
    /// The location of the rule.
    pub spot: Spot,
    /// The number of steps spent so far.
    pub spent: u64,
    /// The form of the line.
    pub look: Look,
}

/// Appends bytes to a line.
fn add(line: &mut Vec<u8>, bytes: &[u8]) -> Result<(), WriteFault>
    ensures { IfOk result (λ u. line.new.items ≡ line.old.items ++ bytes.now) }
{
    match line.extend_from_slice(bytes) {
        Ok(()) => Ok(()),
        Err(_) => Err(WriteFault::Memory),
    }
}

/// Appends a decimal number to a line.
fn add_number(line: &mut Vec<u8>, n: u64) -> Result<(), WriteFault>
    ensures { IfOk result (λ u. line.new.items ≡ line.old.items ++ decimal n) }
{
    add(line, Buffer::new().format(n).as_bytes())
}

/// Appends a location to a line: the line and the column, each followed by a `:`, and a space.
fn add_spot(line: &mut Vec<u8>, spot: Spot) -> Result<(), WriteFault>
    ensures { IfOk result
        (λ u. line.new.items ≡ line.old.items ++ place_text spot.line spot.column) }
{
    add_number(line, spot.line)?;
    add(line, b":")?;
    add_number(line, spot.column)?;
    add(line, b": ")
}

/// Appends a tab and the number of steps spent to a line, if `counted`.
fn add_spent(line: &mut Vec<u8>, counted: bool, spent: u64) -> Result<(), WriteFault>
    ensures { IfOk result (λ u. line.new.items ≡ line.old.items ++ spent_text counted spent) }
{
    if !counted {
        return Ok(());
    }
    add(line, b"\t")?;
    add_number(line, spent)
}

/// Returns the first `width - 3` bytes of the text of a term, followed by three dots.
fn shortened<B: TermBank>(
    alloc: Global,
    bank: &B,
    t: Term,
    width: usize,
) -> Result<Vec<u8>, WriteFault>
    requires { IsSome (tree_at (B.store bank.now) t) }
    ensures { IfOk result (λ text. (u : Tree) → tree_at (B.store bank.now) t ≡ Some u
        → text.items ≡ take (width - 3) (canon u) ++ codes "...") }
{
    match text_front(alloc, bank, t, width.saturating_sub(3)) {
        Ok(mut text) => {
            add(&mut text, b"...")?;
            Ok(text)
        }
        Err(AllocError) => Err(WriteFault::Memory),
    }
}

/// Returns the text of a term, cut to `width` bytes if a width is given. No more than that is
/// printed.
fn cut_text<B: TermBank>(
    alloc: Global,
    bank: &B,
    t: Term,
    width: Option<usize>,
) -> Result<Vec<u8>, WriteFault>
    requires { IsSome (tree_at (B.store bank.now) t) }
    ensures { IfOk result (λ text. (u : Tree) → tree_at (B.store bank.now) t ≡ Some u
        → text.items ≡ cut width (canon u)) }
{
    let Some(width) = width else {
        let mut text = Vec::new(alloc);
        write(alloc, bank, t, &mut text)?;
        return Ok(text);
    };
    match write_within(alloc, bank, t, width) {
        Ok(Some(text)) => Ok(text),
        Ok(None) => shortened(alloc, bank, t, width),
        Err(AllocError) => Err(WriteFault::Memory),
    }
}

/// Appends the text of a term to a line, cut to `width` bytes if a width is given.
fn add_term<B: TermBank>(
    alloc: Global,
    bank: &B,
    t: Term,
    width: Option<usize>,
    line: &mut Vec<u8>,
) -> Result<(), WriteFault>
    requires { IsSome (tree_at (B.store bank.now) t) }
    ensures { IfOk result (λ o. (u : Tree) → tree_at (B.store bank.now) t ≡ Some u
        → line.new.items ≡ line.old.items ++ cut width (canon u)) }
{
    let text = cut_text(alloc, bank, t, width)?;
    add(line, &text)
}

/// Returns the line of a rewrite: location, redex, ` -> `, contractum. The only error is out of
/// memory.
pub fn firing_line<B: TermBank>(
    alloc: Global,
    bank: &B,
    rewrite: Rewrite,
    margins: Margins,
) -> Result<Vec<u8>, WriteFault>
    requires redex { IsSome (tree_at (B.store bank.now) rewrite.redex) }
    requires contractum { IsSome (tree_at (B.store bank.now) rewrite.contractum) }
    ensures { IfOk result (λ line. (u v : Tree) → tree_at (B.store bank.now) rewrite.redex ≡ Some u
        → tree_at (B.store bank.now) rewrite.contractum ≡ Some v
        → line.items ≡ firing_text margins.spot.line margins.spot.column margins.look.counted
        margins.look.width margins.spent u v) }
{
    let Margins { spot, spent, look } = margins;
    let mut line = Vec::new(alloc);
    add_spot(&mut line, spot)?;
    add_term(alloc, bank, rewrite.redex, look.width, &mut line)?;
    add(&mut line, b" -> ")?;
    add_term(alloc, bank, rewrite.contractum, look.width, &mut line)?;
    add_spent(&mut line, look.counted, spent)?;
    add(&mut line, b"\n")?;
    Ok(line)
}

/// Returns the line of a whole term: location, term. The only error is out of memory.
pub fn whole_line<B: TermBank>(
    alloc: Global,
    bank: &B,
    whole: Term,
    margins: Margins,
) -> Result<Vec<u8>, WriteFault>
    requires { IsSome (tree_at (B.store bank.now) whole) }
    ensures { IfOk result (λ line. (u : Tree) → tree_at (B.store bank.now) whole ≡ Some u
        → line.items ≡ whole_text margins.spot.line margins.spot.column margins.look.counted
        margins.look.width margins.spent u) }
{
    let Margins { spot, spent, look } = margins;
    let mut line = Vec::new(alloc);
    add_spot(&mut line, spot)?;
    add_term(alloc, bank, whole, look.width, &mut line)?;
    add_spent(&mut line, look.counted, spent)?;
    add(&mut line, b"\n")?;
    Ok(line)
}
