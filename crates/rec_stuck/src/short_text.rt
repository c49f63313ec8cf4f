//! The text of a term without its annotations, cut to a width.

ghost use Rattle.std.specs.Prelude.{◌≡◌, IfOk, IsSome, OnOk, Some};
ghost use Rattle.rx_term.specs.Store.{tree_at};
ghost use Rattle.rx_term.specs.Walks.{held_tree};
ghost use Rattle.rx_text.specs.Canon.{canon};
ghost use Rattle.rec_trace.specs.Lines.{cut};
ghost use Rattle.rec_stuck.specs.Inner.Calls.{Begins};
ghost use Rattle.rec_stuck.specs.Stuck.{bare_of};

use rec_run::write_notes;
use rx_term::{Term, TermBank};
use rx_text::write;
use std::alloc::{AllocError, Global};
use std::io;
use std::io::Write;

/// The largest length of a term in bytes; a longer text ends in `...`.
const WIDTH: usize = 60;

/// A writer that accepts one byte more than the largest length, and no byte after that.
#[derive(Drop)]
pub(crate) struct Front {
    /// The bytes that it accepted.
    bytes: Vec<u8>,
}

impl Write for Front {
    ghost contents = { λ f. Some f.bytes.items };

    fn write(&mut self, buf: &[u8]) -> io::Result<usize> {
        let room = (WIDTH + 1).saturating_sub(self.bytes.len());
        let count = buf.len().min(room);
        self.bytes.extend_from_slice(&buf[..count])?;
        Ok(count)
    }

    fn flush(&mut self) -> io::Result<()> {
        Ok(())
    }
}

/// Cuts a text of more than the largest length, which then ends in three dots.
fn cut_long(text: &mut Vec<u8>) -> Result<(), AllocError>
    ensures { OnOk result (text.new.items ≡ cut (Some 60) text.old.items) }
{
    if text.len() <= WIDTH {
        return Ok(());
    }
    text.truncate(WIDTH - 3);
    text.extend_from_slice(b"...")
}

/// Returns the beginning of the text of a term: all of it, or one byte more than the largest
/// length.
fn beginning<B: TermBank>(alloc: Global, bank: &B, t: Term) -> Result<Vec<u8>, AllocError>
    requires { IsSome (tree_at (B.store bank.now) t) }
    ensures { IfOk result (λ text. Begins (held_tree (B.store bank.now) t) text.items) }
{
    let mut front = Front {
        bytes: Vec::new(alloc),
    };
    let written = write(alloc, bank, t, &mut front);
    let Front { bytes } = front;
    if bytes.len() > WIDTH || written.is_ok() {
        Ok(bytes)
    } else {
        Err(AllocError)
    }
}

/// Returns the text of a term without its annotations.
fn text_without_notes<B: TermBank>(alloc: Global, bank: &B, t: Term) -> Result<Vec<u8>, AllocError>
    requires { IsSome (tree_at (B.store bank.now) t) }
    ensures { IfOk result
        (λ text. text.items ≡ canon (bare_of (held_tree (B.store bank.now) t))) }
{
    let mut text = Vec::new(alloc);
    let mut notes = Vec::new(alloc);
    match write(alloc, bank, t, &mut text) {
        Ok(()) => {}
        Err(_) => return Err(AllocError),
    }
    match write_notes(alloc, bank, t, &mut notes) {
        Ok(()) => {}
        Err(_) => return Err(AllocError),
    }
    text.truncate(text.len().saturating_sub(notes.len()));
    Ok(text)
}

/// Returns the beginning of the text of a term without its annotations, or all of it.
fn bare_beginning<B: TermBank>(alloc: Global, bank: &B, t: Term) -> Result<Vec<u8>, AllocError>
    requires { IsSome (tree_at (B.store bank.now) t) }
    ensures { IfOk result (λ text. Begins (bare_of (held_tree (B.store bank.now) t)) text.items) }
{
    match bank.anns(t) {
        None => beginning(alloc, bank, t),
        Some(_) => text_without_notes(alloc, bank, t),
    }
}

/// Returns the text of a term without its annotations, cut to the largest length.
pub(crate) fn short_text<B: TermBank>(
    alloc: Global,
    bank: &B,
    t: Term,
) -> Result<Vec<u8>, AllocError>
    requires { IsSome (tree_at (B.store bank.now) t) }
    ensures { IfOk result (λ text. text.items
        ≡ cut (Some 60) (canon (bare_of (held_tree (B.store bank.now) t)))) }
{
    let mut text = bare_beginning(alloc, bank, t)?;
    cut_long(&mut text)?;
    Ok(text)
}
