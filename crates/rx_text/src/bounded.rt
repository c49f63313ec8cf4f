//! Prints a limited number of bytes of a text.

ghost use Rattle.std.specs.Prelude.{◌≡◌, ◌≤◌, ◌<◌, IfOk, IfSome, IsSome, None, Some, length, take};
ghost use Rattle.rx_term.specs.Store.{tree_at};
ghost use Rattle.rx_text.specs.Canon.{canon};

use crate::writer::write;
use rx_term::{Term, TermBank};
use std::alloc::{AllocError, Global};
use std::io;
use std::io::Write;

/// A writer that accepts a limited number of bytes and then fails.
#[derive(Drop)]
struct Front {
    /// The accepted bytes.
    bytes: Vec<u8>,
    /// The greatest number of bytes that it accepts.
    most: usize,
}

impl Write for Front {
    ghost contents = { λ f. Some f.bytes.items };

    fn write(&mut self, buf: &[u8]) -> io::Result<usize> {
        let room = self.most.saturating_sub(self.bytes.len());
        let count = buf.len().min(room);
        self.bytes.extend_from_slice(&buf[..count])?;
        Ok(count)
    }

    fn flush(&mut self) -> io::Result<()> {
        Ok(())
    }
}

/// Returns the first `most` bytes of the printed form of a term, or all of it if it is shorter.
/// Time and memory are those of printing that number of bytes, however long the text is. The only
/// error is out of memory.
pub fn text_front<B: TermBank>(
    alloc: Global,
    bank: &B,
    t: Term,
    most: usize,
) -> Result<Vec<u8>, AllocError>
    requires { IsSome (tree_at (B.store bank.now) t) }
    ensures { IfOk result (λ text. IfSome (tree_at (B.store bank.now) t)
        (λ u. text.items ≡ take most (canon u))) }
{
    let mut front = Front {
        bytes: Vec::new(alloc),
        most,
    };
    let written = write(alloc, bank, t, &mut front);
    let Front { mut bytes, most: _ } = front;
    if written.is_err() && bytes.len() < most {
        return Err(AllocError);
    }
    bytes.truncate(most);
    Ok(bytes)
}

/// Returns the printed form of a term if it has at most `most` bytes, otherwise `None`. At most
/// `most` + 1 bytes are printed. The only error is out of memory.
pub fn write_within<B: TermBank>(
    alloc: Global,
    bank: &B,
    t: Term,
    most: usize,
) -> Result<Option<Vec<u8>>, AllocError>
    requires { IsSome (tree_at (B.store bank.now) t) }
    ensures whole { IfOk result (λ found. IfSome found
        (λ text. IfSome (tree_at (B.store bank.now) t) (λ u. text.items ≡ canon u))) }
    ensures within { IfOk result (λ found. IfSome found (λ text. length text.items ≤ most)) }
    ensures longer { IfOk result (λ found. found ≡ None
        → IfSome (tree_at (B.store bank.now) t) (λ u. most < length (canon u))) }
{
    let text = text_front(alloc, bank, t, most.saturating_add(1))?;
    if text.len() > most {
        return Ok(None);
    }
    Ok(Some(text))
}
