//! Bytes that were read and do not belong to a request yet.

ghost use Rattle.std.specs.Prelude.{◌≡◌, ◌≤◌, ◌<◌, ◌==◌, position, vec_len};

use crate::ending::ServeFault;
use crate::request::Request;
use rx_text::{Input, Output, RefusedRead};
use std::alloc::{AllocError, Global};
use std::io::{Read, Write};

/// The largest number of bytes that are read at once.
const AT_ONCE: usize = 65_536;

/// Bytes that were read and do not belong to a request yet.
#[derive(Drop)]
pub(crate) struct ReadAhead {
    /// The last bytes that were read, followed by unused space.
    buffer: Vec<u8>,
    /// The offset of the first byte that does not belong to a request yet.
    at: usize,
    /// The offset after the last one.
    end: usize,
    ghost ordered: { at ≤ end },
    ghost within: { end ≤ vec_len buffer },
    ghost some: { 0 < vec_len buffer },
}

impl ReadAhead {
    ghost use Rattle.std.specs.Prelude.{◌↔◌, ◌++◌, [], List, ℕ, IfOk, IsTrue, Ok, drop, false};
    ghost use Rattle.std.specs.Prelude.{MatchResult, length, true};
    ghost use Rattle.std.specs.Io.KnownBytes.{IsAtEnd, Keeps};
    ghost use Rattle.rx_text.specs.Input.{HasRefusedRead, IsSameInput, ReportsRefusedRead};
    ghost use Rattle.rx_text.specs.Input.{remaining_in};
    ghost use Rattle.rx_text.specs.Output.{contents_of};
    ghost use Rattle.rec_serve.specs.Inner.Causes.{OnRead, ReportsServeWrite};
    ghost use Rattle.rec_serve.specs.Inner.Reading.{IsRead, Takes, left_of, unread};

    /// Makes a buffer from which nothing is left to take.
    pub(crate) fn new(alloc: Global) -> Result<ReadAhead, AllocError>
        ensures { IfOk result (λ a. unread a ≡ []) }
    {
        Ok(ReadAhead {
            buffer: vec![in alloc; 0u8; AT_ONCE]?,
            at: 0,
            end: 0,
        })
    }

    /// Returns whether all bytes that were read belong to a request.
    fn is_empty(&self) -> bool
        ensures { IsTrue result ↔ (unread self.now ≡ []) }
    {
        self.at == self.end
    }

    /// Returns the bytes that do not belong to a request yet.
    fn rest(&self) -> &[u8]
        ensures { result.now ≡ unread self.now }
    {
        &self.buffer[self.at..self.end]
    }

    /// Skips the next `count` bytes.
    fn skip(&mut self, count: usize)
        requires { count ≤ length (unread self.old) }
        ensures { unread self.new ≡ drop count (unread self.old) }
    {
        self.at += count;
    }

    /// Reads once into an empty buffer, and returns whether the reader returned any bytes.
    fn fill<R: Read>(&mut self, reader: &mut Input<'_, R>) -> Result<bool, RefusedRead>
        requires empty { unread self.old ≡ [] }
        ensures left { Keeps (remaining_in R.remaining reader.old)
            (left_of self.new (remaining_in R.remaining reader.new)) }
        ensures some { result ≡ Ok true → 0 < length (unread self.new) }
        ensures none { result ≡ Ok false → unread self.new ≡ [] }
        ensures end { result ≡ Ok false → IsAtEnd (remaining_in R.remaining reader.new) }
        ensures reports { ReportsRefusedRead reader.old reader.new result }
    {
        self.at = 0;
        self.end = 0;
        let count = reader.read(&mut self.buffer)?;
        self.end = count;
        Ok(count > 0)
    }

    /// Reads if the buffer is empty, and returns whether it has bytes then. All output is flushed
    /// before a read.
    pub(crate) fn refill<R: Read, W: Write>(
        &mut self,
        reader: &mut Input<'_, R>,
        out: &mut Output<'_, W>,
    ) -> Result<bool, ServeFault>
        ensures left { Keeps (left_of self.old (remaining_in R.remaining reader.old))
            (left_of self.new (remaining_in R.remaining reader.new)) }
        ensures some { result ≡ Ok true → 0 < length (unread self.new) }
        ensures none { result ≡ Ok false → unread self.new ≡ [] }
        ensures end { result ≡ Ok false → IsAtEnd (remaining_in R.remaining reader.new) }
        ensures kept { Keeps (contents_of W.contents out.old) (contents_of W.contents out.new) }
        ensures read_reports { IsSameInput reader.old reader.new
            × MatchResult result (λ _. reader.new.refused ≡ reader.old.refused)
            (OnRead (HasRefusedRead reader.new)) }
        ensures write_reports { ReportsServeWrite out.old out.new result }
    {
        if !self.is_empty() {
            return Ok(true);
        }
        out.flush()?;
        Ok(self.fill(reader)?)
    }

    /// Moves the bytes before the first line end, or all bytes, to a request, and returns whether
    /// there was a line end, which is skipped.
    pub(crate) fn take_piece(&mut self, request: &mut Request) -> bool
        ensures { (piece : List ℕ) × Takes self.old self.new result piece
            × ((line : List ℕ) → IsRead request.old line → IsRead request.new (line ++ piece)) }
    {
        match line_end(self.rest()) {
            Some(count) => {
                request.keep(&self.rest()[..count]);
                self.skip(count + 1);
                true
            }
            None => {
                request.keep(self.rest());
                self.skip(self.end - self.at);
                false
            }
        }
    }
}

/// Returns the number of bytes before the first line end, if there is one.
fn line_end(bytes: &[u8]) -> Option<usize>
    ensures { result ≡ position (λ b. b == 10) bytes.now }
{
    bytes.iter().position(|byte| *byte == b'\n')
}
