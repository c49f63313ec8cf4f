//! A writer that is not used again after it has failed.

ghost use Rattle.std.specs.Prelude.{◌≡◌, ◌<◌, ◌≤◌, IfOk, IsErr, OnErr, OnOk, length};
ghost use Rattle.std.specs.Io.KnownBytes.{Keeps, WriteAppends};
ghost use Rattle.rx_text.specs.Output.{contents_of, HasRefusedWrite, IsWritable, ReportsRefusal};
ghost use Rattle.rx_text.specs.Output.{Writes, WritesFront};

use crate::faults::RefusedWrite;
use std::io::Write;

/// A writer, and whether it has failed: returned an error, or accepted no byte of a text that was
/// not empty. After a failure the writer is not called again, and each call returns the error at
/// once.
pub struct Output<'a, W> {
    writer: &'a mut W,
    refused: bool,
}

impl<W> Drop for Output<'_, W> {
    fn drop(self)
        ensures { self.exit.0.now ≡ self.entry.writer.now }
    {
        let Output {
            writer: _,
            refused: _,
        } = self;
    }
}

impl<'a, W: Write> Output<'a, W> {
    /// Wraps a writer that has not failed.
    pub fn new(writer: &'a mut W) -> Output<'a, W>
        ensures same { result.writer.ghost_name ≡ writer.entry.ghost_name }
        ensures contents { contents_of W.contents result ≡ W.contents writer.old }
        ensures open { IsWritable result }
    {
        Output {
            writer,
            refused: false,
        }
    }

    /// Calls the writer once. Returns the number of bytes that it accepted, at least one. Each
    /// error is final, including an interruption.
    fn write(&mut self, text: &[u8]) -> Result<usize, RefusedWrite>
        requires open { IsWritable self.old }
        requires some { 0 < length text.now }
        ensures some { IfOk result (λ count. 0 < count) }
        ensures within { IfOk result (λ count. count ≤ length text.now) }
        ensures bytes { WriteAppends (contents_of W.contents self.old)
            (contents_of W.contents self.new) result text.now }
        ensures reports { ReportsRefusal self.old self.new result }
    {
        match self.writer.write(text) {
            Ok(count) if count > 0 => Ok(count),
            _ => {
                self.refused = true;
                Err(RefusedWrite)
            }
        }
    }

    /// Writes a whole text, with several calls of the writer if it needs them.
    pub fn put(&mut self, text: &[u8]) -> Result<(), RefusedWrite>
        ensures written { OnOk result (Writes W.contents self.old self.new text.now) }
        ensures front { OnErr result (WritesFront W.contents self.old self.new text.now) }
        ensures reports { ReportsRefusal self.old self.new result }
        ensures sticky { HasRefusedWrite self.old → IsErr result × (self.new ≡ self.old) }
    {
        if self.refused {
            return Err(RefusedWrite);
        }
        let mut at = 0;
        while at < text.len() {
            let count = self.write(&text[at..])?;
            at += count;
        }
        Ok(())
    }

    /// Flushes the writer. Each error is final.
    pub fn flush(&mut self) -> Result<(), RefusedWrite>
        ensures kept { Keeps (contents_of W.contents self.old) (contents_of W.contents self.new) }
        ensures reports { ReportsRefusal self.old self.new result }
        ensures sticky { HasRefusedWrite self.old → IsErr result × (self.new ≡ self.old) }
    {
        if !self.refused && self.writer.flush().is_ok() {
            return Ok(());
        }
        self.refused = true;
        Err(RefusedWrite)
    }
}
