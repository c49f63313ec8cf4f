//! A reader that is not used again after it has failed.

ghost use Rattle.std.specs.Prelude.{◌≡◌, IsErr};
ghost use Rattle.std.specs.Io.{ReadsAtMost};
ghost use Rattle.std.specs.Io.KnownBytes.{ReadConsumes};
ghost use Rattle.rx_text.specs.Input.{remaining_in, HasRefusedRead, IsReadable, ReportsRefusedRead};

use crate::faults::RefusedRead;
use std::io::Read;

/// A reader, and whether it has failed, that is, returned an error. After a failure the reader is
/// not called again, and each read returns the error at once.
pub struct Input<'a, R> {
    reader: &'a mut R,
    refused: bool,
}

impl<R> Drop for Input<'_, R> {
    fn drop(self)
        ensures { self.exit.0.now ≡ self.entry.reader.now }
    {
        let Input {
            reader: _,
            refused: _,
        } = self;
    }
}

impl<'a, R: Read> Input<'a, R> {
    /// Wraps a reader that has not failed.
    pub fn new(reader: &'a mut R) -> Input<'a, R>
        ensures same { result.reader.ghost_name ≡ reader.entry.ghost_name }
        ensures now { result.reader.now ≡ reader.old }
        ensures remaining { remaining_in R.remaining result ≡ R.remaining reader.old }
        ensures open { IsReadable result }
    {
        Input {
            reader,
            refused: false,
        }
    }

    /// Calls the reader once. Returns the number of bytes that it stored at the start of the
    /// buffer. Each error is final, including an interruption.
    pub fn read(&mut self, buffer: &mut [u8]) -> Result<usize, RefusedRead>
        ensures bound { ReadsAtMost result buffer.new }
        ensures bytes { ReadConsumes (remaining_in R.remaining self.old)
            (remaining_in R.remaining self.new) result buffer.new }
        ensures reports { ReportsRefusedRead self.old self.new result }
        ensures sticky { HasRefusedRead self.old → IsErr result × (self.new ≡ self.old) }
    {
        if self.refused {
            return Err(RefusedRead);
        }
        match self.reader.read(buffer) {
            Ok(count) => Ok(count),
            Err(_) => {
                self.refused = true;
                Err(RefusedRead)
            }
        }
    }
}
