//! A writer that is not used again after it has failed.

use std::io;
use std::io::{Error, ErrorKind, Write};

/// A writer that answers each call after a failure with the error of the first one. So a buffer
/// that is flushed again when it is dropped writes nothing after a failure. `Interrupted` does not
/// count as a failure, since buffers try again.
#[derive(Drop)]
pub struct Guarded<W> {
    /// The wrapped writer.
    output: W,
    /// The first error.
    refusal: Option<Error>,
}

impl<W> Guarded<W> {
    /// Returns a wrapper of `output` that has not failed.
    pub fn new(output: W) -> Guarded<W> {
        Guarded {
            output,
            refusal: None,
        }
    }

    /// Records an error.
    fn keep(&mut self, error: Error) {
        if !matches!(error.kind(), ErrorKind::Interrupted) {
            self.refusal = Some(error);
        }
    }
}

impl<W: Write> Write for Guarded<W> {
    fn write(&mut self, buf: &[u8]) -> io::Result<usize> {
        if let Some(error) = self.refusal {
            return Err(error);
        }
        match self.output.write(buf) {
            Ok(count) => Ok(count),
            Err(error) => {
                self.keep(error);
                Err(error)
            }
        }
    }

    fn flush(&mut self) -> io::Result<()> {
        if let Some(error) = self.refusal {
            return Err(error);
        }
        let end = self.output.flush();
        if let Err(error) = end {
            self.keep(error);
        }
        end
    }
}
