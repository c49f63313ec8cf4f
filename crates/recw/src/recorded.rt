//! Streams that record their data if it is needed.

use std::alloc::Global;
use std::io;
use std::io::{Error, Read, Write};

/// A reader that records its text. If an allocation fails, nothing is recorded.
#[derive(Drop)]
pub struct Recorded<'a, R> {
    /// The wrapped reader.
    input: &'a mut R,
    /// Whether the text is recorded.
    is_kept: bool,
    /// The text so far; empty if it is not recorded.
    text: Vec<u8>,
    /// The error of the last failed read.
    trouble: Option<Error>,
}

impl<'a, R: Read> Recorded<'a, R> {
    /// Returns a wrapper of a reader from which nothing was read. The text is recorded if
    /// `is_kept`.
    pub fn new(alloc: Global, input: &'a mut R, is_kept: bool) -> Recorded<'a, R> {
        Recorded {
            input,
            is_kept,
            text: Vec::new(alloc),
            trouble: None,
        }
    }

    /// Records bytes that were read.
    fn keep(&mut self, bytes: &[u8]) {
        if self.is_kept && self.text.extend_from_slice(bytes).is_err() {
            self.is_kept = false;
            self.text.clear();
        }
    }

    /// Returns the text that was read, and the error of the last failed read.
    pub fn finish(self) -> (Vec<u8>, Option<Error>) {
        (self.text, self.trouble)
    }
}

impl<R: Read> Read for Recorded<'_, R> {
    fn read(&mut self, buf: &mut [u8]) -> io::Result<usize> {
        match self.input.read(buf) {
            Ok(count) => {
                self.keep(&buf[..count]);
                Ok(count)
            }
            Err(error) => {
                self.trouble = Some(error);
                Err(error)
            }
        }
    }
}

/// A writer that keeps the error of the last write that failed.
#[derive(Drop)]
pub struct RecordedWriter<'a, W> {
    /// The wrapped writer.
    writer: &'a mut W,
    /// The error of the last write that failed.
    trouble: Option<Error>,
}

impl<'a, W: Write> RecordedWriter<'a, W> {
    /// Returns a wrapper of a writer to which nothing was written.
    pub fn new(writer: &'a mut W) -> RecordedWriter<'a, W> {
        RecordedWriter {
            writer,
            trouble: None,
        }
    }

    /// Returns the error of the last write that failed.
    pub fn finish(self) -> Option<Error> {
        self.trouble
    }
}

impl<W: Write> Write for RecordedWriter<'_, W> {
    fn write(&mut self, buf: &[u8]) -> io::Result<usize> {
        match self.writer.write(buf) {
            Ok(count) => Ok(count),
            Err(error) => {
                self.trouble = Some(error);
                Err(error)
            }
        }
    }

    fn flush(&mut self) -> io::Result<()> {
        match self.writer.flush() {
            Ok(()) => Ok(()),
            Err(error) => {
                self.trouble = Some(error);
                Err(error)
            }
        }
    }
}
