//! Readers and writers that fail, transfer little, or never end.

use std::alloc::Global;
use std::io;
use std::io::{ErrorKind, Read, Write};

/// A reader of one byte in each call. One read, by its number, fails, and the next one succeeds
/// again. Endless spaces may follow its bytes.
#[derive(Drop)]
pub(crate) struct Slow<'a> {
    bytes: &'a [u8],
    pub(crate) reads: usize,
    fails_at: usize,
    kind: ErrorKind,
    is_endless: bool,
}

/// Returns a reader that does not fail.
pub(crate) fn bytewise(text: &str) -> Slow<'_> {
    failing(text, 0, ErrorKind::Other)
}

/// Returns a reader whose read number `fails_at` fails.
pub(crate) fn failing(text: &str, fails_at: usize, kind: ErrorKind) -> Slow<'_> {
    Slow {
        bytes: text.as_bytes(),
        reads: 0,
        fails_at,
        kind,
        is_endless: false,
    }
}

/// Returns a reader of endless spaces.
pub(crate) fn endless() -> Slow<'static> {
    let mut blanks = bytewise("");
    blanks.is_endless = true;
    blanks
}

impl Read for Slow<'_> {
    fn read(&mut self, buf: &mut [u8]) -> io::Result<usize> {
        self.reads = self.reads.wrapping_add(1);
        if self.reads == self.fails_at {
            return Err(io::Error::from(self.kind));
        }
        if self.is_endless {
            buf.fill(b' ');
            return Ok(buf.len());
        }
        let count = buf.len().min(1);
        self.bytes.read(&mut buf[..count])
    }
}

/// A writer of one byte in each call. One write, by its number, fails, or writes nothing if there
/// is no error to report; the next one succeeds again. A flush may fail.
#[derive(Drop)]
pub(crate) struct Sink {
    pub(crate) held: Vec<u8>,
    pub(crate) writes: usize,
    fails_at: usize,
    error: Option<ErrorKind>,
    flush_error: Option<ErrorKind>,
}

/// Returns a writer that does not fail.
pub(crate) fn taking(alloc: Global) -> Sink {
    failing_at(alloc, 0, None)
}

/// Returns a writer whose write number `fails_at` fails.
pub(crate) fn failing_at(alloc: Global, fails_at: usize, error: Option<ErrorKind>) -> Sink {
    Sink {
        held: Vec::new(alloc),
        writes: 0,
        fails_at,
        error,
        flush_error: None,
    }
}

/// Returns a writer that fails only in a flush.
pub(crate) fn unflushed(alloc: Global, error: ErrorKind) -> Sink {
    let mut out = taking(alloc);
    out.flush_error = Some(error);
    out
}

impl Write for Sink {
    fn write(&mut self, buf: &[u8]) -> io::Result<usize> {
        self.writes = self.writes.wrapping_add(1);
        if self.writes == self.fails_at {
            return match self.error {
                Some(kind) => Err(io::Error::from(kind)),
                None => Ok(0),
            };
        }
        let count = buf.len().min(1);
        self.held.write(&buf[..count])
    }

    fn flush(&mut self) -> io::Result<()> {
        match self.flush_error {
            Some(kind) => Err(io::Error::from(kind)),
            None => Ok(()),
        }
    }
}
