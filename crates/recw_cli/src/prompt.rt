//! A writer that flushes lines early.

use std::io;
use std::io::Write;
use std::time::{Clock, Duration};

/// The number of lines that are flushed one by one.
const FIRST_LINES: u32 = 1000;

/// The longest time between two later flushes, in milliseconds.
const PATIENCE: u64 = 1;

/// A writer that flushes after lines: after each of the first 1,000, and later if the last flush
/// was at least a millisecond ago. So results appear at once, and many short lines stay fast.
#[derive(Drop)]
pub struct Prompt<'a, C, W> {
    /// The clock.
    clock: &'a C,
    /// The wrapped writer.
    output: W,
    /// The number of lines that were flushed one by one.
    lines: u32,
    /// The time of the last later flush.
    flushed: Duration,
}

impl<'a, C: Clock, W: Write> Prompt<'a, C, W> {
    /// Returns a wrapper of `output` that has written nothing.
    pub fn new(clock: &'a C, output: W) -> Prompt<'a, C, W> {
        Prompt {
            clock,
            output,
            lines: 0,
            flushed: Duration::ZERO,
        }
    }

    /// Flushes after a line, if it is time.
    fn end_line(&mut self) -> io::Result<()> {
        if self.is_due() {
            self.output.flush()
        } else {
            Ok(())
        }
    }

    /// Returns whether it is time for a flush. Without a clock reading, it is not.
    fn is_due(&mut self) -> bool {
        if self.lines < FIRST_LINES {
            self.lines = self.lines.saturating_add(1);
            return true;
        }
        match self.clock.monotonic() {
            Ok(now) if now.saturating_sub(self.flushed) >= Duration::from_millis(PATIENCE) => {
                self.flushed = now;
                true
            }
            _ => false,
        }
    }
}

impl<C: Clock, W: Write> Write for Prompt<'_, C, W> {
    fn write(&mut self, buf: &[u8]) -> io::Result<usize> {
        let count = self.output.write(buf)?;
        let (written, _) = buf.split_at(count.min(buf.len()));
        if written.ends_with(b"\n") {
            self.end_line()?;
        }
        Ok(count)
    }

    fn flush(&mut self) -> io::Result<()> {
        self.output.flush()
    }
}
