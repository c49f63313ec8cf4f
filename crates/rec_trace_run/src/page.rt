//! Writes texts to an output and counts their line ends.

ghost use Rattle.std.specs.Prelude.{◌≡◌, IfErr, OnOk};
ghost use Rattle.rx_run.specs.Bytes.{newlines};

use rx_run::RunFault;
use rx_text::{Output, RefusedWrite};
use std::io::Write;

/// An output, and the number of line ends that were written to it.
#[derive(Drop)]
pub(crate) struct Page<'p, 'w, W> {
    /// The output.
    pub(crate) out: &'p mut Output<'w, W>,
    /// The number of line ends.
    pub(crate) lines: u64,
}

/// Returns the number of line ends in a text.
fn line_ends(text: &[u8]) -> u64
    ensures { result ≡ newlines text.now }
{
    text.iter().filter(|byte| **byte == b'\n').count() as u64
}

impl<W: Write> Page<'_, '_, W> {
    ghost use Rattle.rec_trace_run.specs.Inner.Pages.{Breaks, Prints, ReportsPage};

    /// Writes a text and counts its line ends. If the count overflows, nothing is written, and the
    /// error is `Memory`.
    pub(crate) fn print(&mut self, text: &[u8]) -> Result<(), RunFault>
        ensures ok { OnOk result (Prints W.contents self.old self.new text.now) }
        ensures err { IfErr result (Breaks W.contents self.old self.new text.now) }
        ensures reports { ReportsPage self.old self.new result }
    {
        let Some(more) = self.lines.checked_add(line_ends(text)) else {
            return Err(RunFault::Memory { lines: self.lines });
        };
        match self.out.put(text) {
            Ok(()) => {
                self.lines = more;
                Ok(())
            }
            Err(RefusedWrite) => Err(RunFault::Write),
        }
    }
}
