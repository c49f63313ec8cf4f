//! The lines that a test prints. Those before and after the call are one write each, so that a
//! tracer of the process knows when the call starts and ends. A failed write is recorded, and the
//! test continues.

use rec_engine::EngineFault;
use rec_sorts::{SortFault, TermsFault};
use rec_syntax::SyntaxFault;
use rx_arena::ArenaFault;
use rx_names::NamesFault;
use rx_pattern::{MakeFault, PatternFault};
use rx_term::{BankFault, Term, TermBank};
use rx_text::{TextFault, WriteFault, write};
use std::alloc::{AllocError, Global};
use std::io::{Stdout, Write};

/// An error that is out of memory or something different.
pub trait Fault {
    /// Returns whether the error is out of memory.
    fn lacks_memory(&self) -> bool;
}

impl Fault for AllocError {
    fn lacks_memory(&self) -> bool {
        true
    }
}

impl Fault for NamesFault {
    fn lacks_memory(&self) -> bool {
        true
    }
}

impl Fault for BankFault {
    fn lacks_memory(&self) -> bool {
        matches!(self, BankFault::Memory)
    }
}

impl Fault for ArenaFault {
    fn lacks_memory(&self) -> bool {
        matches!(self, ArenaFault::Memory)
    }
}

impl Fault for TextFault {
    fn lacks_memory(&self) -> bool {
        matches!(self, TextFault::Memory)
    }
}

impl Fault for WriteFault {
    fn lacks_memory(&self) -> bool {
        matches!(self, WriteFault::Memory)
    }
}

impl Fault for PatternFault {
    fn lacks_memory(&self) -> bool {
        matches!(self, PatternFault::Memory)
    }
}

impl Fault for MakeFault {
    fn lacks_memory(&self) -> bool {
        matches!(self, MakeFault::Memory)
    }
}

impl Fault for SyntaxFault {
    fn lacks_memory(&self) -> bool {
        matches!(self, SyntaxFault::Memory)
    }
}

impl Fault for SortFault {
    fn lacks_memory(&self) -> bool {
        matches!(self, SortFault::Memory)
    }
}

impl Fault for TermsFault {
    fn lacks_memory(&self) -> bool {
        matches!(self, TermsFault::Memory)
    }
}

impl Fault for EngineFault {
    fn lacks_memory(&self) -> bool {
        matches!(self, EngineFault::Memory)
    }
}

/// The output of a test.
#[derive(Drop)]
pub struct Report {
    /// The allocator of everything that a test makes.
    pub alloc: Global,
    out: Stdout,
    is_whole: bool,
}

impl Report {
    /// Returns a report with no lines.
    pub fn new(alloc: Global, out: Stdout) -> Report {
        Report {
            alloc,
            out,
            is_whole: true,
        }
    }

    /// Returns whether all lines were printed.
    pub fn is_whole(&self) -> bool {
        self.is_whole
    }

    /// Prints a text.
    fn put(&mut self, text: &[u8]) {
        self.is_whole &= self.out.write_all(text).is_ok();
    }

    /// Prints that the call comes next.
    pub fn begin(&mut self) {
        self.put(b"ready\n");
    }

    /// Prints the result of the call, and returns whether it succeeded.
    pub fn tell<T: Drop, F: Fault + Drop>(&mut self, answer: Result<T, F>) -> bool {
        self.put(match &answer {
            Ok(_) => b"done\n",
            Err(fault) if fault.lacks_memory() => b"memory\n",
            Err(_) => b"another fault\n",
        });
        answer.is_ok()
    }

    /// Prints that a call that cannot fail has returned.
    pub fn end(&mut self) {
        self.put(b"done\n");
    }

    /// Prints a statement, or its negation.
    pub fn say(&mut self, is_so: bool, what: &str) {
        if !is_so {
            self.put(b"not ");
        }
        self.put(what.as_bytes());
        self.put(b"\n");
    }

    /// Prints a number and its unit.
    pub fn count(&mut self, number: u64, what: &str) {
        self.is_whole &= writeln!(self.out, "{number} {what}").is_ok();
    }

    /// Prints the text of a term, if the store has it.
    pub fn show<B: TermBank>(&mut self, bank: &B, t: Term) {
        if bank.holds(t) {
            self.is_whole &= write(self.alloc, bank, t, &mut self.out).is_ok();
        }
        self.put(b"\n");
    }
}
