//! Reads and prints texts.

ghost use Rattle.std.specs.Prelude.{◌≡◌, ◌<◌, ◌++◌, Err, IsTrue, length, drop};
ghost use Rattle.psilt_core.specs.declared.fault.Fault.TheVariants.{Syntax};
ghost use Rattle.rx_term.specs.Store.{tree_at};
ghost use Rattle.psilt_core.specs.Banks.{store_of};
ghost use Rattle.psilt_core.specs.Answers.{Reads, Spells, Copies, printed_in, name_in};
ghost use Rattle.psilt_core.specs.Answers.{SpellsWithin};
ghost use Rattle.psilt_core.specs.Works.{IsSameButText, IsSameButRead, KeepsRefusal};

use crate::{Fault, Work};
use rx_term::{Term, TermBank};
use rx_text::{TextFault, write, write_within};
use std::alloc::Global;

impl Work {
    /// Returns the term that a text spells. `Range` if the text has more than 16,777,216 bytes;
    /// `Syntax` if it leaves the grammar, at the offset `place` of the work; `Full` if all cells
    /// are in use, or if a name is new and the number of names is at its limit.
    pub fn read(&mut self, alloc: Global, text: &[u8]) -> Result<Term, Fault>
        ensures answer { Reads self.old.bank.most_names (store_of self.old.bank)
            (store_of self.new.bank) text.now self.new.place result }
        ensures rule { result ≡ Err Syntax → self.new.rule ≡ 0 }
        ensures refusal { KeepsRefusal self.old self.new result }
        ensures beside { IsSameButRead self.old self.new }
    {
        let before = self.bank.names();
        let t = match self.bank.read(alloc, text) {
            Ok(t) => t,
            Err(TextFault::Grammar { at }) => {
                self.place = at;
                self.rule = 0;
                return Err(Fault::Syntax);
            }
            Err(TextFault::Long) => return Err(Fault::Range),
            Err(TextFault::Memory) => {
                if self.bank.lacks_names() {
                    return Err(Fault::Full);
                }
                return Err(Fault::Memory);
            }
            Err(TextFault::Full) => return Err(Fault::Full),
        };
        if !self.bank.keeps_limit(before) {
            return Err(Fault::Full);
        }
        Ok(t)
    }

    /// Prints a term to the text of the work, and returns the number of bytes.
    pub fn print(&mut self, alloc: Global, t: Term) -> Result<usize, Fault>
        ensures answer { Spells (store_of self.old.bank) t printed_in self.old.text.items
            self.new.text.items result }
        ensures beside { IsSameButText self.old self.new }
    {
        if !self.bank.shared_bank().holds(t) {
            return Err(Fault::Stale);
        }
        let mut text = Vec::new(alloc);
        match write(alloc, self.bank.shared_bank(), t, &mut text) {
            Ok(()) => {
                self.text = text;
                Ok(self.text.len())
            }
            Err(_) => Err(Fault::Memory),
        }
    }

    /// Prints a term to the text of the work if that has at most `most` bytes, and returns the
    /// number of bytes; otherwise `Range`. No more than `most` + 1 bytes are printed.
    pub fn print_within(&mut self, alloc: Global, t: Term, most: usize) -> Result<usize, Fault>
        ensures answer { SpellsWithin (store_of self.old.bank) t most self.old.text.items
            self.new.text.items result }
        ensures beside { IsSameButText self.old self.new }
    {
        if !self.bank.shared_bank().holds(t) {
            return Err(Fault::Stale);
        }
        match write_within(alloc, self.bank.shared_bank(), t, most) {
            Ok(Some(text)) => {
                self.text = text;
                Ok(self.text.len())
            }
            Ok(None) => Err(Fault::Range),
            Err(_) => Err(Fault::Memory),
        }
    }

    /// Writes the name of an application to the text of the work, and returns the number of bytes.
    pub fn name(&mut self, alloc: Global, t: Term) -> Result<usize, Fault>
        ensures answer { Spells (store_of self.old.bank) t name_in self.old.text.items
            self.new.text.items result }
        ensures beside { IsSameButText self.old self.new }
    {
        let symbol = match self.symbol_of(t) {
            Ok(symbol) => symbol,
            Err(fault) => return Err(fault),
        };
        match self.bank.shared_bank().name_of(symbol).to_vec(alloc) {
            Ok(text) => {
                self.text = text;
                Ok(self.text.len())
            }
            Err(_) => Err(Fault::Memory),
        }
    }

    /// Copies the text to the first bytes of a buffer. `Range` if the buffer is shorter.
    pub fn copy(&self, buffer: &mut [u8]) -> Result<(), Fault>
        ensures { Copies self.now.text.items buffer.old buffer.new result }
    {
        let text = self.text.as_slice();
        if text.len() > buffer.len() {
            return Err(Fault::Range);
        }
        buffer[..text.len()].copy_from_slice(text);
        Ok(())
    }
}
