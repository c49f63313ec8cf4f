//! Reads and prints tables: terms written with one element for each part that they share.

ghost use Rattle.std.specs.Prelude.{◌≡◌, ◌++◌, Err, IfSome, IsSome, OnOk};
ghost use Rattle.rx_term.specs.Store.{tree_at};
ghost use Rattle.rx_term.specs.Steps.{Grows};
ghost use Rattle.rx_term.specs.Tree.{Tree};
ghost use Rattle.rx_text.specs.Answer.{AreNodesOf, AreProperNodes};
ghost use Rattle.rx_text.specs.Canon.{canon};
ghost use Rattle.rx_table.specs.Table.{table};
ghost use Rattle.rx_shared.specs.State.{store_of as terms_in};
ghost use Rattle.psilt_core.specs.declared.fault.Fault.TheVariants.{Rule};
ghost use Rattle.psilt_core.specs.Banks.{store_of};
ghost use Rattle.psilt_core.specs.Answers.{Spells};
ghost use Rattle.psilt_core.specs.Tables.{OpensTable, ReadsTable, table_in};
ghost use Rattle.psilt_core.specs.Works.{IsSameButRead, IsSameButText, KeepsRefusal};

use crate::{Fault, Work};
use rx_shared::SharedBank;
use rx_table::{TableFault, write_table_to};
use rx_term::{Term, TermBank};
use rx_text::{Node, Output, TextFault, WriteFault, parse};
use std::alloc::Global;

/// Prints the table of a term to a text.
fn write_table(
    alloc: Global,
    bank: &SharedBank,
    t: Term,
    text: &mut Vec<u8>,
) -> Result<(), WriteFault>
    requires { IsSome (tree_at (terms_in bank.now) t) }
    ensures { OnOk result (IfSome (tree_at (terms_in bank.now) t)
        (λ u. text.new.items ≡ text.old.items ++ canon (table u))) }
{
    let mut output = Output::new(text);
    write_table_to(alloc, bank, t, &mut output)
}

impl Work {
    /// Prints the table of a term to the text of the work, and returns the number of bytes.
    /// `Memory` also if the table has more than 1,073,741,824 different parts.
    pub fn print_table(&mut self, alloc: Global, t: Term) -> Result<usize, Fault>
        ensures answer { Spells (store_of self.old.bank) t table_in self.old.text.items
            self.new.text.items result }
        ensures beside { IsSameButText self.old self.new }
    {
        if !self.bank.shared_bank().holds(t) {
            return Err(Fault::Stale);
        }
        let mut text = Vec::new(alloc);
        match write_table(alloc, self.bank.shared_bank(), t, &mut text) {
            Ok(()) => {
                self.text = text;
                Ok(self.text.len())
            }
            Err(_) => Err(Fault::Memory),
        }
    }

    /// Returns the term of the table that a text spells. `Range` if the text has more than
    /// 16,777,216 bytes; `Syntax` if it leaves the grammar of terms, at the offset `place` of the
    /// work; `Rule` if it violates a rule of tables, which is stored in the work: 1 if it is not a
    /// list without annotations that has an element, otherwise 2 if a placeholder is neither the
    /// number of an earlier element nor a list of one item; `Full` if all cells are in use, or if a
    /// name is new and the number of names is at its limit. Only the term takes cells of the work.
    pub fn read_table(&mut self, alloc: Global, text: &[u8]) -> Result<Term, Fault>
        ensures answer { ReadsTable self.old.bank.most_names (store_of self.old.bank)
            (store_of self.new.bank) text.now self.new.place self.new.rule result }
        ensures grows { Grows (store_of self.old.bank) (store_of self.new.bank) }
        ensures refusal { KeepsRefusal self.old self.new result }
        ensures place { result ≡ Err Rule → self.new.place ≡ self.old.place }
        ensures beside { IsSameButRead self.old self.new }
    {
        match parse(alloc, text) {
            Ok(nodes) => self.open_nodes(alloc, text, &nodes),
            Err(TextFault::Long) => Err(Fault::Range),
            Err(TextFault::Grammar { at }) => {
                self.place = at;
                self.rule = 0;
                Err(Fault::Syntax)
            }
            Err(TextFault::Memory) => Err(Fault::Memory),
            Err(TextFault::Full) => unreachable!(),
        }
    }

    /// Returns the term of a table from the nodes of its text. The number of a violated rule is
    /// stored in the work.
    fn open_nodes(&mut self, alloc: Global, text: &[u8], nodes: &[Node]) -> Result<Term, Fault>
        requires nodes { (u : Tree) × AreNodesOf text.now nodes.now u }
        requires proper { AreProperNodes text.now nodes.now }
        ensures answer { (u : Tree) → AreNodesOf text.now nodes.now u
            → OpensTable self.old.bank.most_names (store_of self.old.bank)
            (store_of self.new.bank) u self.new.rule result }
        ensures grows { Grows (store_of self.old.bank) (store_of self.new.bank) }
        ensures refusal { KeepsRefusal self.old self.new result }
        ensures place { self.new.place ≡ self.old.place }
        ensures beside { IsSameButRead self.old self.new }
    {
        let before = self.bank.names();
        let opened = self.bank.open_nodes(alloc, text, nodes);
        if !self.bank.keeps_limit(before) {
            return Err(Fault::Full);
        }
        match opened {
            Ok(t) => Ok(t),
            Err(TableFault::NotTable) => {
                self.rule = 1;
                Err(Fault::Rule)
            }
            Err(TableFault::Element { number: _ }) => {
                self.rule = 2;
                Err(Fault::Rule)
            }
            Err(TableFault::Full) => Err(Fault::Full),
            Err(TableFault::Memory) => {
                if self.bank.lacks_names() {
                    return Err(Fault::Full);
                }
                Err(Fault::Memory)
            }
            Err(TableFault::Long | TableFault::Grammar { at: _ }) => unreachable!(),
        }
    }
}
