//! Prints the table of a term.

ghost use Rattle.std.specs.Prelude.{◌≡◌, ◌+◌, ◌<◌, ◌≤◌, ◌^◌, IfOk, IfSome, IsSome, OnErr, OnOk};
ghost use Rattle.std.specs.Prelude.{None, Some, cond, length, map};
ghost use Rattle.rx_term.specs.Tree.{Tree};
ghost use Rattle.rx_term.specs.Store.{tree_at};
ghost use Rattle.rx_term.specs.Walks.{held_tree};
ghost use Rattle.rx_text.specs.Canon.{canon};
ghost use Rattle.rx_text.specs.Output.{ReportsFault, Writes, WritesFront};
ghost use Rattle.rx_table.specs.Table.{is_shared, table};
ghost use Rattle.rx_table.specs.Inner.Elements.{CanPrint, counted, element_of, elements_of};
ghost use Rattle.rx_table.specs.Inner.Elements.{list_text};
ghost use Rattle.rx_table.specs.Inner.Walk.{HasParts, trees_of};

use crate::shared::shared_parts;
use crate::walk::{Parts, find_parts};
use rx_term::{Term, TermBank};
use rx_text::{Numbers, Output, Printer, WriteFault};
use std::alloc::{AllocError, Global};
use std::io::Write;

/// The numbers of the elements of the table of a tree, which are printed in place of its parts.
#[derive(Clone, Copy)]
pub(crate) struct Elements<'a> {
    /// The parts of the tree.
    parts: &'a Parts,
    /// For each part the number of its element, if it has one.
    numbers: &'a [Option<u32>],
}

impl Numbers for Elements<'_> {
    ghost use Rattle.rx_table.specs.Inner.Elements.{AreIn, style_of};

    ghost style = { style_of };

    ghost are_for = { AreIn };

    fn are_some(&self) -> bool {
        true
    }

    fn number_of(&self, t: Term) -> Option<u32> {
        match self.parts.terms.index_of(t.0) {
            Some(index) => match self.numbers.get(index) {
                Some(number) => *number,
                None => None,
            },
            None => None,
        }
    }
}

/// Returns the next number, and counts it, if a part is shared.
fn next_number(is_shared: bool, next: &mut u32) -> Option<u32>
    requires { next.old < 2 ^ 31 }
    ensures number { result ≡ cond is_shared (Some next.old) None }
    ensures counted { next.new ≡ next.old + cond is_shared 1 0 }
{
    if !is_shared {
        return None;
    }
    let number = *next;
    *next += 1;
    Some(number)
}

/// Returns for each `true` the number of those before it.
fn count_shared(alloc: Global, shared: &[bool]) -> Result<Vec<Option<u32>>, AllocError>
    requires { length shared.now ≤ 2 ^ 31 }
    ensures { IfOk result (λ numbers. numbers.items ≡ counted 0 shared.now) }
{
    let mut numbers = Vec::new(alloc);
    let mut next = 0;
    for is_shared in shared {
        numbers.push(next_number(*is_shared, &mut next))?;
    }
    Ok(numbers)
}

/// Returns the numbers of the elements of the parts of a tree.
fn find_numbers<B: TermBank>(
    alloc: Global,
    bank: &B,
    parts: &Parts,
) -> Result<Vec<Option<u32>>, AllocError>
    requires { (t : Tree) × HasParts (B.store bank.now) t parts.now }
    ensures { IfOk result (λ numbers. numbers.items
        ≡ counted 0 (map (is_shared (trees_of (B.store bank.now) parts.now.terms.keys))
        (trees_of (B.store bank.now) parts.now.terms.keys))) }
{
    let shared = shared_parts(alloc, bank, parts)?;
    count_shared(alloc, &shared)
}

/// Prints the element of the part with this index and a comma, if it has a number.
fn write_element<B: TermBank, W: Write>(
    alloc: Global,
    printer: &Printer<'_, B, Elements<'_>>,
    index: usize,
    out: &mut Output<'_, W>,
) -> Result<(), WriteFault>
    requires can { CanPrint B.store printer.now }
    requires index { index < length printer.now.numbers.numbers.now }
    ensures written { OnOk result
        (Writes W.contents out.old out.new (element_of B.store printer.now index)) }
    ensures front { OnErr result
        (WritesFront W.contents out.old out.new (element_of B.store printer.now index)) }
    ensures reports { ReportsFault out.old out.new result }
{
    let Elements { parts, numbers } = printer.numbers;
    if numbers[index].is_none() {
        return Ok(());
    }
    let part = Term(parts.terms.as_slice()[index]);
    printer.write_entry(alloc, part, out)?;
    Ok(out.put(b",")?)
}

/// Prints the elements of the parts that have a number, each with a comma after it.
fn write_elements<B: TermBank, W: Write>(
    alloc: Global,
    printer: &Printer<'_, B, Elements<'_>>,
    out: &mut Output<'_, W>,
) -> Result<(), WriteFault>
    requires can { CanPrint B.store printer.now }
    ensures written { OnOk result (Writes W.contents out.old out.new
        (elements_of B.store printer.now)) }
    ensures front { OnErr result (WritesFront W.contents out.old out.new
        (elements_of B.store printer.now)) }
    ensures reports { ReportsFault out.old out.new result }
{
    for index in 0..printer.numbers.numbers.len() {
        write_element(alloc, printer, index, out)?;
    }
    Ok(())
}

/// Prints the elements of parts, and then a term, as a list.
fn write_list<B: TermBank, W: Write>(
    alloc: Global,
    printer: &Printer<'_, B, Elements<'_>>,
    t: Term,
    out: &mut Output<'_, W>,
) -> Result<(), WriteFault>
    requires can { CanPrint B.store printer.now }
    requires held { IsSome (tree_at (B.store printer.now.bank.now) t) }
    ensures written { OnOk result (Writes W.contents out.old out.new
        (list_text B.store printer.now (held_tree (B.store printer.now.bank.now) t))) }
    ensures front { OnErr result (WritesFront W.contents out.old out.new
        (list_text B.store printer.now (held_tree (B.store printer.now.bank.now) t))) }
    ensures reports { ReportsFault out.old out.new result }
{
    out.put(b"[")?;
    write_elements(alloc, printer, out)?;
    printer.write_term(alloc, t, out)?;
    Ok(out.put(b"]")?)
}

/// Prints the table of a term. After a failure the writer is not called again. `Memory` is returned
/// if an allocation failed, or if the term has more than 2,147,483,648 different subterms. Takes time
/// in proportion to the cells of the term, where lists that have a tail in common count each by
/// itself, to the printed form, and to 1/1,024 of the greatest reference of a subterm.
pub fn write_table_to<B: TermBank, W: Write>(
    alloc: Global,
    bank: &B,
    t: Term,
    out: &mut Output<'_, W>,
) -> Result<(), WriteFault>
    requires held { IsSome (tree_at (B.store bank.now) t) }
    ensures written { OnOk result (IfSome (tree_at (B.store bank.now) t)
        (λ u. Writes W.contents out.old out.new (canon (table u)))) }
    ensures front { OnErr result (IfSome (tree_at (B.store bank.now) t)
        (λ u. WritesFront W.contents out.old out.new (canon (table u)))) }
    ensures reports { ReportsFault out.old out.new result }
{
    let Ok(parts) = find_parts(alloc, bank, t) else {
        return Err(WriteFault::Memory);
    };
    let Ok(numbers) = find_numbers(alloc, bank, &parts) else {
        return Err(WriteFault::Memory);
    };
    let printer = Printer {
        bank,
        numbers: Elements {
            parts: &parts,
            numbers: &numbers,
        },
    };
    write_list(alloc, &printer, t, out)
}
