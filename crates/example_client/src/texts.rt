//! Building an annotated term, printing it, and reading it back.

ghost use Rattle.std.specs.Prelude.{◌≡◌, false, IsSome, IfOk, Some, codes};
ghost use Rattle.rx_term.specs.Tree.{Tree, Int, Appl, none, more, list_of};
ghost use Rattle.rx_term.specs.Name.{IsAllowed};
ghost use Rattle.rx_term.specs.Store.{tree_at};
ghost use Rattle.rx_term.specs.Steps.{Grows};
ghost use Rattle.rx_text.specs.Canon.{canon};

use crate::WorkFault;
use rx_term::build::constant;
use rx_term::{BankFault, Term, TermBank};
use rx_text::{WriteFault, laws, read, write};
use std::alloc::Global;

/// Makes a name annotated with its line and column in some source: `x{at(3,7)}`.
pub fn name_at<B: TermBank>(
    bank: &mut B,
    name: &[u8],
    line: i32,
    column: i32,
) -> Result<Term, BankFault>
    requires { IsAllowed name.now false }
    ensures tree { IfOk result (λ r. tree_at (B.store bank.new) r ≡ Some (Appl name.now false none
        (more (Appl (codes "at") false (more (Int line none) (more (Int column none) none)) none)
        none))) }
    ensures grows { Grows (B.store bank.old) (B.store bank.new) }
{
    let plain = constant(bank, name)?;
    let place = place(bank, line, column)?;
    let notes = only(bank, place)?;
    bank.annotated(plain, notes)
}

/// Makes `at(line,column)`.
pub fn place<B: TermBank>(bank: &mut B, line: i32, column: i32) -> Result<Term, BankFault>
    ensures tree { IfOk result (λ r. tree_at (B.store bank.new) r ≡
        Some (Appl (codes "at") false (more (Int line none) (more (Int column none) none)) none)) }
    ensures grows { Grows (B.store bank.old) (B.store bank.new) }
{
    let both = numbers(bank, line, column)?;
    let at = bank.symbol(b"at", false, 2)?;
    bank.appl(at, both)
}

/// Makes the list of two integers.
fn numbers<B: TermBank>(bank: &mut B, first: i32, second: i32) -> Result<Term, BankFault>
    ensures tree { IfOk result (λ r. tree_at (B.store bank.new) r ≡
        Some (list_of (more (Int first none) (more (Int second none) none)))) }
    ensures grows { Grows (B.store bank.old) (B.store bank.new) }
{
    let last = bank.int(second)?;
    let list = only(bank, last)?;
    let head = bank.int(first)?;
    bank.cons(head, list)
}

/// Makes the list of one term.
pub fn only<B: TermBank>(bank: &mut B, t: Term) -> Result<Term, BankFault>
    requires { IsSome (tree_at (B.store bank.old) t) }
    ensures tree { IfOk result (λ r. (u : Tree) → tree_at (B.store bank.old) t ≡ Some u →
        tree_at (B.store bank.new) r ≡ Some (list_of (more u none))) }
    ensures grows { Grows (B.store bank.old) (B.store bank.new) }
{
    let nil = bank.nil()?;
    bank.cons(t, nil)
}

/// Returns the printed text of a term.
pub fn text_of<B: TermBank>(alloc: Global, bank: &B, t: Term) -> Result<Vec<u8>, WriteFault>
    requires { IsSome (tree_at (B.store bank.now) t) }
    ensures { IfOk result
        (λ text. (u : Tree) → tree_at (B.store bank.now) t ≡ Some u → text.items ≡ canon u) }
{
    let mut text = Vec::new(alloc);
    write(alloc, bank, t, &mut text)?;
    Ok(text)
}

/// Prints a term and reads the text. The result is the same reference, since equal terms are one.
pub fn read_back<B: TermBank>(alloc: Global, bank: &mut B, t: Term) -> Result<Term, WorkFault>
    requires { IsSome (tree_at (B.store bank.old) t) }
    ensures same { IfOk result (λ r. r ≡ t) }
    ensures grows { Grows (B.store bank.old) (B.store bank.new) }
{
    let text = text_of(alloc, bank, t)?;
    let again = read(alloc, text.as_slice(), bank)?;
    laws::printed_text();
    Ok(again)
}
