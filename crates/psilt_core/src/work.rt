//! The state of an open handle.

ghost use Rattle.std.specs.Prelude.{◌≡◌, ◌<◌, ◌≤◌, [], IfOk, IfErr, None};
ghost use Rattle.rx_term.specs.Store.{cells};
ghost use Rattle.rx_shared.specs.State.{IsEmptyStore, store_of as terms_of};
ghost use Rattle.psilt_core.specs.Names.{names_of};
ghost use Rattle.psilt_core.specs.Banks.{store_of};
ghost use Rattle.psilt_core.specs.Answers.{MakesRoom};
ghost use Rattle.psilt_core.specs.Works.{IsFresh, IsSameButBank, IsOpeningFault};

use crate::patterns::Patterns;
use crate::stopping::Flag;
use crate::{Bank, Fault};
use rx_shared::SharedBank;
use rx_term::{BankFault, Term, TermBank};
use std::alloc::Global;

/// The largest cell limit of a term store.
pub const MOST_CELLS: u32 = 1_073_741_824;

/// The state of an open handle: the term store, the patterns, the last printed text, and the
/// location and rule of the last rejected text.
#[derive(Drop)]
pub struct Work {
    /// The term store, the specification, and the symbols that C has numbers for.
    pub bank: Bank,
    /// The patterns.
    pub patterns: Patterns,
    /// The bindings of the last match, until terms are freed.
    pub bound: Vec<Term>,
    /// The text that was printed last.
    pub text: Vec<u8>,
    /// The offset in bytes at which the text that was rejected last leaves its grammar or violates
    /// a rule.
    pub place: u32,
    /// The number, from 1, of the rule that the text or term violates that was rejected last; 0 if
    /// the text leaves its grammar.
    pub rule: u32,
    /// Whether evaluations are to end.
    pub(crate) flag: Flag,
}

/// Moves a value to a box.
fn box_of<T: Drop>(alloc: Global, value: T) -> Result<Box<T>, Fault>
    ensures value { IfOk result (λ b. b.value ≡ value) }
    ensures memory { IfErr result (λ fault. fault ≡ Fault.Memory) }
{
    match Box::new(alloc, value) {
        Ok(value) => Ok(value),
        Err(_) => Err(Fault::Memory),
    }
}

impl Work {
    /// Makes a work over an empty store of at most `cap` cells. `Range` if `cap` is 0 or more than
    /// `MOST_CELLS`.
    pub fn new(alloc: Global, cap: u32) -> Result<Box<Work>, Fault>
        ensures empty { IfOk result (λ b. IsEmptyStore (store_of b.value.bank) cap) }
        ensures fresh { IfOk result (λ b. IsFresh b.value) }
        ensures fault { IfErr result (IsOpeningFault cap) }
    {
        if cap == 0 || cap > MOST_CELLS {
            return Err(Fault::Range);
        }
        match SharedBank::new(alloc, cap) {
            Ok(bank) => box_of(alloc, Work::over(alloc, bank)),
            Err(_) => Err(Fault::Memory),
        }
    }

    /// Makes a work over a store without symbols.
    fn over(alloc: Global, bank: SharedBank) -> Work
        requires { names_of (terms_of bank) ≡ 0 }
        ensures bank { result.bank.shared ≡ bank }
        ensures fresh { IsFresh result }
    {
        Work {
            bank: Bank::new(alloc, bank),
            patterns: Patterns::new(alloc),
            bound: Vec::new(alloc),
            text: Vec::new(alloc),
            place: 0,
            rule: 0,
            flag: Flag::none(),
        }
    }

    /// Returns the number of cells in use.
    pub fn cells(&self) -> u32
        ensures { result ≡ cells (store_of self.now.bank) }
    {
        self.bank.shared_bank().cells()
    }

    /// Returns how many cells can be taken without another allocation.
    pub fn spare(&self) -> u32
        ensures { result ≡ (store_of self.now.bank).spare }
    {
        self.bank.shared_bank().spare()
    }

    /// Reserves memory for `k` more cells.
    pub fn reserve(&mut self, k: u32) -> Result<(), Fault>
        ensures answer { MakesRoom (store_of self.old.bank) (store_of self.new.bank) k result }
        ensures beside { IsSameButBank self.old self.new }
    {
        match self.bank.reserve(k) {
            Ok(()) => Ok(()),
            Err(BankFault::Memory) => Err(Fault::Memory),
            Err(BankFault::Full) => Err(Fault::Full),
        }
    }
}
