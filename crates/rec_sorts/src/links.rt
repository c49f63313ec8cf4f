//! The symbols of a specification in a term store.

ghost use Rattle.std.specs.Prelude.{◌≡◌, ◌≢◌, ◌<◌, ◌^◌, List, Some, Err, IfOk, length, nat_eq};
ghost use Rattle.std.specs.Prelude.{slice_get};
ghost use Rattle.indexmap.specs.IndexMap.{get};
ghost use Rattle.rx_term.specs.declared.Symbol.{Symbol};
ghost use Rattle.rx_term.specs.declared.faults.BankFault.TheVariants.{Full};
ghost use Rattle.rec_sorts.specs.Linked.{AreLinked, AllDiffer, HasMoreSymbols, NumberOf, NumbersOf};

use crate::checked::Checked;
use indexmap::IndexMap;
use rx_term::{BankFault, Symbol, TermBank, plain_name};
use std::alloc::{AllocError, Global};
use std::marker::Model;

/// The symbol map: for each symbol of a specification its symbol in one store, and back. Contracts
/// see the list of the store's symbols by the specification's numbers, from 0 in the order of the
/// text.
#[derive(Drop)]
pub struct Links {
    symbols: Vec<Symbol>,
    numbers: IndexMap<u64, u32>,
}

impl Model for Links {
    ghost Value = { List Symbol };

    ghost view = { λ l. l.symbols.items };

    ghost invariant = { λ l. NumbersOf l.symbols.items (λ s. get nat_eq l.numbers s) };
}

/// Returns the store's symbol of each symbol of the specification, by the specification's numbers.
/// Symbols that the store does not have are added.
fn linked_symbols<B: TermBank>(
    alloc: Global,
    checked: &Checked,
    bank: &mut B,
) -> Result<Vec<Symbol>, BankFault>
    ensures linked { IfOk result (λ v. AreLinked checked.now.spec (B.store bank.new) v.items) }
    ensures differ { IfOk result (λ v. AllDiffer v.items) }
    ensures fits { IfOk result (λ v. length v.items < 2 ^ 32) }
    ensures same { HasMoreSymbols (B.store bank.old) (B.store bank.new) }
    ensures fault { Err Full ≢ result }
{
    let _kept = checked.syntax();
    let mut symbols = Vec::new(alloc);
    for number in 0..checked.symbols() {
        let name = checked.symbol_name(number);
        let quoted = !plain_name(name);
        let symbol = bank.symbol(name, quoted, checked.arity(number))?;
        symbols.push(symbol).map_err(|_| BankFault::Memory)?;
    }
    Ok(symbols)
}

/// Returns a map from each of these symbols to its index.
fn numbers_of(alloc: Global, symbols: &[Symbol]) -> Result<IndexMap<u64, u32>, AllocError>
    requires differ { AllDiffer symbols.now }
    requires fits { length symbols.now < 2 ^ 32 }
    ensures { IfOk result (λ numbers. NumbersOf symbols.now (λ s. get nat_eq numbers s)) }
{
    let mut numbers = IndexMap::with_capacity(alloc, symbols.len())?;
    for (i, symbol) in symbols.iter().enumerate() {
        let number = i as u32;
        numbers.insert(symbol.0, number)?;
    }
    Ok(numbers)
}

impl Links {
    /// Makes the symbol map of a specification for a store, and adds the symbols that the store
    /// does not have. The only possible error is `Memory`. Nothing but symbols is added, also after
    /// an error. Takes expected time linear in the total length of the names.
    pub fn make<B: TermBank>(
        alloc: Global,
        checked: &Checked,
        bank: &mut B,
    ) -> Result<Links, BankFault>
        ensures linked { IfOk result (AreLinked checked.now.spec (B.store bank.new)) }
        ensures same { HasMoreSymbols (B.store bank.old) (B.store bank.new) }
        ensures fault { Err Full ≢ result }
    {
        let symbols = linked_symbols(alloc, checked, bank)?;
        match numbers_of(alloc, &symbols) {
            Ok(numbers) => Ok(Links { symbols, numbers }),
            Err(_) => Err(BankFault::Memory),
        }
    }

    /// Returns the store's symbol with this number. Takes constant time.
    pub fn symbol_of(&self, op: u32) -> Symbol
        requires { op < length self.now }
        ensures { slice_get self.now op ≡ Some result }
    {
        self.symbols[op as usize]
    }

    /// Returns the store's symbols by their numbers. They differ from each other.
    pub fn symbols(&self) -> &[Symbol]
        ensures same { result.now ≡ self.now }
        ensures differ { AllDiffer self.now }
    {
        &self.symbols
    }

    /// Returns the number of a symbol of the store, or `None` if it is not one of the
    /// specification's symbols. Takes expected constant time.
    pub fn op_of(&self, symbol: Symbol) -> Option<u32>
        ensures { NumberOf self.now symbol result }
    {
        self.numbers.get(&symbol.0).copied()
    }

    /// Returns a copy of this symbol map.
    pub fn copy(&self, alloc: Global) -> Result<Links, AllocError>
        ensures { IfOk result (λ l. l ≡ self.now) }
    {
        let mut symbols = Vec::new(alloc);
        symbols.extend_from_slice(&self.symbols)?;
        let numbers = self.numbers.clone()?;
        Ok(Links { symbols, numbers })
    }
}
