//! Numbers of symbols, and applications of numbered symbols.

ghost use Rattle.std.specs.Prelude.{◌≡◌, ℕ, length, Some, IfErr, IfOk, IfSome, IsSome, IsTrue};
ghost use Rattle.std.specs.Prelude.{option_map, slice_get};
ghost use Rattle.rx_term.specs.Name.{IsAllowed, Signature};
ghost use Rattle.rx_term.specs.Store.{tree_at, signature_of};
ghost use Rattle.rx_term.specs.Steps.{Grows};
ghost use Rattle.rec_sorts.specs.Linked.{HasMoreSymbols};
ghost use Rattle.psilt_core.specs.Banks.{signature_at, store_of};
ghost use Rattle.psilt_core.specs.Answers.{are_held, IsApplication};
ghost use Rattle.psilt_core.specs.Names.{names_of, KeepsLimit};
ghost use Rattle.psilt_core.specs.Symbols.{AppliesSymbol, GivesNumber, IsNumberOf, KeepsNumbers};
ghost use Rattle.psilt_core.specs.Symbols.{RefusesNumber};
ghost use Rattle.psilt_core.specs.Works.{IsSameButBank, IsSameButLimit, IsSameButSymbols};

use crate::fault::term_or_fault;
use crate::making::apply_symbol;
use crate::{Bank, Fault, Work};
use rx_term::{BankFault, Symbol, Term, TermBank, plain_name};

impl Bank {
    /// Returns the number of the one symbol with this name, flag and number of arguments. `Full` if
    /// the symbol is new and the number of symbols is at its limit.
    pub(crate) fn number(
        &mut self,
        name: &[u8],
        quoted: bool,
        arity: u32,
    ) -> Result<usize, BankFault>
        requires { IsAllowed name.now quoted }
        ensures number { IfOk result (IsNumberOf self.new
            (record { name = name.now; quoted = quoted; arity = arity })) }
        ensures keeps { KeepsNumbers self.old self.new }
        ensures store { HasMoreSymbols (store_of self.old) (store_of self.new) }
        ensures limit { KeepsLimit self.old.most_names (store_of self.old) (store_of self.new) }
        ensures refused { IfErr result (RefusesNumber self.old self.new
            (record { name = name.now; quoted = quoted; arity = arity })) }
        ensures beside { self.new
            ≡ record self.old { shared = self.new.shared; symbols = self.new.symbols } }
    {
        self.shared.allow(self.most_names);
        let symbol = match self.shared.intern(name, quoted, arity) {
            Ok(symbol) => symbol,
            Err(fault) => return Err(fault),
        };
        match self.symbols.insert_full(symbol.0) {
            Ok((place, _)) => Ok(place),
            Err(_) => Err(BankFault::Memory),
        }
    }

    /// Returns the symbol that has a number for C, if there is one.
    pub(crate) fn symbol_at(&self, n: usize) -> Option<Symbol>
        ensures symbol { result
            ≡ option_map (λ (s : ℕ). record { 0 = s }) (slice_get self.now.symbols n) }
        ensures there { IfSome result (λ s. IsSome (signature_of (store_of self.now) s)) }
    {
        match self.symbols.get_index(n) {
            Some(symbol) => Some(Symbol(*symbol)),
            None => None,
        }
    }
}

impl Work {
    /// Returns the number of the one symbol with this name, flag and number of arguments; equal
    /// symbols get equal numbers. `Name` if the name is not quoted, not empty and not a plain name;
    /// `Full` if the symbol is new and the number of symbols is at its limit.
    pub fn symbol(&mut self, name: &[u8], quoted: bool, arity: u32) -> Result<usize, Fault>
        ensures answer { GivesNumber self.old.bank self.new.bank
            (record { name = name.now; quoted = quoted; arity = arity }) result }
        ensures beside { IsSameButSymbols self.old self.new }
    {
        if !quoted && !plain_name(name) && !name.is_empty() {
            return Err(Fault::Name);
        }
        match self.bank.number(name, quoted, arity) {
            Ok(n) => Ok(n),
            Err(BankFault::Memory) => Err(Fault::Memory),
            Err(BankFault::Full) => Err(Fault::Full),
        }
    }

    /// Returns the number of names. Names with other quotes or another number of arguments are
    /// counted apart.
    pub fn names(&self) -> u32
        ensures { result ≡ names_of (store_of self.now.bank) }
    {
        self.bank.names()
    }

    /// Limits the number of names to `most`. If there are more already, none is added.
    pub fn limit_names(&mut self, most: u32)
        ensures { IsSameButLimit self.old self.new most }
    {
        self.bank.limit_names(most);
    }

    /// Applies a numbered symbol to the terms of these numbers. `Unknown` if no symbol has the
    /// number, `Range` if the symbol has another number of arguments.
    pub fn apply(&mut self, n: usize, args: &[u32]) -> Result<Term, Fault>
        ensures answer { AppliesSymbol (signature_at self.old.bank n) (store_of self.old.bank)
            (store_of self.new.bank) args.now result }
        ensures beside { IsSameButBank self.old self.new }
    {
        let Some(symbol) = self.bank.symbol_at(n) else {
            return Err(Fault::Unknown);
        };
        if self.bank.shared_bank().arity_of(symbol) as usize != args.len() {
            return Err(Fault::Range);
        }
        if !self.are_held(args) {
            return Err(Fault::Stale);
        }
        term_or_fault(apply_symbol(&mut self.bank, symbol, args))
    }
}
