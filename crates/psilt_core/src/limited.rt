//! A store of shared terms with a limit on the number of its symbols.

ghost use Rattle.std.specs.Prelude.{◌≡◌, ◌≢◌, ◌<◌, ◌≤◌, ℕ, IfOk, IsFalse, IsTrue, Some};
ghost use Rattle.std.specs.FinMap as map;
ghost use Rattle.rx_term.specs.Name.{IsAllowed, Signature};
ghost use Rattle.rx_shared.specs.State.{store_of};
ghost use Rattle.rx_names.specs.Names.{symbols_of};
ghost use Rattle.psilt_core.specs.Names.{names_of, NamesOrRefuses};
ghost use Rattle.psilt_core.specs.Inner.Known.{SameSignatures, IsTableOf, known-prop};

use rx_names::Names;
use rx_shared::SharedBank;
use rx_term::{BankFault, Kind, RootsFull, Symbol, Term, TermBank};
use std::alloc::Global;

/// A store of shared terms with a limit on its symbols, which are never freed. The trait's `symbol`
/// has no error for this limit: a new symbol above it is reported as out of memory. `lacks_names`
/// distinguishes the two cases.
#[derive(Drop)]
pub(crate) struct LimitedBank {
    alloc: Global,
    pub(crate) shared: SharedBank,
    /// The number of symbols.
    names: u32,
    /// The largest number of symbols.
    most: u32,
    /// The table of all symbols, if one was looked up at the limit since the last one was added.
    known: Option<Names>,
    /// Whether a symbol was refused since the limit was set.
    refused: bool,
    ghost counted: { names ≡ names_of (store_of shared) },
    ghost same: { IsTableOf known (store_of shared).symbols } by { known-prop
        known (store_of shared).symbols },
}

/// Makes a table of the first `names` symbols, which are all symbols of the store.
fn table_of(alloc: Global, shared: &SharedBank, names: u32) -> Result<Names, BankFault>
    requires { names ≡ names_of (store_of shared.now) }
    ensures { IfOk result
        (λ n. SameSignatures (symbols_of n) (store_of shared.now).symbols) }
{
    let Ok(mut table) = Names::new(alloc) else {
        return Err(BankFault::Memory);
    };
    for number in 0..names {
        let symbol = Symbol(u64::from(number));
        let name = shared.name_of(symbol);
        let added = table.intern(name, shared.quoted_of(symbol), shared.arity_of(symbol));
        if added.is_err() {
            return Err(BankFault::Memory);
        }
    }
    Ok(table)
}

impl LimitedBank {
    /// Makes a store without symbols and without a limit.
    pub(crate) fn new(alloc: Global, shared: SharedBank) -> LimitedBank
        requires { names_of (store_of shared) ≡ 0 }
        ensures { result.shared ≡ shared }
    {
        LimitedBank {
            alloc,
            shared,
            names: 0,
            most: u32::MAX,
            known: None,
            refused: false,
        }
    }

    /// Limits the number of symbols to `most`. If there are more already, none is added.
    pub(crate) fn allow(&mut self, most: u32)
        ensures shared { self.new.shared ≡ self.old.shared }
        ensures most { self.new.most ≡ most }
    {
        self.most = most;
        self.refused = false;
    }

    /// Returns the number of symbols.
    pub(crate) fn names(&self) -> u32
        ensures { result ≡ names_of (store_of self.now.shared) }
    {
        self.names
    }

    /// Returns whether a symbol was refused since the limit was set, and there are at least `most`.
    pub(crate) fn lacks_names(&self, most: u32) -> bool
        ensures { IsTrue result → most ≤ names_of (store_of self.now.shared) }
    {
        self.refused && self.names >= most
    }

    /// Returns whether there are at most `before` or at most `most` symbols. After a call that does
    /// not observe the limit, only this shows whether the limit was passed.
    pub(crate) fn keeps(&self, before: u32, most: u32) -> bool
        ensures kept { IsTrue result → before < names_of (store_of self.now.shared)
            → names_of (store_of self.now.shared) ≤ most }
        ensures passed { IsFalse result → most < names_of (store_of self.now.shared) }
    {
        self.names <= before || self.names <= most
    }

    /// Returns the one symbol with this name, flag and number of arguments. `Full` if there is none
    /// and the number of symbols is at its limit.
    pub(crate) fn intern(
        &mut self,
        name: &[u8],
        quoted: bool,
        arity: u32,
    ) -> Result<Symbol, BankFault>
        requires { IsAllowed name.now quoted }
        ensures answer { NamesOrRefuses self.old.most (store_of self.old.shared)
            (store_of self.new.shared)
            (record { name = name.now; quoted = quoted; arity = arity }) result }
        ensures most { self.new.most ≡ self.old.most }
    {
        if self.names < self.most {
            self.add(name, quoted, arity)
        } else {
            self.find(name, quoted, arity)
        }
    }

    /// Returns the one symbol of a signature. The limit leaves room for one more.
    fn add(&mut self, name: &[u8], quoted: bool, arity: u32) -> Result<Symbol, BankFault>
        requires allowed { IsAllowed name.now quoted }
        requires room { self.old.names < self.old.most }
        ensures answer { NamesOrRefuses self.old.most (store_of self.old.shared)
            (store_of self.new.shared)
            (record { name = name.now; quoted = quoted; arity = arity }) result }
        ensures most { self.new.most ≡ self.old.most }
    {
        let Ok(symbol) = self.shared.symbol(name, quoted, arity) else {
            return Err(BankFault::Memory);
        };
        // symbols are numbered in the order in which they were made
        if symbol.0 >= u64::from(self.names) {
            self.names += 1;
            self.known = None;
        }
        Ok(symbol)
    }

    /// Returns the symbol of a signature, or `Full` if there is none. The limit is reached.
    fn find(&mut self, name: &[u8], quoted: bool, arity: u32) -> Result<Symbol, BankFault>
        requires allowed { IsAllowed name.now quoted }
        requires full { self.old.most ≤ self.old.names }
        ensures answer { NamesOrRefuses self.old.most (store_of self.old.shared)
            (store_of self.new.shared)
            (record { name = name.now; quoted = quoted; arity = arity }) result }
        ensures most { self.new.most ≡ self.old.most }
    {
        match self.is_known(name, quoted, arity) {
            Ok(true) => self.shared.symbol(name, quoted, arity),
            Ok(false) => Err(BankFault::Full),
            Err(_) => Err(BankFault::Memory),
        }
    }

    /// Returns whether a signature has a symbol.
    fn is_known(&mut self, name: &[u8], quoted: bool, arity: u32) -> Result<bool, BankFault>
        requires { IsAllowed name.now quoted }
        ensures lacks { let g : Signature
            = record { name = name.now; quoted = quoted; arity = arity } in
            IfOk result (λ known. IsFalse known → (s : ℕ)
            → map.get (store_of self.old.shared).symbols s ≢ Some g) }
        ensures has { let g : Signature
            = record { name = name.now; quoted = quoted; arity = arity } in
            IfOk result (λ known. IsTrue known → ((s : ℕ)
            → map.get (store_of self.old.shared).symbols s ≢ Some g) → ⊥) }
        ensures shared { self.new.shared ≡ self.old.shared }
        ensures names { self.new.names ≡ self.old.names }
        ensures most { self.new.most ≡ self.old.most }
    {
        let table = match self.take_table() {
            Ok(table) => table,
            Err(fault) => return Err(fault),
        };
        let is_known = table.find(name, quoted, arity).is_some();
        self.known = Some(table);
        Ok(is_known)
    }

    /// Takes the table of all symbols, or makes one if there is none.
    fn take_table(&mut self) -> Result<Names, BankFault>
        ensures table { IfOk result (λ n. SameSignatures (symbols_of n)
            (store_of self.old.shared).symbols) }
        ensures shared { self.new.shared ≡ self.old.shared }
        ensures names { self.new.names ≡ self.old.names }
        ensures most { self.new.most ≡ self.old.most }
    {
        match self.known.take() {
            Some(table) => Ok(table),
            None => table_of(self.alloc, &self.shared, self.names),
        }
    }
}

impl TermBank for LimitedBank {
    ghost use Rattle.rx_shared.specs.Inner.Soundness.{sound as shared_sound};

    ghost store = { λ b. store_of b.shared };

    fn symbol(&mut self, name: &[u8], quoted: bool, arity: u32) -> Result<Symbol, BankFault> {
        match self.intern(name, quoted, arity) {
            Ok(symbol) => Ok(symbol),
            Err(BankFault::Memory) => Err(BankFault::Memory),
            Err(BankFault::Full) => {
                self.refused = true;
                Err(BankFault::Memory)
            }
        }
    }

    #[inline(always)]
    fn int(&mut self, z: i32) -> Result<Term, BankFault> {
        self.shared.int(z)
    }

    #[inline(always)]
    fn nil(&mut self) -> Result<Term, BankFault> {
        self.shared.nil()
    }

    #[inline(always)]
    fn cons(&mut self, head: Term, tail: Term) -> Result<Term, BankFault> {
        self.shared.cons(head, tail)
    }

    #[inline(always)]
    fn appl(&mut self, sym: Symbol, args: Term) -> Result<Term, BankFault> {
        self.shared.appl(sym, args)
    }

    #[inline(always)]
    fn hole(&mut self, inner: Term) -> Result<Term, BankFault> {
        self.shared.hole(inner)
    }

    #[inline(always)]
    fn annotated(&mut self, t: Term, anns: Term) -> Result<Term, BankFault> {
        self.shared.annotated(t, anns)
    }

    #[inline(always)]
    fn kind(&self, t: Term) -> Kind {
        self.shared.kind(t)
    }

    #[inline(always)]
    fn head(&self, t: Term) -> Term {
        self.shared.head(t)
    }

    #[inline(always)]
    fn tail(&self, t: Term) -> Term {
        self.shared.tail(t)
    }

    #[inline(always)]
    fn args(&self, t: Term) -> Term {
        self.shared.args(t)
    }

    #[inline(always)]
    fn inner(&self, t: Term) -> Term {
        self.shared.inner(t)
    }

    #[inline(always)]
    fn anns(&self, t: Term) -> Option<Term> {
        self.shared.anns(t)
    }

    #[inline(always)]
    fn name_of(&self, sym: Symbol) -> &[u8] {
        self.shared.name_of(sym)
    }

    #[inline(always)]
    fn quoted_of(&self, sym: Symbol) -> bool {
        self.shared.quoted_of(sym)
    }

    #[inline(always)]
    fn arity_of(&self, sym: Symbol) -> u32 {
        self.shared.arity_of(sym)
    }

    #[inline(always)]
    fn protect(&mut self, t: Term) -> Result<(), RootsFull> {
        self.shared.protect(t)
    }

    #[inline(always)]
    fn unprotect(&mut self, t: Term) {
        self.shared.unprotect(t);
    }

    fn reclaim(&mut self, extra: &[Term]) {
        self.shared.reclaim(extra);
    }

    #[inline(always)]
    fn holds(&self, t: Term) -> bool {
        self.shared.holds(t)
    }

    #[inline(always)]
    fn cells(&self) -> u32 {
        self.shared.cells()
    }

    #[inline(always)]
    fn spare(&self) -> u32 {
        self.shared.spare()
    }

    #[inline(always)]
    fn cap(&self) -> u32 {
        self.shared.cap()
    }

    fn reserve(&mut self, k: u32) -> Result<(), BankFault> {
        self.shared.reserve(k)
    }

    ghost sound = { λ b. shared_sound b.shared };
}
