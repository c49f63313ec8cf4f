//! A store that counts the calls that it receives.

ghost use Rattle.std.specs.Prelude.{◌≡◌};

use rx_term::{BankFault, Kind, RootsFull, Symbol, Term, TermBank};

/// The numbers of calls.
#[derive(Clone, Copy, Drop)]
pub(crate) struct Counts {
    /// The number of terms that were made.
    pub(crate) makes: u64,
    /// The number of them that took a new cell.
    pub(crate) cells: u64,
    /// The number of collections.
    pub(crate) reclaims: u64,
    /// The length of the longest list of roots.
    pub(crate) longest: usize,
}

/// A store with the counts of its calls.
#[derive(Drop)]
pub(crate) struct Counting<B> {
    pub(crate) bank: B,
    pub(crate) counts: Counts,
}

impl<B> Counting<B> {
    /// Returns a wrapper with all counts zero.
    pub(crate) fn new(bank: B) -> Counting<B>
        ensures { result.bank ≡ bank }
    {
        let counts = Counts {
            makes: 0,
            cells: 0,
            reclaims: 0,
            longest: 0,
        };
        Counting { bank, counts }
    }
}

impl<B: TermBank> Counting<B> {
    /// Counts a term that was made; `before` is the number of cells before.
    fn count(&mut self, before: u32)
        ensures { self.new.bank ≡ self.old.bank }
    {
        self.counts.makes = self.counts.makes.saturating_add(1);
        if self.bank.cells() > before {
            self.counts.cells = self.counts.cells.saturating_add(1);
        }
    }
}

impl<B: TermBank> TermBank for Counting<B> {
    ghost store = { λ b. B.store b.bank };

    fn symbol(&mut self, name: &[u8], quoted: bool, arity: u32) -> Result<Symbol, BankFault> {
        self.bank.symbol(name, quoted, arity)
    }

    fn int(&mut self, z: i32) -> Result<Term, BankFault> {
        let before = self.bank.cells();
        let made = self.bank.int(z);
        self.count(before);
        made
    }

    fn nil(&mut self) -> Result<Term, BankFault> {
        let before = self.bank.cells();
        let made = self.bank.nil();
        self.count(before);
        made
    }

    fn cons(&mut self, head: Term, tail: Term) -> Result<Term, BankFault> {
        let before = self.bank.cells();
        let made = self.bank.cons(head, tail);
        self.count(before);
        made
    }

    fn appl(&mut self, sym: Symbol, args: Term) -> Result<Term, BankFault> {
        let before = self.bank.cells();
        let made = self.bank.appl(sym, args);
        self.count(before);
        made
    }

    fn hole(&mut self, inner: Term) -> Result<Term, BankFault> {
        let before = self.bank.cells();
        let made = self.bank.hole(inner);
        self.count(before);
        made
    }

    fn annotated(&mut self, t: Term, anns: Term) -> Result<Term, BankFault> {
        let before = self.bank.cells();
        let made = self.bank.annotated(t, anns);
        self.count(before);
        made
    }

    fn kind(&self, t: Term) -> Kind {
        self.bank.kind(t)
    }

    fn head(&self, t: Term) -> Term {
        self.bank.head(t)
    }

    fn tail(&self, t: Term) -> Term {
        self.bank.tail(t)
    }

    fn args(&self, t: Term) -> Term {
        self.bank.args(t)
    }

    fn inner(&self, t: Term) -> Term {
        self.bank.inner(t)
    }

    fn anns(&self, t: Term) -> Option<Term> {
        self.bank.anns(t)
    }

    fn name_of(&self, sym: Symbol) -> &[u8] {
        self.bank.name_of(sym)
    }

    fn quoted_of(&self, sym: Symbol) -> bool {
        self.bank.quoted_of(sym)
    }

    fn arity_of(&self, sym: Symbol) -> u32 {
        self.bank.arity_of(sym)
    }

    fn protect(&mut self, t: Term) -> Result<(), RootsFull> {
        self.bank.protect(t)
    }

    fn unprotect(&mut self, t: Term) {
        self.bank.unprotect(t);
    }

    fn reclaim(&mut self, extra: &[Term]) {
        self.counts.reclaims = self.counts.reclaims.saturating_add(1);
        self.counts.longest = self.counts.longest.max(extra.len());
        self.bank.reclaim(extra);
    }

    fn holds(&self, t: Term) -> bool {
        self.bank.holds(t)
    }

    fn cells(&self) -> u32 {
        self.bank.cells()
    }

    fn spare(&self) -> u32 {
        self.bank.spare()
    }

    fn cap(&self) -> u32 {
        self.bank.cap()
    }

    fn reserve(&mut self, k: u32) -> Result<(), BankFault> {
        self.bank.reserve(k)
    }

    ghost sound = { λ b. B.sound b.bank };
}
