//! The lowest-numbered rule that matches a term of a store.

ghost use Rattle.std.specs.Prelude.{ℕ, ◌≡◌, ◌<◌, ◌++◌, [], All, length, map};
ghost use Rattle.std.specs.Prelude.{IfOk, IfErr, IsSome, Some, None};
ghost use Rattle.rx_term.specs.Store.{tree_at};
ghost use Rattle.rx_term.specs.Kinds.{HasAppl, HasAnns};
ghost use Rattle.rec_sorts.specs.Linked.{NumberOf};
ghost use Rattle.rec_match.specs.Forests.{IsWithin, StandAbove, value_in, values_among};
ghost use Rattle.rec_match.specs.Next.{AreLater, AreReady, Answers, Reaches};

use crate::forest::{Place, Values};
use crate::matcher::Matcher;
use crate::registers::push_arguments;
use rx_term::{Kind, Symbol, Term, TermBank};
use smallvec::SmallVec;
use std::alloc::AllocError;

/// A term that is an application, its symbol, and the symbol's number in the specification.
#[derive(Clone, Copy)]
struct Call {
    term: Term,
    symbol: Symbol,
    number: u32,
}

/// Appends the values at these positions to `bind`. If allocation fails, `bind` is unchanged.
fn read_places(
    places: &[Place],
    work: &[Term],
    bind: &mut SmallVec<Term, 8>,
) -> Result<(), AllocError>
    requires there { All (IsWithin 0 work.now) places.now }
    ensures read { IfOk result (λ u. bind.new.items
        ≡ bind.old.items ++ map (value_in 0 work.now) places.now) }
    ensures same { IfErr result (λ refused. bind.new.items ≡ bind.old.items) }
{
    bind.reserve(places.len())?;
    for place in places {
        let value = work[place.register() as usize];
        bind.push_reserved(value);
    }
    Ok(())
}

impl Matcher {
    /// Returns the first rule of a symbol with a number of at least `from`.
    fn first_rule(&self, symbol: u32, from: u32) -> u32
        requires symbol { symbol < length self.now.heads.items }
        requires later { AreLater self.now }
        ensures { Reaches self.now symbol from result }
    {
        let mut at = self.heads[symbol as usize];
        while at < from && (at as usize) < self.sides.len() {
            at = self.sides[at as usize].next;
        }
        at
    }

    /// Appends the values of a rule that was found. If allocation fails, `bind` is unchanged.
    fn read_values(
        &self,
        values: Values,
        work: &[Term],
        bind: &mut SmallVec<Term, 8>,
    ) -> Result<(), AllocError>
        requires there { (n : ℕ) × StandAbove self.now.forest 0 n work.now values }
        ensures read { IfOk result (λ u. bind.new.items
            ≡ bind.old.items ++ values_among self.now.forest 0 work.now values) }
        ensures same { IfErr result (λ refused. bind.new.items ≡ bind.old.items) }
    {
        match values {
            Values::OnTop(from) => bind.extend_from_slice(&work[from..]),
            Values::InRegisters { from, to } => {
                let places = &self.forest.places[from..to];
                read_places(places, work, bind)
            }
        }
    }

    /// Searches like `next` for an application without annotations whose symbol has a number. It
    /// pushes the arguments on `work`, which is empty before.
    fn next_call<B: TermBank>(
        &self,
        bank: &B,
        call: Call,
        from: u32,
        work: &mut Vec<Term>,
        bind: &mut SmallVec<Term, 8>,
    ) -> Result<Option<u32>, AllocError>
        requires ready { AreReady (B.store bank.now) self.now }
        requires appl { HasAppl (B.store bank.now) call.term call.symbol }
        requires number { NumberOf self.now.links call.symbol (Some call.number) }
        requires bare { HasAnns (B.store bank.now) call.term None }
        requires work { work.old.items ≡ [] }
        requires empty { bind.old.items ≡ [] }
        ensures answers { IfOk result
            (Answers (B.store bank.now) self.now call.term from bind.new.items) }
        ensures empty { IfErr result (λ refused. bind.new.items ≡ []) }
    {
        let at = self.first_rule(call.number, from);
        if self.sides.len() <= at as usize {
            return Ok(None);
        }
        let count = bank.arity_of(call.symbol);
        push_arguments(bank, bank.args(call.term), count, work)?;
        let Some(hit) = self.find_rule(bank, call.number, count, at, work)? else {
            return Ok(None);
        };
        self.read_values(hit.values, work, bind)?;
        Ok(Some(hit.rule))
    }

    /// Returns the lowest-numbered rule, at least `from`, whose left-hand side matches the term
    /// `u`, and in `bind` the values of its variables in the order of their first occurrence. Rules
    /// are numbered from 0 in the order of the text. Returns `None`, with `bind` empty, if there is
    /// no such rule. The only error is out of memory; `bind` is empty then too.
    pub fn next<B: TermBank>(
        &self,
        bank: &B,
        u: Term,
        from: u32,
        bind: &mut SmallVec<Term, 8>,
    ) -> Result<Option<u32>, AllocError>
        requires held { IsSome (tree_at (B.store bank.now) u) }
        requires ready { AreReady (B.store bank.now) self.now }
        ensures answers { IfOk result (Answers (B.store bank.now) self.now u from bind.new.items) }
        ensures empty { IfErr result (λ refused. bind.new.items ≡ []) }
    {
        let mut work = Vec::new(*bind.allocator());
        self.next_on(bank, u, from, &mut work, bind)
    }

    /// Returns the lowest-numbered rule like `next`, with a buffer of the caller. The contents of
    /// `work` after the call are not specified.
    pub fn next_on<B: TermBank>(
        &self,
        bank: &B,
        u: Term,
        from: u32,
        work: &mut Vec<Term>,
        bind: &mut SmallVec<Term, 8>,
    ) -> Result<Option<u32>, AllocError>
        requires held { IsSome (tree_at (B.store bank.now) u) }
        requires ready { AreReady (B.store bank.now) self.now }
        ensures answers { IfOk result (Answers (B.store bank.now) self.now u from bind.new.items) }
        ensures empty { IfErr result (λ refused. bind.new.items ≡ []) }
    {
        bind.clear();
        let Kind::Appl(symbol) = bank.kind(u) else {
            return Ok(None);
        };
        let Some(number) = self.links.op_of(symbol) else {
            return Ok(None);
        };
        if bank.anns(u).is_some() {
            return Ok(None);
        }
        work.clear();
        let call = Call {
            term: u,
            symbol,
            number,
        };
        self.next_call(bank, call, from, work, bind)
    }
}
