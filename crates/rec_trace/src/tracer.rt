//! The machine that makes a trace, one rewrite after another.

mod beginning;
mod finding;
mod rewriting;
mod running;

ghost use Rattle.std.specs.Prelude.{◌≡◌, ◌<◌, ◌+◌, ◌⊎◌, ℕ, None, IfOk, false, length, IfErr};
ghost use Rattle.rx_term.specs.Store.{tree_at};
ghost use Rattle.rx_term.specs.Tree.{Trees};
ghost use Rattle.rx_term.specs.Walks.{held_tree};
ghost use Rattle.rec_syntax.specs.Syntax.{Rule};
ghost use Rattle.rec_sorts.specs.Binding.{Substitution, application, next_match};
ghost use Rattle.rec_sorts.specs.Lookup.{symbols};
ghost use Rattle.rec_sorts.specs.Numbering.{name_of};
ghost use Rattle.rec_sorts.specs.declared.letters.Meaning.TheVariants.{Symbol};
ghost use Rattle.rec_engine.specs.Engine.{SameEngine};
ghost use Rattle.rec_trace.specs.Inner.Calls.{Relists};
ghost use Rattle.rec_trace.specs.Inner.Sides.{HasSide, HasValues, IsMatch};
ghost use Rattle.rec_trace.specs.Inner.Spreading.{CanSpread, top_of};
ghost use Rattle.rec_trace.specs.Inner.Turns.{CanCall, ComesTo, HasFired};
ghost use Rattle.rec_trace.specs.Lists.{IsKept, Stays, count_among};
ghost use Rattle.rec_trace.specs.Tracing.{IsEvent, IsInOrder, IsLimit, IsTurn, Stands};
ghost use Rattle.rec_trace.specs.declared.sides.Side.TheVariants.{Contractum};
ghost use Rattle.rec_trace.specs.declared.tracer.Event.TheVariants.{Limit};
ghost use Rattle.rec_engine.specs.declared.engine.errors.EngineFault.TheVariants.{Memory};
ghost use Rattle.rec_trace.specs.Faults.{RoomOnlyIfFull};

use crate::row::{Row, Step};
use crate::saved::Saved;
use crate::sides::Side;
use rec_engine::{Engine, EngineFault};
pub use rewriting::Rewrite;
use rx_term::{Term, TermBank};
use smallvec::SmallVec;
use std::alloc::Global;

/// The result of a search for a rule that applies to a call.
#[derive(Clone, Copy, Drop)]
pub(crate) enum Found {
    /// The rule with this number applies.
    Rule(u32),
    /// No rule applies.
    Nothing,
    /// More steps are needed than are left.
    Limit,
}

/// The result of one step of a trace.
#[derive(Clone, Copy, Drop)]
pub enum Turn {
    /// The rule with this number, from 0, has replaced the redex by the contractum.
    Fired {
        rule: u32,
        redex: Term,
        contractum: Term,
    },
    /// No rule applies any more: the value.
    Value {
        term: Term,
    },
    /// More steps are needed than were given.
    Limit,
}

/// The result of one step of a trace, before the contractum is built.
#[derive(Clone, Copy, Drop)]
pub enum Event {
    /// The rule with this number, from 0, is applied to this redex.
    Fired { rule: u32, redex: Term },
    /// No rule applies any more: the value.
    Value { term: Term },
    /// More steps are needed than were given.
    Limit,
}

/// The state of the trace of a term over an engine. Each call gets the same engine, which is not
/// called in between.
#[derive(Drop)]
pub struct Tracer {
    row: Row,
    saved: Saved,
    left: u64,
    /// The values of the rule that matched last.
    bind: SmallVec<Term, 8>,
    /// Scratch memory of the matcher.
    work: Vec<Term>,
}

/// Returns whether a symbol may have rules. If it has none, no rule matches an application of it.
fn has_rules<B: TermBank>(engine: &Engine<B>, symbol: u32) -> bool
    requires { symbol < length (symbols engine.now.spec) }
    ensures { result ≡ false → (args : Trees) → next_match engine.now.spec 0
        (application (name_of engine.now.spec (Symbol symbol)) args) ≡ None }
{
    let matcher = engine.matcher();
    (matcher.heads[symbol as usize] as usize) < matcher.sides.len()
}

impl Tracer {
    /// Returns a tracer before its first operation.
    fn new(alloc: Global, row: Row, saved: Saved, left: u64) -> Tracer
        ensures row { result.row ≡ row }
        ensures saved { result.saved ≡ saved }
        ensures left { result.left ≡ left }
    {
        Tracer {
            row,
            saved,
            left,
            bind: SmallVec::new(alloc),
            work: Vec::new(alloc),
        }
    }

    /// Returns the number of steps left.
    pub fn left(&self) -> u64
        ensures { result ≡ self.now.left }
    {
        self.left
    }

    /// Ends a trace, and drops the protection of its values in the engine's store.
    pub fn end<B: TermBank>(self, engine: &mut Engine<B>)
        requires { IsKept (B.store engine.old.bank) self.saved.list }
        ensures same { SameEngine engine.old engine.new }
        ensures counts { (k : ℕ) → (B.store engine.new.bank).roots k
            + count_among self.saved.list k ≡ (B.store engine.old.bank).roots k }
        ensures trees { (t : Term) → tree_at (B.store engine.new.bank) t
            ≡ tree_at (B.store engine.old.bank) t }
        ensures cap { (B.store engine.new.bank).cap ≡ (B.store engine.old.bank).cap }
    {
        engine.unprotect(self.saved.list);
    }

    /// Applies a rule to the tree on top, with the values that were found last. Returns that tree.
    fn fire<B: TermBank>(&mut self, engine: &Engine<B>, rule: u32) -> Result<Term, EngineFault>
        requires order { IsInOrder engine.now.spec (B.store engine.now.bank) self.old }
        requires can { CanSpread engine.now.spec (B.store engine.now.bank) self.old.row rule
            self.old.bind.items (λ r. HasSide r Contractum) }
        ensures saved { self.new.saved ≡ self.old.saved }
        ensures fires { IfOk result (λ redex. (r : Rule) (s : Substitution)
            → IsMatch engine.now.spec rule
            (held_tree (B.store engine.now.bank) (top_of self.old.row)) r s
            → HasValues (B.store engine.now.bank) (top_of self.old.row) self.old.bind.items s
            → HasFired engine.now.spec (B.store engine.now.bank) (B.store engine.now.bank)
            self.old self.new r s redex) }
        ensures memory { IfErr result (λ e. e ≡ Memory) }
    {
        let redex = self.row.top();
        self.row.spread(engine, rule, Side::Contractum, &self.bind)?;
        Ok(redex)
    }

    /// Calls a symbol on the values on top. Returns a rewrite or the limit, or `None` if no rule
    /// applies.
    fn call<B: TermBank>(
        &mut self,
        engine: &mut Engine<B>,
        symbol: u32,
        count: u32,
    ) -> Result<Option<Event>, EngineFault>
        requires can { CanCall engine.old.spec (B.store engine.old.bank) self.old symbol count }
        ensures relists { Relists B.store engine.old engine.new self.old.saved.list
            self.new.saved.list result }
        ensures comes { IfOk result (λ event. ComesTo engine.old.spec (B.store engine.old.bank)
            (B.store engine.new.bank) self.old self.new
            (name_of engine.old.spec (Symbol symbol)) count event) }
    {
        self.row.apply(engine, symbol, count)?;
        if !has_rules(engine, symbol) {
            return Ok(None);
        }
        match self.find(engine)? {
            Found::Rule(rule) => {
                let redex = self.fire(engine, rule)?;
                Ok(Some(Event::Fired { rule, redex }))
            }
            Found::Nothing => Ok(None),
            Found::Limit => Ok(Some(Event::Limit)),
        }
    }

    /// Continues to the next rewrite, to the value or to the limit, and does not build the
    /// contractum. [`Tracer::rewrite`] builds it, if it is called before the next event.
    ///
    /// Errors are those of [`Tracer::next_step`].
    pub fn next_event<B: TermBank>(&mut self, engine: &mut Engine<B>) -> Result<Event, EngineFault>
        requires { Stands engine.old.spec (B.store engine.old.bank) self.old }
        ensures same { SameEngine engine.old engine.new }
        ensures spares { Stays (B.store engine.old.bank) (B.store engine.new.bank)
            self.old.saved.list self.new.saved.list }
        ensures stands { IfOk result (λ event. (event ≡ Limit)
            ⊎ Stands engine.old.spec (B.store engine.new.bank) self.new) }
        ensures event { IfOk result (IsEvent engine.old.spec (B.store engine.old.bank)
            (B.store engine.new.bank) self.old self.new) }
        ensures room { RoomOnlyIfFull (B.store engine.new.bank) engine.new.memo result }
    {
        'turns: while let Some(step) = self.row.steps.pop() {
            match step {
                Step::Give(value) => self.row.give(value)?,
                Step::GiveLast { value, at } => self.row.give_last(value, at)?,
                Step::Invoke { symbol, count } => {
                    if let Some(event) = self.call(engine, symbol, count)? {
                        return Ok(event);
                    }
                }
            }
        }
        let term = self.row.top();
        Ok(Event::Value { term })
    }

    /// Continues to the next rewrite, to the value or to the limit.
    ///
    /// # Errors
    ///
    /// `Memory` if an allocation failed, `Room` if the store is full and the memo table is empty.
    /// After an error or a limit, the tracer can only be ended.
    pub fn next_step<B: TermBank>(
        &mut self,
        alloc: Global,
        engine: &mut Engine<B>,
    ) -> Result<Turn, EngineFault>
        requires { Stands engine.old.spec (B.store engine.old.bank) self.old }
        ensures same { SameEngine engine.old engine.new }
        ensures spares { Stays (B.store engine.old.bank) (B.store engine.new.bank)
            self.old.saved.list self.new.saved.list }
        ensures stands { IfOk result (λ turn. IsLimit turn
            ⊎ Stands engine.old.spec (B.store engine.new.bank) self.new) }
        ensures turn { IfOk result (IsTurn engine.old.spec (B.store engine.old.bank)
            (B.store engine.new.bank) self.old self.new) }
        ensures room { RoomOnlyIfFull (B.store engine.new.bank) engine.new.memo result }
    {
        match self.next_event(engine)? {
            Event::Limit => Ok(Turn::Limit),
            Event::Value { term } => Ok(Turn::Value { term }),
            Event::Fired { rule, redex } => {
                let Rewrite { redex, contractum } = self.rewrite(alloc, engine, rule, redex)?;
                Ok(Turn::Fired {
                    rule,
                    redex,
                    contractum,
                })
            }
        }
    }
}
