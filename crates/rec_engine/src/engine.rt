//! The engine: a specification, a term store, and the evaluation of terms.

mod calls;
pub(crate) mod counting;
pub(crate) mod errors;
mod evaluation;
mod lent;
pub(crate) mod limits;
mod parts;
mod prepared;
mod shared;
mod shorthand;
pub(crate) mod watch;

ghost use Rattle.std.specs.Prelude.{◌≡◌, ◌<◌, ◌-◌, [], Some, IfErr, IfOk, IsSome};
ghost use Rattle.std.specs.Prelude.{Contains, length};
ghost use Rattle.rx_term.specs.Tree.{Tree};
ghost use Rattle.rx_term.specs.Store.{tree_at};
ghost use Rattle.rx_term.specs.Steps.{Keeps, ProtectsOrRefuses, with_count};
ghost use Rattle.rx_term.specs.Walks.{AllHeld, held_tree};
ghost use Rattle.rec_sorts.specs.Linked.{HasMoreSymbols, AreLinked};
ghost use Rattle.rec_sorts.specs.Evaluation.{term_of};
ghost use Rattle.rec_sorts.specs.Binding.{tree_of};
ghost use Rattle.rec_match.specs.Next.{IsReady as IsMatcherOf};
ghost use Rattle.rec_engine.specs.Machine.{IsCode};
ghost use Rattle.rec_engine.specs.Constants.{KnowsNone};
ghost use Rattle.rec_engine.specs.Cells.{RoomOnly};
ghost use Rattle.rec_engine.specs.Engine.{AreInRange, SameEngine, IsGiven, eval_tree};
ghost use Rattle.rec_engine.specs.Engine.{LetsGo, RemembersNothing, RoomOnlyFor};
ghost use Rattle.rec_engine.specs.Engine.{Spells};

use crate::compile::code::Op;
use crate::engine::errors::EngineFault;
use crate::engine::parts::Parts;
use crate::heap::Heap;
use crate::vm::Machine;
pub use prepared::Prepared;
use rec_match::Matcher;
use rec_sorts::{Checked, Letter};
use rx_term::{RootsFull, Term, TermBank};
use std::alloc::Global;
use std::marker::Model;

/// Settings of an engine.
#[derive(Clone, Copy, PartialEq, Eq, Debug, Drop)]
pub struct Options {
    /// Capacity of the memo table in results, at most 1,048,576; 0 turns it off.
    pub memo: u32,
    /// Collect garbage at the latest after this number of new cells, 1 to 1,073,741,824.
    pub reclaim_every: u32,
}

/// The outcome of an evaluation.
#[derive(Clone, Copy, PartialEq, Eq, Drop)]
pub enum Outcome {
    /// The normal form, and the number of steps that it took.
    Value { term: Term, steps: u64 },
    /// The step limit is too low.
    Limit,
}

/// The end of an evaluation under a control.
#[derive(Clone, Copy, PartialEq, Eq, Drop)]
pub enum Controlled {
    /// The evaluation was not stopped.
    Ended(Outcome),
    /// The control stopped the evaluation.
    Stopped,
}

/// Evaluates terms of one specification over one term store. Each call of `eval_term` or
/// `normalise` may collect garbage. It keeps protected terms, its argument and its result; the
/// result is kept until the next such call.
#[derive(Drop)]
pub struct Engine<B: TermBank> {
    machine: Machine<B>,
    options: Options,
    /// The number of EVAL terms.
    terms: u32,
    /// Scratch space for the instructions of an input term.
    found: Vec<Op>,
}

impl<B: TermBank> Model for Engine<B> {
    ghost use Rattle.std.specs.Prelude.{◌≡◌, length};
    ghost use Rattle.rec_engine.specs.Turn.{IsReady};
    ghost use Rattle.rec_engine.specs.Engine.{EngineState, engine_code};

    ghost Value = { EngineState B };

    ghost coded = { engine_code B.code };

    ghost view = { λ e. record {
      spec = e.machine.checked.spec;
      options = e.options;
      bank = e.machine.heap.bank;
      memo = e.machine.heap.pace.memo;
      work = e.machine.heap.work.items;
      waiting = length e.machine.state.frames.items;
      bound = e.machine.state.depth;
    } };

    ghost invariant = { λ e. (e.terms ≡ length e.machine.checked.spec.terms)
        × IsReady B.store e.machine };
}

/// Empties the value stack after an allocation has failed.
fn let_go<T>(work: &mut Vec<Term>, answer: &Result<T, EngineFault>)
    ensures { LetsGo answer.now work.old.items work.new.items }
{
    if let Err(EngineFault::Memory) = answer {
        work.clear();
    }
}

impl<B: TermBank> Engine<B> {
    /// Creates an engine for a specification over a term store. Only adds symbols to the store. The
    /// only error is out of memory, which returns the store.
    pub fn over(
        alloc: Global,
        checked: Checked,
        mut bank: B,
        options: Options,
    ) -> Result<Engine<B>, B>
        requires { AreInRange options }
        ensures spec { IfOk result (λ e. e.spec ≡ checked.spec) }
        ensures options { IfOk result (λ e. e.options ≡ options) }
        ensures store { IfOk result (λ e. HasMoreSymbols (B.store bank) (B.store e.bank)) }
        ensures memo { IfOk result (λ e. RemembersNothing options.memo e.memo) }
        ensures work { IfOk result (λ e. e.work ≡ []) }
        ensures refused { IfErr result (λ b. HasMoreSymbols (B.store bank) (B.store b)) }
    {
        match Parts::find(alloc, &checked, &mut bank, options) {
            Ok(parts) => Ok(Engine::assemble(alloc, checked, bank, options, parts)),
            Err(_) => Err(bank),
        }
    }

    /// Assembles an engine from its parts.
    fn assemble(
        alloc: Global,
        checked: Checked,
        bank: B,
        options: Options,
        parts: Parts,
    ) -> Engine<B>
        requires code { IsCode checked.spec parts.code.value }
        requires linked { AreLinked checked.spec (B.store bank) parts.code.value.links }
        requires terms { parts.terms ≡ length checked.spec.terms }
        requires constants { KnowsNone parts.pace.constants }
        requires memo { RemembersNothing options.memo parts.pace.memo }
        ensures spec { result.spec ≡ checked.spec }
        ensures options { result.options ≡ options }
        ensures store { B.store result.bank ≡ B.store bank }
        ensures memo { RemembersNothing options.memo result.memo }
        ensures work { result.work ≡ [] }
    {
        let heap = Heap {
            bank,
            work: Vec::new(alloc),
            pace: parts.pace,
        };
        let machine = Machine {
            checked,
            heap,
            code: Box::into_inner(parts.code),
            state: parts.state,
        };
        Engine {
            machine,
            options,
            terms: parts.terms,
            found: Vec::new(alloc),
        }
    }

    /// Returns the store, and the references that the last call of `eval_term` or `normalise`
    /// needed.
    pub fn into_parts(self) -> (B, Vec<Term>)
        ensures bank { result.0 ≡ self.bank }
        ensures work { result.1.items ≡ self.work }
    {
        let Engine {
            machine,
            options: _,
            terms: _,
            found,
        } = self;
        drop(found);
        let Machine {
            checked,
            heap,
            code,
            state,
        } = machine;
        drop(checked);
        drop(code);
        drop(state);
        let Heap { bank, work, pace } = heap;
        drop(pace);
        (bank, work)
    }

    /// Returns the number of EVAL terms.
    pub fn eval_terms(&self) -> u32
        ensures { result ≡ length self.now.spec.terms }
    {
        self.terms
    }

    /// Returns the EVAL term with index `i`, counted from 0.
    pub fn eval_term(&mut self, i: u32) -> Result<Term, EngineFault>
        requires { i < length self.old.spec.terms }
        ensures same { SameEngine self.old self.new }
        ensures keeps { Keeps (B.store self.old.bank) (B.store self.new.bank) [] }
        ensures term { IfOk result
            (λ t. tree_at (B.store self.new.bank) t ≡ eval_tree self.new.spec i) }
        ensures given { IfOk result (IsGiven self.new.spec (B.store self.new.bank)) }
        ensures kept { IfOk result (Contains self.new.work) }
        ensures held { AllHeld (B.store self.new.bank) self.new.work }
        ensures room { RoomOnlyFor (B.store self.new.bank) self.new.memo
            (eval_tree self.new.spec i) result }
        ensures needed { RoomOnly (B.store self.new.bank) self.new.work self.new.memo result }
    {
        let machine = &mut self.machine;
        let checked = &machine.checked;
        let letters = &checked.terms()[i as usize];
        let made = machine
            .heap
            .make_term(checked, &machine.code.links, letters);
        let_go(&mut machine.heap.work, &made);
        made
    }

    /// Makes the term of some postfix items, as `check_terms` and `term_letters` return them for an
    /// accepted input term. The term has no annotations.
    pub fn given_term(&mut self, letters: &[Letter]) -> Result<Term, EngineFault>
        requires { (u : Tree) × Spells self.old.spec letters.now u }
        ensures same { SameEngine self.old self.new }
        ensures keeps { Keeps (B.store self.old.bank) (B.store self.new.bank) [] }
        ensures term { IfOk result (λ t. (u : Tree) → Spells self.old.spec letters.now u
            → tree_at (B.store self.new.bank) t ≡ Some (tree_of (term_of u))) }
        ensures given { IfOk result (IsGiven self.new.spec (B.store self.new.bank)) }
        ensures kept { IfOk result (Contains self.new.work) }
        ensures held { AllHeld (B.store self.new.bank) self.new.work }
        ensures room { (u : Tree) → Spells self.old.spec letters.now u
            → RoomOnlyFor (B.store self.new.bank) self.new.memo (Some (tree_of (term_of u)))
            result }
        ensures needed { RoomOnly (B.store self.new.bank) self.new.work self.new.memo result }
    {
        let machine = &mut self.machine;
        let made = machine
            .heap
            .make_term(&machine.checked, &machine.code.links, letters);
        let_go(&mut machine.heap.work, &made);
        made
    }

    /// Copies an input term of another store, which `check_terms` accepted, into the store of the
    /// engine, without its annotations. Each of its different subterms is visited once: takes
    /// expected time and memory linear in their number, with their arguments and the lengths of
    /// their names.
    pub fn given_from<N: TermBank>(&mut self, own: &N, t: Term) -> Result<Term, EngineFault>
        requires { IsGiven self.old.spec (N.store own.now) t }
        ensures same { SameEngine self.old self.new }
        ensures keeps { Keeps (B.store self.old.bank) (B.store self.new.bank) [] }
        ensures term { IfOk result (λ r. tree_at (B.store self.new.bank) r
            ≡ Some (tree_of (term_of (held_tree (N.store own.now) t)))) }
        ensures given { IfOk result (IsGiven self.new.spec (B.store self.new.bank)) }
        ensures kept { IfOk result (Contains self.new.work) }
        ensures held { AllHeld (B.store self.new.bank) self.new.work }
        ensures room { RoomOnlyFor (B.store self.new.bank) self.new.memo
            (Some (tree_of (term_of (held_tree (N.store own.now) t)))) result }
        ensures needed { RoomOnly (B.store self.new.bank) self.new.work self.new.memo result }
    {
        let made = self.machine.heap.copy_term(own, t);
        let_go(&mut self.machine.heap.work, &made);
        made
    }

    /// Protects a term, so that each later call keeps it. Protections are counted.
    pub fn protect(&mut self, t: Term) -> Result<(), RootsFull>
        requires { IsSome (tree_at (B.store self.old.bank) t) }
        ensures same { SameEngine self.old self.new }
        ensures memo { self.new.memo ≡ self.old.memo }
        ensures work { self.new.work ≡ self.old.work }
        ensures roots { ProtectsOrRefuses (B.store self.old.bank) (B.store self.new.bank) t
            result }
    {
        self.machine.heap.bank.protect(t)
    }

    /// Removes one protection of a term.
    pub fn unprotect(&mut self, t: Term)
        requires { 0 < (B.store self.old.bank).roots t.0 }
        ensures same { SameEngine self.old self.new }
        ensures memo { self.new.memo ≡ self.old.memo }
        ensures work { self.new.work ≡ self.old.work }
        ensures roots { B.store self.new.bank ≡ with_count (B.store self.old.bank) t
            ((B.store self.old.bank).roots t.0 - 1) }
    {
        self.machine.heap.bank.unprotect(t)
    }

    /// Returns the matcher of the rules.
    pub fn matcher(&self) -> &Matcher
        ensures { IsMatcherOf self.now.spec (B.store self.now.bank) result.now }
    {
        &self.machine.code.matcher
    }

    /// Returns the specification.
    pub fn checked(&self) -> &Checked
        ensures { result.now.spec ≡ self.now.spec }
    {
        &self.machine.checked
    }

    /// Returns the term store.
    pub fn bank(&self) -> &B
        ensures { result.now ≡ self.now.bank }
    {
        &self.machine.heap.bank
    }
}
