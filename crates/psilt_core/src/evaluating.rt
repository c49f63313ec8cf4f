//! The specification of a handle, and the evaluation of terms.

ghost use Rattle.std.specs.Prelude.{◌≡◌, ◌≢◌, [], IsSome};
ghost use Rattle.rx_term.specs.Store.{tree_at};
ghost use Rattle.rx_term.specs.Steps.{Keeps};
ghost use Rattle.rec_engine.specs.declared.engine.errors.EngineFault.TheVariants.{Deep};
ghost use Rattle.rec_engine.specs.Engine.{IsGiven};
ghost use Rattle.psilt_core.specs.Banks.{IsSpecified, store_of};
ghost use Rattle.psilt_core.specs.Evaluating.{Specifies, Unspecifies, Normalises, CountsTerms};
ghost use Rattle.psilt_core.specs.Evaluating.{GivesTerm, Checks, Comes, IsToldBy, are_options};
ghost use Rattle.psilt_core.specs.Evaluating.{of_bank, of_engine, told_of};
ghost use Rattle.psilt_core.specs.Evaluating.{IsStoppedBy};
ghost use Rattle.psilt_core.specs.Works.{IsSameButBank, IsSameButBound, IsSameButRead};
ghost use Rattle.psilt_core.specs.Works.{IsSameButRun, IsSameButSpec, Forgets};
ghost use Rattle.psilt_core.specs.Works.{KeepsRefusal, KeepsRefusalFor};

use crate::judging::{Refusal, judge};
use crate::running::{Given, list_anyway};
use crate::stopping::{Flag, Stop};
use crate::work::MOST_CELLS;
use crate::{Fault, Work};
use rec_engine::{Control, Controlled, EngineFault, Options, Outcome};
use rec_sorts::TermsFault;
use rx_term::{BankFault, Term, TermBank};
use std::alloc::Global;

/// The largest capacity of the memo table.
pub const MOST_ENTRIES: u32 = 1_048_576;

/// The result of an evaluation.
#[derive(Clone, Copy, PartialEq, Eq, Drop)]
pub struct Normalised {
    /// The normal form.
    pub term: Term,
    /// The number of steps of the evaluation.
    pub steps: u64,
}

/// Returns whether the capacity of the memo table and the collection interval are in range.
fn are_options(memo: u32, reclaim: u32) -> bool
    ensures { result ≡ are_options memo reclaim }
{
    memo <= MOST_ENTRIES && (1 <= reclaim && reclaim <= MOST_CELLS)
}

/// Returns the error of the library for an error of the term store.
pub(crate) fn fault_of_bank(fault: BankFault) -> Fault
    ensures { result ≡ of_bank fault }
{
    match fault {
        BankFault::Memory => Fault::Memory,
        BankFault::Full => Fault::Full,
    }
}

/// Returns the error of the library for an error of the engine; no evaluation here has a depth
/// limit.
pub(crate) fn fault_of_engine(fault: EngineFault) -> Fault
    requires { fault ≢ Deep }
    ensures { result ≡ of_engine fault }
{
    match fault {
        EngineFault::Memory => Fault::Memory,
        EngineFault::Room => Fault::Full,
        EngineFault::Deep => unreachable!(),
    }
}

/// Returns the result of the library for the end of an evaluation.
pub(crate) fn value_or_fault(end: Controlled) -> Result<Normalised, Fault>
    ensures { result ≡ told_of end }
{
    match end {
        Controlled::Ended(Outcome::Value { term, steps }) => Ok(Normalised { term, steps }),
        Controlled::Ended(Outcome::Limit) => Err(Fault::Limit),
        Controlled::Stopped => Err(Fault::Interrupted),
    }
}

impl Work {
    /// Sets or replaces the specification, with a memo table of `memo` entries and a collection
    /// after at most `reclaim` new cells. `Range` if one of these numbers is outside its range or
    /// the text has more than 16,777,216 bytes; `Syntax` if the text leaves its grammar, and `Rule`
    /// if it violates a rule, with offset and rule stored in the work; `Full` if a name is new and
    /// the number of names is at its limit.
    pub fn specify(
        &mut self,
        alloc: Global,
        text: &[u8],
        memo: u32,
        reclaim: u32,
    ) -> Result<(), Fault>
        ensures answer { Specifies self.old.bank self.new.bank text.now memo reclaim self.new.place
            self.new.rule result }
        ensures refusal { KeepsRefusal self.old self.new result }
        ensures beside { IsSameButSpec self.old self.new }
    {
        if !are_options(memo, reclaim) {
            return Err(Fault::Range);
        }
        let checked = match judge(alloc, text) {
            Ok(checked) => checked,
            Err(refusal) => return Err(self.refuse(refusal)),
        };
        let options = Options {
            memo,
            reclaim_every: reclaim,
        };
        match self.bank.specify(alloc, checked, options) {
            Ok(()) => Ok(()),
            Err(fault) => Err(fault_of_bank(fault)),
        }
    }

    /// Stores the offset and the rule of a rejected text, and returns the error.
    fn refuse(&mut self, refusal: Refusal) -> Fault
        ensures fault { IsToldBy refusal result self.new.place self.new.rule }
        ensures refusal { KeepsRefusalFor self.old self.new result }
        ensures beside { self.new
            ≡ record self.old { place = self.new.place; rule = self.new.rule } }
    {
        match refusal {
            Refusal::Memory => Fault::Memory,
            Refusal::Long => Fault::Range,
            Refusal::Grammar { at } => {
                self.place = at;
                self.rule = 0;
                Fault::Syntax
            }
            Refusal::Rule { number, at } => {
                self.place = at;
                self.rule = u32::from(number);
                Fault::Rule
            }
        }
    }

    /// Removes the specification; terms stay.
    pub fn unspecify(&mut self) -> Result<(), Fault>
        ensures answer { Unspecifies self.old.bank self.new.bank result }
        ensures beside { IsSameButSpec self.old self.new }
    {
        if !self.bank.is_specified() {
            return Err(Fault::Unspecified);
        }
        self.bank.unspecify();
        Ok(())
    }

    /// Evaluates a term within `steps` steps. `Rule` if it violates a rule of input terms, which is
    /// stored in the work; `Limit` if more steps are needed; `Interrupted` if a stop is requested
    /// of a work that this one obeys. Terms that no root reaches may be freed, except this term and
    /// the normal form. The bindings of the last match are dropped, except after `Unspecified` and
    /// `Stale`.
    pub fn normalise(&mut self, alloc: Global, t: Term, steps: u64) -> Result<Normalised, Fault>
        ensures answer { Normalises self.old.bank self.new.bank t steps self.new.rule result }
        ensures keeps { Keeps (store_of self.old.bank) (store_of self.new.bank) [] }
        ensures given { tree_at (store_of self.new.bank) t ≡ tree_at (store_of self.old.bank) t }
        ensures bindings { Forgets self.old.bound.items self.new.bound.items result }
        ensures refusal { KeepsRefusal self.old self.new result }
        ensures place { self.new.place ≡ self.old.place }
        ensures beside { IsSameButRun self.old self.new }
    {
        let stop = Stop {
            flag: std::mem::replace(&mut self.flag, Flag::none()),
            is_requested: false,
        };
        let (answer, stop) = self.normalise_controlled(alloc, t, steps, stop);
        let Stop {
            flag,
            is_requested: _,
        } = stop;
        self.flag = flag;
        answer
    }

    /// Evaluates a term as `normalise` does, but ends with `Interrupted` if the control stops the
    /// evaluation, and only then. Returns the control as well.
    pub fn normalise_controlled<C: Control>(
        &mut self,
        alloc: Global,
        t: Term,
        steps: u64,
        control: C,
    ) -> (Result<Normalised, Fault>, C)
        ensures answer { Normalises self.old.bank self.new.bank t steps self.new.rule result.0 }
        ensures stopped { IsStoppedBy (C.has_requested control) (C.has_requested result.1)
            result.0 }
        ensures keeps { Keeps (store_of self.old.bank) (store_of self.new.bank) [] }
        ensures given { tree_at (store_of self.new.bank) t ≡ tree_at (store_of self.old.bank) t }
        ensures bindings { Forgets self.old.bound.items self.new.bound.items result.0 }
        ensures refusal { KeepsRefusal self.old self.new result.0 }
        ensures place { self.new.place ≡ self.old.place }
        ensures beside { IsSameButRun self.old self.new }
    {
        if !self.bank.is_specified() {
            return (Err(Fault::Unspecified), control);
        }
        if !self.bank.shared_bank().holds(t) {
            return (Err(Fault::Stale), control);
        }
        self.bound.clear();
        match self.check_given(alloc, t) {
            Ok(()) => self.normalise_given(Given {
                term: t,
                steps,
                control,
            }),
            Err(fault) => (Err(fault), control),
        }
    }

    /// Evaluates a term that violates no rule of input terms.
    fn normalise_given<C: Control>(&mut self, given: Given<C>) -> (Result<Normalised, Fault>, C)
        requires { IsSpecified self.old.bank (λ y. IsGiven y (store_of self.old.bank) given.term) }
        ensures answer { Comes self.old.bank self.new.bank given.term given.steps result.0 }
        ensures stopped { IsStoppedBy (C.has_requested given.control) (C.has_requested result.1)
            result.0 }
        ensures keeps { Keeps (store_of self.old.bank) (store_of self.new.bank) [] }
        ensures given { tree_at (store_of self.new.bank) given.term
            ≡ tree_at (store_of self.old.bank) given.term }
        ensures beside { IsSameButBank self.old self.new }
    {
        let (end, control) = self.bank.normalise(given);
        match end {
            Ok(end) => (value_or_fault(end), control),
            Err(fault) => (Err(fault_of_engine(fault)), control),
        }
    }

    /// Checks a term of the store against the rules of input terms. The number of a violated rule
    /// is stored in the work.
    fn check_given(&mut self, alloc: Global, t: Term) -> Result<(), Fault>
        requires specified { IsSome self.old.bank.specified }
        requires held { IsSome (tree_at (store_of self.old.bank) t) }
        ensures answer { Checks self.old.bank self.new.bank t self.new.rule result }
        ensures refusal { KeepsRefusal self.old self.new result }
        ensures place { self.new.place ≡ self.old.place }
        ensures keeps { Keeps (store_of self.old.bank) (store_of self.new.bank) [] }
        ensures given { tree_at (store_of self.new.bank) t ≡ tree_at (store_of self.old.bank) t }
        ensures beside { IsSameButRead self.old self.new }
    {
        let list = match list_anyway(&mut self.bank, t) {
            Ok(list) => list,
            Err(fault) => return Err(fault_of_bank(fault)),
        };
        match self.bank.check(alloc, list) {
            Ok(()) => Ok(()),
            Err(TermsFault::Rule { number }) => {
                self.rule = u32::from(number);
                Err(Fault::Rule)
            }
            Err(TermsFault::Memory) => Err(Fault::Memory),
        }
    }

    /// Returns the number of EVAL terms.
    pub fn eval_terms(&self) -> Result<u32, Fault>
        ensures { CountsTerms self.now.bank result }
    {
        if self.bank.is_specified() {
            Ok(self.bank.eval_terms())
        } else {
            Err(Fault::Unspecified)
        }
    }

    /// Returns the EVAL term with the index `i`, from 0. `Range` if there are no more than `i`.
    /// Terms that no root reaches may be freed, except this one, and the bindings of the last match
    /// are dropped, except after `Unspecified` and `Range`.
    pub fn eval_term(&mut self, i: u32) -> Result<Term, Fault>
        ensures answer { GivesTerm self.old.bank self.new.bank i result }
        ensures keeps { Keeps (store_of self.old.bank) (store_of self.new.bank) [] }
        ensures bindings { Forgets self.old.bound.items self.new.bound.items result }
        ensures beside { IsSameButBound self.old self.new }
    {
        if !self.bank.is_specified() {
            return Err(Fault::Unspecified);
        }
        if i >= self.bank.eval_terms() {
            return Err(Fault::Range);
        }
        self.bound.clear();
        match self.bank.eval_term(i) {
            Ok(t) => Ok(t),
            Err(fault) => Err(fault_of_engine(fault)),
        }
    }
}
