//! A row: pending operations over a stack of values.

mod spreading;
mod writing;

ghost use Rattle.std.specs.Prelude.{◌≡◌, ◌≤◌, ◌<◌, ◌+◌, ◌-◌, ◌++◌, ◌∷◌, [], IfOk, OnErr, OnOk, IfErr};
ghost use Rattle.std.specs.Prelude.{Some, drop, length, slice_get, suc, take};
ghost use Rattle.rx_term.specs.Steps.{Keeps};
ghost use Rattle.rx_term.specs.Walks.{AllHeld};
ghost use Rattle.rec_sorts.specs.Lookup.{symbols};
ghost use Rattle.rec_sorts.specs.Numbering.{arity_of};
ghost use Rattle.rec_engine.specs.Inner.Made.{IsApplied};
ghost use Rattle.rec_trace.specs.Inner.Calls.{Uses};
ghost use Rattle.rec_trace.specs.Inner.Turns.{IsGroundRow};
ghost use Rattle.rec_engine.specs.Lent.{IsAppliedOn};
ghost use Rattle.rec_trace.specs.Rows.{Lowers};
ghost use Rattle.rec_sorts.specs.Laws.{Every};
ghost use Rattle.rec_syntax.specs.Syntax.{Spec};
ghost use Rattle.rec_engine.specs.declared.engine.errors.EngineFault.TheVariants.{Memory};

use rec_engine::{Engine, EngineFault};
use rec_sorts::{Letter, Meaning};
use rx_term::{Term, TermBank};
use std::alloc::Global;

/// An operation of a row.
#[derive(Clone, Copy, Drop)]
pub(crate) enum Step {
    /// Pushes a value.
    Give(Term),
    /// Pushes a value, and removes the tree at index `at`: the operations before pushed its other
    /// parts.
    GiveLast { value: Term, at: usize },
    /// Calls a symbol on the values on top.
    Invoke { symbol: u32, count: u32 },
}

/// Operations, the next one last, and values, the top last. Some trees among the values do not
/// count as values: operations push their parts, and the last of these operations removes the tree.
#[derive(Drop)]
pub(crate) struct Row {
    pub(crate) steps: Vec<Step>,
    pub(crate) values: Vec<Term>,
    /// The number of lowest values that are unchanged since this was last set.
    pub(crate) low: usize,
}

/// Returns the operations of a ground term in postfix form, the next one last.
pub(crate) fn ground_steps(alloc: Global, letters: &[Letter]) -> Result<Vec<Step>, EngineFault>
    requires { (y : Spec) × Every (IsApplied y) letters.now }
    ensures row { IfOk result (λ steps. (y : Spec) → Every (IsApplied y) letters.now
        → IsGroundRow y steps.items letters.now) }
    ensures memory { IfErr result (λ e. e ≡ Memory) }
{
    let mut steps = Vec::new(alloc);
    let mut at = letters.len();
    'letters: while at > 0 {
        at -= 1;
        let letter = letters[at];
        let Meaning::Symbol(symbol) = letter.meaning else {
            unreachable!()
        };
        let step = Step::Invoke {
            symbol,
            count: letter.count,
        };
        match steps.push(step) {
            Ok(()) => {}
            Err(_) => return Err(EngineFault::Memory),
        }
    }
    Ok(steps)
}

impl Row {
    /// Returns a row of operations without values.
    pub(crate) fn of_steps(alloc: Global, steps: Vec<Step>) -> Row
        ensures steps { result.steps ≡ steps }
        ensures values { result.values.items ≡ [] }
        ensures low { result.low ≡ 0 }
    {
        Row {
            steps,
            values: Vec::new(alloc),
            low: 0,
        }
    }

    /// Returns the value on top.
    pub(crate) fn top(&self) -> Term
        requires { 0 < length self.now.values.items }
        ensures { slice_get self.now.values.items (length self.now.values.items - 1)
            ≡ Some result }
    {
        self.values[self.values.len() - 1]
    }

    /// Adds an operation, which is the next one.
    pub(crate) fn push(&mut self, step: Step) -> Result<(), EngineFault>
        ensures steps { OnOk result (self.new.steps.items ≡ self.old.steps.items ++ step ∷ []) }
        ensures values { self.new.values ≡ self.old.values }
        ensures low { self.new.low ≡ self.old.low }
        ensures memory { IfErr result (λ e. e ≡ Memory) }
    {
        match self.steps.push(step) {
            Ok(()) => Ok(()),
            Err(_) => Err(EngineFault::Memory),
        }
    }

    /// Pushes a value.
    pub(crate) fn give(&mut self, value: Term) -> Result<(), EngineFault>
        ensures values { OnOk result
            (self.new.values.items ≡ self.old.values.items ++ value ∷ []) }
        ensures same { OnErr result (self.new.values.items ≡ self.old.values.items) }
        ensures steps { self.new.steps ≡ self.old.steps }
        ensures low { self.new.low ≡ self.old.low }
        ensures memory { IfErr result (λ e. e ≡ Memory) }
    {
        match self.values.push(value) {
            Ok(()) => Ok(()),
            Err(_) => Err(EngineFault::Memory),
        }
    }

    /// Records that values above the `count` lowest may have changed.
    fn lower(&mut self, count: usize)
        ensures low { self.new.low ≤ self.old.low }
        ensures most { self.new.low ≤ count }
        ensures values { self.new.values ≡ self.old.values }
        ensures steps { self.new.steps ≡ self.old.steps }
    {
        if count < self.low {
            self.low = count;
        }
    }

    /// Pushes a value, and removes the one at index `at`.
    pub(crate) fn give_last(&mut self, value: Term, at: usize) -> Result<(), EngineFault>
        requires { at < length self.old.values.items }
        ensures values { OnOk result (self.new.values.items ≡ take at self.old.values.items
            ++ (drop (suc at) self.old.values.items ++ value ∷ [])) }
        ensures steps { self.new.steps ≡ self.old.steps }
        ensures low { OnOk result (Lowers self.old self.new) }
        ensures memory { IfErr result (λ e. e ≡ Memory) }
    {
        self.lower(at);
        let _source = self.values.remove(at);
        self.give(value)
    }

    /// Drops all values except the `count` lowest.
    pub(crate) fn cut(&mut self, count: usize)
        requires { count ≤ length self.old.values.items }
        ensures values { self.new.values.items ≡ take count self.old.values.items }
        ensures steps { self.new.steps ≡ self.old.steps }
        ensures low { Lowers self.old self.new }
        ensures most { self.new.low ≤ count }
    {
        self.lower(count);
        self.values.truncate(count);
    }

    /// Replaces the values on top, the arguments of a symbol, by its application.
    pub(crate) fn apply<B: TermBank>(
        &mut self,
        engine: &mut Engine<B>,
        symbol: u32,
        count: u32,
    ) -> Result<(), EngineFault>
        requires held { AllHeld (B.store engine.old.bank) self.old.values.items }
        requires symbol { symbol < length (symbols engine.old.spec) }
        requires arity { arity_of engine.old.spec symbol ≡ count }
        requires count { count ≤ length self.old.values.items }
        ensures uses { Uses B.store engine.old engine.new result }
        ensures keeps { Keeps (B.store engine.old.bank) (B.store engine.new.bank)
            (take (length self.old.values.items - count) self.old.values.items) }
        ensures applied { IfOk result (λ u. IsAppliedOn engine.old.spec
            (B.store engine.old.bank) (B.store engine.new.bank) symbol count
            self.old.values.items self.new.values.items) }
        ensures steps { self.new.steps ≡ self.old.steps }
        ensures low { OnOk result (Lowers self.old self.new) }
    {
        let rest = self.values.len() - count as usize;
        self.lower(rest);
        engine.apply_on(&mut self.values, symbol, count)
    }

    /// Replaces the values from index `at` on by a value.
    pub(crate) fn replace(&mut self, at: usize, value: Term) -> Result<(), EngineFault>
        requires { at ≤ length self.old.values.items }
        ensures values { OnOk result
            (self.new.values.items ≡ take at self.old.values.items ++ value ∷ []) }
        ensures steps { self.new.steps ≡ self.old.steps }
        ensures low { OnOk result (Lowers self.old self.new) }
        ensures memory { IfErr result (λ e. e ≡ Memory) }
    {
        self.cut(at);
        self.give(value)
    }
}
