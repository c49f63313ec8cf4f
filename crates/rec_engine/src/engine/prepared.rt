//! An engine without its store, so that others can use the store in between.

ghost use Rattle.std.specs.Prelude.{◌≡◌, length};

use super::{Engine, Options};
use crate::compile::code::{Code, Op};
use crate::heap::Heap;
use crate::heap::pace::Pace;
use crate::vm::Machine;
use crate::vm::state::State;
use rec_sorts::Checked;
use rx_term::{Term, TermBank};

/// The specification, its code, and the memoized results for terms of a store. With the store it is
/// an engine again, also if the store has grown since.
#[derive(Drop)]
pub struct Prepared {
    checked: Checked,
    code: Code,
    state: State,
    work: Vec<Term>,
    pace: Pace,
    options: Options,
    terms: u32,
    found: Vec<Op>,
    ghost counted: { terms ≡ length checked.spec.terms },
}

impl Prepared {
    ghost use Rattle.rx_term.specs.Steps.{Reclaims};
    ghost use Rattle.rx_term.specs.Walks.{AllHeld};
    ghost use Rattle.rec_engine.specs.Prepared.{FitsIn, spec_of, options_of, memo_of};

    /// Returns the engine over the store.
    pub fn over<B: TermBank>(self, bank: B) -> Engine<B>
        requires { FitsIn (B.store bank) self }
        ensures bank { result.bank ≡ bank }
        ensures spec { result.spec ≡ spec_of self }
        ensures options { result.options ≡ options_of self }
        ensures memo { result.memo ≡ memo_of self }
    {
        let Prepared {
            checked,
            code,
            state,
            work,
            mut pace,
            options,
            terms,
            found,
        } = self;
        pace.ledger.go_on(bank.cells());
        let machine = Machine {
            checked,
            heap: Heap { bank, work, pace },
            code,
            state,
        };
        Engine {
            machine,
            options,
            terms,
            found,
        }
    }

    /// Collects garbage in the store: keeps the terms that its roots and `kept` reach, and forgets
    /// memoized results of the others.
    pub fn reclaim<B: TermBank>(&mut self, bank: &mut B, kept: &[Term])
        requires fits { FitsIn (B.store bank.old) self.old }
        requires kept { AllHeld (B.store bank.old) kept.now }
        ensures reclaims { Reclaims (B.store bank.old) (B.store bank.new) kept.now }
        ensures fits { FitsIn (B.store bank.new) self.new }
        ensures spec { spec_of self.new ≡ spec_of self.old }
        ensures options { options_of self.new ≡ options_of self.old }
    {
        self.work.clear();
        self.pace.ledger.go_on(bank.cells());
        self.pace.reclaim(bank, kept);
    }

    /// Returns the number of EVAL terms.
    pub fn eval_terms(&self) -> u32
        ensures { result ≡ length (spec_of self.now).terms }
    {
        self.terms
    }

    /// Returns the specification.
    pub fn checked(&self) -> &Checked
        ensures { result.now.spec ≡ spec_of self.now }
    {
        &self.checked
    }
}

impl<B: TermBank> Engine<B> {
    ghost use Rattle.rec_engine.specs.Prepared.{FitsIn, spec_of, options_of, memo_of};

    /// Splits the engine into its store and the rest.
    pub fn apart(self) -> (B, Prepared)
        ensures bank { result.0 ≡ self.bank }
        ensures fits { FitsIn (B.store self.bank) result.1 }
        ensures spec { spec_of result.1 ≡ self.spec }
        ensures options { options_of result.1 ≡ self.options }
        ensures memo { memo_of result.1 ≡ self.memo }
    {
        let Engine {
            machine,
            options,
            terms,
            found,
        } = self;
        let Machine {
            checked,
            heap,
            code,
            state,
        } = machine;
        let Heap {
            bank,
            work,
            mut pace,
        } = heap;
        pace.ledger.grow(bank.cells());
        let prepared = Prepared {
            checked,
            code,
            state,
            work,
            pace,
            options,
            terms,
            found,
        };
        (bank, prepared)
    }
}
