//! The parts of an engine except its specification and its store.

ghost use Rattle.std.specs.Prelude.{◌≡◌, ◌≤◌, IfOk, length};
ghost use Rattle.rec_sorts.specs.Linked.{HasMoreSymbols, AreLinked};
ghost use Rattle.rec_engine.specs.Constants.{KnowsNone};
ghost use Rattle.rec_engine.specs.Engine.{AreInRange, RemembersNothing};
ghost use Rattle.rec_engine.specs.Machine.{IsCode};

use crate::compile::code::Code;
use crate::engine::Options;
use crate::engine::counting::Ledger;
use crate::heap::constants::Constants;
use crate::heap::pace::{Due, Pace};
use crate::vm::hints::Hints;
use crate::vm::state::State;
use rec_memo::Memo;
use rec_sorts::{Checked, Links};
use rx_term::TermBank;
use std::alloc::{AllocError, Global};

/// The parts of an engine, made before the engine. The code is in a box, so that moves do not copy
/// it.
#[derive(Drop)]
pub(crate) struct Parts {
    /// The number of EVAL terms.
    pub(crate) terms: u32,
    pub(crate) code: Box<Code>,
    pub(crate) state: State,
    pub(crate) pace: Pace,
}

/// Compiles a specification, and adds its symbols to the store.
fn linked_code<B: TermBank>(
    alloc: Global,
    checked: &Checked,
    bank: &mut B,
) -> Result<Box<Code>, AllocError>
    ensures code { IfOk result (λ c. IsCode checked.now.spec c.value) }
    ensures linked { IfOk result
        (λ c. AreLinked checked.now.spec (B.store bank.new) c.value.links) }
    ensures same { HasMoreSymbols (B.store bank.old) (B.store bank.new) }
{
    let Ok(links) = Links::make(alloc, checked, bank) else {
        return Err(AllocError);
    };
    match Code::new(alloc, checked, links) {
        Ok(code) => Ok(Box::new(alloc, code)?),
        Err(fault) => Err(fault),
    }
}

/// Returns the first collection schedule. No constant and no result is known.
fn first_pace<B: TermBank>(
    alloc: Global,
    bank: &B,
    code: &Code,
    options: Options,
) -> Result<Pace, AllocError>
    requires { AreInRange options }
    ensures constants { IfOk result (λ p. KnowsNone p.constants) }
    ensures memo { IfOk result (λ p. RemembersNothing options.memo p.memo) }
{
    let constants = Constants::new(alloc, code.ops.len())?;
    let memo = Memo::new(alloc, options.memo)?;
    Ok(Pace {
        due: Due::new(bank.cells(), options.reclaim_every),
        constants,
        memo,
        ledger: Ledger::new(bank.cells()),
    })
}

/// Returns the state before the first evaluation.
fn first_state(alloc: Global, checked: &Checked, options: Options) -> Result<State, AllocError>
    requires { AreInRange options }
{
    let hints = Hints::new(alloc, checked.symbols() as usize, options.memo)?;
    Ok(State::new(alloc, hints))
}

impl Parts {
    /// Makes the parts of an engine for a specification over a store. Only adds symbols to the
    /// store. The error is out of memory.
    pub(crate) fn find<B: TermBank>(
        alloc: Global,
        checked: &Checked,
        bank: &mut B,
        options: Options,
    ) -> Result<Parts, AllocError>
        requires { AreInRange options }
        ensures code { IfOk result (λ p. IsCode checked.now.spec p.code.value) }
        ensures linked { IfOk result
            (λ p. AreLinked checked.now.spec (B.store bank.new) p.code.value.links) }
        ensures terms { IfOk result (λ p. p.terms ≡ length checked.now.spec.terms) }
        ensures constants { IfOk result (λ p. KnowsNone p.pace.constants) }
        ensures memo { IfOk result (λ p. RemembersNothing options.memo p.pace.memo) }
        ensures same { HasMoreSymbols (B.store bank.old) (B.store bank.new) }
    {
        let Ok(terms) = u32::try_from(checked.terms().len()) else {
            return Err(AllocError);
        };
        let Ok(code) = linked_code(alloc, checked, bank) else {
            return Err(AllocError);
        };
        let Ok(pace) = first_pace(alloc, bank, &code, options) else {
            return Err(AllocError);
        };
        match first_state(alloc, checked, options) {
            Ok(state) => Ok(Parts {
                terms,
                code,
                state,
                pace,
            }),
            Err(_) => Err(AllocError),
        }
    }
}
