//! Short forms of the most common calls.

ghost use Rattle.std.specs.Prelude.{◌≡◌, [], Some, IfErr, IfOk};
ghost use Rattle.rx_term.specs.Tree.{Tree};
ghost use Rattle.rx_term.specs.Store.{tree_at};
ghost use Rattle.rx_term.specs.Steps.{Keeps};
ghost use Rattle.rx_term.specs.Walks.{AllHeld};
ghost use Rattle.rec_sorts.specs.Linked.{HasMoreSymbols};
ghost use Rattle.rec_engine.specs.declared.engine.errors.EngineFault.TheVariants.{Memory};
ghost use Rattle.rec_engine.specs.Cells.{RoomOnly};
ghost use Rattle.rec_engine.specs.Engine.{AreInRange, RemembersNothing};
ghost use Rattle.rec_engine.specs.Engine.{SameEngine, IsGiven, IsOutcome, IsNormalised, IsKept};

use crate::engine::errors::EngineFault;
use crate::engine::limits::Limits;
use crate::engine::watch::Unwatched;
use crate::engine::{Engine, Options, Outcome};
use rec_sorts::Checked;
use rx_term::{Term, TermBank};
use std::alloc::Global;

impl<B: TermBank + Drop> Engine<B> {
    /// Creates an engine for a specification over a term store. Only adds symbols to the store. The
    /// only error is out of memory, which drops the store; [`Engine::over`] returns it.
    pub fn new(
        alloc: Global,
        checked: Checked,
        bank: B,
        options: Options,
    ) -> Result<Engine<B>, EngineFault>
        requires { AreInRange options }
        ensures spec { IfOk result (λ e. e.spec ≡ checked.spec) }
        ensures options { IfOk result (λ e. e.options ≡ options) }
        ensures store { IfOk result (λ e. HasMoreSymbols (B.store bank) (B.store e.bank)) }
        ensures memo { IfOk result (λ e. RemembersNothing options.memo e.memo) }
        ensures work { IfOk result (λ e. e.work ≡ []) }
        ensures fault { IfErr result (λ e. e ≡ Memory) }
    {
        match Engine::over(alloc, checked, bank, options) {
            Ok(engine) => Ok(engine),
            Err(_) => Err(EngineFault::Memory),
        }
    }
}

impl<B: TermBank> Engine<B> {
    /// Evaluates a term with a step limit of `n`, and puts the annotations of the term on its
    /// normal form.
    pub fn normalise(&mut self, t: Term, n: u64) -> Result<Outcome, EngineFault>
        requires { IsGiven self.old.spec (B.store self.old.bank) t }
        ensures same { SameEngine self.old self.new }
        ensures keeps { Keeps (B.store self.old.bank) (B.store self.new.bank) [] }
        ensures given { tree_at (B.store self.new.bank) t ≡ tree_at (B.store self.old.bank) t }
        ensures outcome { IfOk result (λ o. (u : Tree) → tree_at (B.store self.old.bank) t ≡ Some u
            → IsOutcome self.new.spec (B.store self.new.bank) n u o) }
        ensures rewriting { IfOk result
            (λ o. (u : Tree) → tree_at (B.store self.old.bank) t ≡ Some u
            → IsNormalised self.new.spec (B.store self.new.bank) n u o) }
        ensures kept { IfOk result (IsKept self.new.work) }
        ensures held { AllHeld (B.store self.new.bank) self.new.work }
        ensures room { RoomOnly (B.store self.new.bank) self.new.work self.new.memo result }
    {
        self.normalise_with(t, Limits::of_steps(n), &mut Unwatched)
    }
}
