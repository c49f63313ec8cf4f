//! Evaluates a term, whose code is appended to the code of the rules while it runs.

ghost use Rattle.std.specs.Prelude.{◌≡◌, [], ◌∷◌, Some, IfOk, IfSome, IsSome, Contains, drop};
ghost use Rattle.rx_term.specs.Tree.{Tree};
ghost use Rattle.rx_term.specs.Store.{tree_at};
ghost use Rattle.rx_term.specs.Steps.{Keeps};
ghost use Rattle.rec_sorts.specs.Evaluation.{term_of};
ghost use Rattle.rec_engine.specs.Inner.Answered.{IsTermCode, IsAnswer, StandsAbove, HasNotes};
ghost use Rattle.rec_engine.specs.declared.engine.evaluation.Reached.TheVariants.{Deep};
ghost use Rattle.rec_engine.specs.Machine.{AreFull, IsDeepOnly};
ghost use Rattle.rec_engine.specs.Engine.{IsGiven, IsOutcome, IsKept, SameEngine, IsNormalised};
ghost use Rattle.rec_engine.specs.Control.{IfEnded, Obeys};
ghost use Rattle.rec_engine.specs.Inner.Heap.{IsHeld};
ghost use Rattle.rec_engine.specs.Turn.{IsReady, StaysFor, RoomOnlyIn};
ghost use Rattle.rx_term.specs.Walks.{AllHeld};
ghost use Rattle.rec_engine.specs.Limits.{KeepsLimit, RoomOrDeepOnly};
ghost use Rattle.rec_syntax.specs.Syntax as Syntax;

use crate::compile::code::Op;
use crate::engine::counting::{Counts, RuleCount, Tally};
use crate::engine::errors::EngineFault;
use crate::engine::limits::{Limits, limit};
use crate::engine::watch::{Control, Watch, Watching};
use crate::engine::{Controlled, Engine, Outcome, let_go};
use crate::heap::cells::Node;
use crate::heap::work::push;
use crate::terms::given::Reader;
use crate::vm::{End, Machine};
use rx_term::{Term, TermBank};
use std::alloc::{AllocError, Global};

/// The greatest number of occurrences of subterms with which a term is compiled at once. A term with
/// more is first looked at by its different subterms.
const MOST_OCCURRENCES: usize = 1 << 20;

/// The result of evaluating a term.
#[derive(Clone, Copy)]
pub(crate) enum Reached {
    Value { term: Term, steps: u64 },
    Limit,
    Deep,
    /// The control stopped the evaluation.
    Stopped,
}

impl<B: TermBank> Machine<B> {
    /// Evaluates the term `t` with a step limit of `n`. Its code starts at `pc`.
    fn evaluate<C: Control>(
        &mut self,
        pc: usize,
        t: Term,
        n: u64,
        control: &mut C,
    ) -> Result<Reached, EngineFault>
        requires ready { IsReady B.store self.old }
        requires idle { self.old.heap.work.items ≡ [] }
        requires held { IsSome (tree_at (B.store self.old.heap.bank) t) }
        requires own { (u : Syntax.Term)
            × IsTermCode self.old.checked.spec u (drop pc self.old.code.ops.items) }
        ensures stays { StaysFor B.store (t ∷ []) self.old self.new }
        ensures exact { IfOk result (λ r. (u : Syntax.Term)
            → IsTermCode self.old.checked.spec u (drop pc self.old.code.ops.items)
            → IsAnswer self.old.checked.spec (B.store self.new.heap.bank) n u r) }
        ensures held { IfOk result (λ r. IsHeld B.store self.new.heap) }
        ensures stands { IfOk result (StandsAbove self.new.heap.work.items t) }
        ensures deep { IfOk result (λ r. r ≡ Deep → AreFull self.new.state) }
        ensures obeys { Obeys Reached.Stopped (C.has_requested control.old)
            (C.has_requested control.new) result }
        ensures room { RoomOnlyIn B.store self.new result }
    {
        push(&mut self.heap.work, t)?;
        let empty = self.heap.push_nil()?;
        self.state.frames.clear();
        self.state.pc = pc;
        self.state.base = 2;
        self.state.left = n;
        self.state.term = t;
        self.state.empty = empty;
        let reached = self.run(control)?;
        let Some(end) = reached else {
            return Ok(Reached::Stopped);
        };
        match end {
            End::Deep => Ok(Reached::Deep),
            End::Limit => Ok(Reached::Limit),
            End::Value => {
                let term = self.heap.work[2];
                let steps = n - self.state.left;
                Ok(Reached::Value { term, steps })
            }
        }
    }

    /// Puts the annotations of a term on its value, if it has some.
    fn annotate(&mut self, t: Term, value: Term) -> Result<Term, EngineFault>
        requires ready { IsReady B.store self.old }
        requires held { IsHeld B.store self.old.heap }
        requires term { Contains self.old.heap.work.items t }
        requires value { Contains self.old.heap.work.items value }
        ensures stays { StaysFor B.store self.old.heap.work.items self.old self.new }
        ensures annotated { IfOk result
            (HasNotes (B.store self.old.heap.bank) (B.store self.new.heap.bank) t value) }
        ensures kept { IfOk result (Contains self.new.heap.work.items) }
        ensures all_held { IfOk result (λ r. IsHeld B.store self.new.heap) }
        ensures room { RoomOnlyIn B.store self.new result }
    {
        let Some(anns) = self.heap.bank.anns(t) else {
            return Ok(value);
        };
        push(&mut self.heap.work, anns)?;
        let node = Node::Annotated(value, anns);
        let noted = self.heap.make(node)?;
        push(&mut self.heap.work, noted)?;
        Ok(noted)
    }

    /// Evaluates a ground term with a step limit of `n`. Its code is appended to that of the rules
    /// meanwhile. Returns `None` if the term has more than `most` occurrences of subterms. `found`
    /// is scratch space.
    pub(crate) fn evaluate_within<C: Control>(
        &mut self,
        found: &mut Vec<Op>,
        t: Term,
        n: u64,
        most: usize,
        control: &mut C,
    ) -> Result<Option<Reached>, EngineFault>
        requires ready { IsReady B.store self.old }
        requires given { IsGiven self.old.checked.spec (B.store self.old.heap.bank) t }
        ensures ready { IsReady B.store self.new }
        ensures spec { self.new.checked.spec ≡ self.old.checked.spec }
        ensures keeps { Keeps (B.store self.old.heap.bank) (B.store self.new.heap.bank) (t ∷ []) }
        ensures exact { IfOk result (λ r. IfSome r (λ r. (u : Tree)
            → tree_at (B.store self.old.heap.bank) t ≡ Some u
            → IsAnswer self.old.checked.spec (B.store self.new.heap.bank) n (term_of u) r)) }
        ensures held { IfOk result (λ r. IsHeld B.store self.new.heap) }
        ensures stands { IfOk result (λ r. IfSome r (StandsAbove self.new.heap.work.items t)) }
        ensures depth { self.new.state.depth ≡ self.old.state.depth }
        ensures deep { IfOk result (λ r. r ≡ Some Deep → AreFull self.new.state) }
        ensures obeys { Obeys (Some Reached.Stopped) (C.has_requested control.old)
            (C.has_requested control.new) result }
        ensures room { RoomOnlyIn B.store self.new result }
    {
        self.heap.work.clear();
        let pc = self.code.ops.len();
        let reader = Reader {
            checked: &self.checked,
            bank: &self.heap.bank,
            links: &self.code.links,
        };
        let stack = &mut self.state.pending;
        let whole = match reader.load(stack, found, &mut self.code.ops, t, most) {
            Ok(whole) => whole,
            Err(_) => return Err(EngineFault::Memory),
        };
        if !whole {
            return Ok(None);
        }
        let reached = self.evaluate(pc, t, n, control);
        self.code.ops.truncate(pc);
        Ok(Some(reached?))
    }

    /// Evaluates a ground term with a step limit of `n`. `found` is scratch space.
    fn evaluate_given<C: Control>(
        &mut self,
        found: &mut Vec<Op>,
        t: Term,
        n: u64,
        control: &mut C,
    ) -> Result<Reached, EngineFault>
        requires ready { IsReady B.store self.old }
        requires given { IsGiven self.old.checked.spec (B.store self.old.heap.bank) t }
        ensures ready { IsReady B.store self.new }
        ensures spec { self.new.checked.spec ≡ self.old.checked.spec }
        ensures keeps { Keeps (B.store self.old.heap.bank) (B.store self.new.heap.bank) (t ∷ []) }
        ensures exact { IfOk result (λ r. (u : Tree)
            → tree_at (B.store self.old.heap.bank) t ≡ Some u
            → IsAnswer self.old.checked.spec (B.store self.new.heap.bank) n (term_of u) r) }
        ensures held { IfOk result (λ r. IsHeld B.store self.new.heap) }
        ensures stands { IfOk result (StandsAbove self.new.heap.work.items t) }
        ensures depth { self.new.state.depth ≡ self.old.state.depth }
        ensures deep { IfOk result (λ r. r ≡ Deep → AreFull self.new.state) }
        ensures obeys { Obeys Reached.Stopped (C.has_requested control.old)
            (C.has_requested control.new) result }
        ensures room { RoomOnlyIn B.store self.new result }
    {
        match self.evaluate_within(found, t, n, MOST_OCCURRENCES, control)? {
            Some(reached) => Ok(reached),
            None => self.evaluate_shared(found, t, n, control),
        }
    }

    /// Evaluates a ground term with a step limit of `n`, and puts its annotations on the value.
    /// `None` if the depth limit is reached. `found` is scratch space.
    pub(crate) fn normalise<C: Control>(
        &mut self,
        found: &mut Vec<Op>,
        t: Term,
        n: u64,
        control: &mut C,
    ) -> Result<Option<Controlled>, EngineFault>
        requires ready { IsReady B.store self.old }
        requires given { IsGiven self.old.checked.spec (B.store self.old.heap.bank) t }
        ensures ready { IsReady B.store self.new }
        ensures spec { self.new.checked.spec ≡ self.old.checked.spec }
        ensures keeps { Keeps (B.store self.old.heap.bank) (B.store self.new.heap.bank) (t ∷ []) }
        ensures outcome { IfOk result (λ r. IfSome r (IfEnded (λ o. (u : Tree)
            → tree_at (B.store self.old.heap.bank) t ≡ Some u
            → IsOutcome self.old.checked.spec (B.store self.new.heap.bank) n u o))) }
        ensures kept { IfOk result (λ r. IfSome r (IfEnded (IsKept self.new.heap.work.items))) }
        ensures held { IfOk result (λ r. IsHeld B.store self.new.heap) }
        ensures depth { self.new.state.depth ≡ self.old.state.depth }
        ensures deep { IfOk result (IsDeepOnly self.new.state) }
        ensures obeys { Obeys (Some Controlled.Stopped) (C.has_requested control.old)
            (C.has_requested control.new) result }
        ensures room { RoomOnlyIn B.store self.new result }
    {
        match self.evaluate_given(found, t, n, control)? {
            Reached::Deep => Ok(None),
            Reached::Stopped => Ok(Some(Controlled::Stopped)),
            Reached::Limit => Ok(Some(Controlled::Ended(Outcome::Limit))),
            Reached::Value { term, steps } => {
                let term = self.annotate(t, term)?;
                Ok(Some(Controlled::Ended(Outcome::Value { term, steps })))
            }
        }
    }
}

impl<B: TermBank> Engine<B> {
    /// Evaluates a term within these limits, and puts its annotations on the normal form, unless
    /// the control stops the evaluation at a progress report. The control is called only then.
    ///
    /// A term with at most 1,048,576 occurrences of subterms is compiled, with an instruction for
    /// each. Of a larger one each different subterm is visited once. If no symbol in its arguments
    /// has rules, its own symbol is called on them, so that a subterm that occurs often costs no
    /// more than once. Otherwise it is compiled too, unless it has more than `u32::MAX` occurrences:
    /// then the error is `Memory`.
    pub fn normalise_controlled<C: Control>(
        &mut self,
        t: Term,
        limits: Limits,
        control: &mut C,
    ) -> Result<Controlled, EngineFault>
        requires { IsGiven self.old.spec (B.store self.old.bank) t }
        ensures same { SameEngine self.old self.new }
        ensures keeps { Keeps (B.store self.old.bank) (B.store self.new.bank) [] }
        ensures given { tree_at (B.store self.new.bank) t ≡ tree_at (B.store self.old.bank) t }
        ensures outcome { IfOk result (IfEnded (λ o. (u : Tree)
            → tree_at (B.store self.old.bank) t ≡ Some u
            → IsOutcome self.new.spec (B.store self.new.bank) limits.steps u o)) }
        ensures rewriting { IfOk result (IfEnded (λ o. (u : Tree)
            → tree_at (B.store self.old.bank) t ≡ Some u
            → IsNormalised self.new.spec (B.store self.new.bank) limits.steps u o)) }
        ensures kept { IfOk result (IfEnded (IsKept self.new.work)) }
        ensures held { AllHeld (B.store self.new.bank) self.new.work }
        ensures obeys { Obeys Controlled.Stopped (C.has_requested control.old)
            (C.has_requested control.new) result }
        ensures fault { RoomOrDeepOnly (B.store self.new.bank) self.new.work self.new.memo
            limits.depth self.new.waiting result }
        ensures bound { KeepsLimit limits.depth self.new.bound self.new.waiting }
    {
        self.machine.state.restart(limits);
        let outcome = self
            .machine
            .normalise(&mut self.found, t, limits.steps, control);
        self.machine.state.spent = self.machine.state.steps_spent(limits.steps);
        let_go(&mut self.machine.heap.work, &outcome);
        limit(outcome, limits.depth)
    }

    /// Evaluates a term within these limits, and puts its annotations on the normal form. The watch
    /// is called during the evaluation, and once when it has ended. Shared subterms are treated as
    /// by [`Engine::normalise_controlled`].
    pub fn normalise_with<V: Watch>(
        &mut self,
        t: Term,
        limits: Limits,
        watch: &mut V,
    ) -> Result<Outcome, EngineFault>
        requires { IsGiven self.old.spec (B.store self.old.bank) t }
        ensures same { SameEngine self.old self.new }
        ensures keeps { Keeps (B.store self.old.bank) (B.store self.new.bank) [] }
        ensures given { tree_at (B.store self.new.bank) t ≡ tree_at (B.store self.old.bank) t }
        ensures outcome { IfOk result (λ o. (u : Tree) → tree_at (B.store self.old.bank) t ≡ Some u
            → IsOutcome self.new.spec (B.store self.new.bank) limits.steps u o) }
        ensures rewriting { IfOk result
            (λ o. (u : Tree) → tree_at (B.store self.old.bank) t ≡ Some u
            → IsNormalised self.new.spec (B.store self.new.bank) limits.steps u o) }
        ensures kept { IfOk result (IsKept self.new.work) }
        ensures held { AllHeld (B.store self.new.bank) self.new.work }
        ensures fault { RoomOrDeepOnly (B.store self.new.bank) self.new.work self.new.memo
            limits.depth self.new.waiting result }
        ensures bound { KeepsLimit limits.depth self.new.bound self.new.waiting }
    {
        let ended = self.normalise_controlled(t, limits, &mut Watching(&mut *watch));
        watch.cease();
        match ended {
            Ok(Controlled::Ended(outcome)) => Ok(outcome),
            Ok(Controlled::Stopped) => unreachable!(),
            Err(fault) => Err(fault),
        }
    }

    /// Starts to count the uses of each rule. If an allocation fails, nothing changes.
    pub fn count_rules(&mut self, alloc: Global) -> Result<(), AllocError>
        ensures same { SameEngine self.old self.new }
        ensures bank { self.new.bank ≡ self.old.bank }
        ensures memo { self.new.memo ≡ self.old.memo }
        ensures work { self.new.work ≡ self.old.work }
    {
        let counts = Counts::of(alloc, self.machine.code.starts.rules.len())?;
        self.machine.state.counts = counts;
        Ok(())
    }

    /// Returns the uses of each rule since counting was started, or nothing if rules are not
    /// counted.
    pub fn rule_counts(&self) -> &[RuleCount] {
        self.machine.state.counts.rules()
    }

    /// Returns the totals so far.
    pub fn tally(&self) -> Tally {
        let heap = &self.machine.heap;
        heap.pace
            .ledger
            .tally(self.machine.state.spent, heap.bank.cells())
    }
}
