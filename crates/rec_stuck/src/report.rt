//! The lines of the calls in values.

ghost use Rattle.std.specs.Prelude.{◌≡◌, ◌++◌, ℕ, [], IsSome, List, OnOk, Some, flat_map};
ghost use Rattle.rx_term.specs.Kinds.{HasAppl};
ghost use Rattle.rx_term.specs.Store.{tree_at};
ghost use Rattle.rx_term.specs.Walks.{held_tree};
ghost use Rattle.rx_term.specs.declared.Symbol.{Symbol};
ghost use Rattle.rec_sorts.specs.Linked.{AreLinked, NumberOf};
ghost use Rattle.rec_stuck.specs.Inner.Calls.{AreSpots, IsCallOf, IsCalled, line_if};
ghost use Rattle.rec_stuck.specs.Stuck.{stuck_line, stuck_text};
ghost use Rattle.rec_stuck.specs.Inner.Visits.{AreThere, reference};

use crate::applications::applications;
use crate::fitting::{Call, fitting_spots};
use crate::reasons::add_line;
use crate::short_text::short_text;
use indexmap::IndexSet;
use rec_engine::Engine;
use rec_run::Reporter;
use rec_sorts::Checked;
use rec_trace::{Spot, rule_spots};
use rx_term::{Kind, Symbol, Term, TermBank};
use std::alloc::{AllocError, Global};

/// The report of the stuck calls in the results of a run.
#[derive(Drop)]
pub struct StuckReport {
    /// A line for each of the calls.
    pub lines: Vec<u8>,
    /// The locations of the specification's rules. They are set before the first value is reported.
    pub(crate) spots: Vec<Spot>,
}

/// Returns the call that a term is, if it is an application of an operator.
fn call_of<B: TermBank>(engine: &Engine<B>, t: Term) -> Option<Call>
    requires { IsSome (tree_at (B.store engine.now.bank) t) }
    ensures { IsCallOf engine.now.spec (B.store engine.now.bank) t result }
{
    match engine.bank().kind(t) {
        Kind::Appl(symbol) => call_by(engine, t, symbol),
        _ => None,
    }
}

/// Returns the call that an application is, if its symbol is an operator.
fn call_by<B: TermBank>(engine: &Engine<B>, t: Term, symbol: Symbol) -> Option<Call>
    requires { HasAppl (B.store engine.now.bank) t symbol }
    ensures { IsCallOf engine.now.spec (B.store engine.now.bank) t result }
{
    match engine.matcher().links.op_of(symbol) {
        Some(number) => numbered_call(engine, t, symbol, number),
        None => None,
    }
}

/// Returns the call that an application of symbol number `number` is, if this is an operator.
fn numbered_call<B: TermBank>(
    engine: &Engine<B>,
    t: Term,
    symbol: Symbol,
    number: u32,
) -> Option<Call>
    requires appl { HasAppl (B.store engine.now.bank) t symbol }
    requires number { (ss : List Symbol) × AreLinked engine.now.spec (B.store engine.now.bank) ss
        × NumberOf ss symbol (Some number) }
    ensures { IsCallOf engine.now.spec (B.store engine.now.bank) t result }
{
    if number < engine.checked().constructors() {
        return None;
    }
    Some(Call {
        term: t,
        symbol: number,
        count: engine.bank().arity_of(symbol),
    })
}

impl Reporter for StuckReport {
    ghost told = { λ s. s.lines.items };

    ghost is_ready = { λ s source y. AreSpots source y s.spots.items };

    ghost says = { stuck_text };

    fn begin(&mut self, alloc: Global, checked: &Checked) -> Result<(), AllocError> {
        match rule_spots(alloc, checked.syntax()) {
            Ok(spots) => {
                self.spots = spots;
                Ok(())
            }
            Err(AllocError) => Err(AllocError),
        }
    }

    fn report<B: TermBank>(
        &mut self,
        alloc: Global,
        engine: &Engine<B>,
        value: Term,
    ) -> Result<(), AllocError> {
        self.add_value(alloc, engine, value)
    }
}

impl StuckReport {
    /// Returns a report without lines.
    pub fn new(alloc: Global) -> StuckReport
        ensures { result.lines.items ≡ [] }
    {
        StuckReport {
            lines: Vec::new(alloc),
            spots: Vec::new(alloc),
        }
    }

    /// Appends the lines of the calls in a value to the report.
    fn add_value<B: TermBank>(
        &mut self,
        alloc: Global,
        engine: &Engine<B>,
        value: Term,
    ) -> Result<(), AllocError>
        requires held { IsSome (tree_at (B.store engine.now.bank) value) }
        requires spots { (source : List ℕ) × AreSpots source engine.now.spec self.old.spots.items }
        ensures spots { self.new.spots ≡ self.old.spots }
        ensures lines { OnOk result ((source : List ℕ)
            → AreSpots source engine.now.spec self.old.spots.items
            → self.new.lines.items ≡ self.old.lines.items
            ++ stuck_text source engine.now.spec (held_tree (B.store engine.now.bank) value)) }
    {
        let found = applications(alloc, engine.bank(), value)?;
        self.add_applications(alloc, engine, &found)
    }

    /// Appends the lines of those applications that are calls to the report.
    fn add_applications<B: TermBank>(
        &mut self,
        alloc: Global,
        engine: &Engine<B>,
        found: &IndexSet<u32>,
    ) -> Result<(), AllocError>
        requires there { AreThere (B.store engine.now.bank) found.now.keys }
        requires spots { (source : List ℕ) × AreSpots source engine.now.spec self.old.spots.items }
        ensures spots { self.new.spots ≡ self.old.spots }
        ensures lines { OnOk result ((source : List ℕ)
            → AreSpots source engine.now.spec self.old.spots.items
            → self.new.lines.items ≡ self.old.lines.items ++ flat_map
            (λ n. line_if source engine.now.spec (held_tree (B.store engine.now.bank)
            (reference n))) found.now.keys) }
    {
        for i in 0..found.len() {
            let Some(reference) = found.get_index(i) else {
                unreachable!()
            };
            self.add_application(alloc, engine, Term(*reference))?;
        }
        Ok(())
    }

    /// Appends the line of an application to the report, if it is a call.
    fn add_application<B: TermBank>(
        &mut self,
        alloc: Global,
        engine: &Engine<B>,
        t: Term,
    ) -> Result<(), AllocError>
        requires held { IsSome (tree_at (B.store engine.now.bank) t) }
        requires spots { (source : List ℕ) × AreSpots source engine.now.spec self.old.spots.items }
        ensures spots { self.new.spots ≡ self.old.spots }
        ensures lines { OnOk result ((source : List ℕ)
            → AreSpots source engine.now.spec self.old.spots.items
            → self.new.lines.items ≡ self.old.lines.items
            ++ line_if source engine.now.spec (held_tree (B.store engine.now.bank) t)) }
    {
        match call_of(engine, t) {
            Some(call) => self.add_call(alloc, engine, call),
            None => Ok(()),
        }
    }

    /// Appends the line of a call to the report.
    fn add_call<B: TermBank>(
        &mut self,
        alloc: Global,
        engine: &Engine<B>,
        call: Call,
    ) -> Result<(), AllocError>
        requires held { IsSome (tree_at (B.store engine.now.bank) call.term) }
        requires call { IsCalled engine.now.spec (B.store engine.now.bank) call }
        requires spots { (source : List ℕ) × AreSpots source engine.now.spec self.old.spots.items }
        ensures spots { self.new.spots ≡ self.old.spots }
        ensures lines { OnOk result ((source : List ℕ)
            → AreSpots source engine.now.spec self.old.spots.items
            → self.new.lines.items ≡ self.old.lines.items
            ++ stuck_line source engine.now.spec
            (held_tree (B.store engine.now.bank) call.term)) }
    {
        let text = short_text(alloc, engine.bank(), call.term)?;
        let spots = fitting_spots(alloc, engine.bank(), engine.matcher(), &self.spots, call)?;
        add_line(&mut self.lines, &text, &spots)
    }
}
