//! A rewrite: whether it is selected, and its line.

ghost use Rattle.std.specs.Prelude.{◌≡◌, ◌≤◌, ◌<◌, ℕ, IfOk, IsSome, List, Some, length};
ghost use Rattle.std.specs.Prelude.{option_map, slice_get};
ghost use Rattle.rx_term.specs.Store.{Store, tree_at};
ghost use Rattle.rx_term.specs.Walks.{held_tree};
ghost use Rattle.rec_syntax.specs.Syntax.{Spec};
ghost use Rattle.rec_engine.specs.Engine.{SameEngine};
ghost use Rattle.rec_trace.specs.Faults.{RoomOnlyIfFull};
ghost use Rattle.rec_trace.specs.Trace.{Firing};
ghost use Rattle.rec_trace.specs.Tracing.{HasFiredAt, Stands, rest_of};
ghost use Rattle.rec_trace.specs.declared.tracer.Tracer.{Tracer};
ghost use Rattle.rec_trace_run.specs.Picks.{is_at, is_call_of, is_picked, picks_by, where_asked};
ghost use Rattle.rec_trace_run.specs.Traces.{shown_by, step_line};
ghost use Rattle.rec_trace_run.specs.Inner.Telling.{IsTelling};

use crate::picked::RulePlace;
use crate::telling::Telling;
use rec_engine::{Engine, EngineFault};
use rec_trace::{Margins, Spot, Tracer, firing_line, whole_line};
use rx_term::{Kind, Term, TermBank};

/// A rewrite: the number of its rule, and the redex.
#[derive(Clone, Copy, Drop)]
pub(crate) struct Fired {
    pub(crate) rule: u32,
    pub(crate) redex: Term,
}

/// Returns whether a rule begins at the selected location; true if none is selected.
fn is_asked_spot(spot: Spot, place: Option<RulePlace>) -> bool
    ensures { result ≡ where_asked (is_at spot) place }
{
    match place {
        None => true,
        Some(place) => {
            spot.line == u64::from(place.line) && spot.column == u64::from(place.column)
        }
    }
}

/// Returns whether a term is a call of the selected symbol; true if none is selected.
fn is_asked_call<B: TermBank>(bank: &B, t: Term, symbol: Option<&[u8]>) -> bool
    requires { IsSome (tree_at (B.store bank.now) t) }
    ensures { result ≡ where_asked (is_call_of (held_tree (B.store bank.now) t))
        (option_map (λ s. s.now) symbol.entry) }
{
    let Some(symbol) = symbol else {
        return true;
    };
    let Kind::Appl(own) = bank.kind(t) else {
        return false;
    };
    bank.name_of(own) == symbol
}

/// Returns whether a rewrite is selected.
pub(crate) fn is_picked<B: TermBank>(bank: &B, telling: &Telling<'_>, fired: Fired) -> bool
    requires rule { fired.rule < length telling.now.spots.items }
    requires redex { IsSome (tree_at (B.store bank.now) fired.redex) }
    ensures { (source : List ℕ) (y : Spec) (f : Firing) → IsTelling source y telling.now
        → slice_get y.rules fired.rule ≡ Some f.found.rule
        → tree_at (B.store bank.now) fired.redex ≡ Some f.redex
        → result ≡ is_picked source (picks_by telling.now.options.picked) f }
{
    let picked = telling.options.picked;
    is_asked_spot(telling.spots[fired.rule as usize], picked.place)
        && is_asked_call(bank, fired.redex, picked.symbol)
}

/// Makes the line of a rewrite from the tracer after it. The contractum is built only for a line
/// that shows it.
pub(crate) fn step_text<B: TermBank>(
    engine: &mut Engine<B>,
    tracer: &mut Tracer,
    telling: &Telling<'_>,
    fired: Fired,
) -> Result<Vec<u8>, EngineFault>
    requires fired { (w : Store) × (t : Tracer) × HasFiredAt engine.old.spec w
        (B.store engine.old.bank) t tracer.old fired.rule fired.redex }
    requires stands { Stands engine.old.spec (B.store engine.old.bank) tracer.old }
    requires left { tracer.old.left ≤ telling.now.options.run.steps }
    requires telling { (source : List ℕ) × IsTelling source engine.old.spec telling.now }
    ensures same { SameEngine engine.old engine.new }
    ensures room { RoomOnlyIfFull (B.store engine.new.bank) engine.new.memo result }
    ensures stands { IfOk result
        (λ line. Stands engine.old.spec (B.store engine.new.bank) tracer.new) }
    ensures rest { IfOk result (λ line. rest_of engine.old.spec (B.store engine.new.bank) tracer.new
        ≡ rest_of engine.old.spec (B.store engine.old.bank) tracer.old) }
    ensures text { IfOk result (λ line. (source : List ℕ) (w : Store) (t : Tracer)
        → IsTelling source engine.old.spec telling.now
        → (f : HasFiredAt engine.old.spec w (B.store engine.old.bank) t tracer.old fired.rule
        fired.redex)
        → line.items ≡ step_line source (shown_by telling.now.options)
        telling.now.options.run.steps f.firing) }
{
    let spot = telling.spots[fired.rule as usize];
    let spent = telling.options.run.steps - tracer.left();
    let look = telling.options.look();
    let margins = Margins { spot, spent, look };
    if telling.options.whole {
        let whole = tracer.whole(telling.alloc, engine)?;
        match whole_line(telling.alloc, engine.bank(), whole, margins) {
            Ok(line) => Ok(line),
            Err(_) => Err(EngineFault::Memory),
        }
    } else {
        let rewrite = tracer.rewrite(telling.alloc, engine, fired.rule, fired.redex)?;
        match firing_line(telling.alloc, engine.bank(), rewrite, margins) {
            Ok(line) => Ok(line),
            Err(_) => Err(EngineFault::Memory),
        }
    }
}
