//! The list in which a tracer protects its values, so that the engine's calls keep them.

ghost use Rattle.std.specs.Prelude.{◌≡◌, ◌≤◌, ◌<◌, [], IfOk, IsSome, OnErr, OnOk, length, IfErr};
ghost use Rattle.rx_term.specs.Store.{tree_at};
ghost use Rattle.rx_term.specs.Walks.{AllHeld};
ghost use Rattle.rx_term.specs.declared.Term.{Term as Reference};
ghost use Rattle.rec_engine.specs.Engine.{SameEngine};
ghost use Rattle.rec_trace.specs.Inner.Calls.{Relists, Uses};
ghost use Rattle.rec_trace.specs.Lists.{IsKept, Stays, listed};
ghost use Rattle.rec_trace.specs.Lists.{protected_instead};
ghost use Rattle.rec_trace.specs.Inner.Saving.{AreSaved, CanSave, HasAll, KeepsLowest, KeepsSaved};
ghost use Rattle.rec_trace.specs.Inner.Saving.{Leaves, Lengthens, Saves, Shortens};
ghost use Rattle.rec_engine.specs.declared.engine.errors.EngineFault.TheVariants.{Memory};

use crate::row::Row;
use rec_engine::{Engine, EngineFault};
use rx_term::{Term, TermBank};

/// A protected list of values, the lowest one last, and their number.
#[derive(Drop)]
pub(crate) struct Saved {
    pub(crate) list: Term,
    pub(crate) count: usize,
}

/// Protects the term `new` once more, and then `old` once less.
fn protect_instead<B: TermBank>(
    engine: &mut Engine<B>,
    old: Term,
    new: Term,
) -> Result<(), EngineFault>
    requires new { IsSome (tree_at (B.store engine.old.bank) new) }
    requires old { 0 < (B.store engine.old.bank).roots old.0 }
    ensures same { SameEngine engine.old engine.new }
    ensures ok { OnOk result
        (B.store engine.new.bank ≡ protected_instead (B.store engine.old.bank) old new) }
    ensures err { OnErr result (B.store engine.new.bank ≡ B.store engine.old.bank) }
    ensures memory { IfErr result (λ e. e ≡ Memory) }
{
    match engine.protect(new) {
        Ok(()) => {
            engine.unprotect(old);
            Ok(())
        }
        Err(_) => Err(EngineFault::Memory),
    }
}

impl Saved {
    /// Makes an empty list of saved values.
    pub(crate) fn none<B: TermBank>(engine: &mut Engine<B>) -> Result<Saved, EngineFault>
        ensures uses { Uses B.store engine.old engine.new result }
        ensures kept { IfOk result (λ s. IsKept (B.store engine.new.bank) s.list) }
        ensures none { IfOk result (λ s. listed (B.store engine.new.bank) s.list ≡ []) }
        ensures count { IfOk result (λ s. s.count ≡ 0) }
    {
        let list = engine.nil()?;
        match engine.protect(list) {
            Ok(()) => Ok(Saved { list, count: 0 }),
            Err(_) => Err(EngineFault::Memory),
        }
    }

    /// Drops the values that were saved last until at most `count` are left.
    fn shorten<B: TermBank>(
        &mut self,
        engine: &mut Engine<B>,
        count: usize,
    ) -> Result<(), EngineFault>
        requires kept { IsKept (B.store engine.old.bank) self.old.list }
        requires counted { length (listed (B.store engine.old.bank) self.old.list)
            ≡ self.old.count }
        ensures same { SameEngine engine.old engine.new }
        ensures stays { Stays (B.store engine.old.bank) (B.store engine.new.bank) self.old.list
            self.new.list }
        ensures trees { (t : Reference) → tree_at (B.store engine.new.bank) t
            ≡ tree_at (B.store engine.old.bank) t }
        ensures shortens { OnOk result (Shortens (B.store engine.old.bank)
            (B.store engine.new.bank) self.old self.new count) }
        ensures refused { OnErr result (self.new ≡ self.old) }
        ensures memory { IfErr result (λ e. e ≡ Memory) }
    {
        let mut list = self.list;
        let mut left = self.count;
        'stale: while left > count {
            list = engine.bank().tail(list);
            left -= 1;
        }
        protect_instead(engine, self.list, list)?;
        self.list = list;
        self.count = left;
        Ok(())
    }

    /// Saves values above the saved ones, until at least `count` are saved.
    fn lengthen<B: TermBank>(
        &mut self,
        engine: &mut Engine<B>,
        values: &mut Vec<Term>,
        count: usize,
    ) -> Result<(), EngineFault>
        requires kept { IsKept (B.store engine.old.bank) self.old.list }
        requires held { AllHeld (B.store engine.old.bank) values.old.items }
        requires saved { AreSaved (B.store engine.old.bank) values.old.items self.old }
        requires count { count ≤ length values.old.items }
        ensures relists { Relists B.store engine.old engine.new self.old.list self.new.list
            result }
        ensures lengthens { OnOk result (Lengthens (B.store engine.old.bank)
            (B.store engine.new.bank) values.old.items values.new.items self.new count) }
        ensures refused { OnErr result (KeepsLowest (B.store engine.old.bank)
            (B.store engine.new.bank) values.old.items values.new.items self.old self.new) }
    {
        'values: while self.count < count {
            let list = engine.hold_on(values, self.count, self.list)?;
            protect_instead(engine, self.list, list)?;
            self.list = list;
            self.count += 1;
        }
        Ok(())
    }

    /// Saves at least the `count` lowest values of a row.
    pub(crate) fn save<B: TermBank>(
        &mut self,
        engine: &mut Engine<B>,
        row: &mut Row,
        count: usize,
    ) -> Result<(), EngineFault>
        requires can { CanSave (B.store engine.old.bank) row.old self.old count }
        ensures relists { Relists B.store engine.old engine.new self.old.list self.new.list
            result }
        ensures saves { OnOk result (Saves (B.store engine.old.bank) (B.store engine.new.bank)
            row.old row.new self.new count) }
        ensures keeps { KeepsSaved (B.store engine.old.bank) (B.store engine.new.bank)
            row.old row.new self.new }
        ensures low { OnErr result (row.new.low ≡ row.old.low) }
    {
        self.shorten(engine, row.low)?;
        self.lengthen(engine, &mut row.values, count)?;
        row.low = self.count;
        Ok(())
    }

    /// Saves all values of a row, and drops those above the `count` lowest from the row. They are
    /// dropped after an error, too.
    pub(crate) fn save_all<B: TermBank>(
        &mut self,
        engine: &mut Engine<B>,
        row: &mut Row,
        count: usize,
    ) -> Result<(), EngineFault>
        requires can { CanSave (B.store engine.old.bank) row.old self.old count }
        ensures relists { Relists B.store engine.old engine.new self.old.list self.new.list
            result }
        ensures leaves { Leaves (B.store engine.old.bank) (B.store engine.new.bank)
            row.old row.new self.new count }
        ensures all { OnOk result (HasAll (B.store engine.new.bank) self.new.list
            row.old.values.items) }
    {
        let all = row.values.len();
        let saved = self.save(engine, row, all);
        row.cut(count);
        saved
    }
}
