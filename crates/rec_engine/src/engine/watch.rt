//! Progress reports of an evaluation. A watch cannot change the evaluation, so no clause mentions
//! it. A control can stop the evaluation.

ghost use Rattle.std.specs.Prelude.{◌≡◌, true, false};

/// Receives the progress of evaluations.
pub trait Watch {
    /// Called now and then during an evaluation, with the number of steps left and of cells in the
    /// store.
    fn tell(&mut self, left: u64, cells: u32);

    /// Called when an evaluation has ended, with an outcome or an error.
    fn cease(&mut self);
}

/// Decides at each progress report whether the evaluation continues.
pub trait Control {
    /// It has requested a stop.
    ghost has_requested: { Self → Type 0 };

    /// Reports progress: the number of steps left and of cells in the store. Returns whether the
    /// evaluation continues.
    fn report(&mut self, left: u64, cells: u32) -> bool
        ensures stops { result ≡ false → has_requested self.new }
        ensures continues { result ≡ true → has_requested self.new → has_requested self.old };
}

/// A watch that does nothing.
#[derive(Clone, Copy, Debug, Drop)]
pub struct Unwatched;

impl Watch for Unwatched {
    fn tell(&mut self, _left: u64, _cells: u32) {}

    fn cease(&mut self) {}
}

/// A control that passes each report to a watch and never requests a stop.
#[derive(Drop)]
pub(crate) struct Watching<'a, V>(pub(crate) &'a mut V);

impl<V: Watch> Control for Watching<'_, V> {
    ghost has_requested = { λ _. ⊥ };

    fn report(&mut self, left: u64, cells: u32) -> bool {
        self.0.tell(left, cells);
        true
    }
}
