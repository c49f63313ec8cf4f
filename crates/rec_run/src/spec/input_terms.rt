//! The source of input terms: none, or an input that has their text.

ghost use Rattle.std.specs.Prelude.{◌≡◌, ℕ, Bool, List, Option, None, Some, IfErr, IfOk, IfSome};
ghost use Rattle.std.specs.Prelude.{OnOk, false, option_map, refl};
ghost use Rattle.rx_text.specs.Input.{IsSameInput, remaining_in};
ghost use Rattle.rx_run.specs.Run.{IsReadOut, StopsReading};
ghost use Rattle.rec_run.specs.InputTerms.{IsFrontOf};
ghost use Rattle.rec_run.specs.Run.{ReportsReadsBy};

use rx_run::{RunFault, read_all_from};
use rx_text::Input;
use std::alloc::Global;
use std::io::Read;

/// A source of input terms: [`NoTerms`], or the `Input` that has their text.
pub trait InputTerms {
    /// The text, `Some None` if there are no input terms, or `None` if the reader does not describe
    /// it.
    ghost text: { Self → Option (Option (List ℕ)) };

    /// Whether the reader has returned an error.
    ghost refused: { Self → Bool };

    /// The reader was read to its end, or to one byte after the longest text.
    ghost is_read_out: { Self → Self → Type 0 };

    /// Both values have the same reader.
    ghost is_same: { Self → Self → Type 0 };

    /// Reads the text, if there are input terms. A reader that has failed is not used again.
    fn read_text(&mut self, alloc: Global) -> Result<Option<Vec<u8>>, RunFault>
        ensures text { IfOk result (λ read. IfSome (text self.old) (IsFrontOf read)) }
        ensures out { OnOk result (is_read_out self.old self.new) }
        ensures fault { IfErr result StopsReading }
        ensures same { is_same self.old self.new }
        ensures reports { ReportsReadsBy (refused self.old) (refused self.new) result };

    /// A source from which nothing was read has the same reader.
    ghost same_unread: { (it : Self) → is_same it it };
}

/// No input terms are given.
#[derive(Clone, Copy, Debug, Drop)]
pub struct NoTerms;

impl InputTerms for NoTerms {
    ghost text = { λ it. Some None };

    ghost refused = { λ it. false };

    ghost is_read_out = { λ old new. Unit {0} };

    ghost is_same = { λ old new. Unit {0} };

    ghost same_unread = { λ it. tt };

    fn read_text(&mut self, _alloc: Global) -> Result<Option<Vec<u8>>, RunFault> {
        Ok(None)
    }
}

impl<R: Read> InputTerms for Input<'_, R> {
    ghost text = { λ it. option_map (λ b. Some b) (remaining_in R.remaining it) };

    ghost refused = { λ it. it.refused };

    ghost is_read_out = { λ old new.
        IsReadOut (remaining_in R.remaining old) (remaining_in R.remaining new) };

    ghost is_same = { λ old new. IsSameInput old new };

    ghost same_unread = { λ it. refl };

    fn read_text(&mut self, alloc: Global) -> Result<Option<Vec<u8>>, RunFault> {
        let text = read_all_from(alloc, self)?;
        Ok(Some(text))
    }
}
