//! Numbers that are printed in place of terms.

ghost use Rattle.std.specs.Prelude.{◌≡◌, IsSome};
ghost use Rattle.rx_term.specs.Store.{Store, tree_at};
ghost use Rattle.rx_term.specs.Walks.{held_tree};
ghost use Rattle.rx_text.specs.Numbered.{Style, is_numbered, number_in};

use rx_term::Term;

/// Numbers of some terms of a store, which are printed in their place, as in a table.
pub trait Numbers {
    /// `style numbers w`: how the terms of the store `w` are printed.
    ghost style: { Self → Store → Style };

    /// `are_for numbers w`: the numbers are those of terms of the store `w`.
    ghost are_for: { Self → Store → Type 0 };

    /// Returns whether terms have numbers. Then placeholders have a list in them.
    fn are_some(&self) -> bool
        ensures { (w : Store) → result ≡ is_numbered (style self.now w) };

    /// Returns the number of a term, if it has one.
    fn number_of(&self, t: Term) -> Option<u32>
        ensures { (w : Store) → are_for self.now w → IsSome (tree_at w t)
            → result ≡ number_in (style self.now w) (held_tree w t) };
}

/// No numbers: terms are printed as they are.
#[derive(Clone, Copy, Debug, Drop)]
pub(crate) struct NoNumbers;

impl Numbers for NoNumbers {
    ghost use Rattle.rx_text.specs.Numbered.{Plain};

    ghost style = { λ _ _. Plain };

    ghost are_for = { λ _ _. Unit {0} };

    #[inline(always)]
    fn are_some(&self) -> bool {
        false
    }

    #[inline(always)]
    fn number_of(&self, _t: Term) -> Option<u32> {
        None
    }
}
