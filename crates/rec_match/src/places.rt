//! The positions of variables in the list of a rule's variables.

ghost use Rattle.std.specs.Prelude.{◌≡◌, ◌<◌, ◌++◌, ◌∷◌, [], All, IfOk, None};
ghost use Rattle.std.specs.Prelude.{length, get_or, set};
ghost use Rattle.rec_match.specs.Placed.{IsPlace, ArePlaces, OnlyPlaced};

use std::alloc::{AllocError, Global};

/// The position of each variable that is in a list of variables.
#[derive(Drop)]
pub struct Places {
    pub of: Vec<Option<u32>>,
}

impl Places {
    /// Returns an empty table for `count` variables.
    pub fn new(alloc: Global, count: u32) -> Result<Places, AllocError>
        ensures { IfOk result (λ p. ArePlaces [] count p) }
    {
        let of = vec![in alloc; None; count as usize]?;
        Ok(Places { of })
    }

    /// Returns the position of a variable.
    pub fn place(&self, variable: u32) -> Option<u32>
        requires { variable < length self.now.of.items }
        ensures { (vs : _) → ArePlaces vs (length self.now.of.items) self.now
            → IsPlace vs variable result }
    {
        self.of[variable as usize]
    }

    /// Appends a variable that has no position yet; `place` is the length of the list.
    pub fn give(&mut self, variable: u32, place: u32)
        requires { variable < length self.old.of.items }
        ensures { (vs : _) → ArePlaces vs (length self.old.of.items) self.old
            → IsPlace vs variable None → place ≡ length vs
            → ArePlaces (vs ++ variable ∷ []) (length self.old.of.items) self.new }
    {
        self.of[variable as usize] = Some(place);
    }

    /// Removes and returns the position of a variable.
    pub fn take(&mut self, variable: u32) -> Option<u32>
        requires { variable < length self.old.of.items }
        ensures place { result ≡ get_or self.old.of.items variable None }
        ensures taken { self.new.of.items ≡ set self.old.of.items variable None }
    {
        let place = self.of[variable as usize];
        self.of[variable as usize] = None;
        place
    }

    /// Removes the positions of these variables, which are all that there are.
    pub fn clear(&mut self, variables: &[u32])
        requires within { All (λ v. v < length self.old.of.items) variables.now }
        requires places { OnlyPlaced variables.now (length self.old.of.items) self.old.of.items }
        ensures { ArePlaces [] (length self.old.of.items) self.new }
    {
        for variable in variables {
            self.of[*variable as usize] = None;
        }
    }
}
