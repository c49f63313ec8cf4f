//! The variables that a left-hand side binds.

ghost use Rattle.std.specs.Prelude.{◌≡◌, ℕ, IfOk, nat_eq};
ghost use Rattle.std.specs.HashSet.{contains};
ghost use Rattle.std.specs.Option.{ForSome};
ghost use Rattle.rec_sorts.specs.Reading.{binds_variable, is_unbound};

use crate::letters::Meaning;
use crate::terms::Placed;
use std::alloc::{AllocError, Global};
use std::collections::HashSet;

/// Up to this number of items are searched one by one, which costs less than a set of variables.
const FEW: usize = 24;

/// The variables among some postfix items, with a set of them if there are more than `FEW` items.
#[derive(Drop)]
pub struct Bound<'a> {
    pub letters: &'a [Placed],
    many: Option<HashSet<u32>>,
    ghost agrees: { ForSome many
        (λ set. (v : ℕ) → contains nat_eq set v ≡ binds_variable letters.now v) },
}

/// Returns the set of variables among these items.
fn variables(alloc: Global, letters: &[Placed]) -> Result<HashSet<u32>, AllocError>
    ensures { IfOk result (λ set. (v : ℕ) → contains nat_eq set v ≡ binds_variable letters.now v) }
{
    let mut variables = HashSet::new(alloc);
    for placed in letters {
        if let Some(Meaning::Variable(number)) = placed.meaning {
            variables.insert(number)?;
        }
    }
    Ok(variables)
}

/// Returns whether a variable is among these items.
fn binds(letters: &[Placed], variable: u32) -> bool
    ensures { result ≡ binds_variable letters.now variable }
{
    for placed in letters {
        if let Some(Meaning::Variable(number)) = placed.meaning {
            if number == variable {
                return true;
            }
        }
    }
    false
}

impl<'a> Bound<'a> {
    /// Collects the variables among these items.
    pub fn by(alloc: Global, letters: &'a [Placed]) -> Result<Bound<'a>, AllocError>
        ensures { IfOk result (λ b. b.letters.now ≡ letters.now) }
    {
        let many = if letters.len() <= FEW {
            None
        } else {
            Some(variables(alloc, letters)?)
        };
        Ok(Bound { letters, many })
    }

    /// Returns whether a name is a variable that these items do not bind.
    pub fn lacks(&self, meaning: Option<Meaning>) -> bool
        ensures { result ≡ is_unbound (binds_variable self.now.letters.now) meaning }
    {
        let Some(Meaning::Variable(number)) = meaning else {
            return false;
        };
        match &self.many {
            Some(set) => !set.contains(&number),
            None => !binds(self.letters, number),
        }
    }
}
