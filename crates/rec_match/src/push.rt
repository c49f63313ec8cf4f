//! Construction of the parts of left-hand sides from postfix items.

ghost use Rattle.std.specs.Prelude.{◌≡◌, IfOk, length};
ghost use Rattle.rec_match.specs.Pushed.{CanPush, Pushed, counts_of, AreLeftParts};

use crate::parts::Parts;
use rec_sorts::{Checked, Letter};
use std::alloc::{AllocError, Global};

impl Parts {
    /// Adds the parts of these items one after the other. The number of each part replaces those of
    /// its arguments on top of the stack.
    pub fn push_letters(
        &mut self,
        letters: &[Letter],
        stack: &mut Vec<u32>,
    ) -> Result<(), AllocError>
        requires { CanPush (length stack.old.items) (counts_of letters.now) }
        ensures { IfOk result
            (λ u. Pushed self.old stack.old.items letters.now self.new stack.new.items) }
    {
        for letter in letters {
            if self.arguments.len() + stack.len() > u32::MAX as usize
                || self.parts.len() > u32::MAX as usize
            {
                return Err(AllocError);
            }
            self.push_letter(*letter, stack)?;
        }
        Ok(())
    }
}

/// The parts of all left-hand sides, and the number of the part of each rule's left-hand side.
#[derive(Drop)]
pub struct LeftParts {
    pub parts: Parts,
    pub numbers: Vec<u32>,
}

/// Returns the parts of the left-hand sides of a specification's rules.
pub fn left_parts(alloc: Global, checked: &Checked) -> Result<LeftParts, AllocError>
    ensures { IfOk result (λ l.
        AreLeftParts checked.now.spec l.parts l.numbers.items (length checked.now.spec.rules)) }
{
    let rules = checked.rules();
    let mut parts = Parts {
        parts: Vec::new(alloc),
        arguments: Vec::new(alloc),
    };
    let mut numbers = Vec::new(alloc);
    for rule in 0..rules.len() {
        let mut stack = Vec::new(alloc);
        parts.push_letters(&rules[rule].left, &mut stack)?;
        numbers.push(stack[0])?;
    }
    Ok(LeftParts { parts, numbers })
}
