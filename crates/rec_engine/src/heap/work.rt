//! Operations on the value stack.

ghost use Rattle.std.specs.Prelude.{◌≡◌, ◌≤◌, ◌++◌, ◌∷◌, [], IfOk, IfErr};
ghost use Rattle.std.specs.Prelude.{length, take, drop};
ghost use Rattle.rec_engine.specs.declared.engine.errors.EngineFault.TheVariants.{Memory};

use crate::engine::errors::EngineFault;
use rx_term::Term;

/// Pushes a reference.
#[inline(always)]
pub(crate) fn push(work: &mut Vec<Term>, t: Term) -> Result<(), EngineFault>
    ensures pushed { IfOk result (λ u. work.new.items ≡ work.old.items ++ t ∷ []) }
    ensures fault { IfErr result (λ e. e ≡ Memory) }
{
    match work.push(t) {
        Ok(()) => Ok(()),
        Err(_) => Err(EngineFault::Memory),
    }
}

/// Pushes some references.
pub(crate) fn push_all(work: &mut Vec<Term>, values: &[Term]) -> Result<(), EngineFault>
    ensures pushed { IfOk result (λ u. work.new.items ≡ work.old.items ++ values.now) }
    ensures fault { IfErr result (λ e. e ≡ Memory) }
{
    match work.extend_from_slice(values) {
        Ok(()) => Ok(()),
        Err(_) => Err(EngineFault::Memory),
    }
}

/// Pushes a copy of the values from an index on. They are few, so a loop is faster than a block
/// copy.
#[inline(always)]
pub(crate) fn repeat(work: &mut Vec<Term>, from: usize) -> Result<(), EngineFault>
    requires { from ≤ length work.old.items }
    ensures repeated { IfOk result
        (λ u. work.new.items ≡ work.old.items ++ drop from work.old.items) }
    ensures fault { IfErr result (λ e. e ≡ Memory) }
{
    for i in from..work.len() {
        let t = work[i];
        push(work, t)?;
    }
    Ok(())
}

/// Inserts a reference at an index.
pub(crate) fn insert(work: &mut Vec<Term>, at: usize, t: Term) -> Result<(), EngineFault>
    requires { at ≤ length work.old.items }
    ensures inserted { IfOk result
        (λ u. work.new.items ≡ take at work.old.items ++ t ∷ drop at work.old.items) }
    ensures fault { IfErr result (λ e. e ≡ Memory) }
{
    match work.insert(at, t) {
        Ok(()) => Ok(()),
        Err(_) => Err(EngineFault::Memory),
    }
}
