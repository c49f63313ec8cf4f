//! Pushes of a tree walk: the arguments of an application, and the values of a rule that is not
//! left-linear. Room for all of them is requested once.

ghost use Rattle.std.specs.Prelude.{◌≤◌, length, drop, IfOk};
ghost use Rattle.rec_match.specs.Forests.{ArePlaces, Extends, Fills, IsListOf, PushesArguments};

use crate::forest::Place;
use rx_term::{Term, TermBank};
use std::alloc::AllocError;

/// Pushes the values at these positions, if those that have to be equal are equal. The registers
/// are the references from index `first` on. Returns false, with the stack unchanged, if two values
/// differ.
pub fn fill(places: &[Place], first: usize, work: &mut Vec<Term>) -> Result<bool, AllocError>
    requires within { first ≤ length work.old.items }
    requires places { ArePlaces (length (drop first work.old.items)) 0 places.now }
    ensures fills { IfOk result (Fills places.now (drop first work.old.items)
        (drop (length work.old.items) work.new.items)) }
    ensures behind { Extends work.old.items work.new.items }
{
    let count = work.len();
    work.reserve(places.len())?;
    for place in places {
        match *place {
            Place::First(register) => {
                let value = work[first + register as usize];
                work.push_reserved(value);
            }
            Place::Again { register, value } => {
                if work[count + value as usize].0 != work[first + register as usize].0 {
                    work.truncate(count);
                    return Ok(false);
                }
            }
        }
    }
    Ok(true)
}

/// Pushes the argument of an application with one argument.
#[inline(always)]
fn push_one<B: TermBank>(
    bank: &B,
    arguments: Term,
    registers: &mut Vec<Term>,
) -> Result<(), AllocError>
    requires list { IsListOf (B.store bank.now) arguments 1 }
    ensures pushes { IfOk result (λ u.
        PushesArguments (B.store bank.now) arguments registers.old.items registers.new.items) }
    ensures behind { Extends registers.old.items registers.new.items }
{
    registers.reserve(1)?;
    let first = bank.head(arguments);
    registers.push_reserved(first);
    Ok(())
}

/// Pushes the arguments of an application with two arguments.
#[inline(always)]
fn push_two<B: TermBank>(
    bank: &B,
    arguments: Term,
    registers: &mut Vec<Term>,
) -> Result<(), AllocError>
    requires list { IsListOf (B.store bank.now) arguments 2 }
    ensures pushes { IfOk result (λ u.
        PushesArguments (B.store bank.now) arguments registers.old.items registers.new.items) }
    ensures behind { Extends registers.old.items registers.new.items }
{
    registers.reserve(2)?;
    let first = bank.head(arguments);
    let rest = bank.tail(arguments);
    let second = bank.head(rest);
    registers.push_reserved(first);
    registers.push_reserved(second);
    Ok(())
}

/// Pushes the arguments of an application with any number of arguments.
#[inline(always)]
fn push_each<B: TermBank>(
    bank: &B,
    arguments: Term,
    count: u32,
    registers: &mut Vec<Term>,
) -> Result<(), AllocError>
    requires list { IsListOf (B.store bank.now) arguments count }
    ensures pushes { IfOk result (λ u.
        PushesArguments (B.store bank.now) arguments registers.old.items registers.new.items) }
    ensures behind { Extends registers.old.items registers.new.items }
{
    registers.reserve(count as usize)?;
    let mut rest = arguments;
    for _ in 0..count {
        // both parts of a cell are read before the list is written
        let first = bank.head(rest);
        rest = bank.tail(rest);
        registers.push_reserved(first);
    }
    Ok(())
}

/// Pushes the `count` arguments of an application as new registers. One or two arguments need no
/// loop.
#[inline(always)]
pub fn push_arguments<B: TermBank>(
    bank: &B,
    arguments: Term,
    count: u32,
    registers: &mut Vec<Term>,
) -> Result<(), AllocError>
    requires list { IsListOf (B.store bank.now) arguments count }
    ensures pushes { IfOk result (λ u.
        PushesArguments (B.store bank.now) arguments registers.old.items registers.new.items) }
    ensures behind { Extends registers.old.items registers.new.items }
{
    match count {
        1 => push_one(bank, arguments, registers),
        2 => push_two(bank, arguments, registers),
        _ => push_each(bank, arguments, count, registers),
    }
}
