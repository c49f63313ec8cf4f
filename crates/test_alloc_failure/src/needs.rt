//! Preparation of the values for a test.

ghost use Rattle.std.specs.Prelude.{◌≡◌, Ok, IsSome, IfSome};
ghost use Rattle.rx_term.specs.Store.{tree_at};

use rx_term::{Term, TermBank};
use rx_text::read;
use std::alloc::Global;

/// Moves a result to the heap. The owner then drops one small value, whatever its parts.
pub fn heap_answer<T: Drop, F: Drop>(alloc: Global, answer: Result<T, F>) -> Option<Box<T>>
    ensures { IfSome result (λ b. answer ≡ Ok b.value) }
{
    match answer {
        Ok(value) => Box::new(alloc, value).ok(),
        Err(_) => None,
    }
}

/// Reads the term of a text. Returns `None` if the store does not have it.
pub fn read_held<B: TermBank>(alloc: Global, bank: &mut B, text: &[u8]) -> Option<Term>
    ensures { IfSome result (λ t. IsSome (tree_at (B.store bank.new) t)) }
{
    let t = read(alloc, text, bank).ok()?;
    if bank.holds(t) { Some(t) } else { None }
}
