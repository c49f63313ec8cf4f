//! Return codes for C, and the results that are written if the code is 0.

ghost use Rattle.std.specs.Prelude.{◌≡◌, ◌≢◌, ℕ, ℤ};
ghost use Rattle.rx_term.specs.Store.{Store};
ghost use Rattle.rx_term.specs.Kinds.{HasKind};
ghost use Rattle.rx_term.specs.declared.Term.{Term as Reference};
ghost use Rattle.psilt_core.specs.Codes.{told, fault_at};
ghost use Rattle.psilt_core.specs.Answers.{term_of, Looks, HasKindNumber};
ghost use Rattle.psilt_core.specs.Evaluating.{normalised_of};

use psilt_core::Fault;
use psilt_core::evaluating::Normalised;
use psilt_core::fault::code;
use rx_term::{Kind, Term};

/// The return code if the handle is closed.
pub(crate) const CLOSED: u32 = 3;

/// Takes the work out of an open handle, evaluates an expression with it, and puts it back.
macro_rules! on_work {
    ($psilt:ident, $alloc:ident, $work:ident, $call:expr) => {{
        let Some(mut $work) = $psilt.take($alloc) else {
            return $crate::answer::CLOSED;
        };
        let answer = $call;
        $psilt.put($work);
        answer
    }};
}

pub(crate) use on_work;

/// Returns the code of a result without a value.
pub(crate) fn tell_done(answer: Result<(), Fault>) -> u32
    ensures { told result tt ≡ answer }
{
    code(&answer)
}

/// Returns the code of a result, and writes the term reference on success.
pub(crate) fn give(answer: Result<Term, Fault>, out: &mut u32) -> u32
    ensures answer { told result (term_of out.new) ≡ answer }
    ensures kept { result ≢ 0 → out.new ≡ out.old }
{
    if let Ok(t) = answer {
        *out = t.0;
    }
    code(&answer)
}

/// Returns the code of an error.
fn refusal(fault: Fault) -> u32
    ensures { (result ≢ 0) × (fault_at result ≡ fault) }
{
    let answer: Result<(), Fault> = Err(fault);
    code(&answer)
}

/// Returns the code of a result, and writes the value on success.
pub(crate) fn tell<T: Copy>(answer: Result<T, Fault>, out: &mut T) -> u32
    ensures answer { told result out.new ≡ answer }
    ensures kept { result ≢ 0 → out.new ≡ out.old }
{
    match answer {
        Ok(value) => {
            *out = value;
            0
        }
        Err(fault) => refusal(fault),
    }
}

/// Returns the code of a result, and writes the term reference and the number of steps on success.
pub(crate) fn tell_value(answer: Result<Normalised, Fault>, value: &mut u32, taken: &mut u64) -> u32
    ensures answer { told result (normalised_of value.new taken.new) ≡ answer }
    ensures kept { result ≢ 0 → (value.new ≡ value.old) × (taken.new ≡ taken.old) }
{
    match answer {
        Ok(Normalised { term, steps }) => {
            *value = term.0;
            *taken = steps;
            0
        }
        Err(fault) => refusal(fault),
    }
}

/// Returns the code of a result. On success, writes the number of the kind and, for an integer, its
/// value.
pub(crate) fn tell_kind(answer: Result<Kind, Fault>, kind: &mut u32, value: &mut i32) -> u32
    ensures answer { (w : Store) → (t : Reference) → Looks w t (HasKind w t) answer
        → Looks w t (λ (k : ℕ × ℤ). HasKindNumber w t k.0 k.1) (told result (kind.new, value.new)) }
    ensures kept { result ≢ 0 → (kind.new ≡ kind.old) × (value.new ≡ value.old) }
{
    match answer {
        Ok(Kind::Int(z)) => {
            *kind = 0;
            *value = z;
            0
        }
        Ok(Kind::Nil) => {
            *kind = 1;
            0
        }
        Ok(Kind::Cons) => {
            *kind = 2;
            0
        }
        Ok(Kind::Appl(_)) => {
            *kind = 3;
            0
        }
        Ok(Kind::Hole) => {
            *kind = 4;
            0
        }
        Err(fault) => refusal(fault),
    }
}
