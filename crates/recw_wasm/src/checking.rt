//! Checks.

ghost use Rattle.std.specs.Prelude.{◌≡◌, IfErr, IfOk};
ghost use Rattle.recw_wasm.specs.Answers.{Answers, IsCheckDue, judged_finish};

use crate::handing::hand_over;
use crate::told::Told;
use rec_check::{Judgement, check_text};
use rx_run::{Finish, RunFault};
use std::alloc::Global;

/// Checks a specification. Each line begins with the name and a location, so `Told` has no offset.
/// Warnings do not reject the text.
#[unsafe(no_mangle)]
pub extern "C" fn recw_check(
    alloc: Global,
    name: &[u8],
    spec: &[u8],
    out: &mut [u8],
    told: &mut Told,
) -> u32
    ensures { Answers (IsCheckDue name.now spec.now) result told.new out.old out.new }
{
    let mut lines = Vec::new(alloc);
    let judged = check_text(alloc, name, spec, &mut lines);
    hand_over(finish_of(judged), lines, None, out, told)
}

/// Converts the result of a check.
fn finish_of(judged: Result<Judgement, RunFault>) -> Result<Finish, RunFault>
    ensures ended { IfOk judged (λ end. result ≡ Ok (judged_finish end)) }
    ensures stopped { IfErr judged (λ fault. result ≡ Err fault) }
{
    match judged {
        Ok(Judgement::Good | Judgement::Warned) => Ok(Finish::Done),
        Ok(Judgement::Refused) => Ok(Finish::Refused),
        Err(fault) => Err(fault),
    }
}
