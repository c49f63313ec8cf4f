//! Symbols by numbers, and the limit of names, for C.

ghost use Rattle.std.specs.Prelude.{◌≡◌, ◌≢◌};
ghost use Rattle.psilt_core.specs.Banks.{signature_at, store_of};
ghost use Rattle.psilt_core.specs.Codes.{told};
ghost use Rattle.psilt_core.specs.Answers.{term_of};
ghost use Rattle.psilt_core.specs.Names.{names_of};
ghost use Rattle.psilt_core.specs.Symbols.{AppliesSymbol, GivesNumber};
ghost use Rattle.psilt_core.specs.Handles.{InBank, OnWork};
ghost use Rattle.psilt_core.specs.Works.{IsSameButBank, IsSameButLimit, IsSameButSymbols};

use crate::answer::{give, on_work, tell, tell_done};
use psilt_core::Psilt;
use std::alloc::Global;

/// Writes the number of the one symbol with this name, quoted flag and number of arguments.
#[unsafe(no_mangle)]
pub extern "C" fn psilt_symbol(
    alloc: Global,
    psilt: &mut Psilt,
    name: &[u8],
    quoted: bool,
    arity: u32,
    out: &mut usize,
) -> u32
    ensures answer { OnWork psilt.old psilt.new result
        (λ v w. GivesNumber v.bank w.bank
        (record { name = name.now; quoted = quoted; arity = arity }) (told result out.new)
        × IsSameButSymbols v w) }
    ensures out { result ≢ 0 → out.new ≡ out.old }
{
    tell(
        on_work!(psilt, alloc, work, work.symbol(name, quoted, arity)),
        out,
    )
}

/// Makes the application of a symbol to some terms.
#[unsafe(no_mangle)]
pub extern "C" fn psilt_apply(
    alloc: Global,
    psilt: &mut Psilt,
    symbol: usize,
    args: &[u32],
    out: &mut u32,
) -> u32
    ensures answer { OnWork psilt.old psilt.new result
        (λ v w. AppliesSymbol (signature_at v.bank symbol) (store_of v.bank) (store_of w.bank)
        args.now (told result (term_of out.new)) × IsSameButBank v w) }
    ensures out { result ≢ 0 → out.new ≡ out.old }
{
    give(on_work!(psilt, alloc, work, work.apply(symbol, args)), out)
}

/// Writes the number of names. A name counts once for each quoted flag and number of arguments.
#[unsafe(no_mangle)]
pub extern "C" fn psilt_names(alloc: Global, psilt: &mut Psilt, out: &mut u32) -> u32
    ensures answer { InBank psilt.old psilt.new result
        (λ v. (result ≡ 0) × (out.new ≡ names_of v)) }
    ensures out { result ≢ 0 → out.new ≡ out.old }
{
    tell(on_work!(psilt, alloc, work, Ok(work.names())), out)
}

/// Limits the number of names from now on to `most`.
#[unsafe(no_mangle)]
pub extern "C" fn psilt_limit_names(alloc: Global, psilt: &mut Psilt, most: u32) -> u32
    ensures answer { OnWork psilt.old psilt.new result
        (λ v w. (result ≡ 0) × IsSameButLimit v w most) }
{
    tell_done(on_work!(
        psilt,
        alloc,
        work,
        {
            work.limit_names(most);
            Ok(())
        }
    ))
}
