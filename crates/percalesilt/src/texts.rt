//! Texts of terms for C: reading, printing, and locations of errors.

ghost use Rattle.std.specs.Prelude.{◌≡◌, ◌≢◌, Err};
ghost use Rattle.psilt_core.specs.Banks.{store_of};
ghost use Rattle.psilt_core.specs.Codes.{told};
ghost use Rattle.psilt_core.specs.declared.fault.Fault.TheVariants.{Syntax};
ghost use Rattle.psilt_core.specs.Answers.{term_of, Reads, Spells, Copies, printed_in, name_in};
ghost use Rattle.psilt_core.specs.Answers.{SpellsWithin};
ghost use Rattle.psilt_core.specs.Handles.{OnWork};
ghost use Rattle.psilt_core.specs.Works.{IsSameButText, IsSameButRead};

use crate::answer::{give, on_work, tell, tell_done};
use psilt_core::Psilt;
use rx_term::Term;
use std::alloc::Global;

/// Makes the term that a text spells. After a syntax error, `psilt_place` has its offset.
#[unsafe(no_mangle)]
pub extern "C" fn psilt_read(alloc: Global, psilt: &mut Psilt, text: &[u8], out: &mut u32) -> u32
    ensures answer { OnWork psilt.old psilt.new result
        (λ v w. Reads v.bank.most_names (store_of v.bank) (store_of w.bank) text.now w.place
        (told result (term_of out.new))
        × (told result (term_of out.new) ≡ Err Syntax → w.rule ≡ 0) × IsSameButRead v w) }
    ensures out { result ≢ 0 → out.new ≡ out.old }
{
    give(on_work!(psilt, alloc, work, work.read(alloc, text)), out)
}

/// Writes the offset, in bytes from 0, at which the text that was rejected last leaves its grammar
/// or violates a rule.
#[unsafe(no_mangle)]
pub extern "C" fn psilt_place(alloc: Global, psilt: &mut Psilt, out: &mut u32) -> u32
    ensures answer { OnWork psilt.old psilt.new result
        (λ v w. (result ≡ 0) × (out.new ≡ v.place) × (w ≡ v)) }
    ensures out { result ≢ 0 → out.new ≡ out.old }
{
    tell(on_work!(psilt, alloc, work, Ok(work.place)), out)
}

/// Writes the number of the rule that the text or the term that was rejected last violates; 0 after
/// a syntax error.
#[unsafe(no_mangle)]
pub extern "C" fn psilt_rule(alloc: Global, psilt: &mut Psilt, out: &mut u32) -> u32
    ensures answer { OnWork psilt.old psilt.new result
        (λ v w. (result ≡ 0) × (out.new ≡ v.rule) × (w ≡ v)) }
    ensures out { result ≢ 0 → out.new ≡ out.old }
{
    tell(on_work!(psilt, alloc, work, Ok(work.rule)), out)
}

/// Prints a term to the handle's text, and writes the number of bytes.
#[unsafe(no_mangle)]
pub extern "C" fn psilt_print(alloc: Global, psilt: &mut Psilt, term: u32, out: &mut usize) -> u32
    ensures answer { OnWork psilt.old psilt.new result
        (λ v w. Spells (store_of v.bank) (term_of term) printed_in v.text.items w.text.items
        (told result out.new) × IsSameButText v w) }
    ensures out { result ≢ 0 → out.new ≡ out.old }
{
    tell(
        on_work!(psilt, alloc, work, work.print(alloc, Term(term))),
        out,
    )
}

/// Prints a term to the handle's text if that has at most `most` bytes, and writes their number.
#[unsafe(no_mangle)]
pub extern "C" fn psilt_print_within(
    alloc: Global,
    psilt: &mut Psilt,
    term: u32,
    most: usize,
    out: &mut usize,
) -> u32
    ensures answer { OnWork psilt.old psilt.new result
        (λ v w. SpellsWithin (store_of v.bank) (term_of term) most v.text.items w.text.items
        (told result out.new) × IsSameButText v w) }
    ensures out { result ≢ 0 → out.new ≡ out.old }
{
    tell(
        on_work!(
            psilt,
            alloc,
            work,
            work.print_within(alloc, Term(term), most)
        ),
        out,
    )
}

/// Stores the name of an application as the handle's text, and writes the number of bytes.
#[unsafe(no_mangle)]
pub extern "C" fn psilt_name(alloc: Global, psilt: &mut Psilt, term: u32, out: &mut usize) -> u32
    ensures answer { OnWork psilt.old psilt.new result
        (λ v w. Spells (store_of v.bank) (term_of term) name_in v.text.items w.text.items
        (told result out.new) × IsSameButText v w) }
    ensures out { result ≢ 0 → out.new ≡ out.old }
{
    tell(
        on_work!(psilt, alloc, work, work.name(alloc, Term(term))),
        out,
    )
}

/// Copies the handle's text to the beginning of a buffer.
#[unsafe(no_mangle)]
pub extern "C" fn psilt_text(alloc: Global, psilt: &mut Psilt, buffer: &mut [u8]) -> u32
    ensures answer { OnWork psilt.old psilt.new result
        (λ v w. Copies v.text.items buffer.old buffer.new (told result tt) × (w ≡ v)) }
{
    tell_done(on_work!(psilt, alloc, work, work.copy(buffer)))
}
