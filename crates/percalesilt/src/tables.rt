//! Tables of terms for C: printing and reading.

ghost use Rattle.std.specs.Prelude.{◌≡◌, ◌≢◌, Err};
ghost use Rattle.rx_term.specs.Steps.{Grows};
ghost use Rattle.psilt_core.specs.Banks.{store_of};
ghost use Rattle.psilt_core.specs.Codes.{told};
ghost use Rattle.psilt_core.specs.declared.fault.Fault.TheVariants.{Rule};
ghost use Rattle.psilt_core.specs.Answers.{Spells, term_of};
ghost use Rattle.psilt_core.specs.Handles.{OnWork};
ghost use Rattle.psilt_core.specs.Tables.{ReadsTable, table_in};
ghost use Rattle.psilt_core.specs.Works.{IsSameButRead, IsSameButText, KeepsRefusal};

use crate::answer::{give, on_work, tell};
use psilt_core::Psilt;
use rx_term::Term;
use std::alloc::Global;

/// Prints the table of a term to the handle's text, and writes the number of bytes.
#[unsafe(no_mangle)]
pub extern "C" fn psilt_print_table(
    alloc: Global,
    psilt: &mut Psilt,
    term: u32,
    out: &mut usize,
) -> u32
    ensures answer { OnWork psilt.old psilt.new result
        (λ v w. Spells (store_of v.bank) (term_of term) table_in v.text.items w.text.items
        (told result out.new) × IsSameButText v w) }
    ensures out { result ≢ 0 → out.new ≡ out.old }
{
    tell(
        on_work!(psilt, alloc, work, work.print_table(alloc, Term(term))),
        out,
    )
}

/// Makes the term of the table that a text spells. After a syntax error, `psilt_place` has its
/// offset; after a violated rule of tables, `psilt_rule` has its number.
#[unsafe(no_mangle)]
pub extern "C" fn psilt_read_table(
    alloc: Global,
    psilt: &mut Psilt,
    text: &[u8],
    out: &mut u32,
) -> u32
    ensures answer { OnWork psilt.old psilt.new result
        (λ v w. ReadsTable v.bank.most_names (store_of v.bank) (store_of w.bank) text.now w.place
        w.rule (told result (term_of out.new))
        × Grows (store_of v.bank) (store_of w.bank)
        × KeepsRefusal v w (told result (term_of out.new))
        × (told result (term_of out.new) ≡ Err Rule → w.place ≡ v.place) × IsSameButRead v w) }
    ensures out { result ≢ 0 → out.new ≡ out.old }
{
    give(
        on_work!(psilt, alloc, work, work.read_table(alloc, text)),
        out,
    )
}
