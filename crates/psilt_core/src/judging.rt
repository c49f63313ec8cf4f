//! Reads and checks the text of a specification.

ghost use Rattle.std.specs.Prelude.{◌≤◌, IfOk, IfErr, length};
ghost use Rattle.rec_syntax.specs.Grammar.{SpecText};
ghost use Rattle.rec_sorts.specs.SpecRules.{SpecVerdict, Good};
ghost use Rattle.psilt_core.specs.Evaluating.{IsRefusal};

use rec_sorts::{Checked, SortFault, check};
use rec_syntax::{Syntax, SyntaxFault, read_spec};
use std::alloc::Global;

/// Why a text is rejected as a specification.
#[derive(Clone, Copy, Debug, Drop)]
pub enum Refusal {
    /// Out of memory, so the verdict is not known.
    Memory,
    /// The text has more than 16,777,216 bytes.
    Long,
    /// The text leaves its grammar at this offset.
    Grammar { at: u32 },
    /// The text violates this rule first, at this offset; rules have the numbers 1 to 11.
    Rule { number: u8, at: u32 },
}

/// Returns the well-formed specification that a text spells.
pub(crate) fn judge(alloc: Global, text: &[u8]) -> Result<Checked, Refusal>
    ensures good { IfOk result (λ c. SpecVerdict text.now (Good c.spec)) }
    ensures refused { IfErr result (IsRefusal text.now) }
{
    match read_spec(alloc, text) {
        Ok(syntax) => judge_rules(alloc, syntax),
        Err(SyntaxFault::Long) => Err(Refusal::Long),
        Err(SyntaxFault::Grammar { at }) => Err(Refusal::Grammar { at }),
        Err(SyntaxFault::Memory) => Err(Refusal::Memory),
    }
}

/// Checks a specification that was read against the rules S1 to S11.
fn judge_rules(alloc: Global, syntax: Syntax) -> Result<Checked, Refusal>
    requires short { length syntax.source ≤ 16777216 }
    requires spelled { SpecText syntax.source syntax.spec }
    ensures good { IfOk result (λ c. SpecVerdict syntax.source (Good c.spec)) }
    ensures refused { IfErr result (IsRefusal syntax.source) }
{
    match check(alloc, syntax) {
        Ok(checked) => Ok(checked),
        Err(SortFault::Rule { number, at }) => Err(Refusal::Rule { number, at }),
        Err(SortFault::Memory) => Err(Refusal::Memory),
    }
}
