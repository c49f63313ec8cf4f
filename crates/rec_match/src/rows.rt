//! The rows from which a symbol's tree grows.

ghost use Rattle.std.specs.Prelude.{◌≡◌, ◌<◌, IfOk, length, map};
ghost use Rattle.rec_sorts.specs.Lookup.{symbols};
ghost use Rattle.rec_sorts.specs.Numbering.{name_of, arity_of};
ghost use Rattle.rec_sorts.specs.declared.letters.Meaning.TheVariants.{Symbol};
ghost use Rattle.rec_match.specs.Parts.{arguments_at, coded_of, numbered_from, IsWhole};
ghost use Rattle.rec_match.specs.Pushed.{AreLeftParts};
ghost use Rattle.rec_match.specs.Inner.Running.{root_rows};
ghost use Rattle.rec_match.specs.Inner.Starting.{ChainsRules};
ghost use Rattle.rec_match.specs.Inner.Tasks.{AreLeft};

use crate::chain::Chains;
use crate::parts::{Code, CodeRow, Parts, push_from};
use crate::push::LeftParts;
use rec_sorts::Checked;
use std::alloc::{AllocError, Global};

impl Parts {
    /// Returns a test for each argument of a part, on the registers from 0 on.
    fn codes_of(&self, alloc: Global, part: u32) -> Result<Vec<Code>, AllocError>
        requires there { part < length self.now.parts.items }
        requires whole { IsWhole self.now }
        ensures { IfOk result (λ v. v.items ≡ numbered_from 0 (arguments_at self.now part)) }
    {
        let part = self.parts[part as usize];
        let arguments = &self.arguments[part.from as usize..part.to as usize];
        let mut codes = Vec::new(alloc);
        push_from(arguments, 0, &mut codes)?;
        Ok(codes)
    }
}

impl LeftParts {
    /// Returns the rows of a symbol's rules before any test.
    pub(crate) fn rows(
        &self,
        alloc: Global,
        checked: &Checked,
        chains: &Chains,
        symbol: u32,
    ) -> Result<Vec<CodeRow>, AllocError>
        requires symbol { symbol < length (symbols checked.now.spec) }
        requires parts { AreLeftParts checked.now.spec self.now.parts self.now.numbers.items
            (length checked.now.spec.rules) }
        requires chains { ChainsRules checked.now.spec chains.now }
        ensures { IfOk result (λ v. AreLeft checked.now.spec self.now.parts
            (arity_of checked.now.spec symbol) (map coded_of v.items)
            (root_rows (name_of checked.now.spec (Symbol symbol)) (arity_of checked.now.spec symbol)
            0 checked.now.spec.rules)) }
    {
        let count = checked.rules().len();
        let mut rows = Vec::new(alloc);
        let mut rule = chains.heads[symbol as usize];
        while (rule as usize) < count {
            let codes = self.parts.codes_of(alloc, self.numbers[rule as usize])?;
            rows.push(CodeRow { rule, codes })?;
            rule = chains.nexts[rule as usize];
        }
        Ok(rows)
    }
}
