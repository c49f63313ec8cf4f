//! Distribution of rows to the symbols that they test for.

ghost use Rattle.std.specs.Prelude.{◌≡◌, ◌≢◌, ◌+◌, ◌<◌, ◌^◌, [], All, IfOk, IfSome, None, length};
ghost use Rattle.std.specs.Prelude.{map};
ghost use Rattle.rec_match.specs.Inner.Marking.{AreMarked};
ghost use Rattle.rec_match.specs.Parts.{coded_of, opened_codes, IsCode};
ghost use Rattle.rec_match.specs.Inner.Shares.{symbols_of, AreShares, AddsRow, DealsRow};

use crate::marks::Marks;
use crate::parts::{Code, CodeRow, Parts};
use rec_sorts::Meaning;
use std::alloc::{AllocError, Global};

/// A symbol, and the rows that remain if the register holds an application of it.
#[derive(Drop)]
pub(crate) struct Share {
    pub(crate) symbol: u32,
    pub(crate) rows: Vec<CodeRow>,
}

/// A register that holds an application of a symbol, and the first of the registers for its
/// arguments.
#[derive(Clone, Copy)]
pub(crate) struct Opening {
    pub(crate) register: u32,
    pub(crate) base: u32,
}

/// Returns an empty share for each symbol.
fn empty_shares(alloc: Global, symbols: &[u32]) -> Result<Vec<Share>, AllocError>
    ensures { IfOk result
        (λ v. (ps : _) (r base : _) → AreShares ps r base symbols.now [] v.items) }
{
    let mut shares = Vec::new(alloc);
    for symbol in symbols {
        shares.push(Share {
            symbol: *symbol,
            rows: Vec::new(alloc),
        })?;
    }
    Ok(shares)
}

impl Parts {
    /// Returns the first symbol that these tests expect in a register. They fail for an application
    /// of any other symbol.
    pub(crate) fn first_symbol(&self, codes: &[Code], register: u32) -> Option<u32>
        requires { All (IsCode self.now) codes.now }
        ensures { IfSome result (λ k. (symbol base : _) → k ≢ symbol
            → opened_codes self.now register symbol base codes.now ≡ None) }
    {
        for code in codes {
            if code.register == register {
                if let Meaning::Symbol(number) = self.parts[code.part as usize].meaning {
                    return Some(number);
                }
            }
        }
        None
    }

    /// Appends to a share what remains of a row for the share's symbol.
    fn push_opened(
        &self,
        alloc: Global,
        row: &CodeRow,
        opening: Opening,
        share: &mut Share,
    ) -> Result<(), AllocError>
        requires codes { All (IsCode self.now) row.now.codes.items }
        requires room { opening.base + length self.now.arguments.items < 2 ^ 32 }
        ensures { IfOk result (λ u. AddsRow self.now opening.register opening.base
            (coded_of row.now) share.old share.new) }
    {
        let mut codes = Vec::new(alloc);
        if self.open(
            &row.codes,
            opening.register,
            share.symbol,
            opening.base,
            &mut codes,
        )? {
            share.rows.push(CodeRow {
                rule: row.rule,
                codes,
            })?;
        }
        Ok(())
    }

    /// Adds a row without a symbol test of this register to each share.
    fn push_to_each(
        &self,
        alloc: Global,
        row: &CodeRow,
        opening: Opening,
        shares: &mut [Share],
    ) -> Result<(), AllocError>
        requires codes { All (IsCode self.now) row.now.codes.items }
        requires room { opening.base + length self.now.arguments.items < 2 ^ 32 }
        ensures { IfOk result (λ u. DealsRow self.now opening.register opening.base
            (coded_of row.now) shares.old shares.new) }
    {
        for i in 0..shares.len() {
            self.push_opened(alloc, row, opening, &mut shares[i])?;
        }
        Ok(())
    }

    /// Adds a row to the share of the symbol that it tests for, if there is one, or to each share
    /// if it tests for none.
    fn deal_row(
        &self,
        alloc: Global,
        row: &CodeRow,
        opening: Opening,
        marks: &Marks,
        shares: &mut [Share],
    ) -> Result<(), AllocError>
        requires codes { All (IsCode self.now) row.now.codes.items }
        requires room { opening.base + length self.now.arguments.items < 2 ^ 32 }
        requires marked { AreMarked marks.now }
        requires shares { symbols_of shares.old ≡ marks.now.symbols.items }
        ensures { IfOk result (λ u. DealsRow self.now opening.register opening.base
            (coded_of row.now) shares.old shares.new) }
    {
        let Some(symbol) = self.first_symbol(&row.codes, opening.register) else {
            return self.push_to_each(alloc, row, opening, shares);
        };
        let Some(rank) = marks.rank(symbol) else {
            return Ok(());
        };
        self.push_opened(alloc, row, opening, &mut shares[rank as usize])?;
        Ok(())
    }

    /// Returns, for each marked symbol, the rows that remain if the register holds an application
    /// of it.
    pub(crate) fn deal(
        &self,
        alloc: Global,
        rows: &[CodeRow],
        opening: Opening,
        marks: &Marks,
    ) -> Result<Vec<Share>, AllocError>
        requires codes { All (λ row. All (IsCode self.now) row.codes.items) rows.now }
        requires room { opening.base + length self.now.arguments.items < 2 ^ 32 }
        requires marked { AreMarked marks.now }
        ensures { IfOk result (λ v. AreShares self.now opening.register opening.base
            marks.now.symbols.items (map coded_of rows.now) v.items) }
    {
        let mut shares = empty_shares(alloc, &marks.symbols)?;
        for row in rows {
            self.deal_row(alloc, row, opening, marks, &mut shares)?;
        }
        Ok(shares)
    }
}
