//! Switches: their register, the symbols that get children, the window of children, and the cost.

ghost use Rattle.std.specs.Prelude.{◌≡◌, ◌+◌, ◌<◌, ◌≤◌, All, IfOk, IfSome, length, get_or};
ghost use Rattle.rec_match.specs.Forests.{no_child, number_at};
ghost use Rattle.rec_match.specs.Inner.Marking.{AreMarked, HasMarks};
ghost use Rattle.rec_match.specs.Inner.Tasks.{Covers};
ghost use Rattle.rec_match.specs.Matching.{numbers_of};
ghost use Rattle.rec_match.specs.Parts.{IsCode};

use crate::forest::Child;
use crate::marks::Marks;
use crate::parts::{Code, CodeRow, Parts};
use rec_sorts::{Links, Meaning};
use std::alloc::{AllocError, Global};

impl Parts {
    /// Returns the register of the first symbol test.
    pub(crate) fn first_register(&self, codes: &[Code]) -> Option<u32>
        requires { All (IsCode self.now) codes.now }
        ensures { (n : _) → All (λ c. c.register < n) codes.now → IfSome result (λ r. r < n) }
    {
        for code in codes {
            if let Meaning::Symbol(_) = self.parts[code.part as usize].meaning {
                return Some(code.register);
            }
        }
        None
    }

    /// Marks the symbols that a row expects in a register and that are near the first one.
    fn mark_row(
        &self,
        links: &Links,
        codes: &[Code],
        register: u32,
        most: u64,
        marks: &mut Marks,
    ) -> Result<(), AllocError>
        requires codes { All (IsCode self.now) codes.now }
        requires marked { AreMarked marks.old }
        ensures { IfOk result (λ u. HasMarks marks.new (length marks.old.marked.items)) }
    {
        for code in codes {
            if code.register == register {
                if let Meaning::Symbol(number) = self.parts[code.part as usize].meaning {
                    if is_near(links, &marks.symbols, number, most) {
                        marks.mark(number)?;
                    }
                }
            }
        }
        Ok(())
    }

    /// Marks the symbols that the rows expect in a register, except those that are too far from the
    /// first one.
    pub(crate) fn mark_rows(
        &self,
        links: &Links,
        rows: &[CodeRow],
        register: u32,
        marks: &mut Marks,
    ) -> Result<(), AllocError>
        requires codes { All (λ row. All (IsCode self.now) row.codes.items) rows.now }
        requires marked { AreMarked marks.old }
        ensures { IfOk result (λ u. HasMarks marks.new (length marks.old.marked.items)) }
    {
        marks.clear();
        let most = (rows.len() as u64).saturating_mul(4).saturating_add(16);
        for row in rows {
            self.mark_row(links, &row.codes, register, most, marks)?;
        }
        Ok(())
    }

    /// Returns the cost of a switch: a row is moved to the share of the symbol that it tests for; a
    /// row without such a test is copied for each symbol.
    fn switch_cost(&self, rows: &[CodeRow], register: u32, symbols: u64) -> u64
        requires { All (λ row. All (IsCode self.now) row.codes.items) rows.now }
    {
        let mut cost = 0u64;
        for row in rows {
            let size = 1 + row.codes.len() as u64;
            let copies = match self.first_symbol(&row.codes, register) {
                Some(_) => 1,
                None => symbols.saturating_add(1),
            };
            cost = cost
                .saturating_add(size)
                .saturating_add(size.saturating_mul(copies));
        }
        cost
    }

    /// Subtracts the cost of a switch from the fuel. Returns false if it is more than half of the
    /// fuel.
    pub(crate) fn pay_switch(
        &self,
        rows: &[CodeRow],
        register: u32,
        symbols: u64,
        fuel: &mut u64,
    ) -> bool
        requires { All (λ row. All (IsCode self.now) row.codes.items) rows.now }
        ensures { fuel.new ≤ fuel.old }
    {
        let cost = self.switch_cost(rows, register, symbols);
        if cost > *fuel / 2 {
            return false;
        }
        *fuel -= cost;
        true
    }
}

/// Returns whether a symbol's number in the store is near that of the first of these symbols.
fn is_near(links: &Links, symbols: &[u32], symbol: u32, most: u64) -> bool {
    let Some(first) = symbols.first() else {
        return true;
    };
    let numbers = links.symbols();
    let (Some(a), Some(b)) = (numbers.get(*first as usize), numbers.get(symbol as usize)) else {
        return false;
    };
    a.0.abs_diff(b.0) < most
}

/// The number of pairs of tests that are compared at the cost of copying one row.
const COMPARED_FOR_ONE: u64 = 64;

/// Returns the cost of a leaf for the first row: the other rows are moved, and each variable is
/// compared with those before it.
pub(crate) fn look_cost(rows: &[CodeRow]) -> u64 {
    let codes = match rows.first() {
        Some(row) => row.codes.len() as u64,
        None => 0,
    };
    (rows.len() as u64).saturating_add(codes.saturating_mul(codes) / COMPARED_FOR_ONE)
}

/// A window of symbol numbers of a store: the smallest one, and the length.
#[derive(Clone, Copy)]
pub(crate) struct Window {
    pub(crate) low: u64,
    pub(crate) span: u32,
}

/// Returns the smallest and the largest store number of these symbols.
fn bounds(links: &Links, symbols: &[u32]) -> (u64, u64)
    requires { All (λ k. k < length links.now) symbols.now }
    ensures least { All (λ k. result.0 ≤ number_at (numbers_of links.now) k) symbols.now }
    ensures greatest { All (λ k. number_at (numbers_of links.now) k ≤ result.1) symbols.now }
{
    let mut low = u64::MAX;
    let mut high = 0u64;
    for symbol in symbols {
        let number = links.symbol_of(*symbol).0;
        low = low.min(number);
        high = high.max(number);
    }
    (low, high)
}

/// Returns the number of numbers from `low` to `high`.
fn span(low: u64, high: u64) -> Option<u32>
    ensures { IfSome result (λ n. low ≤ high → high < low + n) }
{
    if high < low {
        return Some(0);
    }
    let numbers = high - low;
    if numbers >= u32::MAX as u64 {
        return None;
    }
    Some(numbers as u32 + 1)
}

/// Returns the window of these symbols' store numbers, or `None` if it would be too long.
pub(crate) fn window_of(links: &Links, symbols: &[u32]) -> Option<Window>
    requires { All (λ k. k < length links.now) symbols.now }
    ensures { IfSome result
        (λ w. Covers (numbers_of links.now) symbols.now w.low w.span) }
{
    let (low, high) = bounds(links, symbols);
    let span = span(low, high)?;
    Some(Window { low, span })
}

/// Returns a window without children.
pub(crate) fn no_children(alloc: Global, span: u32) -> Result<Vec<Child>, AllocError>
    ensures long { IfOk result (λ w. length w.items ≡ span) }
    ensures none { IfOk result (λ w. (q : _) → (get_or w.items q no_child).node ≡ 0) }
{
    let window = vec![in alloc; Child { node: 0, count: 0 }; span as usize]?;
    Ok(window)
}
