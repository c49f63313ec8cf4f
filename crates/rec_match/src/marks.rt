//! A set of marked symbols that is cheap to clear.

ghost use Rattle.std.specs.Prelude.{◌≡◌, IfOk, length};
ghost use Rattle.rec_match.specs.Inner.Marking.{AreMarked, IsRank};

use std::alloc::{AllocError, Global};

/// Whether each symbol is marked, the list of marked symbols, and the rank of each of them in it.
#[derive(Drop)]
pub struct Marks {
    pub marked: Vec<bool>,
    pub symbols: Vec<u32>,
    pub ranks: Vec<u32>,
}

impl Marks {
    /// Returns marks for `count` symbols, none of which is marked.
    pub(crate) fn new(alloc: Global, count: u32) -> Result<Marks, AllocError>
        ensures marked { IfOk result AreMarked }
        ensures counted { IfOk result (λ m. length m.marked.items ≡ count) }
    {
        let marked = vec![in alloc; false; count as usize]?;
        let ranks = vec![in alloc; 0; count as usize]?;
        Ok(Marks {
            marked,
            symbols: Vec::new(alloc),
            ranks,
        })
    }

    /// Returns the rank of a symbol among the marked ones. The ranks of other symbols are left over
    /// from earlier marks.
    pub(crate) fn rank(&self, symbol: u32) -> Option<u32>
        requires { AreMarked self.now }
        ensures { IsRank self.now.symbols.items symbol result }
    {
        if symbol as usize >= self.ranks.len() {
            return None;
        }
        let rank = self.ranks[symbol as usize];
        if rank as usize >= self.symbols.len() || self.symbols[rank as usize] != symbol {
            return None;
        }
        Some(rank)
    }

    /// Marks a symbol, if the number is that of one.
    pub(crate) fn mark(&mut self, symbol: u32) -> Result<(), AllocError>
        requires { AreMarked self.old }
        ensures marked { IfOk result (λ u. AreMarked self.new) }
        ensures counted { IfOk result
            (λ u. length self.new.marked.items ≡ length self.old.marked.items) }
    {
        if symbol as usize >= self.marked.len() || self.rank(symbol).is_some() {
            return Ok(());
        }
        let Ok(rank) = u32::try_from(self.symbols.len()) else {
            return Err(AllocError);
        };
        self.symbols.push(symbol)?;
        self.ranks[symbol as usize] = rank;
        self.marked[symbol as usize] = true;
        Ok(())
    }

    /// Removes all marks.
    pub(crate) fn clear(&mut self)
        requires { AreMarked self.old }
        ensures marked { AreMarked self.new }
        ensures counted { length self.new.marked.items ≡ length self.old.marked.items }
    {
        while let Some(symbol) = self.symbols.pop() {
            self.marked[symbol as usize] = false;
        }
    }
}
