//! References of terms, numbered in the order in which they were added.

ghost use Rattle.std.specs.Prelude.{◌≡◌, ◌<◌, ◌≤◌, ◌≢◌, ◌^◌, ℕ, IfOk, IfSome, OnOk, [], length};
ghost use Rattle.std.specs.Prelude.{get_or, nat_eq, not, position};
ghost use Rattle.std.specs.List.{list_any};
ghost use Rattle.indexmap.specs.IndexSet.{insert_key};
ghost use Rattle.rx_table.specs.Inner.Pages.{entry_at, entry_in};

use std::alloc::{AllocError, Global};
use std::marker::Model;

/// The number of entries of a page.
const PAGE: usize = 1_024;

/// The largest number of references: their indices are integers of terms.
const MOST: usize = 2_147_483_648;

/// Different references of terms, numbered from 0 in the order in which they were added. The number
/// of a reference is read in a page, which exists if a reference of the page was added.
#[derive(Drop)]
pub(crate) struct TermIndex {
    /// The references.
    terms: Vec<u32>,
    /// For each 1,024 references their entries, if one of them was added. The entry of a reference
    /// that was added is its number. The entries of others mean nothing.
    pages: Vec<Vec<u32>>,
}

impl Model for TermIndex {
    ghost use Rattle.rx_table.specs.Inner.Pages.{ArePaged, Keys};

    ghost Value = { Keys };

    ghost view = { λ s. record { keys = s.terms.items } };

    ghost invariant = { λ s. ArePaged s.terms.items s.pages.items };
}

impl TermIndex {
    /// Returns no references.
    pub(crate) fn new(alloc: Global) -> TermIndex
        ensures { result.keys ≡ [] }
    {
        TermIndex {
            terms: Vec::new(alloc),
            pages: Vec::new(alloc),
        }
    }

    /// Returns how many references there are.
    pub(crate) fn len(&self) -> usize
        ensures { result ≡ length self.now.keys }
    {
        self.terms.len()
    }

    /// Returns the references.
    pub(crate) fn as_slice(&self) -> &[u32]
        ensures { result.now ≡ self.now.keys }
    {
        &self.terms
    }

    /// Returns the number of a reference, if it was added. Takes constant time.
    pub(crate) fn index_of(&self, t: u32) -> Option<usize>
        ensures index { result ≡ position (nat_eq t) self.now.keys }
        ensures within { IfSome result (λ i. i < length self.now.keys) }
    {
        let index = entry(&self.pages, t) as usize;
        if index < self.terms.len() && self.terms[index] == t {
            Some(index)
        } else {
            None
        }
    }

    /// Returns the number of a reference, and whether it is new: then it is added. Reports out of
    /// memory also if there are 2,147,483,648 others.
    pub(crate) fn add(&mut self, t: u32) -> Result<(usize, bool), AllocError>
        ensures keys { OnOk result (self.new.keys ≡ insert_key nat_eq self.old.keys t) }
        ensures few { OnOk result (length self.new.keys ≤ 2 ^ 31) }
        ensures within { IfOk result (λ r. r.0 < length self.new.keys) }
        ensures found { IfOk result (λ r. get_or self.new.keys r.0 0 ≡ t) }
        ensures added { IfOk result (λ r. r.1 ≡ not (list_any (nat_eq t) self.old.keys)) }
    {
        if let Some(index) = self.index_of(t) {
            return Ok((index, false));
        }
        let index = self.terms.len();
        if index >= MOST {
            return Err(AllocError);
        }
        set_entry(&mut self.pages, t, index as u32)?;
        self.terms.push(t)?;
        Ok((index, true))
    }
}

/// Returns the entry of a reference, or 0 if it has none.
fn entry(pages: &[Vec<u32>], t: u32) -> u32
    ensures { result ≡ entry_at pages.now t }
{
    let t = t as usize;
    match pages.get(t / PAGE) {
        Some(page) => match page.get(t % PAGE) {
            Some(entry) => *entry,
            None => 0,
        },
        None => 0,
    }
}

/// Adds pages without entries until there is a page with this index.
fn reach(pages: &mut Vec<Vec<u32>>, index: usize) -> Result<(), AllocError>
    ensures same { (t : ℕ) → entry_at pages.new.items t ≡ entry_at pages.old.items t }
    ensures reached { OnOk result (index < length pages.new.items) }
{
    while pages.len() <= index {
        let page = Vec::new(*pages.allocator());
        pages.push(page)?;
    }
    Ok(())
}

/// Sets an entry of a page, which has no entries or all of them.
fn set_in(page: &mut Vec<u32>, at: usize, entry: u32) -> Result<(), AllocError>
    requires { at < 1024 }
    ensures others { (k : ℕ) → k ≢ at → entry_in page.new.items k ≡ entry_in page.old.items k }
    ensures set { OnOk result (entry_in page.new.items at ≡ entry) }
{
    if page.len() <= at {
        page.resize(PAGE, 0)?;
    }
    page[at] = entry;
    Ok(())
}

/// Sets the entry of a reference.
fn set_entry(pages: &mut Vec<Vec<u32>>, t: u32, entry: u32) -> Result<(), AllocError>
    ensures others { (u : ℕ) → u ≢ t → entry_at pages.new.items u ≡ entry_at pages.old.items u }
    ensures set { OnOk result (entry_at pages.new.items t ≡ entry) }
{
    let t = t as usize;
    reach(pages, t / PAGE)?;
    set_in(&mut pages[t / PAGE], t % PAGE, entry)
}
