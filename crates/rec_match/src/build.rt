//! Construction of a matcher.

ghost use Rattle.std.specs.Prelude.{◌≡◌, ◌<◌, [], All, IfOk, length, get_or, None};
ghost use Rattle.rec_sorts.specs.Lookup.{symbols};
ghost use Rattle.rec_sorts.specs.Numbering.{variable_count, Pairwise, IsLetterRule};
ghost use Rattle.rec_sorts.specs.SpecRules.{fault};
ghost use Rattle.rec_match.specs.Matching.{IsMatcher};
ghost use Rattle.rec_match.specs.Ordered.{numbers_in, AreAllBelow};
ghost use Rattle.rec_match.specs.Placed.{ArePlaces};
ghost use Rattle.rec_match.specs.Inner.Built.{IsHead, AreHeads, IsLeftSide, AreSides};
ghost use Rattle.rec_match.specs.Inner.Starting.{ChainsRules};

use crate::chain::{Chains, chain};
use crate::matcher::{LeftSide, Matcher};
use crate::places::Places;
use crate::trees::trees;
use rec_sorts::{Checked, Letter, LetterRule, Links, Meaning};
use std::alloc::{AllocError, Global};

/// Appends the variables of these items that are not listed yet, in the order of their first
/// occurrence, and records their positions.
fn push_variables(
    letters: &[Letter],
    places: &mut Places,
    variables: &mut Vec<u32>,
) -> Result<(), AllocError>
    requires below { AreAllBelow (length places.old.of.items) letters.now }
    requires places { ArePlaces [] (length places.old.of.items) places.old }
    requires none { variables.old.items ≡ [] }
    ensures variables { IfOk result (λ u. variables.new.items ≡ numbers_in [] letters.now) }
    ensures places { IfOk result
        (λ u. ArePlaces variables.new.items (length places.old.of.items) places.new) }
    ensures within { IfOk result
        (λ u. All (λ v. v < length places.old.of.items) variables.new.items) }
{
    for letter in letters {
        let Meaning::Variable(v) = letter.meaning else {
            continue;
        };
        if let Some(_) = places.place(v) {
            continue;
        }
        let Ok(place) = u32::try_from(variables.len()) else {
            return Err(AllocError);
        };
        places.give(v, place);
        variables.push(v)?;
    }
    Ok(())
}

/// Returns the variables of these items in the order of their first occurrence. `places` has no
/// positions before and after the call.
fn variables_of(
    alloc: Global,
    letters: &[Letter],
    places: &mut Places,
) -> Result<Vec<u32>, AllocError>
    requires below { AreAllBelow (length places.old.of.items) letters.now }
    requires places { ArePlaces [] (length places.old.of.items) places.old }
    ensures variables { IfOk result (λ v. v.items ≡ numbers_in [] letters.now) }
    ensures places { IfOk result (λ v. ArePlaces [] (length places.old.of.items) places.new) }
{
    let mut variables = Vec::new(alloc);
    push_variables(letters, places, &mut variables)?;
    places.clear(&variables);
    Ok(variables)
}

/// Returns the symbol at the root of a rule's left-hand side.
fn head(checked: &Checked, rules: &[LetterRule], rule: usize) -> u32
    requires rule { rule < length rules.now }
    requires kept { fault checked.now.spec ≡ None }
    requires letters { Pairwise (IsLetterRule checked.now.spec) rules.now checked.now.spec.rules }
    ensures { (r : _) → IsHead checked.now.spec (get_or checked.now.spec.rules rule r) result }
{
    let left = &rules[rule].left;
    match left[left.len() - 1].meaning {
        Meaning::Symbol(k) => k,
        Meaning::Variable(_) => 0,
    }
}

/// Returns the symbols at the roots of all left-hand sides.
fn heads(alloc: Global, checked: &Checked) -> Result<Vec<u32>, AllocError>
    ensures { IfOk result (λ v. AreHeads checked.now.spec v.items) }
{
    let rules = checked.rules();
    let mut symbols = Vec::new(alloc);
    for rule in 0..rules.len() {
        symbols.push(head(checked, rules, rule))?;
    }
    Ok(symbols)
}

/// Returns the entry of a rule's left-hand side; `next` is the next rule of the same symbol.
fn side(
    checked: &Checked,
    rules: &[LetterRule],
    rule: usize,
    next: u32,
    places: &mut Places,
) -> Result<LeftSide, AllocError>
    requires rule { rule < length rules.now }
    requires kept { fault checked.now.spec ≡ None }
    requires letters { Pairwise (IsLetterRule checked.now.spec) rules.now checked.now.spec.rules }
    requires places { ArePlaces [] (variable_count checked.now.spec) places.old }
    ensures side { IfOk result (λ s. (r : _)
        → IsLeftSide checked.now.spec (get_or checked.now.spec.rules rule r) s) }
    ensures next { IfOk result (λ s. s.next ≡ next) }
    ensures places { IfOk result (λ s. ArePlaces [] (variable_count checked.now.spec) places.new) }
{
    let left = &rules[rule].left;
    let size = left.len() - 1;
    let count = left[size].count;
    let symbol = head(checked, rules, rule);
    let alloc = *places.of.allocator();
    let variables = variables_of(alloc, &left[..size], places)?;
    Ok(LeftSide {
        symbol,
        count,
        variables,
        next,
    })
}

/// Returns the rule chain of each symbol.
fn rule_chains(alloc: Global, checked: &Checked) -> Result<Chains, AllocError>
    ensures { IfOk result (ChainsRules checked.now.spec) }
{
    let symbols = heads(alloc, checked)?;
    let chains = chain(alloc, &symbols, checked.symbols())?;
    Ok(chains)
}

/// Returns the entries of all left-hand sides; `nexts` has the next rule of each.
fn sides(alloc: Global, checked: &Checked, nexts: &[u32]) -> Result<Vec<LeftSide>, AllocError>
    requires { length nexts.now ≡ length checked.now.spec.rules }
    ensures { IfOk result (λ v. (fs : _) → AreHeads checked.now.spec fs
        → AreSides checked.now.spec fs nexts.now v.items (length checked.now.spec.rules)) }
{
    let rules = checked.rules();
    let mut places = Places::new(alloc, checked.variables())?;
    let mut sides = Vec::new(alloc);
    for rule in 0..rules.len() {
        sides.push(side(checked, rules, rule, nexts[rule], &mut places)?)?;
    }
    Ok(sides)
}

impl Matcher {
    /// Builds the matcher of a specification for a store with this symbol map. The only error is
    /// out of memory. The work is bounded by a constant plus a multiple of the size of the
    /// left-hand sides.
    pub fn build(alloc: Global, checked: &Checked, links: &Links) -> Result<Matcher, AllocError>
        requires { length links.now ≡ length (symbols checked.now.spec) }
        ensures { IfOk result (IsMatcher checked.now.spec links.now) }
    {
        let _kept = checked.syntax();
        let chains = rule_chains(alloc, checked)?;
        let sides = sides(alloc, checked, &chains.nexts)?;
        let forest = trees(alloc, checked, links, &chains)?;
        let own = links.copy(alloc)?;
        Ok(Matcher {
            sides,
            heads: chains.heads,
            links: own,
            forest,
        })
    }
}
