//! Specifications that violate no rule.

ghost use Rattle.std.specs.Prelude.{◌≡◌, ◌<◌, None, length, map, All, IfOk, IfErr, OnOk};
ghost use Rattle.rec_syntax.specs.Parts.{IsDeclaration, declaration_of};
ghost use Rattle.rec_sorts.specs.Lookup.{symbols, names};
ghost use Rattle.rec_sorts.specs.SpecRules.{fault};
ghost use Rattle.rec_sorts.specs.SortFaults.{IsFault, first_place};
ghost use Rattle.rec_sorts.specs.Numbering.{Pairwise, IsLetterRule, AreLetters, bytes_at, name_of};
ghost use Rattle.rec_sorts.specs.Numbering.{arity_of, variable_count};
ghost use Rattle.rec_sorts.specs.Agreeing.{IsReadScope};
ghost use Rattle.rec_sorts.specs.Inner.CheckedView.{IsExamined};
ghost use Rattle.rec_sorts.specs.declared.letters.Meaning.TheVariants.{Symbol};

use crate::fault::SortFault;
use crate::letters::{Letter, LetterRule};
use crate::places::number;
use crate::symbols::{ReadScope, read_scope};
use rec_syntax::{Declaration, Syntax};
use std::alloc::{AllocError, Global};
use std::marker::Model;

/// A specification that violates none of the rules S1 to S11, with its names numbered. Contracts
/// see the text and the syntax tree.
#[derive(Drop)]
pub struct Checked {
    syntax: Syntax,
    constructors: u32,
    symbols: u32,
    variables: u32,
    /// The number of arguments of each symbol.
    arities: Vec<u32>,
    rules: Vec<LetterRule>,
    terms: Vec<Vec<Letter>>,
}

impl Model for Checked {
    ghost use Rattle.rec_syntax.specs.Syntax.{Sourced};
    ghost use Rattle.rec_syntax.specs.Inner.TermCode.{sourced_code};

    ghost Value = { Sourced };

    ghost coded = { sourced_code };

    ghost use Rattle.rec_sorts.specs.Inner.CheckedView.{sourced_of, IsChecked};

    ghost view = { sourced_of };

    ghost invariant = { IsChecked };
}

impl Checked {
    /// Returns the specification as it was read. It violates no rule.
    pub fn syntax(&self) -> &Syntax
        ensures same { result.now ≡ self.now }
        ensures kept { fault self.now.spec ≡ None }
    {
        &self.syntax
    }

    /// Returns the number of symbols.
    pub fn symbols(&self) -> u32
        ensures { result ≡ length (symbols self.now.spec) }
    {
        self.symbols
    }

    /// Returns the number of constructors. They have the first symbol numbers.
    pub fn constructors(&self) -> u32
        ensures { result ≡ length self.now.spec.constructors }
    {
        self.constructors
    }

    /// Returns the number of variables.
    pub fn variables(&self) -> u32
        ensures { result ≡ variable_count self.now.spec }
    {
        self.variables
    }

    /// Returns the name of a symbol.
    pub fn symbol_name(&self, symbol: u32) -> &[u8]
        requires { symbol < length (symbols self.now.spec) }
        ensures { result.now ≡ name_of self.now.spec (Symbol symbol) }
    {
        let syntax = &self.syntax;
        let constructors = syntax.constructors();
        let number = symbol as usize;
        if number < constructors.len() {
            name_in(syntax.source(), constructors, number)
        } else {
            name_in(
                syntax.source(),
                syntax.operators(),
                number - constructors.len(),
            )
        }
    }

    /// Returns the declared number of arguments of a symbol.
    pub fn arity(&self, symbol: u32) -> u32
        requires { symbol < length (symbols self.now.spec) }
        ensures { result ≡ arity_of self.now.spec symbol }
    {
        self.arities[symbol as usize]
    }

    /// Returns the rules in postfix form, in the order of the text.
    pub fn rules(&self) -> &[LetterRule]
        ensures kept { fault self.now.spec ≡ None }
        ensures letters { Pairwise (IsLetterRule self.now.spec) result.now self.now.spec.rules }
    {
        &self.rules
    }

    /// Returns the EVAL terms in postfix form, in the order of the text.
    pub fn terms(&self) -> &[Vec<Letter>]
        ensures kept { fault self.now.spec ≡ None }
        ensures letters { Pairwise
            (λ v t. AreLetters self.now.spec v.items t) result.now self.now.spec.terms }
    {
        &self.terms
    }
}

/// Returns the name of the declaration with this number.
fn name_in<'a>(source: &'a [u8], declarations: &[Declaration], number: usize) -> &'a [u8]
    requires within { All (IsDeclaration source.now) declarations.now }
    requires number { number < length declarations.now }
    ensures { result.now ≡ bytes_at
        (names (map (declaration_of source.now) declarations.now)) number }
{
    let name = declarations[number].name;
    &source[name.from..name.to]
}

/// The result of an examination: the least offset of a violation of each rule, in the order of the
/// rules, and the rules and terms in postfix form.
#[derive(Drop)]
struct Examined {
    places: [Option<u32>; 11],
    constructors: u32,
    symbols: u32,
    variables: u32,
    arities: Vec<u32>,
    rules: Vec<LetterRule>,
    terms: Vec<Vec<Letter>>,
}

/// Returns the length of each vector.
fn lengths(alloc: Global, vectors: &[Vec<Option<u32>>]) -> Result<Vec<u32>, AllocError>
    ensures { IfOk result (λ v. v.items ≡ map (λ sorts. length sorts.items) vectors.now) }
{
    let mut lengths = Vec::new(alloc);
    for vector in vectors {
        lengths.push(number(vector.len())?)?;
    }
    Ok(lengths)
}

/// Examines a specification with these declarations against all rules.
fn examine_declared(
    alloc: Global,
    syntax: &Syntax,
    declared: &ReadScope,
) -> Result<Examined, AllocError>
    requires { IsReadScope syntax.now.spec syntax.now.source declared.now }
    ensures { IfOk result (IsExamined syntax.now.spec) }
{
    let scope = &declared.scope;
    let variables = number(scope.sorts.len().saturating_sub(scope.symbols as usize))?;
    let arities = lengths(alloc, &scope.arguments)?;
    let sections = scope.sections(alloc, syntax)?;
    let places = &sections.places;
    Ok(Examined {
        places: [
            declared.repeated_sort,
            declared.repeated_symbol,
            declared.taken_variable,
            declared.unknown_sort,
            places.unknown,
            places.ill_filled,
            places.ill_sorted,
            places.ill_headed,
            places.unlike,
            places.unbound,
            places.free,
        ],
        constructors: scope.constructors,
        symbols: scope.symbols,
        variables,
        arities,
        rules: sections.rules,
        terms: sections.terms,
    })
}

/// Examines a specification against all rules, and numbers its names.
fn examine(alloc: Global, syntax: &Syntax) -> Result<Examined, AllocError>
    ensures { IfOk result (IsExamined syntax.now.spec) }
{
    let declared = read_scope(alloc, syntax)?;
    examine_declared(alloc, syntax, &declared)
}

/// Returns the lowest-numbered violated rule as an error. `places` has an offset for each rule that
/// is violated.
fn first_broken(places: &[Option<u32>; 11]) -> Result<(), SortFault>
    ensures kept { OnOk result (first_place 1 places.now ≡ None) }
    ensures broken { IfErr result (IsFault (first_place 1 places.now)) }
{
    for (i, place) in places.iter().enumerate() {
        if let Some(at) = place {
            let number = i as u8 + 1;
            return Err(SortFault::Rule { number, at: *at });
        }
    }
    Ok(())
}

/// Checks a specification against the rules S1 to S11. Returns `Rule` with the number of the
/// lowest-numbered violated rule and the least offset of a violation, or `Memory` if an allocation
/// failed. Takes expected linear time in the length of the text.
pub fn check(alloc: Global, syntax: Syntax) -> Result<Checked, SortFault>
    ensures ok { IfOk result (λ c. (c ≡ syntax) × (fault c.spec ≡ None)) }
    ensures broken { IfErr result (IsFault (fault syntax.spec)) }
{
    let examined = examine(alloc, &syntax).map_err(|_| SortFault::Memory)?;
    first_broken(&examined.places)?;
    Ok(Checked {
        syntax,
        constructors: examined.constructors,
        symbols: examined.symbols,
        variables: examined.variables,
        arities: examined.arities,
        rules: examined.rules,
        terms: examined.terms,
    })
}
