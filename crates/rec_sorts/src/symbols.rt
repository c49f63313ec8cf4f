//! The symbols and variables that a specification declares.

ghost use Rattle.std.specs.Prelude.{◌≡◌, ◌++◌, ◌≤◌, All, IfOk, OnOk, drop, length, take};
ghost use Rattle.rec_syntax.specs.Parts.{Within, words_of};
ghost use Rattle.rec_sorts.specs.Lookup.{symbols, names, variable_words};
ghost use Rattle.rec_sorts.specs.SpecRules.{repeated_sorts, repeated_symbols, taken_variables};
ghost use Rattle.rec_sorts.specs.Least.{least_place};
ghost use Rattle.rec_sorts.specs.Names.{given_to, first_at, numbers_after, least_repeated};
ghost use Rattle.rec_sorts.specs.Agreeing.{IsDeclared, IsReadScope};

use crate::declarations::{Declared, Sorts, number_words};
use crate::names::Names;
use crate::places::number;
use crate::scope::Scope;
use rec_syntax::{Span, Syntax};
use std::alloc::{AllocError, Global};

/// The sorts of a specification, and the least offset of one that is declared twice.
#[derive(Drop)]
struct ReadSorts<'a> {
    sorts: Sorts<'a>,
    repeated: Option<u32>,
}

/// The least offset of a symbol that is declared twice, and that of a variable whose name has a
/// number already.
#[derive(Clone, Copy)]
struct Repeated {
    symbol: Option<u32>,
    variable: Option<u32>,
}

/// The numbers of symbols and variables, the number of symbols, and the offsets of names that are
/// declared twice.
#[derive(Drop)]
struct NumberedWords<'a> {
    words: Names<'a>,
    symbols: u32,
    repeated: Repeated,
}

/// The declarations of a specification, and the least offset of a violation of each of the rules S1
/// to S4.
#[derive(Drop)]
pub struct ReadScope<'a> {
    pub scope: Scope<'a>,
    pub repeated_sort: Option<u32>,
    pub repeated_symbol: Option<u32>,
    pub taken_variable: Option<u32>,
    pub unknown_sort: Option<u32>,
}

/// Reads the sorts of a specification.
fn read_sorts(alloc: Global, syntax: &Syntax) -> Result<ReadSorts<'_>, AllocError>
    ensures source { IfOk result (λ r. r.sorts.source.now ≡ syntax.now.source) }
    ensures names { IfOk result (λ r. given_to r.sorts.names ≡ first_at syntax.now.spec.sorts) }
    ensures repeated { IfOk result
        (λ r. r.repeated ≡ least_place (repeated_sorts syntax.now.spec)) }
{
    let source = syntax.source();
    let mut names = Names::with_capacity(alloc, syntax.sorts().len())?;
    let repeated = number_words(&mut names, source, syntax.sorts(), 0)?;
    Ok(ReadSorts {
        sorts: Sorts { source, names },
        repeated,
    })
}

/// Reads the declarations of a specification with these sorts. Also returns the number of symbols.
fn read_declared(
    alloc: Global,
    syntax: &Syntax,
    sorts: &Sorts,
) -> Result<(Declared, usize), AllocError>
    requires source { sorts.now.source.now ≡ syntax.now.source }
    requires names { given_to sorts.now.names ≡ first_at syntax.now.spec.sorts }
    ensures { IfOk result (λ r. IsDeclared syntax.now.spec syntax.now.source r.0 r.1) }
{
    let mut declared = Declared::new(alloc);
    declared.symbols(alloc, sorts, syntax.constructors())?;
    declared.symbols(alloc, sorts, syntax.operators())?;
    let symbols = declared.words.len();
    declared.groups(sorts, syntax.groups())?;
    Ok((declared, symbols))
}

/// Numbers the names. The first `count` ones are symbols.
fn number_parts<'a>(
    names: &mut Names<'a>,
    source: &'a [u8],
    words: &[Span],
    count: usize,
) -> Result<Repeated, AllocError>
    requires within { All (Within source.now) words.now }
    requires count { count ≤ length words.now }
    ensures numbers { OnOk result (given_to names.new ≡ numbers_after
        (numbers_after (given_to names.old) 0 (words_of source.now (take count words.now)))
        count (words_of source.now (drop count words.now))) }
    ensures symbol { IfOk result (λ r. r.symbol
        ≡ least_repeated (given_to names.old) 0 (words_of source.now (take count words.now))) }
    ensures variable { IfOk result (λ r. r.variable ≡ least_repeated
        (numbers_after (given_to names.old) 0 (words_of source.now (take count words.now)))
        count (words_of source.now (drop count words.now))) }
{
    let (symbols, variables) = words.split_at(count);
    let symbol = number_words(names, source, symbols, 0)?;
    let variable = number_words(names, source, variables, count)?;
    Ok(Repeated { symbol, variable })
}

/// Numbers the names that a specification declares. The first `count` ones are symbols.
fn number_declared<'a>(
    alloc: Global,
    syntax: &'a Syntax,
    declared: &Declared,
    count: usize,
) -> Result<NumberedWords<'a>, AllocError>
    requires { IsDeclared syntax.now.spec syntax.now.source declared.now count }
    ensures words { IfOk result (λ r. given_to r.words ≡ first_at
        (names (symbols syntax.now.spec) ++ variable_words syntax.now.spec.variables)) }
    ensures symbols { IfOk result (λ r. r.symbols ≡ count) }
    ensures repeated { IfOk result
        (λ r. r.repeated.symbol ≡ least_place (repeated_symbols syntax.now.spec)) }
    ensures taken { IfOk result
        (λ r. r.repeated.variable ≡ least_place (taken_variables syntax.now.spec)) }
{
    let symbols = number(count)?;
    let mut words = Names::with_capacity(alloc, declared.words.len())?;
    let repeated = number_parts(&mut words, syntax.source(), &declared.words, count)?;
    Ok(NumberedWords {
        words,
        symbols,
        repeated,
    })
}

/// Reads the symbols and variables of a specification with these sorts.
fn read_words<'a>(
    alloc: Global,
    syntax: &'a Syntax,
    sorts: &ReadSorts,
) -> Result<ReadScope<'a>, AllocError>
    requires source { sorts.now.sorts.source.now ≡ syntax.now.source }
    requires names { given_to sorts.now.sorts.names ≡ first_at syntax.now.spec.sorts }
    requires repeated { sorts.now.repeated ≡ least_place (repeated_sorts syntax.now.spec) }
    ensures { IfOk result (IsReadScope syntax.now.spec syntax.now.source) }
{
    let constructors = number(syntax.constructors().len())?;
    let (declared, count) = read_declared(alloc, syntax, &sorts.sorts)?;
    let numbered = number_declared(alloc, syntax, &declared, count)?;
    Ok(ReadScope {
        scope: Scope {
            source: syntax.source(),
            words: numbered.words,
            sorts: declared.sorts,
            arguments: declared.arguments,
            constructors,
            symbols: numbered.symbols,
        },
        repeated_sort: sorts.repeated,
        repeated_symbol: numbered.repeated.symbol,
        taken_variable: numbered.repeated.variable,
        unknown_sort: declared.unknown,
    })
}

/// Reads the declarations of a specification.
pub fn read_scope(alloc: Global, syntax: &Syntax) -> Result<ReadScope<'_>, AllocError>
    ensures { IfOk result (IsReadScope syntax.now.spec syntax.now.source) }
{
    let sorts = read_sorts(alloc, syntax)?;
    read_words(alloc, syntax, &sorts)
}
