//! Filters of words by their names.

ghost use Rattle.std.specs.Prelude.{◌≡◌, ◌++◌, List, IfOk, OnOk};
ghost use Rattle.rec_syntax.specs.Tokens as syntax;
ghost use Rattle.rec_sorts.specs.Lookup.{repeated};
ghost use Rattle.rec_sorts.specs.SpecRules.{missing};
ghost use Rattle.rec_check.specs.Lookups.{IsNoted, Knows, present, where_known};
ghost use Rattle.rec_check.specs.Named.{as_word, as_words};

use crate::located::Word;
use crate::names::Names;
use std::alloc::{AllocError, Global};

/// Returns the words whose names are not known.
pub fn missing_words<'a>(
    alloc: Global,
    known: &Names<'_>,
    words: &[Word<'a>],
) -> Result<Vec<Word<'a>>, AllocError>
    ensures { (ks : List syntax.Word) → Knows known.now ks
        → IfOk result (λ v. as_words v.items ≡ missing ks (as_words words.now)) }
{
    let mut found = Vec::new(alloc);
    for word in words {
        if !known.has(word.bytes) {
            found.push(*word)?;
        }
    }
    Ok(found)
}

/// Returns the words whose names are known.
pub fn present_words<'a>(
    alloc: Global,
    known: &Names<'_>,
    words: &[Word<'a>],
) -> Result<Vec<Word<'a>>, AllocError>
    ensures { (ks : List syntax.Word) → Knows known.now ks
        → IfOk result (λ v. as_words v.items ≡ present ks (as_words words.now)) }
{
    let mut found = Vec::new(alloc);
    for word in words {
        if known.has(word.bytes) {
            found.push(*word)?;
        }
    }
    Ok(found)
}

/// Returns the words whose name is that of an earlier word.
pub fn repeated_words<'a>(
    alloc: Global,
    before: &[Word<'a>],
    words: &[Word<'a>],
) -> Result<Vec<Word<'a>>, AllocError>
    ensures { IfOk result
        (λ v. as_words v.items ≡ repeated (as_words before.now) (as_words words.now)) }
{
    let mut names = Names::of(alloc, before)?;
    let mut found = Vec::new(alloc);
    for word in words {
        push_repeated(&mut names, *word, &mut found)?;
    }
    Ok(found)
}

/// Appends a word if its name is known, and adds the name.
fn push_repeated<'a>(
    names: &mut Names<'a>,
    word: Word<'a>,
    found: &mut Vec<Word<'a>>,
) -> Result<(), AllocError>
    ensures found { OnOk result (as_words found.new.items
        ≡ as_words found.old.items ++ where_known names.old (as_word word.entry)) }
    ensures known { OnOk result (IsNoted names.old names.new (as_word word.entry)) }
{
    if names.has(word.bytes) {
        found.push(word)?;
    }
    names.note(word.bytes, 0)
}
