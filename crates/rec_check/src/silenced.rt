//! Comments that silence warnings.
//!
//! The comment `% recw: allow W3 lexi` silences the warning `W3` for the word `lexi`. White space
//! may follow; nothing else may be in the comment.

ghost use Rattle.std.specs.Prelude.{◌≡◌, ◌≤◌, ◌∷◌, ◌++◌, ◌||◌, [], IfOk, List, OnOk, length, ℕ};
ghost use Rattle.std.specs.List.{slice_range};
ghost use Rattle.rec_syntax.specs.Tokens.{line_length};
ghost use Rattle.rec_check.specs.Findings.{as_diagnostic, as_diagnostics};
ghost use Rattle.rec_check.specs.Inner.Allowances.{allowed, has_allowance, is_allowance};
ghost use Rattle.rec_check.specs.Silenced.{allowance, trimmed, unsilenced};

use crate::finding::Diagnostic;
use crate::names::Names;
use std::alloc::{AllocError, Global};

/// The first bytes after the `%` of a comment that silences a warning.
const ALLOW: &[u8] = b" recw: allow ";

/// Returns the number of bytes before the line feed.
fn line_length(bytes: &[u8]) -> usize
    ensures length { result ≡ line_length bytes.now }
    ensures within { result ≤ length bytes.now }
{
    for (i, byte) in bytes.iter().enumerate() {
        if *byte == b'\n' {
            return i;
        }
    }
    bytes.len()
}

/// Returns the bytes between two offsets that are in the text.
fn between(text: &[u8], from: usize, to: usize) -> &[u8]
    ensures { result.now ≡ slice_range text.now from to }
{
    let (_before, rest) = text.split_at(from.min(text.len()));
    let (bytes, _after) = rest.split_at(to.saturating_sub(from).min(rest.len()));
    bytes
}

/// Adds a comment without the white space at its end, if it can silence a warning.
fn note_comment<'a>(names: &mut Names<'a>, comment: &'a [u8]) -> Result<(), AllocError>
    ensures { OnOk result ((phrase : List ℕ) → allowed names.new phrase
        ≡ is_allowance (trimmed comment.entry.now) phrase || allowed names.old phrase) }
{
    let comment = comment.trim_ascii_end();
    if comment.starts_with(ALLOW) {
        names.note(comment, 0)?;
    }
    Ok(())
}

/// Adds the comment that a byte begins, if it begins one, and returns the bytes that follow.
fn note_first<'a>(names: &mut Names<'a>, first: u8, after: &'a [u8]) -> Result<&'a [u8], AllocError>
    ensures known { IfOk result (λ rest. (phrase : List ℕ)
        → allowed names.new phrase || has_allowance rest.now phrase
        ≡ allowed names.old phrase || has_allowance (first ∷ after.entry.now) phrase) }
    ensures within { IfOk result (λ rest. length rest.now ≤ length after.entry.now) }
{
    if first != b'%' {
        return Ok(after);
    }
    let (comment, rest) = after.split_at(line_length(after));
    note_comment(names, comment)?;
    Ok(rest)
}

/// Returns the comments of a text that can silence a warning, without `%` and without the white
/// space at their ends.
fn allowances<'a>(alloc: Global, text: &'a [u8]) -> Result<Names<'a>, AllocError>
    ensures { IfOk result
        (λ names. (phrase : List ℕ) → allowed names phrase ≡ has_allowance text.now phrase) }
{
    let mut names = Names::with_capacity(alloc, 0)?;
    let mut rest = text;
    while let Some((first, after)) = rest.split_first() {
        rest = note_first(&mut names, *first, after)?;
    }
    Ok(names)
}

/// Returns the comment that silences a warning, without `%`.
fn allowance(alloc: Global, text: &[u8], warning: &Diagnostic) -> Result<Vec<u8>, AllocError>
    ensures { IfOk result (λ v. v.items ≡ allowance text.now (as_diagnostic warning.now)) }
{
    let mut comment = Vec::from_slice(alloc, ALLOW)?;
    comment.extend_from_slice(warning.kind.code())?;
    comment.push(b' ')?;
    comment.extend_from_slice(between(text, warning.at, warning.end))?;
    Ok(comment)
}

/// Appends a warning, unless a comment of the text silences it.
fn push_unsilenced(
    text: &[u8],
    names: &Names<'_>,
    warning: Diagnostic,
    kept: &mut Vec<Diagnostic>,
) -> Result<(), AllocError>
    requires { (phrase : List ℕ) → allowed names.now phrase ≡ has_allowance text.now phrase }
    ensures { OnOk result (as_diagnostics kept.new.items ≡ as_diagnostics kept.old.items
        ++ unsilenced text.now (as_diagnostic warning ∷ [])) }
{
    let comment = allowance(*kept.allocator(), text, &warning)?;
    if !names.has(&comment) {
        kept.push(warning)?;
    }
    Ok(())
}

/// Returns the warnings that no comment of the text silences.
pub(crate) fn unsilenced(
    alloc: Global,
    text: &[u8],
    warnings: Vec<Diagnostic>,
) -> Result<Vec<Diagnostic>, AllocError>
    ensures { IfOk result (λ v. as_diagnostics v.items
        ≡ unsilenced text.now (as_diagnostics warnings.items)) }
{
    let names = allowances(alloc, text)?;
    let mut kept = Vec::new(alloc);
    for warning in warnings {
        push_unsilenced(text, &names, warning, &mut kept)?;
    }
    Ok(kept)
}
