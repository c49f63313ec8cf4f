//! The texts of rules on one line.

use crate::names::word_in;
use crate::nodes::head_of;
use rec_syntax::{Rule, Span, Syntax, Term};
use std::alloc::{AllocError, Global};

/// The end of a text that is cut.
const DOTS: &[u8] = b"...";

/// Returns the text of a rule on one line: without comments, and with one space in place of other
/// layout. A text of more than `width` bytes is cut, and ends in three dots then.
pub fn text_of_rule(
    alloc: Global,
    syntax: &Syntax,
    rule: &Rule,
    width: usize,
) -> Result<Vec<u8>, AllocError> {
    let source = syntax.source();
    let from = match head_of(&rule.left) {
        Some(head) => head.word.from,
        None => 0,
    };
    let to = end_of(source, rule);
    let mut text = Vec::new(alloc);
    write_line(word_in(source, Span { from, to }), width, &mut text)?;
    if text.len() > width {
        text.truncate(width.saturating_sub(DOTS.len()));
        text.extend_from_slice(DOTS)?;
    }
    Ok(text)
}

/// Appends a text without its comments, and with one space in place of other layout, up to a byte
/// more than `width`.
fn write_line(piece: &[u8], width: usize, text: &mut Vec<u8>) -> Result<(), AllocError> {
    let mut is_comment = false;
    let mut is_apart = false;
    for byte in piece {
        if text.len() > width {
            break;
        }
        if is_comment || is_layout(*byte) {
            is_comment = *byte != b'\n' && (is_comment || *byte == b'%');
            is_apart = true;
        } else {
            if is_apart {
                text.extend_from_slice(b" ")?;
            }
            text.extend_from_slice(&[*byte])?;
            is_apart = false;
        }
    }
    Ok(())
}

/// Returns whether a byte is layout, or begins a comment.
fn is_layout(byte: u8) -> bool {
    matches!(byte, b' ' | b'\t' | b'\n' | b'\r' | b'%')
}

/// Returns the offset at which a rule ends.
fn end_of(source: &[u8], rule: &Rule) -> usize {
    let last = match rule.conditions.as_slice().last() {
        Some(condition) => &condition.right,
        None => &rule.right,
    };
    after_marks(source, last_end(last))
}

/// Returns the offset after the last word of a term. In postfix form, this is the last word without
/// arguments.
fn last_end(term: &Term) -> usize {
    let mut words = term.nodes().iter().rev();
    match words.find(|node| node.count == 0) {
        Some(node) => node.word.to,
        None => 0,
    }
}

/// Returns the offset after the parentheses that follow an offset, or this offset if none does.
fn after_marks(source: &[u8], from: usize) -> usize {
    let mut end = from;
    let mut is_comment = false;
    let (_, rest) = source.split_at(from.min(source.len()));
    for (i, byte) in rest.iter().enumerate() {
        if is_comment || is_layout(*byte) {
            is_comment = *byte != b'\n' && (is_comment || *byte == b'%');
        } else if matches!(*byte, b'(' | b')') {
            end = from.saturating_add(i).saturating_add(1);
        } else {
            break;
        }
    }
    end
}
