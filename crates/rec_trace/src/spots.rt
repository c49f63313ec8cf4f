//! The locations of the rules of a specification.

ghost use Rattle.std.specs.Prelude.{◌≡◌, ◌≤◌, ◌<◌, ◌^◌, IfOk, length, map};
ghost use Rattle.rec_syntax.specs.Parts.{IsRule, rule_of};
ghost use Rattle.rec_syntax.specs.Syntax.{head};
ghost use Rattle.rec_trace.specs.Lines.{rule_spot, spot_at};

use crate::lines::{Spot, spot_of};
use rec_syntax::{Rule, Syntax};
use std::alloc::{AllocError, Global};

/// Returns the location of the byte at offset `at`, from that of another one.
fn spot_by(source: &[u8], from: usize, spot: Spot, at: usize) -> Spot
    requires within { at ≤ length source.now }
    requires short { length source.now < 2 ^ 63 }
    requires known { spot ≡ spot_at source.now from }
    ensures { result ≡ spot_at source.now at }
{
    if at < from {
        return spot_of(source, at);
    }
    let mut line = spot.line;
    let mut column = spot.column;
    let piece = &source[from..at];
    for byte in piece {
        if *byte == b'\n' {
            line += 1;
            column = 1;
        } else {
            column += 1;
        }
    }
    Spot { line, column }
}

/// Returns the offset at which a rule begins.
fn beginning(syntax: &Syntax, rule: &Rule) -> usize
    requires { IsRule syntax.now.source rule.now }
    ensures within { result ≤ length syntax.now.source }
    ensures at { result ≡ (head (rule_of syntax.now.source rule.now).left).at }
{
    match rule.left.nodes().last() {
        Some(node) => node.word.from,
        None => 0,
    }
}

/// Returns the locations at which the rules begin, from the first to the last. Rules have this
/// order in the text, so each byte of it is read once.
pub fn rule_spots(alloc: Global, syntax: &Syntax) -> Result<Vec<Spot>, AllocError>
    ensures { IfOk result
        (λ spots. spots.items ≡ map (rule_spot syntax.now.source) syntax.now.spec.rules) }
{
    let source = syntax.source();
    let mut spots = Vec::new(alloc);
    let mut from = 0;
    let mut spot = Spot { line: 1, column: 1 };
    for rule in syntax.rules() {
        let at = beginning(syntax, rule);
        spot = spot_by(source, from, spot, at);
        from = at;
        spots.push(spot)?;
    }
    Ok(spots)
}
