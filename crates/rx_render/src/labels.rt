//! The labels of nodes.

ghost use Rattle.std.specs.Prelude.{◌≡◌, ◌++◌, IsSome, OnOk, decimal, flat_map};
ghost use Rattle.std.specs.Fmt.{signed_decimal};
ghost use Rattle.rx_term.specs.Kinds.{HasAppl};
ghost use Rattle.rx_term.specs.Store.{tree_at};
ghost use Rattle.rx_term.specs.Walks.{held_tree};
ghost use Rattle.rx_render.specs.Graph.{label, label_byte, node_line};

use crate::naming::quoted_name;
use itoa::Buffer;
use rx_term::{Kind, Symbol, Term, TermBank};
use std::alloc::{AllocError, Global};

/// Appends one byte of a label, escaped if necessary.
fn push_label_byte(text: &mut Vec<u8>, byte: u8) -> Result<(), AllocError>
    ensures added { OnOk result (text.new.items ≡ text.old.items ++ label_byte byte) }
{
    if byte == b'"' || byte == b'\\' {
        text.extend_from_slice(&[b'\\', byte])
    } else if byte == b'&' {
        text.extend_from_slice(b"&amp;")
    } else {
        text.extend_from_slice(&[byte])
    }
}

/// Appends some bytes of a label, escaped if necessary.
fn push_label_bytes(text: &mut Vec<u8>, bytes: &[u8]) -> Result<(), AllocError>
    ensures added { OnOk result
        (text.new.items ≡ text.old.items ++ flat_map label_byte bytes.now) }
{
    for byte in bytes {
        push_label_byte(text, *byte)?;
    }
    Ok(())
}

/// Appends a number.
pub fn push_number(text: &mut Vec<u8>, number: usize) -> Result<(), AllocError>
    ensures added { OnOk result (text.new.items ≡ text.old.items ++ decimal number) }
{
    text.extend_from_slice(Buffer::new().format(number).as_bytes())
}

/// Appends an integer.
fn push_integer(text: &mut Vec<u8>, value: i32) -> Result<(), AllocError>
    ensures added { OnOk result (text.new.items ≡ text.old.items ++ signed_decimal value) }
{
    text.extend_from_slice(Buffer::new().format(value).as_bytes())
}

/// Appends the label of an application: its name as it is printed, or `()` for the empty plain
/// name.
fn push_name<B: TermBank>(
    alloc: Global,
    bank: &B,
    term: Term,
    symbol: Symbol,
    text: &mut Vec<u8>,
) -> Result<(), AllocError>
    requires { HasAppl (B.store bank.now) term symbol }
    ensures added { OnOk result
        (text.new.items ≡ text.old.items ++ label (held_tree (B.store bank.now) term)) }
{
    let name = bank.name_of(symbol);
    if bank.quoted_of(symbol) {
        push_label_bytes(text, &quoted_name(alloc, name)?)
    } else if name.is_empty() {
        push_label_bytes(text, b"()")
    } else {
        push_label_bytes(text, name)
    }
}

/// Appends the label of a part.
fn push_label<B: TermBank>(
    alloc: Global,
    bank: &B,
    term: Term,
    text: &mut Vec<u8>,
) -> Result<(), AllocError>
    requires { IsSome (tree_at (B.store bank.now) term) }
    ensures added { OnOk result
        (text.new.items ≡ text.old.items ++ label (held_tree (B.store bank.now) term)) }
{
    match bank.kind(term) {
        Kind::Int(value) => push_integer(text, value),
        Kind::Nil => text.extend_from_slice(b"[]"),
        Kind::Cons => text.extend_from_slice(b"."),
        Kind::Appl(symbol) => push_name(alloc, bank, term, symbol, text),
        Kind::Hole => text.extend_from_slice(b"<>"),
    }
}

/// Appends the line of the node of a part.
pub fn push_node<B: TermBank>(
    alloc: Global,
    bank: &B,
    number: usize,
    term: Term,
    text: &mut Vec<u8>,
) -> Result<(), AllocError>
    requires { IsSome (tree_at (B.store bank.now) term) }
    ensures added { OnOk result (text.new.items
        ≡ text.old.items ++ node_line number (held_tree (B.store bank.now) term)) }
{
    text.extend_from_slice(b"  n")?;
    push_number(text, number)?;
    text.extend_from_slice(b" [label=\"")?;
    push_label(alloc, bank, term, text)?;
    text.extend_from_slice(b"\"];\n")
}
