//! Names as they are printed.

ghost use Rattle.std.specs.Prelude.{◌≡◌, ◌++◌, true, IfOk, OnErr, OnOk};
ghost use Rattle.rx_text.specs.Canon.{name_text, octal_text, quoted_byte};
ghost use Rattle.rx_text.specs.Output.{ReportsFault, Writes, WritesFront};

use rx_text::{Output, WriteFault};
use std::alloc::{AllocError, Global};
use std::io::Write;

/// Appends one byte of a quoted name, escaped if necessary.
fn push_quoted_byte(text: &mut Vec<u8>, byte: u8) -> Result<(), AllocError>
    ensures added { OnOk result (text.new.items ≡ text.old.items ++ quoted_byte byte) }
{
    if byte == b'"' || byte == b'\\' {
        text.extend_from_slice(&[b'\\', byte])
    } else if byte == b'\n' {
        text.extend_from_slice(b"\\n")
    } else if byte == b'\t' {
        text.extend_from_slice(b"\\t")
    } else if byte == b'\r' {
        text.extend_from_slice(b"\\r")
    } else if byte >= b' ' && byte <= b'~' {
        text.extend_from_slice(&[byte])
    } else {
        push_octal(text, byte)
    }
}

/// Appends a backslash and three octal digits.
fn push_octal(text: &mut Vec<u8>, byte: u8) -> Result<(), AllocError>
    ensures added { OnOk result (text.new.items ≡ text.old.items ++ octal_text byte) }
{
    text.extend_from_slice(&[
        b'\\',
        b'0' + byte / 64,
        b'0' + byte / 8 % 8,
        b'0' + byte % 8,
    ])
}

/// Returns a name between quotes.
pub fn quoted_name(alloc: Global, name: &[u8]) -> Result<Vec<u8>, AllocError>
    ensures quoted { IfOk result (λ text. text.items ≡ name_text name.now true) }
{
    let mut text = Vec::from_slice(alloc, b"\"")?;
    for byte in name {
        push_quoted_byte(&mut text, *byte)?;
    }
    text.extend_from_slice(b"\"")?;
    Ok(text)
}

/// Writes a name, between quotes if it is quoted.
pub fn write_name<W: Write>(
    alloc: Global,
    name: &[u8],
    quoted: bool,
    out: &mut Output<'_, W>,
) -> Result<(), WriteFault>
    ensures written { OnOk result (Writes W.contents out.old out.new (name_text name.now quoted)) }
    ensures front { OnErr result (WritesFront W.contents out.old out.new
        (name_text name.now quoted)) }
    ensures reports { ReportsFault out.old out.new result }
{
    if !quoted {
        return Ok(out.put(name)?);
    }
    match quoted_name(alloc, name) {
        Ok(text) => Ok(out.put(&text)?),
        Err(_) => Err(WriteFault::Memory),
    }
}
