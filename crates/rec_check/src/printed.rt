//! Printed names.

ghost use Rattle.std.specs.Prelude.{◌≡◌, ◌++◌, OnOk, not, true};
ghost use Rattle.rx_term.specs.Name.{plain_name};
ghost use Rattle.rx_text.specs.Canon.{name_text, octal_text, quoted_byte};

use rx_term::plain_name;
use std::alloc::AllocError;

/// Appends a backslash and three octal digits.
fn push_octal(byte: u8, text: &mut Vec<u8>) -> Result<(), AllocError>
    ensures { OnOk result (text.new.items ≡ text.old.items ++ octal_text byte) }
{
    let digits = [
        b'\\',
        b'0' + byte / 64,
        b'0' + byte / 8 % 8,
        b'0' + byte % 8,
    ];
    text.extend_from_slice(&digits)
}

/// Appends one byte of a quoted name.
fn push_quoted_byte(byte: u8, text: &mut Vec<u8>) -> Result<(), AllocError>
    ensures { OnOk result (text.new.items ≡ text.old.items ++ quoted_byte byte) }
{
    if byte == b'"' || byte == b'\\' {
        text.extend_from_slice(&[b'\\', byte])
    } else if byte == b'\n' {
        text.extend_from_slice(b"\\n")
    } else if byte == b'\t' {
        text.extend_from_slice(b"\\t")
    } else if byte == b'\r' {
        text.extend_from_slice(b"\\r")
    } else if byte >= b' ' && byte <= b'~' {
        text.extend_from_slice(&[byte])
    } else {
        push_octal(byte, text)
    }
}

/// Appends a name in quotes.
fn push_quoted(name: &[u8], text: &mut Vec<u8>) -> Result<(), AllocError>
    ensures { OnOk result (text.new.items ≡ text.old.items ++ name_text name.now true) }
{
    text.push(b'"')?;
    for byte in name {
        push_quoted_byte(*byte, text)?;
    }
    text.push(b'"')?;
    Ok(())
}

/// Appends a name as it is printed: in quotes, unless it is a plain name.
pub(crate) fn push_name(name: &[u8], text: &mut Vec<u8>) -> Result<(), AllocError>
    ensures { OnOk result (text.new.items
        ≡ text.old.items ++ name_text name.now (not (plain_name name.now))) }
{
    if plain_name(name) {
        text.extend_from_slice(name)
    } else {
        push_quoted(name, text)
    }
}
