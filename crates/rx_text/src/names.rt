//! Writes names and integers.

ghost use Rattle.std.specs.Prelude.{OnOk};
ghost use Rattle.std.specs.Prelude.{OnErr};
ghost use Rattle.std.specs.Fmt.{signed_decimal};
ghost use Rattle.rx_text.specs.Canon.{octal_text, quoted_byte, name_text};
ghost use Rattle.rx_text.specs.Output.{ReportsRefusal, Writes, WritesFront};

use crate::faults::RefusedWrite;
use crate::output::Output;
use itoa::Buffer;
use std::io::Write;

/// Writes a backslash and three octal digits.
fn put_octal<W: Write>(out: &mut Output<'_, W>, byte: u8) -> Result<(), RefusedWrite>
    ensures written { OnOk result (Writes W.contents out.old out.new (octal_text byte)) }
    ensures front { OnErr result (WritesFront W.contents out.old out.new (octal_text byte)) }
    ensures reports { ReportsRefusal out.old out.new result }
{
    let digits = [
        b'\\',
        b'0' + byte / 64,
        b'0' + byte / 8 % 8,
        b'0' + byte % 8,
    ];
    out.put(&digits)
}

/// Writes one byte of a quoted name, escaped if necessary.
fn put_quoted_byte<W: Write>(out: &mut Output<'_, W>, byte: u8) -> Result<(), RefusedWrite>
    ensures written { OnOk result (Writes W.contents out.old out.new (quoted_byte byte)) }
    ensures front { OnErr result (WritesFront W.contents out.old out.new (quoted_byte byte)) }
    ensures reports { ReportsRefusal out.old out.new result }
{
    if byte == b'"' || byte == b'\\' {
        out.put(&[b'\\', byte])
    } else if byte == b'\n' {
        out.put(b"\\n")
    } else if byte == b'\t' {
        out.put(b"\\t")
    } else if byte == b'\r' {
        out.put(b"\\r")
    } else if byte >= b' ' && byte <= b'~' {
        out.put(&[byte])
    } else {
        put_octal(out, byte)
    }
}

/// Writes a name, between quotes if it is quoted.
pub(crate) fn put_name<W: Write>(
    out: &mut Output<'_, W>,
    name: &[u8],
    quoted: bool,
) -> Result<(), RefusedWrite>
    ensures written { OnOk result (Writes W.contents out.old out.new (name_text name.now quoted)) }
    ensures front { OnErr result (WritesFront W.contents out.old out.new
        (name_text name.now quoted)) }
    ensures reports { ReportsRefusal out.old out.new result }
{
    if !quoted {
        return out.put(name);
    }
    out.put(b"\"")?;
    for byte in name {
        put_quoted_byte(out, *byte)?;
    }
    out.put(b"\"")
}

/// Writes an integer.
#[inline(always)]
pub(crate) fn put_integer<W: Write>(out: &mut Output<'_, W>, value: i32) -> Result<(), RefusedWrite>
    ensures written { OnOk result (Writes W.contents out.old out.new (signed_decimal value)) }
    ensures front { OnErr result (WritesFront W.contents out.old out.new (signed_decimal value)) }
    ensures reports { ReportsRefusal out.old out.new result }
{
    let mut buffer = Buffer::new();
    out.put(buffer.format(value).as_bytes())
}
