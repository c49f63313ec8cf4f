//! Writes the lines of words.

ghost use Rattle.std.specs.Prelude.{◌++◌, List, ℕ, OnErr, OnOk, flat_map};
ghost use Rattle.rec_syntax.specs.Syntax.{Spec};
ghost use Rattle.rx_text.specs.Output.{ReportsRefusal, Writes, WritesFront};
ghost use Rattle.rec_uses.specs.Inner.Tables.{AreTables};
ghost use Rattle.rec_uses.specs.Inner.Values.{as_use, as_uses};
ghost use Rattle.rec_uses.specs.Lines.{line_of, place_text, description, unknown_text};

use crate::spots::{Cursor, Spot};
use crate::tables::Tables;
use crate::uses::Use;
use rec_syntax::Syntax;
use rx_run::put_numbered_to;
use rx_text::{Output, RefusedWrite};
use std::io::Write;

/// Writes the name of the text and a location.
fn write_place<W: Write>(
    name: &[u8],
    spot: Spot,
    out: &mut Output<'_, W>,
) -> Result<(), RefusedWrite>
    ensures ok { OnOk result (Writes W.contents out.old out.new (place_text name.now spot)) }
    ensures err { OnErr result (WritesFront W.contents out.old out.new (place_text name.now spot)) }
    ensures reports { ReportsRefusal out.old out.new result }
{
    out.put(name)?;
    put_numbered_to(out, b":", spot.line)?;
    put_numbered_to(out, b":", spot.column)?;
    out.put(b": ")?;
    Ok(())
}

/// Writes the description of a word without declaration.
fn write_unknown<W: Write>(used: &Use<'_>, out: &mut Output<'_, W>) -> Result<(), RefusedWrite>
    ensures ok { OnOk result (Writes W.contents out.old out.new
        (unknown_text used.now.role used.now.word.bytes.now)) }
    ensures err { OnErr result (WritesFront W.contents out.old out.new
        (unknown_text used.now.role used.now.word.bytes.now)) }
    ensures reports { ReportsRefusal out.old out.new result }
{
    out.put(used.role.unknown())?;
    out.put(used.word.bytes)?;
    out.put(b": -\n")?;
    Ok(())
}

/// Writes the description of a word.
fn write_description<'a, W: Write>(
    tables: &Tables<'a>,
    used: &Use<'a>,
    out: &mut Output<'_, W>,
) -> Result<(), RefusedWrite>
    ensures ok { OnOk result ((text : List ℕ) (y : Spec) → AreTables text y tables.now
        → Writes W.contents out.old out.new (description text y (as_use used.now))) }
    ensures err { OnErr result ((text : List ℕ) (y : Spec) → AreTables text y tables.now
        → WritesFront W.contents out.old out.new (description text y (as_use used.now))) }
    ensures reports { ReportsRefusal out.old out.new result }
{
    match tables.text(used.role, used.word.bytes) {
        Some(text) => out.put(text),
        None => write_unknown(used, out),
    }
}

/// Writes the line of a word at this location of the text called `name`.
fn write_use<'a, W: Write>(
    name: &[u8],
    spot: Spot,
    tables: &Tables<'a>,
    used: &Use<'a>,
    out: &mut Output<'_, W>,
) -> Result<(), RefusedWrite>
    ensures ok { OnOk result ((text : List ℕ) (y : Spec) → AreTables text y tables.now
        → Writes W.contents out.old out.new
        (place_text name.now spot ++ description text y (as_use used.now))) }
    ensures err { OnErr result ((text : List ℕ) (y : Spec) → AreTables text y tables.now
        → WritesFront W.contents out.old out.new
        (place_text name.now spot ++ description text y (as_use used.now))) }
    ensures reports { ReportsRefusal out.old out.new result }
{
    write_place(name, spot, out)?;
    write_description(tables, used, out)
}

/// Writes the lines of words of the text called `name`.
pub(crate) fn write_uses<'a, W: Write>(
    name: &[u8],
    syntax: &Syntax,
    tables: &Tables<'a>,
    uses: &[Use<'a>],
    out: &mut Output<'_, W>,
) -> Result<(), RefusedWrite>
    requires { AreTables syntax.now.source syntax.now.spec tables.now }
    ensures ok { OnOk result (Writes W.contents out.old out.new
        (flat_map (line_of name.now syntax.now.source syntax.now.spec) (as_uses uses.now))) }
    ensures err { OnErr result (WritesFront W.contents out.old out.new
        (flat_map (line_of name.now syntax.now.source syntax.now.spec) (as_uses uses.now))) }
    ensures reports { ReportsRefusal out.old out.new result }
{
    let mut cursor = Cursor::new(syntax.source());
    for used in uses {
        let spot = cursor.spot(used.word.at);
        write_use(name, spot, tables, used, out)?;
    }
    Ok(())
}
