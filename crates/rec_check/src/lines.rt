//! The lines of diagnostics.

ghost use Rattle.std.specs.Prelude.{◌++◌, codes, OnErr, OnOk};
ghost use Rattle.rx_text.specs.Output.{ReportsRefusal, Writes, WritesFront};
ghost use Rattle.rec_check.specs.Findings.{as_diagnostic, as_diagnostics};
ghost use Rattle.rec_check.specs.Lines.{
  code_of,
  label_of,
  line_at,
  lines_of,
  severity_of,
  shown_text,
  spot_text,
};

use crate::finding::{Diagnostic, Kind};
use crate::spots::{Cursor, Spot};
use rx_run::put_numbered_to;
use rx_text::{Output, RefusedWrite};
use std::io::Write;

/// Writes a line and a column.
fn write_spot<W: Write>(spot: Spot, out: &mut Output<'_, W>) -> Result<(), RefusedWrite>
    ensures ok { OnOk result (Writes W.contents out.old out.new (spot_text spot)) }
    ensures err { OnErr result (WritesFront W.contents out.old out.new (spot_text spot)) }
    ensures reports { ReportsRefusal out.old out.new result }
{
    put_numbered_to(out, b":", spot.line)?;
    put_numbered_to(out, b":", spot.column)?;
    out.put(b": ")?;
    Ok(())
}

/// Writes the detail that follows a description.
fn write_shown<W: Write>(shown: &[u8], out: &mut Output<'_, W>) -> Result<(), RefusedWrite>
    ensures ok { OnOk result (Writes W.contents out.old out.new (shown_text shown.now)) }
    ensures err { OnErr result (WritesFront W.contents out.old out.new (shown_text shown.now)) }
    ensures reports { ReportsRefusal out.old out.new result }
{
    if shown.len() == 0 {
        return Ok(());
    }
    out.put(b": ")?;
    out.put(shown)?;
    Ok(())
}

/// Writes the code of a diagnostic in brackets, and ends its line.
fn write_code<W: Write>(kind: Kind, out: &mut Output<'_, W>) -> Result<(), RefusedWrite>
    ensures ok { OnOk result (Writes W.contents out.old out.new
        (codes " [" ++ code_of kind ++ codes "]\n")) }
    ensures err { OnErr result (WritesFront W.contents out.old out.new
        (codes " [" ++ code_of kind ++ codes "]\n")) }
    ensures reports { ReportsRefusal out.old out.new result }
{
    out.put(b" [")?;
    out.put(kind.code())?;
    out.put(b"]\n")?;
    Ok(())
}

/// Writes the severity and the description of a diagnostic.
fn write_label<W: Write>(kind: Kind, out: &mut Output<'_, W>) -> Result<(), RefusedWrite>
    ensures ok { OnOk result (Writes W.contents out.old out.new
        (severity_of kind ++ label_of kind)) }
    ensures err { OnErr result (WritesFront W.contents out.old out.new
        (severity_of kind ++ label_of kind)) }
    ensures reports { ReportsRefusal out.old out.new result }
{
    out.put(kind.severity())?;
    out.put(kind.label())?;
    Ok(())
}

/// Writes the line of a diagnostic at this location of the text called `name`.
fn write_diagnostic<W: Write>(
    name: &[u8],
    spot: Spot,
    diagnostic: &Diagnostic,
    out: &mut Output<'_, W>,
) -> Result<(), RefusedWrite>
    ensures ok { OnOk result (Writes W.contents out.old out.new
        (line_at name.now spot (as_diagnostic diagnostic.now))) }
    ensures err { OnErr result (WritesFront W.contents out.old out.new
        (line_at name.now spot (as_diagnostic diagnostic.now))) }
    ensures reports { ReportsRefusal out.old out.new result }
{
    out.put(name)?;
    write_spot(spot, out)?;
    write_label(diagnostic.kind, out)?;
    write_shown(&diagnostic.shown, out)?;
    write_code(diagnostic.kind, out)?;
    Ok(())
}

/// Writes the lines of diagnostics in the text called `name`.
pub(crate) fn write_diagnostics<W: Write>(
    name: &[u8],
    text: &[u8],
    diagnostics: &[Diagnostic],
    out: &mut Output<'_, W>,
) -> Result<(), RefusedWrite>
    ensures ok { OnOk result (Writes W.contents out.old out.new
        (lines_of name.now text.now (as_diagnostics diagnostics.now))) }
    ensures err { OnErr result (WritesFront W.contents out.old out.new
        (lines_of name.now text.now (as_diagnostics diagnostics.now))) }
    ensures reports { ReportsRefusal out.old out.new result }
{
    let mut cursor = Cursor::new(text);
    for diagnostic in diagnostics {
        let spot = cursor.spot(diagnostic.at);
        write_diagnostic(name, spot, diagnostic, out)?;
    }
    Ok(())
}
