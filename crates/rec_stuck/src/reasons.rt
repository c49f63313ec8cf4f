//! The line of a call, and the reason why it is stuck.

ghost use Rattle.std.specs.Prelude.{◌≡◌, ◌++◌, ◌∷◌, OnOk, codes, decimal};
ghost use Rattle.rec_stuck.specs.Stuck.{place_text, places_behind, reason};

use rec_trace::Spot;
use rx_run::put_numbered;
use std::alloc::AllocError;

/// Appends `before` and a decimal number to a text.
fn add_number(text: &mut Vec<u8>, before: &[u8], number: u64) -> Result<(), AllocError>
    ensures { OnOk result (text.new.items ≡ text.old.items ++ before.now ++ decimal number) }
{
    match put_numbered(text, before, number) {
        Ok(()) => Ok(()),
        Err(_) => Err(AllocError),
    }
}

/// Appends `before` and a location to a text.
fn add_place(text: &mut Vec<u8>, before: &[u8], spot: Spot) -> Result<(), AllocError>
    ensures { OnOk result (text.new.items ≡ text.old.items ++ before.now ++ place_text spot) }
{
    add_number(text, before, spot.line)?;
    add_number(text, b":", spot.column)
}

/// Appends further locations to a text, each after a comma.
fn add_places(text: &mut Vec<u8>, spots: &[Spot]) -> Result<(), AllocError>
    ensures { OnOk result (text.new.items ≡ text.old.items ++ places_behind spots.now) }
{
    for spot in spots {
        add_place(text, b", ", *spot)?;
    }
    Ok(())
}

/// Appends the reason why a call is stuck. `spots` has the locations of the rules that match it.
fn add_reason(text: &mut Vec<u8>, spots: &[Spot]) -> Result<(), AllocError>
    ensures { OnOk result (text.new.items ≡ text.old.items ++ reason spots.now) }
{
    let Some((first, others)) = spots.split_first() else {
        return text.extend_from_slice(b"no rule matches");
    };
    add_place(text, b"the conditions of ", *first)?;
    add_places(text, others)?;
    text.extend_from_slice(b" fail")
}

/// Appends the line of a call to a text: the text of the call, cut to the width, and the reason.
/// `spots` has the locations of the rules that match it.
pub(crate) fn add_line(lines: &mut Vec<u8>, text: &[u8], spots: &[Spot]) -> Result<(), AllocError>
    ensures { OnOk result (lines.new.items ≡ lines.old.items
        ++ (codes "stuck: " ++ text.now ++ codes ": " ++ reason spots.now ++ codes "\n")) }
{
    lines.extend_from_slice(b"stuck: ")?;
    lines.extend_from_slice(text)?;
    lines.extend_from_slice(b": ")?;
    add_reason(lines, spots)?;
    lines.extend_from_slice(b"\n")?;
    Ok(())
}
