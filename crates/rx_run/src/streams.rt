//! Reads the bytes of an input.

ghost use Rattle.std.specs.Prelude.{◌≡◌, ◌+◌, ◌-◌, ◌≤◌, ◌<◌, List, ℕ, IfErr, IfOk, OnOk, OnErr};
ghost use Rattle.std.specs.Prelude.{IfSome, take, vec_len};
ghost use Rattle.std.specs.Io.KnownBytes.{Consumes};
ghost use Rattle.rx_text.specs.Input.{remaining_in};
ghost use Rattle.rx_run.specs.Run.{IsReadOut, StopsReading};
ghost use Rattle.rx_run.specs.Streams.{ReportsRead};

use crate::ending::RunFault;
use rx_text::Input;
use std::alloc::Global;
use std::io::Read;

/// The greatest length of a text, in bytes.
pub const LIMIT: usize = 16_777_216;

/// Reads an input to its end, or one byte past [`LIMIT`]. After an error the bytes that were
/// consumed are the first ones of the input; their number is unspecified. The input is not read
/// again after a failed read.
pub fn read_all_from<R: Read>(alloc: Global, input: &mut Input<'_, R>) -> Result<Vec<u8>, RunFault>
    ensures text { IfOk result (λ text. IfSome (remaining_in R.remaining input.old)
        (λ bytes. text.items ≡ take (LIMIT + 1) bytes)) }
    ensures out { OnOk result
        (IsReadOut (remaining_in R.remaining input.old) (remaining_in R.remaining input.new)) }
    ensures bound { IfOk result (λ text. vec_len text ≤ LIMIT + 1) }
    ensures lost { OnErr result ((bytes : List ℕ) × Consumes
        (remaining_in R.remaining input.old) (remaining_in R.remaining input.new) bytes) }
    ensures fault { IfErr result StopsReading }
    ensures reports { ReportsRead input.old input.new result }
{
    let mut text = Vec::new(alloc);
    let mut buffer = [0u8; 4096];
    while text.len() <= LIMIT {
        let room = buffer.len().min(LIMIT + 1 - text.len());
        let count = input.read(&mut buffer[..room])?;
        if count == 0 {
            return Ok(text);
        }
        text.extend_from_slice(&buffer[..count])?;
    }
    Ok(text)
}
