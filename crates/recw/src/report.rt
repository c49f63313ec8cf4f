//! The line on standard error that reports how a run ended, and the exit statuses.
ghost use Rattle.std.specs.Prelude.{◌≡◌, ◌≢◌, ◌↔◌, ◌⊎◌, IsErr, IsOk, Ok, Err};

use recw_cli::status::{COMMAND_LINE, DONE, OUT_OF_ROOM, REFUSED, STREAMS};
use rx_run::{Ending, Refusal, RunFault};
use std::io::Write;

/// The outcome of a run without a failure.
#[derive(Clone, Copy)]
pub enum Outcome {
    /// The run is done.
    Done,
    /// An input was rejected.
    Refused(Refusal),
    /// `check` found an error, or a warning with `--strict`.
    Faulty,
    /// An option names a rule, symbol or term that does not exist. This is a usage error.
    Unnamed,
}

impl From<Ending> for Outcome {
    fn from(ending: Ending) -> Outcome {
        match ending {
            Ending::Done => Outcome::Done,
            Ending::Refused(refusal) => Outcome::Refused(refusal),
        }
    }
}

/// Reports how a run ended, but no failure if `is_quiet`, and returns its exit status. A line that
/// cannot be written is dropped.
pub fn tell_end<E: Write>(end: Result<Outcome, RunFault>, is_quiet: bool, err: &mut E) -> u8
    ensures done { (result ≡ 0) ↔ (end ≡ Ok Outcome.Done) }
    ensures refused { (result ≡ 1) ↔ (IsOk end × ((end ≢ Ok Outcome.Done)
        × (end ≢ Ok Outcome.Unnamed))) }
    ensures wrong { (result ≡ 2) ↔ (end ≡ Ok Outcome.Unnamed) }
    ensures room { (result ≡ 3) ↔ (IsErr end × ((end ≢ Err RunFault.Read)
        × (end ≢ Err RunFault.Write))) }
    ensures streams { (result ≡ 4) ↔ ((end ≡ Err RunFault.Read)
        ⊎ (end ≡ Err RunFault.Write)) }
{
    match end {
        Ok(Outcome::Done) => DONE,
        Ok(Outcome::Faulty) => REFUSED,
        Ok(Outcome::Unnamed) => COMMAND_LINE,
        Ok(Outcome::Refused(refusal)) => {
            if let Some(place) = refusal.place() {
                let _ = writeln!(err, "recw: {place}");
            }
            REFUSED
        }
        Err(fault) => tell_fault(fault, is_quiet, err),
    }
}

/// Reports a failure unless `is_quiet`, and returns its exit status.
fn tell_fault<E: Write>(fault: RunFault, is_quiet: bool, err: &mut E) -> u8
    ensures either { (result ≡ 3) ⊎ (result ≡ 4) }
    ensures room { (result ≡ 3) ↔ ((fault ≢ RunFault.Read)
        × (fault ≢ RunFault.Write)) }
    ensures streams { (result ≡ 4) ↔ ((fault ≡ RunFault.Read)
        ⊎ (fault ≡ RunFault.Write)) }
{
    if !is_quiet {
        let _ = writeln!(err, "recw: {fault}");
    }
    match fault {
        RunFault::Read | RunFault::Write => STREAMS,
        RunFault::Memory { .. } | RunFault::Room { .. } | RunFault::Deep { .. } => OUT_OF_ROOM,
    }
}
