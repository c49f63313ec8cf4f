//! The exit statuses.
ghost use Rattle.std.specs.Prelude.{◌≡◌, ◌↔◌, ◌≤◌, true, false};

/// The run is done.
pub const DONE: u8 = 0;

/// An input was rejected.
pub const REFUSED: u8 = 1;

/// A usage error.
pub const COMMAND_LINE: u8 = 2;

/// Out of memory, out of cells, or call-depth limit reached.
pub const OUT_OF_ROOM: u8 = 3;

/// A read or a write failed.
pub const STREAMS: u8 = 4;

/// There is a limit line, or a result has a stuck call, and an option lets the status report it.
pub const LIMIT: u8 = 5;

/// Returns the exit status of `match --test`: 0 for a match, 1 for none. A rejected input has the
/// status of a usage error then.
pub fn match_status(status: u8, is_match: bool) -> u8
    ensures matches { (result ≡ 0) ↔ ((status ≡ 0) × (is_match ≡ true)) }
    ensures differs { (result ≡ 1) ↔ ((status ≡ 0) × (is_match ≡ false)) }
    ensures wrong { 2 ≤ status → result ≡ status }
{
    match status {
        DONE if is_match => DONE,
        DONE => REFUSED,
        REFUSED => COMMAND_LINE,
        _ => status,
    }
}

/// Returns the exit status of an evaluation whose status reports an event: a limit line, or a stuck
/// call.
pub fn eval_status(status: u8, has_limit: bool) -> u8
    ensures done { (result ≡ 0) ↔ ((status ≡ 0) × (has_limit ≡ false)) }
    ensures limit { (status ≡ 0) × (has_limit ≡ true) → result ≡ 5 }
    ensures wrong { 1 ≤ status → result ≡ status }
{
    if status == DONE && has_limit {
        LIMIT
    } else {
        status
    }
}
