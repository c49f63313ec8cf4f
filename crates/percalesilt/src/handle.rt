//! Opening and closing of handles for C.

ghost use Rattle.std.specs.Prelude.{◌≡◌};
ghost use Rattle.psilt_core.specs.Handles.{Opens, Closes};

use crate::answer::CLOSED;
use psilt_core::{Fault, Psilt, Work};
use std::alloc::Global;

/// Opens a handle over an empty store of at most `cap` cells.
#[unsafe(no_mangle)]
pub extern "C" fn psilt_open(alloc: Global, psilt: &mut Psilt, cap: u32) -> u32
    ensures { Opens psilt.old psilt.new cap result }
{
    if let Some(work) = psilt.take(alloc) {
        psilt.put(work);
        return Fault::Open as u32;
    }
    match Work::new(alloc, cap) {
        Ok(work) => {
            psilt.put(work);
            0
        }
        Err(fault) => fault as u32,
    }
}

/// Closes a handle, and frees all its memory.
#[unsafe(no_mangle)]
pub extern "C" fn psilt_close(alloc: Global, psilt: &mut Psilt) -> u32
    ensures { Closes psilt.old psilt.new result }
{
    match psilt.take(alloc) {
        Some(work) => {
            drop(work);
            0
        }
        None => CLOSED,
    }
}
