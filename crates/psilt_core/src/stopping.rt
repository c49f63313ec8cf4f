//! Stops evaluations from another handle.

ghost use Rattle.std.specs.Prelude.{◌≡◌, IfErr};

use crate::{Fault, Work};
use rec_engine::Control;
use std::alloc::{AllocError, Global};
use std::marker::Model;
use std::sync::Arc;
use std::sync::atomic::{AtomicBool, Ordering};

/// Whether a stop is requested, for all handles that have the same flag. Another thread may change
/// it at any time, so contracts see nothing of it.
#[derive(Drop)]
pub struct Flag {
    set: Option<Arc<AtomicBool, Global>>,
}

impl Model for Flag {
    ghost Value = { Unit {0} };

    ghost view = { λ _. tt };
}

impl Flag {
    /// Returns a flag of its own, which nothing sets.
    pub(crate) fn none() -> Flag {
        Flag { set: None }
    }

    /// Returns whether a stop is requested.
    fn is_set(&self) -> bool {
        match &self.set {
            Some(set) => set.load(Ordering::SeqCst),
            None => false,
        }
    }

    /// Requests a stop, or withdraws the request.
    fn put(&self, is_on: bool) {
        if let Some(set) = &self.set {
            set.store(is_on, Ordering::SeqCst);
        }
    }

    /// Returns the same flag for another handle.
    fn share(&mut self, alloc: Global) -> Result<Flag, AllocError> {
        let set = match self.set.take() {
            Some(set) => set,
            None => match Arc::new(alloc, AtomicBool::new(false)) {
                Ok(set) => set,
                Err(_) => return Err(AllocError),
            },
        };
        let other = Arc::try_clone(&set);
        self.set = Some(set);
        match other {
            Ok(other) => Ok(Flag { set: Some(other) }),
            Err(_) => Err(AllocError),
        }
    }
}

/// Ends an evaluation at its first report after a stop was requested.
#[derive(Drop)]
pub(crate) struct Stop {
    pub(crate) flag: Flag,
    /// Whether the last report found the request.
    pub(crate) is_requested: bool,
}

impl Control for Stop {
    ghost use Rattle.std.specs.Prelude.{◌≡◌, true};

    ghost has_requested = { λ s. s.is_requested ≡ true };

    fn report(&mut self, _left: u64, _cells: u32) -> bool {
        self.is_requested = self.flag.is_set();
        !self.is_requested
    }
}

impl Work {
    /// Lets requests to another work stop the evaluations of this one, in place of those that could
    /// before.
    pub fn obey(&mut self, alloc: Global, other: &mut Work) -> Result<(), Fault>
        ensures fault { IfErr result (λ fault. fault ≡ Fault.Memory) }
        ensures same { self.new ≡ self.old }
        ensures other { other.new ≡ other.old }
    {
        match other.flag.share(alloc) {
            Ok(flag) => {
                self.flag = flag;
                Ok(())
            }
            Err(_) => Err(Fault::Memory),
        }
    }

    /// Requests that each work which obeys this one ends its evaluation at the next report, or
    /// withdraws the request. It stands until it is withdrawn.
    pub fn request_stop(&self, is_on: bool) {
        self.flag.put(is_on);
    }
}
