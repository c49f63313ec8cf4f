//! An optional box, stored as its pointer.

ghost use Rattle.std.specs.Prelude.{◌≡◌, Option, Some, None, IsSome};
ghost use Rattle.std.specs.Coded.{coded_option};
ghost use Rattle.psilt_core.specs.declared.work.Work.{Work};
ghost use Rattle.psilt_core.specs.contracts.work.Work.{the_row};

use crate::Work;
use crate::loose::Loose;
use std::alloc::Global;
use std::marker::Model;

/// An optional box, stored as a pointer that C can keep.
#[repr(C)]
#[derive(Drop)]
pub struct Held {
    at: *mut u8,
    pub ghost value: { Option Work } by { coded_option the_row.coded },
}

impl Model for Held {
    ghost use Rattle.psilt_core.specs.Inner.Owned.{boxed_if};

    ghost also_owns = { λ h. boxed_if h.at h.value };
}

impl Held {
    /// Returns an optional box without a box.
    pub fn none() -> Held
        ensures { result.value ≡ None }
    {
        Held {
            at: std::ptr::null_mut(),
        }
    }

    /// Makes an optional box from a loose box.
    pub fn of(loose: Loose<Work, Global>) -> Held
        ensures { result.value ≡ Some loose.value }
    {
        let Loose { at, alloc: _ } = loose;
        Held { at: at as *mut u8 }
    }

    /// Returns the loose box.
    pub fn into_loose(self, alloc: Global) -> Loose<Work, Global>
        requires { IsSome self.value }
        ensures { self.value ≡ Some result.value }
    {
        let Held { at } = self;
        Loose {
            at: at as *mut Work,
            alloc,
        }
    }
}
