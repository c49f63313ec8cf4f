//! The handle that C has.

ghost use Rattle.std.specs.Prelude.{◌≡◌, IsSome};

use crate::Work;
use crate::held::Held;
use crate::loose::Loose;
use std::alloc::Global;

/// The handle that C has: a word that is 1 while the handle is open, and a pointer that C never
/// follows. Contracts see the work of an open handle, and none of a closed one.
#[repr(C)]
#[derive(Drop)]
pub struct Psilt {
    state: u32,
    held: Held,
    ghost open: { state ≡ 1 → IsSome held.value },
}

impl Psilt {
    ghost use Rattle.std.specs.Prelude.{◌≡◌, Some, None};
    ghost use Rattle.std.specs.Option.{option_map};
    ghost use Rattle.psilt_core.specs.Handles.{work_of};

    /// Returns a closed handle.
    pub fn new() -> Psilt
        ensures { work_of result ≡ None }
    {
        Psilt {
            state: 0,
            held: Held::none(),
        }
    }

    /// Returns an open handle with this work.
    fn of(work: Box<Work>) -> Psilt
        ensures { work_of result ≡ Some work.value }
    {
        Psilt {
            state: 1,
            held: Held::of(Loose::of(work)),
        }
    }

    /// Takes the work out of the handle, which is closed afterwards. Returns `None` if it was
    /// closed.
    pub fn take(&mut self, alloc: Global) -> Option<Box<Work>>
        ensures taken { work_of self.old ≡ option_map (λ b. b.value) result }
        ensures closed { work_of self.new ≡ None }
    {
        if self.state != 1 {
            return None;
        }
        let Psilt { state: _, held } = std::mem::replace(self, Psilt::new());
        Some(held.into_loose(alloc).into_box())
    }

    /// Opens a closed handle with this work.
    pub fn put(&mut self, work: Box<Work>)
        requires { work_of self.old ≡ None }
        ensures { work_of self.new ≡ Some work.value }
    {
        *self = Psilt::of(work);
    }
}
