//! The length of the output, and the offset of an error.

ghost use Rattle.std.specs.Prelude.{◌≡◌};
ghost use Rattle.std.specs.Option.{option_map};
ghost use Rattle.recw_wasm.specs.Answers.{told_place};

use rx_run::Place;

/// The length of the output and the offset of an error; 0 and false after a failed run.
#[derive(Clone, Copy)]
#[repr(C)]
pub struct Told {
    /// The number of bytes of the specified output.
    pub length: usize,
    /// The offset of the error in the rejected text.
    pub at: u32,
    /// Whether the error has an offset.
    pub has_place: bool,
}

impl Told {
    /// Returns the length of the output with the offset of an error, if there is one.
    pub(crate) fn of(length: usize, place: Option<Place>) -> Told
        ensures length { result.length ≡ length }
        ensures place { told_place result ≡ option_map (λ p. p.at) place }
    {
        match place {
            Some(Place { at, .. }) => Told {
                length,
                at,
                has_place: true,
            },
            None => Told {
                length,
                at: 0,
                has_place: false,
            },
        }
    }
}
