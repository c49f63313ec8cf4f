//! The least offsets at which rules are violated.

ghost use Rattle.std.specs.Prelude.{◌≡◌, IfOk};
ghost use Rattle.rec_sorts.specs.Least.{earlier, place_where, is_nowhere, joined};

use std::alloc::AllocError;

/// Returns the smaller of two offsets.
pub fn earlier_place(first: Option<u32>, second: Option<u32>) -> Option<u32>
    ensures { result ≡ earlier first second }
{
    match (first, second) {
        (Some(first), Some(second)) => Some(first.min(second)),
        (Some(first), None) => Some(first),
        (None, second) => second,
    }
}

/// Returns the offset if `broken` is true.
pub fn place_where(broken: bool, at: u32) -> Option<u32>
    ensures { result ≡ place_where broken at }
{
    if broken { Some(at) } else { None }
}

/// For each rule on terms (S5 to S11), the least offset of a violation.
#[derive(Clone, Copy, Debug)]
pub struct TermPlaces {
    pub unknown: Option<u32>,
    pub ill_filled: Option<u32>,
    pub ill_sorted: Option<u32>,
    pub ill_headed: Option<u32>,
    pub unlike: Option<u32>,
    pub unbound: Option<u32>,
    pub free: Option<u32>,
}

impl TermPlaces {
    /// No rule is violated.
    pub const NONE: TermPlaces = TermPlaces {
        unknown: None,
        ill_filled: None,
        ill_sorted: None,
        ill_headed: None,
        unlike: None,
        unbound: None,
        free: None,
    };

    /// Returns whether no rule is violated.
    fn is_nowhere(&self) -> bool
        ensures { result ≡ is_nowhere self.now }
    {
        self.unknown.is_none()
            && self.ill_filled.is_none()
            && self.ill_sorted.is_none()
            && self.ill_headed.is_none()
            && self.unlike.is_none()
            && self.unbound.is_none()
            && self.free.is_none()
    }

    /// Returns the smaller offset for each rule. Mostly `other` has none.
    #[inline(always)]
    pub fn join(self, other: TermPlaces) -> TermPlaces
        ensures { result ≡ joined self other }
    {
        if other.is_nowhere() {
            return self;
        }
        TermPlaces {
            unknown: earlier_place(self.unknown, other.unknown),
            ill_filled: earlier_place(self.ill_filled, other.ill_filled),
            ill_sorted: earlier_place(self.ill_sorted, other.ill_sorted),
            ill_headed: earlier_place(self.ill_headed, other.ill_headed),
            unlike: earlier_place(self.unlike, other.unlike),
            unbound: earlier_place(self.unbound, other.unbound),
            free: earlier_place(self.free, other.free),
        }
    }
}

/// Converts a number to 32 bits. Returns an error if it does not fit.
pub fn number(n: usize) -> Result<u32, AllocError>
    ensures { IfOk result (λ k. k ≡ n) }
{
    u32::try_from(n).map_err(|_| AllocError)
}
