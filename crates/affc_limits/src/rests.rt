//! The least of the places that come after so many.

ghost use Rattle.std.specs.Prelude.{◌≡◌};
ghost use Rattle.affc_limits.specs.Rests as spec;

use crate::forms::{lesser, place_if};

/// How many places more are within a limit, and the least of those that came after.
#[derive(Clone, Copy, Drop)]
pub(crate) struct Rest {
    pub left: usize,
    pub found: Option<usize>,
}

impl Rest {
    pub fn of(left: usize) -> Rest
        ensures { result ≡ spec.rest_of left }
    {
        Rest { left, found: None }
    }

    pub fn next(self, at: usize) -> Rest
        ensures { result ≡ spec.next self at }
    {
        Rest {
            left: self.left.saturating_sub(1),
            found: lesser(self.found, place_if(self.left == 0, at)),
        }
    }
}
