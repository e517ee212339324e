//! Limits that a text passes.

use affc_grammar::fault::LimitName;

/// A limit that is passed, and the number of the token at which it is.
#[derive(Clone, Copy)]
pub struct Passed {
    pub at: usize,
    pub which: LimitName,
}
