//! What looking at proofs came to.
use affc_farkas::Proof;

/// What looking at proofs of a block's questions came to.
#[derive(Clone, Copy, Drop)]
pub enum Step<'p> {
    /// Each question has a proof, and these are left.
    Passed(&'p [Proof]),
    /// The question with this number, from 0, is the first without one.
    Failed(usize),
}
