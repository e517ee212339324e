//! How deep a proof is.
ghost use Rattle.std.specs.Prelude.{◌-◌, ◌<◌, ◌≤◌, ◌↔◌, IsTrue};
ghost use Rattle.affc_farkas.specs.Depths.{depth};

use crate::proof::Proof;

/// Whether a proof has at most so many cuts and splits on each way down to a leaf.
///
/// It takes no memory, and its stack goes no deeper than the limit, however deep the proof is.
pub fn depth_at_most(proof: &Proof, limit: u32) -> bool
    ensures { IsTrue result ↔ (depth proof.now ≤ limit) }
{
    match proof {
        Proof::Leaf(_) => true,
        Proof::Cut { rest, .. } => limit > 0 && depth_at_most(rest, limit - 1),
        Proof::Split { low, high, .. } => {
            limit > 0 && depth_at_most(low, limit - 1) && depth_at_most(high, limit - 1)
        }
    }
}
