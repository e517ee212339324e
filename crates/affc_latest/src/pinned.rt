//! Ranges of one number, round others.
ghost use Rattle.std.specs.Prelude.{◌≡◌, ◌++◌, map, IfOk, OnOk};
ghost use Rattle.affc_latest.specs.Stores.{beside_box};

use affc_system::BoxOf;
use std::alloc::{AllocError, Global};

/// The ranges of another part's coordinates between the values of the parameters and of the load's coordinates.
#[tactic(auto, using(affc_trace::proofs::EndedReads::append_assoc))]
pub(crate) fn beside_ranges(
    alloc: Global,
    p: &[i64],
    ranges: &BoxOf,
    iterators: &[i64],
) -> Result<BoxOf, AllocError>
    ensures { IfOk result (λ r. r ≡ beside_box p.now ranges.now iterators.now) }
{
    let mut out = BoxOf::new(alloc);
    out.pin(p)?;
    out.append(ranges.ranges())?;
    out.pin(iterators)?;
    Ok(out)
}
