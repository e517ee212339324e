//! Parts of a box.
ghost use Rattle.std.specs.Prelude.{◌≡◌, ◌≤ℤ◌, IfOk};
ghost use Rattle.affc_system.specs.Boxes.{IsBox};
ghost use Rattle.affc_dataflow.specs.Searches.{part_box};

use affc_system::BoxOf;
use std::alloc::{AllocError, Global};

/// The part of a box where the first columns have these values, the next one this range, and the others theirs.
pub(crate) fn part_ranges(
    alloc: Global,
    point: &[i64],
    low: i64,
    high: i64,
    rest: &[(i64, i64)],
) -> Result<BoxOf, AllocError>
    requires ordered { low ≤ℤ high }
    requires rest_ordered { IsBox rest.now }
    ensures { IfOk result (λ r. r ≡ part_box point.now low high rest.now) }
{
    let mut out = BoxOf::new(alloc);
    out.pin(point)?;
    out.push(low, high)?;
    out.append(rest)?;
    Ok(out)
}
