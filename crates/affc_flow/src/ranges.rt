//! Ranges behind ranges.
ghost use Rattle.std.specs.Prelude.{◌≡◌, ◌++◌, IfOk, OnOk};
ghost use Rattle.affc_system.specs.Boxes.{IsBox};

use affc_nest::{Entry, Nest};
use affc_system::BoxOf;
use std::alloc::AllocError;

/// Ranges, and others behind them.
pub fn joined_ranges(first: &BoxOf, second: &BoxOf) -> Result<BoxOf, AllocError>
    ensures { IfOk result (λ r. r ≡ first.now ++ second.now) }
{
    let mut out = first.clone()?;
    out.append(second.ranges())?;
    Ok(out)
}

/// The ranges of the parameters and of a part's coordinates.
pub fn entry_ranges(nest: &Nest, entry: &Entry) -> Result<BoxOf, AllocError>
    ensures { IfOk result (λ r. r ≡ nest.now.params ++ entry.now.ranges) }
{
    joined_ranges(&nest.params, &entry.ranges)
}
