//! The ends of all components of a statement's time.
ghost use Rattle.std.specs.Prelude.{◌≡◌, ◌+◌, ◌≤◌, length, IfOk};
ghost use Rattle.affc_loopends.specs.Sizes.{IsTimed};
ghost use Rattle.affc_loopends.specs.TimeRows.{time_system};
ghost use Rattle.affc_loopends.specs.Whys.{AreBoundsFrom};

use crate::bounds::Bounds;
use crate::ends::component_ends;
use crate::system::time_system;
use affc_nest::{Entry, Nest};
use affc_system::{BoxOf, System};
use affc_trace::TimeMap;
use std::alloc::{AllocError, Global};

/// The ends of each column of a system from one on.
fn ends_from(
    alloc: Global,
    system: &System,
    first: u32,
    ranges: &BoxOf,
) -> Result<Vec<Bounds>, AllocError>
    requires inside { first ≤ system.now.columns }
    requires width { length ranges.now ≡ system.now.columns }
    ensures each { IfOk result (λ v. AreBoundsFrom system.now first ranges.now v.items) }
    ensures all { IfOk result (λ v. first + length v.items ≡ system.now.columns) }
{
    let mut all = Vec::new(alloc);
    for column in first..system.columns() {
        let bounds = component_ends(alloc, system, column, ranges)?;
        all.push(bounds)?;
    }
    Ok(all)
}

/// The ends of each component of a statement's time, where the parameters, and then the components of all statements' times, have
/// these ranges.
pub fn statement_ends(
    alloc: Global,
    nest: &Nest,
    entry: &Entry,
    map: &TimeMap,
    ranges: &BoxOf,
) -> Result<Vec<Bounds>, AllocError>
    requires timed { IsTimed nest.now entry.now map.now }
    requires width { length ranges.now ≡ length nest.now.params + length map.now.forms }
    ensures each { IfOk result (λ v. AreBoundsFrom (time_system (length nest.now.params) entry.now.domain.rows map.now.forms map.now.inverse) (length nest.now.params) ranges.now v.items) }
    ensures all { IfOk result (λ v. length v.items ≡ length map.now.forms) }
{
    let system = time_system(alloc, nest, entry, map)?;
    let params = nest.params.ranges().len() as u32;
    let all = ends_from(alloc, &system, params, ranges)?;
    Ok(all)
}
