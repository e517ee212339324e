//! The rows of a store and of a load of one element.
ghost use Rattle.std.specs.Prelude.{◌≡◌, ◌+◌, ◌≤◌, length, map, IfOk};
ghost use Rattle.affc_trace.specs.Law.{IsIn};
ghost use Rattle.affc_nest.specs.Asked.{IsNest};
ghost use Rattle.affc_nest.specs.Domains.{with_rows};
ghost use Rattle.affc_order.specs.Spread.{spread};
ghost use Rattle.affc_order.specs.Systems.{pair_columns};
ghost use Rattle.affc_order.specs.Placed.{IsOrder};
ghost use Rattle.affc_latest.specs.Stores.{store_rows};

use affc_nest::questions::add_rows;
use affc_nest::{Access, Entry, Nest};
use affc_rows::Form;
use affc_sched::systems::{add_equal, add_spread_rows};
use affc_system::System;
use std::alloc::{AllocError, Global};

/// A domain over so many columns more.
fn first_domain(
    alloc: Global,
    domain: &System,
    params: u32,
    outer: u32,
    inner: u32,
) -> Result<System, AllocError>
    requires columns { (params + outer) + inner ≤ 128 }
    requires first { domain.now.columns ≡ params + outer }
    requires few { length domain.now.rows ≤ 134 }
    ensures value { IfOk result (λ s. s ≡ record { columns = (params + outer) + inner; rows = map (spread params 0 inner) domain.now.rows }) }
{
    let mut system = System::new(alloc, params + outer + inner);
    add_spread_rows(alloc, &mut system, domain.rows(), params, 0, inner)?;
    Ok(system)
}

/// Over the parameters, the coordinates of one part and those of another: the first's domain, and that its store is of
/// what the second's load reads.
pub(crate) fn store_rows(
    alloc: Global,
    nest: &Nest,
    writer: &Entry,
    reader: &Entry,
    store: &Access,
    load: &Access,
) -> Result<System, AllocError>
    requires nest { IsNest nest.now }
    requires first { IsIn writer.now nest.now.entries }
    requires second { IsIn reader.now nest.now.entries }
    requires from { IsIn store.now writer.now.accesses }
    requires to { IsIn load.now reader.now.accesses }
    requires few { length store.now.subs ≤ 4 }
    ensures value { IfOk result (λ s. s ≡ record { columns = pair_columns nest.now writer.now.part reader.now.part; rows = store_rows nest.now writer.now reader.now store.now load.now }) }
    ensures few { IfOk result (λ s. length s.rows ≤ 900) }
{
    let params = nest.params.ranges().len() as u32;
    let outer = writer.coordinates() as u32;
    let inner = reader.coordinates() as u32;
    let mut system = first_domain(alloc, &writer.domain, params, outer, inner)?;
    let (ys, xs) = (store.subs.as_slice(), load.subs.as_slice());
    add_equal(alloc, &mut system, ys, xs, params, outer, inner)?;
    Ok(system)
}

/// The rows and those of an order behind.
pub(crate) fn with_order(pair: &System, order: &[Form]) -> Result<System, AllocError>
    requires pair { length pair.now.rows ≤ 950 }
    requires order { IsOrder pair.now.columns order.now }
    ensures { IfOk result (λ s. s ≡ with_rows pair.now order.now) }
{
    let mut system = pair.clone()?;
    add_rows(&mut system, order)?;
    Ok(system)
}
