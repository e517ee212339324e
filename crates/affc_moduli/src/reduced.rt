//! Regions that are seen to have no point, with one row in place of theirs.
ghost use Rattle.std.specs.Prelude.{◌≡◌, List, ℤ, ◌≤◌, ◌∷◌, [], IfOk, OnOk, length};
ghost use Rattle.affc_system.specs.Systems.{IsRow};
ghost use Rattle.affc_split.specs.maximum.Regions.{InRegion};
ghost use Rattle.affc_moduli.specs.Reduced.{IsReduced, AreReduced, below_zero};

use crate::bounds::is_void;
use affc_rows::Form;
use affc_split::maximum::Region;
use affc_system::System;
use std::alloc::{AllocError, Global};

/// A row that is -1 everywhere.
fn below_zero(alloc: Global, columns: u32) -> Result<Form, AllocError>
    ensures form { IfOk result (λ f. f ≡ below_zero columns) }
    ensures row { IfOk result (λ f. IsRow columns f) }
{
    Form::number(alloc, columns, -1)
}

/// The system of one row that is -1 everywhere.
fn nowhere(alloc: Global, columns: u32) -> Result<System, AllocError>
    requires { columns ≤ 128 }
    ensures { IfOk result (λ s. s ≡ record { columns = columns; rows = below_zero columns ∷ [] }) }
{
    let row = below_zero(alloc, columns)?;
    let mut system = System::new(alloc, columns);
    system.add(row)?;
    Ok(system)
}

/// Leaves one row to a region without a point.
fn empty(alloc: Global, region: &mut Region) -> Result<(), AllocError>
    requires void { (z : List ℤ) → InRegion region.old z → ⊥ }
    requires some { 1 ≤ length region.old.system.rows }
    ensures { OnOk result (IsReduced region.old region.new) }
{
    let system = nowhere(alloc, region.system.columns())?;
    region.system = system;
    Ok(())
}

/// Leaves one row to a region that has several, where it is seen that there is no point.
fn reduce(alloc: Global, region: &mut Region) -> Result<(), AllocError>
    ensures { OnOk result (IsReduced region.old region.new) }
{
    if region.system.rows().len() <= 1 || !is_void(region) {
        return Ok(());
    }
    empty(alloc, region)
}

/// Leaves one row to each region that has several, where it is seen that there is no point.
pub fn reduce_all(alloc: Global, regions: &mut [Region]) -> Result<(), AllocError>
    ensures { OnOk result (AreReduced regions.old regions.new) }
{
    for i in 0..regions.len() {
        let region = &mut regions[i];
        reduce(alloc, region)?;
    }
    Ok(())
}
