//! The slices of the rows, as regions.
ghost use Rattle.std.specs.Prelude.{◌≡◌, ℕ, ◌+◌, ◌<◌, ◌≤◌, ◌∷◌, ◌++◌, [], Some, slice_get, IfOk, OnOk, OnErr, length};
ghost use Rattle.std.specs.List.{All};
ghost use Rattle.affc_rows.specs.Forms.{Affine};
ghost use Rattle.affc_system.specs.Systems.{IsRow};
ghost use Rattle.affc_system.specs.Pairs.{IsBoxed};
ghost use Rattle.affc_split.specs.declared.maximum.region.Region.{Region as Region'};
ghost use Rattle.affc_moduli.specs.Slices.{AreCopies, IsNarrowed, AreNarrowed};

use affc_rows::Form;
use affc_split::maximum::Region;
use affc_system::{PairSystem, RowFault, System};
use std::alloc::{AllocError, Global};

/// The region of a system.
pub fn region_of(pairs: &PairSystem) -> Result<Region, AllocError>
    requires { IsBoxed pairs.now.system pairs.now.ranges }
    ensures system { IfOk result (λ r. r.system ≡ pairs.now.system) }
    ensures ranges { IfOk result (λ r. r.ranges ≡ pairs.now.ranges) }
{
    let system = pairs.system.clone()?;
    let ranges = pairs.ranges.clone()?;
    Ok(Region { system, ranges })
}

/// The regions of the systems.
pub fn copies(alloc: Global, pairs: &[PairSystem]) -> Result<Vec<Region>, AllocError>
    requires { All (λ s. IsBoxed s.system s.ranges) pairs.now }
    ensures { IfOk result (λ rs. AreCopies pairs.now rs.items) }
{
    let mut regions = Vec::new(alloc);
    for system in pairs {
        let region = region_of(system)?;
        regions.push(region)?;
    }
    Ok(regions)
}

/// Adds a row that keeps the limits to a system that has room.
pub fn add(system: &mut System, row: Form) -> Result<(), AllocError>
    requires row { IsRow system.old.columns row }
    requires room { length system.old.rows < 1024 }
    ensures added { OnOk result (system.new ≡ record system.old { rows = system.old.rows ++ row ∷ [] }) }
    ensures columns { system.new.columns ≡ system.old.columns }
    ensures err { OnErr result (system.new ≡ system.old) }
{
    match system.push(row) {
        Ok(()) => Ok(()),
        Err(RowFault::Range) => unreachable!(),
        Err(RowFault::Full) => unreachable!(),
        Err(RowFault::Memory) => Err(AllocError),
    }
}

/// Adds two rows to a region.
fn narrow(region: &mut Region, f: &Form, g: &Form) -> Result<(), AllocError>
    requires f { IsRow region.old.system.columns f.now }
    requires g { IsRow region.old.system.columns g.now }
    requires room { length region.old.system.rows + 2 ≤ 1024 }
    ensures { OnOk result (IsNarrowed region.old f.now g.now region.new) }
{
    add(&mut region.system, f.clone()?)?;
    add(&mut region.system, g.clone()?)
}

/// Adds two rows to each region.
pub fn narrow_all(regions: &mut [Region], fs: &[Form], gs: &[Form]) -> Result<(), AllocError>
    requires fs_each { length fs.now ≡ length regions.old }
    requires gs_each { length gs.now ≡ length regions.old }
    requires fs { (i : ℕ) (r : Region') (f : Affine) → slice_get regions.old i ≡ Some r → slice_get fs.now i ≡ Some f → IsRow r.system.columns f }
    requires gs { (i : ℕ) (r : Region') (f : Affine) → slice_get regions.old i ≡ Some r → slice_get gs.now i ≡ Some f → IsRow r.system.columns f }
    requires room { All (λ r. length r.system.rows + 2 ≤ 1024) regions.old }
    ensures { OnOk result (AreNarrowed regions.old fs.now gs.now regions.new) }
{
    for i in 0..regions.len() {
        let region = &mut regions[i];
        narrow(region, &fs[i], &gs[i])?;
    }
    Ok(())
}
