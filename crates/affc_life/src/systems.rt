//! Rows as a system, where they keep its limits.
ghost use Rattle.std.specs.Prelude.{◌≡◌, ◌⊎◌, ◌∷◌, [], ◌+◌, ◌<◌, length, IfOk, IfErr, OnOk};
ghost use Rattle.std.specs.List.{All};
ghost use Rattle.affc_rows.specs.Forms.{HaveColumns};
ghost use Rattle.affc_system.specs.Systems.{FitsRow};
ghost use Rattle.affc_nest.specs.Domains.{with_rows};
ghost use Rattle.affc_life.specs.Sizes.{IsLarge};

use crate::fault::ClashFault;
use affc_rows::Form;
use affc_system::{RowFault, System};
use std::alloc::Global;

/// Adds a row, if it keeps the limits.
fn add_row(system: &mut System, row: Form) -> Result<(), ClashFault>
    requires { length row.coefs ≡ system.old.columns }
    ensures ok { OnOk result (system.new ≡ with_rows system.old (row ∷ [])) }
    ensures large { IfErr result (λ e. e ≡ ClashFault.Large → (1024 < length system.old.rows + 1) ⊎ (¬ (FitsRow row))) }
{
    match system.push(row) {
        Ok(()) => Ok(()),
        Err(RowFault::Range) => Err(ClashFault::Large),
        Err(RowFault::Full) => Err(ClashFault::Large),
        Err(RowFault::Memory) => Err(ClashFault::Memory),
    }
}

/// Adds copies of rows, if they keep the limits.
fn add_limited(system: &mut System, rows: &[Form]) -> Result<(), ClashFault>
    requires { HaveColumns system.old.columns rows.now }
    ensures ok { OnOk result (system.new ≡ with_rows system.old rows.now) }
    ensures large { IfErr result (λ e. e ≡ ClashFault.Large → (1024 < length system.old.rows + length rows.now) ⊎ (¬ (All FitsRow rows.now))) }
{
    match rows {
        [] => Ok(()),
        [row, rest @ ..] => {
            let copy = row.clone()?;
            add_row(system, copy)?;
            add_limited(system, rest)
        }
    }
}

/// The system with these rows, if they keep the limits.
pub fn system_of(alloc: Global, columns: u32, rows: &[Form]) -> Result<System, ClashFault>
    requires { HaveColumns columns rows.now }
    ensures ok { IfOk result (λ s. s ≡ record { columns = columns; rows = rows.now }) }
    ensures fits { IfOk result (λ s. ¬ (IsLarge s)) }
    ensures large { IfErr result (λ e. e ≡ ClashFault.Large → IsLarge (record { columns = columns; rows = rows.now })) }
{
    if columns > 128 {
        return Err(ClashFault::Large);
    }
    let mut system = System::new(alloc, columns);
    add_limited(&mut system, rows)?;
    let _kept = system.rows();
    Ok(system)
}
