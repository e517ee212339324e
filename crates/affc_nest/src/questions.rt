//! Questions on extents and on accesses, as systems: each has an integer point exactly where the extent or the
//! subscript is out of its limits at some p of the context.
ghost use Rattle.std.specs.Prelude.{◌≡◌, ◌+◌, ◌^◌, ◌<◌, ◌≤◌, ◌++◌, length, unsigned_abs, IfOk, OnOk};
ghost use Rattle.std.specs.List.{All};
ghost use Rattle.affc_system.specs.Systems.{IsRow};
ghost use Rattle.affc_trace.specs.Law.{IsIn};
ghost use Rattle.affc_nest.specs.Asked.{IsNest, IsExtent, IsSubscript};
ghost use Rattle.affc_nest.specs.Domains.{gap_row, number_form, box_rows, with_rows};
ghost use Rattle.affc_nest.specs.Parts.{coordinates};
ghost use Rattle.affc_nest.specs.Questions.{with_row, extent_question, low_question, widened, high_question};
ghost use Rattle.affc_nest.specs.Sides.{IsSide, NearRanges};

use crate::domains::add_box;
use crate::nest::{Entry, Nest};
use crate::rows::add_gap;
use affc_rows::Form;
use affc_system::{BoxOf, System};
use std::alloc::{AllocError, Global};

/// Adds copies of rows.
pub fn add_rows(system: &mut System, rows: &[Form]) -> Result<(), AllocError>
    requires fit { All (IsRow system.old.columns) rows.now }
    requires room { length system.old.rows + length rows.now ≤ 1024 }
    ensures { OnOk result (system.new ≡ with_rows system.old rows.now) }
{
    match rows {
        [] => Ok(()),
        [row, rest @ ..] => {
            system.add(row.clone()?)?;
            add_rows(system, rest)
        }
    }
}

/// The parameters in their ranges, and the context's rows.
fn whole_context(alloc: Global, params: &BoxOf, context: &System) -> Result<System, AllocError>
    requires near { NearRanges params.now }
    requires few { length params.now ≤ 4 }
    requires room { length context.now.rows ≤ 32 }
    ensures value { IfOk result (λ s. s ≡ record { columns = context.now.columns; rows = box_rows context.now.columns 0 params.now ++ context.now.rows }) }
{
    let mut system = System::new(alloc, context.columns());
    add_box(alloc, &mut system, 0, params.ranges())?;
    add_rows(&mut system, context.rows())?;
    Ok(system)
}

/// The system with the row that the form is at most this number.
fn at_most(
    alloc: Global,
    mut system: System,
    form: &Form,
    bound: i128,
) -> Result<System, AllocError>
    requires side { IsSide system.columns form.now }
    requires bound { unsigned_abs bound ≤ 2 ^ 32 }
    requires room { length system.rows < 1024 }
    ensures { IfOk result (λ s. s ≡ with_row system (gap_row form.now (number_form system.columns bound) 0)) }
{
    let end = Form::number(alloc, system.columns(), bound)?;
    add_gap(alloc, &mut system, form, &end, 0)?;
    Ok(system)
}

/// The domain with the row that a subscript is at least an extent.
fn past(
    alloc: Global,
    domain: &System,
    loops: u32,
    sub: &Form,
    extent: &Form,
) -> Result<System, AllocError>
    requires side { IsSide domain.now.columns sub.now }
    requires extent { IsSide domain.now.columns (widened loops extent.now) }
    requires room { length domain.now.rows < 1024 }
    ensures { IfOk result (λ s. s ≡ high_question domain.now loops sub.now extent.now) }
{
    let mut system = domain.clone()?;
    let end = extent.widened(alloc, loops)?;
    add_gap(alloc, &mut system, &end, sub, 0)?;
    Ok(system)
}

/// The question whether an extent is at most 0 somewhere in the context.
pub fn extent_at_most_zero(alloc: Global, nest: &Nest, extent: &Form) -> Result<System, AllocError>
    requires nest { IsNest nest.now }
    requires extent { IsExtent nest.now extent.now }
    ensures { IfOk result (λ s. s ≡ extent_question nest.now extent.now) }
{
    let system = whole_context(alloc, &nest.params, &nest.context)?;
    at_most(alloc, system, extent, 0)
}

/// The question whether a subscript is below 0 at some instance.
pub fn subscript_below_zero(
    alloc: Global,
    nest: &Nest,
    entry: &Entry,
    sub: &Form,
) -> Result<System, AllocError>
    requires nest { IsNest nest.now }
    requires entry { IsIn entry.now nest.now.entries }
    requires sub { IsSubscript entry.now sub.now }
    ensures { IfOk result (λ s. s ≡ low_question entry.now.domain sub.now) }
{
    let domain = entry.domain.clone()?;
    at_most(alloc, domain, sub, -1)
}

/// The question whether a subscript is at least an extent at some instance.
pub fn subscript_past_extent(
    alloc: Global,
    nest: &Nest,
    entry: &Entry,
    sub: &Form,
    extent: &Form,
) -> Result<System, AllocError>
    requires nest { IsNest nest.now }
    requires entry { IsIn entry.now nest.now.entries }
    requires sub { IsSubscript entry.now sub.now }
    requires extent { IsExtent nest.now extent.now }
    ensures { IfOk result (λ s. s ≡ high_question entry.now.domain (coordinates entry.now) sub.now extent.now) }
{
    let coordinates = entry.coordinates() as u32;
    past(alloc, &entry.domain, coordinates, sub, extent)
}
