//! What is behind a division, and its tree.
ghost use Rattle.std.specs.Prelude.{◌≡◌, ◌-◌, ◌^◌, ◌≤◌, ◌≤ℤ◌, ◌++◌, ◌∷◌, [], pos, length, IfOk, IfSome, Some};
ghost use Rattle.affc_ast.specs.Index.{floor_of};
ghost use Rattle.affc_quast.specs.Limits.{narrow, FitsForm};
ghost use Rattle.affc_quast.specs.Paths.{IsNear};
ghost use Rattle.affc_quast.specs.Seen.{seen};
ghost use Rattle.affc_quast.specs.Trees.{Div};
ghost use Rattle.affc_dataflow.specs.Guesses.{CoversOn, IsQuotientRange, divided_path};

use crate::guess::Depth;
use crate::path::{Place, push_rows, push_spread};
use affc_flow::load::Load;
use affc_flow::questions::Unasked;
use affc_nest::Division;
use affc_nest::divisions::add_division;
use affc_quast::Quast;
use affc_rows::Form;
use affc_system::{BoxOf, System, interval};
use sqlite_items::Items;
use std::alloc::{AllocError, Global};

/// The greatest magnitude of a quotient.
const MOST: i128 = 1 << 60;

// ---- Behind a division.

/// The path behind a division.
fn path_behind(alloc: Global, path: &System, form: &Form, by: i64) -> Result<System, Unasked>
    requires wide { length form.now.coefs ≡ path.now.columns }
    requires fits { FitsForm narrow form.now }
    ensures { IfOk result (λ s. s ≡ divided_path path.now form.now by) }
{
    let columns = path.columns();
    if columns > 127 {
        return Err(Unasked::Large);
    }
    let mut made = Items::new(alloc);
    add_division(alloc, columns, form, by, &mut made)?;
    let mut system = System::new(alloc, columns + 1);
    push_spread(alloc, &mut system, path.rows(), 0, 0, 1)?;
    push_rows(&mut system, made.as_slice())?;
    Ok(system)
}

/// The least and the greatest quotient of numbers between two, if they are within the limits.
fn quotient_ends(low: i128, high: i128, by: i64) -> Option<(i64, i64)>
    requires by { pos 1 ≤ℤ by }
    ensures first { IfSome result (λ r. r.0 ≡ floor_of low by) }
    ensures last { IfSome result (λ r. r.1 ≡ floor_of high by) }
    ensures near { IfSome result (λ r. IsNear r.0 × IsNear r.1) }
    ensures ordered { IfSome result (λ r. r.0 ≤ℤ r.1) }
{
    let first = low.div_euclid(i128::from(by));
    let last = high.div_euclid(i128::from(by));
    if first < -MOST || first > MOST {
        return None;
    }
    if last < first || last > MOST {
        return None;
    }
    Some((first as i64, last as i64))
}

/// A range of a form's quotient, if it is within the limits.
fn quotient_range(form: &Form, by: i64, ranges: &BoxOf) -> Option<(i64, i64)>
    requires by { pos 1 ≤ℤ by }
    ensures holds { IfSome result (IsQuotientRange ranges.now form.now by) }
    ensures ordered { IfSome result (λ r. r.0 ≤ℤ r.1) }
{
    if ranges.ranges().len() != form.coefs.len() {
        return None;
    }
    let Ok((low, high)) = interval(form, ranges) else {
        return None;
    };
    quotient_ends(low, high, by)
}

/// The rows behind a division, the ranges of their columns, and the last of these, which is the quotient's.
#[derive(Drop)]
pub(crate) struct Behind {
    pub(crate) path: System,
    pub(crate) ranges: BoxOf,
    pub(crate) range: (i64, i64),
}

/// What is behind a division.
pub(crate) fn rows_behind(
    alloc: Global,
    place: &Place<'_>,
    form: &Form,
    by: i64,
) -> Result<Option<Behind>, AllocError>
    requires wide { length form.now.coefs ≡ place.now.path.now.columns }
    requires fits { FitsForm narrow form.now }
    requires by { pos 1 ≤ℤ by }
    ensures path { IfOk result (λ o. IfSome o (λ b. b.path ≡ divided_path place.now.path.now form.now by)) }
    ensures ranges { IfOk result (λ o. IfSome o (λ b. b.ranges ≡ place.now.ranges.now ++ b.range ∷ [])) }
    ensures range { IfOk result (λ o. IfSome o (λ b. IsQuotientRange place.now.ranges.now form.now by b.range)) }
{
    let Some(range) = quotient_range(form, by, place.ranges) else {
        return Ok(None);
    };
    match path_behind(alloc, place.path, form, by) {
        Ok(path) => {
            let mut ranges = place.ranges.clone()?;
            ranges.push(range.0, range.1)?;
            Ok(Some(Behind {
                path,
                ranges,
                range,
            }))
        }
        Err(Unasked::Large) => Ok(None),
        Err(Unasked::Memory) => Err(AllocError),
    }
}

/// The tree of a division.
fn division_of(alloc: Global, division: &Division, rest: Quast) -> Result<Quast, AllocError>
    ensures { IfOk result (λ t. seen t ≡ Div division.now.form division.now.by (seen rest)) }
{
    let form = division.form.clone()?;
    let by = division.by;
    let Ok(rest) = Box::new(alloc, rest) else {
        return Err(AllocError);
    };
    Ok(Quast::Div { form, by, rest })
}

/// The tree of a division, where that below it is right.
pub(crate) fn above(
    alloc: Global,
    load: &Load<'_>,
    place: &Place<'_>,
    division: &Division,
    depth: Depth,
    rest: Quast,
    below: &Behind,
) -> Result<Quast, AllocError>
    requires some { 1 ≤ depth.left }
    requires more { 1 ≤ depth.divisions }
    requires by { pos 1 ≤ℤ division.now.by }
    requires small { division.now.by ≤ℤ pos (2 ^ 20) }
    requires fits { FitsForm narrow division.now.form }
    requires wide { length division.now.form.coefs ≡ place.now.path.now.columns }
    requires path { below.now.path ≡ divided_path place.now.path.now division.now.form division.now.by }
    requires ranges { below.now.ranges ≡ place.now.ranges.now ++ below.now.range ∷ [] }
    requires range { IsQuotientRange place.now.ranges.now division.now.form division.now.by below.now.range }
    requires right { CoversOn load.now.nest.now load.now.reader.now load.now.access.now below.now.path below.now.ranges (depth.left - 1) (depth.divisions - 1) (seen rest) }
    ensures right { IfOk result (λ t. CoversOn load.now.nest.now load.now.reader.now load.now.access.now place.now.path.now place.now.ranges.now depth.left depth.divisions (seen t)) }
{
    let _rows = place.path.rows();
    division_of(alloc, division, rest)
}
