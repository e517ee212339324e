//! The rows of an end that say something new.
ghost use Rattle.std.specs.Prelude.{◌≡◌, ◌+◌, ◌<◌, ◌≤◌, ◌++◌, length, remove, ℤ, List, IfOk};
ghost use Rattle.std.specs.List.{All};
ghost use Rattle.affc_system.specs.Systems.{Meets};
ghost use Rattle.affc_loopends.specs.Sizes.{IsPrintable};
ghost use Rattle.affc_loopends.specs.Steps.{AreLeft};

use crate::bounds::Answer;
use crate::questions::{ask, without};
use affc_rows::Form;
use affc_rows::vocabulary::add_copies;
use std::alloc::{AllocError, Global};

/// What elimination says of a row beside others.
#[derive(Drop)]
enum Judged {
    Implied,
    Stays,
    /// It comes to a limit.
    Open,
}

/// Whether elimination says that the other rows and those beside them imply the one at a place, at whole numbers.
fn judge(
    alloc: Global,
    columns: u32,
    rows: &[Form],
    place: usize,
    beside: &[Form],
) -> Result<Judged, AllocError>
    requires columns { columns ≤ 128 }
    requires few { length rows.now ≤ 8 }
    requires few_beside { length beside.now ≤ 120 }
    requires place { place < length rows.now }
    requires rows { All (IsPrintable columns) rows.now }
    requires beside { All (IsPrintable columns) beside.now }
    ensures { IfOk result (λ j. j ≡ Judged.Implied → (whole : List ℤ) → length whole ≡ columns → All (Meets whole) beside.now → All (Meets whole) (remove rows.now place) → All (Meets whole) rows.now) }
{
    let mut others = without(rows, place, alloc)?;
    add_copies(beside, &mut others)?;
    match ask(alloc, columns, others.as_slice(), &rows[place])? {
        Answer::Implied => Ok(Judged::Implied),
        Answer::Apart => Ok(Judged::Stays),
        _ => Ok(Judged::Open),
    }
}

/// The rows that are left so far.
#[derive(Drop)]
struct Left {
    rows: Vec<Form>,
    /// Whether the next ones may be asked for too: not where a question came to a limit, since the others would cost as much.
    goes_on: bool,
}

/// The rows without the one at a place, if the others and those beside them imply it.
fn without_implied(
    alloc: Global,
    columns: u32,
    left: Left,
    place: usize,
    beside: &[Form],
) -> Result<Left, AllocError>
    requires columns { columns ≤ 128 }
    requires few { length left.rows.items ≤ 8 }
    requires few_beside { length beside.now ≤ 120 }
    requires place { place < length left.rows.items }
    requires rows { All (IsPrintable columns) left.rows.items }
    requires beside { All (IsPrintable columns) beside.now }
    ensures left { IfOk result (λ v. AreLeft columns beside.now left.rows.items v.rows.items) }
    ensures one_less { IfOk result (λ v. length left.rows.items ≤ length v.rows.items + 1) }
{
    let Left { mut rows, goes_on } = left;
    if !goes_on {
        return Ok(Left { rows, goes_on });
    }
    match judge(alloc, columns, rows.as_slice(), place, beside)? {
        Judged::Implied => {
            rows.remove(place);
            Ok(Left { rows, goes_on })
        }
        Judged::Stays => Ok(Left { rows, goes_on }),
        Judged::Open => Ok(Left {
            rows,
            goes_on: false,
        }),
    }
}

/// The rows without those that the ones that are left and those beside them imply, each asked for once, from the last to the first.
fn left_of(
    alloc: Global,
    columns: u32,
    kept: Vec<Form>,
    beside: &[Form],
) -> Result<Vec<Form>, AllocError>
    requires columns { columns ≤ 128 }
    requires few { length kept.items ≤ 8 }
    requires few_beside { length beside.now ≤ 120 }
    requires kept { All (IsPrintable columns) kept.items }
    requires beside { All (IsPrintable columns) beside.now }
    ensures { IfOk result (λ v. AreLeft columns beside.now kept.items v.items) }
{
    let count = kept.len();
    let mut left = Left {
        rows: kept,
        goes_on: true,
    };
    for place in (0..count).rev() {
        left = without_implied(alloc, columns, left, place, beside)?;
    }
    Ok(left.rows)
}

/// The rows without those that the ones that are left and those beside them imply, flat ones and those of the other end.
fn left_beside(
    alloc: Global,
    columns: u32,
    kept: Vec<Form>,
    flat: &[Form],
    other: &[Form],
) -> Result<Vec<Form>, AllocError>
    requires columns { columns ≤ 128 }
    requires few { length kept.items ≤ 8 }
    requires few_flat { length flat.now ≤ 100 }
    requires few_other { length other.now ≤ 8 }
    requires kept { All (IsPrintable columns) kept.items }
    requires flat { All (IsPrintable columns) flat.now }
    requires other { All (IsPrintable columns) other.now }
    ensures { IfOk result (λ v. AreLeft columns (flat.now ++ other.now) kept.items v.items) }
{
    let mut beside = Vec::new(alloc);
    add_copies(flat, &mut beside)?;
    add_copies(other, &mut beside)?;
    left_of(alloc, columns, kept, beside.as_slice())
}

/// The rows of both ends without those that the ones that are left and the flat ones imply: first the lower ones, beside all upper ones.
pub(crate) fn left_of_both(
    alloc: Global,
    columns: u32,
    lower: Vec<Form>,
    upper: Vec<Form>,
    flat: &[Form],
) -> Result<(Vec<Form>, Vec<Form>), AllocError>
    requires columns { columns ≤ 128 }
    requires few_lower { length lower.items ≤ 8 }
    requires few_upper { length upper.items ≤ 8 }
    requires few_flat { length flat.now ≤ 100 }
    requires lower { All (IsPrintable columns) lower.items }
    requires upper { All (IsPrintable columns) upper.items }
    requires flat { All (IsPrintable columns) flat.now }
    ensures lower { IfOk result (λ ends. AreLeft columns (flat.now ++ upper.items) lower.items ends.0.items) }
    ensures upper { IfOk result (λ ends. AreLeft columns (flat.now ++ ends.0.items) upper.items ends.1.items) }
{
    let low = left_beside(alloc, columns, lower, flat, upper.as_slice())?;
    let high = left_beside(alloc, columns, upper, flat, low.as_slice())?;
    Ok((low, high))
}
