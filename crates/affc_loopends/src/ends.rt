//! The ends of a column, by projection.
ghost use Rattle.std.specs.Prelude.{◌≡◌, ℕ, suc, ◌+◌, ◌*◌, ◌^◌, ◌<◌, ◌≤◌, ◌↔◌, ◌++◌, ◌∷◌, [], length, remove, slice_index_or, ℤ, List, pos, IfOk, IfErr, IfSome, IfNone, IsTrue, false, unsigned_abs};
ghost use Rattle.std.specs.List.{All};
ghost use Rattle.affc_rows.specs.Forms.{Affine};
ghost use Rattle.affc_system.specs.Boxes.{box_magnitude, reach};
ghost use Rattle.affc_system.specs.Systems.{Meets, Rows};
ghost use Rattle.affc_farkas.specs.Multiples.{entry_of};
ghost use Rattle.affc_farkas.specs.Rational.{RationalPoint};
ghost use Rattle.affc_loopends.specs.Ends.{IsProjectedRow};
ghost use Rattle.affc_loopends.specs.Sizes.{IsModest, IsLarge, IsPrintable};
ghost use Rattle.affc_loopends.specs.Steps.{IsStop, AreEnough, BoundsEnd, AreOfEnd, AreFlat, IsWholeEnd, AreBothEnds};
ghost use Rattle.affc_loopends.specs.Whys.{AreOfOneEnd, NoneIsImplied, below_zero, IsBounds};

use crate::bounds::{Answer, Bounds, Stop, Why};
use crate::left::left_of_both;
use crate::questions::{ask, without};
use affc_eliminate::project::{Projected, project};
use affc_rows::Form;
use affc_system::{BoxOf, System};
use std::alloc::{AllocError, Global};

/// The most rows of an end.
const MOST_ROWS: usize = 8;

/// The most rows beside those of an end that are asked with them.
const MOST_FLAT: usize = 12;

/// The greatest sum of the magnitudes of a row's terms over the box.
const MOST_MAGNITUDE: u128 = 1 << 62;

/// The greatest magnitude of a coefficient of a row.
const MOST_COEFFICIENT: u128 = 1 << 40;

/// The greatest magnitude of a constant of a row.
const MOST_CONSTANT: u128 = 1 << 59;

/// The greatest magnitude of a term over a range.
fn term(c: i128, range: (i64, i64)) -> u128
    requires { unsigned_abs c ≤ 2 ^ 40 }
    ensures value { result ≡ unsigned_abs c * reach range }
    ensures small { result ≤ 2 ^ 103 }
{
    let reach = range.0.unsigned_abs().max(range.1.unsigned_abs());
    c.unsigned_abs() * u128::from(reach)
}

/// The sum of the magnitudes of a row's terms over the box.
fn magnitude(coefs: &[i128], ranges: &[(i64, i64)]) -> u128
    requires small { All (λ c. unsigned_abs c ≤ 2 ^ 40) coefs.now }
    requires few { length coefs.now ≤ 128 }
    ensures value { result ≡ box_magnitude coefs.now ranges.now }
    ensures small { result ≤ length coefs.now * 2 ^ 103 }
{
    match coefs {
        [] => 0,
        [c, later_coefs @ ..] => match ranges {
            [] => 0,
            [range, later_ranges @ ..] => term(*c, *range) + magnitude(later_coefs, later_ranges),
        },
    }
}

/// Whether each coefficient is within the limit.
fn are_modest(coefs: &[i128]) -> bool
    ensures yes { IsTrue result → All (λ c. unsigned_abs c ≤ 2 ^ 40) coefs.now }
    ensures no { result ≡ false → (j : ℕ) × (2 ^ 40 < unsigned_abs (slice_index_or coefs.now j (pos 0))) }
{
    match coefs {
        [] => true,
        [c, rest @ ..] => {
            if c.unsigned_abs() > MOST_COEFFICIENT {
                return false;
            }
            are_modest(rest)
        }
    }
}

/// Whether the row keeps the limits of rows that are printed.
fn is_modest(row: &Form, ranges: &[(i64, i64)]) -> bool
    requires { length row.now.coefs ≤ 128 }
    ensures yes { IsTrue result → IsModest ranges.now row.now }
    ensures no { result ≡ false → IsLarge ranges.now row.now }
{
    let constant = row.constant.unsigned_abs();
    if constant > MOST_CONSTANT {
        return false;
    }
    let coefs = row.coefs.as_slice();
    if !are_modest(coefs) {
        return false;
    }
    magnitude(coefs, ranges) + constant <= MOST_MAGNITUDE
}

/// The place of the first row that passes them.
fn large_among(rows: &[Form], ranges: &[(i64, i64)]) -> Option<usize>
    requires { All (λ f. length f.coefs ≤ 128) rows.now }
    ensures some { IfSome result (λ i. (i < length rows.now) × ((d : Affine) → IsLarge ranges.now (slice_index_or rows.now i d))) }
    ensures none { IfNone result (All (IsModest ranges.now) rows.now) }
{
    for (i, row) in rows.iter().enumerate() {
        if !is_modest(row, ranges) {
            return Some(i);
        }
    }
    None
}

/// Whether the row bounds this end of the column.
fn bounds(row: &Form, column: usize, lower: bool) -> bool
    requires { column < length row.now.coefs }
    ensures { IsTrue result ↔ BoundsEnd lower column row.now }
{
    let coefficient = row.coefs.as_slice()[column];
    if lower {
        coefficient > 0
    } else {
        coefficient < 0
    }
}

/// The rows that bound this end of the column.
fn of_end(alloc: Global, rows: &[Form], column: usize, lower: bool) -> Result<Vec<Form>, AllocError>
    requires { All (λ f. column < length f.coefs) rows.now }
    ensures { IfOk result (λ v. AreOfEnd lower column rows.now v.items) }
{
    let mut chosen = Vec::new(alloc);
    for row in rows {
        if bounds(row, column, lower) {
            let copy = row.clone()?;
            chosen.push(copy)?;
        }
    }
    Ok(chosen)
}

/// Whether the row is modest and doesn't look at the column.
fn is_flat(row: &Form, column: usize, ranges: &[(i64, i64)]) -> bool
    requires inside { column < length row.now.coefs }
    requires few { length row.now.coefs ≤ 128 }
    ensures flat { IsTrue result → entry_of row.now column ≡ pos 0 }
    ensures modest { IsTrue result → IsModest ranges.now row.now }
{
    let coefficient = row.coefs.as_slice()[column];
    coefficient == 0 && is_modest(row, ranges)
}

/// The first of the modest rows that don't look at the column.
fn flat_among(
    alloc: Global,
    rows: &[Form],
    column: usize,
    ranges: &[(i64, i64)],
) -> Result<Vec<Form>, AllocError>
    requires inside { All (λ f. column < length f.coefs) rows.now }
    requires few { All (λ f. length f.coefs ≤ 128) rows.now }
    ensures { IfOk result (λ v. AreFlat column ranges.now rows.now v.items) }
{
    let mut flat = Vec::new(alloc);
    for row in rows {
        if flat.len() < MOST_FLAT && is_flat(row, column, ranges) {
            let copy = row.clone()?;
            flat.push(copy)?;
        }
    }
    Ok(flat)
}

/// Whether the other rows imply the one at a place, at whole numbers.
fn is_implied(alloc: Global, columns: u32, rows: &[Form], place: usize) -> Result<bool, Stop>
    requires columns { columns ≤ 128 }
    requires nine { length rows.now ≡ 9 }
    requires place { place < length rows.now }
    requires printable { All (IsPrintable columns) rows.now }
    ensures yes { IfOk result (λ b. IsTrue b → (whole : List ℤ) → length whole ≡ columns → All (Meets whole) (remove rows.now place) → All (Meets whole) rows.now) }
    ensures no { IfOk result (λ b. b ≡ false → (d : Affine) → RationalPoint columns (remove rows.now place ++ below_zero (slice_index_or rows.now place d) ∷ [])) }
    ensures stop { IfErr result (λ e. (system : Rows) (column : ℕ) (ranges : List (ℤ × ℤ)) → columns ≡ suc column → AreOfOneEnd system column rows.now → IsStop system column ranges e) }
{
    let Ok(others) = without(rows, place, alloc) else {
        return Err(Stop::Memory);
    };
    match ask(alloc, columns, others.as_slice(), &rows[place]) {
        Ok(Answer::Implied) => Ok(true),
        Ok(Answer::Apart) => Ok(false),
        Ok(Answer::Made { asked, made }) => Err(Stop::Loose {
            why: Why::Made {
                asked: Some(asked),
                made,
            },
        }),
        Ok(Answer::Wide { asked, made, next }) => Err(Stop::Loose {
            why: Why::Wide {
                asked: Some(asked),
                made,
                next,
            },
        }),
        Err(_) => Err(Stop::Memory),
    }
}

/// The place of the first row that the others imply.
fn first_implied(alloc: Global, columns: u32, rows: &[Form]) -> Result<Option<usize>, Stop>
    requires columns { columns ≤ 128 }
    requires nine { length rows.now ≡ 9 }
    requires printable { All (IsPrintable columns) rows.now }
    ensures some { IfOk result (λ o. IfSome o (λ i. (i < length rows.now) × ((whole : List ℤ) → length whole ≡ columns → All (Meets whole) (remove rows.now i) → All (Meets whole) rows.now))) }
    ensures none { IfOk result (λ o. IfNone o (NoneIsImplied columns rows.now)) }
    ensures stop { IfErr result (λ e. (system : Rows) (column : ℕ) (ranges : List (ℤ × ℤ)) → columns ≡ suc column → AreOfOneEnd system column rows.now → IsStop system column ranges e) }
{
    for place in 0..rows.len() {
        if is_implied(alloc, columns, rows, place)? {
            return Ok(Some(place));
        }
    }
    Ok(None)
}

/// Enough of these rows and one more.
fn with_row(alloc: Global, columns: u32, kept: Vec<Form>, row: Form) -> Result<Vec<Form>, Stop>
    requires columns { columns ≤ 128 }
    requires few { length kept.items ≤ 8 }
    requires kept { All (IsPrintable columns) kept.items }
    requires row { IsPrintable columns row }
    ensures ok { IfOk result (λ v. AreEnough columns (kept.items ++ row ∷ []) v.items) }
    ensures stop { IfErr result (λ e. (system : Rows) (column : ℕ) (ranges : List (ℤ × ℤ)) → columns ≡ suc column → AreOfOneEnd system column (kept.items ++ row ∷ []) → IsStop system column ranges e) }
{
    let mut rows = kept;
    let Ok(()) = rows.push(row) else {
        return Err(Stop::Memory);
    };
    if rows.len() <= MOST_ROWS {
        return Ok(rows);
    }
    match first_implied(alloc, columns, rows.as_slice()) {
        Ok(Some(place)) => {
            rows.remove(place);
            Ok(rows)
        }
        Ok(None) => Err(Stop::Loose {
            why: Why::Nine { rows },
        }),
        Err(stop) => Err(stop),
    }
}

/// Enough of these rows.
fn narrowed(alloc: Global, columns: u32, rows: &[Form]) -> Result<Vec<Form>, Stop>
    requires columns { columns ≤ 128 }
    requires printable { All (IsPrintable columns) rows.now }
    ensures ok { IfOk result (λ v. AreEnough columns rows.now v.items) }
    ensures stop { IfErr result (λ e. (system : Rows) (column : ℕ) (ranges : List (ℤ × ℤ)) → columns ≡ suc column → AreOfOneEnd system column rows.now → IsStop system column ranges e) }
{
    let mut kept = Vec::new(alloc);
    for row in rows {
        let Ok(copy) = row.clone() else {
            return Err(Stop::Memory);
        };
        kept = match with_row(alloc, columns, kept, copy) {
            Ok(next) => next,
            Err(stop) => return Err(stop),
        };
    }
    Ok(kept)
}

/// Enough modest rows of one end of the column, among rows over the columns up to it.
fn enough_of(
    alloc: Global,
    columns: u32,
    lower: bool,
    rows: &[Form],
    ranges: &[(i64, i64)],
) -> Result<Vec<Form>, Stop>
    requires some { 1 ≤ columns }
    requires columns { columns ≤ 128 }
    requires widths { All (λ f. length f.coefs ≡ columns) rows.now }
    ensures ok { IfOk result (λ v. (column : ℕ) → columns ≡ suc column → IsWholeEnd lower column ranges.now rows.now v.items) }
    ensures stop { IfErr result (λ e. (system : Rows) (column : ℕ) → columns ≡ suc column → All (IsProjectedRow system (suc column)) rows.now → IsStop system column ranges.now e) }
{
    let Ok(chosen) = of_end(alloc, rows, (columns - 1) as usize, lower) else {
        return Err(Stop::Memory);
    };
    if let Some(place) = large_among(chosen.as_slice(), ranges) {
        let Ok(row) = chosen[place].clone() else {
            return Err(Stop::Memory);
        };
        return Err(Stop::Loose {
            why: Why::Large { row },
        });
    }
    narrowed(alloc, columns, chosen.as_slice())
}

/// Both ends of the column, among rows over the columns up to it: of enough rows those that the others of both ends and the flat ones don't imply.
fn both_ends(
    alloc: Global,
    columns: u32,
    rows: &[Form],
    ranges: &[(i64, i64)],
) -> Result<(Vec<Form>, Vec<Form>), Stop>
    requires some { 1 ≤ columns }
    requires columns { columns ≤ 128 }
    requires widths { All (λ f. length f.coefs ≡ columns) rows.now }
    ensures ok { IfOk result (λ ends. (column : ℕ) → columns ≡ suc column → AreBothEnds column ranges.now rows.now ends.0.items ends.1.items) }
    ensures stop { IfErr result (λ e. (system : Rows) (column : ℕ) → columns ≡ suc column → All (IsProjectedRow system (suc column)) rows.now → IsStop system column ranges.now e) }
{
    let lower = enough_of(alloc, columns, true, rows, ranges)?;
    let upper = enough_of(alloc, columns, false, rows, ranges)?;
    let Ok(flat) = flat_among(alloc, rows, (columns - 1) as usize, ranges) else {
        return Err(Stop::Memory);
    };
    let Ok(ends) = left_of_both(alloc, columns, lower, upper, flat.as_slice()) else {
        return Err(Stop::Memory);
    };
    Ok(ends)
}

/// The ends of a column of a system whose columns have these ranges: rows that are projected onto the columns up to it.
pub fn component_ends(
    alloc: Global,
    system: &System,
    column: u32,
    ranges: &BoxOf,
) -> Result<Bounds, AllocError>
    requires inside { column < system.now.columns }
    requires width { length ranges.now ≡ system.now.columns }
    ensures { IfOk result (IsBounds system.now column ranges.now) }
{
    let _few = system.columns();
    let _fit = system.rows();
    match project(alloc, system, column + 1)? {
        Projected::Rows { rows, made: _ } => {
            match both_ends(alloc, column + 1, rows.as_slice(), ranges.ranges()) {
                Ok((lower, upper)) => Ok(Bounds::Between { lower, upper }),
                Err(Stop::Loose { why }) => Ok(Bounds::Loose { why }),
                Err(Stop::Memory) => Err(AllocError),
            }
        }
        Projected::TooMany { made } => Ok(Bounds::Loose {
            why: Why::Made { asked: None, made },
        }),
        Projected::TooWide { made, next } => Ok(Bounds::Loose {
            why: Why::Wide {
                asked: None,
                made,
                next,
            },
        }),
    }
}
