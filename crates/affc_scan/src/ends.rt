//! The ends of loops, by rows.
ghost use Rattle.std.specs.Prelude.{◌≡◌, ◌≤◌, ◌<◌, ◌+◌, ◌^◌, ◌++◌, length, map, unsigned_abs, IfOk};
ghost use Rattle.std.specs.List.{All};
ghost use Rattle.affc_ast.specs.declared.tree.Ix.TheVariants as trees;
ghost use Rattle.affc_loops.specs.Ends as specs;
ghost use Rattle.affc_loops.specs.Limits.{IsSmall};
ghost use Rattle.affc_scan.specs.EndRows.{IsEndRow, HasEndRows, HaveEndRows};
ghost use Rattle.affc_loopends.specs.scanned.Scanned.{sides_of};
ghost use Rattle.affc_loops.specs.terms.Sizes.{IsModest};

use affc_ast::Items;
use affc_ast::tree::Ix;
use affc_loopends::Bounds;
use affc_loops::terms::trees::{ceild, floord, max, min};
use affc_loops::terms::{form_ix, number};
use affc_rows::Form;
use smallvec::SmallVec;
use std::alloc::{AllocError, Global};

/// The row without its last column.
#[tactic(auto, using(crate::proofs::EndSteps::rest_row))]
fn rest_of(alloc: Global, column: u32, row: &Form) -> Result<Form, AllocError>
    requires { IsEndRow column row.now }
    ensures value { IfOk result (λ f. f ≡ specs.rest_of column row.now) }
    ensures modest { IfOk result IsModest }
    ensures width { IfOk result (λ f. length f.coefs ≡ column) }
{
    let coefs = row.coefs.as_slice();
    let coefs = SmallVec::from_slice(alloc, &coefs[..column as usize])?;
    Ok(Form {
        coefs,
        constant: row.constant,
    })
}

/// The coefficient in the last column.
fn last_of(column: u32, row: &Form) -> i64
    requires { IsEndRow column row.now }
    ensures value { result ≡ specs.last_of column row.now }
    ensures small { unsigned_abs result ≤ 2 ^ 40 }
{
    row.coefs.as_slice()[column as usize] as i64
}

/// The quotient, rounded up; by 1 it is the expression itself.
#[tactic(auto, using(crate::proofs::EndSteps::up_by_one, crate::proofs::EndSteps::up_by_more))]
fn rounded_up(alloc: Global, e: Ix, by: i64) -> Result<Ix, AllocError>
    ensures { IfOk result (λ x. x ≡ specs.rounded_up e by) }
{
    if by == 1 { Ok(e) } else { ceild(alloc, e, by) }
}

/// The quotient, rounded down; by 1 it is the expression itself.
#[tactic(auto, using(crate::proofs::EndSteps::down_by_one, crate::proofs::EndSteps::down_by_more))]
fn rounded_down(alloc: Global, e: Ix, by: i64) -> Result<Ix, AllocError>
    ensures { IfOk result (λ x. x ≡ specs.rounded_down e by) }
{
    if by == 1 { Ok(e) } else { floord(alloc, e, by) }
}

/// The opposite of the row without its last column.
#[tactic(auto, using(crate::proofs::EndSteps::modest_opposite, crate::proofs::EndSteps::opposite_modest, crate::proofs::EndSteps::opposite_long))]
fn opposite_rest_of(alloc: Global, column: u32, row: &Form) -> Result<Form, AllocError>
    requires { IsEndRow column row.now }
    ensures value { IfOk result (λ f. f ≡ specs.opposite (specs.rest_of column row.now)) }
    ensures modest { IfOk result IsModest }
    ensures width { IfOk result (λ f. length f.coefs ≡ column) }
{
    let rest = rest_of(alloc, column, row)?;
    rest.opposite(alloc)
}

/// The least number that a row of the lower end allows.
fn least_by(alloc: Global, first: u32, column: u32, row: &Form) -> Result<Ix, AllocError>
    requires few { first ≤ column }
    requires seen { column ≤ 512 }
    requires row { IsEndRow column row.now }
    ensures { IfOk result (λ x. x ≡ specs.least_by first column row.now) }
{
    let rest = opposite_rest_of(alloc, column, row)?;
    let dividend = form_ix(alloc, first, first, &rest)?;
    rounded_up(alloc, dividend, last_of(column, row))
}

/// The greatest number that a row of the upper end allows.
fn greatest_by(alloc: Global, first: u32, column: u32, row: &Form) -> Result<Ix, AllocError>
    requires few { first ≤ column }
    requires seen { column ≤ 512 }
    requires row { IsEndRow column row.now }
    ensures { IfOk result (λ x. x ≡ specs.greatest_by first column row.now) }
{
    let rest = rest_of(alloc, column, row)?;
    let dividend = form_ix(alloc, first, first, &rest)?;
    rounded_down(alloc, dividend, -last_of(column, row))
}

/// The greater of an expression and what each of these rows of the lower end allows.
fn greatest_of(
    alloc: Global,
    first: u32,
    column: u32,
    made: Ix,
    rows: &[Form],
) -> Result<Ix, AllocError>
    requires few { first ≤ column }
    requires seen { column ≤ 512 }
    requires rows { All (IsEndRow column) rows.now }
    ensures { IfOk result (λ x. x ≡ specs.joined trees.Max made (map (specs.least_by first column) rows.now)) }
{
    match rows {
        [] => Ok(made),
        [row, rest @ ..] => {
            let low = least_by(alloc, first, column, row)?;
            let made = max(alloc, made, low)?;
            greatest_of(alloc, first, column, made, rest)
        }
    }
}

/// The lesser of an expression and what each of these rows of the upper end allows.
fn least_of(
    alloc: Global,
    first: u32,
    column: u32,
    made: Ix,
    rows: &[Form],
) -> Result<Ix, AllocError>
    requires few { first ≤ column }
    requires seen { column ≤ 512 }
    requires rows { All (IsEndRow column) rows.now }
    ensures { IfOk result (λ x. x ≡ specs.joined trees.Min made (map (specs.greatest_by first column) rows.now)) }
{
    match rows {
        [] => Ok(made),
        [row, rest @ ..] => {
            let high = greatest_by(alloc, first, column, row)?;
            let made = min(alloc, made, high)?;
            least_of(alloc, first, column, made, rest)
        }
    }
}

/// The lower end by rows and the low end of the range.
fn lower_end(
    alloc: Global,
    first: u32,
    column: u32,
    rows: &[Form],
    low: i64,
) -> Result<Ix, AllocError>
    requires few { first ≤ column }
    requires seen { column ≤ 512 }
    requires rows { All (IsEndRow column) rows.now }
    requires small { unsigned_abs low < 2 ^ 62 }
    ensures { IfOk result (λ x. x ≡ specs.lower_end first column rows.now low) }
{
    let last = number(alloc, low)?;
    match rows {
        [] => Ok(last),
        [row, rest @ ..] => {
            let made = least_by(alloc, first, column, row)?;
            let made = greatest_of(alloc, first, column, made, rest)?;
            max(alloc, made, last)
        }
    }
}

/// The upper end by rows and the high end of the range.
fn upper_end(
    alloc: Global,
    first: u32,
    column: u32,
    rows: &[Form],
    high: i64,
) -> Result<Ix, AllocError>
    requires few { first ≤ column }
    requires seen { column ≤ 512 }
    requires rows { All (IsEndRow column) rows.now }
    requires small { unsigned_abs high < 2 ^ 62 }
    ensures { IfOk result (λ x. x ≡ specs.upper_end first column rows.now high) }
{
    let last = number(alloc, high)?;
    match rows {
        [] => Ok(last),
        [row, rest @ ..] => {
            let made = greatest_by(alloc, first, column, row)?;
            let made = least_of(alloc, first, column, made, rest)?;
            min(alloc, made, last)
        }
    }
}

/// Both ends of a component.
fn ends_by(
    alloc: Global,
    first: u32,
    column: u32,
    lower: &[Form],
    upper: &[Form],
    range: (i64, i64),
) -> Result<(Ix, Ix), AllocError>
    requires few { first ≤ column }
    requires seen { column ≤ 512 }
    requires lower { All (IsEndRow column) lower.now }
    requires upper { All (IsEndRow column) upper.now }
    requires small { IsSmall range }
    ensures { IfOk result (λ e. e ≡ (specs.lower_end first column lower.now range.0, specs.upper_end first column upper.now range.1)) }
{
    let low = lower_end(alloc, first, column, lower, range.0)?;
    let high = upper_end(alloc, first, column, upper, range.1)?;
    Ok((low, high))
}

/// Both ends of a component with these bounds; without rows they are those of its range.
fn component_ends(
    alloc: Global,
    first: u32,
    column: u32,
    bounds: &Bounds,
    range: (i64, i64),
) -> Result<(Ix, Ix), AllocError>
    requires few { first ≤ column }
    requires seen { column ≤ 512 }
    requires rows { HasEndRows column bounds.now }
    requires small { IsSmall range }
    ensures { IfOk result (λ e. e ≡ (specs.lower_end first column (sides_of bounds.now).0 range.0, specs.upper_end first column (sides_of bounds.now).1 range.1)) }
{
    match bounds {
        Bounds::Between { lower, upper } => {
            let (lower, upper) = (lower.as_slice(), upper.as_slice());
            ends_by(alloc, first, column, lower, upper, range)
        }
        Bounds::Loose { why: _ } => ends_by(alloc, first, column, &[], &[], range),
    }
}

/// Adds the ends of a statement's components from a column on.
pub(crate) fn ends_from(
    alloc: Global,
    first: u32,
    column: u32,
    bounds: &[Bounds],
    ranges: &[(i64, i64)],
    made: Items<(Ix, Ix)>,
) -> Result<Items<(Ix, Ix)>, AllocError>
    requires few { first ≤ column }
    requires seen { column + length bounds.now ≤ 512 }
    requires rows { HaveEndRows column bounds.now }
    requires small { All IsSmall ranges.now }
    ensures { IfOk result (λ x. x ≡ made ++ specs.ends_from first column (map sides_of bounds.now) ranges.now) }
{
    let mut made = made;
    match bounds {
        [] => Ok(made),
        [bound, more_bounds @ ..] => match ranges {
            [] => Ok(made),
            [range, more_ranges @ ..] => {
                made.push(component_ends(alloc, first, column, bound, *range)?)?;
                ends_from(alloc, first, column + 1, more_bounds, more_ranges, made)
            }
        },
    }
}

/// The lesser lower end and the greater upper end of a component.
fn wider_ends(alloc: Global, ends: (Ix, Ix), others: (Ix, Ix)) -> Result<(Ix, Ix), AllocError>
    ensures { IfOk result (λ e. e ≡ (trees.Min ends.0 others.0, trees.Max ends.1 others.1)) }
{
    let (low, high) = ends;
    let (other_low, other_high) = others;
    let low = min(alloc, low, other_low)?;
    let high = max(alloc, high, other_high)?;
    Ok((low, high))
}

/// The lesser lower end and the greater upper end of each component.
pub(crate) fn both_ends(
    alloc: Global,
    ends: Items<(Ix, Ix)>,
    others: Items<(Ix, Ix)>,
) -> Result<Items<(Ix, Ix)>, AllocError>
    requires { length ends ≡ length others }
    ensures { IfOk result (λ x. x ≡ specs.both_ends ends others) }
{
    let mut outer = ends;
    let mut outer_others = others;
    let Some(last) = outer.pop() else {
        return Ok(outer);
    };
    let Some(other) = outer_others.pop() else {
        return Ok(outer_others);
    };
    let both = wider_ends(alloc, last, other)?;
    let mut made = both_ends(alloc, outer, outer_others)?;
    made.push(both)?;
    Ok(made)
}
