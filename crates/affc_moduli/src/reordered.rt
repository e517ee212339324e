//! The region of a pair with the columns in another order: the parameters, the element that is shown first, the other one,
//! and then the rest. Its least point is the pair that is to be shown. Nothing is promised of it: what is found so is tested.
ghost use Rattle.std.specs.Prelude.{◌≡◌, ◌+◌, ◌≤◌, IfOk, length};

use crate::forms::with_multiple;
use affc_rows::Form;
use affc_split::maximum::Region;
use affc_system::system::MOST_COLUMNS;
use affc_system::{BoxOf, RowFault, System, interval};
use smallvec::SmallVec;
use std::alloc::{AllocError, Global};

/// The most dimensions of an array.
const MOST_DIMENSIONS: usize = 4;

/// Why there is no such region.
#[derive(Clone, Copy)]
pub enum Lack {
    Room,
    Memory,
}

impl From<AllocError> for Lack {
    ghost use Rattle.std.specs.Prelude.{◌≡◌};
    ghost use Rattle.affc_moduli.specs.declared.reordered.Lack.TheVariants.{Memory};

    ghost from_gives = { λ e l. l ≡ Memory };

    fn from(_e: AllocError) -> Lack {
        Lack::Memory
    }
}

/// The elements' columns: how many columns stand before them, and how many they are.
#[derive(Clone, Copy)]
pub struct Inserted {
    pub after: usize,
    pub count: usize,
}

/// The coefficient of a column where so many columns are put in.
fn entry(row: &Form, inserted: Inserted, column: usize) -> i128 {
    if column < inserted.after {
        row.coefficient(column)
    } else if column - inserted.after < inserted.count {
        0
    } else {
        row.coefficient(column - inserted.count)
    }
}

/// A row over so many columns with the elements' columns put in, less one of them.
fn spread(
    alloc: Global,
    row: &Form,
    columns: usize,
    inserted: Inserted,
    less: Option<usize>,
) -> Result<Form, AllocError>
    requires { columns + inserted.count ≤ 128 }
    ensures { IfOk result (λ f. length f.coefs ≡ columns + inserted.count) }
{
    let mut coefs = SmallVec::new(alloc);
    for j in 0..columns + inserted.count {
        let coef = if less == Some(j) {
            -1
        } else {
            entry(row, inserted, j)
        };
        coefs.push(coef)?;
    }
    Ok(Form {
        coefs,
        constant: row.constant,
    })
}

/// The row with the other sign.
fn negated_row(alloc: Global, row: &Form) -> Result<Form, Lack>
    ensures { IfOk result (λ f. length f.coefs ≡ length row.now.coefs) }
{
    match with_multiple(alloc, row, row, -2)? {
        Some(negated) => Ok(negated),
        None => Err(Lack::Room),
    }
}

/// Adds a row.
fn add(system: &mut System, row: Form) -> Result<(), Lack>
    requires { length row.coefs ≡ system.old.columns }
    ensures { system.new.columns ≡ system.old.columns }
{
    match system.push(row) {
        Ok(()) => Ok(()),
        Err(RowFault::Memory) => Err(Lack::Memory),
        Err(RowFault::Range) => Err(Lack::Room),
        Err(RowFault::Full) => Err(Lack::Room),
    }
}

/// Adds rows over so many columns, with the elements' columns put in.
fn add_rows(
    alloc: Global,
    system: &mut System,
    rows: &[Form],
    columns: usize,
    inserted: Inserted,
) -> Result<(), Lack>
    requires few { columns + inserted.count ≤ 128 }
    requires width { system.old.columns ≡ columns + inserted.count }
    ensures { system.new.columns ≡ system.old.columns }
{
    for row in rows {
        let longer = spread(alloc, row, columns, inserted, None)?;
        add(system, longer)?;
    }
    Ok(())
}

/// Adds two rows, so that a column of an element is its subscript.
fn add_subscript(
    alloc: Global,
    system: &mut System,
    form: &Form,
    column: usize,
    columns: usize,
    inserted: Inserted,
) -> Result<(), Lack>
    requires few { columns + inserted.count ≤ 128 }
    requires width { system.old.columns ≡ columns + inserted.count }
    ensures { system.new.columns ≡ system.old.columns }
{
    let least = spread(alloc, form, columns, inserted, Some(column))?;
    let most = negated_row(alloc, &least)?;
    add(system, least)?;
    add(system, most)
}

/// Adds the rows of an element's subscripts, whose columns begin at the given one.
fn add_element(
    alloc: Global,
    system: &mut System,
    forms: &[Form],
    first: usize,
    columns: usize,
    inserted: Inserted,
) -> Result<(), Lack>
    requires few { columns + inserted.count ≤ 128 }
    requires first { first ≤ 256 }
    requires dimensions { length forms.now ≤ 4 }
    requires width { system.old.columns ≡ columns + inserted.count }
    ensures { system.new.columns ≡ system.old.columns }
{
    for (j, form) in forms.iter().enumerate() {
        add_subscript(alloc, system, form, first + j, columns, inserted)?;
    }
    Ok(())
}

/// Adds a range.
fn add_range(ranges: &mut BoxOf, low: i64, high: i64) -> Result<(), Lack> {
    if low > high {
        return Err(Lack::Room);
    }
    ranges.push(low, high)?;
    Ok(())
}

/// Adds the range of a subscript.
fn add_subscript_range(ranges: &mut BoxOf, form: &Form, region: &Region) -> Result<(), Lack> {
    if form.coefs.len() != region.ranges.ranges().len() {
        return Err(Lack::Room);
    }
    match interval(form, &region.ranges) {
        Ok((low, high)) if low.unsigned_abs() <= 1 << 60 && high.unsigned_abs() <= 1 << 60 => {
            add_range(ranges, low as i64, high as i64)
        }
        _ => Err(Lack::Room),
    }
}

/// The ranges: the parameters as they are at a point, the subscripts, and the rest.
fn ranges_of(
    alloc: Global,
    region: &Region,
    point: &[i64],
    first: &[Form],
    second: &[Form],
    after: usize,
) -> Result<BoxOf, Lack> {
    let mut ranges = BoxOf::new(alloc);
    for p in point.iter().take(after) {
        add_range(&mut ranges, *p, *p)?;
    }
    for form in first {
        add_subscript_range(&mut ranges, form, region)?;
    }
    for form in second {
        add_subscript_range(&mut ranges, form, region)?;
    }
    for range in region.ranges.ranges().iter().skip(after) {
        add_range(&mut ranges, range.0, range.1)?;
    }
    Ok(ranges)
}

/// The system: the region's rows, a form that is to be at least 0, and the subscripts in their columns.
fn system_of(
    alloc: Global,
    region: &Region,
    form: &Form,
    first: &[Form],
    second: &[Form],
    after: usize,
) -> Result<System, Lack> {
    let columns = region.system.columns() as usize;
    if after > columns || first.len() > MOST_DIMENSIONS || second.len() > MOST_DIMENSIONS {
        return Err(Lack::Room);
    }
    let count = first.len() + second.len();
    if columns + count > MOST_COLUMNS as usize {
        return Err(Lack::Room);
    }
    let inserted = Inserted { after, count };
    let mut system = System::new(alloc, (columns + count) as u32);
    add_rows(alloc, &mut system, region.system.rows(), columns, inserted)?;
    let reaching = spread(alloc, form, columns, inserted, None)?;
    add(&mut system, reaching)?;
    add_element(alloc, &mut system, first, after, columns, inserted)?;
    let next = after + first.len();
    add_element(alloc, &mut system, second, next, columns, inserted)?;
    Ok(system)
}

/// The region of the points at which a form is at least 0 and the parameters are as at a point, with the columns in the order
/// in which a pair is shown.
pub fn reordered(
    alloc: Global,
    region: &Region,
    form: &Form,
    point: &[i64],
    first: &[Form],
    second: &[Form],
    after: usize,
) -> Result<(System, BoxOf), Lack> {
    let system = system_of(alloc, region, form, first, second, after)?;
    let ranges = ranges_of(alloc, region, point, first, second, after)?;
    Ok((system, ranges))
}

/// A point without the elements' columns.
pub fn restored(alloc: Global, point: &[i64], inserted: Inserted) -> Result<Vec<i64>, AllocError> {
    let mut rest = Vec::new(alloc);
    for x in point.iter().take(inserted.after) {
        rest.push(*x)?;
    }
    for x in point.iter().skip(inserted.after).skip(inserted.count) {
        rest.push(*x)?;
    }
    Ok(rest)
}
