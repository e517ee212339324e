//! Divisions that drafts want. Nothing is promised of them.
//!
//! Each form has room for so many quotients behind the columns of the load, in the order in which the divisions were first
//! wanted.
ghost use Rattle.std.specs.Prelude.{◌≤ℤ◌, pos, IfOk, IfSome};

use crate::solved::are_opposite;
use affc_flow::asking::store_for;
use affc_flow::load::Load;
use affc_flow::questions::Unasked;
use affc_nest::Division;
use affc_rows::Form;
use affc_rows::vocabulary::gcd;
use smallvec::SmallVec;
use std::alloc::{AllocError, Global};

/// How many quotients there is room for.
pub const ROOM: u32 = 24;

/// The greatest magnitude of a constant and of a divisor.
const MOST_CONSTANT: u128 = 1 << 40;

const MOST_BY: u128 = 1 << 20;

/// Whether some subscript has a coefficient that isn't 0, 1 or -1.
fn has_stride(subs: &[Form]) -> bool {
    subs.iter().any(|f| f.coefs.as_slice().iter().any(|c| c.unsigned_abs() > 1))
}

/// How many quotients there should be room for.
pub(crate) fn room(load: &Load<'_>) -> u32 {
    for writer in load.nest.entries.as_slice() {
        if let Some(store) = store_for(writer, load.access.array.0) {
            if has_stride(store.subs.as_slice()) {
                return ROOM;
            }
        }
    }
    0
}

/// The number of a division, which is added where it isn't there yet and there is room.
fn number_of(
    form: Form,
    by: i64,
    divisions: &mut Vec<Division>,
) -> Result<Option<u32>, AllocError> {
    let there = divisions.iter().position(|d| d.by == by
        && d.form.constant == form.constant
        && d.form.coefs.as_slice() == form.coefs.as_slice());
    if let Some(at) = there {
        return Ok(u32::try_from(at).ok());
    }
    let at = divisions.len();
    if at >= ROOM as usize {
        return Ok(None);
    }
    match divisions.push(Division { form, by }) {
        Ok(()) => Ok(Some(at as u32)),
        Err(_) => Err(AllocError),
    }
}

/// The column of a division's quotient, over so many columns, of which the quotients begin at one.
fn column_of(
    alloc: Global,
    columns: u32,
    first: u32,
    form: Form,
    by: i64,
    divisions: &mut Vec<Division>,
) -> Result<Option<Form>, AllocError> {
    if columns < first.saturating_add(ROOM) {
        return Ok(None);
    }
    let Some(at) = number_of(form, by, divisions)? else {
        return Ok(None);
    };
    let place = first.saturating_add(at);
    let column = Form::column(alloc, columns, place)?;
    Ok(Some(column))
}

/// The quotient of a form where it is a multiple, over so many columns, of which the quotients begin at one. The division is
/// that of the form without its constant, so that forms that differ by it alone share one.
pub(crate) fn quotient(
    alloc: Global,
    columns: u32,
    first: u32,
    form: Form,
    by: u128,
    divisions: &mut Vec<Division>,
) -> Result<Option<Form>, Unasked> {
    if by < 2 || by > MOST_BY || form.constant.unsigned_abs() > MOST_CONSTANT {
        return Ok(None);
    }
    let Form { coefs, constant } = form;
    let constant = -(-constant).div_euclid(by as i128);
    let whole = Form { coefs, constant: 0 };
    if let Some(made) = whole_part(alloc, &whole, by as i128)? {
        let Form {
            coefs,
            constant: _none,
        } = made;
        return Ok(Some(Form { coefs, constant }));
    }
    match column_of(alloc, columns, first, whole, by as i64, divisions)? {
        None => Ok(None),
        Some(column) => {
            let Form {
                coefs,
                constant: _none,
            } = column;
            Ok(Some(Form { coefs, constant }))
        }
    }
}

// ---- Rounded down.

/// A form of each number's quotient, rounded down.
fn quotients(alloc: Global, form: &Form, by: i128) -> Result<Form, AllocError>
    requires { pos 1 ≤ℤ by }
{
    let mut coefs = SmallVec::new(alloc);
    for c in form.coefs.as_slice() {
        coefs.push(c.div_euclid(by))?;
    }
    let constant = form.constant.div_euclid(by);
    Ok(Form { coefs, constant })
}

/// A form of what these leave.
fn remainders(alloc: Global, form: &Form, by: i128) -> Result<Form, AllocError>
    requires { pos 1 ≤ℤ by }
{
    let mut coefs = SmallVec::new(alloc);
    for c in form.coefs.as_slice() {
        coefs.push(c.rem_euclid(by))?;
    }
    let constant = form.constant.rem_euclid(by);
    Ok(Form { coefs, constant })
}

/// The greatest number that divides a number and each coefficient of a form.
fn common_divisor(form: &Form, by: u128) -> u128 {
    let mut divisor = by;
    for c in form.coefs.as_slice() {
        divisor = gcd(divisor, c.unsigned_abs());
    }
    divisor
}

/// A form and a number by which it is divided.
#[derive(Drop)]
struct Least {
    form: Form,
    by: i64,
}

/// A form's part in least terms; its constant is rounded down.
fn least_terms(alloc: Global, form: &Form, by: u128) -> Result<Option<Least>, AllocError>
    ensures { IfOk result (λ o. IfSome o (λ l. pos 1 ≤ℤ l.by)) }
{
    let divisor = common_divisor(form, by);
    if divisor < 1 || divisor > MOST_BY {
        return Ok(None);
    }
    let by = by / divisor;
    if by < 1 || by > MOST_BY {
        return Ok(None);
    }
    let form = quotients(alloc, form, divisor as i128)?;
    Ok(Some(Least {
        form,
        by: by as i64,
    }))
}

/// The quotient of a form, rounded down, over so many columns, of which the quotients begin at one. It is in least terms, and
/// whole multiples are taken out of the division.
pub(crate) fn floored(
    alloc: Global,
    columns: u32,
    first: u32,
    form: &Form,
    by: u128,
    divisions: &mut Vec<Division>,
) -> Result<Option<Form>, Unasked> {
    match least_terms(alloc, form, by)? {
        Some(least) => least_floored(alloc, columns, first, &least, divisions),
        None => Ok(None),
    }
}

/// The quotient of a form in least terms, rounded down.
fn least_floored(
    alloc: Global,
    columns: u32,
    first: u32,
    least: &Least,
    divisions: &mut Vec<Division>,
) -> Result<Option<Form>, Unasked>
    requires { pos 1 ≤ℤ least.now.by }
{
    let by = i128::from(least.by);
    if least.by == 1 {
        return Ok(Some(quotients(alloc, &least.form, by)?));
    }
    let rest = remainders(alloc, &least.form, by)?;
    match column_of(alloc, columns, first, rest, least.by, divisions)? {
        Some(column) => quotients_with(alloc, least, &column),
        None => Ok(None),
    }
}

/// The quotients of a form's coefficients, with a column added, if both have the same columns.
fn quotients_with(alloc: Global, least: &Least, column: &Form) -> Result<Option<Form>, Unasked>
    requires { pos 1 ≤ℤ least.now.by }
{
    let whole = quotients(alloc, &least.form, i128::from(least.by))?;
    if column.coefs.len() != whole.coefs.len() {
        return Ok(None);
    }
    Ok(Some(whole.scale_add(alloc, 1, column, 1)?))
}

// ---- Without a division.

/// The greatest number by which a form is divided.
const MOST_EXACT: u128 = 64;

/// A number divided, if it is a multiple.
fn part(c: i128, by: i128) -> Option<i128> {
    if by < 1 || c.rem_euclid(by) != 0 {
        return None;
    }
    Some(c.div_euclid(by))
}

/// A form divided, if each coefficient is a multiple; its constant is rounded down.
fn whole_part(alloc: Global, form: &Form, by: i128) -> Result<Option<Form>, AllocError> {
    if by < 1 {
        return Ok(None);
    }
    let mut coefs = SmallVec::new(alloc);
    for c in form.coefs.as_slice() {
        let Some(made) = part(*c, by) else {
            return Ok(None);
        };
        coefs.push(made)?;
    }
    let constant = form.constant.div_euclid(by);
    Ok(Some(Form { coefs, constant }))
}

/// A form that is divided with so many times an equality of these rows, or fewer.
fn by_equality(
    alloc: Global,
    form: &Form,
    by: i128,
    rows: &[Form],
    row: &Form,
    times: u32,
) -> Result<Option<Form>, Unasked> {
    if times == 0 || row.coefs.len() != form.coefs.len() {
        return Ok(None);
    }
    if !rows.iter().any(|r| are_opposite(r, row)) {
        return Ok(None);
    }
    let sum = form.scale_add(alloc, 1, row, i128::from(times))?;
    match whole_part(alloc, &sum, by)? {
        Some(made) => Ok(Some(made)),
        None => by_equality(alloc, form, by, rows, row, times - 1),
    }
}

/// A form divided, where each coefficient is a multiple, if need be with an equality of these rows.
pub(crate) fn divided(
    alloc: Global,
    form: Form,
    by: u128,
    rows: &[Form],
) -> Result<Option<Form>, Unasked> {
    if by == 1 {
        return Ok(Some(form));
    }
    if by > MOST_EXACT {
        return Ok(None);
    }
    let (by, most) = (by as i128, by as u32);
    if let Some(made) = whole_part(alloc, &form, by)? {
        return Ok(Some(made));
    }
    for row in rows {
        if let Some(made) = by_equality(alloc, &form, by, rows, row, most)? {
            return Ok(Some(made));
        }
    }
    Ok(None)
}
