//! Equations over the columns of a load and the iterators of a store behind them, solved. Nothing is promised of this.

use crate::strides::{divided, quotient};
use affc_flow::load::Load;
use affc_flow::questions::{Unasked, count};
use affc_nest::Division;
use affc_order::columns::spread;
use affc_rows::Form;
use sqlite_items::Items;
use std::alloc::{AllocError, Global};

/// The most rows that are kept while columns are taken out of them.
const MOST_ROWS: usize = 96;

// ---- Forms.

/// Whether a form is the other one's negative.
pub(crate) fn are_opposite(a: &Form, b: &Form) -> bool {
    let (first, second) = (a.coefs.as_slice(), b.coefs.as_slice());
    a.constant.checked_neg() == Some(b.constant)
        && first.len() == second.len()
        && first
            .iter()
            .zip(second)
            .all(|(c, d)| c.checked_neg() == Some(*d))
}

/// So many times a form and so many times another one, if they have the same columns.
pub(crate) fn mixed(alloc: Global, a: &Form, s: i128, b: &Form, t: i128) -> Result<Form, Unasked> {
    if a.coefs.len() != b.coefs.len() {
        return Err(Unasked::Large);
    }
    let made = a.scale_add(alloc, s, b, t)?;
    Ok(made)
}

/// The coefficient of a column.
pub(crate) fn coefficient(form: &Form, at: usize) -> i128 {
    match form.coefs.as_slice().get(at) {
        None => 0,
        Some(c) => *c,
    }
}

/// The last column from one on whose coefficient isn't 0.
pub(crate) fn last_column(form: &Form, first: usize) -> Option<usize> {
    let mut found = None;
    for (i, c) in form.coefs.as_slice().iter().enumerate() {
        if i >= first && *c != 0 {
            found = Some(i);
        }
    }
    found
}

/// The first one.
pub(crate) fn first_column(form: &Form, first: usize) -> Option<usize> {
    for (i, c) in form.coefs.as_slice().iter().enumerate() {
        if i >= first && *c != 0 {
            return Some(i);
        }
    }
    None
}

/// The last one whose coefficient is 1 or -1.
fn last_unit(form: &Form, first: usize) -> Option<usize> {
    let mut found = None;
    for (i, c) in form.coefs.as_slice().iter().enumerate() {
        if i >= first && c.unsigned_abs() == 1 {
            found = Some(i);
        }
    }
    found
}

// ---- What is told.

/// The columns of a load, and behind them those of the iterators of a store.
#[derive(Drop)]
pub(crate) struct Columns<'a> {
    pub(crate) load: &'a Load<'a>,
    /// The rows of the load's domain.
    pub(crate) given: Items<Form>,
    pub(crate) own: u32,
    pub(crate) loops: u32,
    pub(crate) all: u32,
}

/// What is left of an iterator's form when its column is taken away, where a form that names it is 0. A form with a coefficient
/// below 0 that has to be divided is rounded down, and one with a coefficient above 0 is rounded up.
pub(crate) fn told(
    alloc: Global,
    columns: &Columns<'_>,
    form: &Form,
    at: usize,
) -> Result<Option<Form>, Unasked> {
    let c = coefficient(form, at);
    if c == -1 {
        let copy = form.clone()?;
        return Ok(Some(copy));
    }
    if c == 1 {
        let made = mixed(alloc, form, -1, form, 0)?;
        return Ok(Some(made));
    }
    let Some(rest) = rest_of(columns, form, at)? else {
        return Ok(None);
    };
    let given = columns.given.as_slice();
    let Some(part) = divided(alloc, rest, c.unsigned_abs(), given)? else {
        return Ok(None);
    };
    let sign = if c < 0 { 1 } else { -1 };
    let made = less_column(alloc, columns, &part, sign, at)?;
    Ok(Some(made))
}

/// A form without an iterator's column, over the load's columns, where it names no other iterator.
pub(crate) fn rest_of(
    columns: &Columns<'_>,
    form: &Form,
    at: usize,
) -> Result<Option<Form>, AllocError> {
    let own = columns.own as usize;
    if first_column(form, own) != Some(at) || last_column(form, own) != Some(at) {
        return Ok(None);
    }
    let mut rest = form.clone()?;
    rest.coefs.truncate(own);
    Ok(Some(rest))
}

/// So many times a form over the load's columns, less a column.
pub(crate) fn less_column(
    alloc: Global,
    columns: &Columns<'_>,
    part: &Form,
    times: i128,
    at: usize,
) -> Result<Form, Unasked> {
    let part = spread(alloc, part, 0, 0, columns.loops)?;
    let place = Form::column(alloc, columns.all, count(at)?)?;
    mixed(alloc, &part, times, &place, -1)
}

/// A column, and its form without it.
#[derive(Drop)]
pub(crate) struct Pivot {
    pub(crate) at: usize,
    pub(crate) form: Form,
}

/// An equation, turned so that the coefficient of a column is below 0.
fn turned(alloc: Global, equation: &Form, at: usize) -> Result<Form, Unasked> {
    let sign = if coefficient(equation, at) > 0 { -1 } else { 1 };
    mixed(alloc, equation, sign, equation, 0)
}

/// What an equation tells of a column without a division.
fn told_of(
    alloc: Global,
    columns: &Columns<'_>,
    equation: &Form,
    at: usize,
) -> Result<Option<Pivot>, Unasked> {
    let turned = turned(alloc, equation, at)?;
    match told(alloc, columns, &turned, at)? {
        None => Ok(None),
        Some(form) => Ok(Some(Pivot { at, form })),
    }
}

/// What an equation tells of a column by a division.
fn parted_of(
    alloc: Global,
    columns: &Columns<'_>,
    equation: &Form,
    at: usize,
    divisions: &mut Vec<Division>,
) -> Result<Option<Pivot>, Unasked> {
    let turned = turned(alloc, equation, at)?;
    let Some(rest) = rest_of(columns, &turned, at)? else {
        return Ok(None);
    };
    let by = coefficient(&turned, at).unsigned_abs();
    let first = columns.load.reader.domain.columns();
    match quotient(alloc, columns.own, first, rest, by, divisions)? {
        None => Ok(None),
        Some(part) => {
            let form = less_column(alloc, columns, &part, 1, at)?;
            Ok(Some(Pivot { at, form }))
        }
    }
}

/// The first that an equation tells of its last iterator; or else of any; or else by a division.
pub(crate) fn first_told(
    alloc: Global,
    columns: &Columns<'_>,
    equations: &[Form],
    divisions: &mut Vec<Division>,
) -> Result<Option<Pivot>, Unasked> {
    let own = columns.own as usize;
    for equation in equations {
        if let Some(at) = last_column(equation, own) {
            if let Some(made) = told_of(alloc, columns, equation, at)? {
                return Ok(Some(made));
            }
        }
    }
    for equation in equations {
        if let Some(at) = last_unit(equation, own) {
            return told_of(alloc, columns, equation, at);
        }
    }
    for equation in equations {
        if let Some(at) = last_column(equation, own) {
            if let Some(made) = parted_of(alloc, columns, equation, at, divisions)? {
                return Ok(Some(made));
            }
        }
    }
    Ok(None)
}

/// Forms with what is told of a column put in.
fn put_in(alloc: Global, forms: &[Form], at: usize, rest: &Form) -> Result<Items<Form>, Unasked> {
    let mut out = Items::new(alloc);
    for form in forms {
        let c = coefficient(form, at);
        let made = mixed(alloc, form, 1, rest, c)?;
        out.push(made)?;
    }
    Ok(out)
}

/// Forms for the iterators of a store, in which those that aren't told stand as columns, and equations that are left.
#[derive(Drop)]
pub(crate) struct Solved {
    pub(crate) equations: Items<Form>,
    pub(crate) forms: Items<Form>,
}

/// These forms and equations with what is told of a column put in.
pub(crate) fn with_told(
    alloc: Global,
    solved: &Solved,
    at: usize,
    rest: &Form,
) -> Result<Solved, Unasked> {
    let equations = put_in(alloc, solved.equations.as_slice(), at, rest)?;
    let forms = put_in(alloc, solved.forms.as_slice(), at, rest)?;
    Ok(Solved { equations, forms })
}

/// What the equations tell is put in.
pub(crate) fn settled(
    alloc: Global,
    columns: &Columns<'_>,
    solved: Solved,
    divisions: &mut Vec<Division>,
) -> Result<Solved, Unasked> {
    let mut now = solved;
    for _i in 0..columns.loops {
        match first_told(alloc, columns, now.equations.as_slice(), divisions)? {
            None => return Ok(now),
            Some(found) => {
                let next = with_told(alloc, &now, found.at, &found.form)?;
                now = next;
            }
        }
    }
    Ok(now)
}

// ---- Rows without columns.

/// Whether a row stands among others, or a sharper one.
pub fn stands(row: &Form, rows: &[Form]) -> bool {
    rows.iter().any(|r| r.constant <= row.constant && r.coefs.as_slice() == row.coefs.as_slice())
}

/// Adds a row, if none stands there that says as much.
fn add_row(row: Form, out: &mut Items<Form>) -> Result<(), AllocError> {
    if out.len() >= MOST_ROWS || stands(&row, out.as_slice()) {
        return Ok(());
    }
    out.push(row)
}

/// Adds what two rows say together when a column is taken out of them, if it fits.
fn add_both(
    alloc: Global,
    low: &Form,
    high: &Form,
    at: usize,
    out: &mut Items<Form>,
) -> Result<(), AllocError> {
    let Some(by) = coefficient(high, at).checked_neg() else {
        return Ok(());
    };
    match mixed(alloc, low, by, high, coefficient(low, at)) {
        Ok(made) => add_row(made, out),
        Err(Unasked::Large) => Ok(()),
        Err(Unasked::Memory) => Err(AllocError),
    }
}

/// Rows without a column: those that don't name it, and what the others say together.
fn without(alloc: Global, rows: &[Form], at: usize) -> Result<Items<Form>, AllocError> {
    let mut out = Items::new(alloc);
    for row in rows {
        if coefficient(row, at) == 0 {
            let copy = row.clone()?;
            add_row(copy, &mut out)?;
        }
    }
    for low in rows {
        if coefficient(low, at) > 0 {
            for high in rows {
                if coefficient(high, at) < 0 {
                    add_both(alloc, low, high, at, &mut out)?;
                }
            }
        }
    }
    Ok(out)
}

/// Rows without the iterators of the store but one.
pub(crate) fn without_others(
    alloc: Global,
    columns: &Columns<'_>,
    rows: Items<Form>,
    at: usize,
) -> Result<Items<Form>, AllocError> {
    let mut rows = rows;
    for back in 0..columns.loops {
        let place = columns.all.saturating_sub(back).saturating_sub(1) as usize;
        if place != at {
            let next = without(alloc, rows.as_slice(), place)?;
            rows = next;
        }
    }
    Ok(rows)
}

// ---- Bounds.

/// Whether one of these forms has the same coefficients, and a constant that is no greater, or no less.
fn has_sharper(forms: &[Form], form: &Form, up: bool) -> bool {
    forms.iter().any(|f| f.coefs.as_slice() == form.coefs.as_slice()
        && (f.constant == form.constant || (f.constant < form.constant) == up))
}

/// What a column is, less itself, where some of these rows has it as great as it can be, or as small.
pub(crate) fn bounds(
    alloc: Global,
    columns: &Columns<'_>,
    rows: Items<Form>,
    at: usize,
    up: bool,
) -> Result<Items<Form>, Unasked> {
    let rows = without_others(alloc, columns, rows, at)?;
    let mut out = Items::new(alloc);
    for row in rows.as_slice() {
        let c = coefficient(row, at);
        if (up && c < 0) || (!up && c > 0) {
            if let Some(made) = told(alloc, columns, row, at)? {
                if !has_sharper(out.as_slice(), &made, up) {
                    out.push(made)?;
                }
            }
        }
    }
    Ok(out)
}
