//! Proofs that a box has no point, and points of it, by splits on forms that take few values in it (Lenstra's flat directions).
ghost use Rattle.std.specs.Prelude.{◌≡◌, ◌-ℤ◌, ◌++◌, ◌∷◌, [], pos, IfOk, IfSome, IsTrue, length};
ghost use Rattle.std.specs.List.{All};
ghost use Rattle.affc_farkas.specs.Proofs.{low_row, high_row};
ghost use Rattle.affc_system.specs.Systems.{IsRow, FitsRow};
ghost use Rattle.affc_leaf.specs.Bounds.{IsBound};
ghost use Rattle.affc_leaf.specs.BoxCuts.{IsEmptyWith};
ghost use Rattle.affc_leaf.specs.Flat.{IsMet, IsMetWith, IsMetPoint};

use crate::box_cuts::{add_row, leaf_below};
use affc_farkas::Proof;
use affc_rows::Form;
use affc_simplex::flat::flat_forms;
use affc_simplex::simplex::{Outcome, Wanted, look_at};
use affc_simplex::{Bound, Vertex};
use affc_system::System;
use affc_system::system::{RowFault, fits_row};
use std::alloc::{AllocError, Global};

/// The most parts that are looked at in one box, and the most that stand one in another.
const MOST_PARTS: u32 = 64;

/// The most cells of rows in all these parts.
const MOST_CELLS: u32 = 1 << 16;

/// The most columns of a system for which forms are looked for.
const MOST_COLUMNS: u32 = 24;

/// What is found of a box: a proof that it has no point, or a point that may be one of it.
#[derive(Drop)]
pub enum Met {
    Empty(Box<Proof>),
    Point(Vec<i64>),
}

/// What is split: a box of a system, with the number of the row that a split adds, and the forms.
#[derive(Clone, Copy)]
struct Flat<'a> {
    alloc: Global,
    system: &'a System,
    bounds: &'a [Bound],
    next: u32,
    forms: &'a [Form],
}

/// A form, by its place among the forms, and a value: the form is at most that, or more.
#[derive(Clone, Copy)]
struct Split {
    place: usize,
    at: i64,
}

/// What a look at a part of the box comes to: these rows hold there.
fn look_below(here: &Flat<'_>, part: &System) -> Result<Outcome, AllocError> {
    let mut all = here.system.clone()?;
    for row in part.rows() {
        let copy = row.clone()?;
        if !add_row(&mut all, copy) {
            return Ok(Outcome::Nothing);
        }
    }
    look_at(here.alloc, &all, here.bounds, Wanted::AnyVertex)
}

/// The products of a form at a point, over the point's divisor.
fn products_at(form: &Form, vertex: &Vertex) -> Option<i128> {
    let mut sum = 0i128;
    for (c, x) in form.coefs.as_slice().iter().zip(vertex.numerators.iter()) {
        sum = sum.checked_add(c.checked_mul(*x)?)?;
    }
    Some(sum)
}

/// The whole number below the value of a form at a point, if that isn't whole.
fn floor_at(form: &Form, vertex: &Vertex) -> Option<i64> {
    let sum = products_at(form, vertex)?;
    if sum.checked_rem(vertex.divisor)? == 0 {
        return None;
    }
    i64::try_from(sum.checked_div_euclid(vertex.divisor)?).ok()
}

/// The first form that isn't whole at a point.
fn split_at(forms: &[Form], vertex: &Vertex) -> Option<Split> {
    for (place, form) in forms.iter().enumerate() {
        if let Some(at) = floor_at(form, vertex) {
            return Some(Split { place, at });
        }
    }
    None
}

/// The multiples of the system's rows in a sum, and those of further rows, by their own numbers.
#[derive(Drop)]
struct Shares {
    own: Vec<(u32, u64)>,
    over: Vec<(u32, u64)>,
}

/// The shares of a system of so many rows and of further rows in a sum.
fn shares_of(alloc: Global, rows: u32, sum: &[(u32, u64)]) -> Result<Shares, AllocError> {
    let mut shares = Shares {
        own: Vec::new(alloc),
        over: Vec::new(alloc),
    };
    for (row, times) in sum {
        match row.checked_sub(rows) {
            None => shares.own.push((*row, *times))?,
            Some(number) => shares.over.push((number, *times))?,
        }
    }
    Ok(shares)
}

/// A leaf for a part of the box, by this sum of rows.
fn leaf_of(here: &Flat<'_>, part: &System, sum: &[(u32, u64)]) -> Result<Option<Met>, AllocError>
    requires width { length here.now.bounds.now ≡ here.now.system.now.columns }
    requires ranges { All IsBound here.now.bounds.now }
    requires columns { part.now.columns ≡ here.now.system.now.columns }
    ensures answer { IfOk result (λ o. IfSome o (IsMetWith here.now.system.now here.now.bounds.now here.now.next part.now.rows)) }
{
    let rows = here.system.rows().len() as u32;
    let shares = shares_of(here.alloc, rows, sum)?;
    let leaf = leaf_below(
        here.alloc,
        here.system,
        here.bounds,
        part,
        shares.own.as_slice(),
        shares.over.as_slice(),
        here.next,
    )?;
    match leaf {
        Some(leaf) => Ok(Some(Met::Empty(leaf))),
        None => Ok(None),
    }
}

/// The part with one row more. `None` where the row breaks a limit, or there is no room.
fn with_row(part: &System, row: Form) -> Result<Option<System>, AllocError>
    ensures value { IfOk result (λ o. IfSome o (λ s. s ≡ record part.now { rows = part.now.rows ++ row ∷ [] })) }
    ensures row { IfOk result (λ o. IfSome o (λ s. IsRow part.now.columns row)) }
{
    if row.coefs.len() != part.columns() as usize {
        return Ok(None);
    }
    let mut longer = part.clone()?;
    match longer.push(row) {
        Ok(()) => Ok(Some(longer)),
        Err(RowFault::Memory) => Err(AllocError),
        Err(_) => Ok(None),
    }
}

/// The part in which a form is at most a value.
fn lower_part(
    alloc: Global,
    part: &System,
    form: &Form,
    at: i64,
) -> Result<Option<System>, AllocError>
    requires { FitsRow form.now }
    ensures value { IfOk result (λ o. IfSome o (λ s. s ≡ record part.now { rows = part.now.rows ++ low_row form.now at ∷ [] })) }
    ensures row { IfOk result (λ o. IfSome o (λ s. IsRow part.now.columns (low_row form.now at))) }
{
    let opposite = form.opposite(alloc)?;
    let row = Form {
        coefs: opposite.coefs,
        constant: i128::from(at) - form.constant,
    };
    with_row(part, row)
}

/// The part in which a form is above a value.
fn upper_part(part: &System, form: &Form, at: i64) -> Result<Option<System>, AllocError>
    requires { FitsRow form.now }
    ensures value { IfOk result (λ o. IfSome o (λ s. s ≡ record part.now { rows = part.now.rows ++ high_row form.now at ∷ [] })) }
    ensures row { IfOk result (λ o. IfSome o (λ s. IsRow part.now.columns (high_row form.now at))) }
{
    let copy = form.clone()?;
    let row = Form {
        coefs: copy.coefs,
        constant: form.constant - i128::from(at) - 1,
    };
    with_row(part, row)
}

/// The proof of a part from those of its two parts.
fn joined(
    here: &Flat<'_>,
    part: &System,
    form: &Form,
    at: i64,
    low: Box<Proof>,
    high: Box<Proof>,
) -> Result<Option<Met>, AllocError>
    requires width { length here.now.bounds.now ≡ here.now.system.now.columns }
    requires zero { form.now.constant ≡ pos 0 }
    requires low_fits { IsRow here.now.system.now.columns (low_row form.now at) }
    requires high_fits { IsRow here.now.system.now.columns (high_row form.now at) }
    requires low { IsEmptyWith here.now.system.now here.now.bounds.now here.now.next (part.now.rows ++ low_row form.now at ∷ []) low.value }
    requires high { IsEmptyWith here.now.system.now here.now.bounds.now here.now.next (part.now.rows ++ high_row form.now at ∷ []) high.value }
    ensures answer { IfOk result (λ o. IfSome o (IsMetWith here.now.system.now here.now.bounds.now here.now.next part.now.rows)) }
{
    let form = form.clone()?;
    let Ok(proof) = Box::new(
        here.alloc,
        Proof::Split {
            form,
            at,
            low,
            high,
        },
    ) else {
        return Err(AllocError);
    };
    Ok(Some(Met::Empty(proof)))
}

/// Whether a split on the form can be written: it has the constant 0, and keeps the limits of rows.
fn is_plain(form: &Form) -> bool
    ensures zero { IsTrue result → form.now.constant ≡ pos 0 }
    ensures fits { IsTrue result → FitsRow form.now }
{
    form.constant == 0 && fits_row(form)
}

/// What is found of a part of the box, where at most so many parts stand one in another. `None` where nothing is found in the number of
/// parts that are left.
#[cycle(parts)]
fn part_found(
    here: &Flat<'_>,
    part: &System,
    deep: u32,
    left: &mut u32,
) -> Result<Option<Met>, AllocError>
    requires width { length here.now.bounds.now ≡ here.now.system.now.columns }
    requires ranges { All IsBound here.now.bounds.now }
    requires columns { part.now.columns ≡ here.now.system.now.columns }
    ensures answer { IfOk result (λ o. IfSome o (IsMetWith here.now.system.now here.now.bounds.now here.now.next part.now.rows)) }
{
    let (Some(deeper), Some(rest)) = (deep.checked_sub(1), left.checked_sub(1)) else {
        return Ok(None);
    };
    *left = rest;
    match look_below(here, part)? {
        Outcome::Sum(sum) => leaf_of(here, part, sum.as_slice()),
        Outcome::Vertex(vertex, _) => match split_at(here.forms, &vertex) {
            Some(split) => halves_found(here, part, split, deeper, left),
            None => whole_point(here.alloc, &vertex),
        },
        _ => Ok(None),
    }
}

/// What is found of the two parts of a part.
#[cycle(parts)]
fn halves_found(
    here: &Flat<'_>,
    part: &System,
    split: Split,
    deep: u32,
    left: &mut u32,
) -> Result<Option<Met>, AllocError>
    requires width { length here.now.bounds.now ≡ here.now.system.now.columns }
    requires ranges { All IsBound here.now.bounds.now }
    requires columns { part.now.columns ≡ here.now.system.now.columns }
    ensures answer { IfOk result (λ o. IfSome o (IsMetWith here.now.system.now here.now.bounds.now here.now.next part.now.rows)) }
{
    let Some(form) = here.forms.get(split.place) else {
        return Ok(None);
    };
    if !is_plain(form) {
        return Ok(None);
    }
    let (Some(lower), Some(upper)) = (
        lower_part(here.alloc, part, form, split.at)?,
        upper_part(part, form, split.at)?,
    ) else {
        return Ok(None);
    };
    let low = part_found(here, &lower, deep, left)?;
    if let Some(Met::Point(point)) = low {
        return Ok(Some(Met::Point(point)));
    }
    let high = part_found(here, &upper, deep, left)?;
    match (low, high) {
        (Some(Met::Empty(low)), Some(Met::Empty(high))) => {
            joined(here, part, form, split.at, low, high)
        }
        (_, Some(Met::Point(point))) => Ok(Some(Met::Point(point))),
        _ => Ok(None),
    }
}

/// The numbers of a point, where all are whole.
fn whole_point(alloc: Global, vertex: &Vertex) -> Result<Option<Met>, AllocError>
    ensures { IfOk result (λ o. IfSome o IsMetPoint) }
{
    let mut point = Vec::with_capacity(alloc, vertex.numerators.len())?;
    for x in vertex.numerators.iter() {
        if x.checked_rem(vertex.divisor) != Some(0) {
            return Ok(None);
        }
        let Some(value) = x.checked_div(vertex.divisor) else {
            return Ok(None);
        };
        let Ok(value) = i64::try_from(value) else {
            return Ok(None);
        };
        point.push(value)?;
    }
    Ok(Some(Met::Point(point)))
}

/// How many parts are looked at: many rows mean few parts.
fn parts_for(system: &System) -> u32 {
    let cells = (system.rows().len() as u32).saturating_mul(system.columns());
    match MOST_CELLS.checked_div(cells) {
        Some(parts) => parts.min(MOST_PARTS),
        None => MOST_PARTS,
    }
}

/// The forms, where the system has few columns.
fn forms_for(alloc: Global, system: &System, bounds: &[Bound]) -> Result<Vec<Form>, AllocError> {
    if system.columns() > MOST_COLUMNS {
        return Ok(Vec::new(alloc));
    }
    flat_forms(alloc, system, bounds)
}

/// A proof that a box has no point, or a point of it, by splits on forms that take few values in it, where one is found. Nothing is
/// promised of a point: whoever takes it tests it.
#[inline(never)]
#[tactic(auto, using(crate::proofs::BoxCuts::empty_alone))]
pub fn found_flat(
    alloc: Global,
    system: &System,
    bounds: &[Bound],
    next: u32,
) -> Result<Option<Met>, AllocError>
    requires width { length bounds.now ≡ system.now.columns }
    requires ranges { All IsBound bounds.now }
    ensures answer { IfOk result (λ o. IfSome o (IsMet system.now bounds.now next)) }
{
    let forms = forms_for(alloc, system, bounds)?;
    if forms.is_empty() {
        return Ok(None);
    }
    let here = Flat {
        alloc,
        system,
        bounds,
        next,
        forms: forms.as_slice(),
    };
    let whole = System::new(alloc, system.columns());
    let mut left = parts_for(system);
    part_found(&here, &whole, MOST_PARTS, &mut left)
}
