//! Drafts of instances that might be a load's source. Nothing is promised of them.
//!
//! Equal subscripts, the order above its depth and equalities of the domain tell iterators. Of those that they don't tell, from
//! the outer on, each is as late as some row lets it be: the order at its depth, the bounds of its loop or of inner ones, or a
//! condition. There is a draft for each choice of rows, up to a number.

use crate::solved::{
    Columns, Solved, are_opposite, bounds, coefficient, first_column, last_column, mixed, settled,
    with_told,
};
use affc_flow::asking::column_forms;
use affc_flow::load::Load;
use affc_flow::questions::{Unasked, add_padded, at_images, count};
use affc_nest::lists::add_copies;
use affc_nest::{Access, Division, Entry};
use affc_order::columns::spread;
use affc_order::order::shared;
use affc_rows::Form;
use sqlite_items::Items;
use std::alloc::{AllocError, Global};

/// The most drafts of a part at a depth of the order.
const MOST_DRAFTS: usize = 8;

/// The most choices that are looked at for them.
const MOST_TRIES: u32 = 64;

/// What is drafted: instances of a part for a load, whose subscripts are given, over so many columns, at a depth of the
/// order.
#[derive(Drop)]
pub(crate) struct Drafting<'a> {
    pub(crate) load: &'a Load<'a>,
    pub(crate) read: &'a [Form],
    pub(crate) writer: &'a Entry,
    /// The rows of the part's domain that tell where its instances are.
    pub(crate) rows: &'a [Form],
    pub(crate) store: &'a Access,
    pub(crate) columns: u32,
    pub(crate) depth: usize,
}

/// What is drafted, and how its columns are arranged.
#[derive(Drop)]
pub(crate) struct Work<'a> {
    pub(crate) drafting: &'a Drafting<'a>,
    pub(crate) columns: Columns<'a>,
    pub(crate) params: u32,
}

// ---- Equations.

/// A form over the parameters and the store's iterators, over all columns.
fn of_store(alloc: Global, work: &Work<'_>, form: &Form) -> Result<Form, Unasked> {
    let params = work.params;
    if params as usize > form.coefs.len() || params > work.columns.own {
        return Err(Unasked::Large);
    }
    let made = spread(alloc, form, params, work.columns.own - params, 0)?;
    Ok(made)
}

/// Adds that what is written is what is read.
fn add_subscripts(alloc: Global, work: &Work<'_>, out: &mut Items<Form>) -> Result<(), Unasked> {
    let written = work.drafting.store.subs.as_slice();
    for (sub, other) in written.iter().zip(work.drafting.read) {
        out.push(written_less(alloc, work, sub, other)?)?;
    }
    Ok(())
}

/// A subscript of the store less one of the load.
fn written_less(alloc: Global, work: &Work<'_>, sub: &Form, other: &Form) -> Result<Form, Unasked> {
    let first = of_store(alloc, work, sub)?;
    let second = spread(alloc, other, 0, 0, work.columns.loops)?;
    mixed(alloc, &first, 1, &second, -1)
}

/// An iterator of the load less that of the store, at a place among the loops.
fn behind(alloc: Global, work: &Work<'_>, k: u32) -> Result<Form, Unasked> {
    let all = work.columns.all;
    let own = Form::column(alloc, all, work.params.saturating_add(k))?;
    let other = Form::column(alloc, all, work.columns.own.saturating_add(k))?;
    mixed(alloc, &own, 1, &other, -1)
}

/// How many loops are round both.
fn common(work: &Work<'_>) -> usize {
    shared(
        work.drafting.writer.loops.as_slice(),
        work.drafting.load.reader.loops.as_slice(),
    )
}

/// Adds that the iterators are the load's above the depth of the order.
fn add_order(alloc: Global, work: &Work<'_>, out: &mut Items<Form>) -> Result<(), Unasked> {
    let n = common(work);
    for k in 0..work.columns.loops {
        let at = k as usize;
        if at < work.drafting.depth && at < n {
            let made = behind(alloc, work, k)?;
            out.push(made)?;
        }
    }
    Ok(())
}

/// Adds the equalities of the domain that name iterators.
fn add_equalities(alloc: Global, work: &Work<'_>, out: &mut Items<Form>) -> Result<(), Unasked> {
    let rows = work.drafting.writer.domain.rows();
    let params = work.params as usize;
    for row in rows {
        if last_column(row, params).is_some() && rows.iter().any(|r| are_opposite(r, row)) {
            let made = of_store(alloc, work, row)?;
            out.push(made)?;
        }
    }
    Ok(())
}

/// The equations, with nothing told.
pub(crate) fn posed(alloc: Global, work: &Work<'_>) -> Result<Solved, Unasked> {
    let columns = &work.columns;
    let mut equations = Items::new(alloc);
    add_subscripts(alloc, work, &mut equations)?;
    add_order(alloc, work, &mut equations)?;
    add_equalities(alloc, work, &mut equations)?;
    let forms = column_forms(alloc, columns.all, columns.own, columns.loops)?;
    let forms = Items::from_vec(forms);
    Ok(Solved { equations, forms })
}

/// What the equations tell.
fn begun(alloc: Global, work: &Work<'_>, divisions: &mut Vec<Division>) -> Result<Solved, Unasked> {
    let solved = posed(alloc, work)?;
    settled(alloc, &work.columns, solved, divisions)
}

// ---- Rows.

/// Adds the row of the order at its depth, at these forms, if there is one.
fn add_depth(
    alloc: Global,
    work: &Work<'_>,
    forms: &[Form],
    out: &mut Items<Form>,
) -> Result<(), Unasked> {
    let depth = work.drafting.depth;
    if depth >= common(work) {
        return Ok(());
    }
    let Some(form) = forms.get(depth) else {
        return Ok(());
    };
    let place = work.params.saturating_add(count(depth)?);
    let mut own = Form::column(alloc, work.columns.all, place)?;
    own.constant = -1;
    let made = mixed(alloc, &own, 1, form, -1)?;
    Ok(out.push(made)?)
}

/// The row of the order at its depth, and those that tell where instances are, at these forms.
pub(crate) fn rows_at(
    alloc: Global,
    work: &Work<'_>,
    forms: &[Form],
) -> Result<Items<Form>, Unasked> {
    let all = work.columns.all;
    let mut images = Items::from_vec(column_forms(alloc, all, 0, work.params)?);
    add_copies(forms, &mut images)?;
    let mut out = Items::new(alloc);
    add_depth(alloc, work, forms, &mut out)?;
    for row in work.drafting.rows {
        let made = at_images(alloc, all, images.as_slice(), row)?;
        out.push(made)?;
    }
    Ok(out)
}

/// Whether a row of the load's domain shows that another one, over more columns, is met nowhere.
fn excludes(given: &Form, row: &Form) -> bool {
    let own = given.coefs.as_slice();
    let opposite = own
        .iter()
        .zip(row.coefs.as_slice())
        .all(|(c, d)| c.checked_neg() == Some(*d));
    match given.constant.checked_add(row.constant) {
        None => false,
        Some(sum) => sum < 0 && opposite && first_column(row, own.len()).is_none(),
    }
}

/// Whether a row is met nowhere, as can be seen.
fn is_refused(work: &Work<'_>, row: &Form) -> bool {
    (row.constant < 0 && first_column(row, 0).is_none())
        || work
            .drafting
            .load
            .reader
            .domain
            .rows()
            .iter()
            .any(|r| excludes(r, row))
}

/// Whether an equation holds nowhere, as can be seen.
fn is_false(equation: &Form) -> bool {
    equation.constant != 0 && first_column(equation, 0).is_none()
}

// ---- Drafts.

/// The outermost column that isn't told, and whether a greater number there is later.
pub(crate) fn open_column(forms: &[Form], own: usize) -> Option<(usize, bool)> {
    for form in forms {
        if let Some(at) = first_column(form, own) {
            return Some((at, coefficient(form, at) > 0));
        }
    }
    None
}

/// Forms over the load's columns alone.
fn cut(alloc: Global, forms: &[Form], own: usize) -> Result<Items<Form>, AllocError> {
    let mut out = Items::new(alloc);
    for form in forms {
        let mut made = form.clone()?;
        made.coefs.truncate(own);
        out.push(made)?;
    }
    Ok(out)
}

/// Drafts, and how many choices may still be looked at for them.
#[derive(Drop)]
pub(crate) struct Drafts {
    pub(crate) tries: u32,
    pub(crate) made: Vec<Items<Form>>,
}

impl Drafts {
    /// Adds the forms of the iterators.
    pub(crate) fn add(&mut self, alloc: Global, forms: &[Form], own: usize) -> Result<(), Unasked> {
        let made = cut(alloc, forms, own)?;
        match self.made.push(made) {
            Ok(()) => Ok(()),
            Err(_) => Err(Unasked::Memory),
        }
    }
}

/// What is known, with what a column is, and all that this tells.
fn settled_by(
    alloc: Global,
    work: &Work<'_>,
    solved: &Solved,
    at: usize,
    choice: &Form,
    divisions: &mut Vec<Division>,
) -> Result<Solved, Unasked> {
    let next = with_told(alloc, solved, at, choice)?;
    settled(alloc, &work.columns, next, divisions)
}

/// Adds the drafts with what is told so far, where so many iterators aren't told at most.
fn add_drafts(
    alloc: Global,
    work: &Work<'_>,
    solved: &Solved,
    left: u32,
    divisions: &mut Vec<Division>,
    out: &mut Drafts,
) -> Result<(), Unasked> {
    if out.tries == 0 || out.made.len() >= MOST_DRAFTS {
        return Ok(());
    }
    out.tries -= 1;
    let forms = solved.forms.as_slice();
    let rows = rows_at(alloc, work, forms)?;
    let refused = rows.as_slice().iter().any(|r| is_refused(work, r));
    if refused || solved.equations.as_slice().iter().any(is_false) {
        return Ok(());
    }
    let own = work.columns.own as usize;
    let Some((at, up)) = open_column(forms, own) else {
        return out.add(alloc, forms, own);
    };
    if left == 0 {
        return Ok(());
    }
    let choices = bounds(alloc, &work.columns, rows, at, up)?;
    for choice in choices.as_slice() {
        let next = settled_by(alloc, work, solved, at, choice, divisions)?;
        add_drafts(alloc, work, &next, left - 1, divisions, out)?;
    }
    Ok(())
}

/// Adds the drafts that fit.
fn add_all(
    alloc: Global,
    work: &Work<'_>,
    divisions: &mut Vec<Division>,
    out: &mut Drafts,
) -> Result<(), Unasked> {
    let solved = begun(alloc, work, divisions)?;
    add_drafts(alloc, work, &solved, work.columns.loops, divisions, out)
}

/// What is drafted, with its columns arranged.
pub(crate) fn arranged<'a>(alloc: Global, drafting: &'a Drafting<'a>) -> Result<Work<'a>, Unasked> {
    let own = drafting.columns;
    let params = count(drafting.load.nest.params.ranges().len())?;
    let loops = count(drafting.writer.coordinates())?;
    let all = own.saturating_add(loops);
    if all > 128 {
        return Err(Unasked::Large);
    }
    let mut given = Items::new(alloc);
    add_padded(alloc, own, drafting.load.reader.domain.rows(), &mut given)?;
    let columns = Columns {
        load: drafting.load,
        given,
        own,
        loops,
        all,
    };
    Ok(Work {
        drafting,
        columns,
        params,
    })
}

/// Drafts of the instance of a part that a load reads, a form for each coordinate. Divisions that they want are added.
pub(crate) fn drafts_of(
    alloc: Global,
    drafting: &Drafting<'_>,
    divisions: &mut Vec<Division>,
) -> Result<Vec<Items<Form>>, Unasked> {
    let work = arranged(alloc, drafting)?;
    let mut out = Drafts {
        tries: MOST_TRIES,
        made: Vec::new(alloc),
    };
    match add_all(alloc, &work, divisions, &mut out) {
        Ok(()) => Ok(out.made),
        Err(Unasked::Large) => Ok(out.made),
        Err(Unasked::Memory) => Err(Unasked::Memory),
    }
}
