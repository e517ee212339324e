//! Instances that might be a load's source, from the latest on, and where each might be. Nothing is promised of them.

use crate::draft::{Drafting, drafts_of};
use crate::strides::room;
use crate::telling::telling_rows;
use affc_flow::asking::{column_forms, images_of, store_for};
use affc_flow::load::Load;
use affc_flow::questions::{Unasked, add_padded, at_images, count, gap};
use affc_nest::{Division, Entry};
use affc_order::order::shared;
use affc_rows::Form;
use sqlite_items::Items;
use std::alloc::{AllocError, Global};

/// An instance of a part, by forms for its coordinates.
#[derive(Drop)]
pub struct Candidate {
    pub part: u32,
    pub forms: Items<Form>,
    /// The rows that say that it is an instance, that it stores what is read, and that it is earlier than the load.
    pub conditions: Items<Form>,
}

/// Whether a row has no coefficient but 0.
fn is_constant(row: &Form) -> bool {
    row.coefs.as_slice().iter().all(|c| *c == 0)
}

/// Whether a row is met nowhere, as can be seen.
fn is_never(row: &Form) -> bool {
    row.constant < 0 && is_constant(row)
}

/// Adds a row, if it isn't seen to be met everywhere.
fn add_condition(row: Form, out: &mut Items<Form>) -> Result<(), Unasked> {
    if row.constant >= 0 && is_constant(&row) {
        return Ok(());
    }
    out.push(row)?;
    Ok(())
}

/// Adds the rows that a form is another one.
fn add_equal(alloc: Global, f: &Form, g: &Form, out: &mut Items<Form>) -> Result<(), Unasked> {
    let low = gap(alloc, g, f, 0)?;
    add_condition(low, out)?;
    let high = gap(alloc, f, g, 0)?;
    add_condition(high, out)
}

/// Adds rows at these images of their columns.
fn add_at_images(
    alloc: Global,
    columns: u32,
    images: &[Form],
    rows: &[Form],
    out: &mut Items<Form>,
) -> Result<(), Unasked> {
    for row in rows {
        let made = at_images(alloc, columns, images, row)?;
        add_condition(made, out)?;
    }
    Ok(())
}

/// Adds the rows that what is written, at these images, is what is read.
fn add_stored(
    alloc: Global,
    columns: u32,
    images: &[Form],
    written: &[Form],
    read: &[Form],
    out: &mut Items<Form>,
) -> Result<(), Unasked> {
    for (sub, other) in written.iter().zip(read) {
        let made = at_images(alloc, columns, images, sub)?;
        add_equal(alloc, &made, other, out)?;
    }
    Ok(())
}

/// Adds the rows that an instance is earlier than another one at a depth of the order, of so many loops round both.
fn add_earlier(
    alloc: Global,
    forms: &[Form],
    own: &[Form],
    depth: usize,
    n: usize,
    out: &mut Items<Form>,
) -> Result<(), Unasked> {
    for (k, (form, other)) in forms.iter().zip(own).enumerate() {
        if k < depth {
            add_equal(alloc, form, other, out)?;
        } else if k == depth && k < n {
            let row = gap(alloc, form, other, 1)?;
            add_condition(row, out)?;
        }
    }
    Ok(())
}

/// The rows that say where a draft might be the source.
fn conditions(
    alloc: Global,
    drafting: &Drafting<'_>,
    forms: &[Form],
) -> Result<Items<Form>, Unasked> {
    let (load, writer, columns) = (drafting.load, drafting.writer, drafting.columns);
    let params = count(load.nest.params.ranges().len())?;
    let loops = count(load.reader.coordinates())?;
    let own = column_forms(alloc, columns, params, loops)?;
    let images = images_of(alloc, load, columns, forms)?;
    let images = images.as_slice();
    let n = shared(writer.loops.as_slice(), load.reader.loops.as_slice());
    let written = drafting.store.subs.as_slice();
    let mut out = Items::new(alloc);
    add_stored(alloc, columns, images, written, drafting.read, &mut out)?;
    add_earlier(alloc, forms, own.as_slice(), drafting.depth, n, &mut out)?;
    add_at_images(alloc, columns, images, drafting.rows, &mut out)?;
    Ok(out)
}

/// Candidates from the latest on, and the divisions that they want, each of which names those before it alone: the quotients
/// are columns behind those of the load.
#[derive(Drop)]
pub struct Guess {
    pub divisions: Vec<Division>,
    pub candidates: Vec<Candidate>,
}

/// An instance of a part at a depth of the order, if it might be one.
fn candidate_of(
    alloc: Global,
    drafting: &Drafting<'_>,
    forms: Items<Form>,
) -> Result<Option<Candidate>, Unasked> {
    let conditions = conditions(alloc, drafting, forms.as_slice())?;
    if conditions.as_slice().iter().any(is_never) {
        return Ok(None);
    }
    Ok(Some(Candidate {
        part: drafting.writer.part,
        forms,
        conditions,
    }))
}

/// Adds an instance of a part at a depth of the order, if it might be one.
pub(crate) fn add_candidate(
    alloc: Global,
    drafting: &Drafting<'_>,
    forms: Items<Form>,
    out: &mut Vec<Candidate>,
) -> Result<(), Unasked> {
    let Some(made) = candidate_of(alloc, drafting, forms)? else {
        return Ok(());
    };
    match out.push(made) {
        Ok(()) => Ok(()),
        Err(_) => Err(Unasked::Memory),
    }
}

/// Adds the instances of a part at a depth of the order, as far as they fit.
fn add_candidates(
    alloc: Global,
    drafting: &Drafting<'_>,
    out: &mut Guess,
) -> Result<(), AllocError> {
    let drafts = match drafts_of(alloc, drafting, &mut out.divisions) {
        Ok(drafts) => drafts,
        Err(Unasked::Large) => return Ok(()),
        Err(Unasked::Memory) => return Err(AllocError),
    };
    for forms in drafts {
        match add_candidate(alloc, drafting, forms, &mut out.candidates) {
            Ok(()) => {}
            Err(Unasked::Large) => {}
            Err(Unasked::Memory) => return Err(AllocError),
        }
    }
    Ok(())
}

/// Whether an instance of a part can be earlier than the load at this depth of the order.
fn has_depth(load: &Load<'_>, writer: &Entry, depth: usize) -> bool {
    let n = shared(writer.loops.as_slice(), load.reader.loops.as_slice());
    depth < n || (depth == n && writer.statement < load.reader.statement)
}

/// Adds the instances at a depth of the order, the last parts first.
fn add_at_depth<'a>(
    alloc: Global,
    load: &'a Load<'a>,
    read: &'a [Form],
    columns: u32,
    depth: usize,
    out: &mut Guess,
) -> Result<(), AllocError> {
    for writer in load.nest.entries.as_slice().iter().rev() {
        if let Some(store) = store_for(writer, load.access.array.0) {
            if has_depth(load, writer, depth) {
                let rows = telling_rows(alloc, load.nest, writer)?;
                let drafting = Drafting {
                    load: &*load,
                    read: &*read,
                    writer,
                    rows: rows.as_slice(),
                    store,
                    columns,
                    depth,
                };
                add_candidates(alloc, &drafting, out)?;
            }
        }
    }
    Ok(())
}

/// The instances that might be the source.
pub fn drafts(alloc: Global, load: &Load<'_>) -> Result<Guess, AllocError> {
    let mut out = Guess {
        divisions: Vec::new(alloc),
        candidates: Vec::new(alloc),
    };
    let first = load.reader.domain.columns();
    let columns = first.saturating_add(room(load));
    let mut read = Items::new(alloc);
    match add_padded(alloc, columns, load.access.subs.as_slice(), &mut read) {
        Ok(()) => {}
        Err(Unasked::Large) => return Ok(out),
        Err(Unasked::Memory) => return Err(AllocError),
    }
    let most = load.reader.coordinates();
    for up in 0..most {
        add_at_depth(alloc, &*load, read.as_slice(), columns, most - up, &mut out)?;
    }
    add_at_depth(alloc, &*load, read.as_slice(), columns, 0, &mut out)?;
    Ok(out)
}
