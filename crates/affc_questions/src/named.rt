//! The rows behind the path of a leaf that names an instance.
ghost use Rattle.std.specs.Prelude.{◌≡◌, ◌≤◌, ◌++◌, ◌∷◌, [], nat_eq, if◌then◌else◌, length, map, IfOk, OnOk};
ghost use Rattle.std.specs.List.{All};
ghost use Rattle.affc_system.specs.Systems.{IsRow};
ghost use Rattle.affc_nest.specs.Asked.{IsNest};
ghost use Rattle.affc_nest.specs.Parts.{coordinates};
ghost use Rattle.affc_order.specs.Posed.{form_at};
ghost use Rattle.affc_quast.specs.Leaves.{padded};
ghost use Rattle.affc_quast.specs.SeenLeaves.{leaf_seen};
ghost use Rattle.affc_life.specs.Asked.{IsLiving};
ghost use Rattle.affc_nest.specs.Wide.{IsWide};
ghost use Rattle.affc_order.specs.Placed.{AreImages, IsPlaced};
ghost use Rattle.affc_life.specs.Drafts.{instance_named};
ghost use Rattle.affc_sched.specs.Questions.{equal_rows};
ghost use Rattle.affc_questions.specs.Asked.{IsReading, IsWriter, IsInstanceOf};
ghost use Rattle.affc_questions.specs.Listed.{negations, sides, own_path, own_columns, images, astray_lists, late_lists};

use crate::lists::{add_below_zero, add_list, add_sides};
use crate::reading::Reading;
use crate::rows::add_equals;
use crate::writer::Writer;
use affc_life::columns::add_padded;
use affc_life::stores::{coordinates, params_in};
use affc_nest::{Access, Entry, Nest};
use affc_order::columns::columns_from;
use affc_order::images::add_images;
use affc_order::order::statement;
use affc_order::{Placed, source_order};
use affc_quast::leaves::{Leaf, Named};
use affc_rows::Form;
use affc_rows::vocabulary::add_copies;
use sqlite_items::Items;
use std::alloc::{AllocError, Global};

/// The rows of the load's part and those above the leaf, over the leaf's columns.
pub(crate) fn own_path(alloc: Global, reader: &Entry, leaf: &Leaf) -> Result<Vec<Form>, AllocError>
    requires domain { All (λ f. length f.coefs ≤ leaf.now.columns) reader.now.domain.rows }
    requires tests { All (λ f. length f.coefs ≤ leaf.now.columns) leaf.now.rows }
    ensures { IfOk result (λ v. v.items ≡ own_path reader.now (leaf_seen leaf.now)) }
{
    let columns = leaf.columns;
    let mut rows = Vec::new(alloc);
    add_padded(alloc, columns, reader.domain.rows(), &mut rows)?;
    add_padded(alloc, columns, leaf.rows.as_slice(), &mut rows)?;
    Ok(rows)
}

/// The coordinates of the load's part.
fn own_columns(
    alloc: Global,
    nest: &Nest,
    reader: &Entry,
    columns: u32,
) -> Result<Vec<Form>, AllocError>
    requires params { length nest.now.params ≤ 4 }
    requires few { coordinates reader.now ≤ 6 }
    ensures { IfOk result (λ v. v.items ≡ own_columns nest.now reader.now columns) }
{
    let params = params_in(nest);
    let own = coordinates(reader);
    columns_from(alloc, columns, params, own)
}

/// The images of the columns of the part that is named: the parameters, and the forms for its coordinates.
fn images(alloc: Global, nest: &Nest, columns: u32, forms: &[Form]) -> Result<Vec<Form>, AllocError>
    requires { length nest.now.params ≤ 4 }
    ensures { IfOk result (λ v. v.items ≡ images nest.now columns forms.now) }
{
    let params = params_in(nest);
    let mut made = columns_from(alloc, columns, 0, params)?;
    add_copies(forms, &mut made)?;
    Ok(made)
}

/// Adds the rows that the instance with these images lies outside some row.
fn add_outside(
    alloc: Global,
    columns: u32,
    images: &[Form],
    rows: &[Form],
    out: &mut Vec<Items<Form>>,
) -> Result<(), AllocError>
    requires images { AreImages columns images.now }
    requires rows { All (IsRow (length images.now)) rows.now }
    ensures { OnOk result (out.new.items ≡ out.old.items ++ negations (map (form_at columns images.now) rows.now)) }
{
    let mut made = Vec::new(alloc);
    add_images(alloc, columns, images, rows, &mut made)?;
    add_below_zero(alloc, columns, made.as_slice(), out)
}

/// Adds the rows that the instance with these images writes elsewhere than what is read.
fn add_apart(
    alloc: Global,
    columns: u32,
    images: &[Form],
    written: &[Form],
    read: &[Form],
    out: &mut Vec<Items<Form>>,
) -> Result<(), AllocError>
    requires images { AreImages columns images.now }
    requires written { All (IsRow (length images.now)) written.now }
    requires narrow { All (λ f. length f.coefs ≤ columns) read.now }
    requires wide { All (IsWide columns) (map (padded columns) read.now) }
    ensures { OnOk result (out.new.items ≡ out.old.items ++ sides (map (form_at columns images.now) written.now) (map (padded columns) read.now)) }
{
    let mut made = Vec::new(alloc);
    add_images(alloc, columns, images, written, &mut made)?;
    let mut wide = Vec::new(alloc);
    add_padded(alloc, columns, read, &mut wide)?;
    add_sides(alloc, columns, made.as_slice(), wide.as_slice(), out)
}

/// The rows that the instance that is named lies outside its part's domain, and that it writes another element than
/// the load reads.
pub(crate) fn astray_lists(
    alloc: Global,
    reading: &Reading<'_>,
    named: &Named,
    writer: &Writer<'_>,
) -> Result<Vec<Items<Form>>, AllocError>
    requires reading { IsReading reading.now }
    requires writer { IsWriter reading.now.nest.now writer.now.entry.now writer.now.store.now }
    requires named { IsInstanceOf reading.now.nest.now reading.now.leaf.now.columns (instance_named named.now) writer.now.entry.now }
    ensures { IfOk result (λ v. v.items ≡ astray_lists reading.now.nest.now reading.now.load.now reading.now.leaf.now.columns named.now.forms writer.now.entry.now writer.now.store.now) }
{
    let columns = reading.leaf.columns;
    let images = images(alloc, reading.nest, columns, named.forms.as_slice())?;
    let images = images.as_slice();
    let (written, read) = (writer.store.subs.as_slice(), reading.load.subs.as_slice());
    let mut lists = Vec::new(alloc);
    add_outside(
        alloc,
        columns,
        images,
        writer.entry.domain.rows(),
        &mut lists,
    )?;
    add_apart(alloc, columns, images, written, read, &mut lists)?;
    Ok(lists)
}

/// Adds the rows that forms are equal in turn, where the statements are the same.
fn add_same(
    alloc: Global,
    columns: u32,
    a: u32,
    fs: &[Form],
    b: u32,
    gs: &[Form],
    out: &mut Vec<Items<Form>>,
) -> Result<(), AllocError>
    requires firsts { All (IsWide columns) fs.now }
    requires seconds { All (IsWide columns) gs.now }
    ensures { OnOk result (out.new.items ≡ out.old.items ++ (if nat_eq a b then equal_rows fs.now gs.now ∷ [] else [])) }
{
    if a == b {
        let mut rows = Items::new(alloc);
        add_equals(alloc, columns, fs, gs, &mut rows)?;
        add_list(rows, out)?;
    }
    Ok(())
}

/// The rows that the load's instance is earlier than the one that is named, and that it is the same.
pub(crate) fn late_lists(
    alloc: Global,
    nest: &Nest,
    reader: &Entry,
    columns: u32,
    named: &Named,
) -> Result<Vec<Items<Form>>, AllocError>
    requires nested { IsNest nest.now }
    requires reads { IsLiving nest.now reader.now }
    requires named { IsPlaced nest.now columns (instance_named named.now) }
    ensures { IfOk result (λ v. v.items ≡ late_lists nest.now reader.now columns (instance_named named.now)) }
{
    let own = own_columns(alloc, nest, reader, columns)?;
    let a = Placed {
        part: reader.part,
        forms: own.as_slice(),
    };
    let b = Placed {
        part: named.part,
        forms: named.forms.as_slice(),
    };
    let mut lists = source_order(alloc, nest, columns, &a, &b)?;
    let (first, second) = (reader.statement, statement(nest, b.part));
    add_same(alloc, columns, first, a.forms, second, b.forms, &mut lists)?;
    Ok(lists)
}
