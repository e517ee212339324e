//! The time set of a statement as a system.
ghost use Rattle.std.specs.Prelude.{◌≡◌, ◌+◌, ◌≤◌, ◌++◌, length, IfOk, OnOk};
ghost use Rattle.std.specs.List.{All};
ghost use Rattle.affc_rows.specs.Vocabulary.{column_form, form_at};
ghost use Rattle.affc_system.specs.Systems.{IsRow};
ghost use Rattle.affc_ast.specs.declared.tree.Rel.TheVariants.{Equal};
ghost use Rattle.affc_trace.specs.Inverses.{columns_from};
ghost use Rattle.affc_nest.specs.Domains.{compare_rows};
ghost use Rattle.affc_order.specs.Placed.{AreImages};
ghost use Rattle.affc_loopends.specs.Images.{AreComposable};
ghost use Rattle.affc_loopends.specs.Sizes.{IsTimed};
ghost use Rattle.affc_loopends.specs.TimeRows.{component_rows, time_system};

use affc_nest::lists::add_equal_rows;
use affc_nest::questions::add_rows;
use affc_nest::{Entry, Nest};
use affc_order::columns::columns_from;
use affc_order::images::{add_images, image_of};
use affc_rows::Form;
use affc_rows::vocabulary::add_copies;
use affc_system::System;
use affc_trace::TimeMap;
use sqlite_items::Items;
use std::alloc::{AllocError, Global};

/// Adds the rows that a column equals the form of its time.
#[tactic(auto, using(crate::proofs::Composed::column_wide))]
fn add_component(
    alloc: Global,
    columns: u32,
    component: u32,
    images: &[Form],
    form: &Form,
    out: &mut Items<Form>,
) -> Result<(), AllocError>
    requires images { AreImages columns images.now }
    requires row { IsRow (length images.now) form.now }
    ensures { OnOk result (out.new ≡ out.old ++ compare_rows Equal (column_form columns component) (form_at columns images.now form.now)) }
{
    let own = Form::column(alloc, columns, component)?;
    let time = image_of(alloc, columns, images, form)?;
    add_equal_rows(alloc, columns, &own, &time, out)
}

/// Adds, for each component, the rows that it equals the form of its time.
fn add_components(
    alloc: Global,
    columns: u32,
    first: u32,
    images: &[Form],
    forms: &[Form],
    out: &mut Items<Form>,
) -> Result<(), AllocError>
    requires images { AreImages columns images.now }
    requires rows { All (IsRow (length images.now)) forms.now }
    requires few { first + length forms.now ≤ 1000 }
    ensures { OnOk result (out.new ≡ out.old ++ component_rows columns first images.now forms.now) }
{
    match forms {
        [] => Ok(()),
        [form, rest @ ..] => {
            add_component(alloc, columns, first, images, form, out)?;
            add_components(alloc, columns, first + 1, images, rest, out)
        }
    }
}

/// What stands for the parameters and the iterators: the parameters themselves, and the inverse.
fn images(
    alloc: Global,
    params: u32,
    columns: u32,
    inverse: &[Form],
) -> Result<Vec<Form>, AllocError>
    requires { params ≤ 128 }
    ensures { IfOk result (λ v. v.items ≡ columns_from columns 0 params ++ inverse.now) }
{
    let mut made = columns_from(alloc, columns, 0, params)?;
    add_copies(inverse, &mut made)?;
    Ok(made)
}

/// The system over the parameters and then the components, by the rows of a domain, the times and their inverse.
fn system_by(
    alloc: Global,
    params: u32,
    domain: &[Form],
    times: &[Form],
    inverse: &[Form],
) -> Result<System, AllocError>
    requires { AreComposable params domain.now times.now inverse.now }
    ensures { IfOk result (λ s. s ≡ time_system params domain.now times.now inverse.now) }
{
    let columns = params + times.len() as u32;
    let images = images(alloc, params, columns, inverse)?;
    let mut rows = Vec::new(alloc);
    add_images(alloc, columns, images.as_slice(), domain, &mut rows)?;
    let mut equal = Items::new(alloc);
    add_components(alloc, columns, params, images.as_slice(), times, &mut equal)?;
    let mut system = System::new(alloc, columns);
    add_rows(&mut system, rows.as_slice())?;
    add_rows(&mut system, equal.as_slice())?;
    Ok(system)
}

/// The system of a statement's time set, over the parameters and then the components.
pub fn time_system(
    alloc: Global,
    nest: &Nest,
    entry: &Entry,
    map: &TimeMap,
) -> Result<System, AllocError>
    requires { IsTimed nest.now entry.now map.now }
    ensures { IfOk result (λ s. s ≡ time_system (length nest.now.params) entry.now.domain.rows map.now.forms map.now.inverse) }
{
    let params = nest.params.ranges().len() as u32;
    let domain = entry.domain.rows();
    system_by(
        alloc,
        params,
        domain,
        map.forms.as_slice(),
        map.inverse.as_slice(),
    )
}
