//! Forms whose columns are replaced by others.
ghost use Rattle.std.specs.Prelude.{◌≡◌, ◌++◌, length, map, IfOk, OnOk};
ghost use Rattle.std.specs.List.{All};
ghost use Rattle.affc_system.specs.Systems.{IsRow};
ghost use Rattle.affc_order.specs.Placed.{AreImages};
ghost use Rattle.affc_order.specs.Posed.{form_at};

use affc_rows::Form;
use std::alloc::{AllocError, Global};

/// The form with each of its columns replaced by its image, over so many columns.
pub fn image_of(
    alloc: Global,
    columns: u32,
    images: &[Form],
    form: &Form,
) -> Result<Form, AllocError>
    requires images { AreImages columns images.now }
    requires row { IsRow (length images.now) form.now }
    ensures { IfOk result (λ f. f ≡ form_at columns images.now form.now) }
{
    form.at_images(alloc, columns, images)
}

/// Adds these forms, each with its columns replaced.
pub fn add_images(
    alloc: Global,
    columns: u32,
    images: &[Form],
    forms: &[Form],
    out: &mut Vec<Form>,
) -> Result<(), AllocError>
    requires images { AreImages columns images.now }
    requires rows { All (IsRow (length images.now)) forms.now }
    ensures { OnOk result (out.new.items ≡ out.old.items ++ map (form_at columns images.now) forms.now) }
{
    match forms {
        [] => Ok(()),
        [form, rest @ ..] => {
            out.push(image_of(alloc, columns, images, form)?)?;
            add_images(alloc, columns, images, rest, out)
        }
    }
}
