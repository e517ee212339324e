//! Forms at the columns of a clash system.
ghost use Rattle.std.specs.Prelude.{◌≡◌, ◌≤◌, ◌++◌, length, map, OnOk};
ghost use Rattle.std.specs.List.{All};
ghost use Rattle.affc_rows.specs.Vocabulary.{padded};

use affc_rows::Form;
use std::alloc::{AllocError, Global};

/// Adds forms, each with as many zeros behind as make so many columns.
pub fn add_padded(
    alloc: Global,
    columns: u32,
    forms: &[Form],
    out: &mut Vec<Form>,
) -> Result<(), AllocError>
    requires { All (λ f. length f.coefs ≤ columns) forms.now }
    ensures { OnOk result (out.new.items ≡ out.old.items ++ map (padded columns) forms.now) }
{
    out.reserve(forms.len())?;
    match forms {
        [] => Ok(()),
        [form, rest @ ..] => {
            out.push(form.padded(alloc, columns)?)?;
            add_padded(alloc, columns, rest, out)
        }
    }
}
