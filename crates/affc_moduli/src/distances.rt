//! Distances along a row, as forms.
ghost use Rattle.std.specs.Prelude.{◌≡◌, ◌≤◌, unsigned_abs, map, IfOk, length};
ghost use Rattle.std.specs.List.{All};
ghost use Rattle.affc_rows.specs.Vocabulary.{opposite, HasOpposite};
ghost use Rattle.affc_moduli.specs.Distances.{HaveDimensions, AreForward};

use affc_conflicts::differences::difference;
use affc_rows::Form;
use affc_system::PairSystem;
use std::alloc::{AllocError, Global};

/// The greatest distance along a row that any two elements within their extents can have, whatever the parameters are.
pub const MOST_DISTANCE: i64 = 1 << 53;

/// For each system the row's value at the first element less that at the second.
pub fn forward(alloc: Global, coefs: &[i128], pairs: &[PairSystem]) -> Result<Vec<Form>, AllocError>
    requires few { length coefs.now ≤ 4 }
    requires small { All (λ c. unsigned_abs c ≤ 256) coefs.now }
    requires wide { HaveDimensions pairs.now (length coefs.now) }
    ensures one_each { IfOk result (λ fs. length fs.items ≡ length pairs.now) }
    ensures forms { IfOk result (λ fs. AreForward pairs.now coefs.now fs.items) }
{
    let mut forms = Vec::new(alloc);
    for s in pairs {
        let form = difference(
            alloc,
            coefs,
            s.x.as_slice(),
            s.y.as_slice(),
            s.system.columns(),
        )?;
        forms.push(form)?;
    }
    Ok(forms)
}

/// The forms with their signs turned: what is forward becomes backward.
pub fn opposites(alloc: Global, forms: &[Form]) -> Result<Vec<Form>, AllocError>
    requires { All HasOpposite forms.now }
    ensures { IfOk result (λ fs. fs.items ≡ map opposite forms.now) }
{
    let mut made = Vec::new(alloc);
    for form in forms {
        made.push(form.opposite(alloc)?)?;
    }
    Ok(made)
}
