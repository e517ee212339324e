//! Whether the numbers of folds fit 64 bits.
ghost use Rattle.affc_certvalue.specs.Limits.{FitsForm};
ghost use Rattle.std.specs.List.{All};
ghost use Rattle.std.specs.Prelude.{◌↔◌, IsTrue};

use crate::fits::form_fits;
use crate::fold::fold::{CertFold, CertModulus};

fn moduli_fit(moduli: &[CertModulus]) -> bool
    ensures { IsTrue result ↔ All (λ m. FitsForm m.form) moduli.now }
{
    moduli.iter().all(|modulus| form_fits(&modulus.form))
}

pub fn folds_fit(folds: &[CertFold]) -> bool
    ensures { IsTrue result ↔ All (λ f. All (λ m. FitsForm m.form) f.moduli) folds.now }
{
    folds.iter().all(|fold| moduli_fit(fold.moduli.as_slice()))
}
