//! Whether the numbers of a proof fit 64 bits.
ghost use Rattle.affc_certvalue.specs.proof.Limits.{FitsProof};
ghost use Rattle.affc_certvalue.specs.Limits.{IsWord};
ghost use Rattle.std.specs.Prelude.{◌↔◌, ◌-ℤ◌, IsTrue};

use crate::fits::{are_words, form_fits, is_word};
use affc_farkas::Proof;

/// Whether a number less another fits.
fn difference_fits(at: i64, constant: i128) -> bool
    ensures { IsTrue result ↔ IsWord (at -ℤ constant) }
{
    match i128::from(at).checked_sub(constant) {
        None => false,
        Some(number) => is_word(number),
    }
}

pub fn proof_fits(proof: &Proof) -> bool
    ensures { IsTrue result ↔ FitsProof proof.now }
{
    match proof {
        Proof::Leaf(_) => true,
        Proof::Cut { row, rest, .. } => form_fits(row) && proof_fits(rest),
        Proof::Split {
            form,
            at,
            low,
            high,
        } => {
            are_words(form.coefs.as_slice())
                && difference_fits(*at, form.constant)
                && proof_fits(low)
                && proof_fits(high)
        }
    }
}
