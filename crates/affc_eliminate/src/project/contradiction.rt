//! Rows that no point meets.
ghost use Rattle.std.specs.Prelude.{◌≡◌, ◌↔◌, ◌<◌, ◌∷◌, [], length, slice_index_or, IfOk, IfSome, IfNone, IsTrue};
ghost use Rattle.std.specs.List.{All};
ghost use Rattle.affc_eliminate.specs.project.States.{IsContradiction, HasContradiction};

use crate::Kept;
use crate::project::work::Work;
use affc_rows::Form;
use std::alloc::{AllocError, Global};

/// Whether all coefficients are 0, and the constant is below 0.
fn is_contradiction(row: &Form) -> bool
    ensures { IsTrue result ↔ IsContradiction row.now }
{
    row.constant < 0 && row.coefs.as_slice().iter().all(|c| *c == 0)
}

/// The place of a row that no point meets, if there is one.
pub(crate) fn contradiction(live: &[Kept]) -> Option<usize>
    ensures some { IfSome result (λ i. (i < length live.now) × ((d : _) → IsContradiction (slice_index_or live.now i d).row)) }
    ensures none { IfNone result (All (λ k. IsContradiction k.row → ⊥) live.now) }
{
    for (place, kept) in live.iter().enumerate() {
        if is_contradiction(&kept.row) {
            return Some(place);
        }
    }
    None
}

/// Whether no point meets some row.
pub(crate) fn has_contradiction(live: &[Kept]) -> bool
    ensures { IsTrue result ↔ HasContradiction live.now }
{
    match contradiction(live) {
        Some(_place) => true,
        None => false,
    }
}

/// The row at this place alone, with the pairs that were made.
pub(crate) fn alone(alloc: Global, work: Work, place: usize) -> Result<Work, AllocError>
    requires { place < length work.live.items }
    ensures live { IfOk result (λ new. (d : _) → new.live.items ≡ slice_index_or work.live.items place d ∷ []) }
    ensures made { IfOk result (λ new. new.made.items ≡ work.made.items) }
{
    let Work { live, made } = work;
    let mut rest = live;
    let kept = rest.remove(place);
    let mut one = Vec::new(alloc);
    one.push(kept)?;
    Ok(Work { live: one, made })
}
