//! What a fold comes to.
ghost use Rattle.std.specs.Prelude.{◌≡◌, IfOk, IfNone, IfSome, true, false, map};
ghost use Rattle.std.specs.List.{All, list_all};
ghost use Rattle.affc_weigh.specs.Costs.{AreModuli};
ghost use Rattle.affc_weigh.specs.Choices.{is_zero, known_by, marked_by, are_known, is_marked, top, HasTop};

use crate::choice::Price;
use crate::weigher::{Cost, Weigher};
use affc_basis::{Fold, Mark, Modulus};
use affc_rows::Form;
use affc_system::value_at;
use sqlite_items::Items;
use std::alloc::{AllocError, Global};

/// A fold with the greatest values of its moduli and their cost, and whether each modulus is marked.
#[derive(Drop)]
pub struct Rated {
    pub fold: Fold,
    pub price: Price,
    pub marked: bool,
}

/// Whether all coefficients are 0.
fn are_zero(coefs: &[i128]) -> bool
    ensures { result ≡ list_all is_zero coefs.now }
{
    match coefs {
        [] => true,
        [c, rest @ ..] => *c == 0 && are_zero(rest),
    }
}

/// Whether the greatest value of a modulus is known.
fn is_known(form: &Form, mark: &Mark) -> bool
    ensures { result ≡ known_by form.now mark.now }
{
    match mark {
        Mark::Least { p: _, pair: _ } => true,
        Mark::Bound => are_zero(form.coefs.as_slice()),
    }
}

/// Whether that of each is known.
fn are_known(moduli: &[Modulus]) -> bool
    ensures { result ≡ are_known moduli.now }
{
    match moduli {
        [] => true,
        [modulus, rest @ ..] => is_known(&modulus.form, &modulus.mark) && are_known(rest),
    }
}

/// Whether a modulus is marked least.
fn is_marked(mark: &Mark) -> bool
    ensures { result ≡ marked_by mark.now }
{
    match mark {
        Mark::Least { p: _, pair: _ } => true,
        Mark::Bound => false,
    }
}

/// Whether each is.
fn are_marked(moduli: &[Modulus]) -> bool
    ensures { result ≡ list_all is_marked moduli.now }
{
    match moduli {
        [] => true,
        [modulus, rest @ ..] => is_marked(&modulus.mark) && are_marked(rest),
    }
}

/// The greatest value of a modulus.
fn top(modulus: &Modulus) -> u64
    requires { HasTop modulus.now }
    ensures { result ≡ top modulus.now }
{
    let value = match &modulus.mark {
        Mark::Least { p, pair: _ } => value_at(&modulus.form, p.as_slice()),
        Mark::Bound => modulus.form.constant,
    };
    value.unsigned_abs() as u64
}

/// Those of several.
#[tactic(auto, using(std::proofs::lemmas::List::map_more))]
fn tops(alloc: Global, moduli: &[Modulus]) -> Result<Items<u64>, AllocError>
    requires { All HasTop moduli.now }
    ensures { IfOk result (λ ns. ns ≡ map top moduli.now) }
{
    let mut tops = Items::new(alloc);
    for modulus in moduli {
        tops.push(top(modulus))?;
    }
    Ok(tops)
}

/// What a fold comes to, where the greatest value of each modulus is known.
pub fn rate<F: Cost>(
    alloc: Global,
    fold: Fold,
    cost: &Weigher<F>,
) -> Result<Option<Rated>, AllocError>
    requires tops { All HasTop fold.moduli }
    requires moduli { are_known fold.moduli ≡ true → AreModuli (map top fold.moduli) }
    ensures none { IfOk result (λ found. IfNone found (are_known fold.moduli ≡ false)) }
    ensures known { IfOk result (λ found. IfSome found (λ r. are_known fold.moduli ≡ true)) }
    ensures fold { IfOk result (λ found. IfSome found (λ r. r.fold ≡ fold)) }
    ensures values { IfOk result (λ found. IfSome found (λ r. r.price.values ≡ map top fold.moduli)) }
    ensures cost { IfOk result (λ found. IfSome found (λ r. F.answers cost.now.cost r.price.values r.price.cost)) }
    ensures marked { IfOk result (λ found. IfSome found (λ r. r.marked ≡ list_all is_marked fold.moduli)) }
{
    let moduli = fold.moduli.as_slice();
    if !are_known(moduli) {
        return Ok(None);
    }
    let values = tops(alloc, moduli)?;
    let cost = cost.cost(values.as_slice());
    let marked = are_marked(moduli);
    let price = Price { values, cost };
    Ok(Some(Rated {
        fold,
        price,
        marked,
    }))
}
