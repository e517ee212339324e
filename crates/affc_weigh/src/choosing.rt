//! The fold that is chosen among several.
ghost use Rattle.std.specs.Prelude.{◌≡◌, ◌+◌, ◌<◌, ◌≤◌, ◌^◌, length, map, slice_get, Some, None, IfOk, IfNone, IfSome};
ghost use Rattle.affc_weigh.specs.Choices.{price_of, IsFirstLeast, IsChosen, NoneFound};
ghost use Rattle.affc_weigh.specs.declared.ratings.Rated.{Rated as OneRated};

use crate::choice::{Choice, Price};
use crate::ratings::Rated;
use affc_basis::Fold;
use sqlite_items::Items;
use std::alloc::{AllocError, Global};

/// The number of a fold among others, and its cost.
#[derive(Clone, Copy, Drop)]
struct Place {
    number: usize,
    cost: u128,
}

/// The place behind one more.
fn behind(place: Option<Place>) -> Option<Place>
    requires { IfSome place (λ at. at.number + 1 < 2 ^ 64) }
    ensures none { place ≡ None → result ≡ None }
    ensures some { IfSome place (λ at. result ≡ Some (record { number = at.number + 1; cost = at.cost })) }
{
    match place {
        None => None,
        Some(at) => Some(Place {
            number: at.number + 1,
            cost: at.cost,
        }),
    }
}

/// The cheaper of the first and of the cheapest behind it.
fn cheaper(first: &Rated, rest: Option<Place>) -> Option<Place>
    requires { IfSome rest (λ at. at.number + 1 < 2 ^ 64) }
    ensures none { rest ≡ None → result ≡ Some (record { number = 0; cost = first.now.price.cost }) }
    ensures behind { IfSome rest (λ at. at.cost < first.now.price.cost → result ≡ Some (record { number = at.number + 1; cost = at.cost })) }
    ensures before { IfSome rest (λ at. first.now.price.cost ≤ at.cost → result ≡ Some (record { number = 0; cost = first.now.price.cost })) }
{
    let here = Place {
        number: 0,
        cost: first.price.cost,
    };
    match rest {
        None => Some(here),
        Some(at) => {
            if at.cost < here.cost {
                behind(rest)
            } else {
                Some(here)
            }
        }
    }
}

/// The first of those that cost least.
fn cheapest(found: &[Option<Rated>]) -> Option<Place>
    requires { length found.now < 2 ^ 32 }
    ensures none { IfNone result (NoneFound found.now) }
    ensures some { IfSome result (λ at. (one : OneRated) × IsFirstLeast found.now at.number one × (one.price.cost ≡ at.cost)) }
{
    match found {
        [] => None,
        [first, rest @ ..] => match first {
            None => behind(cheapest(rest)),
            Some(first) => cheaper(first, cheapest(rest)),
        },
    }
}

/// What is told of a fold that was found.
fn price_of(alloc: Global, found: &Option<Rated>) -> Result<Option<Price>, AllocError>
    ensures { IfOk result (λ price. price ≡ price_of found.now) }
{
    let Some(one) = found else {
        return Ok(None);
    };
    if !one.marked {
        return Ok(None);
    }
    let values = Items::from_slice(alloc, one.price.values.as_slice())?;
    let cost = one.price.cost;
    Ok(Some(Price { values, cost }))
}

/// What is told of each.
#[tactic(auto, using(std::proofs::lemmas::List::map_more))]
fn prices_of(alloc: Global, found: &[Option<Rated>]) -> Result<Items<Option<Price>>, AllocError>
    ensures { IfOk result (λ prices. prices ≡ map price_of found.now) }
{
    let mut prices = Items::new(alloc);
    for one in found {
        prices.push(price_of(alloc, one)?)?;
    }
    Ok(prices)
}

/// The first of the folds that cost least, if one was found.
pub fn choose(
    alloc: Global,
    found: Items<Option<Rated>>,
) -> Result<Option<(Fold, Choice)>, AllocError>
    requires { length found < 2 ^ 32 }
    ensures none { IfOk result (λ taken. IfNone taken (NoneFound found)) }
    ensures some { IfOk result (λ taken. IfSome taken (λ t. IsChosen found t.0 t.1)) }
{
    let Some(at) = cheapest(found.as_slice()) else {
        return Ok(None);
    };
    let prices = prices_of(alloc, found.as_slice())?;
    let number = at.number as u32;
    let cost = at.cost;
    let mut found = found;
    match found.remove(at.number) {
        None => unreachable!(),
        Some(one) => Ok(Some((
            one.fold,
            Choice {
                cost,
                number,
                prices,
            },
        ))),
    }
}
