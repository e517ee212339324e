//! One of the clash systems of products by its number.
ghost use Rattle.std.specs.Prelude.{◌≡◌, ◌++◌, ◌∷◌, flat_map, Some, slice_get, IfOk, IfSome, IfNone};
ghost use Rattle.std.specs.List.{All};
ghost use Rattle.affc_system.specs.Systems.{IsRow};
ghost use Rattle.affc_products.specs.Blocks.{choices};
ghost use Rattle.affc_life.specs.Products.{systems_in, found_system};
ghost use Rattle.affc_life.specs.Sought.{IsSought, IsPlace};

use crate::clash::ClashProduct;
use affc_nest::lists::{add_copies, copied};
use affc_rows::Form;
use sqlite_items::Items;
use std::alloc::{AllocError, Global};

/// A system of a product: the base's, with these rows behind its own.
#[derive(Drop)]
pub struct Found<'a> {
    pub product: &'a ClashProduct,
    pub rows: Items<Form>,
}

/// What seeking a choice by its number, from 0, came to.
#[derive(Drop)]
enum Sought {
    /// Its rows.
    Choice(Items<Form>),
    /// There are too few: how far the number is past them.
    Past(usize),
}

/// Copies of rows, and copies of others behind them.
fn behind(alloc: Global, rows: &[Form], more: &[Form]) -> Result<Items<Form>, AllocError>
    ensures { IfOk result (λ r. r ≡ rows.now ++ more.now) }
{
    let mut out = copied(alloc, rows)?;
    add_copies(more, &mut out)?;
    Ok(out)
}

/// The choice with this number among those of one of these alternatives and one of each factor behind it.
#[cycle(seek)]
fn seek_among(
    alloc: Global,
    alternatives: &[Items<Form>],
    factors: &[Items<Items<Form>>],
    number: usize,
) -> Result<Sought, AllocError>
    ensures { IfOk result (λ s. IsSought (choices (alternatives.now ∷ factors.now)) number s) }
{
    match alternatives {
        [] => Ok(Sought::Past(number)),
        [first, others @ ..] => match seek(alloc, factors, number)? {
            Sought::Choice(rows) => {
                let all = behind(alloc, first.as_slice(), rows.as_slice())?;
                Ok(Sought::Choice(all))
            }
            Sought::Past(left) => seek_among(alloc, others, factors, left),
        },
    }
}

/// The choice with this number among those of one alternative of each factor.
#[cycle(seek)]
fn seek(alloc: Global, factors: &[Items<Items<Form>>], number: usize) -> Result<Sought, AllocError>
    ensures { IfOk result (λ s. IsSought (choices factors.now) number s) }
{
    match factors {
        [] => {
            if number == 0 {
                return Ok(Sought::Choice(Items::new(alloc)));
            }
            Ok(Sought::Past(number - 1))
        }
        [alternatives, rest @ ..] => seek_among(alloc, alternatives.as_slice(), rest, number),
    }
}

/// Where the system with a number, from 0, stands among those of products.
#[derive(Drop)]
pub enum Place<'a> {
    /// It is one of them.
    Here(Found<'a>),
    /// There are too few: how far the number is past them.
    Past(usize),
}

/// The system with this number, from 0, of these products, or how far the number is past them.
pub fn place_of<'a>(
    alloc: Global,
    products: &'a [ClashProduct],
    number: usize,
) -> Result<Place<'a>, AllocError>
    ensures { IfOk result (IsPlace products.now number) }
{
    let mut left = number;
    for product in products {
        match seek(alloc, product.factors.as_slice(), left)? {
            Sought::Choice(rows) => return Ok(Place::Here(Found { product, rows })),
            Sought::Past(further) => left = further,
        }
    }
    Ok(Place::Past(left))
}

/// The rows behind the base's of the system with this number, from 0, of these products; and the product it is of.
pub fn found_at<'a>(
    alloc: Global,
    products: &'a [ClashProduct],
    number: usize,
) -> Result<Option<Found<'a>>, AllocError>
    ensures some { IfOk result (λ o. IfSome o (λ found. slice_get (flat_map systems_in products.now) number ≡ Some (found_system found))) }
    ensures fit { IfOk result (λ o. IfSome o (λ found. All (IsRow found.product.now.base.system.columns) found.rows)) }
    ensures none { IfOk result (λ o. IfNone o (slice_get (flat_map systems_in products.now) number ≡ None)) }
{
    match place_of(alloc, products, number)? {
        Place::Here(found) => Ok(Some(found)),
        Place::Past(_left) => Ok(None),
    }
}
