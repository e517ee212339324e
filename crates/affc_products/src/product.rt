//! Whether questions in product form keep the limits of a system.
ghost use Rattle.std.specs.Prelude.{◌≡◌, ◌≤◌, ◌<◌, ◌+◌, ◌↔◌, ◌++◌, ◌∷◌, [], length, IsTrue, IfSome, IfNone, OnSome};
ghost use Rattle.std.specs.List.{All};
ghost use Rattle.affc_system.specs.Systems.{IsRow};
ghost use Rattle.affc_products.specs.Parts.{IsWithin};
ghost use Rattle.affc_products.specs.Blocks.{product, block_questions, longest, tallest, AnyPast};

use crate::block::Block;
use affc_rows::Form;
use affc_system::are_rows;
use affc_system::system::{MOST_COLUMNS, MOST_ROWS};
use sqlite_items::Items;
use std::alloc::Global;

/// Whether each factor has an alternative.
fn have_alternatives(factors: &[Items<Items<Form>>]) -> bool
    ensures { IsTrue result ↔ All (λ f. 0 < length f) factors.now }
{
    factors.iter().all(|factor| factor.len() > 0)
}

/// Whether there is a choice at all.
fn has_choice(factors: &[Items<Items<Form>>], tails: &[Items<Form>]) -> bool
    ensures { IsTrue result ↔ All (λ f. 0 < length f) (factors.now ++ tails.now ∷ []) }
{
    tails.len() > 0 && have_alternatives(factors)
}

/// Whether the rows of each alternative are over so many columns.
fn alternatives_fit(columns: u32, alternatives: &[Items<Form>]) -> bool
    ensures { IsTrue result ↔ All (All (IsRow columns)) alternatives.now }
{
    alternatives
        .iter()
        .all(|rows| are_rows(columns, rows.as_slice()))
}

/// Whether the rows of each factor are over so many columns.
fn factors_fit(columns: u32, factors: &[Items<Items<Form>>]) -> bool
    ensures { IsTrue result ↔ All (All (All (IsRow columns))) factors.now }
{
    factors.iter().all(|alternatives| alternatives_fit(columns, alternatives.as_slice()))
}

/// The most rows of an alternative.
fn longest_of(alternatives: &[Items<Form>]) -> usize
    ensures { result ≡ longest alternatives.now }
{
    let mut most = 0;
    for rows in alternatives {
        let rows = rows.len();
        if rows > most {
            most = rows;
        }
    }
    most
}

/// Whether there is room for the longest alternative of each factor.
fn has_room(room: usize, factors: &[Items<Items<Form>>], tails: &[Items<Form>]) -> bool
    ensures { IsTrue result ↔ (tallest (factors.now ++ tails.now ∷ []) ≤ room) }
{
    match factors {
        [] => longest_of(tails) <= room,
        [first, rest @ ..] => {
            let most = longest_of(first.as_slice());
            most <= room && has_room(room - most, rest, tails)
        }
    }
}

/// Whether there is room behind the front.
fn has_room_behind(front: usize, factors: &[Items<Items<Form>>], tails: &[Items<Form>]) -> bool
    ensures { IsTrue result ↔ (front + tallest (factors.now ++ tails.now ∷ []) ≤ 1024) }
{
    front <= MOST_ROWS && has_room(MOST_ROWS - front, factors, tails)
}

/// Whether the rows fit, and each choice.
fn keep(columns: u32, front: &[Form], factors: &[Items<Items<Form>>], tails: &[Items<Form>]) -> bool
    ensures { IsTrue result ↔ ((columns ≤ 128) × All (IsRow columns) front.now × All (All (All (IsRow columns))) factors.now
        × All (All (IsRow columns)) tails.now × (length front.now + tallest (factors.now ++ tails.now ∷ []) ≤ 1024)) }
{
    columns <= MOST_COLUMNS
        && are_rows(columns, front)
        && factors_fit(columns, factors)
        && alternatives_fit(columns, tails)
        && has_room_behind(front.len(), factors, tails)
}

/// Whether each question of a product keeps the limits of a system. The tails are its last factor.
pub fn product_fits(
    columns: u32,
    front: &[Form],
    factors: &[Items<Items<Form>>],
    tails: &[Items<Form>],
) -> bool
    ensures fits { IsTrue result → All IsWithin (product columns front.now (factors.now ++ tails.now ∷ [])) }
    ensures past { ¬ (IsTrue result) → AnyPast (product columns front.now (factors.now ++ tails.now ∷ [])) }
{
    if !has_choice(factors, tails) {
        return true;
    }
    keep(columns, front, factors, tails)
}

/// A block without questions.
fn no_questions<'a>(alloc: Global) -> Block<'a>
    ensures { block_questions result ≡ [] }
{
    Block {
        columns: 0,
        front: &[],
        factors: &[],
        tails: Items::new(alloc),
    }
}

impl<'a> Block<'a> {
    /// The questions of a product, unless one passes the limits of a system. The tails are its last factor.
    pub fn of(
        alloc: Global,
        columns: u32,
        front: &'a [Form],
        factors: &'a [Items<Items<Form>>],
        tails: Items<Items<Form>>,
    ) -> Option<Block<'a>>
        ensures same { IfSome result (λ b. block_questions b ≡ product columns front.now (factors.now ++ tails ∷ [])) }
        ensures within { OnSome result (All IsWithin (product columns front.now (factors.now ++ tails ∷ []))) }
        ensures past { IfNone result (AnyPast (product columns front.now (factors.now ++ tails ∷ []))) }
    {
        if !has_choice(factors, tails.as_slice()) {
            return Some(no_questions(alloc));
        }
        if !keep(columns, front, factors, tails.as_slice()) {
            return None;
        }
        Some(Block {
            columns,
            front,
            factors,
            tails,
        })
    }
}
