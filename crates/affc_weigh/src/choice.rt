//! What is told of the cost of a fold.

use sqlite_items::Items;

/// What a basis comes to: a number for each of its rows, as the greatest values of its moduli, and what these cost.
#[derive(Drop)]
pub struct Price {
    pub values: Items<u64>,
    pub cost: u128,
}

/// What a fold costs. Where its basis was chosen, it has this number among those that are listed, and each of these comes
/// to its price, in order; a price that wasn't found is missing. Where the basis was given there are no prices.
#[derive(Drop)]
pub struct Choice {
    pub cost: u128,
    pub number: u32,
    pub prices: Items<Option<Price>>,
}
