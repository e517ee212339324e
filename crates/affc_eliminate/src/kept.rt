//! Rows with the multipliers by which they are sums of other rows.

use affc_farkas::{Multipliers, Pair};
use affc_rows::Form;

/// A row, the multipliers by which it is the sum of an elimination's first rows, and the number by which pairs name it.
#[derive(Drop)]
pub struct Kept {
    pub row: Form,
    pub from: Multipliers,
    pub number: u32,
}

/// What is left of rows once a column is eliminated.
#[derive(Drop)]
pub enum Step {
    /// The rows without the column, and the pairs that were made.
    Rows { rows: Vec<Kept>, made: Vec<Pair> },
    /// These pairs were made, and in the row of the next one a number is too great.
    TooWide { made: Vec<Pair>, next: Pair },
}
