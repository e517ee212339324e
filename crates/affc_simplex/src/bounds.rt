//! Boxes as the bounds of their columns.

/// The range of a column, from its least value to its greatest, and the numbers of the rows that say it.
#[derive(Clone, Copy)]
pub struct Bound {
    pub low: i64,
    pub high: i64,
    pub low_row: u32,
    pub high_row: u32,
}
