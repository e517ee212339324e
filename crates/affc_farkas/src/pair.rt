//! Pairs of rows.

/// The row that cancels a column between two rows, given by their numbers: the first is positive in the column, the second negative.
///
/// The input's rows have the first numbers, and the rows of an elimination's pairs have the next ones, in their order.
#[derive(Debug, Clone, Copy, PartialEq, Eq)]
pub struct Pair {
    pub first: u32,
    pub second: u32,
    pub column: u32,
}
