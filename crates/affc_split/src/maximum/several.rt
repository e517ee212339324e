//! Values of several forms, each in a region of its own.

/// A value, and the region and the point at which it is attained.
#[derive(Drop)]
pub struct Found {
    pub number: usize,
    pub value: i64,
    pub point: Vec<i64>,
}
