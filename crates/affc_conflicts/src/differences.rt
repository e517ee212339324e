//! How far apart two elements lie along a row, as a form.

pub mod row;

pub use row::difference;
