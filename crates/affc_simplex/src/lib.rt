//! Boxes as the bounds of their columns, and what the simplex method finds in them: sums of rows that are below 0 in a whole box,
//! rational points, least points, forms that take few values. Nothing of it is promised; whoever takes it tests it.
#![tactic(auto)]

mod basis;
pub mod bounds;
pub mod cells;
mod center;
pub mod flat;
mod least;
pub mod number;
pub mod pairs;
pub mod rounds;
pub mod simplex;
mod tableau;
pub mod vertices;

pub use bounds::Bound;
pub use least::Least;
pub use vertices::Vertex;
