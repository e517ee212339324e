//! The greatest value of a form over the integer points of regions.

mod gap;
pub mod region;
pub mod search;
pub mod several;

pub use region::Region;
pub use search::{Best, maximum, reaching};
pub use several::Found;
