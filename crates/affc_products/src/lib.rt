//! Questions in product form, and whether proofs show that they have no integer point.
#![tactic(auto)]

pub mod block;
mod chosen;
mod copies;
pub mod group;
pub mod product;
pub mod question;
pub mod step;
mod walk;

pub use block::Block;
pub use group::{Group, no_tail};
pub use product::product_fits;
pub use question::is_proof;
pub use step::Step;
