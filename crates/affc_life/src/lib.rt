//! Elements of an array that are live together, as integer systems.
#![tactic(auto)]

pub mod clash;
pub mod columns;
mod draft;
mod drafts;
pub mod examples;
pub mod fault;
pub mod laws;
pub mod path;
pub mod product;
mod products;
mod ranges;
pub mod stores;
pub mod systems;
pub mod walk;

pub use clash::ClashProduct;
pub use fault::ClashFault;
pub use product::{Found, Place, found_at, place_of};
pub use walk::{clash_products, leaf_products};
