//! A program's loop nests as integer systems: domains, accesses, extents and context, and the questions whether
//! extents are at least 1 and accesses lie within them.
#![tactic(auto)]

mod accesses;
pub mod divisions;
mod domains;
mod entries;
pub mod examples;
mod extraction;
pub mod forms;
mod frames;
pub mod laws;
pub mod lists;
pub mod nest;
pub mod questions;
mod ranges;
pub mod rows;
mod sites;

pub use divisions::Division;
pub use domains::relation;
pub use extraction::{Extracted, all_sites, extract, extract_any};
pub use frames::Frame;
pub use nest::{Access, ArrayInfo, Entry, Nest, NestFault};
pub use ranges::{greatest, least};
pub use sites::Site;
