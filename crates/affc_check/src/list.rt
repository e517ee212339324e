//! The items of certificates: the questions that a certificate answers, and the points that it shows.

pub mod all;
pub(crate) mod bounds;
pub mod folds;
pub(crate) mod groups;
pub mod item;
pub mod laws;
pub(crate) mod listing;
pub mod shown;
pub mod stop;
pub(crate) mod trees;

pub use all::{all_items, groups_of, list_all, systems_of};
pub use folds::list_fold;
pub use item::{Groups, Item, Listed, Point};
pub use stop::{PartStop, Stop};
