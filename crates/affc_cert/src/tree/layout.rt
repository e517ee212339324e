//! What the shape of a tree depends on.
use sqlite_items::Items;

/// A statement that a tree may name, and how many loops stand round it.
#[derive(Clone, Copy)]
pub struct Store {
    pub statement: u32,
    pub loops: u32,
}

/// A load: how many parameters and iterators its tree has, and the statements that store its array and can have instances.
#[derive(Drop)]
pub struct Load {
    pub columns: u32,
    pub stores: Items<Store>,
}
