//! Leaves of the trees of loads.
use affc_nest::{Access, Entry, Nest};
use affc_quast::leaves::Leaf;

/// A load of a part, and a leaf of its tree.
#[derive(Clone, Copy, Drop)]
pub(crate) struct Reading<'a> {
    pub nest: &'a Nest,
    pub reader: &'a Entry,
    pub load: &'a Access,
    pub leaf: &'a Leaf,
}
