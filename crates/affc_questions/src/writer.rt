//! Parts that store an array.
use affc_nest::{Access, Entry};

/// A part and its store.
#[derive(Clone, Copy, Drop)]
pub(crate) struct Writer<'a> {
    pub entry: &'a Entry,
    pub store: &'a Access,
}
