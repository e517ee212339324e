//! What the shape of a certificate depends on.
use crate::tree::layout::Load;
use affc_certvalue::fold::layout::Temporary;
use sqlite_items::Items;

/// The parameters of a program, its loads, statements and loads in order, and its temporaries of at least one dimension, in order.
#[derive(Drop)]
pub struct Layout {
    pub parameters: u32,
    pub loads: Items<Load>,
    pub temporaries: Items<Temporary>,
}
