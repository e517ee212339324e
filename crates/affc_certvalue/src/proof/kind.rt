//! What a node is.

/// A node of a proof, by its tag.
#[derive(Clone, Copy)]
pub enum Kind {
    Leaf,
    Cut,
    Split,
    Other,
}
