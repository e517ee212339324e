//! What a node is, and where it stands.

/// A node of a tree, by its tag.
#[derive(Clone, Copy)]
pub enum TreeKind {
    Test,
    Div,
    Source,
    Input,
    Other,
}

/// A place of a tree: how many columns it has, and how many inner nodes stand above it.
#[derive(Clone, Copy)]
pub struct Place {
    pub columns: usize,
    pub inner: usize,
}
