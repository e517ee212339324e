//! Stores and spans of slots.

use crate::span::Span;

/// A store into a slot, whose value is wanted up to an instant.
#[derive(Clone, Copy, Debug, PartialEq, Eq)]
pub struct Stored {
    pub slot: usize,
    pub until: usize,
}

/// A span in which a slot is live.
#[derive(Clone, Copy, Debug, PartialEq, Eq)]
pub struct Life {
    pub slot: usize,
    pub span: Span,
}
