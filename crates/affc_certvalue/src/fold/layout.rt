//! What the shape of a fold depends on.
ghost use Rattle.std.specs.Prelude.{◌≤◌};

/// A temporary of at least one dimension, by its `ArrayId`.
#[derive(Clone, Copy)]
pub struct Temporary {
    pub array: u32,
    pub dimensions: u32,
    ghost few: { dimensions ≤ 4 },
}
