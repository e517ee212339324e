//! How names are hashed.

use std::hash::{BuildHasher, DefaultHasher, Hasher};

/// Spreads names by all bytes of the text that they stand in. A text whose names fall together is hard to make: with each
/// name that it changes, all of them are spread in another way.
#[derive(Clone, Copy, Drop)]
pub struct Spread {
    start: DefaultHasher,
}

impl Spread {
    pub fn by(text: &[u8]) -> Spread {
        let mut start = DefaultHasher::new();
        start.write(text);
        Spread { start }
    }
}

impl BuildHasher for Spread {
    type Hasher = DefaultHasher;

    ghost build_hasher = { λ s. s.start };

    fn build_hasher(&self) -> DefaultHasher {
        self.start
    }
}
