//! How many stages a pipeline is made of.

ghost use Rattle.std.specs.Prelude.{◌≤◌};

/// From 1 to 62 stages.
#[derive(Clone, Copy)]
pub struct Stages {
    pub count: u32,
    ghost some: { 1 ≤ count },
    ghost few: { count ≤ 62 },
}
