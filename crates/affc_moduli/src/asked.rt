//! What is given for successive moduli, and what is asked for one of them.
ghost use Rattle.std.specs.Prelude.{◌≡◌, ◌^◌, ◌≤ℤ◌, pos};

use affc_rows::Form;
use affc_split::maximum::Region;
use affc_system::{BoxOf, PairSystem, System};

/// What is wanted of moduli, and what is known of them.
#[derive(Clone, Copy, Drop)]
pub struct Hint<'a> {
    /// Whether only the least constants are wanted, with any elements that have the distance.
    pub quick: bool,
    /// The least constant of each row, as far as these are known. What is wrong here costs time alone.
    pub known: &'a [u64],
}

/// What is given: pairs of elements that are to be kept apart, and the rows along which they are, in a context.
#[derive(Clone, Copy, Drop)]
pub struct Given<'a> {
    pub pairs: &'a [PairSystem],
    pub extents: &'a [Form],
    pub context: &'a System,
    pub ranges: &'a BoxOf,
    pub rows: &'a [Form],
    /// A point of the context, unless the budget ended before one was found.
    pub some: &'a Option<Vec<i64>>,
    pub hint: Hint<'a>,
}

/// The row with a number, and for each system how far apart the elements lie along it, as forms: forward and backward.
#[derive(Clone, Copy, Drop)]
pub struct Line<'a> {
    pub k: usize,
    pub row: &'a Form,
    pub fs: &'a [Form],
    pub gs: &'a [Form],
}

/// What is asked: the modulus of a row, over its slice of each system.
#[derive(Clone, Copy, Drop)]
pub struct AskedRow<'a> {
    pub given: Given<'a>,
    pub line: Line<'a>,
    pub regions: &'a [Region],
}

/// How far apart the elements of one system lie in its region, one way: as a form, and whether the second is shown before the first.
#[derive(Clone, Copy, Drop)]
pub struct Way<'a> {
    pub number: usize,
    pub system: &'a PairSystem,
    pub region: &'a Region,
    pub form: &'a Form,
    pub turned: bool,
}

/// How the greatest distance along a row is sought.
#[derive(Clone, Copy, Drop)]
pub struct Aim {
    /// Whether only the distance is wanted, and any elements that have it.
    pub quick: bool,
    /// The distance from which on there is something to be found, or 0 where none is known.
    pub start: i64,
    ghost natural: { pos 0 ≤ℤ start },
    ghost near: { start ≤ℤ pos (2 ^ 53) },
}

impl Given<'_> {
    /// How many parameters there are.
    pub fn parameters(&self) -> usize
        ensures { result ≡ self.now.context.now.columns }
    {
        self.context.columns() as usize
    }
}
