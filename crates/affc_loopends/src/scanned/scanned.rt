//! A program in the order of a schedule, and what its loops run between.

use crate::Why;
use affc_ast::tree::Program;

/// A component of a statement's time that has no ends but its range.
#[derive(Drop)]
pub struct Loose {
    /// The number of the statement, in order of the source.
    pub statement: u32,
    /// The number of the component.
    pub component: u32,
    /// Why no ends were projected.
    pub why: Why,
}

/// The program of a schedule.
#[derive(Drop)]
pub struct Scanned {
    pub program: Program,
    /// The components without ends, in order of the statements that can have instances, and of each statement's components.
    pub loose: Vec<Loose>,
}
