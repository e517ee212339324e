//! Expressions of schedules as lists of steps, of any length and depth.

use affc_ast::Items;
use affc_ast::text::Text;

/// A step takes its operands from a stack, the last one first, and puts what it makes of them there; `at` is the number of its token.
#[derive(Drop)]
pub enum Step {
    Literal { at: usize, value: u64 },
    Name { at: usize, name: Text },
    Negated(usize),
    Sum,
    Difference,
    Product(usize),
    /// Parentheses round an operand.
    Grouped(usize),
}

/// An expression, of which each operand's steps stand before its operation's.
#[derive(Drop)]
pub struct Term {
    pub steps: Items<Step>,
}
