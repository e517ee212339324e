//! What stands round a statement.

use affc_ast::text::Text;
use affc_ast::tree::{Cond, Ix, Rel};

/// A loop, by its iterator and its bounds, or the condition of an `if`, which is denied round the other branch.
#[derive(Clone, Copy, Drop)]
pub enum Frame<'a> {
    Loop {
        iter: &'a Text,
        low: &'a Ix,
        rel: Rel,
        high: &'a Ix,
    },
    Test {
        cond: &'a Cond,
        is_denied: bool,
    },
}
