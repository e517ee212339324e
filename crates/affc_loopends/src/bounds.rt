//! Between which ends a component of a statement's time runs.

use affc_farkas::Pair;
use affc_rows::Form;
use affc_system::System;

/// Why a component has no ends.
#[derive(Drop)]
pub enum Why {
    /// These 4,096 pairs are an elimination: of the system that was asked, or else of the time system.
    Made {
        asked: Option<System>,
        made: Vec<Pair>,
    },
    /// These pairs are an elimination, and in the row of the next one a number is too great.
    Wide {
        asked: Option<System>,
        made: Vec<Pair>,
        next: Pair,
    },
    /// A projected row that might pass `int64_t`.
    Large {
        row: Form,
    },
    /// Nine projected rows that bound one end, none of which the others imply.
    Nine {
        rows: Vec<Form>,
    },
}

/// The ends of a component, as rows over the columns up to it that are to be at least 0; or why there are none.
#[derive(Drop)]
pub enum Bounds {
    Between { lower: Vec<Form>, upper: Vec<Form> },
    Loose { why: Why },
}

/// Why something about ends ends early.
#[derive(Drop)]
pub(crate) enum Stop {
    Memory,
    Loose { why: Why },
}

/// What elimination says of a row beside others.
#[derive(Drop)]
pub(crate) enum Answer {
    /// Whole numbers that meet the others meet it.
    Implied,
    /// Some rational point meets the others, and the row is at most -1 there.
    Apart,
    /// 4,096 pairs of the system that says so.
    Made {
        asked: System,
        made: Vec<Pair>,
    },
    /// In the row of the next pair a number is too great.
    Wide {
        asked: System,
        made: Vec<Pair>,
        next: Pair,
    },
}
