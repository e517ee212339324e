//! The questions of small folds, as laws: `specs/Examples.antt` says each, with rows that were found by hand.
ghost use Rattle.affc_conflicts.specs.Examples.{QuestionsOfTheContext, QuestionsOfNeighbours, SliceOfNeighbours, MarkOfNeighbours};

/// The questions of a modulus over the context.
pub fn context()
    ensures questions { QuestionsOfTheContext }
{}

/// The questions of two neighbours, the rows of their slice, and of a mark.
pub fn neighbours()
    ensures questions { QuestionsOfNeighbours }
    ensures slice { SliceOfNeighbours }
    ensures mark { MarkOfNeighbours }
{}
