//! What holds of the folded program. Each law is the contract of a function that does nothing.
ghost use Rattle.affc_rewrite.specs.Laws.{PrintedFolds, FoldedProgramReplaces, PrintedByWork};
ghost use Rattle.affc_rewrite.specs.Sight.{FoldedInSight};

/// The printed subscripts are of the places, and what is read keeps within `int64_t`.
pub fn printed_folds()
    ensures law { PrintedFolds }
{}

/// The folded program replaces the source throughout the context.
pub fn folded_program_replaces()
    ensures law { FoldedProgramReplaces }
{}

/// It rests on the folds at work alone.
pub fn printed_by_work()
    ensures law { PrintedByWork }
{}

/// Its assignments hold only names in sight.
pub fn folded_in_sight()
    ensures law { FoldedInSight }
{}
