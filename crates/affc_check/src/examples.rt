//! The items of small certificates, and which are valid, as laws: `specs/Examples.antt` says each.
ghost use Rattle.affc_check.specs.Examples.{CountsOfTheBlur, ContextIsFirst, ExtentsAreNext, BoundsAreNext, TreesAreNext, ScheduleIsNext, NoneIsValid, FoldsAreLast, CountOfTheFold, TwoAreTooFew, MarksInOrder, DistancesBetween, PairIsTurned, NothingIsShown, PairInOrder, ModuliAreMarked, OneProofEach, EachIsLookedAt, QuestionsKeepLimits, FewRowsAtNodes};

/// The items of a certificate of the blur of affc_trace, without folds, and some that no proofs make valid.
pub fn blur()
    ensures counts { CountsOfTheBlur }
    ensures context_is_first { ContextIsFirst }
    ensures extents_are_next { ExtentsAreNext }
    ensures bounds_are_next { BoundsAreNext }
    ensures trees_are_next { TreesAreNext }
    ensures schedule_is_next { ScheduleIsNext }
    ensures none_is_valid { NoneIsValid }
{}

/// A fold of the blur's temporary.
pub fn blur_fold()
    ensures folds_are_last { FoldsAreLast }
    ensures count { CountOfTheFold }
    ensures two_are_too_few { TwoAreTooFew }
{}

/// The items of a fold.
pub fn fold()
    ensures marks_in_order { MarksInOrder }
    ensures distances_between { DistancesBetween }
    ensures pair_is_turned { PairIsTurned }
    ensures nothing_is_shown { NothingIsShown }
    ensures pair_in_order { PairInOrder }
    ensures moduli_are_marked { ModuliAreMarked }
{}

/// Proofs that make items valid, and others.
pub fn proofs()
    ensures one_proof_each { OneProofEach }
    ensures each_is_looked_at { EachIsLookedAt }
    ensures questions_keep_limits { QuestionsKeepLimits }
    ensures few_rows_at_nodes { FewRowsAtNodes }
{}
