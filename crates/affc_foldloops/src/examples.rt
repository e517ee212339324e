//! What the definitions give at small programs, as laws: `specs/Examples.antt` says each.
ghost use Rattle.affc_foldloops.specs.Examples.{AllAreMarked, BlurFolds, BlurCompiles, BlurIsReplaced, OthersDontStand, TwoAreTooFew, OtherPlaces, FarIsntRead, SizesOfTemporaries, ExtentsOfTemporaries};

/// The blur of affc_trace, folded onto three elements.
pub fn blur()
    ensures folds { BlurFolds }
    ensures compiles { BlurCompiles }
    ensures is_replaced { BlurIsReplaced }
{}

/// Programs that don't stand for it.
pub fn others()
    ensures dont_stand { OthersDontStand }
    ensures two_are_too_few { TwoAreTooFew }
{}

/// Other subscripts at each access of a program, and subscripts that don't serve.
pub fn subscripts()
    ensures all_are_marked { AllAreMarked }
    ensures other_places { OtherPlaces }
    ensures far_isnt_read { FarIsntRead }
{}

/// Temporaries, and some that don't serve.
pub fn temporaries()
    ensures sizes { SizesOfTemporaries }
    ensures extents { ExtentsOfTemporaries }
{}
