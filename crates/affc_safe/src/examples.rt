//! What the definitions give at small programs, as laws: `specs/Examples.antt` and `specs/OverflowExamples.antt` say each.
ghost use Rattle.affc_safe.specs.Examples.{BlurIsSafe, EmptyOutputIsNot, UntouchedArrayCounts, LaterExtentCounts, StoreLiesOutside, LoadLiesOutside, StoreComesLate, OwnLoadCounts, WithoutTemporaries};
ghost use Rattle.affc_safe.specs.OverflowExamples.{BlurIsPlain, BlurEnds, IteratorsKeepNear, NeverEntered, BoundsArePlain, ConditionsArePlain, SixteenNames, ParametersKeepNear, WideAssignments, WideExtents, NothingOverflows};

/// Safe programs.
pub fn safe()
    ensures blur { BlurIsSafe }
    ensures without_temporaries { WithoutTemporaries }
    ensures own_load { OwnLoadCounts }
{}

/// Extents that are too small.
pub fn extents()
    ensures of_parameters { EmptyOutputIsNot }
    ensures untouched { UntouchedArrayCounts }
    ensures later { LaterExtentCounts }
{}

/// Accesses outside the extents.
pub fn outside()
    ensures store { StoreLiesOutside }
    ensures load { LoadLiesOutside }
{}

/// Loads of what nothing has stored.
pub fn unwritten()
    ensures late { StoreComesLate }
{}

/// A program of which all premises hold.
pub fn plain()
    ensures is_plain { BlurIsPlain }
    ensures ends { BlurEnds }
{}

/// Loops that keep within 2^31, and some that don't.
pub fn near()
    ensures iterators { IteratorsKeepNear }
    ensures never_entered { NeverEntered }
    ensures bounds { BoundsArePlain }
    ensures conditions { ConditionsArePlain }
    ensures names { SixteenNames }
    ensures parameters { ParametersKeepNear }
{}

/// Index expressions that leave `int64_t`, and the same within it.
pub fn wide()
    ensures assignments { WideAssignments }
    ensures extents { WideExtents }
    ensures nothing { NothingOverflows }
{}
