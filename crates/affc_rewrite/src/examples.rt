//! What the definitions give at small programs, as laws: `specs/Examples.antt` says each.
ghost use Rattle.affc_rewrite.specs.Examples.{OnesAndUnits, BlurIsFolded, NothingIsFolded, BlurByParameters, BlurByExtents, UnitRows, OneElementWhole, TemporariesByTheirFolds, OthersKeepSubscripts, TwoDimensions, OneElement, CallsInExpressions, CallsInValues, CallsInStatements, FoldsWithinLimits, SixteenNames, NamesOutOfSight};

/// The constant 1, unit rows, and forms that are alike.
pub fn forms()
    ensures ones_and_units { OnesAndUnits }
{}

/// The blur of affc_trace.
pub fn blur()
    ensures is_folded { BlurIsFolded }
    ensures nothing_is_folded { NothingIsFolded }
    ensures by_parameters { BlurByParameters }
    ensures by_extents { BlurByExtents }
{}

/// Arrays that are left whole.
pub fn whole_arrays()
    ensures unit_rows { UnitRows }
    ensures one_element { OneElementWhole }
{}

/// Temporaries, and folds within their limits.
pub fn temporaries()
    ensures by_their_folds { TemporariesByTheirFolds }
    ensures within_limits { FoldsWithinLimits }
{}

/// Places of two components, of none, and of one element.
pub fn components()
    ensures two_dimensions { TwoDimensions }
    ensures others_keep_subscripts { OthersKeepSubscripts }
    ensures one_element { OneElement }
{}

/// Calls of the prelude.
pub fn calls()
    ensures in_expressions { CallsInExpressions }
    ensures in_values { CallsInValues }
    ensures in_statements { CallsInStatements }
{}

/// Assignments that hold only names in sight.
pub fn sight()
    ensures sixteen_names { SixteenNames }
    ensures out_of_sight { NamesOutOfSight }
{}
