//! What the definitions give at small systems, as laws: `specs/Examples.antt` says each, with values that were found by hand from
//! the rules.
ghost use Rattle.affc_eliminate.specs.project.Examples.{TriangleOverX, OneRowIsTooFew, TwiceIsNotLeast, OnlyLaterColumns, NoPointLeavesMinusOne, NoPointLeavesSomeRow, PointLeavesNoRow, AllColumnsAreKept};

/// A triangle over its first column.
pub fn triangles()
    ensures over_x { TriangleOverX }
    ensures one_row_is_too_few { OneRowIsTooFew }
    ensures twice_is_not_least { TwiceIsNotLeast }
    ensures only_later_columns { OnlyLaterColumns }
{}

/// No column kept, with a rational point and without one, and all columns kept.
pub fn ends()
    ensures no_point_leaves_minus_one { NoPointLeavesMinusOne }
    ensures no_point_leaves_some_row { NoPointLeavesSomeRow }
    ensures point_leaves_no_row { PointLeavesNoRow }
    ensures all_columns_are_kept { AllColumnsAreKept }
{}
