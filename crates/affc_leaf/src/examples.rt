//! What the definitions give at small boxes, as laws: `specs/Examples.antt` says each, with values that were found
//! by hand from the rules.
ghost use Rattle.affc_leaf.specs.Examples.{TenTimesFivePoints, FirstColumnDecides, PartIsAtItsGreatest, PartOfAProductIsTaken, ConstantIsRoundedDown, RowsBehindTenOthers, SumOfBothLists, LeastColumnIsAFront, LaterColumnIsNoFront, WiderPartIsNoFront, BoxIsItsOwnFront, OneValueIsLeft, FirstColumnIsPinned, TurnedRangeIsNone, NoSplitOfMoreThanTheColumn, OnlyLeavesAreLeaves, ContradictionIsNotHard, HalfIsHard, SumBelowZeroIsSeen, CutIsTheNextRow, SplitOfMoreIsNotSeen, BoxWithAPointIsNotEmpty, LeastPointIsSeen, NothingMayBeSeen};

/// How many points a box has, and in which order they are.
pub fn boxes()
    ensures ten_times_five { TenTimesFivePoints }
    ensures first_column_decides { FirstColumnDecides }
{}

/// What cuts are in a box.
pub fn cuts()
    ensures part_is_at_its_greatest { PartIsAtItsGreatest }
    ensures part_of_a_product_is_taken { PartOfAProductIsTaken }
    ensures constant_is_rounded_down { ConstantIsRoundedDown }
    ensures rows_behind_ten_others { RowsBehindTenOthers }
    ensures sum_of_both_lists { SumOfBothLists }
{}

/// Which parts of a box are its fronts, and which columns are pinned.
pub fn fronts()
    ensures least_column_is_a_front { LeastColumnIsAFront }
    ensures later_column_is_no_front { LaterColumnIsNoFront }
    ensures wider_part_is_no_front { WiderPartIsNoFront }
    ensures box_is_its_own_front { BoxIsItsOwnFront }
    ensures one_value_is_left { OneValueIsLeft }
    ensures first_column_is_pinned { FirstColumnIsPinned }
    ensures turned_range_is_none { TurnedRangeIsNone }
{}

/// Which proofs split columns alone, and which are leaves.
pub fn proofs()
    ensures no_split_of_more_than_the_column { NoSplitOfMoreThanTheColumn }
    ensures only_leaves_are_leaves { OnlyLeavesAreLeaves }
{}

/// What elimination can't refute.
pub fn elimination()
    ensures contradiction_is_not_hard { ContradictionIsNotHard }
    ensures half_is_hard { HalfIsHard }
{}

/// What is seen of a box: proofs that it has no point, its least point, or nothing.
pub fn seen()
    ensures sum_below_zero_is_seen { SumBelowZeroIsSeen }
    ensures cut_is_the_next_row { CutIsTheNextRow }
    ensures split_of_more_is_not_seen { SplitOfMoreIsNotSeen }
    ensures box_with_a_point_is_not_empty { BoxWithAPointIsNotEmpty }
    ensures least_point_is_seen { LeastPointIsSeen }
    ensures nothing_may_be_seen { NothingMayBeSeen }
{}
