//! What the definitions give at small boxes, as laws: `specs/Examples.antt` says each, with values that were found
//! by hand from the rules.
ghost use Rattle.affc_split.specs.Examples.{PartsLieWithin, NoBoxTwice, NoBoxTwiceInTheRest, NoBoxBehindThePoint, EachNodeIsCounted, NoMoreBoxesThanNodes, NoBoxBehindTheAnswer, FiveOfFive, AUnitIsOne, LaterIsNoLess, TheLimitStays, UncountedIsUnspent, APartOfFive, ALeafCostsOneUnit};

/// Which boxes may be opened.
pub fn boxes()
    ensures parts_lie_within { PartsLieWithin }
    ensures no_box_twice { NoBoxTwice }
    ensures no_box_twice_in_the_rest { NoBoxTwiceInTheRest }
    ensures no_box_behind_the_point { NoBoxBehindThePoint }
    ensures each_node_is_counted { EachNodeIsCounted }
    ensures no_more_boxes_than_nodes { NoMoreBoxesThanNodes }
    ensures no_box_behind_the_answer { NoBoxBehindTheAnswer }
{}

/// What is spent of a budget.
pub fn budgets()
    ensures five_of_five { FiveOfFive }
    ensures a_unit_is_one { AUnitIsOne }
    ensures later_is_no_less { LaterIsNoLess }
    ensures the_limit_stays { TheLimitStays }
    ensures uncounted_is_unspent { UncountedIsUnspent }
    ensures a_part_of_five { APartOfFive }
    ensures a_leaf_costs_one_unit { ALeafCostsOneUnit }
{}
