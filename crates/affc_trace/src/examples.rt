//! What the definitions give at small programs, as laws: `specs/Examples.antt` says each, with values that were
//! found by hand from the rules.
ghost use Rattle.affc_trace.specs.Examples.{BlurTakesTurns, BlurSources, BlurLivePairs, BlurIsLegal, BlurHasItsMaps, TwelveComponents, SlightForms, SlightMaps, LoadsDependOnNothing, FoldedBlurFollows, FoldedBlurDoes, InputIsNotShared, NumberDecidesTies, TieIsIllegal, FirstComponentDecides, TiesStayAsTheyStood, OrdersKeepInstances, BackwardsIsIllegal, OwnStoreComesAfter, HandedInIsNoSource, LoopsAreCounted, LocalsAreSeen, ScalarHasOneElement, StuckForAValueRunsTarget, StuckOutOfBoundsDoesNot};

/// A blur of two statements, at the times i and i + 2, and folded onto three elements.
pub fn blur()
    ensures takes_turns { BlurTakesTurns }
    ensures sources { BlurSources }
    ensures live_pairs { BlurLivePairs }
    ensures is_legal { BlurIsLegal }
    ensures has_its_maps { BlurHasItsMaps }
    ensures loads_depend_on_nothing { LoadsDependOnNothing }
    ensures folded_follows { FoldedBlurFollows }
    ensures folded_does { FoldedBlurDoes }
    ensures input_alone { InputIsNotShared }
{}

/// Orders that turn a dependence round, and one in which instances tie.
pub fn orders()
    ensures number_decides { NumberDecidesTies }
    ensures tie_is_illegal { TieIsIllegal }
    ensures backwards_is_illegal { BackwardsIsIllegal }
{}

/// What decides an order, and what an order keeps.
pub fn ties()
    ensures first_component_decides { FirstComponentDecides }
    ensures stay_as_they_stood { TiesStayAsTheyStood }
    ensures keep_instances { OrdersKeepInstances }
{}

/// Loads without a rival: of what the instance itself stores over, and of what is handed in.
pub fn unrivalled()
    ensures own_store_comes_after { OwnStoreComesAfter }
    ensures handed_in_is_no_source { HandedInIsNoSource }
{}

/// Loops and blocks.
pub fn nests()
    ensures loops_are_counted { LoopsAreCounted }
    ensures locals_are_seen { LocalsAreSeen }
{}

/// A temporary without dimensions.
pub fn scalar()
    ensures one_element { ScalarHasOneElement }
{}

/// Programs that are stuck.
pub fn stuck()
    ensures for_a_value { StuckForAValueRunsTarget }
    ensures out_of_bounds { StuckOutOfBoundsDoesNot }
{}

/// Limits of schedules.
pub fn limits()
    ensures twelve_components { TwelveComponents }
    ensures slight_forms { SlightForms }
    ensures slight_maps { SlightMaps }
{}
