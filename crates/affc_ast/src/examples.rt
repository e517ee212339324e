//! What the definitions give at small programs, as laws: `specs/Examples.antt`, `specs/Rules.antt`,
//! `specs/PieceExamples.antt` and `specs/Counterexamples.antt` say each, with values that were found by hand from the rules.

ghost use Rattle.affc_ast.specs.Examples.{QuotientsRound, RemaindersStartAtZero, LeastAndGreatest, DivisorsAreAtLeastOne, NumbersHaveTheirEnds, NegationsOverflow, ValuesCompute, ValuesWrap, RelationsCompare, FirstFalseEndsTheReading, FirstTrueEndsTheReading, RemaindersAreTested};
ghost use Rattle.affc_ast.specs.Examples.{CopyLoopCopies, OutputsAreOut, CopyLoopTrace, CopyLoopEvents, CompoundAdds, CompoundSubtracts, ValuesAreReadFromTheLeft, ConditionsChoose, OthersRunWhereNot, LoopsNest, TwoStatementsTakeTurns, TwoStatementsRun, CompoundLoadsFirst, LocalsSeeThoseBefore};
ghost use Rattle.affc_ast.specs.Examples.{LoadsStayInside, StoresStayInside, SubscriptsStartAtZero, AccessesAreCounted, StatementsAreCounted, LoadsFindValues, OwnElementComesFirst, ProductsOverflow, ProductsFit, ContextHasNodes, TemporariesHaveNodes, ValuesHaveNodes, BlocksHaveNodes, LocalsHaveNodes, ExtentsAreAtLeastOne, FirstExtentEndsTheReading, ExtentsAreReadInOrder, StepsOverflow};
ghost use Rattle.affc_ast.specs.Examples.{RangesHoldTheirEnds, SomeDataFit, ValuesKeepTheirSize, ConditionsHaveValues, ContextsHaveNoLimit};
ghost use Rattle.affc_ast.specs.Examples.{FollowsInAnotherOrder, FollowsAtOtherPlaces};
ghost use Rattle.affc_ast.specs.Rules.{LeftSidesComeFirst, LeftLoadsComeFirst, LowerBoundsComeFirst, LeftSubscriptsComeFirst, SubscriptsComeBeforeValues, ValuesComeBeforeStores, UnwrittenLoadsAreCounted, SubscriptsHaveTheirExtents, LastSubscriptsRunFastest, ValuesAreStored, EachFormHasItsNodes, NodesAreCounted, LocalsAreNoIterators, ConditionsAreLookedInto, FalseContextsAreUnmet, KeywordsAreReserved, AssignmentsAreToArrays, SubscriptsAreAsDimensions};
ghost use Rattle.affc_ast.specs.PieceExamples.{RelationsHaveOpposites, DenialsExchange, AtomsCompare, RelationsHavePieces, PiecesStandInOrder, PiecesAreNumbered, JoinedConditions, JoinedPrograms};
ghost use Rattle.affc_ast.specs.Counterexamples.{OrdersDiffer, ValuesDiffer, PlacesDiffer, OwnElementsDiffer, OutputsDiffer, NamesDiffer, RangesDiffer, ContextsDiffer, RunsDiffer};

/// What expressions, conditions and operations on values give.
pub fn numbers()
    ensures quotients_round { QuotientsRound }
    ensures remainders_start_at_zero { RemaindersStartAtZero }
    ensures least_and_greatest { LeastAndGreatest }
    ensures divisors_are_at_least_one { DivisorsAreAtLeastOne }
    ensures numbers_have_their_ends { NumbersHaveTheirEnds }
    ensures negations_overflow { NegationsOverflow }
    ensures values_compute { ValuesCompute }
    ensures values_wrap { ValuesWrap }
    ensures relations_compare { RelationsCompare }
    ensures first_false_ends_the_reading { FirstFalseEndsTheReading }
    ensures first_true_ends_the_reading { FirstTrueEndsTheReading }
    ensures remainders_are_tested { RemaindersAreTested }
{}

/// Runs that end, with their traces and events.
pub fn runs()
    ensures copy_loop_copies { CopyLoopCopies }
    ensures outputs_are_out { OutputsAreOut }
    ensures copy_loop_trace { CopyLoopTrace }
    ensures copy_loop_events { CopyLoopEvents }
    ensures compound_adds { CompoundAdds }
    ensures compound_subtracts { CompoundSubtracts }
    ensures values_are_read_from_the_left { ValuesAreReadFromTheLeft }
    ensures conditions_choose { ConditionsChoose }
    ensures others_run_where_not { OthersRunWhereNot }
    ensures loops_nest { LoopsNest }
    ensures two_statements_take_turns { TwoStatementsTakeTurns }
    ensures two_statements_run { TwoStatementsRun }
    ensures compound_loads_first { CompoundLoadsFirst }
    ensures locals_see_those_before { LocalsSeeThoseBefore }
{}

/// Runs that are stuck, each with its cause, its place and its steps.
pub fn stops()
    ensures loads_stay_inside { LoadsStayInside }
    ensures stores_stay_inside { StoresStayInside }
    ensures subscripts_start_at_zero { SubscriptsStartAtZero }
    ensures accesses_are_counted { AccessesAreCounted }
    ensures statements_are_counted { StatementsAreCounted }
    ensures loads_find_values { LoadsFindValues }
    ensures own_element_comes_first { OwnElementComesFirst }
    ensures products_overflow { ProductsOverflow }
    ensures products_fit { ProductsFit }
    ensures context_has_nodes { ContextHasNodes }
    ensures temporaries_have_nodes { TemporariesHaveNodes }
    ensures values_have_nodes { ValuesHaveNodes }
    ensures blocks_have_nodes { BlocksHaveNodes }
    ensures locals_have_nodes { LocalsHaveNodes }
    ensures extents_are_at_least_one { ExtentsAreAtLeastOne }
    ensures first_extent_ends_the_reading { FirstExtentEndsTheReading }
    ensures extents_are_read_in_order { ExtentsAreReadInOrder }
    ensures steps_overflow { StepsOverflow }
{}

/// Which values of the parameters and which stores fit.
pub fn data()
    ensures ranges_hold_their_ends { RangesHoldTheirEnds }
    ensures some_data_fit { SomeDataFit }
    ensures values_keep_their_size { ValuesKeepTheirSize }
    ensures conditions_have_values { ConditionsHaveValues }
    ensures contexts_have_no_limit { ContextsHaveNoLimit }
{}

/// Programs that follow another in another order, and at other places.
pub fn following()
    ensures follows_in_another_order { FollowsInAnotherOrder }
    ensures follows_at_other_places { FollowsAtOtherPlaces }
{}

/// Which fault comes first, how many nodes each form has, where two dimensions end, and how elements are ordered.
pub fn rules()
    ensures left_sides_come_first { LeftSidesComeFirst }
    ensures left_loads_come_first { LeftLoadsComeFirst }
    ensures lower_bounds_come_first { LowerBoundsComeFirst }
    ensures left_subscripts_come_first { LeftSubscriptsComeFirst }
    ensures subscripts_come_before_values { SubscriptsComeBeforeValues }
    ensures values_come_before_stores { ValuesComeBeforeStores }
    ensures unwritten_loads_are_counted { UnwrittenLoadsAreCounted }
    ensures subscripts_have_their_extents { SubscriptsHaveTheirExtents }
    ensures last_subscripts_run_fastest { LastSubscriptsRunFastest }
    ensures values_are_stored { ValuesAreStored }
    ensures each_form_has_its_nodes { EachFormHasItsNodes }
{}

/// What is counted, which accesses are seen inside a statement, and which programs keep to their arrays.
pub fn more_rules()
    ensures nodes_are_counted { NodesAreCounted }
    ensures locals_are_no_iterators { LocalsAreNoIterators }
    ensures conditions_are_looked_into { ConditionsAreLookedInto }
    ensures false_contexts_are_unmet { FalseContextsAreUnmet }
    ensures keywords_are_reserved { KeywordsAreReserved }
    ensures assignments_are_to_arrays { AssignmentsAreToArrays }
    ensures subscripts_are_as_dimensions { SubscriptsAreAsDimensions }
{}

/// Denials and pieces of conditions, and which conditions are joined comparisons.
pub fn pieces()
    ensures relations_have_opposites { RelationsHaveOpposites }
    ensures denials_exchange { DenialsExchange }
    ensures atoms_compare { AtomsCompare }
    ensures relations_have_pieces { RelationsHavePieces }
    ensures pieces_stand_in_order { PiecesStandInOrder }
    ensures pieces_are_numbered { PiecesAreNumbered }
    ensures joined_conditions { JoinedConditions }
    ensures joined_programs { JoinedPrograms }
{}

/// Programs that don't follow another, or don't run as it.
pub fn not_following()
    ensures orders_differ { OrdersDiffer }
    ensures values_differ { ValuesDiffer }
    ensures places_differ { PlacesDiffer }
    ensures own_elements_differ { OwnElementsDiffer }
    ensures outputs_differ { OutputsDiffer }
{}

/// Programs that don't compile another.
pub fn not_compiling()
    ensures names_differ { NamesDiffer }
    ensures ranges_differ { RangesDiffer }
    ensures contexts_differ { ContextsDiffer }
    ensures runs_differ { RunsDiffer }
{}
