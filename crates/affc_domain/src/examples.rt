//! What the definitions give at small programs, as laws: `specs/Examples.antt` says each, with values that were
//! found by hand from the rules.
ghost use Rattle.affc_domain.specs.Examples.{AccessesInOrder, ArraysInOrder, UnitsOfColumns, FormsOfSums, WhichAreAffine, SmallForms, SmallInEachPart, NamesInSight, RoundsOfTheTriangle, LoopsGoOn, TriangleTurns, NothingTurnsInside, LoopsRound, ComparisonsRound, NumbersOfLoops, SharedLoops, BeforeByIterators, OrderOfTheSharedLoop, RangesOfNumbers, RangeOfALoop, RangesOfTheTriangle, NearEnds, RangesThatPass, OneTurnIsEntered, WithinRanges, FirstWide, PlainExpressions, PlainTests, PlainValues, PlainRanges, PlainDeclarations, UpwardLoops, SixteenAccesses, PlainAssignments, SixLoops, PlainLoops, ThirtyTwoComparisons, PlainConditions, NoLocals, TriangleIsPlain, LimitsOfPrograms, PartsOfPrograms, FullLoops, OnlyJoinedTests};

/// What an assignment reads and writes, and the arrays.
pub fn accesses()
    ensures accesses_in_order { AccessesInOrder }
    ensures arrays_in_order { ArraysInOrder }
{}

/// Forms, and which expressions have one.
pub fn forms()
    ensures units_of_columns { UnitsOfColumns }
    ensures forms_of_sums { FormsOfSums }
    ensures which_are_affine { WhichAreAffine }
    ensures small_forms { SmallForms }
    ensures small_in_each_part { SmallInEachPart }
    ensures names_in_sight { NamesInSight }
{}

/// What stands round assignments, and which iterators turn.
pub fn rounds()
    ensures rounds_of_the_triangle { RoundsOfTheTriangle }
    ensures loops_go_on { LoopsGoOn }
    ensures triangle_turns { TriangleTurns }
    ensures nothing_turns_inside { NothingTurnsInside }
    ensures loops_round { LoopsRound }
    ensures comparisons_round { ComparisonsRound }
{}

/// Loops that are shared, and what comes before what.
pub fn order()
    ensures numbers_of_loops { NumbersOfLoops }
    ensures shared_loops { SharedLoops }
    ensures before_by_iterators { BeforeByIterators }
    ensures order_of_the_shared_loop { OrderOfTheSharedLoop }
{}

/// The interval rule.
pub fn ranges()
    ensures ranges_of_numbers { RangesOfNumbers }
    ensures range_of_a_loop { RangeOfALoop }
    ensures ranges_of_the_triangle { RangesOfTheTriangle }
    ensures near_ends { NearEnds }
    ensures ranges_that_pass { RangesThatPass }
    ensures one_turn_is_entered { OneTurnIsEntered }
    ensures within_ranges { WithinRanges }
    ensures first_wide { FirstWide }
{}

/// Plain expressions, conditions, values and declarations.
pub fn plain_parts()
    ensures plain_expressions { PlainExpressions }
    ensures plain_tests { PlainTests }
    ensures plain_values { PlainValues }
    ensures plain_ranges { PlainRanges }
    ensures plain_declarations { PlainDeclarations }
{}

/// Plain loops, conditions, assignments and blocks.
pub fn plain_statements()
    ensures upward_loops { UpwardLoops }
    ensures sixteen_accesses { SixteenAccesses }
    ensures plain_assignments { PlainAssignments }
    ensures six_loops { SixLoops }
    ensures plain_loops { PlainLoops }
    ensures thirty_two_comparisons { ThirtyTwoComparisons }
    ensures plain_conditions { PlainConditions }
    ensures no_locals { NoLocals }
{}

/// Programs that are plain, and programs that one part keeps from it.
pub fn plain_programs()
    ensures triangle_is_plain { TriangleIsPlain }
    ensures limits_of_programs { LimitsOfPrograms }
    ensures parts_of_programs { PartsOfPrograms }
    ensures full_loops { FullLoops }
    ensures only_joined_tests { OnlyJoinedTests }
{}
