//! The loops of small programs, as laws: `specs/Examples.antt` says each, with values that were found by hand.
ghost use Rattle.affc_loops.specs.EndExamples.{QuotientsOfRows, EndsOfCopy, CopiesBetweenEnds, EndsOfTriangle, StepsOfTriangle, EndsOfMore};
ghost use Rattle.affc_loops.specs.Examples.{FormsAsExpressions, TimesOfThree, LoopsOfThree, LoopsOfBranches, LoopsOfTwo, NothingToRun, TiesInOrder};

/// Signs, coefficients and order of a form's terms.
pub fn expressions()
    ensures forms_as_expressions { FormsAsExpressions }
{}

/// Programs: a whole block, a statement that is never entered, the branches of an `if`, two loops, no statement at all,
/// and two statements at one time.
pub fn programs()
    ensures times_of_three { TimesOfThree }
    ensures loops_of_three { LoopsOfThree }
    ensures loops_of_branches { LoopsOfBranches }
    ensures loops_of_two { LoopsOfTwo }
    ensures nothing_to_run { NothingToRun }
    ensures ties_in_order { TiesInOrder }
{}

/// Ends by rows: quotients, the ends of one statement and of several, and whole runs between them.
pub fn ends()
    ensures quotients_of_rows { QuotientsOfRows }
    ensures ends_of_copy { EndsOfCopy }
    ensures copies_between_ends { CopiesBetweenEnds }
    ensures ends_of_triangle { EndsOfTriangle }
    ensures steps_of_triangle { StepsOfTriangle }
    ensures ends_of_more { EndsOfMore }
{}
