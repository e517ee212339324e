//! What the comparison answers at small programs, as laws: `specs/Examples.antt` says each, with answers that were found by
//! hand from the rules.
ghost use Rattle.affc_compare.specs.Examples.{OneLoopIsShared, SharedByBranches, LoopsInterchanged, TurnsReversed};

/// The order of the text, of two loops in one; and loops that branches share.
pub fn source()
    ensures one_loop_is_shared { OneLoopIsShared }
    ensures shared_by_branches { SharedByBranches }
{}

/// Loops that are interchanged, and a loop that is run backwards, in which instances tie.
pub fn times()
    ensures loops_interchanged { LoopsInterchanged }
    ensures turns_reversed { TurnsReversed }
{}
