//! What the loops of a schedule do. Each law is the contract of a function that does nothing.
ghost use Rattle.affc_loops.specs.Laws.{SourceRunsTarget, SourceCompiles, BetweenDoTarget, BetweenRunTarget, BetweenCompile, RowsHoldTimes, TurnsMeetRows, RangesOfTimes};

/// In its own order a source is stuck, if at all, for want of a value.
pub fn source_runs_target()
    ensures law { SourceRunsTarget }
{}

/// In its own order it compiles itself.
pub fn source_compiles()
    ensures law { SourceCompiles }
{}

/// Loops between ends that hold the times run the target's instances, each once and in order.
pub fn between_do_target()
    ensures law { BetweenDoTarget }
{}

/// A run between such ends is stuck, if at all, for want of a value.
pub fn between_run_target()
    ensures law { BetweenRunTarget }
{}

/// Under a legal schedule the program between such ends compiles its source.
pub fn between_compile()
    ensures law { BetweenCompile }
{}

/// Ends by rows that hold at the times of all instances are such ends.
pub fn rows_hold_times()
    ensures law { RowsHoldTimes }
{}

/// Loops between the ends of one statement take only turns at which its rows hold.
pub fn turns_meet_rows()
    ensures law { TurnsMeetRows }
{}

/// The ranges of the loops hold all times, and both ends of each are times.
pub fn ranges_of_times()
    ensures law { RangesOfTimes }
{}
