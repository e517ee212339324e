//! The lines, as laws: `specs/Examples.antt` has each written out.
ghost use Rattle.affc_lines.specs.Examples.{EachRefusalSays, FaultsOfSources, LimitsOfSources, NumbersAreNamed, RunsAreStuck, ProgramsAreWrong, SchedulesAreWrong};

/// Each refusal's status and line.
pub fn refusals()
    ensures each_refusal_says { EachRefusalSays }
{}

/// What is wrong with a source.
pub fn sources()
    ensures faults_of_sources { FaultsOfSources }
    ensures limits_of_sources { LimitsOfSources }
{}

/// What is wrong with a program, its runs and its schedules.
pub fn programs()
    ensures numbers_are_named { NumbersAreNamed }
    ensures runs_are_stuck { RunsAreStuck }
    ensures programs_are_wrong { ProgramsAreWrong }
    ensures schedules_are_wrong { SchedulesAreWrong }
{}
