//! Small pipelines, as laws: `specs/Examples.antt` has them written out.
ghost use Rattle.affc_generate.specs.Examples.{OneStage, TwoStages, ThreeStages, TwoTimes, ThreeTimes, Wholes};

/// The sources of one, two and three stages, schedules, and sizes.
pub fn stages()
    ensures one_stage { OneStage }
    ensures two_stages { TwoStages }
    ensures three_stages { ThreeStages }
    ensures two_times { TwoTimes }
    ensures three_times { ThreeTimes }
    ensures wholes { Wholes }
{}
