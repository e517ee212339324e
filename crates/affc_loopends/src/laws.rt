//! What follows from the definitions. Each law is the contract of a function that does nothing.
ghost use Rattle.affc_loopends.specs.Laws.{RowsAreExact, ProgramsAreShaped, EntriesAreTimed, InstancesAreTimePoints, EndsHold, TurnsExtend, WholePointsLieBetween, BoundsAreEnds};

/// The rational points of a statement's system are its time points.
pub fn time_rows_are_exact()
    ensures law { RowsAreExact }
{}

/// A statement of a program with a map of its schedule has a column for each parameter, and then for each iterator or component.
pub fn programs_are_shaped()
    ensures law { ProgramsAreShaped }
{}

/// The system that is made of an entry that is alive is that of its statement.
pub fn entries_are_timed()
    ensures law { EntriesAreTimed }
{}

/// Each instance of a statement at p of the context is, with its time, a time point.
pub fn instances_are_time_points()
    ensures law { InstancesAreTimePoints }
{}

/// At each time point all rows of the ends hold.
pub fn bounds_hold()
    ensures law { EndsHold }
{}

/// Each turn between the ends extends to a time point, where the parameters do.
pub fn turns_extend()
    ensures law { TurnsExtend }
{}

/// The components of each whole time point lie between the ends.
pub fn whole_points_lie_between()
    ensures law { WholePointsLieBetween }
{}

/// Where none is loose, they are the ends of one column after the other.
pub fn bounds_are_ends()
    ensures law { BoundsAreEnds }
{}
