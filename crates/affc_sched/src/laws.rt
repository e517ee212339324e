//! What the questions on a schedule decide. Each law is the contract of a function that does nothing.
ghost use Rattle.affc_sched.specs.Laws.{PointsViolate, ViolationsArePoints, QuestionsDecide, PointsAreBoxed};

/// A point of a question is a dependence that is turned round, at some p of the context.
pub fn points_violate()
    ensures law { PointsViolate }
{}

/// Each dependence that is turned round, at some p of the context, is a point of a question.
pub fn violations_are_points()
    ensures law { ViolationsArePoints }
{}

/// No question has a point exactly where the schedule is legal throughout the context.
pub fn questions_decide()
    ensures law { QuestionsDecide }
{}

/// A point of a question lies in its ranges.
pub fn points_are_boxed()
    ensures law { PointsAreBoxed }
{}
