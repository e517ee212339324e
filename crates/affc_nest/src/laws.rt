//! What a nest says of its program. Each law is the contract of a function that does nothing.
ghost use Rattle.affc_nest.specs.Asked.{NestsAreAsked, ExtentsAreAsked, SubscriptsAreAsked, EntriesAreAsked};
ghost use Rattle.affc_nest.specs.Laws.{EntriesStand, PointsAreInstances, NoneWhereNotAlive, RangesHold, AccessesAreEvents, ContextIsTheContext, ExtentsAreExtents, QuestionsDecide, ExtentPoint, AccessPoint, DivisionsAreQuotients, QuotientsKeepRanges};

/// Each assignment is one part and has its entry, over a column for each parameter and each coordinate.
pub fn entries_stand()
    ensures law { EntriesStand }
{}

/// The integer points of a domain are the p of the context with the iterators of the instances there.
pub fn points_are_instances()
    ensures law { PointsAreInstances }
{}

/// A statement that isn't alive has no instances, and its domain no point.
pub fn none_where_not_alive()
    ensures law { NoneWhereNotAlive }
{}

/// Where a part is alive there is a range for each coordinate, within 2^31, and all iterators lie in them.
pub fn ranges_hold()
    ensures law { RangesHold }
{}

/// The accesses of an instance are the elements that it loads, in order, and then the one that it stores.
pub fn accesses_are_events()
    ensures law { AccessesAreEvents }
{}

/// p is in the context exactly where it lies in the parameters' box and is a point of the context's system.
pub fn context_is_the_context()
    ensures law { ContextIsTheContext }
{}

/// The extents have the program's values.
pub fn extents_are_extents()
    ensures law { ExtentsAreExtents }
{}

/// No question has a point exactly where, throughout the context, each extent is at least 1 and each access lies
/// within its array.
pub fn questions_decide()
    ensures law { QuestionsDecide }
{}

/// A point of a question on an extent is a p of the context at which that extent is below 1.
pub fn extent_point()
    ensures law { ExtentPoint }
{}

/// A point of a question on an access is an instance, at p of the context, whose access lies outside in that
/// dimension.
pub fn access_point()
    ensures law { AccessPoint }
{}

/// Questions may be asked of each nest that is extracted, of each extent in it, and of each subscript of each entry.
pub fn questions_are_asked()
    ensures nests { NestsAreAsked }
    ensures extents { ExtentsAreAsked }
    ensures subscripts { SubscriptsAreAsked }
    ensures entries { EntriesAreAsked }
{}

/// A column meets the rows of a division exactly where it is the quotient, which lies in its range.
pub fn divisions_are_quotients()
    ensures rows { DivisionsAreQuotients }
    ensures ranges { QuotientsKeepRanges }
{}
