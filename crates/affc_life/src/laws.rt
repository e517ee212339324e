//! What the clash systems say. Each law is the contract of a function that does nothing.
ghost use Rattle.affc_life.specs.Laws.{ClashesAreLivePairs, PointsAreInContext, ElementsDiffer, ClashesAreBoxed, FoundTreesKeepLimits, FoundTreesAreNeverLarge, FoundTreesLeaveRoom, ClashesAreConflicts};

/// At each p of the context at which the trees name the sources, the pairs at the systems' points, in either order,
/// are exactly the live pairs.
pub fn clashes_are_live_pairs()
    ensures law { ClashesAreLivePairs }
{}

/// The first numbers of each point of a clash system are a p of the context.
pub fn points_are_in_context()
    ensures law { PointsAreInContext }
{}

/// The elements of a pair differ.
pub fn elements_differ()
    ensures law { ElementsDiffer }
{}

/// Where the quotients on the way to each instance's leaf are within 2^60, each clash system is boxed by its ranges.
pub fn clashes_are_boxed()
    ensures law { ClashesAreBoxed }
{}

/// The trees that the search gives keep the limits that `clashes` asks of trees.
pub fn found_trees_keep_limits()
    ensures law { FoundTreesKeepLimits }
{}

/// For such trees, and a schedule within the limits, no clash system is too large.
pub fn found_trees_are_never_large()
    ensures law { FoundTreesAreNeverLarge }
{}

/// Each has at most 28 columns and 638 rows.
pub fn found_trees_leave_room()
    ensures law { FoundTreesLeaveRoom }
{}

/// Where each access lies within its array, the clash systems of such trees are the conflicts that moduli are asked of.
pub fn clashes_are_conflicts()
    ensures law { ClashesAreConflicts }
{}
