//! What the leaves of a tree say of it. Each law is the contract of a function that does nothing.
ghost use Rattle.affc_quast.specs.Laws.{LeafIsReached, LeafIsNamed, LeavesAreOver, LeafIsBoxed, RangesOfLeaf};

/// Each point leads to a leaf.
pub fn leaf_is_reached()
    ensures law { LeafIsReached }
{}

/// Where a leaf's rows are met, the tree names what the leaf names.
pub fn leaf_is_named()
    ensures law { LeafIsNamed }
{}

/// A leaf's rows and forms are over its columns.
pub fn leaves_are_over()
    ensures law { LeavesAreOver }
{}

/// The ranges of a leaf's columns hold the points that lead to it.
pub fn leaf_is_boxed()
    ensures law { LeafIsBoxed }
{}

/// There is a range for each column.
pub fn ranges_of_leaf()
    ensures law { RangesOfLeaf }
{}
