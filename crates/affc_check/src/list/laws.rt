//! What holds of the parts of certificates.
ghost use Rattle.affc_check.specs.list.Laws.{FoundTreesPassNoPart};

/// No part of trees that the search gives has a question that passes the limits of a system.
pub fn found_trees_pass_no_part()
    ensures law { FoundTreesPassNoPart }
{}
