//! What holds of the questions of trees that the search gives.
ghost use Rattle.affc_questions.specs.Laws.{FoundTreesPassNoLimit};

/// No question of such trees passes the limits of a system.
pub fn found_trees_pass_no_limit()
    ensures law { FoundTreesPassNoLimit }
{}
