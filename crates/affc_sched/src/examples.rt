//! The questions on a small nest, as laws: `specs/Examples.antt` says each, with rows that were found by hand.
ghost use Rattle.affc_sched.specs.Examples.{LastOneStores, StoresOfOneArray, QuestionsInOrder, SourceIsLegal, RowsOfAQuestion, RowsOfTwoStatements};

/// Which accesses are asked of.
pub fn accesses()
    ensures last_one_stores { LastOneStores }
    ensures stores_of_one_array { StoresOfOneArray }
    ensures questions_in_order { QuestionsInOrder }
    ensures source_is_legal { SourceIsLegal }
{}

/// The rows of questions.
pub fn rows()
    ensures of_a_question { RowsOfAQuestion }
    ensures of_two_statements { RowsOfTwoStatements }
{}
