//! What the definitions give at small programs, as laws: `specs/Examples.antt` says each, with values that were
//! found by hand from the rules.

ghost use Rattle.affc_interp.specs.Examples.{StepsAreEnough, DataIsTheStart, FloorsAndRemainders, ElementsAreCounted, ValuesStandInOrder, OutputsAreWritten, DataIsRead, UnmetContextIsWrong};

/// Runs within their steps.
pub fn runs()
    ensures steps_are_enough { StepsAreEnough }
    ensures floors_and_remainders { FloorsAndRemainders }
{}

/// Data, and what is written.
pub fn texts()
    ensures data_is_the_start { DataIsTheStart }
    ensures elements_are_counted { ElementsAreCounted }
    ensures values_stand_in_order { ValuesStandInOrder }
    ensures outputs_are_written { OutputsAreWritten }
    ensures data_is_read { DataIsRead }
    ensures unmet_context_is_wrong { UnmetContextIsWrong }
{}
