//! A folder of two files, as laws: `specs/Examples.antt` says each.
ghost use Rattle.affc_cli.specs.Examples.{NoNameIsNoText, PromisedOfWhatWasHeld, WhoEndsWithWhat, FilesInOrder, ReadsStopAtTheFirst, RefusalsAreTold, UnreadIsToldBehind, CostsByName, EightStages};

/// What is held, and what is promised of it.
pub fn held()
    ensures no_name_is_no_text { NoNameIsNoText }
    ensures promised_of_what_was_held { PromisedOfWhatWasHeld }
{}

/// Statuses, reads and a refusal.
pub fn ends()
    ensures who_ends_with_what { WhoEndsWithWhat }
    ensures files_in_order { FilesInOrder }
    ensures reads_stop_at_the_first { ReadsStopAtTheFirst }
    ensures refusals_are_told { RefusalsAreTold }
    ensures unread_is_told_behind { UnreadIsToldBehind }
{}

/// Costs by their names, and the lines of `big`.
pub fn sums()
    ensures costs_by_name { CostsByName }
    ensures eight_stages { EightStages }
{}
