//! What the program promises, in the words of its user. Each law is the contract of a function that does nothing.
ghost use Rattle.affc_cli.specs.Laws.{FoldEnds, FlowEnds, ReplayEnds, CertificatesAreValid, RunEnds, OutputsAreKept, OutputsAreKeptAsRead, StoresFollow, UnreadIsFirst, UnreadIsTold, WordsAreTold, OtherFilesStay, RefusalsWriteNothing};

/// `fold` ends with the whole folded, or short of memory, where the stated conditions hold.
pub fn fold_ends()
    ensures law { FoldEnds }
{}

/// `flow` is done, or short of memory, where the stated conditions hold.
pub fn flow_ends()
    ensures law { FlowEnds }
{}

/// `replay` is done, or short of memory, where the certificate is valid.
pub fn replay_ends()
    ensures law { ReplayEnds }
{}

/// What `fold` leaves in the file for its certificate is one that `replay` takes.
pub fn certificates_are_valid()
    ensures law { CertificatesAreValid }
{}

/// `run` writes what the output arrays hold, or memory is short, where the program ends within the steps.
pub fn run_ends()
    ensures law { RunEnds }
{}

/// Where `fold` or `replay` ends with status 0, the text that it wrote keeps the outputs of the source.
pub fn outputs_are_kept()
    ensures law { OutputsAreKept }
{}

/// So it does of the source that was read, whether or not the folder tells what it holds.
pub fn outputs_are_kept_as_read()
    ensures law { OutputsAreKeptAsRead }
{}

/// Its stores are the source's, in the order of the schedule and at the places of the folds.
pub fn stores_follow()
    ensures law { StoresFollow }
{}

/// Status 3 tells the first file that wasn't read.
pub fn unread_is_first()
    ensures law { UnreadIsFirst }
{}

/// Where the last read didn't answer, the status is 3, or memory is short.
pub fn unread_is_told()
    ensures law { UnreadIsTold }
{}

/// Status 2 says that the words are no command form.
pub fn words_are_told()
    ensures law { WordsAreTold }
{}

/// No name but that of the certificate's file changes what it holds.
pub fn other_files_stay()
    ensures law { OtherFilesStay }
{}

/// A refusal writes its line and nothing else.
pub fn refusals_write_nothing()
    ensures law { RefusalsWriteNothing }
{}
