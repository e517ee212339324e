//! Forms, trees and folds as text.
ghost use Rattle.affc_report.specs.Examples.{FormsAreWritten, NamesAreWritten, TreesAreWritten, LoadsAreWritten, MarksAreWritten, ModuliAreWritten, BasesAreWritten, ChoicesAreWritten, LooseAreWritten, FoldsAreWritten};

/// Forms.
pub fn forms_are_written()
    ensures { FormsAreWritten }
{}

/// Forms over names.
pub fn names_are_written()
    ensures { NamesAreWritten }
{}

/// Trees.
pub fn trees_are_written()
    ensures { TreesAreWritten }
{}

/// The loads of a program.
pub fn loads_are_written()
    ensures { LoadsAreWritten }
{}

/// What is known of a modulus.
pub fn marks_are_written()
    ensures { MarksAreWritten }
{}

/// The moduli of a fold.
pub fn moduli_are_written()
    ensures { ModuliAreWritten }
{}

/// The rows of a basis.
pub fn bases_are_written()
    ensures { BasesAreWritten }
{}

/// What folds and other bases cost.
pub fn choices_are_written()
    ensures { ChoicesAreWritten }
{}

/// Components without ends.
pub fn loose_are_written()
    ensures { LooseAreWritten }
{}

/// The temporaries of a program, and a component without ends.
pub fn folds_are_written()
    ensures { FoldsAreWritten }
{}
