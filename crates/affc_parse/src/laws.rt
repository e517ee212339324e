//! What the answers of `parse` say of a text, by what it reads as: each function here is a statement, proved.

ghost use Rattle.std.specs.Prelude.{◌≡◌, ◌⊎◌, ℕ, List, Result, Ok, Err};
ghost use Rattle.affc_ast.specs.declared.tree.Program.{Program};
ghost use Rattle.affc_grammar.specs.Reads.{Reads};
ghost use Rattle.affc_parse.specs.declared.fault.ParseFault.{ParseFault};
ghost use Rattle.affc_parse.specs.declared.fault.ParseFault.TheVariants.{Memory};
ghost use Rattle.affc_parse.specs.Answers.{Answers};

/// A text that reads as a program is answered with this program, or with want of memory.
pub fn programs_are_answered()
    ensures { (text : List ℕ) (program : Program) (answer : Result Program ParseFault) → Reads text program → Answers text answer
        → (answer ≡ Ok program) ⊎ (answer ≡ Err Memory) }
{}

/// Another fault than want of memory is answered only for a text that reads as no program.
pub fn faults_refuse()
    ensures { (text : List ℕ) (fault : ParseFault) → Answers text (Err fault) → (fault ≡ Memory → ⊥)
        → (program : Program) → Reads text program → ⊥ }
{}
