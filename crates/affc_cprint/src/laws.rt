//! What holds of every program: functions without a body whose contracts are the statements.

ghost use Rattle.std.specs.Prelude.{◌↔◌};
ghost use Rattle.affc_ast.specs.declared.tree.Program.{Program};
ghost use Rattle.affc_grammar.specs.Reads.{WellNamed};
ghost use Rattle.affc_cprint.specs.KeepsRules.{KeepsRules};

/// A program is well named exactly where its own printed text keeps the rules: no other text of it need be looked for.
pub fn the_printed_text_decides()
    ensures { (p : Program) → WellNamed p ↔ KeepsRules p }
{}
