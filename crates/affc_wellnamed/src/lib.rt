//! Which programs have a text that reads as them.
#![tactic(auto)]

ghost use Rattle.std.specs.Prelude.{◌≡◌, ◌↔◌, IsTrue};
ghost use Rattle.affc_grammar.specs.Reads.{WellNamed};
ghost use Rattle.affc_wellnamed.specs.Kept.{is_kept};

mod known;
mod plain;
mod shape;
mod sight;
mod work;

use affc_ast::tree::Program;

fn is_kept(program: &Program) -> bool
    ensures { result ≡ is_kept program.now }
{
    known::program_known(program)
        && (plain::program_plain(program)
            && (work::program_fits(program) && shape::shape_is_bounded(program)))
}

/// Whether the text that is printed of a program reads as it. It takes no memory.
pub fn well_named(program: &Program) -> bool
    ensures { IsTrue result ↔ WellNamed program.now }
{
    is_kept(program)
}
