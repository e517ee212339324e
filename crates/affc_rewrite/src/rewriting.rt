//! The whole program.
ghost use Rattle.std.specs.Prelude.{◌≡◌, ◌≤◌, ◌<◌, ◌+◌, ◌-◌, ◌^◌, map, length, IfOk};
ghost use Rattle.affc_ast.specs.Recursion.{by_stmt};
ghost use Rattle.affc_trace.specs.Target.{numbers_in};
ghost use Rattle.affc_domain.specs.Plain.{IsPlain};
ghost use Rattle.affc_nest.specs.Nests.{nest_of};
ghost use Rattle.affc_foldloops.specs.Refolds.{refold_step, each_under};
ghost use Rattle.affc_rewrite.specs.Rewrite as specs;

use crate::calls::calls;
use crate::statements::statements;
use crate::subscripts::Folding;
use crate::temporaries::add_decls;
use affc_ast::Items;
use affc_ast::copies::all as copies;
use affc_ast::text::Text;
use affc_ast::tree::{ArrayId, Decl, Program, Stmt};
use affc_basis::Fold;
use affc_nest::Nest;
use std::alloc::{AllocError, Global};

/// How many parameters are numbers.
fn count(nest: &Nest) -> u32
    requires { length nest.now.params ≤ 4 }
    ensures { result ≡ length nest.now.params }
{
    nest.params.ranges().len() as u32
}

/// The number of the first temporary.
fn first_temporary(program: &Program, nest: &Nest) -> usize
    requires { length program.now.temps ≤ length nest.now.arrays }
    ensures first { result ≡ length nest.now.arrays - length program.now.temps }
    ensures few { result + length program.now.temps < 2 ^ 64 }
{
    nest.arrays.as_slice().len() - program.temps.as_slice().len()
}

/// The statements with folded subscripts.
#[tactic(auto, using(crate::proofs::Whole::few_numbers, crate::proofs::Whole::walk_there, crate::proofs::Whole::plain_there, crate::proofs::Whole::body_is))]
fn body(
    alloc: Global,
    program: &Program,
    nest: &Nest,
    folds: &[(ArrayId, Fold)],
) -> Result<Items<Stmt>, AllocError>
    requires plain { IsPlain program.now }
    requires nest { nest.now ≡ nest_of program.now }
    requires limits { specs.KeepLimits program.now folds.now }
    ensures { IfOk result (λ b. b ≡ each_under (map (by_stmt (refold_step (specs.folded_subscripts program.now folds.now))) program.now.body) (numbers_in program.now.params)) }
{
    let parameters = count(nest);
    let folding = Folding {
        parameters,
        arrays: nest.arrays.as_slice(),
        folds,
    };
    statements(alloc, &folding, parameters, program.body.as_slice())
}

/// The temporaries with their moduli for extents.
#[tactic(auto, using(crate::proofs::Whole::few_numbers, crate::proofs::Whole::enough_arrays))]
fn temporaries(
    alloc: Global,
    program: &Program,
    nest: &Nest,
    folds: &[(ArrayId, Fold)],
) -> Result<Items<Decl>, AllocError>
    requires plain { IsPlain program.now }
    requires nest { nest.now ≡ nest_of program.now }
    requires limits { specs.KeepLimits program.now folds.now }
    ensures { IfOk result (λ ds. ds ≡ specs.folded_temps program.now folds.now) }
{
    let parameters = count(nest);
    let folding = Folding {
        parameters,
        arrays: nest.arrays.as_slice(),
        folds,
    };
    let first = first_temporary(program, nest);
    let temps = program.temps.as_slice();
    add_decls(alloc, &folding, first, temps, Items::new(alloc))
}

/// The program with the subscripts and extents of folds, as it is printed: it has the prelude exactly where a statement calls
/// one of its functions. The nest gives the extents of arrays as forms.
pub fn rewrite(
    alloc: Global,
    program: &Program,
    nest: &Nest,
    folds: &[(ArrayId, Fold)],
) -> Result<Program, AllocError>
    requires plain { IsPlain program.now }
    requires nest { nest.now ≡ nest_of program.now }
    requires limits { specs.KeepLimits program.now folds.now }
    ensures { IfOk result (λ q. q ≡ specs.folded_program program.now folds.now) }
{
    let body = body(alloc, program, nest, folds)?;
    let prelude = calls(body.as_slice());
    let temps = temporaries(alloc, program, nest, folds)?;
    let name = Text::from_str(alloc, program.name.as_str())?;
    let params = copies(alloc, program.params.as_slice())?;
    let context = copies(alloc, program.context.as_slice())?;
    Ok(Program {
        name,
        params,
        context,
        temps,
        body,
        prelude,
    })
}
