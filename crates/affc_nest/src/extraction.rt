//! The nest of a program.
ghost use Rattle.std.specs.Prelude.{◌≡◌, ◌≤◌, length, map, None, IsTrue, IfOk, IfErr, OnOk};
ghost use Rattle.affc_ast.specs.Trace.{assignments};
ghost use Rattle.affc_domain.specs.Arrays.{declared_arrays};
ghost use Rattle.affc_domain.specs.Loops.{loop_numbers};
ghost use Rattle.affc_domain.specs.Plain.{IsPlain, plain_decls, plain_tests};
ghost use Rattle.affc_domain.specs.Ranges.{number_ranges, first_wide};
ghost use Rattle.affc_domain.specs.Rounds.{rounds};
ghost use Rattle.affc_nest.specs.Domains.{test_rows};
ghost use Rattle.affc_nest.specs.Entries.{FaultSays};
ghost use Rattle.affc_nest.specs.Nests.{array_of, entries_of, nest_of};
ghost use Rattle.affc_nest.specs.Sites.{places, places_of};

use crate::accesses::{add_array_params, add_arrays, add_numbers};
use crate::domains::add_tests;
use crate::entries::add_entries;
use crate::nest::{ArrayInfo, Entry, Nest, NestFault};
use crate::sites::{Site, walk_all};
use affc_ast::tree::{Compare, Program};
use affc_system::{BoxOf, System};
use sqlite_items::Items;
use std::alloc::{AllocError, Global};

/// The declared ranges of the number parameters.
fn parameters(alloc: Global, program: &Program) -> Result<BoxOf, AllocError>
    requires { IsPlain program.now }
    ensures { IfOk result (λ params. params ≡ number_ranges program.now.params) }
{
    let mut params = BoxOf::new(alloc);
    add_numbers(program.params.as_slice(), &mut params)?;
    Ok(params)
}

/// The conditions over so many number parameters.
fn context(alloc: Global, names: u32, conds: &[Compare]) -> Result<System, AllocError>
    requires few_names { names ≤ 4 }
    requires few { length conds.now ≤ 16 }
    requires plain { IsTrue (plain_tests names conds.now) }
    ensures { IfOk result (λ s. s ≡ record { columns = names; rows = test_rows names 0 conds.now }) }
{
    let mut system = System::new(alloc, names);
    add_tests(alloc, &mut system, names, 0, conds)?;
    Ok(system)
}

/// All arrays, over so many number parameters.
#[tactic(auto, using(affc_trace::proofs::LastStores::map_append))]
fn arrays(alloc: Global, names: u32, program: &Program) -> Result<Items<ArrayInfo>, AllocError>
    requires plain { IsPlain program.now }
    requires names { names ≡ length (number_ranges program.now.params) }
    ensures { IfOk result (λ xs. xs ≡ map (array_of names) (declared_arrays program.now)) }
{
    let mut arrays = Items::new(alloc);
    add_array_params(alloc, names, program.params.as_slice(), &mut arrays)?;
    add_arrays(alloc, names, program.temps.as_slice(), &mut arrays)?;
    Ok(arrays)
}

/// The assignments in the order of the text, with what stands round each.
pub fn all_sites<'a>(alloc: Global, program: &'a Program) -> Result<Vec<Site<'a>>, AllocError>
    ensures { IfOk result (λ v. places v.items ≡ places_of program.now) }
{
    let frames = Vec::new(alloc);
    let loops = Vec::new(alloc);
    let mut sites = Vec::new(alloc);
    let _end = walk_all(
        alloc,
        program.body.as_slice(),
        frames.as_slice(),
        loops.as_slice(),
        0,
        &mut sites,
    )?;
    Ok(sites)
}

/// The entries of all assignments, and the first loop whose range passes 2^31, if one does.
fn entries(
    alloc: Global,
    params: &BoxOf,
    program: &Program,
) -> Result<(Items<Entry>, Option<(u32, u32)>), AllocError>
    requires plain { IsPlain program.now }
    requires params { params.now ≡ number_ranges program.now.params }
    ensures value { IfOk result (λ es. es.0 ≡ entries_of params.now program.now.context 0 (rounds program.now) (loop_numbers program.now) (assignments program.now)) }
    ensures wide { IfOk result (λ es. es.1 ≡ first_wide program.now) }
{
    let sites = all_sites(alloc, program)?;
    let mut entries = Items::new(alloc);
    let wide = add_entries(
        alloc,
        params,
        program.context.as_slice(),
        sites.as_slice(),
        0,
        &mut entries,
    )?;
    Ok((entries, wide))
}

/// A program's nest, and the first loop whose range passes 2^31, if one does.
#[derive(Drop)]
pub struct Extracted {
    pub nest: Nest,
    /// The number of the first statement with such a loop round it, and of the first such loop, counted from the outermost.
    pub wide: Option<(u32, u32)>,
}

/// The nest of a plain program, also where the range of a loop passes 2^31: then a statement in it has the bounds of its domain
/// without ranges.
pub fn extract_any(alloc: Global, program: &Program) -> Result<Extracted, AllocError>
    requires plain { IsPlain program.now }
    ensures nest { IfOk result (λ e. e.nest ≡ nest_of program.now) }
    ensures wide { IfOk result (λ e. e.wide ≡ first_wide program.now) }
{
    let params = parameters(alloc, program)?;
    let names = params.ranges().len() as u32;
    let context = context(alloc, names, program.context.as_slice())?;
    let arrays = arrays(alloc, names, program)?;
    let (entries, wide) = entries(alloc, &params, program)?;
    let nest = Nest {
        params,
        context,
        arrays,
        entries,
    };
    Ok(Extracted { nest, wide })
}

/// The nest of a plain program, unless the range of a loop passes 2^31.
pub fn extract(alloc: Global, program: &Program) -> Result<Nest, NestFault>
    requires plain { IsPlain program.now }
    ensures nest { IfOk result (λ nest. nest ≡ nest_of program.now) }
    ensures near { OnOk result (first_wide program.now ≡ None) }
    ensures wide { IfErr result (FaultSays (first_wide program.now)) }
{
    let Extracted { nest, wide } = extract_any(alloc, program)?;
    match wide {
        None => Ok(nest),
        Some((statement, loop_number)) => Err(NestFault::IteratorRange {
            statement,
            loop_number,
        }),
    }
}
