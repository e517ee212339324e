//! What a schedule's text sees of a program, read off the program's tree.

ghost use Rattle.std.specs.Prelude.{◌≡◌, ◌++◌, ◌∷◌, [], true, false, map, IfOk, OnOk};
ghost use Rattle.affc_ast.specs.Meaning.{arrays_of};
ghost use Rattle.affc_ast.specs.Recursion.{by_stmt};
ghost use Rattle.affc_ast.specs.Trace.{joined};
ghost use Rattle.affc_domain.specs.Rounds.{rounds_step};
ghost use Rattle.affc_schedtext.specs.Outline as outlines;
ghost use Rattle.affc_schedtext.specs.Walking.{iterators_under};

use crate::outline::{ArrayOutline, Outline};
use affc_ast::Items;
use affc_ast::text::Text;
use affc_ast::tree::{Decl, Param, Program, Stmt};
use std::alloc::{AllocError, Global};

fn name_copied(alloc: Global, name: &Text) -> Result<Text, AllocError>
    ensures { IfOk result (λ t. t ≡ name.now) }
{
    Text::from_str(alloc, name.as_str())
}

#[tactic(auto, using(std::proofs::lemmas::List::take_more, std::proofs::lemmas::List::take_all))]
fn names_copied(alloc: Global, names: &[Text]) -> Result<Items<Text>, AllocError>
    ensures { IfOk result (λ copies. copies ≡ names.now) }
{
    let mut copies = Items::new(alloc);
    for name in names {
        copies.push(name_copied(alloc, name)?)?;
    }
    Ok(copies)
}

/// The names with one more behind them.
fn with_name(alloc: Global, names: &[Text], name: &Text) -> Result<Items<Text>, AllocError>
    ensures { IfOk result (λ longer. longer ≡ names.now ++ name.now ∷ []) }
{
    let mut longer = names_copied(alloc, names)?;
    longer.push(name_copied(alloc, name)?)?;
    Ok(longer)
}

// ---- Parameters

#[tactic(auto, using(crate::proofs::Walks::ends))]
fn add_number(alloc: Global, param: &Param, names: &mut Items<Text>) -> Result<(), AllocError>
    ensures { OnOk result (names.new ≡ names.old ++ outlines.number_names (param.now ∷ [])) }
{
    match param {
        Param::Number { name, .. } => names.push(name_copied(alloc, name)?),
        Param::Array(_) => Ok(()),
    }
}

#[tactic(auto, using(crate::proofs::Walks::ends))]
fn number_names(alloc: Global, params: &[Param]) -> Result<Items<Text>, AllocError>
    ensures { IfOk result (λ names. names ≡ outlines.number_names params.now) }
{
    let mut names = Items::new(alloc);
    for param in params {
        add_number(alloc, param, &mut names)?;
    }
    Ok(names)
}

// ---- Arrays

fn array_outline(alloc: Global, is_temporary: bool, decl: &Decl) -> Result<ArrayOutline, AllocError>
    ensures { IfOk result (λ a. a ≡ outlines.array_outline is_temporary decl.now) }
{
    let name = name_copied(alloc, &decl.name)?;
    Ok(ArrayOutline {
        name,
        dimensions: decl.extents.len() as u64,
        is_temporary,
    })
}

#[tactic(auto, using(crate::proofs::Walks::ends))]
fn add_array(
    alloc: Global,
    param: &Param,
    arrays: &mut Items<ArrayOutline>,
) -> Result<(), AllocError>
    ensures { OnOk result (arrays.new ≡ arrays.old ++ map (outlines.array_outline false) (arrays_of (param.now ∷ []))) }
{
    match param {
        Param::Number { .. } => Ok(()),
        Param::Array(decl) => arrays.push(array_outline(alloc, false, decl)?),
    }
}

#[tactic(auto, using(crate::proofs::Walks::ends))]
fn parameter_arrays(alloc: Global, params: &[Param]) -> Result<Items<ArrayOutline>, AllocError>
    ensures { IfOk result (λ arrays. arrays ≡ map (outlines.array_outline false) (arrays_of params.now)) }
{
    let mut arrays = Items::new(alloc);
    for param in params {
        add_array(alloc, param, &mut arrays)?;
    }
    Ok(arrays)
}

#[tactic(auto, using(crate::proofs::Walks::ends))]
fn add_temporaries(
    alloc: Global,
    temps: &[Decl],
    arrays: &mut Items<ArrayOutline>,
) -> Result<(), AllocError>
    ensures { OnOk result (arrays.new ≡ arrays.old ++ map (outlines.array_outline true) temps.now) }
{
    for temp in temps {
        arrays.push(array_outline(alloc, true, temp)?)?;
    }
    Ok(())
}

// ---- Statements

/// Adds the iterators round each assignment of the statement, round which these stand.
#[cycle(walk)]
fn walk(
    alloc: Global,
    s: &Stmt,
    around: &[Text],
    out: &mut Items<Items<Text>>,
) -> Result<(), AllocError>
    ensures { OnOk result (out.new ≡ out.old ++ iterators_under around.now (by_stmt rounds_step s.now)) }
{
    match s {
        Stmt::For {
            iter,
            low: _,
            rel: _,
            high: _,
            body,
        } => {
            let inside = with_name(alloc, around, iter)?;
            walk_all(alloc, body.as_slice(), inside.as_slice(), out)
        }
        Stmt::If {
            cond: _,
            body,
            other,
        } => {
            walk_all(alloc, body.as_slice(), around, out)?;
            walk_all(alloc, other.as_slice(), around, out)
        }
        Stmt::Assign {
            op: _,
            array: _,
            subs: _,
            value: _,
        } => out.push(names_copied(alloc, around)?),
        Stmt::Block { locals: _, body } => walk_all(alloc, body.as_slice(), around, out),
    }
}

/// The same for statements one after the other.
#[cycle(walk)]
fn walk_all(
    alloc: Global,
    body: &[Stmt],
    around: &[Text],
    out: &mut Items<Items<Text>>,
) -> Result<(), AllocError>
    ensures { OnOk result (out.new ≡ out.old ++ iterators_under around.now (joined (map (by_stmt rounds_step) body.now))) }
{
    for s in body {
        walk(alloc, s, around, out)?;
    }
    Ok(())
}

#[tactic(auto, using(crate::proofs::Walks::wholes))]
fn statements(alloc: Global, program: &Program) -> Result<Items<Items<Text>>, AllocError>
    ensures { IfOk result (λ lists. lists ≡ (outlines.outline program.now).statements) }
{
    let mut lists = Items::new(alloc);
    walk_all(alloc, program.body.as_slice(), &[], &mut lists)?;
    Ok(lists)
}

/// What a schedule's text sees of the program.
pub fn outline_of(alloc: Global, program: &Program) -> Result<Outline, AllocError>
    ensures { IfOk result (λ o. o ≡ outlines.outline program.now) }
{
    let parameters = number_names(alloc, program.params.as_slice())?;
    let mut arrays = parameter_arrays(alloc, program.params.as_slice())?;
    add_temporaries(alloc, program.temps.as_slice(), &mut arrays)?;
    let statements = statements(alloc, program)?;
    Ok(Outline {
        parameters,
        statements,
        arrays,
    })
}
