//! The columns of trees in a certificate's text: there the iterators stand first, and then the parameters.
ghost use Rattle.std.specs.Prelude.{◌≡◌, ◌++◌, map, IfOk, OnOk};
ghost use Rattle.affc_quast.specs.Seen.{seen, trees_of};
ghost use Rattle.affc_accept.specs.Columns as specs;

use affc_cert::{Layout, Load};
use affc_quast::{Flow, Quast};
use affc_rows::Form;
use smallvec::SmallVec;
use sqlite_items::Items;
use std::alloc::{AllocError, Global};

// The form with so many columns at the head behind so many that follow them.
fn form_exchanged(alloc: Global, form: &Form, first: u32, second: u32) -> Result<Form, AllocError>
    ensures { IfOk result (λ f. f ≡ specs.form_exchanged first second form.now) }
{
    let all = form.coefs.as_slice();
    let (head, rest) = all.split_at(all.len().min(first as usize));
    let (follow, behind) = rest.split_at(rest.len().min(second as usize));
    let mut coefs = SmallVec::from_slice(alloc, follow)?;
    coefs.extend_from_slice(head)?;
    coefs.extend_from_slice(behind)?;
    Ok(Form {
        coefs,
        constant: form.constant,
    })
}

// Adds forms, each exchanged so.
fn add_exchanged(
    alloc: Global,
    forms: &[Form],
    first: u32,
    second: u32,
    out: &mut Items<Form>,
) -> Result<(), AllocError>
    ensures { OnOk result (out.new ≡ out.old ++ map (specs.form_exchanged first second) forms.now) }
{
    match forms {
        [] => Ok(()),
        [form, rest @ ..] => {
            let form = form_exchanged(alloc, form, first, second)?;
            out.push(form)?;
            add_exchanged(alloc, rest, first, second, out)
        }
    }
}

// The tree with its forms exchanged so.
fn tree_exchanged(alloc: Global, tree: &Quast, first: u32, second: u32) -> Result<Quast, AllocError>
    ensures { IfOk result (λ t. seen t ≡ specs.tree_exchanged first second (seen tree.now)) }
{
    match tree {
        Quast::Test { form, yes, no } => {
            let form = form_exchanged(alloc, form, first, second)?;
            let yes = Box::new(alloc, tree_exchanged(alloc, yes, first, second)?)?;
            let no = Box::new(alloc, tree_exchanged(alloc, no, first, second)?)?;
            Ok(Quast::Test { form, yes, no })
        }
        Quast::Div { form, by, rest } => {
            let form = form_exchanged(alloc, form, first, second)?;
            let rest = Box::new(alloc, tree_exchanged(alloc, rest, first, second)?)?;
            Ok(Quast::Div {
                form,
                by: *by,
                rest,
            })
        }
        Quast::Source { part, forms } => {
            let mut exchanged = Items::new(alloc);
            add_exchanged(alloc, forms.as_slice(), first, second, &mut exchanged)?;
            Ok(Quast::Source {
                part: *part,
                forms: exchanged,
            })
        }
        Quast::Input => Ok(Quast::Input),
    }
}

// How many coordinates a load's part has, where there are so many parameters.
fn iterators_of(parameters: u32, load: &Load) -> u32
    ensures { result ≡ specs.iterators_of parameters load.now }
{
    load.columns.saturating_sub(parameters)
}

// Adds trees, each as the text has it.
fn add_in_text(
    alloc: Global,
    parameters: u32,
    loads: &[Load],
    trees: &[Quast],
    out: &mut Items<Quast>,
) -> Result<(), AllocError>
    ensures { OnOk result (map seen out.new ≡ map seen out.old ++ specs.trees_in_text parameters loads.now (map seen trees.now)) }
{
    match loads {
        [] => match trees {
            [] => Ok(()),
            [_, ..] => Err(AllocError),
        },
        [load, loads @ ..] => match trees {
            [] => Ok(()),
            [tree, trees @ ..] => {
                let iterators = iterators_of(parameters, load);
                out.push(tree_exchanged(alloc, tree, parameters, iterators)?)?;
                add_in_text(alloc, parameters, loads, trees, out)
            }
        },
    }
}

/// The trees as the text of a certificate has them.
pub fn in_text(alloc: Global, layout: &Layout, flow: &Flow) -> Result<Flow, AllocError>
    ensures { IfOk result (λ f. trees_of f ≡ specs.trees_in_text layout.now.parameters layout.now.loads (trees_of flow.now)) }
{
    let mut trees = Items::new(alloc);
    let loads = layout.loads.as_slice();
    add_in_text(
        alloc,
        layout.parameters,
        loads,
        flow.trees.as_slice(),
        &mut trees,
    )?;
    Ok(Flow { trees })
}

// Adds trees of a text, each as the code has it.
fn add_from_text(
    alloc: Global,
    parameters: u32,
    loads: &[Load],
    trees: &[Quast],
    out: &mut Items<Quast>,
) -> Result<(), AllocError>
    ensures { OnOk result (map seen out.new ≡ map seen out.old ++ specs.trees_from_text parameters loads.now (map seen trees.now)) }
{
    match loads {
        [] => match trees {
            [] => Ok(()),
            [_, ..] => Err(AllocError),
        },
        [load, loads @ ..] => match trees {
            [] => Ok(()),
            [tree, trees @ ..] => {
                let iterators = iterators_of(parameters, load);
                out.push(tree_exchanged(alloc, tree, iterators, parameters)?)?;
                add_from_text(alloc, parameters, loads, trees, out)
            }
        },
    }
}

/// The trees that the text of a certificate has so.
pub fn from_text(alloc: Global, layout: &Layout, flow: &Flow) -> Result<Flow, AllocError>
    ensures { IfOk result (λ f. trees_of f ≡ specs.trees_from_text layout.now.parameters layout.now.loads (trees_of flow.now)) }
{
    let mut trees = Items::new(alloc);
    let loads = layout.loads.as_slice();
    add_from_text(
        alloc,
        layout.parameters,
        loads,
        flow.trees.as_slice(),
        &mut trees,
    )?;
    Ok(Flow { trees })
}
