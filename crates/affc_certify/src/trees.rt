//! Copies of trees.
ghost use Rattle.std.specs.Prelude.{◌≡◌, IfOk};
ghost use Rattle.affc_quast.specs.Seen.{seen, trees_of};

use affc_nest::lists::copied as copied_forms;
use affc_quast::{Flow, Quast};
use sqlite_items::Items;
use std::alloc::{AllocError, Global};

/// A copy of a tree.
fn tree_copied(tree: &Quast, alloc: Global) -> Result<Quast, AllocError>
    ensures { IfOk result (λ t. seen t ≡ seen tree.now) }
{
    match tree {
        Quast::Test { form, yes, no } => {
            let form = form.clone()?;
            let yes = Box::new(alloc, tree_copied(yes, alloc)?)?;
            let no = Box::new(alloc, tree_copied(no, alloc)?)?;
            Ok(Quast::Test { form, yes, no })
        }
        Quast::Div { form, by, rest } => {
            let form = form.clone()?;
            let rest = Box::new(alloc, tree_copied(rest, alloc)?)?;
            Ok(Quast::Div {
                form,
                by: *by,
                rest,
            })
        }
        Quast::Source { part, forms } => {
            let forms = copied_forms(alloc, forms.as_slice())?;
            Ok(Quast::Source { part: *part, forms })
        }
        Quast::Input => Ok(Quast::Input),
    }
}

/// A copy of the trees of all loads.
#[tactic(auto, using(affc_certvalue::proofs::Found::map_steps))]
pub(crate) fn copied_flow(alloc: Global, flow: &Flow) -> Result<Flow, AllocError>
    ensures { IfOk result (λ f. trees_of f ≡ trees_of flow.now) }
{
    let mut trees = Items::new(alloc);
    for tree in flow.trees.as_slice() {
        trees.push(tree_copied(tree, alloc)?)?;
    }
    Ok(Flow { trees })
}
