//! Source trees from their JSON values. What has no tree is refused with want of memory: the verdict on the value comes first.
ghost use Rattle.affc_cert.specs.tree.Stacks.{tree_stack_nodes};
ghost use Rattle.affc_cert.specs.tree.Trees.{tree_kind_of};
ghost use Rattle.affc_cert.specs.tree.Values.{test_node, div_node, source_node, input_node, tree_nodes_of, tree_value};
ghost use Rattle.affc_certvalue.specs.Values.{form_value, forms_value};
ghost use Rattle.affc_quast.specs.Seen.{seen};
ghost use Rattle.serde_json.specs.Data.{array};
ghost use Rattle.serde_json.specs.View.{view, items_view};
ghost use Rattle.std.specs.Prelude.{◌≡◌, ◌∷◌, ◌++◌, map, IfOk, OnOk};

use crate::tree::judge::tree_kind;
use crate::tree::kind::TreeKind;
use affc_certvalue::build::{form, whole};
use affc_quast::Quast;
use affc_rows::Form;
use serde_json::Value;
use sqlite_items::Items;
use std::alloc::{AllocError, Global};

/// The form of a test's node.
#[tactic(auto, using(crate::proofs::tree::Found::tree_parts_found))]
fn test(alloc: Global, items: &[Value]) -> Result<Form, AllocError>
    requires { tree_kind_of (items_view items.now) ≡ TreeKind.Test }
    ensures { IfOk result (λ f. test_node f ≡ array (items_view items.now)) }
{
    if items.len() != 2 {
        return Err(AllocError);
    }
    form(alloc, &items[1])
}

/// The parts of a division's node.
#[tactic(auto, using(crate::proofs::tree::Found::tree_parts_found))]
fn div(alloc: Global, items: &[Value]) -> Result<(Form, i64), AllocError>
    requires { tree_kind_of (items_view items.now) ≡ TreeKind.Div }
    ensures { IfOk result (λ r. div_node r.0 r.1 ≡ array (items_view items.now)) }
{
    if items.len() != 3 {
        return Err(AllocError);
    }
    let row = form(alloc, &items[1])?;
    let Some(by) = whole(&items[2]) else {
        return Err(AllocError);
    };
    Ok((row, by))
}

/// The forms that these values are.
#[tactic(auto, using(affc_certvalue::proofs::Found::map_steps))]
fn forms_among(alloc: Global, items: &[Value]) -> Result<Items<Form>, AllocError>
    ensures { IfOk result (λ v. map form_value v ≡ map view items.now) }
{
    let mut forms = Items::new(alloc);
    for value in items {
        forms.push(form(alloc, value)?)?;
    }
    Ok(forms)
}

/// The forms that a value is.
#[tactic(auto, using(affc_certvalue::proofs::Found::is_list))]
fn forms(alloc: Global, value: &Value) -> Result<Items<Form>, AllocError>
    ensures { IfOk result (λ v. forms_value v ≡ view value.now) }
{
    let Some(items) = value.as_array() else {
        return Err(AllocError);
    };
    forms_among(alloc, items.as_slice())
}

/// The parts of the node of a leaf that names a part.
#[tactic(auto, using(crate::proofs::tree::Found::tree_parts_found))]
fn source(alloc: Global, items: &[Value]) -> Result<(u32, Items<Form>), AllocError>
    requires { tree_kind_of (items_view items.now) ≡ TreeKind.Source }
    ensures { IfOk result (λ r. source_node r.0 r.1 ≡ array (items_view items.now)) }
{
    if items.len() != 3 {
        return Err(AllocError);
    }
    let Some(number) = whole(&items[1]) else {
        return Err(AllocError);
    };
    let Ok(part) = u32::try_from(number) else {
        return Err(AllocError);
    };
    let forms = forms(alloc, &items[2])?;
    Ok((part, forms))
}

/// Puts a leaf that names a part on the stack.
#[tactic(auto, using(crate::proofs::tree::Found::tree_stack_steps))]
fn put_source(stack: &mut Vec<Quast>, part: u32, forms: Items<Form>) -> Result<(), AllocError>
    ensures { OnOk result (tree_stack_nodes stack.new.items ≡ source_node part forms ∷ tree_stack_nodes stack.old.items) }
{
    stack.push(Quast::Source { part, forms })?;
    Ok(())
}

/// Puts a leaf for what was handed in on the stack.
#[tactic(auto, using(crate::proofs::tree::Found::tree_stack_steps))]
fn put_input(stack: &mut Vec<Quast>) -> Result<(), AllocError>
    ensures { OnOk result (tree_stack_nodes stack.new.items ≡ input_node ∷ tree_stack_nodes stack.old.items) }
{
    stack.push(Quast::Input)?;
    Ok(())
}

/// Takes the tree on the top of the stack, in a box.
#[tactic(auto, using(crate::proofs::tree::Found::tree_stack_top))]
fn boxed_top(alloc: Global, stack: &mut Vec<Quast>) -> Result<Box<Quast>, AllocError>
    ensures { IfOk result (λ t. tree_stack_nodes stack.old.items ≡ tree_nodes_of (seen t.value) ++ tree_stack_nodes stack.new.items) }
{
    match stack.pop() {
        None => Err(AllocError),
        Some(tree) => Ok(Box::new(alloc, tree)?),
    }
}

/// Puts a division on the stack, over the tree on its top.
#[tactic(auto, using(crate::proofs::tree::Found::tree_stack_steps))]
fn put_div(alloc: Global, stack: &mut Vec<Quast>, form: Form, by: i64) -> Result<(), AllocError>
    ensures { OnOk result (tree_stack_nodes stack.new.items ≡ div_node form by ∷ tree_stack_nodes stack.old.items) }
{
    let rest = boxed_top(alloc, stack)?;
    stack.push(Quast::Div { form, by, rest })?;
    Ok(())
}

/// Puts a test on the stack, over the two trees on its top.
#[tactic(auto, using(crate::proofs::tree::Found::tree_stack_steps))]
fn put_test(alloc: Global, stack: &mut Vec<Quast>, form: Form) -> Result<(), AllocError>
    ensures { OnOk result (tree_stack_nodes stack.new.items ≡ test_node form ∷ tree_stack_nodes stack.old.items) }
{
    let yes = boxed_top(alloc, stack)?;
    let no = boxed_top(alloc, stack)?;
    stack.push(Quast::Test { form, yes, no })?;
    Ok(())
}

/// Puts the tree of a node on the stack, over the trees behind the node.
#[tactic(auto, using(crate::proofs::tree::Found::tree_node_steps))]
fn put_node(alloc: Global, stack: &mut Vec<Quast>, value: &Value) -> Result<(), AllocError>
    ensures { OnOk result (tree_stack_nodes stack.new.items ≡ view value.now ∷ tree_stack_nodes stack.old.items) }
{
    let Some(items) = value.as_array() else {
        return Err(AllocError);
    };
    let items = items.as_slice();
    match tree_kind(items) {
        TreeKind::Test => put_test(alloc, stack, test(alloc, items)?),
        TreeKind::Div => {
            let (form, by) = div(alloc, items)?;
            put_div(alloc, stack, form, by)
        }
        TreeKind::Source => {
            let (statement, forms) = source(alloc, items)?;
            put_source(stack, statement, forms)
        }
        TreeKind::Input => {
            if items.len() != 1 {
                return Err(AllocError);
            }
            put_input(stack)
        }
        TreeKind::Other => Err(AllocError),
    }
}

/// The tree whose nodes these values are, from the last node to the first.
#[tactic(auto, using(crate::proofs::tree::Found::tree_stack_ends))]
fn from_nodes(alloc: Global, nodes: &[Value]) -> Result<Quast, AllocError>
    ensures { IfOk result (λ t. tree_nodes_of (seen t) ≡ map view nodes.now) }
{
    let mut stack = Vec::new(alloc);
    let mut i = nodes.len();
    while i > 0 {
        i -= 1;
        put_node(alloc, &mut stack, &nodes[i])?;
    }
    let Some(tree) = stack.pop() else {
        return Err(AllocError);
    };
    if !stack.is_empty() {
        return Err(AllocError);
    }
    Ok(tree)
}

/// The tree that a value is.
#[tactic(auto, using(affc_certvalue::proofs::Found::is_list))]
pub fn tree_from_value(alloc: Global, value: &Value) -> Result<Quast, AllocError>
    ensures { IfOk result (λ t. tree_value (seen t) ≡ view value.now) }
{
    let Some(nodes) = value.as_array() else {
        return Err(AllocError);
    };
    from_nodes(alloc, nodes.as_slice())
}
