//! JSON values of source trees.
ghost use Rattle.affc_cert.specs.tree.Values.{test_node, div_node, source_node, input_node, tree_nodes_of, tree_value};
ghost use Rattle.affc_certvalue.specs.Values.{forms_value};
ghost use Rattle.affc_quast.specs.Seen.{seen};
ghost use Rattle.serde_json.specs.View.{view};
ghost use Rattle.std.specs.Prelude.{◌≡◌, [], ◌∷◌, ◌++◌, map, IfOk, OnOk};

use affc_certvalue::write::{form, list};
use affc_quast::Quast;
use affc_rows::Form;
use serde_json::Value;
use std::alloc::{AllocError, Global};

/// Adds the node of a test to a list.
fn add_test(alloc: Global, nodes: &mut Vec<Value>, row: &Form) -> Result<(), AllocError>
    ensures { OnOk result (map view nodes.new.items ≡ map view nodes.old.items ++ test_node row.now ∷ []) }
{
    let mut values = Vec::new(alloc);
    values.push(Value::try_from_str(alloc, "t")?)?;
    values.push(form(alloc, row)?)?;
    nodes.push(list(values))?;
    Ok(())
}

/// Adds the node of a division to a list.
fn add_div(alloc: Global, nodes: &mut Vec<Value>, row: &Form, by: i64) -> Result<(), AllocError>
    ensures { OnOk result (map view nodes.new.items ≡ map view nodes.old.items ++ div_node row.now by ∷ []) }
{
    let mut values = Vec::new(alloc);
    values.push(Value::try_from_str(alloc, "d")?)?;
    values.push(form(alloc, row)?)?;
    values.push(Value::from(by))?;
    nodes.push(list(values))?;
    Ok(())
}

/// The value of forms.
fn forms(alloc: Global, rows: &[Form]) -> Result<Value, AllocError>
    ensures { IfOk result (λ v. view v ≡ forms_value rows.now) }
{
    let mut values = Vec::new(alloc);
    for row in rows {
        values.push(form(alloc, row)?)?;
    }
    Ok(list(values))
}

/// Adds the node of a leaf that names a statement to a list.
fn add_source(
    alloc: Global,
    nodes: &mut Vec<Value>,
    statement: u32,
    rows: &[Form],
) -> Result<(), AllocError>
    ensures { OnOk result (map view nodes.new.items ≡ map view nodes.old.items ++ source_node statement rows.now ∷ []) }
{
    let mut values = Vec::new(alloc);
    values.push(Value::try_from_str(alloc, "w")?)?;
    values.push(Value::from(statement))?;
    values.push(forms(alloc, rows)?)?;
    nodes.push(list(values))?;
    Ok(())
}

/// Adds the node of a leaf for what was handed in to a list.
fn add_input(alloc: Global, nodes: &mut Vec<Value>) -> Result<(), AllocError>
    ensures { OnOk result (map view nodes.new.items ≡ map view nodes.old.items ++ input_node ∷ []) }
{
    let mut values = Vec::new(alloc);
    values.push(Value::try_from_str(alloc, "i")?)?;
    nodes.push(list(values))?;
    Ok(())
}

/// Adds the nodes of a tree to a list, as deep as the tree is.
fn add_nodes(alloc: Global, nodes: &mut Vec<Value>, tree: &Quast) -> Result<(), AllocError>
    ensures { OnOk result (map view nodes.new.items ≡ map view nodes.old.items ++ tree_nodes_of (seen tree.now)) }
{
    match tree {
        Quast::Test { form, yes, no } => {
            add_test(alloc, nodes, form)?;
            add_nodes(alloc, nodes, yes)?;
            add_nodes(alloc, nodes, no)
        }
        Quast::Div { form, by, rest } => {
            add_div(alloc, nodes, form, *by)?;
            add_nodes(alloc, nodes, rest)
        }
        Quast::Source { part, forms } => { add_source(alloc, nodes, *part, forms.as_slice()) }
        Quast::Input => add_input(alloc, nodes),
    }
}

/// The value of a tree.
pub fn tree_to_value(alloc: Global, tree: &Quast) -> Result<Value, AllocError>
    ensures { IfOk result (λ v. view v ≡ tree_value (seen tree.now)) }
{
    let mut nodes = Vec::new(alloc);
    add_nodes(alloc, &mut nodes, tree)?;
    Ok(list(nodes))
}
