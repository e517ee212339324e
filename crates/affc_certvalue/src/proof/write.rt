//! JSON values of proofs.
ghost use Rattle.affc_certvalue.specs.proof.Proofs.{steps_of};
ghost use Rattle.affc_certvalue.specs.proof.Values.{pair_value, multipliers_value, leaf_node, cut_node, split_node, nodes_of, proof_value};
ghost use Rattle.serde_json.specs.View.{view};
ghost use Rattle.std.specs.Prelude.{◌≡◌, [], ◌∷◌, ◌++◌, ◌-ℤ◌, map, IfOk, OnOk};

use crate::write::{coefs, form, list, whole};
use affc_farkas::{Multipliers, Proof};
use affc_rows::Form;
use serde_json::Value;
use std::alloc::{AllocError, Global};

/// The value of a row number with its multiplier.
fn pair(alloc: Global, pair: (u32, u64)) -> Result<Value, AllocError>
    ensures { IfOk result (λ v. view v ≡ pair_value pair) }
{
    let mut values = Vec::new(alloc);
    values.push(Value::from(pair.0))?;
    values.push(Value::from(pair.1))?;
    Ok(list(values))
}

/// The value of multipliers.
fn multipliers(alloc: Global, by: &Multipliers) -> Result<Value, AllocError>
    ensures { IfOk result (λ v. view v ≡ multipliers_value by.now) }
{
    let mut values = Vec::new(alloc);
    let pairs = by.pairs();
    for item in pairs {
        values.push(pair(alloc, *item)?)?;
    }
    Ok(list(values))
}

/// Adds the node of a leaf to a list.
fn add_leaf(alloc: Global, nodes: &mut Vec<Value>, by: &Multipliers) -> Result<(), AllocError>
    ensures { OnOk result (map view nodes.new.items ≡ map view nodes.old.items ++ leaf_node by.now ∷ []) }
{
    let mut values = Vec::new(alloc);
    values.push(Value::try_from_str(alloc, "f")?)?;
    values.push(multipliers(alloc, by)?)?;
    nodes.push(list(values))?;
    Ok(())
}

/// Adds the node of a cut to a list.
fn add_cut(
    alloc: Global,
    nodes: &mut Vec<Value>,
    by: &Multipliers,
    g: i64,
    row: &Form,
) -> Result<(), AllocError>
    ensures { OnOk result (map view nodes.new.items ≡ map view nodes.old.items ++ cut_node by.now g row.now ∷ []) }
{
    let mut values = Vec::new(alloc);
    values.push(Value::try_from_str(alloc, "c")?)?;
    values.push(multipliers(alloc, by)?)?;
    values.push(Value::from(g))?;
    values.push(form(alloc, row)?)?;
    nodes.push(list(values))?;
    Ok(())
}

/// Adds the node of a split with these coefficients, at this number, to a list.
fn add_split_at(
    alloc: Global,
    nodes: &mut Vec<Value>,
    numbers: &[i128],
    at: i128,
) -> Result<(), AllocError>
    ensures { OnOk result (map view nodes.new.items ≡ map view nodes.old.items ++ split_node numbers.now at ∷ []) }
{
    let mut values = Vec::new(alloc);
    values.push(Value::try_from_str(alloc, "s")?)?;
    values.push(coefs(alloc, numbers)?)?;
    values.push(whole(at)?)?;
    nodes.push(list(values))?;
    Ok(())
}

/// Adds the node of a split to a list.
fn add_split(alloc: Global, nodes: &mut Vec<Value>, form: &Form, at: i64) -> Result<(), AllocError>
    ensures { OnOk result (map view nodes.new.items ≡ map view nodes.old.items ++ split_node form.now.coefs (at -ℤ form.now.constant) ∷ []) }
{
    match i128::from(at).checked_sub(form.constant) {
        None => Err(AllocError),
        Some(at) => add_split_at(alloc, nodes, form.coefs.as_slice(), at),
    }
}

/// Adds the nodes of a proof to a list, as deep as the proof is.
fn add_nodes(alloc: Global, nodes: &mut Vec<Value>, proof: &Proof) -> Result<(), AllocError>
    ensures { OnOk result (map view nodes.new.items ≡ map view nodes.old.items ++ nodes_of (steps_of proof.now)) }
{
    match proof {
        Proof::Leaf(by) => add_leaf(alloc, nodes, by),
        Proof::Cut { by, g, row, rest } => {
            add_cut(alloc, nodes, by, *g, row)?;
            add_nodes(alloc, nodes, rest)
        }
        Proof::Split {
            form,
            at,
            low,
            high,
        } => {
            add_split(alloc, nodes, form, *at)?;
            add_nodes(alloc, nodes, low)?;
            add_nodes(alloc, nodes, high)
        }
    }
}

/// The value of a proof.
pub fn proof_to_value(alloc: Global, proof: &Proof) -> Result<Value, AllocError>
    ensures { IfOk result (λ v. view v ≡ proof_value (steps_of proof.now)) }
{
    let mut nodes = Vec::new(alloc);
    add_nodes(alloc, &mut nodes, proof)?;
    Ok(list(nodes))
}
