//! Proofs from their JSON values. What has no proof is refused with want of memory: the verdict on the value comes first.
ghost use Rattle.affc_certvalue.specs.proof.Proofs.{steps_of};
ghost use Rattle.affc_certvalue.specs.proof.Stacks.{stack_nodes};
ghost use Rattle.affc_certvalue.specs.proof.Values.{pair_value, multipliers_value, leaf_node, cut_node, split_node, nodes_of, proof_value};
ghost use Rattle.affc_certvalue.specs.proof.Verdicts.{kind_of};
ghost use Rattle.serde_json.specs.Data.{array};
ghost use Rattle.serde_json.specs.View.{view, items_view};
ghost use Rattle.std.specs.Prelude.{◌≡◌, ◌∷◌, ◌++◌, ◌-ℤ◌, map, pos, IfOk, IfSome, OnOk};

use crate::build::{coefs, form, whole};
use crate::proof::judge::kind;
use crate::proof::kind::Kind;
use affc_farkas::{Multipliers, Proof};
use affc_rows::Form;
use serde_json::Value;
use std::alloc::{AllocError, Global};

/// The row number and the multiplier that two numbers are.
fn pair_of(row: i64, times: i64) -> Option<(u32, u64)>
    ensures { IfSome result (λ p. (pos p.0 ≡ row) × (pos p.1 ≡ times)) }
{
    let row = u32::try_from(row).ok()?;
    let times = u64::try_from(times).ok()?;
    Some((row, times))
}

/// The row number and the multiplier that a value is.
#[tactic(auto, using(crate::proofs::proof::Found::pair_steps))]
fn pair(value: &Value) -> Option<(u32, u64)>
    ensures { IfSome result (λ p. pair_value p ≡ view value.now) }
{
    let items = value.as_array()?;
    if items.len() != 2 {
        return None;
    }
    let row = whole(&items[0])?;
    let times = whole(&items[1])?;
    pair_of(row, times)
}

/// The multipliers that a value is.
#[tactic(auto, using(crate::proofs::Found::map_steps))]
fn multipliers_among(alloc: Global, items: &[Value]) -> Result<Multipliers, AllocError>
    ensures { IfOk result (λ by. map pair_value by ≡ map view items.now) }
{
    let mut by = Multipliers::new(alloc);
    for value in items {
        let Some(pair) = pair(value) else {
            return Err(AllocError);
        };
        let Ok(()) = by.push(pair.0, pair.1) else {
            return Err(AllocError);
        };
    }
    Ok(by)
}

/// The multipliers that a value is.
#[tactic(auto, using(crate::proofs::proof::Found::is_multipliers))]
fn multipliers(alloc: Global, value: &Value) -> Result<Multipliers, AllocError>
    ensures { IfOk result (λ by. multipliers_value by ≡ view value.now) }
{
    let Some(items) = value.as_array() else {
        return Err(AllocError);
    };
    multipliers_among(alloc, items.as_slice())
}

/// The multipliers of a leaf's node.
#[tactic(auto, using(crate::proofs::proof::Found::node_parts))]
fn leaf(alloc: Global, items: &[Value]) -> Result<Multipliers, AllocError>
    requires { kind_of (items_view items.now) ≡ Kind.Leaf }
    ensures { IfOk result (λ by. leaf_node by ≡ array (items_view items.now)) }
{
    if items.len() != 2 {
        return Err(AllocError);
    }
    multipliers(alloc, &items[1])
}

/// The parts of a cut's node.
#[tactic(auto, using(crate::proofs::proof::Found::node_parts))]
fn cut(alloc: Global, items: &[Value]) -> Result<(Multipliers, i64, Form), AllocError>
    requires { kind_of (items_view items.now) ≡ Kind.Cut }
    ensures { IfOk result (λ r. cut_node r.0 r.1 r.2 ≡ array (items_view items.now)) }
{
    if items.len() != 4 {
        return Err(AllocError);
    }
    let by = multipliers(alloc, &items[1])?;
    let Some(g) = whole(&items[2]) else {
        return Err(AllocError);
    };
    let row = form(alloc, &items[3])?;
    Ok((by, g, row))
}

/// The parts of a split's node.
#[tactic(auto, using(crate::proofs::proof::Found::node_parts))]
fn split(alloc: Global, items: &[Value]) -> Result<(Form, i64), AllocError>
    requires { kind_of (items_view items.now) ≡ Kind.Split }
    ensures { IfOk result (λ r. split_node r.0.coefs (r.1 -ℤ r.0.constant) ≡ array (items_view items.now)) }
{
    if items.len() != 3 {
        return Err(AllocError);
    }
    let form = coefs(alloc, &items[1])?;
    let Some(at) = whole(&items[2]) else {
        return Err(AllocError);
    };
    Ok((form, at))
}

/// Puts a leaf on the stack.
#[tactic(auto, using(crate::proofs::proof::Found::stack_steps))]
fn put_leaf(stack: &mut Vec<Proof>, by: Multipliers) -> Result<(), AllocError>
    ensures { OnOk result (stack_nodes stack.new.items ≡ leaf_node by ∷ stack_nodes stack.old.items) }
{
    stack.push(Proof::Leaf(by))?;
    Ok(())
}

/// Takes the proof on the top of the stack, in a box.
#[tactic(auto, using(crate::proofs::proof::Found::stack_top))]
fn boxed_top(alloc: Global, stack: &mut Vec<Proof>) -> Result<Box<Proof>, AllocError>
    ensures { IfOk result (λ p. stack_nodes stack.old.items ≡ nodes_of (steps_of p.value) ++ stack_nodes stack.new.items) }
{
    match stack.pop() {
        None => Err(AllocError),
        Some(proof) => Ok(Box::new(alloc, proof)?),
    }
}

/// Puts a cut on the stack, over the proof on its top.
#[tactic(auto, using(crate::proofs::proof::Found::stack_steps))]
fn put_cut(
    alloc: Global,
    stack: &mut Vec<Proof>,
    by: Multipliers,
    g: i64,
    row: Form,
) -> Result<(), AllocError>
    ensures { OnOk result (stack_nodes stack.new.items ≡ cut_node by g row ∷ stack_nodes stack.old.items) }
{
    let rest = boxed_top(alloc, stack)?;
    stack.push(Proof::Cut { by, g, row, rest })?;
    Ok(())
}

/// Puts a split on the stack, over the two proofs on its top.
#[tactic(auto, using(crate::proofs::proof::Found::stack_steps))]
fn put_split(alloc: Global, stack: &mut Vec<Proof>, form: Form, at: i64) -> Result<(), AllocError>
    ensures { OnOk result (stack_nodes stack.new.items ≡ split_node form.coefs (at -ℤ form.constant) ∷ stack_nodes stack.old.items) }
{
    let low = boxed_top(alloc, stack)?;
    let high = boxed_top(alloc, stack)?;
    stack.push(Proof::Split {
        form,
        at,
        low,
        high,
    })?;
    Ok(())
}

/// Puts the proof of a node on the stack, over the proofs behind the node.
#[tactic(auto, using(crate::proofs::Found::is_array))]
fn put_node(alloc: Global, stack: &mut Vec<Proof>, value: &Value) -> Result<(), AllocError>
    ensures { OnOk result (stack_nodes stack.new.items ≡ view value.now ∷ stack_nodes stack.old.items) }
{
    let Some(items) = value.as_array() else {
        return Err(AllocError);
    };
    let items = items.as_slice();
    match kind(items) {
        Kind::Leaf => put_leaf(stack, leaf(alloc, items)?),
        Kind::Cut => {
            let (by, g, row) = cut(alloc, items)?;
            put_cut(alloc, stack, by, g, row)
        }
        Kind::Split => {
            let (form, at) = split(alloc, items)?;
            put_split(alloc, stack, form, at)
        }
        Kind::Other => Err(AllocError),
    }
}

/// The proof whose nodes these values are, from the last node to the first.
#[tactic(auto, using(crate::proofs::proof::Found::stack_ends))]
fn from_nodes(alloc: Global, nodes: &[Value]) -> Result<Proof, AllocError>
    ensures { IfOk result (λ p. nodes_of (steps_of p) ≡ map view nodes.now) }
{
    let mut stack = Vec::new(alloc);
    let mut i = nodes.len();
    while i > 0 {
        i -= 1;
        put_node(alloc, &mut stack, &nodes[i])?;
    }
    let Some(proof) = stack.pop() else {
        return Err(AllocError);
    };
    if !stack.is_empty() {
        return Err(AllocError);
    }
    Ok(proof)
}

/// The proof that a value is.
#[tactic(auto, using(crate::proofs::Found::is_list))]
pub fn proof_from_value(alloc: Global, value: &Value) -> Result<Proof, AllocError>
    ensures { IfOk result (λ p. proof_value (steps_of p) ≡ view value.now) }
{
    let Some(nodes) = value.as_array() else {
        return Err(AllocError);
    };
    from_nodes(alloc, nodes.as_slice())
}
