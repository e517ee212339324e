//! Values modulo 2^64: how many nodes and loads they have, and what they give.
ghost use Rattle.std.specs.Prelude.{◌≡◌, ◌+◌, ◌^◌, ◌<◌, ◌≤◌, Ok, MatchOption, suc};
ghost use Rattle.affc_ast.specs.Values.{value_of, operate, complement, shifted, converted};
ghost use Rattle.affc_interp.specs.Seen.{as_value, sight_at};
ghost use Rattle.affc_interp.specs.Operands as row;
ghost use Rattle.affc_interp.specs.Operands.{value_operators, IsBelow};

use crate::fault::Fault;
use crate::index::{eval, node_count, node_sum};
use crate::memory::Memory;
use affc_ast::tree::{Instance, Op, Val};

/// How many nodes the value has. The recursion is into second operands alone.
#[tactic(auto, using(affc_ast::proofs::Outs::val_outs))]
pub fn value_nodes(v: &Val) -> u32
    requires { (value_of v.now).nodes < 2 ^ 32 }
    ensures { result ≡ (value_of v.now).nodes }
{
    let mut here = v;
    let mut count = 0;
    loop {
        match here {
            Val::Load { array: _, subs } => return count + (1 + node_sum(subs.as_slice())),
            Val::Const(_) => return count + 1,
            Val::Cast(e) => return count + (1 + node_count(e)),
            Val::Not(a) | Val::Shift { value: a, .. } => {
                count += 1;
                here = a.get();
            }
            Val::Bin { op: _, left, right } => {
                count += 1 + value_nodes(right.get());
                here = left.get();
            }
        }
    }
}

/// How many loads the value has. The recursion is into second operands alone.
#[tactic(auto, using(affc_ast::proofs::Outs::val_outs))]
pub fn load_count(v: &Val) -> u32
    requires { (value_of v.now).loads < 2 ^ 32 }
    ensures { result ≡ (value_of v.now).loads }
{
    let mut here = v;
    let mut count = 0;
    loop {
        match here {
            Val::Load { array: _, subs: _ } => return count + 1,
            Val::Const(_) | Val::Cast(_) => return count,
            Val::Not(a) | Val::Shift { value: a, .. } => here = a.get(),
            Val::Bin { op: _, left, right } => {
                count += load_count(right.get());
                here = left.get();
            }
        }
    }
}

/// The result of an operation, modulo 2^64.
pub fn operated(op: Op, x: u64, y: u64) -> u64
    ensures { result ≡ operate op x y }
{
    match op {
        Op::Add => x.wrapping_add(y),
        Op::Sub => x.wrapping_sub(y),
        Op::Mul => x.wrapping_mul(y),
        Op::And => x & y,
        Op::Or => x | y,
        Op::Xor => x ^ y,
    }
}

fn turned(x: u64) -> u64
    ensures { result ≡ complement x }
{
    u64::MAX - x
}

fn moved(left: bool, x: u64, by: u8) -> u64
    ensures { result ≡ shifted left x by }
{
    if by >= 64 {
        0
    } else if left {
        x << by
    } else {
        x >> by
    }
}

fn cast(x: i64) -> u64
    ensures { result ≡ converted x }
{
    x.cast_unsigned()
}

// ---- Operators in a row, as in expressions.

/// The first operand of the outermost operator, if there is one.
#[tactic(auto, using(affc_ast::proofs::Outs::val_outs))]
fn first_operand(v: &Val) -> Option<&Val>
    ensures { MatchOption result (value_operators v.now ≡ 0) (λ a. (a.now ≡ row.first_value v.now) × (value_operators v.now ≡ suc (value_operators a.now))) }
{
    match v {
        Val::Load { .. } | Val::Const(_) | Val::Cast(_) => None,
        Val::Not(a) | Val::Bin { left: a, .. } | Val::Shift { value: a, .. } => Some(a.get()),
    }
}

/// What stands so many first operands down.
fn below(v: &Val, count: u32) -> &Val
    requires { count ≤ value_operators v.now }
    ensures { result.now ≡ row.below row.first_value count v.now }
{
    let mut here = v;
    for _ in 0..count {
        let Some(a) = first_operand(here) else {
            unreachable!();
        };
        here = a;
    }
    here
}

/// How many operators stand in a row, and what stands below them all.
fn innermost(v: &Val) -> (u32, &Val)
    requires { value_operators v.now < 2 ^ 32 }
    ensures count { result.0 ≡ value_operators v.now }
    ensures operand { result.1.now ≡ row.below row.first_value (value_operators v.now) v.now }
    ensures plain { value_operators result.1.now ≡ 0 }
{
    let mut here = v;
    let mut count = 0;
    while let Some(a) = first_operand(here) {
        here = a;
        count += 1;
    }
    (count, here)
}

/// The value of an operand without operators.
#[tactic(auto, using(affc_ast::proofs::Outs::val_outs))]
fn operand(
    v: &Val,
    node: u32,
    access: u32,
    names: &[i64],
    memory: &Memory,
    here: &Instance,
) -> Result<u64, Fault>
    requires plain { value_operators v.now ≡ 0 }
    requires nodes { node + (value_of v.now).nodes < 2 ^ 32 }
    ensures { as_value here.now result ≡ (value_of v.now).value (sight_at node access names.now memory.now here.now) }
{
    match v {
        Val::Load { array, subs } => memory.load(
            *array,
            subs.as_slice(),
            node + 1,
            access,
            names,
            here,
        ),
        Val::Const(n) => Ok(*n),
        Val::Cast(e) => {
            let x = eval(e, node + 1, names)?;
            Ok(cast(x))
        }
        Val::Not(_) | Val::Bin { .. } | Val::Shift { .. } => unreachable!(),
    }
}

/// The value whose first node and first load have these numbers, read at an instance. The first cause in
/// the order of reading stands where there is none. The recursion is into second operands, and into halves of a row of
/// operators.
#[cycle(value)]
pub fn value(
    v: &Val,
    node: u32,
    access: u32,
    names: &[i64],
    memory: &Memory,
    here: &Instance,
) -> Result<u64, Fault>
    requires nodes { node + (value_of v.now).nodes < 2 ^ 32 }
    requires loads { access + (value_of v.now).loads < 2 ^ 32 }
    ensures { as_value here.now result ≡ (value_of v.now).value (sight_at node access names.now memory.now here.now) }
{
    let (count, first) = innermost(v);
    let x = operand(first, node + count, access, names, memory, here)?;
    outwards(v, count, x, node, access, names, memory, here)
}

/// The value, from that of what stands so many first operands down.
#[cycle(value)]
fn outwards(
    v: &Val,
    count: u32,
    x: u64,
    node: u32,
    access: u32,
    names: &[i64],
    memory: &Memory,
    here: &Instance,
) -> Result<u64, Fault>
    requires nodes { node + (value_of v.now).nodes < 2 ^ 32 }
    requires loads { access + (value_of v.now).loads < 2 ^ 32 }
    requires count { count ≤ value_operators v.now }
    requires inner { (value_of (row.below row.first_value count v.now)).value (sight_at (node + count) access names.now memory.now here.now) ≡ Ok x }
    ensures { as_value here.now result ≡ (value_of v.now).value (sight_at node access names.now memory.now here.now) }
{
    if count == 0 {
        return Ok(x);
    }
    if count == 1 {
        return outermost(v, x, node, access, names, memory, here);
    }
    let half = count / 2;
    let middle = below(v, half);
    let y = outwards(
        middle,
        count - half,
        x,
        node + half,
        access,
        names,
        memory,
        here,
    )?;
    outwards(v, half, y, node, access, names, memory, here)
}

/// The value, from that of the outermost operator's first operand.
#[tactic(auto, using(affc_ast::proofs::Outs::val_outs))]
#[cycle(value)]
fn outermost(
    v: &Val,
    x: u64,
    node: u32,
    access: u32,
    names: &[i64],
    memory: &Memory,
    here: &Instance,
) -> Result<u64, Fault>
    requires nodes { node + (value_of v.now).nodes < 2 ^ 32 }
    requires loads { access + (value_of v.now).loads < 2 ^ 32 }
    requires operator { 1 ≤ value_operators v.now }
    requires inner { (value_of (row.first_value v.now)).value (sight_at (node + 1) access names.now memory.now here.now) ≡ Ok x }
    ensures { as_value here.now result ≡ (value_of v.now).value (sight_at node access names.now memory.now here.now) }
{
    match v {
        Val::Load { .. } | Val::Const(_) | Val::Cast(_) => unreachable!(),
        Val::Not(_) => Ok(turned(x)),
        Val::Bin { op, left, right } => {
            let y = second(left.get(), right.get(), node, access, names, memory, here)?;
            Ok(operated(*op, x, y))
        }
        Val::Shift { left, by, .. } => Ok(moved(*left, x, *by)),
    }
}

/// The value of an operator's second operand. Nodes and loads are counted only where there is none.
#[cycle(value)]
fn second(
    left: &Val,
    right: &Val,
    node: u32,
    access: u32,
    names: &[i64],
    memory: &Memory,
    here: &Instance,
) -> Result<u64, Fault>
    requires nodes { node + (1 + (value_of left.now).nodes + (value_of right.now).nodes) < 2 ^ 32 }
    requires loads { access + ((value_of left.now).loads + (value_of right.now).loads) < 2 ^ 32 }
    ensures { as_value here.now result ≡ (value_of right.now).value (sight_at (node + 1 + (value_of left.now).nodes) (access + (value_of left.now).loads) names.now memory.now here.now) }
{
    match value(right, 0, 0, names, memory, here) {
        Ok(y) => Ok(y),
        Err(fault) => {
            let nodes = node + 1 + value_nodes(left);
            let loads = access + load_count(left);
            Err(later(fault, nodes, loads))
        }
    }
}

/// The fault, behind so many nodes and loads.
fn later(fault: Fault, nodes: u32, loads: u32) -> Fault
    requires { IsBelow (2 ^ 32) (2 ^ 32) (row.later nodes loads fault) }
    ensures { result ≡ row.later nodes loads fault }
{
    match fault {
        Fault::Extent(array) => Fault::Extent(array),
        Fault::OutOfBounds(access) => Fault::OutOfBounds(loads + access),
        Fault::Unwritten(access) => Fault::Unwritten(loads + access),
        Fault::Overflow(node) => Fault::Overflow(nodes + node),
    }
}
