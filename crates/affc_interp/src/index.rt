//! Whole-number expressions in 64 bits: how many nodes they have, and what they give.
ghost use Rattle.std.specs.Prelude.{◌≡◌, ◌≤ℤ◌, ◌+◌, ◌^◌, ◌<◌, ◌≤◌, ◌+ℤ◌, ◌-ℤ◌, ◌*ℤ◌, neg_ℤ, pos, get_or, sum_by, ℕ, Ok, MatchOption, suc, map};
ghost use Rattle.affc_ast.specs.Conditions.{divides, reading_step, reading_of, nodes_of_cond, nodes_of_entries, all_read, some_read, condition};
ghost use Rattle.affc_ast.specs.Index.{nodes_of_ix, index_value, in_int64, divided, floor_of, ceiling_of, remainder_of, compares, nodes_of_compare};
ghost use Rattle.affc_ast.specs.declared.tree.Cond.TheOpen as cond;
ghost use Rattle.affc_interp.specs.Seen.{as_reading};
ghost use Rattle.affc_interp.specs.Operands as row;
ghost use Rattle.affc_interp.specs.Steps as steps;
ghost use Rattle.affc_interp.specs.Steps.{right_nodes};
ghost use Rattle.affc_interp.specs.Operands.{operators};

use crate::step::{Join, Step, last_step};
use affc_ast::tree::{Compare, Cond, Ix, Rel};

/// How many nodes the expression has. The recursion is into second operands alone.
#[cycle(node_count)]
pub fn node_count(e: &Ix) -> u32
    requires { nodes_of_ix e.now < 2 ^ 32 }
    ensures { result ≡ nodes_of_ix e.now }
{
    let mut here = e;
    let mut count = 0;
    while let Some((a, step)) = last_step(here) {
        count += 1 + right_count(step);
        here = a;
    }
    count + 1
}

/// How many nodes stand on an operator's right.
#[cycle(node_count)]
fn right_count(step: Step<'_>) -> u32
    requires { right_nodes step < 2 ^ 32 }
    ensures { result ≡ right_nodes step.entry }
{
    match step {
        Step::Opposite | Step::Floor(_) | Step::Ceiling(_) => 0,
        Step::Joined(_, b) => node_count(b),
    }
}

fn sum(node: u32, x: i64, y: i64) -> Result<i64, u32>
    ensures { as_reading result ≡ in_int64 node (x +ℤ y) }
{
    x.checked_add(y).ok_or(node)
}

fn difference(node: u32, x: i64, y: i64) -> Result<i64, u32>
    ensures { as_reading result ≡ in_int64 node (x -ℤ y) }
{
    x.checked_sub(y).ok_or(node)
}

fn product(node: u32, x: i64, y: i64) -> Result<i64, u32>
    ensures { as_reading result ≡ in_int64 node (x *ℤ y) }
{
    x.checked_mul(y).ok_or(node)
}

fn opposite(node: u32, x: i64) -> Result<i64, u32>
    ensures { as_reading result ≡ in_int64 node (neg_ℤ x) }
{
    x.checked_neg().ok_or(node)
}

fn name_value(names: &[i64], x: u32) -> i64
    ensures { result ≡ get_or names.now x (pos 0) }
{
    match names.get(x as usize) {
        Some(v) => *v,
        None => 0,
    }
}

fn floor(node: u32, x: i64, n: i64) -> Result<i64, u32>
    ensures { as_reading result ≡ divided node floor_of x n }
{
    if n < 1 {
        Err(node)
    } else {
        Ok(x.div_euclid(n))
    }
}

fn remainder(node: u32, x: i64, n: i64) -> Result<i64, u32>
    ensures { as_reading result ≡ divided node remainder_of x n }
{
    if n < 1 {
        Err(node)
    } else {
        Ok(x.rem_euclid(n))
    }
}

fn rounded_up(x: i64, n: i64) -> i64
    requires { pos 1 ≤ℤ n }
    ensures { result ≡ ceiling_of x n }
{
    if x > 0 {
        (x - 1).div_euclid(n) + 1
    } else {
        x / n
    }
}

fn ceiling(node: u32, x: i64, n: i64) -> Result<i64, u32>
    ensures { as_reading result ≡ divided node ceiling_of x n }
{
    if n < 1 {
        Err(node)
    } else {
        Ok(rounded_up(x, n))
    }
}

fn joined_values(join: Join, node: u32, x: i64, y: i64) -> Result<i64, u32>
    ensures { as_reading result ≡ steps.joined join node x y }
{
    match join {
        Join::Sum => sum(node, x, y),
        Join::Difference => difference(node, x, y),
        Join::Product => product(node, x, y),
        Join::Least => Ok(x.min(y)),
        Join::Greatest => Ok(x.max(y)),
        Join::Remainder => remainder(node, x, y),
    }
}

// ---- Operators in a row: each stands in the first operand of the next. They are gone along by loops, however many there are.

/// The first operand of the outermost operator, if there is one.
pub(crate) fn first_operand(e: &Ix) -> Option<&Ix>
    ensures { MatchOption result (operators e.now ≡ 0) (λ a. (a.now ≡ row.first_operand e.now) × (operators e.now ≡ suc (operators a.now))) }
{
    match last_step(e) {
        Some((a, _)) => Some(a),
        None => None,
    }
}

/// What stands so many first operands down.
fn below(e: &Ix, count: u32) -> &Ix
    requires { count ≤ operators e.now }
    ensures { result.now ≡ row.below row.first_operand count e.now }
{
    let mut here = e;
    for _ in 0..count {
        let Some(a) = first_operand(here) else {
            unreachable!();
        };
        here = a;
    }
    here
}

/// How many operators stand in a row, and what stands below them all.
fn innermost(e: &Ix) -> (u32, &Ix)
    requires { operators e.now < 2 ^ 32 }
    ensures count { result.0 ≡ operators e.now }
    ensures atom { result.1.now ≡ row.below row.first_operand (operators e.now) e.now }
    ensures plain { operators result.1.now ≡ 0 }
{
    let mut here = e;
    let mut count = 0;
    while let Some(a) = first_operand(here) {
        here = a;
        count += 1;
    }
    (count, here)
}

/// The value of an expression without operators.
#[tactic(auto, using(affc_ast::proofs::Outs::ix_outs))]
fn atom_value(e: &Ix, names: &[i64]) -> i64
    requires { operators e.now ≡ 0 }
    ensures { (node : ℕ) → index_value e.now node names.now ≡ Ok result }
{
    match e {
        Ix::Lit(n) => *n,
        Ix::Name(x) => name_value(names, x.0),
        Ix::Neg(_)
        | Ix::Add(..)
        | Ix::Sub(..)
        | Ix::Mul(..)
        | Ix::Min(..)
        | Ix::Max(..)
        | Ix::Floord(..)
        | Ix::Ceild(..)
        | Ix::Mod(..) => unreachable!(),
    }
}

/// The value of an expression whose first node has this number, or the node that overflows. The recursion is into second
/// operands, and into halves of a row of operators.
#[cycle(eval)]
pub fn eval(e: &Ix, node: u32, names: &[i64]) -> Result<i64, u32>
    requires { node + nodes_of_ix e.now < 2 ^ 32 }
    ensures { as_reading result ≡ index_value e.now node names.now }
{
    let (count, atom) = innermost(e);
    let x = atom_value(atom, names);
    outwards(e, count, x, node, names)
}

/// The value of an expression, from that of what stands so many first operands down.
#[cycle(eval)]
fn outwards(e: &Ix, count: u32, x: i64, node: u32, names: &[i64]) -> Result<i64, u32>
    requires nodes { node + nodes_of_ix e.now < 2 ^ 32 }
    requires count { count ≤ operators e.now }
    requires inner { index_value (row.below row.first_operand count e.now) (node + count) names.now ≡ Ok x }
    ensures { as_reading result ≡ index_value e.now node names.now }
{
    if count == 0 {
        return Ok(x);
    }
    if count == 1 {
        return outermost(e, x, node, names);
    }
    let half = count / 2;
    let middle = below(e, half);
    let y = outwards(middle, count - half, x, node + half, names)?;
    outwards(e, half, y, node, names)
}

/// The value of an expression, from that of its first operand.
#[cycle(eval)]
fn outermost(e: &Ix, x: i64, node: u32, names: &[i64]) -> Result<i64, u32>
    requires nodes { node + nodes_of_ix e.now < 2 ^ 32 }
    requires operator { 1 ≤ operators e.now }
    requires inner { index_value (row.first_operand e.now) (node + 1) names.now ≡ Ok x }
    ensures { as_reading result ≡ index_value e.now node names.now }
{
    let Some((a, step)) = last_step(e) else {
        unreachable!();
    };
    match step {
        Step::Opposite => opposite(node, x),
        Step::Floor(n) => floor(node, x, n),
        Step::Ceiling(n) => ceiling(node, x, n),
        Step::Joined(join, b) => {
            let y = second(a, b, node, names)?;
            joined_values(join, node, x, y)
        }
    }
}

/// The value of an operator's second operand. Nodes are counted only where one of them overflows.
#[cycle(eval)]
fn second(a: &Ix, b: &Ix, node: u32, names: &[i64]) -> Result<i64, u32>
    requires { node + (1 + nodes_of_ix a.now + nodes_of_ix b.now) < 2 ^ 32 }
    ensures { as_reading result ≡ index_value b.now (node + 1 + nodes_of_ix a.now) names.now }
{
    match eval(b, 0, names) {
        Ok(y) => Ok(y),
        Err(fault) => Err(node + 1 + node_count(a) + fault),
    }
}

fn compare(rel: Rel, x: i64, y: i64) -> bool
    ensures { result ≡ compares rel x y }
{
    match rel {
        Rel::Less => x < y,
        Rel::LessEqual => x <= y,
        Rel::Greater => y < x,
        Rel::GreaterEqual => y <= x,
        Rel::Equal => x == y,
        Rel::NotEqual => x != y,
    }
}

/// Whether a comparison is true, whose own node has this number.
fn compared(rel: Rel, left: &Ix, right: &Ix, node: u32, names: &[i64]) -> Result<bool, u32>
    requires { node + (1 + nodes_of_ix left.now + nodes_of_ix right.now) < 2 ^ 32 }
    ensures { as_reading result ≡ (reading_step (cond.Compare rel left.now right.now)).value node names.now }
{
    let x = eval(left, node + 1, names)?;
    let y = second(left, right, node, names)?;
    Ok(compare(rel, x, y))
}

/// Whether the number divides x. By 0 and by -1, where there is no remainder in 64 bits, the definition is followed.
fn divides(by: i64, x: i64) -> bool
    ensures { result ≡ divides by x }
{
    if by == 0 {
        x <= 0
    } else if by == -1 {
        true
    } else {
        x.rem_euclid(by) == 0
    }
}

/// Whether a test of a remainder is true, whose own node has this number.
fn divided(value: &Ix, by: i64, yes: bool, node: u32, names: &[i64]) -> Result<bool, u32>
    requires { node + (1 + nodes_of_ix value.now) < 2 ^ 32 }
    ensures { as_reading result ≡ (reading_step (cond.Divides value.now by yes)).value node names.now }
{
    let x = eval(value, node + 1, names)?;
    Ok(divides(by, x) == yes)
}

/// Whether the condition is true, whose own node has this number, or the node that overflows. It is read from the left, and
/// no further than needed.
#[tactic(auto, using(affc_ast::proofs::Outs::cond_outs))]
#[cycle(is_true)]
pub fn is_true(c: &Cond, node: u32, names: &[i64]) -> Result<bool, u32>
    requires { node + nodes_of_cond c.now < 2 ^ 32 }
    ensures { as_reading result ≡ condition c.now node names.now }
{
    match c {
        Cond::Compare { rel, left, right } => compared(*rel, left, right, node, names),
        Cond::All(entries) => all_true(entries.as_slice(), node + 1, names),
        Cond::Any(entries) => some_true(entries.as_slice(), node + 1, names),
        Cond::Divides { value, by, yes } => divided(value, *by, *yes, node, names),
    }
}

/// Whether all are true, up to the first that is false.
#[cycle(is_true)]
fn all_true(entries: &[Cond], node: u32, names: &[i64]) -> Result<bool, u32>
    requires { node + nodes_of_entries (map reading_of entries.now) < 2 ^ 32 }
    ensures { as_reading result ≡ all_read (map reading_of entries.now) node names.now }
{
    let mut here = node;
    for entry in entries {
        if !is_true(entry, here, names)? {
            return Ok(false);
        }
        here += cond_nodes(entry);
    }
    Ok(true)
}

/// Whether some is true, up to the first that is.
#[cycle(is_true)]
fn some_true(entries: &[Cond], node: u32, names: &[i64]) -> Result<bool, u32>
    requires { node + nodes_of_entries (map reading_of entries.now) < 2 ^ 32 }
    ensures { as_reading result ≡ some_read (map reading_of entries.now) node names.now }
{
    let mut here = node;
    for entry in entries {
        if is_true(entry, here, names)? {
            return Ok(true);
        }
        here += cond_nodes(entry);
    }
    Ok(false)
}

/// How many nodes the condition has.
#[tactic(auto, using(affc_ast::proofs::Outs::cond_outs))]
pub fn cond_nodes(c: &Cond) -> u32
    requires { nodes_of_cond c.now < 2 ^ 32 }
    ensures { result ≡ nodes_of_cond c.now }
{
    let entries = match c {
        Cond::Compare {
            rel: _,
            left,
            right,
        } => return 1 + node_count(left) + node_count(right),
        Cond::Divides {
            value,
            by: _,
            yes: _,
        } => return 1 + node_count(value),
        Cond::All(entries) => entries,
        Cond::Any(entries) => entries,
    };
    let mut count = 1;
    for entry in entries.as_slice() {
        count += cond_nodes(entry);
    }
    count
}

/// How many nodes the comparison has.
fn compare_nodes(c: &Compare) -> u32
    requires { nodes_of_compare c.now < 2 ^ 32 }
    ensures { result ≡ nodes_of_compare c.now }
{
    1 + node_count(&c.left) + node_count(&c.right)
}

/// How many nodes the comparisons have.
pub fn compare_sum(conds: &[Compare]) -> u32
    requires { sum_by nodes_of_compare conds.now < 2 ^ 32 }
    ensures { result ≡ sum_by nodes_of_compare conds.now }
{
    match conds {
        [] => 0,
        [c, rest @ ..] => compare_nodes(c) + compare_sum(rest),
    }
}

/// How many nodes the expressions have.
pub fn node_sum(es: &[Ix]) -> u32
    requires { sum_by nodes_of_ix es.now < 2 ^ 32 }
    ensures { result ≡ sum_by nodes_of_ix es.now }
{
    match es {
        [] => 0,
        [e, rest @ ..] => node_count(e) + node_sum(rest),
    }
}
