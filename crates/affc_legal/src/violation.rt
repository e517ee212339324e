//! Dependences that are turned round, as they are found, in the order of their keys.
ghost use Rattle.std.specs.Prelude.{◌≡◌, ◌+◌, length, take, drop, IfOk};
ghost use Rattle.affc_nest.specs.Parts.{coordinates};
ghost use Rattle.affc_legal.specs.Answered.{IsNearer};
ghost use Rattle.affc_legal.specs.Violations.{spot_of};

use affc_ast::tree::Instance;
use affc_nest::{Entry, Nest};
use affc_system::is_at_most;
use sqlite_items::Items;
use std::alloc::{AllocError, Global};

/// At `p`, `b` depends on `a`, and is run before it; and the numbers that order this among others.
#[derive(Drop)]
pub(crate) struct Violation {
    pub(crate) key: Items<i64>,
    pub(crate) p: Items<i64>,
    pub(crate) a: Instance,
    pub(crate) b: Instance,
}

/// The first of what two looks have found.
pub(crate) fn nearer(a: Option<Violation>, b: Option<Violation>) -> Option<Violation>
    ensures first { IsNearer a b result }
{
    match a {
        None => b,
        Some(x) => match b {
            None => Some(x),
            Some(y) => {
                if is_at_most(x.key.as_slice(), y.key.as_slice()) {
                    Some(x)
                } else {
                    Some(y)
                }
            }
        },
    }
}

/// An instance of a statement.
fn instance_at(alloc: Global, statement: u32, iterators: &[i64]) -> Result<Instance, AllocError>
    ensures { IfOk result (λ i. i ≡ record { statement = statement; iterators = iterators.now }) }
{
    let iterators = Items::from_slice(alloc, iterators)?;
    Ok(Instance {
        statement,
        iterators,
    })
}

/// The numbers by which a pair is ordered.
fn key_of(alloc: Global, p: &[i64], a: &Instance, b: &Instance) -> Result<Items<i64>, AllocError>
    ensures { IfOk result (λ k. k ≡ spot_of p.now a.now b.now) }
{
    let mut key = Items::from_slice(alloc, p)?;
    key.push(i64::from(a.statement))?;
    let first = Items::from_slice(alloc, a.iterators.as_slice())?;
    key.append(first)?;
    key.push(i64::from(b.statement))?;
    let second = Items::from_slice(alloc, b.iterators.as_slice())?;
    key.append(second)?;
    Ok(key)
}

/// The instances of two parts at a point over the parameters, the first's coordinates and the second's.
pub(crate) fn violation_at(
    alloc: Global,
    nest: &Nest,
    first: &Entry,
    second: &Entry,
    point: &[i64],
) -> Result<Violation, AllocError>
    requires { length point.now ≡ (length nest.now.params + coordinates first.now) + coordinates second.now }
    ensures key { IfOk result (λ v. v.key ≡ spot_of v.p v.a v.b) }
    ensures p { IfOk result (λ v. v.p ≡ take (length nest.now.params) point.now) }
    ensures a { IfOk result (λ v. v.a ≡ record { statement = first.now.statement; iterators = take (length first.now.loops) (drop (length nest.now.params) point.now) }) }
    ensures b { IfOk result (λ v. v.b ≡ record { statement = second.now.statement; iterators = take (length second.now.loops) (drop (coordinates first.now) (drop (length nest.now.params) point.now)) }) }
{
    let params = nest.params.ranges().len();
    let (numbers, coordinates) = point.split_at(params);
    let (_, others) = coordinates.split_at(first.coordinates());
    let p = Items::from_slice(alloc, numbers)?;
    let a = instance_at(alloc, first.statement, &coordinates[..first.loops.len()])?;
    let b = instance_at(alloc, second.statement, &others[..second.loops.len()])?;
    let key = key_of(alloc, p.as_slice(), &a, &b)?;
    Ok(Violation { key, p, a, b })
}
