//! The threshold, by a program's nest and a schedule. Nothing here takes memory.
ghost use Rattle.std.specs.Prelude.{◌≡◌, ◌+◌, ◌*◌, ◌-ℤ◌, unsigned_abs, map, length};
ghost use Rattle.affc_leaf.specs.Points.{points};
ghost use Rattle.affc_weigh.specs.Costs.{stopped};
ghost use Rattle.affc_bounds.specs.threshold.Thresholds.{greatest, cube, turns, components_of, breadth, threshold};

use affc_nest::nest::ArrayInfo;
use affc_nest::{Entry, Nest};
use affc_trace::schedule::Schedule;

/// How many whole numbers a range has.
fn width(range: (i64, i64)) -> u128
    ensures { result ≡ unsigned_abs (range.1 -ℤ range.0) + 1 }
{
    (i128::from(range.1) - i128::from(range.0)).unsigned_abs() + 1
}

/// How many points a box has.
#[tactic(auto, using(affc_weigh::proofs::Stopped::stopped_times))]
fn points_in(ranges: &[(i64, i64)]) -> u128
    ensures { result ≡ stopped (points ranges.now) }
{
    match ranges {
        [] => 1,
        [range, rest @ ..] => width(*range).saturating_mul(points_in(rest)),
    }
}

/// The most turns of the loops round one statement.
#[tactic(auto, using(crate::proofs::threshold::Stops::stopped_max))]
fn most_turns(entries: &[Entry]) -> u128
    ensures { result ≡ stopped (greatest 1 (map (λ e. points e.ranges) entries.now)) }
{
    match entries {
        [] => 1,
        [entry, rest @ ..] => points_in(entry.ranges.ranges()).max(most_turns(rest)),
    }
}

/// The most accesses of one statement.
fn most_accesses(entries: &[Entry]) -> usize
    ensures { result ≡ greatest 0 (map (λ e. length e.accesses) entries.now) }
{
    match entries {
        [] => 0,
        [entry, rest @ ..] => entry.accesses.len().max(most_accesses(rest)),
    }
}

/// The most dimensions of one array.
fn most_dimensions(arrays: &[ArrayInfo]) -> usize
    ensures { result ≡ greatest 0 (map (λ a. length a.extents) arrays.now) }
{
    match arrays {
        [] => 0,
        [array, rest @ ..] => array.extents.len().max(most_dimensions(rest)),
    }
}

/// How many components a time has.
fn components(schedule: &Schedule) -> u32
    ensures { result ≡ components_of schedule.now }
{
    match schedule {
        Schedule::Source => 0,
        Schedule::Time { length, .. } => *length,
    }
}

/// A product that stops at the greatest `u128`.
fn cubed(n: u128) -> u128
    ensures { result ≡ stopped (cube n) }
{
    n.saturating_mul(n.saturating_mul(n))
}

/// The sizes of a program and a schedule, multiplied.
fn breadth(nest: &Nest, schedule: &Schedule) -> u128
    ensures { result ≡ stopped (breadth nest.now schedule.now) }
{
    let entries = nest.entries.as_slice();
    let statements = entries.len() as u128 + 1;
    let accesses = most_accesses(entries) as u128 + 1;
    let components = u128::from(components(schedule)) + 2;
    let dimensions = most_dimensions(nest.arrays.as_slice()) as u128 + 1;
    statements.saturating_mul(accesses.saturating_mul(components.saturating_mul(dimensions)))
}

/// How many units of work count as unlimited for a program's nest and a schedule, or the greatest `u128` where that is less.
pub fn bound(nest: &Nest, schedule: &Schedule) -> u128
    ensures { result ≡ stopped (threshold nest.now schedule.now) }
{
    let sizes = cubed(breadth(nest, schedule));
    let turns = cubed(most_turns(nest.entries.as_slice()));
    let values = points_in(nest.params.ranges());
    let work = sizes.saturating_mul(values.saturating_mul(turns));
    work.saturating_mul(16_777_216)
}
