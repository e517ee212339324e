//! Accesses in pairs, of which the second may depend on the first.
ghost use Rattle.std.specs.Prelude.{◌≡◌, ◌++◌, map, flat_map, IfOk, OnOk};
ghost use Rattle.std.specs.List.{All};
ghost use Rattle.affc_sched.specs.Pairs.{IsPair, asked_of, use_at, uses_at};
ghost use Rattle.affc_sched.specs.Questions.{touches, may_depend, uses_of, pair_of, pairs, legality_questions};

use affc_nest::{Access, Entry, Nest};
use affc_trace::schedule::Schedule;
use std::alloc::{AllocError, Global};

/// An access of a part, and whether it is the part's store.
#[derive(Clone, Copy, Drop)]
pub struct Place<'a> {
    pub entry: &'a Entry,
    pub access: &'a Access,
    pub stores: bool,
}

/// Two accesses of one array, of which one stores: an instance with the second may depend on one with the first.
#[derive(Drop)]
pub struct Pair<'a> {
    pub from: Place<'a>,
    pub to: Place<'a>,
}

/// Adds these last accesses of a part.
fn add_accesses<'a>(
    entry: &'a Entry,
    accesses: &'a [Access],
    out: &mut Vec<Place<'a>>,
) -> Result<(), AllocError>
    ensures { OnOk result (map use_at out.new.items ≡ map use_at out.old.items ++ map (λ x. (entry.now, x)) (touches accesses.now)) }
{
    match accesses {
        [] => Ok(()),
        [access, rest @ ..] => {
            let stores = rest.is_empty();
            out.push(Place {
                entry,
                access,
                stores,
            })?;
            add_accesses(entry, rest, out)
        }
    }
}

/// Adds the accesses of a part, if it can have instances.
fn add_part<'a>(entry: &'a Entry, out: &mut Vec<Place<'a>>) -> Result<(), AllocError>
    ensures { OnOk result (map use_at out.new.items ≡ map use_at out.old.items ++ uses_of entry.now) }
{
    if !entry.alive {
        return Ok(());
    }
    add_accesses(entry, entry.accesses.as_slice(), out)
}

/// The accesses of these parts.
fn places<'a>(alloc: Global, entries: &'a [Entry]) -> Result<Vec<Place<'a>>, AllocError>
    ensures { IfOk result (λ v. map use_at v.items ≡ flat_map uses_of entries.now) }
{
    let mut out = Vec::new(alloc);
    for entry in entries {
        add_part(entry, &mut out)?;
    }
    Ok(out)
}

/// Whether an instance with the second access can depend on one with the first.
fn may_depend(from: Place<'_>, to: Place<'_>) -> bool
    ensures { result ≡ may_depend (use_at from.entry).1 (use_at to.entry).1 }
{
    from.access.array.0 == to.access.array.0 && (from.stores || to.stores)
}

/// Adds both, if the second may depend on the first.
fn add_pair<'a>(from: Place<'a>, to: Place<'a>, out: &mut Vec<Pair<'a>>) -> Result<(), AllocError>
    ensures { OnOk result (map uses_at out.new.items ≡ map uses_at out.old.items ++ pair_of (use_at from.entry) (use_at to.entry)) }
{
    if !may_depend(from, to) {
        return Ok(());
    }
    out.push(Pair { from, to })?;
    Ok(())
}

/// Adds an access with each of these that may depend on it.
fn add_with<'a>(
    from: Place<'a>,
    places: &[Place<'a>],
    out: &mut Vec<Pair<'a>>,
) -> Result<(), AllocError>
    ensures { OnOk result (map uses_at out.new.items ≡ map uses_at out.old.items ++ flat_map (pair_of (use_at from.entry)) (map use_at places.now)) }
{
    for to in places {
        add_pair(from, *to, out)?;
    }
    Ok(())
}

/// All pairs.
fn all_pairs<'a>(alloc: Global, nest: &'a Nest) -> Result<Vec<Pair<'a>>, AllocError>
    ensures { IfOk result (λ v. map uses_at v.items ≡ pairs nest.now) }
{
    let places = places(alloc, nest.entries.as_slice())?;
    let mut out = Vec::new(alloc);
    for from in places.as_slice() {
        add_with(*from, places.as_slice(), &mut out)?;
    }
    Ok(out)
}

/// The pairs of accesses that are asked of under a schedule, in order: none for the order of the source.
pub fn asked_pairs<'a>(
    alloc: Global,
    nest: &'a Nest,
    schedule: &Schedule,
) -> Result<Vec<Pair<'a>>, AllocError>
    ensures questions { IfOk result (λ v. flat_map (asked_of nest.now schedule.now) v.items ≡ legality_questions nest.now schedule.now) }
    ensures pairs { IfOk result (λ v. All (IsPair nest.now) v.items) }
{
    match schedule {
        Schedule::Source => Ok(Vec::new(alloc)),
        Schedule::Time { .. } => all_pairs(alloc, nest),
    }
}
