//! The parts that can have instances, with their times.
ghost use Rattle.std.specs.Prelude.{◌≡◌, ◌++◌, map, slice_get, OnOk, IfOk};
ghost use Rattle.affc_nest.specs.Sites.{places};
ghost use Rattle.affc_scan.specs.Numbered.{if_alive, numbered_in};
ghost use Rattle.affc_scan.specs.Alive.{numbered};

use affc_nest::{Entry, Site};
use affc_trace::TimeMap;
use std::alloc::{AllocError, Global};

/// A part that can have instances, with the site and the times of its statement.
#[derive(Clone, Copy, Drop)]
pub(crate) struct Alive<'a, 's> {
    pub site: &'a Site<'s>,
    pub entry: &'a Entry,
    pub times: &'a TimeMap,
}

/// Adds an entry if it can have instances.
#[tactic(auto, using(crate::proofs::AliveSteps::dead_left, crate::proofs::AliveSteps::site_missing, crate::proofs::AliveSteps::times_missing, crate::proofs::AliveSteps::part_added))]
fn add_if_alive<'a, 's>(
    sites: &'a [Site<'s>],
    entry: &'a Entry,
    maps: &'a [TimeMap],
    out: &mut Vec<Alive<'a, 's>>,
) -> Result<(), AllocError>
    ensures { OnOk result (map numbered out.new.items ≡ map numbered out.old.items ++ if_alive (slice_get (places sites.now) entry.now.statement) entry.now (slice_get maps.now entry.now.statement)) }
{
    if !entry.alive {
        return Ok(());
    }
    let Some(site) = sites.get(entry.statement as usize) else {
        return Ok(());
    };
    let Some(times) = maps.get(entry.statement as usize) else {
        return Ok(());
    };
    out.push(Alive { site, entry, times })?;
    Ok(())
}

/// Adds those of these entries that can have instances.
fn add_alive<'a, 's>(
    sites: &'a [Site<'s>],
    entries: &'a [Entry],
    maps: &'a [TimeMap],
    out: &mut Vec<Alive<'a, 's>>,
) -> Result<(), AllocError>
    ensures { OnOk result (map numbered out.new.items ≡ map numbered out.old.items ++ numbered_in (places sites.now) maps.now entries.now) }
{
    match entries {
        [] => Ok(()),
        [entry, rest @ ..] => {
            add_if_alive(sites, entry, maps, out)?;
            add_alive(sites, rest, maps, out)
        }
    }
}

/// Those of these entries that can have instances.
pub(crate) fn all_alive<'a, 's>(
    alloc: Global,
    sites: &'a [Site<'s>],
    entries: &'a [Entry],
    maps: &'a [TimeMap],
) -> Result<Vec<Alive<'a, 's>>, AllocError>
    ensures { IfOk result (λ v. map numbered v.items ≡ numbered_in (places sites.now) maps.now entries.now) }
{
    let mut out = Vec::new(alloc);
    add_alive(sites, entries, maps, &mut out)?;
    Ok(out)
}
