//! Questions in groups, put behind others.
ghost use Rattle.std.specs.Prelude.{flat_map, ◌≡◌, ℕ, ◌++◌, map, OnOk, IfErr};
ghost use Rattle.std.specs.List.{All};
ghost use Rattle.affc_products.specs.Parts.{IsWithin};
ghost use Rattle.affc_products.specs.Groups.{group_systems};
ghost use Rattle.affc_check.specs.list.Groups.{part_items};
ghost use Rattle.affc_check.specs.list.Held.{listed_said};
ghost use Rattle.affc_check.specs.list.Items.{Question};
ghost use Rattle.affc_check.specs.list.Limits.{AnyPasses};
ghost use Rattle.affc_check.specs.list.Listed.{AreListed, PartsListed, IsFirstPart};

use crate::list::item::Listed;
use crate::list::listing::add_product;
use crate::list::stop::{PartStop, Stop, at_part};
use affc_products::{Group, no_tail};
use sqlite_items::Items;
use std::alloc::{AllocError, Global};

/// Adds the questions of a group, if all keep the limits.
fn add_group<'a>(alloc: Global, group: &'a Group, out: &mut Vec<Listed<'a>>) -> Result<(), Stop>
    ensures ok { OnOk result (AreListed (flat_map listed_said out.old.items) (flat_map listed_said out.new.items) (map Question (group_systems group.now))) }
    ensures past { IfErr result (λ e. e ≡ Stop.Past → AnyPasses (map Question (group_systems group.now))) }
{
    let tails = no_tail(alloc)?;
    let (front, factors) = (group.front.as_slice(), group.factors.as_slice());
    add_product(alloc, group.columns, front, factors, tails, out)
}

/// Adds the questions of these groups, if all keep the limits. The recursion is into halves, since there may be many.
pub(crate) fn add_groups<'a>(
    alloc: Global,
    groups: &'a [Group],
    out: &mut Vec<Listed<'a>>,
) -> Result<(), Stop>
    ensures ok { OnOk result (AreListed (flat_map listed_said out.old.items) (flat_map listed_said out.new.items) (part_items groups.now)) }
    ensures past { IfErr result (λ e. e ≡ Stop.Past → AnyPasses (part_items groups.now)) }
{
    match groups {
        [] => Ok(()),
        [group] => add_group(alloc, group, out),
        _ => {
            let (first, others) = groups.split_at(groups.len() / 2);
            add_groups(alloc, first, out)?;
            add_groups(alloc, others, out)
        }
    }
}

/// Adds the questions of a part, which has this number.
fn add_part<'a>(
    alloc: Global,
    groups: &'a [Group],
    part: usize,
    out: &mut Vec<Listed<'a>>,
) -> Result<(), PartStop>
    ensures ok { OnOk result (AreListed (flat_map listed_said out.old.items) (flat_map listed_said out.new.items) (part_items groups.now)) }
    ensures past { IfErr result (λ e. (n : ℕ) → e ≡ PartStop.Part n → (n ≡ part) × AnyPasses (part_items groups.now)) }
{
    match add_groups(alloc, groups, out) {
        Ok(()) => Ok(()),
        Err(stop) => Err(at_part(stop, part)),
    }
}

/// Adds the questions of these parts, which are numbered from `first` on. Past 2^64 parts there is no memory for them.
pub(crate) fn add_parts<'a>(
    alloc: Global,
    parts: &'a [Items<Group>],
    first: usize,
    out: &mut Vec<Listed<'a>>,
) -> Result<(), PartStop>
    ensures ok { OnOk result (PartsListed (flat_map listed_said out.old.items) (flat_map listed_said out.new.items) (map part_items parts.now)) }
    ensures past { IfErr result (λ e. (n : ℕ) → e ≡ PartStop.Part n → IsFirstPart AnyPasses first (map part_items parts.now) n) }
{
    match parts {
        [] => Ok(()),
        [part, rest @ ..] => {
            add_part(alloc, part.as_slice(), first, out)?;
            let Some(next) = first.checked_add(1) else {
                return Err(PartStop::Memory);
            };
            add_parts(alloc, rest, next, out)
        }
    }
}

/// Adds the questions of these groups, each of which keeps the limits.
pub(crate) fn add_kept<'a>(
    alloc: Global,
    groups: &'a [Group],
    out: &mut Vec<Listed<'a>>,
) -> Result<(), AllocError>
    requires { All IsWithin (flat_map group_systems groups.now) }
    ensures { OnOk result (flat_map listed_said out.new.items ≡ flat_map listed_said out.old.items ++ part_items groups.now) }
{
    match add_groups(alloc, groups, out) {
        Ok(()) => Ok(()),
        Err(Stop::Past) => unreachable!(),
        Err(Stop::Memory) => Err(AllocError),
    }
}
