//! Questions in groups, and the ranges of their columns.
ghost use Rattle.std.specs.Prelude.{◌≡◌, IfOk, IfSome};
ghost use Rattle.affc_products.specs.Groups.{group_systems};

use affc_products::{Block, Group, no_tail};
use affc_system::{BoxOf, System};
use std::alloc::{AllocError, Global};

/// Questions in product form, and the ranges of their columns behind those of a leaf.
#[derive(Drop)]
pub struct Ranged {
    pub group: Group,
    pub behind: BoxOf,
}

/// The systems of a group, each with all its rows, if all keep the limits.
pub fn systems(alloc: Global, group: &Group) -> Result<Option<Vec<System>>, AllocError>
    ensures { IfOk result (λ o. IfSome o (λ v. v.items ≡ group_systems group.now)) }
{
    let tails = no_tail(alloc)?;
    let (front, factors) = (group.front.as_slice(), group.factors.as_slice());
    let Some(block) = Block::of(alloc, group.columns, front, factors, tails) else {
        return Ok(None);
    };
    let made = block.systems(alloc)?;
    Ok(Some(made))
}
