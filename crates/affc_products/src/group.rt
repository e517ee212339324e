//! Questions in groups.
ghost use Rattle.std.specs.Prelude.{◌≡◌, ◌∷◌, [], IfOk};
ghost use Rattle.std.specs.List.{All};
ghost use Rattle.affc_products.specs.Groups.{group_systems};
ghost use Rattle.affc_products.specs.Parts.{IsWithin};

use crate::block::Block;
use affc_rows::Form;
use affc_system::System;
use sqlite_items::Items;
use std::alloc::{AllocError, Global};

/// Questions in product form: each is the rows of the front, which are over so many columns, and behind them one alternative of
/// each factor.
#[derive(Drop)]
pub struct Group {
    pub columns: u32,
    pub front: Items<Form>,
    pub factors: Items<Items<Items<Form>>>,
}

/// The last factor of a product that has no rows there.
pub fn no_tail(alloc: Global) -> Result<Items<Items<Form>>, AllocError>
    ensures { IfOk result (λ t. t ≡ [] ∷ []) }
{
    let mut tails = Items::new(alloc);
    tails.push(Items::new(alloc))?;
    Ok(tails)
}

impl Group {
    /// The questions, which keep the limits of a system, each with all its rows, which are copies.
    pub fn systems(&self, alloc: Global) -> Result<Vec<System>, AllocError>
        requires { All IsWithin (group_systems self.now) }
        ensures { IfOk result (λ v. v.items ≡ group_systems self.now) }
    {
        let tails = no_tail(alloc)?;
        let (front, factors) = (self.front.as_slice(), self.factors.as_slice());
        let Some(block) = Block::of(alloc, self.columns, front, factors, tails) else {
            unreachable!();
        };
        block.systems(alloc)
    }
}
