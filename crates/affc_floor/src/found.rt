//! The spans in which slots are live.
ghost use Rattle.std.specs.Prelude.{◌<◌, IfOk, IfSome, OnOk, length};
ghost use Rattle.std.specs.List.{All};
ghost use Rattle.affc_floor.specs.Lives.{IsPlaced, AreLives};

use crate::life::{Life, Stored};
use crate::span::Span;
use std::alloc::{AllocError, Global};

/// Adds the span of a store at an instant, as far as it isn't covered by spans of its slot before.
fn add_life(
    at: usize,
    store: Stored,
    covered: &mut Vec<usize>,
    found: &mut Vec<Life>,
) -> Result<(), AllocError>
    requires { store.slot < length covered.old.items }
    ensures { OnOk result (IsPlaced at store covered.old.items found.old.items covered.new.items found.new.items) }
{
    let before = covered[store.slot];
    let from = if before < at { at } else { before };
    if from < store.until {
        found.push(Life {
            slot: store.slot,
            span: Span {
                from,
                until: store.until,
            },
        })?;
        covered[store.slot] = store.until;
    }
    Ok(())
}

/// Spans of these slots, where these stores come one at an instant, or none: at each instant one span is open of each slot
/// that is live there.
pub fn lives(
    alloc: Global,
    stores: &[Option<Stored>],
    slots: usize,
) -> Result<Vec<Life>, AllocError>
    requires { All (λ o. IfSome o (λ s. s.slot < slots)) stores.now }
    ensures { IfOk result (λ found. AreLives stores.now found.items) }
{
    let mut covered = vec![in alloc; 0; slots]?;
    let mut found = Vec::new(alloc);
    for at in 0..stores.len() {
        if let Some(store) = stores[at] {
            add_life(at, store, &mut covered, &mut found)?;
        }
    }
    Ok(found)
}
