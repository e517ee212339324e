//! How far apart elements can lie along a row, as boxes and parallel rows show without a question.
ghost use Rattle.std.specs.Prelude.{◌≡◌, ◌+◌, ◌<◌, ◌≤◌, ◌≤ℤ◌, ◌⊎◌, length};
ghost use Rattle.affc_moduli.specs.Asked.{IsAsked};
ghost use Rattle.affc_moduli.specs.Ended.{IsCeiling};

use crate::asked::AskedRow;
use crate::bounds::{Bound, ceiling_of};

/// The greater of two bounds.
fn greater(a: Bound, b: Bound) -> Bound
    ensures first { a.most ≤ℤ result.most }
    ensures second { b.most ≤ℤ result.most }
    ensures either { (result.most ≡ a.most) ⊎ (result.most ≡ b.most) }
{
    if a.most < b.most { b } else { a }
}

/// A bound of one region more, both ways.
fn with_region(asked: &AskedRow<'_>, i: usize, bound: Bound) -> Bound
    requires asked { IsAsked asked.now }
    requires within { i < length asked.now.regions.now }
    requires ceiling { IsCeiling i asked.now.regions.now asked.now.line.fs.now asked.now.line.gs.now bound.most }
    ensures { IsCeiling (i + 1) asked.now.regions.now asked.now.line.fs.now asked.now.line.gs.now result.most }
{
    let region = &asked.regions[i];
    let f = &asked.line.fs[i];
    let g = &asked.line.gs[i];
    let once = greater(bound, ceiling_of(region, f));
    greater(once, ceiling_of(region, g))
}

/// A bound of all regions, of which the first ones have this one.
pub fn bound_of(asked: &AskedRow<'_>, first: usize, known: Bound) -> Bound
    requires asked { IsAsked asked.now }
    requires within { first ≤ length asked.now.regions.now }
    requires ceiling { IsCeiling first asked.now.regions.now asked.now.line.fs.now asked.now.line.gs.now known.most }
    ensures { IsCeiling (length asked.now.regions.now) asked.now.regions.now asked.now.line.fs.now asked.now.line.gs.now result.most }
{
    let mut bound = known;
    for i in first..asked.regions.len() {
        bound = with_region(asked, i, bound);
    }
    bound
}
