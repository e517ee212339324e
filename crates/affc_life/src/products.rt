//! Drafts as products.
ghost use Rattle.std.specs.Prelude.{◌≡◌, ◌≢◌, ◌↔◌, ◌++◌, ◌∷◌, [], map, flat_map, IsTrue, IfOk, IfErr, OnOk};
ghost use Rattle.std.specs.List.{All};
ghost use Rattle.affc_products.specs.Blocks.{choices, product};
ghost use Rattle.affc_products.specs.Parts.{IsWithin};
ghost use Rattle.affc_life.specs.Clashes.{clash_of};
ghost use Rattle.affc_life.specs.Drafts.{drafted, IsPaired};
ghost use Rattle.affc_life.specs.Products.{systems_in};
ghost use Rattle.affc_life.specs.Sizes.{AnyLarge};

use crate::clash::ClashProduct;
use crate::draft::Draft;
use crate::fault::ClashFault;
use crate::systems::system_of;
use affc_products::product_fits;
use affc_rows::Form;
use affc_system::PairSystem;
use sqlite_items::Items;
use std::alloc::{AllocError, Global};

/// Whether there is a choice of one alternative of each factor.
fn has_choice(factors: &[Items<Items<Form>>]) -> bool
    ensures { IsTrue result ↔ (choices factors.now ≢ []) }
{
    match factors {
        [] => true,
        [alternatives, rest @ ..] => !alternatives.is_empty() && has_choice(rest),
    }
}

/// Whether all systems of a draft keep the limits.
fn keeps_limits(alloc: Global, draft: &Draft) -> Result<bool, AllocError>
    requires { All IsPaired (drafted draft.now) }
    ensures fits { IfOk result (λ t. IsTrue t → ¬ (AnyLarge (drafted draft.now))) }
    ensures within { IfOk result (λ t. IsTrue t → All IsWithin (product draft.now.columns draft.now.front.items draft.now.factors)) }
    ensures past { IfOk result (λ t. ¬ (IsTrue t) → AnyLarge (drafted draft.now)) }
{
    let mut tails = Vec::new(alloc);
    tails.push(Items::new(alloc))?;
    let (front, factors) = (draft.front.as_slice(), draft.factors.as_slice());
    Ok(product_fits(draft.columns, front, factors, tails.as_slice()))
}

/// The product of a draft that has a choice, if all its systems keep the limits.
fn product_of(alloc: Global, draft: Draft) -> Result<ClashProduct, ClashFault>
    requires paired { All IsPaired (drafted draft) }
    requires some { choices draft.factors ≢ [] }
    ensures ok { IfOk result (λ p. map clash_of (systems_in p) ≡ drafted draft) }
    ensures fits { IfOk result (λ p. ¬ (AnyLarge (drafted draft))) }
    ensures large { IfErr result (λ e. e ≡ ClashFault.Large → AnyLarge (drafted draft)) }
{
    if !keeps_limits(alloc, &draft)? {
        return Err(ClashFault::Large);
    }
    let Draft {
        columns,
        front,
        factors,
        ranges,
        x,
        y,
    } = draft;
    let system = system_of(alloc, columns, front.as_slice())?;
    let base = PairSystem {
        system,
        ranges,
        x,
        y,
    };
    Ok(ClashProduct { base, factors })
}

/// Adds the product of a draft, unless it has no choice, if all its systems keep the limits.
fn add_product(alloc: Global, draft: Draft, out: &mut Vec<ClashProduct>) -> Result<(), ClashFault>
    requires { All IsPaired (drafted draft) }
    ensures ok { OnOk result (map clash_of (flat_map systems_in out.new.items) ≡ map clash_of (flat_map systems_in out.old.items) ++ drafted draft) }
    ensures fits { OnOk result (¬ (AnyLarge (drafted draft))) }
    ensures large { IfErr result (λ e. e ≡ ClashFault.Large → AnyLarge (drafted draft)) }
{
    if !has_choice(draft.factors.as_slice()) {
        return Ok(());
    }
    let product = product_of(alloc, draft)?;
    let Ok(()) = out.push(product) else {
        return Err(ClashFault::Memory);
    };
    Ok(())
}

/// The products of drafts that have a choice, if all their systems keep the limits.
pub(crate) fn products_of(
    alloc: Global,
    drafts: Vec<Draft>,
) -> Result<Vec<ClashProduct>, ClashFault>
    requires { All IsPaired (flat_map drafted drafts.items) }
    ensures ok { IfOk result (λ ps. map clash_of (flat_map systems_in ps.items) ≡ flat_map drafted drafts.items) }
    ensures fits { IfOk result (λ ps. ¬ (AnyLarge (flat_map drafted drafts.items))) }
    ensures large { IfErr result (λ e. e ≡ ClashFault.Large → AnyLarge (flat_map drafted drafts.items)) }
{
    let mut out = Vec::new(alloc);
    for draft in drafts {
        add_product(alloc, draft, &mut out)?;
    }
    Ok(out)
}
