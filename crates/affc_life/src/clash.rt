//! Clash systems in product form.
ghost use Rattle.std.specs.Prelude.{◌≢◌, []};
ghost use Rattle.std.specs.List.{All};
ghost use Rattle.affc_system.specs.Systems.{IsRow};
ghost use Rattle.affc_products.specs.Products.{choices};

use affc_rows::Form;
use affc_system::PairSystem;
use sqlite_items::Items;

/// Clash systems of one load, leaf and store in product form: those of `base`, with one alternative of each factor behind its rows.
/// There is at least one.
#[derive(Drop)]
pub struct ClashProduct {
    pub base: PairSystem,
    pub factors: Items<Items<Items<Form>>>,
    ghost some: { choices factors ≢ [] },
    ghost fit: { All (All (All (IsRow base.system.columns))) factors },
}
