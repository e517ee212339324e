//! Questions in product form.
ghost use Rattle.std.specs.Prelude.{◌≤◌, ◌+◌, ◌++◌, ◌∷◌, [], length};
ghost use Rattle.std.specs.List.{All};
ghost use Rattle.affc_system.specs.Systems.{IsRow};
ghost use Rattle.affc_products.specs.Products.{tallest};

use affc_rows::Form;
use sqlite_items::Items;

/// Questions in product form: each is the rows of the front and, behind them, one alternative of each factor and then one of the
/// tails. No row is copied. All of them keep the limits of a system.
#[derive(Drop)]
pub struct Block<'a> {
    pub columns: u32,
    pub front: &'a [Form],
    pub factors: &'a [Items<Items<Form>>],
    pub tails: Items<Items<Form>>,
    ghost few_columns: { columns ≤ 128 },
    ghost front_fits: { All (IsRow columns) front.now },
    ghost factors_fit: { All (All (All (IsRow columns))) factors.now },
    ghost tails_fit: { All (All (IsRow columns)) tails },
    ghost room: { length front.now + tallest (factors.now ++ tails ∷ []) ≤ 1024 },
}
