//! What a walk for clash systems is asked, and the systems before their limits are looked at.
ghost use Rattle.std.specs.Prelude.{◌≡◌, length};

use affc_ast::tree::ArrayId;
use affc_nest::Nest;
use affc_rows::Form;
use affc_system::BoxOf;
use affc_trace::schedule::Schedule;
use sqlite_items::Items;

/// The loads of one array, and the stores of another or the same that one schedule runs after the instance that a load finds
/// and another or the same before the load; and whether only elements with different subscripts are pairs.
#[derive(Clone, Copy, Drop)]
pub(crate) struct Walking<'a> {
    pub nest: &'a Nest,
    pub loaded: ArrayId,
    pub stored: ArrayId,
    pub after: &'a Schedule,
    pub before: &'a Schedule,
    pub differ: bool,
}

/// Systems over so many columns, the ranges of these, and the subscripts of the element that is loaded and of the one that is
/// stored. The rows of each are those of the front and, behind them, one alternative of each factor: the store runs after the
/// instance that the leaf names, it runs before the load, and the elements differ if they have to.
#[derive(Drop)]
pub(crate) struct Draft {
    pub columns: u32,
    pub front: Vec<Form>,
    pub factors: Items<Items<Items<Form>>>,
    pub ranges: BoxOf,
    pub x: Vec<Form>,
    pub y: Vec<Form>,
    ghost three: { length factors ≡ 3 },
}
