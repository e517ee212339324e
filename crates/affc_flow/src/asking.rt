//! Forms of columns, and the store of a part.
ghost use Rattle.std.specs.Prelude.{◌≡◌, ◌++◌, ◌∷◌, [], length, IsTrue, IfOk, IfSome, IfNone};
ghost use Rattle.std.specs.List.{All};
ghost use Rattle.affc_system.specs.Systems.{IsRow};
ghost use Rattle.affc_trace.specs.Inverses.{columns_from};
ghost use Rattle.affc_flow.specs.Asked.{writers_of};

use crate::load::Load;
use crate::questions::{Unasked, count};
use affc_nest::lists::add_copies;
use affc_nest::{Access, Entry};
use affc_order::columns::columns_from;
use affc_rows::Form;
use sqlite_items::Items;
use std::alloc::Global;

/// So many columns from one on.
pub fn column_forms(alloc: Global, columns: u32, first: u32, n: u32) -> Result<Vec<Form>, Unasked>
    ensures { IfOk result (λ v. v.items ≡ columns_from columns first n) }
{
    if first > 64 || n > 64 {
        return Err(Unasked::Large);
    }
    Ok(columns_from(alloc, columns, first, n)?)
}

/// The columns of the parameters, and these forms behind them.
pub fn images_of(
    alloc: Global,
    load: &Load<'_>,
    columns: u32,
    forms: &[Form],
) -> Result<Items<Form>, Unasked>
    ensures { IfOk result (λ fs. fs ≡ columns_from columns 0 (length load.now.nest.now.params) ++ forms.now) }
{
    let params = count(load.nest.params.ranges().len())?;
    let own = column_forms(alloc, columns, 0, params)?;
    let mut images = Items::from_vec(own);
    add_copies(forms, &mut images)?;
    Ok(images)
}

/// The store of a part that can have instances, if it is one of this array.
pub fn store_for(entry: &Entry, array: u32) -> Option<&Access>
    ensures none { IfNone result (writers_of array entry.now ≡ []) }
    ensures some { IfSome result (λ y. writers_of array entry.now ≡ (entry.now, y.now) ∷ []) }
    ensures living { IfSome result (λ y. IsTrue entry.now.alive) }
{
    if !entry.alive {
        return None;
    }
    let accesses = entry.accesses.as_slice();
    if accesses.is_empty() {
        return None;
    }
    let store = &accesses[accesses.len() - 1];
    if store.array.0 != array {
        return None;
    }
    Some(store)
}
