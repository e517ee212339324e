//! The questions on small trees, as laws: `specs/Examples.antt` says each, with rows that were found by hand.
ghost use Rattle.affc_flow.specs.Examples.{RowsOfAStore, OwnStoreIsLater, NoSuchStore, NoStore, LoadsInOrder};

/// Leaves that name an instance.
pub fn stores()
    ensures rows_of_a_store { RowsOfAStore }
    ensures own_store_is_later { OwnStoreIsLater }
    ensures no_such_store { NoSuchStore }
{}

/// Leaves that name none, and the trees of all loads.
pub fn inputs()
    ensures no_store { NoStore }
    ensures loads_in_order { LoadsInOrder }
{}
