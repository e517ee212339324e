//! What the loops and conditions of a text say of its instances. Each law is the contract of a function that does nothing.
ghost use Rattle.affc_domain.specs.Laws.{InstancesTurn, OrderOfTheText, FormsHaveTheValue, IteratorsKeepRanges};

/// An instance is in the trace exactly where its iterators turn under the loops and conditions round its statement.
pub fn instances_turn()
    ensures law { InstancesTurn }
{}

/// The earlier instance is the lesser one at the first common loop at which two differ, or the one whose assignment
/// stands earlier in the text.
pub fn order_of_the_text()
    ensures law { OrderOfTheText }
{}

/// The form of an affine expression has its value.
pub fn forms_have_the_value()
    ensures law { FormsHaveTheValue }
{}

/// The iterators of an instance lie in the ranges that the interval rule gives them.
pub fn iterators_keep_ranges()
    ensures law { IteratorsKeepRanges }
{}
