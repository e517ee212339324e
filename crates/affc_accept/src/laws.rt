//! What a certificate that is accepted shows. Each law is the contract of a function that does nothing.
ghost use Rattle.affc_accept.specs.Laws.{AcceptedShows, AcceptedIsNotRefused};
ghost use Rattle.affc_accept.specs.Columns.{ColumnsComeBack};
ghost use Rattle.affc_accept.specs.Layouts.{LayoutsAreOfNests};

/// A certificate that is read for the layout of a nest may be checked for it.
pub fn layouts_are_of_nests()
    ensures law { LayoutsAreOfNests }
{}

/// A certificate that is accepted shows that the accesses are right, the schedule is legal and the folds are right.
pub fn accepted_shows()
    ensures law { AcceptedShows }
{}

/// It is refused for want of memory, and for nothing else.
pub fn accepted_is_not_refused()
    ensures law { AcceptedIsNotRefused }
{}

/// What a text has with the iterators first comes back.
pub fn columns_come_back()
    ensures law { ColumnsComeBack }
{}
