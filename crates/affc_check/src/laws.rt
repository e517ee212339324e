//! What the validity of a certificate gives. Each law is the contract of a function that does nothing.
ghost use Rattle.affc_check.specs.Layouts.{ReadIsFor};
ghost use Rattle.affc_check.specs.Laws.{ValidGives, CertsAreRead, ValidCertsGive, FailingIsNotValid};

/// A valid certificate of a program shows that its accesses are right, its schedule is legal and its folds are right.
pub fn valid_gives()
    ensures law { ValidGives }
{}

/// What is asked of this holds of a certificate for the program's nest.
pub fn certs_are_read()
    ensures law { CertsAreRead }
{}

/// Such a certificate shows it where it is valid.
pub fn valid_certs_give()
    ensures law { ValidCertsGive }
{}

/// A certificate of which an item fails isn't valid.
pub fn failing_is_not_valid()
    ensures law { FailingIsNotValid }
{}

/// A certificate that was read for the layout of a nest keeps the limits that are asked of it.
pub fn read_is_for()
    ensures law { ReadIsFor }
{}
