//! Folds of a certificate.
use affc_ast::tree::ArrayId;
use affc_basis::Basis;
use affc_rows::Form;
use sqlite_items::Items;

/// That a modulus is least: the values of the parameters, and where the modulus is more than 1 there, the number of a clash system
/// with one of its points.
#[derive(Drop)]
pub struct CertLeast {
    pub p: Items<i64>,
    pub pair: Option<(i64, Items<i64>)>,
}

/// A modulus, a form over the parameters, and what shows that it is least.
#[derive(Drop)]
pub struct CertModulus {
    pub form: Form,
    pub least: Option<CertLeast>,
}

/// The fold of a temporary.
#[derive(Drop)]
pub struct CertFold {
    pub array: ArrayId,
    pub basis: Basis,
    pub moduli: Items<CertModulus>,
}
