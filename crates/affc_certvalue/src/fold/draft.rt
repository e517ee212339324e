//! Folds before rows and inverse forms are multiplied.
ghost use Rattle.affc_basis.specs.Bases.{HaveCoefsWithin, IsSquare};
ghost use Rattle.affc_certvalue.specs.fold.Bases.{plain};
ghost use Rattle.affc_certvalue.specs.fold.Entries.{coefs_of};
ghost use Rattle.std.specs.Prelude.{◌≡◌};

use crate::fold::fold::CertModulus;
use affc_ast::tree::ArrayId;
use affc_rows::Form;
use sqlite_items::Items;

/// A fold whose rows and inverse forms are not yet multiplied.
#[derive(Drop)]
pub struct Draft {
    pub array: ArrayId,
    pub rows: Items<Form>,
    pub inverse: Items<Form>,
    pub moduli: Items<CertModulus>,
    ghost plain_rows: { rows ≡ plain (coefs_of rows) },
    ghost plain_inverse: { inverse ≡ plain (coefs_of inverse) },
    ghost square: { IsSquare rows inverse },
    ghost row_bounds: { HaveCoefsWithin 256 rows },
    ghost inverse_bounds: { HaveCoefsWithin 256 inverse },
}
