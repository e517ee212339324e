//! Places that were found by hand.
ghost use Rattle.std.specs.Prelude.{◌≡◌, ◌∷◌, [], IfOk, length, pos};
ghost use Rattle.affc_rows.specs.Forms.{HaveColumns};
ghost use Rattle.affc_basis.specs.Bases.{AreWithin, HaveCoefsWithin};

use affc_basis::basis::given;
use affc_basis::{Fold, Mark, Modulus};
use affc_rows::Form;
use smallvec::SmallVec;
use sqlite_items::Items;
use std::alloc::{AllocError, Global};
use std::test::Fail;

/// A form over two columns: its coefficients and its constant.
type Row = [i8; 3];

fn form(alloc: Global, row: Row) -> Result<Form, AllocError>
    ensures columns { IfOk result (λ f. length f.coefs ≡ 2) }
    ensures small { IfOk result (λ f. AreWithin 256 f.coefs) }
{
    let [first, second, constant] = row;
    let coefs = SmallVec::from_slice(alloc, &[i128::from(first), i128::from(second)])?;
    Ok(Form {
        coefs,
        constant: i128::from(constant),
    })
}

fn forms(alloc: Global, rows: [Row; 2]) -> Result<Items<Form>, AllocError>
    ensures two { IfOk result (λ fs. length fs ≡ 2) }
    ensures columns { IfOk result (λ fs. HaveColumns 2 fs) }
    ensures small { IfOk result (λ fs. HaveCoefsWithin 256 fs) }
{
    let [first, second] = rows;
    let mut forms = Items::new(alloc);
    forms.push(form(alloc, first)?)?;
    forms.push(form(alloc, second)?)?;
    Ok(forms)
}

/// `N + constant`.
fn modulus(alloc: Global, constant: u8) -> Result<Modulus, AllocError>
    ensures { IfOk result (λ m. m.form ≡ record { coefs = pos 1 ∷ []; constant = pos constant }) }
{
    let coefs = SmallVec::from_slice(alloc, &[1])?;
    Ok(Modulus {
        form: Form {
            coefs,
            constant: i128::from(constant),
        },
        mark: Mark::Bound,
    })
}

/// The place of an element on the rows x0 + x1 and x1, with the moduli N + 1 and N, at N = 2.
fn place(alloc: Global, element: [i64; 2]) -> Result<Option<[i64; 2]>, AllocError> {
    let rows = forms(alloc, [[1, 1, 0], [0, 1, 0]])?;
    let inverse = forms(alloc, [[1, -1, 0], [0, 1, 0]])?;
    let Ok(basis) = given(rows, inverse) else {
        return Ok(None);
    };
    let mut moduli = Items::new(alloc);
    moduli.push(modulus(alloc, 1)?)?;
    moduli.push(modulus(alloc, 0)?)?;
    let fold = Fold { basis, moduli };
    Ok(Some([fold.place(0, &element, &[2]), fold.place(1, &element, &[2])]))
}

#[test]
fn places(rt: HostRuntime) -> Result<(), Fail> {
    let rows = [
        ([0, 0], [0, 0]),
        ([1, 1], [2, 1]),
        ([2, 1], [0, 1]),
        ([4, 3], [1, 1]),
        // distances below zero
        ([-1, 0], [2, 0]),
        ([0, -1], [2, 1]),
        ([-4, -2], [0, 0]),
        ([i64::MIN, i64::MAX], [2, 1]),
    ];
    for (element, want) in rows {
        assert_eq!(rt; place(rt.alloc(), element)?, Some(want));
    }
    Ok(())
}
