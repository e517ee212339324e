//! Plain expressions as affine forms.
ghost use Rattle.std.specs.Prelude.{◌≡◌, ◌++◌, map, IfOk, IsTrue};
ghost use Rattle.affc_domain.specs.Affine.{form_of};
ghost use Rattle.affc_domain.specs.Plain.{all_plain};

use affc_ast::Items;
use affc_ast::tree::Ix;
use affc_nest::forms::form_over;
use affc_rows::Form;
use std::alloc::{AllocError, Global};

/// Adds the forms of plain expressions.
#[tactic(auto, using(crate::proofs::Steps::one_more_form))]
fn add_forms(
    alloc: Global,
    names: u32,
    es: &[Ix],
    made: Items<Form>,
) -> Result<Items<Form>, AllocError>
    requires { IsTrue (all_plain names es.now) }
    ensures { IfOk result (λ fs. fs ≡ made ++ map (form_of names 0) es.now) }
{
    let mut made = made;
    match es {
        [] => Ok(made),
        [e, rest @ ..] => {
            made.push(form_over(alloc, names, 0, e)?)?;
            add_forms(alloc, names, rest, made)
        }
    }
}

/// The forms of plain expressions over the names in sight.
pub(crate) fn forms(alloc: Global, names: u32, es: &[Ix]) -> Result<Items<Form>, AllocError>
    requires { IsTrue (all_plain names es.now) }
    ensures { IfOk result (λ fs. fs ≡ map (form_of names 0) es.now) }
{
    add_forms(alloc, names, es, Items::new(alloc))
}
