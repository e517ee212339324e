//! Numbers and forms from their JSON values. What has none is refused with want of memory: the verdict on the value comes first.
ghost use Rattle.affc_certvalue.specs.Values.{whole_value, numbers_value, form_value};
ghost use Rattle.serde_json.specs.View.{view};
ghost use Rattle.std.specs.Prelude.{◌≡◌, map, pos, IfOk, IfSome, Some};

use affc_rows::{Coefs, Form};
use serde_json::Value;
use smallvec::SmallVec;
use sqlite_items::Items;
use std::alloc::{AllocError, Global};

/// The whole number that a value is.
#[tactic(auto, using(crate::proofs::Found::number_steps))]
pub fn whole(value: &Value) -> Option<i64>
    ensures { IfSome result (λ z. whole_value z ≡ view value.now) }
{
    let number = value.as_number()?;
    match number.as_u64() {
        Some(n) => i64::try_from(n).ok(),
        None => {
            let z = number.as_i64()?;
            if z < 0 { Some(z) } else { None }
        }
    }
}

/// The whole numbers that these values are.
#[tactic(auto, using(crate::proofs::Found::map_steps))]
fn wholes(alloc: Global, items: &[Value]) -> Result<Coefs, AllocError>
    ensures { IfOk result (λ v. map whole_value v.items ≡ map view items.now) }
{
    let mut numbers = SmallVec::new(alloc);
    for value in items {
        let Some(number) = whole(value) else {
            return Err(AllocError);
        };
        numbers.push(i128::from(number))?;
    }
    Ok(numbers)
}

/// The form that a value is.
#[tactic(auto, using(crate::proofs::Found::form_steps))]
pub fn form(alloc: Global, value: &Value) -> Result<Form, AllocError>
    ensures { IfOk result (λ f. form_value f ≡ view value.now) }
{
    let Some(items) = value.as_array() else {
        return Err(AllocError);
    };
    let count = items.len();
    if count == 0 {
        return Err(AllocError);
    }
    let Some(constant) = whole(&items[count - 1]) else {
        return Err(AllocError);
    };
    let coefs = wholes(alloc, &items[..count - 1])?;
    Ok(Form {
        coefs,
        constant: i128::from(constant),
    })
}

/// The coefficients that a value is, as a form with the constant 0.
#[tactic(auto, using(crate::proofs::Found::form_steps))]
pub fn coefs(alloc: Global, value: &Value) -> Result<Form, AllocError>
    ensures { IfOk result (λ f. (numbers_value f.coefs ≡ view value.now) × (f.constant ≡ pos 0)) }
{
    let Some(items) = value.as_array() else {
        return Err(AllocError);
    };
    let coefs = wholes(alloc, items.as_slice())?;
    Ok(Form { coefs, constant: 0 })
}

/// The numbers that these values are.
#[tactic(auto, using(crate::proofs::Found::map_steps))]
fn numbers_among(alloc: Global, items: &[Value]) -> Result<Items<i64>, AllocError>
    ensures { IfOk result (λ v. map whole_value v ≡ map view items.now) }
{
    let mut numbers = Items::new(alloc);
    for value in items {
        let Some(number) = whole(value) else {
            return Err(AllocError);
        };
        numbers.push(number)?;
    }
    Ok(numbers)
}

/// The numbers that a value is.
#[tactic(auto, using(crate::proofs::Found::is_list))]
pub fn numbers(alloc: Global, value: &Value) -> Result<Items<i64>, AllocError>
    ensures { IfOk result (λ v. numbers_value v ≡ view value.now) }
{
    let Some(items) = value.as_array() else {
        return Err(AllocError);
    };
    numbers_among(alloc, items.as_slice())
}
