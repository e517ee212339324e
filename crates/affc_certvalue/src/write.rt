//! JSON values of numbers and forms.
ghost use Rattle.affc_certvalue.specs.Values.{whole_value, list_value, numbers_value, form_value};
ghost use Rattle.serde_json.specs.View.{view};
ghost use Rattle.std.specs.Prelude.{◌≡◌, ◌++◌, map, IfOk, OnOk};

use affc_rows::Form;
use serde_json::{Number, Value};
use std::alloc::{AllocError, Global};

/// A list of these values.
pub fn list(values: Vec<Value>) -> Value
    ensures { view result ≡ list_value (map view values.items) }
{
    Value::from(values)
}

/// A number. A number past 64 bits has no value, and comes from no certificate within the limits.
pub fn whole(number: i128) -> Result<Value, AllocError>
    ensures { IfOk result (λ v. view v ≡ whole_value number) }
{
    match Number::from_i128(number) {
        Some(number) => Ok(Value::from(number)),
        None => Err(AllocError),
    }
}

/// Adds numbers to a list.
fn add_wholes(values: &mut Vec<Value>, numbers: &[i128]) -> Result<(), AllocError>
    ensures { OnOk result (map view values.new.items ≡ map view values.old.items ++ map whole_value numbers.now) }
{
    for number in numbers {
        values.push(whole(*number)?)?;
    }
    Ok(())
}

/// The value of a form.
pub fn form(alloc: Global, form: &Form) -> Result<Value, AllocError>
    ensures { IfOk result (λ v. view v ≡ form_value form.now) }
{
    let mut values = Vec::new(alloc);
    add_wholes(&mut values, form.coefs.as_slice())?;
    values.push(whole(form.constant)?)?;
    Ok(list(values))
}

/// The value of coefficients.
pub fn coefs(alloc: Global, numbers: &[i128]) -> Result<Value, AllocError>
    ensures { IfOk result (λ v. view v ≡ numbers_value numbers.now) }
{
    let mut values = Vec::new(alloc);
    add_wholes(&mut values, numbers)?;
    Ok(list(values))
}

/// The value of numbers.
pub fn numbers(alloc: Global, numbers: &[i64]) -> Result<Value, AllocError>
    ensures { IfOk result (λ v. view v ≡ numbers_value numbers.now) }
{
    let mut values = Vec::new(alloc);
    for number in numbers {
        values.push(Value::from(*number))?;
    }
    Ok(list(values))
}
