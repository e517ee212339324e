//! Verdicts on folds.
ghost use Rattle.affc_certvalue.specs.fold.Folds.{alike, fold, is_null, is_null_there, matrix, modulus, nullable, same_number, this_number, witness};
ghost use Rattle.affc_certvalue.specs.Verdicts.{all_of, any_number, at_key, list, many, form_over, within};
ghost use Rattle.serde_json.specs.View.{view, items_view};
ghost use Rattle.std.specs.Prelude.{◌≡◌, option_map, pos, Some};

use crate::fold::layout::Temporary;
use crate::judge::{
    any_verdict, coefs_verdict, counted_numbers_verdict, form_verdict, numbers_verdict,
};
use crate::keys::has_keys;
use crate::verdict::Verdict;
use serde_json::Value;

/// The greatest entry of a basis and its inverse.
const MOST_ENTRY: i64 = 256;

/// The greatest coefficient of a modulus.
const MOST_COEFFICIENT: i64 = 1 << 30;

/// The greatest constant of a modulus.
const MOST_CONSTANT: i64 = 1 << 55;

/// The verdict on a row of a basis.
#[tactic(auto, using(crate::proofs::Lengths::length_steps))]
fn row_verdict(value: &Value, count: usize) -> Verdict
    ensures { result ≡ list (many count (within (pos 256))) (view value.now) }
{
    let Some(items) = value.as_array() else {
        return Verdict::Shape;
    };
    if items.len() != count {
        return Verdict::Shape;
    }
    coefs_verdict(items.as_slice(), MOST_ENTRY)
}

/// The verdict on rows of a basis.
#[tactic(auto, using(crate::proofs::Steps::list_steps))]
fn rows_among(items: &[Value], count: usize) -> Verdict
    ensures { result ≡ all_of (list (many count (within (pos 256)))) (items_view items.now) }
{
    let mut worst = Verdict::Fine;
    for value in items {
        worst = worst.and(row_verdict(value, count));
    }
    worst
}

/// The verdict on the rows of a basis, as many as each has numbers.
#[tactic(auto, using(crate::proofs::Lengths::length_steps))]
fn matrix_verdict(value: Option<&Value>, count: usize) -> Verdict
    ensures { result ≡ at_key (matrix count) (option_map (λ v. view v.now) value.entry) }
{
    let Some(value) = value else {
        return Verdict::Shape;
    };
    let Some(items) = value.as_array() else {
        return Verdict::Shape;
    };
    if items.len() != count {
        return Verdict::Shape;
    }
    rows_among(items.as_slice(), count)
}

/// Whether null stands there.
fn is_null_there(value: Option<&Value>) -> bool
    ensures { result ≡ is_null_there (option_map (λ v. view v.now) value.entry) }
{
    match value {
        None => false,
        Some(value) => value.is_null(),
    }
}

/// The verdict on two values, of which both or none has to be null.
fn alike_verdict(first: bool, second: bool) -> Verdict
    ensures { result ≡ alike first second }
{
    match (first, second) {
        (true, true) => Verdict::Fine,
        (true, false) => Verdict::Shape,
        (false, true) => Verdict::Shape,
        (false, false) => Verdict::Fine,
    }
}

/// The verdict on the number of a clash system.
fn clash_verdict(value: Option<&Value>) -> Verdict
    ensures { result ≡ at_key (nullable any_number) (option_map (λ v. view v.now) value.entry) }
{
    match value {
        None => Verdict::Shape,
        Some(value) => {
            if value.is_null() {
                Verdict::Fine
            } else {
                any_verdict(value)
            }
        }
    }
}

/// The verdict on the point of a clash system.
fn point_verdict(value: Option<&Value>) -> Verdict
    ensures { result ≡ at_key (nullable (list (all_of any_number))) (option_map (λ v. view v.now) value.entry) }
{
    match value {
        None => Verdict::Shape,
        Some(value) => {
            if value.is_null() {
                Verdict::Fine
            } else {
                numbers_verdict(value)
            }
        }
    }
}

/// The verdict on the values of the parameters.
pub fn parameters_verdict(value: Option<&Value>, parameters: usize) -> Verdict
    ensures { result ≡ at_key (list (many parameters any_number)) (option_map (λ v. view v.now) value.entry) }
{
    match value {
        None => Verdict::Shape,
        Some(value) => counted_numbers_verdict(value, parameters),
    }
}

/// The verdict on what shows that a modulus is least.
#[tactic(auto, using(crate::proofs::fold::Keyed::witness_keys))]
fn witness_verdict(value: &Value, parameters: usize) -> Verdict
    ensures { result ≡ witness parameters (view value.now) }
{
    if !has_keys(value, &["clash", "p", "point"]) {
        return Verdict::Shape;
    }
    let clash = value.get("clash");
    let point = value.get("point");
    let parts = clash_verdict(clash).and(parameters_verdict(value.get("p"), parameters).and(
        point_verdict(point),
    ));
    parts.and(alike_verdict(is_null_there(clash), is_null_there(point)))
}

/// The verdict on what stands beside a modulus.
fn least_verdict(value: Option<&Value>, parameters: usize) -> Verdict
    ensures { result ≡ at_key (nullable (witness parameters)) (option_map (λ v. view v.now) value.entry) }
{
    match value {
        None => Verdict::Shape,
        Some(value) => {
            if value.is_null() {
                Verdict::Fine
            } else {
                witness_verdict(value, parameters)
            }
        }
    }
}

/// The verdict on a modulus's form.
fn modulus_form_verdict(value: Option<&Value>, parameters: u32) -> Verdict
    ensures { result ≡ at_key (list (form_over parameters (pos 1073741824) (pos 36028797018963968))) (option_map (λ v. view v.now) value.entry) }
{
    match value {
        None => Verdict::Shape,
        Some(value) => form_verdict(value, parameters as usize, MOST_COEFFICIENT, MOST_CONSTANT),
    }
}

/// The verdict on a modulus.
#[tactic(auto, using(crate::proofs::fold::Keyed::modulus_keys))]
fn modulus_verdict(value: &Value, parameters: u32) -> Verdict
    ensures { result ≡ modulus parameters (view value.now) }
{
    if !has_keys(value, &["form", "least"]) {
        return Verdict::Shape;
    }
    let form = modulus_form_verdict(value.get("form"), parameters);
    form.and(least_verdict(value.get("least"), parameters as usize))
}

/// The verdict on moduli.
#[tactic(auto, using(crate::proofs::Steps::list_steps))]
fn moduli_among(items: &[Value], parameters: u32) -> Verdict
    ensures { result ≡ all_of (modulus parameters) (items_view items.now) }
{
    let mut worst = Verdict::Fine;
    for value in items {
        worst = worst.and(modulus_verdict(value, parameters));
    }
    worst
}

/// The verdict on a list of so many moduli.
#[tactic(auto, using(crate::proofs::Lengths::length_steps))]
fn moduli_verdict(value: Option<&Value>, count: usize, parameters: u32) -> Verdict
    ensures { result ≡ at_key (list (many count (modulus parameters))) (option_map (λ v. view v.now) value.entry) }
{
    let Some(value) = value else {
        return Verdict::Shape;
    };
    let Some(items) = value.as_array() else {
        return Verdict::Shape;
    };
    if items.len() != count {
        return Verdict::Shape;
    }
    moduli_among(items.as_slice(), parameters)
}

/// The verdict on a number that has to be this one.
fn same_verdict(number: u32, value: Option<i64>) -> Verdict
    ensures { result ≡ same_number number value }
{
    match value {
        None => Verdict::Number,
        Some(value) => {
            if value == i64::from(number) {
                Verdict::Fine
            } else {
                Verdict::Shape
            }
        }
    }
}

/// The verdict on the number of an array.
fn array_verdict(value: Option<&Value>, array: u32) -> Verdict
    ensures { result ≡ at_key (this_number array) (option_map (λ v. view v.now) value.entry) }
{
    let Some(value) = value else {
        return Verdict::Shape;
    };
    match value.as_number() {
        None => Verdict::Shape,
        Some(number) => same_verdict(array, number.as_i64()),
    }
}

/// The verdict on the fold of a temporary.
#[tactic(auto, using(crate::proofs::fold::Keyed::fold_keys))]
pub fn fold_verdict(value: &Value, temporary: Temporary, parameters: u32) -> Verdict
    ensures { result ≡ fold parameters temporary (view value.now) }
{
    if !has_keys(value, &["array", "inverse", "moduli", "rows"]) {
        return Verdict::Shape;
    }
    let count = temporary.dimensions as usize;
    let array = array_verdict(value.get("array"), temporary.array);
    let inverse = matrix_verdict(value.get("inverse"), count);
    let moduli = moduli_verdict(value.get("moduli"), count, parameters);
    let rows = matrix_verdict(value.get("rows"), count);
    array.and(inverse.and(moduli.and(rows)))
}
