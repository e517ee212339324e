//! JSON values of folds.
ghost use Rattle.affc_certvalue.specs.fold.Entries.{coefs_of, entry_of};
ghost use Rattle.affc_certvalue.specs.fold.Values.{clash_value, fold_value, folds_value, least_value, matrix_value, moduli_value, modulus_value, point_value};
ghost use Rattle.serde_json.specs.Data.{put as with_member};
ghost use Rattle.serde_json.specs.View.{view, members_view};
ghost use Rattle.std.specs.Prelude.{◌≡◌, map, IfOk, OnOk};

use crate::fold::fold::{CertFold, CertLeast, CertModulus};
use crate::write::{coefs, form, list, numbers};
use affc_rows::Form;
use serde_json::{Map, Value, put};
use sqlite_items::Items;
use std::alloc::{AllocError, Global};

/// The value of rows without constants.
#[tactic(auto, using(crate::proofs::fold::Found::row_steps))]
fn matrix(alloc: Global, forms: &[Form]) -> Result<Value, AllocError>
    ensures { IfOk result (λ v. view v ≡ matrix_value (coefs_of forms.now)) }
{
    let mut values = Vec::new(alloc);
    for form in forms {
        values.push(coefs(alloc, form.coefs.as_slice())?)?;
    }
    Ok(list(values))
}

/// Puts rows without constants under a key.
fn put_matrix(
    alloc: Global,
    map: &mut Map<String, Value>,
    key: &str,
    forms: &[Form],
) -> Result<(), AllocError>
    ensures { OnOk result (members_view map.new.entries ≡ with_member key.now (matrix_value (coefs_of forms.now)) (members_view map.old.entries)) }
{
    put(map, alloc, key, matrix(alloc, forms)?)
}

/// The value of the number of a clash system.
fn clash(pair: &Option<(i64, Items<i64>)>) -> Value
    ensures { view result ≡ clash_value pair.now }
{
    match pair {
        None => Value::Null,
        Some(pair) => Value::from(pair.0),
    }
}

/// The value of the point of a clash system.
fn point(alloc: Global, pair: &Option<(i64, Items<i64>)>) -> Result<Value, AllocError>
    ensures { IfOk result (λ v. view v ≡ point_value pair.now) }
{
    match pair {
        None => Ok(Value::Null),
        Some(pair) => numbers(alloc, pair.1.as_slice()),
    }
}

/// The value of what shows that a modulus is least.
fn mark(alloc: Global, least: &Option<CertLeast>) -> Result<Value, AllocError>
    ensures { IfOk result (λ v. view v ≡ least_value least.now) }
{
    let Some(least) = least else {
        return Ok(Value::Null);
    };
    let mut map = Map::new(alloc);
    put(&mut map, alloc, "clash", clash(&least.pair))?;
    put(&mut map, alloc, "p", numbers(alloc, least.p.as_slice())?)?;
    put(&mut map, alloc, "point", point(alloc, &least.pair)?)?;
    Ok(Value::Object(map))
}

/// The value of a modulus.
fn modulus(alloc: Global, modulus: &CertModulus) -> Result<Value, AllocError>
    ensures { IfOk result (λ v. view v ≡ modulus_value modulus.now) }
{
    let mut map = Map::new(alloc);
    put(&mut map, alloc, "form", form(alloc, &modulus.form)?)?;
    put(&mut map, alloc, "least", mark(alloc, &modulus.least)?)?;
    Ok(Value::Object(map))
}

/// The value of moduli.
fn moduli_list(alloc: Global, moduli: &[CertModulus]) -> Result<Value, AllocError>
    ensures { IfOk result (λ v. view v ≡ moduli_value moduli.now) }
{
    let mut values = Vec::new(alloc);
    for item in moduli {
        values.push(modulus(alloc, item)?)?;
    }
    Ok(list(values))
}

/// The value of a fold.
fn fold(alloc: Global, fold: &CertFold) -> Result<Value, AllocError>
    ensures { IfOk result (λ v. view v ≡ fold_value (entry_of fold.now)) }
{
    let mut map = Map::new(alloc);
    put(&mut map, alloc, "array", Value::from(fold.array.0))?;
    put_matrix(alloc, &mut map, "inverse", fold.basis.inverse.as_slice())?;
    put(
        &mut map,
        alloc,
        "moduli",
        moduli_list(alloc, fold.moduli.as_slice())?,
    )?;
    put_matrix(alloc, &mut map, "rows", fold.basis.rows.as_slice())?;
    Ok(Value::Object(map))
}

/// The value of folds.
#[tactic(auto, using(crate::proofs::fold::Found::draft_steps))]
pub fn folds(alloc: Global, folds: &[CertFold]) -> Result<Value, AllocError>
    ensures { IfOk result (λ v. view v ≡ folds_value (map entry_of folds.now)) }
{
    let mut values = Vec::new(alloc);
    for item in folds {
        values.push(fold(alloc, item)?)?;
    }
    Ok(list(values))
}
