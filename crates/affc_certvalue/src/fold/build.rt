//! Folds from their JSON values. What has no fold is refused with want of memory: the verdict on the value comes first.
ghost use Rattle.affc_basis.specs.Bases.{AreWithin, HaveCoefsWithin};
ghost use Rattle.affc_certvalue.specs.fold.Bases.{plain, IsBasis};
ghost use Rattle.affc_certvalue.specs.fold.Drafts.{draft_entry};
ghost use Rattle.affc_certvalue.specs.fold.Entries.{coefs_of, entry_of};
ghost use Rattle.affc_certvalue.specs.fold.Values.{clash_value, fold_value, folds_value, least_value, matrix_value, moduli_value, modulus_value, point_value};
ghost use Rattle.affc_certvalue.specs.Values.{numbers_value, whole_value};
ghost use Rattle.affc_rows.specs.Forms.{HaveColumns};
ghost use Rattle.serde_json.specs.View.{view};
ghost use Rattle.std.specs.Prelude.{◌≡◌, length, map, pos, Some, IfNone, IfOk, IfSome, IsTrue};

use crate::build::{coefs, form, numbers, whole};
use crate::fold::draft::Draft;
use crate::fold::fold::{CertFold, CertLeast, CertModulus};
use crate::keys::has_keys;
use affc_ast::tree::ArrayId;
use affc_basis::basis::given;
use affc_rows::Form;
use serde_json::Value;
use sqlite_items::Items;
use std::alloc::{AllocError, Global};

/// The rows that these values are.
#[tactic(auto, using(crate::proofs::fold::Found::row_steps))]
fn rows_among(alloc: Global, items: &[Value]) -> Result<Items<Form>, AllocError>
    ensures values { IfOk result (λ v. map numbers_value (coefs_of v) ≡ map view items.now) }
    ensures plain { IfOk result (λ v. v ≡ plain (coefs_of v)) }
{
    let mut rows = Items::new(alloc);
    for value in items {
        rows.push(coefs(alloc, value)?)?;
    }
    Ok(rows)
}

/// The rows that a value is.
#[tactic(auto, using(crate::proofs::Found::is_list))]
fn matrix(alloc: Global, value: &Value) -> Result<Items<Form>, AllocError>
    ensures values { IfOk result (λ v. matrix_value (coefs_of v) ≡ view value.now) }
    ensures plain { IfOk result (λ v. v ≡ plain (coefs_of v)) }
{
    let Some(items) = value.as_array() else {
        return Err(AllocError);
    };
    rows_among(alloc, items.as_slice())
}

/// The number of a clash system with its point, where both are there.
fn pair_at(
    alloc: Global,
    clash: &Value,
    point: &Value,
) -> Result<Option<(i64, Items<i64>)>, AllocError>
    ensures clash { IfOk result (λ o. clash_value o ≡ view clash.now) }
    ensures point { IfOk result (λ o. point_value o ≡ view point.now) }
{
    if clash.is_null() && point.is_null() {
        return Ok(None);
    }
    let Some(number) = whole(clash) else {
        return Err(AllocError);
    };
    let point = numbers(alloc, point)?;
    Ok(Some((number, point)))
}

/// What shows that a modulus is least.
fn witness(alloc: Global, value: &Value) -> Result<CertLeast, AllocError>
    ensures { IfOk result (λ l. least_value (Some l) ≡ view value.now) }
{
    if !has_keys(value, &["clash", "p", "point"]) {
        return Err(AllocError);
    }
    let Some(clash) = value.get("clash") else {
        return Err(AllocError);
    };
    let Some(p) = value.get("p") else {
        return Err(AllocError);
    };
    let Some(point) = value.get("point") else {
        return Err(AllocError);
    };
    let p = numbers(alloc, p)?;
    let pair = pair_at(alloc, clash, point)?;
    Ok(CertLeast { p, pair })
}

/// What shows that a modulus is least, if anything does.
fn mark(alloc: Global, value: &Value) -> Result<Option<CertLeast>, AllocError>
    ensures { IfOk result (λ o. least_value o ≡ view value.now) }
{
    if value.is_null() {
        return Ok(None);
    }
    Ok(Some(witness(alloc, value)?))
}

/// The modulus that a value is.
#[tactic(auto, using(crate::proofs::fold::Found::objects_found))]
fn modulus(alloc: Global, value: &Value) -> Result<CertModulus, AllocError>
    ensures { IfOk result (λ m. modulus_value m ≡ view value.now) }
{
    if !has_keys(value, &["form", "least"]) {
        return Err(AllocError);
    }
    let Some(row) = value.get("form") else {
        return Err(AllocError);
    };
    let Some(beside) = value.get("least") else {
        return Err(AllocError);
    };
    let form = form(alloc, row)?;
    let least = mark(alloc, beside)?;
    Ok(CertModulus { form, least })
}

/// The moduli that these values are.
#[tactic(auto, using(crate::proofs::Found::map_steps))]
fn moduli_among(alloc: Global, items: &[Value]) -> Result<Items<CertModulus>, AllocError>
    ensures { IfOk result (λ v. map modulus_value v ≡ map view items.now) }
{
    let mut moduli = Items::new(alloc);
    for value in items {
        moduli.push(modulus(alloc, value)?)?;
    }
    Ok(moduli)
}

/// The moduli that a value is.
#[tactic(auto, using(crate::proofs::Found::is_list))]
fn moduli_list(alloc: Global, value: &Value) -> Result<Items<CertModulus>, AllocError>
    ensures { IfOk result (λ v. moduli_value v ≡ view value.now) }
{
    let Some(items) = value.as_array() else {
        return Err(AllocError);
    };
    moduli_among(alloc, items.as_slice())
}

/// The array whose number a value is.
fn array_id(value: &Value) -> Option<ArrayId>
    ensures { IfSome result (λ a. whole_value (pos a.0) ≡ view value.now) }
{
    let number = whole(value)?;
    let number = u32::try_from(number).ok()?;
    Some(ArrayId(number))
}

/// Whether each form has so many coefficients, each within 256.
fn are_rows(forms: &[Form], count: usize) -> bool
    ensures columns { IsTrue result → HaveColumns count forms.now }
    ensures bounds { IsTrue result → HaveCoefsWithin 256 forms.now }
{
    forms.iter().all(|form| is_row(form, count))
}

/// Whether a form has so many coefficients, each within 256.
fn is_row(form: &Form, count: usize) -> bool
    ensures columns { IsTrue result → length form.now.coefs ≡ count }
    ensures bounds { IsTrue result → AreWithin 256 form.now.coefs }
{
    form.coefs.len() == count && form.coefs.iter().all(|c| -256 <= *c && *c <= 256)
}

/// A fold of these parts, where they are of one size.
fn drafted(
    array: ArrayId,
    rows: Items<Form>,
    inverse: Items<Form>,
    moduli: Items<CertModulus>,
) -> Option<Draft>
    requires rows { rows ≡ plain (coefs_of rows) }
    requires inverse { inverse ≡ plain (coefs_of inverse) }
    ensures { IfSome result (λ d. draft_entry d ≡ record { array = array.0; rows = coefs_of rows; inverse = coefs_of inverse; moduli = moduli }) }
{
    let count = rows.len();
    if count > 4 || inverse.len() != count {
        return None;
    }
    if !are_rows(rows.as_slice(), count) || !are_rows(inverse.as_slice(), count) {
        return None;
    }
    Some(Draft {
        array,
        rows,
        inverse,
        moduli,
    })
}

/// The fold that a value is.
#[tactic(auto, using(crate::proofs::fold::Found::objects_found))]
fn read_draft(alloc: Global, value: &Value) -> Result<Draft, AllocError>
    ensures { IfOk result (λ d. fold_value (draft_entry d) ≡ view value.now) }
{
    if !has_keys(value, &["array", "inverse", "moduli", "rows"]) {
        return Err(AllocError);
    }
    let Some(number) = value.get("array") else {
        return Err(AllocError);
    };
    let Some(second) = value.get("inverse") else {
        return Err(AllocError);
    };
    let Some(third) = value.get("moduli") else {
        return Err(AllocError);
    };
    let Some(first) = value.get("rows") else {
        return Err(AllocError);
    };
    let Some(array) = array_id(number) else {
        return Err(AllocError);
    };
    let inverse = matrix(alloc, second)?;
    let moduli = moduli_list(alloc, third)?;
    let rows = matrix(alloc, first)?;
    match drafted(array, rows, inverse, moduli) {
        Some(draft) => Ok(draft),
        None => Err(AllocError),
    }
}

/// The folds that these values are.
#[tactic(auto, using(crate::proofs::fold::Found::draft_steps))]
fn drafts_among(alloc: Global, items: &[Value]) -> Result<Vec<Draft>, AllocError>
    ensures { IfOk result (λ v. map fold_value (map draft_entry v.items) ≡ map view items.now) }
{
    let mut drafts = Vec::new(alloc);
    for value in items {
        drafts.push(read_draft(alloc, value)?)?;
    }
    Ok(drafts)
}

/// The folds that a value is.
#[tactic(auto, using(crate::proofs::Found::is_list))]
pub fn drafts(alloc: Global, value: &Value) -> Result<Vec<Draft>, AllocError>
    ensures { IfOk result (λ v. folds_value (map draft_entry v.items) ≡ view value.now) }
{
    let Some(items) = value.as_array() else {
        return Err(AllocError);
    };
    drafts_among(alloc, items.as_slice())
}

/// The fold of a draft whose rows and inverse forms multiply to the identity.
#[tactic(auto, using(crate::proofs::fold::Products::broken_draft))]
pub fn multiplied(draft: Draft) -> Option<CertFold>
    ensures some { IfSome result (λ f. entry_of f ≡ draft_entry draft) }
    ensures none { IfNone result (¬ (IsBasis (draft_entry draft))) }
{
    let Draft {
        array,
        rows,
        inverse,
        moduli,
    } = draft;
    match given(rows, inverse) {
        Ok(basis) => Some(CertFold {
            array,
            basis,
            moduli,
        }),
        Err(_) => None,
    }
}
