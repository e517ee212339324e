//! Tests of moduli that are proposed.
ghost use Rattle.std.specs.Prelude.{◌≡◌, ℤ, List, ◌+◌, ◌-◌, ◌^◌, ◌<◌, ◌≤◌, ◌-ℤ◌, ◌≤ℤ◌, unsigned_abs, pos, Some, take, IfOk, IfErr, IsTrue, length};
ghost use Rattle.std.specs.List.{All};
ghost use Rattle.affc_rows.specs.Forms.{value};
ghost use Rattle.affc_split.specs.Budgets.{IsLater};
ghost use Rattle.affc_split.specs.maximum.Regions.{InRegion, IsBounded, IsMeasure};
ghost use Rattle.affc_basis.specs.Moduli.{IsModulus};
ghost use Rattle.affc_moduli.specs.Enough.{IsBelow, AreBelow, AreComparable};

use crate::bounds::{begins_void, is_at_most};
use affc_rows::Form;
use affc_split::maximum::{Region, reaching};
use affc_split::{Budget, Stop};
use std::alloc::{AllocError, Global};

/// The form less a modulus.
fn less_modulus(
    alloc: Global,
    form: &Form,
    modulus: &Form,
    columns: u32,
) -> Result<Form, AllocError>
    requires width { length form.now.coefs ≡ columns }
    requires coefs { All (λ c. unsigned_abs c ≤ 2 ^ 27) form.now.coefs }
    requires constant { unsigned_abs form.now.constant ≤ 2 ^ 35 }
    requires modulus { IsModulus (length modulus.now.coefs) modulus.now }
    requires within { length modulus.now.coefs ≤ columns }
    ensures measure { IfOk result (λ f. IsMeasure columns f) }
    ensures value { IfOk result (λ f. (z : List ℤ) → length z ≡ columns → value f z ≡ value form.now z -ℤ value modulus.now (take (length modulus.now.coefs) z)) }
{
    let modulus = modulus.padded(alloc, columns)?;
    Form::mixture(alloc, 1, form, -1, &modulus)
}

/// Whether a form is below a modulus at each point of its region.
fn is_below(
    alloc: Global,
    region: &Region,
    form: &Form,
    modulus: &Form,
    budget: &mut Budget,
) -> Result<bool, Stop>
    requires width { length form.now.coefs ≡ region.now.system.columns }
    requires coefs { All (λ c. unsigned_abs c ≤ 2 ^ 27) form.now.coefs }
    requires constant { unsigned_abs form.now.constant ≤ 2 ^ 35 }
    requires modulus { IsModulus (length modulus.now.coefs) modulus.now }
    requires within { length modulus.now.coefs ≤ region.now.system.columns }
    requires room { length region.now.system.rows < 1024 }
    ensures below { IfOk result (λ b. IsTrue b → IsBelow region.now form.now modulus.now) }
    ensures later { IsLater budget.old budget.new }
    ensures stop { IfErr result (λ e. e ≡ Stop.Budget → budget.new.limit ≡ Some budget.new.spent) }
{
    if begins_void(region) {
        return Ok(true);
    }
    let columns = region.system.columns();
    let Ok(difference) = less_modulus(alloc, form, modulus, columns) else {
        return Err(Stop::Memory);
    };
    if is_at_most(region, &difference, -1) {
        return Ok(true);
    }
    let found = reaching(alloc, region, &difference, 0, budget)?;
    Ok(found.is_none())
}

/// Whether a modulus is at least 1 at each point of the context.
pub fn is_positive(
    alloc: Global,
    context: &Region,
    modulus: &Form,
    budget: &mut Budget,
) -> Result<bool, Stop>
    requires modulus { IsModulus context.now.system.columns modulus.now }
    requires room { length context.now.system.rows < 1024 }
    ensures positive { IfOk result (λ b. IsTrue b → (p : List ℤ) → InRegion context.now p → pos 1 ≤ℤ value modulus.now p) }
    ensures later { IsLater budget.old budget.new }
    ensures stop { IfErr result (λ e. e ≡ Stop.Budget → budget.new.limit ≡ Some budget.new.spent) }
{
    let Ok(nothing) = Form::number(alloc, context.system.columns(), 0) else {
        return Err(Stop::Memory);
    };
    is_below(alloc, context, &nothing, modulus, budget)
}

/// Whether a modulus is nowhere in the context above a number.
pub fn is_within(
    alloc: Global,
    context: &Region,
    modulus: &Form,
    most: i64,
    budget: &mut Budget,
) -> Result<bool, Stop>
    requires modulus { IsModulus context.now.system.columns modulus.now }
    requires near { unsigned_abs most ≤ 2 ^ 55 }
    requires room { length context.now.system.rows < 1024 }
    ensures within { IfOk result (λ b. IsTrue b → IsBounded context.now modulus.now most) }
    ensures later { IsLater budget.old budget.new }
    ensures stop { IfErr result (λ e. e ≡ Stop.Budget → budget.new.limit ≡ Some budget.new.spent) }
{
    if is_at_most(context, modulus, most) {
        return Ok(true);
    }
    let found = reaching(alloc, context, modulus, most + 1, budget)?;
    Ok(found.is_none())
}

/// Whether each form is below a modulus at each point of its region.
pub fn all_below(
    alloc: Global,
    regions: &[Region],
    forms: &[Form],
    modulus: &Form,
    budget: &mut Budget,
) -> Result<bool, Stop>
    requires one_each { length forms.now ≡ length regions.now }
    requires modulus { IsModulus (length modulus.now.coefs) modulus.now }
    requires comparable { AreComparable (length modulus.now.coefs) regions.now forms.now }
    ensures below { IfOk result (λ b. IsTrue b → AreBelow regions.now forms.now modulus.now) }
    ensures later { IsLater budget.old budget.new }
    ensures stop { IfErr result (λ e. e ≡ Stop.Budget → budget.new.limit ≡ Some budget.new.spent) }
{
    for i in 0..regions.len() {
        if !is_below(alloc, &regions[i], &forms[i], modulus, budget)? {
            return Ok(false);
        }
    }
    Ok(true)
}
