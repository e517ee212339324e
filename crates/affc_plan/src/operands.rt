//! Forms of expressions, where each part is within the limits.

ghost use Rattle.std.specs.Prelude.{◌≡◌, ◌∷◌, [], ◌^◌, ◌≤◌, All, reverse, pos, negsuc, true, false, length, replicate, unsigned_abs, map, IfOk};
ghost use Rattle.affc_rows.specs.Forms.{mixed_form};
ghost use Rattle.affc_trace.specs.Target.{are_slight};
ghost use Rattle.affc_domain.specs.Affine.{unit_of, product_form};
ghost use Rattle.affc_schedtext.specs.Terms.{term};
ghost use Rattle.affc_schedtext.specs.Rules.{column_named};
ghost use Rattle.affc_schedtext.specs.Seen.{scope_seen};
ghost use Rattle.affc_plan.specs.Few.{AreFew};
ghost use Rattle.affc_plan.specs.Operands as spec;
ghost use Rattle.affc_plan.specs.Operands.{is_slight, kept, mixture, multiple, operand_of, IsOperandOver};
ghost use Rattle.affc_plan.specs.Seen.{columns_seen};

use crate::columns::{Columns, column_of};
use affc_rows::Form;
use affc_schedtext::terms::{Step, Term};
use std::alloc::{AllocError, Global};

/// Whether names stand in an expression, and its form.
#[derive(Drop)]
pub(crate) struct Operand {
    pub named: bool,
    pub form: Form,
}

/// `s` times a slight form plus `t` times another.
fn mixed(
    alloc: Global,
    columns: u32,
    s: i128,
    a: &Form,
    t: i128,
    b: &Form,
) -> Result<Form, AllocError>
    requires columns { (length a.now.coefs ≡ columns) × (length b.now.coefs ≡ columns) }
    requires factors { (unsigned_abs s ≤ 2 ^ 30) × (unsigned_abs t ≤ 2 ^ 30) }
    requires slight { (is_slight a.now ≡ true) × (is_slight b.now ≡ true) }
    ensures value { IfOk result (λ f. f ≡ mixed_form s a.now t b.now) }
    ensures width { IfOk result (λ f. length f.coefs ≡ columns) }
{
    Form::mixture(alloc, s, a, t, b)
}

fn all_slight(coefs: &[i128]) -> bool
    ensures { result ≡ are_slight coefs.now }
{
    for c in coefs {
        if c.unsigned_abs() > 256 {
            return false;
        }
    }
    true
}

/// Whether the constant is at most 2^30 and each coefficient at most 256 in magnitude.
fn has_slight(form: &Form) -> bool
    ensures { result ≡ is_slight form.now }
{
    form.constant.unsigned_abs() <= 1073741824 && all_slight(form.coefs.as_slice())
}

/// The form, if it is slight.
fn keep(named: bool, form: Form) -> Option<Operand>
    ensures value { result ≡ kept named form }
    ensures fits { IsOperandOver (length form.coefs) result }
{
    if has_slight(&form) {
        Some(Operand { named, form })
    } else {
        None
    }
}

/// One form plus `t` times another, if it is slight.
fn sum(
    alloc: Global,
    columns: u32,
    a: &Option<Operand>,
    t: i128,
    b: &Option<Operand>,
) -> Result<Option<Operand>, AllocError>
    requires factor { unsigned_abs t ≤ 1 }
    requires first { IsOperandOver columns a.now }
    requires second { IsOperandOver columns b.now }
    ensures value { IfOk result (λ r. r ≡ mixture (pos 1) a.now t b.now) }
    ensures fits { IfOk result (λ r. IsOperandOver columns r) }
{
    let Some(a) = a else {
        return Ok(None);
    };
    let Some(b) = b else {
        return Ok(None);
    };
    let form = mixed(alloc, columns, 1, &a.form, t, &b.form)?;
    Ok(keep(a.named || b.named, form))
}

fn opposite(alloc: Global, columns: u32, a: &Option<Operand>) -> Result<Option<Operand>, AllocError>
    requires operand { IsOperandOver columns a.now }
    ensures value { IfOk result (λ r. r ≡ mixture (negsuc 0) a.now (pos 0) a.now) }
    ensures fits { IfOk result (λ r. IsOperandOver columns r) }
{
    let Some(a) = a else {
        return Ok(None);
    };
    let form = mixed(alloc, columns, -1, &a.form, 0, &a.form)?;
    Ok(keep(a.named || a.named, form))
}

/// The form of a product, whose first side holds names or not.
fn product_of(alloc: Global, columns: u32, a: &Operand, b: &Operand) -> Result<Form, AllocError>
    requires first { (is_slight a.now.form ≡ true) × (length a.now.form.coefs ≡ columns) }
    requires second { (is_slight b.now.form ≡ true) × (length b.now.form.coefs ≡ columns) }
    ensures value { IfOk result (λ f. f ≡ product_form a.now.named a.now.form b.now.form) }
    ensures width { IfOk result (λ f. length f.coefs ≡ columns) }
{
    if a.named {
        mixed(alloc, columns, b.form.constant, &a.form, 0, &b.form)
    } else {
        mixed(alloc, columns, 0, &a.form, a.form.constant, &b.form)
    }
}

/// The product, if it is slight.
fn product(
    alloc: Global,
    columns: u32,
    a: &Option<Operand>,
    b: &Option<Operand>,
) -> Result<Option<Operand>, AllocError>
    requires first { IsOperandOver columns a.now }
    requires second { IsOperandOver columns b.now }
    ensures value { IfOk result (λ r. r ≡ multiple a.now b.now) }
    ensures fits { IfOk result (λ r. IsOperandOver columns r) }
{
    let Some(a) = a else {
        return Ok(None);
    };
    let Some(b) = b else {
        return Ok(None);
    };
    let form = product_of(alloc, columns, a, b)?;
    Ok(keep(a.named || b.named, form))
}

fn literal(alloc: Global, columns: u32, value: u64) -> Result<Option<Operand>, AllocError>
    ensures value { IfOk result (λ r. r ≡ kept false (record { coefs = replicate columns (pos 0); constant = pos value })) }
    ensures fits { IfOk result (λ r. IsOperandOver columns r) }
{
    let form = Form::number(alloc, columns, i128::from(value))?;
    Ok(keep(false, form))
}

/// The number of a column; that of the first where the name stands for none.
fn number_of(columns: Columns<'_>, name: &str) -> u32
    requires { AreFew columns.scope }
    ensures { result ≡ column_named (scope_seen columns.entry.scope name.now) }
{
    match column_of(columns, name) {
        Some(column) => column,
        None => 0,
    }
}

fn name(alloc: Global, columns: Columns<'_>, name: &str) -> Result<Option<Operand>, AllocError>
    requires { AreFew columns.scope }
    ensures value { IfOk result (λ r. r ≡ kept true (record { coefs = unit_of columns.entry.count (column_named (scope_seen columns.entry.scope name.now)); constant = pos 0 })) }
    ensures fits { IfOk result (λ r. IsOperandOver columns.entry.count r) }
{
    let number = number_of(columns, name);
    let form = Form::column(alloc, columns.count, number)?;
    Ok(keep(true, form))
}

// ---- Steps

/// The last of the operands, if there is one, and those before it.
fn parted(columns: u32, operands: Vec<Option<Operand>>) -> (Option<Operand>, Vec<Option<Operand>>)
    requires { All (IsOperandOver columns) operands.items }
    ensures last { result.0 ≡ spec.top (reverse operands.items) }
    ensures others { reverse result.1.items ≡ spec.below (reverse operands.items) }
    ensures fits { IsOperandOver columns result.0 }
    ensures fit { All (IsOperandOver columns) result.1.items }
{
    let mut operands = operands;
    match operands.pop() {
        Some(last) => (last, operands),
        None => (None, operands),
    }
}

/// With one more behind them.
fn with_operand(
    columns: u32,
    operands: Vec<Option<Operand>>,
    one: Option<Operand>,
) -> Result<Vec<Option<Operand>>, AllocError>
    requires fit { All (IsOperandOver columns) operands.items }
    requires fits { IsOperandOver columns one }
    ensures value { IfOk result (λ v. reverse v.items ≡ one ∷ reverse operands.items) }
    ensures fit { IfOk result (λ v. All (IsOperandOver columns) v.items) }
{
    let mut operands = operands;
    operands.push(one)?;
    Ok(operands)
}

/// With the last one taken the other way round.
fn with_opposite(
    alloc: Global,
    columns: u32,
    operands: Vec<Option<Operand>>,
) -> Result<Vec<Option<Operand>>, AllocError>
    requires fit { All (IsOperandOver columns) operands.items }
    ensures value { IfOk result (λ v. reverse v.items ≡ spec.opposite_last (reverse operands.items)) }
    ensures fit { IfOk result (λ v. All (IsOperandOver columns) v.items) }
{
    let (a, operands) = parted(columns, operands);
    let one = opposite(alloc, columns, &a)?;
    with_operand(columns, operands, one)
}

/// With the sum of the last two, the last one `t` times.
fn with_sum(
    alloc: Global,
    columns: u32,
    t: i128,
    operands: Vec<Option<Operand>>,
) -> Result<Vec<Option<Operand>>, AllocError>
    requires factor { unsigned_abs t ≤ 1 }
    requires fit { All (IsOperandOver columns) operands.items }
    ensures value { IfOk result (λ v. reverse v.items ≡ spec.sum_last t (reverse operands.items)) }
    ensures fit { IfOk result (λ v. All (IsOperandOver columns) v.items) }
{
    let (b, operands) = parted(columns, operands);
    let (a, operands) = parted(columns, operands);
    let one = sum(alloc, columns, &a, t, &b)?;
    with_operand(columns, operands, one)
}

/// With the product of the last two.
fn with_product(
    alloc: Global,
    columns: u32,
    operands: Vec<Option<Operand>>,
) -> Result<Vec<Option<Operand>>, AllocError>
    requires fit { All (IsOperandOver columns) operands.items }
    ensures value { IfOk result (λ v. reverse v.items ≡ spec.product_last (reverse operands.items)) }
    ensures fit { IfOk result (λ v. All (IsOperandOver columns) v.items) }
{
    let (b, operands) = parted(columns, operands);
    let (a, operands) = parted(columns, operands);
    let one = product(alloc, columns, &a, &b)?;
    with_operand(columns, operands, one)
}

fn with_grouped(
    columns: u32,
    operands: Vec<Option<Operand>>,
) -> Result<Vec<Option<Operand>>, AllocError>
    requires fit { All (IsOperandOver columns) operands.items }
    ensures value { IfOk result (λ v. reverse v.items ≡ spec.top (reverse operands.items) ∷ spec.below (reverse operands.items)) }
    ensures fit { IfOk result (λ v. All (IsOperandOver columns) v.items) }
{
    let (a, operands) = parted(columns, operands);
    with_operand(columns, operands, a)
}

/// With what a step makes of them.
fn with_step(
    alloc: Global,
    columns: Columns<'_>,
    operands: Vec<Option<Operand>>,
    step: &Step,
) -> Result<Vec<Option<Operand>>, AllocError>
    requires few { AreFew columns.scope }
    requires fit { All (IsOperandOver columns.count) operands.items }
    ensures value { IfOk result (λ v. reverse v.items ≡ spec.found (columns_seen columns.entry) step.now (reverse operands.items)) }
    ensures fit { IfOk result (λ v. All (IsOperandOver columns.entry.count) v.items) }
{
    let count = columns.count;
    match step {
        Step::Literal { value, .. } => {
            let one = literal(alloc, count, *value)?;
            with_operand(count, operands, one)
        }
        Step::Name { name: own, .. } => {
            let one = name(alloc, columns, own.as_str())?;
            with_operand(count, operands, one)
        }
        Step::Negated(_) => with_opposite(alloc, count, operands),
        Step::Sum => with_sum(alloc, count, 1, operands),
        Step::Difference => with_sum(alloc, count, -1, operands),
        Step::Product(_) => with_product(alloc, count, operands),
        Step::Grouped(_) => with_grouped(count, operands),
    }
}

fn all_steps(
    alloc: Global,
    columns: Columns<'_>,
    steps: &[Step],
) -> Result<Vec<Option<Operand>>, AllocError>
    requires { AreFew columns.scope }
    ensures value { IfOk result (λ v. reverse v.items ≡ spec.found_all (columns_seen columns.entry) steps.now []) }
    ensures fit { IfOk result (λ v. All (IsOperandOver columns.entry.count) v.items) }
{
    let mut operands = Vec::new(alloc);
    for step in steps {
        operands = with_step(alloc, columns, operands, step)?;
    }
    Ok(operands)
}

/// The form of an expression, where each part of it is slight.
#[tactic(auto, using(crate::proofs::StepLaws::walks))]
pub(crate) fn linear_operand(
    alloc: Global,
    columns: Columns<'_>,
    e: &Term,
) -> Result<Option<Operand>, AllocError>
    requires { AreFew columns.scope }
    ensures form { IfOk result (λ r. r ≡ operand_of (columns_seen columns.entry) (term e.now)) }
    ensures fits { IfOk result (λ r. IsOperandOver columns.entry.count r) }
{
    let operands = all_steps(alloc, columns, e.steps.as_slice())?;
    let (whole, _) = parted(columns.count, operands);
    Ok(whole)
}
