//! Verdicts on numbers, forms and lists of numbers.
ghost use Rattle.affc_certvalue.specs.Verdicts.{whole, within, any_number, many, form_over, all_of, form_entries, list};
ghost use Rattle.serde_json.specs.Find.{as_array};
ghost use Rattle.serde_json.specs.View.{view, items_view};
ghost use Rattle.std.specs.Prelude.{◌≡◌, ◌^◌, ◌<◌, ◌≤◌, ◌≤ℤ◌, None, pos};

use crate::verdict::Verdict;
use serde_json::Value;

/// The verdict on a number that has to be whole and between these.
pub fn number_verdict(value: &Value, low: i64, high: i64) -> Verdict
    ensures { result ≡ whole low high (view value.now) }
{
    let Some(number) = value.as_number() else {
        return Verdict::Shape;
    };
    match number.as_i64() {
        None => Verdict::Number,
        Some(z) => {
            if z < low || high < z {
                Verdict::Number
            } else {
                Verdict::Fine
            }
        }
    }
}

/// The verdict on a number that has to be whole and of at most this magnitude.
pub fn size_verdict(value: &Value, most: i64) -> Verdict
    requires { pos 0 ≤ℤ most }
    ensures { result ≡ within most (view value.now) }
{
    number_verdict(value, -most, most)
}

/// The verdict on coefficients.
#[tactic(auto, using(crate::proofs::Steps::list_steps))]
pub fn coefs_verdict(items: &[Value], most: i64) -> Verdict
    requires { pos 0 ≤ℤ most }
    ensures { result ≡ all_of (within most) (items_view items.now) }
{
    let mut worst = Verdict::Fine;
    for value in items {
        worst = worst.and(size_verdict(value, most));
    }
    worst
}

/// The verdict on the entries of a form: coefficients and then a constant.
#[tactic(auto, using(crate::proofs::Parts::entry_steps))]
pub fn entries_verdict(items: &[Value], most: i64, most_constant: i64) -> Verdict
    requires coefs { pos 0 ≤ℤ most }
    requires constant { pos 0 ≤ℤ most_constant }
    ensures { result ≡ form_entries most most_constant (items_view items.now) }
{
    let count = items.len();
    if count == 0 {
        return Verdict::Shape;
    }
    let coefs = coefs_verdict(&items[..count - 1], most);
    coefs.and(size_verdict(&items[count - 1], most_constant))
}

/// The verdict on a form over so many columns.
#[tactic(auto, using(crate::proofs::Lengths::length_steps))]
pub fn form_verdict(value: &Value, columns: usize, most: i64, most_constant: i64) -> Verdict
    requires columns { columns < 2 ^ 63 }
    requires coefs { pos 0 ≤ℤ most }
    requires constant { pos 0 ≤ℤ most_constant }
    ensures { result ≡ list (form_over columns most most_constant) (view value.now) }
{
    let Some(items) = value.as_array() else {
        return Verdict::Shape;
    };
    if items.len() != columns + 1 {
        return Verdict::Shape;
    }
    entries_verdict(items.as_slice(), most, most_constant)
}

/// The verdict on a number without a limit of its own.
pub fn any_verdict(value: &Value) -> Verdict
    ensures { result ≡ any_number (view value.now) }
{
    number_verdict(value, i64::MIN, i64::MAX)
}

/// The verdict on numbers without limits of their own.
#[tactic(auto, using(crate::proofs::Steps::list_steps))]
fn all_numbers(items: &[Value]) -> Verdict
    ensures { result ≡ all_of any_number (items_view items.now) }
{
    let mut worst = Verdict::Fine;
    for value in items {
        worst = worst.and(any_verdict(value));
    }
    worst
}

/// The verdict on a list of numbers without limits of their own.
pub fn numbers_verdict(value: &Value) -> Verdict
    ensures { result ≡ list (all_of any_number) (view value.now) }
{
    match value.as_array() {
        None => Verdict::Shape,
        Some(items) => all_numbers(items.as_slice()),
    }
}

/// The verdict on a list of so many numbers without limits of their own.
#[tactic(auto, using(crate::proofs::Lengths::length_steps))]
pub fn counted_numbers_verdict(value: &Value, count: usize) -> Verdict
    ensures { result ≡ list (many count any_number) (view value.now) }
{
    let Some(items) = value.as_array() else {
        return Verdict::Shape;
    };
    if items.len() != count {
        return Verdict::Shape;
    }
    all_numbers(items.as_slice())
}
